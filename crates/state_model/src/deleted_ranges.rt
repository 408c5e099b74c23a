//! Ranges of keys that are deleted, shown by examples. Each computes.
ghost use Rattle.std.specs.Prelude.{◌≡◌, [], ◌∷◌, ◌++◌, map, replicate, Some, None};
ghost use Rattle.entry_model.specs.Entries.{del_entry};
ghost use Rattle.range_model.specs.Ranges.{range_of};
ghost use Rattle.range_model.specs.Sources.{Clears};
ghost use Rattle.table_model.specs.Tables.{source_pages};
ghost use Rattle.state_model.specs.Examples.{base, one_byte, small_store, after_changes, after_compaction, after_flush, two_cleared, cleared_keys, key, pages_of_plan, put_and_cleared, reaching, set_key, table_at};
ghost use Rattle.state_model.specs.Logs.{IsLoggedChange, filled_by, need_of};
ghost use Rattle.state_model.specs.Merges.{choose, planned};
ghost use Rattle.state_model.specs.View.{state_map, view};

/// Three keys in a table, two of which are deleted by a range; and one of them is put again.
#[tactic(auto, unfolding(block_model::specs::Pages::pages_for, block_model::specs::Bodies::entries_bytes, block_model::specs::Pages::block_length, block_model::specs::Pages::block_pages, block_model::specs::Pages::blocks_of, block_model::specs::Pages::data_pages, block_model::specs::Pages::index_length, entry_model::specs::Entries::filled, entry_model::specs::Entries::gap, key_base::specs::Limits::last_epoch))]
pub fn keys_that_a_range_deletes()
    ensures the_map { state_map two_cleared ≡ (key 0x63, 3 ∷ []) ∷ [] }
    ensures a_deleted_key { view two_cleared (key 0x62) ≡ Some None }
    ensures a_key_beyond { view two_cleared (key 0x64) ≡ None }
    ensures ten_bytes_of_log { filled_by (cleared_keys 0x61 0x63 ∷ []) ≡ 10 }
    ensures the_map_after_a_flush { state_map (after_flush two_cleared) ≡ (key 0x63, 3 ∷ []) ∷ [] }
    ensures the_range_is_its_tables { map (λ t. t.ranges) (after_flush two_cleared).tables ≡ (range_of (key 0x61) (key 0x63) ∷ []) ∷ [] ∷ [] }
    ensures with_a_tombstone_at_its_first_key { map (λ t. map (λ e. e.key) t.entries) (after_flush two_cleared).tables ≡ (key 0x61 ∷ []) ∷ (key 0x61 ∷ key 0x62 ∷ key 0x63 ∷ []) ∷ [] }
    ensures put_again { state_map (after_changes (after_flush two_cleared) (set_key 0x62 4 ∷ [])) ≡ (key 0x62, 4 ∷ []) ∷ (key 0x63, 3 ∷ []) ∷ [] }
{}

/// A compaction leaves no range, and no table where no key lives.
#[tactic(auto, unfolding(block_model::specs::Pages::pages_for, block_model::specs::Bodies::entries_bytes, block_model::specs::Pages::block_length, block_model::specs::Pages::block_pages, block_model::specs::Pages::blocks_of, block_model::specs::Pages::data_pages, block_model::specs::Pages::index_length, entry_model::specs::Entries::filled, entry_model::specs::Entries::gap, key_base::specs::Limits::last_epoch))]
pub fn ranges_that_are_compacted()
    ensures one_key_is_left { map (λ t. map (λ e. e.key) t.entries) (after_compaction two_cleared).tables ≡ (key 0x63 ∷ []) ∷ [] }
    ensures and_no_range { map (λ t. t.ranges) (after_compaction two_cleared).tables ≡ [] ∷ [] }
    ensures four_tables { map (λ t. t.level) put_and_cleared.tables ≡ 0 ∷ 0 ∷ 0 ∷ 0 ∷ [] }
    ensures become_none { (after_compaction put_and_cleared).tables ≡ [] }
{}

/// A table meets those below it up to the end of its ranges, and keeps them where a deeper table is.
#[tactic(auto, unfolding(block_model::specs::Pages::pages_for, block_model::specs::Bodies::entries_bytes, block_model::specs::Pages::block_length, block_model::specs::Pages::block_pages, block_model::specs::Pages::blocks_of, block_model::specs::Pages::data_pages, block_model::specs::Pages::index_length))]
pub fn ranges_that_are_merged()
    ensures keys_before_the_end_are_merged { pages_of_plan (choose (reaching (table_at 0 192 3 (key 3)) 6 ∷ table_at 0 195 3 (key 3) ∷ table_at 0 198 3 (key 3) ∷ table_at 0 201 3 (key 3) ∷ table_at 1 204 3 (key 5) ∷ table_at 1 207 3 (key 6) ∷ [])) ≡ 1 ∷ 192 ∷ 195 ∷ 198 ∷ 201 ∷ 204 ∷ [] }
    ensures kept_over_a_deeper_table { planned (table_at 6 500 3 (key 3) ∷ []) (record { inputs = reaching (table_at 0 192 3 (key 3)) 6 ∷ []; output = 1 }) ≡ record { entries = del_entry (key 3) ∷ []; ranges = range_of (key 3) (key 6) ∷ [] } ∷ [] }
    ensures dropped_where_there_is_none { planned [] (record { inputs = reaching (table_at 0 192 3 (key 3)) 6 ∷ []; output = 1 }) ≡ [] }
{}

/// Which tables are met by a range of their own, and by whose ranges.
#[tactic(auto, unfolding(block_model::specs::Pages::pages_for, block_model::specs::Bodies::entries_bytes, block_model::specs::Pages::block_length, block_model::specs::Pages::block_pages, block_model::specs::Pages::blocks_of, block_model::specs::Pages::data_pages, block_model::specs::Pages::index_length, entry_model::specs::Entries::filled, entry_model::specs::Entries::gap, key_base::specs::Limits::last_epoch))]
pub fn tables_that_ranges_reach()
    ensures a_range_up_to_their_least_key_does_not_meet_them { pages_of_plan (choose (table_at 0 192 3 (key 5) ∷ table_at 0 195 3 (key 5) ∷ table_at 0 198 3 (key 5) ∷ table_at 0 201 3 (key 5) ∷ reaching (table_at 1 204 3 (key 2)) 5 ∷ [])) ≡ 1 ∷ 192 ∷ 195 ∷ 198 ∷ 201 ∷ [] }
    ensures one_beyond_it_does { pages_of_plan (choose (table_at 0 192 3 (key 5) ∷ table_at 0 195 3 (key 5) ∷ table_at 0 198 3 (key 5) ∷ table_at 0 201 3 (key 5) ∷ reaching (table_at 1 204 3 (key 2)) 6 ∷ [])) ≡ 1 ∷ 192 ∷ 195 ∷ 198 ∷ 201 ∷ 204 ∷ [] }
    ensures the_greatest_end_counts { pages_of_plan (choose (reaching (table_at 0 192 3 (key 3)) 4 ∷ table_at 0 195 3 (key 3) ∷ reaching (table_at 0 198 3 (key 3)) 8 ∷ table_at 0 201 3 (key 3) ∷ table_at 1 204 3 (key 7) ∷ [])) ≡ 1 ∷ 192 ∷ 195 ∷ 198 ∷ 201 ∷ 204 ∷ [] }
{}

/// A range in the log, beside an entry there and over one of a table.
#[tactic(auto, unfolding(block_model::specs::Pages::pages_for, block_model::specs::Bodies::entries_bytes, block_model::specs::Pages::block_length, block_model::specs::Pages::block_pages, block_model::specs::Pages::blocks_of, block_model::specs::Pages::data_pages, block_model::specs::Pages::index_length, entry_model::specs::Entries::filled, entry_model::specs::Entries::gap, key_base::specs::Limits::last_epoch))]
pub fn ranges_that_are_logged()
    ensures eleven_bytes_of_room { need_of (cleared_keys 0x61 0x63) ≡ 11 }
    ensures it_is_logged_beside_entries { (after_changes small_store (set_key 0x61 1 ∷ cleared_keys 0x61 0x63 ∷ [])).log ≡ set_key 0x61 1 ∷ cleared_keys 0x61 0x63 ∷ [] }
    ensures a_covered_key_of_a_table { view (after_flush two_cleared) (key 0x62) ≡ Some None }
{}

/// Ranges take pages of an index, and their bounds have 1,024 bytes at most.
#[tactic(auto, unfolding(block_model::specs::Pages::pages_for, block_model::specs::Bodies::entries_bytes, block_model::specs::Pages::block_length, block_model::specs::Pages::block_pages, block_model::specs::Pages::blocks_of, block_model::specs::Pages::data_pages, block_model::specs::Pages::index_length, entry_model::specs::Entries::filled, entry_model::specs::Entries::gap, key_base::specs::Limits::last_epoch))]
pub fn what_ranges_take()
    ensures none { source_pages one_byte base (record { entries = del_entry (key 0x61) ∷ []; ranges = [] }) ≡ 3 }
    ensures some { source_pages one_byte base (record { entries = del_entry (key 0x61) ∷ []; ranges = range_of (key 0x61) (replicate 4080 0x62) ∷ [] }) ≡ 4 }
    ensures no_longer_bound { IsLoggedChange (Clears (range_of (key 0x61) (replicate 1025 0x62))) → ⊥ }
    ensures no_empty_bound { IsLoggedChange (Clears (range_of [] (key 0x62))) → ⊥ }
    ensures no_crossed_bounds { IsLoggedChange (cleared_keys 0x62 0x61) → ⊥ }
{}
