//! The definitions, shown by examples. Each computes.
ghost use Rattle.std.specs.Prelude.{◌≡◌, true, false, ⊤, [], ◌∷◌, ◌++◌, map, replicate, Some, None, Err, codes};
ghost use Rattle.byte_fields.specs.declared.parts.Part.TheVariants.{Block};
ghost use Rattle.byte_fields.specs.declared.parts.Damage.TheVariants.{Shape, Sum};
ghost use Rattle.entry_model.specs.Entries.{put_entry};
ghost use Rattle.map_model.specs.SortedMap.{get};
ghost use Rattle.range_model.specs.Sources.{Sets};
ghost use Rattle.state_model.specs.PlayLaws.{played_text};
ghost use Rattle.state_model.specs.Resets.{with_pages, with_settings};
ghost use Rattle.state_model.specs.Script.{Answers, AtDamage, AtDevice, AtQuit, Onward, Over, Script, AnsweredLines, turn_of, turn_of_slice};
ghost use Rattle.state_model.specs.Sound.{IsLeft};
ghost use Rattle.state_model.specs.SoundLaws.{SpeaksBytes};
ghost use Rattle.state_model.specs.Steps.{Reads, TakesMemory, Writes, said_before};
ghost use Rattle.state_model.specs.Tends.{Idle, MayWrite, Refused, Tend, started, with_job};
ghost use Rattle.state_model.specs.View.{state_map};
ghost use Rattle.line_model.specs.Limits.{key_limit, bound_limit};
ghost use Rattle.state_model.specs.Merges.{choose, is_deepest, level_limit};
ghost use Rattle.state_model.specs.Bounds.{admitted, get_bound, seek_bound};
ghost use Rattle.state_model.specs.Play.{played, played_in_slices};
ghost use Rattle.line_model.specs.Replies.{Done, Value, Missing, At, Pairs, End, Counted, About, Explained, Bye, Full, LongKey, ManyTables, LastEpoch, Memory, Device, Damaged, at_words, sum_word, text_of};
ghost use Rattle.line_model.specs.Requests.{Put, Del, Get, Seek, Range, Count, Estimate, Explain, Flush, Compact, Quit, Bad, request_of};
ghost use Rattle.state_model.specs.Examples.{all_read, all_written, base, cramped, five_and_six_under_one, grown_to, hashed, set_to, small_store, one_byte, key, put_one, four_tables, three_tables, aa1_and_ab1, tombstone_over_a_value, two_values, table_at, store_with, pages_of_plan, place_and_size};

/// Tables that are flushed, merged and compacted.
#[tactic(auto, unfolding(block_model::specs::Pages::pages_for, block_model::specs::Bodies::entries_bytes, block_model::specs::Pages::block_length, block_model::specs::Pages::block_pages, block_model::specs::Pages::blocks_of, block_model::specs::Pages::data_pages, block_model::specs::Pages::index_length, entry_model::specs::Entries::filled, entry_model::specs::Entries::gap, key_base::specs::Limits::last_epoch))]
pub fn merges_and_flushes()
    ensures a_tombstone_hides_and_a_compaction_drops_it { (played one_byte small_store (Put (key 0x61) (0x62 ∷ []) ∷ Flush ∷ Del (key 0x61) ∷ Flush ∷ Get (key 0x61) ∷ Compact ∷ Get (key 0x61) ∷ Explain (key 0x61) ∷ [])).0 ≡ Done ∷ Done ∷ Done ∷ Done ∷ Missing ∷ Done ∷ Missing ∷ Explained 0 0 0 ∷ [] }
    ensures tables_stand_in_the_first_gaps { map place_and_size (played one_byte small_store four_tables).1.tables ≡ (0 ∷ 201 ∷ 3 ∷ 1 ∷ 1 ∷ []) ∷ (0 ∷ 198 ∷ 3 ∷ 1 ∷ 1 ∷ []) ∷ (0 ∷ 195 ∷ 3 ∷ 1 ∷ 1 ∷ []) ∷ (0 ∷ 192 ∷ 3 ∷ 1 ∷ 1 ∷ []) ∷ [] }
    ensures four_tables_become_one { map place_and_size (played one_byte small_store (four_tables ++ put_one 0x65 ∷ [])).1.tables ≡ (1 ∷ 204 ∷ 3 ∷ 1 ∷ 4 ∷ []) ∷ [] }
    ensures the_merge_has_the_sixth_epoch { (played one_byte small_store (four_tables ++ put_one 0x65 ∷ [])).1.epoch ≡ 6 }
    ensures a_compaction_has_the_next_epoch { (played one_byte small_store (put_one 0x61 ∷ Compact ∷ [])).1.epoch ≡ 2 }
    ensures no_flush_at_the_last_epoch { (played one_byte (record small_store { epoch = 18446744073709551615 }) (put_one 0x61 ∷ Flush ∷ Get (key 0x61) ∷ Compact ∷ [])).0 ≡ Done ∷ LastEpoch ∷ Value (1 ∷ []) ∷ LastEpoch ∷ [] }
{}

/// What hides what, and where tables go.
#[tactic(auto, unfolding(block_model::specs::Pages::pages_for, block_model::specs::Bodies::entries_bytes, block_model::specs::Pages::block_length, block_model::specs::Pages::block_pages, block_model::specs::Pages::blocks_of, block_model::specs::Pages::data_pages, block_model::specs::Pages::index_length, entry_model::specs::Entries::filled, entry_model::specs::Entries::gap, key_base::specs::Limits::last_epoch))]
pub fn levels_and_gaps()
    ensures a_merge_keeps_a_tombstone_over_a_deeper_value { map place_and_size (played one_byte small_store (tombstone_over_a_value ++ put_one 0x65 ∷ [])).1.tables ≡ (1 ∷ 207 ∷ 3 ∷ 1 ∷ 4 ∷ []) ∷ (6 ∷ 192 ∷ 3 ∷ 1 ∷ 1 ∷ []) ∷ [] }
    ensures it_still_hides_it { get (state_map (played one_byte small_store (tombstone_over_a_value ++ put_one 0x65 ∷ [])).1) (key 0x61) ≡ None }
    ensures the_newest_table_counts { (played one_byte small_store (two_values ++ Get (key 0x61) ∷ Put (key 0x61) (3 ∷ []) ∷ Get (key 0x61) ∷ [])).0 ≡ Done ∷ Done ∷ Done ∷ Done ∷ Value (2 ∷ []) ∷ Done ∷ Value (3 ∷ []) ∷ [] }
    ensures its_block_alone_is_read { get_bound (played one_byte small_store two_values).1 (key 0x61) ≡ 1 }
    ensures none_is_read_where_the_memory_has_it { get_bound (played one_byte small_store (two_values ++ put_one 0x61 ∷ [])).1 (key 0x61) ≡ 0 }
    ensures a_table_goes_into_the_first_of_two_gaps { map place_and_size (played one_byte small_store (four_tables ++ put_one 0x65 ∷ Flush ∷ [])).1.tables ≡ (0 ∷ 192 ∷ 3 ∷ 1 ∷ 1 ∷ []) ∷ (1 ∷ 204 ∷ 3 ∷ 1 ∷ 4 ∷ []) ∷ [] }
    ensures a_flush_of_nothing_changes_nothing { (played one_byte small_store (Flush ∷ Compact ∷ [])).1 ≡ small_store }
    ensures a_flush_empties_the_log { (played one_byte small_store (put_one 0x61 ∷ Flush ∷ [])).1.log ≡ [] }
    ensures a_compaction_too { (played one_byte small_store (put_one 0x61 ∷ Compact ∷ [])).1.log ≡ [] }
    ensures a_table_that_touches_is_merged { pages_of_plan (choose (store_with (table_at 0 192 3 (key 3) ∷ table_at 0 195 3 (key 5) ∷ table_at 0 198 3 (key 4) ∷ table_at 0 201 3 (key 4) ∷ table_at 1 204 3 (key 2) ∷ table_at 1 207 3 (key 3) ∷ table_at 1 210 3 (key 5) ∷ table_at 1 213 3 (key 6) ∷ [])).tables) ≡ 1 ∷ 192 ∷ 195 ∷ 198 ∷ 201 ∷ 207 ∷ 210 ∷ [] }
    ensures a_level_may_be_full { pages_of_plan (choose (store_with (table_at 1 192 255 (key 2) ∷ table_at 1 447 1 (key 3) ∷ [])).tables) ≡ [] }
    ensures and_has_one_page_too_many { pages_of_plan (choose (store_with (table_at 1 192 255 (key 2) ∷ table_at 1 447 2 (key 3) ∷ table_at 2 500 9 (key 2) ∷ table_at 2 509 9 (key 3) ∷ [])).tables) ≡ 2 ∷ 192 ∷ 500 ∷ [] }
    ensures the_first_level_that_is_over_is_merged { pages_of_plan (choose (table_at 1 192 257 (key 2) ∷ table_at 2 449 2049 (key 3) ∷ [])) ≡ 2 ∷ 192 ∷ [] }
    ensures tombstones_stay_over_any_deeper_level { map (is_deepest (table_at 3 192 1 (key 2) ∷ [])) (0 ∷ 1 ∷ 2 ∷ 3 ∷ 6 ∷ []) ≡ false ∷ false ∷ false ∷ true ∷ true ∷ [] }
    ensures limits_of_the_levels { map level_limit (1 ∷ 2 ∷ 3 ∷ 4 ∷ 5 ∷ []) ≡ 256 ∷ 2048 ∷ 16384 ∷ 131072 ∷ 1048576 ∷ [] }
{}

/// A merge in merge slices of two blocks: two that read, one that writes and installs.
#[tactic(auto, unfolding(block_model::specs::Pages::pages_for, block_model::specs::Bodies::entries_bytes, block_model::specs::Pages::block_length, block_model::specs::Pages::block_pages, block_model::specs::Pages::blocks_of, block_model::specs::Pages::data_pages, block_model::specs::Pages::index_length, entry_model::specs::Entries::filled, entry_model::specs::Entries::gap, key_base::specs::Limits::last_epoch))]
pub fn merges_in_slices()
    ensures two_are_too_few { map place_and_size (played_in_slices one_byte 2 small_store (four_tables ++ replicate 2 (put_one 0x65))).1.tables ≡ (0 ∷ 201 ∷ 3 ∷ 1 ∷ 1 ∷ []) ∷ (0 ∷ 198 ∷ 3 ∷ 1 ∷ 1 ∷ []) ∷ (0 ∷ 195 ∷ 3 ∷ 1 ∷ 1 ∷ []) ∷ (0 ∷ 192 ∷ 3 ∷ 1 ∷ 1 ∷ []) ∷ [] }
    ensures three_are_enough { map place_and_size (played_in_slices one_byte 2 small_store (four_tables ++ replicate 3 (put_one 0x65))).1.tables ≡ (1 ∷ 204 ∷ 3 ∷ 1 ∷ 4 ∷ []) ∷ [] }
    ensures a_flush_between_them_stays { map place_and_size (played_in_slices one_byte 2 small_store (four_tables ++ put_one 0x65 ∷ Flush ∷ replicate 2 (put_one 0x66))).1.tables ≡ (0 ∷ 204 ∷ 3 ∷ 1 ∷ 1 ∷ []) ∷ (1 ∷ 207 ∷ 3 ∷ 1 ∷ 4 ∷ []) ∷ [] }
{}

/// Reads between two keys, and their bounds.
#[tactic(auto, unfolding(block_model::specs::Pages::pages_for, block_model::specs::Bodies::entries_bytes, block_model::specs::Pages::block_length, block_model::specs::Pages::block_pages, block_model::specs::Pages::blocks_of, block_model::specs::Pages::data_pages, block_model::specs::Pages::index_length, entry_model::specs::Entries::filled, entry_model::specs::Entries::gap, key_base::specs::Limits::last_epoch))]
pub fn reads_between_keys()
    ensures a_seek_steps_over_deleted_keys { (played one_byte small_store (three_tables ++ Seek (key 1) (Some (key 10)) ∷ [])).0 ≡ Done ∷ Done ∷ Done ∷ Done ∷ Done ∷ Done ∷ Done ∷ Done ∷ Done ∷ Done ∷ Done ∷ Done ∷ Done ∷ Done ∷ Done ∷ At (key 3) (1 ∷ []) ∷ [] }
    ensures its_bound_counts_them { seek_bound (played one_byte small_store three_tables).1 (key 1) (key 10) ≡ 6 }
    ensures it_counts_them_without_an_answer { seek_bound (played one_byte small_store three_tables).1 (key 1) (key 2) ≡ 6 }
    ensures it_counts_them_where_nothing_is_left { seek_bound (played one_byte small_store (put_one 1 ∷ put_one 2 ∷ Flush ∷ Del (key 1) ∷ Del (key 2) ∷ Flush ∷ [])).1 (key 1) (key 2) ≡ 6 }
    ensures numbers_of_a_table { (played one_byte small_store (aa1_and_ab1 ++ Count (codes "aa5") (codes "ab0") ∷ Estimate (codes "aa5") (codes "ab0") ∷ Explain (codes "aa9") ∷ Explain (codes "aa0") ∷ Explain (codes "ac0") ∷ Get (codes "aa9") ∷ [])).0 ≡ Done ∷ Done ∷ Done ∷ Counted 0 ∷ About 2 ∷ Explained 1 1 1 ∷ Explained 1 1 0 ∷ Explained 1 0 0 ∷ Missing ∷ [] }
    ensures both_ends_are_counted { (played one_byte small_store (aa1_and_ab1 ++ Count (codes "aa1") (codes "ab1") ∷ Count (codes "ab1") (codes "aa1") ∷ Estimate (codes "ab1") (codes "aa1") ∷ [])).0 ≡ Done ∷ Done ∷ Done ∷ Counted 2 ∷ Counted 0 ∷ About 0 ∷ [] }
    ensures the_memory_is_estimated_too { (played one_byte small_store (aa1_and_ab1 ++ Del (codes "aa7") ∷ Estimate (codes "aa5") (codes "ab0") ∷ [])).0 ≡ Done ∷ Done ∷ Done ∷ Done ∷ About 3 ∷ [] }
    ensures pairs_between_two_keys { (played one_byte small_store (Put (key 0x61) [] ∷ Put (key 0x62) (1 ∷ []) ∷ Range [] (key 0x7a) 1 ∷ Range [] (key 0x7a) 0 ∷ Seek (key 0x63) None ∷ Seek (key 0x62) (Some (key 0x61)) ∷ Seek [] None ∷ Quit ∷ Flush ∷ [])).0 ≡ Done ∷ Done ∷ Pairs ((key 0x61, []) ∷ []) (End 1) ∷ Pairs [] (End 0) ∷ Missing ∷ Missing ∷ At (key 0x61) [] ∷ Bye ∷ [] }
{}

/// Where lack of memory, a failed read and a failed write may be met, and what these leave.
#[tactic(auto, unfolding(block_model::specs::Pages::pages_for, block_model::specs::Bodies::entries_bytes, block_model::specs::Pages::block_length, block_model::specs::Pages::block_pages, block_model::specs::Pages::blocks_of, block_model::specs::Pages::data_pages, block_model::specs::Pages::index_length, entry_model::specs::Entries::filled, entry_model::specs::Entries::gap, key_base::specs::Limits::last_epoch))]
pub fn where_faults_are_met()
    ensures a_get_reads_a_table { Reads (played one_byte small_store two_values).1 (Get (key 0x61)) }
    ensures but_not_where_the_memory_has_the_key { Reads (played one_byte small_store (two_values ++ put_one 0x61 ∷ [])).1 (Get (key 0x61)) → ⊥ }
    ensures a_range_of_no_pairs_reads_nothing { Reads (played one_byte small_store two_values).1 (Range [] (key 0x7a) 0) → ⊥ }
    ensures a_flush_of_nothing_takes_no_memory { TakesMemory small_store Flush → ⊥ }
    ensures one_of_an_entry_writes { Writes one_byte (played one_byte small_store (put_one 0x61 ∷ [])).1 Flush }
    ensures but_not_at_the_last_epoch { Writes one_byte (record small_store { epoch = 18446744073709551615; log = Sets (put_entry (key 0x61) (1 ∷ [])) ∷ [] }) Flush → ⊥ }
    ensures a_range_has_said_its_first_pairs { said_before (played one_byte small_store (put_one 0x61 ∷ put_one 0x62 ∷ [])).1 (Range [] (key 0x7a) 2) Device (Pairs ((key 0x61, 1 ∷ []) ∷ []) Device) }
    ensures a_failed_write_leaves_the_store_or_another { IsLeft one_byte small_store small_store }
    ensures but_no_job { IsLeft one_byte small_store (with_job small_store (started (record { inputs = []; output = 1 }))) → ⊥ }
    ensures a_flush_goes_on { AnsweredLines (λ why. ⊥) one_byte (λ said s. ⊤) 0 small_store (codes "flush" ∷ []) (codes "ok" ++ 10 ∷ []) small_store }
{}

/// What reads: what a filter admits, and what it does not deny, such as an open seek.
#[tactic(auto, unfolding(block_model::specs::Pages::pages_for, block_model::specs::Bodies::entries_bytes, block_model::specs::Pages::block_length, block_model::specs::Pages::block_pages, block_model::specs::Pages::blocks_of, block_model::specs::Pages::data_pages, block_model::specs::Pages::index_length, entry_model::specs::Entries::filled, entry_model::specs::Entries::gap, key_base::specs::Limits::last_epoch))]
pub fn where_filters_admit()
    ensures a_get_that_the_filter_admits { Reads (played one_byte small_store aa1_and_ab1).1 (Get (codes "aa9")) }
    ensures not_one_that_it_denies { Reads (played one_byte small_store aa1_and_ab1).1 (Get (codes "ac0")) → ⊥ }
    ensures nor_one_below_all_keys { Reads (played one_byte small_store aa1_and_ab1).1 (Get (codes "aa0")) → ⊥ }
    ensures a_seek_that_it_admits { Reads (played one_byte small_store aa1_and_ab1).1 (Seek (codes "aa5") (Some (codes "ab0"))) }
    ensures not_a_seek_that_it_denies { Reads (played one_byte small_store aa1_and_ab1).1 (Seek (codes "ac0") (Some (codes "ad0"))) → ⊥ }
    ensures an_open_seek { Reads (played one_byte small_store aa1_and_ab1).1 (Seek (codes "ac0") None) }
    ensures a_range_that_it_admits { Reads (played one_byte small_store aa1_and_ab1).1 (Range (codes "aa5") (codes "ab0") 1) }
    ensures not_a_range_that_it_denies { Reads (played one_byte small_store aa1_and_ab1).1 (Range (codes "ac0") (codes "ad0") 1) → ⊥ }
    ensures a_count_that_it_admits { Reads (played one_byte small_store aa1_and_ab1).1 (Count (codes "aa5") (codes "ab0")) }
    ensures not_a_count_that_it_denies { Reads (played one_byte small_store aa1_and_ab1).1 (Count (codes "ac0") (codes "ad0")) → ⊥ }
    ensures a_count_of_more_than_the_memory_answers { Reads (played one_byte small_store five_and_six_under_one).1 (Count (key 1) (key 10)) }
    ensures a_compaction_of_a_table { Reads (played one_byte small_store aa1_and_ab1).1 Compact }
{}

/// Tables keep the settings that they were made with; new ones get those of the state. More pages are more room.
#[tactic(auto, unfolding(block_model::specs::Pages::pages_for, block_model::specs::Bodies::entries_bytes, block_model::specs::Pages::block_length, block_model::specs::Pages::block_pages, block_model::specs::Pages::blocks_of, block_model::specs::Pages::data_pages, block_model::specs::Pages::index_length, entry_model::specs::Entries::filled, entry_model::specs::Entries::gap, key_base::specs::Limits::last_epoch))]
pub fn settings_and_pages_that_change()
    ensures a_table_of_no_hash_where_new_ones_have_it { admitted (set_to hashed (played one_byte small_store aa1_and_ab1).1) (codes "aa9") ≡ 1 }
    ensures a_table_of_hash_where_new_ones_have_none { admitted (set_to base (played one_byte (set_to hashed small_store) aa1_and_ab1).1) (codes "aa9") ≡ 0 }
    ensures a_compaction_makes_it_anew { admitted (played one_byte (set_to hashed (played one_byte small_store aa1_and_ab1).1) (Compact ∷ [])).1 (codes "aa9") ≡ 0 }
    ensures the_epoch_is_raised { map (λ s. s.epoch) (set_to hashed small_store ∷ grown_to 600 small_store ∷ set_to base small_store ∷ grown_to 512 small_store ∷ []) ≡ 2 ∷ 2 ∷ 2 ∷ 2 ∷ [] }
    ensures no_job_runs { map (λ s. s.job) (set_to hashed (with_job small_store (all_read small_store)) ∷ grown_to 600 (with_job small_store (all_read small_store)) ∷ []) ≡ None ∷ None ∷ [] }
    ensures no_settings_at_the_last_epoch { with_settings hashed (record small_store { epoch = 18446744073709551615 }) ≡ Err LastEpoch }
    ensures nor_pages { with_pages 600 (record small_store { epoch = 18446744073709551615 }) ≡ Err LastEpoch }
    ensures a_flush_finds_no_room { (played one_byte cramped (put_one 0x65 ∷ Flush ∷ [])).0 ≡ Done ∷ Full 3 2 ∷ [] }
    ensures one_page_more_is_enough_for_the_merge { map place_and_size (played one_byte (grown_to 207 cramped) (put_one 0x65 ∷ Flush ∷ [])).1.tables ≡ (0 ∷ 192 ∷ 3 ∷ 1 ∷ 1 ∷ []) ∷ (1 ∷ 204 ∷ 3 ∷ 1 ∷ 4 ∷ []) ∷ [] }
{}

/// Which lines write, and which take memory.
#[tactic(auto, unfolding(block_model::specs::Pages::pages_for, block_model::specs::Bodies::entries_bytes, block_model::specs::Pages::block_length, block_model::specs::Pages::block_pages, block_model::specs::Pages::blocks_of, block_model::specs::Pages::data_pages, block_model::specs::Pages::index_length, entry_model::specs::Entries::filled, entry_model::specs::Entries::gap, key_base::specs::Limits::last_epoch))]
pub fn where_something_is_written()
    ensures a_put { Writes one_byte small_store (put_one 0x61) }
    ensures a_del { Writes one_byte small_store (Del (key 0x61)) }
    ensures a_compaction { Writes one_byte (played one_byte small_store (put_one 0x61 ∷ [])).1 Compact }
    ensures not_one_at_the_last_epoch { Writes one_byte (record small_store { epoch = 18446744073709551615; log = Sets (put_entry (key 0x61) (1 ∷ [])) ∷ [] }) Compact → ⊥ }
    ensures which_takes_no_memory { TakesMemory (record small_store { epoch = 18446744073709551615; log = Sets (put_entry (key 0x61) (1 ∷ [])) ∷ [] }) Compact → ⊥ }
    ensures a_compaction_of_an_entry_takes_memory { TakesMemory (played one_byte small_store (put_one 0x61 ∷ [])).1 Compact }
    ensures so_does_a_put { TakesMemory small_store (put_one 0x61) }
{}

/// What a merge slice writes, and how it is refused. A table of one entry takes three pages.
#[tactic(auto, unfolding(block_model::specs::Pages::pages_for, block_model::specs::Bodies::entries_bytes, block_model::specs::Pages::block_length, block_model::specs::Pages::block_pages, block_model::specs::Pages::blocks_of, block_model::specs::Pages::data_pages, block_model::specs::Pages::index_length, entry_model::specs::Entries::filled, entry_model::specs::Entries::gap, key_base::specs::Limits::last_epoch))]
pub fn what_a_merge_slice_writes()
    ensures an_output_that_has_room { MayWrite one_byte (played one_byte small_store four_tables).1 (all_read (played one_byte small_store four_tables).1) }
    ensures none_without_room { MayWrite one_byte cramped (all_read cramped) → ⊥ }
    ensures nor_an_install_at_the_last_epoch { MayWrite one_byte (record small_store { epoch = 18446744073709551615; tables = (played one_byte small_store four_tables).1.tables }) (all_written (played one_byte small_store four_tables).1) → ⊥ }
    ensures need_and_gap_are_told { Tend (λ why. ⊥) one_byte cramped (Refused (Full 3 2)) cramped }
{}

/// What is no byte string.
pub fn what_is_not_of_bytes()
    ensures a_key { SpeaksBytes (Get (256 ∷ [])) → ⊥ }
    ensures a_bound { SpeaksBytes (Seek [] (Some (256 ∷ []))) → ⊥ }
    ensures a_lower_bound { SpeaksBytes (Seek (256 ∷ []) None) → ⊥ }
    ensures a_lower_bound_of_two { SpeaksBytes (Seek (256 ∷ []) (Some [])) → ⊥ }
    ensures a_bound_of_a_range { SpeaksBytes (Range [] (256 ∷ []) 1) → ⊥ }
    ensures a_bound_of_a_count { SpeaksBytes (Count (256 ∷ []) []) → ⊥ }
    ensures a_bound_of_an_estimate { SpeaksBytes (Estimate [] (256 ∷ [])) → ⊥ }
    ensures an_explained_key { SpeaksBytes (Explain (256 ∷ [])) → ⊥ }
{}

/// Lines that were answered, the last with a reply that ends a script.
#[tactic(auto, unfolding(block_model::specs::Pages::pages_for, block_model::specs::Bodies::entries_bytes, block_model::specs::Pages::block_length, block_model::specs::Pages::block_pages, block_model::specs::Pages::blocks_of, block_model::specs::Pages::data_pages, block_model::specs::Pages::index_length, entry_model::specs::Entries::filled, entry_model::specs::Entries::gap, key_base::specs::Limits::last_epoch, hex::specs::Hex::decode_pairs))]
pub fn lines_that_were_answered()
    ensures a_put_goes_on { AnsweredLines (λ why. ⊥) one_byte (λ said s. ⊤) 0 small_store (codes "put 61 62" ∷ []) (codes "ok" ++ 10 ∷ []) (played one_byte small_store (Put (key 0x61) (0x62 ∷ []) ∷ [])).1 }
    ensures and_a_quit_is_answered { Answers (λ why. ⊥) one_byte (λ said s. ⊤) 0 small_store (codes "put 61 62" ∷ codes "quit" ∷ []) (codes "ok" ++ 10 ∷ codes "bye" ++ 10 ∷ []) (played one_byte small_store (Put (key 0x61) (0x62 ∷ []) ∷ [])).1 }
    ensures a_fault_answers_in_any_state { Answers (λ why. ⊤) one_byte (λ said s. ⊥) 0 (played one_byte small_store two_values).1 (codes "get 61" ∷ []) (codes "device" ++ 10 ∷ []) (played one_byte small_store two_values).1 }
{}

/// A quit is said in a state that has R, as any reply that is no fault.
#[tactic(auto, unfolding(block_model::specs::Pages::pages_for, block_model::specs::Bodies::entries_bytes, block_model::specs::Pages::block_length, block_model::specs::Pages::block_pages, block_model::specs::Pages::blocks_of, block_model::specs::Pages::data_pages, block_model::specs::Pages::index_length, entry_model::specs::Entries::filled, entry_model::specs::Entries::gap, key_base::specs::Limits::last_epoch, hex::specs::Hex::decode_pairs))]
pub fn what_a_quit_is_said_in()
    ensures no_answer_where_no_state_has_it { Answers (λ why. ⊤) one_byte (λ said s. ⊥) 0 small_store (codes "quit" ∷ []) (codes "bye" ++ 10 ∷ []) small_store → ⊥ }
    ensures and_no_script { Script (λ why. ⊤) one_byte (λ said s. ⊥) 0 small_store (codes "quit" ∷ []) (codes "bye" ++ 10 ∷ []) AtQuit → ⊥ }
{}

/// The text of lines that are played.
#[tactic(auto)]
pub fn played_texts()
    ensures none_behind_quit { played_text one_byte small_store (codes "flush" ∷ codes "quit" ∷ codes "flush" ∷ []) ≡ codes "ok" ++ 10 ∷ codes "bye" ++ 10 ∷ [] }
    ensures of_bad_lines { played_text one_byte small_store (codes "flash" ∷ codes "get 6" ∷ []) ≡ codes "bad 2" ++ 10 ∷ codes "bad 4" ++ 10 ∷ [] }
{}

/// The replies after which a script ends.
#[tactic(auto)]
pub fn last_replies()
    ensures of_lines { map (λ reply. turn_of reply) (Done ∷ Memory ∷ Bye ∷ Device ∷ Damaged (Shape Block 3 1) ∷ Pairs [] Device ∷ Pairs [] (Damaged (Shape Block 3 1)) ∷ [])
        ≡ Onward ∷ Onward ∷ Over AtQuit ∷ Over AtDevice ∷ Over AtDamage ∷ Over AtDevice ∷ Over AtDamage ∷ [] }
    ensures of_merge_slices { map (λ tended. turn_of_slice tended) (Idle ∷ Refused Memory ∷ Refused Device ∷ []) ≡ Onward ∷ Onward ∷ Over AtDevice ∷ [] }
{}
