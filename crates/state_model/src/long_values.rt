//! Values that are too long for the log, shown by examples. Each computes.
ghost use Rattle.std.specs.Prelude.{◌≡◌, true, false, [], ◌∷◌, ◌+◌, map, replicate, None};
ghost use Rattle.block_model.specs.Pages.{pages_for};
ghost use Rattle.entry_model.specs.Entries.{put_entry};
ghost use Rattle.line_model.specs.Limits.{value_limit};
ghost use Rattle.line_model.specs.Replies.{Done, Full, LastEpoch, ManyTables, Missing};
ghost use Rattle.line_model.specs.Requests.{Del, Get, Put};
ghost use Rattle.state_model.specs.Changes.{is_long};
ghost use Rattle.state_model.specs.Examples.{key, long_put, one_byte, place_and_size, put_one, small_store, table_at};
ghost use Rattle.state_model.specs.Play.{played};
ghost use Rattle.state_model.specs.Refusals.{FlushIsDue, flushed_source};
ghost use Rattle.state_model.specs.Steps.{answer};

/// Which values are long, and what is flushed for them.
#[tactic(auto, unfolding(block_model::specs::Pages::pages_for, entry_model::specs::Entries::filled, entry_model::specs::Entries::gap))]
pub fn which_values_are_long()
    ensures the_longest_that_is_logged { map is_long (put_entry (key 0x61) (replicate 65536 0) ∷ put_entry (key 0x61) (replicate 65537 0) ∷ []) ≡ false ∷ true ∷ [] }
    ensures which_is_no_limit { map (λ n. value_limit (replicate n 0)) (65536 ∷ 65537 ∷ []) ≡ None ∷ None ∷ [] }
    ensures a_flush_is_due_over_an_empty_memory { FlushIsDue small_store (long_put 0x61) }
    ensures of_this_entry { map (λ e. e.key) (flushed_source small_store (long_put 0x61)).entries ≡ key 0x61 ∷ [] }
    ensures or_of_the_memory_with_it { map (λ e. e.key) (flushed_source (played one_byte small_store (put_one 0x62 ∷ put_one 0x60 ∷ [])).1 (long_put 0x61)).entries ≡ key 0x60 ∷ key 0x61 ∷ key 0x62 ∷ [] }
    ensures pages_of_a_table_of_the_longest { pages_for (10 + 9 + 1 + 1048576) + 1 + 1 ≡ 259 }
{}

/// Long values that are put.
#[tactic(auto, unfolding(block_model::specs::Pages::pages_for, block_model::specs::Bodies::entries_bytes, block_model::specs::Pages::block_length, block_model::specs::Pages::block_pages, block_model::specs::Pages::blocks_of, block_model::specs::Pages::data_pages, block_model::specs::Pages::index_length, entry_model::specs::Entries::filled, entry_model::specs::Entries::gap, key_base::specs::Limits::last_epoch))]
pub fn long_values_are_flushed()
    ensures with_what_is_in_memory { map place_and_size (played one_byte small_store (put_one 0x61 ∷ long_put 0x62 ∷ [])).1.tables ≡ (0 ∷ 192 ∷ 20 ∷ 2 ∷ 2 ∷ []) ∷ [] }
    ensures the_log_is_empty { (played one_byte small_store (put_one 0x61 ∷ long_put 0x62 ∷ [])).1.log ≡ [] }
    ensures the_new_value_alone { map place_and_size (played one_byte small_store (put_one 0x61 ∷ long_put 0x61 ∷ [])).1.tables ≡ (0 ∷ 192 ∷ 19 ∷ 1 ∷ 1 ∷ []) ∷ [] }
    ensures it_may_be_deleted { (played one_byte small_store (long_put 0x61 ∷ Del (key 0x61) ∷ Get (key 0x61) ∷ [])).0 ≡ Done ∷ Done ∷ Missing ∷ [] }
    ensures not_at_the_last_epoch { (played one_byte (record small_store { epoch = 18446744073709551615 }) (long_put 0x61 ∷ put_one 0x62 ∷ [])).0 ≡ LastEpoch ∷ Done ∷ [] }
    ensures not_without_room { (played one_byte (record small_store { pages = 210 }) (long_put 0x61 ∷ put_one 0x62 ∷ [])).0 ≡ Full 19 18 ∷ Done ∷ [] }
    ensures nor_over_the_most_tables { (answer one_byte (record small_store { tables = replicate 1024 (table_at 6 192 3 (key 0x61)) }) (long_put 0x61)).0 ≡ ManyTables }
    ensures where_a_short_one_is_logged { (answer one_byte (record small_store { tables = replicate 1024 (table_at 6 192 3 (key 0x61)) }) (put_one 0x61)).0 ≡ Done }
{}
