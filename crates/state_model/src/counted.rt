//! What bounds count and which lines take memory, shown by examples. Each computes.
ghost use Rattle.std.specs.Prelude.{◌≡◌, [], ◌∷◌, Some, None, codes};
ghost use Rattle.state_model.specs.Bounds.{looks_to, seek_bound, tables_between};
ghost use Rattle.state_model.specs.Examples.{aa1_and_ab1, five_and_six_under_one, key, one_byte, small_store, three_tables};
ghost use Rattle.state_model.specs.Play.{played};
ghost use Rattle.state_model.specs.Steps.{TakesMemory};
ghost use Rattle.state_model.specs.View.{state_map};
ghost use Rattle.line_model.specs.Requests.{Count, Del, Range, Seek};

/// A closed seek steps over no entry above its upper bound.
#[tactic(auto, unfolding(block_model::specs::Pages::pages_for, block_model::specs::Bodies::entries_bytes, block_model::specs::Pages::block_length, block_model::specs::Pages::block_pages, block_model::specs::Pages::blocks_of, block_model::specs::Pages::data_pages, block_model::specs::Pages::index_length, entry_model::specs::Entries::filled, entry_model::specs::Entries::gap, key_base::specs::Limits::last_epoch))]
pub fn what_a_seek_counts()
    ensures no_entry_above_its_bound { seek_bound (played one_byte small_store aa1_and_ab1).1 (codes "aa5") (codes "ab0") ≡ 1 }
    ensures no_table_past_its_answer { seek_bound (played one_byte small_store three_tables).1 (key 5) (key 10) ≡ 1 }
    ensures no_table_where_the_memory_answers { seek_bound (played one_byte small_store five_and_six_under_one).1 (key 1) (key 10) ≡ 0 }
{}

/// A closed seek looks up to its answer, or to its bound where it finds none.
#[tactic(auto, unfolding(block_model::specs::Pages::pages_for, block_model::specs::Bodies::entries_bytes, block_model::specs::Pages::block_length, block_model::specs::Pages::block_pages, block_model::specs::Pages::blocks_of, block_model::specs::Pages::data_pages, block_model::specs::Pages::index_length, entry_model::specs::Entries::filled, entry_model::specs::Entries::gap, key_base::specs::Limits::last_epoch))]
pub fn where_a_seek_looks()
    ensures to_its_answer { looks_to (state_map (played one_byte small_store three_tables).1) (key 1) (key 10) ≡ key 3 }
    ensures to_its_bound { looks_to (state_map (played one_byte small_store three_tables).1) (key 1) (key 2) ≡ key 2 }
{}

/// A range and a count may read each table that admits their bounds.
#[tactic(auto, unfolding(block_model::specs::Pages::pages_for, block_model::specs::Bodies::entries_bytes, block_model::specs::Pages::block_length, block_model::specs::Pages::block_pages, block_model::specs::Pages::blocks_of, block_model::specs::Pages::data_pages, block_model::specs::Pages::index_length, entry_model::specs::Entries::filled, entry_model::specs::Entries::gap, key_base::specs::Limits::last_epoch))]
pub fn what_a_range_may_read()
    ensures tables_past_the_first_pair { tables_between (played one_byte small_store five_and_six_under_one).1 (key 1) (key 10) ≡ 2 }
    ensures none_between_crossed_bounds { tables_between (played one_byte small_store five_and_six_under_one).1 (key 10) (key 1) ≡ 0 }
{}

/// Lines that take memory in a store of nothing.
#[tactic(auto)]
pub fn what_takes_memory()
    ensures a_range { TakesMemory small_store (Range [] (key 0x7a) 1) }
    ensures a_seek { TakesMemory small_store (Seek [] None) }
    ensures a_closed_seek { TakesMemory small_store (Seek [] (Some (key 0x7a))) }
    ensures a_count { TakesMemory small_store (Count [] (key 0x7a)) }
    ensures a_delete { TakesMemory small_store (Del (key 0x61)) }
{}
