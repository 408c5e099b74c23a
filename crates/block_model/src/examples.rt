//! The definitions, shown by entries, blocks and indexes whose bytes and faults are known. Each computes.
ghost use Rattle.std.specs.Prelude.{◌≡◌, [], ◌∷◌, length, map, replicate, ◌++◌, take, drop, set, Some, None, codes};
ghost use Rattle.block_model.specs.OldBlock.{old_block_bytes};
ghost use Rattle.block_model.specs.BlockReading.{block_fault, block_in};
ghost use Rattle.block_model.specs.Index.{index_bytes, index_of};
ghost use Rattle.block_model.specs.IndexReading.{index_fault, index_in};
ghost use Rattle.block_model.specs.Pages.{pages_for, block_length, block_pages, blocks_of, data_pages, first_key, index_length, index_length_with, last_key};
ghost use Rattle.block_model.specs.Places.{byte_of_page, end_page, filter_page, index_page, pages_of};
ghost use Rattle.block_model.specs.Examples.{a_b, no_ab, ten_pages, wide, a_and_ab, broken, broken_twice, broken_index, broken_index_twice, two_blocks, ranges_of_a, a_to_c, d_to_e, one_range, two_ranges};
ghost use Rattle.byte_fields.specs.Faults.{fault};
ghost use Rattle.range_model.specs.Ranges.{range_of};

/// Bytes in whole pages, rounded up.
#[tactic(auto, unfolding(crate::specs::Pages::pages_for))]
pub fn whole_pages()
    ensures none { pages_for 0 ≡ 0 }
    ensures one { pages_for 1 ≡ 1 }
    ensures full { pages_for 4096 ≡ 1 }
    ensures one_byte_more { pages_for 4097 ≡ 2 }
    ensures largest { pages_for 1049619 ≡ 257 }
{}

/// Small entries share a block: a with a value, and a tombstone of ab.
#[tactic(auto, unfolding(crate::specs::Pages::pages_for, crate::specs::Bodies::entries_bytes, crate::specs::Pages::block_length, crate::specs::Pages::block_pages, crate::specs::Pages::blocks_of, crate::specs::Pages::data_pages, crate::specs::Pages::index_length))]
pub fn small_blocks()
    ensures one { blocks_of (a_b ∷ []) ≡ (a_b ∷ []) ∷ [] }
    ensures its_length { block_length (a_b ∷ []) ≡ 21 }
    ensures two { blocks_of (a_b ∷ no_ab ∷ []) ≡ (a_b ∷ no_ab ∷ []) ∷ [] }
    ensures their_length { block_length (a_b ∷ no_ab ∷ []) ≡ 31 }
    ensures their_page { data_pages (a_b ∷ no_ab ∷ []) ≡ 1 }
    ensures least { first_key (a_b ∷ no_ab ∷ []) ≡ 0x61 ∷ [] }
    ensures last { last_key (a_b ∷ no_ab ∷ []) ≡ 0x61 ∷ 0x62 ∷ [] }
    ensures their_index { index_length (a_b ∷ no_ab ∷ []) ≡ 27 }
    ensures no_blocks { blocks_of [] ≡ [] }
    ensures no_pages { data_pages [] ≡ 0 }
{}

/// An entry that needs more than a page stands alone.
#[tactic(auto, unfolding(crate::specs::Pages::pages_for, crate::specs::Bodies::entries_bytes, crate::specs::Pages::block_length, crate::specs::Pages::block_pages, crate::specs::Pages::blocks_of, crate::specs::Pages::data_pages))]
pub fn large_blocks()
    ensures its_pages { map block_pages (blocks_of (a_b ∷ wide 0x62 4200 ∷ wide 0x63 1 ∷ [])) ≡ 1 ∷ 2 ∷ 1 ∷ [] }
    ensures all_pages { data_pages (a_b ∷ wide 0x62 4200 ∷ wide 0x63 1 ∷ []) ≡ 4 }
{}

/// Where the parts of a table stand, from the first page of tables on.
pub fn parts_of_a_table()
    ensures first_table { byte_of_page 192 ≡ 786432 }
    ensures index { index_page ten_pages ≡ 209 }
    ensures filter { filter_page ten_pages ≡ 211 }
    ensures pages { pages_of ten_pages ≡ 10 }
    ensures behind { end_page ten_pages ≡ 214 }
{}

/// The bytes of blocks of the first format: of a with the value b, and of it with a tombstone of ab.
#[tactic(auto, unfolding(crate::specs::Pages::pages_for, crate::specs::Pages::padding, crate::specs::OldBlock::old_block_length, crate::specs::OldBlock::old_header_bytes, crate::specs::OldBlock::old_block_bytes))]
pub fn old_block_bytes_are()
    ensures one { take 17 (old_block_bytes (a_b ∷ []))
        ≡ 0x11 ∷ 0 ∷ 0 ∷ 0 ∷ 1 ∷ 0 ∷ 0 ∷ 0 ∷ 1 ∷ 1 ∷ 0 ∷ 1 ∷ 0 ∷ 0 ∷ 0 ∷ 0x61 ∷ 0x62 ∷ [] }
    ensures a_page { length (old_block_bytes (a_b ∷ [])) ≡ 4096 }
    ensures zeros { drop 17 (old_block_bytes (a_b ∷ [])) ≡ replicate 4079 0 }
    ensures the_tombstone { take 9 (drop 17 (old_block_bytes a_and_ab)) ≡ 2 ∷ 2 ∷ 0 ∷ 0 ∷ 0 ∷ 0 ∷ 0 ∷ 0x61 ∷ 0x62 ∷ [] }
{}

/// What is read from them.
#[tactic(auto, unfolding(crate::specs::Pages::pages_for, crate::specs::Pages::padding, crate::specs::OldBlock::old_block_length, crate::specs::OldBlock::old_header_bytes, crate::specs::OldBlock::old_block_bytes, crate::specs::Formats::width_by, crate::specs::Formats::key_by, crate::specs::Formats::value_by, crate::specs::Formats::entries_by, crate::specs::BlockReading::tail_fault, crate::specs::BlockReading::entry_fault_by, crate::specs::BlockReading::entries_fault_by, crate::specs::BlockReading::header_fault_by, crate::specs::BlockReading::entries_part_by, crate::specs::BlockReading::block_fault_by, crate::specs::BlockReading::block_in_by))]
pub fn old_block_is_read()
    ensures no_fault { block_fault (old_block_bytes a_and_ab) ≡ None }
    ensures entries { block_in (old_block_bytes a_and_ab) ≡ a_and_ab }
{}

/// Where one byte of the block is another one, or its pages are others.
#[tactic(auto, unfolding(crate::specs::Pages::pages_for, crate::specs::Pages::padding, crate::specs::OldBlock::old_block_length, crate::specs::OldBlock::old_header_bytes, crate::specs::OldBlock::old_block_bytes, crate::specs::Formats::width_by, crate::specs::Formats::key_by, crate::specs::Formats::value_by, crate::specs::Formats::entries_by, crate::specs::BlockReading::tail_fault, crate::specs::BlockReading::entry_fault_by, crate::specs::BlockReading::entries_fault_by, crate::specs::BlockReading::header_fault_by, crate::specs::BlockReading::entries_part_by, crate::specs::BlockReading::block_fault_by, crate::specs::BlockReading::block_in_by, crate::specs::Examples::broken))]
pub fn broken_old_blocks()
    ensures fewer_than_eight_bytes { block_fault (0x11 ∷ 0 ∷ 0 ∷ []) ≡ Some (fault 0 1) }
    ensures length_under_16 { block_fault (broken 0 15) ≡ Some (fault 0 1) }
    ensures a_page_too_many { block_fault (old_block_bytes a_and_ab ++ replicate 4096 0) ≡ Some (fault 0 1) }
    ensures a_part_of_a_page { block_fault (take 20 (old_block_bytes a_and_ab)) ≡ Some (fault 0 1) }
    ensures no_entry { block_fault (broken 4 0) ≡ Some (fault 4 2) }
    ensures two_in_two_pages { block_fault (broken 1 0x10 ++ replicate 4096 0) ≡ Some (fault 4 2) }
    ensures a_byte_of_the_header { block_fault (broken 6 1) ≡ Some (fault 6 2) }
    ensures entry_is_cut { block_fault (broken 0 20) ≡ Some (fault 17 3) }
    ensures key_runs_past { block_fault (broken 18 3) ≡ Some (fault 17 3) }
    ensures kind { block_fault (broken 17 3) ≡ Some (fault 17 4) }
    ensures tombstone_with_a_value { block_fault (broken 20 1) ≡ Some (fault 17 4) }
    ensures no_key { block_fault (broken 18 0) ≡ Some (fault 17 5) }
    ensures long_key { block_fault (broken 19 4) ≡ Some (fault 17 5) }
    ensures long_value { block_fault (broken 13 2) ≡ Some (fault 8 5) }
    ensures key_below { block_fault (broken 24 0x60) ≡ Some (fault 17 6) }
    ensures bytes_are_left { block_fault (broken 4 1) ≡ Some (fault 17 7) }
    ensures a_byte_after_it { block_fault (broken 4095 7) ≡ Some (fault 4095 8) }
{}

/// Where two rules are broken: the first of them in their order, entry by entry. Keys that are equal do not rise.
#[tactic(auto, unfolding(crate::specs::Pages::pages_for, crate::specs::Pages::padding, crate::specs::OldBlock::old_block_length, crate::specs::OldBlock::old_header_bytes, crate::specs::OldBlock::old_block_bytes, crate::specs::Formats::width_by, crate::specs::Formats::key_by, crate::specs::Formats::value_by, crate::specs::Formats::entries_by, crate::specs::BlockReading::tail_fault, crate::specs::BlockReading::entry_fault_by, crate::specs::BlockReading::entries_fault_by, crate::specs::BlockReading::header_fault_by, crate::specs::BlockReading::entries_part_by, crate::specs::BlockReading::block_fault_by, crate::specs::BlockReading::block_in_by, crate::specs::Examples::broken, crate::specs::Examples::broken_twice))]
pub fn twice_broken_old_blocks()
    ensures length_then_count { block_fault (broken_twice 0 15 4 0) ≡ Some (fault 0 1) }
    ensures zero_then_cut { block_fault (broken_twice 6 1 0 20) ≡ Some (fault 6 2) }
    ensures cut_then_kind { block_fault (broken_twice 0 20 17 3) ≡ Some (fault 17 3) }
    ensures kind_then_lengths { block_fault (broken_twice 17 3 18 0) ≡ Some (fault 17 4) }
    ensures lengths_then_whole { block_fault (broken_twice 18 3 19 4) ≡ Some (fault 17 5) }
    ensures whole_then_key { block_fault (broken_twice 18 3 24 0x60) ≡ Some (fault 17 3) }
    ensures key_then_bytes_left { block_fault (broken_twice 0 27 24 0x60) ≡ Some (fault 17 6) }
    ensures bytes_left_then_tail { block_fault (broken_twice 4 1 4095 7) ≡ Some (fault 17 7) }
    ensures the_first_entry { block_fault (broken_twice 13 2 17 3) ≡ Some (fault 8 5) }
    ensures equal_keys { block_fault (old_block_bytes (a_b ∷ a_b ∷ [])) ≡ Some (fault 17 6) }
{}

/// The index of the block with a and ab.
#[tactic(auto, unfolding(crate::specs::Pages::pages_for, crate::specs::Pages::padding, crate::specs::Bodies::entries_bytes, crate::specs::Bodies::listed_places, crate::specs::Pages::block_length, crate::specs::Pages::block_pages, crate::specs::Pages::blocks_of, crate::specs::Block::list_bytes, crate::specs::Block::block_bytes, crate::specs::Block::header_bytes, crate::specs::Index::index_with, crate::specs::Index::index_row_of, crate::specs::Index::index_bytes, crate::specs::Index::range_bytes, crate::specs::Index::ranges_bytes, crate::specs::Index::index_head_bytes, crate::specs::Index::index_row_bytes))]
pub fn small_index_bytes()
    ensures { index_bytes (index_of a_and_ab)
        ≡ 0x53 ∷ 0x52 ∷ 0x46 ∷ 0x49 ∷ 1 ∷ 0 ∷ 0 ∷ 0 ∷ 1 ∷ 0 ∷ 0x61
        ∷ 1 ∷ 0 ∷ 0 ∷ 0
        ∷ 0x4C ∷ 0x37 ∷ 0xB1 ∷ 0xA5 ∷ 0xC5 ∷ 0xC5 ∷ 0x32 ∷ 0x31
        ∷ 2 ∷ 0 ∷ 0x61 ∷ 0x62 ∷ [] }
{}

/// An index of two blocks, of one page and of two, is read as it was written.
#[tactic(auto, unfolding(crate::specs::Index::index_bytes, crate::specs::Index::range_bytes, crate::specs::Index::ranges_bytes, crate::specs::Index::index_head_bytes, crate::specs::Index::index_row_bytes, crate::specs::IndexReading::head_width_in, crate::specs::IndexReading::least_in, crate::specs::IndexReading::index_head_fault, crate::specs::IndexReading::row_width_in, crate::specs::IndexReading::last_in, crate::specs::IndexReading::row_in, crate::specs::IndexReading::row_fault, crate::specs::IndexReading::rows_fault, crate::specs::IndexReading::rows_in, crate::specs::IndexReading::rows_width_in, crate::specs::IndexReading::rows_end_in, crate::specs::IndexReading::bound_in, crate::specs::IndexReading::range_width_in, crate::specs::IndexReading::range_in, crate::specs::IndexReading::range_fault, crate::specs::IndexReading::ranges_fault, crate::specs::IndexReading::ranges_in, crate::specs::IndexReading::all_ranges_fault, crate::specs::IndexReading::all_ranges_in, crate::specs::IndexReading::index_in, crate::specs::IndexReading::pages_fault, crate::specs::IndexReading::index_fault))]
pub fn small_index_is_read()
    ensures no_fault { index_fault 3 (index_bytes two_blocks) ≡ None }
    ensures index { index_in (index_bytes two_blocks) ≡ two_blocks }
{}

/// Where one byte of the index is another one, or bytes are missing or left.
#[tactic(auto, unfolding(crate::specs::Index::index_bytes, crate::specs::Index::range_bytes, crate::specs::Index::ranges_bytes, crate::specs::Index::index_head_bytes, crate::specs::Index::index_row_bytes, crate::specs::IndexReading::head_width_in, crate::specs::IndexReading::least_in, crate::specs::IndexReading::index_head_fault, crate::specs::IndexReading::row_width_in, crate::specs::IndexReading::last_in, crate::specs::IndexReading::row_in, crate::specs::IndexReading::row_fault, crate::specs::IndexReading::rows_fault, crate::specs::IndexReading::rows_in, crate::specs::IndexReading::rows_width_in, crate::specs::IndexReading::rows_end_in, crate::specs::IndexReading::bound_in, crate::specs::IndexReading::range_width_in, crate::specs::IndexReading::range_in, crate::specs::IndexReading::range_fault, crate::specs::IndexReading::ranges_fault, crate::specs::IndexReading::ranges_in, crate::specs::IndexReading::all_ranges_fault, crate::specs::IndexReading::all_ranges_in, crate::specs::IndexReading::index_in, crate::specs::IndexReading::pages_fault, crate::specs::IndexReading::index_fault, crate::specs::Examples::broken_index))]
pub fn broken_indexes()
    ensures head_is_cut { index_fault 3 (take 9 (index_bytes two_blocks)) ≡ Some (fault 9 1) }
    ensures least_key_runs_past { index_fault 3 (broken_index 9 1) ≡ Some (fault 42 1) }
    ensures row_is_cut { index_fault 3 (take 41 (index_bytes two_blocks)) ≡ Some (fault 41 1) }
    ensures last_key_runs_past { index_fault 3 (broken_index 38 3) ≡ Some (fault 42 1) }
    ensures magic { index_fault 3 (broken_index 3 0x4D) ≡ Some (fault 0 2) }
    ensures no_blocks { index_fault 3 (broken_index 4 0) ≡ Some (fault 4 3) }
    ensures no_least_key { index_fault 3 (broken_index 8 0) ≡ Some (fault 8 4) }
    ensures no_last_key { index_fault 3 (broken_index 23 0) ≡ Some (fault 23 4) }
    ensures first_below_the_least { index_fault 3 (broken_index 25 0x60) ≡ Some (fault 25 5) }
    ensures last_keys_fall { index_fault 3 (broken_index 40 0x61) ≡ Some (fault 40 5) }
    ensures no_pages { index_fault 3 (broken_index 11 0) ≡ Some (fault 11 6) }
    ensures many_pages { index_fault 3 (set (broken_index 26 2) 27 1) ≡ Some (fault 26 6) }
    ensures bytes_are_left { index_fault 3 (index_bytes two_blocks ++ 0 ∷ []) ≡ Some (fault 42 7) }
    ensures other_pages { index_fault 4 (index_bytes two_blocks) ≡ Some (fault 4 8) }
{}

/// Where two rules are broken: the first of them in their order, row by row. Last keys that are equal do not rise; the first
/// may be the least key.
#[tactic(auto, unfolding(crate::specs::Index::index_bytes, crate::specs::Index::range_bytes, crate::specs::Index::ranges_bytes, crate::specs::Index::index_head_bytes, crate::specs::Index::index_row_bytes, crate::specs::IndexReading::head_width_in, crate::specs::IndexReading::least_in, crate::specs::IndexReading::index_head_fault, crate::specs::IndexReading::row_width_in, crate::specs::IndexReading::last_in, crate::specs::IndexReading::row_in, crate::specs::IndexReading::row_fault, crate::specs::IndexReading::rows_fault, crate::specs::IndexReading::rows_in, crate::specs::IndexReading::rows_width_in, crate::specs::IndexReading::rows_end_in, crate::specs::IndexReading::bound_in, crate::specs::IndexReading::range_width_in, crate::specs::IndexReading::range_in, crate::specs::IndexReading::range_fault, crate::specs::IndexReading::ranges_fault, crate::specs::IndexReading::ranges_in, crate::specs::IndexReading::all_ranges_fault, crate::specs::IndexReading::all_ranges_in, crate::specs::IndexReading::index_in, crate::specs::IndexReading::pages_fault, crate::specs::IndexReading::index_fault, crate::specs::Examples::broken_index, crate::specs::Examples::broken_index_twice))]
pub fn twice_broken_indexes()
    ensures cut_then_magic { index_fault 3 (take 9 (broken_index 3 0x4D)) ≡ Some (fault 9 1) }
    ensures magic_then_no_blocks { index_fault 3 (broken_index_twice 3 0x4D 4 0) ≡ Some (fault 0 2) }
    ensures no_blocks_then_no_key { index_fault 3 (broken_index_twice 4 0 8 0) ≡ Some (fault 4 3) }
    ensures length_then_pages { index_fault 3 (broken_index_twice 23 0 11 0) ≡ Some (fault 23 4) }
    ensures key_then_pages { index_fault 3 (broken_index_twice 25 0x60 11 0) ≡ Some (fault 25 5) }
    ensures pages_then_bytes_left { index_fault 3 (set (broken_index 26 2) 27 1 ++ 0 ∷ []) ≡ Some (fault 26 6) }
    ensures bytes_left_then_all_pages { index_fault 4 (index_bytes two_blocks ++ 0 ∷ []) ≡ Some (fault 42 7) }
    ensures the_first_row { index_fault 3 (broken_index_twice 11 0 40 0x61) ≡ Some (fault 11 6) }
    ensures equal_keys { index_fault 3 (take 41 (broken_index 38 1)) ≡ Some (fault 40 5) }
    ensures first_is_the_least { index_fault 3 (broken_index 10 0x62) ≡ None }
{}

/// The index of a table that deletes the keys from a up to c: after its rows their number and, for each range, its two keys with
/// their lengths.
#[tactic(auto, unfolding(crate::specs::Index::index_bytes, crate::specs::Index::range_bytes, crate::specs::Index::ranges_bytes, crate::specs::Index::index_head_bytes, crate::specs::Index::index_row_bytes, crate::specs::Examples::one_range, crate::specs::Examples::two_ranges))]
pub fn ranges_in_an_index()
    ensures magic { take 8 one_range ≡ 0x53 ∷ 0x52 ∷ 0x46 ∷ 0x4A ∷ 1 ∷ 0 ∷ 0 ∷ 0 ∷ [] }
    ensures one { drop 26 one_range ≡ 1 ∷ 0 ∷ 0 ∷ 0 ∷ 1 ∷ 0 ∷ 0x61 ∷ 1 ∷ 0 ∷ 0x63 ∷ [] }
    ensures two { drop 26 two_ranges ≡ 2 ∷ 0 ∷ 0 ∷ 0 ∷ 1 ∷ 0 ∷ 0x61 ∷ 1 ∷ 0 ∷ 0x63 ∷ 1 ∷ 0 ∷ 0x64 ∷ 1 ∷ 0 ∷ 0x65 ∷ [] }
    ensures bytes_of_one { length one_range ≡ 36 }
    ensures bytes_of_two { length two_ranges ≡ 42 }
{}

/// What ranges take of an index: none of it where there are none.
#[tactic(auto, unfolding(crate::specs::Pages::block_length, crate::specs::Pages::blocks_of, crate::specs::Pages::index_length, crate::specs::Bodies::entries_bytes))]
pub fn length_of_ranges()
    ensures none { index_length_with (no_ab ∷ []) [] ≡ 28 }
    ensures one { index_length_with (no_ab ∷ []) (a_to_c ∷ []) ≡ 38 }
    ensures of_a_longer_end { index_length_with (no_ab ∷ []) (range_of (0x61 ∷ []) (0x63 ∷ 0 ∷ 0 ∷ []) ∷ []) ≡ 40 }
    ensures two { index_length_with (no_ab ∷ []) (a_to_c ∷ d_to_e ∷ []) ≡ 44 }
{}

/// They are read as they were written.
#[tactic(auto, unfolding(crate::specs::Index::index_bytes, crate::specs::Index::range_bytes, crate::specs::Index::ranges_bytes, crate::specs::Index::index_head_bytes, crate::specs::Index::index_row_bytes, crate::specs::IndexReading::head_width_in, crate::specs::IndexReading::least_in, crate::specs::IndexReading::index_head_fault, crate::specs::IndexReading::row_width_in, crate::specs::IndexReading::last_in, crate::specs::IndexReading::row_in, crate::specs::IndexReading::row_fault, crate::specs::IndexReading::rows_fault, crate::specs::IndexReading::rows_in, crate::specs::IndexReading::rows_width_in, crate::specs::IndexReading::rows_end_in, crate::specs::IndexReading::bound_in, crate::specs::IndexReading::range_width_in, crate::specs::IndexReading::range_in, crate::specs::IndexReading::range_fault, crate::specs::IndexReading::ranges_fault, crate::specs::IndexReading::ranges_in, crate::specs::IndexReading::all_ranges_fault, crate::specs::IndexReading::all_ranges_in, crate::specs::IndexReading::index_in, crate::specs::IndexReading::pages_fault, crate::specs::IndexReading::index_fault, crate::specs::Examples::one_range, crate::specs::Examples::two_ranges))]
pub fn ranges_are_read()
    ensures no_fault { index_fault 1 one_range ≡ None }
    ensures index { index_in one_range ≡ ranges_of_a (a_to_c ∷ []) }
    ensures two_without_fault { index_fault 1 two_ranges ≡ None }
    ensures both { (index_in two_ranges).ranges ≡ a_to_c ∷ d_to_e ∷ [] }
{}

/// Where one byte of it is another one, or bytes are missing or left. A range begins above the end of the one before.
#[tactic(auto, unfolding(crate::specs::Index::index_bytes, crate::specs::Index::range_bytes, crate::specs::Index::ranges_bytes, crate::specs::Index::index_head_bytes, crate::specs::Index::index_row_bytes, crate::specs::IndexReading::head_width_in, crate::specs::IndexReading::least_in, crate::specs::IndexReading::index_head_fault, crate::specs::IndexReading::row_width_in, crate::specs::IndexReading::last_in, crate::specs::IndexReading::row_in, crate::specs::IndexReading::row_fault, crate::specs::IndexReading::rows_fault, crate::specs::IndexReading::rows_in, crate::specs::IndexReading::rows_width_in, crate::specs::IndexReading::rows_end_in, crate::specs::IndexReading::bound_in, crate::specs::IndexReading::range_width_in, crate::specs::IndexReading::range_in, crate::specs::IndexReading::range_fault, crate::specs::IndexReading::ranges_fault, crate::specs::IndexReading::ranges_in, crate::specs::IndexReading::all_ranges_fault, crate::specs::IndexReading::all_ranges_in, crate::specs::IndexReading::index_in, crate::specs::IndexReading::pages_fault, crate::specs::IndexReading::index_fault, crate::specs::Examples::one_range, crate::specs::Examples::two_ranges))]
pub fn broken_ranges()
    ensures no_range { index_fault 1 (set one_range 26 0) ≡ Some (fault 26 9) }
    ensures one_is_missing { index_fault 1 (set one_range 26 2) ≡ Some (fault 36 1) }
    ensures no_lower_bound { index_fault 1 (set one_range 30 0) ≡ Some (fault 36 1) }
    ensures no_upper_bound { index_fault 1 (set one_range 33 0) ≡ Some (fault 33 10) }
    ensures equal_bounds { index_fault 1 (set one_range 35 0x61) ≡ Some (fault 32 10) }
    ensures crossed_bounds { index_fault 1 (set one_range 32 0x64) ≡ Some (fault 32 10) }
    ensures not_named { index_fault 1 (set one_range 3 0x49) ≡ Some (fault 26 7) }
    ensures range_is_cut { index_fault 1 (take 35 one_range) ≡ Some (fault 35 1) }
    ensures number_is_cut { index_fault 1 (take 29 one_range) ≡ Some (fault 29 1) }
    ensures no_number { index_fault 1 (take 26 one_range) ≡ Some (fault 26 1) }
    ensures bytes_are_left { index_fault 1 (one_range ++ 0 ∷ []) ≡ Some (fault 36 7) }
    ensures other_pages { index_fault 1 (set one_range 11 2) ≡ Some (fault 4 8) }
    ensures touching { index_fault 1 (set two_ranges 38 0x63) ≡ Some (fault 38 10) }
    ensures overlapping { index_fault 1 (set two_ranges 38 0x62) ≡ Some (fault 38 10) }
{}

/// Where two rules are broken: the first of them in their order, range by range. Both fields of a range are looked at before
/// their lengths.
#[tactic(auto, unfolding(crate::specs::Index::index_bytes, crate::specs::Index::range_bytes, crate::specs::Index::ranges_bytes, crate::specs::Index::index_head_bytes, crate::specs::Index::index_row_bytes, crate::specs::IndexReading::head_width_in, crate::specs::IndexReading::least_in, crate::specs::IndexReading::index_head_fault, crate::specs::IndexReading::row_width_in, crate::specs::IndexReading::last_in, crate::specs::IndexReading::row_in, crate::specs::IndexReading::row_fault, crate::specs::IndexReading::rows_fault, crate::specs::IndexReading::rows_in, crate::specs::IndexReading::rows_width_in, crate::specs::IndexReading::rows_end_in, crate::specs::IndexReading::bound_in, crate::specs::IndexReading::range_width_in, crate::specs::IndexReading::range_in, crate::specs::IndexReading::range_fault, crate::specs::IndexReading::ranges_fault, crate::specs::IndexReading::ranges_in, crate::specs::IndexReading::all_ranges_fault, crate::specs::IndexReading::all_ranges_in, crate::specs::IndexReading::index_in, crate::specs::IndexReading::pages_fault, crate::specs::IndexReading::index_fault, crate::specs::Examples::one_range, crate::specs::Examples::two_ranges))]
pub fn twice_broken_ranges()
    ensures row_then_number { index_fault 1 (set (set one_range 11 0) 26 0) ≡ Some (fault 11 6) }
    ensures number_then_pages { index_fault 2 (set one_range 26 0) ≡ Some (fault 26 9) }
    ensures lower_then_upper { index_fault 1 (take 30 one_range ++ 0 ∷ 0 ∷ 0 ∷ 0 ∷ []) ≡ Some (fault 30 10) }
    ensures length_then_order { index_fault 1 (set (set one_range 33 0) 32 0x64) ≡ Some (fault 33 10) }
    ensures order_then_bytes_left { index_fault 1 (set one_range 32 0x64 ++ 0 ∷ []) ≡ Some (fault 32 10) }
    ensures bytes_left_then_pages { index_fault 2 (one_range ++ 0 ∷ []) ≡ Some (fault 36 7) }
    ensures the_first_range { index_fault 1 (set (set two_ranges 35 0x61) 38 0x62) ≡ Some (fault 32 10) }
{}
