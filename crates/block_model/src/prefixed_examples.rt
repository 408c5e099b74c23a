//! Blocks with shared prefixes, shown by entries, bytes and faults that are known. Each computes.
ghost use Rattle.std.specs.Prelude.{◌≡◌, [], ◌∷◌, ◌++◌, ◌+◌, length, map, replicate, take, drop, set, Some, None, codes};
ghost use Rattle.block_model.specs.Examples.{a_and_ab, a_b, no_ab, wide};
ghost use Rattle.block_model.specs.BlockReading.{block_fault, block_in};
ghost use Rattle.block_model.specs.Pages.{pages_for};
ghost use Rattle.block_model.specs.Block.{block_bytes};
ghost use Rattle.block_model.specs.Pages.{block_length, blocks_of};
ghost use Rattle.block_model.specs.PrefixedExamples.{after_k000, changed_once, changed_seventeen, changed_twice, old_as_new, tombstones};
ghost use Rattle.entry_model.specs.Entries.{put_entry};
ghost use Rattle.byte_fields.specs.Faults.{fault};
ghost use Rattle.byte_fields.specs.Sums.{fnv_of};

/// The bytes of the blocks of a with the value b, and of it with a tombstone of ab, whose key shares a byte.
#[tactic(auto, unfolding(crate::specs::Pages::pages_for, crate::specs::Pages::padding, crate::specs::Bodies::entries_bytes, crate::specs::Bodies::listed_places, crate::specs::Pages::block_length, crate::specs::Block::header_bytes, crate::specs::Block::list_bytes, crate::specs::Block::block_bytes))]
pub fn bytes_with_shared_prefixes()
    ensures one { take 21 (block_bytes (a_b ∷ []))
        ≡ 0x15 ∷ 0x00 ∷ 0x00 ∷ 0x00 ∷ 0x01 ∷ 0x02 ∷ 0x00 ∷ 0x00 ∷ 0x0A ∷ 0x00 ∷ 0x01 ∷ 0x00 ∷ 0x00 ∷ 0x01 ∷ 0x00 ∷ 0x01 ∷ 0x00 ∷ 0x00 ∷ 0x00 ∷ 0x61 ∷ 0x62 ∷ [] }
    ensures a_page { length (block_bytes (a_b ∷ [])) ≡ 4096 }
    ensures zeros { drop 21 (block_bytes (a_b ∷ [])) ≡ replicate 4075 0 }
    ensures sum { fnv_of (block_bytes (a_b ∷ [])) ≡ 0x587B62AD428B4221 }
    ensures header_of_both { take 10 (block_bytes a_and_ab) ≡ 0x1F ∷ 0x00 ∷ 0x00 ∷ 0x00 ∷ 0x02 ∷ 0x02 ∷ 0x00 ∷ 0x00 ∷ 0x0A ∷ 0x00 ∷ [] }
    ensures the_tombstone { take 10 (drop 21 (block_bytes a_and_ab)) ≡ 0x02 ∷ 0x01 ∷ 0x00 ∷ 0x01 ∷ 0x00 ∷ 0x00 ∷ 0x00 ∷ 0x00 ∷ 0x00 ∷ 0x62 ∷ [] }
{}

/// Seventeen entries: the first and the last are listed, and the last has its whole key.
#[tactic(auto, unfolding(crate::specs::Pages::pages_for, crate::specs::Pages::padding, crate::specs::PrefixedExamples::tombstones, crate::specs::Bodies::entries_bytes, crate::specs::Bodies::listed_places, crate::specs::Pages::block_length, crate::specs::Block::header_bytes, crate::specs::Block::list_bytes, crate::specs::Block::block_bytes))]
pub fn seventeen_entries()
    ensures long { block_length (tombstones 0 17) ≡ 189 }
    ensures places { take 4 (drop 8 (block_bytes (tombstones 0 17))) ≡ 0x0C ∷ 0x00 ∷ 0xB0 ∷ 0x00 ∷ [] }
    ensures the_last { take 13 (drop 176 (block_bytes (tombstones 0 17))) ≡ 0x02 ∷ 0x00 ∷ 0x00 ∷ 0x04 ∷ 0x00 ∷ 0x00 ∷ 0x00 ∷ 0x00 ∷ 0x00 ∷ 0x6B ∷ 0x30 ∷ 0x31 ∷ 0x36 ∷ [] }
{}

/// What is read from these bytes.
#[tactic(auto, unfolding(crate::specs::Pages::pages_for, crate::specs::Pages::padding, crate::specs::BlockReading::tail_fault, crate::specs::Formats::width_by, crate::specs::Formats::key_by, crate::specs::Formats::value_by, crate::specs::Formats::entries_by, crate::specs::BlockReading::entry_fault_by, crate::specs::BlockReading::entries_fault_by, crate::specs::BlockReading::header_fault_by, crate::specs::BlockReading::entries_part_by, crate::specs::BlockReading::block_fault_by, crate::specs::BlockReading::block_in_by, crate::specs::Bodies::entries_bytes, crate::specs::Bodies::listed_places, crate::specs::Pages::block_length, crate::specs::Block::header_bytes, crate::specs::Block::list_bytes, crate::specs::Block::block_bytes))]
pub fn shared_prefixes_are_read()
    ensures no_fault { block_fault (block_bytes a_and_ab) ≡ None }
    ensures entries { block_in (block_bytes a_and_ab) ≡ a_and_ab }
{}

/// Where one byte of the block of a with b is another one.
#[tactic(auto, unfolding(crate::specs::Pages::pages_for, crate::specs::Pages::padding, crate::specs::BlockReading::tail_fault, crate::specs::Formats::width_by, crate::specs::Formats::key_by, crate::specs::Formats::value_by, crate::specs::Formats::entries_by, crate::specs::BlockReading::entry_fault_by, crate::specs::BlockReading::entries_fault_by, crate::specs::BlockReading::header_fault_by, crate::specs::BlockReading::entries_part_by, crate::specs::BlockReading::block_fault_by, crate::specs::BlockReading::block_in_by, crate::specs::Bodies::entries_bytes, crate::specs::Bodies::listed_places, crate::specs::Pages::block_length, crate::specs::Block::header_bytes, crate::specs::Block::list_bytes, crate::specs::Block::block_bytes, crate::specs::PrefixedExamples::changed_once, crate::specs::PrefixedExamples::changed_twice, crate::specs::PrefixedExamples::old_as_new, crate::specs::OldBlock::old_block_bytes, crate::specs::OldBlock::old_header_bytes, crate::specs::OldBlock::old_block_length))]
pub fn one_changed_byte()
    ensures length_under_20 { block_fault (changed_once 0 0x13) ≡ Some (fault 0 1) }
    ensures no_entry { block_fault (changed_once 4 0x00) ≡ Some (fault 4 2) }
    ensures another_format { block_fault (changed_once 5 0x01) ≡ Some (fault 5 2) }
    ensures a_byte_of_the_header { block_fault (changed_once 6 0x01) ≡ Some (fault 6 2) }
    ensures listed_elsewhere { block_fault (changed_once 8 0x0B) ≡ Some (fault 8 9) }
    ensures listed_by_two_bytes { block_fault (changed_once 9 0x01) ≡ Some (fault 8 9) }
    ensures list_runs_past { block_fault (changed_once 4 0xFF) ≡ Some (fault 8 9) }
    ensures second_is_cut { block_fault (changed_once 4 0x02) ≡ Some (fault 21 3) }
    ensures kind { block_fault (changed_once 10 0x03) ≡ Some (fault 10 4) }
    ensures tombstone_with_a_value { block_fault (changed_once 10 0x02) ≡ Some (fault 10 4) }
    ensures first_shares { block_fault (changed_once 11 0x01) ≡ Some (fault 10 10) }
    ensures no_key { block_fault (changed_once 13 0x00) ≡ Some (fault 10 5) }
    ensures a_key_of_1025 { block_fault (changed_once 12 0x04) ≡ Some (fault 10 5) }
    ensures shares_1280 { block_fault (changed_once 12 0x05) ≡ Some (fault 10 5) }
    ensures a_value_of_1048577 { block_fault (changed_once 17 0x10) ≡ Some (fault 10 5) }
    ensures key_runs_past { block_fault (changed_once 13 0x03) ≡ Some (fault 10 3) }
    ensures bytes_are_left { block_fault (changed_once 0 0x16) ≡ Some (fault 21 7) }
    ensures a_byte_after_it { block_fault (changed_once 30 0x01) ≡ Some (fault 30 8) }
{}

/// Where two of its bytes are others: the first rule in their order.
#[tactic(auto, unfolding(crate::specs::Pages::pages_for, crate::specs::Pages::padding, crate::specs::BlockReading::tail_fault, crate::specs::Formats::width_by, crate::specs::Formats::key_by, crate::specs::Formats::value_by, crate::specs::Formats::entries_by, crate::specs::BlockReading::entry_fault_by, crate::specs::BlockReading::entries_fault_by, crate::specs::BlockReading::header_fault_by, crate::specs::BlockReading::entries_part_by, crate::specs::BlockReading::block_fault_by, crate::specs::BlockReading::block_in_by, crate::specs::Bodies::entries_bytes, crate::specs::Bodies::listed_places, crate::specs::Pages::block_length, crate::specs::Block::header_bytes, crate::specs::Block::list_bytes, crate::specs::Block::block_bytes, crate::specs::PrefixedExamples::changed_once, crate::specs::PrefixedExamples::changed_twice, crate::specs::PrefixedExamples::old_as_new, crate::specs::OldBlock::old_block_bytes, crate::specs::OldBlock::old_header_bytes, crate::specs::OldBlock::old_block_length))]
pub fn two_changed_bytes()
    ensures old_least_length_then_format { block_fault (changed_twice 0 0x13 5 0x01) ≡ Some (fault 5 2) }
    ensures length_then_format { block_fault (changed_twice 0 0x0F 5 0x01) ≡ Some (fault 0 1) }
    ensures no_rest_but_shared { block_fault (changed_twice 11 0x01 13 0x00) ≡ Some (fault 10 10) }
    ensures length_then_count { block_fault (changed_twice 0 0x13 4 0x00) ≡ Some (fault 0 1) }
    ensures list_ends_past_the_length { block_fault (changed_twice 4 0x80 8 0x18) ≡ Some (fault 8 9) }
    ensures list_ends_at_the_length { block_fault (set (changed_twice 0 0x14 4 0x60) 8 0x14) ≡ Some (fault 20 3) }
    ensures kind_then_lengths { block_fault (changed_twice 10 0x03 13 0x00) ≡ Some (fault 10 4) }
    ensures kind_then_shared { block_fault (changed_twice 11 0x01 10 0x03) ≡ Some (fault 10 4) }
    ensures longest_value_runs_past { block_fault (changed_twice 17 0x10 15 0x00) ≡ Some (fault 10 3) }
    ensures list_then_kind { block_fault (changed_twice 8 0x0B 10 0x03) ≡ Some (fault 8 9) }
    ensures header_then_list { block_fault (changed_twice 6 0x01 8 0x0B) ≡ Some (fault 6 2) }
    ensures whole_then_shared { block_fault (changed_twice 11 0x01 13 0x03) ≡ Some (fault 10 3) }
    ensures header_then_end_of_the_list { block_fault (changed_twice 4 0xFF 7 0x01) ≡ Some (fault 7 2) }
    ensures list_then_cut { block_fault (changed_twice 0 0x14 4 0x11) ≡ Some (fault 8 9) }
    ensures format_3_of_19_bytes { block_fault (changed_twice 0 0x13 5 0x03) ≡ Some (fault 5 2) }
    ensures two_in_two_pages { block_fault (set (block_bytes a_and_ab) 1 0x10 ++ replicate 4096 0) ≡ Some (fault 4 2) }
    ensures old_block_as_new { block_fault old_as_new ≡ Some (fault 0 1) }
{}

/// Where bytes of the block of seventeen entries are others: the second number of its list, at 10, and the entry that it is of,
/// at 176, which shares nothing.
#[tactic(auto, unfolding(crate::specs::Pages::pages_for, crate::specs::Pages::padding, crate::specs::BlockReading::tail_fault, crate::specs::Formats::width_by, crate::specs::Formats::key_by, crate::specs::Formats::value_by, crate::specs::Formats::entries_by, crate::specs::BlockReading::entry_fault_by, crate::specs::BlockReading::entries_fault_by, crate::specs::BlockReading::header_fault_by, crate::specs::BlockReading::entries_part_by, crate::specs::BlockReading::block_fault_by, crate::specs::BlockReading::block_in_by, crate::specs::Bodies::entries_bytes, crate::specs::Bodies::listed_places, crate::specs::Pages::block_length, crate::specs::Block::header_bytes, crate::specs::Block::list_bytes, crate::specs::Block::block_bytes, crate::specs::PrefixedExamples::tombstones, crate::specs::PrefixedExamples::changed_seventeen))]
pub fn seventeen_entries_changed()
    ensures second_number { block_fault (changed_seventeen 10 0xB1) ≡ Some (fault 10 9) }
    ensures an_entry_before_it { block_fault (set (changed_seventeen 10 0xB1) 25 0x03) ≡ Some (fault 25 4) }
    ensures a_listed_entry_shares { block_fault (set (changed_seventeen 177 0x03) 179 0x01) ≡ Some (fault 176 10) }
    ensures a_listed_key_is_equal { block_fault (changed_seventeen 188 0x35) ≡ Some (fault 176 6) }
    ensures last_is_not_counted { block_fault (changed_seventeen 4 0x12) ≡ Some (fault 189 3) }
{}

/// An entry after k000 that shares so many bytes and has such a rest.
#[tactic(auto, unfolding(crate::specs::Pages::pages_for, crate::specs::Pages::padding, crate::specs::BlockReading::tail_fault, crate::specs::Formats::width_by, crate::specs::Formats::key_by, crate::specs::Formats::value_by, crate::specs::Formats::entries_by, crate::specs::BlockReading::entry_fault_by, crate::specs::BlockReading::entries_fault_by, crate::specs::BlockReading::header_fault_by, crate::specs::BlockReading::entries_part_by, crate::specs::BlockReading::block_fault_by, crate::specs::BlockReading::block_in_by, crate::specs::PrefixedExamples::after_k000))]
pub fn shared_after_k000()
    ensures three { block_fault (after_k000 3 (codes "1")) ≡ None }
    ensures four { block_fault (after_k000 4 (codes "1")) ≡ None }
    ensures another_first_byte { block_fault (after_k000 0 (codes "l")) ≡ None }
    ensures too_few { block_fault (after_k000 2 (codes "01")) ≡ Some (fault 23 10) }
    ensures too_many { block_fault (after_k000 5 (codes "1")) ≡ Some (fault 23 10) }
    ensures rest_goes_on_alike { block_fault (after_k000 3 (codes "0")) ≡ Some (fault 23 10) }
    ensures below { block_fault (after_k000 2 (codes "//")) ≡ Some (fault 23 6) }
    ensures a_prefix { block_fault (after_k000 3 ([])) ≡ Some (fault 23 6) }
    ensures equal { block_fault (after_k000 4 ([])) ≡ Some (fault 23 6) }
    ensures past_the_key { block_fault (after_k000 5 ([])) ≡ Some (fault 23 10) }
    ensures whole_key_again { block_fault (after_k000 0 (codes "k001")) ≡ Some (fault 23 10) }
    ensures no_key { block_fault (after_k000 0 ([])) ≡ Some (fault 23 5) }
{}

/// As many entries as a page takes, and pages as large entries take.
#[tactic(auto, unfolding(crate::specs::Pages::pages_for, crate::specs::Bodies::entries_bytes, crate::specs::Bodies::listed_places, crate::specs::Pages::block_length, crate::specs::Block::header_bytes, crate::specs::Block::list_bytes, crate::specs::Block::block_bytes, crate::specs::Pages::blocks_of, crate::specs::PrefixedExamples::tombstones))]
pub fn full_blocks_with_shared_prefixes()
    ensures just_a_page { map length (blocks_of (wide 1 2033 ∷ wide 2 2033 ∷ [])) ≡ 2 ∷ [] }
    ensures its_bytes { block_length (wide 1 2033 ∷ wide 2 2033 ∷ []) ≡ 4096 }
    ensures one_byte_more { map length (blocks_of (wide 1 2033 ∷ wide 2 2034 ∷ [])) ≡ 1 ∷ 1 ∷ [] }
    ensures a_shared_byte_is_room { map length (blocks_of (put_entry (codes "aa") (replicate 2033 0) ∷ put_entry (codes "ab") (replicate 2032 0) ∷ [])) ≡ 2 ∷ [] }
    ensures the_second_number_takes_room { map length (blocks_of (tombstones 0 16 ++ (wide 0x6C 3911 ∷ []))) ≡ 16 ∷ 1 ∷ [] }
    ensures the_large_one_alone { map length (blocks_of (a_b ∷ wide 0x62 4200 ∷ wide 0x63 1 ∷ wide 0x64 1 ∷ [])) ≡ 1 ∷ 1 ∷ 2 ∷ [] }
    ensures at_most_255 { map length (blocks_of (replicate 256 a_b)) ≡ 255 ∷ 1 ∷ [] }
    ensures one_page { pages_for (block_length (wide 1 4076 ∷ [])) ≡ 1 }
    ensures two_pages { pages_for (block_length (wide 1 4077 ∷ [])) ≡ 2 }
    ensures largest { pages_for (10 + 9 + 1024 + 1048576) ≡ 257 }
{}
