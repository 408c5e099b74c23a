//! The definitions, shown by examples. Each computes.
ghost use Rattle.std.specs.Prelude.{◌≡◌, true, false, [], ◌∷◌, codes, get_or, None, Some};
ghost use Rattle.byte_fields.specs.Faults.{fault};
ghost use Rattle.byte_fields.specs.declared.parts.Damage.TheVariants.{Shape, Sum};
ghost use Rattle.byte_fields.specs.declared.parts.Part.TheVariants.{Block, Filter, Index, Log, Manifest};
ghost use Rattle.block_model.specs.Examples.{a_and_ab};
ghost use Rattle.disk_trait.specs.Image.{Image, Shows, overwritten};
ghost use Rattle.filter_api.specs.Spellings.{IsSpelling, Spelling};
ghost use Rattle.filter_api.specs.declared.errors.FilterFault.{FilterFault};
ghost use Rattle.filter_model.specs.Answers.{first_difference};
ghost use Rattle.filter_model.specs.Leaves.{base_leaves};
ghost use Rattle.manifest_model.specs.Examples.{formatted, table};
ghost use Rattle.manifest_model.specs.Slots.{IsNoStore};
ghost use Rattle.map_model.specs.SortedMap.{Bytes};
ghost use Rattle.state_model.specs.State.{new_state};
ghost use Rattle.table_model.specs.Damage.{IsSoundFilter, filter_part};
ghost use Rattle.table_model.specs.Tables.{Table};
ghost use Rattle.image_model.specs.ExampleStores.{a_and_ab_bytes, a_and_ab_sum, c_bytes, c_sum, row_of, row_of_a, row_of_b, row_of_c, up_to, with_a_table, with_both_slots, with_three_tables, zeros};
ghost use Rattle.image_model.specs.Findings.{AreFindings, AtLeast, Behind, BrokenRule, FilterFindings, OtherSum, RowsFindings, Unknown, WrongCount, WrongKeys, WrongLeaf, block_findings, count_findings, finding, found_by, has_its_keys, index_findings, keys_by, known_behind, known_keys, leaf_findings, neighbours_fault, ranges_findings};
ghost use Rattle.image_model.specs.NewStores.{IsFormatted, new_version};
ghost use Rattle.image_model.specs.Opening.{FirstDamage};
ghost use Rattle.image_model.specs.Stands.{IsGate, UnnamedStand, as_shown, settings_of};

/// Bytes that are there, and a new store on 512 pages, with filters that keep no suffix bits.
#[tactic(auto)]
pub fn new_stores()
    ensures three_bytes_stand { Shows 2 (2 ∷ 3 ∷ 4 ∷ []) (λ place. place) }
    ensures its_version { new_version (settings_of formatted) 512 ≡ formatted }
    ensures it_is_shown_as_it_is { as_shown (new_state (settings_of formatted) 512) ≡ new_state (settings_of formatted) 512 }
    ensures its_gate_is_open { IsGate true 1 }
    ensures the_other_is_not { IsGate false 1 → ⊥ }
{}

/// A device of zeros is no store, and one of ones has no magic in the manifest of slot A.
#[tactic(auto)]
pub fn devices_of_one_byte()
    ensures of_zeros { IsNoStore (λ place. 0) }
    ensures of_ones { (spelling : Spelling) (first_fault : Bytes → FilterFault) → FirstDamage spelling first_fault (λ place. 1) (Shape Manifest 8 1) }
{}

/// No table is on a device of zeros, also none that is kept.
#[tactic(auto)]
pub fn tables_that_are_kept()
    ensures a_new_store_has_none { (spelling : Spelling) → UnnamedStand spelling (new_state (settings_of formatted) 512) (λ place. 0) }
    ensures none_on_zeros { (spelling : Spelling) (t : Table) → UnnamedStand spelling (record (new_state (settings_of formatted) 512) { kept = t ∷ [] }) (λ place. 0) → ⊥ }
{}

/// Damage as a finding; whether a block has its keys, by its last key and by what comes before its first; and a filter of
/// the key b where the table has the key a.
#[tactic(auto)]
pub fn findings()
    ensures none { found_by None ≡ [] }
    ensures another_sum { found_by (Some (Sum Block 786432 1 2)) ≡ finding Block 786432 (OtherSum 1 2) ∷ [] }
    ensures a_broken_rule { found_by (Some (Shape Log 262144 2)) ≡ finding Log 262144 (BrokenRule 2) ∷ [] }
    ensures from_the_least { has_its_keys (AtLeast (codes "a")) (record { pages = 1; sum = 0; last = codes "ab" }) a_and_ab ≡ true }
    ensures from_another { has_its_keys (AtLeast (codes "A")) (record { pages = 1; sum = 0; last = codes "ab" }) a_and_ab ≡ false }
    ensures to_another { has_its_keys (AtLeast (codes "a")) (record { pages = 1; sum = 0; last = codes "b" }) a_and_ab ≡ false }
    ensures behind_a_lesser_key { has_its_keys (Behind (codes "A")) (record { pages = 1; sum = 0; last = codes "ab" }) a_and_ab ≡ true }
    ensures behind_the_same_key { has_its_keys (Behind (codes "a")) (record { pages = 1; sum = 0; last = codes "ab" }) a_and_ab ≡ false }
    ensures behind_a_greater_key { has_its_keys (Behind (codes "aa")) (record { pages = 1; sum = 0; last = codes "ab" }) a_and_ab ≡ false }
    ensures behind_a_damaged_block { has_its_keys Unknown (record { pages = 1; sum = 0; last = codes "ab" }) a_and_ab ≡ true }
    ensures to_another_after_damage { has_its_keys Unknown (record { pages = 1; sum = 0; last = codes "b" }) a_and_ab ≡ false }
    ensures known_after_damage { known_behind 192 (up_to 7 (codes "b")) (Some (Sum Block 786432 7 8)) zeros ≡ Unknown }
    ensures another_leaf { leaf_findings (table 0 192) (first_difference (base_leaves (codes "b" ∷ [])) (base_leaves (codes "a" ∷ []))) ≡ finding Filter 794624 (WrongLeaf 0) ∷ [] }
    ensures the_same_leaves { leaf_findings (table 0 192) (first_difference (base_leaves (codes "a" ∷ [])) (base_leaves (codes "a" ∷ []))) ≡ [] }
{}

/// What is found on a device of zeros of a table that is said to be there: the sum of each block that its index names, and
/// where the sum is the kept one a broken rule; the sum of its index; and that it has no entries where its row has four.
#[tactic(auto)]
pub fn findings_on_zeros()
    ensures two_blocks { block_findings 192 (AtLeast (codes "a")) (record { pages = 1; sum = 7; last = codes "b" } ∷ record { pages = 1; sum = 8; last = codes "c" } ∷ []) (λ place. 0) ≡ finding Block 786432 (OtherSum 7 13346994205906133797) ∷ finding Block 790528 (OtherSum 8 13346994205906133797) ∷ [] }
    ensures a_rule { block_findings 192 (AtLeast (codes "a")) (record { pages = 1; sum = 13346994205906133797; last = codes "b" } ∷ []) (λ place. 0) ≡ finding Block 786432 (BrokenRule 1) ∷ [] }
    ensures an_index { index_findings (table 0 192) (λ place. 0) ≡ finding Index 790528 (OtherSum 0x0102030405060708 8424691912193956439) ∷ [] }
    ensures a_count { count_findings (table 0 192) (λ place. 0) ≡ finding Index 790528 WrongCount ∷ [] }
{}

/// A table of the keys a and ab: nothing is found of it, and its keys are known. Its entries are counted against the row's.
/// Where a byte of its block is another one, the block's sum is all that is found of it, and its keys are not known; nor are
/// they where a key is wrong, or the index is damaged.
#[tactic(auto)]
pub fn findings_of_a_table()
    ensures clean { index_findings (row_of 2) with_a_table ≡ [] }
    ensures its_keys { known_keys (row_of 2) with_a_table ≡ Some (codes "a" ∷ codes "ab" ∷ []) }
    ensures three_by_the_row { index_findings (row_of 3) with_a_table ≡ finding Index 790528 WrongCount ∷ [] }
    ensures of_a_damaged_block { index_findings (row_of 3) (overwritten with_a_table 786440 (7 ∷ [])) ≡ finding Block 786432 (OtherSum a_and_ab_sum 13687071576333372984) ∷ [] }
    ensures no_count_then { count_findings (row_of 3) (overwritten with_a_table 786440 (7 ∷ [])) ≡ [] }
    ensures no_keys_then { known_keys (row_of 2) (overwritten with_a_table 786440 (7 ∷ [])) ≡ None }
    ensures nor_with_a_finding { keys_by (row_of 2) None (finding Block 786432 WrongKeys ∷ []) with_a_table ≡ None }
    ensures nor_with_damage { keys_by (row_of 2) (Some (Shape Index 790528 2)) [] with_a_table ≡ None }
{}

/// Two blocks, the first of the first format and the second with shared prefixes: nothing is found. Where their pages are
/// changed over, neither has its keys. A block after a damaged one may have lesser keys.
#[tactic(auto)]
pub fn findings_of_two_blocks()
    ensures in_order { block_findings 192 (AtLeast (codes "a")) (up_to a_and_ab_sum (codes "ab") ∷ up_to c_sum (codes "c") ∷ []) (overwritten (overwritten zeros 786432 a_and_ab_bytes) 790528 c_bytes) ≡ [] }
    ensures changed_over { block_findings 192 (AtLeast (codes "a")) (up_to c_sum (codes "ab") ∷ up_to a_and_ab_sum (codes "c") ∷ []) (overwritten (overwritten zeros 786432 c_bytes) 790528 a_and_ab_bytes) ≡ finding Block 786432 WrongKeys ∷ finding Block 790528 WrongKeys ∷ [] }
    ensures after_damage { block_findings 192 (AtLeast (codes "a")) (up_to 7 (codes "b") ∷ up_to a_and_ab_sum (codes "ab") ∷ []) (overwritten zeros 790528 a_and_ab_bytes) ≡ finding Block 786432 (OtherSum 7 13346994205906133797) ∷ [] }
{}

/// A filter is compared with no keys where they are not known. One of three leaves breaks rule 11 where its row has two
/// entries; where the row has three and the blocks have two, the count of the index is found, and the filter's last leaf.
#[tactic(auto)]
pub fn findings_of_filters()
    ensures unknown { (spelling : Spelling) (first_fault : Bytes → FilterFault) (image : Image) → IsSoundFilter spelling (row_of 2) image → FilterFindings spelling first_fault (row_of 2) None image [] }
    ensures damaged { (spelling : Spelling) (first_fault : Bytes → FilterFault) → IsSpelling spelling 0 0 0 (base_leaves (codes "a" ∷ codes "ab" ∷ codes "b" ∷ [])) (filter_part (row_of 2) with_a_table)
        → RowsFindings spelling first_fault with_a_table (row_of 2 ∷ []) (finding Filter 794636 (BrokenRule 11) ∷ []) }
    ensures with_the_count { (spelling : Spelling) (first_fault : Bytes → FilterFault) → IsSpelling spelling 0 0 0 (base_leaves (codes "a" ∷ codes "ab" ∷ codes "b" ∷ [])) (filter_part (row_of 3) with_a_table)
        → RowsFindings spelling first_fault with_a_table (row_of 3 ∷ []) (finding Index 790528 WrongCount ∷ finding Filter 794624 (WrongLeaf 2) ∷ []) }
{}

/// Three rows on a device of zeros, table by table: the sum of the index, with nothing of its blocks, and that of the filter.
#[tactic(auto)]
pub fn findings_of_rows()
    ensures { (spelling : Spelling) (first_fault : Bytes → FilterFault) → RowsFindings spelling first_fault zeros (table 0 192 ∷ table 0 204 ∷ table 1 216 ∷ [])
        (finding Index 790528 (OtherSum 0x0102030405060708 8424691912193956439) ∷ finding Filter 794624 (OtherSum 9 17814397539202711727)
        ∷ finding Index 839680 (OtherSum 0x0102030405060708 8424691912193956439) ∷ finding Filter 843776 (OtherSum 9 17814397539202711727)
        ∷ finding Index 888832 (OtherSum 0x0102030405060708 8424691912193956439) ∷ finding Filter 892928 (OtherSum 9 17814397539202711727) ∷ []) }
{}

/// Three tables of level 1 in reverse order: one fault, at the second row. Where the index between is damaged there is none,
/// and where the first one is, it is that of the third row.
#[tactic(auto)]
pub fn findings_of_ranges()
    ensures in_reverse { neighbours_fault (row_of_c ∷ row_of_b ∷ row_of_a ∷ []) with_three_tables ≡ Some (fault 128 12) }
    ensures of_slot_a { ranges_findings 0 (Some (fault 128 12)) ≡ finding Manifest 136 (BrokenRule 12) ∷ [] }
    ensures of_slot_b { ranges_findings 131072 (Some (fault 128 12)) ≡ finding Manifest 131208 (BrokenRule 12) ∷ [] }
    ensures in_order { neighbours_fault (row_of_a ∷ row_of_b ∷ row_of_c ∷ []) with_three_tables ≡ None }
    ensures a_damaged_one_between { neighbours_fault (row_of_c ∷ record row_of_b { index_sum = 7 } ∷ row_of_a ∷ []) with_three_tables ≡ None }
    ensures a_damaged_one_before { neighbours_fault (record row_of_c { index_sum = 7 } ∷ row_of_b ∷ row_of_a ∷ []) with_three_tables ≡ Some (fault 192 12) }
{}

/// Of a device of ones the magic of slot A is the one finding; so is the format of slot A where it is 9, whatever is wrong
/// after it. Two open slots of one epoch break rule 11, and nothing is found of a new store.
#[tactic(auto)]
pub fn findings_of_slots()
    ensures of_ones { (spelling : Spelling) (first_fault : Bytes → FilterFault) → AreFindings spelling first_fault (λ place. 1) (finding Manifest 8 (BrokenRule 1) ∷ []) }
    ensures of_format_9 { (spelling : Spelling) (first_fault : Bytes → FilterFault) → AreFindings spelling first_fault (λ place. get_or (1 ∷ 0 ∷ 0 ∷ 0 ∷ 0 ∷ 0 ∷ 0 ∷ 0 ∷ 0x53 ∷ 0x52 ∷ 0x46 ∷ 0x4D ∷ 9 ∷ []) place 0) (finding Manifest 12 (BrokenRule 2) ∷ []) }
    ensures of_one_epoch { (spelling : Spelling) (first_fault : Bytes → FilterFault) → AreFindings spelling first_fault with_both_slots (finding Manifest 131088 (BrokenRule 11) ∷ []) }
    ensures of_a_new_store { (spelling : Spelling) (first_fault : Bytes → FilterFault) (image : Image) → IsFormatted (settings_of formatted) 512 image → AreFindings spelling first_fault image [] }
{}
