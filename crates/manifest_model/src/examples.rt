//! The definitions, shown by small manifests whose bytes and faults are known. Each computes.
ghost use Rattle.std.specs.Prelude.{◌≡◌, [], ◌∷◌, ◌++◌, length, take, drop, set, replicate, true, Some, None};
ghost use Rattle.byte_fields.specs.Faults.{fault};
ghost use Rattle.manifest_model.specs.Reading.{body_damage, version_in};
ghost use Rattle.manifest_model.specs.Examples.{broken_body, broken_in_format_1, twice_broken, twice_broken_rows, formatted, formatted_mixed, keys_at, mixed_table, one_as_new, one_table, reaching, shape, sums, table, table_of_none, version_with};
ghost use Rattle.manifest_model.specs.Tables.{epochs_fault, is_newer, ranges_fault};
ghost use Rattle.manifest_model.specs.Version.{body_bytes, row_bytes, slot_a, slot_b};

/// The body of slot A after a format on 512 pages, and that of a store with one table in level 1.
#[tactic(auto, unfolding(crate::specs::Version::head_bytes, crate::specs::Version::row_bytes, crate::specs::Version::prefix_bytes, crate::specs::Version::body_bytes))]
pub fn small_bodies()
    ensures formatted { body_bytes 2 formatted
        ≡ 0x53 ∷ 0x52 ∷ 0x46 ∷ 0x4D ∷ 2 ∷ 0 ∷ 0 ∷ 0
        ∷ 1 ∷ 0 ∷ 0 ∷ 0 ∷ 0 ∷ 0 ∷ 0 ∷ 0
        ∷ 0 ∷ 2 ∷ 0 ∷ 0 ∷ 0 ∷ 0 ∷ 0x40 ∷ 0
        ∷ 0x40 ∷ 0 ∷ 0 ∷ 0 ∷ 0x40 ∷ 0 ∷ 0 ∷ 0 ∷ (replicate 32 0 ++ 0xF8 ∷ 0x2D ∷ 0xC8 ∷ 0xE6 ∷ 0x65 ∷ 0x4F ∷ 0xF8 ∷ 0x95 ∷ []) }
    ensures merged { take 16 (body_bytes 1 one_table) ≡ 0x53 ∷ 0x52 ∷ 0x46 ∷ 0x4D ∷ 1 ∷ 0 ∷ 1 ∷ 0 ∷ 6 ∷ 0 ∷ 0 ∷ 0 ∷ 0 ∷ 0 ∷ 0 ∷ 0 ∷ [] }
    ensures its_row { take 64 (drop 64 (body_bytes 1 one_table))
        ≡ 1 ∷ 0 ∷ 0 ∷ 0 ∷ 0xCC ∷ 0 ∷ 0 ∷ 0 ∷ 1 ∷ 0 ∷ 0 ∷ 0 ∷ 1 ∷ 0 ∷ 0 ∷ 0
        ∷ 1 ∷ 0 ∷ 0 ∷ 0 ∷ 4 ∷ 0 ∷ 0 ∷ 0 ∷ 0x1B ∷ 0 ∷ 0 ∷ 0 ∷ 0 ∷ 0 ∷ 0 ∷ 0
        ∷ 0x2D ∷ 0 ∷ 0 ∷ 0 ∷ 0 ∷ 0 ∷ 0 ∷ 0 ∷ 8 ∷ 7 ∷ 6 ∷ 5 ∷ 4 ∷ 3 ∷ 2 ∷ 1
        ∷ 9 ∷ 0 ∷ 0 ∷ 0 ∷ 0 ∷ 0 ∷ 0 ∷ 0 ∷ 0 ∷ 0 ∷ 0 ∷ 0 ∷ 0 ∷ 0 ∷ 0 ∷ 0 ∷ [] }
    ensures its_sum { drop 128 (body_bytes 1 one_table) ≡ 0xA6 ∷ 0xC5 ∷ 0x7B ∷ 0xBC ∷ 0xF2 ∷ 0x55 ∷ 0x5D ∷ 0x3A ∷ [] }
    ensures its_length { length (body_bytes 1 one_table) ≡ 136 }
{}

/// Settings in the head of format 2, and in its rows.
#[tactic(auto, unfolding(crate::specs::Version::head_bytes, crate::specs::Version::row_bytes, crate::specs::Version::prefix_bytes, crate::specs::Version::body_bytes))]
pub fn settings_of_tables()
    ensures head { take 4 (drop 20 (body_bytes 2 formatted_mixed)) ≡ 4 ∷ 3 ∷ 0x10 ∷ 0 ∷ [] }
    ensures its_sum { drop 64 (body_bytes 2 formatted_mixed) ≡ 0x8D ∷ 0x46 ∷ 0x42 ∷ 0xEF ∷ 5 ∷ 0xFD ∷ 0x8D ∷ 0x77 ∷ [] }
    ensures row { take 8 (drop 120 (body_bytes 2 (version_with (mixed_table 1 204 ∷ [])))) ≡ 8 ∷ 3 ∷ 7 ∷ 0 ∷ 0 ∷ 0 ∷ 0 ∷ 0 ∷ [] }
    ensures sum { drop 128 (body_bytes 2 (version_with (mixed_table 1 204 ∷ []))) ≡ 0xFF ∷ 0x5B ∷ 0x42 ∷ 0xD1 ∷ 0x63 ∷ 0x8F ∷ 0x7D ∷ 0x6E ∷ [] }
{}

/// They are read as they were written.
#[tactic(auto, unfolding(crate::specs::Version::head_bytes, crate::specs::Version::row_bytes, crate::specs::Version::prefix_bytes, crate::specs::Version::body_bytes, crate::specs::Reading::table_row_in, crate::specs::Reading::table_rows_in, crate::specs::Reading::version_in, crate::specs::Reading::early_fault, crate::specs::Reading::prefix_length_in, crate::specs::Reading::numbers_fault, crate::specs::Reading::settings_fault, crate::specs::Reading::log_area_fault, crate::specs::Reading::zeros_fault, crate::specs::Reading::row_zeros_fault, crate::specs::Reading::table_row_fault, crate::specs::Reading::table_rows_fault, crate::specs::Reading::levels_fault, crate::specs::Reading::extents_fault, crate::specs::Reading::later_fault, crate::specs::Reading::sum_damage, crate::specs::Reading::body_damage, crate::specs::Examples::broken_body, block_model::specs::Pages::pages_for))]
pub fn small_bodies_are_read()
    ensures formatted { version_in (body_bytes 2 formatted) ≡ formatted }
    ensures no_damage { body_damage slot_a (body_bytes 2 formatted) ≡ None }
    ensures merged { version_in (body_bytes 1 one_table) ≡ one_table }
    ensures no_damage_there { body_damage slot_b (body_bytes 1 one_table) ≡ None }
    ensures mixed { version_in (body_bytes 2 (version_with (mixed_table 1 204 ∷ []))) ≡ version_with (mixed_table 1 204 ∷ []) }
    ensures as_new_in_format_1 { version_in (body_bytes 1 one_as_new) ≡ one_as_new }
    ensures others_are_not_kept_in_format_1 { version_in (body_bytes 1 (version_with (mixed_table 1 204 ∷ []))) ≡ one_table }
{}

/// Where one byte of a body of format 2 is another one, and the sum is of that: rules 1 to 8.
#[tactic(auto, unfolding(crate::specs::Version::head_bytes, crate::specs::Version::row_bytes, crate::specs::Version::prefix_bytes, crate::specs::Version::body_bytes, crate::specs::Reading::table_row_in, crate::specs::Reading::table_rows_in, crate::specs::Reading::version_in, crate::specs::Reading::early_fault, crate::specs::Reading::prefix_length_in, crate::specs::Reading::numbers_fault, crate::specs::Reading::settings_fault, crate::specs::Reading::log_area_fault, crate::specs::Reading::zeros_fault, crate::specs::Reading::row_zeros_fault, crate::specs::Reading::table_row_fault, crate::specs::Reading::table_rows_fault, crate::specs::Reading::levels_fault, crate::specs::Reading::extents_fault, crate::specs::Reading::later_fault, crate::specs::Reading::sum_damage, crate::specs::Reading::body_damage, crate::specs::Examples::broken_body, crate::specs::Examples::broken_in_format_1, block_model::specs::Pages::pages_for))]
pub fn broken_bodies()
    ensures magic { body_damage slot_a (broken_body 3 0x49) ≡ shape 8 1 }
    ensures format { body_damage slot_b (broken_body 4 3) ≡ shape 131084 2 }
    ensures no_format { body_damage slot_a (broken_body 4 0) ≡ shape 12 2 }
    ensures great_format { body_damage slot_a (broken_body 5 1) ≡ shape 12 2 }
    ensures many_tables { body_damage slot_a (broken_body 7 4) ≡ shape 14 3 }
    ensures sum { body_damage slot_a (set (body_bytes 1 one_table) 84 5) ≡ sums 8 4205612128066586022 6962442923332981583 }
    ensures no_epoch { body_damage slot_a (broken_body 8 0) ≡ shape 16 4 }
    ensures few_pages { body_damage slot_a (broken_body 17 1) ≡ shape 24 5 }
    ensures many_pages { body_damage slot_a (broken_body 19 2) ≡ shape 24 5 }
    ensures hash_bits { body_damage slot_a (broken_body 20 33) ≡ shape 28 5 }
    ensures real_bits { body_damage slot_a (broken_body 21 33) ≡ shape 29 5 }
    ensures log_page { body_damage slot_a (broken_body 24 65) ≡ shape 32 6 }
    ensures log_pages { body_damage slot_a (broken_body 28 63) ≡ shape 36 6 }
    ensures a_byte_of_the_head { body_damage slot_a (broken_body 40 1) ≡ shape 48 7 }
    ensures a_byte_of_a_row { body_damage slot_a (broken_body 67 1) ≡ shape 75 7 }
    ensures the_last_of_a_row { body_damage slot_a (broken_body 127 1) ≡ shape 135 7 }
    ensures after_the_settings { body_damage slot_a (broken_body 124 1) ≡ shape 132 7 }
    ensures rows_hash_bits { body_damage slot_a (broken_body 120 33) ≡ shape 128 5 }
    ensures rows_real_bits { body_damage slot_a (broken_body 121 33) ≡ shape 129 5 }
    ensures any_ratio { body_damage slot_a (broken_body 122 0xFF) ≡ None }
    ensures ratio_in_format_1 { body_damage slot_a (broken_body 4 1) ≡ shape 130 7 }
    ensures hash_bits_in_format_1 { body_damage slot_a (broken_in_format_1 120 33) ≡ shape 128 7 }
    ensures the_last_of_a_row_in_format_1 { body_damage slot_b (broken_in_format_1 127 1) ≡ shape 131207 7 }
    ensures level { body_damage slot_a (broken_body 64 7) ≡ shape 72 8 }
    ensures no_block { body_damage slot_a (broken_body 72 0) ≡ shape 80 8 }
    ensures index_pages { body_damage slot_a (broken_body 76 2) ≡ shape 84 8 }
    ensures index_length { body_damage slot_a (broken_body 89 0x10) ≡ shape 84 8 }
    ensures filter_pages { body_damage slot_a (broken_body 80 0) ≡ shape 88 8 }
    ensures no_entry { body_damage slot_a (broken_body 84 0) ≡ shape 92 8 }
{}

/// Where tables do not stand as they must: rules 9 and 10.
#[tactic(auto, unfolding(crate::specs::Version::head_bytes, crate::specs::Version::row_bytes, crate::specs::Version::prefix_bytes, crate::specs::Version::body_bytes, crate::specs::Reading::table_row_in, crate::specs::Reading::table_rows_in, crate::specs::Reading::version_in, crate::specs::Reading::early_fault, crate::specs::Reading::prefix_length_in, crate::specs::Reading::numbers_fault, crate::specs::Reading::settings_fault, crate::specs::Reading::log_area_fault, crate::specs::Reading::zeros_fault, crate::specs::Reading::row_zeros_fault, crate::specs::Reading::table_row_fault, crate::specs::Reading::table_rows_fault, crate::specs::Reading::levels_fault, crate::specs::Reading::extents_fault, crate::specs::Reading::later_fault, crate::specs::Reading::sum_damage, crate::specs::Reading::body_damage, crate::specs::Examples::broken_body, block_model::specs::Pages::pages_for))]
pub fn broken_places()
    ensures side_by_side { body_damage slot_a (body_bytes 2 (version_with (table 0 195 ∷ table 0 192 ∷ table 1 198 ∷ table 1 509 ∷ []))) ≡ None }
    ensures levels_fall { body_damage slot_a (body_bytes 2 (version_with (table 1 192 ∷ table 0 195 ∷ []))) ≡ shape 136 9 }
    ensures before_the_tables { body_damage slot_a (body_bytes 2 (version_with (table 1 191 ∷ []))) ≡ shape 76 10 }
    ensures past_the_device { body_damage slot_a (body_bytes 2 (version_with (table 0 192 ∷ table 1 510 ∷ []))) ≡ shape 140 10 }
    ensures two_meet { body_damage slot_a (body_bytes 2 (version_with (table 0 300 ∷ table 0 200 ∷ table 1 298 ∷ []))) ≡ shape 204 10 }
{}

/// Where two rules are broken: the first of them in their order, and of rule 8 row by row.
#[tactic(auto, unfolding(crate::specs::Version::head_bytes, crate::specs::Version::row_bytes, crate::specs::Version::prefix_bytes, crate::specs::Version::body_bytes, crate::specs::Reading::table_row_in, crate::specs::Reading::table_rows_in, crate::specs::Reading::version_in, crate::specs::Reading::early_fault, crate::specs::Reading::prefix_length_in, crate::specs::Reading::numbers_fault, crate::specs::Reading::settings_fault, crate::specs::Reading::log_area_fault, crate::specs::Reading::zeros_fault, crate::specs::Reading::row_zeros_fault, crate::specs::Reading::table_row_fault, crate::specs::Reading::table_rows_fault, crate::specs::Reading::levels_fault, crate::specs::Reading::extents_fault, crate::specs::Reading::later_fault, crate::specs::Reading::sum_damage, crate::specs::Reading::body_damage, crate::specs::Examples::broken_body, crate::specs::Examples::twice_broken, crate::specs::Examples::twice_broken_rows, block_model::specs::Pages::pages_for))]
pub fn twice_broken_bodies()
    ensures magic_then_format { body_damage slot_a (twice_broken 3 0x49 4 3) ≡ shape 8 1 }
    ensures format_then_tables { body_damage slot_a (twice_broken 4 3 7 4) ≡ shape 12 2 }
    ensures tables_then_sum { body_damage slot_a (set (body_bytes 1 one_table) 7 4) ≡ shape 14 3 }
    ensures sum_then_epoch { body_damage slot_a (set (body_bytes 1 one_table) 8 0) ≡ sums 8 4205612128066586022 8783559060034237592 }
    ensures sum_then_rows_bits { body_damage slot_a (set (body_bytes 2 one_table) 120 33) ≡ sums 8 9841895891213626313 15380885056573979144 }
    ensures epoch_then_pages { body_damage slot_a (twice_broken 8 0 17 1) ≡ shape 16 4 }
    ensures pages_then_hash_bits { body_damage slot_a (twice_broken 17 1 20 33) ≡ shape 24 5 }
    ensures real_bits_then_log { body_damage slot_a (twice_broken 21 33 24 65) ≡ shape 29 5 }
    ensures heads_bits_then_rows { body_damage slot_a (twice_broken 121 33 21 33) ≡ shape 29 5 }
    ensures rows_hash_bits_then_real_bits { body_damage slot_a (twice_broken 120 33 121 33) ≡ shape 128 5 }
    ensures rows_bits_then_log { body_damage slot_a (twice_broken 120 33 24 65) ≡ shape 128 5 }
    ensures rows_bits_then_zeros { body_damage slot_a (twice_broken 120 33 65 1) ≡ shape 128 5 }
    ensures the_first_zero { body_damage slot_a (twice_broken 65 1 124 1) ≡ shape 73 7 }
    ensures format_1_without_settings { body_damage slot_a (twice_broken 4 1 122 0) ≡ None }
    ensures later_rows_bits_then_zeros { body_damage slot_a (twice_broken_rows 184 33 65 1) ≡ shape 192 5 }
    ensures bits_row_by_row { body_damage slot_a (twice_broken_rows 121 33 184 33) ≡ shape 129 5 }
    ensures zeros_of_a_later_row { body_damage slot_a (twice_broken_rows 188 1 191 1) ≡ shape 196 7 }
    ensures zeros_row_by_row { body_damage slot_a (twice_broken_rows 129 1 124 1) ≡ shape 132 7 }
    ensures log_then_zeros { body_damage slot_a (twice_broken 28 63 40 1) ≡ shape 36 6 }
    ensures zeros_then_level { body_damage slot_a (twice_broken 67 1 64 7) ≡ shape 75 7 }
    ensures row_then_levels { body_damage slot_a (body_bytes 2 (version_with (table 1 192 ∷ table_of_none 0 195 ∷ []))) ≡ shape 156 8 }
    ensures the_first_row { body_damage slot_a (body_bytes 2 (version_with (table_of_none 0 192 ∷ table 7 195 ∷ []))) ≡ shape 92 8 }
    ensures levels_then_places { body_damage slot_a (body_bytes 2 (version_with (table 1 192 ∷ table 0 510 ∷ []))) ≡ shape 136 9 }
{}

/// Two open slots of one epoch, and keys of a deeper level that do not rise: rules 11 and 12.
#[tactic(auto, unfolding(crate::specs::Tables::ranges_fault, crate::specs::Tables::ranges_after))]
pub fn broken_versions()
    ensures one_epoch { epochs_fault one_table one_table ≡ Some (fault 8 11) }
    ensures another { epochs_fault formatted one_table ≡ None }
    ensures the_newer { is_newer one_table formatted ≡ true }
    ensures level_0_overlaps { ranges_fault (keys_at 0 1 9 ∷ keys_at 0 1 9 ∷ keys_at 1 1 5 ∷ keys_at 1 6 9 ∷ keys_at 2 1 9 ∷ []) ≡ None }
    ensures level_1_does_not { ranges_fault (keys_at 0 1 9 ∷ keys_at 1 1 5 ∷ keys_at 1 5 9 ∷ []) ≡ Some (fault 192 12) }
    ensures nor_does_it_fall { ranges_fault (keys_at 1 6 9 ∷ keys_at 1 1 5 ∷ []) ≡ Some (fault 128 12) }
    ensures ranges_may_end_where_the_next_begins { ranges_fault (reaching (keys_at 1 1 5) 6 ∷ keys_at 1 6 9 ∷ []) ≡ None }
    ensures but_not_beyond { ranges_fault (reaching (keys_at 1 1 5) 7 ∷ keys_at 1 6 9 ∷ []) ≡ Some (fault 128 12) }
{}
