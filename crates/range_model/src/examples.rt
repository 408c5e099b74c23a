//! The definitions, shown by examples. Each computes.
ghost use Rattle.std.specs.Prelude.{◌≡◌, [], ◌∷◌, ◌++◌, Some, None, true, false};
ghost use Rattle.map_model.specs.SortedMap.{put};
ghost use Rattle.entry_model.specs.Entries.{put_entry, del_entry, live};
ghost use Rattle.entry_model.specs.Newest.{newest_entries};
ghost use Rattle.range_model.specs.Clearing.{clear};
ghost use Rattle.range_model.specs.Ranges.{range_of, with_range, ranges_below, ranges_from};
ghost use Rattle.range_model.specs.Sources.{source_of, says, first_said};
ghost use Rattle.range_model.specs.Outputs.{with_ranges};
ghost use Rattle.range_model.specs.ChangedMaps.{map_of_changes};
ghost use Rattle.range_model.specs.Hiding.{is_hidden, in_sight, oldest_entries};
ghost use Rattle.range_model.specs.Examples.{three, three_puts, cleared_two, put_again, three_sources, touching, touching_source, crossed};

/// What is left of a map of three keys, 61, 62 and 63.
#[tactic(auto)]
pub fn cleared_keys()
    ensures up_to_63_without_it { clear three (0x61 ∷ []) (0x63 ∷ []) ≡ (0x63 ∷ [], 3 ∷ []) ∷ [] }
    ensures none_from_61_to_61 { clear three (0x61 ∷ []) (0x61 ∷ []) ≡ three }
    ensures none_from_63_to_61 { clear three (0x63 ∷ []) (0x61 ∷ []) ≡ three }
    ensures none_up_to_no_bytes { clear three [] [] ≡ three }
    ensures from_the_least_key_on { clear (put (put [] (0 ∷ []) (1 ∷ [])) (0x61 ∷ []) (2 ∷ [])) (0 ∷ []) (0x62 ∷ []) ≡ [] }
    ensures a_longer_key_comes_after { clear three (0x61 ∷ 0 ∷ []) (0x63 ∷ []) ≡ (0x61 ∷ [], 1 ∷ []) ∷ (0x63 ∷ [], 3 ∷ []) ∷ [] }
{}

/// Three puts, a range over two of them, and one of the two put again, each a source of its own.
#[tactic(auto)]
pub fn deleted_and_put_again()
    ensures a_tombstone_and_a_range { source_of cleared_two ≡ record { entries = del_entry (0x61 ∷ []) ∷ []; ranges = range_of (0x61 ∷ []) (0x63 ∷ []) ∷ [] } }
    ensures what_it_covers_is_gone { source_of (three_puts ++ cleared_two) ≡ record { entries = del_entry (0x61 ∷ []) ∷ put_entry (0x63 ∷ []) (3 ∷ []) ∷ []; ranges = range_of (0x61 ∷ []) (0x63 ∷ []) ∷ [] } }
    ensures get_61 { live (first_said three_sources (0x61 ∷ [])) ≡ None }
    ensures get_62 { first_said three_sources (0x62 ∷ []) ≡ Some (Some (4 ∷ [])) }
    ensures get_62_before { first_said (source_of cleared_two ∷ source_of three_puts ∷ []) (0x62 ∷ []) ≡ Some None }
    ensures get_63 { first_said three_sources (0x63 ∷ []) ≡ Some (Some (3 ∷ [])) }
    ensures hidden_62_before { is_hidden (source_of cleared_two ∷ source_of three_puts ∷ []) (0x62 ∷ []) ≡ true }
    ensures not_hidden_62 { is_hidden three_sources (0x62 ∷ []) ≡ false }
    ensures rows { in_sight three_sources (newest_entries (oldest_entries three_sources))
        ≡ del_entry (0x61 ∷ []) ∷ put_entry (0x62 ∷ []) (4 ∷ []) ∷ put_entry (0x63 ∷ []) (3 ∷ []) ∷ [] }
    ensures the_map_before { map_of_changes (three_puts ++ cleared_two) ≡ (0x63 ∷ [], 3 ∷ []) ∷ [] }
    ensures the_map { map_of_changes (three_puts ++ (cleared_two ++ put_again)) ≡ (0x62 ∷ [], 4 ∷ []) ∷ (0x63 ∷ [], 3 ∷ []) ∷ [] }
{}

/// Ranges that touch and meet, with a put among them; ranges whose bounds are crossed.
#[tactic(auto)]
pub fn joined_ranges()
    ensures touching_ranges_are_one { with_range (range_of (0x61 ∷ []) (0x63 ∷ []) ∷ []) (range_of (0x63 ∷ []) (0x65 ∷ [])) ≡ range_of (0x61 ∷ []) (0x65 ∷ []) ∷ [] }
    ensures others_have_room_between { with_range (range_of (0x61 ∷ []) (0x63 ∷ []) ∷ []) (range_of (0x63 ∷ 0 ∷ []) (0x65 ∷ [])) ≡ range_of (0x61 ∷ []) (0x63 ∷ []) ∷ range_of (0x63 ∷ 0 ∷ []) (0x65 ∷ []) ∷ [] }
    ensures all_of_them { source_of touching ≡ touching_source }
    ensures a_covered_key_is_deleted { says touching_source (0x63 ∷ []) ≡ Some None }
    ensures its_end_is_not_covered { says touching_source (0x65 ∷ []) ≡ None }
    ensures its_own_entry_wins { says touching_source (0x64 ∷ []) ≡ Some (Some (1 ∷ [])) }
    ensures crossed_ranges_are_none { source_of crossed ≡ record { entries = put_entry (0x61 ∷ []) (1 ∷ []) ∷ []; ranges = [] } }
    ensures of_a_map_too { map_of_changes crossed ≡ (0x61 ∷ [], 1 ∷ []) ∷ [] }
{}

/// Ranges that are cut at the first key of a later output.
#[tactic(auto)]
pub fn cut_ranges()
    ensures below_a_key { ranges_below touching_source.ranges (0x62 ∷ []) ≡ range_of (0x61 ∷ []) (0x62 ∷ []) ∷ [] }
    ensures nothing_below_its_first_key { ranges_below touching_source.ranges (0x61 ∷ []) ≡ [] }
    ensures nothing_from_its_end { ranges_from touching_source.ranges (0x65 ∷ []) ≡ [] }
    ensures two_outputs { with_ranges ((del_entry (0x61 ∷ []) ∷ del_entry (0x62 ∷ []) ∷ []) ∷ (put_entry (0x64 ∷ []) (1 ∷ []) ∷ []) ∷ []) touching_source.ranges
        ≡ record { entries = del_entry (0x61 ∷ []) ∷ del_entry (0x62 ∷ []) ∷ []; ranges = range_of (0x61 ∷ []) (0x64 ∷ []) ∷ [] }
        ∷ record { entries = put_entry (0x64 ∷ []) (1 ∷ []) ∷ []; ranges = range_of (0x64 ∷ []) (0x65 ∷ []) ∷ [] } ∷ [] }
{}
