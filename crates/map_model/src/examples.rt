//! The definitions, shown by examples. Each computes.
ghost use Rattle.std.specs.Prelude.{◌≡◌, [], ◌∷◌, Some, None};
ghost use Rattle.map_model.specs.Examples.{near, two};
ghost use Rattle.map_model.specs.Slices.{slice, seek, count};

/// A map of two keys, 61 and 62.
#[tactic(auto)]
pub fn two_keys()
    ensures first_of_two { slice two [] (Some (0x7A ∷ [])) 1 ≡ (0x61 ∷ [], []) ∷ [] }
    ensures none_of_two { slice two [] (Some (0x7A ∷ [])) 0 ≡ [] }
    ensures both_ends_are_in { slice two (0x61 ∷ []) (Some (0x62 ∷ [])) 9 ≡ two }
    ensures nothing_from_63 { seek two (0x63 ∷ []) None ≡ None }
    ensures nothing_from_62_to_61 { seek two (0x62 ∷ []) (Some (0x61 ∷ [])) ≡ None }
    ensures first_without_an_end { seek two [] None ≡ Some (0x61 ∷ [], []) }
    ensures all_are_counted { count two [] None ≡ 2 }
{}

/// Two keys between which a range lies.
#[tactic(auto)]
pub fn near_keys()
    ensures no_key_between { count near (0x61 ∷ 0x61 ∷ 0x35 ∷ []) (Some (0x61 ∷ 0x62 ∷ 0x30 ∷ [])) ≡ 0 }
{}
