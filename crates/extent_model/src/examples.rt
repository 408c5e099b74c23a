//! The definitions, shown by examples. Each computes.
ghost use Rattle.std.specs.Prelude.{◌≡◌, [], ◌∷◌, map, Some, None};
ghost use Rattle.extent_model.specs.Gaps.{first_gap, largest_gap, room_at};

/// Gaps between, before and behind extents.
#[tactic(auto)]
pub fn gaps()
    ensures between_two { first_gap 512 ((192, 3) ∷ (200, 5) ∷ []) 5 ≡ Some 195 }
    ensures behind_them { first_gap 512 ((192, 3) ∷ (200, 5) ∷ []) 6 ≡ Some 205 }
    ensures before_all { first_gap 512 ((200, 5) ∷ (205, 1) ∷ []) 8 ≡ Some 192 }
    ensures to_the_last_page { map (first_gap 512 ((192, 300) ∷ [])) (20 ∷ 21 ∷ []) ≡ Some 492 ∷ None ∷ [] }
    ensures the_largest { largest_gap 512 ((300, 12) ∷ (192, 3) ∷ []) ≡ 200 }
    ensures none_in_an_extent { map (room_at 512 ((192, 3) ∷ [])) (191 ∷ 192 ∷ 194 ∷ 195 ∷ []) ≡ 1 ∷ 0 ∷ 0 ∷ 317 ∷ [] }
{}
