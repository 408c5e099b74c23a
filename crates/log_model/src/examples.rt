//! The definitions, shown by examples. Each computes.
ghost use Rattle.std.specs.Prelude.{◌≡◌, [], ◌∷◌, map, Some, None};
ghost use Rattle.range_model.specs.Ranges.{range_of};
ghost use Rattle.range_model.specs.Sources.{Clears};
ghost use Rattle.disk_trait.specs.Image.{Image};
ghost use Rattle.log_model.specs.Area.{LogBreaks, start_of};
ghost use Rattle.log_model.specs.Changes.{change_in, change_record};
ghost use Rattle.log_model.specs.Records.{broken_rule};

/// Where the two areas begin.
#[tactic(auto)]
pub fn areas()
    ensures starts { map start_of (0 ∷ 1 ∷ []) ≡ 262144 ∷ 524288 ∷ [] }
{}

/// What may stand behind an open gate, from the kind on: the kind is tried before the lengths, these before
/// the whole, and this before the bounds of a range.
#[tactic(auto, unfolding(entry_model::specs::Reading::width_in, entry_model::specs::Reading::key_in, crate::specs::Changes::range_in))]
pub fn rules()
    ensures a_put_and_its_gate { broken_rule (1 ∷ 1 ∷ 0 ∷ 1 ∷ 0 ∷ 0 ∷ 0 ∷ 107 ∷ 120 ∷ 0 ∷ []) ≡ None }
    ensures six_bytes { broken_rule (4 ∷ 1 ∷ 0 ∷ 1 ∷ 0 ∷ 0 ∷ []) ≡ Some 1 }
    ensures kind_four { broken_rule (4 ∷ 0 ∷ 0 ∷ 1 ∷ 0 ∷ 0 ∷ 0 ∷ []) ≡ Some 2 }
    ensures no_key { broken_rule (1 ∷ 0 ∷ 0 ∷ 1 ∷ 0 ∷ 0 ∷ 0 ∷ []) ≡ Some 3 }
    ensures a_key_of_1025_bytes { broken_rule (2 ∷ 1 ∷ 4 ∷ 0 ∷ 0 ∷ 0 ∷ 0 ∷ []) ≡ Some 3 }
    ensures a_delete_with_a_value { broken_rule (2 ∷ 1 ∷ 0 ∷ 1 ∷ 0 ∷ 0 ∷ 0 ∷ 107 ∷ 120 ∷ 0 ∷ []) ≡ Some 3 }
    ensures a_range_and_its_gate { broken_rule (3 ∷ 1 ∷ 0 ∷ 1 ∷ 0 ∷ 0 ∷ 0 ∷ 97 ∷ 99 ∷ 0 ∷ []) ≡ None }
    ensures a_range_without_a_lower_bound { broken_rule (3 ∷ 0 ∷ 0 ∷ 1 ∷ 0 ∷ 0 ∷ 0 ∷ 99 ∷ 0 ∷ []) ≡ Some 3 }
    ensures one_without_an_upper_bound { broken_rule (3 ∷ 1 ∷ 0 ∷ 0 ∷ 0 ∷ 0 ∷ 0 ∷ 97 ∷ 0 ∷ []) ≡ Some 3 }
    ensures one_with_an_upper_bound_of_1025_bytes { broken_rule (3 ∷ 1 ∷ 0 ∷ 1 ∷ 4 ∷ 0 ∷ 0 ∷ []) ≡ Some 3 }
    ensures one_from_c_to_c { broken_rule (3 ∷ 1 ∷ 0 ∷ 1 ∷ 0 ∷ 0 ∷ 0 ∷ 99 ∷ 99 ∷ 0 ∷ []) ≡ Some 3 }
    ensures one_from_d_to_c { broken_rule (3 ∷ 1 ∷ 0 ∷ 1 ∷ 0 ∷ 0 ∷ 0 ∷ 100 ∷ 99 ∷ 0 ∷ []) ≡ Some 3 }
    ensures one_from_d_to_c_and_no_gate { broken_rule (3 ∷ 1 ∷ 0 ∷ 1 ∷ 0 ∷ 0 ∷ 0 ∷ 100 ∷ 99 ∷ []) ≡ Some 1 }
    ensures no_gate_behind_the_body { broken_rule (1 ∷ 1 ∷ 0 ∷ 1 ∷ 0 ∷ 0 ∷ 0 ∷ 107 ∷ 120 ∷ []) ≡ Some 1 }
{}

/// The record of a range, from a to c, and what is read of it.
#[tactic(auto, unfolding(entry_model::specs::Reading::key_in, crate::specs::Changes::range_in))]
pub fn ranges()
    ensures from_a_to_c { change_record (Clears (range_of (97 ∷ []) (99 ∷ []))) ≡ 1 ∷ 3 ∷ 1 ∷ 0 ∷ 1 ∷ 0 ∷ 0 ∷ 0 ∷ 97 ∷ 99 ∷ [] }
    ensures it_is_read { change_in (3 ∷ 1 ∷ 0 ∷ 1 ∷ 0 ∷ 0 ∷ 0 ∷ 97 ∷ 99 ∷ 0 ∷ []) ≡ Clears (range_of (97 ∷ []) (99 ∷ [])) }
{}

/// The place of a broken rule is that of the device's byte: area 1 begins with an open gate, and kind 4 stands behind it.
pub fn open_gates()
    ensures kind_four_in_area_1 { (image : Image) → image 524288 ≡ 1 → image 524289 ≡ 4 → LogBreaks 1 524288 2 image }
{}
