//! The definition, shown by examples. Each computes.
ghost use Rattle.std.specs.Prelude.{◌≡◌, [], Some, None, codes};
ghost use Rattle.waking_keys.specs.Examples.{far_to_toy_by_real_bits, far_to_toy_from, farther_and_fast_from};

/// The waking keys of far, fast, s, top and toy.
pub fn far_to_toy_wakes()
    ensures from_the_first_on { far_to_toy_from [] ≡ Some (codes "far") }
    ensures at_the_least_key { far_to_toy_from (codes "far") ≡ Some (codes "far") }
    ensures at_the_least_string { far_to_toy_from (codes "fas") ≡ Some (codes "fas") }
    ensures by_real_bits_it_is_the_key { far_to_toy_by_real_bits (codes "fas") ≡ Some (codes "fast") }
    ensures before_the_bound { far_to_toy_from (codes "fasten") ≡ Some (codes "fas") }
    ensures between_two_keys { far_to_toy_from (codes "fat") ≡ Some (codes "s") }
    ensures behind_the_last { far_to_toy_from (codes "u") ≡ None }
{}

/// The waking keys of farther and fast.
pub fn farther_and_fast_wake()
    ensures at_the_least_key_above_its_string { farther_and_fast_from (codes "farty") ≡ Some (codes "farther") }
    ensures at_the_second_string { farther_and_fast_from (codes "fas") ≡ Some (codes "fas") }
{}
