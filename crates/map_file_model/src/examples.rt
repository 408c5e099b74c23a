//! Bodies that are written and read, and bodies with a byte or two changed: the first rule that they break. Each example
//! computes.
#![tactic(auto, unfolding(crate::specs::Maps::slotted, crate::specs::Body::body_of, crate::specs::Reading::image_part, crate::specs::Reading::offsets_in, crate::specs::Reading::values_in, crate::specs::Reading::short_fault, crate::specs::Reading::head_fault, crate::specs::Reading::trie_fault, crate::specs::Reading::offsets_fault, crate::specs::Reading::end_fault, crate::specs::Reading::body_fault, crate::specs::Reading::keys_read, crate::specs::Reading::map_in, crate::specs::ExampleBodies::a_and_ab_body, crate::specs::ExampleBodies::one_key_too_many, filter_image_model::specs::Header::section_bits, filter_image_model::specs::Header::section_place, filter_image_model::specs::Header::section, filter_image_model::specs::Header::section_bytes, filter_image_model::specs::Nodes::dense_in, filter_image_model::specs::Nodes::sparse_in, filter_image_model::specs::Reading::image_head_fault, filter_image_model::specs::Reading::length_fault, filter_image_model::specs::Reading::stray_fault, filter_image_model::specs::Reading::louds_fault, filter_image_model::specs::Reading::counts_fault, filter_image_model::specs::Reading::shape_fault, filter_image_model::specs::Reading::slot_suffix, filter_image_model::specs::Reading::ends_fault, filter_image_model::specs::Reading::nodes_rules, filter_image_model::specs::Reading::fault_by, filter_image_model::specs::Reading::leaves_in, filter_image_model::specs::Reading::image_in, filter_model::specs::Examples::a_ab_sparse, filter_model::specs::Image::image, filter_model::specs::Image::in_slots, filter_model::specs::Image::row, filter_model::specs::Image::sections, filter_model::specs::Nodes::node_of, filter_model::specs::Nodes::trie_of, filter_model::specs::Suffixes::packed_suffixes, filter_model::specs::Trie::branches, filter_model::specs::Trie::height, filter_model::specs::Trie::is_node, filter_model::specs::Trie::is_reached, filter_model::specs::Trie::letters, filter_model::specs::Trie::level, filter_model::specs::Trie::nodes, filter_model::specs::Trie::nodes_to, filter_model::specs::Trie::path, filter_model::specs::Trie::places, filter_model::specs::Trie::slots, bit_model::specs::Numbers::bits_of, bit_model::specs::Packed::packed, bit_model::specs::Packed::unpacked))]

ghost use Rattle.std.specs.Prelude.{◌≡◌, [], ◌∷◌, ◌++◌, length, map, replicate, take, Some, None};
ghost use Rattle.std.specs.List.{range_with_len};
ghost use Rattle.byte_fields.specs.Faults.{fault};
ghost use Rattle.filter_image_model.specs.ExampleImages.{with_bytes};
ghost use Rattle.map_file_model.specs.Body.{body_of, slotted_values};
ghost use Rattle.map_file_model.specs.ExampleBodies.{a_ab_and_b, a_and_ab, a_and_ab_body, one_key_too_many, too_short, zebra_alone};
ghost use Rattle.map_file_model.specs.Reading.{body_fault, map_in, offsets_in, values_in};

/// The body of 61 01 and 6162 02 has 103 bytes with no dense level, and 227 with both levels dense.
pub fn a_body_of_two_keys()
    ensures sparse { body_of 0 a_and_ab ≡ a_and_ab_body }
    ensures its_length { length a_and_ab_body ≡ 103 }
    ensures no_fault { body_fault a_and_ab_body ≡ None }
    ensures offsets { offsets_in a_and_ab_body ≡ 0 ∷ 1 ∷ 2 ∷ [] }
    ensures values { values_in a_and_ab_body ≡ (1 ∷ []) ∷ (2 ∷ []) ∷ [] }
    ensures read { map_in a_and_ab_body ≡ a_and_ab }
    ensures dense_length { length (body_of 2 a_and_ab) ≡ 227 }
    ensures dense_has_no_fault { body_fault (body_of 2 a_and_ab) ≡ None }
    ensures dense { map_in (body_of 2 a_and_ab) ≡ a_and_ab }
{}

/// Values stand in the order of the slots, which are by the length of the paths; a key may be alone, and its value empty.
pub fn other_bodies()
    ensures values_by_slots { slotted_values a_ab_and_b ≡ (3 ∷ 3 ∷ 3 ∷ []) ∷ (1 ∷ []) ∷ (2 ∷ 2 ∷ []) ∷ [] }
    ensures offsets_of_three { offsets_in (body_of 1 a_ab_and_b) ≡ 0 ∷ 3 ∷ 4 ∷ 6 ∷ [] }
    ensures three_have_no_fault { body_fault (body_of 1 a_ab_and_b) ≡ None }
    ensures three { map_in (body_of 1 a_ab_and_b) ≡ a_ab_and_b }
    ensures zebra_length { length (body_of 0 zebra_alone) ≡ 95 }
    ensures zebra_has_no_fault { body_fault (body_of 0 zebra_alone) ≡ None }
    ensures zebra { map_in (body_of 0 zebra_alone) ≡ zebra_alone }
{}

/// Rule 1, tried whole and first, and rules 2 to 4, on the head.
pub fn heads_that_are_broken()
    ensures cut_short { map (λ n. body_fault (take n a_and_ab_body)) (range_with_len 0 103) ≡ too_short }
    ensures bytes_ff { body_fault (replicate 50 0xFF) ≡ Some (fault 50 1) }
    ensures bytes_00 { body_fault (replicate 50 0) ≡ Some (fault 0 2) }
    ensures another_magic { body_fault (with_bytes ((0, 0) ∷ []) a_and_ab_body) ≡ Some (fault 0 2) }
    ensures another_version { body_fault (with_bytes ((4, 2) ∷ []) a_and_ab_body) ≡ Some (fault 4 2) }
    ensures magic_comes_before_zeros { body_fault (with_bytes ((4, 2) ∷ (5, 1) ∷ []) a_and_ab_body) ≡ Some (fault 4 2) }
    ensures no_zero { body_fault (with_bytes ((5, 1) ∷ []) a_and_ab_body) ≡ Some (fault 5 3) }
    ensures no_zero_behind_the_count { body_fault (with_bytes ((12, 1) ∷ []) a_and_ab_body) ≡ Some (fault 12 3) }
    ensures no_key { body_fault (with_bytes ((8, 0) ∷ []) a_and_ab_body) ≡ Some (fault 8 4) }
    ensures zeros_come_before_the_count { body_fault (with_bytes ((8, 0) ∷ (15, 1) ∷ []) a_and_ab_body) ≡ Some (fault 15 3) }
    ensures too_many_keys_for_these_bytes { body_fault (with_bytes ((8, 0x41) ∷ (9, 0x42) ∷ (10, 0x0F) ∷ []) a_and_ab_body) ≡ Some (fault 103 1) }
    ensures one_key_more { body_fault (with_bytes ((8, 3) ∷ []) a_and_ab_body) ≡ Some (fault 103 1) }
    ensures a_longer_image { body_fault (with_bytes ((23, 0xFF) ∷ []) a_and_ab_body) ≡ Some (fault 103 1) }
{}

/// Rules 5 to 9, on the image, the offsets, the end and the sum.
pub fn rests_that_are_broken()
    ensures a_bit_behind_the_image { body_fault (with_bytes ((67, 9) ∷ []) a_and_ab_body) ≡ Some (fault 67 5) }
    ensures no_image { body_fault (with_bytes ((24, 0) ∷ []) a_and_ab_body) ≡ Some (fault 24 5) }
    ensures three_keys_of_two_leaves { body_fault one_key_too_many ≡ Some (fault 8 6) }
    ensures first_offset_is_1 { body_fault (with_bytes ((69, 1) ∷ []) a_and_ab_body) ≡ Some (fault 69 7) }
    ensures an_offset_falls { body_fault (with_bytes ((77, 3) ∷ []) a_and_ab_body) ≡ Some (fault 85 7) }
    ensures one_byte_more { body_fault (a_and_ab_body ++ 0 ∷ []) ≡ Some (fault 103 8) }
    ensures another_value { body_fault (with_bytes ((93, 7) ∷ []) a_and_ab_body) ≡ Some (fault 95 9) }
    ensures another_sum { body_fault (with_bytes ((102, 8) ∷ []) a_and_ab_body) ≡ Some (fault 95 9) }
    ensures the_end_comes_before_the_sum { body_fault (with_bytes ((93, 7) ∷ []) (a_and_ab_body ++ 0 ∷ [])) ≡ Some (fault 103 8) }
{}
