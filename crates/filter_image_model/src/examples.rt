//! Images that are read, and images with a byte or two changed: the first rule that they break. Each example computes.
#![tactic(auto, unfolding(crate::specs::Header::section_bits, crate::specs::Header::section_place, crate::specs::Header::section, crate::specs::Header::section_bytes, crate::specs::Nodes::dense_in, crate::specs::Nodes::sparse_in, crate::specs::Reading::image_head_fault, crate::specs::Reading::length_fault, crate::specs::Reading::stray_fault, crate::specs::Reading::louds_fault, crate::specs::Reading::counts_fault, crate::specs::Reading::shape_fault, crate::specs::Reading::slot_suffix, crate::specs::Reading::ends_fault, crate::specs::Reading::nodes_rules, crate::specs::Reading::fault_by, crate::specs::Reading::leaves_in, crate::specs::Reading::image_in, crate::specs::ExampleImages::a_with_hash, crate::specs::ExampleImages::a_ab_ac_with_real, crate::specs::ExampleImages::mark_leads_on, crate::specs::ExampleImages::ab_alone, crate::specs::ExampleImages::zebra_alone, filter_model::specs::Examples::a_ab_sparse, filter_model::specs::Examples::a_ab_root_dense, filter_model::specs::Examples::a_ab_dense, filter_model::specs::Examples::far_to_toy_sparse, bit_model::specs::Packed::unpacked))]

ghost use Rattle.std.specs.Prelude.{◌≡◌, [], ◌∷◌, ◌++◌, false, take, codes, Some, None};
ghost use Rattle.filter_model.specs.Examples.{a_ab_dense, a_ab_root_dense, a_ab_sparse, far_to_toy, far_to_toy_sparse, real_leaves};
ghost use Rattle.byte_fields.specs.Faults.{fault};
ghost use Rattle.filter_image_model.specs.Reading.{image_fault, image_in, whole_fault};
ghost use Rattle.filter_image_model.specs.ExampleImages.{a_ab_ac_with_real, a_and_ab_leaves, a_leaf, a_with_hash, ab_alone, with_bytes, mark_leads_on, plain, zebra_alone};

/// The images of a and ab with none, one and both levels dense break no rule and are read as the two leaves.
pub fn images_of_a_and_ab_are_read()
    ensures sparse_has_no_fault { image_fault a_ab_sparse ≡ None }
    ensures sparse { image_in a_ab_sparse ≡ record { hash_bits = 0; real_bits = 0; cutoff = 0; leaves = a_and_ab_leaves } }
    ensures root_dense_has_no_fault { image_fault a_ab_root_dense ≡ None }
    ensures root_dense { image_in a_ab_root_dense ≡ record { hash_bits = 0; real_bits = 0; cutoff = 1; leaves = a_and_ab_leaves } }
    ensures dense_has_no_fault { image_fault a_ab_dense ≡ None }
    ensures dense { image_in a_ab_dense ≡ record { hash_bits = 0; real_bits = 0; cutoff = 2; leaves = a_and_ab_leaves } }
{}

/// Other images that break no rule: a key with its hash bits, leaves with real bits, and the byte FF behind a mark, alone,
/// and in the place of a mark.
pub fn other_images_are_read()
    ensures a_has_no_fault { image_fault a_with_hash ≡ None }
    ensures a { image_in a_with_hash ≡ record { hash_bits = 8; real_bits = 0; cutoff = 0; leaves = record { stub = codes "a"; ends = false; hash = 0x8C; real = 0 } ∷ [] } }
    ensures far_to_toy_has_no_fault { image_fault far_to_toy_sparse ≡ None }
    ensures far_to_toy { image_in far_to_toy_sparse ≡ record { hash_bits = 0; real_bits = 8; cutoff = 0; leaves = real_leaves far_to_toy } }
    ensures real_bits_have_no_fault { image_fault a_ab_ac_with_real ≡ None }
    ensures real_bits { image_in (with_bytes ((48, 7) ∷ []) a_ab_ac_with_real)
        ≡ record { hash_bits = 0; real_bits = 8; cutoff = 0; leaves = a_leaf ∷ plain (codes "ab") ∷ record { stub = codes "ac"; ends = false; hash = 0; real = 7 } ∷ [] } }
    ensures ff_behind_a_mark_has_no_fault { image_fault (with_bytes ((42, 0xFF) ∷ []) a_ab_sparse) ≡ None }
    ensures ff_behind_a_mark { image_in (with_bytes ((42, 0xFF) ∷ []) a_ab_sparse)
        ≡ record { hash_bits = 0; real_bits = 0; cutoff = 0; leaves = a_leaf ∷ plain (0x61 ∷ 0xFF ∷ []) ∷ [] } }
    ensures ff_alone_has_no_fault { image_fault (with_bytes ((40, 0xFF) ∷ (41, 0x61) ∷ []) a_ab_sparse) ≡ None }
    ensures ff_alone { image_in (with_bytes ((40, 0xFF) ∷ (41, 0x61) ∷ []) a_ab_sparse)
        ≡ record { hash_bits = 0; real_bits = 0; cutoff = 0; leaves = plain (0xFF ∷ 0x61 ∷ []) ∷ plain (0xFF ∷ 0x62 ∷ []) ∷ [] } }
    ensures no_mark { image_in (with_bytes ((41, 0x61) ∷ []) a_ab_sparse)
        ≡ record { hash_bits = 0; real_bits = 0; cutoff = 0; leaves = plain (codes "aa") ∷ plain (codes "ab") ∷ [] } }
{}

/// Rules 1 to 4, on the header.
pub fn header_faults()
    ensures half_a_header { image_fault (take 39 (with_bytes ((0, 0) ∷ []) a_ab_sparse)) ≡ Some (fault 39 1) }
    ensures magic { image_fault (with_bytes ((0, 0) ∷ (4, 2) ∷ []) a_ab_sparse) ≡ Some (fault 0 2) }
    ensures magic_inside { image_fault (with_bytes ((2, 0) ∷ (4, 2) ∷ []) a_ab_sparse) ≡ Some (fault 2 2) }
    ensures version { image_fault (with_bytes ((4, 2) ∷ (5, 33) ∷ []) a_ab_sparse) ≡ Some (fault 4 2) }
    ensures hash_bits { image_fault (with_bytes ((5, 33) ∷ (6, 33) ∷ []) a_ab_sparse) ≡ Some (fault 5 3) }
    ensures real_bits { image_fault (with_bytes ((6, 33) ∷ (7, 1) ∷ []) a_ab_sparse) ≡ Some (fault 6 3) }
    ensures byte_7 { image_fault (with_bytes ((7, 1) ∷ (10, 0) ∷ []) a_ab_sparse) ≡ Some (fault 7 3) }
    ensures no_height { image_fault (with_bytes ((10, 0) ∷ (8, 1) ∷ []) a_ab_sparse) ≡ Some (fault 10 4) }
    ensures high { image_fault (with_bytes ((10, 1) ∷ (11, 4) ∷ []) a_ab_sparse) ≡ Some (fault 10 4) }
    ensures cutoff { image_fault (with_bytes ((8, 3) ∷ (12, 0) ∷ []) a_ab_sparse) ≡ Some (fault 8 4) }
    ensures no_leaves { image_fault (with_bytes ((12, 0) ∷ (32, 4) ∷ []) a_ab_sparse) ≡ Some (fault 12 4) }
{}

/// Rules 1 and 5 to 7, on lengths and single bits.
pub fn section_faults()
    ensures a_byte_less { image_fault (take 44 (with_bytes ((43, 9) ∷ []) a_ab_sparse)) ≡ Some (fault 44 1) }
    ensures more_labels { image_fault (with_bytes ((32, 4) ∷ []) a_ab_sparse) ≡ Some (fault 45 1) }
    ensures many_labels { image_fault (with_bytes ((39, 0x10) ∷ []) a_ab_sparse) ≡ Some (fault 45 1) }
    ensures many_dense_nodes { image_fault (with_bytes ((23, 0x10) ∷ []) a_ab_sparse) ≡ Some (fault 45 1) }
    ensures fewer_labels { image_fault (with_bytes ((32, 2) ∷ []) a_ab_sparse) ≡ Some (fault 44 5) }
    ensures a_byte_more { image_fault (with_bytes ((43, 9) ∷ []) a_ab_sparse ++ 0 ∷ []) ≡ Some (fault 45 5) }
    ensures two_bytes_more { image_fault (a_ab_sparse ++ 0 ∷ 0 ∷ []) ≡ Some (fault 45 5) }
    ensures more_dense_nodes { image_fault (with_bytes ((16, 3) ∷ []) a_ab_dense) ≡ Some (fault 169 1) }
    ensures padding { image_fault (with_bytes ((43, 9) ∷ (44, 9) ∷ []) a_ab_sparse) ≡ Some (fault 43 6) }
    ensures padding_of_openings { image_fault (with_bytes ((44, 9) ∷ []) a_ab_sparse) ≡ Some (fault 44 6) }
    ensures padding_in_a_second_byte { image_fault (with_bytes ((50, 2) ∷ []) far_to_toy_sparse) ≡ Some (fault 50 6) }
    ensures padding_of_openings_in_a_second_byte { image_fault (with_bytes ((52, 2) ∷ []) far_to_toy_sparse) ≡ Some (fault 52 6) }
    ensures padding_of_ends { image_fault (with_bytes ((116, 6) ∷ (168, 0x82) ∷ []) a_ab_dense) ≡ Some (fault 168 6) }
    ensures stray { image_fault (with_bytes ((116, 6) ∷ (12, 3) ∷ []) a_ab_dense) ≡ Some (fault 116 7) }
    ensures first_of_two_strays { image_fault (with_bytes ((116, 6) ∷ (148, 8) ∷ []) a_ab_dense) ≡ Some (fault 116 7) }
    ensures stray_in_the_second_node { image_fault (with_bytes ((148, 8) ∷ []) a_ab_dense) ≡ Some (fault 148 7) }
    ensures stray_before_openings { image_fault (with_bytes ((84, 6) ∷ (108, 2) ∷ []) a_ab_root_dense) ≡ Some (fault 84 7) }
{}

/// Rule 8, on the counts.
pub fn count_faults()
    ensures sparse_nodes { image_fault (with_bytes ((24, 1) ∷ []) a_ab_sparse) ≡ Some (fault 8 8) }
    ensures many_sparse_nodes { image_fault (with_bytes ((31, 0x10) ∷ []) a_ab_sparse) ≡ Some (fault 8 8) }
    ensures first_label_opens_none { image_fault (with_bytes ((44, 6) ∷ []) a_ab_sparse) ≡ Some (fault 8 8) }
    ensures leaves { image_fault (with_bytes ((12, 3) ∷ (41, 0x62) ∷ []) a_ab_sparse) ≡ Some (fault 8 8) }
    ensures no_child { image_fault (with_bytes ((43, 0) ∷ (41, 0x62) ∷ []) a_ab_sparse) ≡ Some (fault 8 8) }
    ensures mark_with_a_child_and_no_node { image_fault (with_bytes ((43, 3) ∷ []) a_ab_sparse) ≡ Some (fault 8 8) }
    ensures one_level_less { image_fault (with_bytes ((10, 1) ∷ []) a_ab_sparse) ≡ Some (fault 8 8) }
    ensures one_level_more { image_fault (with_bytes ((10, 3) ∷ []) a_ab_sparse) ≡ Some (fault 8 8) }
    ensures children_behind_the_last_level { image_fault (with_bytes ((43, 3) ∷ (12, 1) ∷ []) a_ab_sparse) ≡ Some (fault 8 8) }
    ensures cutoff { image_fault (with_bytes ((8, 1) ∷ []) a_ab_dense) ≡ Some (fault 8 8) }
{}

/// Rules 9 and 10, on the nodes and on leaves that end.
pub fn node_faults()
    ensures labels_do_not_rise { image_fault (with_bytes ((43, 0x62) ∷ (46, 1) ∷ []) a_ab_ac_with_real) ≡ Some (fault 41 9) }
    ensures labels_fall { image_fault (with_bytes ((41, 0x63) ∷ []) a_ab_sparse) ≡ Some (fault 41 9) }
    ensures mark_with_a_child { image_fault mark_leads_on ≡ Some (fault 41 9) }
    ensures mark_alone { image_fault (with_bytes ((52, 6) ∷ (84, 0) ∷ []) a_ab_dense) ≡ Some (fault 72 9) }
    ensures mark_at_the_root { image_fault (with_bytes ((12, 3) ∷ (168, 3) ∷ []) a_ab_dense) ≡ Some (fault 40 9) }
    ensures leaf_alone { image_fault (with_bytes ((41, 0x62) ∷ (42, 0x63) ∷ (44, 5) ∷ []) a_ab_sparse) ≡ Some (fault 42 9) }
    ensures one_leaf_of_two_bytes { image_fault ab_alone ≡ Some (fault 40 9) }
    ensures behind_dense_nodes { image_fault (with_bytes ((105, 0x63) ∷ []) a_ab_root_dense) ≡ Some (fault 105 9) }
    ensures no_branch { image_fault (with_bytes ((52, 14) ∷ (84, 0) ∷ (168, 0) ∷ []) a_ab_dense) ≡ Some (fault 72 9) }
    ensures first_of_two_nodes { image_fault (with_bytes ((10, 2) ∷ (41, 0x62) ∷ (42, 0x63) ∷ (43, 0x65) ∷ (46, 0x0D) ∷ []) mark_leads_on) ≡ Some (fault 42 9) }
    ensures mark_at_a_sparse_root { image_fault (with_bytes ((40, 0xFF) ∷ (41, 0x61) ∷ (42, 0x62) ∷ (44, 2) ∷ (45, 5) ∷ []) a_ab_ac_with_real) ≡ Some (fault 40 9) }
    ensures end_with_real_bits { image_fault (with_bytes ((46, 1) ∷ []) a_ab_ac_with_real) ≡ Some (fault 46 10) }
    ensures suffix_of_slot_2 { image_fault (with_bytes ((5, 8) ∷ (6, 4) ∷ (12, 4) ∷ (32, 5) ∷ (40, 0x30) ∷ (41, 0x31) ∷ (42, 0x61) ∷ (43, 0xFF) ∷ (44, 0x62) ∷ (45, 4) ∷ (46, 9) ∷ (51, 1) ∷ []) (a_ab_ac_with_real ++ 0 ∷ 0 ∷ 0 ∷ 0 ∷ [])) ≡ Some (fault 50 10) }
{}

/// Images of whole keys, which the rules of a filter's image refuse: one key of several bytes, a leaf alone in its node,
/// and the byte FF alone in its node.
pub fn whole_images_are_read()
    ensures zebra_has_no_fault { whole_fault zebra_alone ≡ None }
    ensures zebra { image_in zebra_alone ≡ record { hash_bits = 0; real_bits = 0; cutoff = 0; leaves = plain (codes "zebra") ∷ [] } }
    ensures zebra_is_no_filter { image_fault zebra_alone ≡ Some (fault 40 9) }
    ensures ab_and_z_have_no_fault { whole_fault (with_bytes ((41, 0x7A) ∷ (44, 5) ∷ []) a_ab_sparse) ≡ None }
    ensures ab_and_z { image_in (with_bytes ((41, 0x7A) ∷ (44, 5) ∷ []) a_ab_sparse)
        ≡ record { hash_bits = 0; real_bits = 0; cutoff = 0; leaves = plain (codes "ab") ∷ plain (codes "z") ∷ [] } }
    ensures ab_and_z_are_no_filter { image_fault (with_bytes ((41, 0x7A) ∷ (44, 5) ∷ []) a_ab_sparse) ≡ Some (fault 42 9) }
    ensures dense_ab_has_no_fault { whole_fault (with_bytes ((12, 1) ∷ (168, 0) ∷ []) a_ab_dense) ≡ None }
    ensures dense_ab { image_in (with_bytes ((12, 1) ∷ (168, 0) ∷ []) a_ab_dense)
        ≡ record { hash_bits = 0; real_bits = 0; cutoff = 2; leaves = plain (codes "ab") ∷ [] } }
    ensures a_filters_image { whole_fault a_ab_sparse ≡ None }
    ensures lone_ff_has_no_fault { whole_fault (with_bytes ((41, 0xFF) ∷ []) ab_alone) ≡ None }
    ensures lone_ff { image_in (with_bytes ((41, 0xFF) ∷ []) ab_alone)
        ≡ record { hash_bits = 0; real_bits = 0; cutoff = 0; leaves = plain (0x61 ∷ 0xFF ∷ []) ∷ [] } }
    ensures lone_ff_is_no_filter { image_fault (with_bytes ((41, 0xFF) ∷ []) ab_alone) ≡ Some (fault 40 9) }
{}

/// What the rules of whole keys refuse as those of a filter do, and bits of any width.
pub fn whole_faults()
    ensures mark_alone { whole_fault (with_bytes ((52, 6) ∷ (84, 0) ∷ []) a_ab_dense) ≡ Some (fault 72 9) }
    ensures labels_fall { whole_fault (with_bytes ((41, 0x63) ∷ []) a_ab_sparse) ≡ Some (fault 41 9) }
    ensures mark_at_the_root { whole_fault (with_bytes ((12, 3) ∷ (168, 3) ∷ []) a_ab_dense) ≡ Some (fault 40 9) }
    ensures mark_at_a_sparse_root { whole_fault (with_bytes ((40, 0xFF) ∷ (41, 0x61) ∷ (43, 2) ∷ (44, 5) ∷ []) a_ab_sparse) ≡ Some (fault 40 9) }
    ensures no_branch { whole_fault (with_bytes ((52, 14) ∷ (84, 0) ∷ (168, 0) ∷ []) a_ab_dense) ≡ Some (fault 72 9) }
    ensures hash_bits { whole_fault a_with_hash ≡ Some (fault 5 3) }
    ensures real_bits { whole_fault a_ab_ac_with_real ≡ Some (fault 6 3) }
{}
