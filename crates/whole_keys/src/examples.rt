//! The definitions, shown by examples. Each computes.
#![tactic(auto, unfolding(bit_model::specs::Numbers::bits_of, bit_model::specs::Packed::packed, filter_model::specs::Image::image, filter_model::specs::Image::in_slots, filter_model::specs::Image::row, filter_model::specs::Image::sections, filter_model::specs::Nodes::node_of, filter_model::specs::Nodes::trie_of, filter_model::specs::Suffixes::packed_suffixes, filter_model::specs::Examples::a_ab_dense, filter_model::specs::Examples::a_ab_root_dense, filter_model::specs::Examples::a_ab_sparse, filter_model::specs::Trie::branches, filter_model::specs::Trie::height, filter_model::specs::Trie::is_node, filter_model::specs::Trie::is_reached, filter_model::specs::Trie::letters, filter_model::specs::Trie::level, filter_model::specs::Trie::nodes, filter_model::specs::Trie::nodes_to, filter_model::specs::Trie::path, filter_model::specs::Trie::places, filter_model::specs::Trie::slots, filter_model::specs::Trie::level_nodes, filter_model::specs::Trie::level_labels))]

ghost use Rattle.std.specs.Prelude.{◌≡◌, [], ◌∷◌, codes, false, true};
ghost use Rattle.filter_model.specs.Answers.{fits_point, tally, true_count};
ghost use Rattle.filter_model.specs.Examples.{a_ab, a_ab_dense, a_ab_root_dense, a_ab_sparse};
ghost use Rattle.filter_model.specs.Image.{image};
ghost use Rattle.filter_model.specs.Leaves.{base_leaves};
ghost use Rattle.filter_model.specs.Trie.{height, level_labels, level_nodes, slots};
ghost use Rattle.whole_keys.specs.ExampleKeys.{a_ff_ff, endings, ff_ff, zebra};
ghost use Rattle.whole_keys.specs.Whole.{runs_past, stubs, whole_leaf, whole_leaves};

/// The keys 61 and 6162: leaves, images and answers.
pub fn a_and_ab()
    ensures leaves { whole_leaves a_ab ≡ base_leaves a_ab }
    ensures sparse { image 0 0 0 (whole_leaves a_ab) ≡ a_ab_sparse }
    ensures root_dense { image 0 0 1 (whole_leaves a_ab) ≡ a_ab_root_dense }
    ensures dense { image 0 0 2 (whole_leaves a_ab) ≡ a_ab_dense }
    ensures ab_fits { fits_point 0 0 (codes "ab") (whole_leaf a_ab (codes "ab")) ≡ true }
    ensures abc_fits_too { fits_point 0 0 (codes "abc") (whole_leaf a_ab (codes "ab")) ≡ true }
    ensures as_it_runs_past_ab { runs_past a_ab (codes "abc") (codes "ab") ≡ true }
    ensures ac_runs_past_none { runs_past a_ab (codes "ac") (codes "a") ≡ false }
    ensures ab_does_not_run_past_itself { runs_past a_ab (codes "ab") (codes "ab") ≡ false }
    ensures from_ab_to_b { tally 0 (whole_leaves a_ab) (codes "ab") (codes "b") ≡ 1 }
    ensures from_a_to_a { tally 0 (whole_leaves a_ab) (codes "a") (codes "a") ≡ 1 }
    ensures a_leaf_from_ab_ff_to_b { tally 0 (whole_leaves a_ab) (0x61 ∷ 0x62 ∷ 0xFF ∷ []) (codes "b") ≡ 1 }
    ensures and_no_key { true_count a_ab (0x61 ∷ 0x62 ∷ 0xFF ∷ []) (codes "b") ≡ 0 }
{}

/// Keys that a filter would cut, and keys of the byte FF alone.
pub fn longer_keys()
    ensures zebra_is_whole { stubs (whole_leaves zebra) ≡ zebra }
    ensures zebra_does_not_end { endings zebra ≡ false ∷ [] }
    ensures a_node_for_each_byte { level_nodes (whole_leaves zebra) ≡ 1 ∷ 1 ∷ 1 ∷ 1 ∷ 1 ∷ [] }
    ensures ze_does_not_fit { fits_point 0 0 (codes "ze") (whole_leaf zebra (codes "zebra")) ≡ false }
    ensures zoo_does_not_fit { fits_point 0 0 (codes "zoo") (whole_leaf zebra (codes "zebra")) ≡ false }
    ensures two_of_three_end { endings a_ff_ff ≡ true ∷ true ∷ false ∷ [] }
    ensures one_of_two_ends { endings ff_ff ≡ true ∷ false ∷ [] }
    ensures slots_of_three { slots (whole_leaves a_ff_ff) ≡ (0x61 ∷ 256 ∷ []) ∷ (0x61 ∷ 0xFF ∷ 256 ∷ []) ∷ (0x61 ∷ 0xFF ∷ 0xFF ∷ []) ∷ [] }
    ensures slots_of_two { slots (whole_leaves ff_ff) ≡ (0xFF ∷ 256 ∷ []) ∷ (0xFF ∷ 0xFF ∷ []) ∷ [] }
    ensures three_levels { height (whole_leaves a_ff_ff) ≡ 3 }
    ensures each_has_two_labels_but_the_first { level_labels (whole_leaves a_ff_ff) ≡ 1 ∷ 2 ∷ 2 ∷ [] }
{}
