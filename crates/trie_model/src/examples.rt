//! The definitions, shown by examples. Each computes.
ghost use Rattle.std.specs.Prelude.{◌≡◌, [], ◌∷◌, true, false, map, codes, Some, None};
ghost use Rattle.filter_model.specs.Nodes.{trie_of};
ghost use Rattle.filter_model.specs.Examples.{a_and_a_ff, far_to_toy};
ghost use Rattle.filter_model.specs.Leaves.{base_leaves};
ghost use Rattle.filter_model.specs.Trie.{slots};
ghost use Rattle.trie_model.specs.Halves.{whole, begin_of, branch_place, byte_at, child_at, end_slot, first_below, next_place, prev_place, slot_at};
ghost use Rattle.trie_model.specs.Letters.{comes_before};
ghost use Rattle.trie_model.specs.Rests.{first_leaf, leaves_below, rests};
ghost use Rattle.trie_model.specs.ExampleTries.{below_root, end_and_ff_nodes, far_to_toy_nodes};
ghost use Rattle.trie_model.specs.Walks.{leftmost_slot, nodes_on_way, slot_of_key, steps};

/// The nodes of far, fas, s, top and toy, and the order of their slots.
#[tactic(auto, unfolding(filter_model::specs::Nodes::node_of, filter_model::specs::Nodes::trie_of, filter_model::specs::Trie::nodes, filter_model::specs::Trie::nodes_to, filter_model::specs::Trie::level, filter_model::specs::Trie::branches, filter_model::specs::Trie::is_node, filter_model::specs::Trie::is_reached, filter_model::specs::Trie::letters, filter_model::specs::Trie::path, filter_model::specs::Trie::height, filter_model::specs::Trie::places, filter_model::specs::Trie::slots))]
pub fn tries_are_these_nodes()
    ensures far_to_toy { trie_of (base_leaves far_to_toy) ≡ far_to_toy_nodes }
    ensures end_and_ff { trie_of (base_leaves a_and_a_ff) ≡ end_and_ff_nodes }
    ensures slots { slots (base_leaves far_to_toy) ≡ codes "s" ∷ codes "far" ∷ codes "fas" ∷ codes "top" ∷ codes "toy" ∷ [] }
{}

/// Which of their slots a key reaches, and by which nodes.
#[tactic(auto, unfolding(crate::specs::Walks::slot_of_key, crate::specs::Walks::nodes_on_way, filter_model::specs::Trie::nodes, filter_model::specs::Trie::nodes_to, filter_model::specs::Trie::level, filter_model::specs::Trie::branches, filter_model::specs::Trie::is_node, filter_model::specs::Trie::is_reached, filter_model::specs::Trie::letters, filter_model::specs::Trie::path, filter_model::specs::Trie::height, filter_model::specs::Trie::places, filter_model::specs::Trie::slots))]
pub fn keys_walk()
    ensures fasten_reaches_fas { slot_of_key (base_leaves far_to_toy) (codes "fasten") ≡ Some 2 }
    ensures s_reaches_s { slot_of_key (base_leaves far_to_toy) (codes "s") ≡ Some 0 }
    ensures fa_reaches_none { slot_of_key (base_leaves far_to_toy) (codes "fa") ≡ None }
    ensures the_empty_key_reaches_none { slot_of_key (base_leaves far_to_toy) [] ≡ None }
    ensures nodes_of_fasten { nodes_on_way (base_leaves far_to_toy) (codes "fasten") ≡ [] ∷ codes "f" ∷ codes "fa" ∷ [] }
    ensures the_root_is_a_step { steps (base_leaves far_to_toy) (codes "x") ≡ 1 }
    ensures a_reaches_end { slot_of_key (base_leaves a_and_a_ff) (0x61 ∷ []) ≡ Some 0 }
    ensures a_ff_reaches_ff { slot_of_key (base_leaves a_and_a_ff) (0x61 ∷ 0xFF ∷ 0 ∷ []) ≡ Some 1 }
    ensures a_0_reaches_none { slot_of_key (base_leaves a_and_a_ff) (0x61 ∷ 0 ∷ []) ≡ None }
    ensures a_takes_two_steps { steps (base_leaves a_and_a_ff) (0x61 ∷ []) ≡ 2 }
{}

/// Their order, and the leaves below a prefix.
#[tactic(auto, unfolding(crate::specs::Walks::least_path, crate::specs::Walks::leftmost_slot, filter_model::specs::Trie::nodes, filter_model::specs::Trie::nodes_to, filter_model::specs::Trie::level, filter_model::specs::Trie::branches, filter_model::specs::Trie::is_node, filter_model::specs::Trie::is_reached, filter_model::specs::Trie::letters, filter_model::specs::Trie::path, filter_model::specs::Trie::height, filter_model::specs::Trie::places, filter_model::specs::Trie::slots))]
pub fn leaves_are_ordered()
    ensures end_is_least { comes_before (0x61 ∷ 256 ∷ []) (0x61 ∷ 0 ∷ []) ≡ true }
    ensures bytes_rise { comes_before (codes "top") (codes "toy") ≡ true }
    ensures not_by_length { comes_before (codes "s") (codes "far") ≡ false }
    ensures none_before_itself { comes_before (codes "far") (codes "far") ≡ false }
    ensures first_of_t { first_leaf (base_leaves far_to_toy) (codes "t") ≡ 3 }
    ensures two_of_t { leaves_below (base_leaves far_to_toy) (codes "t") ≡ 2 }
    ensures three_before_s { first_leaf (base_leaves far_to_toy) (codes "s") ≡ 2 }
    ensures behind_t { rests (codes "t") far_to_toy ≡ codes "op" ∷ codes "oy" ∷ [] }
    ensures least_of_t_is_top { leftmost_slot (base_leaves far_to_toy) (codes "t") ≡ Some 3 }
    ensures least_of_f_is_far { leftmost_slot (base_leaves far_to_toy) (codes "f") ≡ Some 1 }
    ensures least_of_all_is_far { leftmost_slot (base_leaves far_to_toy) [] ≡ Some 1 }
    ensures least_of_a_ends { leftmost_slot (base_leaves a_and_a_ff) (0x61 ∷ []) ≡ Some 0 }
{}

/// The places of far, fas, s, top and toy: f s t, a, o, r s, p y.
pub fn places_of_far_to_toy()
    ensures begins { map (begin_of (whole far_to_toy_nodes)) (0 ∷ 1 ∷ 2 ∷ 3 ∷ 4 ∷ 5 ∷ []) ≡ 0 ∷ 3 ∷ 4 ∷ 5 ∷ 7 ∷ 9 ∷ [] }
    ensures by_t { branch_place (whole far_to_toy_nodes) 0 0x74 ≡ Some 2 }
    ensures by_u { branch_place (whole far_to_toy_nodes) 0 0x75 ≡ None }
    ensures from_f { next_place (whole far_to_toy_nodes) 0 0x66 ≡ Some 0 }
    ensures from_g { next_place (whole far_to_toy_nodes) 0 0x67 ≡ Some 1 }
    ensures from_u { next_place (whole far_to_toy_nodes) 0 0x75 ≡ None }
    ensures below_t { prev_place (whole far_to_toy_nodes) 0 0x74 ≡ Some 1 }
    ensures below_f { prev_place (whole far_to_toy_nodes) 0 0x66 ≡ None }
    ensures below_all { prev_place (whole far_to_toy_nodes) 0 256 ≡ Some 2 }
    ensures bytes { map (byte_at (whole far_to_toy_nodes)) (0 ∷ 1 ∷ 5 ∷ []) ≡ 0x66 ∷ 0x73 ∷ 0x72 ∷ [] }
    ensures children { map (child_at (whole far_to_toy_nodes)) (0 ∷ 1 ∷ 2 ∷ 3 ∷ 4 ∷ 5 ∷ []) ≡ Some 1 ∷ None ∷ Some 2 ∷ Some 3 ∷ Some 4 ∷ None ∷ [] }
    ensures nodes_below { map (first_below (whole far_to_toy_nodes)) (0 ∷ 1 ∷ 2 ∷ 5 ∷ 9 ∷ []) ≡ 1 ∷ 2 ∷ 2 ∷ 5 ∷ 5 ∷ [] }
    ensures slots { map (slot_at (whole far_to_toy_nodes)) (0 ∷ 1 ∷ 2 ∷ 5 ∷ 9 ∷ []) ≡ 0 ∷ 0 ∷ 1 ∷ 1 ∷ 5 ∷ [] }
    ensures no_end { end_slot (whole far_to_toy_nodes) 0 ≡ None }
{}

/// The same without the root: nodes and slots keep their numbers, and places do not.
pub fn places_below_the_root()
    ensures begins { map (begin_of below_root) (1 ∷ 2 ∷ 3 ∷ 4 ∷ []) ≡ 0 ∷ 1 ∷ 2 ∷ 4 ∷ [] }
    ensures by_s { branch_place below_root 3 0x73 ≡ Some 3 }
    ensures children { map (child_at below_root) (0 ∷ 1 ∷ 2 ∷ []) ≡ Some 3 ∷ Some 4 ∷ None ∷ [] }
    ensures nodes_below { map (first_below below_root) (0 ∷ 1 ∷ 6 ∷ []) ≡ 3 ∷ 4 ∷ 5 ∷ [] }
    ensures slots { map (slot_at below_root) (2 ∷ 3 ∷ 6 ∷ []) ≡ 1 ∷ 2 ∷ 5 ∷ [] }
{}

/// A node with the branches END and FF: END is no byte.
pub fn places_beside_end()
    ensures by_ff { branch_place (whole end_and_ff_nodes) 1 0xFF ≡ Some 2 }
    ensures from_0 { next_place (whole end_and_ff_nodes) 1 0 ≡ Some 2 }
    ensures from_all { next_place (whole end_and_ff_nodes) 1 256 ≡ None }
    ensures below_ff { prev_place (whole end_and_ff_nodes) 1 0xFF ≡ None }
    ensures below_all { prev_place (whole end_and_ff_nodes) 1 256 ≡ Some 2 }
    ensures end { end_slot (whole end_and_ff_nodes) 1 ≡ Some 0 }
    ensures no_end { end_slot (whole end_and_ff_nodes) 0 ≡ None }
    ensures end_is_written_ff { byte_at (whole end_and_ff_nodes) 1 ≡ 0xFF }
    ensures slots { map (slot_at (whole end_and_ff_nodes)) (1 ∷ 2 ∷ []) ≡ 0 ∷ 1 ∷ [] }
{}
