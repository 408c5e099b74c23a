//! The counts, shown by examples. Each computes.
ghost use Rattle.std.specs.Prelude.{◌≡◌, [], ◌∷◌, map};
ghost use Rattle.filter_model.specs.Examples.{a_ab, far_to_toy};
ghost use Rattle.filter_model.specs.Leaves.{base_leaves};
ghost use Rattle.filter_model.specs.Trie.{cutoff_of, level_labels, level_nodes};
ghost use Rattle.trie_levels.specs.Neighbours.{endings, partings};
ghost use Rattle.trie_levels.specs.ExampleLevels.{ending_in_x_y, levels_0_to_2};

/// far, fas, s, top and toy part after 2, 0, 0 and 2 bytes; s ends on level 0 and the others on level 2.
pub fn far_to_toy_counts()
    ensures partings { map (partings (base_leaves far_to_toy)) levels_0_to_2 ≡ 2 ∷ 0 ∷ 2 ∷ [] }
    ensures endings { map (endings (base_leaves far_to_toy)) levels_0_to_2 ≡ 1 ∷ 0 ∷ 4 ∷ [] }
{}

/// a and ab part after one byte, on level 1: there stand END and b, and both are leaves.
pub fn a_and_ab_counts()
    ensures nodes { level_nodes (base_leaves a_ab) ≡ 1 ∷ 1 ∷ [] }
    ensures labels { level_labels (base_leaves a_ab) ≡ 1 ∷ 2 ∷ [] }
    ensures partings { map (partings (base_leaves a_ab)) levels_0_to_2 ≡ 0 ∷ 1 ∷ 0 ∷ [] }
    ensures endings { map (endings (base_leaves a_ab)) levels_0_to_2 ≡ 0 ∷ 2 ∷ 0 ∷ [] }
{}

/// Two keys that part in their fourth byte: a chain of nodes with one branch each.
pub fn chain_counts()
    ensures nodes { level_nodes (base_leaves ending_in_x_y) ≡ 1 ∷ 1 ∷ 1 ∷ 1 ∷ [] }
    ensures labels { level_labels (base_leaves ending_in_x_y) ≡ 1 ∷ 1 ∷ 1 ∷ 2 ∷ [] }
{}
