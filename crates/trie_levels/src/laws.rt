//! Laws of the levels. They are proved and never called.
ghost use Rattle.trie_levels.specs.Gathering.{GatheredAreNodes};
ghost use Rattle.trie_levels.specs.Neighbours.{BranchesAreNodesAndEndings, BranchesAreNodesAndPartings};
ghost use Rattle.trie_levels.specs.Spans.{BranchesAreLastBelow, NodesAreLastBelow, SlotsGoByLength};
ghost use Rattle.trie_levels.specs.Tries.{ValidListsHaveTries};

/// The branches of a level are its nodes and its partings, and they are the nodes of the next level and the leaves.
pub fn levels_follow()
    ensures partings { BranchesAreNodesAndPartings }
    ensures endings { BranchesAreNodesAndEndings }
{}

/// Every leaf list has a trie, also where a leaf stands alone, so that it can be planned.
pub fn valid_lists_have_tries()
    ensures { ValidListsHaveTries }
{}

/// The nodes and the branches of a level, in their order: the first letters of the paths, by the last leaf that has each.
pub fn levels_are_last_below()
    ensures nodes { NodesAreLastBelow }
    ensures branches { BranchesAreLastBelow }
{}

/// The slots go by the length of the leaves' paths, and then as the leaves do.
pub fn slots_go_by_length()
    ensures { SlotsGoByLength }
{}

/// One pass over the paths that are longer gathers the nodes of a level.
pub fn gathered_are_nodes()
    ensures { GatheredAreNodes }
{}
