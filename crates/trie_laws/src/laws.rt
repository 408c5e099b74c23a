//! The laws, each the contract of a function without a body.
ghost use Rattle.trie_laws.specs.Halves.{BranchIsFound, HalvesJoin, SecondHalfCountsOn};
ghost use Rattle.trie_laws.specs.Leaves.{CompanyIsABranch, LeavesHaveSlots, LevelsHaveNodes, PathsAreNoNodes, PathsArePrefixFree};
ghost use Rattle.trie_laws.specs.Nodes.{BranchesAreNodesAndStubs, FormsAreSparse, TrieNodesHaveForm};
ghost use Rattle.trie_laws.specs.Laws.{ChildIsCounted, LettersHavePlaces, NodesAreChildren, PlacesAreOfNodes, SelectFindsNode, SelectIsUnique, SetBitsAreNodes, SlotIsCounted};

/// A branch's child and a leaf's slot are counts of the branches before it.
pub fn children_and_slots_are_counted()
    ensures nodes { NodesAreChildren }
    ensures child { ChildIsCounted }
    ensures slot { SlotIsCounted }
{}

/// The places from where a node begins to where the next one does are its branches.
pub fn places_are_of_nodes()
    ensures place { PlacesAreOfNodes }
    ensures letter { LettersHavePlaces }
{}

/// The set bits that open nodes are found by their number.
pub fn select_finds_nodes()
    ensures find { SelectFindsNode }
    ensures unique { SelectIsUnique }
    ensures count { SetBitsAreNodes }
{}

/// Of two lists of nodes end to end the first keeps its places, and the second has its own behind them; with the counts
/// of the first before it, it has the children and slots of the whole.
pub fn halves_join()
    ensures places { HalvesJoin }
    ensures numbers { SecondHalfCountsOn }
{}

/// A half's branch by a letter is found exactly where the node has one.
pub fn branch_is_found()
    ensures { BranchIsFound }
{}

/// The paths of the leaves: none begins another, and none leads to a node; each level below the longest has a node.
pub fn paths_are_prefix_free()
    ensures free { PathsArePrefixFree }
    ensures no_nodes { PathsAreNoNodes }
    ensures levels { LevelsHaveNodes }
{}

/// Each leaf has one slot, and entry `i` of the leaves in slot order is the leaf of slot `i`.
pub fn leaves_have_slots()
    ensures { LeavesHaveSlots }
{}

/// A node's branches are END where a leaf ends there, and each byte that leads to a node or ends a stub.
pub fn branches_are_nodes_and_stubs()
    ensures { BranchesAreNodesAndStubs }
{}

/// Every node has branches with rising letters, END the least of them, neither alone nor with a child; so sparse sections
/// may hold it.
pub fn nodes_have_form()
    ensures form { TrieNodesHaveForm }
    ensures sparse { FormsAreSparse }
{}

/// Another stub goes on from a leaf's node exactly where that node has a second branch.
pub fn company_is_a_branch()
    ensures { CompanyIsABranch }
{}
