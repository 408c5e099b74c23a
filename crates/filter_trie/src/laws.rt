//! What holds of places, and of what is found at nodes. It is proved and never called.
ghost use Rattle.filter_trie.specs.Laws.{BranchesLead, LeavesAreCounted, PlacesAreNumbers, PlacesAreWithin, SearchesFind, SlotsAreLeaves};

/// A place where a branch stands is one of its half, and its number one of the branches of the trie.
pub fn places_are_numbers()
    ensures within { PlacesAreWithin }
    ensures number { PlacesAreNumbers }
{}

/// A search of a node finds the branch whose string goes on so, and none exactly where no path does.
pub fn searches_find()
    ensures { SearchesFind }
{}

/// A branch leads to the node of its string, or to the slot of the leaf whose path it is.
pub fn branches_lead()
    ensures { BranchesLead }
{}

/// In key order the leaves behind a node are those behind its branches, one branch after the other, and a leaf's own branch
/// has it alone.
pub fn leaves_are_counted()
    ensures branches { LeavesAreCounted }
    ensures slots { SlotsAreLeaves }
{}
