//! What holds of places. It is proved and never called.
ghost use Rattle.louds_dense.specs.Laws.{PlacesAreOfBranches};

/// The branches of places are those of the nodes as one list: found alike, and leading to the same nodes and slots.
pub fn places_are_of_branches()
    ensures { PlacesAreOfBranches }
{}
