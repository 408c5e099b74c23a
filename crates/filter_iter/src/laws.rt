//! The laws by which leaves are counted, each the contract of a function without a body.
ghost use Rattle.filter_iter.specs.Counts.{LeavesAreCountedByLevels};

/// Leaves before a node are counted level by level: those among the branches before it, and those below the first node
/// that such branches do not lead to.
pub fn leaves_are_counted_by_levels()
    ensures { LeavesAreCountedByLevels }
{}
