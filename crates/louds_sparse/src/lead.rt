//! Where a branch leads.

/// Where a branch leads: to a node, or to the leaf of a slot.
#[derive(Clone, Copy, Debug, PartialEq, Eq)]
pub enum Lead {
    Child(u64),
    Leaf(u64),
}

/// A branch that was found: its place, how many leaves stand before it, the first node whose branch stands there or later,
/// and whether the branch leads to a node. If it does, that is the node below; if not, the leaf has the next slot.
#[derive(Clone, Copy, Debug, PartialEq, Eq)]
pub struct Placed {
    pub place: u64,
    pub slots: u64,
    pub below: u64,
    pub leads: bool,
}
