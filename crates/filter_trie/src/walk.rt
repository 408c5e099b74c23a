//! Where a walk ends, and a step of it.

/// Where a key leads: to no leaf, or to the one of a slot.
#[derive(Clone, Copy, Debug, PartialEq, Eq)]
pub enum Walk {
    Miss,
    Leaf(u64),
}

/// Where one byte leads from a node: nowhere, to the leaf of a slot, or to a node.
pub(crate) enum Step {
    Miss,
    Leaf(u64),
    Child(u64),
}
