//! The parts of a store, in the order in which they are looked at.

/// What is looked at next.
#[derive(Clone, Copy, Debug, PartialEq, Eq)]
pub(crate) enum Stage {
    /// The index, the blocks and the filter of a row.
    Rows,
    /// How the tables follow each other.
    Ranges,
    /// The log.
    Log,
    /// Nothing.
    End,
}
