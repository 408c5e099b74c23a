//! The two formats of a block.

/// How the entries of a block are spelled.
#[derive(Clone, Copy, Debug, PartialEq, Eq)]
pub enum BlockFormat {
    /// Each key whole.
    Old,
    /// Of each key what it has beyond the key before; each sixteenth entry is listed.
    Prefixed,
}
