//! The kinds of records.

/// What a record says of its key. A range has its upper bound in the place of a value.
#[derive(Clone, Copy, Debug, PartialEq, Eq)]
pub(crate) enum Kind {
    /// It has a value.
    Put = 1,
    /// It has none any more.
    Delete = 2,
    /// The keys from it on, and up to another one, are deleted.
    Range = 3,
}
