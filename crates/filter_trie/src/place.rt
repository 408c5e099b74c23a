//! Where a branch stands.

/// The place of a branch: that of its byte in the dense half, or its own in the sparse half.
///
/// Two places that are not equal may have one number where no branch stands: a dense place has the number of the next
/// branch, and one behind the last of the dense half that of the first sparse one.
#[derive(Clone, Copy, Debug, PartialEq, Eq)]
pub enum Place {
    Dense(u64),
    Sparse(u64),
}
