//! What a disk fails in.
/// What a disk was asked for.
#[derive(Clone, Copy, Debug, PartialEq, Eq)]
pub enum Op {
    /// A read of a range.
    Read,
    /// A write of a range.
    Write,
    /// A sync of all that was written.
    Sync,
}

/// A call of a disk that failed: what it was, and the first byte of its range (0 for a sync).
#[derive(Clone, Copy, Debug, PartialEq, Eq)]
pub struct DiskFault {
    /// The kind of the call.
    pub op: Op,
    /// The place of the range's first byte, 0 for a sync.
    pub at: u64,
}
