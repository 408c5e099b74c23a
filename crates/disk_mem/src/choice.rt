//! What a crash leaves of a write.

/// What a crash makes of one write that no sync had made to last.
#[derive(Drop)]
pub enum Choice {
    /// All its bytes stand.
    Whole,
    /// None of them does.
    Lost,
    /// These stand in its range. A list of another length than the range counts as `Lost`.
    Bytes(Vec<u8>),
}
