//! A word that was read with its count.

/// A word of the bits, and how many bits are set before it.
#[derive(Clone, Copy, Debug, PartialEq, Eq)]
pub struct RankedWord {
    /// The number of the word.
    pub number: usize,
    pub word: u64,
    /// How many bits are set before it.
    pub before: u64,
}
