//! What a line asks.

/// What a line asks. Keys, bounds and values are of any length: whether they keep the limits is the store's to judge.
#[derive(Clone, Copy)]
pub enum Request<'a> {
    /// Put a value under a key.
    Put { key: &'a [u8], value: &'a [u8] },
    /// Delete a key.
    Del { key: &'a [u8] },
    /// Look a key up.
    Get { key: &'a [u8] },
    /// The first pair from `lo` on, up to `hi` where it is named. Both ends belong to the range, here and below.
    Seek { lo: &'a [u8], hi: Option<&'a [u8]> },
    /// The first `n` pairs from `lo` to `hi`.
    Range { lo: &'a [u8], hi: &'a [u8], n: u32 },
    /// How many pairs lie from `lo` to `hi`.
    Count { lo: &'a [u8], hi: &'a [u8] },
    /// About how many there are: the memory entries there and what the filters count.
    Estimate { lo: &'a [u8], hi: &'a [u8] },
    /// Which tables a look-up of the key asks.
    Explain { key: &'a [u8] },
    /// Write what is in memory to a table.
    Flush,
    /// Merge all tables and the memory entries.
    Compact,
    /// End the run.
    Quit,
}

/// The first rule of the grammar that a line breaks: 1 it is too long, 2 its verb is none, 3 it has not as many words as
/// its verb wants, 4 a word is no bytes in hex, 5 a word is no number.
#[derive(Clone, Copy, Debug, PartialEq, Eq)]
pub struct BadLine(pub u8);
