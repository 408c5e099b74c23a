//! What an index keeps of its blocks.

/// What an index says of a block, and where the block is.
#[derive(Drop)]
pub(crate) struct BlockRow {
    /// The pages of the blocks before it.
    pub first: u64,
    /// How many pages it takes, 1 to 17.
    pub pages: u32,
    /// The sum of all bytes of its pages.
    pub sum: u64,
    /// The last of its keys.
    pub last: Vec<u8>,
}
