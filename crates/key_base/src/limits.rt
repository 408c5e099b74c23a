//! The limits of the store, as constants for code.
//!
//! They are the numbers of the definitions in `specs/`, as [`crate::constants_are_limits`] says.

/// The bytes of the longest key; the shortest has one.
pub const MAX_KEY_BYTES: usize = 1_024;

/// The bytes of the longest bound of a range; the shortest has none.
pub const MAX_BOUND_BYTES: usize = 1_024;

/// The bytes of the longest value; the shortest has none.
pub const MAX_VALUE_BYTES: usize = 1_048_576;

/// The bytes of the longest value that the log takes, and a block of the first format: a longer one goes into a table at
/// once.
pub const MAX_LOGGED_VALUE_BYTES: usize = 65_536;

/// The bytes of the longest line, without its newline.
pub const MAX_LINE_BYTES: usize = 2_100_000;

/// The bytes of input that one run takes at most: 2^40.
pub const MAX_INPUT_BYTES: u64 = 1_099_511_627_776;

/// The bytes that one read of the input asks for.
pub const PIECE_BYTES: usize = 65_536;

/// How many tables a version has at most.
pub const MAX_TABLES: usize = 1_024;

/// The last level of tables; the first is 0.
pub const MAX_LEVEL: u8 = 6;

/// The bytes of a page.
pub const PAGE_BYTES: usize = 4_096;

/// The pages of the smallest device.
pub const MIN_DEVICE_PAGES: u32 = 512;

/// The pages of the largest device: 2^24.
pub const MAX_DEVICE_PAGES: u32 = 16_777_216;

/// The most hash bits of a leaf; the fewest are none.
pub const MAX_HASH_BITS: u8 = 32;

/// The most real bits of a leaf; the fewest are none.
pub const MAX_REAL_BITS: u8 = 32;

/// The greatest ratio of sparse to dense bits.
pub const MAX_RATIO: u16 = 65_535;

/// The most entries of a block; the fewest is one.
pub const MAX_BLOCK_ENTRIES: usize = 255;

/// How many entries it is from one listed entry of a block to the next: blocks of the second format list the first entry and
/// each sixteenth after it.
pub const RESTART_ENTRIES: usize = 16;

/// The bytes of an entry before its key and its value, in the log and in a block of the first format: its kind and their
/// lengths. In the second format it has two more, of what its key shares with the one before.
pub const ENTRY_HEAD_BYTES: usize = 7;

/// The pages of the largest block: one entry, of the longest key and of the longest value.
pub const MAX_BLOCK_PAGES: u32 = 257;

/// The last number of an epoch: 2^64 - 1.
pub const LAST_EPOCH: u64 = 18_446_744_073_709_551_615;

/// The pages of a log area, of which there are two.
pub const LOG_PAGES: u32 = 64;

/// The bytes of a log area.
pub const LOG_BYTES: usize = 262_144;

/// The bytes of a slot of the manifest, of which there are two at the beginning of the device.
pub const SLOT_BYTES: u64 = 131_072;

/// The first page of the tables: the slots and the log areas stand before it.
pub const FIRST_TABLE_PAGE: u32 = 192;

/// The data pages at which a merge closes an output table.
pub const MERGE_DATA_PAGES: u32 = 1_024;

/// The most pairs that one range may ask for.
pub const MAX_RANGE_PAIRS: u32 = 1_000_000;
