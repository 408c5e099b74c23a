//! Blocks of a table: read where they lie, and written entry by entry.
//!
//! A block has one of two formats, which its bytes name: entries that share the beginnings of keys, with a list of places, or
//! whole keys and no list. [`Block::read`] tests each rule of the format in one pass and takes no memory: it answers the block,
//! seen as its list of entries, exactly where the bytes keep all rules, else the first rule that they break and the place.
//! [`BlockBuilder`] keeps the entries of the next block as they will be written, and appends it in whole pages, always in the
//! format that shares.
//!
//! Bytes that were read just now are also to be summed: [`Block::read_sum_and_find`] does it in the pass that judges them.
//! Whoever keeps the bytes and cannot keep a cursor that borrows them asks [`read_sum_and_walk`] where the entries are, and goes
//! over them with [`EntryWalk::advance`] and a buffer of its own, in which each key is built. A [`BlockCursor`] has such a buffer.
//!
//! [`Block::find`] goes by halves over the listed entries, then over sixteen at most; in a block with whole keys from entry to
//! entry. Not for tables as a whole.
//!
//! ```text
//! let block = Block::read(bytes)?;
//! block.find(b"a") == Some(Some(b"1"))          // Some(None) for a tombstone
//! let mut cursor = block.from(Some(b"b"));
//! while cursor.advance() { .. cursor.entry() .. }
//! ```
#![tactic(auto)]

mod appending;
mod block;
mod builder;
mod cursor;
mod entry;
mod fault;
mod finding;
mod format;
mod head;
mod header;
mod judged;
mod judging;
mod old_block;
mod walk;
mod walking;

pub use block::Block;
pub use builder::BlockBuilder;
pub use cursor::BlockCursor;
pub use fault::BlockFault;
pub use format::BlockFormat;
pub use walk::{EntryWalk, ValuePlace, value_of};
pub use walking::read_sum_and_walk;
