//! The memory table of a log-structured store: the newest entry of each key, by rising keys.
//!
//! A contract sees a [`MemTable`] as the list of its entries, its deleted ranges and the numbers of spare places: over the
//! changes of a log, in the order of writing, it is `source_of` them (`range_model::source_laws`). A deleted key keeps an
//! entry, a tombstone, which hides what older tables say of it; a deleted range hides what they say of all its keys.
//!
//! Entries stay where they were put; beside them stands the order of their places, numbers of 32 bits in chunks of at
//! most 256. A look-up is a binary search among the chunks and one within a chunk. Setting a new key moves at most 256
//! numbers, and once in 128 times at most as many kibibytes as there are chunks; setting an old one moves nothing. Memory
//! is taken by [`MemTable::reserve_for`] alone, so that an entry can be prepared before it is logged and set after it,
//! with nothing left that can fail. [`MemTable::fill`] makes a table of what a log held by one stable sort, and copies no
//! key and no value. Not for millions of keys: where chunks are moved, all behind them are; and not for taking single
//! entries away.
//!
//! ```text
//! let (log, changes) = Log::replay(alloc, &mut disk, 0)?;
//! let mut table = MemTable::fill(changes)?;            // the last entry of each key
//! let entry = table.reserve_for(b"k", Some(b"v"))?;   // all the memory
//! log.append(..)?;                                     // the entry lasts
//! table.set(entry);                                    // cannot fail
//! ```
#![tactic(auto)]

mod chunks;
mod clearing;
mod cursor;
mod filling;
mod prepared;
mod search;
mod table;

pub use cursor::MemCursor;
pub use prepared::PreparedClear;
pub use table::MemTable;
