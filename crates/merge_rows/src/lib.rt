//! The rows of a memory table and of tables: the newest entry of each key, by rising keys.
//!
//! [`MergeRows`] walks a memory table and tables side by side, the newest first, and hands out of each key the entry of the
//! first of them that has one: that is what a store says of the key, a tombstone where it was deleted last. A table's value
//! lies where it was read, in a buffer of that table's; its key, of which a block spells only what it does not share with
//! the one before, is built beside it. A block is read once the next row needs one. On a device whose blocks do not rise,
//! which no table that was written has, an entry that is not above the last row is passed over.
//!
//! It takes for each table room for its largest block, of 4,096 bytes where all its blocks have one page, and for a key;
//! and for a row two comparisons with each of them, of the first eight bytes of keys as numbers; where these are the same,
//! the keys are read. For tens of tables, and not for thousands. Not for one
//! key: that is [`Table::get`](table_file::Table::get), which reads one block at most.
//!
//! ```text
//! let mut rows = MergeRows::new(which, &tables, Some(&memory), b"a", true)?;   // all the memory; tombstones are left out
//! while let Some((key, value)) = rows.next(&mut disk, &tables)? { .. }
//! ```
#![tactic(auto)]

mod choosing;
pub mod examples;
mod filling;
mod floor;
pub mod laws;
mod leads;
mod memory_source;
mod rows;
mod table_source;

pub use rows::MergeRows;
