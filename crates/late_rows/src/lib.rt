//! The rows of a memory table and of tables, of which each is opened late.
//!
//! A merge reads a block of each of its tables before its first row, though that mostly lies in one of them. Here a table
//! sleeps until no entry at hand is below the least key that it can have, its *waking key*: rows are the same, and a table that has none among them is
//! not read at all. This is the lazy seek of a range filter: that key is told by the filter, without a read (see
//! `waking_keys`).
//!
//! It takes the memory of [`MergeRows`] and the waking keys, and for a row, while some sleep, one look at each walk. Where each
//! table is read anyway, as by a job that merges them, take [`MergeRows`].
//!
//! ```text
//! let mut rows = LateRows::new(which, waking, &tables, Some(&memory), b"a")?;
//! while rows.advance(&mut disk, &tables)? { .. rows.entry() .. }
//! ```
//!
//! [`MergeRows`]: merge_rows::MergeRows
#![tactic(auto)]

pub mod examples;
mod late;
mod laws;
mod next;

pub use late::LateRows;
pub use laws::standing_tables_sleep;
