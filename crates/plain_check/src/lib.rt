//! What is wrong with a device that holds a store, as a plain program over all its bytes.
//!
//! [`plain_check`] reads the formats as their tables are written: a number at a place, a rule after the other, and lists that are
//! walked from their beginning. It shares no code with the program's own readers, copies each part, and takes time of the square of
//! what it reads: it is for comparison with a check of the store, in tests. Do not use it on a large device. Want of memory is the
//! only error.
//!
//! Bytes past the end are zero, so no bytes are a device without a store. Filters are succinct ones: a plain filter breaks rule 2.
//!
//! ```text
//! plain_check(alloc, b"")?            NoStore
//! of a new store                      Sound(Sizes { tables: 0, entries: 0, live: 0, log: 0 })
//! with another byte in a block        Wrong(one finding, OtherSum, at the block's first byte)
//! ```
#![tactic(auto)]

mod block;
mod bytes;
mod finding;
mod header;
mod index;
mod leaves;
mod levels;
mod live;
mod log;
mod nodes;
mod part;
mod rows;
mod slots;
mod store;
mod stubs;
mod sums;
mod table;
mod trie;

pub use finding::{Finding, What};
pub use store::{Checked, Sizes, plain_check};
pub use sums::{KeptSum, sums_of};
