//! The blocks and the index of a table as plain programs: the obvious loops over entries.
//!
//! Each call answers by the definition of that name in `block_model`. They copy entries and hold all bytes in memory, so
//! they are for tests and for comparison: do not use them in a store, which writes its tables block by block
//! (`block_format`). Want of memory is the only error. [`are_entries`] tests what the others ask of their entries.
//!
//! ```text
//! entries             a with the value b, and a tombstone of ab
//! block_length        31: a header of 8 bytes, a list of 2, 11 bytes and 10 bytes
//! data_pages          1
//! index_length        27: a head of 11 bytes and a row of 16
//! ```
//!
//! [`old_block_bytes`] spells a block of the first format, which is read and no longer written.
#![tactic(auto)]

mod bytes;
mod counts;
mod old;
mod pages;
mod spelled;

pub use bytes::{data_bytes, first_key, index_bytes, last_key};
pub use counts::{data_pages, index_length};
pub use old::{old_block_bytes, push_body};
pub use pages::{are_entries, cut};
pub use spelled::{block_bytes, block_length};
