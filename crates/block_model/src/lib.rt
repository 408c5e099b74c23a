//! What the bytes of a table's blocks and of its index are: the definitions, examples and laws.
//!
//! `specs/` has one file a noun. `Pages` says how entries are cut into blocks and how many pages and bytes come out,
//! `Bodies`, `Block` and `Index` how each is spelled, `BlockReading` and `IndexReading` what is read from bytes and which rule
//! they break first, and where; `Places` says where the parts of a table stand, by its row. Whoever writes or reads a table is
//! proved against these.
//!
//! A block has one of two formats, which byte 5 names. In blocks as they are written an entry keeps of its key only what it
//! has beyond the key before, and each sixteenth entry is listed. Blocks of the first format, in `OldBlock` and `OldReading`,
//! have whole keys and no list; they are read, and no longer written. `Formats` says what is read of an entry in either,
//! `FormatLaws` what holds of both.
//!
//! An index also has the ranges of keys that its table deletes in older tables, after its rows and under another magic; most
//! have none, and are spelled as before there were any.
//!
//! Nothing here reads or writes: `plain_blocks` has the obvious loops, `block_format` what a store uses. The functions
//! with no parameter have no body: each has examples or laws as its contract, and none needs to be called.
//!
//! ```text
//! pages_for(4096)     1
//! pages_for(4097)     2
//! ```
#![tactic(auto)]

pub mod examples;
mod laws;
mod pages;
pub mod prefixed_examples;

pub use laws::{
    blocks_are_the_entries, blocks_have_one_spelling, indexes_have_one_spelling,
    lengths_are_counted, listed_entries_are_found_by_halves,
};
pub use pages::pages_for;
