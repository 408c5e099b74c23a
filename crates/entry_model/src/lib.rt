//! The entries of a store: a key with its value, or a tombstone.
//!
//! Definitions that the crates of the log, of the memory table and of the tables share: an entry and when it is sound, the
//! map that entries make in the order of writing, the newest entry of each key, and the bytes of an entry. They stand in
//! `specs/`; the functions here carry their laws, and examples, and do nothing. A program that keeps entries takes
//! `entry_list`.
//!
//! ```text
//! put 61 62                     01  01 00  01 00 00 00  61  62: kind, lengths of key and value, key, value
//! put 61 62, del 61             newest: a tombstone of 61
//! ```
#![tactic(auto)]

pub mod examples;
mod laws;

pub use laws::{body_has_its_length, map_laws, newest_laws};
