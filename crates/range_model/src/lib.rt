//! Ranges of keys that are deleted: what a map, the entries of a store and its merges become by them.
//!
//! A *deleted range* goes from one key on and up to another one, without it. A *change* sets an entry or clears a range, and a
//! *source* is what changes make: entries by rising keys, and ranges that rise and do not touch. An entry of a source wins
//! over the ranges of the same source, and the ranges hide entries of older sources. No command deletes a range yet: these
//! are definitions and laws alone, and stand beside `map_model` and `entry_model`, of which they take the map and the
//! entries.
//!
//! ```text
//! clear a c of the map a 1, b 2, c 3    the map c 3
//! put a 1, clear a c                    a tombstone of a, and the range from a to c
//! put a 1, clear a c, put b 2           a tombstone of a, the value of b, and that range
//! ```
#![tactic(auto)]

pub mod examples;
mod laws;

pub use laws::{
    clear_laws, hiding_laws, merged_laws, output_laws, range_laws, reach_laws, source_laws,
};
