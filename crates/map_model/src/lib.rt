//! The sorted map: pairs of byte strings with rising keys, what a put and a del make of it, and what is read of it between
//! two keys.
//!
//! `slice` is the first n pairs whose keys lie between, both ends included, `seek` the first of them, `count` how many
//! they are. The definitions stand in `specs/`; the functions here carry their laws, and examples, and do nothing. A program over
//! them is `plain_map`. Not for maps of anything but byte strings.
//!
//! ```text
//! put c 3, put a 1, del c       the map a 1
//! seek a b of a 1, c 3          a 1
//! ```
#![tactic(auto)]

pub mod examples;
mod laws;

pub use laws::{count_laws, del_laws, put_laws, seek_laws, slice_laws};
