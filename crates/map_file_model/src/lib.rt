//! What bytes mean as the body of a static map: the map that is read of them, or the first rule of the format that they
//! break, and where.
//!
//! A static map is a sorted map in one piece of bytes, read only: the image of a trie of its whole keys, where the value of
//! each begins, the values in the order of the trie's slots, and a sum of all. Three laws say that the format is exact:
//! bytes that break no rule are the body of a map, the body of each map with each cutoff breaks none and is read as that map,
//! and no two maps have one body. So whoever judges bytes by these rules takes exactly the files that spell a map.
//!
//! `specs/` has one file a noun: `Maps` the maps and the order of their values, `Body` the bytes, `Reading` the nine rules in
//! their order and what is read, `Laws` the statements. The functions have no body: each has examples or laws as its contract,
//! and none needs to be called. Not for the image alone, which `filter_image_model` reads and judges.
//!
//! ```text
//! the body of 61 01, 6162 02        103 bytes: head 24, image 45, three offsets of 8, two values of 1, sum 8
//! with byte 67 as 09                rule 5 at 67: the image has a bit behind its last one
//! with byte 77 as 03                rule 7 at 85: an offset is less than the one before
//! with byte 93 as 07                rule 9 at 95: another sum
//! ```
#![tactic(auto)]

pub mod examples;
mod laws;

pub use laws::{
    a_body_has_one_map, a_body_is_read_again, a_body_was_written_so, values_stand_by_slots,
};
