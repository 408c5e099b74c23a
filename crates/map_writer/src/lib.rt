//! The bytes of a map, from its keys and values.
//!
//! [`write_body`] plans the trie of the keys, knows then how many bytes the body will have, and writes it: a head, the image of
//! the trie (`trie_build`, `filter_codec`), where each value begins, the values in the order of the slots of their keys, and a
//! sum (`map_file_model`). What it appends is the body of the map by the rule's cutoff, and no other bytes.
//!
//! It goes over the letters of all keys twice, and takes memory for the spans of the keys, the trie, and the order of the slots,
//! 16 bytes a key beside the trie. Where it fails, `out` is as it was. Not for pairs that come in no order: who hands them in
//! has sorted them.
//!
//! ```text
//! keys 61, 6162    values 01, 02
//! write_body(alloc, &keys, &values, 64, &mut out)?;      // 103 bytes behind what `out` had
//! ```
#![tactic(auto)]

mod error;
mod head;
mod order;
mod plan;
mod trie;
mod values;
mod writing;

pub use error::FinishError;
pub use writing::write_body;
