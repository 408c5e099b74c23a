//! A filter's image: the bytes that stand for a trie, and the trie that bytes are the image of.
//!
//! `decode` is exact: a trie only of bytes that are the image of what it stands for, and else the first rule of the format
//! that they break, and where. It judges the sections as packed bits, and makes no list of nodes.
//!
//! `decode_whole` reads tries of whole keys: leaves without bits, any of which may be alone in its node. Both are one reading,
//! by a kind.
//!
//! `encode` copies the sections and takes what `out` lacks for them; without memory `out` stays as it was. `decode` looks
//! at each section a few times and at each level twice at most, and takes what the sections and the counts over their bits
//! need, each block once and none by a number that the bytes do not bear. Of the trie that it has judged it then counts the
//! sums of one level, and takes what these need.
//!
//! Do not use it for a list of leaves whose filter is to be read by plain loops: `plain_filter` spells that. Nor for a trie
//! that is asked while it is read: `decode` judges all of it first.
//!
//! ```text
//! keys a, ab with no suffixes, all levels sparse: 45 bytes
//! encode(&trie, &mut out)?       // out ends with 61 FF 62, 01, 03
//! decode(alloc, &out)?           // the same trie: cutoff 0, height 2, two leaves
//! decode(alloc, &out[..44])      // Fault: rule 1 at place 44
//! ```
#![tactic(auto)]

mod ends;
mod head;
mod header;
mod kind;
mod laws;
mod levels;
mod reading;
mod sections;
mod shape;
mod tree;
mod writing;

pub use laws::{read_again, read_whole_again};
pub use reading::{decode, decode_whole};
pub use writing::encode;
