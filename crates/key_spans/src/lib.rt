//! How the paths of whole keys stand among each other: where each parts from the next one, and how long it is.
//!
//! A trie is planned and built by such spans (`trie_levels`, `filter_trie`). Those of a filter's keys, which are cut, come of
//! their stubs; those of whole keys come of the keys alone, by one comparison of each two neighbours. It takes one block of
//! memory, of 8 bytes a key. Not for filters: `trie_levels::spans_of` has theirs.
//!
//! ```text
//! keys          61   6162   7a
//! spans         61: two letters, 61 and END; shares one byte with 6162, so no later leaf is below its second node
//! ```
#![tactic(auto)]

mod spans;

pub use spans::whole_spans;
