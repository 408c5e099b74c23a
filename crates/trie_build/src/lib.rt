//! The nodes of a trie from sorted keys: its upper levels dense, the others sparse, in level order.
//!
//! A leaf is cut from a key: its stub is the first bytes of the key, as many as a filter needs or all of them. Of the leaves no
//! more is wanted than the spans of their paths (`trie_levels`, `key_spans`) and the plan of their levels, so that one build
//! serves filters and maps. [`build_halves`] goes over the paths that are left once a level, reads of each the letter of that
//! level, and gives each node to the half that has room for it. No leaf is made and nothing is sorted.
//!
//! Hash bits, real bits and values go by slot and are not looked at: who has them packs them beside the halves. Not for keys
//! that come and go: it builds once, of all of them.
//!
//! ```text
//! keys            far   fast   s   top   toy, whole
//! let spans = whole_spans(alloc, &keys)?;
//! let levels = plan_spans(alloc, spans.as_slice())?;
//! let (dense, sparse) = build_halves(alloc, &keys, spans, &levels, 1)?;
//! dense       the root: f, s and t
//! sparse      a under f, o under t, and so on
//! ```
#![tactic(auto)]

mod building;
mod growing;
mod open_node;
mod passes;

pub use building::{build_halves, dense_nodes, sparse_labels};
