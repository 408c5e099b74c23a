//! A filter's trie over both halves: the upper levels dense, the lower ones sparse, and one list of nodes.
//!
//! A [`Trie`] is made of the sections of one leaf list ([`Trie::of`]) and stands for that list, so that what it answers is
//! said without its halves. A leaf may be alone in its node, as whole keys are: of which lists there are filters, a filter
//! asks. `walk` goes down by a key's bytes, from the root, to the one leaf that the key
//! reaches.
//!
//! [`build`] makes it of sorted keys, level by level, from their spans and the plan of their levels (`trie_levels`). No leaf
//! is made and nothing is sorted.
//!
//! Whoever goes over many leaves asks for a [`Place`]: `branch`, `next_branch` and `prev_branch` find one by a byte of a
//! node, `child`, `leaf_slot` and `first_below` say what it leads to and what stands before it, and `leftmost` the least
//! leaf behind it; `placed` says all but the last at once, of a branch of the sparse half. What a place says is said of the
//! one list of nodes, and whoever holds one need not know of which half it is.
//!
//! A walk looks at one node for each level: in the dense half at two bits and one count, in the sparse half at where the
//! node begins, its labels and one count. It takes no memory. `walk_counted` counts the nodes, by a [`Steps`] that takes no
//! bytes and no time; steps are what its clauses count, not looks. `build` reads each letter of each stub once, and makes
//! its room at the start from the plan. `kept_sum` says at once, of a node of one level, what `before_node` counts from there
//! on level by level; `build` keeps these sums, and whoever makes a trie of sections may (`keep_sums`). `image_bytes` and
//! `memory_bits` say what an image and a trie take.
//!
//! Do not use it for keys that come and go: it is built once of all of them. Nor where the leaves of a few keys do: a plain
//! list of leaves is asked by one loop (`plain_filter`).
//!
//! ```text
//! keys            far   fast   s   top   toy
//! let trie = build(alloc, &keys, spans, &levels, 8, 8, 2)?;
//! trie.walk(b"fasten")     // Leaf(2), the leaf fas
//! trie.walk(b"fa")         // Miss
//! trie.walk_to(b"fasten")      // Some((2, 3)): of the stub fas
//! trie.next_branch(0, 0x67)    // Some(place), by s
//! trie.leftmost(place)         // 0, the leaf s
//! ```
#![tactic(auto)]

mod branches;
mod build_half;
mod build_level;
mod build_node;
mod build_pending;
mod building;
mod laws;
mod leftmost;
mod level_starts;
mod level_sums;
mod looks;
mod memory;
mod place;
mod steps;
mod trie;
mod walk;

pub use building::build;
pub use laws::{branches_lead, leaves_are_counted, places_are_numbers, searches_find};
pub use louds_sparse::Placed;
pub use place::Place;
pub use steps::Steps;
pub use trie::Trie;
pub use walk::Walk;
