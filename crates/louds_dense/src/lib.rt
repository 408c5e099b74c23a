//! The nodes of a trie's upper levels, two bits a byte (LOUDS-Dense; SuRF: Zhang et al., SIGMOD 2018).
//!
//! Each node has 256 places, one for each byte, and place `p` is that of byte `p mod 256` at node `p / 256`. A place has a
//! bit that says whether its byte is a branch, and one that says whether the branch leads to a node; a node has one more,
//! that says whether END is a branch of it. A [`Dense`] answers by these alone: a branch is one look at a bit, and its
//! child and a leaf's slot are counts of bits before its place ([`Ranked`](bit_rank::Ranked)). END stands before the bytes
//! of its node. Nothing stands before this half, so its nodes and slots are those of the trie; [`Dense::counts`] is what
//! stands before the half that follows.
//!
//! A [`DenseBuilder`] is given the nodes in level order. It makes its room at the start, so that no node fails, and three
//! small tables at the end.
//!
//! A call reads a few words and takes no memory: `branch` one bit, `child` a bit and one count, `leaf_slot` three counts.
//! Do not use it for nodes of few branches: 513 bits a node are more than the ten a branch of the sparse spelling.
//!
//! ```text
//! keys            a   ab
//! labels          61 at node 0, 62 at node 1: places 97 and 354
//! has_child       place 97
//! prefix          0 1
//!
//! dense.branch(0, b'a')     // Some(97)
//! dense.child(97)           // Some(1), the node of a
//! dense.prefix_slot(1)      // Some(0), the leaf a
//! dense.leaf_slot(354)      // 1, the leaf ab
//! ```
#![tactic(auto)]

mod builder;
mod dense;
mod laws;
mod sections;

pub use builder::DenseBuilder;
pub use dense::Dense;
pub use laws::places_are_of_branches;
pub use trie_model::{Before, Branch};
