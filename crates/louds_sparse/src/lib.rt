//! The nodes of a trie's lower levels, ten bits a branch (LOUDS-Sparse; SuRF: Zhang et al., SIGMOD 2018).
//!
//! Each branch has a label, its byte; a bit that says whether it leads to a node; and a bit that says whether it is the
//! first of its node. END, behind a stub that others go on from, is written FF: a first label FF of a node of two labels
//! or more is END, and a lone FF is the byte. A [`Sparse`] answers by these alone: a node begins at a set bit of the last
//! section ([`Selected`](bit_select::Selected)), and a branch's child and a leaf's slot are counts of bits before it
//! ([`Ranked`](bit_rank::Ranked)). Nodes and slots are numbered over the whole trie, with what stands [`Before`] it counted
//! in; places, one for each branch, over this half.
//!
//! A [`SparseBuilder`] is given the nodes in level order. It makes its room at the start, so that no node fails, and two
//! small tables at the end.
//!
//! A call reads a few words for each node and takes no memory; `branch`, `next_branch` and `prev_branch` look at 16 labels
//! at a time. Do not use it for nodes with most of 256 bytes: a bit for each byte takes less there, and is found at once.
//!
//! ```text
//! keys            far   fast   s   top   toy
//! labels          f s t   a   o   r s   p y
//! has_child       1 0 1   1   1   0 0   0 0
//! louds           1 0 0   1   1   1 0   1 0
//!
//! sparse.branch(0, b't')       // Some(2)
//! sparse.child(2)              // Some(2), the node of t
//! sparse.next_branch(4, 0x71)  // Some(8), by y
//! sparse.leaf_slot(8)          // 4
//! ```
#![tactic(auto)]

mod builder;
mod lead;
mod sections;
mod sparse;

pub use builder::SparseBuilder;
pub use lead::{Lead, Placed};
pub use sparse::Sparse;
pub use trie_model::{Before, Branch};
