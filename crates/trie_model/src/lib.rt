//! What is asked of a trie and its halves: the definitions, and examples of them.
//!
//! A trie is a list of nodes in level order, each the list of its branches, as in `filter_model`. In `specs/`, one file
//! a noun: `Letters` has the key order, in which END comes before every byte; `Rests` what follows a prefix in the paths
//! that begin with it, and how many leaves come before it; `Walks` the leaf that a key reaches, the nodes on its way, and
//! the least leaf below a branch; `Branching` the branches of one node by bytes; `Halves` the places, children and slots
//! of a part of the nodes, with counts of what stands before it.
//!
//! [`Branch`] and [`Before`] are what the builders of halves are given, and [`are_rising`] is the test of a node's
//! branches. The other functions have no body: each has examples as its contract, and none needs to be called.
//! Not to compute with: walks and counts begin at the root each time. A program takes a half, as `louds_sparse`.
//!
//! ```text
//! keys            far   fast   s   top   toy
//! places          f s t   a   o   r s   p y
//! slots             0             1 2   3 4
//! fasten          walks by the nodes "", f and fa to slot 2
//! ```
#![tactic(auto)]

pub mod examples;
mod parts;

pub use parts::{Before, Branch, are_rising};
