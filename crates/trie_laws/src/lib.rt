//! Laws of the trie by which a succinct one finds its way and a decoder knows what it reads.
//!
//! The definitions are those of `filter_model`, where a trie is one list of nodes in level order, each the list of its
//! branches. Child, slot, place and select are counts in that list, for any list of nodes, and two lists end to end count
//! on. Of a list of leaves that has a trie, the paths are prefix-free, each leaf has one slot, each level has a node, and
//! every node has rising letters, END first. The functions have no body: each has laws as its contract, and none needs to
//! be called. Not for lists of leaves that have no trie: of these only the laws of any list of nodes hold.
//!
//! ```text
//! far fast s top toy     nodes: {f, s, t} {a} {o} {r, s} {p, y}
//! child of f             1 + no child before it = node 1, which is {a}
//! ```
#![tactic(auto)]

mod laws;

pub use laws::{
    branch_is_found, branches_are_nodes_and_stubs, children_and_slots_are_counted,
    company_is_a_branch, halves_join, leaves_have_slots, nodes_have_form, paths_are_prefix_free,
    places_are_of_nodes, select_finds_nodes,
};
