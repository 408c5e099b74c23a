//! What a filter answers: the definitions, examples of them, and the laws that they keep.
//!
//! A filter stands for a list of leaves, one for each key: as much of the key as tells it from all others (its stub),
//! whether the key ends there, and some bits of a hash or of the key itself (SuRF: Zhang et al., SIGMOD 2018). The
//! definitions stand in `specs/`, one file a noun: `Strings`, `Leaves`, `Answers`, `Trie`, `Valid`, `Nodes`, `Image`.
//! They say what every filter answers, a plain list and a succinct trie alike, and look like neither.
//!
//! [`are_keys`] tests whether a filter can be built from a list of keys, by one comparison for each two neighbours.
//! The other functions have no body: each has a law or some examples as its contract, so that the crate is proved only
//! where the law holds. None needs to be called. Not for programs that ask a filter: they take `filter_api` and one
//! of its filters.
//!
//! ```text
//! keys            far   fast   s   top   toy
//! stubs           far   fas    s   top   toy
//! point(fasten)   yes: fas is its prefix            point(fa)       no
//! range(fat, s)   yes: s lies there                 range(fat, r)   no
//! ```
#![tactic(auto)]

pub mod examples;
mod keys;
mod laws;

pub use keys::are_keys;
pub use laws::{
    first_difference_is_exact, least_strings_fit, leaves_are_valid, nodes_are_the_prefixes,
    nothing_held_is_denied, past_is_below, range_is_exact, seeks_are_near, tally_is_near,
    valid_lists_are_leaf_lists, valid_lists_come_of_keys,
};
