//! How the plain filter's list of leaves is spelled, and read again.
//!
//! Definitions and their laws: the bytes of a leaf list, the list that bytes spell, and that a list is valid where each leaf
//! stands rightly between its neighbours. The laws are below the filter, so that its contract can name them.
#![tactic(auto)]

mod laws;

pub use laws::one_list_is_spelled;
