//! The stubs of a sorted list of keys: how much of each tells it from all others.
//!
//! One pass: a key shares no more with any other key than with one of its two neighbours, so each pair of neighbours
//! is compared once; it takes memory for one number and one mark a key. Do not use it for a list that does not rise
//! strictly, where the answer would be wrong, nor for keys that are added later: one key more may change two stubs.
//!
//! ```text
//! keys    far   fast   s   top   toy
//! stubs   far   fas    s   top   toy
//! ```
#![tactic(auto)]

mod stubs;

pub use stubs::{Stub, truncate};
