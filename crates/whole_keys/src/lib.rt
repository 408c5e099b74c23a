//! The leaves of whole keys: of each key all its bytes, so that a trie of them is a set, and not only a filter.
//!
//! `filter_model` cuts each key to the bytes that tell it from the others, and a filter's answers may be wrong where these
//! do not suffice. Here nothing is cut off. Lists of keys and leaf lists without bits are then one and the same, and what
//! leaves answer is what the keys are, but for one thing: a walk down the trie by a string that goes on from a key comes to
//! that key's leaf, where no key goes on from it. Such a string *runs past* the key. The laws say where that shows: a point
//! query, a bound and a count look at it once, and are exact.
//!
//! Definitions are in `specs/`: `Whole` the leaves, `Laws` the statements. The functions have no body: each has examples or
//! laws as its contract, and none needs to be called. Not for filters, whose lists are shorter.
//!
//! ```text
//! keys                 61   6162
//! leaves               61, which ends, and 6162
//! from 6162ff to 62    one leaf meets it and no key lies there: 6162ff runs past 6162
//! from 61 to 61        one leaf and one key
//! ```
#![tactic(auto)]

pub mod examples;
mod laws;

pub use laws::{lists_are_whole, whole_keys_are_listed, whole_meets};
