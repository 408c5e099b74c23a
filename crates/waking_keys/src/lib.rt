//! The waking key of a table: the least key that it may have from a bound on, as far as its filter and its least and its
//! greatest key say it, with no read.
//!
//! Who walks many tables from a bound on opens a table late by it: once no entry at hand is below the table's waking key,
//! and not before. A table that has no key from the bound on has none.
//!
//! It takes one seek in the filter where the bound is above the table's least key, and memory for one key. Do not ask for
//! it where one table alone is walked, which is opened anyway.
//!
//! ```text
//! keys far, fast, s, top, toy, from fat:  s
//! from fas:                               fas, since the filter knows no more of fast
//! from u:                                 none
//! ```
#![tactic(auto)]

pub mod examples;
mod laws;
mod waking;

pub use laws::waking_keys_are_near;
pub use waking::waking_key;
