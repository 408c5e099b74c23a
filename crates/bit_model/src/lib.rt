//! What packed bits are: the definitions, and examples of them.
//!
//! A list of truth values is packed into numbers of so many bits each, the lowest bit first: `Packed` in `specs/` has
//! the packing and its reading, `Numbers` the bits of a number and the number that some bits of a list spell.
//!
//! The functions have no body: each has examples as its contract, and none needs to be called. Bits to compute with are
//! those of `bit_words`.
//!
//! ```text
//! bits in order       1 0 0 1 1 1 0 1 1
//! in bytes            B9 01
//! ```
#![tactic(auto)]

pub mod examples;
