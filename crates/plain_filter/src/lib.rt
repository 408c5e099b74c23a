//! A filter that is its leaf list: each answer a plain loop over all leaves.
//!
//! It answers as every filter does, slowly: each call but `leaves` and `widths` takes time by the number of leaves. It
//! is the one to compare others with, and serves until a store has many keys; then take a succinct filter.
//!
//! Its spelling is `SURP`, the two widths, the number of leaves in four bytes, and then for each leaf the length of its
//! stub in two bytes, the stub, 1 where it ends and 0 where not, and hash and real bits in four bytes each, all lowest
//! byte first. It keeps no cutoff.
//!
//! ```text
//! keys a, ab:  53 55 52 50 00 00 02 00 00 00   01 00 61 01 00 00 00 00 00 00 00 00
//!              02 00 61 62 00 00 00 00 00 00 00 00 00
//! ```
#![tactic(auto)]

mod answers;
mod decode;
mod difference;
mod encode;
mod filter;
mod leaf;
mod valid;

pub use filter::PlainFilter;
