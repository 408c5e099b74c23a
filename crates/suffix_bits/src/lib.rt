//! The suffix bits of a leaf: the low bits of the key's hash, and the bits of the key that follow its stub.
//!
//! Hash bits tell other keys apart in a look-up alone; real bits do so in ranges too, where the keys differ soon after
//! their stubs (SuRF: Zhang et al., SIGMOD 2018).
//!
//! A [`Suffixes`] keeps those of all leaves in the order of their slots, packed without gaps: it is a list of pairs,
//! and its bits are the last section of the filter's image. `push` and `get` touch two words at most. It grows at its
//! end alone, so do not use it for suffixes that change. A [`SuffixesBuilder`] has its room from the start, and no push
//! into it fails.
//!
//! ```text
//! hash_bits_of(b"a", 8) == 0x8C
//! real_bits_of(b"fast", 3, 8) == 0x74       // the letter t
//!
//! let mut suffixes = Suffixes::new(alloc, 8, 8);
//! suffixes.push(0x8C, 0x74)?;
//! suffixes.get(0) == (0x8C, 0x74)
//! ```
#![tactic(auto)]

mod bits;
mod builder;
pub mod examples;
mod laws;
mod suffixes;

pub use bits::{byte_at, filled, hash_bits_of, real_bits_of, shortest_bytes};
pub use builder::SuffixesBuilder;
pub use laws::suffix_laws;
pub use suffixes::Suffixes;
