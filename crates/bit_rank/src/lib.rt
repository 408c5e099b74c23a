//! How many bits are set before a place.
//!
//! A [`Ranked`] keeps, beside the bits, a count of four bytes at every 128 of them: half a word more for two. `rank` reads
//! one kept count and two words, and `bit_and_rank` says of the same words whether the place's own bit is set. Whoever will
//! ask for one of several places, and does not know yet for which, has `word_of` read the word of the first of them, and then
//! `bit_and_rank_by` reads no more, so that the memory need not be waited for once the place is known.
//!
//! Do not use it for bits that still grow: the counts are made once, in time of the number of bits. For one count of
//! all bits take `lane_scan::ones`.
//!
//! ```text
//! let ranked = Ranked::new(alloc, Bits::from_bytes(alloc, &[0xB9, 0x00], 9)?)?;
//! ranked.rank(4)      // 2
//! ranked.rank(9)      // 5
//! ranked.bit_and_rank(4)      // (true, 2)
//! ranked.bit_and_rank_by(ranked.word_of(0), 4)    // (true, 2)
//! ```
#![tactic(auto)]

mod ranked;
mod word;

pub use ranked::Ranked;
pub use word::RankedWord;
