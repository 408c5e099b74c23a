//! Bits packed into words of 64.
//!
//! A [`Bits`] is a list of truth values. It stands in words, lowest bit first, so that a kernel can count 64 bits at a
//! time, and it is read from and written to bytes, lowest bit first too. One word is kept for 64 bits; `push` takes
//! memory only where a new word begins and the room is used up. `push_number` and `number` add and read up to 64 bits
//! at once, in two words at most. `first_one_from` and `last_one_before` find the set bits beside a place.
//!
//! A [`BitsBuilder`] has its room from the start: what is pushed into it takes no memory, and no push fails.
//!
//! Do not use it for bits that change: it grows at its end alone. For a set of small numbers that comes and goes take
//! a set of std.
//!
//! ```text
//! let bits = Bits::from_bytes(alloc, &[0xB9, 0x00], 9)?;
//! bits.get(3)       // true
//! bits.words()      // [0xB9]
//! bits.number(2, 4) // 14, the bits 0, 1, 1, 1 from place 2 on
//! bits.first_one_from(1)    // Some(3)
//! bits.last_one_before(3)   // Some(0)
//!
//! let mut builder = BitsBuilder::with_room(alloc, 9)?;
//! builder.push_number(0xB9, 8);
//! builder.push(false);
//! builder.finish().words()  // [0xB9]
//! ```
#![tactic(auto)]

mod bits;
mod builder;
mod laws;
mod word;

pub use bits::Bits;
pub use builder::BitsBuilder;
pub use laws::{number_laws, packing_laws};
