//! Where the nth set bit stands.
//!
//! A [`Selected`] keeps, beside the bits, the place of every 64th set bit, in four bytes: at most half a word more for each
//! word. `select` reads one kept place, and scans the words from there to the one with the bit: as many as lie before the
//! next kept place, behind the first four eight at a time.
//!
//! Do not use it for bits that still grow: the places are kept once, in time of the number of bits. Where set bits lie
//! far apart, as one in ten thousand, a list of their places is as small and needs no scan.
//!
//! ```text
//! let selected = Selected::new(alloc, Bits::from_bytes(alloc, &[0xB9, 0x00], 9)?)?;
//! selected.select(4)      // Some(7)
//! selected.select(5)      // None
//! ```
#![tactic(auto)]

mod byte;
mod near;
mod selected;
mod word;

pub use selected::{Selected, Start};
