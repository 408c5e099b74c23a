//! The steps of a load, and what it tells of the map at its end.
//!
//! A load fills a store with puts and dels that follow from a seed, so that two runs, or two programs, can be compared by
//! one line. [`LoadGen`] gives the steps one after the other: each is a multiplication and an addition, and takes no memory.
//! A [`Summary`] is fed the values of all live pairs and tells how many they are and the sum of their first eight bytes, as
//! numbers; [`spell_summary`] is the line that says so.
//!
//! The numbers are those of a linear congruence modulo 2^64 (multiplier 6364136223846793005, increment
//! 1442695040888963407); the highest 24 bits of each are a key, so there are 2^24 keys. Not for cryptography, and not for
//! keys of any other length.
//!
//! ```text
//! let mut steps = LoadGen::new(1);
//! match steps.next() {
//!     LoadStep { key, value: Some(value) } => store.put(&key, &value),   // 6c576f, 7c00fd43ac6f576c
//!     LoadStep { key, value: None } => store.del(&key),
//! }
//! let mut summary = Summary::new();
//! summary.add(value);                                                    // for each live pair
//! let n = spell_summary(1, 0, &summary, &mut line);   // load steps 1 refused 0 live 1 sum 6c576fac43fd007c
//! ```
#![tactic(auto)]

pub mod examples;
mod generator;
mod laws;
mod line;
mod summary;

pub use generator::{LoadGen, LoadStep};
pub use laws::{step_laws, summary_laws};
pub use line::{LINE_BYTES, spell_summary};
pub use summary::Summary;
