//! The keys of the benches of filters and maps: drawn, sorted, and others that are not among them.
//!
//! ```text
//! let mut numbers = Numbers::new(1);
//! let present = draw_keys(alloc, Kind::Words, 100_000, &mut numbers)?;
//! let keys = sorted(alloc, &present)?;
//! let absent = draw_absent(alloc, Kind::Words, &present, &keys, &mut numbers)?;
//! ```
#![tactic(auto)]

mod keys;
mod texts;

pub use keys::{Kind, draw_absent, draw_keys, sorted, texts_of};
pub use texts::Texts;
