//! Tests of lines: requests and replies that are known, and loads beside an ordered map.
//!
//! What the tests show at some values the crates prove at all. Exported is the plain program of a load alone: its steps
//! played into a `PlainMap`, and the summary of that by a loop over its pairs. Its contracts are the definitions of
//! `load_gen`, so it says what a store that was loaded replies. It takes time of the number of steps times the number of
//! pairs: not for many steps.
//!
//! ```text
//! let map = loaded(alloc, 1, 1)?;
//! map.get(b"\x6c\x57\x6f")             // Some(..), eight bytes
//! summed(&map).live()                  // 1
//! ```
#![tactic(auto)]

#[cfg(test)]
mod loads;
#[cfg(test)]
mod maps;
mod plain_load;
#[cfg(test)]
mod replies;
#[cfg(test)]
mod requests;
#[cfg(test)]
mod steps;

pub use plain_load::{loaded, summed};
