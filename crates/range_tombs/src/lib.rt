//! Deleted ranges in memory: a list of pairs of keys that rise and do not touch.
//!
//! A range goes from its lower bound on and up to its upper one, without it. [`Ranges`] joins what meets or touches, so each
//! key lies within one of them at most. All that an added range needs is taken before, by [`Ranges::reserve_for`], so that
//! [`Ranges::add`] cannot fail. No command deletes a range yet.
//!
//! ```text
//! let mut ranges = Ranges::new(alloc);
//! let first = ranges.reserve_for(b"a", b"c")?;
//! ranges.add(first);
//! let second = ranges.reserve_for(b"c", b"e")?;
//! ranges.add(second);
//! ranges.len()                        // 1: from a to e
//! ranges.covers(b"d")                 // true
//! ```
#![tactic(auto)]

mod adding;
mod cutting;
mod list;
mod range;
#[cfg(test)]
mod tests;

pub use list::Ranges;
pub use range::PreparedRange;
