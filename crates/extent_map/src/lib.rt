//! Which pages of a device are taken, and where the first gap is that holds so many.
//!
//! An [`Extents`] is a list of extents that do not meet, each a first page and how many pages it has, behind the pages of
//! manifest and logs. It is kept in the order of the pages: a gap is found in one pass, and an extent is added or removed
//! at the cost of moving those behind it. It knows nothing of what stands in a page, and nothing of the device; its owner
//! says what is taken. Do not use it for many extents that come and go, as those of single pages: each change moves all that
//! stand behind it. It is for the tables of a store, of which there are at most 1,024.
//!
//! ```text
//! let mut extents = Extents::new(alloc, 512);
//! extents.add(192, 3)?;
//! extents.add(200, 5)?;
//! extents.gap(6)          // Ok(205)
//! extents.gap(308)        // Err(NoGap { need: 308, largest: 307 })
//! ```
#![tactic(auto)]

mod extents;

pub use extents::{Extents, NoGap};
