//! Searches open tables for a key, the newest first, through a cache of the blocks that were read last.
//!
//! [`look_and_keep`] answers the [`Spot`] of the first table that has the key: in the buffer of the caller, or in a block of
//! [`CachedBlocks`]. It reads at most one block of each table, and none that is kept.
//!
//! The caller gives its tables new numbers ([`CachedBlocks::renumber`]) whenever tables go or come other than before all others;
//! else a kept block could be taken for one of another table.
//!
//! ```text
//! let mut blocks = CachedBlocks::new(alloc)?;
//! match look_and_keep(alloc, tables, &mut blocks, &mut disk, key, &mut buffer)? {
//!     Some(Spot::InBuffer(size)) => Block::find_in_sound(&buffer[..size], key),
//!     Some(Spot::InCache(number, block)) => blocks.find(number, block, key),
//!     None => None,
//! }
//! ```
#![tactic(auto)]

mod caching;
mod searching;

pub use caching::CachedBlocks;
pub use searching::{Spot, look_and_keep};
