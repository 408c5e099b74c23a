//! A cache of the blocks of tables that were read last: at most 64 of them, each given as it was kept.
//!
//! A contract sees a [`BlockCache`] as the list of the blocks that are kept, the newest first. [`BlockCache::get`] brings
//! its block first; [`BlockCache::keep`] puts one first, in the stead of the last where 64 are kept, and hands the block
//! back where memory is refused. A get of a block that is not kept changes nothing.
//!
//! A block is known by a table's number and its own in that table. The cache trusts these numbers: whoever opens tables
//! gives each a number of its own, which is never given again while the cache lives, so that a table that takes the pages
//! of an older one has none of its blocks. Once numbers run out, a table that shares its number (say 2^64 - 1) is to be
//! read past the cache: keep no block of it and ask for none.
//!
//! Each call costs one look-up in a hash map and takes time that does not depend on the size of the block. Keeping one
//! takes memory for a node; a get takes none. Not for reads that touch each block once, as scans and merges do: they would
//! drive out what is read again. It is `lru` underneath, with blocks that give up growing.
//!
//! ```text
//! let mut cache = BlockCache::new(alloc)?;
//! if cache.get(table, block).is_none() {
//!     let bytes = ..;                                   // read, and its sum tried
//!     let _ = cache.keep(table, block, bytes);          // refused: the block comes back, and nothing is lost
//! }
//! ```
#![tactic(auto)]

mod cache;
mod laws;

pub use cache::{BlockCache, MOST_BLOCKS};
pub use laws::{constant_is_most, get_laws, given_as_kept, keep_laws};
