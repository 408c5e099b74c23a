//! The blocks that are kept, newest first.
ghost use Rattle.std.specs.Prelude.{◌≡◌, ◌≤◌, List, [], length, slice_get, is_some, option_map, IfOk, OnOk, OnErr, IfErr, IsTrue, ◌↔◌};
ghost use Rattle.std.specs.Box.{boxed_slice_items};
ghost use Rattle.std.specs.Borrow.{sem};
ghost use Rattle.block_cache.specs.Kept.{kept_of, brought_first, most_blocks, with_kept};

use lru::LruCache;
use std::alloc::{AllocError, AllocFailed, Global};
use std::boxed::BoxedSlice;
use std::marker::Model;
use std::num::NonZeroUsize;

/// How many blocks are kept at most.
pub const MOST_BLOCKS: usize = 64;

/// Blocks by the numbers of their tables and their own, the one that was asked for or kept last first.
#[derive(Drop)]
pub struct BlockCache {
    kept: LruCache<(u64, u32), BoxedSlice<u8>>,
}

impl Model for BlockCache {
    ghost use Rattle.std.specs.Prelude.{◌≡◌, ◌≤◌, List, length, map};
    ghost use Rattle.std.specs.Box.{boxed_slice_items};
    ghost use Rattle.block_cache.specs.Kept.{KeptBlock, most_blocks};

    ghost Value = { List KeptBlock };

    ghost view = { λ c. map (λ e. (e.0, boxed_slice_items e.1)) c.kept.entries };

    ghost invariant = { λ c. (c.kept.cap ≡ most_blocks) × (length c.kept.entries ≤ most_blocks) };
}

impl BlockCache {
    ghost use Rattle.block_cache.specs.Lends.{cache_ends};

    /// A cache that keeps nothing yet. It takes the memory of its map, for 64 blocks, at once.
    pub fn new(alloc: Global) -> Result<BlockCache, AllocError>
        ensures { IfOk result (λ cache. cache ≡ []) }
    {
        let most = NonZeroUsize::new(MOST_BLOCKS).unwrap();
        let kept = LruCache::new(alloc, most)?;
        Ok(BlockCache { kept })
    }

    /// How many blocks are kept.
    pub fn len(&self) -> usize
        ensures count { result ≡ length self.now }
        ensures most { length self.now ≤ most_blocks }
    {
        self.kept.len()
    }

    /// Whether none is kept.
    pub fn is_empty(&self) -> bool
        ensures { IsTrue result ↔ (self.now ≡ []) }
    {
        self.kept.is_empty()
    }

    /// The bytes of a block, as they were kept, or `None` where it is not. The block is then the first.
    ///
    /// Takes no memory. Where work goes on after a block that is not kept, [`BlockCache::bring_first`] and
    /// [`BlockCache::newest`] do the same in two steps, and hold the cache no longer than they need it.
    pub fn get(&mut self, table: u64, block: u32) -> Option<&[u8]>
        ensures* brought { sem 𝓛 (cache_ends self.entry (λ kept. kept ≡ brought_first (table, block) self.old)) }
        ensures given { option_map (λ bytes. bytes.now) result ≡ kept_of (table, block) self.old }
    {
        if self.bring_first(table, block) {
            self.newest()
        } else {
            None
        }
    }

    /// Brings a block first, and answers whether it is kept. Takes no memory.
    pub fn bring_first(&mut self, table: u64, block: u32) -> bool
        ensures is_kept { result ≡ is_some (kept_of (table, block) self.old) }
        ensures brought { self.new ≡ brought_first (table, block) self.old }
    {
        self.kept.promote(&(table, block))
    }

    /// The bytes of the first block, which was asked for or kept last, or `None` where none is kept.
    pub fn newest(&self) -> Option<&[u8]>
        ensures { option_map (λ bytes. bytes.now) result ≡ option_map (λ first. first.1) (slice_get self.now 0) }
    {
        match self.kept.peek_mru() {
            Some((_, bytes)) => Some(bytes.as_slice()),
            None => None,
        }
    }

    /// The bytes of a block, as they were kept, or `None` where it is not. The order stays, and no memory is taken.
    pub fn peek(&self, table: u64, block: u32) -> Option<&[u8]>
        ensures { option_map (λ bytes. bytes.now) result ≡ kept_of (table, block) self.now }
    {
        match self.kept.peek(&(table, block)) {
            Some(bytes) => Some(bytes.as_slice()),
            None => None,
        }
    }

    /// Keeps a block: it is the first, an older one of the same numbers is gone, and else, where 64 are kept, the last.
    ///
    /// Where memory is refused, it hands the block back and changes nothing.
    pub fn keep(
        &mut self,
        table: u64,
        block: u32,
        bytes: BoxedSlice<u8>,
    ) -> Result<(), BoxedSlice<u8>>
        ensures kept { OnOk result (self.new ≡ with_kept (table, block) (boxed_slice_items bytes) self.old) }
        ensures returned { IfErr result (λ back. back ≡ bytes) }
        ensures unchanged { OnErr result (self.new ≡ self.old) }
    {
        match self.kept.put((table, block), bytes) {
            Ok(_) => Ok(()),
            Err(AllocFailed { value: (_, bytes) }) => Err(bytes),
        }
    }
}
