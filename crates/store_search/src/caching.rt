//! The blocks that gets keep, and the numbers of tables under which they keep them.
ghost use Rattle.std.specs.Prelude.{◌≡◌, is_some, None, IfOk, IfSome};
ghost use Rattle.std.specs.Option.{option_map};
ghost use Rattle.block_cache.specs.Kept.{brought_first, kept_of};
ghost use Rattle.block_model.specs.BlockReading.{block_fault};
ghost use Rattle.store_search.specs.Caching.{Cached, MayKeep, cache_number, none_cached, renumbered, said_by};

use block_cache::BlockCache;
use block_format::Block;
use std::alloc::{AllocError, Global};
use std::boxed::BoxedSlice;
use std::marker::Model;

/// The blocks that were kept last, under the numbers of their tables.
///
/// A number is that of the last table and how many tables are after: a table that is put before the others gets one that no
/// other had, and they keep theirs. Where tables go or come elsewhere, all are given numbers anew. So pages that are used again
/// never show a block of the table that had them before.
#[derive(Drop)]
pub struct CachedBlocks {
    cache: BlockCache,
    // the number of the last table
    first: u64,
}

impl Model for CachedBlocks {
    ghost use Rattle.store_search.specs.Caching.{AreSound, Cached};

    ghost Value = { Cached };

    ghost view = { λ b. record { kept = b.cache; first = b.first } };

    ghost invariant = { λ b. AreSound b.cache };
}

impl CachedBlocks {
    /// No block is kept yet. It takes the memory of the cache's map.
    pub fn new(alloc: Global) -> Result<CachedBlocks, AllocError>
        ensures { IfOk result (λ blocks. blocks ≡ none_cached) }
    {
        let cache = BlockCache::new(alloc)?;
        Ok(CachedBlocks { cache, first: 0 })
    }

    /// The number of a table after which that many are there. Once numbers have run out it is that of all tables that are read past
    /// the cache.
    pub fn number(&self, behind: usize) -> u64
        ensures { result ≡ cache_number self.now.first behind }
    {
        self.first.saturating_add(behind as u64)
    }

    /// Gives numbers anew, where there are a given number of tables: none that was given is one of theirs.
    pub fn renumber(&mut self, tables: usize)
        ensures { self.new ≡ renumbered self.old tables }
    {
        self.first = self.number(tables);
    }

    /// Whether a block is kept; it is then the first. No memory.
    pub fn has(&mut self, number: u64, block: u32) -> bool
        ensures is_kept { result ≡ is_some (kept_of (number, block) self.old.kept) }
        ensures brought { self.new ≡ record self.old { kept = brought_first (number, block) self.old.kept } }
    {
        self.cache.bring_first(number, block)
    }

    /// What a kept block says of a key: its value, or `Some(None)` for a tombstone. `None` where it has no entry of it, or is not
    /// kept. The value lies where it was kept.
    pub fn find<'a>(&'a self, number: u64, block: u32, key: &[u8]) -> Option<Option<&'a [u8]>>
        ensures { option_map (λ found. option_map (λ v. v.now) found) result ≡ said_by (kept_of (number, block) self.now.kept) key.now }
    {
        match self.cache.peek(number, block) {
            Some(bytes) => Block::find_in_sound(bytes, key),
            None => None,
        }
    }

    /// Keeps a copy of a block that breaks no rule. Without memory, or a number of its table, nothing is kept.
    pub fn keep(&mut self, alloc: Global, number: u64, block: u32, bytes: &[u8])
        requires { block_fault bytes.now ≡ None }
        ensures { MayKeep (number, block) bytes.now self.old self.new }
    {
        if number == u64::MAX {
            return;
        }
        if let Ok(copy) = BoxedSlice::from_slice(alloc, bytes) {
            let _ = self.cache.keep(number, block, copy);
        }
    }
}
