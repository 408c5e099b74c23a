//! A block in memory, and where a walk is in it.
ghost use Rattle.std.specs.Prelude.{◌≡◌, ◌<◌, ◌≤◌, ◌+◌, ◌==◌, [], length, vec_capacity, is_some, IsTrue, IfOk, IfErr, IfSome, OnOk, OnErr, None};
ghost use Rattle.std.specs.Option.{option_map};
ghost use Rattle.disk_trait.specs.World.{ReadMoves};
ghost use Rattle.entry_model.specs.Entries.{IsEntry, entry_of};
ghost use Rattle.block_model.specs.BlockReading.{block_in};
ghost use Rattle.block_model.specs.Places.{byte_of_page};
ghost use Rattle.block_format.specs.Walking.{kept_from};
ghost use Rattle.key_base.specs.Limits.{max_block_pages, page_bytes};
ghost use Rattle.table_file.specs.Faults.{HasReadCause, IsNotMemory};
ghost use Rattle.table_file.specs.Search.{IsGetFault, IsSoundBlock, bytes_at, page_at, row_at};
ghost use Rattle.table_file.specs.Walks.{first_of, others_of};

use crate::fault::TableFault;
use crate::table::Table;
use block_format::{BlockFormat, EntryWalk, ValuePlace, value_of};
use byte_fields::lengthen;
use disk_trait::Disk;
use filter_api::RangeFilter;
use key_base::{MAX_KEY_BYTES, PAGE_BYTES};
use std::alloc::{AllocError, Global};
use std::marker::Model;

// No entry.
const NO_WALK: EntryWalk = EntryWalk {
    format: BlockFormat::Prefixed,
    at: 0,
    end: 0,
    left: 0,
    key_length: 0,
};

/// The bytes of a block, seen as the entry at hand and those that are still to come, and for how many pages there is room.
#[derive(Drop)]
pub(crate) struct HeldBlock {
    // room for a block of a given number of pages; a given number of bytes as the largest one had that was read
    bytes: Vec<u8>,
    pages: u32,
    // the key at hand is at the front of it
    key: Vec<u8>,
    walk: EntryWalk,
    place: Option<Option<ValuePlace>>,
}

impl Model for HeldBlock {
    ghost use Rattle.std.specs.Prelude.{◌≡◌, ◌≤◌, ◌*◌, IfSome, length, vec_capacity};
    ghost use Rattle.std.specs.List.{AllByRecursion};
    ghost use Rattle.key_base.specs.Limits.{max_key_bytes, page_bytes};
    ghost use Rattle.entry_model.specs.Entries.{IsEntry};
    ghost use Rattle.block_format.specs.Walking.{LiesIn, StandsAfter, at_hand, key_held, walked};
    ghost use Rattle.table_file.specs.Walks.{BlockInHand};

    ghost Value = { BlockInHand };

    ghost view = { λ b. record { room = b.pages; now = at_hand b.place (key_held b.walk b.key.items) b.bytes.items; later = walked b.walk b.key.items b.bytes.items } };

    ghost invariant = { λ b. (page_bytes * b.pages ≤ vec_capacity b.bytes)
        × (length b.key.items ≡ max_key_bytes)
        × StandsAfter b.walk b.key.items b.bytes.items
        × IfSome b.place (λ v. LiesIn v b.bytes.items)
        × IfSome (at_hand b.place (key_held b.walk b.key.items) b.bytes.items) IsEntry
        × AllByRecursion IsEntry (walked b.walk b.key.items b.bytes.items) };
}

impl HeldBlock {
    /// No entry, and room for a block of a given number of pages and for a key.
    pub(crate) fn new(alloc: Global, pages: u32) -> Result<HeldBlock, AllocError>
        requires { pages ≤ max_block_pages }
        ensures { IfOk result (λ b. b ≡ record { room = pages; now = None; later = [] }) }
    {
        let bytes = Vec::with_capacity(alloc, PAGE_BYTES * pages as usize)?;
        let key = vec![in alloc; 0; MAX_KEY_BYTES]?;
        Ok(HeldBlock {
            bytes,
            pages,
            key,
            walk: NO_WALK,
            place: None,
        })
    }

    /// Whether no entry is still to come.
    pub(crate) fn is_empty(&self) -> bool
        ensures { result ≡ (length self.now.later == 0) }
    {
        self.walk.left == 0
    }

    /// Reads the block number `n` of a table and judges it. Its entries from a bound on are then still to come, and none
    /// is at hand; at `Err` it has none. One read, and no memory.
    pub(crate) fn read<F: RangeFilter, D: Disk>(
        &mut self,
        disk: &mut D,
        table: &Table<F>,
        n: u32,
        low: Option<&[u8]>,
    ) -> Result<(), TableFault>
        requires there { n < length table.now.index.rows }
        requires room { (row_at table.now.index.rows n).pages ≤ self.old.room }
        ensures room { self.new.room ≡ self.old.room }
        ensures none { self.new.now ≡ None }
        ensures emptied { OnErr result (self.new.later ≡ []) }
        ensures entries { IsTrue D.tells → OnOk result (self.new.later ≡ kept_from (option_map (λ k. k.now) low.entry) (block_in (bytes_at table.now n (D.world disk.old).seen.held))) }
        ensures some { low.entry ≡ None → OnOk result (1 ≤ length self.new.later) }
        ensures sound { IsTrue D.tells → IfOk result (λ _. IsSoundBlock table.now n (D.world disk.old).seen.held) }
        ensures never_memory { IfErr result IsNotMemory }
        ensures cause { IfErr result (HasReadCause (byte_of_page (page_at table.now n)) (D.world disk.old) (D.world disk.new)) }
        ensures fault { IsTrue D.tells → IfErr result (IsGetFault table.now n (D.world disk.old).seen.held) }
        ensures moves { ReadMoves 1 (D.world disk.old) (D.world disk.new) }
        ensures counted { IsTrue D.tells → OnOk result ((D.world disk.new).seen.reads ≡ (D.world disk.old).seen.reads + 1) }
    {
        self.walk = NO_WALK;
        self.place = None;
        lengthen(&mut self.bytes, table.block_bytes(n));
        let size = table.fetch(disk, n, &mut self.bytes)?;
        let walk = table.walk_read(n, &self.bytes[..size], low, &mut self.key)?;
        self.walk = walk;
        Ok(())
    }

    /// Takes the first entry that is still to come at hand, and answers whether there was one.
    pub(crate) fn step(&mut self) -> bool
        ensures room { self.new.room ≡ self.old.room }
        ensures said { result ≡ is_some self.new.now }
        ensures now { self.new.now ≡ first_of self.old.later }
        ensures later { self.new.later ≡ others_of self.old.later }
    {
        let place = self.walk.advance(&self.bytes, &mut self.key);
        self.place = place;
        place.is_some()
    }

    /// The entry at hand.
    pub(crate) fn entry(&self) -> Option<(&[u8], Option<&[u8]>)>
        ensures now { option_map (λ found. entry_of found.0.now (option_map (λ v. v.now) found.1)) result ≡ self.now.now }
        ensures sound { IfSome result (λ found. IsEntry (entry_of found.0.now (option_map (λ v. v.now) found.1))) }
    {
        match self.place {
            Some(place) => Some((self.walk.key(&self.key), value_of(place, &self.bytes))),
            None => None,
        }
    }
}
