//! A table that is built entry by entry.
ghost use Rattle.std.specs.Prelude.{◌≡◌, ◌≢◌, None, true, false, ◌==◌, Option, ◌+◌, ◌*◌, ◌-◌, ◌<◌, ◌^◌, ◌++◌, [], ◌∷◌, List, length, IfOk, OnOk, OnErr};
ghost use Rattle.std.specs.List.{AllByRecursion};
ghost use Rattle.std.specs.Option.{option_map};
ghost use Rattle.entry_model.specs.Newest.{lookup};
ghost use Rattle.range_model.specs.Sources.{BeginsAtOne};
ghost use Rattle.entry_model.specs.Entries.{IsEntry, entry_of, keys_of};
ghost use Rattle.map_model.specs.SortedMap.{Bytes};
ghost use Rattle.entry_model.specs.Entries as model;
ghost use Rattle.block_model.specs.Block.{IsBlock, block_bytes};
ghost use Rattle.block_model.specs.Formats.{Prefixed};
ghost use Rattle.block_model.specs.Index.{row_pages};
ghost use Rattle.block_model.specs.Order.{Follow, is_any};
ghost use Rattle.block_model.specs.Pages.{data_pages, last_key, page_bytes};
ghost use Rattle.filter_api.specs.Ranges.{InRange};
ghost use Rattle.table_file.specs.BlockRows.{StandFrom, rows_seen, unsummed_row_of};

use crate::block_row::BlockRow;
use crate::index::BlockIndex;
use crate::parts::Parts;
use crate::summing::sum_blocks;
use block_format::BlockBuilder;
use filter_api::{RangeFilter, Settings};
use key_base::{KeyList, PAGE_BYTES, compare};
use range_tombs::Ranges;
use std::alloc::{AllocError, Global};
use std::marker::Model;
use std::mem;

// The most entries of a table: a row counts them in four bytes.
const MOST_ENTRIES: usize = 4_294_967_295;

// The most ranges of one: its index counts them in four bytes.
const MOST_RANGES: usize = 4_294_967_295;

// The bytes of a key that is a number.
const NUMBER_BYTES: usize = 8;

/// A table that is built entry by entry, seen as its entries so far, its ranges and the settings of its filter.
#[derive(Drop)]
pub struct TableBuilder {
    settings: Settings,
    // the bytes of the closed blocks, and what the index keeps of each
    blocks: Vec<u8>,
    rows: Vec<BlockRow>,
    open: BlockBuilder,
    // the next block, while the open one is closed
    spare: BlockBuilder,
    // the keys of all entries
    keys: KeyList,
    ranges: Ranges,
}

impl Model for TableBuilder {
    ghost use Rattle.std.specs.Prelude.{◌≡◌, []};
    ghost use Rattle.block_model.specs.Index.{AreIndexRanges};
    ghost use Rattle.filter_api.specs.Ranges.{InRange};
    ghost use Rattle.table_file.specs.BlockRows.{StandFrom, rows_seen};
    ghost use Rattle.table_file.specs.Building.{Built, Holds, closed_in, entries_with};

    ghost Value = { Built };

    ghost view = { λ b. record { settings = b.settings; entries = entries_with (closed_in (rows_seen b.rows.items) b.blocks.items) b.«open»; ranges = b.ranges.ranges } };

    ghost invariant = { λ b. InRange b.settings
        × StandFrom 0 b.rows.items
        × Holds (closed_in (rows_seen b.rows.items) b.blocks.items) b.blocks.items (rows_seen b.rows.items) b.«open» b.keys
        × (b.spare ≡ [])
        × AreIndexRanges b.ranges.ranges };
}

impl TableBuilder {
    /// No entry, and no memory taken.
    pub fn new(alloc: Global, settings: Settings) -> Self
        requires { InRange settings }
        ensures { result ≡ record { settings = settings; entries = []; ranges = [] } }
    {
        TableBuilder {
            settings,
            blocks: Vec::new(alloc),
            rows: Vec::new(alloc),
            open: BlockBuilder::new(alloc),
            spare: BlockBuilder::new(alloc),
            keys: KeyList::new(alloc),
            ranges: Ranges::new(alloc),
        }
    }

    /// No entry, and room for blocks of a given number of pages, where there is memory for them: they need not be moved as they grow.
    pub fn with_room(alloc: Global, settings: Settings, pages: u32) -> Self
        requires { InRange settings }
        ensures { result ≡ record { settings = settings; entries = []; ranges = [] } }
    {
        TableBuilder {
            settings,
            blocks: room_for(alloc, pages),
            rows: Vec::new(alloc),
            open: BlockBuilder::new(alloc),
            spare: BlockBuilder::new(alloc),
            keys: KeyList::new(alloc),
            ranges: Ranges::new(alloc),
        }
    }

    /// Adds an entry, `None` for a tombstone's value. The key has 1 to 1,024 bytes and is
    /// [above all others](TableBuilder::is_above_all), the value at most 1,048,576 bytes. Without memory nothing is added, and
    /// none after 2^32 - 1 others, since a row counts them in four bytes.
    ///
    /// It copies the key and the value.
    pub fn add(&mut self, key: &[u8], value: Option<&[u8]>) -> Result<(), AllocError>
        requires sound { IsEntry (entry_of key.now (option_map (λ v. v.now) value)) }
        requires rising { Follow is_any (keys_of (self.old.entries ++ entry_of key.now (option_map (λ v. v.now) value) ∷ [])) }
        ensures added { OnOk result (self.new ≡ record self.old { entries = self.old.entries ++ entry_of key.now (option_map (λ v. v.now) value.entry) ∷ [] }) }
        ensures unchanged { OnErr result (self.new ≡ self.old) }
    {
        if self.is_full() {
            return Err(AllocError);
        }
        let others = self.keys.len();
        push_key(&mut self.keys, key)?;
        match self.open.add(key, value) {
            Ok(true) => return Ok(()),
            Ok(false) => {}
            Err(fault) => {
                self.keys.truncate(others);
                return Err(fault);
            }
        }
        if let Err(fault) = begin(&mut self.spare, key, value) {
            self.keys.truncate(others);
            return Err(fault);
        }
        let last = self.keys.get(others - 1);
        match close_block(&mut self.open, last, &mut self.blocks, &mut self.rows) {
            Ok(()) => {
                mem::swap(&mut self.open, &mut self.spare);
                Ok(())
            }
            // without memory the block that is begun goes, and all else stays as it was
            Err(fault) => {
                self.spare.clear();
                self.keys.truncate(others);
                Err(fault)
            }
        }
    }

    /// The ranges of keys that the table deletes in older ones, in the place of any that were set before. Without memory, and of
    /// 2^32 ranges or more, since an index counts them in four bytes, all stays as it was.
    ///
    /// It copies them.
    pub fn set_ranges(&mut self, ranges: &Ranges) -> Result<(), AllocError>
        ensures set { OnOk result (self.new ≡ record self.old { ranges = ranges.now.ranges }) }
        ensures unchanged { OnErr result (self.new ≡ self.old) }
    {
        if ranges.len() > MOST_RANGES {
            return Err(AllocError);
        }
        self.ranges = ranges.copied()?;
        Ok(())
    }

    // Whether a row could count no more entries.
    fn is_full(&self) -> bool
        ensures { result ≡ false → length self.now.entries < 2 ^ 32 - 1 }
    {
        self.keys.len() >= MOST_ENTRIES
    }

    /// Whether no entry was added.
    pub fn is_empty(&self) -> bool
        ensures { result ≡ (length self.now.entries == 0) }
    {
        self.keys.is_empty()
    }

    /// Whether a key is above those of all entries, exactly as [`add`](TableBuilder::add) asks. The entries rise already.
    pub fn is_above_all(&self, key: &[u8]) -> bool
        ensures above { (value : Option Bytes) → result ≡ true → Follow is_any (keys_of (self.now.entries ++ entry_of key.now value ∷ [])) }
        ensures all { (value : Option Bytes) → Follow is_any (keys_of (self.now.entries ++ entry_of key.now value ∷ [])) → result ≡ true }
    {
        if self.keys.is_empty() {
            return true;
        }
        compare(last_of(&self.keys), key).is_lt()
    }

    /// Whether each range begins at the key of an entry, as [`finish`](TableBuilder::finish) asks. It looks through the keys
    /// for each of them.
    pub fn begins_at_keys(&self) -> bool
        ensures { result ≡ true → AllByRecursion (BeginsAtOne self.now.entries) self.now.ranges }
    {
        all_begin(&self.ranges, &self.keys)
    }

    /// The parts of the table of the entries, one or more, and of the ranges, each of which begins at the key of an entry.
    ///
    /// It closes the last block, sums all of them, builds the filter, and spells index and filter.
    pub fn finish<F: RangeFilter>(self) -> Result<Parts<F>, AllocError>
        requires some { 0 < length self.entries }
        requires begin { AllByRecursion (BeginsAtOne self.entries) self.ranges }
        ensures { IfOk result (λ p. p ≡ self) }
    {
        let TableBuilder {
            settings,
            mut blocks,
            mut rows,
            mut open,
            keys,
            ranges,
            ..
        } = self;
        let alloc = *blocks.allocator();
        close_block(&mut open, last_of(&keys), &mut blocks, &mut rows)?;
        sum_blocks(&blocks, &mut rows);
        let least = Vec::from_slice(alloc, keys.get(0))?;
        Parts::new(
            alloc,
            settings,
            blocks,
            BlockIndex::new(least, rows, ranges),
            &keys,
        )
    }

    /// How many pages the blocks of the entries take that were added so far.
    pub fn data_pages(&self) -> u64
        ensures { result ≡ data_pages self.now.entries }
    {
        let closed = (self.blocks.len() / PAGE_BYTES) as u64;
        if self.open.is_empty() {
            return closed;
        }
        closed + self.open.pages()
    }
}

// No byte, and room for a given number of pages, where there is memory for them.
fn room_for(alloc: Global, pages: u32) -> Vec<u8>
    ensures { result.items ≡ [] }
{
    match Vec::with_capacity(alloc, PAGE_BYTES * pages as usize) {
        Ok(bytes) => bytes,
        Err(_) => Vec::new(alloc),
    }
}

// The last of some keys: those of entries, of which the last ones are not none.
fn last_of(keys: &KeyList) -> &[u8]
    requires { 0 < length keys.now }
    ensures { (before behind : List model.Entry) → 0 < length behind → keys_of (before ++ behind) ≡ keys.now → result.now ≡ last_key behind }
{
    keys.get(keys.len() - 1)
}

// Whether each range begins at one of some keys.
fn all_begin(ranges: &Ranges, keys: &KeyList) -> bool
    ensures { (entries : List model.Entry) → result ≡ true → keys_of entries ≡ keys.now → AllByRecursion (BeginsAtOne entries) ranges.now.ranges }
{
    for i in 0..ranges.len() {
        if !has_key(keys, ranges.get(i).0) {
            return false;
        }
    }
    true
}

// Whether a key is one of some.
fn has_key(keys: &KeyList, key: &[u8]) -> bool
    ensures { (entries : List model.Entry) → result ≡ true → keys_of entries ≡ keys.now → lookup entries key.now ≢ None }
{
    for i in 0..keys.len() {
        if keys.get(i) == key {
            return true;
        }
    }
    false
}

// Adds a key. Many keys are numbers of eight bytes: these are moved at once, with no call.
#[inline(always)]
fn push_key(keys: &mut KeyList, key: &[u8]) -> Result<(), AllocError>
    ensures added { OnOk result (keys.new ≡ keys.old ++ key.now ∷ []) }
    ensures unchanged { OnErr result (keys.new ≡ keys.old) }
{
    if key.len() == NUMBER_BYTES {
        return keys.push(&key[..NUMBER_BYTES]);
    }
    keys.push(key)
}

// Begins a block with an entry. It stays out of its caller, which mostly adds to the open block.
#[inline(never)]
fn begin(spare: &mut BlockBuilder, key: &[u8], value: Option<&[u8]>) -> Result<(), AllocError>
    requires sound { IsEntry (entry_of key.now (option_map (λ v. v.now) value)) }
    requires none { spare.old ≡ [] }
    ensures begun { OnOk result (spare.new ≡ entry_of key.now (option_map (λ v. v.now) value.entry) ∷ []) }
    ensures unchanged { OnErr result (spare.new ≡ []) }
{
    spare.add(key, value)?;
    Ok(())
}

// Appends a block to those that are closed, and its row to theirs, with no sum yet. Without memory all stays as it was.
#[inline(never)]
fn close_block(
    open: &mut BlockBuilder,
    last: &[u8],
    blocks: &mut Vec<u8>,
    rows: &mut Vec<BlockRow>,
) -> Result<(), AllocError>
    requires sound { IsBlock Prefixed «open».old }
    requires last { last.now ≡ last_key «open».old }
    requires whole { length blocks.old.items ≡ page_bytes * row_pages (rows_seen rows.old.items) }
    requires stand { StandFrom 0 rows.old.items }
    ensures written { OnOk result (blocks.new.items ≡ blocks.old.items ++ block_bytes «open».old) }
    ensures kept { OnOk result (rows_seen rows.new.items ≡ rows_seen rows.old.items ++ unsummed_row_of «open».old ∷ []) }
    ensures stand { OnOk result (StandFrom 0 rows.new.items) }
    ensures emptied { OnOk result («open».new ≡ []) }
    ensures same_blocks { OnErr result (blocks.new.items ≡ blocks.old.items) }
    ensures same_rows { OnErr result (rows.new.items ≡ rows.old.items) }
    ensures unchanged { OnErr result («open».new ≡ «open».old) }
{
    let at = blocks.len();
    let pages = open.pages() as u32;
    let last = Vec::from_slice(*blocks.allocator(), last)?;
    rows.reserve(1)?;
    open.close(blocks)?;
    rows.push_reserved(BlockRow {
        first: (at / PAGE_BYTES) as u64,
        pages,
        sum: 0,
        last,
    });
    Ok(())
}
