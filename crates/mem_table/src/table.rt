//! The memory table.
ghost use Rattle.std.specs.Prelude.{◌≡◌, ◌+◌, ◌≤◌, ◌<◌, ℕ, List, [], ◌∷◌, ◌++◌, length, IfOk, OnOk, OnErr, IsTrue, ◌↔◌};
ghost use Rattle.std.specs.List.{AllByRecursion};
ghost use Rattle.std.specs.Option.{option_map};
ghost use Rattle.key_base.specs.ByteOrder.{IsBefore};
ghost use Rattle.range_model.specs.Ranges.{IsBound, range_of};
ghost use Rattle.range_model.specs.Sources.{Clears, ClearsKeys, alone, source_of, with_change};
ghost use Rattle.mem_table.specs.Table.{source_in};
ghost use Rattle.entry_model.specs.Entries as model;
ghost use Rattle.entry_model.specs.Newest.{with_entry, newest_entries, lookup, entries_from};
ghost use Rattle.entry_model.specs.Entries.{entry_of};

use crate::chunks::{Chunk, count_of, place_at, put, rest_from};
use crate::clearing::take_out;
use crate::cursor::MemCursor;
use crate::filling::{clears_one, entries_set, in_a_row, keep_last, sort};
use crate::prepared::PreparedClear;
use crate::search::{first_from, spot_of};
use entry_list::{Change, ChangeKind, Entry};
use key_base::compare;
use range_tombs::Ranges;
use std::alloc::{AllocError, Global};
use std::cmp::Ordering;
use std::marker::Model;

// No table has more entries, so that each has a place of 32 bits.
const MOST_ENTRIES: usize = 1 << 32;

/// The newest entry of each key, by rising keys, and deleted ranges: the entries as they were put, and beside them the order
/// of the places of those that no later range covers.
#[derive(Drop)]
pub struct MemTable {
    entries: Vec<Entry>,
    chunks: Vec<Chunk>,
    ranges: Ranges,
}

impl Model for MemTable {
    ghost use Rattle.std.specs.Prelude.{◌≤◌, vec_capacity, vec_len};
    ghost use Rattle.mem_table.specs.Table.{MemoryTable};
    ghost use Rattle.mem_table.specs.Chunks.{flat, in_order, Orders, spare_places};

    ghost Value = { MemoryTable };

    ghost view = { λ t. record { entries = in_order t.entries.items (flat t.chunks.items); ranges = t.ranges.ranges; spare = spare_places (vec_capacity t.entries) (vec_len t.entries) (vec_capacity t.chunks) (vec_len t.chunks); range_spare = t.ranges.spare } };

    ghost invariant = { λ t. Orders t.chunks.items t.entries.items × (vec_len t.entries ≤ vec_capacity t.entries) × (vec_len t.chunks ≤ vec_capacity t.chunks) };
}

impl MemTable {
    /// A table with no entry and no range. It takes no memory.
    pub fn new(alloc: Global) -> MemTable
        ensures entries { result.entries ≡ [] }
        ensures ranges { result.ranges ≡ [] }
    {
        MemTable {
            entries: Vec::new(alloc),
            chunks: Vec::new(alloc),
            ranges: Ranges::new(alloc),
        }
    }

    /// The table of the changes of a log, in the order of writing: of each key the last entry, moved and not copied, where no
    /// later range covers it.
    ///
    /// Where no change clears a range, one stable sort, which keys in rising or falling order spare; else they are set one by
    /// one. It takes memory for the order of the places, and meanwhile for as many entries again; where that is refused,
    /// there is no table and the changes are gone. It is refused too for more than 2^32 entries.
    pub fn fill(changes: Vec<Change>) -> Result<MemTable, AllocError>
        requires { AllByRecursion ClearsKeys changes.items }
        ensures { IfOk result (λ table. source_in table ≡ source_of changes.items) }
    {
        let alloc = *changes.allocator();
        if clears_one(&changes) {
            return MemTable::set_in_turn(alloc, changes);
        }
        MemTable::sorted(entries_set(alloc, changes)?)
    }

    // The table of entries in the order of writing, sorted at once.
    fn sorted(entries: Vec<Entry>) -> Result<MemTable, AllocError>
        ensures { IfOk result (λ table. source_in table ≡ alone (newest_entries entries.items)) }
    {
        let mut entries = entries;
        let alloc = *entries.allocator();
        sort(&mut entries)?;
        keep_last(&mut entries);
        if entries.len() > MOST_ENTRIES {
            return Err(AllocError);
        }
        let chunks = in_a_row(alloc, entries.len())?;
        let ranges = Ranges::new(alloc);
        Ok(MemTable {
            entries,
            chunks,
            ranges,
        })
    }

    // The table of changes that are set one by one.
    fn set_in_turn(alloc: Global, changes: Vec<Change>) -> Result<MemTable, AllocError>
        requires { AllByRecursion ClearsKeys changes.items }
        ensures { IfOk result (λ table. source_in table ≡ source_of changes.items) }
    {
        let mut table = MemTable::new(alloc);
        for change in changes {
            table.make(change)?;
        }
        Ok(table)
    }

    // Sets a change, with the memory for it.
    fn make(&mut self, change: Change) -> Result<(), AllocError>
        requires { ClearsKeys change }
        ensures { OnOk result (source_in self.new ≡ with_change (source_in self.old) change) }
    {
        match change.into_kind() {
            ChangeKind::Sets(entry) => {
                self.reserve()?;
                self.set(entry);
            }
            ChangeKind::Clears(range) => {
                if compare(range.lo(), range.hi()) == Ordering::Less {
                    let prepared = self.reserve_range(range.lo(), range.hi())?;
                    self.set_range(prepared);
                }
            }
        }
        Ok(())
    }

    /// How many entries it has, tombstones among them.
    pub fn len(&self) -> usize
        ensures { result ≡ length self.now.entries }
    {
        count_of(&self.chunks)
    }

    /// Whether it has none.
    pub fn is_empty(&self) -> bool
        ensures { IsTrue result ↔ (self.now.entries ≡ []) }
    {
        self.chunks.is_empty()
    }

    /// Its ranges: what they cover has no older value, but for the entries here, which win over them.
    pub fn ranges(&self) -> &Ranges
        ensures { result.now.ranges ≡ self.now.ranges }
    {
        &self.ranges
    }

    /// Takes all the memory that [`MemTable::set`] needs for an entry: copies of the key and the value, and a spare place.
    ///
    /// Where that is refused, the table is as it was; it is refused too where the table has 2^32 entries.
    pub fn reserve_for(&mut self, key: &[u8], value: Option<&[u8]>) -> Result<Entry, AllocError>
        ensures prepared { IfOk result (λ e. e ≡ entry_of key.now (option_map (λ v. v.now) value.entry)) }
        ensures spare { OnOk result (1 ≤ self.new.spare) }
        ensures more { self.old.spare ≤ self.new.spare }
        ensures kept { self.new.entries ≡ self.old.entries }
        ensures ranges { self.new.ranges ≡ self.old.ranges }
        ensures range_spare { self.new.range_spare ≡ self.old.range_spare }
        ensures unchanged { OnErr result (self.new ≡ self.old) }
    {
        let entry = Entry::new(*self.entries.allocator(), key, value)?;
        self.reserve()?;
        Ok(entry)
    }

    // Takes memory for one entry more, and for a chunk that its place may need.
    fn reserve(&mut self) -> Result<(), AllocError>
        ensures spare { OnOk result (1 ≤ self.new.spare) }
        ensures more { self.old.spare ≤ self.new.spare }
        ensures kept { self.new.entries ≡ self.old.entries }
        ensures ranges { self.new.ranges ≡ self.old.ranges }
        ensures range_spare { self.new.range_spare ≡ self.old.range_spare }
        ensures unchanged { OnErr result (self.new ≡ self.old) }
    {
        if self.entries.len() >= MOST_ENTRIES {
            return Err(AllocError);
        }
        self.entries.reserve(1)?;
        self.chunks.reserve(1)
    }

    /// Sets an entry: in the place of an older one of its key, or at the place of its key between the others.
    ///
    /// It cannot fail and takes no memory. A binary search; for a new key, at most 256 numbers of 32 bits are moved, and
    /// once in 128 such times at most as many chunks of them as there are.
    pub fn set(&mut self, entry: Entry)
        requires { 1 ≤ self.old.spare }
        ensures set { self.new.entries ≡ with_entry self.old.entries entry }
        ensures ranges { self.new.ranges ≡ self.old.ranges }
        ensures range_spare { self.new.range_spare ≡ self.old.range_spare }
        ensures newest { (older : List model.Entry) → self.old.entries ≡ newest_entries older → self.new.entries ≡ newest_entries (older ++ entry ∷ []) }
        ensures room { self.old.spare + length self.old.entries ≤ self.new.spare + length self.new.entries }
    {
        match spot_of(&self.entries, &self.chunks, entry.key()) {
            Ok(spot) => {
                let place = place_at(&self.chunks, spot);
                self.entries[place as usize] = entry;
            }
            Err(spot) => {
                let place = self.entries.len() as u32;
                self.entries.push_reserved(entry);
                put(&mut self.chunks, spot, place);
            }
        }
    }

    /// Takes all the memory that [`MemTable::set_range`] needs for a range: copies of its bounds, a tombstone of the lower one,
    /// and a spare place for each.
    ///
    /// Where that is refused, the entries and ranges are as they were; it is refused too where the table has 2^32 entries.
    pub fn reserve_range(&mut self, lo: &[u8], hi: &[u8]) -> Result<PreparedClear, AllocError>
        requires range { IsBefore lo.now hi.now }
        requires lo { IsBound lo.now }
        requires hi { IsBound hi.now }
        ensures prepared { IfOk result (λ range. range ≡ range_of lo.now hi.now) }
        ensures spare { OnOk result (1 ≤ self.new.spare) }
        ensures range_spare { OnOk result (1 ≤ self.new.range_spare) }
        ensures more { self.old.spare ≤ self.new.spare }
        ensures more_ranges { self.old.range_spare ≤ self.new.range_spare }
        ensures kept { self.new.entries ≡ self.old.entries }
        ensures ranges { self.new.ranges ≡ self.old.ranges }
    {
        let tombstone = Entry::new(*self.entries.allocator(), lo, None)?;
        let range = self.ranges.reserve_for(lo, hi)?;
        self.reserve()?;
        Ok(PreparedClear::new(tombstone, range))
    }

    /// Deletes the keys of a range: the entries that it covers go, its first key gets a tombstone, and it joins the ranges.
    ///
    /// It cannot fail and takes no memory. One pass over the order of the places: the entries that go stay in memory until
    /// the next [`MemTable::clear`].
    pub fn set_range(&mut self, range: PreparedClear)
        requires spare { 1 ≤ self.old.spare }
        requires range_spare { 1 ≤ self.old.range_spare }
        ensures set { source_in self.new ≡ with_change (source_in self.old) (Clears range) }
        ensures room { self.old.spare ≤ self.new.spare + 1 }
        ensures range_room { self.old.range_spare ≤ self.new.range_spare + 1 }
    {
        let (tombstone, range) = range.into_parts();
        take_out(&self.entries, &mut self.chunks, range.lo(), range.hi());
        self.ranges.add(range);
        self.set(tombstone);
    }

    /// What the newest entry of the key says: its value, or `Some(None)` for a tombstone. `None` where the key has no
    /// entry: then a range of the table may cover it, and else the table says nothing of it, and an older one may.
    ///
    /// Takes no memory.
    pub fn get(&self, key: &[u8]) -> Option<Option<&[u8]>>
        ensures { option_map (λ found. option_map (λ v. v.now) found) result ≡ lookup self.now.entries key.now }
    {
        match spot_of(&self.entries, &self.chunks, key) {
            Ok(spot) => {
                let place = place_at(&self.chunks, spot);
                let entry = &self.entries[place as usize];
                Some(entry.value())
            }
            Err(_) => None,
        }
    }

    /// The entries whose keys are `low` or more, in order. Takes no memory.
    pub fn cursor(&self, low: &[u8]) -> MemCursor<'_>
        ensures { result ≡ entries_from self.now.entries low.now }
    {
        let spot = first_from(&self.entries, &self.chunks, low);
        let (here, behind) = rest_from(&self.chunks, spot);
        MemCursor::new(&self.entries, here, behind)
    }

    /// Takes all entries and ranges away, and keeps the spare places. Takes no memory.
    pub fn clear(&mut self)
        ensures empty { self.new.entries ≡ [] }
        ensures no_range { self.new.ranges ≡ [] }
        ensures room { self.old.spare ≤ self.new.spare }
        ensures range_room { self.old.range_spare ≤ self.new.range_spare }
    {
        self.entries.clear();
        self.chunks.clear();
        self.ranges.clear();
    }
}
