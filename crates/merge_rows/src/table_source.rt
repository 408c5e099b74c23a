//! A walk over a table as a source.
ghost use Rattle.std.specs.Prelude.{◌≡◌, ◌==◌, ◌<◌, ◌≤◌, ◌+◌, ◌-◌, ◌&&◌, true, false, not, length, Option, Some, None, is_some, IsTrue, IfSome, IfOk, IfErr, OnOk};
ghost use Rattle.std.specs.List.{list_any};
ghost use Rattle.std.specs.Option.{option_map};
ghost use Rattle.block_model.specs.Places.{byte_of_page};
ghost use Rattle.disk_trait.specs.World.{ReadMoves};
ghost use Rattle.entry_model.specs.Entries.{IsEntry, entry_of};
ghost use Rattle.key_base.specs.ByteOrder.{is_before};
ghost use Rattle.merge_rows.specs.CatchingUp.{CatchesUp, CatchesUpOne};
ghost use Rattle.merge_rows.specs.Filling.{AsksWalks, FillsWalks};
ghost use Rattle.merge_rows.specs.Leads.{key_at_hand, lead_of};
ghost use Rattle.merge_rows.specs.Merges.{blocks_in, left_above, numbered, walk_at, walk_left, with_hand};
ghost use Rattle.merge_rows.specs.Reads.{BlockOf, HasReadAll, IsFewer, IsRead, PassesSound, blocks_left_in, is_used_up, ones, wanted_block_of};
ghost use Rattle.merge_rows.specs.Rows.{above_floor};
ghost use Rattle.merge_rows.specs.Steps.{AreWalksIn, HasRoomFor, IsCaughtUp, IsHeadClear, IsPassed, IsSoundWalk, numbers, stands};
ghost use Rattle.table_file.specs.Faults.{HasReadCause, IsNotMemory};
ghost use Rattle.table_file.specs.Search.{IsGetFault, page_at};
ghost use Rattle.table_file.specs.Walks.{blocks_on, is_due, most_block_pages, to_come};

use crate::floor::Floor;
use crate::leads::{compare_alike, lead_of};
use disk_trait::Disk;
use filter_api::RangeFilter;
use std::alloc::{AllocError, Global};
use std::marker::Model;
use table_file::{Table, TableCursor, TableFault, Tables};

/// A walk over the table of a number, which counts from the last table.
#[derive(Drop)]
pub(crate) struct TableSource {
    number: u32,
    walk: TableCursor,
    // the lead of the key at hand, 0 where none is
    lead: u64,
}

impl Model for TableSource {
    ghost use Rattle.std.specs.Prelude.{◌≡◌};
    ghost use Rattle.byte_fields.specs.Spelling.{IsBytes};
    ghost use Rattle.merge_rows.specs.Leads.{key_at_hand, lead_of};
    ghost use Rattle.merge_rows.specs.Merges.{TableWalk};

    ghost Value = { TableWalk };

    ghost view = { λ s. record { number = s.number; walk = s.walk } };

    ghost invariant = { λ s. (s.lead ≡ lead_of (key_at_hand s.walk.now)) × IsBytes (key_at_hand s.walk.now) };
}

impl TableSource {
    /// A walk over that table from a bound on. It takes all the memory that the walk needs; no read.
    pub(crate) fn new<F: RangeFilter>(
        alloc: Global,
        number: u32,
        tables: &Tables<F>,
        low: &[u8],
    ) -> Result<TableSource, AllocError>
        requires { number < length tables.now.tables }
        ensures { IfOk result (λ s. s ≡ record { number = number; walk = walk_at (numbered tables.now.tables number) low.now }) }
    {
        let walk = table_of(number, tables).cursor(alloc, low)?;
        Ok(TableSource {
            number,
            walk,
            lead: 0,
        })
    }

    /// The key and the value of the entry at hand, `None` for a tombstone's value, or `None` where none is.
    pub(crate) fn entry(&self) -> Option<(&[u8], Option<&[u8]>)>
        ensures now { option_map (λ found. entry_of found.0.now (option_map (λ v. v.now) found.1)) result ≡ self.now.walk.now }
        ensures sound { IfSome result (λ found. IsEntry (entry_of found.0.now (option_map (λ v. v.now) found.1))) }
    {
        self.walk.entry()
    }

    /// Whether an entry is at hand.
    pub(crate) fn has_entry(&self) -> bool
        ensures { result ≡ is_some self.now.walk.now }
    {
        self.lead != 0 || self.entry().is_some()
    }

    /// Whether the key at hand is before that of another walk. A walk with none at hand counts as one at the key of no byte.
    pub(crate) fn is_before(&self, other: &TableSource) -> bool
        ensures { result ≡ is_before (key_at_hand self.now.walk.now) (key_at_hand other.now.walk.now) }
    {
        if self.lead != other.lead {
            return self.lead < other.lead;
        }
        self.is_before_alike(other)
    }

    // So where both keys have the same lead. It stays out of its caller: most keys differ in their leads.
    #[inline(never)]
    fn is_before_alike(&self, other: &TableSource) -> bool
        requires { lead_of (key_at_hand self.now.walk.now) ≡ lead_of (key_at_hand other.now.walk.now) }
        ensures { result ≡ is_before (key_at_hand self.now.walk.now) (key_at_hand other.now.walk.now) }
    {
        compare_alike(key_of(self.entry()), key_of(other.entry())).is_lt()
    }

    /// Whether the key at hand is before another one. A walk with none at hand counts as one at the key of no byte.
    pub(crate) fn is_before_key(&self, other: &[u8]) -> bool
        ensures { result ≡ is_before (key_at_hand self.now.walk.now) other.now }
    {
        let lead = lead_of(other);
        if self.lead != lead {
            return self.lead < lead;
        }
        compare_alike(key_of(self.entry()), other).is_lt()
    }

    // Whether an entry above the floor is at hand.
    fn is_ready(&self, floor: &Floor) -> bool
        ensures { result ≡ not (is_used_up floor.now self.now.walk.now) }
    {
        let passed = floor.lead();
        if passed != self.lead {
            return passed < self.lead;
        }
        match self.entry() {
            Some((key, _)) => floor.clears_alike(key),
            None => false,
        }
    }

    // Whether the lead of the key at hand is above the floor's. Then the key is; if not, it may be too.
    fn leads(&self, floor: &Floor) -> bool
        ensures { result ≡ true → is_used_up floor.now self.now.walk.now ≡ false }
    {
        floor.lead() < self.lead
    }

    // Passes over the entries in memory that are not above the floor, and answers whether a block is wanted then. No read.
    #[inline(always)]
    fn pass_over<F: RangeFilter, D: Disk>(
        &mut self,
        disk: &mut D,
        table: &Table<F>,
        floor: &Floor,
    ) -> bool
        requires { most_block_pages table.now.index.rows ≤ self.old.walk.room }
        ensures room { self.new.walk.room ≡ self.old.walk.room }
        ensures number { self.new.number ≡ self.old.number }
        ensures same { IsTrue D.tells → above_floor floor.now (with_hand self.new.walk.now (to_come self.new.walk (blocks_on table.now (D.world disk.old).seen.held)))
            ≡ above_floor floor.now (with_hand self.old.walk.now (to_come self.old.walk (blocks_on table.now (D.world disk.old).seen.held))) }
        ensures wanted { result ≡ (is_used_up floor.now self.new.walk.now && is_due self.new.walk (length table.now.index.rows)) }
        ensures caught_up { IsTrue D.tells → result ≡ false → IsCaughtUp floor.now self.new.walk.now (with_hand self.new.walk.now (to_come self.new.walk (blocks_on table.now (D.world disk.old).seen.held))) }
        ensures heads_pass { result ≡ false → IsHeadClear floor.now self.new.walk.now }
        ensures read_all { result ≡ false → self.new.walk.now ≡ None → length table.now.index.rows ≤ self.new.walk.block }
        ensures still { (is_used_up floor.now self.old.walk.now && is_due self.old.walk (length table.now.index.rows)) ≡ true → (result ≡ true) × (self.new ≡ self.old) }
        ensures settled { is_used_up floor.now self.old.walk.now ≡ false → (result ≡ false) × (self.new ≡ self.old) }
        ensures once { IsTrue D.tells → IsSoundWalk floor.now self.old.walk (blocks_on table.now (D.world disk.old).seen.held)
            → result ≡ (is_used_up floor.now self.old.walk.now && is_due self.old.walk (length table.now.index.rows)) }
        ensures sound { IsTrue D.tells → IsSoundWalk floor.now self.old.walk (blocks_on table.now (D.world disk.old).seen.held) → IsSoundWalk floor.now self.new.walk (blocks_on table.now (D.world disk.old).seen.held) }
        ensures block { self.new.walk.block ≡ self.old.walk.block }
        ensures moves { ReadMoves 0 (D.world disk.old) (D.world disk.new) }
    {
        while !self.is_ready(floor) {
            if self.walk.due(table) {
                return true;
            }
            match self.walk.advance(disk, table) {
                Ok(true) => self.lead = lead_of(key_of(self.walk.entry())),
                Ok(false) => {
                    self.lead = 0;
                    return false;
                }
                // where no block is due, none is read
                Err(_) => unreachable!(),
            }
        }
        false
    }

    // Passes over the entries in memory that are not above the floor, and answers whether a block is wanted then. No read and
    // no memory.
    fn pass<F: RangeFilter, D: Disk>(
        &mut self,
        disk: &mut D,
        tables: &Tables<F>,
        floor: &Floor,
    ) -> bool
        requires there { self.old.number < length tables.now.tables }
        requires room { HasRoomFor (numbered tables.now.tables self.old.number) self.old.walk.room }
        ensures number { self.new.number ≡ self.old.number }
        ensures room { self.new.walk.room ≡ self.old.walk.room }
        ensures same { IsTrue D.tells → left_above floor.now tables.now.tables (D.world disk.old).seen.held self.new ≡ left_above floor.now tables.now.tables (D.world disk.old).seen.held self.old }
        ensures sound { IsTrue D.tells → IsSoundWalk floor.now self.old.walk (blocks_in (numbered tables.now.tables self.old.number) (D.world disk.old).seen.held)
            → IsSoundWalk floor.now self.new.walk (blocks_in (numbered tables.now.tables self.old.number) (D.world disk.old).seen.held) }
        ensures block { self.new.walk.block ≡ self.old.walk.block }
        ensures wanted { IsTrue D.tells → IsSoundWalk floor.now self.old.walk (blocks_in (numbered tables.now.tables self.old.number) (D.world disk.old).seen.held)
            → wanted_block_of floor.now tables.now.tables self.new ≡ wanted_block_of floor.now tables.now.tables self.old }
        ensures asked { wanted_block_of floor.now tables.now.tables self.new ≡ ones result }
        ensures caught_up { IsTrue D.tells → result ≡ false → IsCaughtUp floor.now self.new.walk.now (walk_left tables.now.tables (D.world disk.old).seen.held self.new) }
        ensures heads_pass { result ≡ false → IsHeadClear floor.now self.new.walk.now }
        ensures read_all { result ≡ false → HasReadAll tables.now.tables self.new }
        ensures moves { ReadMoves 0 (D.world disk.old) (D.world disk.new) }
    {
        let table = table_of(self.number, tables);
        self.pass_over(disk, table, floor)
    }

    /// Passes over the entries in memory that are not above the floor, and reads a block where none is left then: the next one.
    /// Answers whether it read. If not, an entry above the floor is at hand, or none is left. No memory.
    ///
    /// Where blocks do not rise, which those of a sound table do, no entry above the floor may be at hand after a read. At
    /// `Err` no entry above the floor is lost.
    //
    // Most walks lead and need none, which the caller asks first: the question goes into each step, the rest into none.
    #[inline(never)]
    pub(crate) fn fill<F: RangeFilter, D: Disk>(
        &mut self,
        disk: &mut D,
        tables: &Tables<F>,
        floor: &Floor,
    ) -> Result<bool, TableFault>
        requires there { self.old.number < length tables.now.tables }
        requires room { HasRoomFor (numbered tables.now.tables self.old.number) self.old.walk.room }
        ensures number { self.new.number ≡ self.old.number }
        ensures room { self.new.walk.room ≡ self.old.walk.room }
        ensures same { IsTrue D.tells → left_above floor.now tables.now.tables (D.world disk.old).seen.held self.new ≡ left_above floor.now tables.now.tables (D.world disk.old).seen.held self.old }
        ensures caught_up { IsTrue D.tells → IfOk result (λ read. read ≡ false → IsCaughtUp floor.now self.new.walk.now (walk_left tables.now.tables (D.world disk.old).seen.held self.new)) }
        ensures heads_pass { IfOk result (λ read. read ≡ false → IsHeadClear floor.now self.new.walk.now) }
        ensures sound { IsTrue D.tells → IsSoundWalk floor.now self.old.walk (blocks_in (numbered tables.now.tables self.old.number) (D.world disk.old).seen.held)
            → IsSoundWalk floor.now self.new.walk (blocks_in (numbered tables.now.tables self.old.number) (D.world disk.old).seen.held) }
        ensures read_sound { IsTrue D.tells → PassesSound tables.now.tables (D.world disk.old).seen.held self.old self.new }
        ensures done { IfOk result (λ read. read ≡ false → wanted_block_of floor.now tables.now.tables self.new ≡ 0) }
        ensures read_all { IfOk result (λ read. read ≡ false → HasReadAll tables.now.tables self.new) }
        ensures never_memory { IfErr result IsNotMemory }
        ensures cause { IfErr result (λ why. BlockOf tables.now.tables self.old.number (λ t n. HasReadCause (byte_of_page (page_at t n)) (D.world disk.old) (D.world disk.new) why)) }
        ensures fault { IsTrue D.tells → IfErr result (λ why. BlockOf tables.now.tables self.old.number (λ t n. IsGetFault t n (D.world disk.old).seen.held why)) }
        ensures moves { ReadMoves 2 (D.world disk.old) (D.world disk.new) }
        ensures idle { IfOk result (λ read. read ≡ false → ReadMoves 0 (D.world disk.old) (D.world disk.new)) }
        ensures counted { IsTrue D.tells → OnOk result ((D.world disk.new).seen.reads + self.old.walk.block ≡ (D.world disk.old).seen.reads + self.new.walk.block) }
        ensures left { IsRead result (blocks_left_in tables.now.tables self.old) (blocks_left_in tables.now.tables self.new) }
        ensures once { IsTrue D.tells → IsSoundWalk floor.now self.old.walk (blocks_in (numbered tables.now.tables self.old.number) (D.world disk.old).seen.held)
            → ReadMoves 1 (D.world disk.old) (D.world disk.new) × IsFewer result (wanted_block_of floor.now tables.now.tables self.old) (wanted_block_of floor.now tables.now.tables self.new) }
    {
        let table = table_of(self.number, tables);
        if !self.pass_over(disk, table, floor) {
            return Ok(false);
        }
        let answer = self.walk.advance(disk, table);
        self.lead = lead_of(key_of(self.walk.entry()));
        match answer {
            Ok(_) => Ok(true),
            Err(why) => Err(why),
        }
    }

    /// Goes on to its first entry above the floor, or to its end. No memory.
    ///
    /// At `Err` no entry above the floor is lost.
    //
    // Most walks lead, and are at it: the question goes into each step, the rest into none.
    #[inline(always)]
    pub(crate) fn catch_up<F: RangeFilter, D: Disk>(
        &mut self,
        disk: &mut D,
        tables: &Tables<F>,
        floor: &Floor,
    ) -> Result<(), TableFault>
        requires there { self.old.number < length tables.now.tables }
        requires room { HasRoomFor (numbered tables.now.tables self.old.number) self.old.walk.room }
        ensures { CatchesUp D.tells floor.now tables.now.tables self.old self.new result (D.world disk.old) (D.world disk.new) }
    {
        while !self.leads(floor) {
            match self.fill(disk, tables, floor) {
                Ok(true) => {}
                Ok(false) => return Ok(()),
                Err(why) => return Err(why),
            }
        }
        Ok(())
    }
}

/// One of the walks passes over the entries in memory that are not above the floor. No read and no memory: each of them needs a
/// block then where it wanted one.
pub(crate) fn pass_one<F: RangeFilter, D: Disk>(
    walks: &mut [TableSource],
    at: usize,
    disk: &mut D,
    tables: &Tables<F>,
    floor: &Floor,
)
    requires known { AreWalksIn tables.now.tables (stands walks.old) }
    requires there { at < length walks.old }
    ensures passed { IsPassed D.tells floor.now tables.now.tables (D.world disk.old).seen.held walks.old walks.new }
    ensures moves { ReadMoves 0 (D.world disk.old) (D.world disk.new) }
{
    walks[at].pass(disk, tables, floor);
}

/// One of the walks goes on to its first entry above the floor, or to its end. No memory.
///
/// At `Err` no entry above the floor is lost.
#[inline(always)]
pub(crate) fn catch_up_one<F: RangeFilter, D: Disk>(
    walks: &mut [TableSource],
    at: usize,
    disk: &mut D,
    tables: &Tables<F>,
    floor: &Floor,
) -> Result<(), TableFault>
    requires known { AreWalksIn tables.now.tables (stands walks.old) }
    requires there { at < length walks.old }
    ensures { CatchesUpOne D.tells floor.now tables.now.tables at walks.old walks.new result (D.world disk.old) (D.world disk.new) }
{
    walks[at].catch_up(disk, tables, floor)
}

/// Reads a block for the first of the walks that needs one, and answers whether it read. If not, each walk has an entry above
/// the floor at hand, or none is left of it. No memory.
///
/// At `Err` no entry above the floor is lost.
pub(crate) fn fill_first<F: RangeFilter, D: Disk>(
    walks: &mut [TableSource],
    disk: &mut D,
    tables: &Tables<F>,
    floor: &Floor,
) -> Result<bool, TableFault>
    requires { AreWalksIn tables.now.tables (stands walks.old) }
    ensures { FillsWalks D.tells floor.now tables.now.tables walks.old walks.new result (D.world disk.old) (D.world disk.new) }
{
    for i in 0..walks.len() {
        // most walks are above the floor already, and need none
        if walks[i].leads(floor) {
            continue;
        }
        match walks[i].fill(disk, tables, floor) {
            Ok(false) => {}
            Ok(true) => return Ok(true),
            Err(why) => return Err(why),
        }
    }
    Ok(false)
}

/// Whether one of the walks needs a block, once each has passed over the entries in memory that are not above the floor. If not,
/// each has an entry above the floor at hand, or none is left of it. No read and no memory.
pub(crate) fn wants_any<F: RangeFilter, D: Disk>(
    walks: &mut [TableSource],
    disk: &mut D,
    tables: &Tables<F>,
    floor: &Floor,
) -> bool
    requires { AreWalksIn tables.now.tables (stands walks.old) }
    ensures asks { AsksWalks D.tells floor.now tables.now.tables (D.world disk.old).seen.held walks.old walks.new result }
    ensures moves { ReadMoves 0 (D.world disk.old) (D.world disk.new) }
{
    for i in 0..walks.len() {
        // most walks are above the floor already, and need none
        if walks[i].leads(floor) {
            continue;
        }
        if walks[i].pass(disk, tables, floor) {
            return true;
        }
    }
    false
}

// The key of an entry, or that of no byte where there is none.
fn key_of<'w>(entry: Option<(&'w [u8], Option<&'w [u8]>)>) -> &'w [u8]
    ensures { result.now ≡ key_at_hand (option_map (λ found. entry_of found.0.now (option_map (λ v. v.now) found.1)) entry.entry) }
{
    match entry {
        Some((key, _)) => key,
        None => &[],
    }
}

// The table of a number.
fn table_of<F: RangeFilter>(number: u32, tables: &Tables<F>) -> &Table<F>
    requires { number < length tables.now.tables }
    ensures { numbered tables.now.tables number ≡ Some result.now }
{
    tables.get(tables.len() - 1 - number as usize)
}

/// Whether one of some walks is over the table of a number.
pub(crate) fn has_number(walks: &[TableSource], number: u32) -> bool
    ensures { result ≡ list_any (λ n. n == number) (numbers walks.now) }
{
    for walk in walks {
        if walk.number == number {
            return true;
        }
    }
    false
}
