//! The merge.
ghost use Rattle.std.specs.Prelude.{◌≡◌, ◌==◌, ◌<◌, ◌≤◌, ◌+◌, ◌||◌, Bool, true, false, not, is_some, [], List, length, map, Option, Some, None, slice_get, IsTrue, IfSome, IfOk, IfErr, OnOk, OnErr, MatchResult};
ghost use Rattle.std.specs.List.{AllByRecursion, list_any};
ghost use Rattle.std.specs.Option.{option_map};
ghost use Rattle.std.specs.Borrow.{sem};
ghost use Rattle.block_model.specs.Places.{byte_of_page};
ghost use Rattle.disk_trait.specs.Image.{Image};
ghost use Rattle.disk_trait.specs.World.{ReadMoves};
ghost use Rattle.entry_model.specs.Entries.{Entry, IsEntry, entry_of};
ghost use Rattle.entry_model.specs.Newest.{KeysRise};
ghost use Rattle.merge_rows.specs.CatchingUp.{AdvancesBefore, CatchesUpAt};
ghost use Rattle.merge_rows.specs.Choosing.{heads_of};
ghost use Rattle.merge_rows.specs.Merges.{TableWalk, merge_from, merged_left, numbered, rows_left, walk_at};
ghost use Rattle.merge_rows.specs.Reads.{AreAtEnd, HaveReadAll, IsFewer, IsRead, OnlyReads, PassSound, SomeBlock, blocks_left, next_blocks, next_numbers, wanted, wanted_by};
ghost use Rattle.merge_rows.specs.Steps.{AreCaughtUp, AreHeadsClear, AreNumbersIn, AreWalksIn, HandsOutRow, IsCaughtUp, IsChosen, IsFaultStep, IsLeastRow, IsPaced, IsRowStep, IsSoundMerge, RowPasses, SourcesStay, StaysAt, numbers, stands};
ghost use Rattle.merge_rows.specs.Rows.{above_floor};
ghost use Rattle.table_file.specs.Faults.{HasReadCause, IsNotMemory};
ghost use Rattle.table_file.specs.Opened.{Opened};
ghost use Rattle.table_file.specs.Search.{IsGetFault, page_at};
ghost use Rattle.table_file.specs.Walks.{first_of};

use crate::choosing::Source;
use crate::filling::{fill_behind, wants_behind};
use crate::floor::Floor;
use crate::memory_source::MemorySource;
use crate::table_source::{TableSource, catch_up_one, has_number};
use disk_trait::Disk;
use filter_api::RangeFilter;
use key_base::compare;
use mem_table::MemTable;
use std::alloc::{AllocError, Global};
use std::marker::Model;
use table_file::{TableFault, Tables};

/// The rows of a memory table and of tables: the newest entry of each key, by rising keys.
///
/// It borrows the memory table alone: each call is handed the same tables, before which others may be meanwhile. Without a
/// memory table it borrows nothing: a `MergeRows<'static>` can be kept.
#[derive(Drop)]
pub struct MergeRows<'m> {
    floor: Floor,
    drops: bool,
    // the source of the row at hand
    row: Option<Source>,
    memory: MemorySource<'m>,
    walks: Vec<TableSource>,
}

impl<'m> Model for MergeRows<'m> {
    ghost use Rattle.merge_rows.specs.Merges.{Merge};
    ghost use Rattle.merge_rows.specs.SourcePlaces.{IsChosenIn, chosen_row};

    ghost Value = { Merge };

    ghost view = { λ m. record { floor = m.floor; drops = m.drops; now = chosen_row m.row m.memory m.walks.items; memory = m.memory; walks = m.walks.items } };

    ghost invariant = { λ m. IsChosenIn m.row m.walks.items };
}

impl<'m> MergeRows<'m> {
    ghost use Rattle.merge_rows.specs.Lends.{merge_ends};

    /// The rows from a bound on of a memory table, where one is given, and of the tables of some numbers, the newest first.
    /// Tables are numbered from the last, which has 0. Tombstones are rows too, unless they are dropped: a step then reads on over
    /// them, and how many blocks it reads is not bounded.
    ///
    /// It takes all memory: for each table a buffer for one block, and room for the longest key. No read.
    pub fn new<F: RangeFilter>(
        which: Vec<u32>,
        tables: &Tables<F>,
        memory: Option<&'m MemTable>,
        low: &[u8],
        drop_tombstones: bool,
    ) -> Result<MergeRows<'m>, AllocError>
        requires there { AreNumbersIn tables.now.tables which.items }
        requires sound { IfSome memory (λ m. AllByRecursion IsEntry m.now.entries) }
        ensures { IfOk result (λ m. m ≡ merge_from which.items tables.now.tables (option_map (λ m. m.now.entries) memory.entry) low.now drop_tombstones) }
    {
        let alloc = *which.allocator();
        let floor = Floor::new(alloc, low)?;
        let walks = walks_from(alloc, &which, tables, low)?;
        Ok(MergeRows {
            floor,
            drops: drop_tombstones,
            row: None,
            memory: MemorySource::new(memory, low),
            walks,
        })
    }

    /// The next row: [`advance`](MergeRows::advance), and then the [`entry`](MergeRows::entry) at hand.
    pub fn next<F: RangeFilter, D: Disk>(
        &mut self,
        disk: &mut D,
        tables: &Tables<F>,
    ) -> Result<Option<(&[u8], Option<&[u8]>)>, TableFault>
        requires { AreWalksIn tables.now.tables (stands self.old.walks) }
        ensures* after { sem 𝓛 (merge_ends self.entry (λ m. SourcesStay D.tells tables.now.tables (D.world disk.old).seen.held self.old m
            × (MatchResult result (λ _. IsRowStep D.tells tables.now.tables (D.world disk.old).seen.held self.old m) (λ _. IsFaultStep D.tells tables.now.tables (D.world disk.old).seen.held self.old m))
            × IfOk result (λ found. option_map (λ f. entry_of f.0.now (option_map (λ v. v.now) f.1)) found ≡ m.now)
            × (IsTrue D.tells → OnOk result ((D.world disk.new).seen.reads + next_blocks self.old.walks ≡ (D.world disk.old).seen.reads + next_blocks m.walks)))) }
        ensures sound { IfOk result (λ found. IfSome found (λ f. IsEntry (entry_of f.0.now (option_map (λ v. v.now) f.1)))) }
        ensures never_memory { IfErr result IsNotMemory }
        ensures cause { IfErr result (λ why. SomeBlock tables.now.tables (numbers self.old.walks) (λ t n. HasReadCause (byte_of_page (page_at t n)) (D.world disk.old) (D.world disk.new) why)) }
        ensures fault { IsTrue D.tells → IfErr result (λ why. SomeBlock tables.now.tables (numbers self.old.walks) (λ t n. IsGetFault t n (D.world disk.old).seen.held why)) }
        ensures moves { OnlyReads (D.world disk.old) (D.world disk.new) }
        ensures bounded { IsTrue D.tells → self.old.drops ≡ false → IsSoundMerge self.old tables.now.tables (D.world disk.old).seen.held
            → ReadMoves (wanted self.old tables.now.tables) (D.world disk.old) (D.world disk.new) }
    {
        match self.advance(disk, tables) {
            Ok(_) => Ok(self.entry()),
            Err(why) => Err(why),
        }
    }

    /// The key and the value of the row at hand, `None` for a tombstone's value; or `None` where no row is at hand. The value
    /// of a table's row lies where it was read, its key where it was built.
    pub fn entry(&self) -> Option<(&[u8], Option<&[u8]>)>
        ensures now { option_map (λ found. entry_of found.0.now (option_map (λ v. v.now) found.1)) result ≡ self.now.now }
        ensures sound { IfSome result (λ found. IsEntry (entry_of found.0.now (option_map (λ v. v.now) found.1))) }
    {
        match self.row {
            Some(source) => source.entry(&self.memory, &self.walks),
            None => None,
        }
    }

    /// Goes on to the next row, and answers whether there is one: it is then at hand. No memory.
    ///
    /// A block is read of each table that has no entry above the last row in memory, and of no other. At `Err` no row is lost:
    /// the next call goes on where this one stood. Whatever is on the device, keys rise from row to row, each block that was
    /// passed is sound, and at the end no table has a block that was not read.
    //
    // A scan takes a step for each pair: where its parts are calls, results go by memory, and a pair costs more.
    #[inline(always)]
    pub fn advance<F: RangeFilter, D: Disk>(
        &mut self,
        disk: &mut D,
        tables: &Tables<F>,
    ) -> Result<bool, TableFault>
        requires { AreWalksIn tables.now.tables (stands self.old.walks) }
        ensures said { IfOk result (λ some. some ≡ is_some self.new.now) }
        ensures kept { SourcesStay D.tells tables.now.tables (D.world disk.old).seen.held self.old self.new }
        ensures row { OnOk result (IsRowStep D.tells tables.now.tables (D.world disk.old).seen.held self.old self.new) }
        ensures stays { OnErr result (IsFaultStep D.tells tables.now.tables (D.world disk.old).seen.held self.old self.new) }
        ensures sound { OnOk result (IfSome self.new.now IsEntry) }
        ensures only_if_read { OnErr result (1 ≤ length self.old.walks) }
        ensures only_if_wanted { IsTrue D.tells → self.old.drops ≡ false → IsSoundMerge self.old tables.now.tables (D.world disk.old).seen.held → OnErr result (1 ≤ wanted self.old tables.now.tables) }
        ensures caught_up_past { IsTrue D.tells → self.old.drops ≡ false → OnOk result (IsPaced tables.now.tables (D.world disk.old).seen.held self.old self.new) }
        ensures read_sound { IsTrue D.tells → PassSound tables.now.tables (D.world disk.old).seen.held self.old.walks self.new.walks }
        ensures done { OnOk result (wanted_by self.old.floor tables.now.tables self.new.walks ≡ 0) }
        ensures read_all { OnOk result (HaveReadAll tables.now.tables self.new.walks) }
        ensures ended { IfOk result (λ some. some ≡ false → AreAtEnd tables.now.tables self.new.walks) }
        ensures least { OnOk result (IsLeastRow self.new) }
        ensures never_memory { IfErr result IsNotMemory }
        ensures cause { IfErr result (λ why. SomeBlock tables.now.tables (numbers self.old.walks) (λ t n. HasReadCause (byte_of_page (page_at t n)) (D.world disk.old) (D.world disk.new) why)) }
        ensures fault { IsTrue D.tells → IfErr result (λ why. SomeBlock tables.now.tables (numbers self.old.walks) (λ t n. IsGetFault t n (D.world disk.old).seen.held why)) }
        ensures moves { OnlyReads (D.world disk.old) (D.world disk.new) }
        ensures left { OnOk result (blocks_left tables.now.tables self.new.walks ≤ blocks_left tables.now.tables self.old.walks) }
        ensures spent { IsTrue D.tells → IsSoundMerge self.old tables.now.tables (D.world disk.old).seen.held
            → OnOk result ((D.world disk.new).seen.reads + blocks_left tables.now.tables self.new.walks ≤ (D.world disk.old).seen.reads + blocks_left tables.now.tables self.old.walks) }
        ensures tried { IsTrue D.tells → IsSoundMerge self.old tables.now.tables (D.world disk.old).seen.held
            → OnErr result ((D.world disk.new).seen.reads ≤ (D.world disk.old).seen.reads + blocks_left tables.now.tables self.old.walks) }
        ensures counted { IsTrue D.tells → OnOk result ((D.world disk.new).seen.reads + next_blocks self.old.walks ≡ (D.world disk.old).seen.reads + next_blocks self.new.walks) }
        ensures bounded { IsTrue D.tells → self.old.drops ≡ false → IsSoundMerge self.old tables.now.tables (D.world disk.old).seen.held
            → ReadMoves (wanted self.old tables.now.tables) (D.world disk.old) (D.world disk.new) }
    {
        loop {
            match self.step(disk, tables) {
                Ok(true) => {}
                Ok(false) => return Ok(false),
                Err(why) => return Err(why),
            }
            if self.is_shown() {
                return Ok(true);
            }
        }
    }

    /// Reads one block that the next row needs, and answers whether it read; if not, the next row needs none. Then no row is
    /// at hand. No memory. Who counts blocks asks for it before [`advance`](MergeRows::advance).
    ///
    /// At `Err` no row is lost.
    //
    // It goes into its callers, which are steps of each merge, as `choose` does.
    #[inline(always)]
    pub fn fill<F: RangeFilter, D: Disk>(
        &mut self,
        disk: &mut D,
        tables: &Tables<F>,
    ) -> Result<bool, TableFault>
        requires { AreWalksIn tables.now.tables (stands self.old.walks) }
        ensures stays { StaysAt D.tells tables.now.tables (D.world disk.old).seen.held self.old self.new }
        ensures memory { self.new.memory ≡ self.old.memory }
        ensures caught_up { IsTrue D.tells → IfOk result (λ read. read ≡ false → AreCaughtUp self.old.floor tables.now.tables (D.world disk.old).seen.held self.new.walks) }
        ensures heads_pass { IfOk result (λ read. read ≡ false → AreHeadsClear self.old.floor self.new.walks) }
        ensures only_if_read { OnErr result (1 ≤ length self.old.walks) }
        ensures read_sound { IsTrue D.tells → PassSound tables.now.tables (D.world disk.old).seen.held self.old.walks self.new.walks }
        ensures done { IfOk result (λ read. read ≡ false → wanted self.new tables.now.tables ≡ 0) }
        ensures read_all { IfOk result (λ read. read ≡ false → HaveReadAll tables.now.tables self.new.walks) }
        ensures never_memory { IfErr result IsNotMemory }
        ensures cause { IfErr result (λ why. SomeBlock tables.now.tables (numbers self.old.walks) (λ t n. HasReadCause (byte_of_page (page_at t n)) (D.world disk.old) (D.world disk.new) why)) }
        ensures fault { IsTrue D.tells → IfErr result (λ why. SomeBlock tables.now.tables (numbers self.old.walks) (λ t n. IsGetFault t n (D.world disk.old).seen.held why)) }
        ensures moves { ReadMoves 2 (D.world disk.old) (D.world disk.new) }
        ensures idle { IfOk result (λ read. read ≡ false → ReadMoves 0 (D.world disk.old) (D.world disk.new)) }
        ensures counted { IsTrue D.tells → OnOk result ((D.world disk.new).seen.reads + next_blocks self.old.walks ≡ (D.world disk.old).seen.reads + next_blocks self.new.walks) }
        ensures left { IsRead result (blocks_left tables.now.tables self.old.walks) (blocks_left tables.now.tables self.new.walks) }
        ensures once { IsTrue D.tells → IsSoundMerge self.old tables.now.tables (D.world disk.old).seen.held
            → ReadMoves 1 (D.world disk.old) (D.world disk.new) × IsFewer result (wanted self.old tables.now.tables) (wanted self.new tables.now.tables) }
    {
        let row = self.row;
        self.row = None;
        fill_behind(row, &mut self.walks, disk, tables, &self.floor)
    }

    /// Whether the next row needs a block. Then no row is at hand. No read and no memory. Who may read no block more asks this
    /// before [`advance_filled`](MergeRows::advance_filled).
    pub fn wants_block<F: RangeFilter, D: Disk>(&mut self, disk: &mut D, tables: &Tables<F>) -> bool
        requires { AreWalksIn tables.now.tables (stands self.old.walks) }
        ensures stays { StaysAt D.tells tables.now.tables (D.world disk.old).seen.held self.old self.new }
        ensures memory { self.new.memory ≡ self.old.memory }
        ensures caught_up { IsTrue D.tells → result ≡ false → AreCaughtUp self.old.floor tables.now.tables (D.world disk.old).seen.held self.new.walks }
        ensures heads_pass { result ≡ false → AreHeadsClear self.old.floor self.new.walks }
        ensures some { result ≡ true → 1 ≤ wanted self.new tables.now.tables }
        ensures none { result ≡ false → wanted self.new tables.now.tables ≡ 0 }
        ensures read_all { result ≡ false → HaveReadAll tables.now.tables self.new.walks }
        ensures blocks { IsTrue D.tells → next_numbers self.new.walks ≡ next_numbers self.old.walks }
        ensures same { IsTrue D.tells → IsSoundMerge self.old tables.now.tables (D.world disk.old).seen.held → wanted self.new tables.now.tables ≡ wanted self.old tables.now.tables }
        ensures left { blocks_left tables.now.tables self.new.walks ≡ blocks_left tables.now.tables self.old.walks }
        ensures next { IsTrue D.tells → next_blocks self.new.walks ≡ next_blocks self.old.walks }
        ensures moves { ReadMoves 0 (D.world disk.old) (D.world disk.new) }
    {
        let row = self.row;
        self.row = None;
        wants_behind(row, &mut self.walks, disk, tables, &self.floor)
    }

    /// Goes on to the next row where it needs no block, as after a [`fill`](MergeRows::fill) that did not read, or where
    /// [`wants_block`](MergeRows::wants_block) says so, and answers whether there is one: it is then at hand. No read and no memory. Not where tombstones are dropped: the rows after them
    /// may need blocks.
    pub fn advance_filled(&mut self) -> bool
        requires whole { self.old.drops ≡ false }
        requires heads_pass { AreHeadsClear self.old.floor self.old.walks }
        ensures said { result ≡ is_some self.new.now }
        ensures walks { self.new.walks ≡ self.old.walks }
        ensures sound { IfSome self.new.now IsEntry }
        ensures ended { (tables : List Opened) → HaveReadAll tables self.old.walks → result ≡ false → AreAtEnd tables self.new.walks }
        ensures row { (tells : Bool) (tables : List Opened) (image : Image) → (IsTrue tells → AreCaughtUp self.old.floor tables image self.old.walks)
            → SourcesStay tells tables image self.old self.new × IsRowStep tells tables image self.old self.new }
    {
        self.pass_memory();
        self.choose()
    }

    /// The walk of a place alone goes on to its first entry above the last row, or to its end. Then no row is at hand. No
    /// memory. Who opens tables late asks for it of those that are open, in place of [`fill`](MergeRows::fill).
    ///
    /// At `Err` no row is lost.
    #[inline(always)]
    pub fn catch_up_at<F: RangeFilter, D: Disk>(
        &mut self,
        disk: &mut D,
        tables: &Tables<F>,
        at: usize,
    ) -> Result<(), TableFault>
        requires known { AreWalksIn tables.now.tables (stands self.old.walks) }
        requires there { at < length self.old.walks }
        ensures { CatchesUpAt D.tells tables.now.tables at self.old self.new result (D.world disk.old) (D.world disk.new) }
    {
        self.row = None;
        catch_up_one(&mut self.walks, at, disk, tables, &self.floor)
    }

    /// Goes on to the row of the least key at hand where that is below a bound, and answers whether it is: it is then at hand.
    /// Walks with no entry at hand are passed over. No read and no memory. Each walk that is open has caught up.
    pub fn advance_before(&mut self, bound: &[u8]) -> bool
        requires { AreHeadsClear self.old.floor self.old.walks }
        ensures { AdvancesBefore bound.now self.old self.new result }
    {
        self.row = None;
        self.memory.catch_up(&self.floor);
        let Some(source) = Source::first(&self.memory, &self.walks) else {
            return false;
        };
        let Some((key, _)) = source.entry(&self.memory, &self.walks) else {
            return false;
        };
        if !compare(key, bound).is_lt() {
            return false;
        }
        self.floor.pass(key);
        self.row = Some(source);
        true
    }

    /// Whether the table of a number is one of those that are merged.
    pub fn has_table(&self, number: u32) -> bool
        ensures { result ≡ list_any (λ n. n == number) (numbers self.now.walks) }
    {
        has_number(&self.walks, number)
    }

    // Whether the row at hand is handed out: a tombstone is not, where they are dropped.
    fn is_shown(&self) -> bool
        ensures { IfSome self.now.now (λ e. result ≡ (not self.now.drops || is_some e.value)) }
    {
        if !self.drops {
            return true;
        }
        match self.entry() {
            Some((_, value)) => value.is_some(),
            None => false,
        }
    }

    // Goes on to the next row, a tombstone too, and answers whether there is one.
    #[inline(always)]
    fn step<F: RangeFilter, D: Disk>(
        &mut self,
        disk: &mut D,
        tables: &Tables<F>,
    ) -> Result<bool, TableFault>
        requires { AreWalksIn tables.now.tables (stands self.old.walks) }
        ensures said { IfOk result (λ some. some ≡ is_some self.new.now) }
        ensures kept { SourcesStay D.tells tables.now.tables (D.world disk.old).seen.held self.old self.new }
        ensures rows { IsTrue D.tells → IsSoundMerge self.old tables.now.tables (D.world disk.old).seen.held
            → OnOk result (HandsOutRow self.new.now (merged_left self.old tables.now.tables (D.world disk.old).seen.held) (merged_left self.new tables.now.tables (D.world disk.old).seen.held)) }
        ensures passes { OnOk result (RowPasses self.new.now self.old.floor self.new.floor) }
        ensures sound { OnOk result (IfSome self.new.now IsEntry) }
        ensures stays { OnErr result (StaysAt D.tells tables.now.tables (D.world disk.old).seen.held self.old self.new) }
        ensures only_if_read { OnErr result (1 ≤ length self.old.walks) }
        ensures only_if_wanted { IsTrue D.tells → IsSoundMerge self.old tables.now.tables (D.world disk.old).seen.held → OnErr result (1 ≤ wanted self.old tables.now.tables) }
        ensures caught_up_past { IsTrue D.tells → OnOk result (IsPaced tables.now.tables (D.world disk.old).seen.held self.old self.new) }
        ensures read_sound { IsTrue D.tells → PassSound tables.now.tables (D.world disk.old).seen.held self.old.walks self.new.walks }
        ensures done { OnOk result (wanted_by self.old.floor tables.now.tables self.new.walks ≡ 0) }
        ensures read_all { OnOk result (HaveReadAll tables.now.tables self.new.walks) }
        ensures ended { IfOk result (λ some. some ≡ false → AreAtEnd tables.now.tables self.new.walks) }
        ensures least { OnOk result (IsLeastRow self.new) }
        ensures never_memory { IfErr result IsNotMemory }
        ensures cause { IfErr result (λ why. SomeBlock tables.now.tables (numbers self.old.walks) (λ t n. HasReadCause (byte_of_page (page_at t n)) (D.world disk.old) (D.world disk.new) why)) }
        ensures fault { IsTrue D.tells → IfErr result (λ why. SomeBlock tables.now.tables (numbers self.old.walks) (λ t n. IsGetFault t n (D.world disk.old).seen.held why)) }
        ensures moves { OnlyReads (D.world disk.old) (D.world disk.new) }
        ensures left { OnOk result (blocks_left tables.now.tables self.new.walks ≤ blocks_left tables.now.tables self.old.walks) }
        ensures spent { IsTrue D.tells → IsSoundMerge self.old tables.now.tables (D.world disk.old).seen.held
            → OnOk result ((D.world disk.new).seen.reads + blocks_left tables.now.tables self.new.walks ≤ (D.world disk.old).seen.reads + blocks_left tables.now.tables self.old.walks) }
        ensures tried { IsTrue D.tells → IsSoundMerge self.old tables.now.tables (D.world disk.old).seen.held
            → OnErr result ((D.world disk.new).seen.reads ≤ (D.world disk.old).seen.reads + blocks_left tables.now.tables self.old.walks) }
        ensures counted { IsTrue D.tells → OnOk result ((D.world disk.new).seen.reads + next_blocks self.old.walks ≡ (D.world disk.old).seen.reads + next_blocks self.new.walks) }
        ensures bounded { IsTrue D.tells → IsSoundMerge self.old tables.now.tables (D.world disk.old).seen.held
            → ReadMoves (wanted self.old tables.now.tables) (D.world disk.old) (D.world disk.new) }
    {
        self.catch_up(disk, tables)?;
        Ok(self.choose())
    }

    // The memory goes on to its first entry above the floor. No row is at hand then.
    fn pass_memory(&mut self)
        ensures floor { self.new.floor ≡ self.old.floor }
        ensures drops { self.new.drops ≡ self.old.drops }
        ensures walks { self.new.walks ≡ self.old.walks }
        ensures same { above_floor self.old.floor self.new.memory ≡ above_floor self.old.floor self.old.memory }
        ensures rises { KeysRise self.old.memory → KeysRise self.new.memory }
        ensures caught_up { IsCaughtUp self.old.floor (first_of self.new.memory) self.new.memory }
    {
        self.row = None;
        self.memory.catch_up(&self.floor);
    }

    // Each source goes on to its first entry above the floor. No row is at hand then.
    #[inline(always)]
    fn catch_up<F: RangeFilter, D: Disk>(
        &mut self,
        disk: &mut D,
        tables: &Tables<F>,
    ) -> Result<(), TableFault>
        requires { AreWalksIn tables.now.tables (stands self.old.walks) }
        ensures stays { StaysAt D.tells tables.now.tables (D.world disk.old).seen.held self.old self.new }
        ensures memory { IsCaughtUp self.old.floor (first_of self.new.memory) self.new.memory }
        ensures caught_up { IsTrue D.tells → OnOk result (AreCaughtUp self.old.floor tables.now.tables (D.world disk.old).seen.held self.new.walks) }
        ensures heads_pass { OnOk result (AreHeadsClear self.old.floor self.new.walks) }
        ensures only_if_read { OnErr result (1 ≤ length self.old.walks) }
        ensures only_if_wanted { IsTrue D.tells → IsSoundMerge self.old tables.now.tables (D.world disk.old).seen.held → OnErr result (1 ≤ wanted self.old tables.now.tables) }
        ensures read_sound { IsTrue D.tells → PassSound tables.now.tables (D.world disk.old).seen.held self.old.walks self.new.walks }
        ensures done { OnOk result (wanted_by self.old.floor tables.now.tables self.new.walks ≡ 0) }
        ensures read_all { OnOk result (HaveReadAll tables.now.tables self.new.walks) }
        ensures never_memory { IfErr result IsNotMemory }
        ensures cause { IfErr result (λ why. SomeBlock tables.now.tables (numbers self.old.walks) (λ t n. HasReadCause (byte_of_page (page_at t n)) (D.world disk.old) (D.world disk.new) why)) }
        ensures fault { IsTrue D.tells → IfErr result (λ why. SomeBlock tables.now.tables (numbers self.old.walks) (λ t n. IsGetFault t n (D.world disk.old).seen.held why)) }
        ensures moves { OnlyReads (D.world disk.old) (D.world disk.new) }
        ensures left { OnOk result (blocks_left tables.now.tables self.new.walks ≤ blocks_left tables.now.tables self.old.walks) }
        ensures spent { IsTrue D.tells → IsSoundMerge self.old tables.now.tables (D.world disk.old).seen.held
            → OnOk result ((D.world disk.new).seen.reads + blocks_left tables.now.tables self.new.walks ≤ (D.world disk.old).seen.reads + blocks_left tables.now.tables self.old.walks) }
        ensures tried { IsTrue D.tells → IsSoundMerge self.old tables.now.tables (D.world disk.old).seen.held
            → OnErr result ((D.world disk.new).seen.reads ≤ (D.world disk.old).seen.reads + blocks_left tables.now.tables self.old.walks) }
        ensures counted { IsTrue D.tells → OnOk result ((D.world disk.new).seen.reads + next_blocks self.old.walks ≡ (D.world disk.old).seen.reads + next_blocks self.new.walks) }
        ensures bounded { IsTrue D.tells → IsSoundMerge self.old tables.now.tables (D.world disk.old).seen.held
            → ReadMoves (wanted self.old tables.now.tables) (D.world disk.old) (D.world disk.new) }
    {
        // the row stays at hand up to the first filling, by which its walk passes it
        self.memory.catch_up(&self.floor);
        loop {
            match self.fill(disk, tables) {
                Ok(true) => {}
                Ok(false) => return Ok(()),
                Err(why) => return Err(why),
            }
        }
    }

    // Takes the first of the entries at hand with the least key as the row at hand, passes its key, and answers whether there
    // is one.
    #[inline(always)]
    fn choose(&mut self) -> bool
        ensures memory { self.new.memory ≡ self.old.memory }
        ensures walks { self.new.walks ≡ self.old.walks }
        ensures drops { self.new.drops ≡ self.old.drops }
        ensures said { result ≡ is_some self.new.now }
        ensures chosen { IsChosen (heads_of self.old.memory self.old.walks) self.new.now self.old.floor self.new.floor }
    {
        self.row = Source::first(&self.memory, &self.walks);
        let Some(source) = self.row else {
            return false;
        };
        if let Some((key, _)) = source.entry(&self.memory, &self.walks) {
            self.floor.pass(key);
        }
        true
    }
}

// A walk from a bound on over the table of each number.
fn walks_from<F: RangeFilter>(
    alloc: Global,
    which: &[u32],
    tables: &Tables<F>,
    low: &[u8],
) -> Result<Vec<TableSource>, AllocError>
    requires { AreNumbersIn tables.now.tables which.now }
    ensures { IfOk result (λ walks. walks.items ≡ map (λ number. record { number = number; walk = walk_at (numbered tables.now.tables number) low.now }) which.now) }
{
    let mut walks = Vec::with_capacity(alloc, which.len())?;
    for number in which {
        walks.push(TableSource::new(alloc, *number, tables, low)?)?;
    }
    Ok(walks)
}
