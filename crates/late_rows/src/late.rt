//! The merge.
ghost use Rattle.std.specs.Prelude.{◌≡◌, ◌≤◌, ◌<◌, ◌+◌, false, true, is_some, length, map, Option, Some, None, slice_set, IsTrue, IsOk, IfSome, IfOk, IfErr, OnOk, OnErr};
ghost use Rattle.std.specs.List.{AllByRecursion};
ghost use Rattle.std.specs.Option.{option_map};
ghost use Rattle.block_model.specs.Places.{byte_of_page};
ghost use Rattle.disk_trait.specs.World.{ReadMoves};
ghost use Rattle.entry_model.specs.Entries.{IsEntry, entry_of};
ghost use Rattle.late_rows.specs.Going.{AwakeCatchUp, IsLatePaced};
ghost use Rattle.late_rows.specs.Late.{AreStill, IsNext, IsSoundLate, late_from, waking_at, wanted_awake};
ghost use Rattle.late_rows.specs.Opening.{IsLateFault, IsLateStep, OpensLate, SleepAbove};
ghost use Rattle.map_model.specs.SortedMap.{Bytes};
ghost use Rattle.merge_rows.specs.CatchingUp.{AdvancesBefore, CatchesUpAt};
ghost use Rattle.merge_rows.specs.Reads.{AreAtEnd, HaveReadAll, OnlyReads, PassSound, SomeBlock, blocks_left, next_blocks};
ghost use Rattle.merge_rows.specs.Steps.{AreHeadsClear, AreNumbersIn, AreWalksIn, IsLeastRow, numbers, stands};
ghost use Rattle.table_file.specs.Faults.{HasReadCause, IsNotMemory};
ghost use Rattle.table_file.specs.Search.{IsGetFault, page_at};

use crate::next::next_of;
use disk_trait::Disk;
use filter_api::RangeFilter;
use mem_table::MemTable;
use merge_rows::MergeRows;
use std::alloc::AllocError;
use std::marker::Model;
use table_file::{TableFault, Tables};

/// The rows of a memory table and of tables from a bound on, by rising keys, tombstones among them. Walks sleep until no entry at
/// hand is below their waking key.
#[derive(Drop)]
pub struct LateRows<'m> {
    rows: MergeRows<'m>,
    // of each walk its waking key, while it sleeps
    asleep: Vec<Option<Vec<u8>>>,
    // the place of a sleeper with the least of them
    next: Option<usize>,
}

impl<'m> Model for LateRows<'m> {
    ghost use Rattle.std.specs.Prelude.{◌≡◌, false, length, map};
    ghost use Rattle.std.specs.Option.{option_map};
    ghost use Rattle.late_rows.specs.Late.{AreStill, IsNext, LateMerge};

    ghost Value = { LateMerge };

    ghost view = { λ l. record { merge = l.rows; asleep = map (λ o. option_map (λ key. key.items) o) l.asleep.items } };

    ghost invariant = { λ l. (length l.asleep.items ≡ length l.rows.walks)
        × AreStill (map (λ o. option_map (λ key. key.items) o) l.asleep.items) l.rows.walks
        × IsNext (map (λ o. option_map (λ key. key.items) o) l.asleep.items) l.next
        × (l.rows.drops ≡ false) };
}

impl<'m> LateRows<'m> {
    /// The rows from a bound on of a memory table, where one is given, and of the tables of some numbers, the newest first; and of
    /// each table its waking key, none where it is to be open from the start. No entry of a table from the bound on is below its
    /// waking key. Tables are numbered from the last, which has 0.
    ///
    /// It takes all memory: for each table a buffer for one block, and room for the longest key. No read.
    pub fn new<F: RangeFilter>(
        which: Vec<u32>,
        waking: Vec<Option<Vec<u8>>>,
        tables: &Tables<F>,
        memory: Option<&'m MemTable>,
        low: &[u8],
    ) -> Result<LateRows<'m>, AllocError>
        requires there { AreNumbersIn tables.now.tables which.items }
        requires each { length waking.items ≡ length which.items }
        requires sound { IfSome memory (λ m. AllByRecursion IsEntry m.now.entries) }
        ensures { IfOk result (λ l. l ≡ late_from which.items (map (λ o. option_map (λ key. key.items) o) waking.items) tables.now.tables (option_map (λ m. m.now.entries) memory.entry) low.now) }
    {
        let rows = MergeRows::new(which, tables, memory, low, false)?;
        let next = next_of(&waking);
        Ok(LateRows {
            rows,
            asleep: waking,
            next,
        })
    }

    /// The key and the value of the row at hand, `None` for a tombstone's value; or `None` where no row is at hand.
    pub fn entry(&self) -> Option<(&[u8], Option<&[u8]>)>
        ensures now { option_map (λ found. entry_of found.0.now (option_map (λ v. v.now) found.1)) result ≡ self.now.merge.now }
        ensures sound { IfSome result (λ found. IsEntry (entry_of found.0.now (option_map (λ v. v.now) found.1))) }
    {
        self.rows.entry()
    }

    /// Goes on to the next row, and answers whether there is one: it is then at hand. No memory.
    ///
    /// Blocks are read as by [`MergeRows::advance`], of the walks that are awake: one wakes once no entry at hand is below
    /// its waking key. At `Err` no row is lost: the next call goes on where this one stood.
    pub fn advance<F: RangeFilter, D: Disk>(
        &mut self,
        disk: &mut D,
        tables: &Tables<F>,
    ) -> Result<bool, TableFault>
        requires { AreWalksIn tables.now.tables (stands self.old.merge.walks) }
        ensures said { IfOk result (λ some. some ≡ is_some self.new.merge.now) }
        ensures late { OpensLate D.tells tables.now.tables (D.world disk.old).seen.held self.old self.new }
        ensures row { OnOk result (IsLateStep D.tells tables.now.tables (D.world disk.old).seen.held self.old self.new) }
        ensures stays { OnErr result (IsLateFault D.tells tables.now.tables (D.world disk.old).seen.held self.old self.new) }
        ensures sound { OnOk result (IfSome self.new.merge.now IsEntry) }
        ensures paced { IsTrue D.tells → OnOk result (IsLatePaced tables.now.tables (D.world disk.old).seen.held self.old self.new) }
        ensures above { OnOk result (IfSome self.new.merge.now (λ row. SleepAbove row.key self.new.asleep)) }
        ensures least { OnOk result (IsLeastRow self.new.merge) }
        ensures read_all { OnOk result (IsNext self.new.asleep None → HaveReadAll tables.now.tables self.new.merge.walks) }
        ensures only_if_read { OnErr result (1 ≤ length self.old.merge.walks) }
        ensures only_if_wanted { IsTrue D.tells → IsSoundLate self.old tables.now.tables (D.world disk.old).seen.held
            → OnErr result (1 ≤ wanted_awake self.old.merge.floor tables.now.tables self.new.asleep self.old.merge.walks) }
        ensures bounded { IsTrue D.tells → IsSoundLate self.old tables.now.tables (D.world disk.old).seen.held
            → ReadMoves (wanted_awake self.old.merge.floor tables.now.tables self.new.asleep self.old.merge.walks) (D.world disk.old) (D.world disk.new) }
        ensures read_sound { IsTrue D.tells → PassSound tables.now.tables (D.world disk.old).seen.held self.old.merge.walks self.new.merge.walks }
        ensures ended { IfOk result (λ some. some ≡ false → IsNext self.new.asleep None × AreAtEnd tables.now.tables self.new.merge.walks) }
        ensures never_memory { IfErr result IsNotMemory }
        ensures cause { IfErr result (λ why. SomeBlock tables.now.tables (numbers self.old.merge.walks) (λ t n. HasReadCause (byte_of_page (page_at t n)) (D.world disk.old) (D.world disk.new) why)) }
        ensures fault { IsTrue D.tells → IfErr result (λ why. SomeBlock tables.now.tables (numbers self.old.merge.walks) (λ t n. IsGetFault t n (D.world disk.old).seen.held why)) }
        ensures moves { OnlyReads (D.world disk.old) (D.world disk.new) }
        ensures left { OnOk result (blocks_left tables.now.tables self.new.merge.walks ≤ blocks_left tables.now.tables self.old.merge.walks) }
        ensures spent { IsTrue D.tells → IsSoundLate self.old tables.now.tables (D.world disk.old).seen.held
            → OnOk result ((D.world disk.new).seen.reads + blocks_left tables.now.tables self.new.merge.walks ≤ (D.world disk.old).seen.reads + blocks_left tables.now.tables self.old.merge.walks) }
        ensures tried { IsTrue D.tells → IsSoundLate self.old tables.now.tables (D.world disk.old).seen.held
            → OnErr result ((D.world disk.new).seen.reads ≤ (D.world disk.old).seen.reads + blocks_left tables.now.tables self.old.merge.walks) }
        ensures counted { IsTrue D.tells → OnOk result ((D.world disk.new).seen.reads + next_blocks self.old.merge.walks ≡ (D.world disk.old).seen.reads + next_blocks self.new.merge.walks) }
    {
        while let Some(next) = self.sleeper() {
            match self.catch_up(disk, tables) {
                Ok(()) => {}
                Err(why) => return Err(why),
            }
            if self.comes_before(next) {
                return Ok(true);
            }
            self.wake(next);
        }
        self.rows.advance(disk, tables)
    }

    // A sleeper of which no other one has a lesser waking key.
    fn sleeper(&self) -> Option<usize>
        ensures next { IsNext self.now.asleep result }
        ensures whole { self.now.merge.drops ≡ false }
        ensures many { length self.now.asleep ≡ length self.now.merge.walks }
    {
        self.next
    }

    // How many walks there are. Those that sleep have no entry at hand.
    fn count(&self) -> usize
        ensures count { result ≡ length self.now.merge.walks }
        ensures still { AreStill self.now.asleep self.now.merge.walks }
    {
        self.asleep.len()
    }

    // Each walk that is awake goes on to its first entry above the last row.
    fn catch_up<F: RangeFilter, D: Disk>(
        &mut self,
        disk: &mut D,
        tables: &Tables<F>,
    ) -> Result<(), TableFault>
        requires { AreWalksIn tables.now.tables (stands self.old.merge.walks) }
        ensures { AwakeCatchUp D.tells tables.now.tables self.old self.new result (D.world disk.old) (D.world disk.new) }
    {
        for at in 0..self.count() {
            match self.catch_up_at(disk, tables, at) {
                Ok(()) => {}
                Err(why) => return Err(why),
            }
        }
        Ok(())
    }

    // So the walk of a place, where it is awake.
    fn catch_up_at<F: RangeFilter, D: Disk>(
        &mut self,
        disk: &mut D,
        tables: &Tables<F>,
        at: usize,
    ) -> Result<(), TableFault>
        requires known { AreWalksIn tables.now.tables (stands self.old.merge.walks) }
        requires there { at < length self.old.merge.walks }
        ensures asleep { self.new.asleep ≡ self.old.asleep }
        ensures awake { waking_at self.old.asleep at ≡ None → CatchesUpAt D.tells tables.now.tables at self.old.merge self.new.merge result (D.world disk.old) (D.world disk.new) }
        ensures sleeps { is_some (waking_at self.old.asleep at) ≡ true → IsOk result × (self.new ≡ self.old) × ReadMoves 0 (D.world disk.old) (D.world disk.new) }
    {
        if self.asleep[at].is_some() {
            return Ok(());
        }
        self.rows.catch_up_at(disk, tables, at)
    }

    // Takes the least of the entries at hand as the row at hand where it is below the waking key of a sleeper.
    fn comes_before(&mut self, sleeper: usize) -> bool
        requires sleeps { is_some (waking_at self.old.asleep sleeper) ≡ true }
        requires heads_pass { AreHeadsClear self.old.merge.floor self.old.merge.walks }
        ensures asleep { self.new.asleep ≡ self.old.asleep }
        ensures still { AreStill self.old.asleep self.old.merge.walks }
        ensures before { (key : Bytes) → waking_at self.old.asleep sleeper ≡ Some key → AdvancesBefore key self.old.merge self.new.merge result }
    {
        match &self.asleep[sleeper] {
            Some(key) => self.rows.advance_before(key),
            None => false,
        }
    }

    // A sleeper wakes, and the next one is looked for.
    fn wake(&mut self, sleeper: usize)
        requires { is_some (waking_at self.old.asleep sleeper) ≡ true }
        ensures merge { self.new.merge ≡ self.old.merge }
        ensures asleep { self.new.asleep ≡ slice_set self.old.asleep sleeper None }
    {
        self.asleep[sleeper] = None;
        self.next = next_of(&self.asleep);
    }
}
