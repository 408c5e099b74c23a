//! A merge that runs.
ghost use Rattle.std.specs.Prelude.{false, ◌≡◌, ◌≢◌, ◌==◌, ◌<◌, ◌≤◌, ◌-◌, ◌*◌, ◌++◌, length, IsTrue, IfOk, IfErr, IfSome, OnOk, [], ◌∷◌};
ghost use Rattle.std.specs.List.{AllByRecursion, list_any};
ghost use Rattle.std.specs.Option.{option_map};
ghost use Rattle.disk_trait.specs.World.{Now, ReadMoves};
ghost use Rattle.entry_model.specs.Entries.{IsEntry};
ghost use Rattle.filter_api.specs.Ranges.{InRange};
ghost use Rattle.level_merge.specs.Follows.{FollowsAnyJob};
ghost use Rattle.store_search.specs.TablesAgree.{TableAgrees};
ghost use Rattle.level_merge.specs.JobValue.{begun, compaction, merge_of};
ghost use Rattle.level_merge.specs.Plans.{MayStart};
ghost use Rattle.level_merge.specs.SliceSteps.{Closes, IsStop, IsTakeFault, LooksOn, PassesBlocks, ReadyAtEnd, StopsAtEnd, TakesRows, WritesOutput, made_opened, made_table, need_of};
ghost use Rattle.level_merge.specs.SliceContract.{SliceContract};
ghost use Rattle.level_merge.specs.Outputs.{IsCloseFault, last_row};
ghost use Rattle.key_base.specs.Limits.{max_level, max_tables};
ghost use Rattle.level_merge.specs.declared.fault.JobFault.TheVariants.{Memory};
ghost use Rattle.merge_rows.specs.Reads.{OnlyReads, blocks_left, next_numbers};
ghost use Rattle.merge_rows.specs.Steps.{AreNumbersIn, AreWalksIn, IsSoundMerge, numbers, stands};
ghost use Rattle.table_model.specs.Tables.{filter_bytes_of};

use crate::bounds::{lies_deeper, numbers_of_all};
use crate::closing::write_output;
use crate::fault::{JobFault, Sliced};
use crate::plan::Plan;
use crate::taking::{Stop, take_rows};
use byte_fields::Row;
use disk_trait::Disk;
use extent_map::Extents;
use filter_api::{RangeFilter, Settings};
use key_base::{MAX_LEVEL, MERGE_DATA_PAGES};
use mem_table::MemTable;
use merge_rows::MergeRows;
use std::alloc::{AllocError, Global};
use std::marker::Model;
use std::mem;
use table_file::{Table, TableBuilder, Tables};

/// A merge that runs: the rows that are left of its tables, the output that is built, and the outputs that are written.
#[derive(Drop)]
pub struct Job<'m, F: RangeFilter> {
    rows: MergeRows<'m>,
    settings: Settings,
    output: u8,
    // whether tombstones are left out
    drops: bool,
    // how many outputs may come beside the one that is built
    beside: usize,
    built: TableBuilder,
    // the rows of the outputs, and those outputs that are written
    outputs: Vec<Row>,
    made: Vec<Table<F>>,
}

impl<'m, F: RangeFilter> Model for Job<'m, F> {
    ghost use Rattle.level_merge.specs.JobValue.{IsMerging, JobValue};

    ghost Value = { JobValue };

    ghost view = { λ j. record {
      merge = j.rows;
      settings = j.settings;
      output = j.output;
      drops = j.drops;
      beside = j.beside;
      built = j.built.entries;
      outputs = j.outputs.items;
      made = j.made.items;
    } };

    ghost invariant = { λ j. IsMerging (record {
      merge = j.rows;
      settings = j.settings;
      output = j.output;
      drops = j.drops;
      beside = j.beside;
      built = j.built.entries;
      outputs = j.outputs.items;
      made = j.made.items;
    }) j.built };
}

impl<'m, F: RangeFilter> Job<'m, F> {
    /// The merge of a plan of some tables, with nothing done. It takes the memory that reading takes: for each table a buffer
    /// for the largest block. Where there is as much, it takes room for the blocks of an output too: 1,024 pages, 4 MiB. No
    /// read.
    ///
    /// Tombstones are left out where no table lies deeper than the plan's level.
    pub fn start(
        plan: Plan,
        settings: Settings,
        tables: &Tables<F>,
    ) -> Result<Job<'m, F>, AllocError>
        requires range { InRange settings }
        requires starts { MayStart tables.now.tables plan }
        ensures begun { IfOk result (λ job. job ≡ begun plan settings tables.now.tables) }
    {
        let drops = !lies_deeper(plan.output, tables.as_slice());
        Job::of(plan.inputs, None, plan.output, drops, settings, tables)
    }

    /// The merge of a memory table and of all tables into tables of the last level, with nothing done. No read.
    ///
    /// Tombstones are left out. It takes the memory that [`Job::start`] takes, and borrows the memory table.
    pub fn compact(
        alloc: Global,
        settings: Settings,
        memory: &'m MemTable,
        tables: &Tables<F>,
    ) -> Result<Job<'m, F>, AllocError>
        requires range { InRange settings }
        requires few { length tables.now.tables ≤ max_tables }
        requires sound { AllByRecursion IsEntry memory.now.entries }
        ensures begun { IfOk result (λ job. job ≡ compaction memory.now.entries settings tables.now.tables) }
    {
        let which = numbers_of_all(alloc, tables.len() as u32)?;
        Job::of(which, Some(memory), MAX_LEVEL, true, settings, tables)
    }

    // A merge with nothing done.
    fn of(
        which: Vec<u32>,
        memory: Option<&'m MemTable>,
        output: u8,
        drops: bool,
        settings: Settings,
        tables: &Tables<F>,
    ) -> Result<Job<'m, F>, AllocError>
        requires range { InRange settings }
        requires level { (1 ≤ output) × (output ≤ max_level) }
        requires there { AreNumbersIn tables.now.tables which.items }
        requires sound { IfSome memory (λ m. AllByRecursion IsEntry m.now.entries) }
        ensures { IfOk result (λ job. job ≡ merge_of which.items (option_map (λ m. m.now.entries) memory.entry) output drops settings tables.now.tables) }
    {
        let alloc = *which.allocator();
        let beside = which.len().saturating_sub(1);
        let rows = MergeRows::new(which, tables, memory, &[], false)?;
        Ok(Job {
            rows,
            settings,
            output,
            drops,
            beside,
            built: TableBuilder::with_room(alloc, settings, MERGE_DATA_PAGES),
            outputs: Vec::new(alloc),
            made: Vec::new(alloc),
        })
    }

    /// Goes on with the merge: reads at most a given number of blocks, one or more, and where the device
    /// does not hold the tables at most twice as many; and writes an output where one is full, or where no row is left. `Ready` exactly where then nothing is
    /// left: rows that need no block are taken on. Each block that was passed is sound, and where nothing is left none was left
    /// out.
    pub fn slice<D: Disk>(
        &mut self,
        disk: &mut D,
        tables: &Tables<F>,
        extents: &mut Extents,
        blocks: u32,
    ) -> Result<Sliced, JobFault>
        requires some { 0 < blocks }
        requires there { AreWalksIn tables.now.tables (stands self.old.merge.walks) }
        ensures slices { SliceContract F.spelling F.built_cutoff D.tells blocks tables.now.tables self.old self.new extents.old extents.new result (D.world disk.old) (D.world disk.new) }
        ensures follows { IsTrue D.tells → FollowsAnyJob F.spelling (filter_bytes_of F.spelling F.built_cutoff) tables.now.tables self.old self.new extents.old extents.new result (D.world disk.old) (D.world disk.new) }
    {
        self.go_on(disk, tables, extents, blocks)
    }

    /// Whether it merges the table of a number.
    pub fn merges(&self, number: u32) -> bool
        ensures { result ≡ list_any (λ n. n == number) (numbers self.now.merge.walks) }
    {
        self.rows.has_table(number)
    }

    /// The rows of its outputs, in their order. Where a slice was refused the last of them may not be written; its pages are
    /// taken.
    pub fn outputs(&self) -> &[Row]
        ensures { result.now ≡ self.now.outputs }
    {
        self.outputs.as_slice()
    }

    /// Those of its outputs that are written, in their order.
    pub fn tables(&self) -> &[Table<F>]
        ensures { result.now ≡ self.now.made }
    {
        self.made.as_slice()
    }

    /// The tables of its outputs, in their order, as [`table_file::open_table`] would give them. No read and no memory.
    pub fn into_tables(self) -> Vec<Table<F>>
        ensures { result.items ≡ self.entry.made }
    {
        self.made
    }

    // A slice, as it is said of what the merge makes.
    fn go_on<D: Disk>(
        &mut self,
        disk: &mut D,
        tables: &Tables<F>,
        extents: &mut Extents,
        blocks: u32,
    ) -> Result<Sliced, JobFault>
        requires some { 0 < blocks }
        requires there { AreWalksIn tables.now.tables (stands self.old.merge.walks) }
        ensures { SliceContract F.spelling F.built_cutoff D.tells blocks tables.now.tables self.old self.new extents.old extents.new result (D.world disk.old) (D.world disk.new) }
    {
        // the law of the tables: a table that is there is read as it is, and no read of it is damage
        table_file::laws::standing_tables_are_read();
        match self.take_rows(disk, tables, blocks) {
            Ok(Stop::Blocks) => Ok(Sliced::Working),
            Ok(Stop::Full) => match self.close(disk, extents, MERGE_DATA_PAGES) {
                Ok(()) => match self.look_on(disk, tables) {
                    Ok(said) => Ok(said),
                    Err(why) => Err(why),
                },
                Err(why) => Err(why),
            },
            Ok(Stop::End) => {
                if self.built.is_empty() {
                    return Ok(Sliced::Ready);
                }
                match self.close(disk, extents, 0) {
                    Ok(()) => Ok(Sliced::Ready),
                    Err(why) => Err(why),
                }
            }
            Err(why) => Err(why),
        }
    }

    // After an output that was written: adds rows to the next one while they need no block, and answers whether more is left. No
    // read.
    fn look_on<D: Disk>(&mut self, disk: &mut D, tables: &Tables<F>) -> Result<Sliced, JobFault>
        requires there { AreWalksIn tables.now.tables (stands self.old.merge.walks) }
        ensures numbers { numbers self.new.merge.walks ≡ numbers self.old.merge.walks }
        ensures stands { stands self.new.merge.walks ≡ stands self.old.merge.walks }
        ensures rest { self.new ≡ record self.old { merge = self.new.merge; built = self.new.built } }
        ensures taken { OnOk result (TakesRows D.tells tables.now.tables (D.world disk.old).seen.held self.old self.new) }
        ensures said { IfOk result (LooksOn D.tells tables.now.tables (D.world disk.old).seen.held self.old self.new) }
        ensures ended { IfOk result (ReadyAtEnd tables.now.tables self.new) }
        ensures still { IsTrue D.tells → next_numbers self.new.merge.walks ≡ next_numbers self.old.merge.walks }
        ensures memory { IfErr result (λ why. why ≡ Memory) }
        ensures moves { ReadMoves 0 (D.world disk.old) (D.world disk.new) }
    {
        match self.take_rows(disk, tables, 0) {
            Ok(Stop::Blocks) => Ok(Sliced::Working),
            Ok(Stop::Full) => Ok(Sliced::Working),
            Ok(Stop::End) => {
                if !self.built.is_empty() {
                    return Ok(Sliced::Working);
                }
                Ok(Sliced::Ready)
            }
            Err(why) => Err(why),
        }
    }

    // Adds rows to the output that is built, until it is full, no row is left, or the next one needs a block and as many were
    // read as may be.
    fn take_rows<D: Disk>(
        &mut self,
        disk: &mut D,
        tables: &Tables<F>,
        blocks: u32,
    ) -> Result<Stop, JobFault>
        requires there { AreWalksIn tables.now.tables (stands self.old.merge.walks) }
        ensures level { (1 ≤ self.old.output) × (self.old.output ≤ max_level) }
        ensures whole { self.old.merge.drops ≡ false }
        ensures numbers { numbers self.new.merge.walks ≡ numbers self.old.merge.walks }
        ensures stands { stands self.new.merge.walks ≡ stands self.old.merge.walks }
        ensures rest { self.new ≡ record self.old { merge = self.new.merge; built = self.new.built } }
        ensures taken { OnOk result (TakesRows D.tells tables.now.tables (D.world disk.old).seen.held self.old self.new) }
        ensures stop { IfOk result (IsStop D.tells blocks tables.now.tables (D.world disk.old).seen.held self.old.beside self.old.merge self.new.merge self.new.built) }
        ensures ended { IfOk result (StopsAtEnd tables.now.tables self.new.merge) }
        ensures passes { PassesBlocks D.tells tables.now.tables (D.world disk.old).seen.held blocks self.old.merge.walks self.new.merge.walks }
        ensures fault { IfErr result (IsTakeFault D.tells tables.now.tables (numbers self.old.merge.walks) (D.world disk.old) (D.world disk.new)) }
        ensures unread { blocks ≡ 0 → IfErr result (λ why. why ≡ Memory) }
        ensures met { IsTrue D.tells → IsSoundMerge self.old.merge tables.now.tables (D.world disk.old).seen.held → IfErr result (λ why. why ≢ Memory → 1 ≤ blocks_left tables.now.tables self.old.merge.walks) }
        ensures moves { OnlyReads (D.world disk.old) (D.world disk.new) }
        ensures twice { ReadMoves (2 * blocks) (D.world disk.old) (D.world disk.new) }
        ensures bounded { IsTrue D.tells → IsSoundMerge self.old.merge tables.now.tables (D.world disk.old).seen.held → ReadMoves blocks (D.world disk.old) (D.world disk.new) }
    {
        take_rows(
            &mut self.rows,
            &mut self.built,
            self.drops,
            self.beside,
            disk,
            tables,
            blocks,
        )
    }

    // Writes the output that is built in the first gap that holds it, and begins the next one, with room for a given number of pages.
    fn close<D: Disk>(
        &mut self,
        disk: &mut D,
        extents: &mut Extents,
        room: u32,
    ) -> Result<(), JobFault>
        requires some { 0 < length self.old.built }
        ensures merge { self.new.merge ≡ self.old.merge }
        ensures same { (self.new.output ≡ self.old.output) × (self.new.settings ≡ self.old.settings) }
        ensures closed { OnOk result (Closes F.spelling F.built_cutoff self.old self.new extents.old extents.new (last_row self.new.outputs)) }
        ensures stands { IsTrue D.tells → OnOk result (Now (TableAgrees F.spelling (made_opened F.built_cutoff self.old (last_row self.new.outputs)) (made_table F.spelling F.built_cutoff self.old (last_row self.new.outputs).first_page)) (D.world disk.new)) }
        ensures writes { WritesOutput F.spelling F.built_cutoff self.old self.new extents.old extents.new (D.world disk.old) (D.world disk.new) }
        ensures fault { IfErr result (IsCloseFault (need_of F.spelling F.built_cutoff self.old) extents.old (D.world disk.old) (D.world disk.new)) }
    {
        let alloc = *self.outputs.allocator();
        let next = TableBuilder::with_room(alloc, self.settings, room);
        let built = mem::replace(&mut self.built, next);
        self.beside = self.beside.saturating_sub(1);
        write_output(
            built,
            self.output,
            disk,
            extents,
            &mut self.outputs,
            &mut self.made,
        )
    }
}
