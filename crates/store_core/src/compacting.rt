//! All of a store becomes tables of the last level.
ghost use Rattle.std.specs.Prelude.{◌≡◌, ◌≢◌, ◌<◌, ◌≤◌, ◌*◌, ◌||◌, ◌⊎◌, [], true, false, None, IsTrue, IfOk, IfErr, OnOk, MatchResult};
ghost use Rattle.std.specs.List.{AllByRecursion};
ghost use Rattle.block_model.specs.Pages.{page_bytes};
ghost use Rattle.disk_trait.specs.World.{Meanwhile, ReadMoves};
ghost use Rattle.entry_model.specs.Entries.{IsEntry};
ghost use Rattle.image_model.specs.Stands.{StandsForMap};
ghost use Rattle.key_base.specs.Limits.{last_epoch, log_bytes, max_tables};
ghost use Rattle.line_model.specs.Requests.{Compact as compact_line};
ghost use Rattle.filter_api.specs.Ranges.{IsRowInRange};
ghost use Rattle.manifest_model.specs.Laws.{IsVersion, RowFits};
ghost use Rattle.state_model.specs.State.{State, without_job};
ghost use Rattle.state_model.specs.View.{state_map};
ghost use Rattle.store_core.specs.Answers.{AnswersRequest, IsTried, stopped_by, told_change};
ghost use Rattle.store_core.specs.Compacting.{AreAllMade, AreCompact, FailsSo, HasItsPages, IsCompactFault, IsCompactRefusal, IsHeldBy, IsInstalledWhole, IsWritingCause, IsWritingFault, StandAlone, compacted_manifest};
ghost use Rattle.store_core.specs.Faults.{of_job_fault};
ghost use Rattle.store_core.specs.Framing.{IsInUse, LeavesPlaces};
ghost use Rattle.store_core.specs.Refusing.{IsCompactDue};
ghost use Rattle.store_core.specs.StoreValue.{rows_of};
ghost use Rattle.store_core.specs.Scans.{AreAllSound, IsScanShown};
ghost use Rattle.store_core.specs.Staying.{DoesNothing, Stays};
ghost use Rattle.store_core.specs.Tending.{SomeMoves};
ghost use Rattle.store_core.specs.Represents.{Represents, RepresentsOn};
ghost use Rattle.table_model.specs.Tables.{filter_bytes_of};

use crate::error::{Limit, StoreError, stops_store};
use crate::flushing::extents_of;
use crate::install::row_of;
use crate::store::Store;
use byte_fields::Row;
use disk_trait::Disk;
use filter_api::RangeFilter;
use gate_log::Log;
use key_base::LAST_EPOCH;
use level_merge::{Job, JobFault, Sliced};
use manifest::{Version, install};
use mem_table::MemTable;
use std::alloc::{AllocError, Global};
use table_file::{Table, Tables};

// A given number of blocks are read in one merge slice of a compaction.
const SLICE_BLOCKS: u32 = 64;

// What a compaction has installed.
#[derive(Drop)]
struct Compacted<F: RangeFilter> {
    version: Version,
    tables: Tables<F>,
    log: Log,
}

// Merges the memory and all tables into tables of the last level: each is written in the first gap that holds it.
fn write_all<F: RangeFilter, D: Disk>(
    alloc: Global,
    disk: &mut D,
    version: &Version,
    memory: &MemTable,
    tables: &Tables<F>,
) -> Result<Vec<Table<F>>, JobFault>
    requires sound { IsVersion version.now.version }
    requires slot { version.now.slot ≤ 1 }
    requires rows { rows_of tables.now.tables ≡ version.now.version.rows }
    requires entries { AllByRecursion IsEntry memory.now.entries }
    ensures stays { (s : State) → IsTrue D.tells → IsHeldBy F.spelling (filter_bytes_of F.spelling F.built_cutoff) version.now tables.now.tables memory.now.entries s (D.world disk.old)
        → Meanwhile (RepresentsOn F.spelling version.now tables.now.tables None s) (D.world disk.old) (D.world disk.new) }
    ensures made { (s : State) → IsTrue D.tells → IsHeldBy F.spelling (filter_bytes_of F.spelling F.built_cutoff) version.now tables.now.tables memory.now.entries s (D.world disk.old)
        → MatchResult result (λ made. AreAllMade F.spelling (filter_bytes_of F.spelling F.built_cutoff) s made.items (D.world disk.new))
        (IsWritingCause (filter_bytes_of F.spelling F.built_cutoff) s (D.world disk.old) (D.world disk.new)) }
    ensures passed { IsTrue D.tells → OnOk result (AreAllSound tables.now.tables (D.world disk.old).seen.held) }
    ensures compact { IfOk result (λ made. AreCompact version.now.version (rows_of made.items)) }
    ensures fault { IfErr result (IsWritingFault (D.world disk.old) (D.world disk.new)) }
    ensures shown { IsTrue D.tells → IfErr result (λ why. IsScanShown tables.now.tables (D.world disk.new).seen.held (of_job_fault why)) }
    ensures frame { LeavesPlaces (IsInUse version.now log_bytes) (D.world disk.old) (D.world disk.new) }
    ensures moves { SomeMoves (page_bytes * version.now.version.pages) (D.world disk.old) (D.world disk.new) }
{
    // the law of merges: this one makes the tables of a compaction
    level_merge::laws::merges_begin();
    have_their_pages(tables.as_slice());
    let mut extents = extents_of(alloc, version, &[])?;
    let mut job = Job::compact(alloc, version.settings, memory, tables)?;
    loop {
        match job.slice(disk, tables, &mut extents, SLICE_BLOCKS)? {
            Sliced::Working => {}
            Sliced::Ready => return Ok(job.into_tables()),
        }
    }
}

// The blocks of each table have as many pages as its row says: no other table's page is read for it. It is called for that alone.
fn have_their_pages<F: RangeFilter>(tables: &[Table<F>])
    ensures { AllByRecursion HasItsPages tables.now }
{
    for i in 0..tables.len() {
        row_of(&tables[i]);
    }
}

// Tables in their order.
fn in_order<F: RangeFilter>(alloc: Global, made: Vec<Table<F>>) -> Result<Tables<F>, AllocError>
    ensures { IfOk result (λ tables. tables.tables ≡ made.items) }
{
    let mut tables = Tables::new(alloc);
    tables.reserve(made.len())?;
    for table in made {
        tables.insert(tables.len(), table);
    }
    Ok(tables)
}

// Their rows.
fn all_rows<F: RangeFilter>(alloc: Global, tables: &[Table<F>]) -> Result<Vec<Row>, AllocError>
    ensures rows { IfOk result (λ rows. rows.items ≡ rows_of tables.now) }
    ensures fits { IfOk result (λ rows. AllByRecursion RowFits rows.items) }
    ensures range { IfOk result (λ rows. AllByRecursion IsRowInRange rows.items) }
{
    let mut rows = Vec::with_capacity(alloc, tables.len())?;
    for table in tables {
        rows.push_reserved(row_of(table));
    }
    Ok(rows)
}

// The version in which some tables are alone, and the other log area is in use.
fn compacted_version<F: RangeFilter>(
    alloc: Global,
    version: &Version,
    tables: &Tables<F>,
) -> Result<Version, AllocError>
    requires sound { IsVersion version.now.version }
    ensures next { IfOk result (λ next. next ≡ compacted_manifest version.now (rows_of tables.now.tables)) }
    ensures fits { IfOk result (λ _. AllByRecursion RowFits (rows_of tables.now.tables)) }
    ensures range { IfOk result (λ _. AllByRecursion IsRowInRange (rows_of tables.now.tables)) }
{
    Ok(Version {
        settings: version.settings,
        pages: version.pages,
        epoch: version.epoch,
        log_area: 1 - version.log_area,
        slot: version.slot,
        other_open: version.other_open,
        rows: all_rows(alloc, tables.as_slice())?,
    })
}

// Writes the tables, begins the other log, and installs the version in which they are alone.
fn replace_all<F: RangeFilter, D: Disk>(
    alloc: Global,
    disk: &mut D,
    version: &Version,
    memory: &MemTable,
    tables: &Tables<F>,
) -> Result<Compacted<F>, StoreError>
    requires sound { IsVersion version.now.version }
    requires slot { version.now.slot ≤ 1 }
    requires epoch { version.now.version.epoch < last_epoch }
    requires rows { rows_of tables.now.tables ≡ version.now.version.rows }
    requires entries { AllByRecursion IsEntry memory.now.entries }
    ensures meanwhile { (s : State) → IsTrue D.tells → IsHeldBy F.spelling (filter_bytes_of F.spelling F.built_cutoff) version.now tables.now.tables memory.now.entries s (D.world disk.old)
        → ((memory.now.entries ≢ []) ⊎ (tables.now.tables ≢ [])) → Meanwhile (StandsForMap F.spelling (state_map s)) (D.world disk.old) (D.world disk.new) }
    ensures passed { IsTrue D.tells → OnOk result (AreAllSound tables.now.tables (D.world disk.old).seen.held) }
    ensures done { (s : State) → IsTrue D.tells → IsHeldBy F.spelling (filter_bytes_of F.spelling F.built_cutoff) version.now tables.now.tables memory.now.entries s (D.world disk.old)
        → ((memory.now.entries ≢ []) ⊎ (tables.now.tables ≢ []))
        → MatchResult result (λ done. StandAlone F.spelling (filter_bytes_of F.spelling F.built_cutoff) s done.version done.tables.tables (D.world disk.new))
        (FailsSo F.spelling (filter_bytes_of F.spelling F.built_cutoff) version.now tables.now.tables s (D.world disk.old) (D.world disk.new)) }
    ensures whole { IfOk result (λ done. IsInstalledWhole version.now done.version done.tables.tables done.log) }
    ensures fault { IfErr result (IsCompactFault (D.world disk.old) (D.world disk.new)) }
    ensures shown { IsTrue D.tells → IfErr result (IsScanShown tables.now.tables (D.world disk.new).seen.held) }
    ensures frame { LeavesPlaces (IsInUse version.now log_bytes) (D.world disk.old) (D.world disk.new) }
    ensures moves { SomeMoves (page_bytes * version.now.version.pages) (D.world disk.old) (D.world disk.new) }
{
    let made = write_all(alloc, disk, version, memory, tables)?;
    let all = in_order(alloc, made)?;
    let next = compacted_version(alloc, version, &all)?;
    let log = Log::start(disk, next.log_area)?;
    install(alloc, disk, &next)?;
    Ok(Compacted {
        version: next.installed(),
        tables: all,
        log,
    })
}

impl<F: RangeFilter> Store<F> {
    /// Merges all that the store holds into tables of the last level, in which the live pairs are alone, and begins the
    /// other log area. A merge that runs is dropped. On an empty store it does nothing.
    ///
    /// The tables are written and made to last, then the other log area is begun, then the version is installed, then the
    /// memory is cleared. Until the pages of the old tables are given up, the new ones need as many beside them. After it a
    /// get reads at most one block.
    pub fn compact<D: Disk>(&mut self, disk: &mut D) -> Result<(), StoreError>
        ensures answered { (s : State) → IsTrue D.tells → self.old.stopped ≡ false → Represents F.spelling (filter_bytes_of F.spelling F.built_cutoff) self.old s (D.world disk.old)
            → AnswersRequest F.spelling (filter_bytes_of F.spelling F.built_cutoff) s compact_line (told_change result) self.new (D.world disk.old) (D.world disk.new) }
        ensures sound { IsTrue D.tells → OnOk result (AreAllSound self.old.tables (D.world disk.old).seen.held) }
        ensures refused { MatchResult result (λ _. IsTried self.old.stopped None) (IsCompactRefusal self.old.stopped self.old.manifest.version.epoch (D.world disk.old) (D.world disk.new)) }
        ensures shown { IsTrue D.tells → IfErr result (IsScanShown self.old.tables (D.world disk.new).seen.held) }
        ensures dropped { self.old.stopped ≡ false → self.new.job ≡ None }
        ensures due { IfErr result (IsCompactDue self.old (D.world disk.old) (D.world disk.new)) }
        ensures stays { Stays result (record self.old { job = self.new.job }) self.new }
        ensures limited { self.old.manifest.version.epoch ≡ last_epoch → ReadMoves 0 (D.world disk.old) (D.world disk.new) }
        ensures nothing { self.old.stopped ≡ false → self.old.memory.entries ≡ [] → self.old.tables ≡ [] → DoesNothing result (record self.old { job = None }) self.new (D.world disk.old) (D.world disk.new) }
        ensures stopped { self.new.stopped ≡ (self.old.stopped || stopped_by result) }
        ensures no_call { self.old.stopped ≡ true → ReadMoves 0 (D.world disk.old) (D.world disk.new) }
        ensures frame { LeavesPlaces (IsInUse self.old.manifest log_bytes) (D.world disk.old) (D.world disk.new) }
        ensures pages { self.new.manifest.version.pages ≡ self.old.manifest.version.pages }
        ensures moves { SomeMoves (page_bytes * self.old.manifest.version.pages) (D.world disk.old) (D.world disk.new) }
    {
        if self.stopped {
            return Err(StoreError::Stopped);
        }
        self.drop_job();
        if self.holds_nothing() {
            return Ok(());
        }
        if self.version.epoch == LAST_EPOCH {
            return Err(StoreError::Limit(Limit::Epoch));
        }
        self.compact_all(disk)
    }

    // Drops the merge that runs, if one does.
    fn drop_job(&mut self)
        ensures { self.new ≡ record self.old { job = None } }
    {
        self.job = None;
    }

    // Whether no entry is in memory, and there is no table.
    fn holds_nothing(&self) -> bool
        ensures nothing { result ≡ true → (self.now.memory.entries ≡ []) × (self.now.tables ≡ []) }
        ensures some { result ≡ false → (self.now.memory.entries ≢ []) ⊎ (self.now.tables ≢ []) }
    {
        self.memory.is_empty() && self.tables.is_empty()
    }

    // The compaction of a store that holds something, has an epoch left, and in which no merge runs.
    fn compact_all<D: Disk>(&mut self, disk: &mut D) -> Result<(), StoreError>
        requires running { self.old.stopped ≡ false }
        requires none_runs { self.old.job ≡ None }
        requires some { (self.old.memory.entries ≢ []) ⊎ (self.old.tables ≢ []) }
        requires epoch { self.old.manifest.version.epoch < last_epoch }
        ensures answered { (s : State) → IsTrue D.tells → Represents F.spelling (filter_bytes_of F.spelling F.built_cutoff) self.old (without_job s) (D.world disk.old)
            → AnswersRequest F.spelling (filter_bytes_of F.spelling F.built_cutoff) s compact_line (told_change result) self.new (D.world disk.old) (D.world disk.new) }
        ensures sound { IsTrue D.tells → OnOk result (AreAllSound self.old.tables (D.world disk.old).seen.held) }
        ensures fault { IfErr result (IsCompactFault (D.world disk.old) (D.world disk.new)) }
        ensures shown { IsTrue D.tells → IfErr result (IsScanShown self.old.tables (D.world disk.new).seen.held) }
        ensures none_left { self.new.job ≡ None }
        ensures stays { Stays result self.old self.new }
        ensures stopped { self.new.stopped ≡ stopped_by result }
        ensures frame { LeavesPlaces (IsInUse self.old.manifest log_bytes) (D.world disk.old) (D.world disk.new) }
        ensures pages { self.new.manifest.version.pages ≡ self.old.manifest.version.pages }
        ensures moves { SomeMoves (page_bytes * self.old.manifest.version.pages) (D.world disk.old) (D.world disk.new) }
    {
        let alloc = *self.buffer.allocator();
        match replace_all(alloc, disk, &self.version, &self.memory, &self.tables) {
            Ok(done) => {
                let Compacted {
                    version,
                    tables,
                    log,
                } = done;
                self.version = version;
                self.blocks.renumber(self.tables.len());
                self.tables = tables;
                self.log = log;
                self.memory.clear();
                self.need = None;
                Ok(())
            }
            Err(why) => {
                self.stopped = stops_store(&why);
                Err(why)
            }
        }
    }
}
