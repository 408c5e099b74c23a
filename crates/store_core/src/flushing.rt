//! The memory table becomes a table of level 0, with an entry over it where its value is too long for the log.
ghost use Rattle.std.specs.Prelude.{◌≡◌, ◌≢◌, ◌≤◌, ◌<◌, ◌+◌, ◌-◌, ◌*◌, ◌∷◌, ◌++◌, ◌||◌, List, [], true, false, Some, None, IsTrue, IfOk, IfErr, IfSome, OnOk, OnErr, MatchResult, length, map};
ghost use Rattle.std.specs.List.{AllByRecursion};
ghost use Rattle.std.specs.List.Sorted.{IsPermutation};
ghost use Rattle.block_model.specs.Block.{IsTable};
ghost use Rattle.block_model.specs.Pages.{page_bytes};
ghost use Rattle.disk_trait.specs.World.{ReadMoves, WriteMoves};
ghost use Rattle.byte_fields.specs.declared.parts.Row.{Row as model_row};
ghost use Rattle.entry_model.specs.Entries.{Entry, IsEntry, put_entry};
ghost use Rattle.entry_model.specs.Newest.{KeysRise};
ghost use Rattle.extent_model.specs.Extents.{AreApart, AreLaid};
ghost use Rattle.extent_model.specs.Gaps.{first_gap, largest_gap};
ghost use Rattle.filter_api.specs.Ranges.{InRange};
ghost use Rattle.key_base.specs.Limits.{last_epoch, log_bytes, max_device_pages, min_device_pages};
ghost use Rattle.line_model.specs.Requests.{Flush as flush_line};
ghost use Rattle.manifest.specs.Manifest.{Manifest};
ghost use Rattle.manifest_model.specs.Laws.{IsVersion, RowFits};
ghost use Rattle.manifest_model.specs.Rows.{extent_of};
ghost use Rattle.manifest_model.specs.Version.{log_page_of};
ghost use Rattle.state_model.specs.Changes.{flushed};
ghost use Rattle.state_model.specs.State.{State};
ghost use Rattle.state_model.specs.View.{memory};
ghost use Rattle.store_core.specs.Answers.{AnswersRequest, IsTried, IsWriteRefusal, WroteEntry, stopped_by, told_change};
ghost use Rattle.store_core.specs.Flushing.{DiffersInLog, FlushedTo, IsFlushFault, IsFullFor, IsNoPlace, IsNoRoomFor, IsPlan, IsPlanRefusal, entries_with, need_under, next_manifest, other_log_page, over_of, state_with};
ghost use Rattle.store_core.specs.Framing.{IsInUse, LeavesPlaces};
ghost use Rattle.store_core.specs.Refusing.{IsFlushAllowed, IsFlushDue, MayBeFlushed};
ghost use Rattle.store_core.specs.StoreValue.{IsConsistent, StoreValue};
ghost use Rattle.store_core.specs.Running.{extents_with, outputs_in};
ghost use Rattle.store_core.specs.Represents.{Represents};
ghost use Rattle.store_core.specs.Staying.{DoesNothing, Stays};
ghost use Rattle.table_file.specs.Building.{source_in};
ghost use Rattle.table_model.specs.Tables.{filter_bytes_of, source_pages};

use crate::error::{Limit, StoreError, stops_store};
use crate::long_values::build_with;
use crate::store::Store;
use byte_fields::Row;
use disk_trait::Disk;
use extent_map::{Extents, NoGap};
use filter_api::{RangeFilter, Settings};
use gate_log::Log;
use key_base::{LAST_EPOCH, MAX_TABLES};
use level_merge::Job;
use manifest::{ManifestFault, Version, install};
use mem_table::MemTable;
use std::alloc::{AllocError, Global};
use table_file::{Parts, TableBuilder, pages_of, write_parts};

// A table that is built, its row, and the version to come, in which that row is the first and the other log area is in use.
#[derive(Drop)]
struct Plan<F: RangeFilter> {
    parts: Parts<F>,
    row: Row,
    next: Version,
}

// The table of all entries of the memory.
fn build_table<F: RangeFilter>(
    alloc: Global,
    settings: Settings,
    memory: &MemTable,
) -> Result<Parts<F>, AllocError>
    requires settings { InRange settings }
    requires table { IsTable memory.now.entries }
    ensures { IfOk result (λ parts. parts ≡ record { settings = settings; entries = memory.now.entries; ranges = [] }) }
{
    let mut builder = TableBuilder::new(alloc, settings);
    let mut cursor = memory.cursor(&[]);
    for _ in 0..memory.len() {
        match cursor.next() {
            Some((key, value)) => builder.add(key, value)?,
            None => break,
        }
    }
    builder.finish()
}

// The table of what is flushed: the entries of the memory, with an entry over them where there is one.
fn build_flushed<F: RangeFilter>(
    alloc: Global,
    settings: Settings,
    memory: &MemTable,
    over: Option<(&[u8], &[u8])>,
) -> Result<Parts<F>, AllocError>
    requires settings { InRange settings }
    requires rises { KeysRise memory.now.entries }
    requires sound { AllByRecursion IsEntry memory.now.entries }
    requires table { IsTable (entries_with memory.now.entries (over_of over)) }
    ensures { IfOk result (λ parts. parts ≡ record { settings = settings; entries = entries_with memory.now.entries (over_of over.entry); ranges = [] }) }
{
    match over {
        Some((key, value)) => build_with(alloc, settings, memory, key, value),
        None => build_table(alloc, settings, memory),
    }
}

// Takes the extents of some rows, which lie apart from one another and from all that are taken.
fn add_rows(extents: &mut Extents, rows: &[Row]) -> Result<(), AllocError>
    requires to { extents.old.pages ≤ max_device_pages }
    requires laid { AreLaid extents.old.pages (map extent_of rows.now) }
    requires free { AllByRecursion (λ extent. AllByRecursion (AreApart extent) extents.old.extents) (map extent_of rows.now) }
    ensures pages { extents.new.pages ≡ extents.old.pages }
    ensures extents { OnOk result (IsPermutation (map extent_of rows.now ++ extents.old.extents) extents.new.extents) }
{
    for row in rows {
        extents.add(
            row.first_page,
            row.data_pages + row.index_pages + row.filter_pages,
        )?;
    }
    Ok(())
}

// The extents of the rows of a version, and of the outputs of a merge.
pub(crate) fn extents_of(
    alloc: Global,
    version: &Version,
    outputs: &[Row],
) -> Result<Extents, AllocError>
    requires from { min_device_pages ≤ version.now.version.pages }
    requires to { version.now.version.pages ≤ max_device_pages }
    requires laid { AreLaid version.now.version.pages (extents_with version.now.version outputs.now) }
    ensures pages { IfOk result (λ e. e.pages ≡ version.now.version.pages) }
    ensures extents { IfOk result (λ e. IsPermutation (extents_with version.now.version outputs.now) e.extents) }
{
    let mut extents = Extents::new(alloc, version.pages);
    add_rows(&mut extents, outputs)?;
    add_rows(&mut extents, &version.rows)?;
    Ok(extents)
}

// A row and then the others.
fn with_row(alloc: Global, row: Row, rows: &[Row]) -> Result<Vec<Row>, AllocError>
    ensures { IfOk result (λ all. all.items ≡ row ∷ rows.now) }
{
    let mut all = Vec::with_capacity(alloc, rows.len() + 1)?;
    all.push_reserved(row);
    all.extend_from_slice(rows)?;
    Ok(all)
}

// The first page of the first gap that holds a given number of pages, beside the outputs of a merge.
fn place_for(
    alloc: Global,
    version: &Version,
    outputs: &[Row],
    need: u64,
) -> Result<u32, StoreError>
    requires sound { IsVersion version.now.version }
    requires laid { AreLaid version.now.version.pages (extents_with version.now.version outputs.now) }
    ensures gap { IfOk result (λ page. first_gap version.now.version.pages (extents_with version.now.version outputs.now) need ≡ Some page) }
    ensures no_gap { IfErr result (IsNoPlace need (largest_gap version.now.version.pages (extents_with version.now.version outputs.now))) }
{
    let extents = extents_of(alloc, version, outputs)?;
    match extents.gap(need) {
        Ok(page) => Ok(page),
        Err(NoGap { need, largest }) => Err(StoreError::Full { need, gap: largest }),
    }
}

// The version in which a row is the first, and the other log area is in use.
fn next_version(alloc: Global, version: &Version, row: Row) -> Result<Version, AllocError>
    requires sound { IsVersion version.now.version }
    ensures next { IfOk result (λ next. next ≡ next_manifest version.now row) }
    ensures row { IfOk result (λ _. RowFits row) }
{
    Ok(Version {
        settings: version.settings,
        pages: version.pages,
        epoch: version.epoch,
        log_area: 1 - version.log_area,
        slot: version.slot,
        other_open: version.other_open,
        rows: with_row(alloc, row, &version.rows)?,
    })
}

// Whether there is room for a table that needs a given number of pages, where that is known before it is built.
fn check_room(
    alloc: Global,
    version: &Version,
    outputs: &[Row],
    need: Option<u64>,
) -> Result<(), StoreError>
    requires sound { IsVersion version.now.version }
    requires laid { AreLaid version.now.version.pages (extents_with version.now.version outputs.now) }
    ensures refused { IfErr result (IsNoRoomFor need (largest_gap version.now.version.pages (extents_with version.now.version outputs.now))) }
{
    if let Some(pages) = need {
        place_for(alloc, version, outputs, pages)?;
    }
    Ok(())
}

// What is written and installed for the entries of the memory, with an entry over them where there is one. Nothing is written
// here, and all that is refused is refused here, but for memory for the manifest's body. The outputs are those of the merge that
// runs. Where the pages are known that the table needs, none is built for which there is no room.
fn plan_flush<F: RangeFilter>(
    alloc: Global,
    version: &Version,
    outputs: &[Row],
    memory: &MemTable,
    over: Option<(&[u8], &[u8])>,
    need: Option<u64>,
) -> Result<Plan<F>, StoreError>
    requires sound { IsVersion version.now.version }
    requires laid { AreLaid version.now.version.pages (extents_with version.now.version outputs.now) }
    requires rises { KeysRise memory.now.entries }
    requires each { AllByRecursion IsEntry memory.now.entries }
    requires table { IsTable (entries_with memory.now.entries (over_of over)) }
    requires need { IfSome need (λ pages. pages ≡ need_under (filter_bytes_of F.spelling F.built_cutoff) version.now.version (entries_with memory.now.entries (over_of over))) }
    ensures plan { IfOk result (λ p. IsPlan F.spelling F.built_cutoff version.now outputs.now (entries_with memory.now.entries (over_of over.entry)) p.parts p.row p.next) }
    ensures fits { IfOk result (λ p. p.row.first_page + source_pages (filter_bytes_of F.spelling F.built_cutoff) p.parts.settings (source_in p.parts) ≤ p.next.version.pages) }
    ensures next { IfOk result (λ p. IsVersion p.next.version) }
    ensures refused { IfErr result (IsPlanRefusal (filter_bytes_of F.spelling F.built_cutoff) version.now.version outputs.now (entries_with memory.now.entries (over_of over.entry))) }
{
    if version.rows.len() >= MAX_TABLES {
        return Err(StoreError::Limit(Limit::Tables));
    }
    check_room(alloc, version, outputs, need)?;
    let parts: Parts<F> = build_flushed(alloc, version.settings, memory, over)?;
    let page = place_for(alloc, version, outputs, pages_of(&parts))?;
    if version.epoch == LAST_EPOCH {
        return Err(StoreError::Limit(Limit::Epoch));
    }
    let row = parts.row(0, page);
    let next = next_version(alloc, version, row)?;
    Ok(Plan { parts, row, next })
}

// The rows of the outputs of a merge, if one runs.
pub(crate) fn outputs_of<'a, F: RangeFilter>(job: &'a Option<Job<'static, F>>) -> &'a [Row]
    ensures { result.now ≡ outputs_in job.now }
{
    match job {
        Some(job) => job.outputs(),
        None => &[],
    }
}

// Writes the table, begins the other log, and installs the version.
fn write_plan<F: RangeFilter, D: Disk>(
    alloc: Global,
    disk: &mut D,
    plan: &Plan<F>,
) -> Result<Log, ManifestFault>
    requires fits { plan.now.row.first_page + source_pages (filter_bytes_of F.spelling F.built_cutoff) plan.now.parts.settings (source_in plan.now.parts) ≤ plan.now.next.version.pages }
    requires slot { plan.now.next.slot ≤ 1 }
    requires sound { IsVersion plan.now.next.version }
    requires epoch { plan.now.next.version.epoch < last_epoch }
    ensures replaces { (store : StoreValue) (s over : State) → IsTrue D.tells → IsConsistent store → Represents F.spelling (filter_bytes_of F.spelling F.built_cutoff) store s (D.world disk.old)
        → DiffersInLog s over → IsPlan F.spelling F.built_cutoff store.manifest (outputs_in store.job) (memory over) plan.now.parts plan.now.row plan.now.next
        → FlushedTo F.spelling F.built_cutoff store s over plan.now.parts plan.now.row plan.now.next result (D.world disk.old) (D.world disk.new) }
    ensures frame { (m : Manifest) (held : List model_row) (entries : List Entry) → IsVersion m.version → m.slot ≤ 1 → AreLaid m.version.pages (extents_with m.version held)
        → IsPlan F.spelling F.built_cutoff m held entries plan.now.parts plan.now.row plan.now.next → LeavesPlaces (IsInUse m log_bytes) (D.world disk.old) (D.world disk.new) }
    ensures log { IfOk result (λ log. (log.filled ≡ 0) × (plan.now.next.version.log_page ≡ log_page_of log.area)) }
    ensures cause { IfErr result (IsFlushFault (D.world disk.old) (D.world disk.new)) }
    ensures moves { WriteMoves 0 (page_bytes * plan.now.next.version.pages) (D.world disk.old) (D.world disk.new) }
{
    // the law of merges: one that runs goes on after a flush, and is left by what is written elsewhere
    level_merge::laws::jobs_are_followed();
    write_parts(disk, plan.row.first_page, &plan.parts)?;
    let log = Log::start(disk, plan.next.log_area)?;
    install(alloc, disk, &plan.next)?;
    Ok(log)
}

impl<F: RangeFilter> Store<F> {
    /// Makes the entries in memory a table of level 0, in the first gap that holds it, and begins the other log area. With
    /// no entry it does nothing.
    ///
    /// The table is written and made to last, then the other log area is begun, then the version is installed, then the
    /// memory is cleared. No read.
    pub fn flush<D: Disk>(&mut self, disk: &mut D) -> Result<(), StoreError>
        ensures answered { (s : State) → IsTrue D.tells → self.old.stopped ≡ false → Represents F.spelling (filter_bytes_of F.spelling F.built_cutoff) self.old s (D.world disk.old)
            → AnswersRequest F.spelling (filter_bytes_of F.spelling F.built_cutoff) s flush_line (told_change result) self.new (D.world disk.old) (D.world disk.new) }
        ensures refused { MatchResult result (λ _. IsTried self.old.stopped None) (IsWriteRefusal self.old.stopped None (D.world disk.old) (D.world disk.new)) }
        ensures due { IfErr result (IsFlushDue (filter_bytes_of F.spelling F.built_cutoff) self.old self.old.memory.entries (D.world disk.old) (D.world disk.new)) }
        ensures allowed { OnOk result (IsFlushAllowed (filter_bytes_of F.spelling F.built_cutoff) self.old self.old.memory.entries) }
        ensures stays { Stays result self.old self.new }
        ensures frame { LeavesPlaces (IsInUse self.old.manifest log_bytes) (D.world disk.old) (D.world disk.new) }
        ensures pages { self.new.manifest.version.pages ≡ self.old.manifest.version.pages }
        ensures nothing { self.old.stopped ≡ false → self.old.memory.entries ≡ [] → DoesNothing result self.old self.new (D.world disk.old) (D.world disk.new) }
        ensures stopped { self.new.stopped ≡ (self.old.stopped || stopped_by result) }
        ensures no_call { self.old.stopped ≡ true → ReadMoves 0 (D.world disk.old) (D.world disk.new) }
        ensures moves { WriteMoves 0 (page_bytes * self.old.manifest.version.pages) (D.world disk.old) (D.world disk.new) }
    {
        if self.stopped {
            return Err(StoreError::Stopped);
        }
        self.flush_memory(disk)
    }

    // The flush of a store that is not stopped.
    pub(crate) fn flush_memory<D: Disk>(&mut self, disk: &mut D) -> Result<(), StoreError>
        requires running { self.old.stopped ≡ false }
        ensures wrote { (s : State) → IsTrue D.tells → Represents F.spelling (filter_bytes_of F.spelling F.built_cutoff) self.old s (D.world disk.old)
            → WroteEntry F.spelling (filter_bytes_of F.spelling F.built_cutoff) s (flushed (filter_bytes_of F.spelling F.built_cutoff) s) result self.new (D.world disk.old) (D.world disk.new) }
        ensures refused { IfErr result (IsWriteRefusal false None (D.world disk.old) (D.world disk.new)) }
        ensures due { IfErr result (IsFlushDue (filter_bytes_of F.spelling F.built_cutoff) self.old self.old.memory.entries (D.world disk.old) (D.world disk.new)) }
        ensures allowed { OnOk result (IsFlushAllowed (filter_bytes_of F.spelling F.built_cutoff) self.old self.old.memory.entries) }
        ensures stays { Stays result self.old self.new }
        ensures nothing { self.old.memory.entries ≡ [] → DoesNothing result self.old self.new (D.world disk.old) (D.world disk.new) }
        ensures stopped { self.new.stopped ≡ stopped_by result }
        ensures some { OnErr result (self.old.memory.entries ≡ [] → ⊥) }
        ensures empty { OnOk result (self.new.memory.entries ≡ []) }
        ensures begun { OnOk result (self.new.log.filled ≡ 0) }
        ensures other { OnOk result (self.old.memory.entries ≢ [] → other_log_page self.old.manifest.version ≡ log_page_of self.new.log.area) }
        ensures frame { LeavesPlaces (IsInUse self.old.manifest log_bytes) (D.world disk.old) (D.world disk.new) }
        ensures pages { self.new.manifest.version.pages ≡ self.old.manifest.version.pages }
        ensures spare { self.old.memory.spare ≤ self.new.memory.spare }
        ensures moves { WriteMoves 0 (page_bytes * self.old.manifest.version.pages) (D.world disk.old) (D.world disk.new) }
    {
        if self.memory.is_empty() {
            return Ok(());
        }
        let need = self.need;
        let flushed = self.flush_with(disk, None, need);
        self.keep_need(&flushed);
        flushed
    }

    // The flush of one that is not stopped, with an entry over those in memory where there is one. The memory and the log stay as
    // they were where it is refused: the entry goes into neither. The pages that the table needs are given where they are known.
    pub(crate) fn flush_with<D: Disk>(
        &mut self,
        disk: &mut D,
        over: Option<(&[u8], &[u8])>,
        need: Option<u64>,
    ) -> Result<(), StoreError>
        requires running { self.old.stopped ≡ false }
        requires sound { IfSome over (λ pair. IsEntry (put_entry pair.0.now pair.1.now)) }
        requires some { entries_with self.old.memory.entries (over_of over) ≢ [] }
        requires need { IfSome need (λ pages. pages ≡ need_under (filter_bytes_of F.spelling F.built_cutoff) self.old.manifest.version (entries_with self.old.memory.entries (over_of over))) }
        ensures wrote { (s : State) → IsTrue D.tells → Represents F.spelling (filter_bytes_of F.spelling F.built_cutoff) self.old s (D.world disk.old)
            → WroteEntry F.spelling (filter_bytes_of F.spelling F.built_cutoff) s (flushed (filter_bytes_of F.spelling F.built_cutoff) (state_with s (over_of over.entry))) result self.new (D.world disk.old) (D.world disk.new) }
        ensures refused { IfErr result (IsWriteRefusal false None (D.world disk.old) (D.world disk.new)) }
        ensures due { IfErr result (IsFlushDue (filter_bytes_of F.spelling F.built_cutoff) self.old (entries_with self.old.memory.entries (over_of over.entry)) (D.world disk.old) (D.world disk.new)) }
        ensures allowed { OnOk result (MayBeFlushed (filter_bytes_of F.spelling F.built_cutoff) self.old (entries_with self.old.memory.entries (over_of over.entry))) }
        ensures stays { Stays result self.old self.new }
        ensures stopped { self.new.stopped ≡ stopped_by result }
        ensures empty { OnOk result (self.new.memory.entries ≡ []) }
        ensures begun { OnOk result (self.new.log.filled ≡ 0) }
        ensures other { OnOk result (other_log_page self.old.manifest.version ≡ log_page_of self.new.log.area) }
        ensures frame { LeavesPlaces (IsInUse self.old.manifest log_bytes) (D.world disk.old) (D.world disk.new) }
        ensures pages { self.new.manifest.version.pages ≡ self.old.manifest.version.pages }
        ensures spare { self.old.memory.spare ≤ self.new.memory.spare }
        ensures moves { WriteMoves 0 (page_bytes * self.old.manifest.version.pages) (D.world disk.old) (D.world disk.new) }
    {
        let alloc = *self.buffer.allocator();
        let outputs = outputs_of(&self.job);
        let plan: Plan<F> = plan_flush(alloc, &self.version, outputs, &self.memory, over, need)?;
        self.tables.reserve(1)?;
        match write_plan(alloc, disk, &plan) {
            Ok(log) => {
                let Plan { parts, row, next } = plan;
                self.tables.insert(0, parts.into_table(row));
                self.version = next.installed();
                self.log = log;
                self.memory.clear();
                self.need = None;
                Ok(())
            }
            Err(fault) => {
                let why = StoreError::from(fault);
                self.stopped = stops_store(&why);
                Err(why)
            }
        }
    }

    // Keeps the pages that the table of the memory needs, where its flush found no room for them. The store is as it was.
    fn keep_need(&mut self, flushed: &Result<(), StoreError>)
        requires { IfErr flushed.now (λ why. IsFullFor (need_under (filter_bytes_of F.spelling F.built_cutoff) self.old.manifest.version self.old.memory.entries) why) }
        ensures { self.new ≡ self.old }
    {
        if let Err(StoreError::Full { need, .. }) = flushed {
            self.need = Some(*need);
        }
    }
}
