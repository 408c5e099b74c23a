//! The tables of a merge that is done take the place of those that it read.
ghost use Rattle.std.specs.Prelude.{◌≡◌, ◌≤◌, ◌<◌, ◌+◌, length, fold, map, vec_capacity, vec_len, IfOk, ◌*◌, false, Some, None, IsTrue, IfErr, OnOk};
ghost use Rattle.std.specs.List.{AllByRecursion, insert as list_with};
ghost use Rattle.block_model.specs.Pages.{page_bytes};
ghost use Rattle.disk_trait.specs.World.{WriteMoves};
ghost use Rattle.filter_api.specs.Ranges.{IsRowInRange};
ghost use Rattle.key_base.specs.Limits.{log_bytes, max_tables};
ghost use Rattle.manifest_model.specs.Laws.{RowFits};
ghost use Rattle.merge_rows.specs.Steps.{numbers};
ghost use Rattle.state_model.specs.Tends.{IsDone};
ghost use Rattle.store_core.specs.Answers.{stopped_by};
ghost use Rattle.store_core.specs.Compacting.{HasItsPages};
ghost use Rattle.store_core.specs.Framing.{IsInUse, LeavesPlaces};
ghost use Rattle.store_core.specs.Install.{Installs, IsInstallRefusal, goes_before, merged_manifest, others_in, put_in, tables_behind};
ghost use Rattle.store_core.specs.Represents.{Represents};
ghost use Rattle.store_core.specs.Running.{IsRun};
ghost use Rattle.store_core.specs.Staying.{Stays};
ghost use Rattle.store_core.specs.StoreValue.{rows_of};
ghost use Rattle.store_core.specs.Tending.{IsInstalledOf};
ghost use Rattle.store_search.specs.Caching.{renumbered};
ghost use Rattle.table_model.specs.Tables.{filter_bytes_of};
ghost use Rattle.state_model.specs.State as model;

use crate::error::{StoreError, stops_store};
use crate::store::Store;
use byte_fields::Row;
use disk_trait::Disk;
use filter_api::RangeFilter;
use key_base::compare;
use level_merge::Job;
use manifest::{Version, install};
use std::alloc::{AllocError, Global};
use store_search::CachedBlocks;
use table_file::{Table, Tables};

// Whether a table goes before another one: it is of a lesser level, or of the same one with lesser keys.
fn goes_before<F: RangeFilter>(new: &Table<F>, other: &Table<F>) -> bool
    ensures { result ≡ goes_before new.now other.now }
{
    let level = new.row().level;
    let other_level = other.row().level;
    level < other_level || (level == other_level && compare(new.least(), other.least()).is_lt())
}

// The place of a table among others: that of the first that it goes before, or after all.
fn place_among<F: RangeFilter>(new: &Table<F>, others: &[&Table<F>]) -> usize
    ensures within { result ≤ length others.now }
    ensures place { put_in (map (λ t. t.now) others.now) new.now ≡ list_with (map (λ t. t.now) others.now) result new.now }
{
    for place in 0..others.len() {
        if goes_before(new, others[place]) {
            return place;
        }
    }
    others.len()
}

// The same among the tables of a version.
fn place_in<F: RangeFilter>(new: &Table<F>, tables: &Tables<F>) -> usize
    ensures within { result ≤ length tables.now.tables }
    ensures place { put_in tables.now.tables new.now ≡ list_with tables.now.tables result new.now }
{
    for place in 0..tables.len() {
        if goes_before(new, tables.get(place)) {
            return place;
        }
    }
    tables.len()
}

// The tables that a merge does not read, in their order, and room for its own.
fn others_of<'a, 'm, F: RangeFilter>(
    alloc: Global,
    tables: &'a Tables<F>,
    job: &Job<'m, F>,
) -> Result<Vec<&'a Table<F>>, AllocError>
    requires few { length tables.now.tables ≤ max_tables }
    requires few_made { length job.now.made ≤ max_tables }
    ensures others { IfOk result (λ others. map (λ t. t.now) others.items ≡ others_in (numbers job.now.merge.walks) tables.now.tables) }
    ensures room { IfOk result (λ others. vec_len others + length job.now.made ≤ vec_capacity others) }
{
    let mut others = Vec::with_capacity(alloc, tables.len() + job.tables().len())?;
    for place in 0..tables.len() {
        if !job.merges((tables.len() - 1 - place) as u32) {
            others.push_reserved(tables.get(place));
        }
    }
    Ok(others)
}

// Puts tables into their places among others, where there is room for them.
fn put_among<'a, F: RangeFilter>(others: &mut Vec<&'a Table<F>>, made: &'a [Table<F>])
    requires room { vec_len others.old + length made.now ≤ vec_capacity others.old }
    ensures { map (λ t. t.now) others.new.items ≡ fold put_in (map (λ t. t.now) others.old.items) made.now }
{
    for new in made {
        let place = place_among(new, others.as_slice());
        match others.insert(place, new) {
            Ok(()) => {}
            Err(_) => unreachable!(),
        }
    }
}

// A row as it is: its numbers fit their fields.
fn fitting(row: Row) -> Row
    ensures same { result ≡ row }
    ensures fits { RowFits row }
{
    row
}

// The row of a table.
pub(crate) fn row_of<F: RangeFilter>(table: &Table<F>) -> Row
    ensures row { result ≡ table.now.row }
    ensures fits { RowFits result }
    ensures range { IsRowInRange result }
    ensures pages { HasItsPages table.now }
{
    fitting(*table.row())
}

// The rows of tables.
fn rows_in<F: RangeFilter>(alloc: Global, tables: &[&Table<F>]) -> Result<Vec<Row>, AllocError>
    ensures rows { IfOk result (λ rows. rows.items ≡ rows_of (map (λ t. t.now) tables.now)) }
    ensures fits { IfOk result (λ rows. AllByRecursion RowFits rows.items) }
    ensures range { IfOk result (λ rows. AllByRecursion IsRowInRange rows.items) }
{
    let mut rows = Vec::with_capacity(alloc, tables.len())?;
    for table in tables {
        rows.push_reserved(row_of(table));
    }
    Ok(rows)
}

// The version in which the tables of a merge take the place of those that it read.
pub(crate) fn merged_version<'m, F: RangeFilter>(
    alloc: Global,
    version: &Version,
    tables: &Tables<F>,
    job: &Job<'m, F>,
) -> Result<Version, AllocError>
    requires few { length tables.now.tables ≤ max_tables }
    requires few_made { length job.now.made ≤ max_tables }
    ensures next { IfOk result (λ next. next ≡ merged_manifest version.now (rows_of (tables_behind tables.now.tables job.now))) }
    ensures fits { IfOk result (λ next. AllByRecursion RowFits next.version.rows) }
    ensures range { IfOk result (λ next. AllByRecursion IsRowInRange next.version.rows) }
{
    let mut all = others_of(alloc, tables, job)?;
    put_among(&mut all, job.tables());
    Ok(Version {
        settings: version.settings,
        pages: version.pages,
        epoch: version.epoch,
        log_area: version.log_area,
        slot: version.slot,
        other_open: version.other_open,
        rows: rows_in(alloc, all.as_slice())?,
    })
}

// Takes out the tables that a merge read.
fn take_merged<'m, F: RangeFilter>(tables: &mut Tables<F>, job: &Job<'m, F>)
    requires few { length tables.old.tables ≤ max_tables }
    ensures others { tables.new.tables ≡ others_in (numbers job.now.merge.walks) tables.old.tables }
    ensures room { tables.old.room ≤ tables.new.room }
{
    let many = tables.len();
    for number in 0..many {
        if job.merges(number as u32) {
            tables.remove(many - 1 - number);
        }
    }
}

// Puts tables into their places, where there is room for them.
fn put_made<F: RangeFilter>(tables: &mut Tables<F>, made: Vec<Table<F>>)
    requires room { length tables.old.tables + length made.items ≤ tables.old.room }
    ensures { tables.new.tables ≡ fold put_in tables.old.tables made.items }
{
    for new in made {
        let place = place_in(&new, tables);
        tables.insert(place, new);
    }
}

// Puts the tables of a merge in the place of those that it read, where there is room for them. No table after it has a number
// that one before it had.
pub(crate) fn replace_tables<'m, F: RangeFilter>(
    tables: &mut Tables<F>,
    blocks: &mut CachedBlocks,
    job: Job<'m, F>,
)
    requires few { length tables.old.tables ≤ max_tables }
    requires room { length (others_in (numbers job.merge.walks) tables.old.tables) + length job.made ≤ tables.old.room }
    ensures tables { tables.new.tables ≡ tables_behind tables.old.tables job.entry }
    ensures blocks { blocks.new ≡ renumbered blocks.old (length tables.old.tables) }
{
    blocks.renumber(tables.len());
    take_merged(tables, &job);
    put_made(tables, job.into_tables());
}

impl<F: RangeFilter> Store<F> {
    // Installs the version in which the tables of a merge that is done take the place of those that it read.
    //
    // All memory but that of the manifest's body is taken before anything is written. No read.
    pub(crate) fn install_merge<D: Disk>(
        &mut self,
        disk: &mut D,
        job: Job<'static, F>,
    ) -> Result<(), StoreError>
        requires running { self.old.stopped ≡ false }
        requires taken_out { self.old.job ≡ None }
        requires run { IsRun self.old.manifest.version self.old.tables job }
        ensures installs { (s : model.State) (done : model.Job) → IsTrue D.tells → s.job ≡ Some done → IsDone s.tables done
            → Represents F.spelling (filter_bytes_of F.spelling F.built_cutoff) (record self.old { job = Some job.entry }) s (D.world disk.old)
            → Installs F.spelling (filter_bytes_of F.spelling F.built_cutoff) s done result self.new (D.world disk.old) (D.world disk.new) }
        ensures refused { IfErr result (IsInstallRefusal self.old.manifest.version (D.world disk.old) (D.world disk.new)) }
        ensures stays { Stays result self.old self.new }
        ensures stopped { self.new.stopped ≡ stopped_by result }
        ensures no_job { self.new.job ≡ None }
        ensures frame { LeavesPlaces (IsInUse self.old.manifest log_bytes) (D.world disk.old) (D.world disk.new) }
        ensures installed { OnOk result (IsInstalledOf self.old job.entry self.new) }
        ensures pages { self.new.manifest.version.pages ≡ self.old.manifest.version.pages }
        ensures moves { WriteMoves 0 (page_bytes * self.old.manifest.version.pages) (D.world disk.old) (D.world disk.new) }
    {
        // the law of the tables: the open ones agree with those of the state
        level_merge::laws::standing_tables_agree();
        let alloc = *self.buffer.allocator();
        let next = merged_version(alloc, &self.version, &self.tables, &job)?;
        self.tables.reserve(job.tables().len())?;
        match install(alloc, disk, &next) {
            Ok(()) => {
                replace_tables(&mut self.tables, &mut self.blocks, job);
                self.version = next.installed();
                self.need = None;
                Ok(())
            }
            Err(fault) => {
                let why = StoreError::from(fault);
                self.stopped = stops_store(&why);
                Err(why)
            }
        }
    }
}
