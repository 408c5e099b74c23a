//! What a store has of which nothing is wrong.
ghost use Rattle.std.specs.Prelude.{◌≡◌, ◌≤◌, ◌<◌, ◌+◌, ◌*◌, ◌^◌, List, length, IsTrue, IfOk, IfErr, IfSome, MatchResult};
ghost use Rattle.std.specs.List.{AllByRecursion, sum_by};
ghost use Rattle.block_model.specs.Places.{FitsDevice};
ghost use Rattle.disk_trait.specs.World.{ReadMoves};
ghost use Rattle.filter_api.specs.Spellings.{Spelling};
ghost use Rattle.image_model.specs.Stands.{IsStateOf};
ghost use Rattle.image_model.specs.Tables.{AreTablesOf};
ghost use Rattle.key_base.specs.Limits.{log_bytes, max_tables};
ghost use Rattle.log_model.specs.Area.{LogIs};
ghost use Rattle.log_model.specs.Changes.{IsLoggedChange};
ghost use Rattle.manifest_model.specs.Laws.{IsVersion};
ghost use Rattle.manifest_model.specs.Slots.{IsVersionOf};
ghost use Rattle.manifest_model.specs.Version.{Version as Written, log_page_of};
ghost use Rattle.range_model.specs.Sources.{ClearsKeys};
ghost use Rattle.range_model.specs.Sources as model;
ghost use Rattle.state_model.specs.State.{State};
ghost use Rattle.state_model.specs.View.{state_map};
ghost use Rattle.table_file.specs.Faults.{IsNoDamage};
ghost use Rattle.table_model.specs.Tables.{Table as Named};
ghost use Rattle.store_check.specs.Causes.{HasFaultCause, OnlyReads};
ghost use Rattle.store_check.specs.Summaries.{AreOfState, AreTablesThere, HasSummaryCause, IsDamage, IsSummaryErrorBy, IsSummaryErrorOf, IsSummaryOf, IsUndamaged, row_entries};
ghost use Rattle.store_check.specs.declared.summary.SummaryError.TheVariants.{Memory as want_of_memory};

use crate::error::CheckError;
use crate::finding::{Finding, broken_log, found_by};
use crate::live::live_pairs;
use crate::values::{are_on_one_level, values_of_tables};
use byte_fields::{Damage, Row};
use disk_trait::{Disk, DiskFault};
use entry_list::Change;
use filter_api::RangeFilter;
use gate_log::{Log, LogFault};
use manifest::{ManifestFault, Version, load};
use mem_table::MemTable;
use std::alloc::{AllocError, Global};
use table_file::{TableFault, Tables, open_table};

/// What a sound store has.
#[derive(Clone, Copy, Debug, PartialEq, Eq)]
pub struct Summary {
    /// The tables.
    pub tables: u64,
    /// The entries of all tables, tombstones among them.
    pub entries: u64,
    /// The pairs: the keys whose newest entry has a value.
    pub live: u64,
    /// The records of the log.
    pub log: u64,
}

/// Why there is no summary.
#[derive(Debug, Drop)]
pub enum SummaryError {
    /// There is no memory.
    Memory,
    /// The device failed to read.
    Device(DiskFault),
    /// No slot is open: the device holds no store, any more.
    NotAStore,
    /// This is wrong now, and was not when it was read for the first time.
    Damaged(Finding),
}

impl From<AllocError> for SummaryError {
    ghost from_gives = { λ _ error. error ≡ want_of_memory };

    fn from(_: AllocError) -> SummaryError {
        SummaryError::Memory
    }
}

impl From<TableFault> for SummaryError {
    ghost from_gives = { IsSummaryErrorOf };

    fn from(fault: TableFault) -> SummaryError {
        match fault {
            TableFault::Memory => SummaryError::Memory,
            TableFault::Device(cause) => SummaryError::Device(cause),
            TableFault::Damaged(damage) => SummaryError::Damaged(found_by(damage)),
        }
    }
}

impl From<CheckError> for SummaryError {
    ghost from_gives = { IsSummaryErrorBy };

    fn from(why: CheckError) -> SummaryError {
        match why {
            CheckError::Memory => SummaryError::Memory,
            CheckError::Device(cause) => SummaryError::Device(cause),
            CheckError::NotAStore => SummaryError::NotAStore,
        }
    }
}

impl From<Damage> for SummaryError {
    ghost from_gives = { λ _ error. IsDamage error };

    fn from(damage: Damage) -> SummaryError {
        SummaryError::Damaged(found_by(damage))
    }
}

/// Reads a store again of which nothing is wrong, and counts what it has.
pub(crate) fn summarize<F: RangeFilter, D: Disk>(
    alloc: Global,
    disk: &mut D,
) -> Result<Summary, SummaryError>
    ensures summary { (s : State) → IsTrue D.tells → IsStateOf F.spelling s (D.world disk.old).seen.held → MatchResult result (IsSummaryOf s) IsUndamaged }
    ensures cause { IfErr result (HasSummaryCause (D.world disk.old) (D.world disk.new)) }
    ensures moves { OnlyReads (D.world disk.old) (D.world disk.new) }
{
    let version = version_now(alloc, disk)?;
    let records = log_records(alloc, disk, version.log_area)?;
    let log = records.len() as u64;
    let live = count_pairs::<F, D>(alloc, disk, &version.rows, records)?;
    Ok(Summary {
        tables: version.rows.len() as u64,
        entries: entries_of(&version.rows),
        live,
        log,
    })
}

// How many pairs the state of these rows and these records has.
fn count_pairs<F: RangeFilter, D: Disk>(
    alloc: Global,
    disk: &mut D,
    rows: &[Row],
    records: Vec<Change>,
) -> Result<u64, SummaryError>
    requires fits { AllByRecursion FitsDevice rows.now }
    requires few { length rows.now ≤ max_tables }
    requires sound { AllByRecursion IsLoggedChange records.items }
    requires bounds { AllByRecursion ClearsKeys records.items }
    ensures pairs { (s : State) → IsTrue D.tells → AreOfState F.spelling s rows.now records.items (D.world disk.old).seen.held
        → MatchResult result (λ pairs. pairs ≡ length (state_map s)) IsUndamaged }
    ensures cause { IfErr result (HasSummaryCause (D.world disk.old) (D.world disk.new)) }
    ensures moves { OnlyReads (D.world disk.old) (D.world disk.new) }
{
    if let Some(pairs) = count_values(alloc, disk, rows, &records)? {
        return Ok(pairs);
    }
    merge_pairs::<F, D>(alloc, disk, rows, records)
}

// The same number without a merge, where no key is said twice: there is no record, all tables are on one level deeper than 0, and
// none has a deleted range. Else `None`.
fn count_values<D: Disk>(
    alloc: Global,
    disk: &mut D,
    rows: &[Row],
    records: &[Change],
) -> Result<Option<u64>, SummaryError>
    requires fits { AllByRecursion FitsDevice rows.now }
    requires few { length rows.now ≤ max_tables }
    ensures pairs { (spelling : Spelling) (s : State) → IsTrue D.tells → AreOfState spelling s rows.now records.now (D.world disk.old).seen.held
        → MatchResult result (λ pairs. IfSome pairs (λ many. many ≡ length (state_map s))) IsUndamaged }
    ensures cause { IfErr result (HasSummaryCause (D.world disk.old) (D.world disk.new)) }
    ensures moves { OnlyReads (D.world disk.old) (D.world disk.new) }
{
    if records.is_empty() && are_on_one_level(rows) {
        return values_of_tables(alloc, disk, rows);
    }
    Ok(None)
}

// The same number by one merge of the tables and the log.
fn merge_pairs<F: RangeFilter, D: Disk>(
    alloc: Global,
    disk: &mut D,
    rows: &[Row],
    records: Vec<Change>,
) -> Result<u64, SummaryError>
    requires fits { AllByRecursion FitsDevice rows.now }
    requires few { length rows.now ≤ max_tables }
    requires sound { AllByRecursion IsLoggedChange records.items }
    requires bounds { AllByRecursion ClearsKeys records.items }
    ensures pairs { (s : State) → IsTrue D.tells → AreOfState F.spelling s rows.now records.items (D.world disk.old).seen.held
        → MatchResult result (λ pairs. pairs ≡ length (state_map s)) IsUndamaged }
    ensures cause { IfErr result (HasSummaryCause (D.world disk.old) (D.world disk.new)) }
    ensures moves { OnlyReads (D.world disk.old) (D.world disk.new) }
{
    // the laws of the layer below, of rows and of tables that are there
    merge_rows::laws::merged_laws();
    merge_rows::laws::standing_tables_are_merged();
    let most = entries_of(rows) + records.len() as u64;
    let tables: Tables<F> = open_tables(alloc, disk, rows)?;
    let memory = MemTable::fill(records)?;
    let pairs = live_pairs(alloc, disk, &tables, &memory, most)?;
    Ok(pairs)
}

// The version that the device holds.
fn version_now<D: Disk>(alloc: Global, disk: &mut D) -> Result<Version, SummaryError>
    ensures exact { (v : Written) → IsTrue D.tells → IsVersionOf v (D.world disk.old).seen.held → MatchResult result (λ found. found.version ≡ v) IsUndamaged }
    ensures sound { IfOk result (λ found. IsVersion found.version) }
    ensures cause { IfErr result (HasSummaryCause (D.world disk.old) (D.world disk.new)) }
    ensures moves { ReadMoves 6 (D.world disk.old) (D.world disk.new) }
{
    match load(alloc, disk) {
        Ok(version) => Ok(version),
        Err(ManifestFault::Memory) => Err(SummaryError::Memory),
        Err(ManifestFault::Device(cause)) => Err(SummaryError::Device(cause)),
        Err(ManifestFault::Damaged(damage)) => Err(SummaryError::Damaged(found_by(damage))),
        Err(_) => Err(SummaryError::NotAStore),
    }
}

// The tables of some rows, in their order.
fn open_tables<F: RangeFilter, D: Disk>(
    alloc: Global,
    disk: &mut D,
    rows: &[Row],
) -> Result<Tables<F>, TableFault>
    requires { AllByRecursion FitsDevice rows.now }
    ensures many { IfOk result (λ opened. length opened.tables ≡ length rows.now) }
    ensures there { (tables : List Named) → IsTrue D.tells → AreTablesOf F.spelling rows.now tables (D.world disk.old).seen.held
        → MatchResult result (λ opened. AreTablesThere F.spelling opened.tables tables (D.world disk.old).seen.held) IsNoDamage }
    ensures cause { IfErr result (HasFaultCause (D.world disk.old) (D.world disk.new)) }
    ensures moves { ReadMoves (2 * length rows.now) (D.world disk.old) (D.world disk.new) }
{
    let mut tables = Tables::new(alloc);
    tables.reserve(rows.len())?;
    for row in rows {
        let table = open_table(alloc, disk, row)?;
        tables.insert(tables.len(), table);
    }
    Ok(tables)
}

// The records of the log in an area.
fn log_records<D: Disk>(alloc: Global, disk: &mut D, area: u8) -> Result<Vec<Change>, SummaryError>
    requires { area ≤ 1 }
    ensures exact { (records : List model.Change) → IsTrue D.tells → LogIs area records (D.world disk.old).seen.held → MatchResult result (λ found. found.items ≡ records) IsUndamaged }
    ensures sound { IfOk result (λ found. AllByRecursion IsLoggedChange found.items) }
    ensures bounds { IfOk result (λ found. AllByRecursion ClearsKeys found.items) }
    ensures cause { IfErr result (HasSummaryCause (D.world disk.old) (D.world disk.new)) }
    ensures moves { ReadMoves 1 (D.world disk.old) (D.world disk.new) }
{
    match Log::replay(alloc, disk, area) {
        Ok((_, records)) => Ok(records),
        Err(LogFault::Memory) => Err(SummaryError::Memory),
        Err(LogFault::Device(cause)) => Err(SummaryError::Device(cause)),
        Err(LogFault::Shape { at, rule }) => Err(SummaryError::Damaged(broken_log(at, rule))),
    }
}

// How many entries the tables of some rows have.
fn entries_of(rows: &[Row]) -> u64
    requires { length rows.now ≤ max_tables }
    ensures sum { result ≡ sum_by row_entries rows.now }
    ensures most { result ≤ 2 ^ 32 * max_tables }
{
    let mut entries = 0u64;
    for row in rows {
        entries += u64::from(row.entries);
    }
    entries
}
