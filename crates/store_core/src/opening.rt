//! A store that is on a device is opened.
ghost use Rattle.std.specs.Prelude.{◌≡◌, ◌≤◌, ◌<◌, ◌+◌, ◌*◌, length, map, false, None, IsTrue, IfOk, IfErr, MatchResult};
ghost use Rattle.std.specs.List.{AllByRecursion};
ghost use Rattle.block_model.specs.Places.{FitsDevice};
ghost use Rattle.disk_trait.specs.World.{Moves, ReadMoves};
ghost use Rattle.log_model.specs.Changes.{IsLoggedChange, filled_by};
ghost use Rattle.mem_table.specs.Table.{source_in};
ghost use Rattle.range_model.specs.Sources.{ClearsKeys, source_of};
ghost use Rattle.image_model.specs.Stands.{IsStateOf};
ghost use Rattle.key_base.specs.Limits.{log_bytes, max_tables};
ghost use Rattle.manifest_model.specs.Laws.{IsVersion};
ghost use Rattle.manifest_model.specs.Tables.{follows, ranges_fault};
ghost use Rattle.manifest_model.specs.Version.{log_page_of};
ghost use Rattle.state_model.specs.State.{State};
ghost use Rattle.store_search.specs.Caching.{none_cached};
ghost use Rattle.store_core.specs.StoreValue.{rows_of};
ghost use Rattle.store_core.specs.Answers.{IsFailure};
ghost use Rattle.store_core.specs.Opening.{AreOpened, IsOpenFault, IsOpenRefusal, IsOpenAnswer, IsOpenedAs, IsRangesDamage, IsTablesAnswer, IsVersionOpened, opened_range};
ghost use Rattle.store_core.specs.Represents.{ReadsAs, Represents};
ghost use Rattle.table_model.specs.Tables.{filter_bytes_of};

use crate::error::StoreError;
use crate::store::Store;
use byte_fields::{Damage, Part, Row};
use disk_trait::Disk;
use entry_list::Change;
use filter_api::RangeFilter;
use gate_log::Log;
use key_base::{SLOT_BYTES, compare};
use manifest::{BODY_AT, HEAD_BYTES, ROW_BYTES, Version, load};
use mem_table::MemTable;
use std::alloc::Global;
use std::cmp::Ordering;
use store_search::CachedBlocks;
use table_file::{LARGEST_BLOCK_BYTES, Table, Tables, open_table};

// The rule of tables that do not rise.
const NOT_RISING: u8 = 12;

// The tables of some rows, in their order.
fn open_tables<F: RangeFilter, D: Disk>(
    alloc: Global,
    disk: &mut D,
    rows: &[Row],
) -> Result<Tables<F>, StoreError>
    requires { AllByRecursion FitsDevice rows.now }
    ensures rows { IfOk result (λ opened. rows_of opened.tables ≡ rows.now) }
    ensures answer { IsTrue D.tells → MatchResult result (λ opened. AreOpened F.spelling opened.tables (D.world disk.old).seen.held) (IsTablesAnswer F.spelling F.first_fault rows.now (D.world disk.old).seen.held) }
    ensures cause { IfErr result (IsOpenFault (D.world disk.old) (D.world disk.new)) }
    ensures moves { ReadMoves (2 * length rows.now) (D.world disk.old) (D.world disk.new) }
{
    let mut tables = Tables::new(alloc);
    tables.reserve(rows.len())?;
    for row in rows {
        let table = open_table(alloc, disk, row)?;
        tables.insert(tables.len(), table);
    }
    Ok(tables)
}

// Whether a table may be before another one: below level 0 its keys come before those of the other. No table has a range yet,
// whose end would come before them too.
fn may_follow<F: RangeFilter>(before: &Table<F>, table: &Table<F>) -> bool
    ensures { result ≡ follows (opened_range before.now) (opened_range table.now) }
{
    before.row().level != table.row().level
        || table.row().level == 0
        || compare(before.greatest(), table.least()) == Ordering::Less
}

// Whether the tables of each deeper level rise without overlap; else the damage of the manifest in this slot.
fn check_order<F: RangeFilter>(tables: &[Table<F>], slot: u8) -> Result<(), Damage>
    requires few { length tables.now ≤ max_tables }
    requires slot { slot ≤ 1 }
    ensures { MatchResult result (λ _. ranges_fault (map opened_range tables.now) ≡ None) (IsRangesDamage slot (ranges_fault (map opened_range tables.now))) }
{
    for i in 1..tables.len() {
        if !may_follow(&tables[i - 1], &tables[i]) {
            return Err(Damage::Shape {
                part: Part::Manifest,
                at: SLOT_BYTES * u64::from(slot) + BODY_AT + (HEAD_BYTES + ROW_BYTES * i) as u64,
                rule: NOT_RISING,
            });
        }
    }
    Ok(())
}

// The version that the device holds, and its tables, of which those of a deeper level rise.
fn open_version<F: RangeFilter, D: Disk>(
    alloc: Global,
    disk: &mut D,
) -> Result<(Version, Tables<F>), StoreError>
    ensures sound { IfOk result (λ found. IsVersion found.0.version) }
    ensures slot { IfOk result (λ found. found.0.slot ≤ 1) }
    ensures rows { IfOk result (λ found. rows_of found.1.tables ≡ found.0.version.rows) }
    ensures answer { IsTrue D.tells → MatchResult result (λ found. IsVersionOpened F.spelling (D.world disk.old).seen.held found.0 found.1.tables) (IsOpenAnswer F.spelling F.first_fault (D.world disk.old).seen.held) }
    ensures cause { IfErr result (IsOpenRefusal (D.world disk.old) (D.world disk.new)) }
    ensures reads { (s : State) → IsTrue D.tells → IsStateOf F.spelling s (D.world disk.old).seen.held → (D.world disk.new).seen.reads ≤ (D.world disk.old).seen.reads + 6 + 2 * length s.tables }
    ensures moves { ReadMoves (6 + 2 * max_tables) (D.world disk.old) (D.world disk.new) }
{
    let version = load(alloc, disk)?;
    let tables: Tables<F> = open_tables(alloc, disk, &version.rows)?;
    match check_order(tables.as_slice(), version.slot) {
        Ok(()) => Ok((version, tables)),
        Err(damage) => Err(StoreError::Damaged(damage)),
    }
}

impl<F: RangeFilter> Store<F> {
    /// Opens the store that is on a device: what was written before is made to last; then come the manifest, the
    /// index and the filter of each table, and the log.
    ///
    /// Seven reads at most and two for each table. Nothing is written.
    pub fn open_store<D: Disk>(alloc: Global, disk: &mut D) -> Result<Store<F>, StoreError>
        ensures opens { (s : State) → IsTrue D.tells → IsStateOf F.spelling s (D.world disk.old).seen.held
            → MatchResult result (λ store. Represents F.spelling (filter_bytes_of F.spelling F.built_cutoff) store s (D.world disk.new)) IsFailure }
        ensures answer { IsTrue D.tells → MatchResult result (IsOpenedAs F.spelling (D.world disk.old).seen.held) (IsOpenAnswer F.spelling F.first_fault (D.world disk.old).seen.held) }
        ensures cause { IfErr result (IsOpenRefusal (D.world disk.old) (D.world disk.new)) }
        ensures running { IfOk result (λ store. store.stopped ≡ false) }
        ensures reads { (s : State) → IsTrue D.tells → IsStateOf F.spelling s (D.world disk.old).seen.held → (D.world disk.new).seen.reads ≤ (D.world disk.old).seen.reads + 7 + 2 * length s.tables }
        ensures moves { Moves 0 0 (7 + 2 * max_tables) (D.world disk.old) (D.world disk.new) }
    {
        disk.sync()?;
        Store::read_store(alloc, disk)
    }

    /// Opens the store that a device reads as, for one who writes nothing: as [`Store::open_store`] does, without the sync
    /// before it, so that a device opens too that may only be read. A crash may take back what it finds.
    ///
    /// Seven reads at most and two for each table. Nothing is written or synced.
    pub fn read_store<D: Disk>(alloc: Global, disk: &mut D) -> Result<Store<F>, StoreError>
        ensures shows { (s : State) → IsTrue D.tells → IsStateOf F.spelling s (D.world disk.old).seen.held
            → MatchResult result (λ store. ReadsAs F.spelling (filter_bytes_of F.spelling F.built_cutoff) store s (D.world disk.old).seen.held) IsFailure }
        ensures answer { IsTrue D.tells → MatchResult result (IsOpenedAs F.spelling (D.world disk.old).seen.held) (IsOpenAnswer F.spelling F.first_fault (D.world disk.old).seen.held) }
        ensures cause { IfErr result (IsOpenRefusal (D.world disk.old) (D.world disk.new)) }
        ensures running { IfOk result (λ store. store.stopped ≡ false) }
        ensures idle { IfOk result (λ store. store.job ≡ None) }
        ensures log { (s : State) → IsTrue D.tells → IsStateOf F.spelling s (D.world disk.old).seen.held → IfOk result (λ store. store.log.filled ≡ filled_by s.log) }
        ensures reads { (s : State) → IsTrue D.tells → IsStateOf F.spelling s (D.world disk.old).seen.held → (D.world disk.new).seen.reads ≤ (D.world disk.old).seen.reads + 7 + 2 * length s.tables }
        ensures moves { ReadMoves (7 + 2 * max_tables) (D.world disk.old) (D.world disk.new) }
    {
        let (version, tables) = open_version(alloc, disk)?;
        let (log, changes) = Log::replay(alloc, disk, version.log_area)?;
        Store::of_parts(alloc, version, tables, log, changes)
    }

    // The store of a version, its tables and its log, whose changes are made in memory.
    fn of_parts(
        alloc: Global,
        version: Version,
        tables: Tables<F>,
        log: Log,
        changes: Vec<Change>,
    ) -> Result<Store<F>, StoreError>
        requires version { IsVersion version.version }
        requires slot { version.slot ≤ 1 }
        requires rows { rows_of tables.tables ≡ version.version.rows }
        requires area { version.version.log_page ≡ log_page_of log.area }
        requires log { log.filled ≡ filled_by changes.items }
        requires sound { AllByRecursion IsLoggedChange changes.items }
        requires bounds { AllByRecursion ClearsKeys changes.items }
        requires fits { filled_by changes.items < log_bytes }
        ensures store { IfOk result (λ store. store ≡ record { stopped = false; manifest = version; tables = tables.tables; job = None; log = log; memory = store.memory; buffer = store.buffer; blocks = none_cached }) }
        ensures memory { IfOk result (λ store. source_in store.memory ≡ source_of changes.items) }
        ensures cause { IfErr result (λ why. why ≡ StoreError.Memory) }
    {
        let memory = MemTable::fill(changes)?;
        let buffer = Vec::with_capacity(alloc, LARGEST_BLOCK_BYTES)?;
        let blocks = CachedBlocks::new(alloc)?;
        Ok(Store {
            stopped: false,
            version,
            tables,
            job: None,
            log,
            memory,
            buffer,
            blocks,
            need: None,
        })
    }
}
