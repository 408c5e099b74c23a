//! Pairs by rising keys.
ghost use Rattle.std.specs.Prelude.{◌≡◌, ◌≢◌, ◌≤◌, ◌<◌, ◌+◌, ◌^◌, true, false, not, is_some, drop, length, map, Option, Some, None, IsTrue, IsOk, IfOk, IfErr, IfSome, OnOk, OnErr, MatchResult};
ghost use Rattle.std.specs.Option.{option_map};
ghost use Rattle.disk_trait.specs.Image.{Image};
ghost use Rattle.disk_trait.specs.World.{ReadMoves};
ghost use Rattle.entry_model.specs.Entries.{Entry, IsEntry, entry_of};
ghost use Rattle.key_base.specs.ByteOrder.{is_before};
ghost use Rattle.late_rows.specs.Late.{IsSoundLate, late_rows};
ghost use Rattle.line_model.specs.Limits.{limit_of};
ghost use Rattle.line_model.specs.Requests.{Range, Seek};
ghost use Rattle.map_model.specs.Slices.{between, first_pair, is_up_to, slice};
ghost use Rattle.map_model.specs.SortedMap.{Bytes, Map};
ghost use Rattle.merge_rows.specs.Reads.{OnlyReads, PassSound, SomeBlock, blocks_left};
ghost use Rattle.merge_rows.specs.Steps.{AreWalksIn, numbers, stands};
ghost use Rattle.state_model.specs.Bounds.{seek_bound};
ghost use Rattle.state_model.specs.State.{State};
ghost use Rattle.state_model.specs.View.{state_map};
ghost use Rattle.store_core.specs.Answers.{IsTried};
ghost use Rattle.store_core.specs.Getting.{IsUndamaged};
ghost use Rattle.store_search.specs.Searching.{IsLookFault};
ghost use Rattle.store_core.specs.Scans.{AreDoneUpTo, AreUpTo, IsScanDone, IsScanRefusal, IsScanShown, IsStepFault, IsWalkShown, MayRead, StepsOn, StillComes, WakesLate, at_most, blocks_admitting, blocks_on_way, blocks_to_come, filter_admits, given, is_ended, keys_admitting, late_of, left_behind, numbers_admitting, pair_in, pairs_up_to, opened_tables, step_bound, waking_between, walks_between};
ghost use Rattle.store_core.specs.Represents.{ReadsAs};
ghost use Rattle.table_file.specs.Search.{IsGetFault};
ghost use Rattle.table_model.specs.Tables.{filter_bytes_of};

use crate::error::StoreError;
use crate::limits::{check_bounds, is_crossed};
use crate::store::Store;
use disk_trait::Disk;
use filter_api::RangeFilter;
use key_base::compare;
use late_rows::LateRows;
use std::alloc::{AllocError, Global};
use std::marker::Model;
use table_file::{Table, TableFault, Tables};
use waking_keys::waking_key;

/// Pairs of a store, by rising keys. It borrows the store, which so stays as it is.
///
/// All its memory was taken when it was made: a buffer for one block of each table that it may read, the least key that each of
/// them may have, and the upper bound. A table is read once no entry at hand is below that key, and not before.
#[derive(Drop)]
pub struct Scan<'s, F: RangeFilter> {
    tables: &'s Tables<F>,
    // tombstones are rows too, so that no row is read after the next pair
    rows: LateRows<'s>,
    high: Option<Vec<u8>>,
    // how many pairs more at most
    left: Option<u64>,
    // whether the row at hand is a pair
    found: bool,
}

impl<'s, F: RangeFilter> Model for Scan<'s, F> {
    ghost use Rattle.std.specs.Prelude.{◌≡◌, false};
    ghost use Rattle.std.specs.Option.{option_map};
    ghost use Rattle.merge_rows.specs.Steps.{AreWalksIn, stands};
    ghost use Rattle.store_core.specs.Scans.{AreUpTo, ScanWalk, pair_at};

    ghost Value = { ScanWalk };

    ghost view = { λ s. record { tables = s.tables.now.tables; merge = s.rows.merge; asleep = s.rows.asleep; high = option_map (λ v. v.items) s.high; left = s.left; now = pair_at s.found s.rows.merge.now } };

    ghost invariant = { λ s. AreWalksIn s.tables.now.tables (stands s.rows.merge.walks) × (s.rows.merge.drops ≡ false) × AreUpTo (option_map (λ v. v.items) s.high) s.rows.asleep };
}

// Whether the table's filter admits the keys between two bounds; without an upper one it is not asked.
fn admits<F: RangeFilter>(table: &Table<F>, low: &[u8], high: Option<&[u8]>) -> bool
    ensures { result ≡ filter_admits low.now (option_map (λ h. h.now) high.entry) table.now }
{
    match high {
        Some(high) => !is_crossed(low, Some(high)) && table.filter().may_hold_range(low, high),
        None => true,
    }
}

// The least key that the table may have between two bounds, as its filter, its least and its greatest key say it; `None` where
// they say that it has none there.
fn waking_of<F: RangeFilter>(
    alloc: Global,
    table: &Table<F>,
    low: &[u8],
    high: Option<&[u8]>,
) -> Result<Option<Vec<u8>>, AllocError>
    ensures { IfOk result (λ key. option_map (λ k. k.items) key ≡ waking_between low.now (option_map (λ h. h.now) high.entry) table.now) }
{
    if !admits(table, low, high) {
        return Ok(None);
    }
    match waking_key(alloc, table.filter(), table.least(), table.greatest(), low)? {
        Some(key) if !is_crossed(&key, high) => Ok(Some(key)),
        _ => Ok(None),
    }
}

// The numbers of the tables that may have a key between two bounds, counted from the last table; the newest first. And of each its
// waking key there.
fn tables_of<F: RangeFilter>(
    alloc: Global,
    tables: &[Table<F>],
    low: &[u8],
    high: Option<&[u8]>,
) -> Result<(Vec<u32>, Vec<Option<Vec<u8>>>), AllocError>
    requires few { length tables.now < 2 ^ 32 }
    ensures which { IfOk result (λ found. found.0.items ≡ numbers_admitting low.now (option_map (λ h. h.now) high.entry) tables.now) }
    ensures waking { IfOk result (λ found. map (λ o. option_map (λ key. key.items) o) found.1.items ≡ keys_admitting low.now (option_map (λ h. h.now) high.entry) tables.now) }
{
    // Mostly none is admitted, and then nothing is allocated.
    let mut which = Vec::new(alloc);
    let mut waking = Vec::new(alloc);
    for place in 0..tables.len() {
        if let Some(key) = waking_of(alloc, &tables[place], low, high)? {
            which.push((tables.len() - 1 - place) as u32)?;
            waking.push(Some(key))?;
        }
    }
    Ok((which, waking))
}

// Whether a key is above the upper bound, where there is one.
#[inline(always)]
fn is_above(high: &Option<Vec<u8>>, key: &[u8]) -> bool
    ensures { is_up_to (option_map (λ v. v.items) high.now) key.now ≡ not result }
{
    match high {
        Some(high) => is_before(high, key),
        None => false,
    }
}

// Whether a bound is before a key. Where their first bytes differ, these say so with no call.
#[inline(always)]
fn is_before(bound: &[u8], key: &[u8]) -> bool
    ensures { result ≡ is_before bound.now key.now }
{
    if bound.is_empty() || key.is_empty() || bound[0] == key[0] {
        return compare(bound, key).is_lt();
    }
    bound[0] < key[0]
}

// How many pairs more at most, after a step that gave one or not.
fn left_behind(found: bool, left: Option<u64>) -> Option<u64>
    ensures { result ≡ left_behind found left }
{
    if !found {
        return Some(0);
    }
    match left {
        Some(left) => Some(left.saturating_sub(1)),
        None => None,
    }
}

// Goes on to the next pair of some rows up to a bound, and answers whether there is one: its row is then at hand. Tombstones are
// passed over.
#[inline(always)]
fn next_pair<F: RangeFilter, D: Disk>(
    rows: &mut LateRows<'_>,
    disk: &mut D,
    tables: &Tables<F>,
    high: &Option<Vec<u8>>,
) -> Result<bool, TableFault>
    requires there { AreWalksIn tables.now.tables (stands rows.old.merge.walks) }
    requires keeps { rows.old.merge.drops ≡ false }
    requires up_to { AreUpTo (option_map (λ v. v.items) high.now) rows.old.asleep }
    ensures late { WakesLate D.tells tables.now.tables (D.world disk.old).seen.held (option_map (λ v. v.items) high.now) rows.old rows.new }
    ensures some { IfOk result (λ found. found ≡ true → is_some (pair_in rows.new.merge.now) ≡ true) }
    ensures pairs { IsTrue D.tells → IsSoundLate rows.old tables.now.tables (D.world disk.old).seen.held
        → IfOk result (λ found. pairs_up_to (option_map (λ v. v.items) high.now) (late_rows rows.old tables.now.tables (D.world disk.old).seen.held)
        ≡ given found rows.new.merge.now (pairs_up_to (option_map (λ v. v.items) high.now) (late_rows rows.new tables.now.tables (D.world disk.old).seen.held))) }
    ensures stays { IsTrue D.tells → IsSoundLate rows.old tables.now.tables (D.world disk.old).seen.held
        → OnErr result (pairs_up_to (option_map (λ v. v.items) high.now) (late_rows rows.new tables.now.tables (D.world disk.old).seen.held)
        ≡ pairs_up_to (option_map (λ v. v.items) high.now) (late_rows rows.old tables.now.tables (D.world disk.old).seen.held)) }
    ensures bounded { IsTrue D.tells → IsSoundLate rows.old tables.now.tables (D.world disk.old).seen.held
        → (D.world disk.new).seen.reads ≤ (D.world disk.old).seen.reads + blocks_on_way (option_map (λ v. v.items) high.now) rows.old tables.now.tables (D.world disk.old).seen.held }
    ensures owed { IsTrue D.tells → IsSoundLate rows.old tables.now.tables (D.world disk.old).seen.held
        → OnErr result (1 ≤ blocks_on_way (option_map (λ v. v.items) high.now) rows.old tables.now.tables (D.world disk.old).seen.held) }
    ensures spent { IsTrue D.tells → IsSoundLate rows.old tables.now.tables (D.world disk.old).seen.held
        → OnOk result ((D.world disk.new).seen.reads + blocks_left tables.now.tables rows.new.merge.walks ≤ (D.world disk.old).seen.reads + blocks_left tables.now.tables rows.old.merge.walks) }
    ensures tried { IsTrue D.tells → IsSoundLate rows.old tables.now.tables (D.world disk.old).seen.held
        → OnErr result ((D.world disk.new).seen.reads ≤ (D.world disk.old).seen.reads + blocks_left tables.now.tables rows.old.merge.walks) }
    ensures passes { IsTrue D.tells → PassSound tables.now.tables (D.world disk.old).seen.held rows.old.merge.walks rows.new.merge.walks }
    ensures done { IfOk result (λ found. found ≡ false → AreDoneUpTo (option_map (λ v. v.items) high.now) tables.now.tables rows.new.merge.walks) }
    ensures steps { IsTrue D.tells → OnOk result (StepsOn tables.now.tables (D.world disk.old).seen.held rows.old.merge rows.new.merge) }
    ensures only_if_read { OnErr result (1 ≤ length rows.old.merge.walks) }
    ensures cause { IfErr result (IsLookFault (D.world disk.old) (D.world disk.new)) }
    ensures fault { IsTrue D.tells → IfErr result (λ why. SomeBlock tables.now.tables (numbers rows.old.merge.walks) (λ t n. IsGetFault t n (D.world disk.old).seen.held why)) }
    ensures moves { OnlyReads (D.world disk.old) (D.world disk.new) }
{
    // the law of the layer below: the keys of rows rise
    merge_rows::laws::merged_laws();
    while rows.advance(disk, tables)? {
        match rows.entry() {
            Some((key, value)) => {
                if is_above(high, key) {
                    return Ok(false);
                }
                if value.is_some() {
                    return Ok(true);
                }
            }
            None => return Ok(false),
        }
    }
    Ok(false)
}

// A copy of the upper bound, where there is one.
fn copy_of(alloc: Global, bound: Option<&[u8]>) -> Result<Option<Vec<u8>>, AllocError>
    ensures { IfOk result (λ copy. option_map (λ v. v.items) copy ≡ option_map (λ b. b.now) bound.entry) }
{
    match bound {
        Some(bytes) => Ok(Some(Vec::from_slice(alloc, bytes)?)),
        None => Ok(None),
    }
}

impl<F: RangeFilter> Store<F> {
    /// The pairs from a bound on, up to another one where it is given, both included. A bound may be empty.
    ///
    /// It takes all the memory of the scan, and reads nothing. The first step of a closed scan reads one block at most of each
    /// table whose filter admits the keys up to the first pair, or up to the upper bound where there is none, and one more for
    /// each entry of a deleted key that it passes over. In all each block of the tables that may have a key between the bounds
    /// is read once at most, where no read fails.
    pub fn seek(&self, low: &[u8], high: Option<&[u8]>) -> Result<Scan<'_, F>, StoreError>
        ensures shows { (s : State) (image : Image) → ReadsAs F.spelling (filter_bytes_of F.spelling F.built_cutoff) self.now s image
            → IfOk result (λ scan. StillComes F.spelling scan (between (state_map s) low.now (option_map (λ h. h.now) high.entry)) image) }
        ensures bounded { (s : State) (image : Image) (hi : Bytes) → ReadsAs F.spelling (filter_bytes_of F.spelling F.built_cutoff) self.now s image
            → option_map (λ h. h.now) high.entry ≡ Some hi → IfOk result (λ scan. step_bound scan image ≤ seek_bound s low.now hi) }
        ensures only_if_read { (s : State) (image : Image) → ReadsAs F.spelling (filter_bytes_of F.spelling F.built_cutoff) self.now s image
            → IfOk result (λ scan. 1 ≤ opened_tables scan → MayRead s low.now (option_map (λ h. h.now) high.entry)) }
        ensures blocks { IfOk result (λ scan. blocks_to_come scan ≤ blocks_admitting low.now (option_map (λ h. h.now) high.entry) self.now.tables) }
        ensures made { IfOk result (λ scan. (scan.tables ≡ self.now.tables) × (scan.left ≡ None)) }
        ensures begins { IfOk result (λ scan. (scan.high ≡ option_map (λ h. h.now) high.entry) × (scan.merge.walks ≡ walks_between low.now (option_map (λ h. h.now) high.entry) self.now.tables)
            × (scan.asleep ≡ keys_admitting low.now (option_map (λ h. h.now) high.entry) self.now.tables)) }
        ensures refused { MatchResult result (λ _. IsTried self.now.stopped (limit_of (Seek low.now (option_map (λ h. h.now) high.entry)))) (IsScanRefusal self.now.stopped (limit_of (Seek low.now (option_map (λ h. h.now) high.entry)))) }
    {
        self.scan(low, high, None)
    }

    /// The first pairs between two bounds, both included: that many at most.
    ///
    /// It takes all the memory of the scan, and reads nothing. Once a given number of pairs were given nothing more is read.
    pub fn range(&self, low: &[u8], high: &[u8], most: u64) -> Result<Scan<'_, F>, StoreError>
        ensures shows { (s : State) (image : Image) → ReadsAs F.spelling (filter_bytes_of F.spelling F.built_cutoff) self.now s image
            → IfOk result (λ scan. StillComes F.spelling scan (slice (state_map s) low.now (Some high.now) most) image) }
        ensures bounded { (s : State) (image : Image) → ReadsAs F.spelling (filter_bytes_of F.spelling F.built_cutoff) self.now s image
            → IfOk result (λ scan. step_bound scan image ≤ seek_bound s low.now high.now) }
        ensures only_if_read { (s : State) (image : Image) → ReadsAs F.spelling (filter_bytes_of F.spelling F.built_cutoff) self.now s image
            → IfOk result (λ scan. 1 ≤ opened_tables scan → MayRead s low.now (Some high.now)) }
        ensures blocks { IfOk result (λ scan. blocks_to_come scan ≤ blocks_admitting low.now (Some high.now) self.now.tables) }
        ensures made { IfOk result (λ scan. (scan.tables ≡ self.now.tables) × (scan.left ≡ Some most)) }
        ensures begins { IfOk result (λ scan. (scan.high ≡ Some high.now) × (scan.merge.walks ≡ walks_between low.now (Some high.now) self.now.tables)
            × (scan.asleep ≡ keys_admitting low.now (Some high.now) self.now.tables)) }
        ensures refused { MatchResult result (λ _. IsTried self.now.stopped (limit_of (Range low.now high.now most))) (IsScanRefusal self.now.stopped (limit_of (Range low.now high.now most))) }
    {
        self.scan(low, Some(high), Some(most))
    }

    // The pairs between two bounds, that many at most where a number is given.
    fn scan(
        &self,
        low: &[u8],
        high: Option<&[u8]>,
        most: Option<u64>,
    ) -> Result<Scan<'_, F>, StoreError>
        ensures shows { (s : State) (image : Image) → ReadsAs F.spelling (filter_bytes_of F.spelling F.built_cutoff) self.now s image
            → IfOk result (λ scan. StillComes F.spelling scan (at_most most (between (state_map s) low.now (option_map (λ h. h.now) high.entry))) image) }
        ensures bounded { (s : State) (image : Image) (hi : Bytes) → ReadsAs F.spelling (filter_bytes_of F.spelling F.built_cutoff) self.now s image
            → option_map (λ h. h.now) high.entry ≡ Some hi → IfOk result (λ scan. step_bound scan image ≤ seek_bound s low.now hi) }
        ensures only_if_read { (s : State) (image : Image) → ReadsAs F.spelling (filter_bytes_of F.spelling F.built_cutoff) self.now s image
            → IfOk result (λ scan. 1 ≤ opened_tables scan → MayRead s low.now (option_map (λ h. h.now) high.entry)) }
        ensures blocks { IfOk result (λ scan. blocks_to_come scan ≤ blocks_admitting low.now (option_map (λ h. h.now) high.entry) self.now.tables) }
        ensures made { IfOk result (λ scan. (scan.tables ≡ self.now.tables) × (scan.left ≡ most)) }
        ensures begins { IfOk result (λ scan. (scan.high ≡ option_map (λ h. h.now) high.entry) × (scan.merge.walks ≡ walks_between low.now (option_map (λ h. h.now) high.entry) self.now.tables)
            × (scan.asleep ≡ keys_admitting low.now (option_map (λ h. h.now) high.entry) self.now.tables)) }
        ensures refused { MatchResult result (λ _. IsTried self.now.stopped (limit_of (Seek low.now (option_map (λ h. h.now) high.entry)))) (IsScanRefusal self.now.stopped (limit_of (Seek low.now (option_map (λ h. h.now) high.entry)))) }
    {
        if self.stopped {
            return Err(StoreError::Stopped);
        }
        check_bounds(low, high)?;
        // the laws of the layers below, of rows and of tables on the device
        merge_rows::laws::merged_laws();
        late_rows::standing_tables_sleep();
        table_file::laws::standing_tables_are_read();
        let alloc = *self.buffer.allocator();
        let (which, waking) = tables_of(alloc, self.tables.as_slice(), low, high)?;
        let rows = LateRows::new(which, waking, &self.tables, Some(&self.memory), low)?;
        let copy = copy_of(alloc, high)?;
        Ok(Scan {
            tables: &self.tables,
            rows,
            high: copy,
            left: most,
            found: false,
        })
    }
}

impl<'s, F: RangeFilter> Scan<'s, F> {
    ghost use Rattle.std.specs.Borrow.{sem};
    ghost use Rattle.store_core.specs.Lends.{scan_ends};

    /// The key and the value of the pair at hand, or `None` where none is.
    pub fn pair(&self) -> Option<(&[u8], &[u8])>
        ensures now { option_map (λ p. (p.0.now, p.1.now)) result ≡ self.now.now }
        ensures sound { IfSome result (λ p. IsEntry (entry_of p.0.now (Some p.1.now))) }
    {
        if !self.found {
            return None;
        }
        match self.rows.entry() {
            Some((key, Some(value))) => Some((key, value)),
            _ => None,
        }
    }

    /// Goes on to the next pair, and answers whether there is one: it is then at hand. No memory.
    ///
    /// At `Err` it is where it stood, and the next step tries again. Where a given number of pairs were given as were asked for,
    /// nothing is read.
    //
    // It goes into its callers, as the merge's step does: a scan of a hundred pairs takes a hundred steps.
    #[inline(always)]
    pub fn advance<D: Disk>(&mut self, disk: &mut D) -> Result<bool, StoreError>
        ensures pairs { (m : Map) → IsTrue D.tells → StillComes F.spelling self.old m (D.world disk.old).seen.held
            → OnOk result ((self.new.now ≡ first_pair m) × StillComes F.spelling self.new (drop 1 m) (D.world disk.old).seen.held) }
        ensures stays { (m : Map) → IsTrue D.tells → StillComes F.spelling self.old m (D.world disk.old).seen.held → OnErr result (StillComes F.spelling self.new m (D.world disk.old).seen.held) }
        ensures said { IfOk result (λ some. some ≡ is_some self.new.now) }
        ensures none_at_hand { OnErr result (self.new.now ≡ None) }
        ensures undamaged { (m : Map) → IsTrue D.tells → StillComes F.spelling self.old m (D.world disk.old).seen.held → IfErr result IsUndamaged }
        ensures shown { IsTrue D.tells → IfErr result (IsScanShown self.old.tables (D.world disk.old).seen.held) }
        ensures walked { IsTrue D.tells → IfErr result (IsWalkShown self.old.tables (numbers self.old.merge.walks) (D.world disk.old).seen.held) }
        ensures bounded { (m : Map) → IsTrue D.tells → StillComes F.spelling self.old m (D.world disk.old).seen.held
            → (D.world disk.new).seen.reads ≤ (D.world disk.old).seen.reads + step_bound self.old (D.world disk.old).seen.held }
        ensures spent { (m : Map) → IsTrue D.tells → StillComes F.spelling self.old m (D.world disk.old).seen.held
            → OnOk result ((D.world disk.new).seen.reads + blocks_to_come self.new ≤ (D.world disk.old).seen.reads + blocks_to_come self.old) }
        ensures tried { (m : Map) → IsTrue D.tells → StillComes F.spelling self.old m (D.world disk.old).seen.held
            → OnErr result ((D.world disk.new).seen.reads ≤ (D.world disk.old).seen.reads + blocks_to_come self.old) }
        ensures passes { IsTrue D.tells → PassSound self.old.tables (D.world disk.old).seen.held self.old.merge.walks self.new.merge.walks }
        ensures done { IfOk result (λ some. some ≡ false → self.old.left ≢ Some 0 → IsScanDone self.new) }
        ensures steps { IsTrue D.tells → OnOk result (self.old.left ≢ Some 0 → StepsOn self.old.tables (D.world disk.old).seen.held self.old.merge self.new.merge) }
        ensures owed { (m : Map) → IsTrue D.tells → StillComes F.spelling self.old m (D.world disk.old).seen.held → OnErr result (1 ≤ step_bound self.old (D.world disk.old).seen.held) }
        ensures late { WakesLate D.tells self.old.tables (D.world disk.old).seen.held self.old.high (late_of self.old) (late_of self.new) }
        ensures only_if_read { OnErr result ((1 ≤ opened_tables self.old) × (self.old.left ≢ Some 0)) }
        ensures more { IfOk result (λ some. some ≡ true → self.old.left ≢ Some 0) }
        ensures ended { self.old.left ≡ Some 0 → IsOk result × ReadMoves 0 (D.world disk.old) (D.world disk.new) }
        ensures counts { IfOk result (λ some. self.new.left ≡ left_behind some self.old.left) }
        ensures left { OnErr result (self.new.left ≡ self.old.left) }
        ensures same { (self.new.tables ≡ self.old.tables) × (opened_tables self.new ≡ opened_tables self.old) }
        ensures high { self.new.high ≡ self.old.high }
        ensures refused { IfErr result (IsStepFault (D.world disk.old) (D.world disk.new)) }
        ensures moves { OnlyReads (D.world disk.old) (D.world disk.new) }
    {
        self.found = false;
        if self.has_ended() {
            return Ok(false);
        }
        // the law of the tables below: no read of a block of one that is there is damage
        table_file::laws::standing_tables_are_read();
        let found = next_pair(&mut self.rows, disk, self.tables, &self.high)?;
        let left = left_behind(found, self.left);
        self.found = found;
        self.left = left;
        Ok(found)
    }

    /// The next pair, or `None` where there is none: [`advance`](Scan::advance), and then the [`pair`](Scan::pair) at hand.
    pub fn step<D: Disk>(&mut self, disk: &mut D) -> Result<Option<(&[u8], &[u8])>, StoreError>
        ensures* after { sem 𝓛 (scan_ends F.row F.RangeFilter self.entry (λ scan. ((m : Map) → IsTrue D.tells → StillComes F.spelling self.old m (D.world disk.old).seen.held
            → MatchResult result (λ found. (option_map (λ p. (p.0.now, p.1.now)) found ≡ first_pair m) × StillComes F.spelling scan (drop 1 m) (D.world disk.old).seen.held)
            (λ _. StillComes F.spelling scan m (D.world disk.old).seen.held))
            × (scan.tables ≡ self.old.tables) × (scan.high ≡ self.old.high)
            × (IsTrue D.tells → PassSound self.old.tables (D.world disk.old).seen.held self.old.merge.walks scan.merge.walks)
            × IfOk result (λ found. scan.left ≡ left_behind (is_some found) self.old.left) × OnErr result (scan.left ≡ self.old.left)
            × (IsTrue D.tells → OnOk result (self.old.left ≢ Some 0 → StepsOn self.old.tables (D.world disk.old).seen.held self.old.merge scan.merge))
            × IfOk result (λ found. is_some found ≡ false → self.old.left ≢ Some 0 → IsScanDone scan))) }
        ensures sound { IfOk result (λ found. IfSome found (λ p. IsEntry (entry_of p.0.now (Some p.1.now)))) }
        ensures undamaged { (m : Map) → IsTrue D.tells → StillComes F.spelling self.old m (D.world disk.old).seen.held → IfErr result IsUndamaged }
        ensures shown { IsTrue D.tells → IfErr result (IsScanShown self.old.tables (D.world disk.old).seen.held) }
        ensures walked { IsTrue D.tells → IfErr result (IsWalkShown self.old.tables (numbers self.old.merge.walks) (D.world disk.old).seen.held) }
        ensures bounded { (m : Map) → IsTrue D.tells → StillComes F.spelling self.old m (D.world disk.old).seen.held
            → (D.world disk.new).seen.reads ≤ (D.world disk.old).seen.reads + step_bound self.old (D.world disk.old).seen.held }
        ensures ended { self.old.left ≡ Some 0 → IsOk result × ReadMoves 0 (D.world disk.old) (D.world disk.new) }
        ensures refused { IfErr result (IsStepFault (D.world disk.old) (D.world disk.new)) }
        ensures moves { OnlyReads (D.world disk.old) (D.world disk.new) }
    {
        match self.advance(disk) {
            Ok(_) => Ok(self.pair()),
            Err(why) => Err(why),
        }
    }

    // Whether a given number of pairs were given as were asked for, or no more are there.
    fn has_ended(&self) -> bool
        ensures { result ≡ is_ended self.now.left }
    {
        match self.left {
            Some(left) => left == 0,
            None => false,
        }
    }
}
