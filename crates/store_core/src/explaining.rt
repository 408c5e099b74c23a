//! What is told of a key or of a range without a read.
ghost use Rattle.std.specs.Prelude.{◌≡◌, ◌≤◌, ◌<◌, ◌*◌, ◌^◌, length, count_by, sum_by, false, Some, IfOk, MatchResult};
ghost use Rattle.disk_trait.specs.Image.{Image};
ghost use Rattle.entry_model.specs.Newest.{KeysRise};
ghost use Rattle.key_base.specs.Limits.{max_tables};
ghost use Rattle.line_model.specs.Limits.{limit_of};
ghost use Rattle.line_model.specs.Requests.{Estimate, Explain};
ghost use Rattle.map_model.specs.Slices.{is_before, is_between};
ghost use Rattle.state_model.specs.Bounds.{admitted, blocks_read, estimate};
ghost use Rattle.state_model.specs.State.{State};
ghost use Rattle.store_core.specs.Answers.{IsTried};
ghost use Rattle.store_core.specs.Telling.{IsAskRefusal, is_admitting, is_read_for, tally_of};
ghost use Rattle.store_core.specs.Represents.{ReadsAs};
ghost use Rattle.table_model.specs.Tables.{filter_bytes_of};

use crate::error::StoreError;
use crate::limits::{check_bounds, check_key, is_crossed};
use crate::store::Store;
use filter_api::RangeFilter;
use key_base::compare;
use mem_table::MemTable;
use table_file::Table;

/// How many tables there are, how many of their filters admit a key, and of how many of these a block is read for it.
#[derive(Clone, Copy, Debug, PartialEq, Eq)]
pub struct Explained {
    pub tables: u64,
    pub admitted: u64,
    pub blocks: u64,
}

// How many filters admit the key.
fn admitting<F: RangeFilter>(tables: &[Table<F>], key: &[u8]) -> u64
    ensures { result ≡ count_by (is_admitting key.now) tables.now }
{
    let mut count = 0u64;
    for table in tables {
        if table.filter().may_hold(key) {
            count += 1;
        }
    }
    count
}

// Of how many tables a block is read for the key.
fn read_for<F: RangeFilter>(tables: &[Table<F>], key: &[u8]) -> u64
    ensures { result ≡ count_by (is_read_for key.now) tables.now }
{
    let mut count = 0u64;
    for table in tables {
        if table.block_for(key).is_some() {
            count += 1;
        }
    }
    count
}

// How many keys between two bounds the filters count.
fn tallies<F: RangeFilter>(tables: &[Table<F>], low: &[u8], high: &[u8]) -> u64
    requires order { is_before high.now low.now ≡ false }
    requires few { length tables.now ≤ max_tables }
    ensures sum { result ≡ sum_by (tally_of low.now high.now) tables.now }
    ensures small { result ≤ 2 ^ 32 * length tables.now }
{
    let mut about = 0u64;
    for table in tables {
        about += u64::from(table.filter().tally(low, high));
    }
    about
}

// How many entries of the memory lie between two bounds.
fn entries_between(memory: &MemTable, low: &[u8], high: &[u8]) -> u64
    requires rises { KeysRise memory.now.entries }
    requires some { length memory.now.entries < 2 ^ 32 }
    ensures count { result ≡ count_by (λ e. is_between low.now (Some high.now) e.key) memory.now.entries }
    ensures few { result ≤ length memory.now.entries }
{
    let mut cursor = memory.cursor(low);
    let mut count = 0u64;
    while let Some((key, _)) = cursor.next() {
        if compare(high, key).is_lt() {
            return count;
        }
        count += 1;
    }
    count
}

impl<F: RangeFilter> Store<F> {
    /// About how many keys lie between two bounds, both included: the entries in memory there, tombstones among them, and
    /// for each table what its filter counts. No fewer than there are.
    ///
    /// No read and no memory.
    pub fn estimate(&self, low: &[u8], high: &[u8]) -> Result<u64, StoreError>
        ensures answer { (s : State) (image : Image) → ReadsAs F.spelling (filter_bytes_of F.spelling F.built_cutoff) self.now s image
            → IfOk result (λ n. n ≡ estimate s low.now high.now) }
        ensures refused { MatchResult result (λ _. IsTried self.now.stopped (limit_of (Estimate low.now high.now))) (IsAskRefusal self.now.stopped (limit_of (Estimate low.now high.now))) }
    {
        if self.stopped {
            return Err(StoreError::Stopped);
        }
        check_bounds(low, Some(high))?;
        if is_crossed(low, Some(high)) {
            return Ok(0);
        }
        let in_memory = entries_between(&self.memory, low, high);
        Ok(in_memory + tallies(self.tables.as_slice(), low, high))
    }

    /// How many tables there are, how many of their filters admit a key, and of how many of these a block is read for it.
    ///
    /// No read and no memory.
    pub fn explain(&self, key: &[u8]) -> Result<Explained, StoreError>
        ensures answer { (s : State) (image : Image) → ReadsAs F.spelling (filter_bytes_of F.spelling F.built_cutoff) self.now s image
            → IfOk result (λ e. (e.tables ≡ length s.tables) × (e.admitted ≡ admitted s key.now) × (e.blocks ≡ blocks_read s key.now)) }
        ensures refused { MatchResult result (λ _. IsTried self.now.stopped (limit_of (Explain key.now))) (IsAskRefusal self.now.stopped (limit_of (Explain key.now))) }
    {
        if self.stopped {
            return Err(StoreError::Stopped);
        }
        check_key(key)?;
        // the law of the tables below: a block is read exactly where the state says that its table is searched
        table_file::laws::standing_tables_are_read();
        let tables = self.tables.as_slice();
        Ok(Explained {
            tables: tables.len() as u64,
            admitted: admitting(tables, key),
            blocks: read_for(tables, key),
        })
    }
}
