//! How many pairs the tables of one deeper level have: no key is in two of them, so their entries that have a value are counted.
ghost use Rattle.std.specs.Prelude.{◌≡◌, ◌≤◌, ◌<◌, ◌+◌, ◌*◌, ◌^◌, List, length, IsTrue, IfOk, IfErr, MatchOption, MatchResult, None};
ghost use Rattle.std.specs.List.{AllByRecursion, sum_by};
ghost use Rattle.block_format.specs.Walking.{StandsAfter, walked};
ghost use Rattle.block_model.specs.BlockReading.{block_in};
ghost use Rattle.block_model.specs.Laws.{joined};
ghost use Rattle.block_model.specs.Pages.{page_bytes};
ghost use Rattle.block_model.specs.Places.{FitsDevice};
ghost use Rattle.disk_trait.specs.Image.{Image};
ghost use Rattle.filter_api.specs.Spellings.{Spelling};
ghost use Rattle.image_model.specs.Findings.{blocks_at};
ghost use Rattle.image_model.specs.Tables.{AreTablesOf};
ghost use Rattle.key_base.specs.Limits.{max_key_bytes, max_tables};
ghost use Rattle.state_model.specs.WithoutRanges.{HasNoRange};
ghost use Rattle.table_model.specs.Damage.{AreSoundBlocks};
ghost use Rattle.table_model.specs.Tables.{Table};
ghost use Rattle.store_check.specs.Causes.{OnlyReads};
ghost use Rattle.store_check.specs.Places.{damage_at, page_of, part_of};
ghost use Rattle.store_check.specs.Summaries.{HasSummaryCause, IsDamage, IsUndamaged};
ghost use Rattle.store_check.specs.Values.{all_on, are_on_one_level, table_values, value_at_hand, values_in};

use crate::blocks::{read_bytes, sound_walk};
use crate::summary::SummaryError;
use block_format::{EntryWalk, ValuePlace};
use byte_fields::Row;
use disk_trait::Disk;
use key_base::MAX_KEY_BYTES;
use std::alloc::Global;
use table_file::{Index, read_index};

/// Whether the tables of some rows are all on one level deeper than 0, where keys rise from table to table.
pub(crate) fn are_on_one_level(rows: &[Row]) -> bool
    ensures { result ≡ are_on_one_level rows.now }
{
    match rows.split_first() {
        Some((first, others)) => first.level != 0 && are_all_on(others, first.level),
        None => true,
    }
}

// Whether the tables of some rows are on a level.
fn are_all_on(rows: &[Row], level: u8) -> bool
    ensures { result ≡ all_on level rows.now }
{
    for row in rows {
        if row.level != level {
            return false;
        }
    }
    true
}

/// How many entries of the tables of some rows have a value. `None` where a table has deleted ranges.
///
/// Each index and each block is read once, and summed. It takes the memory of an index and of a block.
pub(crate) fn values_of_tables<D: Disk>(
    alloc: Global,
    disk: &mut D,
    rows: &[Row],
) -> Result<Option<u64>, SummaryError>
    requires fits { AllByRecursion FitsDevice rows.now }
    requires few { length rows.now ≤ max_tables }
    ensures values { (spelling : Spelling) (tables : List Table) → IsTrue D.tells → AreTablesOf spelling rows.now tables (D.world disk.old).seen.held
        → MatchResult result (λ found. MatchOption found (AllByRecursion HasNoRange tables → ⊥) (λ values. values ≡ sum_by table_values tables)) IsUndamaged }
    ensures cause { IfErr result (HasSummaryCause (D.world disk.old) (D.world disk.new)) }
    ensures moves { OnlyReads (D.world disk.old) (D.world disk.new) }
{
    let mut values = 0u64;
    for row in rows {
        let index = read_index(alloc, disk, row)?;
        if !index.ranges().is_empty() {
            return Ok(None);
        }
        values += values_of_blocks(alloc, disk, &index)?;
    }
    Ok(Some(values))
}

// How many entries of the blocks of an index have a value.
fn values_of_blocks<D: Disk>(
    alloc: Global,
    disk: &mut D,
    index: &Index,
) -> Result<u64, SummaryError>
    ensures values { IsTrue D.tells → AreSoundBlocks index.now.row.first_page index.now.index.rows (D.world disk.old).seen.held
        → MatchResult result (λ values. values ≡ values_in (joined (blocks_at index.now.row.first_page index.now.index.rows (D.world disk.old).seen.held))) IsUndamaged }
    ensures most { IfOk result (λ values. values ≤ 2 ^ 40) }
    ensures cause { IfErr result (HasSummaryCause (D.world disk.old) (D.world disk.new)) }
    ensures moves { OnlyReads (D.world disk.old) (D.world disk.new) }
{
    let mut values = 0u64;
    for n in 0..index.blocks() {
        let bytes = read_bytes(alloc, disk, index, n)?;
        let more = values_of_block(index, n, &bytes)?;
        values += u64::from(more);
    }
    Ok(values)
}

// How many entries of the block number `n`, whose bytes these are, have a value.
fn values_of_block(index: &Index, n: u32, bytes: &[u8]) -> Result<u8, SummaryError>
    requires there { n < length index.now.index.rows }
    requires place { page_bytes * page_of index.now n + length bytes.now ≤ 2 ^ 36 }
    ensures values { IfOk result (λ values. values ≡ values_in (block_in bytes.now)) }
    ensures most { IfOk result (λ values. values < 2 ^ 8) }
    ensures undamaged { (image : Image) → part_of index.now n image ≡ bytes.now → damage_at index.now n image ≡ None → IfErr result IsUndamaged }
    ensures damaged { IfErr result IsDamage }
{
    let mut buffer = [0; MAX_KEY_BYTES];
    let walk = sound_walk(index, n, bytes, &mut buffer)?;
    Ok(count_values(bytes, walk, &mut buffer))
}

// How many of the entries that a walk comes by have a value.
fn count_values(bytes: &[u8], walk: EntryWalk, buffer: &mut [u8]) -> u8
    requires room { max_key_bytes ≤ length buffer.old }
    requires stands { StandsAfter walk buffer.old bytes.now }
    ensures { result ≡ values_in (walked walk buffer.old bytes.now) }
{
    let mut on = walk;
    let mut values = 0;
    for _ in 0..walk.left {
        let place = on.advance(bytes, buffer);
        values += value_at_hand(place);
    }
    values
}

// 1 where an entry has a value at this place, else 0.
fn value_at_hand(place: Option<Option<ValuePlace>>) -> u8
    ensures { result ≡ value_at_hand place }
{
    match place {
        Some(Some(_)) => 1,
        _ => 0,
    }
}
