//! How many pages tables take.
ghost use Rattle.std.specs.Prelude.{◌≡◌, ◌+◌, length, sum_by, IfOk};
ghost use Rattle.block_model.specs.Pages as model;
ghost use Rattle.block_model.specs.Pages.{index_length_with};
ghost use Rattle.table_model.specs.Tables.{filter_bytes_of, source_pages, table_from, table_pages};

use crate::filters::filter_length;
use crate::ranges::{DeletedRange, copied_ranges};
use crate::source::Source;
use crate::table::Table;
use block_model::pages_for;
use entry_list::{Entry, copied};
use filter_api::{RangeFilter, Settings};
use plain_blocks::{are_entries, cut, index_length};
use std::alloc::{AllocError, Global};

/// The pages of the blocks of some entries. It gives up where they are not entries of a table.
pub(crate) fn data_pages(alloc: Global, entries: &[Entry]) -> Result<u64, AllocError>
    ensures { IfOk result (λ pages. pages ≡ model.data_pages entries.now) }
{
    if !are_entries(entries) {
        return Err(AllocError);
    }
    plain_blocks::data_pages(alloc, entries)
}

// The bytes that a range takes in an index: its two keys with their lengths.
fn range_length(range: &DeletedRange) -> Result<u64, AllocError>
    ensures { IfOk result (λ bytes. bytes ≡ 4 + length range.now.lo + length range.now.hi) }
{
    4u64.checked_add(range.lo().len() as u64)
        .ok_or(AllocError)?
        .checked_add(range.hi().len() as u64)
        .ok_or(AllocError)
}

// The bytes that ranges take in an index.
fn ranges_length(ranges: &[DeletedRange]) -> Result<u64, AllocError>
    ensures { IfOk result (λ bytes. bytes ≡ sum_by (λ r. 4 + length r.lo + length r.hi) ranges.now) }
{
    let mut bytes = 0u64;
    for range in ranges {
        bytes = bytes.checked_add(range_length(range)?).ok_or(AllocError)?;
    }
    Ok(bytes)
}

// The bytes of the index of entries with ranges. It gives up where they are not entries of a table.
fn bytes_of_index(
    alloc: Global,
    entries: &[Entry],
    ranges: &[DeletedRange],
) -> Result<u64, AllocError>
    ensures { IfOk result (λ bytes. bytes ≡ index_length_with entries.now ranges.now) }
{
    if !are_entries(entries) {
        return Err(AllocError);
    }
    let bytes = index_length(alloc, entries)?;
    let Some(_) = ranges.split_first() else {
        return Ok(bytes);
    };
    let more = 4u64.checked_add(ranges_length(ranges)?).ok_or(AllocError)?;
    bytes.checked_add(more).ok_or(AllocError)
}

/// The pages of a table of some entries: its blocks, its index and its filter.
pub fn table_pages<F: RangeFilter>(
    alloc: Global,
    settings: Settings,
    entries: &[Entry],
) -> Result<u64, AllocError>
    ensures { IfOk result (λ pages. pages ≡ table_pages (filter_bytes_of F.spelling F.built_cutoff) settings entries.now) }
{
    pages_with::<F>(alloc, settings, entries, &[])
}

/// The pages of a table of a source.
pub(crate) fn source_pages<F: RangeFilter>(
    alloc: Global,
    settings: Settings,
    source: &Source,
) -> Result<u64, AllocError>
    ensures { IfOk result (λ pages. pages ≡ source_pages (filter_bytes_of F.spelling F.built_cutoff) settings source.now) }
{
    pages_with::<F>(
        alloc,
        settings,
        source.entries.as_slice(),
        source.ranges.as_slice(),
    )
}

// The pages of a table of entries with ranges: its blocks, its index and its filter.
fn pages_with<F: RangeFilter>(
    alloc: Global,
    settings: Settings,
    entries: &[Entry],
    ranges: &[DeletedRange],
) -> Result<u64, AllocError>
    ensures { IfOk result (λ pages. pages ≡ source_pages (filter_bytes_of F.spelling F.built_cutoff) settings (record { entries = entries.now; ranges = ranges.now })) }
{
    let data = data_pages(alloc, entries)?;
    let index = pages_for(bytes_of_index(alloc, entries, ranges)?);
    let filter = pages_for(filter_length::<F>(alloc, settings, entries)?);
    data.checked_add(index)
        .ok_or(AllocError)?
        .checked_add(filter)
        .ok_or(AllocError)
}

// Of how many blocks a table of some entries is made.
fn block_count(alloc: Global, entries: &[Entry]) -> Result<u64, AllocError>
    ensures { IfOk result (λ n. n ≡ length (model.blocks_of entries.now)) }
{
    if !are_entries(entries) {
        return Err(AllocError);
    }
    let blocks = cut(alloc, entries)?;
    Ok(blocks.len() as u64)
}

/// The table of a source, where it is placed.
pub(crate) fn table_from<F: RangeFilter>(
    alloc: Global,
    settings: Settings,
    level: u8,
    first_page: u64,
    source: &Source,
) -> Result<Table, AllocError>
    ensures { IfOk result (λ t. t ≡ table_from (filter_bytes_of F.spelling F.built_cutoff) settings level first_page source.now) }
{
    let pages = source_pages::<F>(alloc, settings, source)?;
    let blocks = block_count(alloc, source.entries.as_slice())?;
    let entries = copied(alloc, source.entries.as_slice())?;
    let ranges = copied_ranges(alloc, source.ranges.as_slice())?;
    Ok(Table {
        level,
        first_page,
        pages,
        blocks,
        settings,
        entries,
        ranges,
    })
}
