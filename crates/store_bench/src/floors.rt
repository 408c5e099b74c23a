//! The floors of the calls: the same filters, asked for the same, and as many pages read and summed as the bound of reads allows.
ghost use Rattle.std.specs.Prelude.{◌≡◌};
ghost use Rattle.key_base.specs.ByteOrder.{is_before};

use crate::calls::Call;
use crate::counted::Device;
use crate::keys::Query;
use crate::made::Made;
use anyhow::{Result, bail};
use byte_fields::fnv1a;
use disk_trait::Disk;
use filter_api::RangeFilter;
use key_base::{PAGE_BYTES, compare};

/// Asks the filters for each query, and reads and sums a page for each block that the store may read for it. Answers how many
/// these are.
pub fn floor<F: RangeFilter>(
    call: Call,
    disk: &mut Device,
    made: &Made<F>,
    queries: &[Query],
) -> Result<usize> {
    let mut blocks = 0usize;
    for query in queries {
        let most = bound(call, &made.filters, *query);
        for _ in 0..most {
            read(disk, &made.pages, query.low.wrapping_add(blocks as u64))?;
            blocks = blocks.saturating_add(1);
        }
    }
    Ok(blocks)
}

/// How many blocks the store may read for these queries.
pub fn bounds<F: RangeFilter>(call: Call, filters: &[F], queries: &[Query]) -> usize {
    let mut blocks = 0usize;
    for query in queries {
        blocks = blocks.saturating_add(bound(call, filters, *query));
    }
    blocks
}

fn bound<F: RangeFilter>(call: Call, filters: &[F], query: Query) -> usize {
    match call {
        Call::Seek => admitting(filters, query),
        Call::Get => searched(filters, query),
    }
}

/// How many filters admit a range: no key of these stores is deleted, so no more blocks are read for it.
pub fn admitting<F: RangeFilter>(filters: &[F], query: Query) -> usize {
    let low = query.low.to_be_bytes();
    let high = query.high.to_be_bytes();
    if is_before(&high, &low) {
        return 0;
    }
    let mut some = 0usize;
    for filter in filters {
        if filter.may_hold_range(&low, &high) {
            some = some.saturating_add(1);
        }
    }
    some
}

// How many filters admit the lower bound as a key, up to that of the table which has it.
fn searched<F: RangeFilter>(filters: &[F], query: Query) -> usize {
    let key = query.low.to_be_bytes();
    let mut some = 0usize;
    for (place, filter) in filters.iter().enumerate() {
        if filter.may_hold(&key) {
            some = some.saturating_add(1);
        }
        if query.place == Some(place) {
            return some;
        }
    }
    some
}

fn is_before(x: &[u8], y: &[u8]) -> bool
    ensures { result ≡ is_before x.now y.now }
{
    compare(x, y).is_lt()
}

/// Reads and sums these pages, one after the other: the floor of a walk. Answers how many they are.
pub fn read_all(disk: &mut Device, pages: &[u32]) -> Result<usize> {
    for i in 0..pages.len() {
        read(disk, pages, i as u64)?;
    }
    Ok(pages.len())
}

// Reads and sums one of these pages.
fn read(disk: &mut Device, pages: &[u32], number: u64) -> Result<()> {
    let mut bytes = [0; PAGE_BYTES];
    let place = number as usize % pages.len().max(1);
    let page = pages.get(place).copied().unwrap_or(0);
    if disk
        .read(PAGE_BYTES as u64 * u64::from(page), &mut bytes)
        .is_err()
        || fnv1a(&bytes) == 0
    {
        bail!("a read failed");
    }
    Ok(())
}
