//! The index of a table.
use crate::bytes::{comes_before, eight, four, part, two};
use crate::finding::{Stop, refuse, refuse_sum};
use byte_fields::{Row, fnv1a};
use std::alloc::{AllocError, Global};

// `SRFI`, and `SRFJ` where ranges come after the rows.
const MAGIC: u32 = 0x4946_5253;

const RANGES_MAGIC: u32 = 0x4A46_5253;

/// A row of an index.
#[derive(Drop)]
pub(crate) struct IndexRow {
    pub pages: u32,
    pub sum: u64,
    pub last: Vec<u8>,
}

/// An index.
#[derive(Drop)]
pub(crate) struct Index {
    pub least: Vec<u8>,
    pub rows: Vec<IndexRow>,
}

impl Index {
    /// The last key of all, no byte where there is no row.
    pub(crate) fn greatest(&self) -> &[u8] {
        match self.rows.last() {
            Some(row) => row.last.as_slice(),
            None => b"",
        }
    }
}

fn is_no_key(length: u16) -> bool {
    length == 0 || length > 1_024
}

// Rules 1 to 4 of the head.
fn judge_head(bytes: &[u8]) -> Result<(), Stop> {
    let length = bytes.len() as u64;
    let least = two(bytes, 8);
    refuse(length < 10 + u64::from(least), length, 1)?;
    let magic = four(bytes, 0);
    refuse(magic != MAGIC && magic != RANGES_MAGIC, 0, 2)?;
    refuse(four(bytes, 4) == 0, 4, 3)?;
    refuse(is_no_key(least), 8, 4)
}

// The row at a place, with rules 1, 4 and 6.
fn row_at(alloc: Global, bytes: &[u8], place: u64) -> Result<IndexRow, Stop> {
    let length = bytes.len() as u64;
    let many = two(bytes, place.saturating_add(12));
    let end = place.saturating_add(14 + u64::from(many));
    refuse(length < end, length, 1)?;
    refuse(is_no_key(many), place.saturating_add(12), 4)?;
    Ok(IndexRow {
        pages: four(bytes, place),
        sum: eight(bytes, place.saturating_add(4)),
        last: part(alloc, bytes, place.saturating_add(14), u64::from(many))?,
    })
}

// Whether a last key may follow the one of the row before, or in the first row the least key.
fn rises(index: &Index, last: &[u8]) -> bool {
    match index.rows.last() {
        Some(before) => comes_before(before.last.as_slice(), last),
        None => !comes_before(last, index.least.as_slice()),
    }
}

fn push(rows: &mut Vec<IndexRow>, row: IndexRow) -> Result<(), AllocError> {
    rows.push(row)?;
    Ok(())
}

// Adds the row at a place, and answers the place after it.
fn add_row(alloc: Global, bytes: &[u8], place: u64, index: &mut Index) -> Result<u64, Stop> {
    let row = row_at(alloc, bytes, place)?;
    let rises = rises(index, row.last.as_slice());
    refuse(!rises, place.saturating_add(14), 5)?;
    refuse(row.pages == 0 || row.pages > 257, place, 6)?;
    let next = place
        .saturating_add(14)
        .saturating_add(row.last.len() as u64);
    push(&mut index.rows, row)?;
    Ok(next)
}

// A range: its upper bound, and the place after it.
#[derive(Drop)]
struct Range {
    end: Vec<u8>,
    next: u64,
}

// The range at a place, with rules 1 and 10; its lower bound is above the end of the range before.
fn range_at(alloc: Global, bytes: &[u8], place: u64, before: &[u8]) -> Result<Range, Stop> {
    let length = bytes.len() as u64;
    let low = two(bytes, place);
    let middle = place.saturating_add(2 + u64::from(low));
    let high = two(bytes, middle);
    let next = middle.saturating_add(2 + u64::from(high));
    refuse(length < next, length, 1)?;
    refuse(is_no_key(low), place, 10)?;
    refuse(is_no_key(high), middle, 10)?;
    let start = part(alloc, bytes, place.saturating_add(2), u64::from(low))?;
    let end = part(alloc, bytes, middle.saturating_add(2), u64::from(high))?;
    let rises = comes_before(before, start.as_slice());
    let runs = comes_before(start.as_slice(), end.as_slice());
    refuse(!rises || !runs, place.saturating_add(2), 10)?;
    Ok(Range { end, next })
}

// The place after the ranges that begin at this one, where the magic says that there are some.
fn after_ranges(alloc: Global, bytes: &[u8], place: u64) -> Result<u64, Stop> {
    if four(bytes, 0) != RANGES_MAGIC {
        return Ok(place);
    }
    let length = bytes.len() as u64;
    let many = four(bytes, place);
    let next = place.saturating_add(4);
    refuse(length < next, length, 1)?;
    refuse(many == 0, place, 9)?;
    let end = Vec::new(alloc);
    let mut last = Range { end, next };
    for _ in 0..many {
        last = range_at(alloc, bytes, last.next, last.end.as_slice())?;
    }
    Ok(last.next)
}

// How many pages the blocks have.
fn block_pages(index: &Index) -> u64 {
    let mut pages = 0u64;
    for row in index.rows.iter() {
        pages = pages.saturating_add(u64::from(row.pages));
    }
    pages
}

// The index that bytes are, of a table with so many data pages.
fn index_in(alloc: Global, bytes: &[u8], data_pages: u32) -> Result<Index, Stop> {
    judge_head(bytes)?;
    let least = part(alloc, bytes, 10, u64::from(two(bytes, 8)))?;
    let rows = Vec::new(alloc);
    let mut index = Index { least, rows };
    let mut place = 10u64.saturating_add(index.least.len() as u64);
    for _ in 0..four(bytes, 4) {
        place = add_row(alloc, bytes, place, &mut index)?;
    }
    let end = after_ranges(alloc, bytes, place)?;
    refuse(end < bytes.len() as u64, end, 7)?;
    refuse(block_pages(&index) != u64::from(data_pages), 4, 8)?;
    Ok(index)
}

/// The index of a row, whose bytes these are.
pub(crate) fn index_of(alloc: Global, row: &Row, bytes: &[u8]) -> Result<Index, Stop> {
    refuse_sum(row.index_sum, fnv1a(bytes))?;
    index_in(alloc, bytes, row.data_pages)
}
