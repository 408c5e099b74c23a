//! The rows of a version.
use crate::bytes::{byte, eight, first_filled, four, pages_for, two};
use crate::finding::{Stop, refuse};
use byte_fields::Row;
use std::alloc::{AllocError, Global};

// The settings of a row: its own, or in format 1 those of the head.
fn settings_at(bytes: &[u8], body: u64, row: u64) -> u64 {
    if two(bytes, body.saturating_add(4)) == 1 {
        body.saturating_add(20)
    } else {
        row.saturating_add(56)
    }
}

fn row_at(bytes: &[u8], body: u64, at: u64) -> Row {
    let settings = settings_at(bytes, body, at);
    Row {
        level: byte(bytes, at),
        first_page: four(bytes, at.saturating_add(4)),
        data_pages: four(bytes, at.saturating_add(8)),
        index_pages: four(bytes, at.saturating_add(12)),
        filter_pages: four(bytes, at.saturating_add(16)),
        entries: four(bytes, at.saturating_add(20)),
        index_len: eight(bytes, at.saturating_add(24)),
        filter_len: eight(bytes, at.saturating_add(32)),
        index_sum: eight(bytes, at.saturating_add(40)),
        filter_sum: eight(bytes, at.saturating_add(48)),
        hash_bits: byte(bytes, settings),
        real_bits: byte(bytes, settings.saturating_add(1)),
        ratio: two(bytes, settings.saturating_add(2)),
    }
}

/// The rows of a body that begins at this byte.
pub(crate) fn rows_in(alloc: Global, bytes: &[u8], body: u64) -> Result<Vec<Row>, AllocError> {
    let mut rows = Vec::new(alloc);
    for number in 0..u64::from(two(bytes, body.saturating_add(6))) {
        let at = body.saturating_add(64 + 64 * number);
        rows.push(row_at(bytes, body, at))?;
    }
    Ok(rows)
}

// Rule 7 in the rows: bytes 1 to 3, and the last ones, from the first on that names no setting.
fn judge_zeros(bytes: &[u8], body: u64, rows: &[Row]) -> Result<(), Stop> {
    let last = if two(bytes, body.saturating_add(4)) == 1 {
        56
    } else {
        60
    };
    for number in 0..rows.len() as u64 {
        let at = body
            .saturating_add(64)
            .saturating_add(number.saturating_mul(64));
        let first = first_filled(bytes, at.saturating_add(1), at.saturating_add(4));
        let second = first_filled(bytes, at.saturating_add(last), at.saturating_add(64));
        if let Some(at) = first.or(second) {
            refuse(true, at.saturating_sub(body), 7)?;
        }
    }
    Ok(())
}

// Rule 8 of a row at a place of the body.
fn judge_row(place: u64, row: &Row) -> Result<(), Stop> {
    refuse(row.level > 6, place, 8)?;
    refuse(row.data_pages == 0, place.saturating_add(8), 8)?;
    let index = u64::from(row.index_pages) != pages_for(row.index_len);
    refuse(index, place.saturating_add(12), 8)?;
    let filter = u64::from(row.filter_pages) != pages_for(row.filter_len);
    refuse(filter, place.saturating_add(16), 8)?;
    refuse(row.entries == 0, place.saturating_add(20), 8)
}

fn judge_each(rows: &[Row]) -> Result<(), Stop> {
    let mut place = 64u64;
    for row in rows {
        judge_row(place, row)?;
        place = place.saturating_add(64);
    }
    Ok(())
}

// Rule 9.
fn judge_levels(rows: &[Row]) -> Result<(), Stop> {
    let mut place = 64u64;
    let mut before = 0;
    for row in rows {
        refuse(row.level < before, place, 9)?;
        before = row.level;
        place = place.saturating_add(64);
    }
    Ok(())
}

/// The page after a table.
pub(crate) fn end_of(row: &Row) -> u64 {
    u64::from(row.first_page)
        + u64::from(row.data_pages)
        + u64::from(row.index_pages)
        + u64::from(row.filter_pages)
}

// Whether the pages of a table meet those of another.
fn meet(row: &Row, other: &Row) -> bool {
    u64::from(row.first_page) < end_of(other) && u64::from(other.first_page) < end_of(row)
}

// Whether a table meets one of the first rows.
fn meets_one(row: &Row, rows: &[Row], first: usize) -> bool {
    for other in rows.iter().take(first) {
        if meet(row, other) {
            return true;
        }
    }
    false
}

// Rule 10.
fn judge_extents(pages: u32, rows: &[Row]) -> Result<(), Stop> {
    let mut place = 64u64;
    for (number, row) in rows.iter().enumerate() {
        let leaves = row.first_page < 192 || end_of(row) > u64::from(pages);
        let wrong = leaves || meets_one(row, rows, number);
        refuse(wrong, place.saturating_add(4), 10)?;
        place = place.saturating_add(64);
    }
    Ok(())
}

/// Rules 7 to 10 of the rows of a body that begins at this byte.
pub(crate) fn judge_rows(bytes: &[u8], body: u64, rows: &[Row]) -> Result<(), Stop> {
    judge_zeros(bytes, body, rows)?;
    judge_each(rows)?;
    judge_levels(rows)?;
    judge_extents(four(bytes, body.saturating_add(16)), rows)
}
