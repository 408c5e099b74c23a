//! Where the sums of a sound store are kept.
use crate::bytes::{byte, byte_of_page, part, two};
use crate::index::{Index, index_of};
use crate::slots::{SLOT_A, SLOT_B, Slots, Version, slots_of};
use crate::table::{filter_byte, index_byte};
use byte_fields::Row;
use std::alloc::{AllocError, Global};

/// A part that has a sum: its first byte, how many it has, and where the eight bytes of the sum are.
#[derive(Clone, Copy, Debug, PartialEq, Eq)]
pub struct KeptSum {
    pub from: u64,
    pub length: u64,
    pub at: u64,
}

fn add(from: u64, length: u64, at: u64, sums: &mut Vec<KeptSum>) -> Result<(), AllocError> {
    sums.push(KeptSum { from, length, at })?;
    Ok(())
}

// The sums of the blocks of a table, in its index.
fn add_blocks(row: &Row, index: &Index, sums: &mut Vec<KeptSum>) -> Result<(), AllocError> {
    let mut page = u64::from(row.first_page);
    let head = 10u64.saturating_add(index.least.len() as u64);
    let mut place = index_byte(row).saturating_add(head);
    for block in index.rows.iter() {
        let length = byte_of_page(u64::from(block.pages));
        add(byte_of_page(page), length, place.saturating_add(4), sums)?;
        page = page.saturating_add(u64::from(block.pages));
        let row = 14u64.saturating_add(block.last.len() as u64);
        place = place.saturating_add(row);
    }
    Ok(())
}

// The sums of a table whose row is at this byte: of its blocks, and then of its index and its filter.
fn add_table(
    alloc: Global,
    bytes: &[u8],
    row: &Row,
    at: u64,
    sums: &mut Vec<KeptSum>,
) -> Result<(), AllocError> {
    let index = part(alloc, bytes, index_byte(row), row.index_len)?;
    if let Ok(index) = index_of(alloc, row, index.as_slice()) {
        add_blocks(row, &index, sums)?;
    }
    add(index_byte(row), row.index_len, at.saturating_add(40), sums)?;
    add(
        filter_byte(row),
        row.filter_len,
        at.saturating_add(48),
        sums,
    )
}

// The sums of the tables of a version.
fn add_tables(
    alloc: Global,
    bytes: &[u8],
    version: &Version,
    sums: &mut Vec<KeptSum>,
) -> Result<(), AllocError> {
    let mut at = version.body.saturating_add(64);
    for row in version.rows.iter() {
        add_table(alloc, bytes, row, at, sums)?;
        at = at.saturating_add(64);
    }
    Ok(())
}

// The sum of the body of a slot, where it is open.
fn add_body(bytes: &[u8], slot: u64, sums: &mut Vec<KeptSum>) -> Result<(), AllocError> {
    if byte(bytes, slot) != 1 {
        return Ok(());
    }
    let body = slot.saturating_add(8);
    let length = 64 + 64 * u64::from(two(bytes, body.saturating_add(6)));
    add(body, length, body.saturating_add(length), sums)
}

/// The parts that have sums on a device that holds a store of which nothing is wrong, each before the part in which its sum is kept:
/// of each table its blocks, its index and its filter, and then the bodies of the open slots. Where something is wrong, some of
/// them.
pub fn sums_of(alloc: Global, bytes: &[u8]) -> Result<Vec<KeptSum>, AllocError> {
    let mut sums = Vec::new(alloc);
    if let Slots::Open(version) = slots_of(alloc, bytes)? {
        add_tables(alloc, bytes, &version, &mut sums)?;
    }
    add_body(bytes, SLOT_A, &mut sums)?;
    add_body(bytes, SLOT_B, &mut sums)?;
    Ok(sums)
}
