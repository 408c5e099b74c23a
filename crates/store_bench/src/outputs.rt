//! The tables that a merge has left, to be written once more.
use crate::counted::Device;
use crate::made::rows_of;
use anyhow::{Result, bail};
use byte_fields::{Row, fnv1a};
use disk_trait::Disk;
use key_base::PAGE_BYTES;
use std::alloc::Global;

// No page of a device stands behind this byte, and no table has as many bytes.
const DEVICE_END: u64 = 1 << 36;

/// A table: how many entries it has, where it stands, and the bytes of its blocks, its index and its filter.
#[derive(Drop)]
pub struct Output {
    pub entries: usize,
    at: u64,
    parts: Vec<Vec<u8>>,
}

/// The tables of the store that stands on a device.
pub fn outputs_of(alloc: Global, disk: &mut Device) -> Result<Vec<Output>> {
    let mut outputs = Vec::new(alloc);
    for row in &rows_of(alloc, disk)? {
        outputs.push(output_of(alloc, disk, row)?)?;
    }
    Ok(outputs)
}

// The table of a row.
fn output_of(alloc: Global, disk: &mut Device, row: &Row) -> Result<Output> {
    let at = PAGE_BYTES as u64 * u64::from(row.first_page);
    let mut parts = Vec::new(alloc);
    let mut place = at;
    for pages in [row.data_pages, row.index_pages, row.filter_pages] {
        let part = read_part(alloc, disk, place, pages)?;
        place = place.saturating_add(part.len() as u64);
        parts.push(part)?;
    }
    Ok(Output {
        entries: row.entries as usize,
        at,
        parts,
    })
}

// So many pages from a byte on.
fn read_part(alloc: Global, disk: &mut Device, at: u64, pages: u32) -> Result<Vec<u8>> {
    let mut bytes = Vec::new(alloc);
    bytes.resize(PAGE_BYTES.saturating_mul(pages as usize), 0)?;
    if at > DEVICE_END || bytes.len() as u64 > DEVICE_END || disk.read(at, &mut bytes).is_err() {
        bail!("a read failed");
    }
    Ok(bytes)
}

/// Sums and writes the parts of a table where they stand, and syncs.
pub fn write_all(disk: &mut Device, output: &Output) -> Result<()> {
    let mut place = output.at;
    for part in &output.parts {
        write_part(disk, place, part)?;
        place = place.saturating_add(part.len() as u64);
    }
    if disk.sync().is_err() {
        bail!("a sync failed");
    }
    Ok(())
}

fn write_part(disk: &mut Device, at: u64, bytes: &[u8]) -> Result<()> {
    if fnv1a(bytes) == 0 || at > DEVICE_END || bytes.len() as u64 > DEVICE_END {
        bail!("no part of a table");
    }
    if disk.write(at, bytes).is_err() {
        bail!("a write failed");
    }
    Ok(())
}
