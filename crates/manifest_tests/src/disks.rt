//! Disks with manifests.
//!
//! They are handed out in boxes: a function that has a disk for a local costs the check many times what one does that has a
//! box of it, since each of its parts that owns memory is gone into at each step.
ghost use Rattle.std.specs.Prelude.{◌≤◌, IfOk};
ghost use Rattle.filter_api.specs.Ranges.{InRange};
ghost use Rattle.manifest_model.specs.Laws.{IsVersion};

use byte_fields::Row;
use disk_mem::MemDisk;
use disk_trait::Disk;
use filter_api::Settings;
use manifest::{ManifestFault, Version as Loaded, format, install, load};
use manifest_model::{Version, body_bytes};
use std::alloc::{AllocError, Global};
use std::test::Fail;
pub use test_kit::{boxed, new_disk};

/// The first byte of each slot.
pub const SLOTS: [u64; 2] = [0, 131_072];

/// Filters with no suffix bits.
pub fn base() -> Settings
    ensures { InRange result }
{
    Settings {
        hash_bits: 0,
        real_bits: 0,
        ratio: 64,
    }
}

/// A new store of 512 pages.
pub fn formatted(alloc: Global) -> Result<Box<MemDisk>, Fail> {
    let mut disk = new_disk(alloc)?;
    match format(alloc, &mut *disk, base(), 512) {
        Ok(()) => Ok(disk),
        Err(_) => Err(Fail::from("no format")),
    }
}

/// A table of four entries that takes three pages.
pub fn table(level: u8, first_page: u32) -> Row {
    Row {
        level,
        first_page,
        data_pages: 1,
        index_pages: 1,
        filter_pages: 1,
        entries: 4,
        index_len: 27,
        filter_len: 45,
        index_sum: 7,
        filter_sum: 9,
        hash_bits: 0,
        real_bits: 0,
        ratio: 64,
    }
}

/// A version of these tables, spelled by the plain program whatever it breaks.
pub fn version_of(alloc: Global, pages: u32, epoch: u64, rows: &[Row]) -> Result<Version, Fail> {
    let mut version = Version {
        hash_bits: 0,
        real_bits: 0,
        ratio: 64,
        pages,
        epoch,
        log_page: 64,
        rows: Vec::new(alloc),
    };
    for row in rows {
        version.rows.push(*row)?;
    }
    Ok(version)
}

/// Writes a body in format 2, and an open gate before it.
pub fn store(alloc: Global, disk: &mut MemDisk, slot: u64, version: &Version) -> Result<(), Fail>
    requires { slot ≤ 131072 }
{
    store_in(alloc, disk, slot, 2, version)
}

/// The same of a body in any format.
pub fn store_in(
    alloc: Global,
    disk: &mut MemDisk,
    slot: u64,
    format: u16,
    version: &Version,
) -> Result<(), Fail>
    requires { slot ≤ 131072 }
{
    let body = body_bytes(alloc, format, version)?;
    if body.len() > 1 << 20 {
        return Err(Fail::from("a long body"));
    }
    if disk.write(slot + 8, &body).is_err() || disk.write(slot, &[1]).is_err() {
        return Err(Fail::from("no write"));
    }
    Ok(())
}

/// The version that is loaded takes its own place, with its epoch raised.
pub fn install_again(alloc: Global, disk: &mut MemDisk) -> Result<(), ManifestFault> {
    match load(alloc, disk) {
        Ok(version) => install(alloc, disk, &version),
        Err(fault) => Err(fault),
    }
}

/// The version of a store of 512 pages with these tables, as it is loaded.
pub fn loaded_with(alloc: Global, rows: &[Row]) -> Result<Loaded, Fail>
    ensures { IfOk result (λ v. IsVersion v.version) }
{
    let mut disk = new_disk(alloc)?;
    store(alloc, &mut disk, 0, &version_of(alloc, 512, 6, rows)?)?;
    match load(alloc, &mut *disk) {
        Ok(version) => Ok(version),
        Err(_) => Err(Fail::from("no version")),
    }
}

// What a version says, at the place and with the epoch of another one.
fn at_the_place_of(here: &Loaded, version: &Loaded) -> Result<Loaded, AllocError>
    requires here { IsVersion here.now.version }
    requires slot { here.now.slot ≤ 1 }
    requires sound { IsVersion version.now.version }
    ensures sound { IfOk result (λ v. IsVersion v.version) }
    ensures slot { IfOk result (λ v. v.slot ≤ 1) }
{
    Ok(Loaded {
        settings: version.settings,
        pages: version.pages,
        epoch: here.epoch,
        log_area: version.log_area,
        slot: here.slot,
        other_open: here.other_open,
        rows: version.rows.clone()?,
    })
}

/// The tables of a version take the place of those that are loaded, with the epoch raised.
pub fn install_tables(
    alloc: Global,
    disk: &mut MemDisk,
    version: &Loaded,
) -> Result<(), ManifestFault>
    requires { IsVersion version.now.version }
{
    match load(alloc, disk) {
        Ok(here) => install(alloc, disk, &at_the_place_of(&here, version)?),
        Err(fault) => Err(fault),
    }
}
