//! Versions that are formatted, loaded and installed.
ghost use Rattle.std.specs.Prelude.{◌≤◌};

use crate::asserts::{check_same, check_that};
use crate::disks::{
    base, formatted, install_again, install_tables, loaded_with, new_disk, store, table, version_of,
};
use byte_fields::{Damage, Part, Row};
use disk_mem::MemDisk;
use disk_trait::Disk;
use manifest::{ManifestFault, Version, format, is_store, load, read_slot};
use std::alloc::Global;
use std::process::Abort;
use std::test::Fail;

// What is loaded, and where: the epoch, the slot, whether the other one is open, and how many tables.
fn found(alloc: Global, disk: &mut MemDisk) -> Result<(u64, u8, bool, usize), ManifestFault> {
    match load(alloc, disk) {
        Ok(version) => Ok((
            version.epoch,
            version.slot,
            version.other_open,
            version.rows.len(),
        )),
        Err(fault) => Err(fault),
    }
}

// The first 40 bytes of a new store, before 32 bytes 0 and a sum.
const FRONT: [u8; 40] = [
    1, 0, 0, 0, 0, 0, 0, 0, 0x53, 0x52, 0x46, 0x4D, 2, 0, 0, 0, 1, 0, 0, 0, 0, 0, 0, 0, 0, 2, 0, 0,
    0, 0, 0x40, 0, 0x40, 0, 0, 0, 0x40, 0, 0, 0,
];

const SUM: [u8; 8] = [0xF8, 0x2D, 0xC8, 0xE6, 0x65, 0x4F, 0xF8, 0x95];

fn is_new_slot(disk: &mut MemDisk) -> bool {
    let mut slot = [9; 80];
    let done = disk.read(0, &mut slot).is_ok();
    done && &slot[..40] == FRONT.as_slice()
        && &slot[40..72] == [0; 32].as_slice()
        && &slot[72..] == SUM.as_slice()
}

#[test]
fn an_empty_disk_is_no_store(rt: HostRuntime) -> Result<(), Fail> {
    let alloc = rt.alloc();
    let mut empty = new_disk(alloc)?;
    check_same(&rt, &is_store(&mut *empty), &Ok(false));
    check_same(
        &rt,
        &found(alloc, &mut empty),
        &Err(ManifestFault::NotAStore),
    );
    Ok(())
}

#[test]
fn a_new_store_is_in_slot_a(rt: HostRuntime) -> Result<(), Fail> {
    let alloc = rt.alloc();
    let mut disk = formatted(alloc)?;
    check_that(&rt, is_new_slot(&mut disk));
    check_same(&rt, &is_store(&mut *disk), &Ok(true));
    check_same(&rt, &found(alloc, &mut disk), &Ok((1, 0, false, 0)));
    let again = format(alloc, &mut *disk, base(), 512);
    check_same(&rt, &again, &Err(ManifestFault::AlreadyAStore));
    Ok(())
}

// What a slot says by itself: its epoch, which slot it is, and whether the other one is open.
fn alone(
    alloc: Global,
    disk: &mut MemDisk,
    slot: u8,
) -> Result<Option<(u64, u8, bool)>, ManifestFault>
    requires { slot ≤ 1 }
{
    let found = read_slot(alloc, disk, slot)?;
    Ok(found.map(|version| (version.epoch, version.slot, version.other_open)))
}

#[test]
fn a_slot_is_read_by_itself(rt: HostRuntime) -> Result<(), Fail> {
    let alloc = rt.alloc();
    let mut disk = formatted(alloc)?;
    check_same(&rt, &alone(alloc, &mut disk, 0), &Ok(Some((1, 0, false))));
    check_same(&rt, &alone(alloc, &mut disk, 1), &Ok(None));
    check_same(&rt, &install_again(alloc, &mut disk), &Ok(()));
    check_same(&rt, &alone(alloc, &mut disk, 0), &Ok(Some((1, 0, false))));
    check_same(&rt, &alone(alloc, &mut disk, 1), &Ok(Some((2, 1, false))));
    check_that(&rt, disk.write(12, &[9]).is_ok());
    let damage = Damage::Shape {
        part: Part::Manifest,
        at: 12,
        rule: 2,
    };
    check_same(
        &rt,
        &alone(alloc, &mut disk, 0),
        &Err(ManifestFault::Damaged(damage)),
    );
    check_same(&rt, &alone(alloc, &mut disk, 1), &Ok(Some((2, 1, false))));
    Ok(())
}

#[test]
fn installs_change_the_slot(rt: HostRuntime) -> Result<(), Fail> {
    let alloc = rt.alloc();
    let mut disk = formatted(alloc)?;
    let rows = [(2, 1, true), (3, 0, true), (4, 1, true), (5, 0, true)];
    for (epoch, slot, other_open) in rows {
        check_same(&rt, &install_again(alloc, &mut disk), &Ok(()));
        check_same(
            &rt,
            &found(alloc, &mut disk),
            &Ok((epoch, slot, other_open, 0)),
        );
    }
    Ok(())
}

#[test]
fn the_last_epoch_is_not_left(rt: HostRuntime) -> Result<(), Fail> {
    let alloc = rt.alloc();
    let mut disk = new_disk(alloc)?;
    store(alloc, &mut disk, 0, &version_of(alloc, 512, u64::MAX, &[])?)?;
    let before = disk.calls();
    check_same(
        &rt,
        &install_again(alloc, &mut disk),
        &Err(ManifestFault::Epoch),
    );
    check_same(&rt, &disk.calls().saturating_sub(before), &4);
    check_same(&rt, &found(alloc, &mut disk), &Ok((u64::MAX, 0, false, 0)));
    Ok(())
}

// These tables are installed, with this epoch.
fn check_tables(
    rt: &impl Abort,
    alloc: Global,
    disk: &mut MemDisk,
    epoch: u64,
    tables: &[Row],
) -> Result<(), Fail> {
    let version = loaded_with(alloc, tables)?;
    check_same(rt, &install_tables(alloc, disk, &version), &Ok(()));
    match load(alloc, disk) {
        Ok(found) => check_that(rt, found.epoch == epoch && found.rows.as_slice() == tables),
        Err(_) => return Err(Fail::from("no version")),
    }
    Ok(())
}

#[test]
fn new_tables_are_installed(rt: HostRuntime) -> Result<(), Fail> {
    let alloc = rt.alloc();
    let mut disk = formatted(alloc)?;
    let rows: [&[Row]; 4] = [
        &[table(0, 195), table(0, 192), table(1, 198)],
        &[table(1, 201)],
        &[],
        &[table(6, 509)],
    ];
    let mut epoch = 2u64;
    for tables in rows {
        check_tables(&rt, alloc, &mut disk, epoch, tables)?;
        epoch = epoch.saturating_add(1);
    }
    Ok(())
}

// A version of so many tables of three pages each, the last of them first.
fn many(alloc: Global, count: u32) -> Result<Box<MemDisk>, Fail> {
    let mut version = version_of(alloc, 8_192, 1, &[])?;
    for i in 0..count {
        let first_page = 192u32.saturating_add(count.saturating_sub(i).saturating_mul(3));
        version.rows.push(table(0, first_page))?;
    }
    let mut disk = new_disk(alloc)?;
    store(alloc, &mut disk, 0, &version)?;
    Ok(disk)
}

#[test]
fn as_many_tables_as_a_version_may_have(rt: HostRuntime) -> Result<(), Fail> {
    let alloc = rt.alloc();
    let mut disk = many(alloc, 1_024)?;
    check_same(&rt, &found(alloc, &mut disk), &Ok((1, 0, false, 1_024)));
    check_same(&rt, &install_again(alloc, &mut disk), &Ok(()));
    check_same(&rt, &found(alloc, &mut disk), &Ok((2, 1, true, 1_024)));
    Ok(())
}

#[test]
fn a_loaded_version_is_the_one_that_was_written(rt: HostRuntime) -> Result<(), Fail> {
    let alloc = rt.alloc();
    let mut disk = new_disk(alloc)?;
    let row = table(3, 204);
    store(
        alloc,
        &mut disk,
        131_072,
        &version_of(alloc, 600, 9, &[row])?,
    )?;
    let Ok(version) = load(alloc, &mut *disk) else {
        return Err(Fail::from("no version"));
    };
    let Version {
        settings,
        pages,
        epoch,
        log_area,
        slot,
        other_open,
        rows,
    } = version;
    check_same(&rt, &settings, &base());
    check_same(
        &rt,
        &(pages, epoch, log_area, slot, other_open),
        &(600, 9, 0, 1, false),
    );
    check_same(&rt, &rows.as_slice(), &[row].as_slice());
    Ok(())
}
