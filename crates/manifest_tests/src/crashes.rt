//! Formats and installs that fail or are cut short.
use crate::asserts::{check_same, check_same_at, check_that_at};
use crate::disks::{base, boxed, install_tables, loaded_with, table};
use byte_fields::Row;
use disk_mem::{Choice, MemDisk};
use disk_trait::{DiskFault, Op};
use manifest::{ManifestFault, format, load};
use std::alloc::{AllocError, Global};
use std::process::Abort;
use std::test::Fail;

// The tables of the third version; the second has the first of them, and the first has none.
fn tables() -> [Row; 2] {
    [table(1, 300), table(1, 200)]
}

// A format and two installs of more tables, up to the first that fails: how many were done, and the fault.
fn three_versions(alloc: Global, disk: &mut MemDisk) -> Result<(u64, Option<ManifestFault>), Fail> {
    let [first, second] = tables();
    let one_table = loaded_with(alloc, &[first])?;
    let two_tables = loaded_with(alloc, &[first, second])?;
    if let Err(fault) = format(alloc, disk, base(), 512) {
        return Ok((0, Some(fault)));
    }
    if let Err(fault) = install_tables(alloc, disk, &one_table) {
        return Ok((1, Some(fault)));
    }
    match install_tables(alloc, disk, &two_tables) {
        Ok(()) => Ok((3, None)),
        Err(fault) => Ok((2, Some(fault))),
    }
}

// The epoch of the one of the three that is loaded, 0 where there is no store.
fn epoch_of(alloc: Global, disk: &mut MemDisk) -> Result<u64, Fail> {
    let version = match load(alloc, disk) {
        Ok(version) => version,
        Err(ManifestFault::NotAStore) => return Ok(0),
        Err(_) => return Err(Fail::from("a damaged slot")),
    };
    let tables = tables();
    let wanted = tables.iter().take(version.epoch.saturating_sub(1) as usize);
    if version.epoch > 3 || !version.rows.iter().eq(wanted) {
        return Err(Fail::from("another version"));
    }
    Ok(version.epoch)
}

// A disk on which the call of this number fails.
fn failing(alloc: Global, call: u64) -> Result<Box<MemDisk>, AllocError> {
    let faults = Vec::from_slice(alloc, &[call])?;
    boxed(alloc, MemDisk::new(alloc, &[])?.with_faults(faults))
}

// What a crash leaves of a disk.
fn crashed(alloc: Global, disk: &MemDisk, choice: Choice) -> Result<Box<MemDisk>, AllocError> {
    boxed(alloc, disk.crash(&[choice])?)
}

// What a crash leaves of a write.
#[derive(Clone, Copy)]
enum Left {
    Whole,
    Lost,
    All(u8),
    Half,
}

// The first half of what was written at a place, and bytes 07 behind it.
fn half(alloc: Global, disk: &MemDisk, at: usize, length: usize) -> Result<Vec<u8>, AllocError> {
    let written = disk.bytes().get(at..).unwrap_or(b"");
    let first = written.get(..length / 2).unwrap_or(written);
    let mut bytes = Vec::from_slice(alloc, first)?;
    bytes.resize(length, 7)?;
    Ok(bytes)
}

// The choice that leaves this of a write of so many bytes at a place.
fn choice_of(
    alloc: Global,
    disk: &MemDisk,
    at: usize,
    length: usize,
    left: Left,
) -> Result<Choice, AllocError> {
    match left {
        Left::Whole => Ok(Choice::Whole),
        Left::Lost => Ok(Choice::Lost),
        Left::All(byte) => Ok(Choice::Bytes(vec![in alloc; byte; length]?)),
        Left::Half => Ok(Choice::Bytes(half(alloc, disk, at, length)?)),
    }
}

// The epoch that is loaded behind a crash that leaves this of the last write.
fn epoch_behind(alloc: Global, disk: &MemDisk, choice: Choice) -> Result<u64, Fail> {
    let mut left = crashed(alloc, disk, choice)?;
    epoch_of(alloc, &mut left)
}

// Three versions, of which the sync after a write of so many bytes at a place fails, and then a crash, which leaves this of
// that write. Answers the epoch that is loaded then.
fn after_a_crash(
    alloc: Global,
    call: u64,
    at: usize,
    length: usize,
    left: Left,
) -> Result<u64, Fail> {
    let mut disk = failing(alloc, call)?;
    three_versions(alloc, &mut disk)?;
    epoch_behind(alloc, &disk, choice_of(alloc, &disk, at, length, left)?)
}

#[test]
fn every_write_left_in_every_way(rt: HostRuntime) -> Result<(), Fail> {
    let alloc = rt.alloc();
    // The number of the sync after the write, the write's place and length; the epoch where the write is whole or all 01,
    // and where it is lost, all 07 or half.
    let rows = [
        (4, 8, 72, 0, 0),
        (6, 0, 1, 1, 0),
        (12, 131_080, 136, 1, 1),
        (14, 131_072, 1, 2, 1),
        (22, 0, 1, 2, 2),
        (24, 8, 200, 2, 2),
        (26, 0, 1, 3, 2),
    ];
    for (call, at, length, with, without) in rows {
        for left in [Left::Whole, Left::All(1)] {
            check_same_at(
                &rt,
                &call,
                &after_a_crash(alloc, call, at, length, left)?,
                &with,
            );
        }
        for left in [Left::Lost, Left::All(7), Left::Half] {
            check_same_at(
                &rt,
                &call,
                &after_a_crash(alloc, call, at, length, left)?,
                &without,
            );
        }
    }
    Ok(())
}

// The calls of a format and two installs, each behind a load.
const CALLS: [(Op, u64); 27] = [
    (Op::Sync, 0),
    (Op::Read, 0),
    (Op::Read, 131_072),
    (Op::Write, 8),
    (Op::Sync, 0),
    (Op::Write, 0),
    (Op::Sync, 0),
    (Op::Read, 0),
    (Op::Read, 8),
    (Op::Read, 72),
    (Op::Read, 131_072),
    (Op::Write, 131_080),
    (Op::Sync, 0),
    (Op::Write, 131_072),
    (Op::Sync, 0),
    (Op::Read, 0),
    (Op::Read, 8),
    (Op::Read, 72),
    (Op::Read, 131_072),
    (Op::Read, 131_080),
    (Op::Read, 131_144),
    (Op::Write, 0),
    (Op::Sync, 0),
    (Op::Write, 8),
    (Op::Sync, 0),
    (Op::Write, 0),
    (Op::Sync, 0),
];

// What is loaded behind a crash is a version that was done, or the next one where it is whole.
fn check_left(
    rt: &impl Abort,
    alloc: Global,
    disk: &MemDisk,
    call: u64,
    done: u64,
) -> Result<(), Fail> {
    let lost = epoch_behind(alloc, disk, Choice::Lost)?;
    check_same_at(rt, &call, &lost, &done);
    let whole = epoch_behind(alloc, disk, Choice::Whole)?;
    check_that_at(rt, &call, whole == done || whole == done.saturating_add(1));
    Ok(())
}

// The call of this number fails, by itself and before a crash.
fn check_call(rt: &impl Abort, alloc: Global, call: u64, fault: DiskFault) -> Result<(), Fail> {
    let mut disk = failing(alloc, call)?;
    let (done, found) = three_versions(alloc, &mut disk)?;
    check_same_at(rt, &call, &found, &Some(ManifestFault::Device(fault)));
    check_left(rt, alloc, &disk, call, done)
}

#[test]
fn every_call_fails_in_turn(rt: HostRuntime) -> Result<(), Fail> {
    let mut call = 0u64;
    for (op, at) in CALLS {
        check_call(&rt, rt.alloc(), call, DiskFault { op, at })?;
        call = call.saturating_add(1);
    }
    Ok(())
}

#[test]
fn no_further_call_fails(rt: HostRuntime) -> Result<(), Fail> {
    let mut disk = failing(rt.alloc(), CALLS.len() as u64)?;
    check_same(&rt, &three_versions(rt.alloc(), &mut disk)?, &(3, None));
    Ok(())
}
