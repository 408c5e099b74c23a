//! Two slots, each of which has a body in a format of its own.
use crate::asserts::{check_same, check_that, check_that_at};
use crate::disks::{install_again, new_disk, store_in, table, version_of};
use byte_fields::Row;
use disk_mem::MemDisk;
use manifest::load;
use manifest_model::Version;
use std::alloc::Global;
use std::process::Abort;
use std::test::Fail;
use test_kit::{Left, failing, left_by};

// Where the slots begin.
const SLOT_A: usize = 0;

const SLOT_B: usize = 131_072;

// The formats of slots A and B, and the slot of the greater epoch and the other one.
const CASES: [(u16, u16, usize, usize); 4] = [
    (1, 2, SLOT_A, SLOT_B),
    (2, 1, SLOT_A, SLOT_B),
    (1, 2, SLOT_B, SLOT_A),
    (2, 1, SLOT_B, SLOT_A),
];

// A table with its own settings.
fn mixed() -> Row {
    Row {
        hash_bits: 4,
        real_bits: 3,
        ratio: 16,
        ..table(1, 204)
    }
}

// These, as a row of format 2 has them.
const MIXED: [u8; 8] = [4, 3, 16, 0, 0, 0, 0, 0];

// A version of that table, whose settings new tables get too.
fn version(alloc: Global, epoch: u64) -> Result<Version, Fail> {
    let mut version = version_of(alloc, 512, epoch, &[mixed()])?;
    version.hash_bits = 4;
    version.real_bits = 3;
    version.ratio = 16;
    Ok(version)
}

// A disk with epoch 6 in the newer slot and epoch 5 in the other one.
fn two_slots(alloc: Global, a: u16, b: u16, newer: usize) -> Result<Box<MemDisk>, Fail> {
    let mut disk = new_disk(alloc)?;
    let (first, second) = if newer == SLOT_A { (6, 5) } else { (5, 6) };
    store_in(alloc, &mut disk, 0, a, &version(alloc, first)?)?;
    store_in(alloc, &mut disk, 131_072, b, &version(alloc, second)?)?;
    Ok(disk)
}

// The epoch that is loaded, of a version of that table.
fn epoch_of(alloc: Global, disk: &mut MemDisk) -> Result<u64, Fail> {
    match load(alloc, disk) {
        Ok(version) if version.rows.iter().eq([mixed()].iter()) => Ok(version.epoch),
        _ => Err(Fail::from("another version")),
    }
}

// Whether these bytes are at a place of a slot.
fn stands(disk: &MemDisk, slot: usize, place: usize, bytes: &[u8]) -> bool {
    let slot = disk.bytes().get(slot..).unwrap_or(b"");
    slot.get(place..).unwrap_or(b"").starts_with(bytes)
}

// Whether a slot has the same bytes on both disks.
fn same_slot(disk: &MemDisk, first: &MemDisk, slot: usize) -> bool {
    slot_of(disk, slot) == slot_of(first, slot)
}

// The bytes of a slot.
fn slot_of(disk: &MemDisk, slot: usize) -> &[u8] {
    let bytes = disk.bytes().get(slot..).unwrap_or(b"");
    bytes.get(..SLOT_B).unwrap_or(bytes)
}

// The row of the install in a slot, by the bytes of format 2.
fn check_slot(rt: &impl Abort, disk: &MemDisk, slot: usize) {
    check_that(rt, stands(disk, slot, 8, b"SRFM\x02\x00\x01\x00\x07"));
    check_that(rt, stands(disk, slot, 28, &MIXED[..4]));
    check_that(rt, stands(disk, slot, 128, &MIXED));
}

fn check_install(
    rt: &impl Abort,
    alloc: Global,
    case: (u16, u16, usize, usize),
) -> Result<(), Fail> {
    let (a, b, newer, other) = case;
    let first = two_slots(alloc, a, b, newer)?;
    let mut disk = two_slots(alloc, a, b, newer)?;
    check_same(rt, &epoch_of(alloc, &mut disk)?, &6);
    check_same(rt, &install_again(alloc, &mut disk), &Ok(()));
    check_slot(rt, &disk, other);
    check_that(rt, same_slot(&disk, &first, newer));
    check_same(rt, &epoch_of(alloc, &mut disk)?, &7);
    Ok(())
}

#[test]
fn an_install_stands_in_format_2(rt: HostRuntime) -> Result<(), Fail> {
    for case in CASES {
        check_install(&rt, rt.alloc(), case)?;
    }
    Ok(())
}

// The version that is loaded after a crash, where a call of the load or of the install behind it failed.
fn after_a_crash(
    alloc: Global,
    case: (u16, u16, usize, usize),
    call: u64,
    left: Left,
) -> Result<u64, Fail> {
    let (a, b, newer, _) = case;
    let first = two_slots(alloc, a, b, newer)?;
    let mut disk = failing(alloc, first.bytes(), call)?;
    if install_again(alloc, &mut disk).is_ok() {
        return Err(Fail::from("no call failed"));
    }
    epoch_of(alloc, &mut *left_by(alloc, &disk, left)?)
}

// A call fails, and the write that stood before it is left in each way.
fn check_stop(
    rt: &impl Abort,
    alloc: Global,
    case: (u16, u16, usize, usize),
    call: u64,
) -> Result<(), Fail> {
    let whole = after_a_crash(alloc, case, call, Left::Whole)?;
    let last = if call == 11 { 7 } else { 6 };
    check_that_at(rt, &call, whole == last || (call == 10 && whole == 7));
    check_same(rt, &after_a_crash(alloc, case, call, Left::Lost)?, &6);
    check_same(rt, &after_a_crash(alloc, case, call, Left::Sevens)?, &6);
    Ok(())
}

// Six reads, and then three writes, each with its sync: the last of them opens the gate.
#[test]
fn an_install_over_another_format_is_stopped_at_each_call(rt: HostRuntime) -> Result<(), Fail> {
    for case in CASES {
        for call in 0..12 {
            check_stop(&rt, rt.alloc(), case, call)?;
        }
    }
    Ok(())
}
