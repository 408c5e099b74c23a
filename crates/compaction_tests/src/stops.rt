//! Calls of a merge slice and of a compaction that fail, and what a crash then leaves.
use crate::asserts::check_same;
use crate::tended::{FOUR, has_keys, tended};
use disk_mem::MemDisk;
use disk_trait::{DiskFault, Op};
use std::alloc::Global;
use std::test::Fail;
use store_core::StoreError;
use test_stores::{
    Change, Left, PlainStore, apply, changed, disk_of, failing_behind, left_by, opened,
};

// What is done of which a call fails.
#[derive(Clone, Copy)]
enum Work {
    Slice,
    Compaction,
}

fn done(store: &mut PlainStore, disk: &mut MemDisk, work: Work) -> Result<(), StoreError> {
    match work {
        Work::Slice => match store.tend(disk, 8) {
            Ok(_) => Ok(()),
            Err(why) => Err(why),
        },
        Work::Compaction => store.compact(disk),
    }
}

// The calls of a whole merge in one merge slice: four blocks are read, a table is written and synced, then the gate of
// the slot that is not in use is closed, its body is written, and its gate is opened.
const SLICE: [Op; 14] = [
    Op::Read,
    Op::Read,
    Op::Read,
    Op::Read,
    Op::Write,
    Op::Write,
    Op::Write,
    Op::Sync,
    Op::Write,
    Op::Sync,
    Op::Write,
    Op::Sync,
    Op::Write,
    Op::Sync,
];

// Those of a compaction: before the slot comes the gate of the other log area.
const COMPACTION: [Op; 16] = [
    Op::Read,
    Op::Read,
    Op::Read,
    Op::Read,
    Op::Write,
    Op::Write,
    Op::Write,
    Op::Sync,
    Op::Write,
    Op::Sync,
    Op::Write,
    Op::Sync,
    Op::Write,
    Op::Sync,
    Op::Write,
    Op::Sync,
];

// A disk with a store of four tables of a key each, where memory deletes one of these keys and has another one.
fn five_keys(alloc: Global) -> Result<Box<MemDisk>, Fail> {
    let mut disk = disk_of(alloc, &[])?;
    let mut store = changed(alloc, &mut disk, &FOUR)?;
    apply(&mut store, &mut disk, Change::Del(b"b"))?;
    apply(&mut store, &mut disk, Change::Put(b"e", b"\x01"))?;
    Ok(disk)
}

// Whether a store has the map of that disk.
fn has_map(store: &mut PlainStore, disk: &mut MemDisk) -> bool {
    has_keys(store, disk, b"acde") && matches!(store.get(disk, b"b"), Ok(None))
}

// Whether a store has that map, and one table once the work is done.
fn goes_on(store: &mut PlainStore, disk: &mut MemDisk, work: Work) -> bool {
    let before = has_map(store, disk);
    let works = match work {
        Work::Slice => tended(store, disk, 8).is_ok(),
        Work::Compaction => store.compact(disk).is_ok(),
    };
    let one = match store.explain(b"a") {
        Ok(explained) => explained.tables == 1,
        Err(_) => false,
    };
    before && works && one && has_map(store, disk)
}

// Whether work of which a read fails leaves the store running, and may be done again.
fn read_fails_well(alloc: Global, bytes: &[u8], work: Work, call: usize) -> Result<bool, Fail> {
    let mut disk = failing_behind(alloc, bytes, call)?;
    let mut store = opened(alloc, &mut disk)?;
    let fails = matches!(
        done(&mut store, &mut disk, work),
        Err(StoreError::Device(DiskFault { op: Op::Read, .. }))
    );
    Ok(fails && !store.is_stopped() && goes_on(&mut store, &mut disk, work))
}

// Whether work of which a write or a sync fails stops the store, and its map is there whatever a crash leaves.
fn write_fails_well(
    alloc: Global,
    bytes: &[u8],
    work: Work,
    call: usize,
    left: Left,
) -> Result<bool, Fail> {
    let mut disk = failing_behind(alloc, bytes, call)?;
    let mut store = opened(alloc, &mut disk)?;
    let fails = matches!(
        done(&mut store, &mut disk, work),
        Err(StoreError::Device(_))
    );
    let stopped = store.is_stopped()
        && done(&mut store, &mut disk, work) == Err(StoreError::Stopped);
    let mut disk = left_by(alloc, &disk, left)?;
    let mut store = opened(alloc, &mut disk)?;
    Ok(fails && stopped && goes_on(&mut store, &mut disk, work))
}

// The first of these calls that does not fail well where a crash leaves this, or their number where there are others.
fn first_bad(alloc: Global, work: Work, calls: &[Op], left: Left) -> Result<Option<usize>, Fail> {
    let first = five_keys(alloc)?;
    for (call, op) in calls.iter().enumerate() {
        let well = match op {
            Op::Read => read_fails_well(alloc, first.bytes(), work, call)?,
            Op::Write | Op::Sync => write_fails_well(alloc, first.bytes(), work, call, left)?,
        };
        if !well {
            return Ok(Some(call));
        }
    }
    let mut disk = failing_behind(alloc, first.bytes(), calls.len())?;
    let mut store = opened(alloc, &mut disk)?;
    let ends = done(&mut store, &mut disk, work) == Ok(());
    Ok((!ends).then_some(calls.len()))
}

#[test]
fn calls_of_a_slice_fail_and_their_writes_are_whole(rt: HostRuntime) -> Result<(), Fail> {
    let bad = first_bad(rt.alloc(), Work::Slice, &SLICE, Left::Whole)?;
    check_same(&rt, &bad, &None);
    Ok(())
}

#[test]
fn calls_of_a_slice_fail_and_their_writes_are_lost(rt: HostRuntime) -> Result<(), Fail> {
    let bad = first_bad(rt.alloc(), Work::Slice, &SLICE, Left::Lost)?;
    check_same(&rt, &bad, &None);
    Ok(())
}

#[test]
fn calls_of_a_slice_fail_and_their_writes_are_sevens(rt: HostRuntime) -> Result<(), Fail> {
    let bad = first_bad(rt.alloc(), Work::Slice, &SLICE, Left::Sevens)?;
    check_same(&rt, &bad, &None);
    Ok(())
}

#[test]
fn calls_of_a_compaction_fail_and_their_writes_are_whole(rt: HostRuntime) -> Result<(), Fail> {
    let bad = first_bad(rt.alloc(), Work::Compaction, &COMPACTION, Left::Whole)?;
    check_same(&rt, &bad, &None);
    Ok(())
}

#[test]
fn calls_of_a_compaction_fail_and_their_writes_are_lost(rt: HostRuntime) -> Result<(), Fail> {
    let bad = first_bad(rt.alloc(), Work::Compaction, &COMPACTION, Left::Lost)?;
    check_same(&rt, &bad, &None);
    Ok(())
}

#[test]
fn calls_of_a_compaction_fail_and_their_writes_are_sevens(rt: HostRuntime) -> Result<(), Fail> {
    let bad = first_bad(rt.alloc(), Work::Compaction, &COMPACTION, Left::Sevens)?;
    check_same(&rt, &bad, &None);
    Ok(())
}
