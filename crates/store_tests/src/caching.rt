//! Blocks that gets keep.
use crate::asserts::{check_same, check_that, check_that_at};
use crate::scans::DELETED;
use byte_fields::{Damage, Part};
use disk_mem::MemDisk;
use disk_trait::Disk;
use std::alloc::Global;
use std::test::Fail;
use store_core::StoreError;
use test_stores::{Change, PlainStore, apply, changed, disk_of, is_not_the_last, opened};

// How many blocks are read while a key is asked for so many times, where each time it has this value, or none.
fn reads_of(
    store: &mut PlainStore,
    disk: &mut MemDisk,
    key: &[u8],
    value: Option<&[u8]>,
    times: usize,
) -> Option<u64> {
    let before = disk.reads();
    for _ in 0..times {
        match store.get(disk, key) {
            Ok(found) if found == value => {}
            _ => return None,
        }
    }
    Some(disk.reads().saturating_sub(before))
}

// A pair in a table of one block, at byte 786,432 of the device.
const PAIR: [Change<'static>; 2] = [Change::Put(b"a", b"b"), Change::Flush];

#[test]
fn a_key_is_asked_for_a_thousand_times_with_one_read(rt: HostRuntime) -> Result<(), Fail> {
    let mut disk = disk_of(rt.alloc(), &[])?;
    let mut store = changed(rt.alloc(), &mut disk, &PAIR)?;
    let reads = reads_of(&mut store, &mut disk, b"a", Some(b"b"), 1_000);
    check_same(&rt, &reads, &Some(1));
    Ok(())
}

// Two tables that have the same key, of a block each.
const TWO: [Change<'static>; 5] = [
    Change::Put(b"ab", b"old"),
    Change::Flush,
    Change::Put(b"ab", b"new"),
    Change::Put(b"b", b"c"),
    Change::Flush,
];

#[test]
fn a_flush_leaves_what_is_kept(rt: HostRuntime) -> Result<(), Fail> {
    let mut disk = disk_of(rt.alloc(), &[])?;
    let mut store = changed(rt.alloc(), &mut disk, &TWO)?;
    let new = reads_of(&mut store, &mut disk, b"ab", Some(b"new"), 2);
    check_same(&rt, &new, &Some(1));
    check_same(
        &rt,
        &apply(&mut store, &mut disk, Change::Put(b"ab", b"newest")),
        &Ok(()),
    );
    check_same(&rt, &apply(&mut store, &mut disk, Change::Flush), &Ok(()));
    let newest = reads_of(&mut store, &mut disk, b"ab", Some(b"newest"), 2);
    check_same(&rt, &newest, &Some(1));
    let older = reads_of(&mut store, &mut disk, b"b", Some(b"c"), 2);
    check_same(&rt, &older, &Some(0));
    Ok(())
}

// The value of the one pair whose block stands in the first pages behind the logs.
fn first_value(disk: &MemDisk) -> Option<u8> {
    disk.bytes().get(786_452).copied()
}

#[test]
fn pages_that_are_used_again_show_no_old_block(rt: HostRuntime) -> Result<(), Fail> {
    let mut disk = disk_of(rt.alloc(), &[])?;
    let mut store = changed(rt.alloc(), &mut disk, &PAIR)?;
    let first = reads_of(&mut store, &mut disk, b"a", Some(b"b"), 2);
    check_same(&rt, &(first, first_value(&disk)), &(Some(1), Some(b'b')));
    check_same(
        &rt,
        &apply(&mut store, &mut disk, Change::Put(b"a", b"c")),
        &Ok(()),
    );
    check_same(&rt, &store.compact(&mut *disk), &Ok(()));
    let second = reads_of(&mut store, &mut disk, b"a", Some(b"c"), 2);
    check_same(&rt, &(second, first_value(&disk)), &(Some(1), Some(b'b')));
    check_same(
        &rt,
        &apply(&mut store, &mut disk, Change::Put(b"a", b"d")),
        &Ok(()),
    );
    check_same(&rt, &apply(&mut store, &mut disk, Change::Flush), &Ok(()));
    let third = reads_of(&mut store, &mut disk, b"a", Some(b"d"), 2);
    check_same(&rt, &(third, first_value(&disk)), &(Some(1), Some(b'd')));
    Ok(())
}

fn is_damaged(found: Result<Option<&[u8]>, StoreError>) -> bool {
    matches!(
        found,
        Err(StoreError::Damaged(Damage::Sum {
            part: Part::Block,
            at: 786_432,
            kept: 0x587b_62ad_428b_4221,
            seen: 0x1330_a17f_9fbb_1d44,
        }))
    )
}

// The sums are those of the block's 4,096 bytes as they were written, and with the ninth changed from 10 to 3.
#[test]
fn damage_is_seen_where_the_block_is_read(rt: HostRuntime) -> Result<(), Fail> {
    let mut disk = disk_of(rt.alloc(), &[])?;
    let mut store = changed(rt.alloc(), &mut disk, &PAIR)?;
    let before = reads_of(&mut store, &mut disk, b"a", Some(b"b"), 1);
    check_same(&rt, &before, &Some(1));
    disk.write(786_440, &[3])?;
    let kept = reads_of(&mut store, &mut disk, b"a", Some(b"b"), 1);
    check_same(&rt, &kept, &Some(0));
    let mut again = opened(rt.alloc(), &mut disk)?;
    let denied = reads_of(&mut again, &mut disk, b"z", None, 1);
    check_same(&rt, &denied, &Some(0));
    check_that(&rt, is_damaged(again.get(&mut *disk, b"a")));
    check_that(&rt, is_damaged(again.get(&mut *disk, b"a")));
    Ok(())
}

// How many blocks a closed seek from the first key reads, where the third is the first that is there.
fn seek_reads(alloc: Global, store: &PlainStore, disk: &mut MemDisk) -> Result<Option<u64>, Fail> {
    let mut scan = Box::new(alloc, store.seek(b"\x01", Some(b"\x0a"))?)?;
    let before = disk.reads();
    let pair: (&[u8], &[u8]) = (b"\x03", b"w");
    if scan.step(disk)? != Some(pair) {
        return Ok(None);
    }
    Ok(Some(disk.reads().saturating_sub(before)))
}

#[test]
fn a_seek_reads_past_what_is_kept(rt: HostRuntime) -> Result<(), Fail> {
    let mut disk = disk_of(rt.alloc(), &[])?;
    let mut store = changed(rt.alloc(), &mut disk, &DELETED)?;
    check_same(&rt, &seek_reads(rt.alloc(), &store, &mut disk)?, &Some(2));
    let gets = reads_of(&mut store, &mut disk, b"\x03", Some(b"w"), 2);
    check_same(&rt, &gets, &Some(1));
    check_same(&rt, &seek_reads(rt.alloc(), &store, &mut disk)?, &Some(2));
    let kept = reads_of(&mut store, &mut disk, b"\x03", Some(b"w"), 1);
    check_same(&rt, &kept, &Some(0));
    Ok(())
}

// A table of 65 blocks of a pair each.
fn many_blocks(alloc: Global, disk: &mut MemDisk) -> Result<Box<PlainStore>, Fail> {
    let value = vec![in alloc; 7; 3_000]?;
    let mut store = changed(alloc, disk, &[])?;
    for key in 0..65u8 {
        apply(&mut store, disk, Change::Put(&[key], &value))?;
    }
    apply(&mut store, disk, Change::Flush)?;
    Ok(store)
}

#[test]
fn at_most_64_blocks_are_kept(rt: HostRuntime) -> Result<(), Fail> {
    let value = vec![in rt.alloc(); 7; 3_000]?;
    let mut disk = disk_of(rt.alloc(), &[])?;
    let mut store = many_blocks(rt.alloc(), &mut disk)?;
    for key in 0..65u8 {
        let reads = reads_of(&mut store, &mut disk, &[key], Some(&value), 2);
        check_same(&rt, &reads, &Some(1));
    }
    let gone = reads_of(&mut store, &mut disk, &[0], Some(&value), 1);
    check_same(&rt, &gone, &Some(1));
    let kept = reads_of(&mut store, &mut disk, &[2], Some(&value), 1);
    check_same(&rt, &kept, &Some(0));
    Ok(())
}

// What two gets of each key find, where one is in two tables, the other in one, and the last in none.
fn gets_are_answered(store: &mut PlainStore, disk: &mut MemDisk) -> bool {
    let newest = reads_of(store, disk, b"ab", Some(b"new"), 2);
    let other = reads_of(store, disk, b"b", Some(b"c"), 2);
    let missing = reads_of(store, disk, b"z", None, 2);
    newest.is_some() && other.is_some() && missing.is_some()
}

// Where a block finds no memory to be kept in it is read again, and the answer is the same. `tools/refuse-allocations` plays it
// once for each allocation, with that one refused.
#[test]
fn each_allocation_of_gets_may_be_refused(rt: HostRuntime) -> Result<(), Fail> {
    let alloc = rt.alloc();
    let mut disk = disk_of(alloc, &[])?;
    let mut store = changed(alloc, &mut disk, &TWO)?;
    disk.reserve(8, 1 << 16)?;
    check_that(
        &rt,
        gets_are_answered(&mut store, &mut disk) && disk.starved() == 0,
    );
    check_that_at(&rt, &"the last allocation", is_not_the_last(alloc));
    Ok(())
}
