//! Merges of a store, a merge slice at a call.
use crate::asserts::{check_same, check_that, check_that_at};
use crate::tended::{FOUR, FOUR_TOMBSTONES, has_keys, tended};
use disk_mem::MemDisk;
use std::alloc::Global;
use std::test::Fail;
use store_core::Tended;
use test_stores::{Change, apply, changed, disk_of};

// The bodies of slots A and B, and how long the head before their rows is.
const BODY_A: usize = 8;

const BODY_B: usize = 131_080;

const HEAD_BYTES: usize = 64;

const ROW_BYTES: usize = 64;

// The first bytes of the row of a table of three pages.
fn row(level: u8, first_page: u8, entries: u8) -> [u8; 24] {
    [
        level, 0, 0, 0, first_page, 0, 0, 0, 1, 0, 0, 0, 1, 0, 0, 0, 1, 0, 0, 0, entries, 0, 0, 0,
    ]
}

// Whether these bytes stand at a place.
fn stands(disk: &MemDisk, place: usize, bytes: &[u8]) -> bool {
    disk.bytes().get(place..).unwrap_or(b"").starts_with(bytes)
}

// Whether a body has this epoch and so many rows, of which those begin so.
fn is_body(disk: &MemDisk, body: usize, epoch: u8, rows: &[[u8; 24]]) -> bool {
    let many = rows.len().min(9) as u8;
    let head = [
        0x53, 0x52, 0x46, 0x4d, 2, 0, many, 0, epoch, 0, 0, 0, 0, 0, 0, 0,
    ];
    if !stands(disk, body, &head) {
        return false;
    }
    let mut place = body.saturating_add(HEAD_BYTES);
    for row in rows {
        if !stands(disk, place, row) {
            return false;
        }
        place = place.saturating_add(ROW_BYTES);
    }
    true
}

#[test]
fn four_tables_become_one(rt: HostRuntime) -> Result<(), Fail> {
    let mut disk = disk_of(rt.alloc(), &[])?;
    let mut store = changed(rt.alloc(), &mut disk, &FOUR)?;
    store.put(&mut *disk, b"e", b"\x01")?;
    let rows = [
        row(0, 201, 1),
        row(0, 198, 1),
        row(0, 195, 1),
        row(0, 192, 1),
    ];
    check_that(&rt, is_body(&disk, BODY_A, 5, &rows));
    let (worked, most) = tended(&mut store, &mut disk, 8)?;
    check_that(&rt, worked >= 1 && most <= 8);
    check_that(&rt, is_body(&disk, BODY_B, 6, &[row(1, 204, 4)]));
    Ok(())
}

#[test]
fn a_block_at_a_slice(rt: HostRuntime) -> Result<(), Fail> {
    let mut disk = disk_of(rt.alloc(), &[])?;
    let mut store = changed(rt.alloc(), &mut disk, &FOUR)?;
    let (worked, most) = tended(&mut store, &mut disk, 1)?;
    check_that(&rt, worked == 4);
    check_that(&rt, most <= 1);
    check_that(&rt, is_body(&disk, BODY_B, 6, &[row(1, 204, 4)]));
    Ok(())
}

// The fourth merge slice reads the last block, finds nothing left, and installs.
#[test]
fn four_tombstones_are_four_slices(rt: HostRuntime) -> Result<(), Fail> {
    let mut disk = disk_of(rt.alloc(), &[])?;
    let mut store = changed(rt.alloc(), &mut disk, &FOUR_TOMBSTONES)?;
    for slice in 0..4 {
        check_that_at(&rt, &slice, store.tend(&mut *disk, 1)? == Tended::Worked);
    }
    check_that(&rt, store.tend(&mut *disk, 1)? == Tended::Idle);
    check_that(&rt, is_body(&disk, BODY_B, 6, &[]));
    Ok(())
}

// Merge slices of one block, with a put and a flush behind the first so many of them.
fn with_flush(alloc: Global, disk: &mut MemDisk, slices: u64) -> Result<bool, Fail> {
    let mut store = changed(alloc, disk, &FOUR)?;
    for _ in 0..slices {
        store.tend(disk, 1)?;
    }
    apply(&mut store, disk, Change::Put(b"e", b"\x01"))?;
    apply(&mut store, disk, Change::Flush)?;
    let before = has_keys(&mut store, disk, b"abcde");
    tended(&mut store, disk, 1)?;
    Ok(before && has_keys(&mut store, disk, b"abcde"))
}

// Without a merge slice before it the flush makes a fifth table, which is merged with the others; else it stays before
// them.
#[test]
fn a_flush_between_two_slices(rt: HostRuntime) -> Result<(), Fail> {
    for slices in 1..4 {
        let mut disk = disk_of(rt.alloc(), &[])?;
        check_that(&rt, with_flush(rt.alloc(), &mut disk, slices)?);
        let rows = [row(0, 204, 1), row(1, 207, 4)];
        check_that_at(&rt, &slices, is_body(&disk, BODY_A, 7, &rows));
    }
    Ok(())
}

// Four values of 65,536 bytes fill the log: the fourth put flushes the three before it.
#[test]
fn a_put_that_fills_the_log_between_two_slices(rt: HostRuntime) -> Result<(), Fail> {
    let mut disk = disk_of(rt.alloc(), &[])?;
    let mut store = changed(rt.alloc(), &mut disk, &FOUR)?;
    let value = vec![in rt.alloc(); 7; 65_536]?;
    for key in 1..5u8 {
        check_same(&rt, &store.tend(&mut *disk, 1), &Ok(Tended::Worked));
        store.put(&mut *disk, &[key], &value)?;
    }
    tended(&mut store, &mut disk, 1)?;
    check_that(&rt, has_keys(&mut store, &mut disk, b"abcd"));
    for key in 1..5u8 {
        assert_eq!(rt; store.get(&mut *disk, &[key]), Ok(Some(value.as_slice())));
    }
    check_that(&rt, stands(&disk, BODY_A, b"SRFM\x02\x00\x02\x00\x07"));
    Ok(())
}
