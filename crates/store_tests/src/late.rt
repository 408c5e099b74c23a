//! Tables that a scan reads late, or not at all.
use crate::asserts::check_same;
use crate::scans::DELETED;
use std::alloc::Global;
use std::test::Fail;
use test_stores::{Change, changed, disk_of, range_of, seek_of};

// Two tables of a key each, and a lesser key in memory.
const UNDER: [Change<'static>; 5] = [
    Change::Put(b"\x05", b"v"),
    Change::Flush,
    Change::Put(b"\x06", b"v"),
    Change::Flush,
    Change::Put(b"\x01", b"v"),
];

// How many blocks a seek reads for its first pair.
fn seek_reads(
    alloc: Global,
    changes: &[Change<'_>],
    low: &[u8],
    high: Option<&[u8]>,
) -> Result<u64, Fail> {
    let mut disk = disk_of(alloc, &[])?;
    let store = changed(alloc, &mut disk, changes)?;
    let mut scan = seek_of(alloc, &store, low, high)?;
    let before = disk.reads();
    scan.advance(&mut *disk)?;
    Ok(disk.reads().saturating_sub(before))
}

// How many blocks a range reads that is asked for so many pairs.
fn range_reads(alloc: Global, changes: &[Change<'_>], most: u64) -> Result<u64, Fail> {
    let mut disk = disk_of(alloc, &[])?;
    let store = changed(alloc, &mut disk, changes)?;
    let mut scan = range_of(alloc, &store, b"\x01", b"\x0a", most)?;
    let before = disk.reads();
    for _ in 0..4 {
        scan.advance(&mut *disk)?;
    }
    Ok(disk.reads().saturating_sub(before))
}

#[test]
fn a_seek_reads_no_table_past_its_answer(rt: HostRuntime) -> Result<(), Fail> {
    let alloc = rt.alloc();
    check_same(
        &rt,
        &seek_reads(alloc, &DELETED, b"\x01", Some(b"\x0a"))?,
        &2,
    );
    check_same(&rt, &seek_reads(alloc, &DELETED, b"\x01", None)?, &2);
    check_same(
        &rt,
        &seek_reads(alloc, &DELETED, b"\x05", Some(b"\x0a"))?,
        &1,
    );
    check_same(
        &rt,
        &seek_reads(alloc, &DELETED, b"\x01", Some(b"\x02"))?,
        &2,
    );
    Ok(())
}

#[test]
fn a_seek_that_the_memory_answers_reads_nothing(rt: HostRuntime) -> Result<(), Fail> {
    let alloc = rt.alloc();
    check_same(&rt, &seek_reads(alloc, &UNDER, b"\x01", Some(b"\x0a"))?, &0);
    check_same(&rt, &seek_reads(alloc, &UNDER, b"\x01", None)?, &0);
    check_same(&rt, &range_reads(alloc, &UNDER, 2)?, &1);
    check_same(&rt, &range_reads(alloc, &UNDER, 3)?, &2);
    Ok(())
}
