//! Merge slices behind puts and deletes.
use crate::asserts::{check_that, check_that_at};
use crate::runs::{
    base_disk, calls_of, check, disk_of, failing, left_behind, lost, served, written,
};
use disk_mem::MemDisk;
use disk_trait::Disk;
use std::alloc::Global;
use std::test::Fail;
use test_runs::{four_tables, push_large};

const GETS: &[u8] = b"get 61\nget 62\nget 63\nget 64\nget 65\n";

const FOUND: &[u8] = b"val 01\nval 02\nval 03\nval 04\nval 05\n";

// Four blocks are one merge slice: behind the put the tables are one. A limit has a merge slice behind it too, a bad
// line has none.
const EXAMPLES: [(&[u8], &[u8]); 4] = [
    (
        b"explain 61\nput 65 05\nexplain 61\n",
        b"tables 4 admitted 1 blocks 1\nok\ntables 1 admitted 1 blocks 1\n",
    ),
    (
        b"put - 05\nexplain 61\n",
        b"limit key 0\ntables 1 admitted 1 blocks 1\n",
    ),
    (
        b"put 6 05\nget 61\nflush\nexplain 61\n",
        b"bad 4\nval 01\nok\ntables 4 admitted 1 blocks 1\n",
    ),
    (
        b"del 61\nget 61\nexplain 62\nget 62\n",
        b"ok\nnone\ntables 1 admitted 1 blocks 1\nval 02\n",
    ),
];

#[test]
fn four_tables_become_one_behind_a_put(rt: HostRuntime) -> Result<(), Fail> {
    let alloc = rt.alloc();
    for (number, (lines, replies)) in EXAMPLES.iter().copied().enumerate() {
        let end = served(alloc, four_tables(alloc)?, lines)?;
        check(&rt, &end, 0, replies, number as u64);
    }
    Ok(())
}

// Whether all pairs are found on this disk.
fn has_all(alloc: Global, disk: Box<MemDisk>) -> Result<bool, Fail> {
    let end = served(alloc, disk, GETS)?;
    Ok(end.said.as_slice() == FOUND)
}

// Whether all pairs are found on what a crash leaves of a disk, with its last writes or without.
fn outlasts(alloc: Global, disk: &MemDisk) -> Result<bool, Fail> {
    Ok(has_all(alloc, lost(alloc, disk)?)? && has_all(alloc, written(alloc, disk)?)?)
}

// Behind the opening and the four calls of the put each call of the merge slice fails in turn: the reply was said, and
// no line more is.
#[test]
fn a_fault_in_a_slice_ends_the_run(rt: HostRuntime) -> Result<(), Fail> {
    let alloc = rt.alloc();
    let first = four_tables(alloc)?;
    let opened = calls_of(alloc, &first, b"")?;
    let whole = calls_of(alloc, &first, b"put 65 05\n")?;
    check_that(&rt, whole > opened.saturating_add(12));
    for call in opened.saturating_add(4)..whole {
        let disk = failing(alloc, &first, call as u64)?;
        let end = served(alloc, disk, b"put 65 05\nget 61\n")?;
        check(&rt, &end, 4, b"ok\n", call as u64);
        check_that_at(&rt, &call, outlasts(alloc, &end.disk)?);
    }
    Ok(())
}

// The first table's block is at byte 786,432.
#[test]
fn damage_in_a_slice_ends_the_run(rt: HostRuntime) -> Result<(), Fail> {
    let alloc = rt.alloc();
    let mut disk = four_tables(alloc)?;
    disk.write(786_440, &[7])?;
    let end = served(alloc, disk, b"get 62\nput 65 05\nget 62\n")?;
    check(&rt, &end, 5, b"val 02\nok\n", 0);
    Ok(())
}

// The last block that the merge of twelve reads is at page 209: the slice behind the first put does not read it.
#[test]
fn damage_in_the_second_slice_ends_the_run(rt: HostRuntime) -> Result<(), Fail> {
    let alloc = rt.alloc();
    let mut disk = twelve_blocks(alloc)?;
    disk.write(856_072, &[7])?;
    let lines = b"put 01 02\nexplain 00\nput 01 02\nget 01\n";
    let end = served(alloc, disk, lines)?;
    check(&rt, &end, 5, b"ok\ntables 4 admitted 0 blocks 0\nok\n", 0);
    Ok(())
}

// Four tables of three blocks each, with the keys 61 to 6c.
fn twelve_blocks(alloc: Global) -> Result<Box<MemDisk>, Fail> {
    let mut lines = Vec::new(alloc);
    for keys in [b"147", b"258", b"369", b"abc"] {
        for key in keys {
            push_large(&mut lines, &[b'6', *key])?;
        }
        lines.extend_from_slice(b"flush\n")?;
    }
    left_behind(alloc, base_disk(alloc)?, &lines)
}

// Twelve blocks are two merge slices. Between them a flush puts its table in front, and all is found; a next run begins
// anew.
#[test]
fn a_merge_goes_on_behind_the_next_put(rt: HostRuntime) -> Result<(), Fail> {
    let alloc = rt.alloc();
    let first = twelve_blocks(alloc)?;
    let lines = b"put 01 02\nexplain 00\nflush\nget 01\ndel 02\nexplain 00\nget 01\ncount 60 6f\n";
    let end = served(alloc, disk_of(alloc, first.bytes())?, lines)?;
    let replies =
        b"ok\ntables 4 admitted 0 blocks 0\nok\nval 02\nok\ntables 2 admitted 0 blocks 0\nval 02\ncount 12\n";
    check(&rt, &end, 0, replies, 0);
    let half = served(alloc, first, b"put 01 02\nflush\n")?;
    let lines = b"count 60 6f\nput 02 03\nput 02 04\nexplain 00\ncount 00 6f\n";
    let again = served(alloc, half.disk, lines)?;
    let replies = b"count 12\nok\nok\ntables 1 admitted 0 blocks 0\ncount 14\n";
    check(&rt, &again, 0, replies, 1);
    Ok(())
}
