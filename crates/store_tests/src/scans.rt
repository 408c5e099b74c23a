//! Pairs of a store between two bounds, one by one and counted, with faults and damage between them.
use crate::asserts::{check_same, check_that};
use byte_fields::{Damage, Part};
use disk_mem::MemDisk;
use disk_trait::Disk;
use std::alloc::{AllocError, Global};
use std::test::Fail;
use store_core::{Limit, StoreError};
use test_stores::{
    Change, PlainScan, PlainStore, apply, changed, disk_of, failing, opened, range_of, seek_of,
};

type Pair<'a> = (&'a [u8], &'a [u8]);

// Whether the next step gives this pair, or none.
fn gives(scan: &mut PlainScan<'_>, disk: &mut MemDisk, want: Option<Pair<'_>>) -> bool {
    match scan.step(disk) {
        Ok(found) => found == want,
        Err(_) => false,
    }
}

/// Keys of which the first two are deleted, in three tables of a block each.
pub const DELETED: [Change<'static>; 15] = [
    Change::Put(b"\x01", b"v"),
    Change::Put(b"\x02", b"v"),
    Change::Put(b"\x03", b"w"),
    Change::Put(b"\x04", b"v"),
    Change::Flush,
    Change::Put(b"\x05", b"v"),
    Change::Put(b"\x06", b"v"),
    Change::Put(b"\x07", b"v"),
    Change::Put(b"\x08", b"v"),
    Change::Flush,
    Change::Put(b"\x09", b"v"),
    Change::Put(b"\x0a", b"v"),
    Change::Del(b"\x01"),
    Change::Del(b"\x02"),
    Change::Flush,
];

// It may read six blocks: of two tables one, and one more for each of the four entries of the deleted keys. The third is past its answer.
#[test]
fn a_closed_seek_steps_over_deleted_keys(rt: HostRuntime) -> Result<(), Fail> {
    let mut disk = disk_of(rt.alloc(), &[])?;
    let store = changed(rt.alloc(), &mut disk, &DELETED)?;
    let mut scan = seek_of(rt.alloc(), &store, b"\x01", Some(b"\x0a"))?;
    let reads = disk.reads();
    check_that(&rt, gives(&mut scan, &mut disk, Some((b"\x03", b"w"))));
    check_same(&rt, &disk.reads().saturating_sub(reads), &2);
    Ok(())
}

// A deleted key whose entry stands in a table, beside a key in memory.
const HIDDEN: [Change<'static>; 4] = [
    Change::Put(b"a", b"\x01"),
    Change::Flush,
    Change::Del(b"a"),
    Change::Put(b"c", b"\x03"),
];

// Two keys in memory, the first with an empty value.
const SHORT: [Change<'static>; 2] = [Change::Put(b"a", b""), Change::Put(b"b", b"\x01")];

// Two keys in a table.
const FLUSHED: [Change<'static>; 3] = [
    Change::Put(b"aa1", b"\x01"),
    Change::Put(b"ab1", b"\x02"),
    Change::Flush,
];

// Whether a seek of a store behind some changes gives this pair first, or none.
fn first_is(
    alloc: Global,
    changes: &[Change<'_>],
    low: &[u8],
    high: Option<&[u8]>,
    want: Option<Pair<'_>>,
) -> Result<bool, Fail> {
    let mut disk = disk_of(alloc, &[])?;
    let store = changed(alloc, &mut disk, changes)?;
    let mut scan = seek_of(alloc, &store, low, high)?;
    Ok(gives(&mut scan, &mut disk, want))
}

#[test]
fn a_seek_gives_the_first_pair(rt: HostRuntime) -> Result<(), Fail> {
    let alloc = rt.alloc();
    check_that(&rt, first_is(alloc, &HIDDEN, b"`", Some(b"b"), None)?);
    check_that(
        &rt,
        first_is(alloc, &HIDDEN, b"", None, Some((b"c", b"\x03")))?,
    );
    check_that(&rt, first_is(alloc, &SHORT, b"", None, Some((b"a", b"")))?);
    check_that(&rt, first_is(alloc, &SHORT, b"b", Some(b"a"), None)?);
    check_that(&rt, first_is(alloc, &SHORT, b"c", None, None)?);
    Ok(())
}

fn count_of(alloc: Global, changes: &[Change<'_>], low: &[u8], high: &[u8]) -> Result<u64, Fail> {
    let mut disk = disk_of(alloc, &[])?;
    let store = changed(alloc, &mut disk, changes)?;
    Ok(store.count(&mut *disk, low, high)?)
}

#[test]
fn pairs_are_counted_and_tombstones_are_not(rt: HostRuntime) -> Result<(), Fail> {
    let alloc = rt.alloc();
    check_same(&rt, &count_of(alloc, &DELETED, b"", b"z")?, &8);
    check_same(&rt, &count_of(alloc, &HIDDEN, b"", b"z")?, &1);
    check_same(&rt, &count_of(alloc, &SHORT, b"b", b"a")?, &0);
    check_same(&rt, &count_of(alloc, &FLUSHED, b"aa5", b"ab0")?, &0);
    Ok(())
}

// How many pairs a scan gives, how many blocks it reads for them, and whether it then ends without a read.
fn pairs_of(scan: &mut PlainScan<'_>, disk: &mut MemDisk) -> Result<(u64, u64, bool), StoreError> {
    let before = disk.reads();
    let mut pairs = 0u64;
    let mut reads = 0;
    for _ in 0..9 {
        let some = scan.advance(disk)?;
        let now = disk.reads().saturating_sub(before);
        if !some {
            return Ok((pairs, reads, scan.pair().is_none() && now == reads));
        }
        pairs = pairs.saturating_add(1);
        reads = now;
    }
    Ok((pairs, reads, false))
}

// A store of a table of three blocks, of a pair each.
fn three_blocks(
    alloc: Global,
    disk: &mut MemDisk,
    value: &[u8],
) -> Result<Box<PlainStore>, StoreError> {
    let changes = [
        Change::Put(b"a", value),
        Change::Put(b"b", value),
        Change::Put(b"c", value),
        Change::Flush,
    ];
    changed(alloc, disk, &changes)
}

#[test]
fn nothing_is_read_behind_the_last_pair_of_a_range(rt: HostRuntime) -> Result<(), Fail> {
    let value = vec![in rt.alloc(); 7; 3_000]?;
    let mut disk = disk_of(rt.alloc(), &[])?;
    let store = three_blocks(rt.alloc(), &mut disk, &value)?;
    for most in 0..4 {
        let mut scan = range_of(rt.alloc(), &store, b"", b"z", most)?;
        check_same(
            &rt,
            &pairs_of(&mut scan, &mut disk),
            &Ok((most, most, true)),
        );
    }
    Ok(())
}

fn why_of(scan: Result<PlainScan<'_>, StoreError>) -> Option<StoreError> {
    match scan {
        Ok(_) => None,
        Err(why) => Some(why),
    }
}

// Why seeks, ranges and counts between two bounds are refused: all three for the same reason, or none is.
fn refused(
    store: &PlainStore,
    disk: &mut MemDisk,
    low: &[u8],
    high: &[u8],
) -> Result<Option<StoreError>, Fail> {
    let why = why_of(store.seek(low, Some(high)));
    let range = why_of(store.range(low, high, 1));
    let count = store.count(disk, low, high).err();
    if why != range || why != count {
        return Err(Fail::from("refused otherwise"));
    }
    Ok(why)
}

fn too_long(bytes: u64) -> Option<StoreError> {
    Some(StoreError::Limit(Limit::Key(bytes)))
}

#[test]
fn bounds_that_are_too_long(rt: HostRuntime) -> Result<(), Fail> {
    let mut disk = disk_of(rt.alloc(), &[])?;
    let store = changed(rt.alloc(), &mut disk, &SHORT)?;
    let long = vec![in rt.alloc(); 7; 1_026]?;
    let (most, more) = (&long[..1_024], &long[..1_025]);
    check_same(&rt, &refused(&store, &mut disk, most, most)?, &None);
    check_same(
        &rt,
        &refused(&store, &mut disk, more, &long)?,
        &too_long(1_025),
    );
    check_same(
        &rt,
        &refused(&store, &mut disk, b"", &long)?,
        &too_long(1_026),
    );
    check_same(&rt, &why_of(store.seek(&long, None)), &too_long(1_026));
    Ok(())
}

// What a step gives: the first byte of its key, a dot where no pair comes, `!` where the device fails, and `#` where
// what it read is damaged.
fn mark_of(scan: &mut PlainScan<'_>, disk: &mut MemDisk) -> u8 {
    match scan.advance(disk) {
        Ok(true) => match scan.pair() {
            Some((key, _)) => key.first().copied().unwrap_or(b'?'),
            None => b'?',
        },
        Ok(false) => b'.',
        Err(StoreError::Device(_)) => b'!',
        Err(StoreError::Damaged(_)) => b'#',
        Err(_) => b'?',
    }
}

// What so many steps give.
fn walked(
    alloc: Global,
    scan: &mut PlainScan<'_>,
    disk: &mut MemDisk,
    steps: usize,
) -> Result<Vec<u8>, AllocError> {
    let mut marks = Vec::new(alloc);
    for _ in 0..steps {
        marks.push(mark_of(scan, disk))?;
    }
    Ok(marks)
}

// What five steps of a range of all give, where the read of this number behind the opening fails.
fn with_fault(alloc: Global, bytes: &[u8], read: usize) -> Result<Vec<u8>, Fail> {
    let mut disk = disk_of(alloc, bytes)?;
    opened(alloc, &mut disk)?;
    let fault = disk.calls().saturating_add(read) as u64;
    let mut disk = failing(alloc, bytes, fault)?;
    let store = opened(alloc, &mut disk)?;
    let mut scan = range_of(alloc, &store, b"", b"z", 9)?;
    Ok(walked(alloc, &mut scan, &mut disk, 5)?)
}

#[test]
fn a_range_goes_on_behind_a_read_that_failed(rt: HostRuntime) -> Result<(), Fail> {
    let alloc = rt.alloc();
    let value = vec![in alloc; 7; 3_000]?;
    let mut disk = disk_of(alloc, &[])?;
    three_blocks(alloc, &mut disk, &value)?;
    let marks: [&[u8]; 4] = [b"!abc.", b"a!bc.", b"ab!c.", b"abc.."];
    for read in 0..4 {
        check_same(
            &rt,
            &with_fault(alloc, disk.bytes(), read)?.as_slice(),
            &marks[read],
        );
    }
    Ok(())
}

// The second block is at byte 790,528.
fn is_damage(why: Option<StoreError>) -> bool {
    matches!(
        why,
        Some(StoreError::Damaged(Damage::Sum {
            part: Part::Block,
            at: 790_528,
            ..
        }))
    )
}

#[test]
fn a_range_stands_before_a_block_that_is_damaged(rt: HostRuntime) -> Result<(), Fail> {
    let alloc = rt.alloc();
    let value = vec![in alloc; 7; 3_000]?;
    let mut disk = disk_of(alloc, &[])?;
    let store = three_blocks(alloc, &mut disk, &value)?;
    disk.write(791_528, &[6])?;
    let mut scan = range_of(alloc, &store, b"", b"z", 9)?;
    check_same(
        &rt,
        &walked(alloc, &mut scan, &mut disk, 3)?.as_slice(),
        &b"a##".as_slice(),
    );
    check_that(&rt, is_damage(scan.advance(&mut *disk).err()));
    disk.write(791_528, &[7])?;
    check_same(
        &rt,
        &walked(alloc, &mut scan, &mut disk, 3)?.as_slice(),
        &b"bc.".as_slice(),
    );
    Ok(())
}

// Sixty tables of a pair each, in a block of one page.
fn sixty_tables(alloc: Global, disk: &mut MemDisk) -> Result<Box<PlainStore>, Fail> {
    let mut store = changed(alloc, disk, &[])?;
    for key in 0..60u8 {
        apply(&mut store, disk, Change::Put(&[key], b"v"))?;
        apply(&mut store, disk, Change::Flush)?;
    }
    Ok(store)
}

// The others sleep, and each has room for its block.
#[test]
fn a_seek_over_sixty_tables_reads_one_block(rt: HostRuntime) -> Result<(), Fail> {
    let mut disk = disk_of(rt.alloc(), &[])?;
    let store = sixty_tables(rt.alloc(), &mut disk)?;
    let mut scan = seek_of(rt.alloc(), &store, b"", None)?;
    let reads = disk.reads();
    check_that(&rt, gives(&mut scan, &mut disk, Some((b"\x00", b"v"))));
    check_same(&rt, &disk.reads().saturating_sub(reads), &1);
    Ok(())
}
