//! Stores of which nothing is wrong, and a device without a store.
use crate::asserts::{check_same, check_that};
use crate::checking::{check_finds, checked, summed};
use crate::stores::{Change, ONE, Succinct, THREE, TWO, made};
use plain_filter::PlainFilter;
use std::test::Fail;
use store_check::{CheckError, Summary};
use test_kit::new_disk;
use test_stores::changed;

// A tombstone over a pair, each in a table.
const DELETED: [Change<'static>; 4] = [
    Change::Put(b"a", b"1"),
    Change::Flush,
    Change::Del(b"a"),
    Change::Flush,
];

fn summary(tables: u64, entries: u64, live: u64, log: u64) -> Summary {
    Summary {
        tables,
        entries,
        live,
        log,
    }
}

#[test]
fn a_sound_store_is_summed_up(rt: HostRuntime) -> Result<(), Fail> {
    let alloc = rt.alloc();
    let stores: [(&[Change<'static>], Summary); 5] = [
        (&[], summary(0, 0, 0, 0)),
        (&ONE, summary(1, 1, 1, 0)),
        (&TWO, summary(2, 5, 6, 1)),
        (&DELETED, summary(2, 2, 0, 0)),
        (&THREE, summary(3, 3, 4, 1)),
    ];
    for (changes, said) in stores {
        let mut disk = made(alloc, changes)?;
        check_finds(&rt, alloc, &mut disk, &[])?;
        check_same(&rt, &summed(alloc, &mut disk)?, &said);
    }
    Ok(())
}

#[test]
fn nothing_is_found_where_filters_are_plain(rt: HostRuntime) -> Result<(), Fail> {
    let alloc = rt.alloc();
    let mut disk = new_disk(alloc)?;
    changed(alloc, &mut disk, &TWO)?;
    let seen = checked::<PlainFilter>(alloc, &mut disk)?;
    check_that(&rt, seen.found.is_empty());
    check_same(&rt, &seen.end, &None);
    Ok(())
}

// Bytes are read, and nothing else is asked of the device.
#[test]
fn a_check_reads_and_does_nothing_else(rt: HostRuntime) -> Result<(), Fail> {
    let alloc = rt.alloc();
    let mut disk = made(alloc, &ONE)?;
    let before = Vec::from_slice(alloc, disk.bytes())?;
    let (calls, reads) = (disk.calls() as u64, disk.reads());
    check_finds(&rt, alloc, &mut disk, &[])?;
    summed(alloc, &mut disk)?;
    let (later, read) = (disk.calls() as u64, disk.reads());
    check_that(&rt, read > reads);
    check_same(&rt, &later.checked_sub(calls), &read.checked_sub(reads));
    check_same(&rt, &disk.bytes(), &before.as_slice());
    Ok(())
}

#[test]
fn an_empty_disk_is_not_a_store(rt: HostRuntime) -> Result<(), Fail> {
    let alloc = rt.alloc();
    let mut disk = new_disk(alloc)?;
    let seen = checked::<Succinct>(alloc, &mut disk)?;
    check_same(&rt, &seen.end, &Some(CheckError::NotAStore));
    check_that(&rt, seen.found.is_empty());
    Ok(())
}
