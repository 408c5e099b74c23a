//! Changes of a store, with faults and crashes between them.
use crate::asserts::{check_same, check_that};
use disk_mem::{Choice, MemDisk};
use filter_api::{Field, Settings};
use std::alloc::{AllocError, Global};
use std::test::Fail;
use store_core::{Limit, StoreError};
use test_stores::{BASE, PlainStore, crashed, disk_of, failing, opened};

const MIXED: Settings = Settings {
    hash_bits: 8,
    real_bits: 8,
    ratio: 64,
};

// So many bytes 07.
fn sevens(alloc: Global, count: usize) -> Result<Vec<u8>, AllocError> {
    vec![in alloc; 7; count]
}

// A disk that holds an empty store of 512 pages.
fn formatted(alloc: Global, settings: Settings) -> Result<Box<MemDisk>, Fail> {
    let mut disk = disk_of(alloc, &[])?;
    PlainStore::format(alloc, &mut *disk, settings, 512)?;
    Ok(disk)
}

// One of the six steps of a script, numbered from 1.
fn step(store: &mut PlainStore, disk: &mut MemDisk, number: usize) -> Result<(), StoreError> {
    match number {
        1 => store.put(disk, b"a", b"b"),
        2 => store.put(disk, b"b", b"c"),
        4 => store.delete(disk, b"a"),
        6 => store.put(disk, b"c", b"d"),
        _ => store.flush(disk),
    }
}

// Whether a get finds this value of a key, or none.
fn finds(store: &mut PlainStore, disk: &mut MemDisk, key: &[u8], value: Option<&[u8]>) -> bool {
    match store.get(disk, key) {
        Ok(found) => found == value,
        Err(_) => false,
    }
}

// Whether the store has the map behind so many steps.
fn is_behind(store: &mut PlainStore, disk: &mut MemDisk, steps: usize) -> bool {
    let a = steps > 0 && steps < 4;
    finds(store, disk, b"a", a.then_some(b"b".as_slice()))
        && finds(store, disk, b"b", (steps > 1).then_some(b"c".as_slice()))
        && finds(store, disk, b"c", (steps > 5).then_some(b"d".as_slice()))
}

#[test]
fn puts_are_there_after_a_flush_and_a_reopening(rt: HostRuntime) -> Result<(), Fail> {
    let alloc = rt.alloc();
    for settings in [BASE, MIXED] {
        let mut disk = formatted(alloc, settings)?;
        let mut store = opened(alloc, &mut disk)?;
        for number in 1..7 {
            check_same(&rt, &step(&mut store, &mut disk, number), &Ok(()));
            check_that(&rt, is_behind(&mut store, &mut disk, number));
            let mut again = opened(alloc, &mut disk)?;
            check_that(&rt, is_behind(&mut again, &mut disk, number));
        }
    }
    Ok(())
}

#[test]
fn refusals_in_their_order(rt: HostRuntime) -> Result<(), Fail> {
    let alloc = rt.alloc();
    let mut empty = disk_of(alloc, &[])?;
    check_that(
        &rt,
        matches!(
            PlainStore::open_store(alloc, &mut *empty),
            Err(StoreError::NotAStore)
        ),
    );
    let few = PlainStore::format(alloc, &mut *empty, BASE, 511);
    check_same(&rt, &few, &Err(StoreError::BadSettings(Field::Pages)));
    check_same(&rt, &empty.calls(), &3);
    let mut disk = formatted(alloc, BASE)?;
    check_same(
        &rt,
        &PlainStore::format(alloc, &mut *disk, BASE, 512),
        &Err(StoreError::AlreadyAStore),
    );
    let mut store = opened(alloc, &mut disk)?;
    check_same(
        &rt,
        &store.put(&mut *disk, b"", b"c"),
        &Err(StoreError::Limit(Limit::Key(0))),
    );
    let long = sevens(alloc, 1_048_577)?;
    check_same(
        &rt,
        &store.put(&mut *disk, b"a", &long),
        &Err(StoreError::Limit(Limit::Value(1_048_577))),
    );
    check_same(&rt, &store.flush(&mut *disk), &Ok(()));
    check_same(&rt, &store.get(&mut *disk, b"a"), &Ok(None));
    Ok(())
}

// Whether these bytes stand at a place.
fn stands(disk: &MemDisk, place: usize, bytes: &[u8]) -> bool {
    disk.bytes().get(place..).unwrap_or(b"").starts_with(bytes)
}

// Whether slot B is in use behind its first install, with log area 1, which is empty, and one table of level 0, of two
// entries in 18 data pages.
fn has_one_table(disk: &MemDisk) -> bool {
    let row = [
        0, 0, 0, 0, 192, 0, 0, 0, 18, 0, 0, 0, 1, 0, 0, 0, 1, 0, 0, 0, 2, 0, 0, 0,
    ];
    stands(disk, 131_072, &[1])
        && stands(disk, 131_088, &[2, 0, 0, 0])
        && stands(disk, 131_104, &[128, 0, 0, 0])
        && stands(disk, 131_144, &row)
        && stands(disk, 524_288, &[0])
}

// Whether gets find the value of b, and b as the value of a.
fn finds_both(store: &mut PlainStore, disk: &mut MemDisk, value: &[u8]) -> bool {
    finds(store, disk, b"a", Some(b"b")) && finds(store, disk, b"b", Some(value))
}

#[test]
fn a_long_value_is_flushed_with_the_memory(rt: HostRuntime) -> Result<(), Fail> {
    let alloc = rt.alloc();
    let mut disk = formatted(alloc, BASE)?;
    let mut store = opened(alloc, &mut disk)?;
    let long = sevens(alloc, 65_537)?;
    check_same(&rt, &store.put(&mut *disk, b"a", b"b"), &Ok(()));
    check_same(&rt, &store.put(&mut *disk, b"b", &long), &Ok(()));
    check_that(&rt, has_one_table(&disk));
    check_that(&rt, finds_both(&mut store, &mut disk, &long));
    let mut again = opened(alloc, &mut disk)?;
    check_that(&rt, finds_both(&mut again, &mut disk, &long));
    Ok(())
}

#[test]
fn long_values_until_there_is_no_room(rt: HostRuntime) -> Result<(), Fail> {
    let alloc = rt.alloc();
    let mut disk = formatted(alloc, BASE)?;
    let mut store = opened(alloc, &mut disk)?;
    let value = sevens(alloc, 65_536)?;
    for key in 1..22u8 {
        assert_eq!(rt; store.put(&mut *disk, &[key], &value), Ok(()));
    }
    let full = StoreError::Full { need: 53, gap: 2 };
    assert_eq!(rt; store.put(&mut *disk, &[22], &value), Err(full));
    assert_eq!(rt; store.get(&mut *disk, &[1]), Ok(Some(value.as_slice())));
    assert_eq!(rt; store.get(&mut *disk, &[22]), Ok(None));
    assert!(rt; !store.is_stopped());
    Ok(())
}

// The script over a disk of which a call fails: the step that failed, 0 for the opening, or none.
fn with_fault(alloc: Global, disk: &mut MemDisk) -> Result<Option<usize>, Fail> {
    let mut store = match opened(alloc, disk) {
        Ok(store) => store,
        Err(_) => return Ok(Some(0)),
    };
    for number in 1..7 {
        if step(&mut store, disk, number).is_err() {
            if store.get(disk, b"a") != Err(StoreError::Stopped) {
                return Err(Fail::from("not stopped"));
            }
            return Ok(Some(number));
        }
    }
    Ok(None)
}

// Whether a run in which the call of this number fails ends there and, reopened as a crash leaves it, has what was done,
// or one step more.
fn fails_well(alloc: Global, first: &MemDisk, call: u64, choice: &[Choice]) -> Result<bool, Fail> {
    let mut disk = failing(alloc, first.bytes(), call)?;
    let Some(number) = with_fault(alloc, &mut disk)? else {
        return Ok(false);
    };
    let mut left = crashed(alloc, &disk, choice)?;
    let mut again = opened(alloc, &mut left)?;
    Ok(
        is_behind(&mut again, &mut left, number)
            || is_behind(&mut again, &mut left, number.saturating_sub(1)),
    )
}

// Whether it is so of each of these calls.
fn each_fails_well(alloc: Global, calls: &[u64], choice: &[Choice]) -> Result<bool, Fail> {
    let first = formatted(alloc, BASE)?;
    for call in calls {
        if !fails_well(alloc, &first, *call, choice)? {
            return Ok(false);
        }
    }
    Ok(true)
}

#[test]
fn calls_fail_and_their_writes_are_whole(rt: HostRuntime) -> Result<(), Fail> {
    let calls = [0, 3, 6, 9, 12, 15, 18, 21, 24, 27, 30, 33, 36, 39, 42];
    let whole = [Choice::Whole, Choice::Whole, Choice::Whole];
    check_that(
        &rt,
        each_fails_well(rt.alloc(), calls.as_slice(), whole.as_slice())?,
    );
    Ok(())
}

#[test]
fn calls_fail_and_their_writes_are_lost(rt: HostRuntime) -> Result<(), Fail> {
    let calls = [1, 4, 7, 10, 13, 16, 19, 22, 25, 28, 31, 34, 37, 40, 43];
    let lost = [Choice::Lost, Choice::Lost, Choice::Lost];
    check_that(
        &rt,
        each_fails_well(rt.alloc(), calls.as_slice(), lost.as_slice())?,
    );
    Ok(())
}
