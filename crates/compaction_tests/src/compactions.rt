//! Compactions of a store.
use crate::asserts::{check_same, check_that};
use disk_mem::MemDisk;
use std::test::Fail;
use store_core::{Explained, StoreError};
use test_stores::{Change, PlainStore, changed, disk_of, opened};

fn explained(tables: u64, admitted: u64, blocks: u64) -> Result<Explained, StoreError> {
    Ok(Explained {
        tables,
        admitted,
        blocks,
    })
}

// A pair that is deleted, in two tables.
const DELETED: [Change<'static>; 4] = [
    Change::Put(b"a", b"v"),
    Change::Flush,
    Change::Del(b"a"),
    Change::Flush,
];

#[test]
fn nothing_is_left_of_a_deleted_pair(rt: HostRuntime) -> Result<(), Fail> {
    let mut disk = disk_of(rt.alloc(), &[])?;
    let mut store = changed(rt.alloc(), &mut disk, &DELETED)?;
    check_same(&rt, &store.explain(b"a"), &explained(2, 2, 2));
    check_same(&rt, &store.compact(&mut *disk), &Ok(()));
    check_same(&rt, &store.get(&mut *disk, b"a"), &Ok(None));
    check_same(&rt, &store.explain(b"a"), &explained(0, 0, 0));
    Ok(())
}

#[test]
fn an_empty_store_is_compacted_without_a_call(rt: HostRuntime) -> Result<(), Fail> {
    let mut disk = disk_of(rt.alloc(), &[])?;
    let mut store = changed(rt.alloc(), &mut disk, &[])?;
    let calls = disk.calls();
    check_same(&rt, &store.compact(&mut *disk), &Ok(()));
    check_same(&rt, &disk.calls(), &calls);
    Ok(())
}

// Pairs in three tables and in memory, where one of them is deleted.
const LIVE: [Change<'static>; 8] = [
    Change::Put(b"a", b"v"),
    Change::Flush,
    Change::Put(b"b", b"v"),
    Change::Flush,
    Change::Put(b"c", b"v"),
    Change::Flush,
    Change::Del(b"b"),
    Change::Put(b"d", b"v"),
];

fn has(store: &mut PlainStore, disk: &mut MemDisk, key: &[u8], value: Option<&[u8]>) -> bool {
    match store.get(disk, key) {
        Ok(found) => found == value,
        Err(_) => false,
    }
}

// Whether the store has the live pairs alone.
fn has_live(store: &mut PlainStore, disk: &mut MemDisk) -> bool {
    let value: &[u8] = b"v";
    has(store, disk, b"a", Some(value))
        && has(store, disk, b"b", None)
        && has(store, disk, b"c", Some(value))
        && has(store, disk, b"d", Some(value))
}

#[test]
fn live_pairs_stand_in_one_table(rt: HostRuntime) -> Result<(), Fail> {
    let mut disk = disk_of(rt.alloc(), &[])?;
    let mut store = changed(rt.alloc(), &mut disk, &LIVE)?;
    check_same(&rt, &store.compact(&mut *disk), &Ok(()));
    check_that(&rt, has_live(&mut store, &mut disk));
    check_same(&rt, &store.explain(b"c"), &explained(1, 1, 1));
    let mut again = opened(rt.alloc(), &mut disk)?;
    check_that(&rt, has_live(&mut again, &mut disk));
    Ok(())
}

// A merge slice behind a change, which may be refused.
fn slice(store: &mut PlainStore, disk: &mut MemDisk) -> Result<(), StoreError> {
    store.tend(disk, 8)?;
    Ok(())
}

// Six tables of three values each take 318 of 320 pages, and no merge of them finds room.
#[test]
fn a_compaction_of_deleted_pairs_makes_room(rt: HostRuntime) -> Result<(), Fail> {
    let mut disk = disk_of(rt.alloc(), &[])?;
    let mut store = changed(rt.alloc(), &mut disk, &[])?;
    let value = vec![in rt.alloc(); 7; 65_536]?;
    for key in 1..22u8 {
        check_same(&rt, &store.put(&mut *disk, &[key], &value), &Ok(()));
        slice(&mut store, &mut disk)?;
    }
    let full = StoreError::Full { need: 53, gap: 2 };
    check_same(&rt, &store.put(&mut *disk, &[22], &value), &Err(full));
    for key in 1..22u8 {
        check_same(&rt, &store.delete(&mut *disk, &[key]), &Ok(()));
        slice(&mut store, &mut disk)?;
    }
    check_same(&rt, &store.compact(&mut *disk), &Ok(()));
    check_same(&rt, &store.put(&mut *disk, &[22], &value), &Ok(()));
    assert_eq!(rt; store.get(&mut *disk, &[22]), Ok(Some(value.as_slice())));
    Ok(())
}
