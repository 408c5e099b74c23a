//! What a refused call leaves, which calls make no call of the device, and how many blocks a merge slice reads.
use crate::asserts::{check_same, check_that};
use disk_mem::MemDisk;
use disk_trait::Disk;
use std::alloc::{AllocError, Global};
use std::test::Fail;
use store_core::{Limit, StoreError, Tended};
use test_stores::{BASE, Change, PlainStore, apply, changed, disk_of, opened};

// Four tables of level 0 with a pair each, three pages each from byte 786,432 on.
const FOUR: [Change<'static>; 8] = [
    Change::Put(b"a", b"1"),
    Change::Flush,
    Change::Put(b"b", b"2"),
    Change::Flush,
    Change::Put(b"c", b"3"),
    Change::Flush,
    Change::Put(b"d", b"4"),
    Change::Flush,
];

// Their store, and then another byte in the block of b.
fn damaged(alloc: Global, disk: &mut MemDisk) -> Result<Box<PlainStore>, Fail> {
    let store = changed(alloc, disk, &FOUR)?;
    disk.write(798_728, &[3])?;
    Ok(store)
}

// A call that merges the four tables.
#[derive(Clone, Copy)]
enum Merging {
    Compact,
    Tend,
}

// Whether it is answered that a block is damaged.
fn tells_damage(store: &mut PlainStore, disk: &mut MemDisk, merging: Merging) -> bool {
    match merging {
        Merging::Compact => matches!(store.compact(disk), Err(StoreError::Damaged(_))),
        Merging::Tend => matches!(store.tend(disk, 8), Err(StoreError::Damaged(_))),
    }
}

// Whether the pairs but that of the damaged block are found.
fn finds_others(store: &mut PlainStore, disk: &mut MemDisk) -> bool {
    let pairs: [(&[u8], &[u8]); 3] = [(b"a", b"1"), (b"c", b"3"), (b"d", b"4")];
    for (key, value) in pairs {
        match store.get(disk, key) {
            Ok(Some(found)) if found == value => {}
            _ => return false,
        }
    }
    true
}

// Whether a flush of one more pair, and an opening behind it, show five tables.
fn has_five_tables(
    alloc: Global,
    store: &mut PlainStore,
    disk: &mut MemDisk,
) -> Result<bool, Fail> {
    apply(store, disk, Change::Put(b"e", b"5"))?;
    apply(store, disk, Change::Flush)?;
    let again = opened(alloc, disk)?;
    Ok(store.explain(b"z")?.tables == 5 && again.explain(b"z")?.tables == 5)
}

#[test]
fn a_merge_that_meets_damage_changes_nothing(rt: HostRuntime) -> Result<(), Fail> {
    let alloc = rt.alloc();
    for merging in [Merging::Compact, Merging::Tend] {
        let mut disk = disk_of(alloc, &[])?;
        let mut store = damaged(alloc, &mut disk)?;
        let before = Vec::from_slice(alloc, disk.bytes())?;
        check_that(&rt, tells_damage(&mut store, &mut disk, merging));
        check_that(&rt, disk.bytes().starts_with(&before));
        check_that(&rt, finds_others(&mut store, &mut disk));
        check_that(&rt, has_five_tables(alloc, &mut store, &mut disk)?);
    }
    Ok(())
}

// The sum of slot A's body behind a format, with the last epoch.
const LAST_EPOCH_SUM: [u8; 8] = [0x3d, 0xc3, 0x25, 0x2c, 0x11, 0xb4, 0xbf, 0x37];

// A new store at the last epoch.
fn last_epoch(alloc: Global, disk: &mut MemDisk) -> Result<Box<PlainStore>, Fail> {
    PlainStore::format(alloc, disk, BASE, 512)?;
    disk.write(16, &[0xff; 8])?;
    disk.write(72, &LAST_EPOCH_SUM)?;
    Ok(opened(alloc, disk)?)
}

#[test]
fn a_store_of_nothing_is_flushed_and_compacted_without_a_call(rt: HostRuntime) -> Result<(), Fail> {
    let alloc = rt.alloc();
    let mut disk = disk_of(alloc, &[])?;
    let mut store = last_epoch(alloc, &mut disk)?;
    let calls = disk.calls();
    check_same(&rt, &store.flush(&mut *disk), &Ok(()));
    check_same(&rt, &store.compact(&mut *disk), &Ok(()));
    check_same(&rt, &disk.calls(), &calls);
    Ok(())
}

// So many bytes 07.
fn sevens(alloc: Global, count: usize) -> Result<Vec<u8>, AllocError> {
    vec![in alloc; 7; count]
}

// The table holds the first 1,024 bytes of the key.
#[test]
fn limits_are_told_without_a_call(rt: HostRuntime) -> Result<(), Fail> {
    let alloc = rt.alloc();
    let name = [7; 1_025];
    let mut disk = disk_of(alloc, &[])?;
    let first = [Change::Put(&name[..1_024], b"v"), Change::Flush];
    let mut store = changed(alloc, &mut disk, &first)?;
    let calls = disk.calls();
    let key = Err(StoreError::Limit(Limit::Key(1_025)));
    check_same(&rt, &store.put(&mut *disk, &name, b"v"), &key);
    let long = sevens(alloc, 1_048_577)?;
    let value = Err(StoreError::Limit(Limit::Value(1_048_577)));
    check_same(&rt, &store.put(&mut *disk, b"a", &long), &value);
    let got = store.get(&mut *disk, &name);
    check_that(
        &rt,
        matches!(got, Err(StoreError::Limit(Limit::Key(1_025)))),
    );
    check_same(&rt, &disk.calls(), &calls);
    Ok(())
}

// Six tables of three pairs and three pairs in the log leave no room for a table of 53 pages.
#[test]
fn no_room_is_told_without_a_call(rt: HostRuntime) -> Result<(), Fail> {
    let alloc = rt.alloc();
    let value = vec![in alloc; 0; 65_536]?;
    let mut disk = disk_of(alloc, &[])?;
    let mut store = changed(alloc, &mut disk, &[])?;
    for key in 1..22u8 {
        check_same(&rt, &store.put(&mut *disk, &[key], &value), &Ok(()));
    }
    let calls = disk.calls();
    let full = Err(StoreError::Full { need: 53, gap: 2 });
    check_same(&rt, &store.put(&mut *disk, &[22], &value), &full);
    check_same(&rt, &disk.calls(), &calls);
    Ok(())
}

// Four tables of four blocks each, a pair to a block.
fn sixteen_blocks(alloc: Global, disk: &mut MemDisk) -> Result<Box<PlainStore>, Fail> {
    let value = vec![in alloc; 7; 3_000]?;
    let mut store = changed(alloc, disk, &[])?;
    for key in 0..16u8 {
        apply(&mut store, disk, Change::Put(&[key], &value))?;
        if key % 4 == 3 {
            apply(&mut store, disk, Change::Flush)?;
        }
    }
    Ok(store)
}

#[test]
fn a_slice_of_eight_reads_eight_blocks(rt: HostRuntime) -> Result<(), Fail> {
    let alloc = rt.alloc();
    let mut disk = disk_of(alloc, &[])?;
    let mut store = sixteen_blocks(alloc, &mut disk)?;
    for _ in 0..2 {
        let before = disk.reads();
        check_that(&rt, matches!(store.tend(&mut *disk, 8), Ok(Tended::Worked)));
        check_same(&rt, &disk.reads().saturating_sub(before), &8);
    }
    Ok(())
}
