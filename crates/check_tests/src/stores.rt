//! Stores with succinct filters, and their disks. Both come in boxes: a function that holds one is then proved soon.
use disk_mem::MemDisk;
use filter_api::Settings;
use std::alloc::Global;
use std::test::Fail;
use store_core::{Store, StoreError};
use surf_filter::SurfFilter;
use test_kit::new_disk;
pub use test_stores::{BASE, Change};

/// The filter of the stores.
pub type Succinct = SurfFilter<Global>;

type SurfStore = Store<Succinct>;

/// One table with the pair of a and b.
pub const ONE: [Change<'static>; 2] = [Change::Put(b"a", b"b"), Change::Flush];

/// Three tables with a pair each, three pages each from byte 786,432 on, and a pair in the log.
pub const THREE: [Change<'static>; 7] = [
    Change::Put(b"a", b"1"),
    Change::Flush,
    Change::Put(b"b", b"2"),
    Change::Flush,
    Change::Put(b"c", b"3"),
    Change::Flush,
    Change::Put(b"d", b"4"),
];

/// Two tables with five entries, and a pair in the log.
pub const TWO: [Change<'static>; 8] = [
    Change::Put(b"a", b"1"),
    Change::Put(b"b", b"2"),
    Change::Put(b"c", b"3"),
    Change::Flush,
    Change::Put(b"d", b"4"),
    Change::Put(b"e", b"5"),
    Change::Flush,
    Change::Put(b"f", b"6"),
];

fn apply(store: &mut SurfStore, disk: &mut MemDisk, change: Change<'_>) -> Result<(), StoreError> {
    match change {
        Change::Put(key, value) => store.put(disk, key, value),
        Change::Del(key) => store.delete(disk, key),
        Change::Flush => store.flush(disk),
    }
}

fn opened(alloc: Global, disk: &mut MemDisk) -> Result<Box<SurfStore>, StoreError> {
    match Box::new(alloc, SurfStore::open_store(alloc, disk)?) {
        Ok(store) => Ok(store),
        Err(_) => Err(StoreError::Memory),
    }
}

/// The disk of a new store of 512 pages after some changes.
pub fn made(alloc: Global, changes: &[Change<'_>]) -> Result<Box<MemDisk>, Fail> {
    made_with(alloc, BASE, changes)
}

/// The same with other settings.
pub fn made_with(
    alloc: Global,
    settings: Settings,
    changes: &[Change<'_>],
) -> Result<Box<MemDisk>, Fail> {
    let mut disk = new_disk(alloc)?;
    SurfStore::format(alloc, &mut *disk, settings, 512)?;
    let mut store = opened(alloc, &mut disk)?;
    for change in changes {
        apply(&mut store, &mut disk, *change)?;
    }
    Ok(disk)
}
