//! Stores behind some changes, and their disks.
//!
//! Both come in boxes: a function that holds one is then proved soon, whatever the store and the disk own.
use disk_mem::MemDisk;
use filter_api::Settings;
use plain_filter::PlainFilter;
use std::alloc::Global;
use store_core::{Store, StoreError};

/// A store with the plain filter.
pub type PlainStore = Store<PlainFilter>;

/// Filters with no suffix bits.
pub const BASE: Settings = Settings {
    hash_bits: 0,
    real_bits: 0,
    ratio: 64,
};

/// A change of a store.
#[derive(Clone, Copy)]
pub enum Change<'a> {
    /// A key gets a value.
    Put(&'a [u8], &'a [u8]),
    /// A key is deleted.
    Del(&'a [u8]),
    /// The memory becomes a table.
    Flush,
}

/// Makes a change.
pub fn apply(
    store: &mut PlainStore,
    disk: &mut MemDisk,
    change: Change<'_>,
) -> Result<(), StoreError> {
    match change {
        Change::Put(key, value) => store.put(disk, key, value),
        Change::Del(key) => store.delete(disk, key),
        Change::Flush => store.flush(disk),
    }
}

/// The store that stands on a disk.
pub fn opened(alloc: Global, disk: &mut MemDisk) -> Result<Box<PlainStore>, StoreError> {
    match Box::new(alloc, PlainStore::open_store(alloc, disk)?) {
        Ok(store) => Ok(store),
        Err(_) => Err(StoreError::Memory),
    }
}

/// A new store of 512 pages on an empty disk, behind some changes.
pub fn changed(
    alloc: Global,
    disk: &mut MemDisk,
    changes: &[Change<'_>],
) -> Result<Box<PlainStore>, StoreError> {
    PlainStore::format(alloc, disk, BASE, 512)?;
    let mut store = opened(alloc, disk)?;
    for change in changes {
        apply(&mut store, disk, *change)?;
    }
    Ok(store)
}
