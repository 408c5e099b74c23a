//! Stores on a device file, and what is done to them. Each call that is refused is an error.
use crate::counted::Device;
use crate::load::Load;
use anyhow::{Result, bail};
use disk_trait::Disk;
use filter_api::RangeFilter;
use key_base::SLOT_BYTES;
use std::alloc::{AllocError, Global};
use store_core::{Store, Tended};

// The pages of the device: more than any measure fills, and the file is only as long as what was written.
const PAGES: u64 = 1_048_576;

// How many blocks a merge slice may read: so many as the program reads behind a put.
const SLICE_BLOCKS: u32 = 8;

/// An empty store in the place of what stands there.
pub fn new_store<F: RangeFilter>(
    alloc: Global,
    disk: &mut Device,
    load: &Load,
) -> Result<Box<Store<F>>> {
    for gate in [0, SLOT_BYTES] {
        if disk.write(gate, &[0]).is_err() {
            bail!("the device failed");
        }
    }
    if Store::<F>::format(alloc, disk, load.settings, PAGES).is_err() {
        bail!("no store can be made");
    }
    match Store::open_store(alloc, disk) {
        Ok(store) => Ok(Box::new(alloc, store)?),
        Err(_) => bail!("the store cannot be opened"),
    }
}

/// The value of each key of a load.
pub fn value_of(alloc: Global, load: &Load) -> Result<Vec<u8>, AllocError> {
    let mut value = Vec::new(alloc);
    value.resize(load.value_bytes, 7)?;
    Ok(value)
}

/// Puts a value under the eight bytes of a number, highest first.
pub fn put<F: RangeFilter>(
    disk: &mut Device,
    store: &mut Store<F>,
    key: u64,
    value: &[u8],
) -> Result<()> {
    put_key(disk, store, &key.to_be_bytes(), value)
}

/// Puts a value under a key.
pub fn put_key<F: RangeFilter>(
    disk: &mut Device,
    store: &mut Store<F>,
    key: &[u8],
    value: &[u8],
) -> Result<()> {
    match store.put(disk, key, value) {
        Ok(()) => Ok(()),
        Err(_) => bail!("a put failed"),
    }
}

/// Makes the memory a table.
pub fn flush<F: RangeFilter>(disk: &mut Device, store: &mut Store<F>) -> Result<()> {
    match store.flush(disk) {
        Ok(()) => Ok(()),
        Err(_) => bail!("a flush failed"),
    }
}

/// A merge slice: whether there was something to be done.
pub fn tend<F: RangeFilter>(disk: &mut Device, store: &mut Store<F>) -> Result<bool> {
    match store.tend(disk, SLICE_BLOCKS) {
        Ok(Tended::Worked) => Ok(true),
        Ok(Tended::Idle) => Ok(false),
        Ok(Tended::Full { .. }) => bail!("the device is full"),
        Err(_) => bail!("a slice failed"),
    }
}

/// Merges all that the store holds.
pub fn compact<F: RangeFilter>(disk: &mut Device, store: &mut Store<F>) -> Result<()> {
    match store.compact(disk) {
        Ok(()) => Ok(()),
        Err(_) => bail!("a compact failed"),
    }
}

/// How many tables a store has.
pub fn tables_of<F: RangeFilter>(store: &Store<F>) -> Result<u64> {
    match store.explain(b"\0") {
        Ok(told) => Ok(told.tables),
        Err(_) => bail!("a key was refused"),
    }
}
