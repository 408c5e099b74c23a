//! Stores of random scripts, and the map that each has.
use crate::both::Succinct;
use disk_mem::MemDisk;
use filter_api::Settings;
use plain_map::PlainMap;
use std::alloc::Global;
use std::test::Fail;
use store_core::Store;
use test_kit::{Numbers, boxed, new_disk};

type SurfStore = Store<Succinct>;

/// The settings of the four variants.
pub const VARIANTS: [Settings; 4] = [
    Settings {
        hash_bits: 0,
        real_bits: 0,
        ratio: 64,
    },
    Settings {
        hash_bits: 8,
        real_bits: 0,
        ratio: 0,
    },
    Settings {
        hash_bits: 0,
        real_bits: 8,
        ratio: 1,
    },
    Settings {
        hash_bits: 5,
        real_bits: 11,
        ratio: 64,
    },
];

/// A store that a script made: its bytes, and how many pairs it has.
#[derive(Drop)]
pub struct Made {
    pub bytes: Vec<u8>,
    pub live: u64,
}

// A store in the making: the store, its disk, the map that it has, and the numbers by which its script goes.
#[derive(Drop)]
struct Making {
    store: Box<SurfStore>,
    disk: Box<MemDisk>,
    map: Box<PlainMap>,
    numbers: Numbers,
}

// A key of one to five letters, of four kinds.
fn draw_key(alloc: Global, numbers: &mut Numbers) -> Result<Vec<u8>, Fail> {
    let mut key = Vec::new(alloc);
    for _ in 0..=numbers.draw_below(5) {
        let letter = numbers.draw_below(4);
        key.push(b"abcz".get(letter).copied().unwrap_or(0))?;
    }
    Ok(key)
}

// A value of up to 20 bytes, and now and then one of up to 3,000.
fn draw_value(alloc: Global, numbers: &mut Numbers) -> Result<Vec<u8>, Fail> {
    let most = if numbers.draw_below(8) == 0 {
        3_001
    } else {
        21
    };
    let length = numbers.draw_below(most);
    let mut value = Vec::new(alloc);
    value.resize(length, 7)?;
    Ok(value)
}

fn put(alloc: Global, making: &mut Making) -> Result<(), Fail> {
    let key = draw_key(alloc, &mut making.numbers)?;
    let value = draw_value(alloc, &mut making.numbers)?;
    making.store.put(&mut *making.disk, &key, &value)?;
    making.map.put(&key, &value)?;
    Ok(())
}

fn delete(alloc: Global, making: &mut Making) -> Result<(), Fail> {
    let key = draw_key(alloc, &mut making.numbers)?;
    making.store.delete(&mut *making.disk, &key)?;
    making.map.del(&key);
    Ok(())
}

// One step: a put mostly, a delete, a flush, a compaction, or a slice of a merge.
fn step(alloc: Global, making: &mut Making) -> Result<(), Fail> {
    match making.numbers.draw_below(20) {
        0 => making.store.compact(&mut *making.disk)?,
        1 | 2 => making.store.flush(&mut *making.disk)?,
        3 | 4 | 5 => delete(alloc, making)?,
        6 => {
            making.store.tend(&mut *making.disk, 8)?;
        }
        _ => put(alloc, making)?,
    }
    Ok(())
}

// A new store of 512 pages.
fn begun(alloc: Global, settings: Settings, seed: u64) -> Result<Box<Making>, Fail> {
    let mut disk = new_disk(alloc)?;
    SurfStore::format(alloc, &mut *disk, settings, 512)?;
    let store = boxed(alloc, SurfStore::open_store(alloc, &mut *disk)?)?;
    let map = boxed(alloc, PlainMap::new(alloc))?;
    let numbers = Numbers::new(seed);
    Ok(boxed(
        alloc,
        Making {
            store,
            disk,
            map,
            numbers,
        },
    )?)
}

/// The store of a script of so many steps that a seed draws.
pub fn store_of(alloc: Global, settings: Settings, seed: u64, steps: u32) -> Result<Made, Fail> {
    let mut making = begun(alloc, settings, seed)?;
    for _ in 0..steps {
        step(alloc, &mut making)?;
    }
    Ok(Made {
        bytes: Vec::from_slice(alloc, making.disk.bytes())?,
        live: making.map.len() as u64,
    })
}
