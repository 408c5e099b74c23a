//! A store on a file: made, written, read, opened again, and filled until a put is refused.
//!
//! The file `device` in the folder that it runs in becomes a store of 512 pages, 2 MiB. A program of your own takes the
//! path from its arguments, and does not format a store that is there already.
#![tactic(auto)]

use anyhow::{Result, bail};
use filter_api::Settings;
use real_outside::FileOutside;
use std::alloc::Global;
use store_core::{Store, StoreError};
use surf_filter::SurfFilter;

// A store with succinct filters.
type FileStore = Store<SurfFilter<Global>>;

// Keys that are drawn evenly: eight real bits a leaf keep out most ranges with no key.
const SETTINGS: Settings = Settings {
    hash_bits: 0,
    real_bits: 8,
    ratio: 64,
};

const PAGES: u64 = 512;

// The longest value that is logged; a longer one, of up to 1,048,576 bytes, becomes a table at once.
const VALUE_BYTES: usize = 65_536;

fn main(rt: HostRuntime) -> Result<()> {
    let alloc = rt.alloc();
    let mut disk = FileOutside::at(rt, String::from_str(alloc, "device")?);
    match FileStore::format(alloc, &mut disk, SETTINGS, PAGES) {
        Ok(()) => println!(rt; "made")?,
        Err(StoreError::AlreadyAStore) => println!(rt; "there already")?,
        Err(_) => bail!("no store can be made"),
    }
    write(alloc, &mut disk)?;
    read(&rt, alloc, &mut disk)?;
    fill(&rt, alloc, &mut disk)
}

// Opens the store. A store in a box is cheap to hold: the check does not go into its parts.
fn open(alloc: Global, disk: &mut FileOutside) -> Result<Box<FileStore>> {
    match FileStore::open_store(alloc, disk) {
        Ok(store) => Ok(Box::new(alloc, store)?),
        Err(_) => bail!("the store cannot be opened"),
    }
}

// Puts three pairs and deletes one. What was acknowledged is there after a crash, though nothing is closed here.
fn write(alloc: Global, disk: &mut FileOutside) -> Result<()> {
    let mut store = open(alloc, disk)?;
    for (key, value) in [(b"fig", b"7"), (b"nut", b"9"), (b"pea", b"3")] {
        if store.put(disk, key, value).is_err() {
            bail!("a put failed");
        }
    }
    match store.delete(disk, b"nut") {
        Ok(()) => Ok(()),
        Err(_) => bail!("a delete failed"),
    }
}

// Opens the store again, gets a pair, and goes over all pairs from a bound to another, both included.
fn read(rt: &impl Print, alloc: Global, disk: &mut FileOutside) -> Result<()> {
    let mut store = open(alloc, disk)?;
    match store.get(disk, b"fig") {
        Ok(Some(value)) => println!(rt; "fig has {} byte", value.len())?,
        Ok(None) => println!(rt; "fig is not there")?,
        Err(_) => bail!("a get failed"),
    }
    print_keys(rt, disk, &store)
}

// Prints the keys from a to z, ten at most.
fn print_keys(rt: &impl Print, disk: &mut FileOutside, store: &FileStore) -> Result<()> {
    let Ok(scan) = store.range(b"a", b"z", 10) else {
        bail!("a range was refused");
    };
    let mut scan = scan;
    for _ in 0..10u32 {
        match scan.step(disk) {
            Ok(Some((key, _))) => println!(rt; "{}", str::from_utf8(key).unwrap_or("?"))?,
            Ok(None) => {}
            Err(_) => bail!("a step failed"),
        }
    }
    Ok(())
}

// Puts long values until there is no room. A full device refuses the put, and keeps all that it has.
fn fill(rt: &impl Print, alloc: Global, disk: &mut FileOutside) -> Result<()> {
    let mut store = open(alloc, disk)?;
    let value = vec![in alloc; 7; VALUE_BYTES]?;
    for key in 1..100u8 {
        match store.put(disk, &[key], &value) {
            Ok(()) => {}
            Err(StoreError::Full { need, gap }) => {
                println!(rt; "put {key}: full, {need} pages needed and {gap} in one gap")?;
                return Ok(());
            }
            Err(_) => bail!("a put failed"),
        }
    }
    bail!("the device has room for all")
}
