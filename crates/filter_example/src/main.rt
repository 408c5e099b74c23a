//! A succinct filter of five keys: built, asked, written and read again. `docs/FILTER.md` goes through it.
#![tactic(auto)]

use anyhow::{Result, bail};
use filter_api::{RangeFilter, Settings};
use filter_model::are_keys;
use key_base::KeyList;
use std::alloc::{AllocError, Global};
use surf_filter::SurfFilter;

const SETTINGS: Settings = Settings {
    hash_bits: 0,
    real_bits: 8,
    ratio: 64,
};

fn main(rt: HostRuntime) -> Result<()> {
    let image = write(&rt, rt.alloc())?;
    println!(rt; "{} bytes", image.len())?;
    read(&rt, rt.alloc(), image.as_slice())
}

// Keys in rising order.
fn keys(alloc: Global) -> Result<KeyList, AllocError> {
    let mut keys = KeyList::new(alloc);
    for key in [b"far".as_slice(), b"fast", b"s", b"top", b"toy"] {
        keys.push(key)?;
    }
    Ok(keys)
}

// The filter of the keys, which needs them no longer.
fn build(alloc: Global) -> Result<SurfFilter<Global>> {
    let keys = keys(alloc)?;
    if !are_keys(&keys) || SETTINGS.check().is_err() {
        bail!("no filter of these");
    }
    let filter = SurfFilter::build(alloc, &keys, SETTINGS)?;
    Ok(filter)
}

// What the filter says of a key and of a range.
fn ask(rt: &impl Print, filter: &SurfFilter<Global>) -> Result<()> {
    println!(rt; "fasten: {}", filter.may_hold(b"fasten"))?;
    println!(rt; "fa: {}", filter.may_hold(b"fa"))?;
    println!(rt; "fasa to fass: {}", filter.may_hold_range(b"fasa", b"fass"))?;
    Ok(())
}

// Its leaves by their numbers, and how many may stand for keys of a range.
fn count(rt: &impl Print, filter: &SurfFilter<Global>) -> Result<()> {
    match filter.seek(b"fat") {
        Some(leaf) => println!(rt; "from fat on: leaf {leaf}")?,
        None => println!(rt; "from fat on: no leaf")?,
    }
    println!(rt; "f to t: {} leaves", filter.tally(b"f", b"t"))?;
    Ok(())
}

// Builds the filter, asks it, and gives its image.
fn write(rt: &impl Print, alloc: Global) -> Result<Vec<u8>> {
    let filter = build(alloc)?;
    write_asked(rt, alloc, &filter)
}

fn write_asked(rt: &impl Print, alloc: Global, filter: &SurfFilter<Global>) -> Result<Vec<u8>> {
    ask(rt, filter)?;
    count(rt, filter)?;
    let mut image = Vec::new(alloc);
    filter.encode(&mut image)?;
    Ok(image)
}

// Reads the filter again, and asks what is read.
fn read(rt: &impl Print, alloc: Global, image: &[u8]) -> Result<()> {
    match SurfFilter::decode_in(alloc, image) {
        Ok(filter) => ask(rt, &filter),
        Err(_) => bail!("no image"),
    }
}
