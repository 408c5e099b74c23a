//! The calls that are measured. Each answers how many keys or pairs it found, so that none is left out.
use crate::counted::Device;
use crate::keys::Query;
use anyhow::{Result, bail};
use filter_api::RangeFilter;
use store_core::{Scan, Store};

/// Which call is measured.
#[derive(Clone, Copy, PartialEq, Eq)]
pub enum Call {
    Seek,
    Get,
}

/// Asks the store for each query.
pub fn ask<F: RangeFilter>(
    call: Call,
    disk: &mut Device,
    store: &mut Store<F>,
    queries: &[Query],
) -> Result<usize> {
    match call {
        Call::Seek => seeks(disk, store, queries),
        Call::Get => gets(disk, store, queries),
    }
}

// How many of the ranges have a first pair.
fn seeks<F: RangeFilter>(disk: &mut Device, store: &Store<F>, queries: &[Query]) -> Result<usize> {
    let mut found = 0usize;
    for query in queries {
        if seek(disk, store, *query)? {
            found = found.saturating_add(1);
        }
    }
    Ok(found)
}

// A closed seek with its first step.
fn seek<F: RangeFilter>(disk: &mut Device, store: &Store<F>, query: Query) -> Result<bool> {
    let low = query.low.to_be_bytes();
    let high = query.high.to_be_bytes();
    let Ok(scan) = store.seek(&low, Some(&high)) else {
        bail!("a seek was refused");
    };
    let mut scan = scan;
    step(disk, &mut scan)
}

// Whether a scan has another pair.
fn step<F: RangeFilter>(disk: &mut Device, scan: &mut Scan<'_, F>) -> Result<bool> {
    if scan.advance(disk).is_err() {
        bail!("a step failed");
    }
    Ok(scan.pair().is_some())
}

// How many of the lower bounds are keys.
fn gets<F: RangeFilter>(
    disk: &mut Device,
    store: &mut Store<F>,
    queries: &[Query],
) -> Result<usize> {
    let mut found = 0usize;
    for query in queries {
        if get(disk, store, *query)? {
            found = found.saturating_add(1);
        }
    }
    Ok(found)
}

fn get<F: RangeFilter>(disk: &mut Device, store: &mut Store<F>, query: Query) -> Result<bool> {
    match store.get(disk, &query.low.to_be_bytes()) {
        Ok(value) => Ok(value.is_some()),
        Err(_) => bail!("a get failed"),
    }
}

/// Walks over all pairs: how many there are, at most so many and one more.
pub fn walk<F: RangeFilter>(disk: &mut Device, store: &Store<F>, pairs: usize) -> Result<usize> {
    let Ok(scan) = store.range(b"", &[255; 8], u64::MAX) else {
        bail!("a range was refused");
    };
    let mut scan = scan;
    let mut walked = 0usize;
    for _ in 0..pairs.saturating_add(1) {
        if step(disk, &mut scan)? {
            walked = walked.saturating_add(1);
        }
    }
    Ok(walked)
}
