//! Cursors and counts, beside the sorted array.
use crate::array::SortedArray;
use crate::pairs::{Got, count_between};
use anyhow::{Result, bail};
use bench_keys::Texts;
use bench_kit::{Figure, Least, ROUNDS, Watch, print_measure};
use fst_map::{FstCursor, FstMap};
use std::alloc::Global;
use std::io;
use std::time::CpuClock;

// The most starts and counts that are timed.
const STARTS: usize = 100_000;

/// Starts cursors at strings, and prints the nanoseconds a start.
pub fn start_rounds(
    rt: &(impl Print + CpuClock),
    alloc: Global,
    map: &FstMap<'_, Global>,
    array: &SortedArray,
    bounds: &Texts,
) -> Result<()> {
    let mut ours = Least::new();
    let mut theirs = Least::new();
    for _ in 0..ROUNDS {
        let met = starts_timed(rt, alloc, map, bounds, &mut ours)?;
        if !met.is(searches_timed(rt, array, bounds, &mut theirs)?) {
            bail!("cursors and searches do not agree");
        }
    }
    print_beside(rt, "start", ours, theirs)?;
    Ok(())
}

fn print_beside(rt: &impl Print, measure: &str, ours: Least, theirs: Least) -> io::Result<()> {
    let figures = [
        ("ns", Figure::Real(ours.nanoseconds)),
        ("array_ns", Figure::Real(theirs.nanoseconds)),
        ("array_ratio", Figure::Real(ours.over(theirs))),
    ];
    print_measure(rt, "fst_bench", measure, &figures)
}

// Starts a cursor at one string after the other: the values where they are.
fn starts_timed(
    rt: &impl CpuClock,
    alloc: Global,
    map: &FstMap<'_, Global>,
    bounds: &Texts,
    least: &mut Least,
) -> Result<Got> {
    let count = bounds.len().min(STARTS);
    let mut met = Got::new();
    let watch = Watch::start(rt)?;
    for i in 0..count {
        if let Some(cursor) = map.start(&alloc, bounds.get(i))? {
            met.add(cursor.value());
        }
    }
    least.keep(watch.stop_each(rt, count as u64)?);
    Ok(met)
}

// Searches the array for the same strings.
fn searches_timed(
    rt: &impl CpuClock,
    array: &SortedArray,
    bounds: &Texts,
    least: &mut Least,
) -> Result<Got> {
    let count = bounds.len().min(STARTS);
    let mut met = Got::new();
    let watch = Watch::start(rt)?;
    for i in 0..count {
        let number = array.first_from(bounds.get(i));
        if number < array.len() {
            met.add(array.value_of(number));
        }
    }
    least.keep(watch.stop_each(rt, count as u64)?);
    Ok(met)
}

/// Goes over all pairs, and prints the nanoseconds a pair.
pub fn walk_rounds(
    rt: &(impl Print + CpuClock),
    alloc: Global,
    map: &FstMap<'_, Global>,
    array: &SortedArray,
) -> Result<()> {
    let mut ours = Least::new();
    let mut theirs = Least::new();
    for _ in 0..ROUNDS {
        let met = walk_timed(rt, alloc, map, &mut ours)?;
        let watch = Watch::start(rt)?;
        let passed = pass_all(array);
        theirs.keep(watch.stop_each(rt, array.len() as u64)?);
        if !met.is(passed) {
            bail!("a cursor leaves out a pair");
        }
    }
    print_beside(rt, "next", ours, theirs)?;
    Ok(())
}

fn walk_timed(
    rt: &impl CpuClock,
    alloc: Global,
    map: &FstMap<'_, Global>,
    least: &mut Least,
) -> Result<Got> {
    let Some(mut cursor) = map.start(&alloc, b"")? else {
        bail!("a map has no first pair");
    };
    let watch = Watch::start(rt)?;
    let met = walk_all(&mut cursor, map.len());
    least.keep(watch.stop_each(rt, u64::from(map.len()))?);
    Ok(met)
}

// Goes from the first pair over all: keys and values.
#[inline(never)]
fn walk_all(cursor: &mut FstCursor<'_, Global, Global>, most: u32) -> Got {
    let mut met = Got::new();
    for _ in 0..most {
        met.add(cursor.key());
        met.add(cursor.value());
        if !cursor.next() {
            return met;
        }
    }
    met
}

#[inline(never)]
fn pass_all(array: &SortedArray) -> Got {
    let mut met = Got::new();
    for i in 0..array.len() {
        met.add(array.key(i));
        met.add(array.value_of(i));
    }
    met
}

/// Counts the keys between one string and the one that was drawn before it, and prints the nanoseconds a count.
pub fn count_rounds(
    rt: &(impl Print + CpuClock),
    map: &FstMap<'_, Global>,
    array: &SortedArray,
    bounds: &Texts,
) -> Result<()> {
    let mut ours = Least::new();
    let mut theirs = Least::new();
    for _ in 0..ROUNDS {
        let counted = counts_timed(rt, map, bounds, &mut ours)?;
        if counted != differences_timed(rt, array, bounds, &mut theirs)? {
            bail!("counts and searches do not agree");
        }
    }
    print_beside(rt, "count", ours, theirs)?;
    Ok(())
}

fn counts_timed(
    rt: &impl CpuClock,
    map: &FstMap<'_, Global>,
    bounds: &Texts,
    least: &mut Least,
) -> Result<u64> {
    let count = bounds.len().min(STARTS);
    let mut sum = 0u64;
    let watch = Watch::start(rt)?;
    for i in 0..count {
        let other = bounds.get(i.saturating_sub(1));
        sum = sum.wrapping_add(count_between(map, bounds.get(i), other));
    }
    least.keep(watch.stop_each(rt, count as u64)?);
    Ok(sum)
}

fn differences_timed(
    rt: &impl CpuClock,
    array: &SortedArray,
    bounds: &Texts,
    least: &mut Least,
) -> Result<u64> {
    let count = bounds.len().min(STARTS);
    let mut sum = 0u64;
    let watch = Watch::start(rt)?;
    for i in 0..count {
        let other = bounds.get(i.saturating_sub(1));
        sum = sum.wrapping_add(array.count_between(bounds.get(i), other));
    }
    least.keep(watch.stop_each(rt, count as u64)?);
    Ok(sum)
}
