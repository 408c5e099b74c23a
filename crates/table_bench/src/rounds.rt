//! The calls of a load, in rounds that measure them.
use crate::calls::{
    Query, blocks_for, filtered, pages_summed, queries, reads_and_finds, reads_and_sums, walk,
};
use crate::keys::{Load, random_keys};
use crate::made::{Made, build};
use anyhow::{Result, bail};
use bench_kit::{Figure, Least, Measured, Watch, print_measure};
use real_outside::FileOutside;
use std::alloc::Global;
use std::io;
use std::time::{CpuClock, Duration};
use table_file::{LARGEST_BLOCK_BYTES, pages_of};

// The least time of so many counts.
const ROUNDS: u32 = 100;

/// Prints what each call of a load takes, beside its floor.
pub fn times(
    rt: &(impl CpuClock + Print),
    alloc: Global,
    disk: &mut FileOutside,
    load: &Load,
    made: &Made,
) -> Result<()> {
    times_of_gets(rt, alloc, disk, load, made)?;
    times_of_denials(rt, alloc, load, made)?;
    let pairs = load.pairs as usize;
    let walks = measure_walks(rt, alloc, disk, made, load.pairs)?;
    print(rt, "walk_step", walks.of_one(pairs))?;
    let builds = measure_builds(rt, alloc, disk, load)?;
    print(rt, "build_entry", builds.of_one(pairs))?;
    Ok(())
}

// A get of a key that is there: its block in the index, a read, a sum and a search. The filter is told apart.
fn times_of_gets(
    rt: &(impl CpuClock + Print),
    alloc: Global,
    disk: &mut FileOutside,
    load: &Load,
    made: &Made,
) -> Result<()> {
    let there = queries(alloc, made, random_keys(alloc, load, 0)?)?;
    let (index, filter) = measure_look_ups(rt, made, &there)?;
    print_look_up(rt, "look_up_present", index, filter)?;
    let (search, floor) = measure_searches(rt, alloc, disk, made, &there)?.of_one(there.len());
    print(rt, "get_without_filter", (index + search, floor))?;
    Ok(())
}

// A get of a key that the filter denies reads nothing.
fn times_of_denials(
    rt: &(impl CpuClock + Print),
    alloc: Global,
    load: &Load,
    made: &Made,
) -> Result<()> {
    let others = queries(alloc, made, random_keys(alloc, load, 1)?)?;
    let (index, filter) = measure_look_ups(rt, made, &others)?;
    print_look_up(rt, "look_up_absent", index, filter)?;
    Ok(())
}

// ---- prints

// Nanoseconds of a call, and of its floor.
fn print(rt: &impl Print, name: &str, times: (f64, f64)) -> io::Result<()> {
    let (call, floor) = times;
    let figures = [
        ("ns", Figure::Real(call)),
        ("floor_ns", Figure::Real(floor)),
        ("ratio", Figure::Real(call / floor)),
    ];
    print_measure(rt, "table_bench", name, &figures)
}

// Nanoseconds that a key takes in the index and in the filter.
fn print_look_up(rt: &impl Print, name: &str, index: f64, filter: f64) -> io::Result<()> {
    let figures = [
        ("index_ns", Figure::Real(index)),
        ("filter_ns", Figure::Real(filter)),
    ];
    print_measure(rt, "table_bench", name, &figures)
}

// ---- least times

fn measure_searches(
    rt: &impl CpuClock,
    alloc: Global,
    disk: &mut FileOutside,
    made: &Made,
    there: &[Query],
) -> Result<Measured> {
    let mut buf = vec![in alloc; 0; LARGEST_BLOCK_BYTES]?;
    let mut measured = Measured::new();
    for _ in 0..ROUNDS {
        measured
            .call
            .keep_time(time_searches(rt, disk, made, there, &mut buf)?);
        measured
            .floor
            .keep_time(time_sums(rt, disk, there, &mut buf)?);
    }
    Ok(measured)
}

// Nanoseconds that a key takes in the index, and in the filter.
fn measure_look_ups(rt: &impl CpuClock, made: &Made, queries: &[Query]) -> Result<(f64, f64)> {
    let mut both = Least::new();
    let mut filter = Least::new();
    for _ in 0..ROUNDS {
        let (all, admitted) = time_look_ups(rt, made, queries)?;
        both.keep_time(all);
        filter.keep_time(admitted);
    }
    let filter = filter.of_one(queries.len());
    Ok((both.of_one(queries.len()) - filter, filter))
}

fn measure_walks(
    rt: &impl CpuClock,
    alloc: Global,
    disk: &mut FileOutside,
    made: &Made,
    pairs: u32,
) -> Result<Measured> {
    let mut buf = vec![in alloc; 0; LARGEST_BLOCK_BYTES]?;
    let mut measured = Measured::new();
    for _ in 0..ROUNDS {
        measured
            .call
            .keep_time(time_walk(rt, alloc, disk, made, pairs)?);
        measured
            .floor
            .keep_time(time_pages(rt, disk, made.row.data_pages, &mut buf)?);
    }
    Ok(measured)
}

// Blocks, index and filter in memory. The floor reads and sums the pages of all three.
fn measure_builds(
    rt: &impl CpuClock,
    alloc: Global,
    disk: &mut FileOutside,
    load: &Load,
) -> Result<Measured> {
    let mut buf = vec![in alloc; 0; LARGEST_BLOCK_BYTES]?;
    let mut measured = Measured::new();
    for _ in 0..ROUNDS {
        let (time, pages) = time_build(rt, alloc, load)?;
        measured.call.keep_time(time);
        measured
            .floor
            .keep_time(time_pages(rt, disk, pages, &mut buf)?);
    }
    Ok(measured)
}

// ---- one time

fn time_searches(
    rt: &impl CpuClock,
    disk: &mut FileOutside,
    made: &Made,
    there: &[Query],
    buf: &mut [u8],
) -> Result<Duration> {
    let watch = Watch::start(rt)?;
    let found = reads_and_finds(disk, made, there, buf)?;
    let time = watch.stop(rt)?;
    if found != there.len() {
        bail!("a key was lost");
    }
    Ok(time)
}

fn time_sums(
    rt: &impl CpuClock,
    disk: &mut FileOutside,
    there: &[Query],
    buf: &mut [u8],
) -> Result<Duration> {
    let watch = Watch::start(rt)?;
    let sum = reads_and_sums(disk, there, buf)?;
    let time = watch.stop(rt)?;
    if sum == 0 {
        bail!("no sum");
    }
    Ok(time)
}

// Of index and filter, and of the filter alone.
fn time_look_ups(
    rt: &impl CpuClock,
    made: &Made,
    queries: &[Query],
) -> Result<(Duration, Duration)> {
    let watch = Watch::start(rt)?;
    let some = blocks_for(made, queries);
    let both = watch.stop(rt)?;
    let watch = Watch::start(rt)?;
    let admitted = filtered(made, queries);
    let filter = watch.stop(rt)?;
    if some != admitted {
        bail!("a key was lost");
    }
    Ok((both, filter))
}

fn time_walk(
    rt: &impl CpuClock,
    alloc: Global,
    disk: &mut FileOutside,
    made: &Made,
    pairs: u32,
) -> Result<Duration> {
    let watch = Watch::start(rt)?;
    let walked = walk(alloc, disk, made, pairs)?;
    let time = watch.stop(rt)?;
    if walked != pairs as usize {
        bail!("an entry was lost");
    }
    Ok(time)
}

fn time_pages(
    rt: &impl CpuClock,
    disk: &mut FileOutside,
    pages: u32,
    buf: &mut [u8],
) -> Result<Duration> {
    let watch = Watch::start(rt)?;
    let sum = pages_summed(disk, pages, buf)?;
    let time = watch.stop(rt)?;
    if sum == 0 {
        bail!("no sum");
    }
    Ok(time)
}

// Of the parts, and how many pages they have.
fn time_build(rt: &impl CpuClock, alloc: Global, load: &Load) -> Result<(Duration, u32)> {
    let watch = Watch::start(rt)?;
    let parts = build(alloc, load)?;
    let time = watch.stop(rt)?;
    Ok((time, u32::try_from(pages_of(&parts))?))
}
