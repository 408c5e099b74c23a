//! The calls of a load, in rounds that measure them.
use crate::calls::{Call, ask, walk};
use crate::counted::Device;
use crate::floors::{floor, read_all};
use crate::keys::{Query, denied, queries_elsewhere, queries_there};
use crate::load::Load;
use crate::made::Made;
use anyhow::{Result, bail};
use bench_kit::{Figure, Measured, Watch, print_measure};
use filter_api::RangeFilter;
use std::alloc::Global;
use std::io;
use std::time::CpuClock;

// The least time of so many counts.
const ROUNDS: u32 = 20;

/// Prints what each call of a load takes, beside its floor.
pub fn times<F: RangeFilter>(
    rt: &(impl CpuClock + Print),
    alloc: Global,
    disk: &mut Device,
    load: &Load,
    keys: &[u64],
    made: &mut Made<F>,
) -> Result<()> {
    let there = queries_there(alloc, load, keys)?;
    let others = queries_elsewhere(alloc, load, keys)?;
    let none = denied(alloc, &made.filters, &others)?;
    measure(rt, "seek_denied", Call::Seek, disk, made, &none)?;
    measure(rt, "seek_empty", Call::Seek, disk, made, &others)?;
    measure(rt, "seek_present", Call::Seek, disk, made, &there)?;
    measure(rt, "get_present", Call::Get, disk, made, &there)?;
    measure(rt, "get_absent", Call::Get, disk, made, &others)?;
    measure_walks(rt, disk, load, made)
}

// Prints the least nanoseconds of one of so many calls, and of its floor.
fn print(rt: &impl Print, name: &str, measured: &Measured, count: usize) -> io::Result<()> {
    let (call, floor) = measured.of_one(count.max(1));
    let figures = [
        ("calls", Figure::Count(count as u64)),
        ("ns", Figure::Real(call)),
        ("floor_ns", Figure::Real(floor)),
        ("ratio", Figure::Real(call / floor)),
    ];
    print_measure(rt, "store_bench", name, &figures)
}

// Prints the least time of a query, and of its floor.
fn measure<F: RangeFilter>(
    rt: &(impl CpuClock + Print),
    name: &str,
    call: Call,
    disk: &mut Device,
    made: &mut Made<F>,
    queries: &[Query],
) -> Result<()> {
    let mut measured = Measured::new();
    for _ in 0..ROUNDS {
        let watch = Watch::start(rt)?;
        let found = ask(call, disk, &mut made.store, queries)?;
        measured.call.keep_time(watch.stop(rt)?);
        let watch = Watch::start(rt)?;
        let blocks = floor(call, disk, made, queries)?;
        measured.floor.keep_time(watch.stop(rt)?);
        if found > blocks {
            bail!("more was found than may be read");
        }
    }
    print(rt, name, &measured, queries.len())?;
    Ok(())
}

// Prints the least time of a step of a walk, and of its part of all blocks.
fn measure_walks<F: RangeFilter>(
    rt: &(impl CpuClock + Print),
    disk: &mut Device,
    load: &Load,
    made: &Made<F>,
) -> Result<()> {
    let mut measured = Measured::new();
    for _ in 0..ROUNDS {
        let watch = Watch::start(rt)?;
        let walked = walk(disk, &made.store, load.pairs)?;
        measured.call.keep_time(watch.stop(rt)?);
        let watch = Watch::start(rt)?;
        let blocks = read_all(disk, &made.pages)?;
        measured.floor.keep_time(watch.stop(rt)?);
        if walked != load.pairs || blocks == 0 {
            bail!("a pair was lost");
        }
    }
    print(rt, "walk_step", &measured, load.pairs)?;
    Ok(())
}
