//! A store that is filled by puts in random order, each with its merge slice behind it, as the program makes them.
use crate::counted::{Device, Traffic};
use crate::keys::{draw_in_turn, queries_elsewhere};
use crate::load::{Load, Wanted};
use crate::missing::print_missing;
use crate::stores::{new_store, put, tables_of, tend, value_of};
use anyhow::Result;
use bench_kit::{Figure, Watch, print_measure, share};
use filter_api::RangeFilter;
use std::alloc::Global;
use std::time::{CpuClock, Duration};
use store_core::Store;

// The bytes of a key.
const KEY_BYTES: usize = 8;

/// What the merge slices behind all puts came to.
#[derive(Clone, Copy)]
pub struct Slices {
    /// How many had something to do.
    pub count: u64,
    /// What all took.
    pub all: Duration,
    /// What the longest one took.
    pub longest: Duration,
    /// The most blocks that one read.
    pub most_read: u64,
    /// The most bytes that one wrote.
    pub most_written: u64,
}

impl Slices {
    fn new() -> Slices {
        Slices {
            count: 0,
            all: Duration::ZERO,
            longest: Duration::ZERO,
            most_read: 0,
            most_written: 0,
        }
    }

    fn add(&mut self, time: Duration, traffic: Traffic) {
        self.count = self.count.saturating_add(1);
        self.all = self.all.saturating_add(time);
        self.longest = self.longest.max(time);
        self.most_read = self.most_read.max(traffic.reads);
        self.most_written = self.most_written.max(traffic.written());
    }
}

/// Fills a store, and prints what that wrote and, where times are wanted, what the merge slices took; then compacts it,
/// and prints how many blocks are read for what is not there.
pub fn fill_and_print<F: RangeFilter>(
    rt: &(impl CpuClock + Print),
    alloc: Global,
    disk: &mut Device,
    load: &Load,
    keys: &[u64],
) -> Result<()> {
    let mut store = new_store::<F>(alloc, disk, load)?;
    let before = disk.traffic();
    let slices = fill(rt, alloc, disk, load, &mut store)?;
    let traffic = disk.traffic().since(&before);
    print_written(rt, load, tables_of(&store)?, &traffic)?;
    print_slices(rt, load.wanted == Wanted::Puts, &slices)?;
    let queries = queries_elsewhere(alloc, load, keys)?;
    print_missing(rt, disk, &mut store, &queries)
}

// Puts the pairs of a load.
fn fill<F: RangeFilter>(
    rt: &impl CpuClock,
    alloc: Global,
    disk: &mut Device,
    load: &Load,
    store: &mut Store<F>,
) -> Result<Slices> {
    let value = value_of(alloc, load)?;
    let mut slices = Slices::new();
    for key in &draw_in_turn(alloc, load)? {
        put(disk, store, *key, &value)?;
        slice(rt, disk, store, &mut slices)?;
    }
    Ok(slices)
}

// The merge slice behind a put.
fn slice<F: RangeFilter>(
    rt: &impl CpuClock,
    disk: &mut Device,
    store: &mut Store<F>,
    slices: &mut Slices,
) -> Result<()> {
    let before = disk.traffic();
    let watch = Watch::start(rt)?;
    if tend(disk, store)? {
        slices.add(watch.stop(rt)?, disk.traffic().since(&before));
    }
    Ok(())
}

// Prints how many bytes were written for each byte that was put.
fn print_written(rt: &impl Print, load: &Load, tables: u64, traffic: &Traffic) -> Result<()> {
    let figures = [
        ("puts", Figure::Count(load.pairs as u64)),
        ("tables", Figure::Count(tables)),
        ("written", Figure::Real(for_each(load, traffic.written()))),
        ("log", Figure::Real(for_each(load, traffic.log_bytes))),
        ("table", Figure::Real(for_each(load, traffic.table_bytes))),
        (
            "manifest",
            Figure::Real(for_each(load, traffic.manifest_bytes)),
        ),
    ];
    print_measure(rt, "store_bench", "written_a_byte_put", &figures)?;
    Ok(())
}

// How many bytes that is for each byte of keys and values.
fn for_each(load: &Load, written: u64) -> f64 {
    let pair = KEY_BYTES.saturating_add(load.value_bytes);
    share(written, pair.saturating_mul(load.pairs) as u64)
}

// Prints what the merge slices behind all puts came to, and their times where they are wanted.
fn print_slices(rt: &impl Print, timed: bool, slices: &Slices) -> Result<()> {
    let figures = [
        ("slices", Figure::Count(slices.count)),
        ("most_blocks_read", Figure::Count(slices.most_read)),
        ("most_bytes_written", Figure::Count(slices.most_written)),
        ("all_ms", Figure::Real(slices.all.as_secs_f64() * 1e3)),
        (
            "longest_ms",
            Figure::Real(slices.longest.as_secs_f64() * 1e3),
        ),
    ];
    let told = if timed { 5 } else { 3 };
    print_measure(rt, "store_bench", "slices", &figures[..told])?;
    Ok(())
}
