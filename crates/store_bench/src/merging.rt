//! Merges, in rounds that measure them: each beside its floor, and beside the building of its outputs' filters.
use crate::counted::Device;
use crate::filters::filter_times;
use crate::floors::read_all;
use crate::load::Load;
use crate::made::{block_pages, filled, rows_of};
use crate::outputs::{Output, outputs_of, write_all};
use crate::stores::tend;
use anyhow::{Result, bail};
use bench_kit::{Figure, Least, Watch, print_measure};
use filter_api::RangeFilter;
use key_base::PAGE_BYTES;
use std::alloc::Global;
use std::io;
use std::num::nearest_u64_to_f64;
use std::time::CpuClock;
use store_core::Store;

/// The least times of some rounds, and what each of them merged.
#[derive(Clone, Copy)]
pub struct Merged {
    pub merge: Least,
    /// The blocks of the inputs read and summed, the outputs summed and written.
    pub floor: Least,
    /// The filters of the outputs built and spelled.
    pub filters: Least,
    pub input_bytes: u64,
    pub output_bytes: u64,
    pub slices: u64,
}

/// Merges the tables of a load so often, and prints the least times.
pub fn measure_merges<F: RangeFilter>(
    rt: &(impl CpuClock + Print),
    alloc: Global,
    disk: &mut Device,
    load: &Load,
    keys: &[u64],
) -> Result<()> {
    let mut merged = Merged {
        merge: Least::new(),
        floor: Least::new(),
        filters: Least::new(),
        input_bytes: 0,
        output_bytes: 0,
        slices: 0,
    };
    for _ in 0..load.calls {
        merge_once::<F>(rt, alloc, disk, load, keys, &mut merged)?;
    }
    print_merge(rt, load.pairs, &merged)?;
    Ok(())
}

// Prints what was merged, and the nanoseconds that a pair takes: in all, in filters alone, and at the floor. Million bytes a
// second are those of the inputs.
fn print_merge(rt: &impl Print, pairs: usize, merged: &Merged) -> io::Result<()> {
    let merge = merged.merge.of_one(pairs.max(1));
    let filters = merged.filters.of_one(pairs.max(1));
    let floor = merged.floor.of_one(pairs.max(1));
    let bytes = nearest_u64_to_f64(merged.input_bytes) * 1e3;
    let figures = [
        ("input_bytes", Figure::Count(merged.input_bytes)),
        ("output_bytes", Figure::Count(merged.output_bytes)),
        ("slices", Figure::Count(merged.slices)),
        ("ns_a_pair", Figure::Real(merge)),
        ("filters_ns_a_pair", Figure::Real(filters)),
        ("floor_ns_a_pair", Figure::Real(floor)),
        (
            "mb_a_second",
            Figure::Real(bytes / merged.merge.nanoseconds),
        ),
        ("ratio", Figure::Real((merge - filters) / floor)),
    ];
    print_measure(rt, "store_bench", "merge", &figures)
}

// A round: a new store is merged until nothing is to be done, and then what that cannot do without is done alone.
fn merge_once<F: RangeFilter>(
    rt: &impl CpuClock,
    alloc: Global,
    disk: &mut Device,
    load: &Load,
    keys: &[u64],
    merged: &mut Merged,
) -> Result<()> {
    let mut store = filled::<F>(alloc, disk, load, keys)?;
    let inputs = block_pages(alloc, rows_of(alloc, disk)?.as_slice())?;
    let before = disk.traffic();
    let watch = Watch::start(rt)?;
    merged.slices = merge(disk, &mut store, load.pairs)?;
    merged.merge.keep_time(watch.stop(rt)?);
    let traffic = disk.traffic().since(&before);
    merged.input_bytes = (PAGE_BYTES as u64).saturating_mul(inputs.len() as u64);
    merged.output_bytes = traffic.table_bytes;
    if traffic.read_bytes != merged.input_bytes {
        bail!("not each input was read once");
    }
    let outputs = outputs_of(alloc, disk)?;
    let watch = Watch::start(rt)?;
    floor(disk, &inputs, &outputs)?;
    merged.floor.keep_time(watch.stop(rt)?);
    merged.filters.keep_time(filter_times::<F>(rt, alloc, load.settings, &outputs, keys)?);
    Ok(())
}

// Merge slices, until nothing is to be done: how many did something, fewer than so many.
fn merge<F: RangeFilter>(disk: &mut Device, store: &mut Store<F>, most: usize) -> Result<u64> {
    for slices in 0..most {
        if !tend(disk, store)? {
            return Ok(slices as u64);
        }
    }
    bail!("a merge does not end")
}

// Reads and sums the blocks of the inputs, and sums and writes the outputs.
fn floor(disk: &mut Device, inputs: &[u32], outputs: &[Output]) -> Result<()> {
    let blocks = read_all(disk, inputs)?;
    if blocks == 0 {
        bail!("nothing was merged");
    }
    for output in outputs {
        write_all(disk, output)?;
    }
    Ok(())
}
