//! The calls of a load, once, and what they find.
use crate::calls::{Call, ask, walk};
use crate::counted::Device;
use crate::filling::fill_and_print;
use crate::floors::bounds;
use crate::keys::{Query, denied, queries_elsewhere, queries_there};
use crate::load::Load;
use crate::made::Made;
use anyhow::Result;
use bench_kit::{Figure, print_measure};
use filter_api::RangeFilter;
use std::alloc::Global;
use std::time::CpuClock;

/// Prints what the calls of a load find, and how many blocks they may read; then how much is written where the same keys are put
/// in random order.
pub fn counts<F: RangeFilter>(
    rt: &(impl CpuClock + Print),
    alloc: Global,
    disk: &mut Device,
    load: &Load,
    keys: &[u64],
    made: &mut Made<F>,
) -> Result<()> {
    let size = [
        ("tables", Figure::Count(load.tables as u64)),
        ("blocks", Figure::Count(made.pages.len() as u64)),
    ];
    print_measure(rt, "store_bench", "store", &size)?;
    let there = queries_there(alloc, load, keys)?;
    print(rt, "present", disk, made, &there)?;
    let others = queries_elsewhere(alloc, load, keys)?;
    print(rt, "absent", disk, made, &others)?;
    let none = denied(alloc, &made.filters, &others)?;
    print(rt, "denied", disk, made, &none)?;
    let walked = walk(disk, &made.store, load.pairs)?;
    let pairs = [("pairs", Figure::Count(walked as u64))];
    print_measure(rt, "store_bench", "walk", &pairs)?;
    fill_and_print::<F>(rt, alloc, disk, load, keys)
}

fn print<F: RangeFilter>(
    rt: &impl Print,
    name: &str,
    disk: &mut Device,
    made: &mut Made<F>,
    queries: &[Query],
) -> Result<()> {
    let got = ask(Call::Get, disk, &mut made.store, queries)?;
    let sought = ask(Call::Seek, disk, &mut made.store, queries)?;
    let for_gets = bounds(Call::Get, &made.filters, queries);
    let for_seeks = bounds(Call::Seek, &made.filters, queries);
    let figures = [
        ("keys", Figure::Count(queries.len() as u64)),
        ("gets_find", Figure::Count(got as u64)),
        ("gets_may_read", Figure::Count(for_gets as u64)),
        ("seeks_find", Figure::Count(sought as u64)),
        ("seeks_may_read", Figure::Count(for_seeks as u64)),
    ];
    print_measure(rt, "store_bench", name, &figures)?;
    Ok(())
}
