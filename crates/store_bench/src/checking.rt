//! Checks of a compacted store, in rounds that measure them: each beside its floor.
use crate::counted::Device;
use crate::floors::read_all;
use crate::load::Load;
use crate::made::{block_pages, rows_of};
use crate::stores::{compact, new_store, put, tend, value_of};
use anyhow::{Result, bail};
use bench_kit::{Figure, Least, Watch, print_measure};
use byte_fields::{Row, fnv1a};
use disk_trait::Disk;
use filter_api::{RangeFilter, Settings};
use filter_model::are_keys;
use key_base::{KeyList, PAGE_BYTES};
use std::alloc::Global;
use std::time::{CpuClock, Duration};
use store_check::{Check, Summary};

// No page of a device is after this byte, and no filter has as many bytes.
const DEVICE_END: u64 = 1 << 36;

// The least times of some rounds.
#[derive(Clone, Copy)]
struct Times {
    check: Least,
    // all blocks read and summed twice
    blocks: Least,
    // each filter read, summed, decoded and built
    filters: Least,
}

/// Checks a compacted store of a load so often, and prints the least times.
pub fn measure_checks<F: RangeFilter>(
    rt: &(impl CpuClock + Print),
    alloc: Global,
    disk: &mut Device,
    load: &Load,
    keys: &[u64],
) -> Result<()> {
    fill::<F>(alloc, disk, load, keys)?;
    let rows = rows_of(alloc, disk)?;
    let mut times = Times {
        check: Least::new(),
        blocks: Least::new(),
        filters: Least::new(),
    };
    for _ in 0..load.calls {
        measure_once::<F>(rt, alloc, disk, load, &rows, keys, &mut times)?;
    }
    print_checks(rt, load.pairs, rows.len(), times)
}

// A new store of the keys of a load, compacted.
fn fill<F: RangeFilter>(alloc: Global, disk: &mut Device, load: &Load, keys: &[u64]) -> Result<()> {
    let mut store = new_store::<F>(alloc, disk, load)?;
    let value = value_of(alloc, load)?;
    for key in keys {
        put(disk, &mut store, *key, &value)?;
        tend(disk, &mut store)?;
    }
    compact(disk, &mut store)
}

// A round.
fn measure_once<F: RangeFilter>(
    rt: &impl CpuClock,
    alloc: Global,
    disk: &mut Device,
    load: &Load,
    rows: &[Row],
    keys: &[u64],
    times: &mut Times,
) -> Result<()> {
    let watch = Watch::start(rt)?;
    let has = check::<F>(alloc, disk)?;
    times.check.keep_time(watch.stop(rt)?);
    if has.live != keys.len() as u64 {
        bail!("another number of pairs");
    }
    let pages = block_pages(alloc, rows)?;
    let watch = Watch::start(rt)?;
    read_all(disk, &pages)?;
    read_all(disk, &pages)?;
    times.blocks.keep_time(watch.stop(rt)?);
    let filters = filters_time::<F>(rt, alloc, disk, load.settings, rows, keys)?;
    times.filters.keep_time(filters);
    Ok(())
}

// A check of a store of which nothing is wrong: what it has.
fn check<F: RangeFilter>(alloc: Global, disk: &mut Device) -> Result<Summary> {
    let Ok(check) = Check::start(alloc, disk) else {
        bail!("there is no store");
    };
    let mut check = Box::new(alloc, check)?;
    let Ok(None) = check.next::<F, Device>(disk) else {
        bail!("something is wrong");
    };
    match check.summary::<F, Device>(disk) {
        Ok(has) => Ok(has),
        Err(_) => bail!("there is no summary"),
    }
}

// What it takes to read, sum, decode and build the filters of some rows, of which each has the next of the rising keys.
fn filters_time<F: RangeFilter>(
    rt: &impl CpuClock,
    alloc: Global,
    disk: &mut Device,
    settings: Settings,
    rows: &[Row],
    keys: &[u64],
) -> Result<Duration> {
    let mut time = Duration::ZERO;
    let mut rest = keys;
    for row in rows {
        let (own, others) = rest.split_at((row.entries as usize).min(rest.len()));
        time = time.saturating_add(filter_time::<F>(rt, alloc, disk, settings, row, own)?);
        rest = others;
    }
    Ok(time)
}

// The same of one row with these keys.
fn filter_time<F: RangeFilter>(
    rt: &impl CpuClock,
    alloc: Global,
    disk: &mut Device,
    settings: Settings,
    row: &Row,
    keys: &[u64],
) -> Result<Duration> {
    let mut list = KeyList::new(alloc);
    for key in keys {
        list.push(&key.to_be_bytes())?;
    }
    if !are_keys(&list) || settings.check().is_err() {
        bail!("a table without keys, or settings out of range");
    }
    let watch = Watch::start(rt)?;
    let bytes = filter_bytes(alloc, disk, row)?;
    if fnv1a(&bytes) != row.filter_sum {
        bail!("another sum");
    }
    let Ok(read) = F::decode(alloc, &bytes) else {
        bail!("no filter");
    };
    let built = F::build(alloc, &list, settings)?;
    if read.leaves() != built.leaves() {
        bail!("another filter");
    }
    Ok(watch.stop(rt)?)
}

// The bytes of the filter of a row.
fn filter_bytes(alloc: Global, disk: &mut Device, row: &Row) -> Result<Vec<u8>> {
    let page = u64::from(row.first_page) + u64::from(row.data_pages) + u64::from(row.index_pages);
    let at = PAGE_BYTES as u64 * page;
    let mut bytes = Vec::new(alloc);
    bytes.resize(row.filter_len.min(DEVICE_END) as usize, 0)?;
    if at > DEVICE_END || bytes.len() as u64 > DEVICE_END || disk.read(at, &mut bytes).is_err() {
        bail!("a read failed");
    }
    Ok(bytes)
}

// Prints the nanoseconds that a pair takes, in all, and at the floor: in blocks and in filters.
fn print_checks(rt: &impl Print, pairs: usize, tables: usize, times: Times) -> Result<()> {
    let check = times.check.of_one(pairs.max(1));
    let blocks = times.blocks.of_one(pairs.max(1));
    let filters = times.filters.of_one(pairs.max(1));
    let figures = [
        ("pairs", Figure::Count(pairs as u64)),
        ("tables", Figure::Count(tables as u64)),
        ("ns_a_pair", Figure::Real(check)),
        ("blocks_ns_a_pair", Figure::Real(blocks)),
        ("filters_ns_a_pair", Figure::Real(filters)),
        ("ratio", Figure::Real(check / (blocks + filters))),
    ];
    print_measure(rt, "store_bench", "check", &figures)?;
    Ok(())
}
