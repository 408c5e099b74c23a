//! Measures what a store on a device file costs, each call beside its floor: the same filters asked, and as many pages read and
//! summed as the bound of reads allows.
//!
//! ```text
//! store_bench times --device /dev/shm/furqeldi.bench --count 10000 --calls 2000
//! store_bench counts --device /dev/shm/furqeldi.bench --filter plain --count 10000 --calls 2000
//! store_bench merge --device /dev/shm/furqeldi.bench --count 40000 --value-bytes 100 --hash-bits 8 --real-bits 8 --calls 9
//! store_bench puts --device /dev/shm/furqeldi.bench --count 1000000 --hash-bits 8 --real-bits 8 --calls 100000
//! store_bench sizes --device /dev/shm/furqeldi.bench --keys addresses --count 100000 --value-bytes 20
//! store_bench check --device /dev/shm/furqeldi.bench --count 1000000 --hash-bits 8 --real-bits 8 --calls 9
//! ```
//!
//! The file at the path becomes a new store, whatever stood there. Random keys of 8 bytes with values of 8 bytes are put and
//! flushed: each table has every so-manieth of the rising keys, so that a walk goes from table to table. Calls and floors take
//! turns, in processor time of the thread, the calls of the file system among it: a file in memory shows what the store adds.
#![tactic(auto)]

mod calls;
mod checking;
mod counted;
mod counts;
mod filling;
mod filters;
mod floors;
mod keys;
mod kinds;
mod load;
mod made;
mod merging;
mod missing;
mod outputs;
mod rounds;
mod sizes;
mod stores;

use anyhow::{Result, bail};
use bench_kit::{Options, read_options};
use counted::{Counted, Device};
use filter_api::RangeFilter;
use load::{Load, Wanted};
use made::Made;
use plain_filter::PlainFilter;
use real_outside::FileOutside;
use std::alloc::Global;
use std::env;
use std::time::CpuClock;
use surf_filter::SurfFilter;

const ABOUT: &str = "\
Measures a new store in the device file at --device: --count random pairs of 8 bytes and --value-bytes, with filters of the
kind --filter, of --hash-bits, --real-bits and --ratio:
  times     what a closed seek, a get and a step of a walk take over --tables tables, in --calls calls for keys that are
            random by --seed, each beside its floor
  counts    the same calls once, and what they found; then what puts in random order write, and what a compacted store
            reads
  merge     what it takes to merge --tables tables of level 0, beside its floor, the least of --calls merges
  puts      what puts in random order write, the longest slice of a merge, and what a compacted store reads in --calls calls
  sizes     the pages of a compacted store, and the bytes of data and index a pair, of keys of the kind --keys: random or rising
            numbers of 8 bytes, digits (16 of them), addresses (of 46 letters) or users (a user, a second and a number)
  check     what a check of a compacted store takes, beside its floor, the least of --calls checks";

fn main(rt: HostRuntime) -> Result<()> {
    let words: Vec<String> = env::args(&rt)?.skip(1).collect(rt.alloc())?;
    match read_options(&rt, rt.alloc(), "store_bench", ABOUT, &words)? {
        Some(options) => measure_asked(rt, options),
        None => Ok(()),
    }
}

// Measures what the options ask for.
fn measure_asked(rt: HostRuntime, options: Options<'_>) -> Result<()> {
    let load = Load::new(options)?;
    let copy = String::from_str(rt.alloc(), options.device)?;
    let mut disk = Counted::new(FileOutside::at(rt, copy));
    match options.filter {
        "surf" => measure::<SurfFilter<Global>>(&rt, rt.alloc(), &mut disk, &load),
        "plain" => measure::<PlainFilter>(&rt, rt.alloc(), &mut disk, &load),
        _ => bail!("a filter is surf or plain"),
    }
}

// Does what is wanted of a load.
fn measure<F: RangeFilter>(
    rt: &(impl CpuClock + Print),
    alloc: Global,
    disk: &mut Device,
    load: &Load,
) -> Result<()> {
    let keys = keys::draw_keys(alloc, load)?;
    match load.wanted {
        Wanted::Times => {
            let mut made = Made::<F>::new(alloc, disk, load, &keys)?;
            rounds::times(rt, alloc, disk, load, &keys, &mut made)
        }
        Wanted::Counts => {
            let mut made = Made::<F>::new(alloc, disk, load, &keys)?;
            counts::counts(rt, alloc, disk, load, &keys, &mut made)
        }
        Wanted::Merge => merging::measure_merges::<F>(rt, alloc, disk, load, &keys),
        Wanted::Puts => filling::fill_and_print::<F>(rt, alloc, disk, load, &keys),
        Wanted::Sizes => sizes::measure_sizes::<F>(rt, alloc, disk, load),
        Wanted::Check => checking::measure_checks::<F>(rt, alloc, disk, load, &keys),
    }
}
