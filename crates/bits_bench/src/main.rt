//! Measures the bit kernels, each beside a plain scalar loop in the same run.
//!
//! ```text
//! bits_bench rank --count 16777216 --calls 1000000 --seed 7
//! bits_bench select --count 1048576 --one-in 16 --calls 1000000 --seed 7
//! bits_bench find_in_section --count 12 --calls 1000000 --seed 7
//! ```
#![tactic(auto)]

mod inputs;
mod measures;
mod plain;
mod rounds;
mod searches;

use anyhow::{Result, bail};
use bench_kit::{Options, read_options};
use std::alloc::Global;
use std::env;
use std::time::CpuClock;

const ABOUT: &str = "\
Measures a bit kernel and a plain loop that does the same, at random places, in nanoseconds a call:
  rank, ones                     of --count random bits
  select, node_range             of --count bits, one in --one-in of them set
  find_label, find_in_section    in nodes of --count labels (1 to 256), as slices or in one section";

fn main(rt: HostRuntime) -> Result<()> {
    let words: Vec<String> = env::args(&rt)?.skip(1).collect(rt.alloc())?;
    match read_options(&rt, rt.alloc(), "bits_bench", ABOUT, &words)? {
        Some(options) => measure(&rt, rt.alloc(), options),
        None => Ok(()),
    }
}

// Measures what the options ask for.
fn measure(rt: &(impl Print + CpuClock), alloc: Global, options: Options<'_>) -> Result<()> {
    let Options {
        count,
        calls,
        seed,
        one_in,
        ..
    } = options;
    match options.measure {
        "rank" => measures::rank(rt, alloc, count, calls, seed),
        "select" => measures::select(rt, alloc, count, calls, seed, one_in),
        "ones" => measures::ones(rt, alloc, count, calls, seed),
        "node_range" => searches::node_range(rt, alloc, count, calls, seed, one_in),
        "find_label" => searches::find_label(rt, alloc, count, calls, seed, false),
        "find_in_section" => searches::find_label(rt, alloc, count, calls, seed, true),
        _ => bail!("no such measure: see --help"),
    }
}
