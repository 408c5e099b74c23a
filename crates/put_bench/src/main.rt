//! Measures what one append to the log costs, beside two bare pairs of a write and a sync of the same sizes in the same
//! file; or what a put and a start cost with the memory table, beside std's `BTreeMap` behind the same log.
//!
//! ```text
//! put_bench appends --device /tmp/furqeldi.bench --count 1000
//! put_bench tables --device /dev/shm/furqeldi.bench --keys random --count 10400
//! ```
//!
//! It writes to the device file, whose first log area begins anew. Appends and bare pairs take turns, and so do the two
//! tables, so that what else the machine does falls on both. Puts and starts are measured in processor time, the calls of
//! the file system among it: a file in memory shows what the tables add.
#![tactic(auto)]

mod appends;
mod bare;
mod keys;
mod race;
mod records;
mod tables;

use anyhow::{Result, bail};
use bench_kit::{Options, boxed, read_options};
use race::{Load, race};
use real_outside::FileOutside;
use std::env;

const ABOUT: &str = "\
Measures what a record of the log and a put take, in the device file at --device:
  appends     --count appends to the log and as many bare pairs of writes and syncs, in turn
  tables      --count puts of keys of --key-bytes and values of --value-bytes, in the order --keys (rising, falling, random
              or inward) by --seed, and a start over them, with the memory table and with the map of std, in turn";

fn main(rt: HostRuntime) -> Result<()> {
    let words: Vec<String> = env::args(&rt)?.skip(1).collect(rt.alloc())?;
    match read_options(&rt, rt.alloc(), "put_bench", ABOUT, &words)? {
        Some(options) => measure(rt, options),
        None => Ok(()),
    }
}

// Measures what the options ask for.
fn measure(rt: HostRuntime, options: Options<'_>) -> Result<()> {
    let mut disk = device(rt, options.device)?;
    match options.measure {
        "appends" => appends::appends(rt, options.device, options.count, &mut disk),
        "tables" => {
            let load = Load::new(rt.alloc(), options)?;
            race(&rt, rt.alloc(), &mut disk, &load)
        }
        _ => bail!("no such measure: see --help"),
    }
}

// The device file at a path.
fn device(rt: HostRuntime, path: &str) -> Result<Box<FileOutside>> {
    let copy = String::from_str(rt.alloc(), path)?;
    Ok(boxed(rt.alloc(), FileOutside::at(rt, copy))?)
}
