//! Measures what tables on a device file cost, each call beside its floor: the same pages read and summed.
//!
//! ```text
//! table_bench times --device /dev/shm/furqeldi.bench --count 4080 --value-bytes 0 --calls 20000
//! table_bench counts --device /dev/shm/furqeldi.bench --count 4080 --value-bytes 0 --calls 20000
//! ```
//!
//! It writes to the file at the path from page 192 on. Calls and floors take turns, in processor time of the thread, the
//! calls of the file system among it: a file in memory shows what the tables add. The filter is the plain one, a loop over
//! all keys; what it takes is measured alone and told apart.
#![tactic(auto)]

mod calls;
mod counts;
mod keys;
mod made;
mod rounds;

use anyhow::{Result, bail};
use bench_kit::{Options, read_options};
use keys::Load;
use made::Made;
use real_outside::FileOutside;
use std::env;

const ABOUT: &str = "\
Measures a table of --count pairs, of keys of --key-bytes (at least 8) and values of --value-bytes, in the device file at
--device:
  times     what a get of a key that is there takes, the index and the filter for one that is not, a step of a walk, and
            an entry of a build, in --calls calls for keys that are random by --seed, each beside the same pages read and
            summed
  counts    the same calls once, and what they found";

fn main(rt: HostRuntime) -> Result<()> {
    let words: Vec<String> = env::args(&rt)?.skip(1).collect(rt.alloc())?;
    match read_options(&rt, rt.alloc(), "table_bench", ABOUT, &words)? {
        Some(options) => measure(rt, options),
        None => Ok(()),
    }
}

// Measures what the options ask for.
fn measure(rt: HostRuntime, options: Options<'_>) -> Result<()> {
    let load = Load::new(options)?;
    let copy = String::from_str(rt.alloc(), options.device)?;
    let mut disk = FileOutside::at(rt, copy);
    let made = Made::new(rt.alloc(), &mut disk, &load)?;
    match options.measure {
        "times" => rounds::times(&rt, rt.alloc(), &mut disk, &load, &made),
        "counts" => counts::counts(&rt, rt.alloc(), &mut disk, &load, &made),
        _ => bail!("no such measure: see --help"),
    }
}
