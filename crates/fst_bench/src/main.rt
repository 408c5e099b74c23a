//! Measures a static map, beside a sorted array and the map of std over the same pairs.
//!
//! ```text
//! fst_bench all --count 1000000
//! fst_bench gets --keys words --count 100000 --ratio 0
//! ```
//!
//! All three are asked the same keys in the same order, five rounds in turn: each key that was drawn, and as many that are not
//! among them. Times are the thread's own on the processor. A value has 8 bytes. The array has its keys in one piece of memory
//! with ends of four bytes, and its values in another with ends of eight; it is searched by halves.
#![tactic(auto)]

mod array;
mod built;
mod gets;
mod pairs;
mod tree;
mod walks;

use anyhow::{Result, bail};
use array::SortedArray;
use bench_keys::{Kind, Texts, draw_absent, draw_keys, sorted};
use bench_kit::{Numbers, Options, read_options};
use built::{build_rounds, drawn_values, print_sizes, read_rounds};
use fst_map::FstMap;
use gets::race;
use key_base::KeyList;
use std::alloc::Global;
use std::env;
use std::time::CpuClock;
use tree::Tree;
use walks::{count_rounds, start_rounds, walk_rounds};

const ABOUT: &str = "\
Measures a static map of --count keys of a kind, --keys: random (8 bytes) or words (10 to 20 letters, which begin as others
do) by --seed, with values of 8 bytes. The upper levels of its trie are dense by --ratio:
  build     how fast it is written and opened, and the bytes of its body: every measure begins so
  gets      gets beside a sorted array and the map of std
  walks     cursors that start at keys and go over all pairs, and counts between keys, beside the sorted array
  all       each of them, in this order";

// What the options ask for.
#[derive(Clone, Copy)]
struct Asked<'a> {
    measure: &'a str,
    kind: Kind,
    count: u32,
    seed: u64,
    ratio: u16,
}

impl Asked<'_> {
    // Whether this is measured.
    fn has(&self, measure: &str) -> bool {
        self.measure == "all" || self.measure == measure
    }
}

// What may be asked for beside `all`.
const MEASURES: [&str; 3] = ["build", "gets", "walks"];

fn main(rt: HostRuntime) -> Result<()> {
    let words: Vec<String> = env::args(&rt)?.skip(1).collect(rt.alloc())?;
    match read_options(&rt, rt.alloc(), "fst_bench", ABOUT, &words)? {
        Some(options) => measure(&rt, rt.alloc(), asked_by(options)?),
        None => Ok(()),
    }
}

fn asked_by<'a>(options: Options<'a>) -> Result<Asked<'a>> {
    if options.measure != "all" && !MEASURES.contains(&options.measure) {
        bail!("no such measure: see --help");
    }
    let Some(kind) = Kind::named(options.keys) else {
        bail!("keys are random or words");
    };
    Ok(Asked {
        measure: options.measure,
        kind,
        count: u32::try_from(options.count)?,
        seed: options.seed,
        ratio: u16::try_from(options.ratio)?,
    })
}

// Draws pairs, and measures the map of them.
fn measure(rt: &(impl Print + CpuClock), alloc: Global, asked: Asked<'_>) -> Result<()> {
    let mut numbers = Numbers::new(asked.seed);
    let present = draw_keys(alloc, asked.kind, asked.count, &mut numbers)?;
    let keys = sorted(alloc, &present)?;
    let values = drawn_values(alloc, &keys, &mut numbers)?;
    let absent = draw_absent(alloc, asked.kind, &present, &keys, &mut numbers)?;
    let body = build_rounds(rt, alloc, &keys, &values, asked.ratio)?;
    let map = read_rounds(rt, alloc, body.as_slice())?;
    let array = SortedArray::new(alloc, &keys, &values)?;
    print_sizes(rt, body.as_slice(), &array)?;
    let asked_for = Queries {
        present: &present,
        absent: &absent,
    };
    ask(rt, alloc, asked, &map, &array, &keys, &values, asked_for)
}

// Keys that are there, and others.
#[derive(Clone, Copy)]
struct Queries<'a> {
    present: &'a Texts,
    absent: &'a Texts,
}

// Asks the map, the array and the tree.
fn ask(
    rt: &(impl Print + CpuClock),
    alloc: Global,
    asked: Asked<'_>,
    map: &FstMap<'_, Global>,
    array: &SortedArray,
    keys: &KeyList,
    values: &KeyList,
    queries: Queries<'_>,
) -> Result<()> {
    if asked.has("gets") {
        let tree = Tree::new(alloc, keys, values)?;
        race(rt, "present", map, array, &tree, queries.present)?;
        race(rt, "absent", map, array, &tree, queries.absent)?;
    }
    if asked.has("walks") {
        start_rounds(rt, alloc, map, array, queries.absent)?;
        walk_rounds(rt, alloc, map, array)?;
        count_rounds(rt, map, array, queries.absent)?;
    }
    Ok(())
}
