//! Measures a filter's trie, beside a Bloom filter and a binary search over stubs, over the same keys; its image, and its
//! ranges.
//!
//! ```text
//! filter_bench all --count 1000000
//! filter_bench walks --keys words --count 1000000
//! filter_bench all --count 100000 --ratio 16
//! ```
//!
//! All three are asked the same keys in the same order, five rounds in turn: each key that was drawn, and as many that the
//! trie does not have. Times are the thread's own on the processor. The trie has no suffixes, which a walk does not read.
//! Beside that the trie's image is written and read, a cursor goes over its leaves and others start at keys, and seeks,
//! ranges and tallies from the same keys are asked beside walks. At last succinct filters of the keys with and without hash
//! bits and real bits are built and asked beside their walks, and a plain filter is asked for a few keys.
#![tactic(auto)]

ghost use Rattle.filter_model.specs.Keys.{IsKeyList};

mod bloom;
mod building;
mod codes;
mod cursors;
mod finder;
mod levels;
mod plain;
mod race;
mod ranges;
mod sizes;
mod stubs;
mod variants;

use anyhow::{Result, bail};
use bench_keys::{Kind, Texts, draw_absent, draw_keys, sorted, texts_of};
use bench_kit::{Numbers, Options, read_options};
use codes::code_rounds;
use cursors::{cursor_rounds, start_rounds};
use filter_model::are_keys;
use filter_trie::Trie;
use key_base::KeyList;
use plain::plain_round;
use race::{Finders, race};
use ranges::{highs, print_full, range_rounds};
use std::alloc::Global;
use std::env;
use std::time::CpuClock;
use variants::{Queries, variant_rounds};

const ABOUT: &str = "\
Measures filters of --count keys of a kind, --keys: random (8 bytes) or words (10 to 20 letters, which begin as others do)
by --seed. The upper levels of a trie are dense by --ratio:
  build     how fast the trie of the keys is made, and its levels: every measure begins so
  image     how fast its image is written and read
  cursors   how fast a cursor goes over its leaves, and others start at keys
  ranges    seeks, ranges and tallies from keys on, each beside a walk
  walks     walks beside a Bloom filter and a binary search, and what each of the three takes
  variants  filters with and without suffix bits, beside their walks
  plain     a plain filter
  all       each of them, in this order";

// What the options ask for.
#[derive(Clone, Copy)]
struct Asked<'a> {
    measure: &'a str,
    kind: Kind,
    count: u32,
    seed: u64,
    ratio: u16,
}

impl Asked<'_> {
    // Whether this is measured.
    fn has(&self, measure: &str) -> bool {
        self.measure == "all" || self.measure == measure
    }
}

// What may be asked for beside `all`.
const MEASURES: [&str; 7] = [
    "build", "image", "cursors", "ranges", "walks", "variants", "plain",
];

fn main(rt: HostRuntime) -> Result<()> {
    let words: Vec<String> = env::args(&rt)?.skip(1).collect(rt.alloc())?;
    match read_options(&rt, rt.alloc(), "filter_bench", ABOUT, &words)? {
        Some(options) => measure(&rt, rt.alloc(), asked_by(options)?),
        None => Ok(()),
    }
}

fn asked_by<'a>(options: Options<'a>) -> Result<Asked<'a>> {
    if options.measure != "all" && !MEASURES.contains(&options.measure) {
        bail!("no such measure: see --help");
    }
    let Some(kind) = Kind::named(options.keys) else {
        bail!("keys are random or words");
    };
    Ok(Asked {
        measure: options.measure,
        kind,
        count: u32::try_from(options.count)?,
        seed: options.seed,
        ratio: u16::try_from(options.ratio)?,
    })
}

// Draws keys, and measures what is built of them.
fn measure(rt: &(impl Print + CpuClock), alloc: Global, asked: Asked<'_>) -> Result<()> {
    let mut numbers = Numbers::new(asked.seed);
    let present = draw_keys(alloc, asked.kind, asked.count, &mut numbers)?;
    let keys = sorted(alloc, &present)?;
    if !are_keys(&keys) {
        bail!("no key to build of");
    }
    measure_keys(rt, alloc, asked, &present, &keys, &mut numbers)
}

// Builds what is to be asked, and has the race.
fn measure_keys(
    rt: &(impl Print + CpuClock),
    alloc: Global,
    asked: Asked<'_>,
    present: &Texts,
    keys: &KeyList,
    numbers: &mut Numbers,
) -> Result<()>
    requires { IsKeyList keys.now }
{
    let finders = Finders::new(rt, alloc, keys, asked.ratio)?;
    if asked.has("image") {
        code_rounds(rt, alloc, &finders.trie)?;
    }
    if asked.has("cursors") {
        cursor_rounds(rt, alloc, &finders.trie)?;
        start_rounds(rt, alloc, &finders.trie, present)?;
    }
    let absent = draw_absent(alloc, asked.kind, present, keys, numbers)?;
    ask_finders(rt, alloc, asked, &finders, keys.len(), present, &absent)?;
    if asked.has("variants") {
        ask_variants(rt, alloc, asked, keys, present, &absent)?;
    }
    if asked.has("plain") {
        plain_round(rt, alloc, keys, &absent)?;
    }
    Ok(())
}

// Builds succinct filters of the keys, and asks them.
fn ask_variants(
    rt: &(impl Print + CpuClock),
    alloc: Global,
    asked: Asked<'_>,
    keys: &KeyList,
    present: &Texts,
    absent: &Texts,
) -> Result<()>
    requires { IsKeyList keys.now }
{
    let highs = highs(alloc, asked.kind, absent)?;
    let texts = texts_of(alloc, keys)?;
    print_full(rt, &texts, absent, &highs)?;
    let queries = Queries {
        present,
        absent,
        highs: &highs,
    };
    variant_rounds(rt, alloc, keys, asked.ratio, queries)
}

// Asks the trie for ranges from both lists of keys on, and all three for the keys.
fn ask_finders(
    rt: &(impl Print + CpuClock),
    alloc: Global,
    asked: Asked<'_>,
    finders: &Finders,
    count: usize,
    present: &Texts,
    absent: &Texts,
) -> Result<()> {
    if asked.has("ranges") {
        ask_ranges(rt, alloc, asked.kind, "present", &finders.trie, present)?;
        ask_ranges(rt, alloc, asked.kind, "absent", &finders.trie, absent)?;
    }
    if asked.has("walks") {
        finders.print_sizes(rt, count)?;
        race(rt, "present", finders, present)?;
        race(rt, "absent", finders, absent)?;
    }
    Ok(())
}

fn ask_ranges(
    rt: &(impl Print + CpuClock),
    alloc: Global,
    kind: Kind,
    name: &str,
    trie: &Trie<Global>,
    lows: &Texts,
) -> Result<()> {
    let highs = highs(alloc, kind, lows)?;
    range_rounds(rt, name, trie, lows, &highs)
}
