//! Succinct filters of all variants over the same keys: how long their making and their answers take, what they take,
//! and how often they err.

ghost use Rattle.filter_model.specs.Keys.{IsKeyList};
ghost use Rattle.filter_api.specs.Ranges.{InRange};

use crate::finder::{Finder, ask};
use crate::ranges::range_rounds;
use crate::sizes::Sizes;
use anyhow::{Result, bail};
use bench_keys::Texts;
use bench_kit::{Figure, Least, ROUNDS, Watch, boxed, print_measure, share};
use filter_api::{RangeFilter, Settings};
use key_base::KeyList;
use std::alloc::Global;
use std::time::CpuClock;
use surf_filter::SurfFilter;

// The name of each variant, and its hash bits and real bits.
const VARIANTS: [(&str, u8, u8); 7] = [
    ("base", 0, 0),
    ("hash 4", 4, 0),
    ("hash 8", 8, 0),
    ("real 4", 0, 4),
    ("real 8", 0, 8),
    ("mixed 4 4", 4, 4),
    ("mixed 8 8", 8, 8),
];

impl Finder for SurfFilter<Global> {
    #[inline]
    fn find(&self, key: &[u8]) -> Option<u64> {
        if self.may_hold(key) { Some(0) } else { None }
    }
}

/// What the filters are asked: keys that they are of, others, and upper bounds of ranges from those others on.
#[derive(Clone, Copy)]
pub struct Queries<'a> {
    pub present: &'a Texts,
    pub absent: &'a Texts,
    pub highs: &'a Texts,
}

/// Builds the filter of each variant, and prints what is found of it.
pub fn variant_rounds(
    rt: &(impl Print + CpuClock),
    alloc: Global,
    keys: &KeyList,
    ratio: u16,
    queries: Queries<'_>,
) -> Result<()>
    requires { IsKeyList keys.now }
{
    for variant in VARIANTS {
        variant_round(rt, alloc, keys, ratio, variant, queries)?;
    }
    Ok(())
}

// Builds the filter of one variant, and prints what is found of it.
fn variant_round(
    rt: &(impl Print + CpuClock),
    alloc: Global,
    keys: &KeyList,
    ratio: u16,
    variant: (&str, u8, u8),
    queries: Queries<'_>,
) -> Result<()>
    requires { IsKeyList keys.now }
{
    let (name, hash_bits, real_bits) = variant;
    let settings = Settings {
        hash_bits,
        real_bits,
        ratio,
    };
    if settings.check().is_err() {
        bail!("no settings");
    }
    let filter = build_rounds(rt, alloc, keys, name, settings)?;
    ask_all(rt, alloc, name, &filter, queries)
}

// Builds a filter several times, and prints how fast that was at best.
fn build_rounds(
    rt: &(impl Print + CpuClock),
    alloc: Global,
    keys: &KeyList,
    name: &str,
    settings: Settings,
) -> Result<Box<SurfFilter<Global>>>
    requires keys { IsKeyList keys.now }
    requires settings { InRange settings }
{
    let mut least = Least::new();
    for _ in 1..ROUNDS {
        build_timed(rt, alloc, keys, settings, &mut least)?;
    }
    let filter = build_timed(rt, alloc, keys, settings, &mut least)?;
    let figures = [
        ("filter", Figure::Word(name)),
        ("million_keys_a_second", Figure::Real(least.millions())),
    ];
    print_measure(rt, "filter_bench", "variant_build", &figures)?;
    Ok(filter)
}

fn build_timed(
    rt: &impl CpuClock,
    alloc: Global,
    keys: &KeyList,
    settings: Settings,
    least: &mut Least,
) -> Result<Box<SurfFilter<Global>>>
    requires keys { IsKeyList keys.now }
    requires settings { InRange settings }
{
    let watch = Watch::start(rt)?;
    let filter = boxed(alloc, SurfFilter::build(alloc, keys, settings)?)?;
    least.keep(watch.stop_each(rt, keys.len() as u64)?);
    Ok(filter)
}

fn ask_all(
    rt: &(impl Print + CpuClock),
    alloc: Global,
    name: &str,
    filter: &SurfFilter<Global>,
    queries: Queries<'_>,
) -> Result<()> {
    print_sizes(rt, alloc, name, filter)?;
    point_rounds(rt, name, "present", filter, queries.present)?;
    point_rounds(rt, name, "absent", filter, queries.absent)?;
    range_rounds(rt, name, filter.trie(), queries.absent, queries.highs)
}

// Prints the bits a leaf of the image and in memory.
fn print_sizes(
    rt: &impl Print,
    alloc: Global,
    name: &str,
    filter: &SurfFilter<Global>,
) -> Result<()> {
    let mut image = Vec::new(alloc);
    filter.encode(&mut image)?;
    let leaves = u64::from(filter.leaves());
    let written = share((image.len() as u64).saturating_mul(8), leaves);
    let held = share(Sizes::of(filter.trie()).memory, leaves);
    let figures = [
        ("filter", Figure::Word(name)),
        ("image", Figure::Real(written)),
        ("memory", Figure::Real(held)),
    ];
    print_measure(rt, "filter_bench", "variant_bits_a_key", &figures)?;
    Ok(())
}

// Asks for keys, and for walks of the same, in rounds, and prints the nanoseconds a key and which part may be held.
fn point_rounds<'x>(
    rt: &(impl Print + CpuClock),
    name: &'x str,
    which: &'x str,
    filter: &SurfFilter<Global>,
    queries: &Texts,
) -> Result<()> {
    let mut walk = Least::new();
    let mut point = Least::new();
    let mut held = 0;
    let mut sum = 0u64;
    for _ in 0..ROUNDS {
        sum = sum.wrapping_add(asked_once(rt, filter.trie(), queries, &mut walk)?.1);
        held = asked_once(rt, filter, queries, &mut point)?.0;
    }
    let figures = [
        ("filter", Figure::Word(name)),
        ("queries", Figure::Word(which)),
        ("ns", Figure::Real(point.nanoseconds)),
        ("walk_ns", Figure::Real(walk.nanoseconds)),
        ("ratio", Figure::Real(point.over(walk))),
        (
            "may_be_held",
            Figure::Real(share(held, queries.len() as u64)),
        ),
        ("sum", Figure::Count(sum)),
    ];
    print_measure(rt, "filter_bench", "variant_point", &figures)?;
    Ok(())
}

// How many of the keys are found, and the sum of what they lead to.
fn asked_once(
    rt: &impl CpuClock,
    finder: &impl Finder,
    queries: &Texts,
    least: &mut Least,
) -> Result<(u64, u64)> {
    let watch = Watch::start(rt)?;
    let found = ask(finder, queries);
    least.keep(watch.stop_each(rt, queries.len() as u64)?);
    Ok((found.count, found.sum))
}
