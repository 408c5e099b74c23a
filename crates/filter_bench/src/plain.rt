//! A plain filter of the same keys, which looks at all its leaves for each answer; so it is asked for few keys.
ghost use Rattle.filter_model.specs.Keys.{IsKeyList};

use anyhow::{Result, bail};
use bench_keys::Texts;
use bench_kit::{Figure, Watch, boxed, print_measure, share};
use filter_api::{RangeFilter, Settings};
use key_base::KeyList;
use plain_filter::PlainFilter;
use std::alloc::Global;
use std::time::CpuClock;

// How many keys it is asked for.
const ASKED: usize = 64;

// Of the variant with both.
const SETTINGS: Settings = Settings {
    hash_bits: 8,
    real_bits: 8,
    ratio: 64,
};

/// Builds it once, and prints how fast that was, what it takes when written, and what an answer takes.
pub fn plain_round(
    rt: &(impl Print + CpuClock),
    alloc: Global,
    keys: &KeyList,
    queries: &Texts,
) -> Result<()>
    requires { IsKeyList keys.now }
{
    if SETTINGS.check().is_err() {
        bail!("no settings");
    }
    let watch = Watch::start(rt)?;
    let filter = boxed(alloc, PlainFilter::build(alloc, keys, SETTINGS)?)?;
    let taken = watch.stop_each(rt, keys.len() as u64)?;
    print_made(rt, alloc, &filter, 1e3 / taken)?;
    ask_plain(rt, &filter, queries)
}

fn print_made(rt: &impl Print, alloc: Global, filter: &PlainFilter, millions: f64) -> Result<()> {
    let mut spelled = Vec::new(alloc);
    filter.encode(&mut spelled)?;
    let bits = (spelled.len() as u64).saturating_mul(8);
    let figures = [
        ("million_keys_a_second", Figure::Real(millions)),
        (
            "bits_a_key",
            Figure::Real(share(bits, u64::from(filter.leaves()))),
        ),
    ];
    print_measure(rt, "filter_bench", "plain_build", &figures)?;
    Ok(())
}

fn ask_plain(rt: &(impl Print + CpuClock), filter: &PlainFilter, queries: &Texts) -> Result<()> {
    let watch = Watch::start(rt)?;
    let held = points(filter, queries);
    let point = watch.stop_each(rt, ASKED as u64)?;
    let watch = Watch::start(rt)?;
    let sum = seeks(filter, queries);
    let seek = watch.stop_each(rt, ASKED as u64)?;
    let figures = [
        ("keys", Figure::Count(ASKED as u64)),
        ("point_ns", Figure::Real(point)),
        ("seek_ns", Figure::Real(seek)),
        ("held", Figure::Count(held)),
        ("sum", Figure::Count(sum)),
    ];
    print_measure(rt, "filter_bench", "plain_asked", &figures)?;
    Ok(())
}

// How many of the first keys may be held.
#[inline(never)]
fn points(filter: &PlainFilter, queries: &Texts) -> u64 {
    let mut held = 0u64;
    for i in 0..ASKED {
        if filter.may_hold(queries.get(i)) {
            held = held.wrapping_add(1);
        }
    }
    held
}

// The sum of the leaves at which seeks of the first keys end.
#[inline(never)]
fn seeks(filter: &PlainFilter, queries: &Texts) -> u64 {
    let mut sum = 0u64;
    for i in 0..ASKED {
        if let Some(leaf) = filter.seek(queries.get(i)) {
            sum = sum.wrapping_add(u64::from(leaf));
        }
    }
    sum
}
