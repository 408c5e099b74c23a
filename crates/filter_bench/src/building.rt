//! The trie of keys, and how long its making takes.
ghost use Rattle.filter_model.specs.Keys.{IsKeyList};

use anyhow::{Result, bail};
use bench_kit::{Figure, Least, ROUNDS, Watch, boxed, print_measure};
use filter_trie::{Trie, build};
use key_base::KeyList;
use key_truncate::truncate;
use std::alloc::Global;
use std::io;
use std::time::CpuClock;
use trie_levels::{cutoff, plan_spans, spans_of};

/// The trie of sorted keys with its upper levels dense by a ratio. It is built several times, and how many keys a second
/// that was at best is printed.
pub fn build_rounds(
    rt: &(impl Print + CpuClock),
    alloc: Global,
    keys: &KeyList,
    ratio: u16,
) -> Result<Box<Trie<Global>>>
    requires { IsKeyList keys.now }
{
    let mut whole = Least::new();
    let mut planned = Least::new();
    for _ in 1..ROUNDS {
        build_timed(rt, alloc, keys, ratio, &mut whole, &mut planned)?;
    }
    let trie = build_timed(rt, alloc, keys, ratio, &mut whole, &mut planned)?;
    print_built(rt, keys.len(), &trie, whole, planned)?;
    Ok(trie)
}

fn print_built(
    rt: &impl Print,
    keys: usize,
    trie: &Trie<Global>,
    whole: Least,
    planned: Least,
) -> io::Result<()> {
    let figures = [
        ("keys", Figure::Count(keys as u64)),
        ("levels", Figure::Count(u64::from(trie.height()))),
        ("dense_levels", Figure::Count(u64::from(trie.cutoff()))),
        ("million_keys_a_second", Figure::Real(whole.millions())),
        ("million_by_their_plan", Figure::Real(planned.millions())),
    ];
    print_measure(rt, "filter_bench", "build", &figures)
}

// Builds it once, from the keys alone.
fn build_timed(
    rt: &impl CpuClock,
    alloc: Global,
    keys: &KeyList,
    ratio: u16,
    whole: &mut Least,
    planned: &mut Least,
) -> Result<Box<Trie<Global>>>
    requires { IsKeyList keys.now }
{
    let count = keys.len() as u64;
    let first = Watch::start(rt)?;
    let stubs = truncate(alloc, keys)?;
    let spans = spans_of(alloc, keys, stubs.as_slice())?;
    let levels = plan_spans(alloc, spans.as_slice())?;
    let dense = cutoff(&levels, ratio);
    if dense > levels.height() {
        bail!("a cutoff above the height");
    }
    let last = Watch::start(rt)?;
    let trie = boxed(alloc, build(alloc, keys, spans, &levels, 0, 0, dense)?)?;
    planned.keep(last.stop_each(rt, count)?);
    whole.keep(first.stop_each(rt, count)?);
    Ok(trie)
}
