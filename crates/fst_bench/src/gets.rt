//! Gets, from all three in turn.
use crate::array::SortedArray;
use crate::pairs::{Got, Pairs, get_all};
use crate::tree::Tree;
use anyhow::{Result, bail};
use bench_keys::Texts;
use bench_kit::{Figure, Least, ROUNDS, Watch, print_measure};
use fst_map::FstMap;
use std::alloc::Global;
use std::io;
use std::time::CpuClock;

// The least times of a get.
#[derive(Clone, Copy)]
struct Times {
    map: Least,
    array: Least,
    tree: Least,
}

/// Asks each of the three for these keys, in rounds, and prints the nanoseconds a get and how many times the array's time the
/// map takes.
pub fn race(
    rt: &(impl Print + CpuClock),
    name: &str,
    map: &FstMap<'_, Global>,
    array: &SortedArray,
    tree: &Tree,
    queries: &Texts,
) -> Result<()> {
    let mut times = Times {
        map: Least::new(),
        array: Least::new(),
        tree: Least::new(),
    };
    let mut got = Got::new();
    for _ in 0..ROUNDS {
        got = gets_timed(rt, map, queries, &mut times.map)?;
        let searched = gets_timed(rt, array, queries, &mut times.array)?;
        let descended = gets_timed(rt, tree, queries, &mut times.tree)?;
        if !got.is(searched) || !got.is(descended) {
            bail!("a map, an array and a tree do not agree");
        }
    }
    print_times(rt, name, times, got)?;
    Ok(())
}

// Asks one of them for all keys once.
fn gets_timed<P: Pairs>(
    rt: &impl CpuClock,
    pairs: &P,
    queries: &Texts,
    least: &mut Least,
) -> Result<Got> {
    let watch = Watch::start(rt)?;
    let got = get_all(pairs, queries);
    least.keep(watch.stop_each(rt, queries.len() as u64)?);
    Ok(got)
}

fn print_times(rt: &impl Print, name: &str, times: Times, got: Got) -> io::Result<()> {
    let Times { map, array, tree } = times;
    let figures = [
        ("queries", Figure::Word(name)),
        ("found", Figure::Count(got.count)),
        ("ns", Figure::Real(map.nanoseconds)),
        ("array_ns", Figure::Real(array.nanoseconds)),
        ("array_ratio", Figure::Real(map.over(array))),
        ("tree_ns", Figure::Real(tree.nanoseconds)),
        ("tree_ratio", Figure::Real(map.over(tree))),
    ];
    print_measure(rt, "fst_bench", "get", &figures)
}
