//! The trie, the Bloom filter and the search, asked in turn.
ghost use Rattle.filter_model.specs.Keys.{IsKeyList};

use crate::bloom::Bloom;
use crate::building::build_rounds;
use crate::finder::{Found, ask};
use crate::levels::levels;
use crate::sizes::Sizes;
use crate::stubs::StubSearch;
use anyhow::{Result, bail};
use bench_keys::Texts;
use bench_kit::{Figure, Least, ROUNDS, Watch, boxed, print_measure, share};
use filter_trie::Trie;
use key_base::KeyList;
use std::alloc::Global;
use std::io;
use std::time::CpuClock;

/// All that is asked, over the same keys.
#[derive(Drop)]
pub struct Finders {
    pub trie: Box<Trie<Global>>,
    pub search: Box<StubSearch>,
    bloom: Box<Bloom>,
}

impl Finders {
    /// Builds all three. The trie has its upper levels dense by a ratio, and how fast it is built is printed.
    pub fn new(
        rt: &(impl Print + CpuClock),
        alloc: Global,
        keys: &KeyList,
        ratio: u16,
    ) -> Result<Box<Finders>>
        requires { IsKeyList keys.now }
    {
        let trie = build_rounds(rt, alloc, keys, ratio)?;
        let search = StubSearch::new(alloc, keys)?;
        let bloom = Bloom::new(alloc, keys)?;
        Ok(boxed(
            alloc,
            Finders {
                trie,
                search,
                bloom,
            },
        )?)
    }

    /// Prints the bits a key of each.
    pub fn print_sizes(&self, rt: &impl Print, keys: usize) -> io::Result<()> {
        let sizes = Sizes::of(&self.trie);
        let count = keys as u64;
        let bloom = self.bloom.bits() as u64;
        let search = self.search.bits() as u64;
        let figures = [
            ("sections", Figure::Real(share(sizes.sections, count))),
            ("memory", Figure::Real(share(sizes.memory, count))),
            ("bloom", Figure::Real(share(bloom, count))),
            ("search", Figure::Real(share(search, count))),
        ];
        print_measure(rt, "filter_bench", "bits_a_key", &figures)
    }
}

// The least times of a key.
#[derive(Clone, Copy)]
struct Times {
    walk: Least,
    bloom: Least,
    search: Least,
}

// Asks each of the three once, and says what the walks and the Bloom filter found.
fn round(
    rt: &impl CpuClock,
    finders: &Finders,
    queries: &Texts,
    times: &mut Times,
) -> Result<(Found, Found)> {
    let count = queries.len() as u64;
    let watch = Watch::start(rt)?;
    let walked = ask(&*finders.trie, queries);
    times.walk.keep(watch.stop_each(rt, count)?);
    let watch = Watch::start(rt)?;
    let passed = ask(&*finders.bloom, queries);
    times.bloom.keep(watch.stop_each(rt, count)?);
    let watch = Watch::start(rt)?;
    let searched = ask(&*finders.search, queries);
    times.search.keep(watch.stop_each(rt, count)?);
    if walked.count != searched.count {
        bail!("walks and searches do not agree");
    }
    Ok((walked, passed))
}

/// Asks each for these keys, in rounds, and prints the nanoseconds a key, how many levels a walk visits, and which part of
/// the keys led to a leaf and passed the Bloom filter.
pub fn race(
    rt: &(impl Print + CpuClock),
    name: &str,
    finders: &Finders,
    queries: &Texts,
) -> Result<()> {
    let mut times = Times {
        walk: Least::new(),
        bloom: Least::new(),
        search: Least::new(),
    };
    let (walked, passed) = round(rt, finders, queries, &mut times)?;
    let mut sum = walked.sum;
    for _ in 1..ROUNDS {
        let (again, _) = round(rt, finders, queries, &mut times)?;
        sum = sum.wrapping_add(again.sum);
    }
    print_times(rt, name, times)?;
    let count = queries.len() as u64;
    let visited = levels(&finders.trie, queries);
    let figures = [
        ("queries", Figure::Word(name)),
        ("keys", Figure::Count(count)),
        ("levels_a_walk", Figure::Real(share(visited, count))),
        ("led", Figure::Real(share(walked.count, count))),
        ("passed_bloom", Figure::Real(share(passed.count, count))),
        ("sum", Figure::Count(sum)),
    ];
    print_measure(rt, "filter_bench", "found", &figures)?;
    Ok(())
}

// Prints all three, and how many times each other's time a walk takes.
fn print_times(rt: &impl Print, name: &str, times: Times) -> io::Result<()> {
    let Times {
        walk,
        bloom,
        search,
    } = times;
    let figures = [
        ("queries", Figure::Word(name)),
        ("ns", Figure::Real(walk.nanoseconds)),
        ("bloom_ns", Figure::Real(bloom.nanoseconds)),
        ("bloom_ratio", Figure::Real(walk.over(bloom))),
        ("search_ns", Figure::Real(search.nanoseconds)),
        ("search_ratio", Figure::Real(walk.over(search))),
    ];
    print_measure(rt, "filter_bench", "walk", &figures)
}
