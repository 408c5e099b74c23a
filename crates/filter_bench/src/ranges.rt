//! Ranges, asked beside walks.
use crate::finder::ask;
use anyhow::{Result, bail};
use bench_keys::{Kind, Texts};
use bench_kit::{Figure, Least, ROUNDS, Watch, print_measure, share};
use filter_iter::{range, seek, tally};
use filter_trie::Trie;
use std::alloc::Global;
use std::io;
use std::time::CpuClock;

// The byte of a random key at which one more is 2^32 more.
const RAISED: usize = 3;

/// The upper bounds of ranges that begin at these keys: 2^32 above a random key, and a word with a last letter one higher.
pub fn highs(alloc: Global, kind: Kind, lows: &Texts) -> Result<Box<Texts>> {
    let mut highs = Texts::in_box(alloc)?;
    let mut key = Vec::new(alloc);
    push_highs(kind, lows, &mut key, &mut highs)?;
    Ok(highs)
}

// Adds the upper bound of each, which is made in `key`.
fn push_highs(kind: Kind, lows: &Texts, key: &mut Vec<u8>, highs: &mut Texts) -> Result<()> {
    for i in 0..lows.len() {
        key.clear();
        key.extend_from_slice(lows.get(i))?;
        let place = match kind {
            Kind::Random => RAISED,
            Kind::Words => key.len().saturating_sub(1),
        };
        raise(key.as_mut_slice(), place);
        highs.push(key.as_slice())?;
    }
    Ok(())
}

// Adds one to the byte number `place` of a key, and where that is FF to the one before it too.
fn raise(key: &mut [u8], place: usize) {
    for i in 0..=place {
        if let Some(byte) = key.get_mut(place.saturating_sub(i)) {
            *byte = byte.wrapping_add(1);
            if *byte > 0 {
                return;
            }
        }
    }
}

/// Prints which part of ranges holds a key indeed. The keys rise, and no range begins with one.
pub fn print_full(rt: &impl Print, keys: &Texts, lows: &Texts, highs: &Texts) -> io::Result<()> {
    let full = full_ranges(keys, lows, highs);
    let part = share(full, lows.len() as u64);
    print_measure(
        rt,
        "filter_bench",
        "full_ranges",
        &[("part", Figure::Real(part))],
    )
}

fn full_ranges(keys: &Texts, lows: &Texts, highs: &Texts) -> u64 {
    let mut full = 0u64;
    for i in 0..lows.len() {
        if keys.first_above(lows.get(i)) < keys.first_above(highs.get(i)) {
            full = full.wrapping_add(1);
        }
    }
    full
}

// The least times of a query.
#[derive(Clone, Copy)]
struct Times {
    walk: Least,
    seek: Least,
    range: Least,
    tally: Least,
}

/// Asks for walks and seeks of the lower bounds and for ranges and tallies between both, in turn and in rounds, and prints
/// the nanoseconds a query and which part of the ranges may hold a key.
pub fn range_rounds(
    rt: &(impl Print + CpuClock),
    name: &str,
    trie: &Trie<Global>,
    lows: &Texts,
    highs: &Texts,
) -> Result<()> {
    let mut times = Times {
        walk: Least::new(),
        seek: Least::new(),
        range: Least::new(),
        tally: Least::new(),
    };
    let mut held = 0u64;
    let mut sum = 0u64;
    for _ in 0..ROUNDS {
        held = range_round(rt, trie, lows, highs, &mut times, &mut sum)?;
    }
    print_times(rt, name, times)?;
    let count = lows.len() as u64;
    let figures = [
        ("queries", Figure::Word(name)),
        ("ranges", Figure::Count(count)),
        ("may_hold", Figure::Real(share(held, count))),
        ("sum", Figure::Count(sum)),
    ];
    print_measure(rt, "filter_bench", "ranges_found", &figures)?;
    Ok(())
}

// Asks all four once: how many ranges may hold a key.
fn range_round(
    rt: &impl CpuClock,
    trie: &Trie<Global>,
    lows: &Texts,
    highs: &Texts,
    times: &mut Times,
    sum: &mut u64,
) -> Result<u64> {
    let mut held = 0u64;
    times.walk.keep(walks_timed(rt, trie, lows, sum)?);
    times.seek.keep(seeks_timed(rt, trie, lows, sum)?);
    let taken = ranges_timed(rt, trie, lows, highs, &mut held)?;
    times.range.keep(taken);
    let taken = tallies_timed(rt, trie, lows, highs, held)?;
    times.tally.keep(taken);
    Ok(held)
}

// Prints the other three beside a walk.
fn print_times(rt: &impl Print, name: &str, times: Times) -> io::Result<()> {
    print_time(rt, name, "seek", times.seek, times.walk)?;
    print_time(rt, name, "range", times.range, times.walk)?;
    print_time(rt, name, "tally", times.tally, times.walk)
}

// Prints a call, and how many times a walk's time it takes.
fn print_time(rt: &impl Print, name: &str, call: &str, time: Least, walk: Least) -> io::Result<()> {
    let figures = [
        ("queries", Figure::Word(name)),
        ("ns", Figure::Real(time.nanoseconds)),
        ("walk_ns", Figure::Real(walk.nanoseconds)),
        ("ratio", Figure::Real(time.over(walk))),
    ];
    print_measure(rt, "filter_bench", call, &figures)
}

// Walks once: nanoseconds a walk.
fn walks_timed(
    rt: &impl CpuClock,
    trie: &Trie<Global>,
    lows: &Texts,
    sum: &mut u64,
) -> Result<f64> {
    let watch = Watch::start(rt)?;
    let found = ask(trie, lows);
    let taken = watch.stop_each(rt, lows.len() as u64)?;
    *sum = sum.wrapping_add(found.sum);
    Ok(taken)
}

// Seeks once: nanoseconds a seek.
fn seeks_timed(
    rt: &impl CpuClock,
    trie: &Trie<Global>,
    lows: &Texts,
    sum: &mut u64,
) -> Result<f64> {
    let watch = Watch::start(rt)?;
    let found = seek_all(trie, lows);
    let taken = watch.stop_each(rt, lows.len() as u64)?;
    *sum = sum.wrapping_add(found);
    Ok(taken)
}

// Asks for ranges once: nanoseconds a range, and `held` is how many may hold a key.
fn ranges_timed(
    rt: &impl CpuClock,
    trie: &Trie<Global>,
    lows: &Texts,
    highs: &Texts,
    held: &mut u64,
) -> Result<f64> {
    let watch = Watch::start(rt)?;
    *held = range_all(trie, lows, highs);
    Ok(watch.stop_each(rt, lows.len() as u64)?)
}

// Asks for tallies once: nanoseconds a tally. Fails where not as many as `held` are above zero.
fn tallies_timed(
    rt: &impl CpuClock,
    trie: &Trie<Global>,
    lows: &Texts,
    highs: &Texts,
    held: u64,
) -> Result<f64> {
    let watch = Watch::start(rt)?;
    let counted = tally_all(trie, lows, highs);
    let taken = watch.stop_each(rt, lows.len() as u64)?;
    if counted != held {
        bail!("ranges and tallies do not agree");
    }
    Ok(taken)
}

// The sum of the leaves at which seeks end.
#[inline(never)]
fn seek_all(trie: &Trie<Global>, lows: &Texts) -> u64 {
    let mut sum = 0u64;
    for i in 0..lows.len() {
        if let Some(leaf) = seek(trie, lows.get(i)) {
            sum = sum.wrapping_add(u64::from(leaf));
        }
    }
    sum
}

// How many ranges may hold a key.
#[inline(never)]
fn range_all(trie: &Trie<Global>, lows: &Texts, highs: &Texts) -> u64 {
    let mut count = 0u64;
    for i in 0..lows.len() {
        if range(trie, lows.get(i), highs.get(i)) {
            count = count.wrapping_add(1);
        }
    }
    count
}

// How many ranges have a tally above zero.
#[inline(never)]
fn tally_all(trie: &Trie<Global>, lows: &Texts, highs: &Texts) -> u64 {
    let mut count = 0u64;
    for i in 0..lows.len() {
        if tally(trie, lows.get(i), highs.get(i)) > 0 {
            count = count.wrapping_add(1);
        }
    }
    count
}
