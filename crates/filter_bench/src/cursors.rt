//! A cursor: where it starts, what it says of its leaf, and how it goes from leaf to leaf.
use anyhow::{Result, bail};
use bench_keys::Texts;
use bench_kit::{Figure, Least, ROUNDS, Watch, print_measure};
use filter_iter::{FilterCursor, least_of};
use filter_trie::Trie;
use key_base::MAX_KEY_BYTES;
use std::alloc::Global;
use std::time::CpuClock;

/// Goes from the first leaf to the last one, several times, and prints the nanoseconds a leaf at best.
pub fn cursor_rounds(
    rt: &(impl Print + CpuClock),
    alloc: Global,
    trie: &Trie<Global>,
) -> Result<()> {
    let mut next = Least::new();
    for _ in 0..ROUNDS {
        next.keep(leaves_timed(rt, alloc, trie)?);
    }
    let figures = [("ns", Figure::Real(next.nanoseconds))];
    print_measure(rt, "filter_bench", "cursor_next", &figures)?;
    Ok(())
}

// Goes over all leaves once: nanoseconds a leaf.
fn leaves_timed(rt: &impl CpuClock, alloc: Global, trie: &Trie<Global>) -> Result<f64> {
    let leaves = u64::from(trie.leaves());
    let Some(mut cursor) = FilterCursor::start(&alloc, trie, b"")? else {
        bail!("a trie has no first leaf");
    };
    next_timed(rt, &mut cursor, leaves)
}

// Goes from the first leaf over all.
fn next_timed(
    rt: &impl CpuClock,
    cursor: &mut FilterCursor<'_, Global, Global>,
    leaves: u64,
) -> Result<f64> {
    let watch = Watch::start(rt)?;
    let count = count_leaves(cursor, leaves);
    let taken = watch.stop_each(rt, leaves)?;
    if count != leaves {
        bail!("a cursor leaves out a leaf");
    }
    Ok(taken)
}

// How many leaves the cursor goes over, which stands at the first one.
#[inline(never)]
fn count_leaves(cursor: &mut FilterCursor<'_, Global, Global>, most: u64) -> u64 {
    let mut count = 1u64;
    for _ in 0..most {
        if !cursor.next() {
            return count;
        }
        count = count.wrapping_add(1);
    }
    count
}

// The most starts that are timed.
const STARTS: usize = 100_000;

/// Starts cursors at keys, asks them for their least strings, and asks the trie for those by number; prints the nanoseconds a
/// call at best.
pub fn start_rounds(
    rt: &(impl Print + CpuClock),
    alloc: Global,
    trie: &Trie<Global>,
    keys: &Texts,
) -> Result<()> {
    let mut start = Least::new();
    let mut said = Least::new();
    let mut asked = Least::new();
    for _ in 0..ROUNDS {
        start.keep(starts_timed(rt, alloc, trie, keys, false)?);
        said.keep(starts_timed(rt, alloc, trie, keys, true)?);
        asked.keep(least_timed(rt, alloc, trie)?);
    }
    let figures = [
        ("ns", Figure::Real(start.nanoseconds)),
        ("with_least_ns", Figure::Real(said.nanoseconds)),
        ("least_of_ns", Figure::Real(asked.nanoseconds)),
    ];
    print_measure(rt, "filter_bench", "cursor_start", &figures)?;
    Ok(())
}

// Starts at one key after the other: nanoseconds a start, and with its least string if that is asked.
fn starts_timed(
    rt: &impl CpuClock,
    alloc: Global,
    trie: &Trie<Global>,
    keys: &Texts,
    said: bool,
) -> Result<f64> {
    let count = keys.len().min(STARTS);
    let mut least = Vec::with_capacity(alloc, MAX_KEY_BYTES.saturating_add(4))?;
    let mut sum = 0u64;
    let watch = Watch::start(rt)?;
    for i in 0..count {
        if let Some(cursor) = FilterCursor::start(&alloc, trie, keys.get(i))? {
            sum = sum.wrapping_add(cursor.slot());
            if said {
                least.clear();
                cursor.least(&mut least)?;
                sum = sum.wrapping_add(least.len() as u64);
            }
        }
    }
    let taken = watch.stop_each(rt, count as u64)?;
    if sum == 0 {
        bail!("no cursor starts");
    }
    Ok(taken)
}

// Asks for the least strings of leaves far from one another: nanoseconds a call.
fn least_timed(rt: &impl CpuClock, alloc: Global, trie: &Trie<Global>) -> Result<f64> {
    let leaves = u64::from(trie.leaves());
    let count = leaves.min(STARTS as u64);
    let mut least = Vec::with_capacity(alloc, MAX_KEY_BYTES.saturating_add(4))?;
    let mut sum = 0u64;
    let watch = Watch::start(rt)?;
    for i in 0..count {
        let n = (i.wrapping_mul(0x9E37_79B9_7F4A_7C15) >> 32) as u32;
        let n = (u64::from(n).wrapping_mul(leaves) >> 32) as u32;
        if n < trie.leaves() {
            least.clear();
            least_of(trie, n, &mut least)?;
            sum = sum.wrapping_add(least.len() as u64);
        }
    }
    let taken = watch.stop_each(rt, count)?;
    if sum == 0 {
        bail!("no least string has a byte");
    }
    Ok(taken)
}
