//! Tries of random sets of keys at each cutoff, against plain filters.

use super::bounds::bounds_near;
use super::cursors::{go_back, go_on, is_least, says_least};
use super::keys::{drawn_list, step};
use super::tries::{plain_of, stubs_of, trie_with};
use filter_api::RangeFilter;
use filter_iter::{FilterCursor, range, seek, tally};
use filter_trie::Trie;
use key_base::{KeyList, compare};
use key_truncate::Stub;
use plain_filter::PlainFilter;
use std::alloc::Global;
use std::process::Abort;
use std::test::Fail;

// How many sets of keys are drawn; none of them is empty.
const SETS: u64 = 2_000;

// How many keys a set has at most.
const MAX_KEYS: usize = 12;

// How many random bounds each is asked for, beside those near a stub.
const BOUNDS: usize = 6;

// More levels than a trie of the keys has.
const LEVELS: u16 = 6;

// Widths of hash bits and real bits.
fn widths(seed: u64) -> (u8, u8) {
    match (seed >> 45) % 5 {
        0 => (0, 0),
        1 => (8, 3),
        2 => (0, 8),
        3 => (8, 13),
        _ => (32, 32),
    }
}

fn check_pair(rt: &impl Abort, trie: &Trie<Global>, plain: &PlainFilter, lo: &[u8], hi: &[u8]) {
    if !compare(hi, lo).is_lt() {
        assert!(rt; range(trie, lo, hi) == plain.may_hold_range(lo, hi));
        assert!(rt; tally(trie, lo, hi) == plain.tally(lo, hi));
    }
}

fn check_bound(
    rt: &impl Abort,
    trie: &Trie<Global>,
    plain: &PlainFilter,
    lo: &[u8],
    bounds: &[Vec<u8>],
) {
    assert!(rt; seek(trie, lo) == plain.seek(lo));
    for hi in bounds {
        check_pair(rt, trie, plain, lo, hi.as_slice());
    }
}

fn check_bounds(rt: &impl Abort, trie: &Trie<Global>, plain: &PlainFilter, bounds: &[Vec<u8>]) {
    for lo in bounds {
        check_bound(rt, trie, plain, lo.as_slice(), bounds);
    }
}

fn check_found(
    rt: &impl Abort,
    cursor: &mut FilterCursor<'_, Global, Global>,
    trie: &Trie<Global>,
    keys: &KeyList,
    stubs: &[Stub],
    first: Option<u32>,
) {
    assert!(rt; first == Some(cursor.leaf()));
    let from = cursor.leaf() as usize;
    go_on(rt, cursor, trie, keys, stubs, from);
    go_back(rt, cursor, trie, keys, stubs);
}

fn check_cursor(
    rt: &impl Abort,
    alloc: Global,
    trie: &Trie<Global>,
    keys: &KeyList,
    stubs: &[Stub],
    lo: &[u8],
    first: Option<u32>,
) -> Result<(), Fail> {
    match FilterCursor::start(&alloc, trie, lo)? {
        None => assert!(rt; first.is_none()),
        Some(mut cursor) => {
            assert!(rt; says_least(alloc, &cursor, trie)?);
            check_found(rt, &mut cursor, trie, keys, stubs, first);
        }
    }
    Ok(())
}

fn check_cursors(
    rt: &impl Abort,
    alloc: Global,
    trie: &Trie<Global>,
    plain: &PlainFilter,
    keys: &KeyList,
    stubs: &[Stub],
    bounds: &[Vec<u8>],
) -> Result<(), Fail> {
    for lo in bounds {
        let first = plain.seek(lo.as_slice());
        check_cursor(rt, alloc, trie, keys, stubs, lo.as_slice(), first)?;
    }
    Ok(())
}

fn check_least(
    rt: &impl Abort,
    alloc: Global,
    trie: &Trie<Global>,
    plain: &PlainFilter,
) -> Result<(), Fail> {
    for n in 0..plain.leaves() {
        let mut wanted = Vec::new(alloc);
        plain.least_of(n, &mut wanted)?;
        assert!(rt; is_least(alloc, trie, n, wanted.as_slice())?);
    }
    Ok(())
}

fn check_trie(
    rt: &impl Abort,
    alloc: Global,
    trie: &Trie<Global>,
    plain: &PlainFilter,
    keys: &KeyList,
    stubs: &[Stub],
    bounds: &[Vec<u8>],
) -> Result<(), Fail> {
    check_bounds(rt, trie, plain, bounds);
    check_cursors(rt, alloc, trie, plain, keys, stubs, bounds)?;
    check_least(rt, alloc, trie, plain)
}

fn check_cutoffs(
    rt: &impl Abort,
    alloc: Global,
    plain: &PlainFilter,
    keys: &KeyList,
    stubs: &[Stub],
    bounds: &[Vec<u8>],
) -> Result<(), Fail> {
    let (hash_bits, real_bits) = plain.widths();
    for cutoff in 0..LEVELS {
        match trie_with(alloc, keys, hash_bits, real_bits, cutoff)? {
            Some(trie) => check_trie(rt, alloc, &trie, plain, keys, stubs, bounds)?,
            None => return Ok(()),
        }
    }
    Ok(())
}

fn check_keys(rt: &impl Abort, alloc: Global, keys: &KeyList, seed: u64) -> Result<(), Fail> {
    let (hash_bits, real_bits) = widths(seed);
    let plain = plain_of(alloc, keys, hash_bits, real_bits)?;
    let stubs = stubs_of(alloc, keys)?;
    let bounds = bounds_near(alloc, seed, BOUNDS, keys, stubs.as_slice())?;
    check_cutoffs(rt, alloc, &plain, keys, stubs.as_slice(), bounds.as_slice())
}

fn check_set(rt: &impl Abort, alloc: Global, seed: u64) -> Result<(), Fail> {
    let keys = drawn_list(alloc, seed, MAX_KEYS)?;
    check_keys(rt, alloc, &keys, seed)
}

#[test]
fn tries_answer_ranges_as_plain_filters_do(rt: HostRuntime) -> Result<(), Fail> {
    let mut seed = 11;
    for _ in 0..SETS {
        seed = step(seed);
        check_set(&rt, rt.alloc(), seed)?;
    }
    Ok(())
}
