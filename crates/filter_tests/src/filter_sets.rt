//! Succinct filters of random sets of keys, and what is read again of their spelling, against plain filters.

use super::bounds::bounds_near;
use super::filters::{between, filter_of, least, spelled};
use super::keys::{drawn_list, step};
use super::tries::{boxed, plain_of, stubs_of};
use filter_api::{RangeFilter, Settings};
use key_base::KeyList;
use plain_filter::PlainFilter;
use std::alloc::Global;
use std::process::Abort;
use std::test::Fail;
use surf_filter::SurfFilter;

// How many sets of keys are drawn; none of them is empty.
const SETS: u64 = 2_000;

// How many keys a set has at most.
const MAX_KEYS: usize = 12;

// How many random bounds each is asked for, beside those near a stub.
const BOUNDS: usize = 4;

const RATIOS: [u16; 4] = [0, 16, 64, 65_535];

fn check_range(
    rt: &impl Abort,
    filter: &impl RangeFilter,
    plain: &PlainFilter,
    lo: &[u8],
    hi: &[u8],
) {
    assert!(rt; between(filter, lo, hi) == between(plain, lo, hi));
}

// A bound as a key, and with each other one as a range.
fn check_bound(
    rt: &impl Abort,
    filter: &impl RangeFilter,
    plain: &PlainFilter,
    lo: &[u8],
    bounds: &[Vec<u8>],
) {
    assert!(rt; filter.may_hold(lo) == plain.may_hold(lo));
    assert!(rt; filter.seek(lo) == plain.seek(lo));
    for hi in bounds {
        check_range(rt, filter, plain, lo, hi.as_slice());
    }
}

fn check_bounds(
    rt: &impl Abort,
    filter: &impl RangeFilter,
    plain: &PlainFilter,
    bounds: &[Vec<u8>],
) {
    for lo in bounds {
        check_bound(rt, filter, plain, lo.as_slice(), bounds);
    }
}

fn check_leaf(
    rt: &impl Abort,
    alloc: Global,
    filter: &impl RangeFilter,
    plain: &PlainFilter,
    n: u32,
) -> Result<(), Fail> {
    let found = least(alloc, filter, n)?;
    let wanted = least(alloc, plain, n)?;
    assert!(rt; found.as_slice() == wanted.as_slice());
    Ok(())
}

fn check_leaves(
    rt: &impl Abort,
    alloc: Global,
    filter: &impl RangeFilter,
    plain: &PlainFilter,
) -> Result<(), Fail> {
    assert!(rt; filter.leaves() == plain.leaves() && filter.widths() == plain.widths());
    for n in 0..plain.leaves() {
        check_leaf(rt, alloc, filter, plain, n)?;
    }
    Ok(())
}

fn check_filter(
    rt: &impl Abort,
    alloc: Global,
    filter: &impl RangeFilter,
    plain: &PlainFilter,
    bounds: &[Vec<u8>],
) -> Result<(), Fail> {
    check_bounds(rt, filter, plain, bounds);
    check_leaves(rt, alloc, filter, plain)
}

// What is read again of a filter's spelling.
fn check_again(
    rt: &impl Abort,
    alloc: Global,
    filter: &SurfFilter<Global>,
    plain: &PlainFilter,
    bounds: &[Vec<u8>],
) -> Result<(), Fail> {
    let bytes = spelled(alloc, filter)?;
    let again = SurfFilter::decode_in(alloc, bytes.as_slice())?;
    let again = boxed(alloc, again)?;
    check_filter(rt, alloc, &*again, plain, bounds)
}

fn check_ratio(
    rt: &impl Abort,
    alloc: Global,
    keys: &KeyList,
    plain: &PlainFilter,
    bounds: &[Vec<u8>],
    ratio: u16,
) -> Result<(), Fail> {
    let (hash_bits, real_bits) = plain.widths();
    let settings = Settings {
        hash_bits,
        real_bits,
        ratio,
    };
    let filter = filter_of(alloc, keys, settings)?;
    let filter = boxed(alloc, filter)?;
    check_filter(rt, alloc, &*filter, plain, bounds)?;
    check_again(rt, alloc, &filter, plain, bounds)
}

fn check_ratios(
    rt: &impl Abort,
    alloc: Global,
    keys: &KeyList,
    plain: &PlainFilter,
    bounds: &[Vec<u8>],
) -> Result<(), Fail> {
    for ratio in RATIOS {
        check_ratio(rt, alloc, keys, plain, bounds, ratio)?;
    }
    Ok(())
}

// Widths that a seed draws of a filter with or without hash bits and real bits.
fn widths(seed: u64, hash: bool, real: bool) -> (u8, u8) {
    let hash_bits = if hash { 1 + (seed >> 16) % 32 } else { 0 };
    let real_bits = if real { 1 + (seed >> 24) % 32 } else { 0 };
    (hash_bits as u8, real_bits as u8)
}

fn check_set(
    rt: &impl Abort,
    alloc: Global,
    seed: u64,
    hash: bool,
    real: bool,
) -> Result<(), Fail> {
    let keys = drawn_list(alloc, seed, MAX_KEYS)?;
    check_keys(rt, alloc, seed, &keys, widths(seed, hash, real))
}

fn check_keys(
    rt: &impl Abort,
    alloc: Global,
    seed: u64,
    keys: &KeyList,
    widths: (u8, u8),
) -> Result<(), Fail> {
    let stubs = stubs_of(alloc, keys)?;
    let bounds = bounds_near(alloc, seed, BOUNDS, keys, stubs.as_slice())?;
    let plain = plain_of(alloc, keys, widths.0, widths.1)?;
    check_ratios(rt, alloc, keys, &plain, bounds.as_slice())
}

fn check_sets(rt: &impl Abort, alloc: Global, hash: bool, real: bool) -> Result<(), Fail> {
    let mut seed = 11;
    for _ in 0..SETS {
        seed = step(seed);
        check_set(rt, alloc, seed, hash, real)?;
    }
    Ok(())
}

#[test]
fn filters_without_suffixes_answer_as_plain_ones_do(rt: HostRuntime) -> Result<(), Fail> {
    check_sets(&rt, rt.alloc(), false, false)
}

#[test]
fn those_with_hash_bits_do(rt: HostRuntime) -> Result<(), Fail> {
    check_sets(&rt, rt.alloc(), true, false)
}

#[test]
fn those_with_real_bits_do(rt: HostRuntime) -> Result<(), Fail> {
    check_sets(&rt, rt.alloc(), false, true)
}

#[test]
fn those_with_both_do(rt: HostRuntime) -> Result<(), Fail> {
    check_sets(&rt, rt.alloc(), true, true)
}
