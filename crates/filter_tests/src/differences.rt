//! The first difference of two filters: succinct ones against plain ones of the same keys.

use super::filters::{filter_of, filter_of_words};
use super::keys::{drawn_list, step};
use super::tries::{boxed, plain_of};
use filter_api::{RangeFilter, Settings};
use key_base::KeyList;
use plain_filter::PlainFilter;
use std::alloc::Global;
use std::process::Abort;
use std::test::Fail;
use surf_filter::SurfFilter;

// How many pairs of key lists are drawn; no list is empty.
const PAIRS: u64 = 400;

// How many keys a list has at most.
const MAX_KEYS: usize = 12;

// By the first all levels of a succinct filter are dense, and by the second none of the few that there are here.
const ALL_DENSE: u16 = 0;

const ALL_SPARSE: u16 = 65_535;

const FAR_TO_TOY: [&[u8]; 5] = [b"far", b"fast", b"s", b"top", b"toy"];

// ---- a few words

// The first difference of filters of one kind, whose ratios are these two.
fn check_words<F: RangeFilter>(
    rt: &impl Abort,
    alloc: Global,
    words: &[&[u8]],
    others: &[&[u8]],
    widths: (u8, u8),
    wanted: Option<u32>,
) -> Result<(), Fail> {
    let filter: F = filter_of_words(alloc, words, widths.0, widths.1, ALL_DENSE)?;
    let other: F = filter_of_words(alloc, others, widths.0, widths.1, ALL_SPARSE)?;
    let found = filter.first_difference(alloc, &other)?;
    assert!(rt; found == wanted);
    let back = other.first_difference(alloc, &filter)?;
    assert!(rt; back == wanted);
    Ok(())
}

fn check_far_to_toy<F: RangeFilter>(rt: &impl Abort, alloc: Global) -> Result<(), Fail> {
    check_words::<F>(rt, alloc, &FAR_TO_TOY, &FAR_TO_TOY, (8, 8), None)?;
    check_words::<F>(
        rt,
        alloc,
        &FAR_TO_TOY,
        &[b"far", b"fast", b"s"],
        (0, 0),
        Some(3),
    )?;
    check_words::<F>(
        rt,
        alloc,
        &FAR_TO_TOY,
        &[b"far", b"fast", b"t"],
        (0, 0),
        Some(2),
    )
}

#[test]
fn lists_differ_where_one_ends_and_by_stubs(rt: HostRuntime) -> Result<(), Fail> {
    check_far_to_toy::<PlainFilter>(&rt, rt.alloc())?;
    check_far_to_toy::<SurfFilter<Global>>(&rt, rt.alloc())
}

// The stub of each of these keys is a, where it is alone.
fn check_suffixes<F: RangeFilter>(rt: &impl Abort, alloc: Global) -> Result<(), Fail> {
    check_words::<F>(rt, alloc, &[b"ab"], &[b"ac"], (0, 0), None)?;
    check_words::<F>(rt, alloc, &[b"ab"], &[b"ac"], (8, 0), Some(0))?;
    check_words::<F>(rt, alloc, &[b"ab"], &[b"ac"], (0, 8), Some(0))?;
    check_words::<F>(rt, alloc, &[b"ab"], &[b"aba"], (0, 8), None)?;
    check_words::<F>(rt, alloc, &[b"a", b"ab"], &[b"a"], (0, 0), Some(0))
}

#[test]
fn leaves_differ_by_hash_bits_real_bits_and_ends(rt: HostRuntime) -> Result<(), Fail> {
    check_suffixes::<PlainFilter>(&rt, rt.alloc())?;
    check_suffixes::<SurfFilter<Global>>(&rt, rt.alloc())
}

// ---- random lists

fn surf_of(
    alloc: Global,
    keys: &KeyList,
    widths: (u8, u8),
    ratio: u16,
) -> Result<Box<SurfFilter<Global>>, Fail> {
    let settings = Settings {
        hash_bits: widths.0,
        real_bits: widths.1,
        ratio,
    };
    let filter = filter_of(alloc, keys, settings)?;
    Ok(boxed(alloc, filter)?)
}

fn plain_difference(
    alloc: Global,
    keys: &KeyList,
    others: &KeyList,
    widths: (u8, u8),
) -> Result<Option<u32>, Fail> {
    let plain = plain_of(alloc, keys, widths.0, widths.1)?;
    let other = plain_of(alloc, others, widths.0, widths.1)?;
    let found = plain.first_difference(alloc, &*other)?;
    Ok(found)
}

fn surf_difference(
    alloc: Global,
    keys: &KeyList,
    others: &KeyList,
    widths: (u8, u8),
) -> Result<Option<u32>, Fail> {
    let surf = surf_of(alloc, keys, widths, ALL_DENSE)?;
    let other = surf_of(alloc, others, widths, ALL_SPARSE)?;
    let found = surf.first_difference(alloc, &*other)?;
    Ok(found)
}

fn check_pair(
    rt: &impl Abort,
    alloc: Global,
    keys: &KeyList,
    others: &KeyList,
    widths: (u8, u8),
) -> Result<(), Fail> {
    let wanted = plain_difference(alloc, keys, others, widths)?;
    let found = surf_difference(alloc, keys, others, widths)?;
    assert!(rt; found == wanted);
    Ok(())
}

// The keys but for the one of this number.
fn without(alloc: Global, keys: &KeyList, number: usize) -> Result<KeyList, Fail> {
    let mut fewer = KeyList::new(alloc);
    for n in 0..keys.len() {
        if n != number {
            fewer.push(keys.get(n))?;
        }
    }
    Ok(fewer)
}

// Two lists, one that is there twice, and one beside all of it but a key.
fn check_drawn(rt: &impl Abort, alloc: Global, seed: u64) -> Result<(), Fail> {
    let keys = drawn_list(alloc, seed, MAX_KEYS)?;
    let others = drawn_list(alloc, step(seed), MAX_KEYS)?;
    let widths = ((seed >> 16) % 33, (seed >> 24) % 33);
    let widths = (widths.0 as u8, widths.1 as u8);
    check_pair(rt, alloc, &keys, &others, widths)?;
    check_pair(rt, alloc, &keys, &keys, widths)?;
    let fewer = without(alloc, &keys, (seed >> 40) as usize % MAX_KEYS)?;
    if !fewer.is_empty() {
        check_pair(rt, alloc, &keys, &fewer, widths)?;
        check_pair(rt, alloc, &fewer, &keys, widths)?;
    }
    Ok(())
}

#[test]
fn random_lists_differ_as_plain_filters_say(rt: HostRuntime) -> Result<(), Fail> {
    let mut seed = 17;
    for _ in 0..PAIRS {
        seed = step(seed);
        check_drawn(&rt, rt.alloc(), seed)?;
    }
    Ok(())
}
