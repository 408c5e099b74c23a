//! Random maps, written, read again and asked, against a plain map.

use super::bodies::read;
use super::building::finished;
use super::cursors::start;
use fst_map::{FstBuilder, FstMap};
use key_base::compare;
use plain_map::PlainMap;
use std::alloc::{AllocError, Global};
use std::process::Abort;
use std::test::Fail;
use test_kit::{Numbers, boxed};

// How many maps are drawn.
const MAPS: u64 = 2_000;

// How many keys a map has at most.
const MAX_KEYS: usize = 12;

// How many letters a key has at most.
const MAX_LETTERS: usize = 6;

// The ratio of a map: of three in turn.
fn ratio_of(seed: u64) -> u16 {
    match seed % 3 {
        0 => 0,
        1 => 64,
        _ => 65_535,
    }
}

// A string of few letters, so that many begin alike and one goes on from another.
fn drawn(alloc: Global, numbers: &mut Numbers, least: usize) -> Result<Vec<u8>, AllocError> {
    let mut string = Vec::new(alloc);
    for _ in 0..numbers.draw_below(MAX_LETTERS as u64).max(least) {
        let byte = match numbers.draw_below(4) {
            0 => 0,
            1 => b'a',
            2 => b'b',
            _ => 0xFF,
        };
        string.push(byte)?;
    }
    Ok(string)
}

// A map of a key or more.
fn drawn_map(alloc: Global, numbers: &mut Numbers) -> Result<Box<PlainMap>, Fail> {
    let mut map = boxed(alloc, PlainMap::new(alloc))?;
    for _ in 0..numbers.draw_below(MAX_KEYS as u64).max(1) {
        let key = drawn(alloc, numbers, 1)?;
        let value = drawn(alloc, numbers, 0)?;
        map.put(key.as_slice(), value.as_slice())?;
    }
    Ok(map)
}

// The keys, what comes before and behind each, and some strings.
fn bounds(alloc: Global, numbers: &mut Numbers, map: &PlainMap) -> Result<Vec<Vec<u8>>, Fail> {
    let mut bounds = Vec::new(alloc);
    for pair in map.pairs() {
        let key = pair.key();
        let mut behind = Vec::from_slice(alloc, key)?;
        behind.push(0)?;
        bounds.push(behind)?;
        bounds.push(Vec::from_slice(alloc, key)?)?;
        bounds.push(Vec::from_slice(alloc, &key[..key.len().saturating_sub(1)])?)?;
    }
    for _ in 0..6 {
        bounds.push(drawn(alloc, numbers, 0)?)?;
    }
    Ok(bounds)
}

fn check_counts(
    rt: &impl Abort,
    map: &FstMap<'_, Global>,
    plain: &PlainMap,
    lo: &[u8],
    bounds: &[Vec<u8>],
) {
    for hi in bounds {
        if !compare(hi.as_slice(), lo).is_lt() {
            assert!(rt;
                map.count(lo, hi.as_slice()) as usize == plain.count(lo, Some(hi.as_slice()))
            );
        }
    }
}

// From the first key that is not below a bound to both ends.
fn check_walk(
    rt: &impl Abort,
    alloc: Global,
    map: &FstMap<'_, Global>,
    plain: &PlainMap,
    lo: &[u8],
) -> Result<(), AllocError> {
    let pairs = plain.pairs();
    let from = pairs.len().saturating_sub(plain.count(lo, None));
    let Some(mut cursor) = start(&alloc, map, lo)? else {
        assert!(rt; from == pairs.len());
        return Ok(());
    };
    for number in from..pairs.len() {
        assert!(rt; cursor.key() == pairs[number].key() && cursor.value() == pairs[number].value());
        assert!(rt; cursor.next() == (number + 1 < pairs.len()));
    }
    for number in (0..pairs.len()).rev() {
        assert!(rt; cursor.key() == pairs[number].key() && cursor.value() == pairs[number].value());
        assert!(rt; cursor.prev() == (number > 0));
    }
    Ok(())
}

fn check_map(
    rt: &impl Abort,
    alloc: Global,
    map: &FstMap<'_, Global>,
    plain: &PlainMap,
    bounds: &[Vec<u8>],
) -> Result<(), AllocError> {
    assert!(rt; map.len() as usize == plain.len());
    for bound in bounds {
        let lo = bound.as_slice();
        assert!(rt; map.get(lo) == plain.get(lo));
        check_counts(rt, map, plain, lo, bounds);
        check_walk(rt, alloc, map, plain, lo)?;
    }
    Ok(())
}

fn builder_of(alloc: Global, plain: &PlainMap) -> Result<Box<FstBuilder>, Fail> {
    let mut builder = boxed(alloc, FstBuilder::new(alloc))?;
    for pair in plain.pairs() {
        builder.add(pair.key(), pair.value())?;
    }
    Ok(builder)
}

fn check_drawn(rt: &impl Abort, alloc: Global, seed: u64) -> Result<(), Fail> {
    let mut numbers = Numbers::new(seed);
    let plain = drawn_map(alloc, &mut numbers)?;
    let bounds = bounds(alloc, &mut numbers, &plain)?;
    let builder = builder_of(alloc, &plain)?;
    let body = finished(alloc, &builder, ratio_of(seed))?;
    let map = read(alloc, body.as_slice())?;
    check_map(rt, alloc, &map, &plain, bounds.as_slice())?;
    Ok(())
}

#[test]
fn random_maps_answer_as_a_plain_map(rt: HostRuntime) -> Result<(), Fail> {
    for seed in 0..MAPS {
        check_drawn(&rt, rt.alloc(), seed)?;
    }
    Ok(())
}
