//! Images with one byte changed: what is read of them, or their fault, is as a slow judge says.

use super::codec::{fault_of, image_of};
use super::images::set_byte;
use super::judge::{Kind, judge};
use super::keys::{drawn_list, step};
use super::tries::drawn_trie;
use filter_trie::Trie;
use key_base::KeyList;
use std::alloc::{AllocError, Global};
use std::process::Abort;
use std::test::Fail;

// How many sets of keys are drawn; none of them is empty.
const SETS: u64 = 200;

// How many keys a set has at most.
const MAX_KEYS: usize = 6;

// How many values each byte is changed to.
const VALUES: u64 = 8;

// How many levels are dense, where a trie has so many: mostly none, since a dense node is long.
fn dense_levels(seed: u64) -> u16 {
    match (seed >> 35) % 8 {
        0 | 1 => 1,
        2 => 2,
        _ => 0,
    }
}

// What is read of bytes, or why they are refused, is as the judge says.
fn check_bytes(rt: &impl Abort, alloc: Global, bytes: &[u8]) -> Result<(), AllocError> {
    let found = fault_of(rt, alloc, Kind::Filters, bytes)?;
    let wanted = judge(alloc, bytes, Kind::Filters)?;
    assert!(rt; found == wanted);
    Ok(())
}

fn check_byte(
    rt: &impl Abort,
    alloc: Global,
    image: &[u8],
    at: usize,
    seed: u64,
) -> Result<(), AllocError> {
    let mut seed = seed;
    let mut bytes = Vec::from_slice(alloc, image)?;
    for _ in 0..VALUES {
        seed = step(seed);
        set_byte(bytes.as_mut_slice(), at, (seed >> 56) as u8);
        check_bytes(rt, alloc, bytes.as_slice())?;
    }
    Ok(())
}

fn check_image(rt: &impl Abort, alloc: Global, image: &[u8], seed: u64) -> Result<(), AllocError> {
    check_bytes(rt, alloc, image)?;
    for at in 0..image.len() {
        check_byte(rt, alloc, image, at, seed ^ step(at as u64))?;
    }
    Ok(())
}

fn check_trie(rt: &impl Abort, alloc: Global, trie: &Trie<Global>, seed: u64) -> Result<(), Fail> {
    let image = image_of(alloc, trie)?;
    check_image(rt, alloc, image.as_slice(), seed)?;
    Ok(())
}

fn check_keys(rt: &impl Abort, alloc: Global, keys: &KeyList, seed: u64) -> Result<(), Fail> {
    match drawn_trie(alloc, keys, seed, dense_levels(seed))? {
        Some(trie) => check_trie(rt, alloc, &trie, seed),
        None => Ok(()),
    }
}

fn check_set(rt: &impl Abort, alloc: Global, seed: u64) -> Result<(), Fail> {
    let keys = drawn_list(alloc, seed, MAX_KEYS)?;
    check_keys(rt, alloc, &keys, seed)
}

#[test]
fn changed_images_are_as_a_slow_judge_says(rt: HostRuntime) -> Result<(), Fail> {
    let mut seed = 23;
    for _ in 0..SETS {
        seed = step(seed);
        check_set(&rt, rt.alloc(), seed)?;
    }
    Ok(())
}
