//! Bounds of up to six bytes, at random and beside stubs.

use super::keys::step;
use key_base::KeyList;
use key_truncate::Stub;
use std::alloc::{AllocError, Global};

// Letters of keys, and those beside them.
const BYTES: [u8; 8] = [0x00, 0x01, 0x60, 0x61, 0x62, 0x63, 0xFE, 0xFF];

// Some bounds that look random, the empty one first.
fn some_bounds(alloc: Global, seed: u64, count: usize) -> Result<Vec<Vec<u8>>, AllocError> {
    let mut bounds = Vec::new(alloc);
    let mut seed = seed;
    bounds.push(Vec::new(alloc))?;
    for _ in 1..count {
        seed = step(seed);
        let length = (seed >> 40) as usize % 7;
        let mut bound = Vec::new(alloc);
        for _ in 0..length {
            seed = step(seed);
            bound.push(BYTES[(seed >> 50) as usize % 8])?;
        }
        bounds.push(bound)?;
    }
    Ok(bounds)
}

// Adds bytes of which the last one is raised.
fn push_bound(
    alloc: Global,
    bounds: &mut Vec<Vec<u8>>,
    bytes: &[u8],
    raised: u8,
) -> Result<(), AllocError> {
    let mut bound = Vec::from_slice(alloc, bytes)?;
    if let Some(last) = bound.as_mut_slice().last_mut() {
        *last = last.wrapping_add(raised);
    }
    bounds.push(bound)?;
    Ok(())
}

// Adds bytes with 00 behind them.
fn push_longer(alloc: Global, bounds: &mut Vec<Vec<u8>>, bytes: &[u8]) -> Result<(), AllocError> {
    let mut bound = Vec::from_slice(alloc, bytes)?;
    bound.push(0)?;
    bounds.push(bound)?;
    Ok(())
}

fn first_bytes(key: &[u8], len: usize) -> &[u8] {
    match key.get(..len) {
        Some(first) => first,
        None => key,
    }
}

// Adds a stub of so many bytes, what stands beside it, the whole key, and the key without its last letter.
fn push_near(
    alloc: Global,
    bounds: &mut Vec<Vec<u8>>,
    key: &[u8],
    len: usize,
) -> Result<(), AllocError> {
    let stub = first_bytes(key, len);
    push_bound(alloc, bounds, stub, 0)?;
    push_bound(alloc, bounds, stub, 1)?;
    push_bound(alloc, bounds, stub, 0xFF)?;
    push_longer(alloc, bounds, stub)?;
    push_bound(alloc, bounds, key, 0)?;
    push_bound(
        alloc,
        bounds,
        first_bytes(key, key.len().saturating_sub(1)),
        0,
    )
}

/// Bounds at random, and those beside the stub of one of the keys.
pub(crate) fn bounds_near(
    alloc: Global,
    seed: u64,
    count: usize,
    keys: &KeyList,
    stubs: &[Stub],
) -> Result<Vec<Vec<u8>>, AllocError> {
    let mut bounds = some_bounds(alloc, seed, count)?;
    let n = (seed >> 20) as usize % keys.len().max(1);
    if n < keys.len() && n < stubs.len() {
        push_near(alloc, &mut bounds, keys.get(n), usize::from(stubs[n].len))?;
    }
    Ok(bounds)
}
