//! Different keys in an order.
use anyhow::{Result, bail};
use bench_kit::Numbers;
use std::alloc::{AllocError, Global};

/// The numbers below `count`, in an order.
pub fn numbers(alloc: Global, order: &str, count: usize, seed: u64) -> Result<Vec<u64>> {
    let mut numbers = Vec::with_capacity(alloc, count)?;
    for i in 0..count {
        numbers.push(i as u64)?;
    }
    match order {
        "rising" => {}
        "falling" => numbers.reverse(),
        "random" => shuffle(&mut numbers, seed),
        "inward" => fold_inward(&mut numbers),
        _ => bail!("no such order"),
    }
    Ok(numbers)
}

// Each number changes places with one before it or stays.
fn shuffle(numbers: &mut Vec<u64>, seed: u64) {
    let mut draws = Numbers::new(seed);
    for i in 0..numbers.len() {
        let other = draws.draw_below(i as u64 + 1).min(i);
        numbers.swap(i, other);
    }
}

// The least, the greatest, the next of each: each number comes between those before it.
fn fold_inward(numbers: &mut Vec<u64>) {
    let last = numbers.len() as u64;
    for i in 0..numbers.len() {
        let half = i as u64 / 2;
        numbers[i] = if i % 2 == 0 {
            half
        } else {
            last.saturating_sub(1).saturating_sub(half)
        };
    }
}

/// Makes `key` the last `width` bytes of a number, highest first.
pub fn write_key(number: u64, key: &mut Vec<u8>, width: usize) -> Result<(), AllocError> {
    let bytes = number.to_be_bytes();
    key.clear();
    for _ in bytes.len()..width {
        key.push(0)?;
    }
    key.extend_from_slice(&bytes[bytes.len().saturating_sub(width)..])
}
