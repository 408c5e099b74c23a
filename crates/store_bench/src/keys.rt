//! The keys of a store, and those that it is asked for. A key is the eight bytes of a number, highest first.
use crate::floors::admitting;
use crate::load::Load;
use bench_kit::Numbers;
use filter_api::RangeFilter;
use std::alloc::{AllocError, Global};

// How wide a range is that is asked for.
const WIDTH: u64 = 1 << 32;

/// Two bounds, and the place of the table that has the lower one, where it is a key: the newest table has 0.
#[derive(Clone, Copy)]
pub struct Query {
    pub low: u64,
    pub high: u64,
    pub place: Option<usize>,
}

/// The keys of a load, in the order in which they are drawn.
pub fn draw_in_turn(alloc: Global, load: &Load) -> Result<Vec<u64>, AllocError> {
    let mut numbers = Numbers::new(load.seed);
    let mut keys = Vec::with_capacity(alloc, load.pairs)?;
    for _ in 0..load.pairs {
        keys.push(numbers.draw())?;
    }
    Ok(keys)
}

/// The keys of a load, rising. The one at place `i` goes into the table number `i` mod the tables, from the oldest.
pub fn draw_keys(alloc: Global, load: &Load) -> Result<Vec<u64>, AllocError> {
    let mut keys = draw_in_turn(alloc, load)?;
    keys.sort_unstable();
    Ok(keys)
}

/// So many random keys that are there, each with a range from it on.
pub fn queries_there(alloc: Global, load: &Load, keys: &[u64]) -> Result<Vec<Query>, AllocError> {
    let mut numbers = Numbers::new(load.seed ^ 1);
    let mut queries = Vec::with_capacity(alloc, load.calls)?;
    for _ in 0..load.calls {
        let i = (numbers.draw() >> 32) as usize % keys.len().max(1);
        let low = keys.get(i).copied().unwrap_or(0);
        queries.push(Query {
            low,
            high: low.saturating_add(WIDTH),
            place: Some(load.tables.saturating_sub(1) - i % load.tables.max(1)),
        })?;
    }
    Ok(queries)
}

/// As many random ranges without a key.
pub fn queries_elsewhere(
    alloc: Global,
    load: &Load,
    keys: &[u64],
) -> Result<Vec<Query>, AllocError> {
    let mut numbers = Numbers::new(load.seed ^ 2);
    let mut queries = Vec::with_capacity(alloc, load.calls)?;
    for _ in 0..load.calls {
        let low = numbers.draw();
        let high = low.saturating_add(WIDTH);
        if !has_between(keys, low, high) {
            let place = None;
            queries.push(Query { low, high, place })?;
        }
    }
    Ok(queries)
}

// Whether one of the keys lies between two numbers, both included.
fn has_between(keys: &[u64], low: u64, high: u64) -> bool {
    let first = keys.partition_point(|key| *key < low);
    match keys.get(first) {
        Some(key) => *key <= high,
        None => false,
    }
}

/// Those of the queries whose range no filter admits.
pub fn denied<F: RangeFilter>(
    alloc: Global,
    filters: &[F],
    queries: &[Query],
) -> Result<Vec<Query>, AllocError> {
    let mut kept = Vec::new(alloc);
    for query in queries {
        if admitting(filters, *query) == 0 {
            kept.push(*query)?;
        }
    }
    Ok(kept)
}
