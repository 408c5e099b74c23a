//! Scans of a store, in boxes as their stores are.
use crate::stores::PlainStore;
use plain_filter::PlainFilter;
use std::alloc::Global;
use store_core::{Scan, StoreError};
use test_kit::boxed;

/// A scan of a store with the plain filter.
pub type PlainScan<'s> = Scan<'s, PlainFilter>;

/// A seek from `low` on, below `high` where there is one.
pub fn seek_of<'s>(
    alloc: Global,
    store: &'s PlainStore,
    low: &[u8],
    high: Option<&[u8]>,
) -> Result<Box<PlainScan<'s>>, StoreError> {
    Ok(boxed(alloc, store.seek(low, high)?)?)
}

/// A range from `low` to `high` of `most` pairs at most.
pub fn range_of<'s>(
    alloc: Global,
    store: &'s PlainStore,
    low: &[u8],
    high: &[u8],
    most: u64,
) -> Result<Box<PlainScan<'s>>, StoreError> {
    Ok(boxed(alloc, store.range(low, high, most)?)?)
}
