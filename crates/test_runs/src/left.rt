//! What a crash leaves of the writes that no sync followed, all of them alike.
use crate::runs::{lost, written};
use disk_mem::MemDisk;
use std::alloc::{AllocError, Global};
use test_kit::disk_of;

// The first and the last place where two lists of bytes differ, the last one behind its byte.
fn differing(whole: &[u8], lost: &[u8]) -> (usize, usize) {
    let mut first = whole.len();
    let mut last = 0;
    for (place, byte) in whole.iter().enumerate() {
        if lost.get(place).copied().unwrap_or(0) != *byte {
            first = first.min(place);
            last = place.saturating_add(1);
        }
    }
    (first, last)
}

// Some bytes, of which those between two places are 07.
fn with_sevens(
    alloc: Global,
    bytes: &[u8],
    from: usize,
    to: usize,
) -> Result<Box<MemDisk>, AllocError> {
    let mut bytes = Vec::from_slice(alloc, bytes)?;
    for place in from..to {
        if let Some(byte) = bytes.get_mut(place) {
            *byte = 7;
        }
    }
    disk_of(alloc, &bytes)
}

/// What a crash leaves of the writes that no sync followed.
#[derive(Clone, Copy)]
pub enum Left {
    Whole,
    Lost,
    Half,
    Sevens,
}

/// The disk as a crash leaves it. Half of a write is its first bytes, and 07 behind them.
pub fn left_by(alloc: Global, disk: &MemDisk, left: Left) -> Result<Box<MemDisk>, AllocError> {
    let lost = lost(alloc, disk)?;
    let whole = written(alloc, disk)?;
    let (first, last) = differing(whole.bytes(), lost.bytes());
    match left {
        Left::Whole => Ok(whole),
        Left::Lost => Ok(lost),
        Left::Half => {
            let middle = first.saturating_add(last.saturating_sub(first) / 2);
            with_sevens(alloc, whole.bytes(), middle, last)
        }
        Left::Sevens => with_sevens(alloc, whole.bytes(), first, last),
    }
}
