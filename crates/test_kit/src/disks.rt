//! Disks in memory, the calls of theirs that fail, and what a crash leaves of them. Each function fails where there is no
//! memory, and only there.
use crate::boxes::boxed;
use disk_mem::{Choice, MemDisk};
use std::alloc::{AllocError, Global};

/// What a crash leaves of the writes that no sync followed.
#[derive(Clone, Copy)]
pub enum Left {
    /// All their bytes.
    Whole,
    /// None of their bytes.
    Lost,
    /// 07 in the place of each byte that they change.
    Sevens,
}

/// A new disk, of no bytes.
pub fn new_disk(alloc: Global) -> Result<Box<MemDisk>, AllocError> {
    disk_of(alloc, b"")
}

/// A new disk on which the call of this number fails, counted from 0.
pub fn failing_disk(alloc: Global, call: u64) -> Result<Box<MemDisk>, AllocError> {
    failing(alloc, b"", call)
}

/// A disk that holds these bytes.
pub fn disk_of(alloc: Global, bytes: &[u8]) -> Result<Box<MemDisk>, AllocError> {
    boxed(alloc, MemDisk::new(alloc, bytes)?)
}

/// A disk that holds these bytes, on which the call of this number fails, counted from 0.
pub fn failing(alloc: Global, bytes: &[u8], call: u64) -> Result<Box<MemDisk>, AllocError> {
    let faults = Vec::from_slice(alloc, &[call])?;
    boxed(alloc, MemDisk::new(alloc, bytes)?.with_faults(faults))
}

/// The disk that a crash leaves, by a choice for each write that no sync followed: none means that it is lost.
pub fn crashed(
    alloc: Global,
    disk: &MemDisk,
    choice: &[Choice],
) -> Result<Box<MemDisk>, AllocError> {
    boxed(alloc, disk.crash(choice)?)
}

// The first bytes with 07 in the place of each that is another in the second ones.
fn with_sevens(alloc: Global, whole: &[u8], lost: &[u8]) -> Result<Box<MemDisk>, AllocError> {
    let mut bytes = Vec::from_slice(alloc, whole)?;
    for (place, byte) in bytes.iter_mut().enumerate() {
        if lost.get(place).copied().unwrap_or(0) != *byte {
            *byte = 7;
        }
    }
    disk_of(alloc, &bytes)
}

/// The disk as a crash leaves it, where at most three writes wait for a sync.
pub fn left_by(alloc: Global, disk: &MemDisk, left: Left) -> Result<Box<MemDisk>, AllocError> {
    let lost = crashed(alloc, disk, &[])?;
    let whole = crashed(alloc, disk, &[Choice::Whole, Choice::Whole, Choice::Whole])?;
    match left {
        Left::Whole => Ok(whole),
        Left::Lost => Ok(lost),
        Left::Sevens => with_sevens(alloc, whole.bytes(), lost.bytes()),
    }
}
