//! Stores of which a call fails.
use crate::stores::opened;
use disk_mem::MemDisk;
use std::alloc::Global;
use store_core::StoreError;
use test_kit::{disk_of, failing};

/// A disk that holds these bytes of a store, of which the call of this number behind the opening fails.
pub fn failing_behind(
    alloc: Global,
    bytes: &[u8],
    call: usize,
) -> Result<Box<MemDisk>, StoreError> {
    let mut disk = disk_of(alloc, bytes)?;
    opened(alloc, &mut disk)?;
    let fault = disk.calls().saturating_add(call) as u64;
    Ok(failing(alloc, bytes, fault)?)
}
