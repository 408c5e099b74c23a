//! Disks and tables in boxes.
use mem_table::MemTable;
use std::alloc::{AllocError, Global};
pub use test_kit::{boxed, failing_disk, new_disk};

/// A new memory table.
pub fn new_table(alloc: Global) -> Result<Box<MemTable>, AllocError> {
    boxed(alloc, MemTable::new(alloc))
}
