//! Lines and parts of devices that tests of several crates begin with.
use crate::runs::{base_disk, left_behind};
use disk_mem::MemDisk;
use std::alloc::{AllocError, Global};
use std::test::Fail;

/// The sum of the manifest's body with the epoch 2^64 - 1, least byte first.
pub const LAST_EPOCH_SUM: [u8; 8] = [0x3d, 0xc3, 0x25, 0x2c, 0x11, 0xb4, 0xbf, 0x37];

/// Whether these bytes stand at a place.
pub fn stands(disk: &MemDisk, place: usize, bytes: &[u8]) -> bool {
    disk.bytes().get(place..).unwrap_or(b"").starts_with(bytes)
}

/// The line of a put of one key, with a value of 3,000 bytes: no block holds two of them.
pub fn push_large(lines: &mut Vec<u8>, key: &[u8]) -> Result<(), AllocError> {
    lines.extend_from_slice(b"put ")?;
    lines.extend_from_slice(key)?;
    lines.push(b' ')?;
    for _ in 0..3_000 {
        lines.extend_from_slice(b"78")?;
    }
    lines.push(b'\n')?;
    Ok(())
}

// Four tables of a pair each, all of level 0.
const FOUR_TABLES: &[u8] =
    b"put 61 01\nflush\nput 62 02\nflush\nput 63 03\nflush\nput 64 04\nflush\n";

/// A disk of a store with four tables of a pair each, which the next merge slice makes one.
pub fn four_tables(alloc: Global) -> Result<Box<MemDisk>, Fail> {
    left_behind(alloc, base_disk(alloc)?, FOUR_TABLES)
}
