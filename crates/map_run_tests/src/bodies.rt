//! Devices with a map.
use disk_mem::MemDisk;
use std::alloc::{AllocError, Global};
use test_kit::disk_of;

/// A gate that is open, seven zeros, and the body of the keys a with 01 and ab with 02.
pub(crate) const A_AND_AB: [u8; 111] = [
    1, 0, 0, 0, 0, 0, 0, 0, 0x53, 0x55, 0x52, 0x4D, 1, 0, 0, 0, 2, 0, 0, 0, 0, 0, 0, 0, 0x2D, 0, 0,
    0, 0, 0, 0, 0, 0x53, 0x55, 0x52, 0x46, 1, 0, 0, 0, 0, 0, 2, 0, 2, 0, 0, 0, 0, 0, 0, 0, 0, 0, 0,
    0, 2, 0, 0, 0, 0, 0, 0, 0, 3, 0, 0, 0, 0, 0, 0, 0, 0x61, 0xFF, 0x62, 1, 3, 0, 0, 0, 0, 0, 0, 0,
    0, 1, 0, 0, 0, 0, 0, 0, 0, 2, 0, 0, 0, 0, 0, 0, 0, 1, 2, 0x50, 0xDF, 0x46, 0x2B, 0x53, 0xBD,
    0xE1, 7,
];

/// That device with some bytes changed, by their places in the body.
pub(crate) fn changed(alloc: Global, changes: &[(usize, u8)]) -> Result<Box<MemDisk>, AllocError> {
    let mut copy = Vec::from_slice(alloc, &A_AND_AB)?;
    for (place, byte) in changes {
        if let Some(own) = copy.get_mut(place.saturating_add(8)) {
            *own = *byte;
        }
    }
    disk_of(alloc, &copy)
}

/// The first bytes of that device.
pub(crate) fn cut(alloc: Global, bytes: usize) -> Result<Box<MemDisk>, AllocError> {
    let mut copy = Vec::from_slice(alloc, &A_AND_AB)?;
    copy.truncate(bytes);
    disk_of(alloc, &copy)
}
