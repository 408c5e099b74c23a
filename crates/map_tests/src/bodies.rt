//! Bodies, and the map that bytes spell.

use fst_map::{FstError, FstMap};
use std::alloc::{AllocError, Global};
use test_kit::boxed;

/// The keys a with 01 and ab with 02.
pub(crate) const A_AND_AB: [u8; 103] = [
    0x53, 0x55, 0x52, 0x4D, 1, 0, 0, 0, 2, 0, 0, 0, 0, 0, 0, 0, 0x2D, 0, 0, 0, 0, 0, 0, 0, 0x53,
    0x55, 0x52, 0x46, 1, 0, 0, 0, 0, 0, 2, 0, 2, 0, 0, 0, 0, 0, 0, 0, 0, 0, 0, 0, 2, 0, 0, 0, 0, 0,
    0, 0, 3, 0, 0, 0, 0, 0, 0, 0, 0x61, 0xFF, 0x62, 1, 3, 0, 0, 0, 0, 0, 0, 0, 0, 1, 0, 0, 0, 0, 0,
    0, 0, 2, 0, 0, 0, 0, 0, 0, 0, 1, 2, 0x50, 0xDF, 0x46, 0x2B, 0x53, 0xBD, 0xE1, 7,
];

/// The key zebra alone, with no byte.
pub(crate) const ZEBRA: [u8; 95] = [
    0x53, 0x55, 0x52, 0x4D, 1, 0, 0, 0, 1, 0, 0, 0, 0, 0, 0, 0, 0x2F, 0, 0, 0, 0, 0, 0, 0, 0x53,
    0x55, 0x52, 0x46, 1, 0, 0, 0, 0, 0, 5, 0, 1, 0, 0, 0, 0, 0, 0, 0, 0, 0, 0, 0, 5, 0, 0, 0, 0, 0,
    0, 0, 5, 0, 0, 0, 0, 0, 0, 0, 0x7A, 0x65, 0x62, 0x72, 0x61, 0x0F, 0x1F, 0, 0, 0, 0, 0, 0, 0, 0,
    0, 0, 0, 0, 0, 0, 0, 0, 0xB0, 0x82, 0x99, 0x8D, 0x28, 0x38, 0x2D, 0x0C,
];

/// Three keys with the image of two leaves, all else right.
pub(crate) const THREE_OF_TWO: [u8; 111] = [
    0x53, 0x55, 0x52, 0x4D, 1, 0, 0, 0, 3, 0, 0, 0, 0, 0, 0, 0, 0x2D, 0, 0, 0, 0, 0, 0, 0, 0x53,
    0x55, 0x52, 0x46, 1, 0, 0, 0, 0, 0, 2, 0, 2, 0, 0, 0, 0, 0, 0, 0, 0, 0, 0, 0, 2, 0, 0, 0, 0, 0,
    0, 0, 3, 0, 0, 0, 0, 0, 0, 0, 0x61, 0xFF, 0x62, 1, 3, 0, 0, 0, 0, 0, 0, 0, 0, 1, 0, 0, 0, 0, 0,
    0, 0, 2, 0, 0, 0, 0, 0, 0, 0, 2, 0, 0, 0, 0, 0, 0, 0, 1, 2, 0x59, 0x56, 0x8E, 0x12, 0x6A, 0x4C,
    0x54, 0xD2,
];

/// The keys a, ab, abcd, b FF, c and c 00.
pub(crate) const SIX: [u8; 149] = [
    0x53, 0x55, 0x52, 0x4D, 1, 0, 0, 0, 6, 0, 0, 0, 0, 0, 0, 0, 0x37, 0, 0, 0, 0, 0, 0, 0, 0x53,
    0x55, 0x52, 0x46, 1, 0, 0, 0, 0, 0, 4, 0, 6, 0, 0, 0, 0, 0, 0, 0, 0, 0, 0, 0, 6, 0, 0, 0, 0, 0,
    0, 0, 0x0B, 0, 0, 0, 0, 0, 0, 0, 0x61, 0x62, 0x63, 0xFF, 0x62, 0xFF, 0xFF, 0, 0xFF, 0x63, 0x64,
    0x17, 2, 0x69, 5, 0, 0, 0, 0, 0, 0, 0, 0, 1, 0, 0, 0, 0, 0, 0, 0, 2, 0, 0, 0, 0, 0, 0, 0, 3, 0,
    0, 0, 0, 0, 0, 0, 4, 0, 0, 0, 0, 0, 0, 0, 6, 0, 0, 0, 0, 0, 0, 0, 6, 0, 0, 0, 0, 0, 0, 0, 1, 4,
    5, 6, 2, 2, 0xA6, 0x0E, 0xE3, 0x89, 0x0B, 0x37, 0x46, 0x22,
];

/// Its pairs.
pub(crate) const SIX_PAIRS: [(&[u8], &[u8]); 6] = [
    (b"a", &[1]),
    (b"ab", &[2, 2]),
    (b"abcd", &[]),
    (b"b\xFF", &[4]),
    (b"c", &[5]),
    (b"c\x00", &[6]),
];

/// The map that the bytes spell.
pub(crate) fn read(alloc: Global, bytes: &[u8]) -> Result<Box<FstMap<'_, Global>>, FstError> {
    let map = FstMap::read(alloc, bytes)?;
    Ok(boxed(alloc, map)?)
}

/// Bytes with some of them changed.
pub(crate) fn changed(
    alloc: Global,
    bytes: &[u8],
    changes: &[(usize, u8)],
) -> Result<Vec<u8>, AllocError> {
    let mut copy = Vec::from_slice(alloc, bytes)?;
    for (place, byte) in changes {
        if *place < copy.len() {
            copy[*place] = *byte;
        }
    }
    Ok(copy)
}
