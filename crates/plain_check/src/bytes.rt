//! Numbers and parts of bytes, the lowest byte first. Bytes past the end are zero.
use std::alloc::{AllocError, Global};

/// The byte at a place.
pub(crate) fn byte(bytes: &[u8], at: u64) -> u8 {
    bytes.get(at as usize).copied().unwrap_or(0)
}

/// The number of two bytes.
pub(crate) fn two(bytes: &[u8], at: u64) -> u16 {
    u16::from_le_bytes([byte(bytes, at), byte(bytes, at.saturating_add(1))])
}

/// The number of four bytes.
pub(crate) fn four(bytes: &[u8], at: u64) -> u32 {
    let high = u32::from(two(bytes, at.saturating_add(2)));
    high << 16 | u32::from(two(bytes, at))
}

/// The number of eight bytes.
pub(crate) fn eight(bytes: &[u8], at: u64) -> u64 {
    let high = u64::from(four(bytes, at.saturating_add(4)));
    high << 32 | u64::from(four(bytes, at))
}

/// The bit at a place: bit `i mod 8` of byte `i / 8`, the lowest first.
pub(crate) fn bit(bytes: &[u8], section: u64, i: u64) -> bool {
    byte(bytes, section.saturating_add(i / 8)) >> (i % 8) & 1 == 1
}

/// So many bytes from a place on.
pub(crate) fn part(
    alloc: Global,
    bytes: &[u8],
    at: u64,
    length: u64,
) -> Result<Vec<u8>, AllocError> {
    let mut part = Vec::new(alloc);
    for i in 0..length {
        part.push(byte(bytes, at.saturating_add(i)))?;
    }
    Ok(part)
}

/// The first place from `from` to `to` at which a byte is not zero.
pub(crate) fn first_filled(bytes: &[u8], from: u64, to: u64) -> Option<u64> {
    for at in from..to {
        if byte(bytes, at) != 0 {
            return Some(at);
        }
    }
    None
}

/// The pages that so many bytes take.
pub(crate) fn pages_for(length: u64) -> u64 {
    length / 4_096 + u64::from(length % 4_096 != 0)
}

/// The bytes that so many bits take.
pub(crate) fn bytes_for(bits: u64) -> u64 {
    bits / 8 + u64::from(bits % 8 != 0)
}

/// The first byte of a page.
pub(crate) fn byte_of_page(page: u64) -> u64 {
    page.saturating_mul(4_096)
}

/// Whether a byte string comes before another: at the first byte in which they differ, or as its beginning.
pub(crate) fn comes_before(one: &[u8], other: &[u8]) -> bool {
    for (place, byte) in one.iter().enumerate() {
        match other.get(place) {
            Some(beside) if beside == byte => {}
            Some(beside) => return byte < beside,
            None => return false,
        }
    }
    one.len() < other.len()
}

/// How many bytes the two begin with alike.
pub(crate) fn alike(one: &[u8], other: &[u8]) -> usize {
    for (place, byte) in one.iter().enumerate() {
        if other.get(place) != Some(byte) {
            return place;
        }
    }
    one.len()
}
