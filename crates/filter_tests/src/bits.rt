//! Bytes and bits of an image. Behind its end all are zero.

/// The byte at a place.
pub(crate) fn byte_at(bytes: &[u8], place: u64) -> u8 {
    match bytes.get(place as usize) {
        Some(byte) => *byte,
        None => 0,
    }
}

/// The number that `count` bytes spell, the lowest byte first.
pub(crate) fn number_at(bytes: &[u8], place: u64, count: u64) -> u64 {
    let mut number = 0u64;
    for i in 0..count {
        let byte = byte_at(bytes, place.wrapping_add(count - 1 - i));
        number = number.wrapping_mul(256).wrapping_add(u64::from(byte));
    }
    number
}

/// Bit `i` of the section that begins at a place.
pub(crate) fn is_set(bytes: &[u8], place: u64, i: u64) -> bool {
    byte_at(bytes, place.wrapping_add(i / 8)) >> (i % 8) & 1 == 1
}
