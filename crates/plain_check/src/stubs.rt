//! The leaves of keys.
use crate::block::Entry;
use crate::bytes::{alike, bit, part};
use crate::leaves::Leaf;
use byte_fields::fnv1a;
use std::alloc::{AllocError, Global};

// The longest beginning that key number `i` shares with another one.
fn shared_most(keys: &[Entry], i: usize, key: &[u8]) -> usize {
    let mut most = 0usize;
    for (number, other) in keys.iter().enumerate() {
        if number != i {
            most = most.max(alike(key, other.key.as_slice()));
        }
    }
    most
}

// The low bits of a number.
fn low_bits(number: u64, width: u8) -> u64 {
    number & 1u64.wrapping_shl(u32::from(width)).wrapping_sub(1)
}

// So many bits of a key from a byte on, the highest bit of each byte first.
fn bits_from(key: &[u8], from: u64, width: u8) -> u64 {
    let mut bits = 0u64;
    for i in 0..u64::from(width) {
        let place = (i / 8).saturating_mul(8).saturating_add(7 - i % 8);
        bits = bits.wrapping_mul(2) | u64::from(bit(key, from, place));
    }
    bits
}

// The leaf of key number `i`.
fn leaf_of(
    alloc: Global,
    keys: &[Entry],
    i: usize,
    key: &[u8],
    hash_bits: u8,
    real_bits: u8,
) -> Result<Leaf, AllocError> {
    let most = shared_most(keys, i, key);
    let ends = most == key.len();
    let length = most.saturating_add(1).min(key.len()) as u64;
    Ok(Leaf {
        stub: part(alloc, key, 0, length)?,
        ends,
        hash: low_bits(fnv1a(key), hash_bits),
        real: if ends {
            0
        } else {
            bits_from(key, length, real_bits)
        },
    })
}

/// The leaves of the keys of some entries, with so many bits of the hash and of the key.
pub(crate) fn leaves_of(
    alloc: Global,
    keys: &[Entry],
    hash_bits: u8,
    real_bits: u8,
) -> Result<Vec<Leaf>, AllocError> {
    let mut leaves = Vec::new(alloc);
    for (i, entry) in keys.iter().enumerate() {
        let key = entry.key.as_slice();
        leaves.push(leaf_of(alloc, keys, i, key, hash_bits, real_bits)?)?;
    }
    Ok(leaves)
}
