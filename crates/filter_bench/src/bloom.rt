//! A Bloom filter.
use bench_kit::boxed;
use key_base::KeyList;
use std::alloc::{AllocError, Global};

// How many bits a key has.
const KEY_BITS: usize = 10;

// How many of the bits a key sets.
const PLACES: u64 = 7;

// The lower half of a word.
const HALF: u64 = 0xFFFF_FFFF;

/// Ten bits a key in one array, of which each key sets seven.
#[derive(Drop)]
pub struct Bloom {
    words: Vec<u64>,
    count: u64,
}

impl Bloom {
    /// The filter of these keys.
    pub fn new(alloc: Global, keys: &KeyList) -> Result<Box<Bloom>, AllocError> {
        let count = keys.len().saturating_mul(KEY_BITS);
        let mut words = vec![in alloc; 0u64; count.div_ceil(64)]?;
        let count = count as u64;
        add_all(words.as_mut_slice(), count, keys);
        boxed(alloc, Bloom { words, count })
    }

    /// Whether the key may be one of those.
    #[inline]
    pub fn may_hold(&self, key: &[u8]) -> bool {
        let hash = hash_of(key);
        for i in 0..PLACES {
            if !is_set(self.words.as_slice(), place_of(hash, i, self.count)) {
                return false;
            }
        }
        true
    }

    /// The bits that it keeps.
    pub fn bits(&self) -> usize {
        self.words.len().saturating_mul(64)
    }
}

fn add_all(words: &mut [u64], count: u64, keys: &KeyList) {
    for i in 0..keys.len() {
        add(words, count, hash_of(keys.get(i)));
    }
}

// Sets the bits of a hash.
fn add(words: &mut [u64], count: u64, hash: u64) {
    for i in 0..PLACES {
        set(words, place_of(hash, i, count));
    }
}

fn set(words: &mut [u64], place: u64) {
    if let Some(word) = words.get_mut((place / 64) as usize) {
        *word |= 1 << (place % 64);
    }
}

#[inline]
fn is_set(words: &[u64], place: u64) -> bool {
    match words.get((place / 64) as usize) {
        Some(word) => word >> (place % 64) & 1 == 1,
        None => false,
    }
}

// FNV-1a of 64 bits, mixed once more: its high bits tell little of a key's last bytes.
#[inline]
fn hash_of(key: &[u8]) -> u64 {
    let mut hash = 0xcbf29ce484222325u64;
    for byte in key {
        hash = (hash ^ u64::from(*byte)).wrapping_mul(0x100000001b3);
    }
    (hash ^ (hash >> 32)).wrapping_mul(0x9E3779B97F4A7C15)
}

// The place number `i` of a hash among `count`, fewer than 2^32: one half of the hash and `i` times the other, as a part of
// 2^32, so that nothing is divided.
#[inline]
fn place_of(hash: u64, i: u64, count: u64) -> u64 {
    let step = hash >> 32 | 1;
    let part = (hash & HALF).wrapping_add(step.wrapping_mul(i)) & HALF;
    part.wrapping_mul(count) >> 32
}
