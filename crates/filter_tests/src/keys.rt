//! Sets of short keys over a few letters.

ghost use Rattle.std.specs.Prelude.{◌<◌};

use key_base::KeyList;
use std::alloc::{AllocError, Global};

// The letters of most keys: the least and the greatest byte are among them.
const LETTERS: [u8; 4] = [0x00, 0x61, 0x62, 0xFF];

/// How many letters a key has at most.
pub(crate) const MAX_LETTERS: usize = 4;

/// Keys in rising order.
#[derive(Drop)]
pub(crate) struct Keys {
    pub(crate) items: Vec<Vec<u8>>,
}

/// The next number of a sequence that looks random.
pub(crate) fn step(seed: u64) -> u64 {
    seed.wrapping_mul(6364136223846793005)
        .wrapping_add(1442695040888963407)
}

// The digits of `number` to the base `base`, `MAX_LETTERS` of them, the highest first.
fn digits(number: u64, base: u64) -> [u64; MAX_LETTERS]
    requires { 0 < base }
{
    let first = number / base;
    let second = first / base;
    let third = second / base;
    [third % base, second % base, first % base, number % base]
}

// The key that the digits spell, from 1 on a letter each and 0 behind its end, or `None` where a letter stands behind a 0.
fn key_of(alloc: Global, digits: &[u64], letters: &[u8]) -> Result<Option<Vec<u8>>, AllocError> {
    let mut key = Vec::new(alloc);
    let mut ended = false;
    for digit in digits {
        if *digit == 0 {
            ended = true;
        } else if ended {
            return Ok(None);
        } else if let Some(letter) = letters.get(*digit as usize - 1) {
            key.push(*letter)?;
        }
    }
    Ok(Some(key))
}

// How many numbers have `MAX_LETTERS` digits, one more than there are letters: those of four letters, of three, of two.
fn numbers(letters: &[u8]) -> u64 {
    match letters.len() {
        4 => 625,
        3 => 256,
        _ => 81,
    }
}

/// Some of the keys over two to four letters, at most `limit`, each with a chance of one in `sparseness`.
pub(crate) fn some_keys(
    alloc: Global,
    letters: &[u8],
    seed: u64,
    sparseness: u64,
    limit: usize,
) -> Result<Keys, AllocError>
    requires { 0 < sparseness }
{
    let mut items = Vec::new(alloc);
    let base = (letters.len() as u64).saturating_add(1);
    let mut seed = seed;
    for number in 1..numbers(letters) {
        seed = step(seed);
        if (seed >> 33) % sparseness == 0 && items.len() < limit {
            if let Some(key) = key_of(alloc, &digits(number, base), letters)? {
                items.push(key)?;
            }
        }
    }
    Ok(Keys { items })
}

/// The same keys as a list.
pub(crate) fn list_of(alloc: Global, keys: &Keys) -> Result<KeyList, AllocError> {
    let mut list = KeyList::new(alloc);
    for key in &keys.items {
        list.push(key.as_slice())?;
    }
    Ok(list)
}

/// The keys of these words.
pub(crate) fn list_of_words(alloc: Global, words: &[&[u8]]) -> Result<KeyList, AllocError> {
    let mut keys = KeyList::new(alloc);
    for word in words {
        keys.push(word)?;
    }
    Ok(keys)
}

/// A list of keys over four letters that a seed draws, at most `limit` of them.
pub(crate) fn drawn_list(alloc: Global, seed: u64, limit: usize) -> Result<KeyList, AllocError> {
    let keys = some_keys(alloc, &LETTERS, seed, 1 + (seed >> 50) % 48, limit)?;
    list_of(alloc, &keys)
}
