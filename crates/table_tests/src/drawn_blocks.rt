//! Blocks of both formats over drawn entries, beside the plain list of these: each key of a block, the keys beside it and the
//! parts that it begins with are sought, and the block is walked from each of them.
use crate::asserts::{check_same, check_that};
use block_format::{Block, BlockBuilder, read_sum_and_walk, value_of};
use byte_fields::fnv1a;
use entry_list::{Entry, lookup, push_copy};
use plain_blocks::{are_entries, block_bytes, old_block_bytes};
use std::alloc::{AllocError, Global};
use std::test::Fail;
use test_kit::Numbers;

// The letters of keys.
const LETTERS: [u8; 4] = [0x00, b'a', b'b', 0xFF];

// How many keys of one to six letters begin with the same letter.
const KEYS_OF_A_LETTER: u64 = 1_365;

// Key `number` of those of one to six letters, by their order: a key comes just before those that begin with it.
fn key_of(alloc: Global, number: u64) -> Result<Vec<u8>, AllocError> {
    let mut key = Vec::new(alloc);
    let mut left = number;
    let mut width = KEYS_OF_A_LETTER;
    for _ in 0..6 {
        let many = width.max(1);
        key.push(LETTERS[(left / many % 4) as usize])
            .map_err(AllocError::from)?;
        left %= many;
        if left == 0 {
            break;
        }
        left -= 1;
        width = many / 4;
    }
    Ok(key)
}

// The entry of a key: a tombstone, or with a value of none to two bytes.
fn entry_of(alloc: Global, number: u64, kind: u64) -> Result<Entry, AllocError> {
    let key = key_of(alloc, number)?;
    let value = [(number % 256) as u8, 0xA5];
    match kind {
        0 => Entry::new(alloc, key.as_slice(), None),
        1 => Entry::new(alloc, key.as_slice(), Some(&value[..1])),
        2 => Entry::new(alloc, key.as_slice(), Some(&value)),
        _ => Entry::new(alloc, key.as_slice(), Some(b"")),
    }
}

/// Rising numbers of keys, so many: one after the other, or with others left out between them.
pub fn drawn_keys(
    alloc: Global,
    numbers: &mut Numbers,
    count: usize,
) -> Result<Vec<u64>, AllocError> {
    let most = [0, 1, 4, 19][numbers.draw_below(4) % 4];
    let mut list = Vec::new(alloc);
    let mut number = numbers.draw_to(most);
    for _ in 0..count {
        list.push(number).map_err(AllocError::from)?;
        number = number.wrapping_add(1).wrapping_add(numbers.draw_to(most));
    }
    Ok(list)
}

/// The entries of these keys. Some keys begin with others, and some entries are tombstones. A block of either format takes them
/// where they are at most 255.
pub fn entries_of(
    alloc: Global,
    numbers: &mut Numbers,
    keys: &[u64],
) -> Result<Vec<Entry>, AllocError> {
    let mut list = Vec::new(alloc);
    for number in keys {
        let entry = entry_of(alloc, *number, numbers.draw_to(3))?;
        push_copy(&entry, &mut list)?;
    }
    Ok(list)
}

// Adds an entry whose key and value keep the limits.
fn add(builder: &mut BlockBuilder, entry: &Entry) -> Result<bool, Fail> {
    let key = entry.key();
    let value = entry.value();
    if key.is_empty() || key.len() > 1_024 || value.is_some_and(|value| value.len() > 1_048_576) {
        return Err(Fail::from("out of the limits"));
    }
    Ok(builder.add(key, value)?)
}

// The block of some entries as the builder writes it.
fn built(alloc: Global, list: &[Entry]) -> Result<Vec<u8>, Fail> {
    let mut builder = BlockBuilder::new(alloc);
    let mut out = Vec::new(alloc);
    for entry in list {
        if !add(&mut builder, entry)? {
            return Err(Fail::from("no room"));
        }
    }
    if !builder.is_empty() {
        builder.close(&mut out)?;
    }
    Ok(out)
}

// Whether a key is below a bound, if there is one.
fn is_below(key: &[u8], low: Option<&[u8]>) -> bool {
    match low {
        Some(low) => key < low,
        None => false,
    }
}

// Whether a cursor from a key on comes by the entries of a list that are not below it, and by no other ones.
fn is_walked(block: &Block<'_>, list: &[Entry], low: Option<&[u8]>) -> bool {
    let mut cursor = block.from(low);
    if cursor.entry().is_some() {
        return false;
    }
    for entry in list {
        if is_below(entry.key(), low) {
            continue;
        }
        if !cursor.advance() || cursor.entry() != Some((entry.key(), entry.value())) {
            return false;
        }
    }
    !cursor.advance() && cursor.entry().is_none()
}

// Whether a walk over bytes and a buffer that are kept does the same.
fn is_kept_walked(bytes: &[u8], list: &[Entry], low: Option<&[u8]>) -> bool {
    let mut buffer = [0xEE; 1_024];
    let (sum, walk) = read_sum_and_walk(bytes, low, &mut buffer);
    let Ok(mut walk) = walk else {
        return false;
    };
    if sum != fnv1a(bytes) {
        return false;
    }
    for entry in list {
        if is_below(entry.key(), low) {
            continue;
        }
        let Some(value) = walk.advance(bytes, &mut buffer) else {
            return false;
        };
        if walk.key(&buffer) != entry.key() || value_of(value, bytes) != entry.value() {
            return false;
        }
    }
    walk.advance(bytes, &mut buffer).is_none()
}

// Whether a block says of a key what a list does, and is walked from it.
fn is_sought(block: &Block<'_>, list: &[Entry], key: &[u8]) -> bool {
    block.find(key) == lookup(list, key) && is_walked(block, list, Some(key))
}

// Whether a key is sought rightly, and each part that it begins with.
fn are_parts_sought(block: &Block<'_>, list: &[Entry], key: &[u8]) -> bool {
    for length in 0..=key.len() {
        if !is_sought(block, list, &key[..length]) {
            return false;
        }
    }
    true
}

// Whether a key is sought rightly with the parts that it begins with, and so are the ones just before it and just after it.
fn is_found_among(
    alloc: Global,
    block: &Block<'_>,
    list: &[Entry],
    number: u64,
) -> Result<bool, AllocError> {
    let before = key_of(alloc, number.saturating_sub(1))?;
    let after = key_of(alloc, number.wrapping_add(1))?;
    let mut key = key_of(alloc, number)?;
    let found = are_parts_sought(block, list, &key)
        && is_sought(block, list, &before)
        && is_sought(block, list, &after);
    key.push(0).map_err(AllocError::from)?;
    Ok(found && is_sought(block, list, &key))
}

// Whether the other calls that read a block say the same of a key.
fn is_read(bytes: &[u8], list: &[Entry], key: &[u8]) -> bool {
    let said = lookup(list, key);
    Block::read_and_find(bytes, key) == Ok(said)
        && Block::read_sum_and_find(bytes, key) == (fnv1a(bytes), Ok(said))
        && is_kept_walked(bytes, list, Some(key))
}

// Whether a block of either format says of its entries what their list does.
fn is_block_of(
    alloc: Global,
    bytes: &[u8],
    list: &[Entry],
    keys: &[u64],
) -> Result<bool, AllocError> {
    let Ok(block) = Block::read(bytes) else {
        return Ok(false);
    };
    if !is_walked(&block, list, None) || !is_kept_walked(bytes, list, None) {
        return Ok(false);
    }
    for number in keys {
        if !is_found_among(alloc, &block, list, *number)? {
            return Ok(false);
        }
    }
    Ok(true)
}

#[test]
fn drawn_blocks_of_both_formats(rt: HostRuntime) -> Result<(), Fail> {
    let alloc = rt.alloc();
    let mut numbers = Numbers::new(43);
    for count in [1, 2, 3, 15, 16, 17, 31, 32, 33, 64, 100, 255] {
        let keys = drawn_keys(alloc, &mut numbers, count)?;
        let list = entries_of(alloc, &mut numbers, &keys)?;
        let list = list.as_slice();
        assert!(rt; are_entries(list));
        let bytes = built(alloc, list)?;
        check_same(
            &rt,
            &bytes.as_slice(),
            &block_bytes(alloc, list)?.as_slice(),
        );
        check_that(&rt, is_block_of(alloc, &bytes, list, &keys)?);
        let old = old_block_bytes(alloc, list)?;
        check_that(&rt, is_block_of(alloc, &old, list, &keys)?);
        let key = key_of(alloc, numbers.draw_to(600))?;
        check_that(
            &rt,
            is_read(&bytes, list, &key) && is_read(&old, list, &key),
        );
    }
    Ok(())
}

#[test]
fn drawn_blocks_of_every_size(rt: HostRuntime) -> Result<(), Fail> {
    let alloc = rt.alloc();
    let mut numbers = Numbers::new(44);
    for count in 1..256 {
        let keys = drawn_keys(alloc, &mut numbers, count)?;
        let list = entries_of(alloc, &mut numbers, &keys)?;
        let list = list.as_slice();
        let bytes = built(alloc, list)?;
        let Some(number) = keys.get(numbers.draw_below(count as u64)) else {
            return Err(Fail::from("no key"));
        };
        let key = key_of(alloc, *number)?;
        check_that(&rt, is_read(&bytes, list, &key));
        let Ok(block) = Block::read(&bytes) else {
            return Err(Fail::from("no block"));
        };
        check_that(
            &rt,
            is_walked(&block, list, None) && are_parts_sought(&block, list, &key),
        );
    }
    Ok(())
}
