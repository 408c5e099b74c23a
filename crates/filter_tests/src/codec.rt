//! Images of tries that were built: what they look like, and that they are read again.

use super::images::{SPARSE, dense_image};
use super::judge::Kind;
use super::keys::{drawn_list, list_of_words, step};
use super::levels::{byte_keys, pair_keys};
use super::tries::{base_trie, boxed, drawn_trie, some_trie, trie_with};
use filter_api::{DecodeError, FilterFault};
use filter_codec::{decode, decode_whole, encode};
use filter_trie::Trie;
use key_base::KeyList;
use std::alloc::{AllocError, Global};
use std::process::Abort;
use std::test::Fail;

// How many sets of keys are drawn; none of them is empty.
const SETS: u64 = 2_000;

// How many keys a set has at most.
const MAX_KEYS: usize = 24;

// More levels than a trie of the keys has.
const LEVELS: u16 = 6;

/// The image of a trie.
pub(crate) fn image_of(alloc: Global, trie: &Trie<Global>) -> Result<Vec<u8>, AllocError> {
    let mut image = Vec::new(alloc);
    encode(trie, &mut image)?;
    Ok(image)
}

/// The image of a trie is these bytes.
pub(crate) fn check_image(
    rt: &impl Abort,
    alloc: Global,
    trie: &Trie<Global>,
    bytes: &[u8],
) -> Result<(), AllocError> {
    let image = image_of(alloc, trie)?;
    assert!(rt; image.as_slice() == bytes);
    Ok(())
}

/// The trie that an image spells.
pub(crate) fn read(alloc: Global, image: &[u8]) -> Result<Box<Trie<Global>>, DecodeError> {
    let trie = decode(alloc, image)?;
    Ok(boxed(alloc, trie)?)
}

/// The trie of whole keys that an image spells.
pub(crate) fn read_whole(alloc: Global, image: &[u8]) -> Result<Box<Trie<Global>>, DecodeError> {
    let trie = decode_whole(alloc, image)?;
    Ok(boxed(alloc, trie)?)
}

fn read_as(kind: Kind, alloc: Global, image: &[u8]) -> Result<Box<Trie<Global>>, DecodeError> {
    match kind {
        Kind::Filters => read(alloc, image),
        Kind::WholeKeys => read_whole(alloc, image),
    }
}

/// Why bytes are refused as an image of a kind, or `None` where a trie is read of them, which has this image.
pub(crate) fn fault_of(
    rt: &impl Abort,
    alloc: Global,
    kind: Kind,
    bytes: &[u8],
) -> Result<Option<FilterFault>, AllocError> {
    match read_as(kind, alloc, bytes) {
        Ok(trie) => {
            check_image(rt, alloc, &trie, bytes)?;
            Ok(None)
        }
        Err(DecodeError::Memory) => Err(AllocError),
        Err(DecodeError::Fault(fault)) => Ok(Some(fault)),
    }
}

fn are_alike(one: &Trie<Global>, other: &Trie<Global>) -> bool {
    one.cutoff() == other.cutoff()
        && one.height() == other.height()
        && one.leaves() == other.leaves()
}

fn check_walks(rt: &impl Abort, one: &Trie<Global>, other: &Trie<Global>, keys: &KeyList) {
    for i in 0..keys.len() {
        let key = keys.get(i);
        assert!(rt; one.walk(key) == other.walk(key));
    }
}

// Decodes an image: it is of a trie that walks as this one does, and has the same image again.
fn check_again(
    rt: &impl Abort,
    alloc: Global,
    trie: &Trie<Global>,
    image: &[u8],
    keys: &KeyList,
) -> Result<(), Fail> {
    let again = read(alloc, image)?;
    check_image(rt, alloc, &again, image)?;
    assert!(rt; are_alike(&again, trie));
    check_walks(rt, &again, trie, keys);
    Ok(())
}

fn ends_so(image: &[u8], len: usize, end: &[u8]) -> bool {
    image.len() == len && image.ends_with(end)
}

// The image of keys: how long it is, and how it ends.
fn check_row(
    rt: &impl Abort,
    alloc: Global,
    keys: &KeyList,
    trie: &Trie<Global>,
    len: usize,
    end: &[u8],
) -> Result<(), Fail> {
    let image = image_of(alloc, trie)?;
    assert!(rt; ends_so(image.as_slice(), len, end));
    check_again(rt, alloc, trie, image.as_slice(), keys)
}

// The same of the keys with no suffixes, of which so many levels are dense.
fn check_base(
    rt: &impl Abort,
    alloc: Global,
    keys: &KeyList,
    cutoff: u16,
    len: usize,
    end: &[u8],
) -> Result<(), Fail> {
    let trie = base_trie(alloc, keys, cutoff)?;
    check_row(rt, alloc, keys, &trie, len, end)
}

#[test]
fn a_and_ab_at_each_cutoff(rt: HostRuntime) -> Result<(), Fail> {
    let keys = list_of_words(rt.alloc(), &[b"a", b"ab"])?;
    check_base(&rt, rt.alloc(), &keys, 0, 45, &SPARSE)?;
    check_base(&rt, rt.alloc(), &keys, 1, 109, b"\xFF\x62\x00\x01")?;
    let dense = dense_image(rt.alloc())?;
    check_base(&rt, rt.alloc(), &keys, 2, 169, dense.as_slice())
}

// What is read of images walks as what they are of, also by words that are no keys.
fn check_words(
    rt: &impl Abort,
    alloc: Global,
    keys: &KeyList,
    words: &KeyList,
) -> Result<(), Fail> {
    for cutoff in 0..3 {
        check_alike(rt, alloc, keys, words, cutoff)?;
    }
    Ok(())
}

fn check_alike(
    rt: &impl Abort,
    alloc: Global,
    keys: &KeyList,
    words: &KeyList,
    cutoff: u16,
) -> Result<(), Fail> {
    let trie = base_trie(alloc, keys, cutoff)?;
    check_trie(rt, alloc, &trie, words)
}

#[test]
fn a_and_ab_read_again_answer_alike(rt: HostRuntime) -> Result<(), Fail> {
    let keys = list_of_words(rt.alloc(), &[b"a", b"ab"])?;
    let words = list_of_words(
        rt.alloc(),
        &[b"", b"a", b"aa", b"ab", b"abb", b"ac", b"a\xFF", b"b"],
    )?;
    check_words(&rt, rt.alloc(), &keys, &words)
}

#[test]
fn far_to_toy(rt: HostRuntime) -> Result<(), Fail> {
    let keys = list_of_words(rt.alloc(), &[b"far", b"fast", b"s", b"top", b"toy"])?;
    let end = b"fstaorspy\x1D\x00\xB9\x00";
    check_base(&rt, rt.alloc(), &keys, 0, 53, end)
}

#[test]
fn a_key_with_hash_bits(rt: HostRuntime) -> Result<(), Fail> {
    let keys = list_of_words(rt.alloc(), &[b"a"])?;
    let trie = some_trie(trie_with(rt.alloc(), &keys, 8, 0, 0)?)?;
    check_row(&rt, rt.alloc(), &keys, &trie, 44, b"\x61\x00\x01\x8C")
}

#[test]
fn all_keys_of_one_byte(rt: HostRuntime) -> Result<(), Fail> {
    let keys = byte_keys(rt.alloc(), 256)?;
    check_base(&rt, rt.alloc(), &keys, 1, 105, b"\x00")
}

// All keys of two bytes: 65,792 labels of which 257 nodes have 256 each. With both levels dense the image ends with
// 257 bits that no END sets.
#[test]
fn all_keys_of_two_bytes(rt: HostRuntime) -> Result<(), Fail> {
    let keys = pair_keys(rt.alloc(), 256)?;
    check_base(&rt, rt.alloc(), &keys, 1, 82_025, b"\x00")?;
    check_base(&rt, rt.alloc(), &keys, 2, 40 + 64 * 257 + 33, b"\x00")
}

// Two keys of 1,024 bytes that part at the last one.
fn long_keys(alloc: Global) -> Result<KeyList, AllocError> {
    let mut keys = KeyList::new(alloc);
    let mut key = [0x61; 1_024];
    keys.push(&key)?;
    key[1_023] = 0x62;
    keys.push(&key)?;
    Ok(keys)
}

// They have 1,024 nodes, one below the other.
#[test]
fn two_long_keys(rt: HostRuntime) -> Result<(), Fail> {
    let keys = long_keys(rt.alloc())?;
    check_base(&rt, rt.alloc(), &keys, 0, 40 + 1_025 + 2 * 129, b"\x00")?;
    check_base(
        &rt,
        rt.alloc(),
        &keys,
        1_024,
        40 + 64 * 1_024 + 128,
        b"\x00",
    )
}

fn check_trie(
    rt: &impl Abort,
    alloc: Global,
    trie: &Trie<Global>,
    keys: &KeyList,
) -> Result<(), Fail> {
    let image = image_of(alloc, trie)?;
    check_again(rt, alloc, trie, image.as_slice(), keys)
}

fn check_keys(rt: &impl Abort, alloc: Global, keys: &KeyList, seed: u64) -> Result<(), Fail> {
    for cutoff in 0..LEVELS {
        check_cutoff(rt, alloc, keys, seed, cutoff)?;
    }
    Ok(())
}

fn check_cutoff(
    rt: &impl Abort,
    alloc: Global,
    keys: &KeyList,
    seed: u64,
    cutoff: u16,
) -> Result<(), Fail> {
    match drawn_trie(alloc, keys, seed, cutoff)? {
        Some(trie) => check_trie(rt, alloc, &trie, keys),
        None => Ok(()),
    }
}

fn check_set(rt: &impl Abort, alloc: Global, seed: u64) -> Result<(), Fail> {
    let keys = drawn_list(alloc, seed, MAX_KEYS)?;
    check_keys(rt, alloc, &keys, seed)
}

#[test]
fn images_of_random_sets_at_every_cutoff_are_read_again(rt: HostRuntime) -> Result<(), Fail> {
    let mut seed = 17;
    for _ in 0..SETS {
        seed = step(seed);
        check_set(&rt, rt.alloc(), seed)?;
    }
    Ok(())
}
