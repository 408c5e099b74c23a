//! What a trie takes, with its suffixes and with the sums that it keeps, and of which level these are.
use super::codec::{image_of, read};
use super::filters::filter_of;
use super::keys::list_of_words;
use super::tries::{base_trie, boxed, some_trie, trie_of, trie_with};
use filter_api::Settings;
use filter_trie::Trie;
use key_base::KeyList;
use std::alloc::{AllocError, Global};
use std::process::Abort;
use std::test::Fail;
use surf_filter::SurfFilter;

// How many pairs of keys there are.
const PAIRS: u16 = 2_048;

// How many levels of their trie are dense.
const CUTOFF: u16 = 2;

/// A pair of keys: their first letters, so many m, and last an a or a b.
pub(crate) fn push_pair(
    alloc: Global,
    keys: &mut KeyList,
    head: &[u8],
    shared: usize,
) -> Result<(), AllocError> {
    let mut key = Vec::from_slice(alloc, head)?;
    for _ in 0..shared {
        key.push(0x6D)?;
    }
    for last in [0x61, 0x62] {
        key.push(last)?;
        keys.push(key.as_slice())?;
        key.pop();
    }
    Ok(())
}

// Pairs each of which has its own two first letters, and so many behind these that both keys share.
fn pairs(alloc: Global, shared: usize) -> Result<KeyList, AllocError> {
    let mut keys = KeyList::new(alloc);
    for number in 0..PAIRS {
        let head = [(number / 256) as u8, (number % 256) as u8];
        push_pair(alloc, &mut keys, &head, shared)?;
    }
    Ok(keys)
}

// So many keys that begin with a, and two pairs with long paths.
fn many_below(alloc: Global, count: u8) -> Result<KeyList, AllocError> {
    let mut keys = KeyList::new(alloc);
    for last in 0..count {
        keys.push(&[0x61, last])?;
    }
    push_pair(alloc, &mut keys, b"b", 600)?;
    push_pair(alloc, &mut keys, b"c", 600)?;
    Ok(keys)
}

// The first node of a level of the pairs' trie: the root, eight nodes below it, and from there on one for each pair.
fn first_node(level: u16) -> u64 {
    match level {
        0 => 0,
        1 => 1,
        _ => u64::from(level.saturating_sub(2))
            .saturating_mul(u64::from(PAIRS))
            .saturating_add(9),
    }
}

// Whether the sums of some level of the pairs' trie are kept.
fn keeps_sums(trie: &Trie<Global>) -> bool {
    for level in 0..trie.height() {
        if trie
            .kept_sum(usize::from(level), first_node(level))
            .is_some()
        {
            return true;
        }
    }
    false
}

// The memory is so many bits, and these are within 1.10 of the image.
fn check_memory(
    rt: &impl Abort,
    alloc: Global,
    trie: &Trie<Global>,
    bits: u64,
) -> Result<(), AllocError> {
    let image = image_of(alloc, trie)?;
    assert!(rt; trie.image_bytes() == image.len() as u64);
    assert!(rt; trie.memory_bits() == bits);
    let image_bits = (image.len() as u64).saturating_mul(8);
    assert!(rt; bits.saturating_mul(10) <= image_bits.saturating_mul(11));
    Ok(())
}

fn check_pairs(rt: &impl Abort, alloc: Global, shared: usize, bits: u64) -> Result<(), Fail> {
    let keys = pairs(alloc, shared)?;
    let trie = base_trie(alloc, &keys, CUTOFF)?;
    assert!(rt; keeps_sums(&trie) == (shared > 12));
    check_memory(rt, alloc, &trie, bits)?;
    Ok(())
}

// On each level a pair has a node and two leaves, which take three bits and a half, and in all of the sparse half two
// places more than letters that it shares. Nine nodes are dense. With 12 letters 28,672 labels and 26,624 nodes are not:
// 291,392 bits of words, and 21,760 of counts and places. With 13 letters 30,720 and 28,672: 311,872 and 23,296, and of
// the sums 6,145 bits in 97 words and 33 places of 32 bits, 7,264 in all.
#[test]
fn sums_are_kept_within_the_memory_that_a_trie_may_take(rt: HostRuntime) -> Result<(), Fail> {
    check_pairs(&rt, rt.alloc(), 12, 313_152)?;
    check_pairs(&rt, rt.alloc(), 13, 342_432)
}

// Suffixes of 40 bits take 163,840 bits more for 4,096 leaves, which are 2,560 whole words.
#[test]
fn suffixes_take_their_bits(rt: HostRuntime) -> Result<(), Fail> {
    let alloc = rt.alloc();
    let few = trie_of(alloc, &pairs(alloc, 12)?, CUTOFF)?;
    check_memory(&rt, alloc, &few, 476_992)?;
    let more = trie_of(alloc, &pairs(alloc, 13)?, CUTOFF)?;
    check_memory(&rt, alloc, &more, 506_272)?;
    Ok(())
}

// Keeps the sums of a trie once more: it takes so many bits before and after that.
fn keep_again(
    rt: &impl Abort,
    alloc: Global,
    trie: &mut Trie<Global>,
    bits: u64,
) -> Result<(), AllocError> {
    assert!(rt; trie.memory_bits() == bits);
    trie.keep_sums(alloc)?;
    check_memory(rt, alloc, trie, bits)
}

// Builds, reads again, and keeps the sums once more: all three take as much.
fn check_kept_again(rt: &impl Abort, alloc: Global, shared: usize, bits: u64) -> Result<(), Fail> {
    let mut trie = base_trie(alloc, &pairs(alloc, shared)?, CUTOFF)?;
    keep_again(rt, alloc, &mut trie, bits)?;
    let image = image_of(alloc, &trie)?;
    let Ok(again) = read(alloc, &image) else {
        return Err(Fail::from("no image"));
    };
    assert!(rt; again.memory_bits() == bits);
    Ok(())
}

#[test]
fn what_is_read_keeps_the_same_sums(rt: HostRuntime) -> Result<(), Fail> {
    check_kept_again(&rt, rt.alloc(), 12, 313_152)?;
    check_kept_again(&rt, rt.alloc(), 13, 342_432)
}

const WORDS: [&[u8]; 5] = [b"far", b"fast", b"s", b"top", b"toy"];

// The words' trie takes so many bits with suffixes of such widths.
fn check_words(
    rt: &impl Abort,
    alloc: Global,
    hash_bits: u8,
    real_bits: u8,
    cutoff: u16,
    bits: u64,
) -> Result<(), Fail> {
    let keys = list_of_words(alloc, &WORDS)?;
    let trie = some_trie(trie_with(alloc, &keys, hash_bits, real_bits, cutoff)?)?;
    assert!(rt; trie.memory_bits() == bits);
    Ok(())
}

// Five suffixes of 7 bits are in one word of 64. Beside them are, with no dense level, nine labels of 8 bits, two words,
// a count of 32 bits for each of four lists of bits, and one place: 72, 128, 128 and 32. With one dense level: its node 576,
// seven counts 224, six labels 48, two words 128, and a count and a place of the sparse half, 32 each.
#[test]
fn suffixes_are_in_whole_words(rt: HostRuntime) -> Result<(), Fail> {
    check_words(&rt, rt.alloc(), 0, 0, 0, 360)?;
    check_words(&rt, rt.alloc(), 4, 3, 0, 424)?;
    check_words(&rt, rt.alloc(), 0, 0, 1, 1_040)?;
    check_words(&rt, rt.alloc(), 4, 3, 1, 1_104)
}

// A filter of the words, which has no dense level, takes what its trie does.
fn check_filter(
    rt: &impl Abort,
    alloc: Global,
    hash_bits: u8,
    real_bits: u8,
    bits: u64,
) -> Result<(), Fail> {
    let keys = list_of_words(alloc, &WORDS)?;
    let settings = Settings {
        hash_bits,
        real_bits,
        ratio: 64,
    };
    let filter: SurfFilter<Global> = filter_of(alloc, &keys, settings)?;
    let filter = boxed(alloc, filter)?;
    assert!(rt; filter.memory_bits() == bits);
    Ok(())
}

#[test]
fn a_filter_takes_what_its_trie_does(rt: HostRuntime) -> Result<(), Fail> {
    check_filter(&rt, rt.alloc(), 0, 0, 360)?;
    check_filter(&rt, rt.alloc(), 4, 3, 424)
}

// The sums of a level from a node on to the next one, below which so many leaves stand.
fn check_kept(rt: &impl Abort, trie: &Trie<Global>, level: usize, node: u64, leaves: u64) {
    let starts = trie.level_starts();
    assert!(rt; trie.kept_sum(level, node) == Some(starts));
    assert!(rt;
        trie.kept_sum(level, node.saturating_add(1)) == Some(starts.saturating_add(leaves))
    );
}

// All leaves stand below the one node of level 0, and most below the first one of level 1.
#[test]
fn sums_are_of_a_level_with_few_leaves_below_each_node(rt: HostRuntime) -> Result<(), Fail> {
    let alloc = rt.alloc();
    let few = base_trie(alloc, &many_below(alloc, 252)?, 0)?;
    check_kept(&rt, &few, 0, 0, 256);
    let many = base_trie(alloc, &many_below(alloc, 253)?, 0)?;
    assert!(rt; many.kept_sum(0, 0).is_none());
    check_kept(&rt, &many, 1, 1, 253);
    Ok(())
}
