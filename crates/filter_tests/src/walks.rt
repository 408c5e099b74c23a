//! Walks of a trie at every cutoff: examples, and every key of large lists to its own leaf.
ghost use Rattle.std.specs.Prelude.{◌≡◌, ◌<◌, codes};
ghost use Rattle.filter_model.specs.Examples.{a_ab};
ghost use Rattle.filter_model.specs.Leaves.{base_leaves};
ghost use Rattle.trie_model.specs.Walks.{steps};

use super::keys::{list_of_words, step};
use super::levels::{byte_keys, pair_keys};
use super::tries::{HASH_BITS, trie_of};
use filter_trie::{Steps, Trie, Walk};
use key_base::KeyList;
use std::alloc::{AllocError, Global};
use std::marker::Brand;
use std::process::Abort;
use std::sync::ledger::{Blank, Ledger};
use std::test::Fail;
use suffix_bits::hash_bits_of;

// How many keys of eight bytes are drawn.
const RANDOM_KEYS: u64 = 100_000;

// What keys lead to at every cutoff.
fn check_rows(
    rt: &impl Abort,
    alloc: Global,
    words: &[&[u8]],
    rows: &[(&[u8], Walk)],
    height: u16,
) -> Result<(), Fail> {
    let keys = list_of_words(alloc, words)?;
    for cutoff in 0..=height {
        let trie = trie_of(alloc, &keys, cutoff)?;
        check_shape(rt, &trie, cutoff, height);
        check_trie(rt, alloc, &keys, &trie, rows)?;
    }
    Ok(())
}

fn check_shape(rt: &impl Abort, trie: &Trie<Global>, cutoff: u16, height: u16) {
    assert!(rt; trie.cutoff() == cutoff);
    assert!(rt; trie.height() == height);
}

fn check_trie(
    rt: &impl Abort,
    alloc: Global,
    keys: &KeyList,
    trie: &Trie<Global>,
    rows: &[(&[u8], Walk)],
) -> Result<(), AllocError> {
    check_walks(rt, trie, rows);
    check_keys(rt, alloc, keys, trie)
}

// The same walk, counted.
fn walk_again<L: Ledger>(trie: &Trie<Global>, key: &[u8], blank: Blank) -> Walk
    requires name { blank.name ≡ L.name }
    requires parts { blank.parts ≡ L.parts }
    requires some { 0 < blank.parts }
{
    trie.walk_counted(key, &mut Steps::<L>::new(blank))
}

// Over the keys a and ab the walk of a looks at two nodes, the root and a.
fn a_looks_at_two_nodes()
    ensures { steps (base_leaves a_ab) (codes "a") ≡ 2 }
{}

/// A walk whose steps are counted.
pub(crate) fn counted(trie: &Trie<Global>, key: &[u8]) -> Walk {
    walk_again::<Brand>(trie, key, Blank::new(1))
}

fn check_walks(rt: &impl Abort, trie: &Trie<Global>, rows: &[(&[u8], Walk)]) {
    for (key, end) in rows {
        assert!(rt; trie.walk(key) == *end);
        assert!(rt; counted(trie, key) == *end);
    }
}

#[test]
fn far_to_toy_at_every_cutoff(rt: HostRuntime) -> Result<(), Fail> {
    let words: [&[u8]; 5] = [b"far", b"fast", b"s", b"top", b"toy"];
    let rows: [(&[u8], Walk); 11] = [
        (b"s", Walk::Leaf(0)),
        (b"sun", Walk::Leaf(0)),
        (b"far", Walk::Leaf(1)),
        (b"farm", Walk::Leaf(1)),
        (b"fasten", Walk::Leaf(2)),
        (b"top", Walk::Leaf(3)),
        (b"toy", Walk::Leaf(4)),
        (b"", Walk::Miss),
        (b"fa", Walk::Miss),
        (b"fat", Walk::Miss),
        (b"x", Walk::Miss),
    ];
    check_rows(&rt, rt.alloc(), &words, &rows, 3)?;
    Ok(())
}

#[test]
fn a_and_ab_at_every_cutoff(rt: HostRuntime) -> Result<(), Fail> {
    let words: [&[u8]; 2] = [b"a", b"ab"];
    let rows: [(&[u8], Walk); 6] = [
        (b"a", Walk::Leaf(0)),
        (b"ab", Walk::Leaf(1)),
        (b"abc", Walk::Leaf(1)),
        (b"", Walk::Miss),
        (b"ac", Walk::Miss),
        (b"b", Walk::Miss),
    ];
    check_rows(&rt, rt.alloc(), &words, &rows, 2)?;
    a_looks_at_two_nodes();
    Ok(())
}

#[test]
fn a_key_goes_on_by_ff_and_not_by_00(rt: HostRuntime) -> Result<(), Fail> {
    let words: [&[u8]; 2] = [b"\x61", b"\x61\xFF"];
    let rows: [(&[u8], Walk); 4] = [
        (b"\x61", Walk::Leaf(0)),
        (b"\x61\xFF", Walk::Leaf(1)),
        (b"\x61\xFF\x00", Walk::Leaf(1)),
        (b"\x61\x00", Walk::Miss),
    ];
    check_rows(&rt, rt.alloc(), &words, &rows, 2)?;
    Ok(())
}

#[test]
fn a_chain_by_ff_is_walked_to_its_end(rt: HostRuntime) -> Result<(), Fail> {
    let words: [&[u8]; 2] = [b"\x62\xFF\xFF\x78", b"\x62\xFF\xFF\x79"];
    let rows: [(&[u8], Walk); 7] = [
        (b"\x62\xFF\xFF\x78", Walk::Leaf(0)),
        (b"\x62\xFF\xFF\x79", Walk::Leaf(1)),
        (b"\x62\xFF\xFF\x79\x00", Walk::Leaf(1)),
        (b"\x62", Walk::Miss),
        (b"\x62\xFF\xFF", Walk::Miss),
        (b"\x62\xFF\x78", Walk::Miss),
        (b"\x62\xFF\xFF\xFF", Walk::Miss),
    ];
    check_rows(&rt, rt.alloc(), &words, &rows, 4)?;
    Ok(())
}

#[test]
fn a_walk_tells_how_long_the_stub_is(rt: HostRuntime) -> Result<(), Fail> {
    let keys = list_of_words(rt.alloc(), &[b"far", b"fast", b"s", b"so", b"top"])?;
    for cutoff in 0..=3 {
        let trie = trie_of(rt.alloc(), &keys, cutoff)?;
        assert!(rt; trie.walk_to(b"fasten") == Some((4, 3)));
        assert!(rt; trie.walk_to(b"toy") == Some((0, 1)));
        assert!(rt; trie.walk_to(b"s") == Some((1, 1)));
        assert!(rt; trie.walk_to(b"sou") == Some((2, 2)));
        assert!(rt; trie.walk_to(b"sun").is_none());
        assert!(rt; trie.walk_to(b"fa").is_none());
    }
    Ok(())
}

// Walks every key: each leads to a leaf of its own, which has the key's hash bits.
fn check_keys(
    rt: &impl Abort,
    alloc: Global,
    keys: &KeyList,
    trie: &Trie<Global>,
) -> Result<(), AllocError> {
    let mut taken = Vec::new(alloc);
    taken.resize(keys.len(), false)?;
    assert!(rt; trie.leaves() as usize == keys.len());
    for i in 0..keys.len() {
        let slot = leaf_in(rt, trie, keys.get(i));
        assert!(rt; taken.get(slot as usize) == Some(&false));
        take(taken.as_mut_slice(), slot as usize);
    }
    Ok(())
}

// The slot of the leaf that a key leads to, which has its hash bits, or a slot that no leaf has.
fn leaf_in(rt: &impl Abort, trie: &Trie<Global>, key: &[u8]) -> u64 {
    match trie.walk(key) {
        Walk::Leaf(slot) => {
            assert!(rt; slot < u64::from(trie.leaves()));
            assert!(rt; trie.suffix(slot).0 == hash_bits_of(key, HASH_BITS));
            slot
        }
        Walk::Miss => u64::MAX,
    }
}

fn take(taken: &mut [bool], slot: usize) {
    if let Some(is_taken) = taken.get_mut(slot) {
        *is_taken = true;
    }
}

#[test]
fn every_key_of_one_byte_at_every_cutoff(rt: HostRuntime) -> Result<(), Fail> {
    let keys = byte_keys(rt.alloc(), 256)?;
    for cutoff in 0..=1 {
        let trie = trie_of(rt.alloc(), &keys, cutoff)?;
        check_bytes(&rt, &trie);
        check_keys(&rt, rt.alloc(), &keys, &trie)?;
    }
    Ok(())
}

fn check_bytes(rt: &impl Abort, trie: &Trie<Global>) {
    for byte in 0..=0xFF {
        assert!(rt; trie.walk(&[byte]) == Walk::Leaf(u64::from(byte)));
    }
}

#[test]
fn every_key_of_two_bytes_at_every_cutoff(rt: HostRuntime) -> Result<(), Fail> {
    let keys = pair_keys(rt.alloc(), 256)?;
    for cutoff in 0..=2 {
        let trie = trie_of(rt.alloc(), &keys, cutoff)?;
        check_pairs(&rt, &trie);
        check_keys(&rt, rt.alloc(), &keys, &trie)?;
    }
    Ok(())
}

fn check_pairs(rt: &impl Abort, trie: &Trie<Global>) {
    for pair in 0..=0xFFFF {
        let [first, second] = u16::to_be_bytes(pair);
        assert!(rt; trie.walk(&[first]) == Walk::Miss);
        assert!(rt; trie.walk(&[first, second]) == Walk::Leaf(u64::from(pair)));
    }
}

// Rising keys of eight bytes, at random distances.
fn random_keys(alloc: Global, count: u64) -> Result<KeyList, AllocError> {
    let mut keys = KeyList::new(alloc);
    let mut seed = 3;
    let mut number = 0u64;
    for _ in 0..count {
        seed = step(seed);
        number = number.saturating_add(1 + (seed >> 17));
        keys.push(&number.to_be_bytes())?;
    }
    Ok(keys)
}

#[test]
fn every_key_of_many_random_ones(rt: HostRuntime) -> Result<(), Fail> {
    let keys = random_keys(rt.alloc(), RANDOM_KEYS)?;
    for cutoff in 0..=2 {
        let trie = trie_of(rt.alloc(), &keys, cutoff)?;
        assert!(rt; trie.height() > 2);
        check_keys(&rt, rt.alloc(), &keys, &trie)?;
    }
    Ok(())
}
