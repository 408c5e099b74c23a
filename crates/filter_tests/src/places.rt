//! The tries of random sets at every cutoff, and each of their calls against plain loops.
ghost use Rattle.std.specs.Prelude.{◌<◌, length};
ghost use Rattle.filter_model.specs.Trie.{nodes};
ghost use Rattle.filter_trie.specs.Places.{IsTaken, IsWithin};

use super::codec::{image_of, read};
use super::keys::{list_of, list_of_words, some_keys, step};
use super::plain::{END, Plain};
use super::tries::{has_node, trie_of};
use super::walks::counted;
use filter_trie::{Place, Trie, Walk};
use key_base::KeyList;
use std::alloc::{AllocError, Global};
use std::process::Abort;
use std::test::Fail;

// The letters of the keys.
const LETTERS: [u8; 4] = [0x00, 0x61, 0xFE, 0xFF];

// How many sets of keys are drawn; ten of them are empty.
const SETS: u64 = 1_010;

/// Which sets of keys are drawn, and what is asked of their tries.
#[derive(Clone, Copy)]
pub(crate) struct Drawn {
    pub(crate) letters: [u8; 4],
    /// The odds by which a key is drawn are one in 1 to so many.
    pub(crate) odds: u64,
    pub(crate) max_keys: usize,
    /// Whether all calls are asked, or walks alone.
    pub(crate) all_calls: bool,
}

const DRAWN: Drawn = Drawn {
    letters: LETTERS,
    odds: 12,
    max_keys: 24,
    all_calls: true,
};

// The number of a place among all branches.
fn plain_number(trie: &Trie<Global>, plain: &Plain, place: Place) -> Option<u64> {
    match place {
        Place::Dense(bit) => plain.branch((bit / 256) as usize, (bit % 256) as u16),
        Place::Sparse(place) => {
            let first = plain.range(trie.dense().node_count() as usize).0;
            Some(place.saturating_add(first as u64))
        }
    }
}

fn is_same_place(
    trie: &Trie<Global>,
    plain: &Plain,
    place: Option<Place>,
    number: Option<u64>,
) -> bool {
    match place {
        Some(place) => number.is_some() && plain_number(trie, plain, place) == number,
        None => number.is_none(),
    }
}

// What the trie says of a place where a branch stands, of this number.
fn check_place(
    rt: &impl Abort,
    trie: &Trie<Global>,
    plain: &Plain,
    place: Place,
    number: Option<u64>,
)
    requires { IsTaken trie.now place }
{
    assert!(rt; is_same_place(trie, plain, Some(place), number));
    if let Some(number) = number {
        let number = number as usize;
        assert!(rt; u16::from(trie.byte_at(place)) == plain.letter(number).min(0xFF));
        assert!(rt; trie.child(place) == plain.child(number));
        assert!(rt; trie.leftmost(place) == plain.leftmost(number));
        check_before(rt, trie, plain, place, number);
    }
}

// What stands before a place.
fn check_before(rt: &impl Abort, trie: &Trie<Global>, plain: &Plain, place: Place, number: usize)
    requires { IsWithin trie.now place }
{
    let before = (plain.leaf_slot(number), plain.first_below(number));
    assert!(rt; (trie.leaf_slot(place), trie.first_below(place)) == before);
    assert!(rt; trie.before_place(place) == before);
}

// The branch by a byte, which is at most FF.
fn check_branch(rt: &impl Abort, trie: &Trie<Global>, plain: &Plain, node: u64, byte: u8)
    requires { node < length (nodes trie.now.leaves) }
{
    let number = plain.branch(node as usize, u16::from(byte));
    match trie.branch(node, byte) {
        Some(place) => check_place(rt, trie, plain, place, number),
        None => assert!(rt; number.is_none()),
    }
}

// The branches beside a byte, which is at most 256.
fn check_beside(rt: &impl Abort, trie: &Trie<Global>, plain: &Plain, node: u64, byte: u16)
    requires { node < length (nodes trie.now.leaves) }
{
    if byte > END {
        return;
    }
    let next = trie.next_branch(node, byte);
    assert!(rt; is_same_place(trie, plain, next, plain.next_branch(node as usize, byte)));
    let prev = trie.prev_branch(node, byte);
    assert!(rt; is_same_place(trie, plain, prev, plain.prev_branch(node as usize, byte)));
}

fn check_node(rt: &impl Abort, trie: &Trie<Global>, plain: &Plain, node: u64)
    requires { node < length (nodes trie.now.leaves) }
{
    let first = plain.range(node as usize).0;
    assert!(rt; trie.prefix_slot(node) == plain.end_slot(node as usize));
    assert!(rt; trie.slots_before(node) == plain.leaf_slot(first));
    assert!(rt; trie.first_below(trie.first_place(node)) == plain.first_below(first));
    assert!(rt; trie.before_node(node) == (plain.leaf_slot(first), plain.first_below(first)));
    for letter in LETTERS {
        let byte = u16::from(letter);
        check_branch(rt, trie, plain, node, letter);
        check_branch(rt, trie, plain, node, letter ^ 1);
        check_beside(rt, trie, plain, node, byte.saturating_sub(1));
        check_beside(rt, trie, plain, node, byte);
        check_beside(rt, trie, plain, node, byte + 1);
    }
}

fn slot_in(walk: Walk) -> Option<u64> {
    match walk {
        Walk::Leaf(slot) => Some(slot),
        Walk::Miss => None,
    }
}

// A walk, one that tells the stub's length, and one whose steps are counted.
fn check_walk(rt: &impl Abort, trie: &Trie<Global>, plain: &Plain, key: &[u8]) {
    let leaf = plain.walk(key);
    let slot = leaf.map(|leaf| leaf.0);
    assert!(rt; trie.walk_to(key) == leaf);
    assert!(rt; slot_in(trie.walk(key)) == slot);
    assert!(rt; slot_in(counted(trie, key)) == slot);
}

// A key, and what is beside it: without its last letter, and one letter longer.
fn check_walks(
    rt: &impl Abort,
    alloc: Global,
    trie: &Trie<Global>,
    plain: &Plain,
    key: &[u8],
) -> Result<(), AllocError> {
    check_walk(rt, trie, plain, key);
    let mut longer = Vec::from_slice(alloc, key)?;
    longer.pop();
    for letter in LETTERS {
        longer.push(letter)?;
        check_walk(rt, trie, plain, longer.as_slice());
    }
    Ok(())
}

// The sums that the trie keeps at a node, which is one or the one behind the last.
fn check_sums(rt: &impl Abort, trie: &Trie<Global>, plain: &Plain, node: u64) {
    let height = usize::from(trie.height());
    for level in 0..height {
        if let Some(sum) = trie.kept_sum(level, node) {
            assert!(rt; sum == plain.slots_down(height.saturating_sub(level), node));
        }
    }
}

fn check_nodes(rt: &impl Abort, trie: &Trie<Global>, plain: &Plain) {
    for node in 0..plain.node_count() as u64 {
        let there = has_node(trie, node);
        assert!(rt; there);
        check_node(rt, trie, plain, node);
        check_sums(rt, trie, plain, node);
    }
    check_sums(rt, trie, plain, plain.node_count() as u64);
    assert!(rt; !has_node(trie, plain.node_count() as u64));
    assert!(rt; trie.level_starts() == plain.level_starts());
}

fn check_trie(
    rt: &impl Abort,
    alloc: Global,
    keys: &KeyList,
    plain: &Plain,
    trie: &Trie<Global>,
    all_calls: bool,
) -> Result<(), AllocError> {
    if all_calls {
        check_nodes(rt, trie, plain);
        assert!(rt; trie.walk(b"") == Walk::Miss);
    }
    for i in 0..keys.len() {
        check_walks(rt, alloc, trie, plain, keys.get(i))?;
    }
    Ok(())
}

/// A set over the last two, three or all letters, at every cutoff.
pub(crate) fn check_set(
    rt: &impl Abort,
    alloc: Global,
    seed: u64,
    drawn: Drawn,
) -> Result<(), Fail> {
    let count = 2 + (seed >> 40) as usize % 3;
    let letters = &drawn.letters[4 - count..];
    let odds = 1 + (seed >> 50) % drawn.odds.max(1);
    let keys = some_keys(alloc, letters, seed, odds, drawn.max_keys)?;
    if keys.items.is_empty() {
        return Ok(());
    }
    let list = list_of(alloc, &keys)?;
    check_cutoffs(rt, alloc, &list, &Plain::of(alloc, &keys)?, drawn.all_calls)
}

fn check_cutoffs(
    rt: &impl Abort,
    alloc: Global,
    keys: &KeyList,
    plain: &Plain,
    all_calls: bool,
) -> Result<(), Fail> {
    let height = trie_of(alloc, keys, 0)?.height();
    for cutoff in 0..=height {
        let trie = trie_of(alloc, keys, cutoff)?;
        check_trie(rt, alloc, keys, plain, &trie, all_calls)?;
    }
    Ok(())
}

#[test]
fn random_sets_at_every_cutoff_answer_as_plain_loops(rt: HostRuntime) -> Result<(), Fail> {
    let mut seed = 11;
    for _ in 0..SETS {
        seed = step(seed);
        check_set(&rt, rt.alloc(), seed, DRAWN)?;
    }
    Ok(())
}

// The sums that a trie of two keys of 16 letters keeps, which part at the last one: those of level 0, where two nodes have
// one.
fn check_kept(rt: &impl Abort, trie: &Trie<Global>) {
    assert!(rt; trie.kept_sum(0, 0) == Some(0) && trie.kept_sum(0, 1) == Some(2));
    assert!(rt; trie.kept_sum(0, 2).is_none() && trie.kept_sum(1, 1).is_none());
}

#[test]
fn sums_are_kept_and_kept_again_when_it_is_read(rt: HostRuntime) -> Result<(), Fail> {
    let keys = list_of_words(rt.alloc(), &[b"aaaaaaaaaaaaaaab", b"aaaaaaaaaaaaaaac"])?;
    let trie = trie_of(rt.alloc(), &keys, 0)?;
    check_kept(&rt, &trie);
    let image = image_of(rt.alloc(), &trie)?;
    let again = read(rt.alloc(), image.as_slice())?;
    check_kept(&rt, &again);
    Ok(())
}
