//! Both halves of the tries of random sets, cut at each level, and each of their calls against the plain one.
use super::keys::{some_keys, step};
use super::plain::{END, Plain};
use super::sections::{check_dense_sections, check_sparse_sections};
use super::tries::boxed;
use louds_dense::{Dense, DenseBuilder};
use louds_sparse::{Sparse, SparseBuilder};
use std::alloc::{AllocError, Global};
use std::process::Abort;
use std::test::Fail;
use trie_model::are_rising;

// The letters of the keys.
const LETTERS: [u8; 4] = [0x00, 0x61, 0xFE, 0xFF];

// How many sets of keys are drawn; six of them are empty.
const SETS: u64 = 1_010;

// How many keys a set has at most.
const MAX_KEYS: usize = 60;

// How many labels the sparse halves have room for.
const ROOM: usize = 4_096;

// More levels than a trie of the keys has.
const LEVELS: usize = 8;

fn add_dense(
    rt: &impl Abort,
    alloc: Global,
    plain: &Plain,
    cut: usize,
    builder: &mut DenseBuilder<Global>,
) -> Result<(), AllocError> {
    for node in 0..cut {
        let branches = plain.bytes(alloc, node)?;
        assert!(rt; are_rising(&branches));
        assert!(rt; builder.room_left() > 0);
        builder.node(plain.ends(node), &branches);
    }
    Ok(())
}

fn dense_of(
    rt: &impl Abort,
    alloc: Global,
    plain: &Plain,
    cut: usize,
) -> Result<Box<Dense<Global>>, AllocError> {
    let mut builder = DenseBuilder::new(alloc, cut)?;
    add_dense(rt, alloc, plain, cut, &mut builder)?;
    boxed(alloc, builder.finish()?)
}

fn add_sparse(
    rt: &impl Abort,
    alloc: Global,
    plain: &Plain,
    cut: usize,
    builder: &mut SparseBuilder<Global>,
) -> Result<(), AllocError> {
    for node in cut..plain.node_count() {
        let branches = plain.bytes(alloc, node)?;
        assert!(rt; are_rising(&branches));
        assert!(rt; branches.len() < builder.room_left());
        builder.node(plain.ends(node), &branches);
    }
    Ok(())
}

fn sparse_of(
    rt: &impl Abort,
    alloc: Global,
    plain: &Plain,
    dense: &Dense<Global>,
) -> Result<Box<Sparse<Global>>, AllocError> {
    let mut builder = SparseBuilder::new(alloc, dense.counts(), ROOM)?;
    let cut = dense.node_count() as usize;
    add_sparse(rt, alloc, plain, cut, &mut builder)?;
    boxed(alloc, builder.finish()?)
}

// The dense place of the branch at a plain place of a node.
fn dense_place(plain: &Plain, node: usize, place: Option<u64>) -> Option<u64> {
    match place {
        Some(place) => Some(
            (node as u64)
                .saturating_mul(256)
                .saturating_add(u64::from(plain.letter(place as usize))),
        ),
        None => None,
    }
}

// The plain place before which the branches of a node stand that come before a byte.
fn plain_place(plain: &Plain, node: usize, byte: u16) -> usize {
    match plain.next_branch(node, byte) {
        Some(place) => place as usize,
        None => plain.range(node).1,
    }
}

fn check_dense_place(rt: &impl Abort, dense: &Dense<Global>, plain: &Plain, node: usize, byte: u8) {
    let place = (node as u64)
        .saturating_mul(256)
        .saturating_add(u64::from(byte));
    assert!(rt; place < dense.place_count());
    let before = plain_place(plain, node, u16::from(byte));
    let child = match plain.branch(node, u16::from(byte)) {
        Some(branch) => plain.child(branch as usize),
        None => None,
    };
    assert!(rt; dense.byte_at(place) == byte);
    assert!(rt; dense.child(place) == child);
    assert!(rt; dense.leaf_slot(place) == plain.leaf_slot(before));
    assert!(rt; dense.first_below(place) == plain.first_below(before));
}

fn check_dense_byte(rt: &impl Abort, dense: &Dense<Global>, plain: &Plain, node: usize, byte: u16) {
    if byte > END {
        return;
    }
    let number = node as u64;
    assert!(rt; dense.has_node(number));
    if let Ok(byte) = u8::try_from(byte) {
        let branch = plain.branch(node, u16::from(byte));
        assert!(rt; dense.branch(number, byte) == dense_place(plain, node, branch));
        check_dense_place(rt, dense, plain, node, byte);
    }
    let next = plain.next_branch(node, byte);
    assert!(rt; dense.next_branch(number, byte) == dense_place(plain, node, next));
    let prev = plain.prev_branch(node, byte);
    assert!(rt; dense.prev_branch(number, byte) == dense_place(plain, node, prev));
}

fn check_dense_node(rt: &impl Abort, dense: &Dense<Global>, plain: &Plain, node: usize) {
    assert!(rt; dense.has_node(node as u64));
    assert!(rt; dense.prefix_slot(node as u64) == plain.end_slot(node));
    for letter in LETTERS {
        let byte = u16::from(letter);
        check_dense_byte(rt, dense, plain, node, byte.saturating_sub(1));
        check_dense_byte(rt, dense, plain, node, byte);
        check_dense_byte(rt, dense, plain, node, byte + 1);
    }
}

fn check_sparse_place(
    rt: &impl Abort,
    sparse: &Sparse<Global>,
    plain: &Plain,
    first: usize,
    place: usize,
) {
    let number = place.saturating_sub(first) as u64;
    assert!(rt; number < sparse.place_count());
    assert!(rt; u16::from(sparse.byte_at(number)) == plain.letter(place).min(0xFF));
    assert!(rt; sparse.child(number) == plain.child(place));
    assert!(rt; sparse.leaf_slot(number) == plain.leaf_slot(place));
    assert!(rt; sparse.first_below(number) == plain.first_below(place));
}

// The place of a half that has the places from `first` on.
fn sparse_place(place: Option<u64>, first: usize) -> Option<u64> {
    match place {
        Some(place) => Some(place.saturating_sub(first as u64)),
        None => None,
    }
}

fn check_sparse_byte(
    rt: &impl Abort,
    sparse: &Sparse<Global>,
    plain: &Plain,
    first: usize,
    node: usize,
    byte: u16,
) {
    if byte > END {
        return;
    }
    let number = node as u64;
    assert!(rt; sparse.has_node(number));
    if let Ok(byte) = u8::try_from(byte) {
        let branch = plain.branch(node, u16::from(byte));
        assert!(rt; sparse.branch(number, byte) == sparse_place(branch, first));
    }
    let next = plain.next_branch(node, byte);
    assert!(rt; sparse.next_branch(number, byte) == sparse_place(next, first));
    let prev = plain.prev_branch(node, byte);
    assert!(rt; sparse.prev_branch(number, byte) == sparse_place(prev, first));
}

fn check_sparse_node(
    rt: &impl Abort,
    sparse: &Sparse<Global>,
    plain: &Plain,
    first: usize,
    node: usize,
) {
    let number = node as u64;
    assert!(rt; sparse.has_node(number));
    let (from, to) = plain.range(node);
    let from = from.saturating_sub(first) as u64;
    let to = to.saturating_sub(first) as u64;
    assert!(rt; sparse.first_place(number) == from);
    assert!(rt; sparse.node_range(number) == (from, to));
    assert!(rt; sparse.prefix_slot(number) == plain.end_slot(node));
    for letter in LETTERS {
        let byte = u16::from(letter);
        check_sparse_byte(rt, sparse, plain, first, node, byte.saturating_sub(1));
        check_sparse_byte(rt, sparse, plain, first, node, byte);
        check_sparse_byte(rt, sparse, plain, first, node, byte + 1);
    }
}

fn check_dense(rt: &impl Abort, dense: &Dense<Global>, plain: &Plain, cut: usize) {
    for node in 0..cut {
        check_dense_node(rt, dense, plain, node);
    }
    let first = plain.range(cut).0;
    let behind = dense.place_count();
    assert!(rt; dense.leaf_slot(behind) == plain.leaf_slot(first));
    assert!(rt; dense.first_below(behind) == plain.first_below(first));
}

fn check_sparse_nodes(rt: &impl Abort, sparse: &Sparse<Global>, plain: &Plain, cut: usize) {
    let first = plain.range(cut).0;
    for node in cut..plain.node_count() {
        check_sparse_node(rt, sparse, plain, first, node);
    }
    assert!(rt; sparse.node_count() == plain.node_count().saturating_sub(cut) as u64);
}

fn check_sparse_places(rt: &impl Abort, sparse: &Sparse<Global>, plain: &Plain, cut: usize) {
    let first = plain.range(cut).0;
    for place in first..plain.place_count() {
        check_sparse_place(rt, sparse, plain, first, place);
    }
    assert!(rt; sparse.place_count() == plain.place_count().saturating_sub(first) as u64);
}

fn check_halves(
    rt: &impl Abort,
    alloc: Global,
    plain: &Plain,
    cut: usize,
) -> Result<(), AllocError> {
    let dense = dense_of(rt, alloc, plain, cut)?;
    check_dense(rt, &dense, plain, cut);
    check_dense_sections(rt, &dense, plain, cut);
    let sparse = sparse_of(rt, alloc, plain, &dense)?;
    check_sparse_nodes(rt, &sparse, plain, cut);
    check_sparse_places(rt, &sparse, plain, cut);
    check_sparse_sections(rt, &sparse, plain, cut);
    Ok(())
}

// Cuts a trie before each of its levels, and behind the last.
fn check_cuts(rt: &impl Abort, alloc: Global, plain: &Plain) -> Result<(), AllocError> {
    check_halves(rt, alloc, plain, 0)?;
    let mut cut = 1;
    for _ in 0..LEVELS {
        check_halves(rt, alloc, plain, cut)?;
        if cut == plain.node_count() {
            return Ok(());
        }
        cut = plain.first_below(plain.range(cut).0) as usize;
    }
    assert!(rt; cut == plain.node_count());
    Ok(())
}

fn check_set(rt: &impl Abort, alloc: Global, seed: u64) -> Result<(), AllocError> {
    let count = 2 + (seed >> 40) as usize % 3;
    let letters = &LETTERS[4 - count..];
    let keys = some_keys(alloc, letters, seed, 1 + (seed >> 50) % 12, MAX_KEYS)?;
    if keys.items.is_empty() {
        return Ok(());
    }
    check_cuts(rt, alloc, &Plain::of(alloc, &keys)?)
}

#[test]
fn halves_cut_at_each_level_answer_as_plain_loops(rt: HostRuntime) -> Result<(), Fail> {
    let mut seed = 7;
    for _ in 0..SETS {
        seed = step(seed);
        check_set(&rt, rt.alloc(), seed)?;
    }
    Ok(())
}
