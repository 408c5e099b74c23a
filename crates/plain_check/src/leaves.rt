//! The leaves of an image.
use crate::bytes::{bit, part};
use crate::finding::{Stop, refuse};
use crate::header::{Header, SUFFIXES};
use crate::nodes::{END, Node};
use std::alloc::{AllocError, Global};

/// A leaf: its stub, whether its key ends there, and the bits of the hash and of the key.
#[derive(Debug, Drop, PartialEq, Eq, PartialOrd, Ord)]
pub(crate) struct Leaf {
    pub stub: Vec<u8>,
    pub ends: bool,
    pub hash: u64,
    pub real: u64,
}

// The number of so many bits from one on, the lowest first.
fn number_at(bytes: &[u8], section: u64, from: u64, width: u8) -> u64 {
    let mut number = 0u64;
    for i in (0..u64::from(width)).rev() {
        let bit = bit(bytes, section, from.saturating_add(i));
        number = number.wrapping_mul(2) | u64::from(bit);
    }
    number
}

// The leaf with this stub whose suffix has this number.
fn leaf_at(bytes: &[u8], header: &Header, slot: usize, stub: Vec<u8>, ends: bool) -> Leaf {
    let section = header.section(SUFFIXES);
    let from = header.width().saturating_mul(slot as u64);
    let real = from.saturating_add(u64::from(header.hash_bits));
    Leaf {
        stub,
        ends,
        hash: number_at(bytes, section, from, header.hash_bits),
        real: number_at(bytes, section, real, header.real_bits),
    }
}

// The path of node `i`, with one letter more where that is a byte.
fn path_from(
    alloc: Global,
    paths: &[Vec<u8>],
    i: usize,
    letter: u16,
) -> Result<Vec<u8>, AllocError> {
    let mut path = match paths.get(i) {
        Some(path) => part(alloc, path.as_slice(), 0, path.len() as u64)?,
        None => Vec::new(alloc),
    };
    if letter != END {
        path.push(letter.to_le_bytes()[0])?;
    }
    Ok(path)
}

// What was come by: the paths of nodes, and leaves, both in the order of the nodes.
#[derive(Drop)]
struct Seen {
    paths: Vec<Vec<u8>>,
    leaves: Vec<Leaf>,
}

// The root alone.
fn at_root(alloc: Global) -> Result<Seen, AllocError> {
    let mut paths = Vec::new(alloc);
    paths.push(Vec::new(alloc))?;
    let leaves = Vec::new(alloc);
    Ok(Seen { paths, leaves })
}

// Adds a branch of node `i`.
fn add_branch(
    alloc: Global,
    bytes: &[u8],
    header: &Header,
    i: usize,
    letter: u16,
    child: bool,
    seen: &mut Seen,
) -> Result<(), AllocError> {
    let path = path_from(alloc, seen.paths.as_slice(), i, letter)?;
    if child {
        seen.paths.push(path)?;
        return Ok(());
    }
    let leaf = leaf_at(bytes, header, seen.leaves.len(), path, letter == END);
    seen.leaves.push(leaf)?;
    Ok(())
}

// Adds the branches of node `i`.
fn add_node(
    alloc: Global,
    bytes: &[u8],
    header: &Header,
    i: usize,
    node: &Node,
    seen: &mut Seen,
) -> Result<(), AllocError> {
    for branch in node.branches.iter() {
        add_branch(alloc, bytes, header, i, branch.letter, branch.child, seen)?;
    }
    Ok(())
}

// Rule 10, of leaves in the order of their slots.
fn judge_ends(header: &Header, leaves: &[Leaf]) -> Result<(), Stop> {
    for (slot, leaf) in leaves.iter().enumerate() {
        let from = header.width().saturating_mul(slot as u64);
        let place = header.section(SUFFIXES).saturating_add(from / 8);
        refuse(leaf.ends && leaf.real != 0, place, 10)?;
    }
    Ok(())
}

/// The leaves of an image whose nodes keep their rules, in the order of their stubs.
pub(crate) fn leaves_in(
    alloc: Global,
    bytes: &[u8],
    header: &Header,
    nodes: &[Node],
) -> Result<Vec<Leaf>, Stop> {
    let mut seen = at_root(alloc)?;
    for (i, node) in nodes.iter().enumerate() {
        add_node(alloc, bytes, header, i, node, &mut seen)?;
    }
    judge_ends(header, seen.leaves.as_slice())?;
    seen.leaves.sort()?;
    Ok(seen.leaves)
}

/// The least number at which two lists differ, or at which one has no leaf more.
pub(crate) fn first_difference(leaves: &[Leaf], others: &[Leaf]) -> Option<u64> {
    for (number, leaf) in leaves.iter().enumerate() {
        if others.get(number) != Some(leaf) {
            return Some(number as u64);
        }
    }
    if leaves.len() < others.len() {
        return Some(leaves.len() as u64);
    }
    None
}
