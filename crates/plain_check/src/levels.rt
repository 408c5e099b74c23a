//! The levels of nodes, and the rules on nodes.
use crate::finding::{Stop, refuse};
use crate::header::Header;
use crate::nodes::{END, Node};
use std::alloc::{AllocError, Global};

// How many branches of a node lead to nodes.
fn children_of(node: &Node) -> usize {
    let mut children = 0usize;
    for branch in node.branches.iter() {
        children = children.saturating_add(usize::from(branch.child));
    }
    children
}

// The same of some nodes: so many from one on.
fn children_from(nodes: &[Node], from: usize, many: usize) -> usize {
    let mut children = 0usize;
    for node in nodes.iter().skip(from).take(many) {
        children = children.saturating_add(children_of(node));
    }
    children
}

// How many branches are leaves.
fn leaves_of(nodes: &[Node]) -> usize {
    let mut leaves = 0usize;
    for node in nodes {
        let others = node.branches.len().saturating_sub(children_of(node));
        leaves = leaves.saturating_add(others);
    }
    leaves
}

// How many nodes each of so many levels has, none where the nodes are not so many levels.
fn level_sizes(
    alloc: Global,
    nodes: &[Node],
    height: u16,
) -> Result<Option<Vec<usize>>, AllocError> {
    let mut sizes = Vec::new(alloc);
    let mut at = 0usize;
    let mut size = 1usize;
    for _ in 0..height {
        if size == 0 || size > nodes.len().saturating_sub(at) {
            return Ok(None);
        }
        sizes.push(size)?;
        let children = children_from(nodes, at, size);
        at = at.saturating_add(size);
        size = children;
    }
    let whole = size == 0 && at == nodes.len();
    Ok(if whole { Some(sizes) } else { None })
}

// How many nodes the first levels have.
fn nodes_above(sizes: &[usize], levels: u16) -> u64 {
    let mut nodes = 0u64;
    for size in sizes.iter().take(usize::from(levels)) {
        nodes = nodes.saturating_add(*size as u64);
    }
    nodes
}

// What rule 8 says of levels and leaves.
fn judge_counts(alloc: Global, header: &Header, nodes: &[Node]) -> Result<(), Stop> {
    let Some(sizes) = level_sizes(alloc, nodes, header.height)? else {
        return refuse(true, 8, 8);
    };
    let dense = nodes_above(sizes.as_slice(), header.cutoff);
    let leaves = leaves_of(nodes) as u64;
    refuse(
        dense != header.dense || leaves != u64::from(header.leaves),
        8,
        8,
    )
}

// The place of a letter in the order of a node's branches: END first.
fn rank(letter: u16) -> u16 {
    if letter == END {
        0
    } else {
        letter.saturating_add(1)
    }
}

// Whether the letters rise, and END leads to no node.
fn are_in_order(node: &Node) -> bool {
    let mut least = 0;
    for branch in node.branches.iter() {
        let rank = rank(branch.letter);
        if rank < least || (rank == 0 && branch.child) {
            return false;
        }
        least = rank.saturating_add(1);
    }
    true
}

// Whether a node is none: it has no branch, or they are not in order, or its only branch is END, or a leaf beside others.
fn is_none(node: &Node, leaves: u32) -> bool {
    if node.branches.len() != 1 {
        return node.branches.is_empty() || !are_in_order(node);
    }
    match node.branches.first() {
        Some(only) => only.letter == END || (!only.child && leaves > 1),
        None => true,
    }
}

// Whether a node has the branch END.
fn ends(node: &Node) -> bool {
    for branch in node.branches.iter() {
        if branch.letter == END {
            return true;
        }
    }
    false
}

// Rule 9.
fn judge_nodes(header: &Header, nodes: &[Node]) -> Result<(), Stop> {
    let root = match nodes.first() {
        Some(root) => ends(root) || (header.height > 1 && header.leaves == 1),
        None => true,
    };
    refuse(root, 40, 9)?;
    for node in nodes {
        refuse(is_none(node, header.leaves), node.place, 9)?;
    }
    Ok(())
}

/// What rules 8 and 9 say of the nodes of an image.
pub(crate) fn judge_levels(alloc: Global, header: &Header, nodes: &[Node]) -> Result<(), Stop> {
    judge_counts(alloc, header, nodes)?;
    judge_nodes(header, nodes)
}
