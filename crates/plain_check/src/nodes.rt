//! The nodes that an image spells, level by level from the root.
use crate::bytes::{bit, byte};
use crate::header::{CHILDREN, DENSE_CHILDREN, DENSE_ENDS, DENSE_LABELS, Header, LABELS, LOUDS};
use std::alloc::{AllocError, Global};

/// The letter of the branch that ends; the others are bytes.
pub(crate) const END: u16 = 256;

// The last byte, by which a sparse node spells END.
const LAST: u16 = 255;

/// A branch of a node: its letter, and whether it leads to a node.
#[derive(Clone, Copy)]
pub(crate) struct Branch {
    pub letter: u16,
    pub child: bool,
}

/// A node: the first byte of its labels, and its branches.
#[derive(Drop)]
pub(crate) struct Node {
    pub place: u64,
    pub branches: Vec<Branch>,
}

fn push(nodes: &mut Vec<Node>, node: Node) -> Result<(), AllocError> {
    nodes.push(node)?;
    Ok(())
}

// Dense node `i`: a bit for END, and one for each byte.
fn dense_node(alloc: Global, bytes: &[u8], header: &Header, i: u64) -> Result<Node, AllocError> {
    let labels = header.section(DENSE_LABELS);
    let children = header.section(DENSE_CHILDREN);
    let mut branches = Vec::new(alloc);
    if bit(bytes, header.section(DENSE_ENDS), i) {
        branches.push(Branch {
            letter: END,
            child: false,
        })?;
    }
    for letter in 0..END {
        let place = i.saturating_mul(256).saturating_add(u64::from(letter));
        if bit(bytes, labels, place) {
            let child = bit(bytes, children, place);
            branches.push(Branch { letter, child })?;
        }
    }
    let place = labels.saturating_add(i.saturating_mul(32));
    Ok(Node { place, branches })
}

// Adds the dense nodes.
fn add_dense(
    alloc: Global,
    bytes: &[u8],
    header: &Header,
    nodes: &mut Vec<Node>,
) -> Result<(), AllocError> {
    for i in 0..header.dense {
        push(nodes, dense_node(alloc, bytes, header, i)?)?;
    }
    Ok(())
}

// Adds a branch to the last node.
fn add_branch(nodes: &mut Vec<Node>, branch: Branch) -> Result<(), AllocError> {
    if let Some(node) = nodes.last_mut() {
        node.branches.push(branch)?;
    }
    Ok(())
}

// Adds sparse label `i`: to a new node where it opens one.
fn add_label(
    alloc: Global,
    bytes: &[u8],
    header: &Header,
    i: u64,
    nodes: &mut Vec<Node>,
) -> Result<(), AllocError> {
    let place = header.section(LABELS).saturating_add(i);
    if bit(bytes, header.section(LOUDS), i) {
        let branches = Vec::new(alloc);
        push(nodes, Node { place, branches })?;
    }
    let letter = u16::from(byte(bytes, place));
    let child = bit(bytes, header.section(CHILDREN), i);
    add_branch(nodes, Branch { letter, child })
}

// The first of two or more labels is END where it is the last byte.
fn name_end(branches: &mut [Branch]) {
    if branches.len() > 1 && branches[0].letter == LAST {
        branches[0].letter = END;
    }
}

// The sparse nodes.
fn sparse_nodes(alloc: Global, bytes: &[u8], header: &Header) -> Result<Vec<Node>, AllocError> {
    let mut nodes = Vec::new(alloc);
    for i in 0..header.labels {
        add_label(alloc, bytes, header, i, &mut nodes)?;
    }
    for node in nodes.iter_mut() {
        name_end(node.branches.as_mut_slice());
    }
    Ok(nodes)
}

/// The nodes of an image that keeps the rules of its header.
pub(crate) fn nodes_in(
    alloc: Global,
    bytes: &[u8],
    header: &Header,
) -> Result<Vec<Node>, AllocError> {
    let mut nodes = Vec::new(alloc);
    add_dense(alloc, bytes, header, &mut nodes)?;
    for node in sparse_nodes(alloc, bytes, header)? {
        push(&mut nodes, node)?;
    }
    Ok(nodes)
}
