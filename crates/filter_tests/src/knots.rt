//! The nodes that an image spells, as plain lists of branches, and rules 8 to 10 on them.

use super::bits::{byte_at, is_set};
use super::judge::{Kind, Numbers, Section, fault};
use filter_api::FilterFault;
use std::alloc::{AllocError, Global};

// END as a letter, one below all bytes: the letter of a byte is one more than the byte.
const END: u16 = 0;

// A branch: its letter, and whether it leads to a node.
#[derive(Clone, Copy)]
pub(crate) struct Edge {
    letter: u16,
    child: bool,
}

/// A node, and the place of its first byte of labels.
#[derive(Drop)]
pub(crate) struct Knot {
    place: u64,
    edges: Vec<Edge>,
}

/// The nodes of the sections, whatever they spell.
pub(crate) fn knots_of(
    alloc: Global,
    bytes: &[u8],
    numbers: &Numbers,
    sections: [Section; 8],
) -> Result<Vec<Knot>, AllocError> {
    let mut knots = Vec::new(alloc);
    for number in 0..numbers.dense {
        knots.push(dense_knot(alloc, bytes, sections, number)?)?;
    }
    for label in 0..numbers.labels {
        if is_set(bytes, sections[5].place, label) {
            knots.push(sparse_knot(alloc, bytes, sections, label)?)?;
        }
    }
    Ok(knots)
}

fn dense_knot(
    alloc: Global,
    bytes: &[u8],
    sections: [Section; 8],
    number: u64,
) -> Result<Knot, AllocError> {
    let mut edges = Vec::new(alloc);
    if is_set(bytes, sections[2].place, number) {
        edges.push(Edge {
            letter: END,
            child: false,
        })?;
    }
    let first = number.wrapping_mul(32);
    let place = sections[0].place.wrapping_add(first);
    let children = sections[1].place.wrapping_add(first);
    for i in 0..32 {
        if byte_at(bytes, place.wrapping_add(i)) != 0 {
            push_edges(&mut edges, bytes, place, children, i)?;
        }
    }
    Ok(Knot { place, edges })
}

// The branches of eight bytes of a dense node, whose bits stand in one byte.
fn push_edges(
    edges: &mut Vec<Edge>,
    bytes: &[u8],
    labels: u64,
    children: u64,
    place: u64,
) -> Result<(), AllocError> {
    for i in 0..8 {
        let bit = place.wrapping_mul(8).wrapping_add(i);
        if is_set(bytes, labels, bit) {
            edges.push(Edge {
                letter: (bit % 256) as u16 + 1,
                child: is_set(bytes, children, bit),
            })?;
        }
    }
    Ok(())
}

// The node that a label opens. A first label FF of several is END.
fn sparse_knot(
    alloc: Global,
    bytes: &[u8],
    sections: [Section; 8],
    first: u64,
) -> Result<Knot, AllocError> {
    let place = sections[3].place.wrapping_add(first);
    let mut edges = Vec::new(alloc);
    for label in first..sections[4].bits {
        if label > first && is_set(bytes, sections[5].place, label) {
            break;
        }
        let byte = byte_at(bytes, sections[3].place.wrapping_add(label));
        let child = is_set(bytes, sections[4].place, label);
        edges.push(Edge {
            letter: u16::from(byte) + 1,
            child,
        })?;
    }
    if edges.len() > 1 && edges[0].letter == 256 {
        edges[0].letter = END;
    }
    Ok(Knot { place, edges })
}

// How many branches of a node lead to a node, or are leaves.
fn edge_count(knot: &Knot, child: bool) -> u64 {
    knot.edges.iter().filter(|edge| edge.child == child).count() as u64
}

fn edges_of_all(knots: &[Knot], child: bool) -> u64 {
    let mut count = 0u64;
    for knot in knots {
        count = count.wrapping_add(edge_count(knot, child));
    }
    count
}

// ---- 8: the counts

/// Rule 8, where it is said whether the first label opens a node.
pub(crate) fn counts_fault(numbers: &Numbers, knots: &[Knot], opens: bool) -> Option<FilterFault> {
    let count = numbers.dense.saturating_add(numbers.sparse);
    if opens
        && knots.len() as u64 == count
        && edges_of_all(knots, false) == numbers.leaves
        && are_levels(numbers, knots)
    {
        return None;
    }
    fault(8, 8)
}

// Whether the nodes are levels, as many as there shall be, and those above the cutoff are the dense ones.
fn are_levels(numbers: &Numbers, knots: &[Knot]) -> bool {
    let mut start = 0;
    let mut end = 1;
    let mut dense = 0;
    for level in 0..numbers.height {
        if level == numbers.cutoff {
            dense = start;
        }
        if start >= end || end > knots.len() {
            return false;
        }
        let below = edges_of_all(&knots[start..end], true) as usize;
        start = end;
        end = end.saturating_add(below);
    }
    if numbers.cutoff == numbers.height {
        dense = start;
    }
    start == end && start == knots.len() && dense as u64 == numbers.dense
}

// ---- 9: the nodes

/// Rule 9.
pub(crate) fn shape_fault(numbers: &Numbers, knots: &[Knot], kind: Kind) -> Option<FilterFault> {
    let filters = kind == Kind::Filters;
    if let Some(root) = knots.first() {
        if has_end(root) || filters && numbers.height > 1 && numbers.leaves == 1 {
            return fault(root.place, 9);
        }
    }
    for knot in knots {
        if is_wrong(knot, filters && numbers.leaves > 1) {
            return fault(knot.place, 9);
        }
    }
    None
}

// Where a node may be one leaf alone, or may not.
fn is_wrong(knot: &Knot, together: bool) -> bool {
    match knot.edges.as_slice() {
        [] => true,
        [edge] => edge.letter == END || !edge.child && together,
        [first, ..] => first.letter == END && first.child || !is_rising(knot),
    }
}

fn has_end(knot: &Knot) -> bool {
    match knot.edges.first() {
        Some(edge) => edge.letter == END,
        None => false,
    }
}

fn is_rising(knot: &Knot) -> bool {
    let mut least = 0;
    for edge in knot.edges.as_slice() {
        if edge.letter < least {
            return false;
        }
        least = edge.letter.saturating_add(1);
    }
    true
}

// ---- 10: leaves that end

/// Rule 10, where the suffixes begin at a place.
pub(crate) fn ends_fault(
    bytes: &[u8],
    numbers: &Numbers,
    place: u64,
    knots: &[Knot],
) -> Option<FilterFault> {
    let width = numbers.hash_bits.wrapping_add(numbers.real_bits);
    let mut slot = 0u64;
    for knot in knots {
        let first = slot.wrapping_mul(width);
        if has_end(knot) && has_real(bytes, numbers, place, first) {
            return fault(place.wrapping_add(first / 8), 10);
        }
        slot = slot.wrapping_add(edge_count(knot, false));
    }
    None
}

// Whether a suffix that begins at a bit has real bits.
fn has_real(bytes: &[u8], numbers: &Numbers, place: u64, first: u64) -> bool {
    for i in 0..numbers.real_bits {
        if is_set(
            bytes,
            place,
            first.wrapping_add(numbers.hash_bits).wrapping_add(i),
        ) {
            return true;
        }
    }
    false
}
