//! A slow judge of images: the rules of the format in their order, over single bits and a plain list of nodes.

use super::bits::{byte_at, is_set, number_at};
use super::knots::{Knot, counts_fault, ends_fault, knots_of, shape_fault};
use filter_api::FilterFault;
use std::alloc::{AllocError, Global};

// How many bytes stand before the sections.
const HEADER_BYTES: u64 = 40;

// The first bytes of the header.
const MAGIC: &[u8] = b"SURF\x01";

/// The numbers of a header.
#[derive(Clone, Copy)]
pub(crate) struct Numbers {
    pub(crate) hash_bits: u64,
    pub(crate) real_bits: u64,
    pub(crate) cutoff: u64,
    pub(crate) height: u64,
    pub(crate) leaves: u64,
    pub(crate) dense: u64,
    pub(crate) sparse: u64,
    pub(crate) labels: u64,
}

/// A section: where it begins, and how many bits it has.
#[derive(Clone, Copy)]
pub(crate) struct Section {
    pub(crate) place: u64,
    pub(crate) bits: u64,
}

/// Whose images are judged.
#[derive(Clone, Copy, PartialEq, Eq)]
pub(crate) enum Kind {
    Filters,
    WholeKeys,
}

/// The first rule of a kind that bytes break, and the place where they do, or `None` where they are an image.
pub(crate) fn judge(
    alloc: Global,
    bytes: &[u8],
    kind: Kind,
) -> Result<Option<FilterFault>, AllocError> {
    let numbers = numbers_of(bytes);
    let sections = sections_of(&numbers);
    let outer = outer_fault(bytes, &numbers, sections, kind);
    if outer.is_some() {
        return Ok(outer);
    }
    let knots = knots_of(alloc, bytes, &numbers, sections)?;
    let opens = is_set(bytes, sections[5].place, 0) || numbers.labels == 0;
    let place = sections[6].place;
    let knots = knots.as_slice();
    Ok(inner_fault(bytes, &numbers, place, knots, opens, kind))
}

// Rules 1 to 7.
fn outer_fault(
    bytes: &[u8],
    numbers: &Numbers,
    sections: [Section; 8],
    kind: Kind,
) -> Option<FilterFault> {
    let early = header_fault(bytes, kind)
        .or(numbers_fault(numbers))
        .or(length_fault(bytes.len() as u64, sections[7].place));
    if early.is_some() {
        return early;
    }
    padding_fault(bytes, sections).or(stray_fault(bytes, sections[0], sections[1].place))
}

// Rules 8 to 10, where the suffixes begin at a place and it is said whether the first label opens a node.
fn inner_fault(
    bytes: &[u8],
    numbers: &Numbers,
    place: u64,
    knots: &[Knot],
    opens: bool,
    kind: Kind,
) -> Option<FilterFault> {
    counts_fault(numbers, knots, opens)
        .or(shape_fault(numbers, knots, kind))
        .or(ends_fault(bytes, numbers, place, knots))
}

/// A fault at a place.
pub(crate) fn fault(place: u64, rule: u8) -> Option<FilterFault> {
    Some(FilterFault { place, rule })
}

// ---- 1 to 4, on the header

fn header_fault(bytes: &[u8], kind: Kind) -> Option<FilterFault> {
    if (bytes.len() as u64) < HEADER_BYTES {
        return fault(bytes.len() as u64, 1);
    }
    magic_fault(bytes).or(widths_fault(bytes, kind))
}

fn magic_fault(bytes: &[u8]) -> Option<FilterFault> {
    for place in 0..5 {
        if byte_at(bytes, place) != byte_at(MAGIC, place) {
            return fault(place, 2);
        }
    }
    None
}

// The widths of the suffixes, and a byte that is not used.
fn widths_fault(bytes: &[u8], kind: Kind) -> Option<FilterFault> {
    let most = match kind {
        Kind::Filters => 32,
        Kind::WholeKeys => 0,
    };
    if byte_at(bytes, 5) > most {
        return fault(5, 3);
    }
    if byte_at(bytes, 6) > most {
        return fault(6, 3);
    }
    if byte_at(bytes, 7) > 0 {
        return fault(7, 3);
    }
    None
}

fn numbers_of(bytes: &[u8]) -> Numbers {
    Numbers {
        hash_bits: number_at(bytes, 5, 1),
        real_bits: number_at(bytes, 6, 1),
        cutoff: number_at(bytes, 8, 2),
        height: number_at(bytes, 10, 2),
        leaves: number_at(bytes, 12, 4),
        dense: number_at(bytes, 16, 8),
        sparse: number_at(bytes, 24, 8),
        labels: number_at(bytes, 32, 8),
    }
}

fn numbers_fault(numbers: &Numbers) -> Option<FilterFault> {
    if numbers.height == 0 || numbers.height > 1024 {
        return fault(10, 4);
    }
    if numbers.cutoff > numbers.height {
        return fault(8, 4);
    }
    if numbers.leaves == 0 {
        return fault(12, 4);
    }
    None
}

// ---- 1 and 5 to 7, on the sections

// The seven sections, and one of no bits where the last one ends. What no number holds is the greatest one.
fn sections_of(numbers: &Numbers) -> [Section; 8] {
    let rows = numbers.dense.saturating_mul(256);
    let width = numbers.hash_bits.saturating_add(numbers.real_bits);
    let bits = [
        rows,
        rows,
        numbers.dense,
        numbers.labels.saturating_mul(8),
        numbers.labels,
        numbers.labels,
        numbers.leaves.saturating_mul(width),
        0,
    ];
    placed(bits)
}

fn placed(bits: [u64; 8]) -> [Section; 8] {
    let mut place = HEADER_BYTES;
    let mut sections = [Section { place, bits: 0 }; 8];
    for i in 0..8 {
        sections[i] = Section {
            place,
            bits: bits[i],
        };
        place = place.saturating_add(bits[i].div_ceil(8));
    }
    sections
}

fn length_fault(len: u64, end: u64) -> Option<FilterFault> {
    if len < end {
        return fault(len, 1);
    }
    if end < len {
        return fault(end, 5);
    }
    None
}

fn padding_fault(bytes: &[u8], sections: [Section; 8]) -> Option<FilterFault> {
    for section in sections {
        if has_padding(bytes, section) {
            return fault(section.place.wrapping_add(section.bits / 8), 6);
        }
    }
    None
}

fn has_padding(bytes: &[u8], section: Section) -> bool {
    for i in section.bits..section.bits.div_ceil(8).saturating_mul(8) {
        if is_set(bytes, section.place, i) {
            return true;
        }
    }
    false
}

fn stray_fault(bytes: &[u8], labels: Section, children: u64) -> Option<FilterFault> {
    for i in 0..labels.bits / 8 {
        let place = children.wrapping_add(i);
        let label = byte_at(bytes, labels.place.wrapping_add(i));
        if byte_at(bytes, place) & !label != 0 {
            return fault(place, 7);
        }
    }
    None
}
