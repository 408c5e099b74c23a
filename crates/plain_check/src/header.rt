//! The header of a filter's image, its sections, and the rules on both.
use crate::bytes::{bit, byte, bytes_for, eight, four, two};
use crate::finding::{Stop, refuse};

/// The numbers of an image's header.
#[derive(Clone, Copy)]
pub(crate) struct Header {
    pub hash_bits: u8,
    pub real_bits: u8,
    pub cutoff: u16,
    pub height: u16,
    pub leaves: u32,
    pub dense: u64,
    pub sparse: u64,
    pub labels: u64,
}

/// The sections, by their numbers.
pub(crate) const DENSE_LABELS: usize = 0;

pub(crate) const DENSE_CHILDREN: usize = 1;

pub(crate) const DENSE_ENDS: usize = 2;

pub(crate) const LABELS: usize = 3;

pub(crate) const CHILDREN: usize = 4;

pub(crate) const LOUDS: usize = 5;

pub(crate) const SUFFIXES: usize = 6;

impl Header {
    pub(crate) fn of(bytes: &[u8]) -> Header {
        Header {
            hash_bits: byte(bytes, 5),
            real_bits: byte(bytes, 6),
            cutoff: two(bytes, 8),
            height: two(bytes, 10),
            leaves: four(bytes, 12),
            dense: eight(bytes, 16),
            sparse: eight(bytes, 24),
            labels: eight(bytes, 32),
        }
    }

    /// The bits of a leaf's suffix.
    pub(crate) fn width(&self) -> u64 {
        u64::from(self.hash_bits) + u64::from(self.real_bits)
    }

    // How many bits each section has.
    fn bits(&self) -> [u64; 7] {
        let rows = self.dense.saturating_mul(256);
        let labels = self.labels.saturating_mul(8);
        let suffixes = u64::from(self.leaves).saturating_mul(self.width());
        [
            rows,
            rows,
            self.dense,
            labels,
            self.labels,
            self.labels,
            suffixes,
        ]
    }

    /// Where a section begins; of number 7, where the image ends.
    pub(crate) fn section(&self, number: usize) -> u64 {
        let mut place = 40u64;
        for bits in self.bits().iter().take(number) {
            place = place.saturating_add(bytes_for(*bits));
        }
        place
    }
}

// Rule 2: `SURF` and the version.
fn judge_name(bytes: &[u8]) -> Result<(), Stop> {
    for (place, wanted) in b"SURF\x01".iter().enumerate() {
        let place = place as u64;
        refuse(byte(bytes, place) != *wanted, place, 2)?;
    }
    Ok(())
}

// Rules 3 and 4.
fn judge_numbers(bytes: &[u8], header: &Header) -> Result<(), Stop> {
    refuse(header.hash_bits > 32, 5, 3)?;
    refuse(header.real_bits > 32, 6, 3)?;
    refuse(byte(bytes, 7) != 0, 7, 3)?;
    refuse(header.height == 0 || header.height > 1_024, 10, 4)?;
    refuse(header.cutoff > header.height, 8, 4)?;
    refuse(header.leaves == 0, 12, 4)
}

// Rules 1 and 5 on the whole.
fn judge_length(bytes: &[u8], header: &Header) -> Result<(), Stop> {
    let length = bytes.len() as u64;
    let end = header.section(7);
    refuse(length < end, length, 1)?;
    refuse(end < length, end, 5)
}

// Rule 6: a bit after the last one of a section.
fn judge_padding(bytes: &[u8], header: &Header) -> Result<(), Stop> {
    for (number, bits) in header.bits().iter().enumerate() {
        let last = header.section(number).saturating_add(bits / 8);
        let spare = bits % 8 != 0 && byte(bytes, last) >> (bits % 8) != 0;
        refuse(spare, last, 6)?;
    }
    Ok(())
}

// Rule 7: a child where no label is.
fn judge_strays(bytes: &[u8], header: &Header) -> Result<(), Stop> {
    let labels = header.section(DENSE_LABELS);
    let children = header.section(DENSE_CHILDREN);
    for i in 0..header.dense.saturating_mul(256) {
        let stray = bit(bytes, children, i) && !bit(bytes, labels, i);
        refuse(stray, children.saturating_add(i / 8), 7)?;
    }
    Ok(())
}

// How many sparse nodes open.
fn opened(bytes: &[u8], header: &Header) -> u64 {
    let louds = header.section(LOUDS);
    let mut opened = 0u64;
    for i in 0..header.labels {
        opened = opened.saturating_add(u64::from(bit(bytes, louds, i)));
    }
    opened
}

// What rule 8 says of the bits that open sparse nodes.
fn judge_openings(bytes: &[u8], header: &Header) -> Result<(), Stop> {
    let clear = header.labels > 0 && !bit(bytes, header.section(LOUDS), 0);
    refuse(opened(bytes, header) != header.sparse || clear, 8, 8)
}

/// The rules that need no node, of an image with this header.
pub(crate) fn judge_header(bytes: &[u8], header: &Header) -> Result<(), Stop> {
    let length = bytes.len() as u64;
    refuse(length < 40, length, 1)?;
    judge_name(bytes)?;
    judge_numbers(bytes, header)?;
    judge_length(bytes, header)?;
    judge_padding(bytes, header)?;
    judge_strays(bytes, header)?;
    judge_openings(bytes, header)
}
