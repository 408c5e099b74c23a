//! Where the sections of an image stand, and rules 6 and 7 on them.
ghost use Rattle.std.specs.Prelude.{◌≡◌, ◌≤◌, ◌<◌, ◌^◌, ◌+◌, ◌/◌, length, None};
ghost use Rattle.std.specs.Int.{div_ceil};
ghost use Rattle.std.specs.Option.{option_map};
ghost use Rattle.byte_fields.specs.Faults.{refuse};
ghost use Rattle.filter_codec.specs.Judging.{header_in, image_end, places_by, seen, stray_rule};
ghost use Rattle.filter_image_model.specs.Header.{section_bits, section_bytes};
ghost use Rattle.filter_image_model.specs.Reading.{has_padding as is_padded, padding_fault as padding_rule};

use super::header::{Header, Places};
use super::writing::HEADER_BYTES;
use filter_api::FilterFault;

/// The bytes of the seven sections.
#[derive(Clone, Copy)]
pub(crate) struct Sections<'a> {
    pub(crate) dense_labels: &'a [u8],
    pub(crate) dense_children: &'a [u8],
    pub(crate) dense_ends: &'a [u8],
    pub(crate) labels: &'a [u8],
    pub(crate) children: &'a [u8],
    pub(crate) louds: &'a [u8],
    pub(crate) suffixes: &'a [u8],
}

/// Where the sections begin.
pub(crate) fn section_places(header: &Header) -> Places
    requires { image_end header.now < 2 ^ 64 }
    ensures { result ≡ places_by header.now }
{
    let dense = header.dense as usize;
    let labels = HEADER_BYTES + 64 * dense + dense.div_ceil(8);
    let children = labels + header.labels as usize;
    let louds = children + (header.labels as usize).div_ceil(8);
    Places {
        dense_children: HEADER_BYTES + 32 * dense,
        dense_ends: HEADER_BYTES + 64 * dense,
        labels,
        children,
        louds,
        suffixes: louds + (header.labels as usize).div_ceil(8),
    }
}

/// A bit behind the last one of a section, in its last byte.
pub(crate) fn padding_fault(bytes: &[u8], header: &Header, places: &Places) -> Option<FilterFault>
    requires header { header.now ≡ header_in bytes.now }
    requires places { places.now ≡ places_by header.now }
    requires whole { image_end header.now ≡ length bytes.now }
    ensures { option_map seen result ≡ padding_rule 40 (section_bits bytes.now) bytes.now }
{
    let labels = header.labels as usize;
    if let Some(found) = padding_in(bytes, places.dense_ends, header.dense as usize) {
        return Some(found);
    }
    if let Some(found) = padding_in(bytes, places.children, labels) {
        return Some(found);
    }
    if let Some(found) = padding_in(bytes, places.louds, labels) {
        return Some(found);
    }
    let width = usize::from(header.hash_bits) + usize::from(header.real_bits);
    padding_in(bytes, places.suffixes, header.leaves as usize * width)
}

// A bit behind the last one of a section that begins at a place.
fn padding_in(bytes: &[u8], place: usize, bits: usize) -> Option<FilterFault>
    requires { place + div_ceil bits 8 ≤ length bytes.now }
    ensures { option_map seen result ≡ refuse (is_padded place bits bytes.now) (place + bits / 8) 6 None }
{
    if has_padding(bytes, place, bits) {
        Some(FilterFault {
            place: (place + bits / 8) as u64,
            rule: 6,
        })
    } else {
        None
    }
}

fn has_padding(bytes: &[u8], place: usize, bits: usize) -> bool
    requires { place + div_ceil bits 8 ≤ length bytes.now }
    ensures { result ≡ is_padded place bits bytes.now }
{
    bits % 8 != 0 && bytes[place + bits / 8] >> (bits % 8) != 0
}

/// The sections, cut at their places.
pub(crate) fn cut<'a>(bytes: &'a [u8], header: &Header, places: &Places) -> Sections<'a>
    requires header { header.now ≡ header_in bytes.now }
    requires places { places.now ≡ places_by header.now }
    requires whole { image_end header.now ≡ length bytes.now }
    ensures dense_labels { result.dense_labels.now ≡ section_bytes 0 bytes.now }
    ensures dense_children { result.dense_children.now ≡ section_bytes 1 bytes.now }
    ensures dense_ends { result.dense_ends.now ≡ section_bytes 2 bytes.now }
    ensures labels { result.labels.now ≡ section_bytes 3 bytes.now }
    ensures children { result.children.now ≡ section_bytes 4 bytes.now }
    ensures louds { result.louds.now ≡ section_bytes 5 bytes.now }
    ensures suffixes { result.suffixes.now ≡ section_bytes 6 bytes.now }
{
    Sections {
        dense_labels: &bytes[HEADER_BYTES..places.dense_children],
        dense_children: &bytes[places.dense_children..places.dense_ends],
        dense_ends: &bytes[places.dense_ends..places.labels],
        labels: &bytes[places.labels..places.children],
        children: &bytes[places.children..places.louds],
        louds: &bytes[places.louds..places.suffixes],
        suffixes: &bytes[places.suffixes..],
    }
}

/// A bit of the children whose bit of the labels is clear.
pub(crate) fn stray_fault(labels: &[u8], children: &[u8]) -> Option<FilterFault>
    requires same { length children.now ≡ length labels.now }
    requires few { 40 + length labels.now + length labels.now < 2 ^ 64 }
    ensures { option_map seen result ≡ stray_rule labels.now children.now }
{
    for i in 0..labels.len() {
        if children[i] & !labels[i] != 0 {
            return Some(FilterFault {
                place: (HEADER_BYTES + labels.len() + i) as u64,
                rule: 7,
            });
        }
    }
    None
}
