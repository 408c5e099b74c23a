//! Rules 1 to 4, on the header, and rules 1 and 5, on the length.
ghost use Rattle.std.specs.Prelude.{◌≡◌, ◌≤◌, ◌<◌, ◌^◌, ◌∷◌, [], length, MatchOption, None, Some, ⊤};
ghost use Rattle.std.specs.Option.{option_map};
ghost use Rattle.byte_fields.specs.Faults.{fault as fault_at};
ghost use Rattle.filter_codec.specs.Judging.{header_in, image_end, numbers_rule, seen};
ghost use Rattle.filter_image_model.specs.Reading.{bytes_fault, image_head_fault, length_fault as length_rules};

use super::header::Header;
use super::kind::Kind;
use super::writing::HEADER_BYTES;
use byte_fields::{get_u16, get_u32, get_u64};
use filter_api::FilterFault;
use key_base::MAX_KEY_BYTES;

// A fault at a place of the bytes.
fn fault(place: usize, rule: u8) -> Option<FilterFault>
    ensures { option_map seen result ≡ Some (fault_at place rule) }
{
    Some(FilterFault {
        place: place as u64,
        rule,
    })
}

/// The fault of a header: of the rules 1 to 4 of a kind, the first that the bytes break.
#[tactic(auto, unfolding(filter_image_model::specs::Reading::image_head_fault))]
pub(crate) fn head_fault(bytes: &[u8], kind: Kind) -> Option<FilterFault>
    ensures { option_map seen result ≡ image_head_fault kind.hash_bits kind.real_bits bytes.now }
{
    if bytes.len() < HEADER_BYTES {
        return fault(bytes.len(), 1);
    }
    if let Some(found) = beginning_fault(bytes) {
        return Some(found);
    }
    if bytes[5] > kind.hash_bits {
        return fault(5, 3);
    }
    if bytes[6] > kind.real_bits {
        return fault(6, 3);
    }
    if bytes[7] != 0 {
        return fault(7, 3);
    }
    numbers_fault(bytes)
}

// SURF, and version 1.
fn beginning_fault(bytes: &[u8]) -> Option<FilterFault>
    requires { 40 ≤ length bytes.now }
    ensures { option_map seen result ≡ bytes_fault 2 0 (83 ∷ 85 ∷ 82 ∷ 70 ∷ 1 ∷ []) bytes.now }
{
    if bytes[0] != b'S' {
        return fault(0, 2);
    }
    if bytes[1] != b'U' {
        return fault(1, 2);
    }
    if bytes[2] != b'R' {
        return fault(2, 2);
    }
    if bytes[3] != b'F' {
        return fault(3, 2);
    }
    if bytes[4] != 1 {
        return fault(4, 2);
    }
    None
}

// Height, cutoff and leaves.
fn numbers_fault(bytes: &[u8]) -> Option<FilterFault>
    requires { 40 ≤ length bytes.now }
    ensures { option_map seen result ≡ numbers_rule bytes.now }
{
    let height = get_u16(bytes, 10);
    if height == 0 || usize::from(height) > MAX_KEY_BYTES {
        return fault(10, 4);
    }
    if height < get_u16(bytes, 8) {
        return fault(8, 4);
    }
    if get_u32(bytes, 12) == 0 {
        return fault(12, 4);
    }
    None
}

/// The numbers of a header.
pub(crate) fn read_header(bytes: &[u8]) -> Header
    requires { 40 ≤ length bytes.now }
    ensures { result ≡ header_in bytes.now }
{
    Header {
        hash_bits: bytes[5],
        real_bits: bytes[6],
        cutoff: get_u16(bytes, 8),
        height: get_u16(bytes, 10),
        leaves: get_u32(bytes, 12),
        dense: get_u64(bytes, 16),
        sparse: get_u64(bytes, 24),
        labels: get_u64(bytes, 32),
    }
}

/// Fewer bytes than the counts ask for, or more. Where there are as many, they are no more than can be counted.
#[tactic(auto, unfolding(filter_image_model::specs::Reading::length_fault), using(crate::proofs::Numbers::ends_there))]
pub(crate) fn length_fault(bytes: &[u8], header: &Header) -> Option<FilterFault>
    requires { header.now ≡ header_in bytes.now }
    ensures fault { option_map seen result ≡ length_rules bytes.now }
    ensures fits { MatchOption result (image_end header.now < 2 ^ 64) (λ _. ⊤) }
{
    let end = image_bytes(header);
    let len = bytes.len();
    if (len as u128) < end {
        return fault(len, 1);
    }
    if end < len as u128 {
        return fault(end as usize, 5);
    }
    None
}

// The place at which the counts of a header say that the image ends, whatever they are.
fn image_bytes(header: &Header) -> u128
    ensures { result ≡ image_end header.now }
{
    let dense = u128::from(header.dense);
    let labels = u128::from(header.labels);
    let width = u128::from(header.hash_bits) + u128::from(header.real_bits);
    40 + 64 * dense
        + dense.div_ceil(8)
        + labels
        + 2 * labels.div_ceil(8)
        + (u128::from(header.leaves) * width).div_ceil(8)
}
