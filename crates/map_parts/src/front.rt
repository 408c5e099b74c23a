//! Rules 1 to 4: whether the bytes are enough, and the head.
ghost use Rattle.std.specs.Prelude.{◌≡◌, ◌≤◌, ◌∷◌, [], length, IfNone};
ghost use Rattle.std.specs.Option.{option_map};
ghost use Rattle.filter_image_model.specs.Reading.{bytes_fault};
ghost use Rattle.map_file_model.specs.Reading.{body_end, head_fault, short_fault, values_place};
ghost use Rattle.map_parts.specs.Parts.{HasParts, front_rules, seen};

use super::fault::{MapFault, fault};
use super::parts::HEAD_BYTES;
use byte_fields::{get_u32, get_u64};

/// The most pairs of a map.
const MAX_PAIRS: u32 = 1_000_000;

/// The first of the rules 1 to 4 that the bytes break. Where there is none, the bytes have the parts of a body.
pub fn front_fault(bytes: &[u8]) -> Option<MapFault>
    ensures rules { option_map seen result ≡ front_rules bytes.now }
    ensures parts { IfNone result (HasParts bytes.now) }
{
    if let Some(found) = short_rule(bytes) {
        return Some(found);
    }
    head_rules(bytes)
}

// Rule 1: fewer bytes than a head has, than it asks for up to the last offset, or than that offset asks for.
#[tactic(auto, unfolding(map_file_model::specs::Reading::short_fault))]
fn short_rule(bytes: &[u8]) -> Option<MapFault>
    ensures rule { option_map seen result ≡ short_fault bytes.now }
    ensures parts { IfNone result (HasParts bytes.now) }
{
    let len = bytes.len();
    if len < HEAD_BYTES {
        return fault(len, 1);
    }
    if (len as u128) < values_begin(bytes) {
        return fault(len, 1);
    }
    if (len as u128) < body_ends(bytes) {
        return fault(len, 1);
    }
    None
}

// Where the head says that the values begin, whatever its numbers are.
fn values_begin(bytes: &[u8]) -> u128
    requires { 24 ≤ length bytes.now }
    ensures { result ≡ values_place bytes.now }
{
    24 + u128::from(get_u64(bytes, 16)) + 8 * (u128::from(get_u32(bytes, 8)) + 1)
}

// Where the last offset says that the body ends, whatever it is.
fn body_ends(bytes: &[u8]) -> u128
    requires long { 24 ≤ length bytes.now }
    requires values { values_place bytes.now ≤ length bytes.now }
    ensures { result ≡ body_end bytes.now }
{
    let offsets = HEAD_BYTES + get_u64(bytes, 16) as usize;
    let last = offsets + 8 * get_u32(bytes, 8) as usize;
    values_begin(bytes) + u128::from(get_u64(bytes, last)) + 8
}

// Rules 2 to 4, on the head.
#[tactic(auto, unfolding(map_file_model::specs::Reading::head_fault))]
fn head_rules(bytes: &[u8]) -> Option<MapFault>
    requires { 24 ≤ length bytes.now }
    ensures { option_map seen result ≡ head_fault bytes.now }
{
    if let Some(found) = beginning_rule(bytes) {
        return Some(found);
    }
    if let Some(found) = early_zeros_rule(bytes) {
        return Some(found);
    }
    if let Some(found) = later_zeros_rule(bytes) {
        return Some(found);
    }
    let pairs = get_u32(bytes, 8);
    if pairs == 0 || pairs > MAX_PAIRS {
        return fault(8, 4);
    }
    None
}

// SURM, and version 1.
fn beginning_rule(bytes: &[u8]) -> Option<MapFault>
    requires { 24 ≤ length bytes.now }
    ensures { option_map seen result ≡ bytes_fault 2 0 (83 ∷ 85 ∷ 82 ∷ 77 ∷ 1 ∷ []) bytes.now }
{
    if bytes[0] != b'S' {
        return fault(0, 2);
    }
    if bytes[1] != b'U' {
        return fault(1, 2);
    }
    if bytes[2] != b'R' {
        return fault(2, 2);
    }
    if bytes[3] != b'M' {
        return fault(3, 2);
    }
    if bytes[4] != 1 {
        return fault(4, 2);
    }
    None
}

// The zeros behind the version.
fn early_zeros_rule(bytes: &[u8]) -> Option<MapFault>
    requires { 24 ≤ length bytes.now }
    ensures { option_map seen result ≡ bytes_fault 3 5 (0 ∷ 0 ∷ 0 ∷ []) bytes.now }
{
    if bytes[5] != 0 {
        return fault(5, 3);
    }
    if bytes[6] != 0 {
        return fault(6, 3);
    }
    if bytes[7] != 0 {
        return fault(7, 3);
    }
    None
}

// The zeros behind the number of pairs.
fn later_zeros_rule(bytes: &[u8]) -> Option<MapFault>
    requires { 24 ≤ length bytes.now }
    ensures { option_map seen result ≡ bytes_fault 3 12 (0 ∷ 0 ∷ 0 ∷ 0 ∷ []) bytes.now }
{
    if bytes[12] != 0 {
        return fault(12, 3);
    }
    if bytes[13] != 0 {
        return fault(13, 3);
    }
    if bytes[14] != 0 {
        return fault(14, 3);
    }
    if bytes[15] != 0 {
        return fault(15, 3);
    }
    None
}
