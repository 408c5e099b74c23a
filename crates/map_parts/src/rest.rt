//! Rules 7 to 9: the offsets, the end and the sum.
ghost use Rattle.std.specs.Prelude.{◌≡◌};
ghost use Rattle.std.specs.Option.{option_map};
ghost use Rattle.map_file_model.specs.Reading.{end_fault, offsets_fault};
ghost use Rattle.map_parts.specs.Parts.{HasParts, parts_in, rest_rules, seen};

use super::fault::{MapFault, fault};
use super::parts::Parts;
use byte_fields::{fnv1a, get_u64};

/// The first of the rules 7 to 9 that bytes break whose parts these are. Looks at each offset once, and at each byte for the
/// sum.
pub fn rest_fault(bytes: &[u8], parts: Parts) -> Option<MapFault>
    requires has { HasParts bytes.now }
    requires parts { parts ≡ parts_in bytes.now }
    ensures { option_map seen result ≡ rest_rules bytes.now }
{
    if let Some(found) = offsets_rule(bytes, parts) {
        return Some(found);
    }
    end_rules(bytes, parts)
}

// Rule 7: the first offset is not 0, or one is less than the one before it.
fn offsets_rule(bytes: &[u8], parts: Parts) -> Option<MapFault>
    requires has { HasParts bytes.now }
    requires parts { parts ≡ parts_in bytes.now }
    ensures { option_map seen result ≡ offsets_fault bytes.now }
{
    if get_u64(bytes, parts.offsets) != 0 {
        return fault(parts.offsets, 7);
    }
    let mut before = 0;
    for slot in 0..parts.pairs as usize {
        let at = parts.offsets + 8 * slot + 8;
        let offset = get_u64(bytes, at);
        if offset < before {
            return fault(at, 7);
        }
        before = offset;
    }
    None
}

// Rules 8 and 9: more bytes than the last offset asks for, and another sum.
#[tactic(auto, unfolding(map_file_model::specs::Reading::end_fault))]
fn end_rules(bytes: &[u8], parts: Parts) -> Option<MapFault>
    requires has { HasParts bytes.now }
    requires parts { parts ≡ parts_in bytes.now }
    ensures { option_map seen result ≡ end_fault bytes.now }
{
    let end = parts.sum + 8;
    if end < bytes.len() {
        return fault(end, 8);
    }
    if get_u64(bytes, parts.sum) != fnv1a(&bytes[..parts.sum]) {
        return fault(parts.sum, 9);
    }
    None
}
