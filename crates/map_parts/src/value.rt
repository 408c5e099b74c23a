//! The value in a slot.
ghost use Rattle.std.specs.Prelude.{◌≡◌, ◌<◌, [], None, slice_index_or};
ghost use Rattle.map_file_model.specs.Reading.{offsets_fault, values_in};
ghost use Rattle.map_parts.specs.Parts.{HasParts, parts_in};

use super::parts::Parts;
use byte_fields::get_u64;

/// The value in a slot of bytes whose parts these are, and whose offsets rise. Reads two offsets.
pub fn value_in<'a>(bytes: &'a [u8], parts: Parts, slot: u32) -> &'a [u8]
    requires has { HasParts bytes.now }
    requires parts { parts ≡ parts_in bytes.now }
    requires rising { offsets_fault bytes.now ≡ None }
    requires within { slot < parts.pairs }
    ensures { result.now ≡ slice_index_or (values_in bytes.now) slot [] }
{
    let at = parts.offsets + 8 * slot as usize;
    let from = parts.values + get_u64(bytes, at) as usize;
    let to = parts.values + get_u64(bytes, at + 8) as usize;
    &bytes[from..to]
}
