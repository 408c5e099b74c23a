//! Where the parts of a body lie.
ghost use Rattle.std.specs.Prelude.{◌≡◌};
ghost use Rattle.map_file_model.specs.Reading.{image_part};
ghost use Rattle.map_parts.specs.Parts.{HasParts, parts_in};

use byte_fields::{get_u32, get_u64};

/// The bytes of a head, behind which the image begins.
pub(crate) const HEAD_BYTES: usize = 24;

/// How many pairs a body has, and where its parts begin that stand behind the image.
#[derive(Clone, Copy)]
pub struct Parts {
    pub pairs: u32,
    pub offsets: usize,
    pub values: usize,
    pub sum: usize,
}

/// The parts of bytes that have them.
pub fn parts_of(bytes: &[u8]) -> Parts
    requires { HasParts bytes.now }
    ensures { result ≡ parts_in bytes.now }
{
    let pairs = get_u32(bytes, 8);
    let offsets = HEAD_BYTES + get_u64(bytes, 16) as usize;
    let last = offsets + 8 * pairs as usize;
    let values = last + 8;
    let sum = values + get_u64(bytes, last) as usize;
    Parts {
        pairs,
        offsets,
        values,
        sum,
    }
}

/// The image, whatever it is.
#[tactic(auto, unfolding(map_file_model::specs::Reading::image_part))]
pub fn image_in<'a>(bytes: &'a [u8], parts: Parts) -> &'a [u8]
    requires has { HasParts bytes.now }
    requires parts { parts ≡ parts_in bytes.now }
    ensures { result.now ≡ image_part bytes.now }
{
    &bytes[HEAD_BYTES..parts.offsets]
}
