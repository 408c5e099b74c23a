//! What an entry of either format says before its key.
ghost use Rattle.std.specs.Prelude.{◌≡◌, ◌≤◌, ◌<◌, length};
ghost use Rattle.block_model.specs.Formats.{entry_head_by, rest_length_in, shared_in, value_length_by};
ghost use Rattle.entry_model.specs.Reading.{kind_in};
ghost use Rattle.block_format.specs.Walking.{format_of};

use crate::format::BlockFormat;
use byte_fields::{get_u16, get_u32};
use key_base::ENTRY_HEAD_BYTES;

/// The bytes of an entry with a shared prefix before its key: its kind, how much it shares, and the lengths of its rest and of
/// its value.
pub(crate) const PREFIXED_HEAD_BYTES: usize = 9;

/// What an entry says before its key.
#[derive(Clone, Copy)]
pub(crate) struct EntryHead {
    pub kind: u8,
    /// How many bytes of the key before begin its key.
    pub shared: usize,
    /// How many bytes of its key follow.
    pub rest: usize,
    pub value: usize,
    /// The bytes of the head itself.
    pub bytes: usize,
}

/// What the entry that the bytes begin with says before its key.
pub(crate) fn head_of(format: BlockFormat, rest: &[u8]) -> EntryHead
    requires { entry_head_by (format_of format) ≤ length rest.now }
    ensures kind { result.kind ≡ kind_in rest.now }
    ensures shared { result.shared ≡ shared_in (format_of format) rest.now }
    ensures rest { result.rest ≡ rest_length_in (format_of format) rest.now }
    ensures value { result.value ≡ value_length_by (format_of format) rest.now }
    ensures bytes { result.bytes ≡ entry_head_by (format_of format) }
    ensures small { (result.shared < 65536) × (result.rest < 65536) }
{
    match format {
        BlockFormat::Old => EntryHead {
            kind: rest[0],
            shared: 0,
            rest: usize::from(get_u16(rest, 1)),
            value: get_u32(rest, 3) as usize,
            bytes: ENTRY_HEAD_BYTES,
        },
        BlockFormat::Prefixed => EntryHead {
            kind: rest[0],
            shared: usize::from(get_u16(rest, 1)),
            rest: usize::from(get_u16(rest, 3)),
            value: get_u32(rest, 5) as usize,
            bytes: PREFIXED_HEAD_BYTES,
        },
    }
}
