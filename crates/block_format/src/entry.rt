//! One entry, in the bytes that begin with it.
ghost use Rattle.std.specs.Prelude.{◌≡◌, ◌≤◌, length, Some, None, IfOk, IfErr};
ghost use Rattle.std.specs.Option.{option_map};
ghost use Rattle.entry_model.specs.Entries.{entry_of};
ghost use Rattle.block_model.specs.OldReading.{old_entry_fault};
ghost use Rattle.entry_model.specs.Reading.{entry_in, key_in, width_in};
ghost use Rattle.key_base.specs.ByteOrder.{is_before};
ghost use Rattle.block_format.specs.Reading.{passes_after, seen};

use crate::fault::BlockFault;
use byte_fields::{get_u16, get_u32};
use byteorder::{BigEndian, ByteOrder};
use entry_list::body_length;
use key_base::{ENTRY_HEAD_BYTES, MAX_KEY_BYTES, MAX_LOGGED_VALUE_BYTES, compare};
use std::cmp::Ordering;

/// The bytes that are read at once, as one number.
pub(crate) const WORD_BYTES: usize = 8;

// An entry runs past the length.
pub(crate) const PAST_THE_LENGTH: u8 = 3;

// Neither a value nor a tombstone, or a tombstone with a value.
pub(crate) const NO_KIND: u8 = 4;

// A length is out of its limits.
pub(crate) const OUT_OF_LIMITS: u8 = 5;

// The key is not above the one before.
pub(crate) const NOT_ABOVE: u8 = 6;

/// The kind of an entry with a value.
pub(crate) const VALUE: u8 = 1;

/// The kind of an entry without one.
pub(crate) const TOMBSTONE: u8 = 2;

/// An entry as it stands in its block, and how many bytes it takes.
#[derive(Clone, Copy)]
pub(crate) struct EntryHere<'a> {
    pub key: &'a [u8],
    pub value: Option<&'a [u8]>,
    pub width: usize,
}

/// The entry that the bytes begin with, or the first rule that it breaks. Its place is `place`, and `before` is the key
/// before it.
#[tactic(auto, unfolding(block_model::specs::OldReading::old_entry_fault, entry_model::specs::Reading::entry_in, entry_model::specs::Reading::key_in, entry_model::specs::Reading::width_in))]
pub(crate) fn first_entry<'a>(
    bytes: &'a [u8],
    place: usize,
    before: Option<&[u8]>,
) -> Result<EntryHere<'a>, BlockFault>
    ensures broken { IfErr result (λ found. old_entry_fault place (passes_after (option_map (λ k. k.now) before.entry)) bytes.now ≡ Some (seen found)) }
    ensures place { IfErr result (λ found. found.place ≡ place) }
    ensures whole { IfOk result (λ _. old_entry_fault place (passes_after (option_map (λ k. k.now) before.entry)) bytes.now ≡ None) }
    ensures entry { IfOk result (λ r. entry_of r.key.now (option_map (λ v. v.now) r.value) ≡ entry_in bytes.now) }
    ensures key { IfOk result (λ r. r.key.now ≡ key_in bytes.now) }
    ensures width { IfOk result (λ r. r.width ≡ width_in bytes.now) }
    ensures within { IfOk result (λ r. r.width ≤ length bytes.now) }
{
    if bytes.len() < ENTRY_HEAD_BYTES {
        return Err(BlockFault {
            place,
            rule: PAST_THE_LENGTH,
        });
    }
    let kind = bytes[0];
    let key_bytes = usize::from(get_u16(bytes, 1));
    let value_bytes = get_u32(bytes, 3) as usize;
    if kind != VALUE && (kind != TOMBSTONE || value_bytes > 0) {
        return Err(BlockFault {
            place,
            rule: NO_KIND,
        });
    }
    if key_bytes == 0 || key_bytes > MAX_KEY_BYTES || value_bytes > MAX_LOGGED_VALUE_BYTES {
        return Err(BlockFault {
            place,
            rule: OUT_OF_LIMITS,
        });
    }
    if bytes.len() < body_length(key_bytes, value_bytes) {
        return Err(BlockFault {
            place,
            rule: PAST_THE_LENGTH,
        });
    }
    let row = entry_here(bytes);
    if !is_above(before, row.key) {
        return Err(BlockFault {
            place,
            rule: NOT_ABOVE,
        });
    }
    Ok(row)
}

/// The entry that the bytes begin with, where all of it is there. Nothing is tested.
#[tactic(auto, unfolding(entry_model::specs::Reading::entry_in, entry_model::specs::Reading::key_in, entry_model::specs::Reading::width_in))]
pub(crate) fn entry_here(bytes: &[u8]) -> EntryHere<'_>
    requires { width_in bytes.now ≤ length bytes.now }
    ensures entry { entry_of result.key.now (option_map (λ v. v.now) result.value) ≡ entry_in bytes.now }
    ensures key { result.key.now ≡ key_in bytes.now }
    ensures width { result.width ≡ width_in bytes.now }
    ensures within { result.width ≤ length bytes.now }
{
    let value_at = ENTRY_HEAD_BYTES + usize::from(get_u16(bytes, 1));
    let width = value_at + get_u32(bytes, 3) as usize;
    let value = if bytes[0] == VALUE {
        Some(&bytes[value_at..width])
    } else {
        None
    };
    EntryHere {
        key: &bytes[ENTRY_HEAD_BYTES..value_at],
        value,
        width,
    }
}

// Whether a key is above the one before, if there is one.
fn is_above(before: Option<&[u8]>, key: &[u8]) -> bool
    ensures { result ≡ passes_after (option_map (λ k. k.now) before.entry) key.now }
{
    match before {
        Some(before) => is_below(before, key),
        None => true,
    }
}

/// Whether a key is below another one, as `compare` says; eight bytes of each are compared at a time, as two numbers.
pub(crate) fn is_below(low: &[u8], high: &[u8]) -> bool
    ensures { result ≡ is_before low.now high.now }
{
    let words = low.len().min(high.len()) / WORD_BYTES;
    for word in 0..words {
        let at = WORD_BYTES * word;
        let (one, other) = (
            BigEndian::read_u64(&low[at..]),
            BigEndian::read_u64(&high[at..]),
        );
        if one != other {
            return one < other;
        }
    }
    let at = WORD_BYTES * words;
    compare(&low[at..], &high[at..]) == Ordering::Less
}
