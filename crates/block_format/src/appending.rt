//! Bytes that are appended where there is room.
ghost use Rattle.std.specs.Prelude.{◌≡◌, ◌≤◌, ◌+◌, ◌++◌, length, replicate, vec_len, vec_capacity};
ghost use Rattle.std.specs.Option.{option_map};
ghost use Rattle.entry_model.specs.Entries.{bytes_of, kind_of};

use crate::entry::{TOMBSTONE, VALUE, WORD_BYTES};

/// The bytes of a value, none of a tombstone.
pub(crate) fn value_bytes<'a>(value: Option<&'a [u8]>) -> &'a [u8]
    ensures { result.now ≡ bytes_of (option_map (λ v. v.now) value.entry) }
{
    match value {
        Some(bytes) => bytes,
        None => b"",
    }
}

/// The byte that says whether an entry has a value.
pub(crate) fn kind(value: Option<&[u8]>) -> u8
    ensures { result ≡ kind_of (option_map (λ v. v.now) value.entry) }
{
    match value {
        Some(_) => VALUE,
        None => TOMBSTONE,
    }
}

/// Appends where there is room. Many keys and values are numbers of eight bytes: these are moved at once, with no call.
#[inline(always)]
pub(crate) fn append(more: &[u8], out: &mut Vec<u8>)
    requires { vec_len out.old + length more.now ≤ vec_capacity out.old }
    ensures items { out.new.items ≡ out.old.items ++ more.now }
    ensures len { vec_len out.new ≡ vec_len out.old + length more.now }
    ensures capacity { vec_capacity out.old ≤ vec_capacity out.new }
{
    let appended = if more.len() == WORD_BYTES {
        out.extend_from_slice(&more[..WORD_BYTES])
    } else {
        out.extend_from_slice(more)
    };
    match appended {
        Ok(()) => {}
        Err(_) => unreachable!(),
    }
}

/// Appends zero bytes where there is room.
pub(crate) fn append_zeros(count: usize, out: &mut Vec<u8>)
    requires { vec_len out.old + count ≤ vec_capacity out.old }
    ensures { out.new.items ≡ out.old.items ++ replicate count 0 }
{
    for _ in 0..count {
        out.push_reserved(0);
    }
}
