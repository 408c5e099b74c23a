//! The bytes of a record.
ghost use Rattle.std.specs.Prelude.{◌≡◌, ◌+◌, ◌≤◌, ◌++◌, [], ◌∷◌, length, take, drop};
ghost use Rattle.entry_model.specs.Entries.{IsLogged, body, bytes_of, entry_of, kind_of, need, put_entry};
ghost use Rattle.log_model.specs.Changes.{change_body, need_of};
ghost use Rattle.range_model.specs.Ranges.{IsBound, range_of};
ghost use Rattle.range_model.specs.Sources.{Clears};
ghost use Rattle.gate_log.specs.Values.{value_of};

use crate::kind::Kind;
use byte_fields::{put_u16, put_u32};
use entry_list::body_length;
use key_base::{ENTRY_HEAD_BYTES, MAX_KEY_BYTES, MAX_LOGGED_VALUE_BYTES};

/// What a gate reads that is open. Every other byte is a closed one.
pub(crate) const OPEN: u8 = 1;

/// What a gate is closed by.
pub(crate) const CLOSED: u8 = 0;

const GATE_BYTES: usize = 1;

/// The bytes in which each record is laid out: the longest body, and the gate behind it.
pub const BUFFER_BYTES: usize = ENTRY_HEAD_BYTES
    + MAX_KEY_BYTES
    + MAX_LOGGED_VALUE_BYTES
    + GATE_BYTES;

// Puts bytes behind those that stand at the start of a buffer, and answers where they end.
fn put(buf: &mut [u8], at: usize, bytes: &[u8]) -> usize
    requires { at + length bytes.now ≤ length buf.old }
    ensures end { result ≡ at + length bytes.now }
    ensures bytes { take result buf.new ≡ take at buf.old ++ bytes.now }
{
    let end = at + bytes.len();
    buf[at..end].copy_from_slice(bytes);
    end
}

// The bytes of a value, none of a tombstone.
fn value_bytes<'a>(value: Option<&'a [u8]>) -> &'a [u8]
    ensures { result.now ≡ bytes_of (value_of value.entry) }
{
    match value {
        Some(bytes) => bytes,
        None => b"",
    }
}

// The byte of a record's kind.
fn kind(value: Option<&[u8]>) -> u8
    ensures { result ≡ kind_of (value_of value.entry) }
{
    match value {
        Some(_) => Kind::Put as u8,
        None => Kind::Delete as u8,
    }
}

/// The bytes that a record takes of its area: its gate, its body and the gate behind it.
pub fn record_need(key: &[u8], value: Option<&[u8]>) -> usize
    requires { IsLogged (entry_of key.now (value_of value)) }
    ensures { result ≡ need (entry_of key.now (value_of value.entry)) }
{
    GATE_BYTES + body_length(key.len(), value_bytes(value).len()) + GATE_BYTES
}

/// The bytes that the record of a range takes of its area, as [`record_need`] of an entry.
pub fn range_need(lo: &[u8], hi: &[u8]) -> usize
    requires lo { IsBound lo.now }
    requires hi { IsBound hi.now }
    ensures { result ≡ need_of (Clears (range_of lo.now hi.now)) }
{
    GATE_BYTES + body_length(lo.len(), hi.len()) + GATE_BYTES
}

// Lays out a body of a kind with a closed gate behind it, and answers how many bytes they are.
fn put_body(buf: &mut [u8], kind: u8, key: &[u8], value: &[u8]) -> usize
    requires sound { IsLogged (put_entry key.now value.now) }
    requires room { need (put_entry key.now value.now) ≤ length buf.old + 1 }
    ensures end { result + 1 ≡ need (put_entry key.now value.now) }
    ensures bytes { take result buf.new ≡ kind ∷ (drop 1 (body (put_entry key.now value.now)) ++ 0 ∷ []) }
{
    let mut head = [kind; ENTRY_HEAD_BYTES];
    put_u16(&mut head, 1, key.len() as u16);
    put_u32(&mut head, 3, value.len() as u32);
    let at = put(buf, 0, &head);
    let at = put(buf, at, key);
    let at = put(buf, at, value);
    put(buf, at, &[CLOSED])
}

/// Lays out an entry's body with a closed gate behind it, and answers how many bytes they are.
pub(crate) fn put_record(buf: &mut [u8], key: &[u8], value: Option<&[u8]>) -> usize
    requires sound { IsLogged (entry_of key.now (value_of value)) }
    requires room { need (entry_of key.now (value_of value)) ≤ length buf.old + 1 }
    ensures end { result + 1 ≡ need (entry_of key.now (value_of value.entry)) }
    ensures bytes { take result buf.new ≡ body (entry_of key.now (value_of value.entry)) ++ 0 ∷ [] }
{
    put_body(buf, kind(value), key, value_bytes(value))
}

/// Lays out the body of a range with a closed gate behind it, and answers how many bytes they are.
pub(crate) fn put_range(buf: &mut [u8], lo: &[u8], hi: &[u8]) -> usize
    requires lo { IsBound lo.now }
    requires hi { IsBound hi.now }
    requires room { need_of (Clears (range_of lo.now hi.now)) ≤ length buf.old + 1 }
    ensures end { result + 1 ≡ need_of (Clears (range_of lo.now hi.now)) }
    ensures bytes { take result buf.new ≡ change_body (Clears (range_of lo.now hi.now)) ++ 0 ∷ [] }
{
    put_body(buf, Kind::Range as u8, lo, hi)
}
