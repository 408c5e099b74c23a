//! A walk over the entries of a block of either format.
ghost use Rattle.std.specs.Prelude.{◌≡◌, ◌≤◌, ◌<◌, ◌+◌, ◌^◌, ◌==◌, ◌++◌, [], ◌∷◌, length, take, drop, Some, None, IfSome, MatchOption, if◌then◌else◌};
ghost use Rattle.std.specs.Option.{option_map};
ghost use Rattle.entry_model.specs.Entries.{entry_of};
ghost use Rattle.key_base.specs.Limits.{max_key_bytes};
ghost use Rattle.block_format.specs.Walking.{LiesIn, StandsAfter, key_held, value_at, walked};

use crate::entry::VALUE;
use crate::format::BlockFormat;
use crate::head::{EntryHead, head_of};

/// The place of a value in the bytes of its block: from one byte on, up to another.
#[derive(Clone, Copy, Debug, PartialEq, Eq)]
pub struct ValuePlace {
    pub at: usize,
    pub end: usize,
}

/// Where some entries of a block stand in its bytes, one after the other, and how much of a buffer is the key before them. For
/// whoever keeps the bytes and the buffer, and cannot keep a cursor, which borrows them.
#[derive(Clone, Copy, Debug, PartialEq, Eq)]
pub struct EntryWalk {
    /// How they are spelled.
    pub format: BlockFormat,
    /// The place of the first of them.
    pub at: usize,
    /// The place after the last of them.
    pub end: usize,
    /// How many they are.
    pub left: u8,
    /// The bytes of the buffer that are the key before the first of them.
    pub key_length: usize,
}

impl EntryWalk {
    /// Builds the next entry's key in the buffer, and answers the place of its value, `Some(None)` for a tombstone. `None` where
    /// none is left.
    ///
    /// The bytes are those in which the entries stand, and the buffer is the one that has the key before. The walk is then that
    /// of the others, and its [`EntryWalk::key`] the key. No memory.
    pub fn advance(&mut self, bytes: &[u8], buffer: &mut [u8]) -> Option<Option<ValuePlace>>
        requires stands { StandsAfter self.old buffer.old bytes.now }
        requires room { max_key_bytes ≤ length buffer.old }
        ensures stands { StandsAfter self.new buffer.new bytes.now }
        ensures room { length buffer.new ≡ length buffer.old }
        ensures lies { IfSome result (λ v. LiesIn v bytes.now) }
        ensures entries { MatchOption result ((walked self.old buffer.old bytes.now ≡ []) × (walked self.new buffer.new bytes.now ≡ [])) (λ v. walked self.old buffer.old bytes.now ≡ entry_of (key_held self.new buffer.new) (value_at v bytes.now) ∷ walked self.new buffer.new bytes.now) }
    {
        if self.left == 0 {
            return None;
        }
        let rest = &bytes[self.at..self.end];
        let head = head_of(self.format, rest);
        build_key(head, rest, buffer);
        let place = value_place(head, self.at);
        self.at += head.bytes + head.rest + head.value;
        self.left -= 1;
        self.key_length = head.shared + head.rest;
        Some(place)
    }

    /// The key in the buffer: of the entry that the walk came by last.
    pub fn key<'a>(&self, buffer: &'a [u8]) -> &'a [u8]
        requires { self.now.key_length ≤ length buffer.now }
        ensures { result.now ≡ key_held self.now buffer.now }
    {
        &buffer[..self.key_length]
    }
}

// Puts the rest of an entry's key after the bytes that it shares with the key in the buffer.
pub(crate) fn build_key(head: EntryHead, rest: &[u8], buffer: &mut [u8])
    requires room { head.shared + head.rest ≤ length buffer.old }
    requires within { head.bytes + head.rest ≤ length rest.now }
    ensures built { take (head.shared + head.rest) buffer.new ≡ take head.shared buffer.old ++ take head.rest (drop head.bytes rest.now) }
    ensures room { length buffer.new ≡ length buffer.old }
{
    let end = head.shared + head.rest;
    buffer[head.shared..end].copy_from_slice(&rest[head.bytes..head.bytes + head.rest]);
}

// Where the value of an entry lies that begins at a place, none for a tombstone.
fn value_place(head: EntryHead, at: usize) -> Option<ValuePlace>
    requires { at + head.bytes + head.rest + head.value < 2 ^ 63 }
    ensures { result ≡ (if head.kind == 1 then Some (record { at = at + head.bytes + head.rest; end = at + head.bytes + head.rest + head.value }) else None) }
{
    let from = at + head.bytes + head.rest;
    let end = from + head.value;
    if head.kind == VALUE {
        Some(ValuePlace { at: from, end })
    } else {
        None
    }
}

/// The value that lies at a place of the bytes, none for a tombstone.
pub fn value_of<'a>(place: Option<ValuePlace>, bytes: &'a [u8]) -> Option<&'a [u8]>
    requires { LiesIn place bytes.now }
    ensures { option_map (λ v. v.now) result ≡ value_at place bytes.now }
{
    match place {
        Some(place) => Some(&bytes[place.at..place.end]),
        None => None,
    }
}
