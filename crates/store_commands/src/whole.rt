//! Texts and words for which a buffer has room.
//!
//! A range says its pairs by hundreds, so what spells a pair is to be one piece of code with no calls in it: `put_pair`.
ghost use Rattle.std.specs.Prelude.{◌≡◌, ◌≤◌, ◌↔◌, ◌+◌, ◌*◌, ◌++◌, ◌∷◌, [], length, take, IsTrue};
ghost use Rattle.hex.specs.Hex.{encode_lower};
ghost use Rattle.line_model.specs.Replies.{word_of, at_words};

// How many bytes are spelled at a time, so that no digit of theirs wants a loop of its own.
const GROUP_BYTES: usize = 8;

// What a pair's line has at most beside the digits of its words: its three texts, and two dashes.
const PAIR_TEXT_BYTES: usize = 7;

/// Puts a text behind what stands in the buffer, and answers where it ends.
pub fn put_text(into: &mut [u8], at: usize, text: &[u8]) -> usize
    requires { at + length text.now ≤ length into.old }
    ensures end { result ≡ at + length text.now }
    ensures text { take result into.new ≡ take at into.old ++ text.now }
{
    into[at..at + text.len()].copy_from_slice(text);
    at + text.len()
}

// Puts some bytes in hex.
fn put_digits(into: &mut [u8], at: usize, bytes: &[u8]) -> usize
    requires { at + 2 * length bytes.now ≤ length into.old }
    ensures end { result ≡ at + 2 * length bytes.now }
    ensures text { take result into.new ≡ take at into.old ++ encode_lower bytes.now }
{
    let end = at + 2 * bytes.len();
    match hex::encode_to_slice(bytes, &mut into[at..end]) {
        Ok(()) => end,
        Err(_) => unreachable!(),
    }
}

/// Puts bytes in hex, a group at a time, and answers where they end.
#[inline(always)]
pub fn put_hex(into: &mut [u8], at: usize, bytes: &[u8]) -> usize
    requires { at + 2 * length bytes.now ≤ length into.old }
    ensures end { result ≡ at + 2 * length bytes.now }
    ensures text { take result into.new ≡ take at into.old ++ encode_lower bytes.now }
{
    let mut at = at;
    let mut rest = bytes;
    while rest.len() >= GROUP_BYTES {
        let (group, more) = rest.split_at(GROUP_BYTES);
        at = put_digits(into, at, group);
        rest = more;
    }
    if rest.is_empty() {
        return at;
    }
    put_digits(into, at, rest)
}

// Puts bytes as a word.
#[inline(always)]
fn put_word(into: &mut [u8], at: usize, bytes: &[u8]) -> usize
    requires { at + 2 * length bytes.now + 1 ≤ length into.old }
    ensures end { result ≤ at + 2 * length bytes.now + 1 }
    ensures text { take result into.new ≡ take at into.old ++ word_of bytes.now }
{
    if bytes.is_empty() {
        put_text(into, at, b"-")
    } else {
        put_hex(into, at, bytes)
    }
}

/// Whether a pair's line fits so many bytes, be its words digits or dashes.
pub fn has_room(room: usize, key: &[u8], value: &[u8]) -> bool
    ensures { IsTrue result ↔ (2 * length key.now + 2 * length value.now + PAIR_TEXT_BYTES ≤ room) }
{
    if room < PAIR_TEXT_BYTES {
        return false;
    }
    let bytes = (room - PAIR_TEXT_BYTES) / 2;
    key.len() <= bytes && value.len() <= bytes - key.len()
}

/// Puts a pair's line at the front of a buffer, and answers where it ends.
#[inline(never)]
pub fn put_pair(into: &mut [u8], key: &[u8], value: &[u8]) -> usize
    requires { 2 * length key.now + 2 * length value.now + PAIR_TEXT_BYTES ≤ length into.old }
    ensures end { result ≤ length into.old }
    ensures text { take result into.new ≡ at_words key.now value.now ++ 10 ∷ [] }
{
    let at = put_text(into, 0, b"at ");
    let at = put_word(into, at, key);
    let at = put_text(into, at, b" ");
    let at = put_word(into, at, value);
    put_text(into, at, b"\n")
}
