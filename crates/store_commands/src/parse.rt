//! Lines, parsed.
ghost use Rattle.std.specs.Prelude.{◌≡◌, ◌+◌, ◌*◌, ◌∷◌, List, ◌/◌, ◌≤◌, IfOk, IfErr, IfSome, IfNone, length, vec_capacity};
ghost use Rattle.map_model.specs.SortedMap.{Bytes};
ghost use Rattle.line_model.specs.Requests as grammar;
ghost use Rattle.line_model.specs.Requests.{Bad, asked_by, request_of, one_of, two_of, none_of, with_two, seek_of, range_of};
ghost use Rattle.line_model.specs.Lines.{bytes_in};
ghost use Rattle.store_commands.specs.Verbs.{verb_word};
ghost use Rattle.store_commands.specs.Asks.{Asks, AreWords, AreWithin, scratch_bytes};

use crate::request::{BadLine, Request};
use crate::verb::{Verb, verb_in};
use crate::words::{Words, cut, decoded, number, words_in};
use byte_fields::lengthen;
use key_base::MAX_LINE_BYTES;
use std::alloc::{AllocError, Global};

// Room for the bytes that the words of every line spell: two digits a byte.
const SCRATCH_BYTES: usize = MAX_LINE_BYTES / 2;

/// Room for what one line says. Made once, and lent to each line that is read.
#[derive(Drop)]
pub struct Scratch {
    // as many as the longest line wanted that was read
    bytes: Vec<u8>,
    ghost room: { scratch_bytes ≤ vec_capacity bytes },
}

impl Scratch {
    /// Takes the room: 1,050,000 bytes, of which none is set before a line wants it.
    pub fn new(alloc: Global) -> Result<Scratch, AllocError> {
        let bytes = Vec::with_capacity(alloc, SCRATCH_BYTES)?;
        Ok(Scratch { bytes })
    }
}

// The bytes of two words.
fn decoded_two<'a>(first: &[u8], second: &[u8], room: &'a mut [u8]) -> Option<(&'a [u8], &'a [u8])>
    requires { (length first.now + length second.now) / 2 ≤ length room.old }
    ensures both { (asks : Bytes → Bytes → grammar.Request) → IfSome result (λ bytes. with_two asks (bytes_in first.now) (bytes_in second.now) ≡ asks bytes.0.now bytes.1.now) }
    ensures bad { (asks : Bytes → Bytes → grammar.Request) → IfNone result (with_two asks (bytes_in first.now) (bytes_in second.now) ≡ Bad 4) }
{
    let (first_room, second_room) = room.split_at_mut(first.len() / 2);
    match (decoded(first, first_room), decoded(second, second_room)) {
        (Some(first), Some(second)) => Some((first, second)),
        _ => None,
    }
}

// The one key behind a verb.
fn one_key<'a>(words: Words<'_>, room: &'a mut [u8]) -> Result<&'a [u8], BadLine>
    requires sizes { AreWithin (2 * length room.old + 1) words }
    ensures key { (list : List Bytes) (asks : Bytes → grammar.Request) → AreWords words.entry list → IfOk result (λ key. one_of asks list ≡ asks key.now) }
    ensures bad { (list : List Bytes) (asks : Bytes → grammar.Request) → AreWords words.entry list → IfErr result (λ bad. one_of asks list ≡ Bad bad.0) }
{
    let Words::One(key) = words else {
        return Err(BadLine(3));
    };
    match decoded(key, room) {
        Some(key) => Ok(key),
        None => Err(BadLine(4)),
    }
}

// The two keys behind a verb, or the key and the value.
fn two_keys<'a>(words: Words<'_>, room: &'a mut [u8]) -> Result<(&'a [u8], &'a [u8]), BadLine>
    requires sizes { AreWithin (2 * length room.old + 1) words }
    ensures keys { (list : List Bytes) (asks : Bytes → Bytes → grammar.Request) → AreWords words.entry list → IfOk result (λ keys. two_of asks list ≡ asks keys.0.now keys.1.now) }
    ensures bad { (list : List Bytes) (asks : Bytes → Bytes → grammar.Request) → AreWords words.entry list → IfErr result (λ bad. two_of asks list ≡ Bad bad.0) }
{
    let Words::Two(first, second) = words else {
        return Err(BadLine(3));
    };
    match decoded_two(first, second, room) {
        Some(both) => Ok(both),
        None => Err(BadLine(4)),
    }
}

// That no word stands behind a verb.
fn no_word(words: Words<'_>) -> Result<(), BadLine>
    ensures none { (list : List Bytes) (asked : grammar.Request) → AreWords words.entry list → IfOk result (λ _. none_of asked list ≡ asked) }
    ensures bad { (list : List Bytes) (asked : grammar.Request) → AreWords words.entry list → IfErr result (λ bad. none_of asked list ≡ Bad bad.0) }
{
    match words {
        Words::Zero => Ok(()),
        _ => Err(BadLine(3)),
    }
}

fn parse_seek<'a>(words: Words<'_>, room: &'a mut [u8]) -> Result<Request<'a>, BadLine>
    requires sizes { AreWithin (2 * length room.old + 1) words }
    ensures { (list : List Bytes) → AreWords words.entry list → Asks result (seek_of list) }
{
    match words {
        Words::One(lo) => match decoded(lo, room) {
            Some(lo) => Ok(Request::Seek { lo, hi: None }),
            None => Err(BadLine(4)),
        },
        Words::Two(lo, hi) => match decoded_two(lo, hi, room) {
            Some((lo, hi)) => Ok(Request::Seek { lo, hi: Some(hi) }),
            None => Err(BadLine(4)),
        },
        _ => Err(BadLine(3)),
    }
}

fn parse_range<'a>(words: Words<'_>, room: &'a mut [u8]) -> Result<Request<'a>, BadLine>
    requires sizes { AreWithin (2 * length room.old + 1) words }
    ensures { (list : List Bytes) → AreWords words.entry list → Asks result (range_of list) }
{
    let Words::Three(lo, hi, n) = words else {
        return Err(BadLine(3));
    };
    let Some((lo, hi)) = decoded_two(lo, hi, room) else {
        return Err(BadLine(4));
    };
    match number(n) {
        Some(n) => Ok(Request::Range { lo, hi, n }),
        None => Err(BadLine(5)),
    }
}

// What a verb asks with the words behind it.
fn parse_words<'a>(verb: Verb, words: Words<'_>, room: &'a mut [u8]) -> Result<Request<'a>, BadLine>
    requires sizes { AreWithin (2 * length room.old + 1) words }
    ensures { (list : List Bytes) → AreWords words.entry list → Asks result (asked_by (verb_word verb ∷ list)) }
{
    match verb {
        Verb::Put => {
            let (key, value) = two_keys(words, room)?;
            Ok(Request::Put { key, value })
        }
        Verb::Del => Ok(Request::Del {
            key: one_key(words, room)?,
        }),
        Verb::Get => Ok(Request::Get {
            key: one_key(words, room)?,
        }),
        Verb::Seek => parse_seek(words, room),
        Verb::Range => parse_range(words, room),
        Verb::Count => {
            let (lo, hi) = two_keys(words, room)?;
            Ok(Request::Count { lo, hi })
        }
        Verb::Estimate => {
            let (lo, hi) = two_keys(words, room)?;
            Ok(Request::Estimate { lo, hi })
        }
        Verb::Explain => Ok(Request::Explain {
            key: one_key(words, room)?,
        }),
        Verb::Flush => {
            no_word(words)?;
            Ok(Request::Flush)
        }
        Verb::Compact => {
            no_word(words)?;
            Ok(Request::Compact)
        }
        Verb::Quit => {
            no_word(words)?;
            Ok(Request::Quit)
        }
    }
}

/// What a line asks, or the code of the first rule that it breaks. Its words are laid out in `scratch`.
///
/// One pass over the line; takes no memory.
pub fn parse_line<'a>(line: &[u8], scratch: &'a mut Scratch) -> Result<Request<'a>, BadLine>
    ensures { Asks result (request_of line.now) }
{
    if line.len() > MAX_LINE_BYTES {
        return Err(BadLine(1));
    }
    let (word, rest) = cut(line);
    let Some(verb) = verb_in(word) else {
        return Err(BadLine(2));
    };
    lengthen(&mut scratch.bytes, line.len() / 2);
    parse_words(verb, words_in(rest), scratch.bytes.as_mut_slice())
}
