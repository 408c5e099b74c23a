//! The replies, and their text a piece at a time.
ghost use Rattle.std.specs.Prelude.{◌≡◌, ◌≤◌, ◌-◌, ◌++◌, ◌∷◌, ℕ, [], min, length, take, drop, decimal};
ghost use Rattle.map_model.specs.SortedMap.{Bytes};
ghost use Rattle.line_model.specs.Replies.{Explained, text_of, word_of, at_words, part_word, sum_word, damage_words};
ghost use Rattle.byte_fields.specs.declared.parts.Damage.TheVariants.{Sum, Shape};
ghost use Rattle.store_commands.specs.Spoken.{spoken, HasPiece};

use crate::whole::{has_room, put_pair};
use crate::window::{Window, add, add_hex, add_number, add_word};
use byte_fields::{Damage, Part};
use byteorder::{BigEndian, ByteOrder};

/// A reply line. The pairs of a range are said one by one, each as [`Reply::At`], and [`Reply::End`] behind the last.
#[derive(Clone, Copy)]
pub enum Reply<'a> {
    /// `ok`: it is done.
    Done,
    /// `val V`: the value of a key.
    Value(&'a [u8]),
    /// `none`: the key has no value, or no key is found.
    Missing,
    /// `at K V`: a pair that is found.
    At {
        key: &'a [u8],
        value: &'a [u8],
    },
    /// `end n`: n pairs were found.
    End(u64),
    /// `count n`: there are n keys.
    Counted(u64),
    /// `about n`: there are about n keys.
    About(u64),
    /// `tables t admitted a blocks b`: the tables, those whose filter admits the key, those of which a block is read for it.
    Explained {
        tables: u64,
        admitted: u64,
        blocks: u64,
    },
    /// `bye`: the run ends.
    Bye,
    /// `bad c`: the line breaks the grammar's rule c first.
    BadLine(u8),
    /// `limit key n`: the key has n bytes, none or over 1,024.
    LongKey(u64),
    /// `limit value n`: the value has n bytes, over 1,048,576.
    LongValue(u64),
    /// `limit tables`: there are as many tables as there may be.
    ManyTables,
    /// `limit epoch`: the last epoch is reached.
    LastEpoch,
    /// `full need n gap g`: there is no room for it.
    Full {
        need: u64,
        gap: u64,
    },
    /// `memory`: there is no memory for it.
    Memory,
    /// `device`: the device failed.
    Device,
    /// `damaged PART AT ..`: a part of the device's bytes has another sum, or breaks a rule of its format.
    Damaged(Damage),
}

// A text, bytes as a word, and a newline.
fn say_word(into: &mut [u8], window: Window, text: &[u8], bytes: &[u8]) -> Window
    requires { window.filled ≤ length into.old }
    ensures shows { (from : ℕ) → HasPiece from [] window.filled window.skip into.old → HasPiece from (text.now ++ word_of bytes.now ++ 10 ∷ []) result.filled result.skip into.new }
    ensures within { result.filled ≤ length into.old }
{
    let window = add(into, window, text);
    let window = add_word(into, window, bytes);
    add(into, window, b"\n")
}

// A text, a number, and a newline.
fn say_count(into: &mut [u8], window: Window, text: &[u8], count: u64) -> Window
    requires { window.filled ≤ length into.old }
    ensures shows { (from : ℕ) → HasPiece from [] window.filled window.skip into.old → HasPiece from (text.now ++ decimal count ++ 10 ∷ []) result.filled result.skip into.new }
    ensures within { result.filled ≤ length into.old }
{
    let window = add(into, window, text);
    let window = add_number(into, window, count);
    add(into, window, b"\n")
}

// A text and a number, another text and number, and a newline.
fn say_two_counts(
    into: &mut [u8],
    window: Window,
    text: &[u8],
    count: u64,
    other: &[u8],
    more: u64,
) -> Window
    requires { window.filled ≤ length into.old }
    ensures shows { (from : ℕ) → HasPiece from [] window.filled window.skip into.old → HasPiece from (text.now ++ decimal count ++ other.now ++ decimal more ++ 10 ∷ []) result.filled result.skip into.new }
    ensures within { result.filled ≤ length into.old }
{
    let window = add(into, window, text);
    let window = add_number(into, window, count);
    let window = add(into, window, other);
    let window = add_number(into, window, more);
    add(into, window, b"\n")
}

// A pair, in a line.
fn say_pair(into: &mut [u8], window: Window, key: &[u8], value: &[u8]) -> Window
    requires { window.filled ≤ length into.old }
    ensures shows { (from : ℕ) → HasPiece from [] window.filled window.skip into.old → HasPiece from (at_words key.now value.now ++ 10 ∷ []) result.filled result.skip into.new }
    ensures within { result.filled ≤ length into.old }
{
    let window = add(into, window, b"at ");
    let window = add_word(into, window, key);
    let window = add(into, window, b" ");
    let window = add_word(into, window, value);
    add(into, window, b"\n")
}

// What a look-up asked, in a line.
fn say_explained(into: &mut [u8], window: Window, tables: u64, admitted: u64, blocks: u64) -> Window
    requires { window.filled ≤ length into.old }
    ensures shows { (from : ℕ) → HasPiece from [] window.filled window.skip into.old → HasPiece from (text_of (Explained tables admitted blocks)) result.filled result.skip into.new }
    ensures within { result.filled ≤ length into.old }
{
    let window = add(into, window, b"tables ");
    let window = add_number(into, window, tables);
    let window = add(into, window, b" admitted ");
    let window = add_number(into, window, admitted);
    let window = add(into, window, b" blocks ");
    let window = add_number(into, window, blocks);
    add(into, window, b"\n")
}

// The word of a part more.
fn add_part(into: &mut [u8], window: Window, part: Part) -> Window
    requires { window.filled ≤ length into.old }
    ensures shows { (from : ℕ) (whole : Bytes) → HasPiece from whole window.filled window.skip into.old → HasPiece from (whole ++ part_word part) result.filled result.skip into.new }
    ensures within { result.filled ≤ length into.old }
{
    match part {
        Part::Manifest => add(into, window, b"manifest"),
        Part::Log => add(into, window, b"log"),
        Part::Index => add(into, window, b"index"),
        Part::Filter => add(into, window, b"filter"),
        Part::Block => add(into, window, b"block"),
    }
}

// A sum more, as sixteen hex digits.
fn add_sum(into: &mut [u8], window: Window, sum: u64) -> Window
    requires { window.filled ≤ length into.old }
    ensures shows { (from : ℕ) (whole : Bytes) → HasPiece from whole window.filled window.skip into.old → HasPiece from (whole ++ sum_word sum) result.filled result.skip into.new }
    ensures within { result.filled ≤ length into.old }
{
    let mut bytes = [0; 8];
    BigEndian::write_u64(&mut bytes, sum);
    add_hex(into, window, &bytes)
}

// That a part has another sum than the one that is kept, in a line.
fn say_other_sum(
    into: &mut [u8],
    window: Window,
    part: Part,
    at: u64,
    kept: u64,
    seen: u64,
) -> Window
    requires { window.filled ≤ length into.old }
    ensures shows { (from : ℕ) → HasPiece from [] window.filled window.skip into.old → HasPiece from (damage_words (Sum part at kept seen) ++ 10 ∷ []) result.filled result.skip into.new }
    ensures within { result.filled ≤ length into.old }
{
    let window = add(into, window, b"damaged ");
    let window = add_part(into, window, part);
    let window = add(into, window, b" ");
    let window = add_number(into, window, at);
    let window = add(into, window, b" sum ");
    let window = add_sum(into, window, kept);
    let window = add(into, window, b" ");
    let window = add_sum(into, window, seen);
    add(into, window, b"\n")
}

// That a part breaks a rule, in a line.
fn say_broken_rule(into: &mut [u8], window: Window, part: Part, at: u64, rule: u64) -> Window
    requires { window.filled ≤ length into.old }
    ensures shows { (from : ℕ) → HasPiece from [] window.filled window.skip into.old → HasPiece from (damage_words (Shape part at rule) ++ 10 ∷ []) result.filled result.skip into.new }
    ensures within { result.filled ≤ length into.old }
{
    let window = add(into, window, b"damaged ");
    let window = add_part(into, window, part);
    let window = add(into, window, b" ");
    let window = add_number(into, window, at);
    let window = add(into, window, b" rule ");
    let window = add_number(into, window, rule);
    add(into, window, b"\n")
}

fn say_damage(into: &mut [u8], window: Window, damage: &Damage) -> Window
    requires { window.filled ≤ length into.old }
    ensures shows { (from : ℕ) → HasPiece from [] window.filled window.skip into.old → HasPiece from (damage_words damage.now ++ 10 ∷ []) result.filled result.skip into.new }
    ensures within { result.filled ≤ length into.old }
{
    match damage {
        Damage::Sum {
            part,
            at,
            kept,
            seen,
        } => say_other_sum(into, window, *part, *at, *kept, *seen),
        Damage::Shape { part, at, rule } => {
            say_broken_rule(into, window, *part, *at, u64::from(*rule))
        }
    }
}

// A reply's line. It stands apart so that `piece` is small, and a caller that says a pair has no look at other replies.
#[inline(never)]
fn say_line(into: &mut [u8], window: Window, reply: &Reply<'_>) -> Window
    requires { window.filled ≤ length into.old }
    ensures shows { (from : ℕ) → HasPiece from [] window.filled window.skip into.old → HasPiece from (text_of (spoken reply.now)) result.filled result.skip into.new }
    ensures within { result.filled ≤ length into.old }
{
    match reply {
        Reply::Done => add(into, window, b"ok\n"),
        Reply::Value(value) => say_word(into, window, b"val ", value),
        Reply::Missing => add(into, window, b"none\n"),
        Reply::At { key, value } => say_pair(into, window, key, value),
        Reply::End(count) => say_count(into, window, b"end ", *count),
        Reply::Counted(count) => say_count(into, window, b"count ", *count),
        Reply::About(count) => say_count(into, window, b"about ", *count),
        Reply::Explained {
            tables,
            admitted,
            blocks,
        } => say_explained(into, window, *tables, *admitted, *blocks),
        Reply::Bye => add(into, window, b"bye\n"),
        Reply::BadLine(code) => say_count(into, window, b"bad ", u64::from(*code)),
        Reply::LongKey(size) => say_count(into, window, b"limit key ", *size),
        Reply::LongValue(size) => say_count(into, window, b"limit value ", *size),
        Reply::ManyTables => add(into, window, b"limit tables\n"),
        Reply::LastEpoch => add(into, window, b"limit epoch\n"),
        Reply::Full { need, gap } => {
            say_two_counts(into, window, b"full need ", *need, b" gap ", *gap)
        }
        Reply::Memory => add(into, window, b"memory\n"),
        Reply::Device => add(into, window, b"device\n"),
        Reply::Damaged(damage) => say_damage(into, window, damage),
    }
}

/// Writes the bytes of a reply from place `from` on, as many as fit, and answers how many they are: 0 at its end.
///
/// The newline is the reply's last byte. What is passed over or does not fit is not spelled out, so a long reply that goes
/// out in pieces costs its length. The pairs of a range mostly fit whole, and are then spelled with no look at each text of
/// the line. Takes no memory.
#[inline]
pub fn piece(reply: &Reply<'_>, from: usize, into: &mut [u8]) -> usize
    ensures count { result ≡ min (length into.old) (length (text_of (spoken reply.now)) - from) }
    ensures bytes { take result into.new ≡ take (length into.old) (drop from (text_of (spoken reply.now))) }
{
    match reply {
        Reply::At { key, value } if from == 0 && has_room(into.len(), key, value) => {
            put_pair(into, key, value)
        }
        _ => {
            let window = Window {
                filled: 0,
                skip: from,
            };
            say_line(into, window, reply).filled
        }
    }
}
