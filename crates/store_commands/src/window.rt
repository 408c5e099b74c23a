//! What stands of a reply in a buffer.
ghost use Rattle.std.specs.Prelude.{◌≡◌, ◌≤◌, ◌⊎◌, ◌+◌, ◌-◌, ◌*◌, ◌++◌, ℕ, length, min, decimal};
ghost use Rattle.hex.specs.Hex.{encode_lower};
ghost use Rattle.map_model.specs.SortedMap.{Bytes};
ghost use Rattle.line_model.specs.Replies.{word_of};
ghost use Rattle.store_commands.specs.Spoken.{HasPiece};

use crate::whole::{put_hex, put_text};

/// How much of a reply stands in a buffer, and how many of its bytes are still to be passed over.
#[derive(Clone, Copy)]
pub struct Window {
    pub filled: usize,
    pub skip: usize,
}

/// A text more: its bytes behind those that are passed over, as many as fit.
pub fn add(into: &mut [u8], window: Window, text: &[u8]) -> Window
    requires { window.filled ≤ length into.old }
    ensures shows { (from : ℕ) (whole : Bytes) → HasPiece from whole window.filled window.skip into.old → HasPiece from (whole ++ text.now) result.filled result.skip into.new }
    ensures within { result.filled ≤ length into.old }
    ensures lands { result.filled ≡ window.filled + min (length text.now - window.skip) (length into.old - window.filled) }
    ensures skips { result.skip ≡ window.skip - length text.now }
{
    let skipped = window.skip.min(text.len());
    let part = &text[skipped..];
    let n = part.len().min(into.len() - window.filled);
    let filled = put_text(into, window.filled, &part[..n]);
    Window {
        filled,
        skip: window.skip - skipped,
    }
}

/// A number more, in decimal.
pub fn add_number(into: &mut [u8], window: Window, number: u64) -> Window
    requires { window.filled ≤ length into.old }
    ensures shows { (from : ℕ) (whole : Bytes) → HasPiece from whole window.filled window.skip into.old → HasPiece from (whole ++ decimal number) result.filled result.skip into.new }
    ensures within { result.filled ≤ length into.old }
{
    let mut buffer = itoa::Buffer::new();
    add(into, window, buffer.format(number).as_bytes())
}

// Bytes more, in hex, of which no digit lands: they stand before the buffer, or behind it.
fn pass_hex(window: Window, bytes: &[u8]) -> Window
    ensures shows { (from : ℕ) (whole buffer : Bytes) → HasPiece from whole window.filled window.skip buffer → (2 * length bytes.now ≤ window.skip) ⊎ (window.filled ≡ length buffer)
        → HasPiece from (whole ++ encode_lower bytes.now) result.filled result.skip buffer }
    ensures same { result.filled ≡ window.filled }
    ensures skips { result.skip ≡ window.skip - 2 * length bytes.now }
{
    Window {
        filled: window.filled,
        skip: window.skip.saturating_sub(2 * bytes.len()),
    }
}

// Bytes more, in hex, of which each digit lands.
fn put_whole(into: &mut [u8], window: Window, bytes: &[u8]) -> Window
    requires here { window.skip ≡ 0 }
    requires room { window.filled + 2 * length bytes.now ≤ length into.old }
    ensures shows { (from : ℕ) (whole : Bytes) → HasPiece from whole window.filled window.skip into.old → HasPiece from (whole ++ encode_lower bytes.now) result.filled result.skip into.new }
    ensures lands { result.filled ≡ window.filled + 2 * length bytes.now }
    ensures skips { result.skip ≡ 0 }
{
    Window {
        filled: put_hex(into, window.filled, bytes),
        skip: 0,
    }
}

// A byte more, or none, in hex, of which a digit may stand before the buffer or behind it.
fn add_byte(into: &mut [u8], window: Window, byte: &[u8]) -> Window
    requires filled { window.filled ≤ length into.old }
    requires one { length byte.now ≤ 1 }
    ensures shows { (from : ℕ) (whole : Bytes) → HasPiece from whole window.filled window.skip into.old → HasPiece from (whole ++ encode_lower byte.now) result.filled result.skip into.new }
    ensures within { result.filled ≤ length into.old }
    ensures lands { result.filled ≡ window.filled + min (2 * length byte.now - window.skip) (length into.old - window.filled) }
    ensures skips { result.skip ≡ window.skip - 2 * length byte.now }
{
    let n = 2 * byte.len();
    let mut digits = [0; 2];
    match hex::encode_to_slice(byte, &mut digits[..n]) {
        Ok(()) => add(into, window, &digits[..n]),
        Err(_) => unreachable!(),
    }
}

// Bytes more, in hex, of which none stands before the buffer: those of which both digits land, one of which one does, and
// those behind it.
fn add_hex_front(into: &mut [u8], window: Window, bytes: &[u8]) -> Window
    requires filled { window.filled ≤ length into.old }
    requires here { window.skip ≡ 0 }
    ensures shows { (from : ℕ) (whole : Bytes) → HasPiece from whole window.filled window.skip into.old → HasPiece from (whole ++ encode_lower bytes.now) result.filled result.skip into.new }
    ensures within { result.filled ≤ length into.old }
{
    let (inside, rest) = bytes.split_at(bytes.len().min((into.len() - window.filled) / 2));
    let window = put_whole(into, window, inside);
    let (cut, behind) = rest.split_at(rest.len().min(into.len() - window.filled));
    let window = add_byte(into, window, cut);
    pass_hex(window, behind)
}

// Bytes more, in hex, of which some may stand before the buffer or behind it. It costs what lands, and not what is passed.
fn add_cut_hex(into: &mut [u8], window: Window, bytes: &[u8]) -> Window
    requires { window.filled ≤ length into.old }
    ensures shows { (from : ℕ) (whole : Bytes) → HasPiece from whole window.filled window.skip into.old → HasPiece from (whole ++ encode_lower bytes.now) result.filled result.skip into.new }
    ensures within { result.filled ≤ length into.old }
{
    let (before, rest) = bytes.split_at(bytes.len().min(window.skip / 2));
    let window = pass_hex(window, before);
    if rest.is_empty() {
        return window;
    }
    let (cut, rest) = rest.split_at(window.skip);
    let window = add_byte(into, window, cut);
    add_hex_front(into, window, rest)
}

/// Bytes more, in hex: straight into the buffer, where all of their digits land there.
pub fn add_hex(into: &mut [u8], window: Window, bytes: &[u8]) -> Window
    requires { window.filled ≤ length into.old }
    ensures shows { (from : ℕ) (whole : Bytes) → HasPiece from whole window.filled window.skip into.old → HasPiece from (whole ++ encode_lower bytes.now) result.filled result.skip into.new }
    ensures within { result.filled ≤ length into.old }
{
    if window.skip > 0 || bytes.len() > (into.len() - window.filled) / 2 {
        return add_cut_hex(into, window, bytes);
    }
    put_whole(into, window, bytes)
}

/// Bytes more, as a word: in hex, or a dash for none.
pub fn add_word(into: &mut [u8], window: Window, bytes: &[u8]) -> Window
    requires { window.filled ≤ length into.old }
    ensures shows { (from : ℕ) (whole : Bytes) → HasPiece from whole window.filled window.skip into.old → HasPiece from (whole ++ word_of bytes.now) result.filled result.skip into.new }
    ensures within { result.filled ≤ length into.old }
{
    if bytes.is_empty() {
        add(into, window, b"-")
    } else {
        add_hex(into, window, bytes)
    }
}
