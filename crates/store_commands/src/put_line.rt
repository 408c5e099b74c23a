//! The line that puts a pair, a piece at a time.
ghost use Rattle.std.specs.Prelude.{◌≡◌, ◌≤◌, ◌-◌, ◌∷◌, ℕ, [], min, length, take, drop, map};
ghost use Rattle.line_model.specs.Lines.{lines_of};
ghost use Rattle.line_model.specs.Requests.{Put, request_of};
ghost use Rattle.store_commands.specs.Puts.{put_text, puts_text};
ghost use Rattle.store_commands.specs.Spoken.{HasPiece};

use crate::window::{Window, add, add_word};

// The line, behind what is passed over.
fn add_put(into: &mut [u8], window: Window, key: &[u8], value: &[u8]) -> Window
    requires { window.filled ≤ length into.old }
    ensures shows { (from : ℕ) → HasPiece from [] window.filled window.skip into.old → HasPiece from (put_text key.now value.now) result.filled result.skip into.new }
    ensures within { result.filled ≤ length into.old }
{
    let window = add(into, window, b"put ");
    let window = add_word(into, window, key);
    let window = add(into, window, b" ");
    let window = add_word(into, window, value);
    add(into, window, b"\n")
}

/// Writes the bytes of the line `put K V` from place `from` on, as many as fit, and answers how many they are: 0 at its end.
///
/// It is in pieces as a reply is by [`piece`](crate::piece), and read by [`parse_line`](crate::parse_line) it puts the pair.
/// Takes no memory.
pub fn put_piece(key: &[u8], value: &[u8], from: usize, into: &mut [u8]) -> usize
    ensures count { result ≡ min (length into.old) (length (put_text key.now value.now) - from) }
    ensures bytes { take result into.new ≡ take (length into.old) (drop from (put_text key.now value.now)) }
{
    let window = Window {
        filled: 0,
        skip: from,
    };
    add_put(into, window, key, value).filled
}

/// Pairs whose lines put them again.
#[tactic(auto, unfolding(hex::specs::Hex::encode_with, hex::specs::Hex::decode_pairs))]
pub fn puts_that_are_read()
    ensures { map (λ line. request_of line) (lines_of (puts_text ((0x61 ∷ [], []) ∷ (0x62 ∷ [], 0xff ∷ []) ∷ []))) ≡ Put (0x61 ∷ []) [] ∷ Put (0x62 ∷ []) (0xff ∷ []) ∷ [] }
{}
