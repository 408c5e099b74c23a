//! A line of a key and a value.
ghost use Rattle.std.specs.Prelude.{◌≡◌, ◌≤◌, ◌+◌, ◌/◌, ◌==◌, ◌∷◌, [], length, option_map, IfNone, IfSome, MatchResult, Err, List, ℕ};
ghost use Rattle.std.specs.List.{slice_split};
ghost use Rattle.line_model.specs.Lines.{bytes_in};
ghost use Rattle.map_run_model.specs.PairLines.{max_pair_line_bytes, pair_in, pair_of, within_limits};

use memchr::memchr;

/// The bytes of the longest line, without its newline.
pub(crate) const MAX_PAIR_LINE_BYTES: usize = 2_100_000;

/// Room for the bytes that the words of every line spell: two digits a byte.
pub(crate) const ROOM_BYTES: usize = MAX_PAIR_LINE_BYTES / 2;

// The two words of a line, parted by exactly one space; `None` where it has another number of words.
fn two_words(line: &[u8]) -> Option<(&[u8], &[u8])>
    ensures two { IfSome result (λ words. slice_split (λ b. b == 32) line.now ≡ words.0.now ∷ words.1.now ∷ []) }
    ensures sizes { IfSome result (λ words. length words.0.now + length words.1.now ≤ length line.now) }
    ensures others { IfNone result (pair_of (slice_split (λ b. b == 32) line.now) ≡ Err 3) }
{
    let at = memchr(b' ', line)?;
    let value = &line[at + 1..];
    match memchr(b' ', value) {
        Some(_) => None,
        None => Some((&line[..at], value)),
    }
}

// The bytes of a word: none by a dash, or one and more in hex. There is room for half as many as the word has digits.
fn decoded<'a>(word: &[u8], room: &'a mut [u8]) -> Option<&'a [u8]>
    requires { length word.now / 2 ≤ length room.old }
    ensures { option_map (λ bytes. bytes.now) result ≡ bytes_in word.now }
{
    if word == b"-".as_slice() {
        return Some(&[]);
    }
    let n = word.len() / 2;
    if n == 0 {
        return None;
    }
    match hex::decode_to_slice(word, &mut room[..n]) {
        Ok(()) => Some(&room[..n]),
        Err(_) => None,
    }
}

/// The key and the value of a line, of any length, laid out in `room`; or the code of the first rule that the line breaks: 1 it is
/// too long, 3 it has not two words, 4 a word is no bytes in hex.
pub(crate) fn pair_in<'a>(line: &[u8], room: &'a mut [u8]) -> Result<(&'a [u8], &'a [u8]), u8>
    requires { 1050000 ≤ length room.old }
    ensures { MatchResult result (λ pair. pair_in line.now ≡ within_limits pair.0.now pair.1.now) (λ code. pair_in line.now ≡ Err code) }
{
    if line.len() > MAX_PAIR_LINE_BYTES {
        return Err(1);
    }
    let Some((key, value)) = two_words(line) else {
        return Err(3);
    };
    let (key_room, value_room) = room.split_at_mut(key.len() / 2);
    match (decoded(key, key_room), decoded(value, value_room)) {
        (Some(key), Some(value)) => Ok((key, value)),
        _ => Err(4),
    }
}
