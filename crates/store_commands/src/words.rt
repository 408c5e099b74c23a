//! Texts cut at newlines and spaces, and what a word spells.
ghost use Rattle.std.specs.Prelude.{◌≡◌, ◌≤◌, ◌+◌, ◌/◌, ◌==◌, ◌++◌, ◌∷◌, IfSome, IfNone, length, option_map};
ghost use Rattle.std.specs.List.{slice_split};
ghost use Rattle.line_model.specs.Lines.{bytes_in};
ghost use Rattle.line_model.specs.Requests.{number_in};
ghost use Rattle.store_commands.specs.Cutting.{NoNewline, words_after};
ghost use Rattle.store_commands.specs.Asks.{AreWords, AreWithin};

use key_base::MAX_RANGE_PAIRS;
use memchr::memchr;

/// The first line of a text, without its newline, and what stands behind it; `None` where the text has no newline.
pub fn next_line(text: &[u8]) -> Option<(&[u8], &[u8])>
    ensures found { IfSome result (λ cut. (text.now ≡ cut.0.now ++ 10 ∷ cut.1.now) × NoNewline cut.0.now) }
    ensures none { IfNone result (NoNewline text.now) }
{
    match memchr(b'\n', text) {
        Some(at) => Some((&text[..at], &text[at + 1..])),
        None => None,
    }
}

/// The first word, and what stands behind the space after it.
pub fn cut(text: &[u8]) -> (&[u8], Option<&[u8]>)
    ensures words { slice_split (λ b. b == 32) text.now ≡ result.0.now ∷ words_after (option_map (λ rest. rest.now) result.1) }
    ensures first { length result.0.now ≤ length text.now }
    ensures rest { IfSome result.1 (λ rest. length result.0.now + length rest.now ≤ length text.now) }
{
    match memchr(b' ', text) {
        Some(at) => (&text[..at], Some(&text[at + 1..])),
        None => (text, None),
    }
}

/// The words behind a verb, as many as some verb wants.
#[derive(Clone, Copy)]
pub enum Words<'a> {
    Zero,
    One(&'a [u8]),
    Two(&'a [u8], &'a [u8]),
    Three(&'a [u8], &'a [u8], &'a [u8]),
    More,
}

/// The words of what stands behind a verb and its space.
pub fn words_in<'a>(text: Option<&'a [u8]>) -> Words<'a>
    ensures words { AreWords result (words_after (option_map (λ rest. rest.now) text.entry)) }
    ensures sizes { IfSome text.entry (λ text. AreWithin (length text.now) result) }
{
    let Some(text) = text else {
        return Words::Zero;
    };
    let (first, rest) = cut(text);
    let Some(rest) = rest else {
        return Words::One(first);
    };
    let (second, rest) = cut(rest);
    let Some(rest) = rest else {
        return Words::Two(first, second);
    };
    let (third, rest) = cut(rest);
    match rest {
        None => Words::Three(first, second, third),
        Some(_) => Words::More,
    }
}

/// The bytes of a word: none by a dash, or one and more in hex. There is room for half as many as the word has digits.
pub fn decoded<'a>(word: &[u8], room: &'a mut [u8]) -> Option<&'a [u8]>
    requires { length word.now / 2 ≤ length room.old }
    ensures { option_map (λ bytes. bytes.now) result ≡ bytes_in word.now }
{
    if word == b"-".as_slice() {
        return Some(&[]);
    }
    let n = word.len() / 2;
    if n == 0 {
        return None;
    }
    match hex::decode_to_slice(word, &mut room[..n]) {
        Ok(()) => Some(&room[..n]),
        Err(_) => None,
    }
}

/// The number that a word spells, from 0 to 1,000,000, in the one way in which it is written.
pub fn number(word: &[u8]) -> Option<u32>
    ensures { result ≡ number_in word.now }
{
    let mut n: u32 = 0;
    for i in 0..word.len() {
        n = 10 * n + u32::from(word[i].saturating_sub(b'0'));
        if n > MAX_RANGE_PAIRS {
            return None;
        }
    }
    let mut buffer = itoa::Buffer::new();
    if word == buffer.format(n).as_bytes() {
        Some(n)
    } else {
        None
    }
}
