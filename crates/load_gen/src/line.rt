//! The line that tells the summary of a load.
ghost use Rattle.std.specs.Prelude.{◌≡◌, ◌≤◌, ◌+◌, ◌++◌, length, take, decimal};
ghost use Rattle.line_model.specs.Replies.{sum_word};
ghost use Rattle.load_gen.specs.Summary.{summary_text};

use crate::summary::Summary;

/// No summary's line is longer, in bytes.
pub const LINE_BYTES: usize = 108;

/// Writes the line that a load says at its end to the beginning of a buffer, and answers how many bytes it has: how many
/// steps it made, how many of them were refused, and the summary of the map then. Takes no memory.
pub fn spell_summary(count: u64, refused: u64, summary: &Summary, into: &mut [u8]) -> usize
    requires { 108 ≤ length into.old }
    ensures line { take result into.new ≡ summary_text count refused summary.now }
    ensures room { result ≤ 108 }
{
    let steps = put_number(into, 0, b"load steps ", count);
    let refused = put_number(into, steps, b" refused ", refused);
    let live = put_number(into, refused, b" live ", summary.live());
    let sum = put_text(into, live, b" sum ");
    let end = put_sum(into, sum, summary.sum());
    put_text(into, end, b"\n")
}

// Puts a text behind what stands in the buffer, and answers where it ends.
fn put_text(into: &mut [u8], at: usize, text: &[u8]) -> usize
    requires { at + length text.now ≤ length into.old }
    ensures end { result ≡ at + length text.now }
    ensures text { take result into.new ≡ take at into.old ++ text.now }
{
    into[at..at + text.len()].copy_from_slice(text);
    at + text.len()
}

// A word, and a number in decimal.
fn put_number(into: &mut [u8], at: usize, word: &[u8], number: u64) -> usize
    requires { at + length word.now + 20 ≤ length into.old }
    ensures end { result ≤ at + length word.now + 20 }
    ensures text { take result into.new ≡ take at into.old ++ (word.now ++ decimal number) }
{
    let start = put_text(into, at, word);
    let mut buffer = itoa::Buffer::new();
    put_text(into, start, buffer.format(number).as_bytes())
}

// A sum as sixteen hex digits.
fn put_sum(into: &mut [u8], at: usize, sum: u64) -> usize
    requires { at + 16 ≤ length into.old }
    ensures end { result ≡ at + 16 }
    ensures text { take result into.new ≡ take at into.old ++ sum_word sum }
{
    let mut digits = [0; 16];
    match hex::encode_to_slice(sum.to_be_bytes(), &mut digits) {
        Ok(()) => put_text(into, at, &digits),
        Err(_) => unreachable!(),
    }
}
