//! The lines that tell what a check finds, and how it ended.
ghost use Rattle.std.specs.Prelude.{◌≡◌, ◌≤◌, ◌+◌, ◌++◌, length, decimal};
ghost use Rattle.arrayvec.specs.ArrayVec.{array_vec_len};
ghost use Rattle.line_model.specs.Replies.{part_word, sum_word};
ghost use Rattle.surf_run.specs.Checks.{clean_text, finding_text, found_text, what_words};
ghost use Rattle.store_check.specs.Said.{what_said};

use arrayvec::ArrayVec;
use byte_fields::Part;
use byteorder::{BigEndian, ByteOrder};
use store_check::{Finding, Summary, What};

// The words of a line with at most four numbers of twenty digits, or with a part, a place and two sums; and a newline.
const CHECK_BYTES: usize = 160;

// Adds some bytes; there is room for them.
fn add(line: &mut ArrayVec<u8, CHECK_BYTES>, bytes: &[u8])
    requires { array_vec_len line.old + length bytes.now ≤ 160 }
    ensures { line.new.items ≡ line.old.items ++ bytes.now }
{
    match line.try_extend_from_slice(bytes) {
        Ok(()) => {}
        Err(_) => unreachable!(),
    }
}

// Adds a number.
fn add_number(line: &mut ArrayVec<u8, CHECK_BYTES>, number: u64)
    requires { array_vec_len line.old + 20 ≤ 160 }
    ensures bytes { line.new.items ≡ line.old.items ++ decimal number }
    ensures room { array_vec_len line.new ≤ array_vec_len line.old + 20 }
{
    let mut digits = itoa::Buffer::new();
    add(line, digits.format(number).as_bytes());
}

// Adds a sum, as sixteen hex digits.
fn add_sum(line: &mut ArrayVec<u8, CHECK_BYTES>, sum: u64)
    requires { array_vec_len line.old + 16 ≤ 160 }
    ensures bytes { line.new.items ≡ line.old.items ++ sum_word sum }
    ensures room { array_vec_len line.new ≤ array_vec_len line.old + 16 }
{
    let mut bytes = [0; 8];
    BigEndian::write_u64(&mut bytes, sum);
    let mut word = [0; 16];
    match hex::encode_to_slice(&bytes, &mut word) {
        Ok(()) => add(line, &word),
        Err(_) => unreachable!(),
    }
}

// The word of a part.
fn word_of(part: Part) -> &'static [u8]
    ensures word { result.now ≡ part_word part }
    ensures short { length result.now ≤ 8 }
{
    match part {
        Part::Manifest => b"manifest",
        Part::Log => b"log",
        Part::Index => b"index",
        Part::Filter => b"filter",
        Part::Block => b"block",
    }
}

// Adds what is wrong.
fn add_what(line: &mut ArrayVec<u8, CHECK_BYTES>, what: What)
    requires { array_vec_len line.old + 50 ≤ 160 }
    ensures bytes { line.new.items ≡ line.old.items ++ what_words (what_said what) }
    ensures room { array_vec_len line.new ≤ array_vec_len line.old + 50 }
{
    match what {
        What::OtherSum { kept, seen } => {
            add(line, b" sum ");
            add_sum(line, kept);
            add(line, b" ");
            add_sum(line, seen);
        }
        What::BrokenRule { rule } => {
            add(line, b" rule ");
            add_number(line, u64::from(rule));
        }
        What::WrongKeys => add(line, b" keys"),
        What::WrongCount => add(line, b" count"),
        What::WrongLeaf { number } => {
            add(line, b" leaf ");
            add_number(line, u64::from(number));
        }
    }
}

/// One thing that is wrong.
pub(crate) fn finding_line(finding: &Finding) -> ArrayVec<u8, CHECK_BYTES>
    ensures { result.items ≡ finding_text finding.now }
{
    let mut line = ArrayVec::new();
    add(&mut line, b"finding ");
    add(&mut line, word_of(finding.part));
    add(&mut line, b" ");
    add_number(&mut line, finding.at);
    add_what(&mut line, finding.what);
    add(&mut line, b"\n");
    line
}

/// How many things are wrong.
pub(crate) fn found_line(many: u64) -> ArrayVec<u8, CHECK_BYTES>
    ensures { result.items ≡ found_text many }
{
    let mut line = ArrayVec::new();
    add(&mut line, b"findings ");
    add_number(&mut line, many);
    add(&mut line, b"\n");
    line
}

/// What a store has of which nothing is wrong.
pub(crate) fn clean_line(has: Summary) -> ArrayVec<u8, CHECK_BYTES>
    ensures { result.items ≡ clean_text has.tables has.entries has.live has.log }
{
    let mut line = ArrayVec::new();
    add(&mut line, b"clean tables ");
    add_number(&mut line, has.tables);
    add(&mut line, b" entries ");
    add_number(&mut line, has.entries);
    add(&mut line, b" live ");
    add_number(&mut line, has.live);
    add(&mut line, b" log ");
    add_number(&mut line, has.log);
    add(&mut line, b"\n");
    line
}
