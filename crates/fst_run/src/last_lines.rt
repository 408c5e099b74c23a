//! The last lines of both programs.
ghost use Rattle.std.specs.Prelude.{◌≡◌, ◌≤◌, ◌+◌, ◌++◌, length, decimal};
ghost use Rattle.arrayvec.specs.ArrayVec.{array_vec_len};
ghost use Rattle.map_parts.specs.Parts.{seen};
ghost use Rattle.map_run_model.specs.LastLines.{built_text, damaged_map_text, refusal_text, too_large_text};
ghost use Rattle.map_run_model.specs.PairLines.{BadAt};

use arrayvec::ArrayVec;
use map_parts::MapFault;

/// A map is there already.
pub(crate) const TAKEN: &[u8] = b"taken\n";

/// There is one line more than a map has pairs.
pub(crate) const TOO_MANY: &[u8] = b"too many\n";

/// There is no line.
pub(crate) const NO_KEYS: &[u8] = b"no keys\n";

/// No map is there to be served.
pub(crate) const NOT_A_MAP: &[u8] = b"not a map\n";

// The words of a line with at most two numbers of twenty digits, and a newline.
const LAST_BYTES: usize = 64;

// Adds some bytes; there is room for them.
fn add(line: &mut ArrayVec<u8, LAST_BYTES>, bytes: &[u8])
    requires { array_vec_len line.old + length bytes.now ≤ 64 }
    ensures { line.new.items ≡ line.old.items ++ bytes.now }
{
    match line.try_extend_from_slice(bytes) {
        Ok(()) => {}
        Err(_) => unreachable!(),
    }
}

// Adds a number.
fn add_number(line: &mut ArrayVec<u8, LAST_BYTES>, number: u64)
    requires { array_vec_len line.old + 20 ≤ 64 }
    ensures bytes { line.new.items ≡ line.old.items ++ decimal number }
    ensures room { array_vec_len line.new ≤ array_vec_len line.old + 20 }
{
    let mut digits = itoa::Buffer::new();
    add(line, digits.format(number).as_bytes());
}

/// A map of so many pairs was built.
pub(crate) fn built_line(pairs: u64) -> ArrayVec<u8, LAST_BYTES>
    ensures { result.items ≡ built_text pairs }
{
    let mut line = ArrayVec::new();
    add(&mut line, b"built ");
    add_number(&mut line, pairs);
    add(&mut line, b"\n");
    line
}

/// The line of this number breaks the rule of this code.
pub(crate) fn bad_line(number: u64, code: u8) -> ArrayVec<u8, LAST_BYTES>
    ensures { result.items ≡ refusal_text (BadAt number code) }
{
    let mut line = ArrayVec::new();
    add(&mut line, b"bad line ");
    add_number(&mut line, number);
    add(&mut line, b" code ");
    add_number(&mut line, u64::from(code));
    add(&mut line, b"\n");
    line
}

/// The body would have so many bytes.
pub(crate) fn too_large_line(bytes: u64) -> ArrayVec<u8, LAST_BYTES>
    ensures { result.items ≡ too_large_text bytes }
{
    let mut line = ArrayVec::new();
    add(&mut line, b"too large ");
    add_number(&mut line, bytes);
    add(&mut line, b"\n");
    line
}

/// The first rule that a body breaks, and where.
pub(crate) fn damaged_line(fault: MapFault) -> ArrayVec<u8, LAST_BYTES>
    ensures { result.items ≡ damaged_map_text (seen fault) }
{
    let mut line = ArrayVec::new();
    add(&mut line, b"damaged map ");
    add_number(&mut line, fault.place);
    add(&mut line, b" ");
    add_number(&mut line, u64::from(fault.rule));
    add(&mut line, b"\n");
    line
}
