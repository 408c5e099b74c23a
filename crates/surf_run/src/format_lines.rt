//! The lines that tell how a format ended.
ghost use Rattle.std.specs.Prelude.{◌≡◌, ◌≤◌, ◌+◌, ◌++◌, length};
ghost use Rattle.arrayvec.specs.ArrayVec.{array_vec_len};
ghost use Rattle.surf_run.specs.Formats.{bad_settings_text, formatted_text};

use arrayvec::ArrayVec;
use filter_api::Field;

/// That a store is there.
pub(crate) const ALREADY_A_STORE: &[u8] = b"already a store\n";

// `formatted `, the digits of a number and a newline.
const FORMATTED_BYTES: usize = 64;

// Adds some bytes; there is room for them.
fn add(line: &mut ArrayVec<u8, FORMATTED_BYTES>, bytes: &[u8])
    requires { array_vec_len line.old + length bytes.now ≤ 64 }
    ensures { line.new.items ≡ line.old.items ++ bytes.now }
{
    match line.try_extend_from_slice(bytes) {
        Ok(()) => {}
        Err(_) => unreachable!(),
    }
}

/// That a store of a given number of pages was made.
pub(crate) fn formatted_line(pages: u64) -> ArrayVec<u8, FORMATTED_BYTES>
    ensures { result.items ≡ formatted_text pages }
{
    let mut digits = itoa::Buffer::new();
    let mut line = ArrayVec::new();
    add(&mut line, b"formatted ");
    add(&mut line, digits.format(pages).as_bytes());
    add(&mut line, b"\n");
    line
}

/// That this field is out of range.
pub(crate) fn bad_settings_line(field: Field) -> &'static [u8]
    ensures { result.now ≡ bad_settings_text field }
{
    match field {
        Field::Pages => b"bad settings pages\n",
        Field::Variant => b"bad settings variant\n",
        Field::HashBits => b"bad settings hash-bits\n",
        Field::RealBits => b"bad settings real-bits\n",
        Field::Ratio => b"bad settings ratio\n",
        Field::Count => b"bad settings count\n",
    }
}
