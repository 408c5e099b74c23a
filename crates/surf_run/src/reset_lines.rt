//! The lines that tell the new numbers of a store.
ghost use Rattle.std.specs.Prelude.{◌≡◌, ◌≤◌, ◌+◌, ◌++◌, length};
ghost use Rattle.arrayvec.specs.ArrayVec.{array_vec_len};
ghost use Rattle.surf_run.specs.Resetting.{grown_text, settings_text};

use arrayvec::ArrayVec;
use filter_api::Settings;

// A word, at most three numbers after spaces, and a newline.
const RESET_BYTES: usize = 128;

// Adds some bytes; there is room for them.
fn add(line: &mut ArrayVec<u8, RESET_BYTES>, bytes: &[u8])
    requires { array_vec_len line.old + length bytes.now ≤ 128 }
    ensures { line.new.items ≡ line.old.items ++ bytes.now }
{
    match line.try_extend_from_slice(bytes) {
        Ok(()) => {}
        Err(_) => unreachable!(),
    }
}

/// That new tables get these settings.
pub(crate) fn settings_line(settings: Settings) -> ArrayVec<u8, RESET_BYTES>
    ensures { result.items ≡ settings_text settings }
{
    let mut digits = itoa::Buffer::new();
    let mut line = ArrayVec::new();
    add(&mut line, b"settings ");
    add(&mut line, digits.format(settings.hash_bits).as_bytes());
    add(&mut line, b" ");
    add(&mut line, digits.format(settings.real_bits).as_bytes());
    add(&mut line, b" ");
    add(&mut line, digits.format(settings.ratio).as_bytes());
    add(&mut line, b"\n");
    line
}

/// That the store has a given number of pages.
pub(crate) fn grown_line(pages: u64) -> ArrayVec<u8, RESET_BYTES>
    ensures { result.items ≡ grown_text pages }
{
    let mut digits = itoa::Buffer::new();
    let mut line = ArrayVec::new();
    add(&mut line, b"grown ");
    add(&mut line, digits.format(pages).as_bytes());
    add(&mut line, b"\n");
    line
}
