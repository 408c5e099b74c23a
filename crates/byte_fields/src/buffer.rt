//! The bytes of a buffer that are wanted.
ghost use Rattle.std.specs.Prelude.{◌≤◌, length, vec_capacity};

/// Makes them so many, where they are fewer: a byte is set once, when it is wanted first. No memory: the buffer has room for
/// them.
pub fn lengthen(buffer: &mut Vec<u8>, size: usize)
    requires { size ≤ vec_capacity buffer.old }
    ensures many { size ≤ length buffer.new.items }
    ensures room { vec_capacity buffer.old ≤ vec_capacity buffer.new }
{
    if buffer.len() < size {
        match buffer.resize(size, 0) {
            Ok(()) => {}
            Err(_) => unreachable!(),
        }
    }
}
