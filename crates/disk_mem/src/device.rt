//! The bytes of a device: reads past their end give zeros, and writes there grow them.
ghost use Rattle.std.specs.Prelude.{◌≡◌, ◌+◌, ◌^◌, ◌≤◌, length, max, vec_len, vec_capacity};
ghost use Rattle.disk_trait.specs.World.{window};
ghost use Rattle.disk_mem.specs.Bytes.{image_of, padded, with_write};

/// Fills the slice with the bytes from a place on.
pub fn fill(bytes: &[u8], at: usize, into: &mut [u8])
    requires { at + length into.old ≤ 2 ^ 48 }
    ensures { into.new ≡ window (image_of bytes.now) at (length into.old) }
{
    for (i, byte) in into.iter_mut().enumerate() {
        *byte = byte_at(bytes, at + i);
    }
}

fn byte_at(bytes: &[u8], place: usize) -> u8
    ensures { result ≡ image_of bytes.now place }
{
    if place < bytes.len() { bytes[place] } else { 0 }
}

/// Writes the slice's bytes from a place on. There is room.
#[tactic(auto, unfolding(crate::specs::Bytes::with_write))]
pub fn put(bytes: &mut Vec<u8>, at: usize, from: &[u8])
    requires { at + length from.now ≤ vec_capacity bytes.old }
    ensures written { bytes.new.items ≡ with_write bytes.old.items at from.now }
    ensures len { vec_len bytes.new ≡ max (vec_len bytes.old) (at + length from.now) }
    ensures capacity { vec_capacity bytes.old ≤ vec_capacity bytes.new }
{
    let end = at + from.len();
    pad(bytes, end);
    bytes[at..end].copy_from_slice(from);
}

// Grows to at least so many bytes, with zeros. There is room.
fn pad(bytes: &mut Vec<u8>, size: usize)
    requires { size ≤ vec_capacity bytes.old }
    ensures padded { bytes.new.items ≡ padded bytes.old.items size }
    ensures len { vec_len bytes.new ≡ max (vec_len bytes.old) size }
    ensures capacity { vec_capacity bytes.old ≤ vec_capacity bytes.new }
{
    if size > bytes.len() {
        match bytes.resize(size, 0) {
            Ok(()) => {}
            Err(_) => unreachable!(),
        }
    }
}
