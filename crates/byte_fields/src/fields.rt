//! Fields: unsigned numbers at a place of a byte string, lowest byte first.
ghost use Rattle.std.specs.Prelude.{◌≡◌, ◌≤◌, ◌+◌, length, drop};
ghost use Rattle.std.specs.List.{splice};
ghost use Rattle.byteorder.specs.Endian.{little_bytes, little_number};

use byteorder::{ByteOrder, LittleEndian};

/// The number in the two bytes from place `at`.
pub fn get_u16(bytes: &[u8], at: usize) -> u16
    requires { at + 2 ≤ length bytes.now }
    ensures { result ≡ little_number 2 (drop at bytes.now) }
{
    LittleEndian::read_u16(&bytes[at..at + 2])
}

/// The number in the four bytes from place `at`.
pub fn get_u32(bytes: &[u8], at: usize) -> u32
    requires { at + 4 ≤ length bytes.now }
    ensures { result ≡ little_number 4 (drop at bytes.now) }
{
    LittleEndian::read_u32(&bytes[at..at + 4])
}

/// The number in the eight bytes from place `at`.
pub fn get_u64(bytes: &[u8], at: usize) -> u64
    requires { at + 8 ≤ length bytes.now }
    ensures { result ≡ little_number 8 (drop at bytes.now) }
{
    LittleEndian::read_u64(&bytes[at..at + 8])
}

/// Writes `n` into the two bytes from place `at`, and nothing else.
pub fn put_u16(bytes: &mut [u8], at: usize, n: u16)
    requires { at + 2 ≤ length bytes.old }
    ensures { bytes.new ≡ splice bytes.old at (at + 2) (little_bytes 2 n) }
{
    LittleEndian::write_u16(&mut bytes[at..at + 2], n);
}

/// Writes `n` into the four bytes from place `at`, and nothing else.
pub fn put_u32(bytes: &mut [u8], at: usize, n: u32)
    requires { at + 4 ≤ length bytes.old }
    ensures { bytes.new ≡ splice bytes.old at (at + 4) (little_bytes 4 n) }
{
    LittleEndian::write_u32(&mut bytes[at..at + 4], n);
}

/// Writes `n` into the eight bytes from place `at`, and nothing else.
pub fn put_u64(bytes: &mut [u8], at: usize, n: u64)
    requires { at + 8 ≤ length bytes.old }
    ensures { bytes.new ≡ splice bytes.old at (at + 8) (little_bytes 8 n) }
{
    LittleEndian::write_u64(&mut bytes[at..at + 8], n);
}
