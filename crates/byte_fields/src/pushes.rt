//! Numbers that are appended to a byte string, lowest byte first.
ghost use Rattle.std.specs.Prelude.{◌≡◌, ◌≤◌, ◌+◌, ◌++◌, All, OnOk, OnErr, vec_len, vec_capacity};
ghost use Rattle.byteorder.specs.Endian.{little_bytes};
ghost use Rattle.byte_fields.specs.Fields.{fields};

use std::alloc::AllocError;

// The most bytes that a number takes.
const MOST_WIDTH: usize = 8;

// Appends the lowest bytes of a number where there is room.
fn append(number: u64, width: usize, out: &mut Vec<u8>)
    requires width { width ≤ 8 }
    requires room { vec_len out.old + width ≤ vec_capacity out.old }
    ensures added { out.new.items ≡ out.old.items ++ little_bytes width number }
    ensures len { vec_len out.new ≡ vec_len out.old + width }
    ensures capacity { vec_capacity out.old ≤ vec_capacity out.new }
{
    let bytes = number.to_le_bytes();
    match out.extend_from_slice(&bytes[..width]) {
        Ok(()) => {}
        Err(_) => unreachable!(),
    }
}

/// Appends the lowest `width` bytes of a number. An `Err` leaves the bytes as they were.
pub fn push_number(number: u64, width: usize, out: &mut Vec<u8>) -> Result<(), AllocError>
    requires { width ≤ 8 }
    ensures added { OnOk result (out.new.items ≡ out.old.items ++ little_bytes width number) }
    ensures unchanged { OnErr result (out.new.items ≡ out.old.items) }
{
    out.reserve(width)?;
    append(number, width, out);
    Ok(())
}

/// Appends numbers one after the other, each in its width. The memory is taken first, for eight bytes a number, so an
/// `Err` leaves the bytes as they were.
pub fn push_fields(widths: &[usize], numbers: &[u64], out: &mut Vec<u8>) -> Result<(), AllocError>
    requires { All (λ w. w ≤ 8) widths.now }
    ensures added { OnOk result (out.new.items ≡ out.old.items ++ fields widths.now numbers.now) }
    ensures unchanged { OnErr result (out.new.items ≡ out.old.items) }
{
    let count = widths.len().min(numbers.len());
    out.reserve(MOST_WIDTH * count)?;
    for i in 0..count {
        append(numbers[i], widths[i], out);
    }
    Ok(())
}
