//! Parts of a store that agree with their own sums, and not with one another.
use crate::runs::{base_disk, check, served, served_by};
use disk_mem::MemDisk;
use disk_trait::{Disk, DiskFault};
use plain_filter::PlainFilter;
use std::test::Fail;

/// The FNV-1a sum of some bytes, least byte first.
pub fn sum_of(bytes: &[u8]) -> [u8; 8] {
    let mut sum = 0xcbf2_9ce4_8422_2325u64;
    for byte in bytes {
        sum = (sum ^ u64::from(*byte)).wrapping_mul(0x100_0000_01b3);
    }
    sum.to_le_bytes()
}

// Changes one byte in each of these places of a slot's body, which has so many bytes before its sum.
fn change(
    disk: &mut MemDisk,
    body: u64,
    changes: &[(usize, u8)],
    length: usize,
) -> Result<(), DiskFault> {
    let mut bytes = [0; 256];
    let length = length.min(248);
    let body = body.min(1 << 20);
    disk.read(body, &mut bytes[..length])?;
    for (place, byte) in changes {
        bytes[(*place).min(247)] = *byte;
    }
    let sum = sum_of(&bytes[..length]);
    bytes[length..length + 8].copy_from_slice(&sum);
    disk.write(body, &bytes[..length + 8])
}

// Lines that make tables, changes of the body at a byte, which has so many bytes before its sum, and what a get is told.
type Example = (
    &'static [u8],
    u64,
    &'static [(usize, u8)],
    usize,
    &'static [u8],
);

// A filter of no suffix bits, whose row in slot B has eight hash bits: its widths are at byte 5 of its page, the third of the
// table. And two tables with one key, named as tables of level 1 in slot A: the second row is told.
const EXAMPLES: [Example; 2] = [
    (
        b"put 61 62\nflush\n",
        131_080,
        &[(120, 8)],
        128,
        b"damaged filter 794629 rule 12\n",
    ),
    (
        b"put 61 62\nflush\nput 61 63\nflush\n",
        8,
        &[(64, 1), (128, 1)],
        192,
        b"damaged manifest 136 rule 12\n",
    ),
];

#[test]
fn parts_that_do_not_fit_are_told(rt: HostRuntime) -> Result<(), Fail> {
    let alloc = rt.alloc();
    for (number, (lines, body, changes, length, told)) in EXAMPLES.iter().copied().enumerate() {
        let mut end = served(alloc, base_disk(alloc)?, lines)?;
        change(&mut end.disk, body, changes, length)?;
        let again = served(alloc, end.disk, b"get 61\n")?;
        check(&rt, &again, 5, told, number as u64);
    }
    Ok(())
}

// A plain list of one leaf has fewer bytes than the header of an image.
#[test]
fn a_table_with_a_plain_filter_is_refused(rt: HostRuntime) -> Result<(), Fail> {
    let alloc = rt.alloc();
    let plain = served_by::<PlainFilter>(alloc, base_disk(alloc)?, b"put 61 62\nflush\n")?;
    let told = served(alloc, plain.disk, b"get 61\n")?;
    check(&rt, &told, 5, b"damaged filter 794646 rule 1\n", 0);
    Ok(())
}

// What a filter was built with says nothing of its ratio, so the row's is judged by nothing.
#[test]
fn a_row_of_any_ratio_is_read(rt: HostRuntime) -> Result<(), Fail> {
    let alloc = rt.alloc();
    let mut end = served(alloc, base_disk(alloc)?, b"put 61 62\nflush\n")?;
    change(&mut end.disk, 131_080, &[(122, 0xFF)], 128)?;
    let again = served(alloc, end.disk, b"get 61\n")?;
    check(&rt, &again, 0, b"val 62\n", 0);
    Ok(())
}
