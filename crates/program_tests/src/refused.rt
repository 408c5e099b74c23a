//! What is told of a device of which some bytes are others, and of a read that fails.
use crate::asserts::{check_same, check_that, check_that_at};
use crate::runs::{base_disk, calls_of, check, commanded, disk_of, failing, left_behind, served};
use disk_mem::MemDisk;
use disk_trait::{Disk, DiskFault};
use std::alloc::Global;
use std::test::Fail;

// Bytes of a new store that are written anew, by their places.
type Writes = &'static [(u64, &'static [u8])];

// Slot A's body begins at byte 8, and its sum at byte 72. Of another version, of 511 pages with the sum of these bytes, of 511
// pages with the sum that was there; and an open gate of the log before a record of kind 4, or of a range without an upper bound.
const EXAMPLES: [(Writes, &[u8]); 5] = [
    (&[(12, b"\x03")], b"damaged manifest 12 rule 2\n"),
    (
        &[(24, b"\xff\x01"), (72, b"\x96\x46\x40\x22\x3b\xf6\xc5\xe9")],
        b"damaged manifest 24 rule 5\n",
    ),
    (
        &[(24, b"\xff\x01")],
        b"damaged manifest 8 sum 95f84f65e6c82df8 e9c5f63b22404696\n",
    ),
    (
        &[(262_144, b"\x01\x04\x01\x00\x00\x00\x00\x00\x61\x00")],
        b"damaged log 262144 rule 2\n",
    ),
    (
        &[(262_144, b"\x01\x03\x01\x00\x00\x00\x00\x00\x61\x00")],
        b"damaged log 262144 rule 3\n",
    ),
];

// Words of each run that opens a store.
const OPENINGS: [&str; 4] = [
    "serve",
    "load --seed 1 --count 1",
    "settings --variant base",
    "grow --pages 600",
];

fn write_all(disk: &mut MemDisk, writes: Writes) -> Result<(), DiskFault> {
    for (at, bytes) in writes {
        disk.write((*at).min(1 << 20), &bytes[..bytes.len().min(16)])?;
    }
    Ok(())
}

#[test]
fn each_opening_tells_what_is_damaged(rt: HostRuntime) -> Result<(), Fail> {
    let alloc = rt.alloc();
    for (number, (writes, told)) in EXAMPLES.iter().copied().enumerate() {
        for words in OPENINGS {
            let mut disk = base_disk(alloc)?;
            write_all(&mut disk, writes)?;
            let end = commanded(alloc, words, disk)?;
            check(&rt, &end, 5, told, number as u64);
        }
    }
    Ok(())
}

// A disk of a store with a table of one block.
fn one_block(alloc: Global) -> Result<Box<MemDisk>, Fail> {
    left_behind(alloc, base_disk(alloc)?, b"put 61 62\nflush\n")
}

// A byte of the block is another: each line that reads it says so, and nothing is written.
#[test]
fn each_line_that_reads_tells_of_a_damaged_block(rt: HostRuntime) -> Result<(), Fail> {
    let alloc = rt.alloc();
    let mut first = one_block(alloc)?;
    first.write(786_440, &[3])?;
    let told = b"damaged block 786432 sum 587b62ad428b4221 1330a17f9fbb1d44\n";
    let lines: [&[u8]; 3] = [b"seek 61 62\n", b"count - 7a\n", b"compact\n"];
    for (number, line) in lines.into_iter().enumerate() {
        let end = served(alloc, disk_of(alloc, first.bytes())?, line)?;
        check(&rt, &end, 5, told, number as u64);
        check_that_at(&rt, &number, end.disk.bytes() == first.bytes());
    }
    Ok(())
}

// New numbers are set beside a damaged block, in slot A alone, and the next line that reads it tells of it as before.
#[test]
fn new_numbers_are_set_beside_a_damaged_block(rt: HostRuntime) -> Result<(), Fail> {
    let alloc = rt.alloc();
    let mut first = one_block(alloc)?;
    first.write(786_440, &[3])?;
    let few = commanded(alloc, "grow --pages 511", disk_of(alloc, first.bytes())?)?;
    check(&rt, &few, 8, b"bad settings pages\n", 0);
    check_that(&rt, few.disk.bytes() == first.bytes());
    let words = "settings --variant hash";
    let end = commanded(alloc, words, disk_of(alloc, first.bytes())?)?;
    check(&rt, &end, 0, b"settings 8 0 64\n", 1);
    check_that(
        &rt,
        end.disk.bytes().get(131_072..) == first.bytes().get(131_072..),
    );
    let read = served(alloc, end.disk, b"seek 61 62\n")?;
    let told = b"damaged block 786432 sum 587b62ad428b4221 1330a17f9fbb1d44\n";
    check(&rt, &read, 5, told, 2);
    Ok(())
}

#[test]
fn a_read_that_fails_is_not_tried_again(rt: HostRuntime) -> Result<(), Fail> {
    let alloc = rt.alloc();
    let first = one_block(alloc)?;
    let opened = calls_of(alloc, &first, b"")?;
    let disk = failing(alloc, &first, opened as u64)?;
    let end = served(alloc, disk, b"get 61\nget 61\n")?;
    check(&rt, &end, 4, b"device\n", 0);
    check_same(&rt, &end.disk.calls(), &opened.saturating_add(1));
    Ok(())
}
