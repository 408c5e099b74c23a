//! A store that the program of the stage before left: its table has blocks of format 1, and its log has records.
use crate::asserts::check_that;
use crate::runs::{Ended, check, disk_of, served};
use disk_mem::MemDisk;
use std::alloc::{AllocError, Global};
use std::test::Fail;
use test_runs::stands;

// The bytes that are not 0 of a device of 512 pages, its slots and the values of 616131 apart, with four hash bits, three real bits
// and the ratio 16: behind puts of 616131 and of 616231 and a flush, and then a put of 616331 and a del of 616231. They are spelled
// by a program of some lines apart from this one.
const PARTS: [(usize, &[u8]); 8] = [
    (262_144, b"\x01\x01\x03\x00\xe6\x0f\x00\x00aa1"),
    (266_225, b"\x01\x01\x03\x00\x01\x00\x00\x00ab1\x02"),
    (
        524_288,
        b"\x01\x01\x03\x00\x01\x00\x00\x00ac1\x03\x01\x02\x03\x00\x00\x00\x00\x00ab1",
    ),
    (
        786_432,
        b"\xf8\x0f\x00\x00\x01\x00\x00\x00\x01\x03\x00\xe6\x0f\x00\x00aa1",
    ),
    (
        790_528,
        b"\x13\x00\x00\x00\x01\x00\x00\x00\x01\x03\x00\x01\x00\x00\x00ab1\x02",
    ),
    (
        794_624,
        b"SRFI\x02\x00\x00\x00\x03\x00aa1\x01\x00\x00\x00\x0f\xbe\x0a\xf6\x8f\xc8\x93\x1b\x03\x00aa1\x01\x00\x00\x00<>9J\xdb\xe1\xb0\x18\x03\x00ab1",
    ),
    (798_720, b"SURF\x01\x04\x03\x00\x00\x00\x02\x00\x02"),
    (
        798_744,
        b"\x02\x00\x00\x00\x00\x00\x00\x00\x03\x00\x00\x00\x00\x00\x00\x00aab\x01\x03\x92\x08",
    ),
];

// Its slots in the first format of the manifest, and in the second.
const FORMAT_1: [(usize, &[u8]); 7] = [
    (
        0,
        b"\x01\x00\x00\x00\x00\x00\x00\x00SRFM\x01\x00\x00\x00\x01",
    ),
    (25, b"\x02\x00\x00\x04\x03\x10\x00@\x00\x00\x00@"),
    (72, b"^\x1c\xde\xe2\xdc\xb7\xedE"),
    (
        131_072,
        b"\x01\x00\x00\x00\x00\x00\x00\x00SRFM\x01\x00\x01\x00\x02",
    ),
    (131_097, b"\x02\x00\x00\x04\x03\x10\x00\x80\x00\x00\x00@"),
    (
        131_148,
        b"\xc0\x00\x00\x00\x02\x00\x00\x00\x01\x00\x00\x00\x01\x00\x00\x00\x02\x00\x00\x00/\x00\x00\x00\x00\x00\x00\x00/\x00\x00\
          \x00\x00\x00\x00\x00\xd3\xb9\x9bA\x8fNb\x8c\xb41;\xe6C\xc6\xe4\x1e",
    ),
    (131_208, b"\x22\x13\x99\xba\x88\x9c]\xe3"),
];

const FORMAT_2: [(usize, &[u8]); 6] = [
    (
        0,
        b"\x01\x00\x00\x00\x00\x00\x00\x00SRFM\x02\x00\x00\x00\x01",
    ),
    (25, b"\x02\x00\x00\x04\x03\x10\x00@\x00\x00\x00@"),
    (72, b"\x8dFB\xef\x05\xfd\x8dw"),
    (
        131_072,
        b"\x01\x00\x00\x00\x00\x00\x00\x00SRFM\x02\x00\x01\x00\x02",
    ),
    (131_097, b"\x02\x00\x00\x04\x03\x10\x00\x80\x00\x00\x00@"),
    (
        131_148,
        b"\xc0\x00\x00\x00\x02\x00\x00\x00\x01\x00\x00\x00\x01\x00\x00\x00\x02\x00\x00\x00/\x00\x00\x00\x00\x00\x00\x00/\x00\x00\
          \x00\x00\x00\x00\x00\xd3\xb9\x9bA\x8fNb\x8c\xb41;\xe6C\xc6\xe4\x1e\x04\x03\x10\x00\x00\x00\x00\x00\xa4\x1as\xd74\xeaS\
          \x82",
    ),
];

const BYTES: usize = 802_816;

// The bytes of the value of 616131, all 07, and where they are: in the log area that was in use before, and in the first block.
const VALUE_BYTES: usize = 4_070;

const VALUES: [usize; 2] = [262_155, 786_450];

fn write_parts(bytes: &mut [u8], parts: &[(usize, &[u8])]) {
    for (place, part) in parts.iter().copied() {
        for (byte, own) in bytes.iter_mut().skip(place).zip(part) {
            *byte = *own;
        }
    }
}

fn write_values(bytes: &mut [u8]) {
    for place in VALUES {
        for byte in bytes.iter_mut().skip(place).take(VALUE_BYTES) {
            *byte = 7;
        }
    }
}

// The device with these slots.
fn device(alloc: Global, slots: &[(usize, &[u8])]) -> Result<Box<MemDisk>, Fail> {
    let mut bytes = vec![in alloc; 0; BYTES]?;
    write_parts(&mut bytes, &PARTS);
    write_parts(&mut bytes, slots);
    write_values(&mut bytes);
    Ok(disk_of(alloc, &bytes)?)
}

const GETS: &[u8] = b"get 616131\nget 616231\nget 616331\ncount 61 62\n";

// Appends the replies to the gets: the value of the table, none where the log deletes, and the value of the log.
fn push_replies(said: &mut Vec<u8>) -> Result<(), AllocError> {
    said.extend_from_slice(b"val ")?;
    for _ in 0..VALUE_BYTES {
        said.extend_from_slice(b"07")?;
    }
    said.extend_from_slice(b"\nnone\nval 03\ncount 2\n")
}

// The gets, and once more behind a compaction.
fn compacted(alloc: Global, disk: Box<MemDisk>) -> Result<(Ended, Vec<u8>), Fail> {
    let mut lines = Vec::from_slice(alloc, GETS)?;
    lines.extend_from_slice(b"compact\n")?;
    lines.extend_from_slice(GETS)?;
    let mut said = Vec::new(alloc);
    push_replies(&mut said)?;
    said.extend_from_slice(b"ok\n")?;
    push_replies(&mut said)?;
    Ok((served(alloc, disk, &lines)?, said))
}

// The blocks of the table that the compaction makes, each in a page of its own behind the pages in use: of 616131, and of 616331.
const NEW_BLOCKS: [(usize, &[u8]); 2] = [
    (
        802_816,
        b"\xfc\x0f\x00\x00\x01\x02\x00\x00\x0a\x00\x01\x00\x00\x03\x00\xe6\x0f\x00\x00aa1\x07",
    ),
    (
        806_912,
        b"\x17\x00\x00\x00\x01\x02\x00\x00\x0a\x00\x01\x00\x00\x03\x00\x01\x00\x00\x00ac1\x03\x00",
    ),
];

// Old blocks are read and the log is replayed; a compaction writes the pairs anew, in blocks of format 2, and the next run finds them.
#[test]
fn a_store_of_old_blocks_is_served_and_compacted(rt: HostRuntime) -> Result<(), Fail> {
    let alloc = rt.alloc();
    let formats: [&[(usize, &[u8])]; 2] = [&FORMAT_1, &FORMAT_2];
    for slots in formats {
        let (end, said) = compacted(alloc, device(alloc, slots)?)?;
        check(&rt, &end, 0, &said, 0);
        for (place, block) in NEW_BLOCKS {
            check_that(&rt, stands(&end.disk, place, block));
        }
        let again = served(alloc, end.disk, GETS)?;
        let mut found = Vec::new(alloc);
        push_replies(&mut found)?;
        check(&rt, &again, 0, &found, 1);
    }
    Ok(())
}
