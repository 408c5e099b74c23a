//! Devices that have no map, and maps that are damaged.
use crate::asserts::check_that_at;
use crate::bodies::{A_AND_AB, changed, cut};
use crate::runs::{check, disk_of, served};
use std::alloc::{AllocError, Global};
use std::test::Fail;

#[test]
fn what_is_no_map_is_not_served(rt: HostRuntime) -> Result<(), Fail> {
    let alloc = rt.alloc();
    let rows: [&[u8]; 5] = [
        b"",
        &[1; 40],
        b"\x01\x00\x00\x00\x00\x00\x00\x00SRFM",
        b"\x00\x00\x00\x00\x00\x00\x00\x00SURM",
        b"\x07SURM",
    ];
    for (number, bytes) in rows.iter().copied().enumerate() {
        let end = served(alloc, disk_of(alloc, bytes)?, b"get 61\n")?;
        check(&rt, &end, 8, b"not a map\n", number as u64);
    }
    Ok(())
}

// Bytes of the body that are changed, what is said at status 5, and how often the device is read: no more than 2^31 bytes are, and
// no more often than the bytes ask for. A device reads zeros behind its end, so rule 1 is met past 2^31 alone.
const ROWS: [(&[(usize, u8)], &[u8], usize); 15] = [
    (&[(4, 2)], b"damaged map 4 2\n", 4),
    (&[(5, 1)], b"damaged map 5 3\n", 4),
    (&[(12, 1)], b"damaged map 12 3\n", 4),
    (&[(8, 0)], b"damaged map 8 4\n", 4),
    (&[(67, 9)], b"damaged map 67 5\n", 4),
    (&[(8, 1)], b"damaged map 8 6\n", 4),
    (&[(69, 1)], b"damaged map 69 7\n", 4),
    (&[(77, 3)], b"damaged map 85 7\n", 4),
    (&[(93, 7)], b"damaged map 95 9\n", 4),
    (&[(102, 8)], b"damaged map 95 9\n", 4),
    (&[(21, 1)], b"damaged map 24 1\n", 2),
    (&[(23, 255)], b"damaged map 24 1\n", 2),
    (&[(89, 1)], b"damaged map 93 1\n", 3),
    (&[(92, 255)], b"damaged map 93 1\n", 3),
    (&[(8, 3)], b"damaged map 101 1\n", 3),
];

#[test]
fn the_first_rule_that_is_broken_is_said(rt: HostRuntime) -> Result<(), Fail> {
    let alloc = rt.alloc();
    for (number, (changes, said, reads)) in ROWS.iter().copied().enumerate() {
        let end = served(alloc, changed(alloc, changes)?, b"get 61\n")?;
        check(&rt, &end, 5, said, number as u64);
        check_that_at(&rt, &number, end.disk.calls() == reads);
    }
    Ok(())
}

// Files of so many bytes of the map, and what is said of them.
#[test]
fn a_file_that_was_cut_short_is_no_map(rt: HostRuntime) -> Result<(), Fail> {
    let alloc = rt.alloc();
    let rows: [(usize, u8, &[u8]); 4] = [
        (110, 5, b"damaged map 95 9\n"),
        (93, 5, b"damaged map 85 7\n"),
        (16, 5, b"damaged map 8 4\n"),
        (11, 8, b"not a map\n"),
    ];
    for (bytes, status, said) in rows {
        let end = served(alloc, cut(alloc, bytes)?, b"get 61\n")?;
        check(&rt, &end, status, said, bytes as u64);
    }
    Ok(())
}

// A line that begins and ends so, with so many bytes of a key or a bound between.
fn line_of(alloc: Global, first: &[u8], bytes: usize, last: &[u8]) -> Result<Vec<u8>, AllocError> {
    let mut line = Vec::from_slice(alloc, first)?;
    line.resize(first.len().saturating_add(bytes.saturating_mul(2)), b'6')?;
    line.extend_from_slice(last)?;
    Ok(line)
}

#[test]
fn keys_and_bounds_have_limits(rt: HostRuntime) -> Result<(), Fail> {
    let alloc = rt.alloc();
    let rows: [(&[u8], usize, &[u8], &[u8]); 7] = [
        (b"get ", 1_024, b"\n", b"none\n"),
        (b"get ", 1_025, b"\n", b"limit key 1025\n"),
        (b"seek ", 1_024, b"\n", b"none\n"),
        (b"seek ", 1_025, b"\n", b"limit key 1025\n"),
        (b"count - ", 1_025, b"\n", b"limit key 1025\n"),
        (b"range - ", 1_025, b" 9\n", b"limit key 1025\n"),
        (b"put ", 1_049_999, b"66\n", b"bad 1\n"),
    ];
    for (number, (first, bytes, last, said)) in rows.into_iter().enumerate() {
        let line = line_of(alloc, first, bytes, last)?;
        let end = served(alloc, disk_of(alloc, &A_AND_AB)?, &line)?;
        check(&rt, &end, 0, said, number as u64);
    }
    Ok(())
}

// Lines that ask a map for what it cannot do, and lines that are bad.
#[test]
fn other_lines_are_bad(rt: HostRuntime) -> Result<(), Fail> {
    let alloc = rt.alloc();
    let lines =
        b"put 61 01\ndel\nflush\n\nget\nget 6\nrange - ff 09\nquit now\nestimate - ff\nexplain 61\ncompact\nget 61\n";
    let said =
        b"bad 2\nbad 2\nbad 2\nbad 2\nbad 3\nbad 4\nbad 5\nbad 3\nbad 2\nbad 2\nbad 2\nval 01\n";
    let end = served(alloc, disk_of(alloc, &A_AND_AB)?, lines)?;
    check(&rt, &end, 0, said, 0);
    Ok(())
}
