//! Lines that are no map.
use crate::asserts::check_that_at;
use crate::runs::{built, check, disk_of};
use std::alloc::{AllocError, Global};
use std::test::Fail;

// Lines, and what is said of them at status 11.
const ROWS: [(&[u8], &[u8]); 17] = [
    (b"", b"no keys\n"),
    (b"61\n", b"bad line 1 code 3\n"),
    (b"61 01 02\n", b"bad line 1 code 3\n"),
    (b"61  01\n", b"bad line 1 code 3\n"),
    (b"\n", b"bad line 1 code 3\n"),
    (b" \n", b"bad line 1 code 4\n"),
    (b"6 01\n", b"bad line 1 code 4\n"),
    (b"61 0g\n", b"bad line 1 code 4\n"),
    (b"- 01\n", b"bad line 1 code 7\n"),
    (b"- 0\n", b"bad line 1 code 4\n"),
    (b"62 01\n61 01\n", b"bad line 2 code 6\n"),
    (b"61 01\n61 02\n", b"bad line 2 code 6\n"),
    (b"61 01\n61 02\n6\n", b"bad line 2 code 6\n"),
    (b"61 01\n62 02\n63\n", b"bad line 3 code 3\n"),
    (b"61 01\n62 02\n63", b"bad line 3 code 3\n"),
    (b"62 01\n61 1\n", b"bad line 2 code 4\n"),
    (b"61 01\n\n", b"bad line 2 code 3\n"),
];

#[test]
fn the_first_bad_line_is_named(rt: HostRuntime) -> Result<(), Fail> {
    let alloc = rt.alloc();
    for (number, (lines, said)) in ROWS.iter().copied().enumerate() {
        let end = built(alloc, disk_of(alloc, b"")?, lines)?;
        check(&rt, &end, 11, said, number as u64);
        check_that_at(&rt, &number, end.disk.bytes().is_empty());
    }
    Ok(())
}

// A key and a value of so many bytes, in a line.
fn long_line(alloc: Global, key: usize, value: usize) -> Result<Vec<u8>, AllocError> {
    let mut line = Vec::new(alloc);
    line.resize(key.saturating_mul(2), b'6')?;
    line.extend_from_slice(b" ")?;
    line.resize(line.len().saturating_add(value.saturating_mul(2)), b'0')?;
    line.extend_from_slice(b"\n")?;
    Ok(line)
}

#[test]
fn keys_and_values_have_limits(rt: HostRuntime) -> Result<(), Fail> {
    let alloc = rt.alloc();
    let rows: [(usize, usize, u8, &[u8]); 6] = [
        (1_024, 65_536, 0, b"built 1\n"),
        (1_025, 1, 11, b"bad line 1 code 7\n"),
        (1, 65_537, 11, b"bad line 1 code 8\n"),
        (1_025, 65_537, 11, b"bad line 1 code 7\n"),
        (524_999, 525_000, 11, b"bad line 1 code 7\n"),
        (525_000, 525_000, 11, b"bad line 1 code 1\n"),
    ];
    for (key, value, status, said) in rows {
        let line = long_line(alloc, key, value)?;
        let end = built(alloc, disk_of(alloc, b"")?, &line)?;
        check(&rt, &end, status, said, key as u64);
    }
    Ok(())
}

// The longest line that is read, and one of a byte more.
#[test]
fn lines_have_a_limit(rt: HostRuntime) -> Result<(), Fail> {
    let alloc = rt.alloc();
    let rows: [(usize, &[u8]); 2] = [
        (2_100_000, b"bad line 1 code 3\n"),
        (2_100_001, b"bad line 1 code 1\n"),
    ];
    for (bytes, said) in rows {
        let mut line = Vec::new(alloc);
        line.resize(bytes, b'6')?;
        line.extend_from_slice(b"\n")?;
        let end = built(alloc, disk_of(alloc, b"")?, &line)?;
        check(&rt, &end, 11, said, bytes as u64);
    }
    Ok(())
}
