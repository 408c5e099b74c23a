//! Maps that are built and then served.
use crate::asserts::check_that;
use crate::bodies::A_AND_AB;
use crate::runs::{Streams, built, built_by, check, disk_of, served};
use std::test::Fail;

// What is asked of the map of 61 01 and 6162 02, and what it says.
const ROWS: [(&[u8], &[u8]); 18] = [
    (b"get 6162\n", b"val 02\n"),
    (b"get 616263\n", b"none\n"),
    (b"get 6163\n", b"none\n"),
    (b"get -\n", b"limit key 0\n"),
    (b"count 6161 62\n", b"count 1\n"),
    (b"count 61 61\n", b"count 1\n"),
    (b"count 6162ff 62\n", b"count 0\n"),
    (b"count 62 61\n", b"count 0\n"),
    (b"seek 6161\n", b"at 6162 02\n"),
    (b"seek 6162ff\n", b"none\n"),
    (b"seek - 60\n", b"none\n"),
    (b"seek - 61\n", b"at 61 01\n"),
    (b"range - ff 9\n", b"at 61 01\nat 6162 02\nend 2\n"),
    (b"range - ff 1\n", b"at 61 01\nend 1\n"),
    (b"range - ff 0\n", b"end 0\n"),
    (b"range 62 61 9\n", b"end 0\n"),
    (b"put 6 6\nget 61", b"bad 2\nval 01\n"),
    (b"quit\nget 61\n", b"bye\n"),
];

#[test]
fn a_map_is_built_and_answers(rt: HostRuntime) -> Result<(), Fail> {
    let alloc = rt.alloc();
    let first = built(alloc, disk_of(alloc, b"")?, b"61 01\n6162 02\n")?;
    check(&rt, &first, 0, b"built 2\n", 0);
    check_that(&rt, first.disk.bytes() == A_AND_AB.as_slice());
    for (number, (lines, said)) in ROWS.iter().copied().enumerate() {
        let end = served(alloc, disk_of(alloc, &A_AND_AB)?, lines)?;
        check(&rt, &end, 0, said, number as u64);
        check_that(&rt, end.disk.bytes() == A_AND_AB.as_slice());
        check_that(&rt, end.disk.calls() == 4);
    }
    Ok(())
}

// All lines in one run, taken and said a byte at a time.
#[test]
fn pieces_share_lines(rt: HostRuntime) -> Result<(), Fail> {
    let alloc = rt.alloc();
    for pace in [1, 3, 7] {
        let streams = Streams {
            takes: &[],
            says: &[],
            pace,
        };
        let end = built_by(alloc, disk_of(alloc, b"")?, b"61 01\n6162 02", streams)?;
        check(&rt, &end, 0, b"built 2\n", pace as u64);
        check_that(&rt, end.disk.bytes() == A_AND_AB.as_slice());
    }
    Ok(())
}

#[test]
fn a_map_that_is_there_stays(rt: HostRuntime) -> Result<(), Fail> {
    let alloc = rt.alloc();
    let end = built(alloc, disk_of(alloc, &A_AND_AB)?, b"63 03\n")?;
    check(&rt, &end, 8, b"taken\n", 0);
    check_that(&rt, end.disk.bytes() == A_AND_AB.as_slice());
    Ok(())
}

// Where byte 0 is not 1 whatever stands there is written over.
#[test]
fn a_closed_gate_is_no_map(rt: HostRuntime) -> Result<(), Fail> {
    let alloc = rt.alloc();
    let end = built(alloc, disk_of(alloc, &[7; 300])?, b"61 01\n6162 02\n")?;
    check(&rt, &end, 0, b"built 2\n", 0);
    let asked = served(alloc, end.disk, b"range - ff 9\nget 7a\n")?;
    check(&rt, &asked, 0, b"at 61 01\nat 6162 02\nend 2\nnone\n", 0);
    Ok(())
}
