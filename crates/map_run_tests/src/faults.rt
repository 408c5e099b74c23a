//! Calls that fail, and what a crash leaves.
use crate::asserts::{check_that, check_that_at};
use crate::bodies::A_AND_AB;
use crate::runs::{Streams, built, built_by, check, disk_of, failing, served, served_by};
use std::test::Fail;
use test_kit::{Left, left_by};

const LINES: &[u8] = b"61 01\n6162 02\n";

// The calls of a build: sync, the gate read, the body written and synced, the gate written and synced.
#[test]
fn a_build_whose_device_fails_leaves_no_map_or_all_of_it(rt: HostRuntime) -> Result<(), Fail> {
    let alloc = rt.alloc();
    let empty = disk_of(alloc, b"")?;
    for call in 0..6 {
        let end = built(alloc, failing(alloc, empty.bytes(), call)?, LINES)?;
        check(&rt, &end, 4, b"device\n", call);
        for left in [Left::Whole, Left::Lost, Left::Sevens] {
            let disk = left_by(alloc, &end.disk, left)?;
            let next = served(alloc, disk, b"get 6162\ncount - ff\n")?;
            let all = next.status == 0 && next.said.as_slice() == b"val 02\ncount 2\n".as_slice();
            let none = next.status == 8 && next.said.as_slice() == b"not a map\n".as_slice();
            check_that_at(&rt, &call, all || none);
            check_that_at(&rt, &call, none || call >= 4);
        }
    }
    Ok(())
}

// What a crash leaves behind a build that ended well is the map.
#[test]
fn a_map_that_was_built_lasts(rt: HostRuntime) -> Result<(), Fail> {
    let alloc = rt.alloc();
    let end = built(alloc, disk_of(alloc, b"")?, LINES)?;
    for left in [Left::Whole, Left::Lost, Left::Sevens] {
        let disk = left_by(alloc, &end.disk, left)?;
        check_that(&rt, disk.bytes() == A_AND_AB.as_slice());
    }
    Ok(())
}

#[test]
fn a_map_whose_device_fails_is_not_served(rt: HostRuntime) -> Result<(), Fail> {
    let alloc = rt.alloc();
    for call in 0..4 {
        let end = served(alloc, failing(alloc, &A_AND_AB, call)?, b"get 61\n")?;
        check(&rt, &end, 4, b"device\n", call);
    }
    Ok(())
}

// Seven bytes are taken and said at a time, and the take or the say of a number fails.
fn failing_streams<'a>(takes: &'a [u64], says: &'a [u64]) -> Streams<'a> {
    Streams {
        takes,
        says,
        pace: 7,
    }
}

// The lines are taken by two calls, and a third finds their end.
#[test]
fn each_take_fails(rt: HostRuntime) -> Result<(), Fail> {
    let alloc = rt.alloc();
    for call in 0..3 {
        let takes = [call];
        let streams = failing_streams(&takes, &[]);
        let end = built_by(alloc, disk_of(alloc, b"")?, LINES, streams)?;
        check(&rt, &end, 3, b"", call);
        check_that_at(&rt, &call, end.disk.bytes().is_empty());
    }
    Ok(())
}

#[test]
fn each_take_of_a_serve_fails(rt: HostRuntime) -> Result<(), Fail> {
    let alloc = rt.alloc();
    let rows: [&[u8]; 3] = [b"", b"val 01\n", b"val 01\nnone\n"];
    for (call, said) in rows.iter().copied().enumerate() {
        let takes = [call as u64];
        let streams = failing_streams(&takes, &[]);
        let lines = b"get 61\nget 62\n";
        let end = served_by(alloc, disk_of(alloc, &A_AND_AB)?, lines, streams)?;
        check(&rt, &end, 3, said, call as u64);
    }
    Ok(())
}

// What was said whole, or a part of it.
#[test]
fn each_say_fails(rt: HostRuntime) -> Result<(), Fail> {
    let alloc = rt.alloc();
    let rows: [(&[u8], &[u8]); 2] = [(b"", b""), (b"built 2", b"at 6162")];
    for (call, (said, answered)) in rows.iter().copied().enumerate() {
        let says = [call as u64];
        let streams = failing_streams(&[], &says);
        let end = built_by(alloc, disk_of(alloc, b"")?, LINES, streams)?;
        check(&rt, &end, 6, said, call as u64);
        check_that_at(&rt, &call, end.disk.bytes() == A_AND_AB.as_slice());
        let asked = served_by(alloc, end.disk, b"seek 6161\n", streams)?;
        check(&rt, &asked, 6, answered, call as u64);
    }
    Ok(())
}

#[test]
fn a_refusal_that_cannot_be_said_is_6(rt: HostRuntime) -> Result<(), Fail> {
    let alloc = rt.alloc();
    let streams = failing_streams(&[], &[0]);
    let bad = built_by(alloc, disk_of(alloc, b"")?, b"61\n", streams)?;
    check(&rt, &bad, 6, b"", 0);
    check_that(&rt, bad.disk.bytes().is_empty());
    Ok(())
}
