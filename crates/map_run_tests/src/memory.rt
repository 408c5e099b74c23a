//! Allocations that are refused, one in each run of the test.
use crate::asserts::{check_that, check_that_at};
use crate::bodies::A_AND_AB;
use crate::runs::{Ended, built, disk_of, served};
use disk_mem::MemDisk;
use std::alloc::{AllocError, Global};
use std::test::Fail;
use test_kit::is_not_the_last;

// A disk with room for all calls of a run, so that none of them asks for memory of its own.
fn roomy(alloc: Global, bytes: &[u8]) -> Result<Box<MemDisk>, AllocError> {
    let mut disk = disk_of(alloc, bytes)?;
    disk.reserve(20, 1_000)?;
    Ok(disk)
}

// Whether a build wrote the map; or found no memory, says so, and wrote nothing; or could not say its last line.
fn is_built_by_rule(end: &Ended) -> bool {
    match end.status {
        0 => end.disk.bytes() == A_AND_AB.as_slice(),
        7 => end.said.as_slice() == b"memory\n".as_slice() && end.disk.bytes().is_empty(),
        status => status == 6,
    }
}

// Whether a seek was answered, or found no memory, before the first line or at it; or the answer could not be said.
fn is_served_by_rule(end: &Ended) -> bool {
    let memory = end.said.as_slice() == b"memory\n".as_slice();
    match end.status {
        0 => memory || end.said.as_slice() == b"at 61 01\n".as_slice(),
        7 => memory,
        status => status == 6,
    }
}

#[test]
fn each_allocation_of_both_programs_may_be_refused(rt: HostRuntime) -> Result<(), Fail> {
    let alloc = rt.alloc();
    let first = built(alloc, roomy(alloc, b"")?, b"61 01\n6162 02\n")?;
    check_that(&rt, first.disk.starved() == 0 && is_built_by_rule(&first));
    let next = served(alloc, roomy(alloc, &A_AND_AB)?, b"seek 61\n")?;
    check_that(&rt, next.disk.starved() == 0 && is_served_by_rule(&next));
    check_that_at(&rt, &"the last allocation", is_not_the_last(alloc));
    Ok(())
}
