//! What lasts at each moment of a run, and takes that a run does not make.
use crate::asserts::{check_same, check_same_at, check_that_at};
use crate::runs::{Ended, base_disk, boxed, check, failing, lost, paced, served, written};
use disk_mem::{Choice, MemDisk};
use std::alloc::{AllocError, Global};
use std::test::Fail;

const LINES: &[u8] = b"put 61 62\nput 62 63\ndel 61\nquit\n";

const FOUND: &[u8] = b"val 62\n";

const NONE: &[u8] = b"none\n";

// Whether a get of 61 may be answered so where so many bytes of replies were said: the put's `ok` has three bytes, and the
// delete's begins behind six.
fn may_be_found(said: usize, found: &[u8]) -> bool {
    match said {
        0 | 6 => found == FOUND || found == NONE,
        1..=5 => found == FOUND,
        _ => found == NONE,
    }
}

// The disk that a crash leaves where the one write behind the last sync is this long and all its bytes are 07. A write of
// another length is lost.
fn sevens(alloc: Global, disk: &MemDisk, length: usize) -> Result<Box<MemDisk>, AllocError> {
    let bytes = vec![in alloc; 7; length]?;
    boxed(alloc, disk.crash(&[Choice::Bytes(bytes)])?)
}

// What a crash leaves, by a number: the gate of a record is a byte, the body of the put has ten with the gate behind it, and
// that of the delete nine.
fn left(alloc: Global, disk: &MemDisk, choice: u8) -> Result<Box<MemDisk>, AllocError> {
    match choice {
        0 => written(alloc, disk),
        1 => lost(alloc, disk),
        2 => sevens(alloc, disk, 1),
        3 => sevens(alloc, disk, 9),
        _ => sevens(alloc, disk, 10),
    }
}

// Whether what was said lasts, whatever a crash leaves of a run that was stopped.
fn lasts(alloc: Global, end: &Ended) -> Result<bool, Fail> {
    let said = end.said.as_slice();
    let replies = said.strip_suffix(b"device\n").unwrap_or(said).len();
    for choice in 0..5 {
        let disk = left(alloc, &end.disk, choice)?;
        let again = served(alloc, disk, b"get 61\n")?;
        if !may_be_found(replies, again.said.as_slice()) {
            return Ok(false);
        }
    }
    Ok(true)
}

// Stopped at each byte that is said.
#[test]
fn what_is_said_lasts_from_its_first_byte(rt: HostRuntime) -> Result<(), Fail> {
    let alloc = rt.alloc();
    let first = base_disk(alloc)?;
    for say in 0..13 {
        let end = paced(alloc, &first, LINES, &[], &[say], 1)?;
        check_same_at(&rt, &say, &end.status, &6);
        check_same(&rt, &(end.said.len() as u64), &say);
        check_that_at(&rt, &say, lasts(alloc, &end)?);
    }
    Ok(())
}

// Stopped at each call of the disk: behind an opening's six reads and its sync the three changes make four calls each.
#[test]
fn what_is_said_outlasts_each_call(rt: HostRuntime) -> Result<(), Fail> {
    let alloc = rt.alloc();
    let first = base_disk(alloc)?;
    for call in 0..100 {
        let end = served(alloc, failing(alloc, &first, call)?, LINES)?;
        if end.status == 0 {
            check_that_at(&rt, &call, call > 12);
            return Ok(());
        }
        check_that_at(&rt, &call, lasts(alloc, &end)?);
    }
    check_that_at(&rt, &"it goes on", false);
    Ok(())
}

#[test]
fn nothing_is_taken_behind_bye_or_the_end(rt: HostRuntime) -> Result<(), Fail> {
    let alloc = rt.alloc();
    let first = base_disk(alloc)?;
    let left = paced(alloc, &first, b"quit\nget 61\n", &[5], &[], 1)?;
    check(&rt, &left, 0, b"bye\n", 0);
    let ended = paced(alloc, &first, b"get 61", &[2], &[], 6)?;
    check(&rt, &ended, 0, b"none\n", 1);
    Ok(())
}
