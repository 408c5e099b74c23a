//! Writes that no sync followed, of which a crash leaves 07 in the place of each byte.
use crate::runs::lost;
use disk_mem::{Choice, MemDisk};
use std::alloc::{AllocError, Global};
use std::test::Fail;
use test_kit::boxed;

// How many bytes the script's writes have: a gate; the record of a delete and that of a put, each with the gate after it; a body of
// the manifest with no table, one and two; the blocks, the index or the filter of a table.
const LENGTHS: [usize; 7] = [1, 9, 10, 72, 136, 200, 4_096];

// What is left of a write: all of it, nothing, or so many bytes 07, which must be as many as it has.
#[derive(Clone, Copy)]
enum Left {
    Whole,
    Lost,
    Sevens(usize),
}

fn choice_of(alloc: Global, left: Left) -> Result<Choice, AllocError> {
    match left {
        Left::Whole => Ok(Choice::Whole),
        Left::Lost => Ok(Choice::Lost),
        Left::Sevens(length) => Ok(Choice::Bytes(vec![in alloc; 7; length]?)),
    }
}

// The disk that a crash leaves, by what is left of the three writes at most that wait for a sync.
fn crashed(alloc: Global, disk: &MemDisk, left: [Left; 3]) -> Result<Box<MemDisk>, AllocError> {
    let [first, second, third] = left;
    let choices = [
        choice_of(alloc, first)?,
        choice_of(alloc, second)?,
        choice_of(alloc, third)?,
    ];
    boxed(alloc, disk.crash(&choices)?)
}

// What is left where the write of this number is so, and the others are lost.
fn alone(number: usize, left: Left) -> [Left; 3] {
    let mut all = [Left::Lost; 3];
    all[number.min(2)] = left;
    all
}

// All 07 of the write of this number, where one waits: a choice of another length than the write's loses it. Of the later two,
// which a table alone has, each changes a byte.
fn sevens(alloc: Global, disk: &MemDisk, number: usize) -> Result<Left, Fail> {
    let lost = lost(alloc, disk)?;
    let whole = crashed(alloc, disk, alone(number, Left::Whole))?;
    let changes = whole.bytes() != lost.bytes();
    if number > 0 && !changes {
        return Ok(Left::Lost);
    }
    for length in LENGTHS {
        let torn = crashed(alloc, disk, alone(number, Left::Sevens(length)))?;
        if torn.bytes() != lost.bytes() {
            return Ok(Left::Sevens(length));
        }
    }
    if changes {
        return Err(Fail::from("a write of another length"));
    }
    Ok(Left::Lost)
}

/// The disks that a crash leaves where each write that waits for a sync is 07: all of them, and each with the others lost and
/// whole. Where none waits, it is the disk as it is.
pub fn torn_disks(alloc: Global, disk: &MemDisk) -> Result<Vec<Box<MemDisk>>, Fail> {
    let first = sevens(alloc, disk, 0)?;
    let second = sevens(alloc, disk, 1)?;
    let third = sevens(alloc, disk, 2)?;
    let rows = [
        [first, second, third],
        [first, Left::Lost, Left::Lost],
        [Left::Lost, second, Left::Lost],
        [Left::Lost, Left::Lost, third],
        [first, Left::Whole, Left::Whole],
        [Left::Whole, second, Left::Whole],
        [Left::Whole, Left::Whole, third],
    ];
    let count = if matches!(second, Left::Lost) { 1 } else { 7 };
    let mut disks = Vec::new(alloc);
    for left in rows.into_iter().take(count) {
        disks.push(crashed(alloc, disk, left)?)?;
    }
    Ok(disks)
}
