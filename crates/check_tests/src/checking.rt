//! All that a check says of a disk.
use crate::asserts::check_same;
use crate::stores::Succinct;
use byte_fields::Part;
use disk_mem::MemDisk;
use filter_api::RangeFilter;
use std::alloc::{AllocError, Global};
use std::process::Abort;
use std::test::Fail;
use store_check::{Check, CheckError, Summary, SummaryError, What};

/// A finding: in which part, at which byte, and what is wrong.
pub type Said = (Part, u64, What);

/// What a check found, and why it ended before all was looked at.
#[derive(Drop)]
pub struct Seen {
    pub found: Vec<Said>,
    pub end: Option<CheckError>,
}

// Asks for one finding more. Whether there was one.
fn ask<F: RangeFilter>(
    check: &mut Check,
    disk: &mut MemDisk,
    seen: &mut Seen,
) -> Result<bool, AllocError> {
    match check.next::<F, MemDisk>(disk) {
        Ok(Some(finding)) => {
            seen.found.push((finding.part, finding.at, finding.what))?;
            Ok(true)
        }
        Ok(None) => Ok(false),
        Err(why) => {
            seen.end = Some(why);
            Ok(false)
        }
    }
}

/// What a check of a disk finds, where it is under 16.
pub fn checked<F: RangeFilter>(alloc: Global, disk: &mut MemDisk) -> Result<Box<Seen>, Fail> {
    let found = Vec::new(alloc);
    let mut seen = Box::new(alloc, Seen { found, end: None })?;
    let mut check = match Check::start(alloc, disk) {
        Ok(check) => Box::new(alloc, check)?,
        Err(why) => {
            seen.end = Some(why);
            return Ok(seen);
        }
    };
    for _ in 0..16 {
        if !ask::<F>(&mut check, disk, &mut seen)? {
            return Ok(seen);
        }
    }
    Err(Fail::from("too many findings"))
}

/// What the store on a disk has, by a check of it.
pub fn summed(alloc: Global, disk: &mut MemDisk) -> Result<Summary, Fail> {
    let check = Box::new(alloc, Check::start(alloc, disk)?)?;
    Ok(check.summary::<Succinct, MemDisk>(disk)?)
}

/// Why there is no summary of a disk, where there is none.
pub fn unsummed(check: &Check, disk: &mut MemDisk) -> Option<SummaryError> {
    check.summary::<Succinct, MemDisk>(disk).err()
}

/// Checks that a check of a disk finds these, and no other.
pub fn check_finds(
    rt: &impl Abort,
    alloc: Global,
    disk: &mut MemDisk,
    said: &[Said],
) -> Result<(), Fail> {
    let seen = checked::<Succinct>(alloc, disk)?;
    check_same(rt, &seen.found.as_slice(), &said);
    check_same(rt, &seen.end, &None);
    Ok(())
}
