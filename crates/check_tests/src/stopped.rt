//! Reads that fail, each in turn.
use crate::asserts::{check_same, check_that};
use crate::checking::{Said, Seen, checked, unsummed};
use crate::damage::damage_each_part;
use crate::stores::{Succinct, THREE, TWO, made};
use byte_fields::Part;
use disk_mem::MemDisk;
use disk_trait::Disk;
use std::alloc::Global;
use std::test::Fail;
use store_check::{Check, CheckError, SummaryError};
use test_kit::{disk_of, failing, is_not_the_last};

// Whether a check of which the read of this number fails ends there with the beginning of these findings.
fn ends_there(alloc: Global, disk: &MemDisk, read: u64, whole: &Seen) -> Result<bool, Fail> {
    let mut failing = failing(alloc, disk.bytes(), read)?;
    let seen = checked::<Succinct>(alloc, &mut failing)?;
    Ok(
        matches!(seen.end, Some(CheckError::Device(_)))
            && whole.found.starts_with(&seen.found)
            && failing.reads().checked_sub(read) == Some(1),
    )
}

// Whether a summary of which the read of this number fails ends there.
fn is_unsummed(alloc: Global, check: &Check, disk: &MemDisk, read: u64) -> Result<bool, Fail> {
    let mut failing = failing(alloc, disk.bytes(), read)?;
    let end = unsummed(check, &mut failing);
    Ok(matches!(end, Some(SummaryError::Device(_))) && failing.reads().checked_sub(read) == Some(1))
}

#[test]
fn each_read_of_a_summary_fails_in_turn(rt: HostRuntime) -> Result<(), Fail> {
    let alloc = rt.alloc();
    let mut disk = made(alloc, &TWO)?;
    let check = Box::new(alloc, Check::start(alloc, &mut *disk)?)?;
    let before = disk.reads();
    check_that(&rt, unsummed(&check, &mut disk).is_none());
    let Some(reads) = disk.reads().checked_sub(before) else {
        return Err(Fail::from("no reads"));
    };
    for read in 0..reads {
        check_that(&rt, is_unsummed(alloc, &check, &disk, read)?);
    }
    Ok(())
}

// A device that changes its mind: the damage is met by the second reading alone.
#[test]
fn damage_after_a_check_is_met_by_the_summary(rt: HostRuntime) -> Result<(), Fail> {
    let alloc = rt.alloc();
    for (at, part) in [
        (12, Part::Manifest),
        (524_289, Part::Log),
        (786_440, Part::Block),
        (790_530, Part::Index),
        (794_627, Part::Filter),
    ] {
        let mut disk = made(alloc, &THREE)?;
        let check = Box::new(alloc, Check::start(alloc, &mut *disk)?)?;
        disk.write(at, &[7])?;
        let Some(SummaryError::Damaged(finding)) = unsummed(&check, &mut disk) else {
            return Err(Fail::from("no damage"));
        };
        check_same(&rt, &finding.part, &part);
    }
    Ok(())
}

// A check, once more where it found no memory: then nothing is wrong with what was found.
fn whole_again(alloc: Global, disk: &mut MemDisk, whole: &[Said]) -> Result<bool, Fail> {
    let first = checked::<Succinct>(alloc, disk)?;
    if first.end != Some(CheckError::Memory) {
        return Ok(first.end.is_none() && first.found.as_slice() == whole);
    }
    let again = checked::<Succinct>(alloc, disk)?;
    Ok(whole.starts_with(&first.found) && again.found.as_slice() == whole)
}

// `tools/refuse-allocations` plays it once for each allocation, with that one refused.
#[test]
fn each_allocation_of_a_check_may_be_refused(rt: HostRuntime) -> Result<(), Fail> {
    let alloc = rt.alloc();
    let mut disk = made(alloc, &[])?;
    check_that(&rt, whole_again(alloc, &mut disk, &[])?);
    check_that(&rt, is_not_the_last(alloc));
    Ok(())
}

#[test]
fn each_read_fails_in_turn(rt: HostRuntime) -> Result<(), Fail> {
    let alloc = rt.alloc();
    let mut changed = made(alloc, &THREE)?;
    damage_each_part(&mut changed)?;
    let mut disk = disk_of(alloc, changed.bytes())?;
    let whole = checked::<Succinct>(alloc, &mut disk)?;
    check_same(&rt, &whole.found.len(), &4);
    check_same(&rt, &whole.end, &None);
    for read in 0..disk.reads() {
        check_that(&rt, ends_there(alloc, &disk, read, &whole)?);
    }
    Ok(())
}
