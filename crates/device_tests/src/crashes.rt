//! Tests of a disk in memory: its calls, their failing, its crashes.
use disk_mem::{Choice, MemDisk};
use disk_trait::{Disk, DiskFault};
use std::alloc::{AllocError, Global};
use std::test::Fail;

// A disk of six zeros with two writes that overlap, no sync behind them.
fn overlapping(alloc: Global) -> Result<MemDisk, AllocError> {
    let mut disk = MemDisk::new(alloc, &[0; 6])?;
    let _done = write_both(&mut disk);
    Ok(disk)
}

fn write_both(disk: &mut MemDisk) -> Result<(), DiskFault> {
    disk.write(0, &[1, 2, 3, 4])?;
    disk.write(2, &[5, 6, 7, 8])
}

fn leaves(disk: &MemDisk, choice: &[Choice], bytes: &[u8]) -> Result<bool, AllocError> {
    Ok(disk.crash(choice)?.bytes() == bytes)
}

fn torn(alloc: Global, bytes: &[u8]) -> Result<Choice, AllocError> {
    Ok(Choice::Bytes(Vec::from_slice(alloc, bytes)?))
}

#[test]
fn each_choice_on_two_overlapping_writes(rt: HostRuntime) -> Result<(), Fail> {
    let alloc = rt.alloc();
    let disk = overlapping(alloc)?;
    assert!(rt; leaves(&disk, &[], &[0, 0, 0, 0, 0, 0])?);
    assert!(rt; leaves(&disk, &[Choice::Whole], &[1, 2, 3, 4, 0, 0])?);
    assert!(rt; leaves(&disk, &[Choice::Lost, Choice::Whole], &[0, 0, 5, 6, 7, 8])?);
    assert!(rt;
        leaves(
            &disk,
            &[Choice::Whole, torn(alloc, &[9, 5, 3, 8])?],
            &[1, 2, 9, 5, 3, 8]
        )?
    );
    assert!(rt;
        leaves(
            &disk,
            &[torn(alloc, &[9])?, Choice::Whole],
            &[0, 0, 5, 6, 7, 8]
        )?
    );
    Ok(())
}

#[test]
fn a_write_that_failed_may_stand_until_a_sync(rt: HostRuntime) -> Result<(), Fail> {
    let alloc = rt.alloc();
    let mut disk = MemDisk::new(alloc, &[7, 7])?.with_faults(Vec::from_slice(alloc, &[0, 1])?);
    assert!(rt; disk.write(0, &[1]).is_err());
    assert!(rt; disk.sync().is_err());
    assert!(rt; leaves(&disk, &[Choice::Whole], &[1, 7])?);
    assert!(rt; disk.sync().is_ok());
    assert!(rt; leaves(&disk, &[Choice::Whole], &[7, 7])?);
    Ok(())
}

#[test]
fn a_read_past_the_end_is_zeros(rt: HostRuntime) -> Result<(), Fail> {
    let mut disk = MemDisk::new(rt.alloc(), &[7, 8, 9])?;
    let mut bytes = [1; 4];
    assert!(rt; disk.read(1, &mut bytes).is_ok());
    assert_eq!(rt; bytes, [8, 9, 0, 0]);
    assert!(rt; disk.read(281474976710652, &mut bytes).is_ok());
    assert_eq!(rt; bytes, [0, 0, 0, 0]);
    assert_eq!(rt; disk.reads(), 2);
    Ok(())
}

// The first write has no number, so number 0 is the next one's.
#[test]
fn a_write_near_the_last_place_finds_no_memory(rt: HostRuntime) -> Result<(), Fail> {
    let alloc = rt.alloc();
    let mut disk = MemDisk::new(alloc, &[7])?.with_faults(Vec::from_slice(alloc, &[0])?);
    disk.reserve(4, 64)?;
    assert!(rt; disk.write(281474976710655, &[1]).is_err());
    assert_eq!(rt; disk.starved(), 1);
    assert!(rt; disk.write(0, &[1]).is_err());
    assert_eq!(rt; disk.starved(), 1);
    assert_eq!(rt; disk.bytes(), [7].as_slice());
    Ok(())
}

// It passes whichever allocation is made to fail.
#[test]
fn a_call_without_memory_does_nothing(rt: HostRuntime) {
    let Ok(mut disk) = MemDisk::new(rt.alloc(), &[7]) else {
        return;
    };
    for place in 0..9u8 {
        let starved = disk.starved();
        let size = disk.bytes().len();
        let written = disk.write(u64::from(place), &[3, 4]).is_ok();
        assert_eq!(rt; written, disk.starved() == starved);
        assert!(rt; written || disk.bytes().len() == size);
    }
}
