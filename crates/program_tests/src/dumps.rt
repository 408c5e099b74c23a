//! The pairs of a store, said as the lines that put them.
use crate::asserts::{check_that, check_that_at};
use crate::runs::{base_disk, check, commanded, disk_of, failing, left_behind};
use disk_trait::Disk;
use std::test::Fail;
use test_runs::stopped;

// Lines over a new store of 512 pages, and what its pairs are then.
const ROWS: [(&[u8], &[u8]); 4] = [
    (b"", b""),
    (b"put 62 -\nput 61 62\nflush\n", b"put 61 62\nput 62 -\n"),
    (
        b"put 63 -\nput 61 62\nflush\ndel 61\nput 62 00ff\n",
        b"put 62 00ff\nput 63 -\n",
    ),
    (b"put 61 01\nflush\ndel 61\nflush\n", b""),
];

// Nothing changes, and over a new store what was said makes the same pairs.
#[test]
fn pairs_are_told(rt: HostRuntime) -> Result<(), Fail> {
    let alloc = rt.alloc();
    for (number, (lines, said)) in ROWS.iter().copied().enumerate() {
        let disk = left_behind(alloc, base_disk(alloc)?, lines)?;
        let end = commanded(alloc, "dump", disk_of(alloc, disk.bytes())?)?;
        check(&rt, &end, 0, said, number as u64);
        check_that_at(&rt, &number, end.disk.bytes() == disk.bytes());
        let copy = left_behind(alloc, base_disk(alloc)?, said)?;
        let again = commanded(alloc, "dump", copy)?;
        check(&rt, &again, 0, said, number as u64);
    }
    Ok(())
}

// A damaged block is said after the pairs before it, and no pair is said of a file that holds no store.
#[test]
fn a_dump_ends_at_damage(rt: HostRuntime) -> Result<(), Fail> {
    let alloc = rt.alloc();
    let mut disk = left_behind(alloc, base_disk(alloc)?, b"put 61 62\nflush\n")?;
    disk.write(786_440, &[7])?;
    let end = commanded(alloc, "dump", disk_of(alloc, disk.bytes())?)?;
    check_that(&rt, end.status == 5);
    check_that(&rt, end.said.starts_with(b"damaged block 786432 sum "));
    let none = commanded(alloc, "dump", disk_of(alloc, b"")?)?;
    check(&rt, &none, 8, b"not a store\n", 0);
    check_that(&rt, none.disk.bytes().is_empty());
    Ok(())
}

// Two tables of a pair each: the pair of the first is said, then what is wrong with the block of the second.
#[test]
fn pairs_before_a_fault_are_said(rt: HostRuntime) -> Result<(), Fail> {
    let alloc = rt.alloc();
    let lines = b"put 61 01\nflush\nput 62 02\nflush\n";
    let mut disk = left_behind(alloc, base_disk(alloc)?, lines)?;
    let mut cut = 0u64;
    for call in 0..60 {
        let end = commanded(alloc, "dump", failing(alloc, &disk, call)?)?;
        if end.status == 0 {
            break;
        }
        if end.said.starts_with(b"put 61 01\ndevice\n") {
            cut = cut.saturating_add(1);
        }
    }
    check_that(&rt, cut == 1);
    disk.write(798_728, &[7])?;
    let end = commanded(alloc, "dump", disk_of(alloc, disk.bytes())?)?;
    check_that(&rt, end.status == 5);
    check_that(
        &rt,
        end.said
            .starts_with(b"put 61 01\ndamaged block 798720 sum "),
    );
    Ok(())
}

// A read that fails is not tried again, and nothing is written.
#[test]
fn each_call_of_a_dump_failing_in_turn(rt: HostRuntime) -> Result<(), Fail> {
    let alloc = rt.alloc();
    let first = left_behind(alloc, base_disk(alloc)?, ROWS[1].0)?;
    for call in 0..60 {
        let end = commanded(alloc, "dump", failing(alloc, &first, call)?)?;
        check_that_at(&rt, &call, end.disk.bytes() == first.bytes());
        if end.status == 0 {
            check(&rt, &end, 0, ROWS[1].1, call);
            check_that(&rt, call > 5);
            return Ok(());
        }
        check(&rt, &end, 4, b"device\n", call);
    }
    check_that_at(&rt, &"a call failed each time", false);
    Ok(())
}

#[test]
fn each_say_of_a_dump_failing_in_turn(rt: HostRuntime) -> Result<(), Fail> {
    let alloc = rt.alloc();
    let first = left_behind(alloc, base_disk(alloc)?, ROWS[1].0)?;
    for say in 0..ROWS[1].1.len() {
        let end = stopped(alloc, "dump", &first, &[], &[say as u64])?;
        check(&rt, &end, 6, &ROWS[1].1[..say], say as u64);
    }
    Ok(())
}
