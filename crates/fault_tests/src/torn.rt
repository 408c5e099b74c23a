//! Writes that no sync followed, of which a crash leaves 07 in the place of each byte.
use crate::asserts::{check_same, check_that, check_that_at};
use crate::faults::{has_all, interrupted, is_told};
use crate::runs::{Ended, Succinct, base_disk};
use std::alloc::Global;
use std::test::Fail;
use test_runs::torn_disks;

// Whether what was said lasts on each of them.
fn outlasts(alloc: Global, end: &Ended) -> Result<bool, Fail> {
    for disk in torn_disks(alloc, &end.disk)? {
        if !has_all::<Succinct>(alloc, disk, &end.said)? {
            return Ok(false);
        }
    }
    Ok(true)
}

// So the pages of a table are torn after their last used bytes too.
#[test]
fn calls_fail_and_each_write_is_left_as_sevens(rt: HostRuntime) -> Result<(), Fail> {
    let alloc = rt.alloc();
    let first = base_disk(alloc)?;
    for call in 0..200 {
        let end = interrupted::<Succinct>(alloc, &first, call)?;
        check_that_at(&rt, &call, outlasts(alloc, &end)?);
        if end.status == 0 {
            check_same(&rt, &end.disk.starved(), &0);
            check_that(&rt, call > 40);
            return Ok(());
        }
        check_that_at(&rt, &call, is_told(&end));
    }
    check_that_at(&rt, &"it goes on", false);
    Ok(())
}
