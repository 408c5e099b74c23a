//! Calls that fail, and what the next run finds.
use crate::asserts::{check_same, check_same_at, check_that, check_that_at};
use crate::runs::{
    Ended, Succinct, base_disk, calls_of, check, commanded, disk_of, failing, left_behind, lost,
    opened, paced, served, served_by,
};
use disk_mem::MemDisk;
use disk_trait::Disk;
use filter_api::RangeFilter;
use plain_filter::PlainFilter;
use std::alloc::Global;
use std::test::Fail;
use store_core::StoreError;
use test_runs::{Left, left_by, push_large};

/// Lines that put, delete, flush and compact, of which each changes the disk but the last two.
pub const SCRIPT: &[u8] =
    b"put 61 62\nput 62 63\nflush\ndel 61\nflush\nput 63 64\ncompact\nget 62\nquit\n";

/// Gets of the keys that they put.
pub const GETS: &[u8] = b"get 61\nget 62\nget 63\n";

// What the gets are answered behind none to seven lines of the script, and behind all of it.
const BEHIND: [&[u8]; 9] = [
    b"none\nnone\nnone\n",
    b"val 62\nnone\nnone\n",
    b"val 62\nval 63\nnone\n",
    b"val 62\nval 63\nnone\n",
    b"none\nval 63\nnone\n",
    b"none\nval 63\nnone\n",
    b"none\nval 63\nval 64\n",
    b"none\nval 63\nval 64\n",
    b"none\nval 63\nval 64\n",
];

// How many lines were answered `ok`: no other reply of the script has a k.
fn oks(said: &[u8]) -> usize {
    said.iter().filter(|byte| **byte == b'k').count()
}

/// Whether the next run finds what the script's lines were answered, or one line more.
pub fn has_all<F: RangeFilter>(
    alloc: Global,
    disk: Box<MemDisk>,
    said: &[u8],
) -> Result<bool, Fail> {
    let again = served_by::<F>(alloc, disk, GETS)?;
    let found = again.said.as_slice();
    let done = oks(said).min(7);
    Ok(found == BEHIND[done] || found == BEHIND[done + 1])
}

// Whether all of it is there after a run, stopped as a crash leaves it.
fn outlasts<F: RangeFilter>(alloc: Global, end: &Ended, left: Left) -> Result<bool, Fail> {
    let disk = left_by(alloc, &end.disk, left)?;
    has_all::<F>(alloc, disk, end.said.as_slice())
}

/// A run of the script in which the call of this number fails. The disk has room for all calls, so none asks for memory.
pub fn interrupted<F: RangeFilter>(
    alloc: Global,
    first: &MemDisk,
    call: u64,
) -> Result<Ended, Fail> {
    let mut disk = failing(alloc, first, call)?;
    disk.reserve(400, 1 << 21)?;
    served_by::<F>(alloc, disk, SCRIPT)
}

/// Whether a failed call is told, and no call found no memory.
pub fn is_told(end: &Ended) -> bool {
    end.status == 4 && end.said.ends_with(b"device\n") && end.disk.starved() == 0
}

// Whether all of it is there after a run of the script with each call of the disk failing in turn.
fn each_call_fails_well<F: RangeFilter>(alloc: Global, left: Left) -> Result<bool, Fail> {
    let first = base_disk(alloc)?;
    for call in 0..200 {
        let end = interrupted::<F>(alloc, &first, call)?;
        if !outlasts::<F>(alloc, &end, left)? {
            return Ok(false);
        }
        if end.status == 0 {
            return Ok(end.disk.starved() == 0 && call > 40);
        }
        if !is_told(&end) {
            return Ok(false);
        }
    }
    Ok(false)
}

#[test]
fn calls_fail_and_their_writes_are_whole(rt: HostRuntime) -> Result<(), Fail> {
    check_that(
        &rt,
        each_call_fails_well::<Succinct>(rt.alloc(), Left::Whole)?,
    );
    Ok(())
}

#[test]
fn calls_fail_and_their_writes_are_lost(rt: HostRuntime) -> Result<(), Fail> {
    check_that(
        &rt,
        each_call_fails_well::<Succinct>(rt.alloc(), Left::Lost)?,
    );
    Ok(())
}

#[test]
fn calls_fail_and_their_writes_are_half(rt: HostRuntime) -> Result<(), Fail> {
    check_that(
        &rt,
        each_call_fails_well::<Succinct>(rt.alloc(), Left::Half)?,
    );
    Ok(())
}

#[test]
fn calls_fail_over_plain_filters(rt: HostRuntime) -> Result<(), Fail> {
    check_that(
        &rt,
        each_call_fails_well::<PlainFilter>(rt.alloc(), Left::Lost)?,
    );
    check_that(
        &rt,
        each_call_fails_well::<PlainFilter>(rt.alloc(), Left::Sevens)?,
    );
    Ok(())
}

// A flush is stopped behind its table's sync, and before the gate of the manifest's slot is open: the pairs are there, and an
// opening makes the five reads of one without a table.
#[test]
fn a_flush_that_is_stopped_leaves_no_table(rt: HostRuntime) -> Result<(), Fail> {
    let alloc = rt.alloc();
    let first = base_disk(alloc)?;
    for call in 18..23 {
        let disk = failing(alloc, &first, call)?;
        let end = served(alloc, disk, b"put 61 62\nput 62 63\nflush\n")?;
        check(&rt, &end, 4, b"ok\nok\ndevice\n", call);
        let lines = b"get 61\nget 62\nget 63\nexplain 61\n";
        let again = served(alloc, lost(alloc, &end.disk)?, lines)?;
        let found = b"val 62\nval 63\nnone\ntables 0 admitted 0 blocks 0\n";
        check(&rt, &again, 0, found, call);
        check_same_at(&rt, &call, &again.disk.reads(), &5);
    }
    Ok(())
}

// A disk of a store with a table of three blocks, of a pair each.
fn three_blocks(alloc: Global) -> Result<Box<MemDisk>, Fail> {
    let mut lines = Vec::new(alloc);
    push_large(&mut lines, b"61")?;
    push_large(&mut lines, b"62")?;
    push_large(&mut lines, b"63")?;
    lines.extend_from_slice(b"flush\n")?;
    left_behind(alloc, base_disk(alloc)?, &lines)
}

// How many pairs were found: no other reply has a t.
fn pairs(said: &[u8]) -> usize {
    said.iter().filter(|byte| **byte == b't').count()
}

#[test]
fn a_range_says_the_pairs_before_a_fault(rt: HostRuntime) -> Result<(), Fail> {
    let alloc = rt.alloc();
    let first = three_blocks(alloc)?;
    let calls = calls_of(alloc, &first, b"")?;
    for block in 0..3 {
        let disk = failing(alloc, &first, (calls as u64).saturating_add(block))?;
        let end = served(alloc, disk, b"range - - 3\nrange - 7a 3\nget 61\n")?;
        check_same_at(&rt, &block, &end.status, &4);
        check_that(&rt, end.said.ends_with(b"device\n"));
        check_same(&rt, &(pairs(end.said.as_slice()) as u64), &block);
    }
    Ok(())
}

#[test]
fn a_range_of_two_reads_two_blocks(rt: HostRuntime) -> Result<(), Fail> {
    let alloc = rt.alloc();
    let first = three_blocks(alloc)?;
    let calls = calls_of(alloc, &first, b"")?;
    let end = served(alloc, first, b"range 61 7a 2\n")?;
    check_that(&rt, end.said.ends_with(b"\nend 2\n"));
    check_same(&rt, &end.disk.calls(), &calls.saturating_add(2));
    Ok(())
}

// The second block is at byte 790,528: a byte of its value is changed.
#[test]
fn a_range_says_the_pairs_before_damage(rt: HostRuntime) -> Result<(), Fail> {
    let alloc = rt.alloc();
    let mut disk = three_blocks(alloc)?;
    disk.write(791_528, &[7])?;
    let end = served(alloc, disk, b"range - 7a 3\nget 61\n")?;
    check_same(&rt, &end.status, &5);
    check_same(&rt, &pairs(end.said.as_slice()), &1);
    let behind = end.said.get(6_007..).unwrap_or(b"");
    check_that(&rt, behind.starts_with(b"damaged block 790528 sum "));
    Ok(())
}

// A put's first sync fails: the store is stopped, and another put is not tried.
#[test]
fn a_put_behind_a_failed_sync_is_stopped(rt: HostRuntime) -> Result<(), Fail> {
    let alloc = rt.alloc();
    let first = base_disk(alloc)?;
    let mut disk = failing(alloc, &first, 7)?;
    let mut store = opened(alloc, &mut disk)?;
    check_that(
        &rt,
        matches!(
            store.put(&mut *disk, b"a", b"b"),
            Err(StoreError::Device(_))
        ),
    );
    check_that(
        &rt,
        store.put(&mut *disk, b"c", b"d") == Err(StoreError::Stopped),
    );
    check_same(&rt, &disk.calls(), &8);
    Ok(())
}

#[test]
fn each_say_of_a_byte_failing_in_turn(rt: HostRuntime) -> Result<(), Fail> {
    let alloc = rt.alloc();
    let first = base_disk(alloc)?;
    for say in 0..32 {
        let end = paced(alloc, &first, SCRIPT, &[], &[say], 1)?;
        check_same(&rt, &end.status, &6);
        check_same(&rt, &(end.said.len() as u64), &say);
        check_that_at(&rt, &say, outlasts::<Succinct>(alloc, &end, Left::Lost)?);
    }
    Ok(())
}

#[test]
fn each_say_of_a_reply_failing_in_turn(rt: HostRuntime) -> Result<(), Fail> {
    let alloc = rt.alloc();
    let first = base_disk(alloc)?;
    for say in 0..9 {
        let end = paced(alloc, &first, SCRIPT, &[], &[say], SCRIPT.len())?;
        check_same(&rt, &end.status, &6);
        let replies = end.said.iter().filter(|byte| **byte == b'\n').count();
        check_same(&rt, &(replies as u64), &say);
        check_that_at(&rt, &say, outlasts::<Succinct>(alloc, &end, Left::Lost)?);
    }
    Ok(())
}

#[test]
fn each_take_failing_in_turn(rt: HostRuntime) -> Result<(), Fail> {
    let alloc = rt.alloc();
    let first = base_disk(alloc)?;
    for take in 0..69 {
        let end = paced(alloc, &first, SCRIPT, &[take], &[], 1)?;
        check_same(&rt, &end.status, &3);
        check_that_at(&rt, &take, outlasts::<Succinct>(alloc, &end, Left::Lost)?);
    }
    let whole = paced(alloc, &first, SCRIPT, &[0], &[], SCRIPT.len())?;
    check(&rt, &whole, 3, b"", 0);
    Ok(())
}

// The second put, behind the first one's `ok`, makes calls 10 to 13: whatever a crash leaves of its writes, the first put lasts.
#[test]
fn a_put_outlasts_what_the_next_one_leaves(rt: HostRuntime) -> Result<(), Fail> {
    let alloc = rt.alloc();
    let first = base_disk(alloc)?;
    for call in 10..14 {
        let disk = failing(alloc, &first, call)?;
        let end = served(alloc, disk, b"put 61 62\nput 62 63\n")?;
        check(&rt, &end, 4, b"ok\ndevice\n", call);
        for left in [Left::Whole, Left::Lost, Left::Half, Left::Sevens] {
            let disk = left_by(alloc, &end.disk, left)?;
            let again = served(alloc, disk, b"get 61\n")?;
            check(&rt, &again, 0, b"val 62\n", call);
        }
    }
    Ok(())
}

#[test]
fn a_reply_that_cannot_be_said_ends_the_run(rt: HostRuntime) -> Result<(), Fail> {
    let alloc = rt.alloc();
    let first = base_disk(alloc)?;
    let end = paced(alloc, &first, SCRIPT, &[], &[0], SCRIPT.len())?;
    check(&rt, &end, 6, b"", 0);
    let again = served(alloc, end.disk, b"get 61\nget 62\n")?;
    check(&rt, &again, 0, b"val 62\nnone\n", 1);
    Ok(())
}

#[test]
fn a_format_that_fails_may_be_made_again(rt: HostRuntime) -> Result<(), Fail> {
    let alloc = rt.alloc();
    let empty = disk_of(alloc, b"")?;
    let words = "format --pages 512 --variant base";
    for call in 0..8 {
        let end = commanded(alloc, words, failing(alloc, &empty, call)?)?;
        check(&rt, &end, 4, b"device\n", call);
        let again = commanded(alloc, words, lost(alloc, &end.disk)?)?;
        check(&rt, &again, 0, b"formatted 512\n", call);
    }
    Ok(())
}
