//! A device of the manifest's first format, as the earlier program left it.
use crate::asserts::{check_same_at, check_that, check_that_at};
use crate::runs::{check, failing, lost, served, written};
use disk_mem::MemDisk;
use std::alloc::Global;
use std::test::Fail;
use test_runs::{format_1, stands, torn_disks};

// Of the old table's filter four hash bits and three real bits are asked: with none it would admit 616139. The next version is in
// slot A, and each of its two rows has these bits.
#[test]
fn a_device_of_format_1_is_served(rt: HostRuntime) -> Result<(), Fail> {
    let alloc = rt.alloc();
    let first = format_1(alloc)?;
    let lines = b"get 616131\nget 616231\nexplain 616139\n";
    let read = served(alloc, first, lines)?;
    let told = b"val 01\nval 02\ntables 1 admitted 0 blocks 0\n";
    check(&rt, &read, 0, told, 0);
    let written = served(alloc, read.disk, b"put 62 01\nflush\nexplain 616139\n")?;
    let told = b"ok\nok\ntables 2 admitted 0 blocks 0\n";
    check(&rt, &written, 0, told, 1);
    check_that(&rt, stands(&written.disk, 8, b"SRFM\x02\x00\x02\x00\x03"));
    for row in [72, 136] {
        check_that(
            &rt,
            stands(&written.disk, row + 56, b"\x04\x03\x10\x00\x00\x00\x00\x00"),
        );
    }
    check_that(
        &rt,
        stands(&written.disk, 200, b"\x42\x4b\xe8\xee\x9a\xcc\x9d\x61"),
    );
    check_that(
        &rt,
        stands(&written.disk, 131_080, b"SRFM\x01\x00\x01\x00\x02"),
    );
    Ok(())
}

// Whether the pairs are there, and the put's if it was answered, by the old version or the next one.
fn keeps(alloc: Global, disk: Box<MemDisk>, said: &[u8]) -> Result<bool, Fail> {
    let lines = b"get 616131\nget 616231\nexplain 616139\nget 62\n";
    let end = served(alloc, disk, lines)?;
    let versions: [&[u8]; 2] = [
        b"val 01\nval 02\ntables 1 admitted 0 blocks 0\n",
        b"val 01\nval 02\ntables 2 admitted 0 blocks 0\n",
    ];
    for version in versions {
        if let Some(found) = end.said.strip_prefix(version) {
            let is_put = found.starts_with(b"val 01\n");
            return Ok(is_put || found.starts_with(b"none\n") && !said.starts_with(b"ok\n"));
        }
    }
    Ok(false)
}

// Each call of that put and flush fails in turn, whatever a crash leaves of its writes.
#[test]
fn a_flush_over_format_1_is_stopped(rt: HostRuntime) -> Result<(), Fail> {
    let alloc = rt.alloc();
    let first = format_1(alloc)?;
    for call in 0..60 {
        let end = served(alloc, failing(alloc, &first, call)?, b"put 62 01\nflush\n")?;
        if end.status == 0 {
            check_that(&rt, call > 20);
            return Ok(());
        }
        check_same_at(&rt, &call, &end.status, &4);
        let whole = written(alloc, &end.disk)?;
        check_that_at(&rt, &call, keeps(alloc, whole, &end.said)?);
        let none = lost(alloc, &end.disk)?;
        check_that_at(&rt, &call, keeps(alloc, none, &end.said)?);
        for torn in torn_disks(alloc, &end.disk)? {
            check_that_at(&rt, &call, keeps(alloc, torn, &end.said)?);
        }
    }
    check_that_at(&rt, &"a call failed each time", false);
    Ok(())
}
