//! What is said of the tables of a store.
use crate::asserts::{check_that, check_that_at};
use crate::runs::{base_disk, check, commanded, disk_of, failing, left_behind, served};
use disk_trait::Disk;
use std::test::Fail;
use test_runs::stopped;

// Lines over a new store of 512 pages, and what its tables are then.
const ROWS: [(&[u8], &[u8]); 5] = [
    (b"", b"store 512 320 320 1 0 0 0 64\n"),
    (
        b"put 61 62\nflush\n",
        b"table 0 192 3 1 0 0 64 61 61\nstore 512 317 317 2 0 0 0 64\n",
    ),
    (
        b"put 63 -\nput 61 62\nflush\ndel 61\nput 62 00ff\n",
        b"table 0 192 3 2 0 0 64 61 63\nstore 512 317 317 2 20 0 0 64\n",
    ),
    (
        b"put 61 01\nflush\ndel 61\nflush\n",
        b"table 0 195 3 1 0 0 64 61 61\ntable 0 192 3 1 0 0 64 61 61\nstore 512 314 314 3 0 0 0 64\n",
    ),
    (
        b"put 61 01\nflush\nput 62 02\nflush\ncompact\n",
        b"table 6 198 3 2 0 0 64 61 62\nstore 512 317 311 4 0 0 0 64\n",
    ),
];

#[test]
fn tables_are_told(rt: HostRuntime) -> Result<(), Fail> {
    let alloc = rt.alloc();
    for (number, (lines, said)) in ROWS.iter().copied().enumerate() {
        let disk = left_behind(alloc, base_disk(alloc)?, lines)?;
        let end = commanded(alloc, "tables", disk_of(alloc, disk.bytes())?)?;
        check(&rt, &end, 0, said, number as u64);
        check_that_at(&rt, &number, end.disk.bytes() == disk.bytes());
    }
    Ok(())
}

// A table has the settings that its filter was built with, and the store those of new tables.
#[test]
fn each_table_has_its_own_settings(rt: HostRuntime) -> Result<(), Fail> {
    let alloc = rt.alloc();
    let first = served(alloc, base_disk(alloc)?, b"put 61 62\nflush\n")?;
    let set = commanded(alloc, "settings --variant hash", first.disk)?;
    let end = commanded(alloc, "tables", set.disk)?;
    let said = b"table 0 192 3 1 0 0 64 61 61\nstore 512 317 317 3 0 8 0 64\n";
    check(&rt, &end, 0, said, 0);
    Ok(())
}

// A long key is said whole, in more parts than one.
#[test]
fn a_long_key_is_told_whole(rt: HostRuntime) -> Result<(), Fail> {
    let alloc = rt.alloc();
    let line =
        b"put 0102030405060708090a0b0c0d0e0f101112131415161718191a1b1c1d1e1f20212223 -\nflush\n";
    let disk = left_behind(alloc, base_disk(alloc)?, line)?;
    let end = commanded(alloc, "tables", disk)?;
    let said =
        b"table 0 192 3 1 0 0 64 0102030405060708090a0b0c0d0e0f101112131415161718191a1b1c1d1e1f20212223 \
        0102030405060708090a0b0c0d0e0f101112131415161718191a1b1c1d1e1f20212223\nstore 512 317 317 2 0 0 0 64\n";
    check(&rt, &end, 0, said, 0);
    Ok(())
}

// Damage of the index ends it like an opening; that of a block is not met, since none is read.
#[test]
fn tables_read_no_block(rt: HostRuntime) -> Result<(), Fail> {
    let alloc = rt.alloc();
    let mut disk = left_behind(alloc, base_disk(alloc)?, b"put 61 62\nflush\n")?;
    disk.write(786_440, &[7])?;
    let end = commanded(alloc, "tables", disk_of(alloc, disk.bytes())?)?;
    check(&rt, &end, 0, ROWS[1].1, 0);
    disk.write(790_530, &[7])?;
    let damaged = commanded(alloc, "tables", disk_of(alloc, disk.bytes())?)?;
    let said = b"damaged index 790528 sum 719879d8b45a6d0d e35496cdc8f44dfc\n";
    check(&rt, &damaged, 5, said, 1);
    let none = commanded(alloc, "tables", disk_of(alloc, b"")?)?;
    check(&rt, &none, 8, b"not a store\n", 2);
    check_that(&rt, none.disk.bytes().is_empty());
    Ok(())
}

// A read that fails is not tried again, and nothing is written.
#[test]
fn each_call_of_tables_failing_in_turn(rt: HostRuntime) -> Result<(), Fail> {
    let alloc = rt.alloc();
    let first = left_behind(alloc, base_disk(alloc)?, ROWS[1].0)?;
    for call in 0..60 {
        let end = commanded(alloc, "tables", failing(alloc, &first, call)?)?;
        check_that_at(&rt, &call, end.disk.bytes() == first.bytes());
        if end.status == 0 {
            check(&rt, &end, 0, ROWS[1].1, call);
            check_that(&rt, call > 5);
            return Ok(());
        }
        check(&rt, &end, 4, b"device\n", call);
    }
    check_that_at(&rt, &"a call failed each time", false);
    Ok(())
}

#[test]
fn each_say_of_tables_failing_in_turn(rt: HostRuntime) -> Result<(), Fail> {
    let alloc = rt.alloc();
    let first = left_behind(alloc, base_disk(alloc)?, ROWS[1].0)?;
    for say in 0..ROWS[1].1.len() {
        let end = stopped(alloc, "tables", &first, &[], &[say as u64])?;
        check(&rt, &end, 6, &ROWS[1].1[..say], say as u64);
    }
    Ok(())
}
