//! Other settings for new tables, and more pages.
use crate::asserts::{check_same, check_same_at, check_that, check_that_at};
use crate::runs::{base_disk, check, commanded, disk_of, opened, served};
use disk_mem::MemDisk;
use disk_trait::Disk;
use std::alloc::Global;
use std::process::Abort;
use std::test::Fail;
use test_runs::{LAST_EPOCH_SUM, format_1, stands};

const USAGE: &[u8] =
    b"usage: surfstore PATH format|serve|load|settings|grow|check|fstbuild|fstserve\n";

/// Lines that make a table of two keys.
pub const TWO_PUTS: &[u8] = b"put 616131 01\nput 616231 02\nflush\n";

// Words, the status, and the line that is said, over an empty file and over a store of 512 pages.
const WORDS: [(&str, u8, &[u8], u8, &[u8]); 11] = [
    ("settings", 2, USAGE, 2, USAGE),
    ("grow", 2, USAGE, 2, USAGE),
    ("settings --variant base --pages 600", 2, USAGE, 2, USAGE),
    ("grow --pages 600 --variant base", 2, USAGE, 2, USAGE),
    ("grow --pages 18446744073709551616", 2, USAGE, 2, USAGE),
    (
        "settings --variant odd --hash-bits 99",
        8,
        b"bad settings variant\n",
        8,
        b"bad settings variant\n",
    ),
    (
        "settings --variant hash --hash-bits 33",
        8,
        b"bad settings hash-bits\n",
        8,
        b"bad settings hash-bits\n",
    ),
    (
        "settings --variant base --ratio 65536",
        8,
        b"bad settings ratio\n",
        8,
        b"bad settings ratio\n",
    ),
    (
        "settings --variant base --hash-bits 99",
        8,
        b"not a store\n",
        0,
        b"settings 0 0 64\n",
    ),
    (
        "settings --variant=mixed --hash-bits=32 --ratio=65535",
        8,
        b"not a store\n",
        0,
        b"settings 32 8 65535\n",
    ),
    (
        "grow --pages 1",
        8,
        b"not a store\n",
        8,
        b"bad settings pages\n",
    ),
];

// What is refused has written nothing; settings out of range are told before any call.
#[test]
fn words_of_new_numbers(rt: HostRuntime) -> Result<(), Fail> {
    let alloc = rt.alloc();
    let first = base_disk(alloc)?;
    for (number, (words, empty, line, status, said)) in WORDS.iter().copied().enumerate() {
        let none = commanded(alloc, words, disk_of(alloc, b"")?)?;
        check(&rt, &none, empty, line, number as u64);
        check_that_at(&rt, &words, none.disk.bytes().is_empty());
        let there = commanded(alloc, words, disk_of(alloc, first.bytes())?)?;
        check(&rt, &there, status, said, number as u64);
        check_same_at(
            &rt,
            &words,
            &(there.disk.bytes() == first.bytes()),
            &(status != 0),
        );
        let untried = status == 2
            || said.starts_with(b"bad settings") && words.starts_with("settings");
        check_same_at(&rt, &words, &(there.disk.calls() == 0), &untried);
    }
    Ok(())
}

// The next version is in slot A, with the new settings in its head and the old ones in its row; slot B stays. A table gets the
// new ones when it is made.
#[test]
fn new_tables_get_other_settings(rt: HostRuntime) -> Result<(), Fail> {
    let alloc = rt.alloc();
    let first = served(alloc, base_disk(alloc)?, TWO_PUTS)?;
    let set = commanded(alloc, "settings --variant hash", first.disk)?;
    check(&rt, &set, 0, b"settings 8 0 64\n", 0);
    check_that(&rt, stands(&set.disk, 0, b"\x01"));
    check_that(
        &rt,
        stands(
            &set.disk,
            8,
            b"SRFM\x02\x00\x01\x00\x03\x00\x00\x00\x00\x00\x00\x00\x00\x02\x00\x00\x08\x00@\x00\x80\x00\x00\x00@",
        ),
    );
    check_that(
        &rt,
        stands(
            &set.disk,
            128,
            b"\x00\x00@\x00\x00\x00\x00\x00\xfe\x6d\xf4\xf5\x8b\xbe\x86\xc3",
        ),
    );
    check_that(&rt, stands(&set.disk, 131_072, b"\x01"));
    check_that(
        &rt,
        stands(&set.disk, 131_088, b"\x02\x00\x00\x00\x00\x00\x00\x00"),
    );
    check_that(
        &rt,
        stands(&set.disk, 131_208, b"\x2f\x4d\x98\xab\x39\x17\xe3\xb5"),
    );
    let lines =
        b"explain 616139\nput 62 01\nflush\nexplain 6239\ncompact\nexplain 616139\nget 616131\nget 62\n";
    let after = served(alloc, set.disk, lines)?;
    let told =
        b"tables 1 admitted 1 blocks 1\nok\nok\ntables 2 admitted 0 blocks 0\nok\ntables 1 admitted 0 blocks 0\nval 01\nval 01\n";
    check(&rt, &after, 0, told, 1);
    Ok(())
}

// The row of the old table keeps the settings that its head gave it; the version before stays as it was.
#[test]
fn a_device_of_format_1_gets_other_settings(rt: HostRuntime) -> Result<(), Fail> {
    let alloc = rt.alloc();
    let first = format_1(alloc)?;
    let set = commanded(
        alloc,
        "settings --variant base",
        disk_of(alloc, first.bytes())?,
    )?;
    check(&rt, &set, 0, b"settings 0 0 64\n", 0);
    check_that(&rt, stands(&set.disk, 8, b"SRFM\x02\x00\x01\x00\x03"));
    check_that(
        &rt,
        stands(&set.disk, 28, b"\x00\x00@\x00\x80\x00\x00\x00@"),
    );
    check_that(
        &rt,
        stands(
            &set.disk,
            128,
            b"\x04\x03\x10\x00\x00\x00\x00\x00\x67\x54\x1f\x28\x88\xc3\xd1\x2c",
        ),
    );
    let slot = first.bytes().get(131_072..262_144).unwrap_or(b"");
    check_that(&rt, stands(&set.disk, 131_072, slot));
    let after = served(
        alloc,
        set.disk,
        b"explain 616139\nput 62 01\nflush\nexplain 616139\n",
    )?;
    let told = b"tables 1 admitted 0 blocks 0\nok\nok\ntables 2 admitted 0 blocks 0\n";
    check(&rt, &after, 0, told, 1);
    for (place, bytes) in [
        (131_200, b"\x00\x00@\x00\x00\x00\x00\x00"),
        (131_264, b"\x04\x03\x10\x00\x00\x00\x00\x00"),
        (131_272, b"\xe4\x69\xf2\xd1\x61\xb6\xd8\x5f"),
    ] {
        check_that(&rt, stands(&after.disk, place, bytes));
    }
    Ok(())
}

// Fills a store: six tables of 53 pages take 318 of 320, three records fill the log, and the next flush finds no room.
fn fill(alloc: Global, disk: &mut MemDisk) -> Result<(), Fail> {
    let mut store = opened(alloc, disk)?;
    let zeros = vec![in alloc; 0; 65_536]?;
    for key in 1..=21u8 {
        store.put(disk, &[key], &zeros)?;
    }
    Ok(())
}

// A put of a key with a value for which the log of a full store has no room.
fn large_put(alloc: Global) -> Result<Vec<u8>, Fail> {
    let mut line = Vec::from_slice(alloc, b"put 16 ")?;
    for _ in 0..65_536 {
        line.extend_from_slice(b"00")?;
    }
    line.push(b'\n')?;
    Ok(line)
}

// Words over the full store, each from the start: the status and the line. The last but one is 512 in its low 32 bits.
const PAGES: [(&str, u8, &[u8]); 5] = [
    ("grow --pages 512", 0, b"grown 512\n"),
    ("grow --pages 511", 8, b"bad settings pages\n"),
    ("grow --pages 16777217", 8, b"bad settings pages\n"),
    ("grow --pages 4294967808", 8, b"bad settings pages\n"),
    ("grow --pages 16777216", 0, b"grown 16777216\n"),
];

fn pages_are_in_range(rt: &impl Abort, alloc: Global, full: &MemDisk) -> Result<(), Fail> {
    for (number, (words, status, line)) in PAGES.iter().copied().enumerate() {
        let end = commanded(alloc, words, disk_of(alloc, full.bytes())?)?;
        check(rt, &end, status, line, number as u64);
        check_same_at(
            rt,
            &words,
            &(end.disk.bytes() == full.bytes()),
            &(status != 0),
        );
    }
    Ok(())
}

#[test]
fn a_full_store_grows(rt: HostRuntime) -> Result<(), Fail> {
    let alloc = rt.alloc();
    let mut disk = base_disk(alloc)?;
    fill(alloc, &mut disk)?;
    let line = large_put(alloc)?;
    let full = served(alloc, disk, &line)?;
    check(&rt, &full, 0, b"full need 53 gap 2\n", 0);
    pages_are_in_range(&rt, alloc, &full.disk)?;
    let length = full.disk.bytes().len();
    let grown = commanded(alloc, "grow --pages 600", full.disk)?;
    check(&rt, &grown, 0, b"grown 600\n", 1);
    check_same(&rt, &grown.disk.bytes().len(), &length);
    let fewer = commanded(alloc, "grow --pages 599", grown.disk)?;
    check(&rt, &fewer, 8, b"bad settings pages\n", 2);
    let put = served(alloc, fewer.disk, &line)?;
    check(&rt, &put, 0, b"ok\n", 3);
    Ok(())
}

/// A disk of a new store in its last epoch.
pub fn last_epoch(alloc: Global) -> Result<Box<MemDisk>, Fail> {
    let mut disk = base_disk(alloc)?;
    disk.write(16, &[0xff; 8])?;
    disk.write(72, &LAST_EPOCH_SUM)?;
    Ok(disk)
}

#[test]
fn the_last_epoch_takes_no_numbers(rt: HostRuntime) -> Result<(), Fail> {
    let alloc = rt.alloc();
    let disk = last_epoch(alloc)?;
    let rows: [(&str, u8, &[u8]); 5] = [
        ("settings --variant base", 10, b"limit epoch\n"),
        ("grow --pages 600", 10, b"limit epoch\n"),
        ("grow --pages 512", 10, b"limit epoch\n"),
        ("grow --pages 5", 8, b"bad settings pages\n"),
        (
            "settings --variant hash --hash-bits 33",
            8,
            b"bad settings hash-bits\n",
        ),
    ];
    for (number, (words, status, line)) in rows.iter().copied().enumerate() {
        let end = commanded(alloc, words, disk_of(alloc, disk.bytes())?)?;
        check(&rt, &end, status, line, number as u64);
        check_that_at(&rt, &words, end.disk.bytes() == disk.bytes());
    }
    Ok(())
}
