//! Calls, says and takes that fail as a store gets other settings or more pages.
use crate::asserts::{check_same, check_that, check_that_at};
use crate::resets::{TWO_PUTS, last_epoch};
use crate::runs::{
    base_disk, calls_of, check, commanded, disk_of, failing, lost, served, stopped, written,
};
use disk_mem::MemDisk;
use std::alloc::Global;
use std::process::Abort;
use std::test::Fail;
use test_runs::torn_disks;

// New numbers: the words and their line; a growth that tells whether the store has the old pages or the new ones; and what the
// lines and it are answered by the old numbers, and by the new ones.
struct Change {
    words: &'static str,
    line: &'static [u8],
    growth: &'static str,
    old: Told,
    new: Told,
}

// What the lines and the growth are answered.
#[derive(Clone, Copy)]
struct Told {
    lines: &'static [u8],
    growth: &'static [u8],
}

const LINES: &[u8] = b"get 616131\nget 616231\nput 62 01\nflush\nexplain 6239\n";

// The filter of the table that they make has no hash bits, or eight.
const WITHOUT_BITS: &[u8] = b"val 01\nval 02\nok\nok\ntables 2 admitted 1 blocks 0\n";

const WITH_BITS: &[u8] = b"val 01\nval 02\nok\nok\ntables 2 admitted 0 blocks 0\n";

const SETTINGS: Change = Change {
    words: "settings --variant hash",
    line: b"settings 8 0 64\n",
    growth: "grow --pages 512",
    old: Told {
        lines: WITHOUT_BITS,
        growth: b"grown 512\n",
    },
    new: Told {
        lines: WITH_BITS,
        growth: b"grown 512\n",
    },
};

const GROWTH: Change = Change {
    words: "grow --pages 600",
    line: b"grown 600\n",
    growth: "grow --pages 599",
    old: Told {
        lines: WITHOUT_BITS,
        growth: b"grown 599\n",
    },
    new: Told {
        lines: WITHOUT_BITS,
        growth: b"bad settings pages\n",
    },
};

fn are_told(lines: &[u8], growth: &[u8], told: Told) -> bool {
    lines == told.lines && growth == told.growth
}

// Whether a store has the new numbers, or `None` where it has neither those nor the old ones.
fn has_new(alloc: Global, disk: Box<MemDisk>, change: &Change) -> Result<Option<bool>, Fail> {
    let lines = served(alloc, disk, LINES)?;
    let growth = commanded(alloc, change.growth, lines.disk)?;
    if are_told(&lines.said, &growth.said, change.old) {
        return Ok(Some(false));
    }
    let new = are_told(&lines.said, &growth.said, change.new);
    Ok(if new { Some(true) } else { None })
}

// Whether a store has the old numbers or the new ones, whatever a crash leaves of the writes that no sync followed.
fn has_either(alloc: Global, disk: &MemDisk, change: &Change) -> Result<bool, Fail> {
    for torn in torn_disks(alloc, disk)? {
        if has_new(alloc, torn, change)?.is_none() {
            return Ok(false);
        }
    }
    let whole = has_new(alloc, written(alloc, disk)?, change)?;
    let none = has_new(alloc, lost(alloc, disk)?, change)?;
    Ok(whole.is_some() && none.is_some())
}

// Until the store is opened nothing is written; then come three writes, each with a sync.
fn each_call_fails_well(rt: &impl Abort, alloc: Global, change: &Change) -> Result<(), Fail> {
    let first = served(alloc, base_disk(alloc)?, TWO_PUTS)?;
    let opened = calls_of(alloc, &first.disk, b"")? as u64;
    for call in 0..40 {
        let end = commanded(alloc, change.words, failing(alloc, &first.disk, call)?)?;
        if end.status == 0 {
            check(rt, &end, 0, change.line, call);
            check_that(
                rt,
                has_new(alloc, lost(alloc, &end.disk)?, change)? == Some(true),
            );
            check_same(rt, &call, &opened.saturating_add(6));
            return Ok(());
        }
        check(rt, &end, 4, b"device\n", call);
        if call < opened {
            check_that_at(rt, &call, end.disk.bytes() == first.disk.bytes());
        } else {
            check_that_at(rt, &call, has_either(alloc, &end.disk, change)?);
        }
    }
    check_that_at(rt, &"a call failed each time", false);
    Ok(())
}

#[test]
fn calls_fail_as_settings_are_set(rt: HostRuntime) -> Result<(), Fail> {
    each_call_fails_well(&rt, rt.alloc(), &SETTINGS)
}

#[test]
fn calls_fail_as_a_store_grows(rt: HostRuntime) -> Result<(), Fail> {
    each_call_fails_well(&rt, rt.alloc(), &GROWTH)
}

// Words, the status and the last line.
type Row = (&'static str, u8, &'static [u8]);

const OVER_NONE: [Row; 2] = [
    ("settings --variant hash", 8, b"not a store\n"),
    ("grow --pages 600", 8, b"not a store\n"),
];

const OVER_A_STORE: [Row; 4] = [
    ("settings --variant hash", 0, b"settings 8 0 64\n"),
    ("grow --pages 600", 0, b"grown 600\n"),
    ("grow --pages 511", 8, b"bad settings pages\n"),
    ("settings --variant odd", 8, b"bad settings variant\n"),
];

const OVER_THE_LAST_EPOCH: [Row; 2] = [
    ("settings --variant base", 10, b"limit epoch\n"),
    ("grow --pages 600", 10, b"limit epoch\n"),
];

// A line of which a byte cannot be said is status 6 behind the bytes before it, and the device is as where all of it is said.
fn each_say_fails_well(
    rt: &impl Abort,
    alloc: Global,
    disk: &MemDisk,
    row: Row,
) -> Result<(), Fail> {
    let (words, status, line) = row;
    let whole = commanded(alloc, words, disk_of(alloc, disk.bytes())?)?;
    check(rt, &whole, status, line, 0);
    for say in 0..line.len() {
        let end = stopped(alloc, words, disk, &[], &[say as u64])?;
        check(rt, &end, 6, &line[..say], say as u64);
        check_that_at(rt, &words, end.disk.bytes() == whole.disk.bytes());
    }
    let untaken = stopped(alloc, words, disk, &[0], &[])?;
    check(rt, &untaken, status, line, 0);
    Ok(())
}

// Nothing is taken, so a take that would fail changes nothing.
#[test]
fn says_and_takes_fail_as_numbers_are_set(rt: HostRuntime) -> Result<(), Fail> {
    let alloc = rt.alloc();
    let none = disk_of(alloc, b"")?;
    for row in OVER_NONE {
        each_say_fails_well(&rt, alloc, &none, row)?;
    }
    let store = base_disk(alloc)?;
    for row in OVER_A_STORE {
        each_say_fails_well(&rt, alloc, &store, row)?;
    }
    let last = last_epoch(alloc)?;
    for row in OVER_THE_LAST_EPOCH {
        each_say_fails_well(&rt, alloc, &last, row)?;
    }
    Ok(())
}
