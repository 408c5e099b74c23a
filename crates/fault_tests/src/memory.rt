//! Runs of which one allocation may be refused, judged by the rule of the replies and not by a list.
//!
//! The gate plays them with all the memory that they ask for. `tools/refuse-allocations` plays them once for each allocation,
//! with that one refused. Where it is the test's own, the test ends with an error and no failed assertion.
use crate::asserts::{check_that, check_that_at};
use crate::faults::{GETS, SCRIPT};
use crate::runs::{Ended, commanded, disk_of, served, stopped};
use disk_mem::MemDisk;
use disk_trait::Disk;
use std::alloc::{AllocError, Global};
use std::test::Fail;
use test_kit::is_not_the_last;
use test_runs::stands;

const MEMORY: &[u8] = b"memory\n";

const NO_STORE: &[u8] = b"not a store\n";

const OKS: &[u8] = b"ok\nok\nok\nok\nok\nok\nok\nok\n";

// What the load's steps and the four tables come to on an ordered map of another program.
const LOADED: &[u8] = b"load steps 40 refused 0 live 42 sum 0db3ad17082d55bb\n";

const FOUR: &[u8] = b"val 01\nval 02\nval 03\nval 04\n";

// Which of 61, 62 and 63 are there.
#[derive(Clone, Copy)]
struct There {
    first: bool,
    second: bool,
    third: bool,
}

const NOTHING: There = There {
    first: false,
    second: false,
    third: false,
};

// What is there behind a line of the script that was done.
fn behind(there: There, line: usize) -> There {
    let mut there = there;
    match line {
        0 => there.first = true,
        1 => there.second = true,
        3 => there.first = false,
        5 => there.third = true,
        _ => {}
    }
    there
}

// What is there behind a line with this reply, if the line may have it: `memory` says that nothing changed.
fn behind_reply(there: There, line: usize, reply: &[u8]) -> Option<There> {
    let done: &[u8] = match line {
        7 if there.second => b"val 63\n",
        7 => b"none\n",
        8 => b"bye\n",
        _ => b"ok\n",
    };
    if reply == done {
        Some(behind(there, line))
    } else if reply == MEMORY && line < 8 {
        Some(there)
    } else {
        None
    }
}

// What is there behind these replies, and how many there are.
fn behind_replies(said: &[u8]) -> Option<(There, usize)> {
    let mut there = NOTHING;
    let mut lines = 0usize;
    for reply in said.split_inclusive(|byte| *byte == b'\n') {
        there = behind_reply(there, lines, reply)?;
        lines = lines.saturating_add(1);
    }
    Some((there, lines))
}

// Whether gets of the three keys are answered by what is there.
fn is_found(there: There, found: &[u8]) -> bool {
    let values: [&[u8]; 3] = [b"val 62\n", b"val 63\n", b"val 64\n"];
    let all = [there.first, there.second, there.third];
    let mut replies = found.split_inclusive(|byte| *byte == b'\n');
    for (value, is_there) in values.into_iter().zip(all) {
        let reply = if is_there { value } else { b"none\n" };
        if replies.next() != Some(reply) {
            return false;
        }
    }
    replies.next().is_none()
}

// Whether a run of the script ended so by the rule, where the next run finds this. With 7 nothing was taken; with 6 the output
// found no memory, and the line whose reply it is may be done.
fn is_by_rule(status: u8, said: &[u8], found: &[u8]) -> bool {
    if status == 7 {
        return said == MEMORY && is_found(NOTHING, found);
    }
    match behind_replies(said) {
        Some((there, lines)) if status == 0 => lines == 9 && is_found(there, found),
        Some((there, lines)) if status == 6 => {
            is_found(there, found) || is_found(behind(there, lines), found)
        }
        _ => false,
    }
}

// A disk with room for all calls of a run, so that none of them asks for memory of its own.
fn roomy(alloc: Global, bytes: &[u8]) -> Result<Box<MemDisk>, AllocError> {
    let mut disk = disk_of(alloc, bytes)?;
    disk.reserve(400, 1 << 21)?;
    Ok(disk)
}

// A run with these words over the bytes of a disk.
fn run_over(alloc: Global, words: &str, bytes: &[u8]) -> Result<Ended, Fail> {
    commanded(alloc, words, roomy(alloc, bytes)?)
}

// A run that answers these lines over the bytes of a disk.
fn serve_over(alloc: Global, bytes: &[u8], lines: &[u8]) -> Result<Ended, Fail> {
    served(alloc, roomy(alloc, bytes)?, lines)
}

// What gets of the three keys find. Where one of them found no memory, or all did, they are asked once more.
fn found(alloc: Global, bytes: &[u8]) -> Result<Ended, Fail> {
    let end = serve_over(alloc, bytes, GETS)?;
    if end.status == 0 && !end.said.contains(&b'y') {
        return Ok(end);
    }
    serve_over(alloc, end.disk.bytes(), GETS)
}

// Whether a format that found no memory says so and leaves no store.
fn leaves_no_store(alloc: Global, end: &Ended) -> Result<bool, Fail> {
    let again = run_over(alloc, "serve", end.disk.bytes())?;
    let told = end.status == 7 && end.said.as_slice() == MEMORY;
    Ok(told && again.said.as_slice() == NO_STORE)
}

// Whether the script's run and the next one are by the rule.
fn is_played_by_rule(alloc: Global, first: &Ended) -> Result<bool, Fail> {
    let end = serve_over(alloc, first.disk.bytes(), SCRIPT)?;
    let again = found(alloc, end.disk.bytes())?;
    let kept = end.disk.starved() == 0;
    Ok(kept && is_by_rule(end.status, &end.said, &again.said))
}

#[test]
fn each_allocation_may_be_refused(rt: HostRuntime) -> Result<(), Fail> {
    let alloc = rt.alloc();
    let first = run_over(alloc, "format --pages 512 --variant base", b"")?;
    // at 6 the output in memory had no room for the last line, and the store is there
    if first.status == 0 || first.status == 6 {
        check_that(&rt, is_played_by_rule(alloc, &first)?);
    } else {
        check_that(&rt, leaves_no_store(alloc, &first)?);
    }
    check_that_at(&rt, &"the last allocation", is_not_the_last(alloc));
    Ok(())
}

// Four tables of a pair each, of level 0.
const FOUR_TABLES: &[u8] =
    b"put 61 01\nflush\nput 62 02\nflush\nput 63 03\nflush\nput 64 04\nflush\n";

// The store with the four tables, or none where something found no memory.
fn four_tables(alloc: Global) -> Result<Option<Ended>, Fail> {
    let first = run_over(alloc, "format --pages 512 --variant base", b"")?;
    let end = serve_over(alloc, first.disk.bytes(), FOUR_TABLES)?;
    let whole = end.said.as_slice() == OKS;
    Ok(if whole { Some(end) } else { None })
}

// Whether a load of 40 steps over the four tables is done, or ended with 7, and their pairs are there.
fn is_loaded(alloc: Global, first: &Ended) -> Result<bool, Fail> {
    let end = run_over(alloc, "load --seed 1 --count 40", first.disk.bytes())?;
    let told = match end.status {
        0 => end.said.as_slice() == LOADED,
        7 => end.said.as_slice() == MEMORY,
        status => status == 6,
    };
    let again = serve_over(alloc, end.disk.bytes(), b"get 61\nget 62\nget 63\nget 64\n")?;
    let refused = again.status > 0 || again.said.contains(&b'y');
    let kept = end.disk.starved() == 0;
    Ok(told && kept && (refused || again.said.as_slice() == FOUR))
}

#[test]
fn each_allocation_of_a_load_may_be_refused(rt: HostRuntime) -> Result<(), Fail> {
    let alloc = rt.alloc();
    if let Some(first) = four_tables(alloc)? {
        check_that(&rt, is_loaded(alloc, &first)?);
    }
    check_that_at(&rt, &"the last allocation", is_not_the_last(alloc));
    Ok(())
}

// New numbers of a new store: the words, the line, and the pages and settings in slot B, which the next version takes.
const NUMBERS: [(&str, &[u8], &[u8]); 2] = [
    (
        "settings --variant hash",
        b"settings 8 0 64\n",
        b"\x00\x02\x00\x00\x08\x00@\x00",
    ),
    (
        "grow --pages 600",
        b"grown 600\n",
        b"\x58\x02\x00\x00\x00\x00@\x00",
    ),
];

// Whether a store has these numbers, and whether nothing of it has changed.
fn numbers_of(first: &MemDisk, after: &MemDisk, numbers: &[u8]) -> (bool, bool) {
    let new = stands(after, 131_072, b"\x01") && stands(after, 131_096, numbers);
    (new, after.bytes() == first.bytes())
}

// Whether a run that sets numbers is by the rule: with 7 nothing was written, and with 6 the output found no memory.
fn is_set(
    alloc: Global,
    first: &Ended,
    words: &str,
    line: &[u8],
    numbers: &[u8],
) -> Result<bool, Fail> {
    let end = run_over(alloc, words, first.disk.bytes())?;
    let (new, same) = numbers_of(&first.disk, &end.disk, numbers);
    let told = match end.status {
        0 => end.said.as_slice() == line && new,
        7 => end.said.as_slice() == MEMORY && same,
        status => status == 6 && (new || same),
    };
    Ok(told && end.disk.starved() == 0)
}

// Whether a run whose line cannot be said, whichever line that is, ends with 6 behind nothing.
fn is_unsaid(alloc: Global, first: &Ended, words: &str) -> Result<bool, Fail> {
    let end = stopped(alloc, words, &first.disk, &[], &[0])?;
    Ok(end.status == 6 && end.said.is_empty())
}

#[test]
fn each_allocation_of_new_numbers_may_be_refused(rt: HostRuntime) -> Result<(), Fail> {
    let alloc = rt.alloc();
    let first = run_over(alloc, "format --pages 512 --variant base", b"")?;
    if first.status == 0 {
        for (words, line, numbers) in NUMBERS {
            check_that_at(&rt, &words, is_set(alloc, &first, words, line, numbers)?);
            check_that_at(&rt, &words, is_unsaid(alloc, &first, words)?);
        }
    }
    check_that_at(&rt, &"the last allocation", is_not_the_last(alloc));
    Ok(())
}

// What a check says of the store with the four tables, and with another byte in the block of the first.
const CLEAN: &[u8] = b"clean tables 4 entries 4 live 4 log 0\n";

const WRONG: &[u8] = b"finding block 786432 sum ec7a8b9dd3574ff2 7ed8be8180f1e9fb\nfindings 1\n";

// Whether a run that only reads says this, or the beginning of its lines and then that there was no memory; with 6 the output
// found none.
fn is_told(
    alloc: Global,
    word: &str,
    first: &MemDisk,
    status: u8,
    whole: &[u8],
) -> Result<bool, Fail> {
    let end = run_over(alloc, word, first.bytes())?;
    let told = match end.status {
        6 => whole.starts_with(&end.said),
        7 => match end.said.as_slice().strip_suffix(MEMORY) {
            Some(before) => whole.starts_with(before),
            None => false,
        },
        other => other == status && end.said.as_slice() == whole,
    };
    let same = end.disk.bytes() == first.bytes();
    Ok(told && same && end.disk.starved() == 0)
}

// Another byte in the block of the first table.
fn damaged(alloc: Global, first: &MemDisk) -> Result<Box<MemDisk>, Fail> {
    let mut disk = disk_of(alloc, first.bytes())?;
    disk.write(786_440, &[7])?;
    Ok(disk_of(alloc, disk.bytes())?)
}

#[test]
fn each_allocation_of_a_checking_run_may_be_refused(rt: HostRuntime) -> Result<(), Fail> {
    let alloc = rt.alloc();
    if let Some(first) = four_tables(alloc)? {
        check_that(&rt, is_told(alloc, "check", &first.disk, 0, CLEAN)?);
        let wrong = damaged(alloc, &first.disk)?;
        check_that(&rt, is_told(alloc, "check", &wrong, 12, WRONG)?);
    }
    check_that_at(&rt, &"the last allocation", is_not_the_last(alloc));
    Ok(())
}

// What the store with the four tables has, and its pairs.
const TABLES: &[u8] =
    b"table 0 201 3 1 0 0 64 64 64\ntable 0 198 3 1 0 0 64 63 63\ntable 0 195 3 1 0 0 64 62 62\n\
    table 0 192 3 1 0 0 64 61 61\nstore 512 308 308 5 0 0 0 64\n";

const PAIRS: &[u8] = b"put 61 01\nput 62 02\nput 63 03\nput 64 04\n";

#[test]
fn each_allocation_of_tables_and_of_a_dump_may_be_refused(rt: HostRuntime) -> Result<(), Fail> {
    let alloc = rt.alloc();
    if let Some(first) = four_tables(alloc)? {
        check_that(&rt, is_told(alloc, "tables", &first.disk, 0, TABLES)?);
        check_that(&rt, is_told(alloc, "dump", &first.disk, 0, PAIRS)?);
    }
    check_that_at(&rt, &"the last allocation", is_not_the_last(alloc));
    Ok(())
}
