//! Values that are too long for the log, in whole runs.
use crate::asserts::{check_same_at, check_that, check_that_at};
use crate::runs::{
    Ended, base_disk, check, disk_of, failing, formatted, left_behind, lost, paced, served,
};
use disk_mem::MemDisk;
use filter_api::Settings;
use plain_filter::PlainFilter;
use plain_store::{Reply, Request, State, ask};
use std::alloc::{AllocError, Global};
use std::test::Fail;
use test_kit::Numbers;
use test_runs::{Left, left_by};

// The longest value, and one byte more than the log takes.
const LONGEST: usize = 1_048_576;

const LONG: usize = 65_537;

// So many bytes 00, in hex.
fn push_zeros(text: &mut Vec<u8>, count: usize) -> Result<(), AllocError> {
    let len = text.len().saturating_add(count.saturating_mul(2));
    text.resize(len, b'0')
}

// The line of a put with a value of so many bytes 00.
fn push_put(lines: &mut Vec<u8>, key: &[u8], value: usize) -> Result<(), AllocError> {
    lines.extend_from_slice(b"put ")?;
    lines.extend_from_slice(key)?;
    lines.push(b' ')?;
    push_zeros(lines, value)?;
    lines.push(b'\n')?;
    Ok(())
}

// The reply to a get that finds it.
fn push_value(text: &mut Vec<u8>, value: usize) -> Result<(), AllocError> {
    text.extend_from_slice(b"val ")?;
    push_zeros(text, value)?;
    text.push(b'\n')?;
    Ok(())
}

// The table of one such value has 257 data pages, one of its index and one of its filter: the 320 pages of a small store hold
// one of them, and then a short put is logged.
#[test]
fn the_longest_value_is_a_table(rt: HostRuntime) -> Result<(), Fail> {
    let alloc = rt.alloc();
    let mut lines = Vec::new(alloc);
    push_put(&mut lines, b"61", LONGEST)?;
    push_put(&mut lines, b"62", LONGEST)?;
    lines.extend_from_slice(b"put 63 01\nget 61\n")?;
    let end = served(alloc, base_disk(alloc)?, &lines)?;
    let mut said = Vec::from_slice(alloc, b"ok\nfull need 259 gap 61\nok\n")?;
    push_value(&mut said, LONGEST)?;
    check(&rt, &end, 0, &said, 0);
    let again = served(
        alloc,
        lost(alloc, &end.disk)?,
        b"get 62\nget 63\nexplain 61\ndel 61\nget 61\n",
    )?;
    let found = b"none\nval 01\ntables 1 admitted 1 blocks 1\nok\nnone\n";
    check(&rt, &again, 0, found, 1);
    Ok(())
}

// The other keys of the memory go into the table with it, and an older value of its own key does not.
#[test]
fn a_long_value_takes_the_memory_with_it(rt: HostRuntime) -> Result<(), Fail> {
    let alloc = rt.alloc();
    let mut lines = Vec::from_slice(alloc, b"put 61 01\nput 62 02\nput 63 03\n")?;
    push_put(&mut lines, b"62", LONG)?;
    lines.extend_from_slice(b"count - 7a\nexplain 62\nget 61\nget 63\nget 62\n")?;
    let end = served(alloc, base_disk(alloc)?, &lines)?;
    let mut said = Vec::from_slice(alloc, b"ok\nok\nok\nok\ncount 3\n")?;
    said.extend_from_slice(b"tables 1 admitted 1 blocks 1\nval 01\nval 03\n")?;
    push_value(&mut said, LONG)?;
    check(&rt, &end, 0, &said, 0);
    Ok(())
}

// A later run finds it and deletes it, and a third finds it no more.
#[test]
fn a_long_value_is_there_until_it_is_deleted(rt: HostRuntime) -> Result<(), Fail> {
    let alloc = rt.alloc();
    let mut lines = Vec::new(alloc);
    push_put(&mut lines, b"61", LONG)?;
    let disk = left_behind(alloc, base_disk(alloc)?, &lines)?;
    let again = served(alloc, disk, b"get 61\ndel 61\nget 61\n")?;
    let mut found = Vec::new(alloc);
    push_value(&mut found, LONG)?;
    found.extend_from_slice(b"ok\nnone\n")?;
    check(&rt, &again, 0, &found, 0);
    let lines = b"get 61\ncount - 7a\ncompact\nexplain 61\n";
    let third = served(alloc, lost(alloc, &again.disk)?, lines)?;
    let none = b"none\ncount 0\nok\ntables 0 admitted 0 blocks 0\n";
    check(&rt, &third, 0, none, 1);
    Ok(())
}

// A put, and a long one.
fn script(alloc: Global) -> Result<Vec<u8>, AllocError> {
    let mut lines = Vec::from_slice(alloc, b"put 61 01\n")?;
    push_put(&mut lines, b"62", LONG)?;
    Ok(lines)
}

// Whether the next run finds what so many puts leave.
fn finds(alloc: Global, disk: &MemDisk, puts: usize) -> Result<bool, Fail> {
    let end = served(alloc, disk_of(alloc, disk.bytes())?, b"get 61\nget 62\n")?;
    let first: &[u8] = if puts > 0 { b"val 01\n" } else { b"none\n" };
    let mut found = Vec::from_slice(alloc, first)?;
    if puts > 1 {
        push_value(&mut found, LONG)?;
    } else {
        found.extend_from_slice(b"none\n")?;
    }
    Ok(end.status == 0 && end.said.as_slice() == found.as_slice())
}

// Whether it finds the puts that were answered, or one more: no other reply has a k.
fn outlasts(alloc: Global, end: &Ended, left: Left) -> Result<bool, Fail> {
    let disk = left_by(alloc, &end.disk, left)?;
    let done = end.said.iter().filter(|byte| **byte == b'k').count();
    Ok(finds(alloc, &disk, done)? || finds(alloc, &disk, done.saturating_add(1))?)
}

// Whether it is so with each call of the disk failing in turn.
fn each_call_fails_well(alloc: Global, left: Left) -> Result<bool, Fail> {
    let first = base_disk(alloc)?;
    let mut lines = script(alloc)?;
    lines.extend_from_slice(b"get 61\nget 62\n")?;
    for call in 0..100 {
        let end = served(alloc, failing(alloc, &first, call)?, &lines)?;
        if !outlasts(alloc, &end, left)? {
            return Ok(false);
        }
        if end.status == 0 {
            return Ok(call > 16);
        }
        if end.status != 4 || !end.said.ends_with(b"device\n") {
            return Ok(false);
        }
    }
    Ok(false)
}

#[test]
fn calls_of_a_long_put_fail_and_their_writes_are_whole(rt: HostRuntime) -> Result<(), Fail> {
    check_that(&rt, each_call_fails_well(rt.alloc(), Left::Whole)?);
    Ok(())
}

#[test]
fn calls_of_a_long_put_fail_and_their_writes_are_lost(rt: HostRuntime) -> Result<(), Fail> {
    check_that(&rt, each_call_fails_well(rt.alloc(), Left::Lost)?);
    Ok(())
}

#[test]
fn calls_of_a_long_put_fail_and_their_writes_are_sevens(rt: HostRuntime) -> Result<(), Fail> {
    check_that(&rt, each_call_fails_well(rt.alloc(), Left::Sevens)?);
    Ok(())
}

// Whether the next run finds so many puts whatever a crash leaves.
fn last(alloc: Global, disk: &MemDisk, puts: usize) -> Result<bool, Fail> {
    for left in [Left::Whole, Left::Lost, Left::Sevens] {
        let disk = left_by(alloc, disk, left)?;
        if !finds(alloc, &disk, puts)? {
            return Ok(false);
        }
    }
    Ok(true)
}

// Stopped at each byte that is said, of thirteen: a put lasts before the first byte of its reply, and the next is not begun.
#[test]
fn what_is_said_of_a_long_put_lasts(rt: HostRuntime) -> Result<(), Fail> {
    let alloc = rt.alloc();
    let first = base_disk(alloc)?;
    let mut lines = script(alloc)?;
    lines.extend_from_slice(b"get 61\n")?;
    for say in 0..13 {
        let end = paced(alloc, &first, &lines, &[], &[say], 1)?;
        check_same_at(&rt, &say, &end.status, &6);
        let puts = if say < 3 { 1 } else { 2 };
        check_that_at(&rt, &say, last(alloc, &end.disk, puts)?);
    }
    Ok(())
}

// A line of so many digits.
fn push_digits(lines: &mut Vec<u8>, count: usize) -> Result<(), AllocError> {
    let len = lines.len().saturating_add(count);
    lines.resize(len, b'6')?;
    lines.push(b'\n')?;
    Ok(())
}

// The longest line, a byte longer, and what stands behind them.
#[test]
fn the_longest_line_is_read(rt: HostRuntime) -> Result<(), Fail> {
    let alloc = rt.alloc();
    let mut lines = Vec::new(alloc);
    push_digits(&mut lines, 2_100_000)?;
    push_digits(&mut lines, 2_100_001)?;
    lines.extend_from_slice(b"get 61\n")?;
    let end = served(alloc, base_disk(alloc)?, &lines)?;
    check(&rt, &end, 0, b"bad 2\nbad 1\nnone\n", 0);
    Ok(())
}

// ---- beside a store that is played

const KEYS: [(&[u8], &[u8]); 3] = [(b"a", b"61"), (b"ab", b"6162"), (b"b", b"62")];

const SIZES: [usize; 4] = [0, 65_536, 65_537, 1_048_576];

const BASE: Settings = Settings {
    hash_bits: 0,
    real_bits: 0,
    ratio: 64,
};

// A value of bytes 00 and bytes 77 after them, in hex.
fn push_cut(text: &mut Vec<u8>, value: &[u8]) -> Result<(), AllocError> {
    let zeros = value.partition_point(|byte| *byte == 0);
    push_zeros(text, zeros)?;
    let sevens = value.len().saturating_sub(zeros).saturating_mul(2);
    let len = text.len().saturating_add(sevens);
    text.resize(len, b'7')
}

// The reply to a get that finds such a value.
fn push_found(text: &mut Vec<u8>, value: &[u8]) -> Result<(), AllocError> {
    text.extend_from_slice(b"val ")?;
    push_cut(text, value)?;
    text.push(b'\n')?;
    Ok(())
}

// The reply as text.
fn push_reply(text: &mut Vec<u8>, reply: &Reply) -> Result<(), AllocError> {
    match reply {
        Reply::Done => text.extend_from_slice(b"ok\n"),
        Reply::Missing => text.extend_from_slice(b"none\n"),
        Reply::Value(value) if value.is_empty() => text.extend_from_slice(b"val -\n"),
        Reply::Value(value) => push_found(text, value),
        _ => text.extend_from_slice(b"?\n"),
    }
}

// As many bytes 00 as the longest value has, and as many 77.
fn text_of(alloc: Global) -> Result<Vec<u8>, AllocError> {
    let mut text = vec![in alloc; 0; LONGEST]?;
    text.resize(2 * LONGEST, 0x77)?;
    Ok(text)
}

// A value of so many bytes, from a drawn place of a text on.
fn cut<'a>(numbers: &mut Numbers, text: &'a [u8], size: usize) -> &'a [u8] {
    let from = numbers.draw_below(LONGEST as u64 + 1).min(LONGEST);
    text.get(from..from.saturating_add(size)).unwrap_or(b"")
}

// The line of a put.
fn push_line(lines: &mut Vec<u8>, key: &[u8], value: &[u8]) -> Result<(), AllocError> {
    lines.extend_from_slice(b"put ")?;
    lines.extend_from_slice(key)?;
    lines.push(b' ')?;
    if value.is_empty() {
        lines.push(b'-')?;
    }
    push_cut(lines, value)?;
    lines.push(b'\n')?;
    Ok(())
}

// One line, and as a request.
fn drawn<'a>(
    numbers: &mut Numbers,
    lines: &mut Vec<u8>,
    text: &'a [u8],
) -> Result<Request<'a>, AllocError> {
    let (key, word) = KEYS[numbers.draw_below(3).min(2)];
    let verb = numbers.draw_below(8);
    if verb < 4 {
        let size = SIZES[numbers.draw_below(4).min(3)];
        let value = cut(numbers, text, size);
        push_line(lines, word, value)?;
        return Ok(Request::Put { key, value });
    }
    let (name, request): (&[u8], _) = match verb {
        4 => (b"del ", Request::Del { key }),
        5 => (b"flush", Request::Flush),
        _ => (b"get ", Request::Get { key }),
    };
    lines.extend_from_slice(name)?;
    if verb != 5 {
        lines.extend_from_slice(word)?;
    }
    lines.push(b'\n')?;
    Ok(request)
}

// The lines of a script, and what a store that is played answers. No merge comes: level 0 has fewer than four tables.
fn played(alloc: Global, seed: u64) -> Result<(Vec<u8>, Vec<u8>), Fail> {
    let mut numbers = Numbers::new(seed);
    let text = text_of(alloc)?;
    let mut state = State::new(alloc, BASE, 4_096);
    let mut lines = Vec::new(alloc);
    let mut said = Vec::new(alloc);
    for _ in 0..60 {
        if state.tables.len() >= 3 {
            break;
        }
        let request = drawn(&mut numbers, &mut lines, &text)?;
        let answer = ask::<PlainFilter>(alloc, &state, request)?;
        push_reply(&mut said, &answer.reply)?;
        state = answer.state;
    }
    Ok((lines, said))
}

#[test]
fn long_values_are_answered_as_they_are_played(rt: HostRuntime) -> Result<(), Fail> {
    let alloc = rt.alloc();
    for seed in 0..8 {
        let (lines, said) = played(alloc, seed)?;
        let disk = formatted(alloc, "format --pages 4096 --variant base")?;
        let end = served(alloc, disk, &lines)?;
        check(&rt, &end, 0, &said, seed);
    }
    Ok(())
}
