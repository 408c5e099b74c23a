//! Random scripts, beside a store that is played in memory.
use crate::asserts::{check_that, check_that_at};
use crate::runs::{Ended, Succinct, boxed, failing, formatted, lost, served, served_by, written};
use disk_mem::MemDisk;
use filter_api::{RangeFilter, Settings};
use plain_filter::PlainFilter;
use plain_map::PlainMap;
use plain_store::{Merge, Played, Reply, Request, State, ask, get_bound, play, seek_bound, tend};
use std::alloc::{AllocError, Global};
use std::test::Fail;
use test_kit::Numbers;

// Keys and values, and each as a word.
const KEYS: [(&[u8], &[u8]); 6] = [
    (b"a", b"61"),
    (b"ab", b"6162"),
    (b"abc", b"616263"),
    (b"b", b"62"),
    (b"\xff", b"ff"),
    (b"\xff\xff", b"ffff"),
];

const VALUES: [(&[u8], &[u8]); 3] = [(b"", b"-"), (b"1", b"31"), (b"23", b"3233")];

const BASE: Settings = Settings {
    hash_bits: 0,
    real_bits: 0,
    ratio: 64,
};

// A script, as lines and as requests.
#[derive(Drop)]
struct Script {
    lines: Vec<u8>,
    requests: Vec<Request<'static>>,
}

// One line more. Of the lines without a word each sixth is a compaction.
fn push_line(script: &mut Script, verb: usize, key: usize, value: usize) -> Result<(), AllocError> {
    let number = key.min(5);
    let (key, key_word) = KEYS[number];
    let (value, value_word) = VALUES[value.min(2)];
    let (name, request): (&[u8], _) = match verb {
        0 if number == 0 => (b"compact", Request::Compact),
        0 => (b"flush", Request::Flush),
        1 | 2 => (b"del ", Request::Del { key }),
        3 | 4 => (b"get ", Request::Get { key }),
        _ => (b"put ", Request::Put { key, value }),
    };
    script.requests.push(request).map_err(AllocError::from)?;
    script.lines.extend_from_slice(name)?;
    if verb > 0 {
        script.lines.extend_from_slice(key_word)?;
    }
    if verb > 4 {
        script.lines.push(b' ')?;
        script.lines.extend_from_slice(value_word)?;
    }
    script.lines.push(b'\n')?;
    Ok(())
}

// One line more that reads pairs from one of the keys on, up to another one.
fn push_scan(script: &mut Script, verb: usize, lo: usize, hi: usize) -> Result<(), AllocError> {
    let (lo, lo_word) = KEYS[lo.min(5)];
    let (hi, hi_word) = KEYS[hi.min(5)];
    let (name, request): (&[u8], _) = match verb {
        0 => (b"seek ", Request::Seek { lo, hi: None }),
        1 => (b"range ", Request::Range { lo, hi, n: 3 }),
        2 => (b"count ", Request::Count { lo, hi }),
        _ => (b"seek ", Request::Seek { lo, hi: Some(hi) }),
    };
    script.requests.push(request).map_err(AllocError::from)?;
    script.lines.extend_from_slice(name)?;
    script.lines.extend_from_slice(lo_word)?;
    if verb > 0 {
        script.lines.push(b' ')?;
        script.lines.extend_from_slice(hi_word)?;
    }
    if verb == 1 {
        script.lines.extend_from_slice(b" 3")?;
    }
    script.lines.push(b'\n')?;
    Ok(())
}

fn no_lines(alloc: Global) -> Result<Box<Script>, AllocError> {
    let script = Script {
        lines: Vec::new(alloc),
        requests: Vec::new(alloc),
    };
    boxed(alloc, script)
}

// So many lines of the first verbs: twelve of them write and get, and six read pairs.
fn drawn(alloc: Global, seed: u64, length: usize, verbs: u64) -> Result<Box<Script>, AllocError> {
    let mut numbers = Numbers::new(seed);
    let mut script = no_lines(alloc)?;
    for _ in 0..length {
        let verb = numbers.draw_below(verbs);
        let key = numbers.draw_below(6);
        if verb < 12 {
            push_line(&mut script, verb, key, numbers.draw_below(3))?;
        } else {
            push_scan(&mut script, verb - 12, key, numbers.draw_below(6))?;
        }
    }
    Ok(script)
}

// The word of one of the keys and values.
fn word_of(value: &[u8]) -> &'static [u8] {
    for (bytes, word) in KEYS.iter().chain(VALUES.iter()) {
        if *bytes == value {
            return word;
        }
    }
    b"?"
}

// The line of a pair that was found.
fn push_pair(text: &mut Vec<u8>, key: &[u8], value: &[u8]) -> Result<(), AllocError> {
    text.extend_from_slice(b"at ")?;
    text.extend_from_slice(word_of(key))?;
    text.push(b' ')?;
    text.extend_from_slice(word_of(value))?;
    text.push(b'\n')?;
    Ok(())
}

// The line of a number below ten.
fn push_number(text: &mut Vec<u8>, word: &[u8], number: u64) -> Result<(), AllocError> {
    text.extend_from_slice(word)?;
    text.push(b'0'.wrapping_add((number % 10) as u8))?;
    text.push(b'\n')?;
    Ok(())
}

// The lines of the pairs of a range.
fn push_pairs(text: &mut Vec<u8>, map: &PlainMap) -> Result<(), AllocError> {
    for pair in map.pairs() {
        push_pair(text, pair.key(), pair.value())?;
    }
    push_number(text, b"end ", map.len() as u64)
}

// The lines of a reply.
fn push_reply(text: &mut Vec<u8>, reply: &Reply) -> Result<(), AllocError> {
    match reply {
        Reply::Done => text.extend_from_slice(b"ok\n")?,
        Reply::Value(value) => {
            text.extend_from_slice(b"val ")?;
            text.extend_from_slice(word_of(value))?;
            text.push(b'\n')?;
        }
        Reply::Missing => text.extend_from_slice(b"none\n")?,
        Reply::At { key, value } => push_pair(text, key, value)?,
        Reply::Pairs(map) => push_pairs(text, map)?,
        Reply::Counted(count) => push_number(text, b"count ", *count)?,
        _ => text.extend_from_slice(b"?\n")?,
    }
    Ok(())
}

fn new_state(alloc: Global) -> Result<Box<State>, AllocError> {
    boxed(alloc, State::new(alloc, BASE, 512))
}

fn played(
    alloc: Global,
    state: &State,
    requests: &[Request<'static>],
) -> Result<Box<Played>, AllocError> {
    boxed(alloc, play::<PlainFilter>(alloc, state, requests)?)
}

// What the requests are answered, as text.
fn expected(alloc: Global, requests: &[Request<'static>]) -> Result<Vec<u8>, AllocError> {
    let state = new_state(alloc)?;
    let played = played(alloc, &state, requests)?;
    let mut text = Vec::new(alloc);
    for reply in &played.replies {
        push_reply(&mut text, reply)?;
    }
    Ok(text)
}

// What gets of all keys are answered behind so many lines of the script.
fn behind(alloc: Global, script: &Script, lines: usize) -> Result<Vec<u8>, AllocError> {
    let mut requests = Vec::new(alloc);
    for request in script.requests.iter().take(lines) {
        requests.push(*request).map_err(AllocError::from)?;
    }
    let before = expected(alloc, &requests)?.len();
    for (key, _) in KEYS {
        requests
            .push(Request::Get { key })
            .map_err(AllocError::from)?;
    }
    let text = expected(alloc, &requests)?;
    Vec::from_slice(alloc, text.get(before..).unwrap_or(b"?"))
}

// What gets of all keys are answered by the next run.
fn found<F: RangeFilter>(alloc: Global, disk: Box<MemDisk>) -> Result<Ended, Fail> {
    let mut lines = Vec::new(alloc);
    for (_, word) in KEYS {
        lines.extend_from_slice(b"get ")?;
        lines.extend_from_slice(word)?;
        lines.push(b'\n')?;
    }
    served_by::<F>(alloc, disk, &lines)
}

// Whether a script of 200 lines gets the replies of the played store, and its map is there at the end.
fn is_played<F: RangeFilter>(alloc: Global, seed: u64, words: &str) -> Result<bool, Fail> {
    let script = drawn(alloc, seed, 200, 18)?;
    let text = expected(alloc, &script.requests)?;
    let end = served_by::<F>(alloc, formatted(alloc, words)?, &script.lines)?;
    let same = end.status == 0 && end.said.as_slice() == text.as_slice();
    let again = found::<F>(alloc, end.disk)?;
    let map = behind(alloc, &script, 200)?;
    Ok(same && again.said.as_slice() == map.as_slice())
}

const VARIANTS: [&str; 4] = [
    "format --pages 512 --variant base",
    "format --pages 512 --variant hash",
    "format --pages 512 --variant real",
    "format --pages 512 --variant mixed",
];

// The most blocks that a get or a closed seek may read, and more than any run does for others.
fn bound_of<F: RangeFilter>(
    alloc: Global,
    state: &State,
    request: Request<'static>,
) -> Result<u64, AllocError> {
    match request {
        Request::Get { key } => get_bound::<F>(alloc, state, key),
        Request::Seek { lo, hi: Some(hi) } => seek_bound::<F>(alloc, state, lo, hi),
        _ => Ok(1_000),
    }
}

// The state behind a request and its merge, which has eight blocks at most here, so one merge slice does it whole.
fn tended<F: RangeFilter>(
    alloc: Global,
    state: &State,
    request: Request<'static>,
) -> Result<Box<State>, AllocError> {
    let answered = ask::<F>(alloc, state, request)?.state;
    boxed(alloc, tend::<F>(alloc, Merge::Whole, request, answered)?)
}

// The disk behind a line, and how many blocks it reads. The line is a run of its own, behind one without a line: their openings
// read the same.
fn read_by<F: RangeFilter>(
    alloc: Global,
    disk: Box<MemDisk>,
    line: &[u8],
) -> Result<(Box<MemDisk>, u64), Fail> {
    let before = disk.reads();
    let idle = served_by::<F>(alloc, disk, b"")?;
    let opened = idle.disk.reads();
    let end = served_by::<F>(alloc, idle.disk, line)?;
    let both = opened.saturating_mul(2).saturating_sub(before);
    let read = end.disk.reads().saturating_sub(both);
    Ok((end.disk, read))
}

// Whether each get and each closed seek of a script reads no more blocks than its bound.
fn reads_are_bounded<F: RangeFilter>(alloc: Global, seed: u64) -> Result<bool, Fail> {
    let script = drawn(alloc, seed, 60, 18)?;
    let mut disk = formatted(alloc, VARIANTS[0])?;
    let mut state = new_state(alloc)?;
    let lines = script.lines.split_inclusive(|byte| *byte == b'\n');
    for (line, request) in lines.zip(script.requests.iter()) {
        let most = bound_of::<F>(alloc, &state, *request)?;
        let (next, read) = read_by::<F>(alloc, disk, line)?;
        if read > most {
            return Ok(false);
        }
        disk = next;
        state = tended::<F>(alloc, &state, *request)?;
    }
    Ok(true)
}

#[test]
fn gets_and_closed_seeks_read_within_their_bounds(rt: HostRuntime) -> Result<(), Fail> {
    check_that(&rt, reads_are_bounded::<Succinct>(rt.alloc(), 5)?);
    Ok(())
}

#[test]
fn replies_are_those_of_the_played_store(rt: HostRuntime) -> Result<(), Fail> {
    for (seed, words) in VARIANTS.iter().copied().enumerate() {
        check_that_at(
            &rt,
            &words,
            is_played::<Succinct>(rt.alloc(), seed as u64, words)?,
        );
    }
    Ok(())
}

#[test]
fn replies_over_plain_filters_are_the_same(rt: HostRuntime) -> Result<(), Fail> {
    for (seed, words) in VARIANTS.iter().copied().enumerate() {
        check_that_at(
            &rt,
            &words,
            is_played::<PlainFilter>(rt.alloc(), seed as u64, words)?,
        );
    }
    Ok(())
}

// Whether the next run finds the map behind the lines that were answered, or behind one more, after this call has failed.
fn outlasts(alloc: Global, first: &MemDisk, script: &Script, call: u64) -> Result<bool, Fail> {
    let end = served(alloc, failing(alloc, first, call)?, &script.lines)?;
    let replies = end.said.iter().filter(|byte| **byte == b'\n').count();
    let lines = replies.saturating_sub(usize::from(end.said.ends_with(b"device\n")));
    let left = if call % 2 == 0 {
        written(alloc, &end.disk)?
    } else {
        lost(alloc, &end.disk)?
    };
    let again = found::<Succinct>(alloc, left)?;
    let before = behind(alloc, script, lines)?;
    let after = behind(alloc, script, lines.saturating_add(1).min(60))?;
    let text = again.said.as_slice();
    Ok(text == before.as_slice() || text == after.as_slice())
}

#[test]
fn crashes_at_random_places(rt: HostRuntime) -> Result<(), Fail> {
    let alloc = rt.alloc();
    let mut numbers = Numbers::new(11);
    for words in VARIANTS {
        let first = formatted(alloc, words)?;
        let script = drawn(alloc, numbers.draw(), 60, 12)?;
        for _ in 0..4 {
            let call = numbers.draw_below(200) as u64;
            check_that_at(&rt, &call, outlasts(alloc, &first, &script, call)?);
        }
    }
    Ok(())
}
