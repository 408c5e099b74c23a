//! Values that are too long for the log, beside merges that run.
use crate::asserts::{check_same_at, check_that_at};
use crate::random::{Compared, side_by_side, text_of};
use crate::tended::{FOUR, has_keys, tended};
use disk_mem::MemDisk;
use plain_store::Request;
use std::alloc::{AllocError, Global};
use std::test::Fail;
use test_kit::Numbers;
use test_stores::{PlainStore, changed, disk_of, opened};

// One byte more than the log takes, and the longest value.
const LONG: usize = 65_537;

const LONGEST: usize = 1_048_576;

// Whether a store has the keys of the four tables, and this value of another one.
fn has_five(store: &mut PlainStore, disk: &mut MemDisk, value: &[u8]) -> bool {
    has_keys(store, disk, b"abcd") && store.get(disk, b"e") == Ok(Some(value))
}

// Whether all is found where a long value is put behind so many merge slices of a block: then, behind the install, and in a
// store that is opened anew.
fn put_between(alloc: Global, slices: u64) -> Result<bool, Fail> {
    let mut disk = disk_of(alloc, &[])?;
    let mut store = changed(alloc, &mut disk, &FOUR)?;
    for _ in 0..slices {
        store.tend(&mut *disk, 1)?;
    }
    let value = text_of(alloc, LONG)?;
    store.put(&mut *disk, b"e", &value)?;
    let then = has_five(&mut store, &mut disk, &value);
    tended(&mut store, &mut disk, 1)?;
    let behind = has_five(&mut store, &mut disk, &value);
    let two = store.explain(b"a")?.tables == 2;
    let mut again = opened(alloc, &mut disk)?;
    Ok(then && behind && two && has_five(&mut again, &mut disk, &value))
}

// Its table stays beside the one that the merge leaves.
#[test]
fn a_long_put_between_two_slices(rt: HostRuntime) -> Result<(), Fail> {
    for slices in 1..4 {
        check_that_at(&rt, &slices, put_between(rt.alloc(), slices)?);
    }
    Ok(())
}

// ---- random scripts

const KEYS: [&[u8]; 6] = [b"a", b"ab", b"b", b"c", b"d", b"e"];

// Which lines are drawn: of so many of the keys, and explains too or those alone that the map answers.
#[derive(Clone, Copy)]
struct Lines {
    keys: u64,
    explains: bool,
}

const SIZES: [usize; 4] = [0, 100, LONG, LONGEST];

fn drawn_value<'a>(numbers: &mut Numbers, text: &'a [u8]) -> &'a [u8] {
    let size = SIZES[numbers.draw_below(4).min(3)];
    let from = numbers.draw_below(256);
    text.get(from..from.saturating_add(size)).unwrap_or(b"")
}

fn drawn_line<'a>(numbers: &mut Numbers, lines: Lines, text: &'a [u8]) -> Request<'a> {
    let key = KEYS[numbers.draw_below(lines.keys).min(5)];
    match numbers.draw_below(12) {
        0 => Request::Flush,
        1 => Request::Del { key },
        2 => Request::Seek { lo: key, hi: None },
        3 => Request::Count { lo: b"", hi: key },
        4 if lines.explains => Request::Explain { key },
        4 | 5 => Request::Get { key },
        _ => Request::Put {
            key,
            value: drawn_value(numbers, text),
        },
    }
}

// A script of so many lines.
fn drawn<'a>(
    alloc: Global,
    seed: u64,
    lines: Lines,
    count: u32,
    text: &'a [u8],
) -> Result<Vec<Request<'a>>, AllocError> {
    let mut numbers = Numbers::new(seed);
    let mut script = Vec::new(alloc);
    for _ in 0..count {
        let line = drawn_line(&mut numbers, lines, text);
        script.push(line).map_err(AllocError::from)?;
    }
    Ok(script)
}

// Bytes that the longest values are cut from.
fn text(alloc: Global) -> Result<Vec<u8>, AllocError> {
    text_of(alloc, LONGEST + 256)
}

// Three keys: an output has fewer pages than close it, so that a merge slice ends where the played one does. The first devices
// are full at times.
#[test]
fn long_values_are_answered_as_they_are_played(rt: HostRuntime) -> Result<(), Fail> {
    let alloc = rt.alloc();
    let text = text(alloc)?;
    let lines = Lines {
        keys: 3,
        explains: true,
    };
    for (seed, pages, blocks) in [(1, 1_024, 1), (2, 1_024, 2), (3, 4_096, 8)] {
        let script = drawn(alloc, seed, lines, 60, &text)?;
        let end = side_by_side(alloc, &script, None, pages, blocks, u64::from(blocks))?;
        check_same_at(&rt, &seed, &end.other, &None);
    }
    Ok(())
}

// Six keys: a merge has outputs of four such values.
#[test]
fn long_values_are_the_same_in_all_slices(rt: HostRuntime) -> Result<(), Fail> {
    let alloc = rt.alloc();
    let text = text(alloc)?;
    let lines = Lines {
        keys: 6,
        explains: false,
    };
    let script = drawn(alloc, 4, lines, 60, &text)?;
    for blocks in [1, 1_000] {
        let end = side_by_side(alloc, &script, None, 8_192, blocks, 1_000)?;
        let same = Compared {
            other: None,
            refused: 0,
        };
        check_same_at(&rt, &blocks, &end, &same);
    }
    Ok(())
}
