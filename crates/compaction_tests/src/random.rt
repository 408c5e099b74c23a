//! Random scripts over a store, with a merge slice behind each put and delete, beside the same scripts as they are
//! played.
use crate::asserts::{check_same_at, check_that_at};
use disk_mem::MemDisk;
use filter_api::Settings;
use plain_filter::PlainFilter;
use plain_store::{Answer, Reply, Request, State, ask, choose, sliced, with_pages, with_settings};
use std::alloc::{AllocError, Global};
use std::test::Fail;
use store_core::{Explained, Limit, StoreError, Tended};
use test_kit::Numbers;
use test_stores::{
    BASE, Left, PlainScan, PlainStore, disk_of, left_by, new_state, opened, range_of, seek_of,
};

const KEYS: [&[u8]; 16] = [
    b"\x00",
    b"a",
    b"a\x00",
    b"aa",
    b"ab",
    b"abc",
    b"abd",
    b"b",
    b"ba",
    b"c",
    b"d",
    b"e",
    b"f",
    b"z",
    b"\xff",
    b"\xff\xff",
];

/// So many bytes that values are cut from.
pub fn text_of(alloc: Global, length: usize) -> Result<Vec<u8>, AllocError> {
    let mut numbers = Numbers::new(1);
    let mut bytes = Vec::with_capacity(alloc, length)?;
    for _ in 0..length {
        bytes.push(u8::try_from(numbers.draw_below(256)).unwrap_or(0))?;
    }
    Ok(bytes)
}

// A value: one in eight is empty, half have less than 200 bytes, two in eight near a page, and one in eight is long.
fn drawn_value<'a>(numbers: &mut Numbers, text: &'a [u8], longest: u64) -> &'a [u8] {
    let length = match numbers.draw_below(8) {
        0 => 0,
        1 => numbers.draw_below(longest),
        2 | 3 => numbers.draw_below(3_000).saturating_add(2_000),
        _ => numbers.draw_below(200),
    };
    let from = numbers.draw_below(256);
    text.get(from..from.saturating_add(length)).unwrap_or(b"")
}

// Which lines are drawn: with the numbers of filters and refused keys, or those alone that the map answers.
#[derive(Clone, Copy)]
enum Lines {
    All,
    OfTheMap,
}

// A line.
fn drawn_line<'a>(
    numbers: &mut Numbers,
    lines: Lines,
    text: &'a [u8],
    longest: u64,
) -> Request<'a> {
    let verbs = match lines {
        Lines::All => 27,
        Lines::OfTheMap => 24,
    };
    let verb = numbers.draw_below(verbs);
    let key = KEYS[numbers.draw_below(16).min(15)];
    let hi = KEYS[numbers.draw_below(16).min(15)];
    let rare = numbers.draw_below(4) == 0;
    match verb {
        0 if rare => Request::Compact,
        0 | 1 => Request::Flush,
        2 | 3 | 4 => Request::Del { key },
        5 | 6 | 7 => Request::Get { key },
        8 => Request::Seek { lo: key, hi: None },
        9 => Request::Seek {
            lo: key,
            hi: Some(hi),
        },
        10 => Request::Range { lo: key, hi, n: 5 },
        11 => Request::Count { lo: key, hi },
        24 => Request::Estimate { lo: key, hi },
        25 => Request::Explain { key },
        26 => Request::Del { key: b"" },
        _ => Request::Put {
            key,
            value: drawn_value(numbers, text, longest),
        },
    }
}

// A script of so many lines.
fn drawn<'a>(
    alloc: Global,
    seed: u64,
    lines: Lines,
    count: u32,
    text: &'a [u8],
    longest: u64,
) -> Result<Vec<Request<'a>>, AllocError> {
    let mut numbers = Numbers::new(seed);
    let mut script = Vec::new(alloc);
    for _ in 0..count {
        let line = drawn_line(&mut numbers, lines, text, longest);
        script.push(line).map_err(AllocError::from)?;
    }
    Ok(script)
}

// Whether a change is answered so.
fn changes_so(answer: Result<(), StoreError>, reply: &Reply) -> bool {
    match (answer, reply) {
        (Ok(()), Reply::Done) => true,
        (Err(StoreError::Limit(Limit::Key(bytes))), Reply::LongKey(long)) => bytes == *long,
        (
            Err(StoreError::Full { need, gap }),
            Reply::Full {
                need: pages,
                gap: free,
            },
        ) => need == *pages && gap == *free,
        _ => false,
    }
}

// Whether a get is answered so.
fn gets_so(
    store: &mut PlainStore,
    disk: &mut MemDisk,
    key: &[u8],
    reply: &Reply,
) -> Result<bool, StoreError> {
    let found = store.get(disk, key)?;
    Ok(match reply {
        Reply::Value(value) => found == Some(value.as_slice()),
        Reply::Missing => found.is_none(),
        _ => false,
    })
}

// Whether a seek or a range gives these pairs.
fn scans_so(
    scan: &mut PlainScan<'_>,
    disk: &mut MemDisk,
    reply: &Reply,
) -> Result<bool, StoreError> {
    match reply {
        Reply::At { key, value } => {
            Ok(scan.step(disk)? == Some((key.as_slice(), value.as_slice())))
        }
        Reply::Missing => Ok(scan.step(disk)?.is_none()),
        Reply::Pairs(map) => {
            for pair in map.pairs() {
                if scan.step(disk)? != Some((pair.key(), pair.value())) {
                    return Ok(false);
                }
            }
            Ok(scan.step(disk)?.is_none())
        }
        _ => Ok(false),
    }
}

// Whether a number is told so.
fn tells_so(
    store: &PlainStore,
    disk: &mut MemDisk,
    request: Request<'_>,
    reply: &Reply,
) -> Result<bool, StoreError> {
    match (request, reply) {
        (Request::Count { lo, hi }, Reply::Counted(number)) => {
            Ok(store.count(disk, lo, hi)? == *number)
        }
        (Request::Estimate { lo, hi }, Reply::About(number)) => {
            Ok(store.estimate(lo, hi)? == *number)
        }
        (
            Request::Explain { key },
            Reply::Explained {
                tables,
                admitted,
                blocks,
            },
        ) => {
            let told = Explained {
                tables: *tables,
                admitted: *admitted,
                blocks: *blocks,
            };
            Ok(store.explain(key)? == told)
        }
        _ => Ok(false),
    }
}

/// Whether a request is answered so.
pub fn replies_so(
    alloc: Global,
    store: &mut PlainStore,
    disk: &mut MemDisk,
    request: Request<'_>,
    reply: &Reply,
) -> Result<bool, Fail> {
    match request {
        Request::Put { key, value } => Ok(changes_so(store.put(disk, key, value), reply)),
        Request::Del { key } => Ok(changes_so(store.delete(disk, key), reply)),
        Request::Flush => Ok(changes_so(store.flush(disk), reply)),
        Request::Compact => Ok(changes_so(store.compact(disk), reply)),
        Request::Get { key } => Ok(gets_so(store, disk, key, reply)?),
        Request::Seek { lo, hi } => {
            let mut scan = seek_of(alloc, store, lo, hi)?;
            Ok(scans_so(&mut scan, disk, reply)?)
        }
        Request::Range { lo, hi, n } => {
            let mut scan = range_of(alloc, store, lo, hi, u64::from(n))?;
            Ok(scans_so(&mut scan, disk, reply)?)
        }
        _ => Ok(tells_so(store, disk, request, reply)?),
    }
}

// A merge slice of so many blocks behind a put or a delete: whether it is refused.
fn slice_is_refused(
    store: &mut PlainStore,
    disk: &mut MemDisk,
    request: Request<'_>,
    blocks: u32,
) -> Result<bool, StoreError> {
    match request {
        Request::Put { .. } | Request::Del { .. } => {
            let tended = store.tend(disk, blocks.max(1))?;
            Ok(matches!(tended, Tended::Full { .. }))
        }
        _ => Ok(false),
    }
}

/// What a request is answered by the played store.
pub fn answered(
    alloc: Global,
    state: &State,
    request: Request<'_>,
) -> Result<Box<Answer>, AllocError> {
    Ok(Box::new(alloc, ask::<PlainFilter>(alloc, state, request)?)?)
}

// The played state behind one merge slice of so many blocks.
fn sliced_once(alloc: Global, blocks: u64, state: &State) -> Result<Box<State>, AllocError> {
    Ok(Box::new(alloc, sliced::<PlainFilter>(alloc, blocks, state)?)?)
}

// How many blocks the merge that runs is to read, or the one that is to be begun.
fn to_read(alloc: Global, state: &State) -> Result<Option<u64>, AllocError> {
    if let Some(job) = &state.job {
        return Ok(Some(job.to_read));
    }
    let Some(plan) = choose(alloc, state)? else {
        return Ok(None);
    };
    let mut blocks = 0u64;
    for table in &plan.inputs {
        blocks = blocks.saturating_add(table.blocks);
    }
    Ok(Some(blocks))
}

// The played state behind a merge slice of the store: where no more blocks are left than it may read, it goes on to the
// install.
fn behind_slice(alloc: Global, blocks: u64, state: Box<State>) -> Result<Box<State>, AllocError> {
    let Some(left) = to_read(alloc, &state)? else {
        return Ok(state);
    };
    let mut state = sliced_once(alloc, blocks, &state)?;
    if left > blocks {
        return Ok(state);
    }
    for _ in 0..9 {
        if state.job.is_none() {
            return Ok(state);
        }
        state = sliced_once(alloc, blocks, &state)?;
    }
    Ok(state)
}

// The played state behind a request that was answered so, and behind the merge slice of a put or a delete.
fn behind(
    alloc: Global,
    blocks: u64,
    request: Request<'_>,
    answer: Box<Answer>,
) -> Result<Box<State>, AllocError> {
    let state = Box::new(alloc, Box::into_inner(answer).state)?;
    match request {
        Request::Put { .. } | Request::Del { .. } => behind_slice(alloc, blocks, state),
        _ => Ok(state),
    }
}

// Whether the store that stands on a disk finds what the played state has of each key.
fn has_map(alloc: Global, disk: &mut MemDisk, state: &State) -> Result<bool, Fail> {
    let mut store = opened(alloc, disk)?;
    for key in KEYS {
        let answer = answered(alloc, state, Request::Get { key })?;
        if !gets_so(&mut store, disk, key, &answer.reply)? {
            return Ok(false);
        }
    }
    Ok(true)
}

/// How a script goes over a store and in a played state: the first line with another reply, their number where another
/// map is found in the end, and how many lines and merge slices of the store are refused.
#[derive(Clone, Copy, Debug, PartialEq, Eq)]
pub struct Compared {
    pub other: Option<usize>,
    pub refused: usize,
}

fn is_refused(reply: &Reply) -> bool {
    matches!(
        reply,
        Reply::Full { .. } | Reply::LongKey(_) | Reply::ManyTables | Reply::LastEpoch
    )
}

/// Settings of each variant.
pub const VARIANTS: [Settings; 4] = [
    BASE,
    Settings {
        hash_bits: 8,
        real_bits: 0,
        ratio: 64,
    },
    Settings {
        hash_bits: 0,
        real_bits: 8,
        ratio: 16,
    },
    Settings {
        hash_bits: 4,
        real_bits: 3,
        ratio: 0,
    },
];

/// What comes between two lines: nothing, other settings, more pages, or a crash behind which the store is opened anew.
#[derive(Clone, Copy)]
pub enum Between {
    Nothing,
    Settings(Settings),
    Pages(u64),
    Crash(Left),
}

// What crashes leave of the writes that wait for a sync.
const LEFT: [Left; 3] = [Left::Whole, Left::Lost, Left::Sevens];

fn drawn_between(numbers: &mut Numbers, pages: u64) -> Between {
    match numbers.draw_below(30) {
        0 | 1 => Between::Settings(VARIANTS[numbers.draw_below(4).min(3)]),
        2 => Between::Pages(pages.saturating_add(numbers.draw_below(40) as u64)),
        3 => Between::Crash(LEFT[numbers.draw_below(3).min(2)]),
        _ => Between::Nothing,
    }
}

/// The played state behind it.
pub fn state_behind(
    alloc: Global,
    state: Box<State>,
    between: Between,
) -> Result<Box<State>, AllocError> {
    let changed = match between {
        Between::Nothing => return Ok(state),
        Between::Settings(settings) => with_settings(alloc, &state, settings)?,
        Between::Pages(pages) => with_pages(alloc, &state, pages)?,
        Between::Crash(_) => {
            let mut same = state.copy(alloc)?;
            same.job = None;
            Ok(same)
        }
    };
    match changed {
        Ok(next) => Ok(Box::new(alloc, next)?),
        Err(_) => Ok(state),
    }
}

/// The store behind it, and its disk.
pub fn store_behind(
    alloc: Global,
    mut store: Box<PlainStore>,
    mut disk: Box<MemDisk>,
    between: Between,
) -> Result<(Box<PlainStore>, Box<MemDisk>), Fail> {
    match between {
        Between::Nothing => {}
        Between::Settings(settings) => store.set_settings(&mut *disk, settings)?,
        Between::Pages(pages) => store.grow(&mut *disk, pages)?,
        Between::Crash(left) => {
            let mut left = left_by(alloc, &disk, left)?;
            let again = opened(alloc, &mut left)?;
            return Ok((again, left));
        }
    }
    Ok((store, disk))
}

/// A script over a store of so many pages, with merge slices of so many blocks, and as it is played in merge slices of
/// others. With numbers to draw from, settings and pages change between its lines.
pub fn side_by_side(
    alloc: Global,
    script: &[Request<'_>],
    mut changes: Option<Numbers>,
    pages: u64,
    blocks: u32,
    played: u64,
) -> Result<Compared, Fail> {
    let mut disk = disk_of(alloc, &[])?;
    PlainStore::format(alloc, &mut *disk, BASE, pages)?;
    let mut store = opened(alloc, &mut disk)?;
    let mut state = new_state(alloc, pages)?;
    let mut refused = 0usize;
    for (line, request) in script.iter().enumerate() {
        if let Some(numbers) = &mut changes {
            let between = drawn_between(numbers, state.pages);
            (store, disk) = store_behind(alloc, store, disk, between)?;
            state = state_behind(alloc, state, between)?;
        }
        let answer = answered(alloc, &state, *request)?;
        if !replies_so(alloc, &mut store, &mut disk, *request, &answer.reply)? {
            return Ok(Compared {
                other: Some(line),
                refused,
            });
        }
        let slice = slice_is_refused(&mut store, &mut disk, *request, blocks)?;
        let both = usize::from(slice).saturating_add(usize::from(is_refused(&answer.reply)));
        refused = refused.saturating_add(both);
        state = behind(alloc, played, *request, answer)?;
    }
    let other = (!has_map(alloc, &mut disk, &state)?).then_some(script.len());
    Ok(Compared { other, refused })
}

// Scripts of 400 lines over small devices, the first of which are full at times.
#[test]
fn a_store_in_slices_replies_as_it_is_played_in_them(rt: HostRuntime) -> Result<(), Fail> {
    let alloc = rt.alloc();
    let text = text_of(alloc, 65_536)?;
    let rows = [
        (1, 512, 1, 60_000),
        (2, 512, 8, 60_000),
        (3, 1_024, 2, 20_000),
        (4, 2_048, 1_000, 20_000),
    ];
    for (seed, pages, blocks, longest) in rows {
        let script = drawn(alloc, seed, Lines::All, 400, &text, longest)?;
        let end = side_by_side(alloc, &script, None, pages, blocks, u64::from(blocks))?;
        check_same_at(&rt, &seed, &end.other, &None);
        check_that_at(&rt, &seed, end.refused > 0);
    }
    Ok(())
}

// With settings and pages that change between lines, and crashes.
#[test]
fn a_store_whose_numbers_change_replies_as_it_is_played(rt: HostRuntime) -> Result<(), Fail> {
    let alloc = rt.alloc();
    let text = text_of(alloc, 65_536)?;
    for (seed, blocks, longest) in [(8, 1, 20_000), (9, 8, 60_000), (10, 1_000, 20_000)] {
        let script = drawn(alloc, seed, Lines::All, 150, &text, longest)?;
        let changes = Some(Numbers::new(seed));
        let end = side_by_side(alloc, &script, changes, 512, blocks, u64::from(blocks))?;
        check_same_at(&rt, &seed, &end.other, &None);
    }
    Ok(())
}

// Where nothing is refused, merge slices of any number of blocks give the replies of whole merges, which 1,000 blocks
// are here.
#[test]
fn replies_are_the_same_in_all_slices(rt: HostRuntime) -> Result<(), Fail> {
    let alloc = rt.alloc();
    let text = text_of(alloc, 65_536)?;
    for seed in 5..7 {
        let script = drawn(alloc, seed, Lines::OfTheMap, 300, &text, 20_000)?;
        for blocks in [1, 2, 8, 1_000] {
            let end = side_by_side(alloc, &script, None, 2_048, blocks, 1_000)?;
            let same = Compared {
                other: None,
                refused: 0,
            };
            check_same_at(&rt, &blocks, &end, &same);
        }
    }
    Ok(())
}
