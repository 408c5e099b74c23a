//! Tables of each variant in one version: what is answered of keys and of ranges, and how many blocks are read for it, beside
//! the definitions.
use crate::asserts::{check_same, check_that_at};
use crate::random::{Between, VARIANTS, answered, replies_so, state_behind, store_behind};
use disk_mem::MemDisk;
use plain_filter::PlainFilter;
use plain_store::{Request, State, get_bound, seek_bound};
use std::alloc::{AllocError, Global};
use std::test::Fail;
use test_stores::{BASE, PlainStore, disk_of, new_state, opened};

fn put<'a>(key: &'a [u8], value: &'a [u8]) -> Request<'a> {
    Request::Put { key, value }
}

// What the table of this number is made of. Their stubs are mostly the same, so that it is the suffixes that tell keys apart; the
// third one has a tombstone of a key of the first.
fn script(number: usize) -> [Request<'static>; 4] {
    match number {
        0 => [
            put(b"aa1", b"1"),
            put(b"ab1", b"1"),
            put(b"b", b"1"),
            Request::Flush,
        ],
        1 => [
            put(b"aa2", b"2"),
            put(b"ab2", b"2"),
            put(b"bb1", b"2"),
            Request::Flush,
        ],
        2 => [
            put(b"aa3", b"3"),
            Request::Del { key: b"ab1" },
            put(b"cc1", b"3"),
            Request::Flush,
        ],
        _ => [
            put(b"aa4", b"4"),
            put(b"ab4", b"4"),
            put(b"dd1", b"4"),
            Request::Flush,
        ],
    }
}

// A store on its disk, and as it is played.
#[derive(Drop)]
struct Mixed {
    disk: Box<MemDisk>,
    state: Box<State>,
}

// The played state after these requests, each of which the store answers as it is played.
fn after_all(
    alloc: Global,
    store: &mut PlainStore,
    disk: &mut MemDisk,
    state: Box<State>,
    requests: &[Request<'_>],
) -> Result<Box<State>, Fail> {
    let mut state = state;
    for request in requests {
        let answer = answered(alloc, &state, *request)?;
        if !replies_so(alloc, store, disk, *request, &answer.reply)? {
            return Err(Fail::from("another reply"));
        }
        state = Box::new(alloc, Box::into_inner(answer).state)?;
    }
    Ok(state)
}

// A store of four tables, each of another variant.
fn of_each_variant(alloc: Global) -> Result<Mixed, Fail> {
    let mut disk = disk_of(alloc, &[])?;
    PlainStore::format(alloc, &mut *disk, BASE, 512)?;
    let mut store = opened(alloc, &mut disk)?;
    let mut state = new_state(alloc, 512)?;
    for (number, settings) in VARIANTS.iter().enumerate() {
        let between = Between::Settings(*settings);
        (store, disk) = store_behind(alloc, store, disk, between)?;
        state = state_behind(alloc, state, between)?;
        state = after_all(alloc, &mut store, &mut disk, state, &script(number))?;
    }
    Ok(Mixed { disk, state })
}

// The blocks that may be read for a request.
fn read_bound(alloc: Global, state: &State, request: Request<'_>) -> Result<u64, AllocError> {
    match request {
        Request::Get { key } => get_bound::<PlainFilter>(alloc, state, key),
        Request::Seek { lo, hi: Some(hi) } => seek_bound::<PlainFilter>(alloc, state, lo, hi),
        _ => Ok(0),
    }
}

// Whether a store that is opened anew, and so keeps no block, answers as it is played and reads no more than it may.
fn answers_so(alloc: Global, mixed: &mut Mixed, request: Request<'_>) -> Result<bool, Fail> {
    let answer = answered(alloc, &mixed.state, request)?;
    let most = read_bound(alloc, &mixed.state, request)?;
    let mut store = opened(alloc, &mut mixed.disk)?;
    let reads = mixed.disk.reads();
    let same = replies_so(alloc, &mut store, &mut mixed.disk, request, &answer.reply)?;
    Ok(same && mixed.disk.reads().saturating_sub(reads) <= most)
}

const KEYS: [&[u8]; 12] = [
    b"aa1", b"aa2", b"aa3", b"aa4", b"aa9", b"ab1", b"ab9", b"b", b"bb1", b"bb9", b"cc9", b"e",
];

#[test]
fn keys_are_answered_by_the_settings_of_each_table(rt: HostRuntime) -> Result<(), Fail> {
    let alloc = rt.alloc();
    let mut mixed = of_each_variant(alloc)?;
    check_same(&rt, &mixed.state.tables.len(), &4);
    for key in KEYS {
        check_that_at(
            &rt,
            &key,
            answers_so(alloc, &mut mixed, Request::Get { key })?,
        );
        check_that_at(
            &rt,
            &key,
            answers_so(alloc, &mut mixed, Request::Explain { key })?,
        );
    }
    Ok(())
}

const RANGES: [(&[u8], &[u8]); 10] = [
    (b"a", b"e"),
    (b"aa0", b"aa0"),
    (b"aa2", b"aa3"),
    (b"aa5", b"ab0"),
    (b"aa9", b"aaz"),
    (b"ab1", b"ab1"),
    (b"ab5", b"b"),
    (b"bb2", b"cc0"),
    (b"cc2", b"dc"),
    (b"dd2", b"e"),
];

#[test]
fn ranges_are_answered_by_the_settings_of_each_table(rt: HostRuntime) -> Result<(), Fail> {
    let alloc = rt.alloc();
    let mut mixed = of_each_variant(alloc)?;
    for (lo, hi) in RANGES {
        let seek = Request::Seek { lo, hi: Some(hi) };
        check_that_at(&rt, &hi, answers_so(alloc, &mut mixed, seek)?);
        check_that_at(
            &rt,
            &hi,
            answers_so(alloc, &mut mixed, Request::Estimate { lo, hi })?,
        );
    }
    Ok(())
}
