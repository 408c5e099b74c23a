//! Merges in merge slices, compared with whole ones.
use crate::asserts::{check_same, check_that};
use plain_filter::PlainFilter;
use plain_store::{Played, Reply, Request, State, play_in_slices, sliced};
use std::alloc::{AllocError, Global};
use std::test::Fail;
use test_stores::{new_state, played};

fn put(key: &[u8]) -> Request<'_> {
    Request::Put { key, value: b"v" }
}

fn get(key: &[u8]) -> Request<'_> {
    Request::Get { key }
}

// Four tables in level 0, of one block each.
fn four_tables(alloc: Global) -> Result<Box<Played>, AllocError> {
    let script = [
        put(b"a"),
        Request::Flush,
        put(b"b"),
        Request::Flush,
        put(b"c"),
        Request::Flush,
        Request::Del { key: b"a" },
        Request::Flush,
    ];
    let state = new_state(alloc, 512)?;
    played(alloc, &state, &script)
}

// The same with a merge slice behind each put and del.
fn in_slices(
    alloc: Global,
    blocks: u64,
    state: &State,
    requests: &[Request<'_>],
) -> Result<Box<Played>, AllocError> {
    let end = play_in_slices::<PlainFilter>(alloc, blocks, state, requests)?;
    Ok(Box::new(alloc, end)?)
}

fn same_reply(one: &Reply, other: &Reply) -> bool {
    match (one, other) {
        (Reply::Done, Reply::Done) => true,
        (Reply::Missing, Reply::Missing) => true,
        (Reply::Value(value), Reply::Value(other)) => value.as_slice() == other.as_slice(),
        (Reply::Counted(count), Reply::Counted(other)) => count == other,
        _ => false,
    }
}

fn same_replies(one: &Played, other: &Played) -> bool {
    if one.replies.len() != other.replies.len() {
        return false;
    }
    for i in 0..one.replies.len() {
        if !same_reply(&one.replies[i], &other.replies[i]) {
            return false;
        }
    }
    true
}

#[test]
fn slices_answer_as_a_whole_merge_does(rt: HostRuntime) -> Result<(), Fail> {
    let alloc = rt.alloc();
    let four = four_tables(alloc)?;
    let script = [
        put(b"d"),
        get(b"a"),
        get(b"b"),
        put(b"b"),
        Request::Flush,
        put(b"e"),
        put(b"f"),
        put(b"g"),
        put(b"h"),
        get(b"a"),
        get(b"c"),
        Request::Count { lo: b"", hi: b"z" },
        Request::Compact,
        Request::Count { lo: b"", hi: b"z" },
    ];
    let whole = played(alloc, &four.state, &script)?;
    assert!(rt; whole.replies.len() > 11);
    check_that(&rt, matches!(whole.replies[11], Reply::Counted(7)));
    for blocks in 1..5 {
        let slices = in_slices(alloc, blocks, &four.state, &script)?;
        check_that(&rt, same_replies(&whole, &slices));
    }
    Ok(())
}

// The state behind a merge slice.
fn sliced_once(alloc: Global, blocks: u64, state: &State) -> Result<Box<State>, AllocError> {
    Ok(Box::new(alloc, sliced::<PlainFilter>(alloc, blocks, state)?)?)
}

// How many merge slices there are until no job runs, at most ten.
fn slices_of(alloc: Global, blocks: u64, state: &State) -> Result<usize, AllocError> {
    let mut state = sliced_once(alloc, blocks, state)?;
    for count in 1..10 {
        if state.job.is_none() {
            return Ok(count);
        }
        state = sliced_once(alloc, blocks, &state)?;
    }
    Ok(10)
}

#[test]
fn four_blocks_and_one_output_take_five_slices_at_most(rt: HostRuntime) -> Result<(), Fail> {
    let alloc = rt.alloc();
    let four = four_tables(alloc)?;
    check_same(&rt, &slices_of(alloc, 1, &four.state)?, &5);
    check_same(&rt, &slices_of(alloc, 3, &four.state)?, &3);
    check_same(&rt, &slices_of(alloc, 9, &four.state)?, &2);
    Ok(())
}
