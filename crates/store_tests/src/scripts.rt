//! Scripts and their replies.
use crate::asserts::{check_same, check_that};
use plain_store::{Played, Reply, Request, Table};
use std::alloc::{AllocError, Global};
use std::test::Fail;
use test_stores::{new_state, played};

// What is played over a new store of 512 pages.
fn begun(alloc: Global, requests: &[Request<'_>]) -> Result<Box<Played>, AllocError> {
    let state = new_state(alloc, 512)?;
    played(alloc, &state, requests)
}

fn put<'a>(key: &'a [u8], value: &'a [u8]) -> Request<'a> {
    Request::Put { key, value }
}

fn get(key: &[u8]) -> Request<'_> {
    Request::Get { key }
}

fn explain(key: &[u8]) -> Request<'_> {
    Request::Explain { key }
}

fn all_done(replies: &[Reply]) -> bool {
    for reply in replies {
        if !matches!(reply, Reply::Done) {
            return false;
        }
    }
    true
}

fn is_explained(reply: &Reply, tables: u64, admitted: u64, blocks: u64) -> bool {
    match reply {
        Reply::Explained {
            tables: t,
            admitted: a,
            blocks: b,
        } => *t == tables && *a == admitted && *b == blocks,
        _ => false,
    }
}

#[test]
fn a_tombstone_hides_and_a_compaction_drops_it(rt: HostRuntime) -> Result<(), Fail> {
    let script = [
        put(b"a", b"b"),
        Request::Flush,
        Request::Del { key: b"a" },
        Request::Flush,
        get(b"a"),
        Request::Compact,
        get(b"a"),
        explain(b"a"),
    ];
    let end = begun(rt.alloc(), &script)?;
    assert_eq!(rt; end.replies.len(), 8);
    check_that(&rt, all_done(&end.replies[..4]));
    check_that(&rt, matches!(end.replies[4], Reply::Missing));
    check_that(&rt, matches!(end.replies[5], Reply::Done));
    check_that(&rt, matches!(end.replies[6], Reply::Missing));
    check_that(&rt, is_explained(&end.replies[7], 0, 0, 0));
    Ok(())
}

#[test]
fn what_one_table_says_of_keys(rt: HostRuntime) -> Result<(), Fail> {
    let (lo, hi) = (b"aa5".as_slice(), b"ab0".as_slice());
    let script = [
        put(b"aa1", b"\x01"),
        put(b"ab1", b"\x02"),
        Request::Flush,
        Request::Count { lo, hi },
        Request::Estimate { lo, hi },
        explain(b"aa9"),
        explain(b"aa0"),
        explain(b"ac0"),
        get(b"aa9"),
    ];
    let end = begun(rt.alloc(), &script)?;
    assert_eq!(rt; end.replies.len(), 9);
    check_that(&rt, all_done(&end.replies[..3]));
    check_that(&rt, matches!(end.replies[3], Reply::Counted(0)));
    check_that(&rt, matches!(end.replies[4], Reply::About(2)));
    check_that(&rt, is_explained(&end.replies[5], 1, 1, 1));
    check_that(&rt, is_explained(&end.replies[6], 1, 1, 0));
    check_that(&rt, is_explained(&end.replies[7], 1, 0, 0));
    check_that(&rt, matches!(end.replies[8], Reply::Missing));
    Ok(())
}

fn stands_at(table: &Table, level: u8, first_page: u64, entries: usize) -> bool {
    table.level == level
        && table.first_page == first_page
        && table.pages == 3
        && table.blocks == 1
        && table.entries.len() == entries
}

#[test]
fn four_tables_become_one(rt: HostRuntime) -> Result<(), Fail> {
    let script = [
        put(b"a", b"\x01"),
        Request::Flush,
        put(b"b", b"\x01"),
        Request::Flush,
        put(b"c", b"\x01"),
        Request::Flush,
        put(b"d", b"\x01"),
        Request::Flush,
        put(b"e", b"\x01"),
    ];
    let before = begun(rt.alloc(), &script[..8])?;
    let tables = before.state.tables.as_slice();
    assert_eq!(rt; tables.len(), 4);
    for i in 0..4 {
        let table = &tables[i];
        check_that(&rt, stands_at(table, 0, 201 - 3 * i as u64, 1));
    }
    let end = begun(rt.alloc(), &script)?;
    check_that(&rt, all_done(end.replies.as_slice()));
    let tables = end.state.tables.as_slice();
    assert_eq!(rt; tables.len(), 1);
    let table = &tables[0];
    check_that(&rt, stands_at(table, 1, 204, 4));
    check_same(&rt, &end.state.epoch, &6);
    Ok(())
}

#[test]
fn nothing_is_flushed_at_the_last_epoch(rt: HostRuntime) -> Result<(), Fail> {
    let mut state = new_state(rt.alloc(), 512)?;
    state.epoch = u64::MAX;
    let script = [put(b"a", b"b"), Request::Flush, get(b"a"), Request::Compact];
    let end = played(rt.alloc(), &state, &script)?;
    assert_eq!(rt; end.replies.len(), 4);
    check_that(&rt, matches!(end.replies[0], Reply::Done));
    check_that(&rt, matches!(end.replies[1], Reply::LastEpoch));
    check_that(&rt, matches!(end.replies[2], Reply::Value(_)));
    check_that(&rt, matches!(end.replies[3], Reply::LastEpoch));
    Ok(())
}
