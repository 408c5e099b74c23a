//! Ranges of a few words, at every cutoff.

use super::cursors::{check_next, check_prev, is_least, start_at};
use super::keys::list_of_words;
use super::tries::trie_with;
use filter_iter::{FilterCursor, range, seek, tally};
use filter_trie::Trie;
use key_base::KeyList;
use std::alloc::{AllocError, Global};
use std::process::Abort;
use std::test::Fail;

// More levels than a trie of the words has.
const LEVELS: u16 = 5;

fn far_to_toy(alloc: Global) -> Result<KeyList, AllocError> {
    list_of_words(alloc, &[b"far", b"fast", b"s", b"top", b"toy"])
}

fn check_range(rt: &impl Abort, trie: &Trie<Global>, lo: &[u8], hi: &[u8], wanted: bool) {
    assert!(rt; range(trie, lo, hi) == wanted);
}

fn check_seek(rt: &impl Abort, trie: &Trie<Global>, lo: &[u8], wanted: u32) {
    assert!(rt; seek(trie, lo) == Some(wanted));
}

fn check_past(rt: &impl Abort, trie: &Trie<Global>, lo: &[u8]) {
    assert!(rt; seek(trie, lo).is_none());
}

fn check_tally(rt: &impl Abort, trie: &Trie<Global>, lo: &[u8], hi: &[u8], wanted: u32) {
    assert!(rt; tally(trie, lo, hi) == wanted);
}

fn check_least(
    rt: &impl Abort,
    alloc: Global,
    trie: &Trie<Global>,
    n: u32,
    wanted: &[u8],
) -> Result<(), Fail> {
    assert!(rt; is_least(alloc, trie, n, wanted)?);
    Ok(())
}

// ---- far to toy

fn check_far_to_toy(rt: &impl Abort, trie: &Trie<Global>) {
    check_range(rt, trie, b"fat", b"r", false);
    check_range(rt, trie, b"fat", b"s", true);
    check_range(rt, trie, b"fasa", b"fass", true);
    check_seek(rt, trie, b"fat", 2);
    check_seek(rt, trie, b"", 0);
    check_past(rt, trie, b"u");
    check_tally(rt, trie, b"fas", b"tor", 3);
    check_tally(rt, trie, b"", b"u", 5);
}

#[test]
fn ranges_of_far_to_toy(rt: HostRuntime) -> Result<(), Fail> {
    let keys = far_to_toy(rt.alloc())?;
    for cutoff in 0..LEVELS {
        if let Some(trie) = trie_with(rt.alloc(), &keys, 8, 0, cutoff)? {
            check_far_to_toy(&rt, &trie);
            check_least(&rt, rt.alloc(), &trie, 1, b"fas")?;
        }
    }
    Ok(())
}

fn go_to_the_first(rt: &impl Abort, cursor: &mut FilterCursor<'_, Global, Global>) {
    assert!(rt; cursor.leaf() == 2);
    assert!(rt; cursor.slot() == 0);
    check_prev(rt, cursor, true, 1);
    check_next(rt, cursor, true, 2);
    check_prev(rt, cursor, true, 1);
    check_prev(rt, cursor, true, 0);
    check_prev(rt, cursor, false, 0);
}

fn check_back(rt: &impl Abort, alloc: Global, trie: &Trie<Global>) -> Result<(), Fail> {
    let mut cursor = start_at(&alloc, trie, b"fat")?;
    go_to_the_first(rt, &mut cursor);
    Ok(())
}

fn check_last(rt: &impl Abort, alloc: Global, trie: &Trie<Global>) -> Result<(), Fail> {
    let mut cursor = start_at(&alloc, trie, b"toy")?;
    check_next(rt, &mut cursor, false, 4);
    assert!(rt; FilterCursor::start(&alloc, trie, b"u")?.is_none());
    Ok(())
}

#[test]
fn a_cursor_stays_at_its_ends(rt: HostRuntime) -> Result<(), Fail> {
    let keys = far_to_toy(rt.alloc())?;
    for cutoff in 0..LEVELS {
        if let Some(trie) = trie_with(rt.alloc(), &keys, 8, 0, cutoff)? {
            check_ends(&rt, rt.alloc(), &trie)?;
        }
    }
    Ok(())
}

fn check_ends(rt: &impl Abort, alloc: Global, trie: &Trie<Global>) -> Result<(), Fail> {
    check_back(rt, alloc, trie)?;
    check_last(rt, alloc, trie)
}

// ---- real bits

fn check_real(rt: &impl Abort, trie: &Trie<Global>) {
    check_range(rt, trie, b"fasa", b"fass", false);
    check_range(rt, trie, b"fasa", b"fast", true);
    check_seek(rt, trie, b"fast", 1);
    check_seek(rt, trie, b"fasu", 2);
}

#[test]
fn real_bits_keep_out(rt: HostRuntime) -> Result<(), Fail> {
    let keys = far_to_toy(rt.alloc())?;
    for cutoff in 0..LEVELS {
        if let Some(trie) = trie_with(rt.alloc(), &keys, 0, 8, cutoff)? {
            check_real(&rt, &trie);
            check_least(&rt, rt.alloc(), &trie, 1, b"fast")?;
        }
    }
    Ok(())
}

// ---- other words

#[test]
fn two_leaves_may_hold_keys_of_a_range_that_holds_none(rt: HostRuntime) -> Result<(), Fail> {
    let keys = list_of_words(rt.alloc(), &[b"aa1", b"ab1"])?;
    for cutoff in 0..LEVELS {
        if let Some(trie) = trie_with(rt.alloc(), &keys, 0, 0, cutoff)? {
            check_tally(&rt, &trie, b"aa5", b"ab0", 2);
        }
    }
    Ok(())
}

fn check_zebra(rt: &impl Abort, trie: &Trie<Global>) {
    check_range(rt, trie, b"zoo", b"zoo", true);
    check_range(rt, trie, b"x", b"y", false);
    check_seek(rt, trie, b"y", 0);
    check_past(rt, trie, b"{");
}

#[test]
fn zebra_alone(rt: HostRuntime) -> Result<(), Fail> {
    let keys = list_of_words(rt.alloc(), &[b"zebra"])?;
    for cutoff in 0..LEVELS {
        if let Some(trie) = trie_with(rt.alloc(), &keys, 0, 0, cutoff)? {
            check_zebra(&rt, &trie);
        }
    }
    Ok(())
}

fn check_beginnings(rt: &impl Abort, trie: &Trie<Global>) {
    check_seek(rt, trie, b"a", 0);
    check_seek(rt, trie, b"a\0", 1);
    check_seek(rt, trie, b"ab", 1);
    check_seek(rt, trie, b"abb", 2);
    check_tally(rt, trie, b"a", b"ab", 2);
    check_range(rt, trie, b"a\0", b"aa", false);
}

#[test]
fn keys_that_begin_others(rt: HostRuntime) -> Result<(), Fail> {
    let keys = list_of_words(rt.alloc(), &[b"a", b"ab", b"abc", b"b"])?;
    for cutoff in 0..LEVELS {
        if let Some(trie) = trie_with(rt.alloc(), &keys, 0, 8, cutoff)? {
            check_beginnings(&rt, &trie);
        }
    }
    Ok(())
}
