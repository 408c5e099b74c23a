//! Ranges and cursors over tries of whole keys, in which a leaf may be alone.

use super::codec::read_whole;
use super::cursors::{check_next, check_prev, is_least, start_at};
use super::images::{SPARSE, changed};
use super::whole_images::ZEBRA;
use filter_iter::{FilterCursor, range, seek, tally};
use filter_trie::Trie;
use key_base::MAX_KEY_BYTES;
use std::alloc::Global;
use std::process::Abort;
use std::test::Fail;

// The cursor is at a leaf of this number and slot, whose stub is a key.
fn check_at(
    rt: &impl Abort,
    cursor: &FilterCursor<'_, Global, Global>,
    leaf: u32,
    slot: u64,
    key: &[u8],
) {
    let mut written = [0; MAX_KEY_BYTES];
    let count = cursor.stub(&mut written);
    assert!(rt; cursor.leaf() == leaf);
    assert!(rt; cursor.slot() == slot);
    assert!(rt; written.get(..count) == key.get(..));
}

// ---- zebra alone

fn check_zebra(rt: &impl Abort, trie: &Trie<Global>) {
    assert!(rt; seek(trie, b"") == Some(0));
    assert!(rt; seek(trie, b"zebra") == Some(0));
    // it may stand for a key that goes on
    assert!(rt; seek(trie, b"zebra\xFF") == Some(0));
    assert!(rt; seek(trie, b"zebrb").is_none());
    assert!(rt; tally(trie, b"zeb", b"zebra") == 1);
    assert!(rt; tally(trie, b"a", b"zebr") == 0);
    assert!(rt; range(trie, b"zebra", b"zebra"));
    assert!(rt; !range(trie, b"zebrb", b"zz"));
}

fn check_zebra_walk(rt: &impl Abort, alloc: Global, trie: &Trie<Global>) -> Result<(), Fail> {
    let mut cursor = start_at(&alloc, trie, b"z")?;
    check_at(rt, &cursor, 0, 0, b"zebra");
    check_next(rt, &mut cursor, false, 0);
    check_prev(rt, &mut cursor, false, 0);
    assert!(rt; FilterCursor::start(&alloc, trie, b"zebrb")?.is_none());
    assert!(rt; is_least(alloc, trie, 0, b"zebra")?);
    Ok(())
}

#[test]
fn ranges_of_zebra_alone(rt: HostRuntime) -> Result<(), Fail> {
    let trie = read_whole(rt.alloc(), &ZEBRA)?;
    check_zebra(&rt, &trie);
    check_zebra_walk(&rt, rt.alloc(), &trie)
}

// ---- z and ab: z has slot 0, and ab is the first in key order

fn check_ab_and_z(rt: &impl Abort, trie: &Trie<Global>) {
    assert!(rt; seek(trie, b"a") == Some(0));
    assert!(rt; seek(trie, b"ab") == Some(0));
    assert!(rt; seek(trie, b"ac") == Some(1));
    assert!(rt; seek(trie, b"{").is_none());
    assert!(rt; tally(trie, b"", b"zz") == 2);
    assert!(rt; tally(trie, b"a", b"ab") == 1);
    assert!(rt; tally(trie, b"ac", b"y") == 0);
    assert!(rt; range(trie, b"aa", b"ab"));
    assert!(rt; !range(trie, b"ac", b"y"));
}

fn check_ab_and_z_walk(rt: &impl Abort, alloc: Global, trie: &Trie<Global>) -> Result<(), Fail> {
    let mut cursor = start_at(&alloc, trie, b"ac")?;
    check_at(rt, &cursor, 1, 0, b"z");
    check_next(rt, &mut cursor, false, 1);
    check_prev(rt, &mut cursor, true, 0);
    check_at(rt, &cursor, 0, 1, b"ab");
    check_prev(rt, &mut cursor, false, 0);
    check_next(rt, &mut cursor, true, 1);
    check_at(rt, &cursor, 1, 0, b"z");
    assert!(rt; is_least(alloc, trie, 0, b"ab")?);
    Ok(())
}

#[test]
fn ranges_of_ab_and_z(rt: HostRuntime) -> Result<(), Fail> {
    let image = changed(rt.alloc(), &SPARSE, &[(41, 0x7A), (44, 5)])?;
    let trie = read_whole(rt.alloc(), image.as_slice())?;
    check_ab_and_z(&rt, &trie);
    check_ab_and_z_walk(&rt, rt.alloc(), &trie)
}
