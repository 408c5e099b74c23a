//! Cursors over tries, against the keys that they were built of.

use filter_iter::{FilterCursor, least_of};
use filter_trie::{Trie, Walk};
use key_base::{KeyList, MAX_KEY_BYTES};
use key_truncate::Stub;
use std::alloc::Global;
use std::process::Abort;
use std::test::Fail;

/// A cursor at the first leaf that is not past a bound, where there is one.
pub(crate) fn start_at<'a>(
    alloc: &'a Global,
    trie: &'a Trie<Global>,
    lo: &[u8],
) -> Result<FilterCursor<'a, Global, Global>, Fail> {
    match FilterCursor::start(alloc, trie, lo)? {
        Some(cursor) => Ok(cursor),
        None => Err(Fail::from("no leaf")),
    }
}

/// Whether the cursor says the least string that its trie says of the leaf where it stands.
pub(crate) fn says_least(
    alloc: Global,
    cursor: &FilterCursor<'_, Global, Global>,
    trie: &Trie<Global>,
) -> Result<bool, Fail> {
    let mut least = Vec::new(alloc);
    cursor.least(&mut least)?;
    is_least(alloc, trie, cursor.leaf(), least.as_slice())
}

/// Whether this is the least string of leaf `n`.
pub(crate) fn is_least(
    alloc: Global,
    trie: &Trie<Global>,
    n: u32,
    wanted: &[u8],
) -> Result<bool, Fail> {
    let mut least = Vec::new(alloc);
    if n < trie.leaves() {
        least_of(trie, n, &mut least)?;
    }
    Ok(least.as_slice() == wanted)
}

// Whether the cursor stands at leaf `n`, that of the key with this number.
fn is_at(
    cursor: &FilterCursor<'_, Global, Global>,
    trie: &Trie<Global>,
    n: usize,
    key: &[u8],
    stub: Stub,
) -> bool {
    let mut written = [0; MAX_KEY_BYTES];
    let count = cursor.stub(&mut written);
    cursor.leaf() as usize == n
        && trie.walk(key) == Walk::Leaf(cursor.slot())
        && written.get(..count) == key.get(..usize::from(stub.len))
}

// It stands at the leaf of the key with this number.
fn check_at(
    rt: &impl Abort,
    cursor: &FilterCursor<'_, Global, Global>,
    trie: &Trie<Global>,
    keys: &KeyList,
    stubs: &[Stub],
    n: usize,
) {
    assert!(rt; n < keys.len() && n < stubs.len());
    assert!(rt; is_at(cursor, trie, n, keys.get(n), stubs[n]));
}

/// Goes on to the last leaf, from the one of the key with this number.
pub(crate) fn go_on(
    rt: &impl Abort,
    cursor: &mut FilterCursor<'_, Global, Global>,
    trie: &Trie<Global>,
    keys: &KeyList,
    stubs: &[Stub],
    from: usize,
) {
    for n in from..keys.len() {
        check_at(rt, cursor, trie, keys, stubs, n);
        assert!(rt; cursor.next() == (n + 1 < keys.len()));
    }
}

/// Goes back to the first leaf.
pub(crate) fn go_back(
    rt: &impl Abort,
    cursor: &mut FilterCursor<'_, Global, Global>,
    trie: &Trie<Global>,
    keys: &KeyList,
    stubs: &[Stub],
) {
    for n in (0..keys.len()).rev() {
        check_at(rt, cursor, trie, keys, stubs, n);
        assert!(rt; cursor.prev() == (n > 0));
    }
}

/// Goes on: whether there is a further leaf, and which one the cursor is at then.
pub(crate) fn check_next(
    rt: &impl Abort,
    cursor: &mut FilterCursor<'_, Global, Global>,
    moved: bool,
    leaf: u32,
) {
    assert!(rt; cursor.next() == moved);
    assert!(rt; cursor.leaf() == leaf);
}

/// Goes back: whether there is a leaf before, and which one the cursor is at then.
pub(crate) fn check_prev(
    rt: &impl Abort,
    cursor: &mut FilterCursor<'_, Global, Global>,
    moved: bool,
    leaf: u32,
) {
    assert!(rt; cursor.prev() == moved);
    assert!(rt; cursor.leaf() == leaf);
}
