//! Cursors over maps.

use super::bodies::{SIX, SIX_PAIRS, read};
use fst_map::{FstCursor, FstMap};
use std::alloc::{AllocError, Global};
use std::process::Abort;
use std::test::Fail;
use test_kit::boxed;

// A cursor at the first key that is not below a bound, if there is one.
pub(crate) fn start<'a>(
    alloc: &'a Global,
    map: &'a FstMap<'_, Global>,
    lo: &[u8],
) -> Result<Option<Box<FstCursor<'a, Global, Global>>>, AllocError> {
    match map.start(alloc, lo)? {
        Some(cursor) => Ok(Some(boxed(*alloc, cursor)?)),
        None => Ok(None),
    }
}

fn check_pair(
    rt: &impl Abort,
    cursor: &FstCursor<'_, Global, Global>,
    pairs: &[(&[u8], &[u8])],
    number: usize,
) {
    match pairs.get(number) {
        Some((key, value)) => {
            assert!(rt; cursor.key() == *key);
            assert!(rt; cursor.value() == *value);
        }
        None => assert!(rt; false),
    }
}

/// From the pair of this number, at which the cursor is, to the last one and back to the first one.
pub(crate) fn check_walk(
    rt: &impl Abort,
    cursor: &mut FstCursor<'_, Global, Global>,
    pairs: &[(&[u8], &[u8])],
    from: usize,
) {
    for number in from..pairs.len() {
        check_pair(rt, cursor, pairs, number);
        assert!(rt; cursor.next() == (number + 1 < pairs.len()));
    }
    for number in (0..pairs.len()).rev() {
        check_pair(rt, cursor, pairs, number);
        assert!(rt; cursor.prev() == (number > 0));
    }
    check_pair(rt, cursor, pairs, 0);
}

/// Bounds, and the number of the first pair whose key is not below.
pub(crate) type Row = (&'static [u8], Option<usize>);

/// Cursors from each of these bounds to both ends.
pub(crate) fn check_starts(
    rt: &impl Abort,
    alloc: Global,
    map: &FstMap<'_, Global>,
    pairs: &[(&[u8], &[u8])],
    rows: &[Row],
) -> Result<(), AllocError> {
    for (lo, wanted) in rows {
        match (start(&alloc, map, *lo)?, *wanted) {
            (Some(mut cursor), Some(number)) => check_walk(rt, &mut cursor, pairs, number),
            (None, None) => {}
            _ => assert!(rt; false),
        }
    }
    Ok(())
}

const ROWS: [Row; 13] = [
    (b"", Some(0)),
    (b"a", Some(0)),
    (b"a\x00", Some(1)),
    (b"ab", Some(1)),
    (b"aba", Some(2)),
    (b"abcd", Some(2)),
    (b"abcde", Some(3)),
    (b"abd", Some(3)),
    (b"b", Some(3)),
    (b"b\xFF\x00", Some(4)),
    (b"c\x00", Some(5)),
    (b"c\x00\x00", None),
    (b"d", None),
];

#[test]
fn cursors_start_where_keys_are_not_below_and_go_to_both_ends(rt: HostRuntime) -> Result<(), Fail> {
    let alloc = rt.alloc();
    let map = read(alloc, &SIX)?;
    check_starts(&rt, alloc, &map, &SIX_PAIRS, &ROWS)?;
    Ok(())
}

// The pair before is the one before, also where the bound goes on from its key.
#[test]
fn a_cursor_goes_back_from_where_it_starts(rt: HostRuntime) -> Result<(), Fail> {
    let alloc = rt.alloc();
    let map = read(alloc, &SIX)?;
    let Some(mut cursor) = start(&alloc, &map, b"abcde")? else {
        return Err(Fail::from("no pair"));
    };
    check_pair(&rt, &cursor, &SIX_PAIRS, 3);
    assert!(rt; cursor.prev());
    check_pair(&rt, &cursor, &SIX_PAIRS, 2);
    Ok(())
}
