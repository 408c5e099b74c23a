//! Keys that go on from others by FF, and the longest key beside one that is a byte shorter.

use super::bodies::read;
use super::building::{builder_of, finished};
use super::cursors::{Row, check_starts};
use fst_map::FstMap;
use key_base::compare;
use std::alloc::Global;
use std::process::Abort;
use std::test::Fail;

type Pair = (&'static [u8], &'static [u8]);

/// From one bound to another: how many keys.
type Count = (&'static [u8], &'static [u8], u32);

fn check_values(rt: &impl Abort, map: &FstMap<'_, Global>, pairs: &[Pair]) {
    for (key, value) in pairs {
        assert!(rt; map.get(*key) == Some(*value));
    }
}

fn check_absent(rt: &impl Abort, map: &FstMap<'_, Global>, keys: &[&'static [u8]]) {
    for key in keys {
        assert!(rt; map.get(*key).is_none());
    }
}

fn check_counts(rt: &impl Abort, map: &FstMap<'_, Global>, counts: &[Count]) {
    for (lo, hi, count) in counts {
        if compare(*hi, *lo).is_lt() {
            assert!(rt; false);
        } else {
            assert!(rt; map.count(*lo, *hi) == *count);
        }
    }
}

const A_BY_FF: [Pair; 3] = [(b"a", &[1]), (b"a\xFF", &[2]), (b"a\xFF\xFF", &[3])];

const BESIDE_A_BY_FF: [&[u8]; 5] = [b"", b"a\x00", b"a\xFE", b"a\xFF\xFE", b"a\xFF\xFF\xFF"];

const COUNTS_OF_A_BY_FF: [Count; 6] = [
    (b"", b"\xFF", 3),
    (b"a\x00", b"b", 2),
    (b"a\xFF", b"a\xFF", 1),
    (b"a\xFF\x00", b"a\xFF\xFE", 0),
    (b"a\xFF\x00", b"a\xFF\xFF", 1),
    (b"a\xFF\xFF\x00", b"b", 0),
];

const STARTS_OF_A_BY_FF: [Row; 6] = [
    (b"", Some(0)),
    (b"a\x00", Some(1)),
    (b"a\xFF", Some(1)),
    (b"a\xFF\x00", Some(2)),
    (b"a\xFF\xFF", Some(2)),
    (b"a\xFF\xFF\x00", None),
];

#[test]
fn keys_that_go_on_by_ff(rt: HostRuntime) -> Result<(), Fail> {
    let alloc = rt.alloc();
    let builder = builder_of(alloc, &A_BY_FF)?;
    for ratio in [0, 64] {
        let body = finished(alloc, &builder, ratio)?;
        let map = read(alloc, body.as_slice())?;
        check_values(&rt, &map, &A_BY_FF);
        check_absent(&rt, &map, &BESIDE_A_BY_FF);
        check_counts(&rt, &map, &COUNTS_OF_A_BY_FF);
        check_starts(&rt, alloc, &map, &A_BY_FF, &STARTS_OF_A_BY_FF)?;
    }
    Ok(())
}

const FF_ALONE: [Pair; 2] = [(b"\xFF", &[4]), (b"\xFF\xFF", b"")];

const BESIDE_FF: [&[u8]; 4] = [b"", b"\xFE", b"\xFF\xFE", b"\xFF\xFF\xFF"];

const COUNTS_OF_FF: [Count; 5] = [
    (b"", b"\xFE\xFF", 0),
    (b"", b"\xFF", 1),
    (b"\xFF", b"\xFF\xFF", 2),
    (b"\xFF\x00", b"\xFF\xFF\xFF", 1),
    (b"\xFF\xFF\x00", b"\xFF\xFF\xFF", 0),
];

const STARTS_OF_FF: [Row; 4] = [
    (b"\xFE", Some(0)),
    (b"\xFF\x00", Some(1)),
    (b"\xFF\xFF", Some(1)),
    (b"\xFF\xFF\xFF", None),
];

#[test]
fn keys_of_ff_alone(rt: HostRuntime) -> Result<(), Fail> {
    let alloc = rt.alloc();
    let builder = builder_of(alloc, &FF_ALONE)?;
    for ratio in [0, 64] {
        let body = finished(alloc, &builder, ratio)?;
        let map = read(alloc, body.as_slice())?;
        check_values(&rt, &map, &FF_ALONE);
        check_absent(&rt, &map, &BESIDE_FF);
        check_counts(&rt, &map, &COUNTS_OF_FF);
        check_starts(&rt, alloc, &map, &FF_ALONE, &STARTS_OF_FF)?;
    }
    Ok(())
}

// As many bytes as a key has at most, and one less.
const LONGEST: [u8; 1_024] = [7; 1_024];

const ONE_LESS: [u8; 1_023] = [7; 1_023];

const LONG_PAIRS: [Pair; 2] = [(&ONE_LESS, &[1]), (&LONGEST, &[2, 2])];

const TWO_LESS: [u8; 1_022] = [7; 1_022];

const ONE_MORE: [u8; 1_025] = [7; 1_025];

const COUNTS_OF_LONG: [Count; 4] = [
    (&TWO_LESS, &ONE_LESS, 1),
    (&ONE_LESS, &LONGEST, 2),
    (&LONGEST, &ONE_MORE, 1),
    (&ONE_MORE, b"\x08", 0),
];

const STARTS_OF_LONG: [Row; 4] = [
    (&TWO_LESS, Some(0)),
    (&ONE_LESS, Some(0)),
    (&LONGEST, Some(1)),
    (&ONE_MORE, None),
];

#[test]
fn the_longest_key_beside_its_beginning(rt: HostRuntime) -> Result<(), Fail> {
    let alloc = rt.alloc();
    let builder = builder_of(alloc, &LONG_PAIRS)?;
    let body = finished(alloc, &builder, 64)?;
    let map = read(alloc, body.as_slice())?;
    check_values(&rt, &map, &LONG_PAIRS);
    check_absent(&rt, &map, &[&TWO_LESS, &ONE_MORE]);
    check_counts(&rt, &map, &COUNTS_OF_LONG);
    check_starts(&rt, alloc, &map, &LONG_PAIRS, &STARTS_OF_LONG)?;
    Ok(())
}
