//! Ranges whose joins, parts and covered keys are known. A range is written as its bounds, a byte each: `a-c `.
use crate::Ranges;
use crate::range::comes_before;
use std::alloc::{AllocError, Global};
use std::process::Abort;
use std::test::Fail;

// The ranges of a text, added one after the other.
fn ranges_of(rt: &impl Abort, alloc: Global, text: &[u8]) -> Result<Ranges, Fail> {
    let mut ranges = Ranges::new(alloc);
    for i in 0..text.len() / 4 {
        let lo = &text[4 * i..4 * i + 1];
        let hi = &text[4 * i + 2..4 * i + 3];
        assert!(rt; comes_before(lo, hi));
        let range = ranges.reserve_for(lo, hi)?;
        ranges.add(range);
    }
    Ok(ranges)
}

// The text of ranges.
fn text_of(alloc: Global, ranges: &Ranges) -> Result<Vec<u8>, AllocError> {
    let mut text = Vec::new(alloc);
    for i in 0..ranges.len() {
        let (lo, hi) = ranges.get(i);
        text.extend_from_slice(lo)?;
        text.push(b'-')?;
        text.extend_from_slice(hi)?;
        text.push(b' ')?;
    }
    Ok(text)
}

#[test]
fn added_ranges_join_what_they_meet_or_touch(rt: HostRuntime) -> Result<(), Fail> {
    let rows: [(&[u8], &[u8]); 9] = [
        (b"", b""),
        (b"a-c c-e ", b"a-e "),
        (b"c-e a-c ", b"a-e "),
        (b"d-e a-c ", b"a-c d-e "),
        (b"a-b e-f c-d ", b"a-b c-d e-f "),
        (b"a-b c-d e-f b-e ", b"a-f "),
        (b"b-c a-d ", b"a-d "),
        (b"a-d b-c ", b"a-d "),
        (b"a-c e-g i-k d-h ", b"a-c d-h i-k "),
    ];
    for (added, want) in rows {
        let ranges = ranges_of(&rt, rt.alloc(), added)?;
        assert_eq!(rt; text_of(rt.alloc(), &ranges)?.as_slice(), want);
        assert_eq!(rt; ranges.is_empty(), want.is_empty());
    }
    Ok(())
}

#[test]
fn a_key_lies_within_from_the_lower_bound_on_and_below_the_upper(
    rt: HostRuntime,
) -> Result<(), Fail> {
    let mut ranges = ranges_of(&rt, rt.alloc(), b"b-d f-h ")?;
    let rows: [(&[u8], bool); 11] = [
        (b"", false),
        (b"a", false),
        (b"az", false),
        (b"b", true),
        (b"c", true),
        (b"cz", true),
        (b"d", false),
        (b"e", false),
        (b"f", true),
        (b"g\xff", true),
        (b"h", false),
    ];
    for (key, want) in rows {
        assert_eq!(rt; ranges.covers(key), want);
    }
    ranges.clear();
    assert!(rt; !ranges.covers(b"c") && ranges.is_empty());
    Ok(())
}

#[test]
fn a_cut_divides_the_range_around_it(rt: HostRuntime) -> Result<(), Fail> {
    let rows: [(&[u8], &[u8], &[u8]); 6] = [
        (b"a", b"", b"a-c e-g "),
        (b"b", b"a-b ", b"b-c e-g "),
        (b"c", b"a-c ", b"e-g "),
        (b"d", b"a-c ", b"e-g "),
        (b"f", b"a-c e-f ", b"f-g "),
        (b"g", b"a-c e-g ", b""),
    ];
    let ranges = ranges_of(&rt, rt.alloc(), b"a-c e-g ")?;
    for (at, want_below, want_from) in rows {
        assert!(rt; at.len() == 1);
        let (below, from) = ranges.cut(at)?;
        assert_eq!(rt; text_of(rt.alloc(), &below)?.as_slice(), want_below);
        assert_eq!(rt; text_of(rt.alloc(), &from)?.as_slice(), want_from);
    }
    Ok(())
}

#[test]
fn ranges_of_two_lists_join(rt: HostRuntime) -> Result<(), Fail> {
    let rows: [(&[u8], &[u8], &[u8]); 4] = [
        (b"a-c e-g ", b"", b"a-c e-g "),
        (b"", b"a-c e-g ", b"a-c e-g "),
        (b"a-c e-g ", b"c-e i-k ", b"a-g i-k "),
        (b"b-d f-h ", b"a-c e-g ", b"a-d e-h "),
    ];
    for (one, other, want) in rows {
        let mut ranges = ranges_of(&rt, rt.alloc(), one)?;
        ranges.join(&ranges_of(&rt, rt.alloc(), other)?)?;
        assert_eq!(rt; text_of(rt.alloc(), &ranges)?.as_slice(), want);
    }
    Ok(())
}
