//! The spelling of plain filters.

use super::filters::{filter_of_words, is_refused, spelled};
use filter_api::RangeFilter;
use plain_filter::PlainFilter;
use std::alloc::Global;
use std::process::Abort;
use std::test::Fail;

// The spelling of a and ab without suffix bits: a leaf that ends, and then one that does not.
const SPELLED: [u8; 35] =
    *b"SURP\x00\x00\x02\x00\x00\x00\x01\x00a\x01\x00\x00\x00\x00\x00\x00\x00\x00\
       \x02\x00ab\x00\x00\x00\x00\x00\x00\x00\x00\x00";

fn check_spelling(
    rt: &impl Abort,
    alloc: Global,
    words: &[&[u8]],
    hash_bits: u8,
    wanted: &[u8],
) -> Result<(), Fail> {
    let filter: PlainFilter = filter_of_words(alloc, words, hash_bits, 0, 64)?;
    let bytes = spelled(alloc, &filter)?;
    assert!(rt; bytes.as_slice() == wanted);
    Ok(())
}

#[test]
fn leaf_lists_are_spelled(rt: HostRuntime) -> Result<(), Fail> {
    let hashed = b"SURP\x08\x00\x01\x00\x00\x00\x01\x00a\x00\x8c\x00\x00\x00\x00\x00\x00\x00";
    check_spelling(&rt, rt.alloc(), &[b"a", b"ab"], 0, &SPELLED)?;
    check_spelling(&rt, rt.alloc(), &[b"a"], 8, hashed)?;
    Ok(())
}

fn check_changed(rt: &impl Abort, alloc: Global, place: usize, byte: u8) {
    let mut other = SPELLED;
    if place < other.len() {
        other[place] = byte;
    }
    assert!(rt; is_refused::<PlainFilter>(alloc, &other, 0, 1));
}

// An end that is neither 0 nor 1, stubs that do not rise, a magic that is another, a byte too few.
#[test]
fn changed_spellings_are_not_read(rt: HostRuntime) {
    check_changed(&rt, rt.alloc(), 13, 2);
    check_changed(&rt, rt.alloc(), 24, b'`');
    check_changed(&rt, rt.alloc(), 3, b'F');
    check_changed(&rt, rt.alloc(), 22, 3);
}

// Where there are 8 real bits, a leaf that ends has none.
#[test]
fn a_leaf_that_ends_has_no_real_bits(rt: HostRuntime) {
    let mut other = SPELLED;
    assert!(rt; PlainFilter::decode(rt.alloc(), &other).is_ok());
    other[5] = 8;
    assert!(rt; PlainFilter::decode(rt.alloc(), &other).is_ok());
    other[18] = 1;
    assert!(rt; is_refused::<PlainFilter>(rt.alloc(), &other, 0, 1));
}

#[test]
fn one_leaf_of_two_bytes_is_not_read(rt: HostRuntime) {
    let lone = *b"SURP\x00\x00\x01\x00\x00\x00\x02\x00ab\x00\x00\x00\x00\x00\x00\x00\x00\x00";
    assert!(rt; is_refused::<PlainFilter>(rt.alloc(), &lone, 0, 1));
}
