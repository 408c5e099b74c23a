//! Images of a and ab, whole and with bytes changed: what is read of them, or the first rule that they break.

use super::codec::{check_image, fault_of, read};
use super::judge::Kind;
use filter_api::FilterFault;
use filter_trie::{Trie, Walk};
use std::alloc::{AllocError, Global};
use std::process::Abort;
use std::test::Fail;

/// The image with no suffixes, all levels sparse.
pub(crate) const SPARSE: [u8; 45] = [
    0x53, 0x55, 0x52, 0x46, 1, 0, 0, 0, 0, 0, 2, 0, 2, 0, 0, 0, 0, 0, 0, 0, 0, 0, 0, 0, 2, 0, 0, 0,
    0, 0, 0, 0, 3, 0, 0, 0, 0, 0, 0, 0, 0x61, 0xFF, 0x62, 1, 3,
];

/// The same with 8 real bits a leaf.
pub(crate) const WITH_REAL: [u8; 47] = [
    0x53, 0x55, 0x52, 0x46, 1, 0, 8, 0, 0, 0, 2, 0, 2, 0, 0, 0, 0, 0, 0, 0, 0, 0, 0, 0, 2, 0, 0, 0,
    0, 0, 0, 0, 3, 0, 0, 0, 0, 0, 0, 0, 0x61, 0xFF, 0x62, 1, 3, 0, 0x63,
];

// How many bytes the image has with all levels dense, and those that are not 0 behind the first five.
const DENSE_LEN: usize = 169;

const DENSE_BYTES: [(usize, u8); 8] = [
    (8, 2),
    (10, 2),
    (12, 2),
    (16, 2),
    (52, 2),
    (84, 4),
    (116, 2),
    (168, 2),
];

/// Bytes that are changed, and the fault of the image then: its place and its rule.
pub(crate) type Row = (&'static [(usize, u8)], u64, u8);

/// What breaks a rule of filters, and the same one of whole keys.
pub(crate) const SPARSE_ROWS: [Row; 16] = [
    (&[(0, 0)], 0, 2),
    (&[(4, 2)], 4, 2),
    (&[(5, 0x21)], 5, 3),
    (&[(10, 0)], 10, 4),
    (&[(8, 3)], 8, 4),
    (&[(12, 0)], 12, 4),
    (&[(32, 4)], 45, 1),
    (&[(32, 2)], 44, 5),
    (&[(43, 9)], 43, 6),
    (&[(24, 1)], 8, 8),
    (&[(12, 3)], 8, 8),
    (&[(43, 0)], 8, 8),
    (&[(43, 3)], 8, 8),
    (&[(41, 0x62)], 41, 9),
    (&[(41, 0x63)], 41, 9),
    // END at the root
    (&[(40, 0xFF), (41, 0x61), (43, 2), (44, 5)], 40, 9),
];

/// The same with all levels dense.
pub(crate) const DENSE_ROWS: [Row; 7] = [
    (&[(168, 0x82)], 168, 6),
    (&[(116, 6)], 116, 7),
    (&[(8, 1)], 8, 8),
    // no branch, END alone, and a node to which no branch leads
    (&[(52, 0x0E), (84, 0), (168, 0)], 72, 9),
    (&[(52, 6), (84, 0)], 72, 9),
    (&[(12, 3), (84, 0), (168, 3)], 8, 8),
    // END at the root
    (&[(12, 3), (168, 3)], 40, 9),
];

/// With real bits: a leaf that ends has some, and a branch that leads to a node is counted as a leaf.
pub(crate) const REAL_ROWS: [Row; 2] = [(&[(45, 1)], 45, 10), (&[(43, 3)], 8, 8)];

/// Changes the byte at a place.
pub(crate) fn set_byte(bytes: &mut [u8], at: usize, value: u8) {
    if let Some(byte) = bytes.get_mut(at) {
        *byte = value;
    }
}

/// An image with other bytes at some places.
pub(crate) fn changed(
    alloc: Global,
    image: &[u8],
    changes: &[(usize, u8)],
) -> Result<Vec<u8>, AllocError> {
    let mut bytes = Vec::from_slice(alloc, image)?;
    for (at, value) in changes {
        set_byte(bytes.as_mut_slice(), *at, *value);
    }
    Ok(bytes)
}

/// The image with all levels dense.
pub(crate) fn dense_image(alloc: Global) -> Result<Vec<u8>, AllocError> {
    let mut zeros = Vec::from_slice(alloc, &SPARSE[..5])?;
    zeros.resize(DENSE_LEN, 0)?;
    changed(alloc, zeros.as_slice(), &DENSE_BYTES)
}

/// Bytes break this rule at this place as an image of a kind.
pub(crate) fn check_fault(
    rt: &impl Abort,
    alloc: Global,
    kind: Kind,
    bytes: &[u8],
    place: u64,
    rule: u8,
) -> Result<(), AllocError> {
    let found = fault_of(rt, alloc, kind, bytes)?;
    assert!(rt; found == Some(FilterFault { place, rule }));
    Ok(())
}

/// The same of an image with bytes changed, row by row.
pub(crate) fn check_rows(
    rt: &impl Abort,
    alloc: Global,
    kind: Kind,
    image: &[u8],
    rows: &[Row],
) -> Result<(), AllocError> {
    for (changes, place, rule) in rows {
        let bytes = changed(alloc, image, *changes)?;
        check_fault(rt, alloc, kind, bytes.as_slice(), *place, *rule)?;
    }
    Ok(())
}

#[test]
fn bytes_changed_break_a_rule(rt: HostRuntime) -> Result<(), Fail> {
    check_rows(&rt, rt.alloc(), Kind::Filters, &SPARSE, &SPARSE_ROWS)?;
    Ok(())
}

#[test]
fn bytes_of_dense_levels_do(rt: HostRuntime) -> Result<(), Fail> {
    let dense = dense_image(rt.alloc())?;
    check_rows(
        &rt,
        rt.alloc(),
        Kind::Filters,
        dense.as_slice(),
        &DENSE_ROWS,
    )?;
    Ok(())
}

#[test]
fn bytes_of_suffixes_do(rt: HostRuntime) -> Result<(), Fail> {
    check_rows(&rt, rt.alloc(), Kind::Filters, &WITH_REAL, &REAL_ROWS)?;
    Ok(())
}

#[test]
fn fewer_bytes_and_one_more_are_refused(rt: HostRuntime) -> Result<(), Fail> {
    for len in 0..45 {
        check_fault(
            &rt,
            rt.alloc(),
            Kind::Filters,
            &SPARSE[..len],
            len as u64,
            1,
        )?;
    }
    let mut longer = [0; 46];
    longer[..45].copy_from_slice(&SPARSE);
    check_fault(&rt, rt.alloc(), Kind::Filters, &longer, 45, 5)?;
    Ok(())
}

fn check_walks(rt: &impl Abort, trie: &Trie<Global>, first: &[u8], second: &[u8], other: &[u8]) {
    assert!(rt; trie.walk(first) == Walk::Leaf(0));
    assert!(rt; trie.walk(second) == Walk::Leaf(1));
    assert!(rt; trie.walk(other) == Walk::Miss);
}

// An image is read as a trie that two words walk to the first two leaves of, and another misses, and that has this image
// again.
fn check_words(
    rt: &impl Abort,
    alloc: Global,
    image: &[u8],
    first: &[u8],
    second: &[u8],
    other: &[u8],
) -> Result<(), Fail> {
    let trie = read(alloc, image)?;
    check_walks(rt, &trie, first, second, other);
    check_image(rt, alloc, &trie, image)?;
    Ok(())
}

#[test]
fn whole_images_are_read(rt: HostRuntime) -> Result<(), Fail> {
    check_words(&rt, rt.alloc(), &SPARSE, b"a", b"ab", b"ac")?;
    check_words(&rt, rt.alloc(), &WITH_REAL, b"a", b"ab", b"b")?;
    let dense = dense_image(rt.alloc())?;
    check_words(&rt, rt.alloc(), dense.as_slice(), b"a", b"ab", b"ac")
}

// No END, and FF behind END.
#[test]
fn changed_images_may_be_read(rt: HostRuntime) -> Result<(), Fail> {
    check_change(&rt, rt.alloc(), (41, 0x61), b"aa", b"ab", b"a")?;
    check_change(&rt, rt.alloc(), (42, 0xFF), b"a", b"a\xFF", b"ab")
}

fn check_change(
    rt: &impl Abort,
    alloc: Global,
    change: (usize, u8),
    first: &[u8],
    second: &[u8],
    other: &[u8],
) -> Result<(), Fail> {
    let bytes = changed(alloc, &SPARSE, &[change])?;
    check_words(rt, alloc, bytes.as_slice(), first, second, other)
}

// Counts whose sections are more bytes than any number holds: of dense nodes, and of labels. Those of
// 14,757,395,258,967,641,296 labels alone end at 2^64 + 44.
const GREAT_COUNTS: [(u64, u64); 6] = [
    (0, 14_757_395_258_967_641_296),
    (0, u64::MAX),
    (u64::MAX, 3),
    (u64::MAX, u64::MAX),
    (0x0400_0000_0000_0000, 3),
    (0, 0x2000_0000_0000_0003),
];

fn check_counts(rt: &impl Abort, alloc: Global, dense: u64, labels: u64) -> Result<(), AllocError> {
    let mut bytes = SPARSE;
    bytes[16..24].copy_from_slice(&dense.to_le_bytes());
    bytes[32..40].copy_from_slice(&labels.to_le_bytes());
    check_fault(rt, alloc, Kind::Filters, &bytes, 45, 1)
}

#[test]
fn great_counts_do_not_wrap(rt: HostRuntime) -> Result<(), Fail> {
    for (dense, labels) in GREAT_COUNTS {
        check_counts(&rt, rt.alloc(), dense, labels)?;
    }
    let mut bytes = SPARSE;
    bytes[24..32].copy_from_slice(&u64::MAX.to_le_bytes());
    check_fault(&rt, rt.alloc(), Kind::Filters, &bytes, 8, 8)?;
    Ok(())
}
