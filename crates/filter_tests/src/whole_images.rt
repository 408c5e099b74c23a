//! Images of whole keys: what is read of them, what a filter's reader says of them, and bytes changed against a slow judge.

use super::codec::{check_image, fault_of, read_whole};
use super::images::{
    DENSE_ROWS, REAL_ROWS, Row, SPARSE, SPARSE_ROWS, WITH_REAL, changed, check_fault, check_rows,
    dense_image, set_byte,
};
use super::judge::{Kind, judge};
use super::keys::step;
use filter_api::FilterFault;
use filter_trie::{Trie, Walk};
use std::alloc::{AllocError, Global};
use std::process::Abort;
use std::test::Fail;

// How many values each byte is changed to.
const VALUES: u64 = 8;

/// The key zebra alone.
pub(crate) const ZEBRA: [u8; 47] = [
    0x53, 0x55, 0x52, 0x46, 1, 0, 0, 0, 0, 0, 5, 0, 1, 0, 0, 0, 0, 0, 0, 0, 0, 0, 0, 0, 5, 0, 0, 0,
    0, 0, 0, 0, 5, 0, 0, 0, 0, 0, 0, 0, 0x7A, 0x65, 0x62, 0x72, 0x61, 0x0F, 0x1F,
];

// Of the sparse image: one bit of a width.
const WIDTH_ROWS: [Row; 2] = [(&[(5, 1)], 5, 3), (&[(6, 1)], 6, 3)];

#[test]
fn bytes_changed_break_a_rule_of_whole_keys(rt: HostRuntime) -> Result<(), Fail> {
    check_rows(&rt, rt.alloc(), Kind::WholeKeys, &SPARSE, &SPARSE_ROWS)?;
    check_rows(&rt, rt.alloc(), Kind::WholeKeys, &SPARSE, &WIDTH_ROWS)?;
    let dense = dense_image(rt.alloc())?;
    check_rows(
        &rt,
        rt.alloc(),
        Kind::WholeKeys,
        dense.as_slice(),
        &DENSE_ROWS,
    )?;
    Ok(())
}

// Whatever a filter's reader says of them.
#[test]
fn images_with_real_bits_are_none_of_whole_keys(rt: HostRuntime) -> Result<(), Fail> {
    check_fault(&rt, rt.alloc(), Kind::WholeKeys, &WITH_REAL, 6, 3)?;
    for (changes, _, _) in &REAL_ROWS {
        let bytes = changed(rt.alloc(), &WITH_REAL, *changes)?;
        check_fault(&rt, rt.alloc(), Kind::WholeKeys, bytes.as_slice(), 6, 3)?;
    }
    Ok(())
}

fn check_walks(rt: &impl Abort, trie: &Trie<Global>, keys: &[&[u8]], other: &[u8]) {
    for (slot, key) in keys.iter().enumerate() {
        assert!(rt; trie.walk(*key) == Walk::Leaf(slot as u64));
    }
    assert!(rt; trie.walk(other) == Walk::Miss);
    assert!(rt; trie.leaves() as usize == keys.len());
}

// An image is read as a trie whose slots these keys reach, in their order, and that has this image again; another key misses.
fn check_read(
    rt: &impl Abort,
    alloc: Global,
    image: &[u8],
    keys: &[&[u8]],
    other: &[u8],
) -> Result<(), Fail> {
    let trie = read_whole(alloc, image)?;
    check_walks(rt, &trie, keys, other);
    check_image(rt, alloc, &trie, image)?;
    Ok(())
}

// The same, and a filter's reader reads it too.
fn check_both(
    rt: &impl Abort,
    alloc: Global,
    image: &[u8],
    keys: &[&[u8]],
    other: &[u8],
) -> Result<(), Fail> {
    let refused = fault_of(rt, alloc, Kind::Filters, image)?;
    assert!(rt; refused.is_none());
    check_read(rt, alloc, image, keys, other)
}

// The same, but a filter's reader refuses it by rule 9 at a place.
fn check_whole(
    rt: &impl Abort,
    alloc: Global,
    image: &[u8],
    place: u64,
    keys: &[&[u8]],
    other: &[u8],
) -> Result<(), Fail> {
    let refused = fault_of(rt, alloc, Kind::Filters, image)?;
    assert!(rt; refused == Some(FilterFault { place, rule: 9 }));
    check_read(rt, alloc, image, keys, other)
}

#[test]
fn zebra_alone_is_read(rt: HostRuntime) -> Result<(), Fail> {
    check_whole(&rt, rt.alloc(), &ZEBRA, 40, &[b"zebra"], b"zebr")
}

// z has slot 0, before ab on the level below.
#[test]
fn a_leaf_alone_in_its_node_is_read(rt: HostRuntime) -> Result<(), Fail> {
    let ab_and_z = changed(rt.alloc(), &SPARSE, &[(41, 0x7A), (44, 5)])?;
    check_whole(
        &rt,
        rt.alloc(),
        ab_and_z.as_slice(),
        42,
        &[b"z", b"ab"],
        b"a",
    )?;
    let b_and_ac = changed(rt.alloc(), &SPARSE, &[(41, 0x62), (42, 0x63), (44, 5)])?;
    check_whole(
        &rt,
        rt.alloc(),
        b_and_ac.as_slice(),
        42,
        &[b"b", b"ac"],
        b"a",
    )
}

#[test]
fn dense_levels_of_whole_keys_are_read(rt: HostRuntime) -> Result<(), Fail> {
    let dense = dense_image(rt.alloc())?;
    let b_and_ab = changed(rt.alloc(), dense.as_slice(), &[(52, 6), (168, 0)])?;
    check_whole(
        &rt,
        rt.alloc(),
        b_and_ab.as_slice(),
        72,
        &[b"b", b"ab"],
        b"a",
    )?;
    let ab_alone = changed(rt.alloc(), dense.as_slice(), &[(12, 1), (168, 0)])?;
    check_whole(&rt, rt.alloc(), ab_alone.as_slice(), 40, &[b"ab"], b"a")
}

// A filter's image without suffix bits is one of whole keys too.
#[test]
fn images_of_filters_are_read(rt: HostRuntime) -> Result<(), Fail> {
    check_both(&rt, rt.alloc(), &SPARSE, &[b"a", b"ab"], b"ac")?;
    let dense = dense_image(rt.alloc())?;
    check_both(&rt, rt.alloc(), dense.as_slice(), &[b"a", b"ab"], b"ac")?;
    let aa_and_ab = changed(rt.alloc(), &SPARSE, &[(41, 0x61)])?;
    check_both(&rt, rt.alloc(), aa_and_ab.as_slice(), &[b"aa", b"ab"], b"a")
}

// ---- the byte FF, which is END as the first of several labels

// The sparse image with other numbers, and these bytes for its sections.
fn with_sections(
    alloc: Global,
    changes: &[(usize, u8)],
    sections: &[u8],
) -> Result<Vec<u8>, AllocError> {
    let mut bytes = changed(alloc, &SPARSE[..40], changes)?;
    bytes.extend_from_slice(sections)?;
    Ok(bytes)
}

#[test]
fn a_lone_ff_is_a_byte(rt: HostRuntime) -> Result<(), Fail> {
    let alone = with_sections(rt.alloc(), &[(12, 1), (32, 2)], &[0x61, 0xFF, 1, 3])?;
    check_whole(&rt, rt.alloc(), alone.as_slice(), 40, &[b"a\xFF"], b"a")
}

#[test]
fn an_ff_after_end_is_a_byte(rt: HostRuntime) -> Result<(), Fail> {
    let two = changed(rt.alloc(), &SPARSE, &[(40, 0xFF), (42, 0xFF)])?;
    check_both(
        &rt,
        rt.alloc(),
        two.as_slice(),
        &[b"\xFF", b"\xFF\xFF"],
        b"a",
    )?;
    let three = with_sections(
        rt.alloc(),
        &[(10, 3), (12, 3), (24, 3), (32, 5)],
        &[0x61, 0xFF, 0xFF, 0xFF, 0xFF, 0x05, 0x0B],
    )?;
    let keys: [&[u8]; 3] = [b"a", b"a\xFF", b"a\xFF\xFF"];
    check_both(&rt, rt.alloc(), three.as_slice(), &keys, b"b")
}

// ---- long keys

// Adds the bytes of so many bits, the first ones set.
fn push_ones(bytes: &mut Vec<u8>, ones: usize, bits: usize) -> Result<(), AllocError> {
    for at in 0..bits.div_ceil(8) {
        let whole = ones / 8;
        let byte = if at < whole {
            0xFF
        } else if at == whole {
            !(0xFF << (ones % 8) as u32)
        } else {
            0
        };
        bytes.push(byte)?;
    }
    Ok(())
}

// The image of a key of so many bytes a, without the one that is a byte shorter or with it.
fn long_image(alloc: Global, len: u16, beside: bool) -> Result<Vec<u8>, AllocError> {
    let labels = len.saturating_add(u16::from(beside));
    let mut bytes = Vec::from_slice(alloc, &SPARSE[..10])?;
    bytes.extend_from_slice(&len.to_le_bytes())?;
    bytes.extend_from_slice(&(1 + u32::from(beside)).to_le_bytes())?;
    bytes.extend_from_slice(&0u64.to_le_bytes())?;
    bytes.extend_from_slice(&u64::from(len).to_le_bytes())?;
    bytes.extend_from_slice(&u64::from(labels).to_le_bytes())?;
    for _ in 1..len {
        bytes.push(0x61)?;
    }
    if beside {
        bytes.push(0xFF)?;
    }
    bytes.push(0x61)?;
    push_ones(
        &mut bytes,
        usize::from(len.saturating_sub(1)),
        usize::from(labels),
    )?;
    push_ones(&mut bytes, usize::from(len), usize::from(labels))?;
    Ok(bytes)
}

#[test]
fn the_longest_keys_are_read(rt: HostRuntime) -> Result<(), Fail> {
    let key = [0x61; 1_024];
    let both = long_image(rt.alloc(), 1_024, true)?;
    assert!(&rt; both.len() == 1_323);
    check_both(
        &rt,
        rt.alloc(),
        both.as_slice(),
        &[&key[..1_023], &key],
        b"a",
    )?;
    let alone = long_image(rt.alloc(), 1_024, false)?;
    assert!(&rt; alone.len() == 1_320);
    check_whole(&rt, rt.alloc(), alone.as_slice(), 40, &[&key], b"a")
}

#[test]
fn a_longer_key_is_none(rt: HostRuntime) -> Result<(), Fail> {
    let longer = long_image(rt.alloc(), 1_025, false)?;
    check_fault(&rt, rt.alloc(), Kind::WholeKeys, longer.as_slice(), 10, 4)?;
    Ok(())
}

// ---- bytes changed, by both kinds

fn check_bytes(rt: &impl Abort, alloc: Global, bytes: &[u8]) -> Result<(), AllocError> {
    let whole = fault_of(rt, alloc, Kind::WholeKeys, bytes)?;
    assert!(rt; whole == judge(alloc, bytes, Kind::WholeKeys)?);
    let filters = fault_of(rt, alloc, Kind::Filters, bytes)?;
    assert!(rt; filters == judge(alloc, bytes, Kind::Filters)?);
    Ok(())
}

fn check_byte(rt: &impl Abort, alloc: Global, image: &[u8], at: usize) -> Result<(), AllocError> {
    let mut seed = step(at as u64);
    let mut bytes = Vec::from_slice(alloc, image)?;
    for _ in 0..VALUES {
        seed = step(seed);
        set_byte(bytes.as_mut_slice(), at, (seed >> 56) as u8);
        check_bytes(rt, alloc, bytes.as_slice())?;
    }
    Ok(())
}

fn check_each_byte(rt: &impl Abort, alloc: Global, image: &[u8]) -> Result<(), AllocError> {
    check_bytes(rt, alloc, image)?;
    for at in 0..image.len() {
        check_byte(rt, alloc, image, at)?;
    }
    Ok(())
}

#[test]
fn changed_images_of_whole_keys_are_as_a_slow_judge_says(rt: HostRuntime) -> Result<(), Fail> {
    check_each_byte(&rt, rt.alloc(), &SPARSE)?;
    check_each_byte(&rt, rt.alloc(), &ZEBRA)?;
    Ok(())
}
