//! A map of many words, read into a heap that their letters do not fit.

use super::building::finished;
use fst_map::{FstBuilder, FstMap};
use linked_list_allocator::LocalHeap;
use std::alloc::Allocator;
use std::process::Abort;
use std::test::Fail;

// In their order, with as many letters each. A word is three of them, so that there are 103,823 words of 15 letters.
const SYLLABLES: [&[u8; 5]; 47] = [
    b"ablum", b"acron", b"ambel", b"aster", b"babil", b"basto", b"bendu", b"bilor", b"calen",
    b"carmo", b"cedri", b"colpa", b"dacti", b"delmo", b"dorin", b"ember", b"enoka", b"farol",
    b"felis", b"gamut", b"gelid", b"gorse", b"halon", b"harem", b"ictus", b"jambo", b"kalem",
    b"kedge", b"lanto", b"lemur", b"lorry", b"magen", b"melic", b"morph", b"nacre", b"nidus",
    b"octet", b"palma", b"pilor", b"quoin", b"ramen", b"serif", b"talon", b"umbra", b"velum",
    b"wedge", b"zebra",
];

// The letters of all words.
const KEY_BYTES: usize = 15 * 103_823;

fn add_words(rt: &impl Abort, builder: &mut FstBuilder) {
    for first in &SYLLABLES {
        for second in &SYLLABLES {
            add_all_behind(rt, builder, *first, *second);
        }
    }
}

fn add_all_behind(rt: &impl Abort, builder: &mut FstBuilder, first: &[u8; 5], second: &[u8; 5]) {
    for third in &SYLLABLES {
        let word = word_of(first, second, *third);
        assert!(rt; builder.add(&word, first.as_slice()) == Ok(()));
    }
}

fn word_of(first: &[u8; 5], second: &[u8; 5], third: &[u8; 5]) -> [u8; 15] {
    let [a, b, c, d, e] = *first;
    let [f, g, h, i, j] = *second;
    let [k, l, m, n, o] = *third;
    [a, b, c, d, e, f, g, h, i, j, k, l, m, n, o]
}

fn check_words<A: Allocator>(rt: &impl Abort, map: &FstMap<'_, A>) {
    assert!(rt; map.len() == 103_823);
    assert!(rt; map.get(b"lemurtalonzebra") == Some(&b"lemur"[..]));
    assert!(rt; map.get(b"lemurtalon").is_none());
    assert!(rt; map.count(b"lemur", b"lemurz") == 46 * 47);
}

#[test]
fn a_map_fits_a_heap_that_its_keys_do_not(rt: HostRuntime) -> Result<(), Fail> {
    let mut builder = FstBuilder::new(rt.alloc());
    add_words(&rt, &mut builder);
    let body = finished(rt.alloc(), &builder, 64)?;
    let image_bytes = match body.get(16..20) {
        Some([a, b, c, d]) => u32::from_le_bytes([*a, *b, *c, *d]),
        _ => 0,
    };
    let heap_bytes = image_bytes as usize / 4 * 5;
    assert!(rt; heap_bytes < KEY_BYTES);
    let heap = LocalHeap::new(rt.alloc(), heap_bytes)?;
    let map = FstMap::read(&heap, body.as_slice())?;
    check_words(&rt, &map);
    Ok(())
}
