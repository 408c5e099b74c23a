//! Ranks, selects and neighbours of bits of every length, by loops over single bits.
use crate::patterns::{Pattern, bits_of};
use bit_rank::Ranked;
use bit_select::Selected;
use bit_words::Bits;
use lane_scan::{ones, word_with_nth_one};
use std::alloc::Global;
use std::test::Fail;

// Whether a bit is set, none past the end.
fn is_set(bits: &Bits<Global>, place: usize) -> bool {
    place < bits.len() && bits.get(place)
}

// Whether each rank of as many bits is that of the loop, and each word with a set bit; the last rank counts them all.
fn ranks_agree(alloc: Global, plain: &Bits<Global>, counted: Bits<Global>) -> Result<bool, Fail> {
    let end = counted.len();
    let ranked = Ranked::new(alloc, counted)?;
    let mut count = 0usize;
    for i in 0..end {
        if ranked.rank(i) != count {
            return Ok(false);
        }
        if is_set(plain, i) {
            if word_with_nth_one(plain.words(), count as u64).map(|found| found.0) != Some(i / 64) {
                return Ok(false);
            }
            count = count.wrapping_add(1);
        }
    }
    Ok(ranked.rank(end) == count && ones(plain.words()) == count as u64)
}

// Whether each select is that of the loop, and none is behind the last.
fn selects_agree(plain: &Bits<Global>, selected: &Selected<Global>) -> bool {
    let mut count = 0usize;
    for i in 0..plain.len() {
        if is_set(plain, i) {
            if selected.select(count) != Some(i) {
                return false;
            }
            count = count.wrapping_add(1);
        }
    }
    selected.select(count).is_none()
}

// Whether the bytes of the bits are read as the same bits.
fn bytes_agree(alloc: Global, plain: &Bits<Global>) -> Result<bool, Fail> {
    let mut bytes = Vec::new(alloc);
    plain.to_bytes(&mut bytes)?;
    let len = plain.len().min(bytes.len().saturating_mul(8));
    let again = Bits::from_bytes(alloc, bytes.as_slice(), len)?;
    Ok(len == plain.len() && again.words() == plain.words())
}

#[test]
fn every_length_agrees_with_the_plain_loops(rt: HostRuntime) -> Result<(), Fail> {
    let alloc = rt.alloc();
    for pattern in [Pattern::All, Pattern::None, Pattern::Random] {
        for len in 0..1101 {
            let plain = bits_of(alloc, pattern, len)?;
            assert_eq!(rt; plain.len(), len);
            assert!(rt;
                ranks_agree(alloc, &plain, bits_of(alloc, pattern, len)?)?,
                "{pattern:?}, {len} bits"
            );
            let selected = Selected::new(alloc, bits_of(alloc, pattern, len)?)?;
            assert!(rt; selects_agree(&plain, &selected), "{pattern:?}, {len} bits");
            assert!(rt; bytes_agree(alloc, &plain)?, "{pattern:?}, {len} bits");
        }
    }
    Ok(())
}

// The first set bit at a place or behind it, bit by bit.
fn first_from(bits: &Bits<Global>, start: usize) -> Option<usize> {
    for i in start..bits.len() {
        if is_set(bits, i) {
            return Some(i);
        }
    }
    None
}

// The last set bit before a place, bit by bit.
fn last_before(bits: &Bits<Global>, end: usize) -> Option<usize> {
    let mut last = None;
    for i in 0..end {
        if is_set(bits, i) {
            last = Some(i);
        }
    }
    last
}

#[test]
fn ones_beside_a_place_agree_with_the_plain_loops(rt: HostRuntime) -> Result<(), Fail> {
    for pattern in [Pattern::All, Pattern::None, Pattern::Random] {
        let bits = bits_of(rt.alloc(), pattern, 200)?;
        for place in 0..260 {
            assert_eq!(rt;
                bits.first_one_from(place),
                first_from(&bits, place),
                "{place}"
            );
            assert_eq!(rt;
                bits.last_one_before(place),
                last_before(&bits, place),
                "{place}"
            );
        }
    }
    Ok(())
}
