//! The suffix bits of keys, and arrays of suffixes.
use bit_words::Bits;
use std::test::Fail;
use suffix_bits::{Suffixes, SuffixesBuilder, hash_bits_of, real_bits_of};

#[test]
fn suffix_bits_of_keys(rt: HostRuntime) {
    assert_eq!(rt; hash_bits_of(b"a", 8), 0x8C);
    assert_eq!(rt; hash_bits_of(b"a", 32), 0x8601_ec8c);
    assert_eq!(rt; real_bits_of(b"fast", 3, 8), 0x74);
    assert_eq!(rt; real_bits_of(b"far", 3, 8), 0);
    assert_eq!(rt; real_bits_of(b"abcdef", 1, 12), 0x626);
}

#[test]
fn the_hash_of_a_stands_below_the_letter_t(rt: HostRuntime) -> Result<(), Fail> {
    let mut suffixes = Suffixes::new(rt.alloc(), 8, 8);
    assert!(rt; suffixes.is_empty());
    suffixes.push(0x8C, 0x74)?;
    assert_eq!(rt; suffixes.bits().words(), [0x748C].as_slice());
    assert_eq!(rt; suffixes.get(0), (0x8C, 0x74));
    let mut builder = SuffixesBuilder::with_room(rt.alloc(), 8, 8, 1)?;
    builder.push(0x8C, 0x74);
    assert_eq!(rt; builder.finish().bits().words(), [0x748C].as_slice());
    Ok(())
}

#[test]
fn suffixes_of_33_bits_cross_the_words(rt: HostRuntime) -> Result<(), Fail> {
    let mut suffixes = Suffixes::new(rt.alloc(), 17, 16);
    suffixes.push(0x1_FFFF, 0x0001)?;
    suffixes.push(0x0_0000, 0xFFFF)?;
    assert_eq!(rt; suffixes.bits().words(), [0xFFFC00000003FFFF, 3].as_slice());
    assert_eq!(rt; suffixes.get(1), (0x0_0000, 0xFFFF));
    Ok(())
}

#[test]
fn bits_are_read_as_suffixes(rt: HostRuntime) -> Result<(), Fail> {
    let bits = Bits::from_bytes(rt.alloc(), &[0x35, 0x03], 10)?;
    assert!(rt; bits.len() == 10);
    let suffixes = Suffixes::of(bits, 3, 2, 2);
    assert!(rt; suffixes.len() == 2 && suffixes.widths() == (3, 2));
    assert_eq!(rt; suffixes.get(0), (5, 2));
    assert_eq!(rt; suffixes.get(1), (1, 3));
    Ok(())
}
