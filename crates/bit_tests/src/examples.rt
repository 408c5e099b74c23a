//! Bits, words and labels whose answers are known.
use bit_rank::Ranked;
use bit_select::Selected;
use bit_words::{Bits, BitsBuilder};
use lane_scan::{
    find_label, find_label_between, first_at_least, first_at_least_between, first_one_from,
    highest_one, last_one_before, lowest_one, ones, ones_below, word_with_nth_one,
};
use std::test::Fail;

#[test]
fn set_bits_of_words(rt: HostRuntime) {
    assert_eq!(rt; ones(&[0xFF, 0x8000000000000001]), 10);
    assert_eq!(rt; ones_below(0xB9, 4), 2);
    assert_eq!(rt; lowest_one(0xB8), 3);
    assert_eq!(rt; highest_one(0xB8), 7);
    assert_eq!(rt; first_one_from(&[0xB9, 0, 1 << 63], 8), Some(191));
    assert_eq!(rt; last_one_before(&[0xB9, 0, 1 << 63], 191), Some(7));
    for (n, want) in [
        (0, Some((0, 0))),
        (1, Some((2, 0))),
        (2, Some((2, 1))),
        (3, None),
    ] {
        assert_eq!(rt; word_with_nth_one(&[1, 0, 6], n), want, "number {n}");
    }
}

#[test]
fn labels_are_found_at_their_first_place(rt: HostRuntime) {
    let labels = *b"fstaorspy";
    assert_eq!(rt; find_label(&labels, 0x73), Some(1));
    assert_eq!(rt; first_at_least(&labels, 0x75), Some(8));
    assert_eq!(rt; first_at_least(&labels, 0x7A), None);
    assert_eq!(rt; find_label_between(&labels, 5, 7, b's'), Some(6));
    assert_eq!(rt; find_label_between(&labels, 0, 3, b'a'), None);
    assert_eq!(rt; first_at_least_between(&labels, 0, 3, b'y'), None);
}

#[test]
fn nine_bits(rt: HostRuntime) -> Result<(), Fail> {
    let bits = Bits::from_bytes(rt.alloc(), &[0xB9, 0xFE, 0xFF], 9)?;
    assert!(rt; bits.len() == 9 && !bits.is_empty() && bits.get(3));
    let mut out = Vec::new(rt.alloc());
    bits.to_bytes(&mut out)?;
    assert_eq!(rt; out.as_slice(), [0xB9, 0x00].as_slice());
    let ranked = Ranked::new(rt.alloc(), bits)?;
    assert_eq!(rt; ranked.words(), [0xB9].as_slice());
    assert!(rt; ranked.rank(4) == 2 && ranked.rank(9) == 5);
    Ok(())
}

#[test]
fn the_fifth_and_last_of_nine_bits_is_at_seven(rt: HostRuntime) -> Result<(), Fail> {
    let bits = Bits::from_bytes(rt.alloc(), &[0xB9, 0x00], 9)?;
    let selected = Selected::new(rt.alloc(), bits)?;
    for (n, want) in [
        (0, Some(0)),
        (1, Some(3)),
        (4, Some(7)),
        (5, None),
        (64, None),
    ] {
        assert_eq!(rt; selected.select(n), want, "number {n}");
    }
    assert_eq!(rt; selected.words(), [0xB9].as_slice());
    Ok(())
}

// Forty set bits a word apart, and two at the end: many words lie between the kept places.
#[test]
fn bits_far_behind_a_kept_place_are_found(rt: HostRuntime) -> Result<(), Fail> {
    let mut bytes = [0; 328];
    for i in 0..40 {
        bytes[8 * i] = 2;
    }
    bytes[327] = 0xC0;
    let selected = Selected::new(rt.alloc(), Bits::from_bytes(rt.alloc(), &bytes, 2624)?)?;
    for (n, want) in [
        (0, Some(1)),
        (39, Some(2497)),
        (40, Some(2622)),
        (41, Some(2623)),
        (42, None),
    ] {
        assert_eq!(rt; selected.select(n), want, "number {n}");
    }
    Ok(())
}

#[test]
fn a_bit_comes_with_the_count_of_those_before_it(rt: HostRuntime) -> Result<(), Fail> {
    let bits = Bits::from_bytes(rt.alloc(), &[0b1101_0010; 40], 320)?;
    let len = bits.len();
    let ranked = Ranked::new(rt.alloc(), bits)?;
    for (i, want) in [
        (0, (false, 0)),
        (63, (true, 31)),
        (64, (false, 32)),
        (127, (true, 63)),
        (192, (false, 96)),
        (319, (true, 159)),
    ] {
        assert!(rt; i < len);
        assert!(rt; ranked.bit_and_rank(i) == want);
        let word = ranked.word_of(i / 2);
        assert!(rt; ranked.bit_and_rank_by(word, i) == want);
    }
    Ok(())
}

#[test]
fn numbers_stand_one_after_the_other(rt: HostRuntime) -> Result<(), Fail> {
    let mut bits = Bits::new(rt.alloc());
    for (number, count) in [
        (0xB9, 9),
        (0, 0),
        (0x1_2345_6789, 33),
        (5, 3),
        (0xFEDC_BA98_7654_3210, 64),
        (u64::MAX, 19),
    ] {
        assert!(rt; count <= 64);
        bits.push_number(number, count)?;
    }
    assert_eq!(rt;
        bits.words(),
        [0x8642_1646_8ACF_12B9, 0xFFFF_FFDB_9753_0ECA].as_slice()
    );
    for (i, count, want) in [
        (0, 9, 0xB9),
        (9, 33, 0x1_2345_6789),
        (45, 64, 0xFEDC_BA98_7654_3210),
        (109, 19, 0x7_FFFF),
        (128, 0, 0),
        (63, 2, 1),
    ] {
        assert!(rt; count <= 64 && i + count <= bits.len());
        assert_eq!(rt; bits.number(i, count), want, "{count} bits at {i}");
    }
    Ok(())
}

#[test]
fn nine_bits_fill_their_room(rt: HostRuntime) -> Result<(), Fail> {
    let mut builder = BitsBuilder::with_room(rt.alloc(), 9)?;
    builder.push_number(0x39, 7);
    for bit in [true, false] {
        if builder.len() < builder.limit() {
            builder.push(bit);
        }
    }
    assert_eq!(rt; builder.finish().words(), [0xB9].as_slice());
    Ok(())
}
