//! Plain and succinct filters of a few words.

use super::filters::{check_between, check_least, filter_of_words};
use filter_api::RangeFilter;
use plain_filter::PlainFilter;
use std::alloc::Global;
use std::process::Abort;
use std::test::Fail;
use surf_filter::SurfFilter;

const FAR_TO_TOY: [&[u8]; 5] = [b"far", b"fast", b"s", b"top", b"toy"];

// By these a succinct filter has all of its levels dense, and none of the few that there are here.
const RATIOS: [u16; 2] = [0, 65_535];

// ---- far to toy

fn check_points<F: RangeFilter>(rt: &impl Abort, filter: &F) {
    assert!(rt; filter.may_hold(b"fasten") && !filter.may_hold(b"fa"));
    assert!(rt; filter.seek(b"fat") == Some(2));
    assert!(rt; filter.seek(b"u").is_none());
    assert!(rt; filter.leaves() == 5 && filter.widths() == (0, 0));
}

fn check_ranges<F: RangeFilter>(rt: &impl Abort, filter: &F) {
    check_between(rt, filter, b"fat", b"r", (false, 0));
    check_between(rt, filter, b"fat", b"s", (true, 1));
    check_between(rt, filter, b"fasa", b"fass", (true, 1));
}

fn check_far_to_toy<F: RangeFilter>(
    rt: &impl Abort,
    alloc: Global,
    ratio: u16,
) -> Result<(), Fail> {
    let filter: F = filter_of_words(alloc, &FAR_TO_TOY, 0, 0, ratio)?;
    check_points(rt, &filter);
    check_ranges(rt, &filter);
    check_least(rt, alloc, &filter, 1, b"fas")?;
    Ok(())
}

#[test]
fn fasten_may_be_held_and_fa_is_not(rt: HostRuntime) -> Result<(), Fail> {
    for ratio in RATIOS {
        check_far_to_toy::<PlainFilter>(&rt, rt.alloc(), ratio)?;
        check_far_to_toy::<SurfFilter<Global>>(&rt, rt.alloc(), ratio)?;
    }
    Ok(())
}

// ---- real bits

fn check_real_bits<F: RangeFilter>(rt: &impl Abort, alloc: Global, ratio: u16) -> Result<(), Fail> {
    let filter: F = filter_of_words(alloc, &FAR_TO_TOY, 0, 8, ratio)?;
    check_between(rt, &filter, b"fasa", b"fass", (false, 0));
    check_least(rt, alloc, &filter, 1, b"fast")?;
    Ok(())
}

#[test]
fn real_bits_keep_ranges_out(rt: HostRuntime) -> Result<(), Fail> {
    for ratio in RATIOS {
        check_real_bits::<PlainFilter>(&rt, rt.alloc(), ratio)?;
        check_real_bits::<SurfFilter<Global>>(&rt, rt.alloc(), ratio)?;
    }
    Ok(())
}

// ---- hash bits

fn check_hash<F: RangeFilter>(rt: &impl Abort, filter: &F) {
    assert!(rt; filter.may_hold(b"fast") && !filter.may_hold(b"fasten"));
}

fn check_hash_bits<F: RangeFilter>(rt: &impl Abort, alloc: Global, ratio: u16) -> Result<(), Fail> {
    let filter: F = filter_of_words(alloc, &FAR_TO_TOY, 32, 0, ratio)?;
    check_hash(rt, &filter);
    Ok(())
}

#[test]
fn hash_bits_keep_keys_out(rt: HostRuntime) -> Result<(), Fail> {
    for ratio in RATIOS {
        check_hash_bits::<PlainFilter>(&rt, rt.alloc(), ratio)?;
        check_hash_bits::<SurfFilter<Global>>(&rt, rt.alloc(), ratio)?;
    }
    Ok(())
}

// ---- keys that end, and a key alone

fn check_end<F: RangeFilter>(rt: &impl Abort, filter: &F) {
    assert!(rt; filter.may_hold(b"\x61") && filter.may_hold(b"\x61\xFF\x00"));
    assert!(rt; !filter.may_hold(b"\x61\x00") && !filter.may_hold(b""));
}

fn check_ends<F: RangeFilter>(rt: &impl Abort, alloc: Global, ratio: u16) -> Result<(), Fail> {
    let filter: F = filter_of_words(alloc, &[b"\x61", b"\x61\xFF"], 0, 0, ratio)?;
    check_end(rt, &filter);
    Ok(())
}

#[test]
fn a_key_that_others_go_on_from_fits_itself_alone(rt: HostRuntime) -> Result<(), Fail> {
    for ratio in RATIOS {
        check_ends::<PlainFilter>(&rt, rt.alloc(), ratio)?;
        check_ends::<SurfFilter<Global>>(&rt, rt.alloc(), ratio)?;
    }
    Ok(())
}

fn check_first_byte<F: RangeFilter>(rt: &impl Abort, filter: &F) {
    assert!(rt; filter.may_hold(b"zoo") && !filter.may_hold(b"y"));
}

fn check_zebra<F: RangeFilter>(rt: &impl Abort, alloc: Global, ratio: u16) -> Result<(), Fail> {
    let filter: F = filter_of_words(alloc, &[b"zebra"], 0, 0, ratio)?;
    check_first_byte(rt, &filter);
    Ok(())
}

#[test]
fn a_lone_key_is_one_byte(rt: HostRuntime) -> Result<(), Fail> {
    for ratio in RATIOS {
        check_zebra::<PlainFilter>(&rt, rt.alloc(), ratio)?;
        check_zebra::<SurfFilter<Global>>(&rt, rt.alloc(), ratio)?;
    }
    Ok(())
}

// ---- tallies

fn check_tally<F: RangeFilter>(rt: &impl Abort, alloc: Global, ratio: u16) -> Result<(), Fail> {
    let filter: F = filter_of_words(alloc, &[b"aa1", b"ab1"], 0, 0, ratio)?;
    check_between(rt, &filter, b"aa5", b"ab0", (true, 2));
    Ok(())
}

#[test]
fn a_tally_is_two_above_the_true_count(rt: HostRuntime) -> Result<(), Fail> {
    for ratio in RATIOS {
        check_tally::<PlainFilter>(&rt, rt.alloc(), ratio)?;
        check_tally::<SurfFilter<Global>>(&rt, rt.alloc(), ratio)?;
    }
    Ok(())
}
