//! What a builder writes, and when it writes nothing.

use super::bodies::{A_AND_AB, SIX, SIX_PAIRS, ZEBRA, read};
use super::building::{builder_of, finished, number_key};
use fst_map::{FinishError, FstBuilder, FstMap};
use std::alloc::Global;
use std::process::Abort;
use std::test::Fail;

const A_PAIR: (&[u8], &[u8]) = (b"a", &[1]);

const AB_PAIR: (&[u8], &[u8]) = (b"ab", &[2]);

#[test]
fn the_bodies_are_those_that_a_hand_writes(rt: HostRuntime) -> Result<(), Fail> {
    let alloc = rt.alloc();
    let two = builder_of(alloc, &[A_PAIR, AB_PAIR])?;
    assert!(rt; finished(alloc, &two, 64)?.as_slice() == A_AND_AB.as_slice());
    let one = builder_of(alloc, &[(b"zebra", b"")])?;
    assert!(rt; finished(alloc, &one, 64)?.as_slice() == ZEBRA.as_slice());
    let six = builder_of(alloc, &SIX_PAIRS)?;
    assert!(rt; finished(alloc, &six, 64)?.as_slice() == SIX.as_slice());
    Ok(())
}

fn check_two(rt: &impl Abort, map: &FstMap<'_, Global>) {
    assert!(rt; map.get(b"ab") == Some(&[2u8][..]));
    assert!(rt; map.get(b"abc").is_none());
    assert!(rt; map.get(b"ac").is_none());
    assert!(rt; map.count(b"ab", b"b") == 1);
    assert!(rt; map.count(b"a", b"a") == 1);
    assert!(rt; map.count(b"ab\xFF", b"b") == 0);
}

#[test]
fn a_and_ab_with_all_levels_dense(rt: HostRuntime) -> Result<(), Fail> {
    let alloc = rt.alloc();
    let builder = builder_of(alloc, &[A_PAIR, AB_PAIR])?;
    let out = finished(alloc, &builder, 0)?;
    assert!(rt; out.len() == 227);
    assert!(rt; out.get(16) == Some(&169));
    check_two(&rt, &*read(alloc, out.as_slice())?);
    // Not dense again, behind what there was.
    let mut longer = Vec::from_slice(alloc, b"before")?;
    builder.finish(64, &mut longer)?;
    assert!(rt; longer.as_slice().starts_with(b"before"));
    assert!(rt; longer.as_slice().ends_with(&A_AND_AB));
    assert!(rt; longer.len() == 109);
    Ok(())
}

#[test]
fn of_no_pair_nothing_is_written(rt: HostRuntime) -> Result<(), Fail> {
    let mut builder = FstBuilder::new(rt.alloc());
    let mut out = Vec::from_slice(rt.alloc(), b"before")?;
    assert!(rt; builder.finish(64, &mut out) == Err(FinishError::NoKeys));
    assert!(rt; builder.add(b"", &[1]).is_err());
    assert!(rt; builder.finish(0, &mut out) == Err(FinishError::NoKeys));
    assert!(rt; out.as_slice() == b"before".as_slice());
    Ok(())
}

#[test]
fn a_refused_pair_leaves_no_trace(rt: HostRuntime) -> Result<(), Fail> {
    let alloc = rt.alloc();
    let mut builder = builder_of(alloc, &[A_PAIR])?;
    let value = vec![in alloc; 0; 65_537]?;
    assert!(rt; builder.add(b"aa", value.as_slice()).is_err());
    assert!(rt; builder.add(&[0x62; 1_025], &[7]).is_err());
    assert!(rt; builder.add(b"a", &[7]).is_err());
    assert!(rt; builder.add(b"ab", &[2]).is_ok());
    assert!(rt; builder.add(b"aa", &[7]).is_err());
    assert!(rt; finished(alloc, &builder, 64)?.as_slice() == A_AND_AB.as_slice());
    Ok(())
}

// Keys that are a number of two bytes and 1,022 zeros: each has 1,022 nodes of its own.
const LARGE_KEYS: u32 = 32_900;

#[test]
fn a_body_over_2_31_bytes_is_not_written(rt: HostRuntime) -> Result<(), Fail> {
    let mut builder = FstBuilder::new(rt.alloc());
    let mut key = [0; 1_024];
    for number in 0..LARGE_KEYS {
        let bytes = number_key(number);
        key[0] = bytes[2];
        key[1] = bytes[3];
        assert!(rt; builder.add(&key, b"") == Ok(()));
    }
    let mut out = Vec::from_slice(rt.alloc(), b"before")?;
    assert!(rt; builder.finish(0, &mut out) == Err(FinishError::Large(2_156_397_792)));
    assert!(rt; out.as_slice() == b"before".as_slice());
    Ok(())
}
