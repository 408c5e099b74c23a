//! Stores of random scripts of all variants, and bytes of them that are changed.
use crate::asserts::{check_same, check_same_at, check_that};
use crate::both::checked;
use crate::changes::{change, mend};
use crate::scripts::{Made, VARIANTS, store_of};
use plain_check::{Checked, KeptSum, Sizes, plain_check, sums_of};
use std::alloc::Global;
use std::process::Abort;
use std::test::Fail;
use test_kit::Numbers;

// How many steps a script has, and how often the bytes of its store are changed.
const STEPS: u32 = 60;

const ROUNDS: u32 = 60;

// The sizes of a store of which nothing is wrong.
fn sound(alloc: Global, bytes: &[u8]) -> Result<Sizes, Fail> {
    match checked(alloc, bytes)? {
        Checked::Sound(sizes) => Ok(sizes),
        _ => Err(Fail::from("something is wrong")),
    }
}

fn check_clean(rt: &impl Abort, alloc: Global, made: &Made) -> Result<(), Fail> {
    let sizes = sound(alloc, made.bytes.as_slice())?;
    check_same(rt, &sizes.live, &made.live);
    let plain = plain_check(alloc, made.bytes.as_slice())?;
    check_same(rt, &plain, &Checked::Sound(sizes));
    Ok(())
}

#[test]
fn stores_of_random_scripts_are_clean(rt: HostRuntime) -> Result<(), Fail> {
    let alloc = rt.alloc();
    for settings in VARIANTS {
        for seed in 0..6 {
            check_clean(&rt, alloc, &store_of(alloc, settings, seed, STEPS)?)?;
        }
    }
    Ok(())
}

// Changes some bytes of a store, and makes the sums right or not. Whether something is wrong then, of which both say the same.
fn check_changed(
    rt: &impl Abort,
    alloc: Global,
    made: &Made,
    sums: &[KeptSum],
    seed: u64,
    right: bool,
) -> Result<bool, Fail> {
    let mut bytes = Vec::from_slice(alloc, made.bytes.as_slice())?;
    change(bytes.as_mut_slice(), sums, &mut Numbers::new(seed));
    if right {
        mend(bytes.as_mut_slice(), sums);
    }
    let found = checked(alloc, bytes.as_slice())?;
    check_same_at(rt, &seed, &found, &plain_check(alloc, bytes.as_slice())?);
    Ok(matches!(found, Checked::Wrong(_)))
}

// The same many times, of one store. How often something is wrong then.
fn check_rounds(rt: &impl Abort, alloc: Global, made: &Made, right: bool) -> Result<u32, Fail> {
    let sums = sums_of(alloc, made.bytes.as_slice())?;
    let mut wrong = 0u32;
    for round in 0..ROUNDS {
        let seed = u64::from(round).wrapping_mul(77).wrapping_add(made.live);
        if check_changed(rt, alloc, made, sums.as_slice(), seed, right)? {
            wrong = wrong.saturating_add(1);
        }
    }
    Ok(wrong)
}

// The same of stores of all variants.
fn check_variants(rt: &impl Abort, alloc: Global, right: bool) -> Result<u32, Fail> {
    let mut wrong = 0u32;
    for settings in VARIANTS {
        for seed in 10..13 {
            let made = store_of(alloc, settings, seed, STEPS)?;
            wrong = wrong.saturating_add(check_rounds(rt, alloc, &made, right)?);
        }
    }
    Ok(wrong)
}

#[test]
fn changed_bytes_are_found_as_a_plain_program_finds_them(rt: HostRuntime) -> Result<(), Fail> {
    let wrong = check_variants(&rt, rt.alloc(), false)?;
    check_that(&rt, wrong > 400);
    Ok(())
}

#[test]
fn so_they_are_where_sums_are_made_right(rt: HostRuntime) -> Result<(), Fail> {
    let wrong = check_variants(&rt, rt.alloc(), true)?;
    check_that(&rt, wrong > 200);
    Ok(())
}
