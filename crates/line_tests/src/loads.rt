//! Loads beside the standard library's ordered map.
use crate::plain_load::{loaded, summed};
use load_gen::LoadGen;
use std::alloc::Global;
use std::collections::BTreeMap;
use std::test::Fail;

// The same steps on std's ordered map: how many pairs, and the sum of their values.
fn by_ordered_map(alloc: Global, seed: u64, count: u32) -> Result<(usize, u64), Fail> {
    let mut map = BTreeMap::new(alloc);
    let mut steps = LoadGen::new(seed);
    for _ in 0..count {
        let step = steps.next();
        match step.value {
            Some(value) => {
                map.insert(step.key, u64::from_le_bytes(value))?;
            }
            None => {
                map.remove(&step.key);
            }
        }
    }
    let sum = map
        .values()
        .fold(0, |sum: u64, value| sum.wrapping_add(*value));
    Ok((map.len(), sum))
}

#[test]
fn one_step_of_seed_1(rt: HostRuntime) -> Result<(), Fail> {
    let map = loaded(rt.alloc(), 1, 1)?;
    assert!(rt;
        matches!(
            map.get(b"\x6c\x57\x6f"),
            Some(b"\x7c\x00\xfd\x43\xac\x6f\x57\x6c")
        )
    );
    let summary = summed(&map);
    assert_eq!(rt; summary.live(), 1);
    assert_eq!(rt; summary.sum(), 0x6c57_6fac_43fd_007c);
    Ok(())
}

// Live pairs and sums that another program computed.
#[test]
fn loads_of_several_seeds(rt: HostRuntime) -> Result<(), Fail> {
    for (seed, count, live, sum) in [
        (0, 1, 1, 0x1405_7b7e_f767_814f),
        (1, 20, 19, 0xcc6f_2639_1080_dd6b),
        (7, 100, 84, 0x7648_b0a5_caa7_c510),
        (u64::MAX, 300, 255, 0x006d_ad0a_3076_3f43),
        (3, 0, 0, 0),
    ] {
        let summary = summed(&loaded(rt.alloc(), seed, count)?);
        assert_eq!(rt; summary.live(), live);
        assert_eq!(rt; summary.sum(), sum);
    }
    Ok(())
}

#[test]
fn two_thousand_steps_of_seed_7_as_on_an_ordered_map(rt: HostRuntime) -> Result<(), Fail> {
    let summary = summed(&loaded(rt.alloc(), 7, 2000)?);
    let (live, sum) = by_ordered_map(rt.alloc(), 7, 2000)?;
    assert_eq!(rt; summary.live(), 1778);
    assert_eq!(rt; summary.sum(), 0xea61_4966_00cf_4337);
    assert_eq!(rt; live, 1778);
    assert_eq!(rt; sum, 0xea61_4966_00cf_4337);
    Ok(())
}
