//! Many random sets at every cutoff, by their walks alone.
use super::keys::step;
use super::places::{Drawn, check_set};
use std::test::Fail;

// How many sets of keys are drawn; some of them, not four hundred, are empty.
const SETS: u64 = 10_400;

const DRAWN: Drawn = Drawn {
    letters: [0x00, 0x62, 0xFE, 0xFF],
    odds: 24,
    max_keys: 12,
    all_calls: false,
};

#[test]
fn many_random_sets_are_walked_as_plain_loops(rt: HostRuntime) -> Result<(), Fail> {
    let mut seed = 23;
    for _ in 0..SETS {
        seed = step(seed);
        check_set(&rt, rt.alloc(), seed, DRAWN)?;
    }
    Ok(())
}
