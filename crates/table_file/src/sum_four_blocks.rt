//! The sums of four byte strings of one length, side by side.
ghost use Rattle.std.specs.Prelude.{◌≡◌, length};
ghost use Rattle.byte_fields.specs.Sums.{fnv_of};

use byte_fields::Summer;

// How many bytes of each go into its sum before those of the next.
const TURN_BYTES: usize = 8;

/// The sums of four byte strings.
#[derive(Clone, Copy)]
pub(crate) struct FourSums {
    pub first: u64,
    pub second: u64,
    pub third: u64,
    pub fourth: u64,
}

/// The sums of four byte strings of one length.
///
/// A sum goes from byte to byte, and a processor waits for each step. It goes on with the others meanwhile: so the four take
/// about the time of one.
pub(crate) fn fnv1a_four(first: &[u8], second: &[u8], third: &[u8], fourth: &[u8]) -> FourSums
    requires second { length second.now ≡ length first.now }
    requires third { length third.now ≡ length first.now }
    requires fourth { length fourth.now ≡ length first.now }
    ensures first { result.first ≡ fnv_of first.now }
    ensures second { result.second ≡ fnv_of second.now }
    ensures third { result.third ≡ fnv_of third.now }
    ensures fourth { result.fourth ≡ fnv_of fourth.now }
{
    let (mut one, mut two) = (Summer::new(), Summer::new());
    let (mut three, mut four) = (Summer::new(), Summer::new());
    let turns = first.len() / TURN_BYTES;
    for turn in 0..turns {
        let at = TURN_BYTES * turn;
        one.feed(&first[at..at + TURN_BYTES]);
        two.feed(&second[at..at + TURN_BYTES]);
        three.feed(&third[at..at + TURN_BYTES]);
        four.feed(&fourth[at..at + TURN_BYTES]);
    }
    let at = TURN_BYTES * turns;
    one.feed(&first[at..]);
    two.feed(&second[at..]);
    three.feed(&third[at..]);
    four.feed(&fourth[at..]);
    FourSums {
        first: one.value(),
        second: two.value(),
        third: three.value(),
        fourth: four.value(),
    }
}
