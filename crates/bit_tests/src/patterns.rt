//! Bits of three patterns, and numbers that look random.
use bit_words::Bits;
use std::alloc::Global;
use std::test::Fail;

/// How bits are made.
#[derive(Clone, Copy, Debug)]
pub(crate) enum Pattern {
    All,
    None,
    Random,
}

/// The number behind another one: a linear congruence, of which the highest bits look random.
pub(crate) fn next_number(number: u64) -> u64 {
    number
        .wrapping_mul(6364136223846793005)
        .wrapping_add(1442695040888963407)
}

/// As many bits of a pattern.
pub(crate) fn bits_of(alloc: Global, pattern: Pattern, len: usize) -> Result<Bits<Global>, Fail> {
    let mut number = 7;
    let mut bits = Bits::new(alloc);
    for _ in 0..len {
        number = next_number(number);
        bits.push(match pattern {
            Pattern::All => true,
            Pattern::None => false,
            Pattern::Random => (number >> 33) % 3 == 0,
        })?;
    }
    Ok(bits)
}
