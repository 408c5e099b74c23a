//! Set bits in words.
ghost use Rattle.std.specs.Prelude.{◌≡◌, ◌≤◌, ◌<◌, ◌+◌, ◌*◌, ◌/◌, ◌%◌, ◌^◌, length, count_ones};
ghost use Rattle.std.specs.List.{sum_by};
ghost use Rattle.lane_scan.specs.Ones.{ones_before};

use std::simd::u64x4;

// How many words are counted in lanes.
const LANES: usize = 4;

// How many words make a group.
const GROUP: usize = 32;

/// How many bits are set in `words`, of which there are fewer than 2^58.
///
/// Counts 32 words at a time, and a rest of fewer word by word. Takes no memory.
pub fn ones(words: &[u64]) -> u64
    requires { length words.now < 2 ^ 58 }
    ensures { result ≡ sum_by count_ones words.now }
{
    let mut total = ones_in_groups(words);
    for i in words.len() / GROUP * GROUP..words.len() {
        total += u64::from(words[i].count_ones());
    }
    total
}

/// How many bits of `word` are set below `place`.
pub fn ones_below(word: u64, place: usize) -> u64
    requires { place < 64 }
    ensures { result ≡ count_ones (word % 2 ^ place) }
{
    u64::from((word & ((1 << place) - 1)).count_ones())
}

// How many bits are set in the four words from `at` on.
fn ones_in_lanes(words: &[u64], at: usize) -> u64
    requires { at + LANES ≤ length words.now }
    ensures { ones_before words.now at + result ≡ ones_before words.now (at + LANES) }
{
    u64x4::from_slice(&words[at..])
        .count_ones()
        .strict_reduce_sum()
}

// How many bits are set in the thirty-two words from `at` on.
//
// Four are counted in lanes and the others by the processor's count of a word, which go on side by side.
fn ones_in_group(words: &[u64], at: usize) -> u64
    requires { at + GROUP ≤ length words.now }
    ensures { ones_before words.now at + result ≡ ones_before words.now (at + GROUP) }
{
    let mut total = ones_in_lanes(words, at);
    for i in at + LANES..at + GROUP {
        total += u64::from(words[i].count_ones());
    }
    total
}

// How many bits are set in the whole groups.
fn ones_in_groups(words: &[u64]) -> u64
    requires { length words.now < 2 ^ 58 }
    ensures { result ≡ ones_before words.now (length words.now / GROUP * GROUP) }
{
    let mut total = 0;
    for i in 0..words.len() / GROUP {
        total += ones_in_group(words, GROUP * i);
    }
    total
}
