//! Counts and places of set bits.
ghost use Rattle.std.specs.Prelude.{◌≤◌, ◌<◌, ◌^◌, length};

use crate::inputs::{random_bytes, random_numbers};
use crate::plain;
use crate::rounds::{Kernel, measure, print, rounds};
use anyhow::Result;
use bench_kit::{Figure, Numbers, boxed};
use bit_rank::Ranked;
use bit_select::Selected;
use bit_words::Bits;
use std::alloc::{AllocError, Global};
use std::num::nearest_u64_to_f64;
use std::time::CpuClock;

// How many calls of a kernel stand against one of a plain loop that begins at the first bit.
const PLAIN_SHARE: usize = 5000;

// The numbers that such a plain loop is called for.
fn few_of(numbers: &[u64]) -> &[u64] {
    &numbers[..numbers.len().div_ceil(PLAIN_SHARE)]
}

// As many random bits.
fn random_bits(alloc: Global, count: u64, numbers: &mut Numbers) -> Result<Bits<Global>> {
    let len = usize::try_from(count)?;
    let bytes = random_bytes(alloc, len.div_ceil(8), numbers)?;
    Ok(Bits::from_bytes(alloc, bytes.as_slice(), len)?)
}

/// As many bits, one in `one_in` of them set.
pub fn sparse_bits(
    alloc: Global,
    count: u64,
    one_in: u64,
    numbers: &mut Numbers,
) -> Result<Bits<Global>, AllocError> {
    let mut bits = Bits::new(alloc);
    for _ in 0..count {
        bits.push(numbers.draw_to(one_in.saturating_sub(1)) == 0)?;
    }
    Ok(bits)
}

// The sum of the ranks at these places, or at `len` where one is greater.
#[inline(never)]
fn sum_of_ranks(ranked: &Ranked<Global>, len: usize, places: &[u64]) -> u64
    requires { len ≤ length ranked.now }
{
    let mut sum = 0u64;
    for place in places {
        sum = sum.wrapping_add(ranked.rank((*place as usize).min(len)) as u64);
    }
    sum
}

// The sum of the plain ranks at these places.
fn sum_of_plain_ranks(words: &[u64], places: &[u64]) -> u64 {
    let mut sum = 0u64;
    for place in places {
        sum = sum.wrapping_add(plain::rank(words, *place as usize));
    }
    sum
}

// Random bits with their counts.
fn random_ranked(alloc: Global, count: u64, numbers: &mut Numbers) -> Result<Box<Ranked<Global>>> {
    let bits = random_bits(alloc, count, numbers)?;
    Ok(boxed(alloc, Ranked::new(alloc, bits)?)?)
}

// Ranks at some places, and the plain loop's at few of them.
#[derive(Clone, Copy)]
struct Ranks<'a> {
    ranked: &'a Ranked<Global>,
    places: &'a [u64],
    few: &'a [u64],
}

impl<'a> Kernel for Ranks<'a> {
    fn kernel(&self) -> u64 {
        sum_of_ranks(self.ranked, self.ranked.bits().len(), self.places)
    }

    fn plain(&self) -> u64 {
        sum_of_plain_ranks(self.ranked.words(), self.few)
    }

    fn agree(&self, _kernel: u64, plain: u64) -> bool {
        sum_of_ranks(self.ranked, self.ranked.bits().len(), self.few) == plain
    }

    fn calls(&self) -> (u64, u64) {
        (self.places.len() as u64, self.few.len() as u64)
    }
}

/// Measures `rank` at random places of `size` random bits.
pub fn rank(
    rt: &(impl Print + CpuClock),
    alloc: Global,
    size: u64,
    calls: u64,
    seed: u64,
) -> Result<()> {
    let mut numbers = Numbers::new(seed);
    let ranked = random_ranked(alloc, size, &mut numbers)?;
    let places = random_numbers(alloc, usize::try_from(calls)?, size, &mut numbers)?;
    let ranks = Ranks {
        ranked: &ranked,
        places: &places,
        few: few_of(&places),
    };
    measure(rt, "rank", &ranks)
}

// The sum of the places of these set bits.
#[inline(never)]
fn sum_of_selects(selected: &Selected<Global>, numbers: &[u64]) -> u64 {
    let mut sum = 0u64;
    for n in numbers {
        let place = selected.select(*n as usize).unwrap_or(0);
        sum = sum.wrapping_add(place as u64);
    }
    sum
}

// The sum of the plain places of these set bits.
fn sum_of_plain_selects(words: &[u64], numbers: &[u64]) -> u64 {
    let mut sum = 0u64;
    for n in numbers {
        sum = sum.wrapping_add(plain::select(words, *n).unwrap_or(0));
    }
    sum
}

// Bits, one in `one_in` of them set, with the places of some.
fn sparse_selected(
    alloc: Global,
    count: u64,
    one_in: u64,
    numbers: &mut Numbers,
) -> Result<Box<Selected<Global>>, AllocError> {
    let bits = sparse_bits(alloc, count, one_in, numbers)?;
    boxed(alloc, Selected::new(alloc, bits)?)
}

// The places of some set bits, and the plain loop's of few of them.
#[derive(Clone, Copy)]
struct Selects<'a> {
    selected: &'a Selected<Global>,
    wanted: &'a [u64],
    few: &'a [u64],
}

impl<'a> Kernel for Selects<'a> {
    fn kernel(&self) -> u64 {
        sum_of_selects(self.selected, self.wanted)
    }

    fn plain(&self) -> u64 {
        sum_of_plain_selects(self.selected.words(), self.few)
    }

    fn agree(&self, _kernel: u64, plain: u64) -> bool {
        sum_of_selects(self.selected, self.few) == plain
    }

    fn calls(&self) -> (u64, u64) {
        (self.wanted.len() as u64, self.few.len() as u64)
    }
}

/// Measures `select` at random set bits of `size` bits, one in `one_in` of them set.
pub fn select(
    rt: &(impl Print + CpuClock),
    alloc: Global,
    size: u64,
    calls: u64,
    seed: u64,
    one_in: u64,
) -> Result<()> {
    let mut numbers = Numbers::new(seed);
    let selected = sparse_selected(alloc, size, one_in, &mut numbers)?;
    let last = plain::ones(selected.words()).saturating_sub(1);
    let wanted = random_numbers(alloc, usize::try_from(calls)?, last, &mut numbers)?;
    let selects = Selects {
        selected: &selected,
        wanted: &wanted,
        few: few_of(&wanted),
    };
    measure(rt, "select", &selects)
}

// The set bits of the words, as often as there are calls. Each call leaves out some words at the start, so that none
// is the same as the one before.
#[inline(never)]
fn sum_of_ones(words: &[u64], calls: u64) -> u64
    requires { length words.now < 2 ^ 58 }
{
    let mut sum = 0u64;
    for k in 0..calls {
        if let Some(part) = words.get((k % 8) as usize..) {
            sum = sum.wrapping_add(lane_scan::ones(part));
        }
    }
    sum
}

// The same by the plain loop.
#[inline(never)]
fn sum_of_plain_ones(words: &[u64], calls: u64) -> u64 {
    let mut sum = 0u64;
    for k in 0..calls {
        if let Some(part) = words.get((k % 8) as usize..) {
            sum = sum.wrapping_add(plain::ones(part));
        }
    }
    sum
}

// The set bits of all words, again and again.
#[derive(Clone, Copy)]
struct AllOnes<'a> {
    bits: &'a Bits<Global>,
    calls: u64,
}

impl<'a> Kernel for AllOnes<'a> {
    fn kernel(&self) -> u64 {
        sum_of_ones(self.bits.words(), self.calls)
    }

    fn plain(&self) -> u64 {
        sum_of_plain_ones(self.bits.words(), self.calls)
    }

    fn agree(&self, kernel: u64, plain: u64) -> bool {
        kernel == plain
    }

    fn calls(&self) -> (u64, u64) {
        (self.calls, self.calls)
    }
}

/// Measures `ones` on `size` random bits.
pub fn ones(
    rt: &(impl Print + CpuClock),
    alloc: Global,
    size: u64,
    calls: u64,
    seed: u64,
) -> Result<()> {
    let mut numbers = Numbers::new(seed);
    let bits = boxed(alloc, random_bits(alloc, size, &mut numbers)?)?;
    measure_ones(rt, &AllOnes { bits: &bits, calls })
}

fn measure_ones(rt: &(impl Print + CpuClock), ones: &AllOnes<'_>) -> Result<()> {
    let (race, sum) = rounds(rt, ones)?;
    let bytes = nearest_u64_to_f64(ones.bits.words().len() as u64) * 8.0;
    let rate = ("bytes_a_ns", Figure::Real(bytes / race.call.nanoseconds));
    print(rt, "ones", &race, sum, Some(rate))
}
