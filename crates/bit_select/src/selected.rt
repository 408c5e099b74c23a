//! The bits with the places of some of them.
ghost use Rattle.std.specs.Prelude.{◌≡◌, ◌≤◌, ◌<◌, ◌+◌, ◌*◌, length, count_by, IfOk, IfSome, MatchOption};
ghost use Rattle.bit_model.specs.Packed.{packed};
ghost use Rattle.bit_words.specs.Counts.{rank_of};
ghost use Rattle.lane_scan.specs.Ones.{ones_before};

use super::near::word_near;
use super::word::nth_one_in;
use bit_words::Bits;
use lane_scan::{ones, ones_below, word_with_nth_one};
use std::alloc::{AllocError, Allocator};
use std::marker::Model;

// How many set bits stand from one kept place to the next.
const STEP: u64 = 64;

// The most bits: a place is kept in four bytes, so that more of them stand in the processor's caches.
const MAX_BITS: usize = 0x1_0000_0000;

/// Where the search for a set bit begins: at a word, and with the bit's number, from 0, among those from there on.
#[derive(Clone, Copy)]
pub struct Start {
    pub word: usize,
    pub number: u64,
}

/// A list of truth values that finds its set bits by their numbers.
#[derive(Drop)]
pub struct Selected<A: Allocator> {
    bits: Bits<A>,
    samples: Vec<u32, A>,
}

impl<A: Allocator> Model for Selected<A> {
    ghost use Rattle.std.specs.Prelude.{Bool, List, length};

    ghost Value = { List Bool };

    ghost use Rattle.bit_select.specs.Place.{IsSampled};

    ghost view = { λ s. s.bits };

    ghost invariant = { λ s. IsSampled 64 s.bits (length s.bits) s.samples.items };
}

impl<A: Allocator> Selected<A> {
    ghost use Rattle.bit_select.specs.Place.{IsPlaceOfOne, IsStart, ones_to};

    /// Finds every 64th set bit. Takes one block of memory from `alloc`, and fails where that is refused or there are more
    /// than 2^32 bits.
    pub fn new(alloc: A, bits: Bits<A>) -> Result<Selected<A>, AllocError>
        ensures { IfOk result (λ selected. selected ≡ bits) }
    {
        if bits.len() > MAX_BITS {
            return Err(AllocError);
        }
        let words = bits.words();
        let mut samples = Vec::with_capacity(alloc, ones(words).div_ceil(STEP) as usize)?;
        let mut before = 0;
        let mut next = 0;
        for i in 0..words.len() {
            let count = u64::from(words[i].count_ones());
            if next < before + count {
                let place = 64 * i + nth_one_in(words[i], next - before);
                samples.push_reserved(place as u32);
                next += STEP;
            }
            before += count;
        }
        Ok(Selected { bits, samples })
    }

    /// Where the search for the nth set bit, from 0, begins, or `None` where at most `n` bits are set.
    ///
    /// Reads one kept place, and its word.
    pub fn start(&self, n: usize) -> Option<Start>
        ensures { MatchOption result (count_by (λ bit. bit) self.now ≤ n) (IsStart self.now n) }
    {
        if n / 64 >= self.samples.len() {
            return None;
        }
        let sample = self.samples[n / 64] as usize;
        let word = sample / 64;
        let number = (n % 64) as u64 + ones_below(self.bits.words()[word], sample % 64);
        Some(Start { word, number })
    }

    /// The place of the nth set bit, from 0, or `None` where at most `n` bits are set.
    pub fn select(&self, n: usize) -> Option<usize>
        ensures { MatchOption result (count_by (λ bit. bit) self.now ≤ n) (IsPlaceOfOne self.now n) }
    {
        let start = self.start(n)?;
        let words = &self.bits.words()[start.word..];
        let (word, left) = word_with_nth_one(words, start.number)?;
        Some(64 * (start.word + word) + nth_one_in(words[word], left))
    }

    /// The place of the set bit whose search begins at `start`, where it is in one of the first four words from there, and how
    /// many bits of `along` are set before that place and not before the start's word. `None` where the bit is not so near, or
    /// fewer than four words are left: [`select`](Selected::select) finds it then.
    ///
    /// Counts the four words at once and tests none of them, so that the processor foresees nothing wrong. That it answers
    /// where the bit is so near is said here alone: its clauses are met by `None` too.
    pub fn near(&self, start: Start, along: &[u64]) -> Option<(usize, u64)>
        requires there { 64 * start.word < length self.now }
        requires along { length along.now ≡ length (packed 64 self.now) }
        ensures place { IfSome result (λ found. IsPlaceOfOne self.now (rank_of self.now (64 * start.word) + start.number) found.0) }
        ensures along { IfSome result (λ found. ones_before along.now start.word + found.1 ≡ ones_to along.now found.0) }
        ensures few { IfSome result (λ found. found.1 ≤ 256) }
    {
        let words = &self.bits.words()[start.word..];
        let beside = &along[start.word..];
        let found = word_near(words, beside, start.number)?;
        let bit = nth_one_in(words[found.word], found.left);
        let place = 64 * (start.word + found.word) + bit;
        Some((place, found.beside + ones_below(beside[found.word], bit)))
    }

    /// The bits.
    pub fn bits(&self) -> &Bits<A>
        ensures { result.now ≡ self.now }
    {
        &self.bits
    }

    /// The words that hold the bits: bit `i` is bit `i mod 64` of word `i / 64`, and the rest of the last word is 0.
    pub fn words(&self) -> &[u64]
        ensures { result.now ≡ packed 64 self.now }
    {
        self.bits.words()
    }
}
