//! The bits with their counts.
ghost use Rattle.std.specs.Prelude.{◌≡◌, ◌≤◌, ◌<◌, ◌+◌, ◌*◌, ◌%◌, ◌/◌, ◌==◌, cond, false, length, take, slice_index_or, count_by, count_ones, IfOk};
ghost use Rattle.std.specs.List.{sum_by};
ghost use Rattle.bit_rank.specs.Words.{IsWordOf};
ghost use Rattle.bit_model.specs.Packed.{packed};

use super::word::RankedWord;
use bit_words::Bits;
use lane_scan::{ones, ones_below};
use std::alloc::{AllocError, Allocator};
use std::marker::Model;

// How many words make a block, before which a count is kept.
const BLOCK_WORDS: usize = 2;

// How many bits make a block.
const BLOCK_BITS: usize = 128;

// The most bits: a count is kept in four bytes, so that more of them stand in the processor's caches.
const MAX_BITS: usize = 0xFFFF_FFFF;

/// A list of truth values that counts its set bits before any place.
#[derive(Drop)]
pub struct Ranked<A: Allocator> {
    bits: Bits<A>,
    counts: Vec<u32, A>,
}

impl<A: Allocator> Model for Ranked<A> {
    ghost use Rattle.std.specs.Prelude.{◌≡◌, Bool, List};
    ghost use Rattle.bit_rank.specs.Blocks.{block_ranks};

    ghost Value = { List Bool };

    ghost view = { λ r. r.bits };

    ghost invariant = { λ r. r.counts.items ≡ block_ranks 128 r.bits };
}

impl<A: Allocator> Ranked<A> {
    /// Counts the set bits before each block. Takes one block of memory from `alloc`, and fails where that is refused or
    /// there are 2^32 bits or more.
    pub fn new(alloc: A, bits: Bits<A>) -> Result<Ranked<A>, AllocError>
        ensures { IfOk result (λ ranked. ranked ≡ bits) }
    {
        if bits.len() > MAX_BITS {
            return Err(AllocError);
        }
        let blocks = bits.len() / BLOCK_BITS + 1;
        let mut counts = Vec::with_capacity(alloc, blocks)?;
        let mut count = 0;
        for k in 0..blocks {
            counts.push_reserved(count as u32);
            count += ones_in_block(bits.words(), k);
        }
        Ok(Ranked { bits, counts })
    }

    /// How many bits are set at places below `i`.
    pub fn rank(&self, i: usize) -> usize
        requires { i ≤ length self.now }
        ensures { result ≡ count_by (λ bit. bit) (take i self.now) }
    {
        if i < self.bits.len() {
            self.bit_and_rank(i).1
        } else {
            self.rank_of_all()
        }
    }

    /// Bit `i`, and how many bits are set below it.
    ///
    /// Reads one kept count and two words, of one block.
    pub fn bit_and_rank(&self, i: usize) -> (bool, usize)
        requires { i < length self.now }
        ensures bit { result.0 ≡ slice_index_or self.now i false }
        ensures rank { result.1 ≡ count_by (λ bit. bit) (take i self.now) }
    {
        self.look_in(self.word_of(i), i)
    }

    /// The word that holds bit `i`, with the count of the bits before it: what `bit_and_rank_by` asks for.
    ///
    /// Reads one kept count and two words, of one block.
    pub fn word_of(&self, i: usize) -> RankedWord
        requires { i < length self.now }
        ensures word { IsWordOf self.now result }
        ensures number { result.number ≡ i / 64 }
    {
        let words = self.bits.words();
        let before = u64::from(self.counts[i / BLOCK_BITS])
            + ones_before(words[BLOCK_WORDS * (i / BLOCK_BITS)], i);
        RankedWord {
            number: i / 64,
            word: words[i / 64],
            before,
        }
    }

    /// The same as `bit_and_rank`, for whoever read the word of a place near by before it was known which bit is asked for.
    ///
    /// Reads nothing where that word holds the bit.
    pub fn bit_and_rank_by(&self, word: RankedWord, i: usize) -> (bool, usize)
        requires there { i < length self.now }
        requires word { IsWordOf self.now word }
        ensures bit { result.0 ≡ slice_index_or self.now i false }
        ensures rank { result.1 ≡ count_by (λ bit. bit) (take i self.now) }
    {
        if word.number == i / 64 {
            self.look_in(word, i)
        } else {
            self.bit_and_rank(i)
        }
    }

    // Bit `i`, and how many bits are set below it, by the word that holds it.
    fn look_in(&self, word: RankedWord, i: usize) -> (bool, usize)
        requires there { i < length self.now }
        requires word { IsWordOf self.now word }
        requires number { word.number ≡ i / 64 }
        ensures bit { result.0 ≡ slice_index_or self.now i false }
        ensures rank { result.1 ≡ count_by (λ bit. bit) (take i self.now) }
    {
        let bit = word.word >> (i % 64) & 1 == 1;
        let rank = word.before + ones_below(word.word, i % 64);
        (bit, rank as usize)
    }

    // How many bits are set in all.
    fn rank_of_all(&self) -> usize
        ensures { result ≡ count_by (λ bit. bit) self.now }
    {
        let words = self.bits.words();
        let block = self.bits.len() / BLOCK_BITS;
        (u64::from(self.counts[block]) + ones(&words[BLOCK_WORDS * block..])) as usize
    }

    /// The bits.
    pub fn bits(&self) -> &Bits<A>
        ensures { result.now ≡ self.now }
    {
        &self.bits
    }

    /// The words that hold the bits: bit `i` is bit `i mod 64` of word `i / 64`, and the rest of the last word is 0.
    pub fn words(&self) -> &[u64]
        ensures { result.now ≡ packed 64 self.now }
    {
        self.bits.words()
    }
}

// How many bits are set in block `k` of two words, or in the part of it that there is.
fn ones_in_block(words: &[u64], k: usize) -> u64
    requires { BLOCK_WORDS * k ≤ length words.now }
    ensures { sum_by count_ones (take (BLOCK_WORDS * k) words.now) + result ≡ sum_by count_ones (take (BLOCK_WORDS * k + BLOCK_WORDS) words.now) }
{
    let end = words.len().min(BLOCK_WORDS * k + BLOCK_WORDS);
    ones(&words[BLOCK_WORDS * k..end])
}

// How many bits are set in the first word of the block of place `i`, if the place is in the second.
fn ones_before(first: u64, i: usize) -> u64
    ensures { result ≡ cond (i / 64 % 2 == 1) (count_ones first) 0 }
{
    if i / 64 % 2 == 1 {
        u64::from(first.count_ones())
    } else {
        0
    }
}
