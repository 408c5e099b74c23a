//! The list of truth values.
ghost use Rattle.std.specs.Prelude.{◌≡◌, ◌^◌, ◌+◌, ◌*◌, ◌≤◌, ◌<◌, [], ◌∷◌, ◌++◌, false, length, slice_index_or, IfOk, OnOk, OnErr, IsTrue, ◌↔◌, MatchOption};
ghost use Rattle.std.specs.Slice.Scan.{HoldsNowhere};
ghost use Rattle.lane_scan.specs.Places.{IsFirstBetween, IsLastBetween};
ghost use Rattle.bit_words.specs.Counts.{is_set_at};
ghost use Rattle.bit_model.specs.Numbers.{bits_of, number_at};
ghost use Rattle.bit_model.specs.Packed.{packed, unpacked};

use super::word::{MAX_BITS, byte_of, low_bits, make_room_for, number_from, set_bits, word_at};
use std::alloc::{AllocError, Allocator};
use std::marker::Model;

/// A list of truth values in words of 64 bits: bit `i` is bit `i mod 64` of word `i / 64`, and the rest of the last
/// word is 0.
#[derive(Drop)]
pub struct Bits<A: Allocator> {
    pub(super) words: Vec<u64, A>,
    pub(super) len: usize,
}

impl<A: Allocator> Model for Bits<A> {
    ghost use Rattle.std.specs.Prelude.{◌≡◌, ◌-◌, ◌^◌, ◌≤◌, Bool, List};
    ghost use Rattle.bit_model.specs.Packed.{packed, unpacked};

    ghost Value = { List Bool };

    ghost view = { λ b. unpacked 64 b.words.items b.len };

    ghost invariant = { λ b. (b.words.items ≡ packed 64 (unpacked 64 b.words.items b.len)) × (b.len ≤ 2 ^ 64 - 64) };
}

impl<A: Allocator> Bits<A> {
    /// An empty list, which grows from `alloc`. Takes no memory.
    pub fn new(alloc: A) -> Bits<A>
        ensures { result ≡ [] }
    {
        Bits {
            words: Vec::new(alloc),
            len: 0,
        }
    }

    /// The first `len` bits of `bytes`, where bit `i` is bit `i mod 8` of byte `i / 8`. Bits past `len` are ignored.
    ///
    /// Takes one block of memory, and fails where that is refused or `len` is above 2^64 - 64.
    pub fn from_bytes(alloc: A, bytes: &[u8], len: usize) -> Result<Bits<A>, AllocError>
        requires { len ≤ 8 * length bytes.now }
        ensures { IfOk result (λ bits. bits ≡ unpacked 8 bytes.now len) }
    {
        if len > MAX_BITS {
            return Err(AllocError);
        }
        let count = len.div_ceil(64);
        let mut words = Vec::with_capacity(alloc, count)?;
        for k in 0..count {
            words.push_reserved(low_bits(word_at(bytes, 8 * k), len - 64 * k));
        }
        Ok(Bits { words, len })
    }

    /// Adds a bit at the end. After an `Err` the list is as it was.
    pub fn push(&mut self, bit: bool) -> Result<(), AllocError>
        ensures added { OnOk result (self.new ≡ self.old ++ bit ∷ []) }
        ensures unchanged { OnErr result (self.new ≡ self.old) }
    {
        self.push_number(u64::from(bit), 1)
    }

    /// Adds the lowest `count` bits of `number` at the end, the lowest first. `count` is at most 64. After an `Err` the
    /// list is as it was.
    ///
    /// Writes two words at most, and takes memory only where a new word begins and the room is used up.
    pub fn push_number(&mut self, number: u64, count: usize) -> Result<(), AllocError>
        requires { count ≤ 64 }
        ensures added { OnOk result (self.new ≡ self.old ++ bits_of count number) }
        ensures unchanged { OnErr result (self.new ≡ self.old) }
    {
        if count == 0 {
            return Ok(());
        }
        make_room_for(&mut self.words, self.len, count)?;
        set_bits(&mut self.words, self.len, low_bits(number, count), count);
        self.len += count;
        Ok(())
    }

    /// The number that the `count` bits from place `i` on make, the lowest first. `count` is at most 64.
    ///
    /// Reads two words at most.
    pub fn number(&self, i: usize, count: usize) -> u64
        requires width { count ≤ 64 }
        requires there { i + count ≤ length self.now }
        ensures { result ≡ number_at self.now i count }
    {
        if count == 0 {
            return 0;
        }
        low_bits(number_from(&self.words, i, count), count)
    }

    /// Bit `i`.
    pub fn get(&self, i: usize) -> bool
        requires { i < length self.now }
        ensures { result ≡ slice_index_or self.now i false }
    {
        self.words[i / 64] >> (i % 64) & 1 == 1
    }

    /// The first set bit at place `start` or behind it, or `None` where none is set there.
    ///
    /// Looks at one word after the other.
    pub fn first_one_from(&self, start: usize) -> Option<usize>
        ensures { MatchOption result (HoldsNowhere (is_set_at self.now) start (length self.now)) (IsFirstBetween (is_set_at self.now) start (length self.now)) }
    {
        lane_scan::first_one_from(self.words(), start)
    }

    /// The last set bit before place `end`, or `None` where none is set there.
    ///
    /// Looks at one word after the other.
    pub fn last_one_before(&self, end: usize) -> Option<usize>
        ensures { MatchOption result (HoldsNowhere (is_set_at self.now) 0 end) (IsLastBetween (is_set_at self.now) 0 end) }
    {
        lane_scan::last_one_before(self.words(), end)
    }

    /// The number of bits.
    pub fn len(&self) -> usize
        ensures { result ≡ length self.now }
    {
        self.len
    }

    /// Whether there is no bit.
    pub fn is_empty(&self) -> bool
        ensures { IsTrue result ↔ (self.now ≡ []) }
    {
        self.len == 0
    }

    /// Appends the bits to `out`, eight a byte: bit `i` is bit `i mod 8` of byte `i / 8`, and the rest of the last
    /// byte is 0. After an `Err` `out` is as it was.
    pub fn to_bytes<B: Allocator>(&self, out: &mut Vec<u8, B>) -> Result<(), AllocError>
        ensures written { OnOk result (out.new.items ≡ out.old.items ++ packed 8 self.now) }
        ensures unchanged { OnErr result (out.new.items ≡ out.old.items) }
    {
        let count = self.len.div_ceil(8);
        out.try_reserve(count)?;
        for k in 0..count {
            out.push_reserved(byte_of(self.words[k / 8], k % 8));
        }
        Ok(())
    }

    /// The words that hold the bits: bit `i` is bit `i mod 64` of word `i / 64`, and the rest of the last word is 0.
    ///
    /// They are few enough for their set bits to be counted in a `u64`.
    pub fn words(&self) -> &[u64]
        ensures value { result.now ≡ packed 64 self.now }
        ensures limit { length result.now < 2 ^ 58 }
    {
        self.words.as_slice()
    }
}
