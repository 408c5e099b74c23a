//! Bits in room that was made before.
ghost use Rattle.std.specs.Prelude.{◌≡◌, ◌+◌, ◌≤◌, ◌<◌, [], ◌∷◌, length, IfOk};
ghost use Rattle.bit_model.specs.Numbers.{bits_of};
ghost use Rattle.bit_words.specs.Room.{with_bits};

use super::bits::Bits;
use super::word::{MAX_BITS, add_word_for, low_bits, set_bits};
use std::alloc::{AllocError, Allocator};
use std::marker::Model;

/// Bits that are pushed into room that was made before: no push takes memory or fails.
#[derive(Drop)]
pub struct BitsBuilder<A: Allocator> {
    words: Vec<u64, A>,
    len: usize,
    limit: usize,
}

impl<A: Allocator> Model for BitsBuilder<A> {
    ghost use Rattle.std.specs.Prelude.{◌≡◌, ◌-◌, ◌^◌, ◌≤◌};
    ghost use Rattle.std.specs.Int.{div_ceil};
    ghost use Rattle.std.specs.Vec.{vec_capacity};
    ghost use Rattle.bit_model.specs.Packed.{packed, unpacked};
    ghost use Rattle.bit_words.specs.Room.{BitsInRoom};

    ghost Value = { BitsInRoom };

    ghost view = { λ b. record { bits = unpacked 64 b.words.items b.len; limit = b.limit } };

    ghost invariant = { λ b. (b.words.items ≡ packed 64 (unpacked 64 b.words.items b.len)) × (b.len ≤ b.limit) × (b.limit ≤ 2 ^ 64 - 64) × (div_ceil b.limit 64 ≤ vec_capacity b.words) };
}

impl<A: Allocator> BitsBuilder<A> {
    /// Makes room for `limit` bits. Takes one block of memory from `alloc`, and fails where that is refused or `limit`
    /// is above 2^64 - 64.
    pub fn with_room(alloc: A, limit: usize) -> Result<BitsBuilder<A>, AllocError>
        ensures { IfOk result (λ builder. builder ≡ record { bits = []; limit = limit }) }
    {
        if limit > MAX_BITS {
            return Err(AllocError);
        }
        Ok(BitsBuilder {
            words: Vec::with_capacity(alloc, limit.div_ceil(64))?,
            len: 0,
            limit,
        })
    }

    /// Adds a bit at the end.
    pub fn push(&mut self, bit: bool)
        requires { length self.old.bits < self.old.limit }
        ensures { self.new ≡ with_bits (bit ∷ []) self.old }
    {
        self.push_number(u64::from(bit), 1);
    }

    /// Adds the lowest `count` bits of `number` at the end, the lowest first. `count` is at most 64.
    ///
    /// Writes two words at most.
    pub fn push_number(&mut self, number: u64, count: usize)
        requires width { count ≤ 64 }
        requires room { length self.old.bits + count ≤ self.old.limit }
        ensures { self.new ≡ with_bits (bits_of count number) self.old }
    {
        if count == 0 {
            return;
        }
        add_word_for(&mut self.words, self.len, count);
        set_bits(&mut self.words, self.len, low_bits(number, count), count);
        self.len += count;
    }

    /// The number of bits so far.
    pub fn len(&self) -> usize
        ensures { result ≡ length self.now.bits }
    {
        self.len
    }

    /// How many bits there is room for, with those that are there.
    pub fn limit(&self) -> usize
        ensures { result ≡ self.now.limit }
    {
        self.limit
    }

    /// The bits. Takes no memory.
    pub fn finish(self) -> Bits<A>
        ensures { result ≡ self.bits }
    {
        let BitsBuilder { words, len, .. } = self;
        Bits { words, len }
    }
}
