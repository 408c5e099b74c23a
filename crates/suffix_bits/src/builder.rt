//! Suffixes in room that was made before.
ghost use Rattle.std.specs.Prelude.{◌≡◌, ◌+◌, ◌≤◌, ◌<◌, [], length, IfOk};
ghost use Rattle.key_base.specs.Limits.{max_hash_bits, max_real_bits};
ghost use Rattle.suffix_bits.specs.Slots.{IsOfWidths, with_suffix};

use super::suffixes::{Suffixes, joined};
use bit_words::BitsBuilder;
use std::alloc::{AllocError, Allocator};
use std::marker::Model;

/// Suffixes that are pushed into room that was made before: no push takes memory or fails.
#[derive(Drop)]
pub struct SuffixesBuilder<A: Allocator> {
    bits: BitsBuilder<A>,
    hash_bits: u8,
    real_bits: u8,
    count: u64,
    limit: u64,
}

impl<A: Allocator> Model for SuffixesBuilder<A> {
    ghost use Rattle.std.specs.Prelude.{◌≡◌, ◌+◌, ◌*◌, ◌≤◌, length};
    ghost use Rattle.key_base.specs.Limits.{max_hash_bits, max_real_bits};
    ghost use Rattle.suffix_bits.specs.Slots.{unpacked_suffixes};
    ghost use Rattle.suffix_bits.specs.Room.{SuffixesInRoom};

    ghost Value = { SuffixesInRoom };

    ghost view = { λ s. record { array = record { hash_bits = s.hash_bits; real_bits = s.real_bits; slots = unpacked_suffixes s.hash_bits s.real_bits s.bits.bits s.count }; limit = s.limit } };

    ghost invariant = { λ s. (length s.bits.bits ≡ (s.hash_bits + s.real_bits) * s.count) × (s.bits.limit ≡ (s.hash_bits + s.real_bits) * s.limit) × (s.count ≤ s.limit) × (s.hash_bits ≤ max_hash_bits) × (s.real_bits ≤ max_real_bits) };
}

impl<A: Allocator> SuffixesBuilder<A> {
    /// Makes room for `limit` suffixes. Each width is at most 32.
    ///
    /// Takes one block of memory from `alloc`, and fails where that is refused or there are too many bits to count.
    pub fn with_room(
        alloc: A,
        hash_bits: u8,
        real_bits: u8,
        limit: u64,
    ) -> Result<SuffixesBuilder<A>, AllocError>
        requires hash_width { hash_bits ≤ max_hash_bits }
        requires real_width { real_bits ≤ max_real_bits }
        ensures { IfOk result (λ builder. builder ≡ record { array = record { hash_bits = hash_bits; real_bits = real_bits; slots = [] }; limit = limit }) }
    {
        let width = usize::from(hash_bits) + usize::from(real_bits);
        let Some(bits) = width.checked_mul(limit as usize) else {
            return Err(AllocError);
        };
        Ok(SuffixesBuilder {
            bits: BitsBuilder::with_room(alloc, bits)?,
            hash_bits,
            real_bits,
            count: 0,
            limit,
        })
    }

    /// Adds the suffix of the next slot. Each part is of its width. Writes two words at most.
    pub fn push(&mut self, hash: u32, real: u32)
        requires fits { IsOfWidths self.old.array.hash_bits self.old.array.real_bits (hash, real) }
        requires room { length self.old.array.slots < self.old.limit }
        ensures { self.new ≡ record self.old { array = with_suffix (hash, real) self.old.array } }
    {
        let width = usize::from(self.hash_bits) + usize::from(self.real_bits);
        self.bits
            .push_number(joined(hash, real, self.hash_bits), width);
        self.count += 1;
    }

    /// The number of suffixes so far.
    pub fn len(&self) -> u64
        ensures { result ≡ length self.now.array.slots }
    {
        self.count
    }

    /// The array. Takes no memory.
    pub fn finish(self) -> Suffixes<A>
        ensures { result ≡ self.array }
    {
        let SuffixesBuilder {
            bits,
            hash_bits,
            real_bits,
            count,
            ..
        } = self;
        Suffixes::of(bits.finish(), hash_bits, real_bits, count)
    }
}
