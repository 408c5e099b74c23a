//! The packed array of suffixes.
ghost use Rattle.std.specs.Prelude.{◌≡◌, ◌↔◌, ◌+◌, ◌*◌, ◌/◌, ◌%◌, ◌^◌, ◌<◌, ◌≤◌, [], length, slice_index_or, OnOk, OnErr, IsTrue};
ghost use Rattle.key_base.specs.Limits.{max_hash_bits, max_real_bits};
ghost use Rattle.suffix_bits.specs.Slots.{IsOfWidths, array_bits, unpacked_suffixes, with_suffix};

use bit_words::Bits;
use std::alloc::{AllocError, Allocator};
use std::marker::Model;

/// The suffixes of a filter's leaves by slot: each is `hash_bits + real_bits` bits, without gaps, the number
/// `hash + 2^hash_bits * real` with its lowest bit first.
#[derive(Drop)]
pub struct Suffixes<A: Allocator> {
    bits: Bits<A>,
    hash_bits: u8,
    real_bits: u8,
    count: u64,
}

impl<A: Allocator> Model for Suffixes<A> {
    ghost use Rattle.std.specs.Prelude.{◌≡◌, ◌+◌, ◌*◌, ◌≤◌, length};
    ghost use Rattle.key_base.specs.Limits.{max_hash_bits, max_real_bits};
    ghost use Rattle.suffix_bits.specs.Slots.{SuffixArray, unpacked_suffixes};

    ghost Value = { SuffixArray };

    ghost view = { λ s. record { hash_bits = s.hash_bits; real_bits = s.real_bits; slots = unpacked_suffixes s.hash_bits s.real_bits s.bits s.count } };

    ghost invariant = { λ s. (length s.bits ≡ (s.hash_bits + s.real_bits) * s.count) × (s.hash_bits ≤ max_hash_bits) × (s.real_bits ≤ max_real_bits) };
}

impl<A: Allocator> Suffixes<A> {
    /// An array of no suffix, which grows from `alloc`. Each width is at most 32. Takes no memory.
    pub fn new(alloc: A, hash_bits: u8, real_bits: u8) -> Suffixes<A>
        requires hash_width { hash_bits ≤ max_hash_bits }
        requires real_width { real_bits ≤ max_real_bits }
        ensures { result ≡ record { hash_bits = hash_bits; real_bits = real_bits; slots = [] } }
    {
        Suffixes {
            bits: Bits::new(alloc),
            hash_bits,
            real_bits,
            count: 0,
        }
    }

    /// The `count` suffixes that `bits` spell. Each width is at most 32, and there are as many bits as the suffixes
    /// need. Takes no memory.
    pub fn of(bits: Bits<A>, hash_bits: u8, real_bits: u8, count: u64) -> Suffixes<A>
        requires hash_width { hash_bits ≤ max_hash_bits }
        requires real_width { real_bits ≤ max_real_bits }
        requires enough { length bits ≡ (hash_bits + real_bits) * count }
        ensures { result ≡ record { hash_bits = hash_bits; real_bits = real_bits; slots = unpacked_suffixes hash_bits real_bits bits count } }
    {
        Suffixes {
            bits,
            hash_bits,
            real_bits,
            count,
        }
    }

    /// Adds the suffix of the next slot. Each part is of its width. After an `Err` the array is as it was.
    ///
    /// Writes two words at most, and takes memory only where a new word begins and the room is used up.
    pub fn push(&mut self, hash: u32, real: u32) -> Result<(), AllocError>
        requires { IsOfWidths self.old.hash_bits self.old.real_bits (hash, real) }
        ensures added { OnOk result (self.new ≡ with_suffix (hash, real) self.old) }
        ensures unchanged { OnErr result (self.new ≡ self.old) }
    {
        if self.count == u64::MAX {
            return Err(AllocError);
        }
        let width = self.width();
        self.bits
            .push_number(joined(hash, real, self.hash_bits), width)?;
        self.count += 1;
        Ok(())
    }

    /// The hash bits and the real bits of a slot. Reads two words at most.
    pub fn get(&self, slot: u64) -> (u32, u32)
        requires { slot < length self.now.slots }
        ensures suffix { result ≡ slice_index_or self.now.slots slot (0, 0) }
        ensures fits { IsOfWidths self.now.hash_bits self.now.real_bits result }
    {
        let width = self.width();
        let len = self.bits.len();
        let first = width * slot as usize;
        prove!(first + width <= len);
        split(self.bits.number(first, width), self.hash_bits)
    }

    /// How many hash bits, and how many real bits, each suffix has: 32 at most of each.
    pub fn widths(&self) -> (u8, u8)
        ensures widths { result ≡ (self.now.hash_bits, self.now.real_bits) }
        ensures limits { (result.0 ≤ max_hash_bits) × (result.1 ≤ max_real_bits) }
    {
        (self.hash_bits, self.real_bits)
    }

    /// The number of suffixes.
    pub fn len(&self) -> u64
        ensures { result ≡ length self.now.slots }
    {
        self.count
    }

    /// Whether there is no suffix.
    pub fn is_empty(&self) -> bool
        ensures { IsTrue result ↔ (self.now.slots ≡ []) }
    {
        self.count == 0
    }

    /// The bits of all suffixes, one after the other.
    pub fn bits(&self) -> &Bits<A>
        ensures { result.now ≡ array_bits self.now }
    {
        &self.bits
    }

    // The bits of one suffix.
    fn width(&self) -> usize
        ensures width { result ≡ self.now.hash_bits + self.now.real_bits }
        ensures limit { result ≤ 64 }
    {
        usize::from(self.hash_bits) + usize::from(self.real_bits)
    }
}

/// One number of the two, the hash bits lowest.
pub(crate) fn joined(hash: u32, real: u32, hash_bits: u8) -> u64
    requires width { hash_bits ≤ max_hash_bits }
    requires fits { hash < 2 ^ hash_bits }
    ensures { result ≡ hash + 2 ^ hash_bits * real }
{
    u64::from(real) << hash_bits | u64::from(hash)
}

// The two of one number.
fn split(number: u64, hash_bits: u8) -> (u32, u32)
    requires width { hash_bits ≤ max_hash_bits }
    requires fits { number < 2 ^ (32 + hash_bits) }
    ensures { result ≡ (number % 2 ^ hash_bits, number / 2 ^ hash_bits) }
{
    let hash = number & ((1 << hash_bits) - 1);
    (hash as u32, (number >> hash_bits) as u32)
}
