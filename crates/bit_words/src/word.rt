//! Words out of bytes and bytes out of words.
ghost use Rattle.std.specs.Prelude.{◌≡◌, ℕ, ◌+◌, ◌-◌, ◌||◌, ◌%◌, ◌/◌, ◌*◌, ◌^◌, ◌<◌, ◌≤◌, ◌==◌, [], ◌∷◌, ◌++◌, length, drop, min, if◌then◌else◌, slice_index, slice_set, bit_or, OnOk, OnErr};
ghost use Rattle.std.specs.Int.{bit_at, div_ceil};
ghost use Rattle.std.specs.Vec.{vec_capacity};
ghost use Rattle.bit_model.specs.Packed.{packed_bit};
ghost use Rattle.byteorder.specs.Endian.{little_number};

use byteorder::{ByteOrder, LittleEndian};
use std::alloc::{AllocError, Allocator};

/// The most bits that a list can hold: whole words, and fewer than a `usize` counts.
pub(crate) const MAX_BITS: usize = usize::MAX - 63;

/// Adds a word where the words are too few for `count` bits after the `len` that they hold.
pub(crate) fn make_room_for<A: Allocator>(
    words: &mut Vec<u64, A>,
    len: usize,
    count: usize,
) -> Result<(), AllocError>
    requires limit { len ≤ MAX_BITS }
    requires full { length words.old.items ≡ div_ceil len 64 }
    requires width { count ≤ 64 }
    ensures room { OnOk result (length words.new.items ≡ div_ceil (len + count) 64) }
    ensures same { (k : ℕ) → slice_index words.new.items k ≡ slice_index words.old.items k }
    ensures below { OnOk result (len + count ≤ MAX_BITS) }
    ensures unchanged { OnErr result (words.new.items ≡ words.old.items) }
{
    if MAX_BITS - len < count {
        return Err(AllocError);
    }
    if words.len() < (len + count).div_ceil(64) {
        words.push(0)?;
    }
    Ok(())
}

/// Adds a word, for which there is room, where the words are too few for `count` bits after the `len` that they hold.
pub(crate) fn add_word_for<A: Allocator>(words: &mut Vec<u64, A>, len: usize, count: usize)
    requires limit { len + count ≤ MAX_BITS }
    requires full { length words.old.items ≡ div_ceil len 64 }
    requires width { count ≤ 64 }
    requires room { div_ceil (len + count) 64 ≤ vec_capacity words.old }
    ensures long { length words.new.items ≡ div_ceil (len + count) 64 }
    ensures same { (k : ℕ) → slice_index words.new.items k ≡ slice_index words.old.items k }
    ensures capacity { vec_capacity words.new ≡ vec_capacity words.old }
{
    if words.len() < (len + count).div_ceil(64) {
        words.push_reserved(0);
    }
}

/// Sets the bits from place `i` on, which are 0, to those of `number`, which is below 2^count.
pub(crate) fn set_bits<A: Allocator>(words: &mut Vec<u64, A>, i: usize, number: u64, count: usize)
    requires some { 0 < count }
    requires width { count ≤ 64 }
    requires fits { number < 2 ^ count }
    requires there { i + count ≤ 64 * length words.old.items }
    ensures long { length words.new.items ≡ length words.old.items }
    ensures capacity { vec_capacity words.new ≡ vec_capacity words.old }
    ensures fit { (k : ℕ) → slice_index words.new.items k < 2 ^ 64 }
    ensures before { (j : ℕ) → j < i → packed_bit 64 words.new.items j ≡ packed_bit 64 words.old.items j }
    ensures set { (j : ℕ) → packed_bit 64 words.new.items (i + j) ≡ (packed_bit 64 words.old.items (i + j) || bit_at number j == 1) }
{
    let (k, shift) = (i / 64, i % 64);
    words[k] |= number << shift;
    if shift + count > 64 {
        words[k + 1] |= number >> (64 - shift);
    }
}

/// The `count` bits from place `i` on as the lowest of a number. Any stand above them.
pub(crate) fn number_from(words: &[u64], i: usize, count: usize) -> u64
    requires some { 0 < count }
    requires width { count ≤ 64 }
    requires there { i + count ≤ 64 * length words.now }
    ensures { (j : ℕ) → j < count → bit_at result j ≡ bit_at (slice_index words.now ((i + j) / 64)) ((i + j) % 64) }
{
    let (k, shift) = (i / 64, i % 64);
    let low = words[k] >> shift;
    if shift + count > 64 {
        low | words[k + 1] << (64 - shift)
    } else {
        low
    }
}

/// The number in the eight bytes from `at` on, or in as many as there are, the lowest first.
pub(crate) fn word_at(bytes: &[u8], at: usize) -> u64
    requires { at < length bytes.now }
    ensures { result ≡ little_number (min 8 (length bytes.now - at)) (drop at bytes.now) }
{
    let rest = &bytes[at..];
    if rest.len() < 8 {
        LittleEndian::read_uint(rest, rest.len())
    } else {
        LittleEndian::read_u64(rest)
    }
}

/// The lowest `count` bits of `word`.
pub(crate) fn low_bits(word: u64, count: usize) -> u64
    ensures { result ≡ word % 2 ^ min 64 count }
{
    if count < 64 {
        word & ((1 << count) - 1)
    } else {
        word
    }
}

/// Byte `k` of `word`, from the lowest.
pub(crate) fn byte_of(word: u64, k: usize) -> u8
    requires { k < 8 }
    ensures { result ≡ word / 2 ^ (8 * k) % 2 ^ 8 }
{
    (word >> (8 * k) & 0xff) as u8
}
