//! The suffix bits of a key, and the bytes that real bits stand for.
ghost use Rattle.std.specs.Prelude.{◌≡◌, ◌<◌, ◌≤◌, ◌-◌, ◌*◌, ◌^◌, drop, slice_index, take};
ghost use Rattle.key_base.specs.Limits.{max_hash_bits, max_real_bits};
ghost use Rattle.filter_model.specs.Leaves.{hash_bits_of as hash_of};
ghost use Rattle.filter_model.specs.Strings.{bits, prefix_number, shortest};

use byte_fields::fnv1a;

/// The low `n` bits of the key's FNV-1a, `n` at most 32. Where it is 0 the key is not gone over.
pub fn hash_bits_of(key: &[u8], n: u8) -> u32
    requires { n ≤ max_hash_bits }
    ensures { result ≡ hash_of n key.now }
{
    if n == 0 {
        return 0;
    }
    (fnv1a(key) % 2u64.pow(u32::from(n))) as u32
}

/// The `n` bits of the key that stand from byte `from` on, the highest bit of each byte first, zero bits where the key
/// has no more. `n` is at most 32.
pub fn real_bits_of(key: &[u8], from: usize, n: u8) -> u32
    requires { n ≤ max_real_bits }
    ensures { result ≡ bits n (drop from key.now) }
{
    let from = from.min(key.len());
    let first = first_four(&key[from..]);
    (u64::from(first) >> (32 - n)) as u32
}

/// The real bits of a leaf, filled with zero bits to 32. Their width is at most 32.
#[tactic(auto, using(crate::proofs::FilledBits::filled_fits))]
pub fn filled(real: u32, real_bits: u8) -> u32
    requires width { real_bits ≤ max_real_bits }
    requires real { real < 2 ^ real_bits }
    ensures { result ≡ real * 2 ^ (32 - real_bits) }
{
    (u64::from(real) << (32 - real_bits)) as u32
}

/// The four bytes of `number`, the highest first, and how many of them stand before the zero bytes at the end.
pub fn shortest_bytes(number: u32) -> ([u8; 4], usize)
    ensures len { result.1 ≤ 4 }
    ensures bytes { take result.1 result.0 ≡ shortest 4 number }
{
    let a = (number / 0x100_0000) as u8;
    let b = (number / 0x1_0000 % 0x100) as u8;
    let c = (number / 0x100 % 0x100) as u8;
    let d = (number % 0x100) as u8;
    let len = match (a, b, c, d) {
        (0, 0, 0, 0) => 0,
        (_, 0, 0, 0) => 1,
        (_, _, 0, 0) => 2,
        (_, _, _, 0) => 3,
        _ => 4,
    };
    ([a, b, c, d], len)
}

// The number that the first four bytes make, zero bytes where there are fewer.
fn first_four(bytes: &[u8]) -> u32
    ensures { result ≡ prefix_number 4 bytes.now }
{
    let [a, b, c, d] = [0, 1, 2, 3].map(|i| u32::from(byte_at(bytes, i)));
    a * 0x100_0000 + b * 0x1_0000 + c * 0x100 + d
}

/// The byte at a place, from 0; zero where there is none.
pub fn byte_at(bytes: &[u8], i: usize) -> u8
    ensures { result ≡ slice_index bytes.now i }
{
    if i < bytes.len() { bytes[i] } else { 0 }
}
