//! The sum of a part: FNV-1a of 64 bits.
ghost use Rattle.std.specs.Prelude.{◌≡◌, ℕ, List, [], ◌++◌};
ghost use Rattle.byte_fields.specs.Sums.{fnv_of, fnv_after};

use std::marker::Model;

// The sum of no byte.
const OFFSET: u64 = 0xcbf29ce484222325;

// By what the sum is multiplied at each byte.
const PRIME: u64 = 0x100000001b3;

/// The sum of `bytes`, in one pass.
pub fn fnv1a(bytes: &[u8]) -> u64
    ensures { result ≡ fnv_of bytes.now }
{
    sum_from(OFFSET, bytes)
}

/// The sum of bytes that come in parts: that of all that was fed.
#[derive(Drop)]
pub struct Summer {
    sum: u64,
}

impl Model for Summer {
    ghost use Rattle.std.specs.Prelude.{ℕ};

    ghost Value = { ℕ };

    ghost view = { λ summer. summer.sum };
}

impl Summer {
    /// The sum of no byte.
    pub fn new() -> Self
        ensures { result ≡ fnv_of [] }
    {
        Summer { sum: OFFSET }
    }

    /// Goes on with `bytes`.
    pub fn feed(&mut self, bytes: &[u8])
        ensures step { self.new ≡ fnv_after self.old bytes.now }
        ensures whole { (fed : List ℕ) → self.old ≡ fnv_of fed → self.new ≡ fnv_of (fed ++ bytes.now) }
    {
        self.sum = sum_from(self.sum, bytes);
    }

    /// The sum of all that was fed so far.
    pub fn value(&self) -> u64
        ensures { result ≡ self.now }
    {
        self.sum
    }
}

fn sum_from(sum: u64, bytes: &[u8]) -> u64
    ensures { result ≡ fnv_after sum bytes.now }
{
    bytes.iter().fold(
        sum,
        |sum: u64, byte| (sum ^ u64::from(*byte)).wrapping_mul(PRIME),
    )
}
