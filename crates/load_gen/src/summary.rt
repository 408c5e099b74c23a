//! How many pairs are live, and the sum of their values.
ghost use Rattle.std.specs.Prelude.{◌≡◌, ◌<◌, ◌+◌, ◌^◌, []};
ghost use Rattle.load_gen.specs.Summary.{nothing_live, with_pair, value_number};

use byte_fields::get_u64;
use std::marker::Model;

/// How many pairs a map has, and the sum of their values' numbers, in 64 bits.
#[derive(Debug, Drop)]
pub struct Summary {
    live: u64,
    sum: u64,
}

impl Model for Summary {
    ghost use Rattle.load_gen.specs.Summary as model;

    ghost Value = { model.Summary };

    ghost view = { λ s. record { live = s.live; sum = s.sum } };
}

impl Summary {
    /// The summary of an empty map.
    pub fn new() -> Summary
        ensures { result ≡ nothing_live }
    {
        Summary { live: 0, sum: 0 }
    }

    /// Counts a pair more, whose value this is.
    pub fn add(&mut self, value: &[u8])
        requires { self.old.live + 1 < 2 ^ 64 }
        ensures { self.new ≡ with_pair self.old ([], value.now) }
    {
        self.live += 1;
        self.sum = self.sum.wrapping_add(number_of(value));
    }

    /// How many pairs there are.
    pub fn live(&self) -> u64
        ensures { result ≡ self.now.live }
    {
        self.live
    }

    /// The sum of their values' numbers.
    pub fn sum(&self) -> u64
        ensures { result ≡ self.now.sum }
    {
        self.sum
    }
}

// The number that the first eight bytes of a value make.
fn number_of(value: &[u8]) -> u64
    ensures { result ≡ value_number value.now }
{
    if value.len() >= 8 {
        return get_u64(value, 0);
    }
    let mut bytes = [0; 8];
    bytes[..value.len()].copy_from_slice(value);
    get_u64(&bytes, 0)
}
