//! The steps of a load, one after the other.
ghost use Rattle.std.specs.Prelude.{◌≡◌};
ghost use Rattle.entry_model.specs.Entries.{entry_of};
ghost use Rattle.load_gen.specs.Generator.{next_number, step_of};
ghost use Rattle.load_gen.specs.Generator as model;

use std::marker::Model;

const MULTIPLIER: u64 = 6_364_136_223_846_793_005;

const INCREMENT: u64 = 1_442_695_040_888_963_407;

/// One step: the key, and the value that is put, or `None` where the key is deleted.
#[derive(Clone, Copy, Debug, PartialEq, Eq)]
pub struct LoadStep {
    pub key: [u8; 3],
    pub value: Option<[u8; 8]>,
}

/// The steps of a seed, one after the other, without an end.
#[derive(Debug, Drop)]
pub struct LoadGen {
    number: u64,
}

impl Model for LoadGen {
    ghost use Rattle.std.specs.Prelude.{ℕ};

    ghost Value = { ℕ };

    ghost view = { λ g. g.number };
}

impl LoadGen {
    /// The steps of this seed, from the first one on.
    pub fn new(seed: u64) -> LoadGen
        ensures { result ≡ seed }
    {
        LoadGen { number: seed }
    }

    /// The next step.
    pub fn next(&mut self) -> LoadStep
        ensures number { self.new ≡ next_number self.old }
        ensures step { entry_of result.key result.value ≡ step_of (next_number self.old) }
    {
        let number = self.number.wrapping_mul(MULTIPLIER).wrapping_add(INCREMENT);
        self.number = number;
        LoadStep {
            key: key_of(number),
            value: value_of(number),
        }
    }
}

// The key of a number.
fn key_of(number: u64) -> [u8; 3]
    ensures { result ≡ model.loaded_key number }
{
    let [_, high, middle, low] = ((number >> 40) as u32).to_be_bytes();
    [high, middle, low]
}

// What a number puts under its key, or `None` where it deletes it.
fn value_of(number: u64) -> Option<[u8; 8]>
    ensures { result ≡ (step_of number).value }
{
    if (number >> 32) % 8 == 0 {
        None
    } else {
        Some(number.to_le_bytes())
    }
}
