//! The bytes of a part in whole pages.
ghost use Rattle.std.specs.Prelude.{◌≡◌, ◌≤◌, ◌^◌, ◌++◌, length, IfOk};
ghost use Rattle.byte_fields.specs.Sums.{fnv_of};
ghost use Rattle.block_model.specs.Pages.{padding};
ghost use Rattle.block_model.specs.Pages.{pages_for};

use block_model::pages_for;
use byte_fields::fnv1a;
use key_base::PAGE_BYTES;
use std::alloc::AllocError;
use std::marker::Model;

/// The bytes of a part, seen without the zero bytes that are after them to the end of their last page.
#[derive(Drop)]
pub(crate) struct Padded {
    bytes: Vec<u8>,
    used: usize,
}

impl Model for Padded {
    ghost use Rattle.std.specs.Prelude.{◌≡◌, ◌≤◌, ◌++◌, ℕ, List, length, take};
    ghost use Rattle.block_model.specs.Pages.{padding};

    ghost Value = { List ℕ };

    ghost view = { λ p. take p.used p.bytes.items };

    ghost invariant = { λ p. (p.used ≤ length p.bytes.items) × (p.bytes.items ≡ take p.used p.bytes.items ++ padding p.used) };
}

impl Padded {
    /// Fills the last page with zero bytes.
    #[tactic(auto, unfolding(block_model::specs::Pages::padding, block_model::specs::Pages::pages_for))]
    pub(crate) fn new(mut bytes: Vec<u8>) -> Result<Padded, AllocError>
        ensures { IfOk result (λ p. p ≡ bytes.items) }
    {
        let used = bytes.len();
        let whole = PAGE_BYTES * pages_for(used as u64) as usize;
        bytes.resize(whole, 0)?;
        Ok(Padded { bytes, used })
    }

    /// All bytes of its pages.
    pub(crate) fn whole(&self) -> &[u8]
        ensures { result.now ≡ self.now ++ padding (length self.now) }
    {
        self.bytes.as_slice()
    }

    /// How many bytes it has, without the zero bytes.
    pub(crate) fn len(&self) -> u64
        ensures { result ≡ length self.now }
    {
        self.used as u64
    }

    /// How many pages it takes.
    #[tactic(auto, unfolding(block_model::specs::Pages::pages_for))]
    pub(crate) fn pages(&self) -> u64
        ensures pages { result ≡ pages_for (length self.now) }
        ensures small { result ≤ 2 ^ 52 }
    {
        pages_for(self.used as u64)
    }

    /// The sum of its bytes, without the zero bytes.
    pub(crate) fn sum(&self) -> u64
        ensures { result ≡ fnv_of self.now }
    {
        fnv1a(&self.bytes[..self.used])
    }
}
