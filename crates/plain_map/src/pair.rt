//! A key and its value.
ghost use Rattle.std.specs.Prelude.{◌≡◌, IfOk, bytes_eq};
ghost use Rattle.std.specs.Option.{option_map};
ghost use Rattle.map_model.specs.SortedMap.{byte_order};
ghost use Rattle.map_model.specs.Slices.{is_between};
ghost use Rattle.range_model.specs.Clearing.{lies_within};

use std::alloc::{AllocError, Global};
use std::cmp::Ordering;
use std::marker::Model;

/// A key and its value, as copies.
#[derive(Drop)]
pub struct Pair {
    key: Vec<u8>,
    value: Vec<u8>,
}

impl Model for Pair {
    ghost use Rattle.map_model.specs.SortedMap.{Bytes};

    ghost Value = { Bytes × Bytes };

    ghost view = { λ p. (p.key.items, p.value.items) };
}

impl Pair {
    /// Copies a key and a value. Takes two blocks of memory.
    pub(crate) fn new(alloc: Global, key: &[u8], value: &[u8]) -> Result<Pair, AllocError>
        ensures { IfOk result (λ pair. pair ≡ (key.now, value.now)) }
    {
        let key = Vec::from_slice(alloc, key)?;
        let value = Vec::from_slice(alloc, value)?;
        Ok(Pair { key, value })
    }

    /// A pair of the same bytes.
    pub(crate) fn copy(&self, alloc: Global) -> Result<Pair, AllocError>
        ensures { IfOk result (λ pair. pair ≡ self.now) }
    {
        Pair::new(alloc, &self.key, &self.value)
    }

    /// The key.
    pub fn key(&self) -> &[u8]
        ensures { result.now ≡ self.now.0 }
    {
        self.key.as_slice()
    }

    /// The value.
    pub fn value(&self) -> &[u8]
        ensures { result.now ≡ self.now.1 }
    {
        self.value.as_slice()
    }

    /// Whether it has this key.
    pub(crate) fn has_key(&self, key: &[u8]) -> bool
        ensures { result ≡ bytes_eq self.now.0 key.now }
    {
        self.key.as_slice() == key
    }

    /// How this key stands to its own, byte by byte.
    pub(crate) fn order_of(&self, key: &[u8]) -> Ordering
        ensures { result ≡ byte_order key.now self.now.0 }
    {
        key.cmp(self.key.as_slice())
    }

    /// Whether the key is not below `lo`, and below `hi`.
    pub(crate) fn lies_within(&self, lo: &[u8], hi: &[u8]) -> bool
        ensures { result ≡ lies_within lo.now hi.now self.now.0 }
    {
        let key = self.key.as_slice();
        !key.cmp(lo).is_lt() && key.cmp(hi).is_lt()
    }

    /// Whether the key lies between the two, both included.
    pub(crate) fn lies_between(&self, lo: &[u8], hi: Option<&[u8]>) -> bool
        ensures { result ≡ is_between lo.now (option_map (λ h. h.now) hi.entry) self.now.0 }
    {
        let key = self.key.as_slice();
        if key.cmp(lo) == Ordering::Less {
            return false;
        }
        match hi {
            None => true,
            Some(hi) => hi.cmp(key) != Ordering::Less,
        }
    }
}
