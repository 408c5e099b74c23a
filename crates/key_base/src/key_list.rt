//! A list of keys.
ghost use Rattle.std.specs.Prelude.{◌≡◌, ◌≤◌, ◌<◌, ◌==◌, List, [], ◌∷◌, ◌++◌, length, take, slice_index_or, OnOk, OnErr};

use std::alloc::{AllocError, Global};
use std::marker::Model;

/// A list of byte strings, in the order in which they were pushed.
#[derive(Drop)]
pub struct KeyList {
    // the keys, one behind the other, and where each of them ends
    bytes: Vec<u8>,
    ends: Vec<usize>,
}

impl Model for KeyList {
    ghost use Rattle.std.specs.Prelude.{ℕ, List, length};
    ghost use Rattle.key_base.specs.KeyLists.{AreEnds, keys_in};

    ghost Value = { List (List ℕ) };

    ghost view = { λ list. keys_in 0 list.ends.items list.bytes.items };

    ghost invariant = { λ list. AreEnds 0 list.ends.items (length list.bytes.items) };
}

impl KeyList {
    /// The empty list, which takes no memory.
    pub fn new(alloc: Global) -> Self
        ensures { result ≡ [] }
    {
        KeyList {
            bytes: Vec::new(alloc),
            ends: Vec::new(alloc),
        }
    }

    /// Adds `key` at the end. Without memory the list stays as it was.
    pub fn push(&mut self, key: &[u8]) -> Result<(), AllocError>
        ensures added { OnOk result (self.new ≡ self.old ++ key.now ∷ []) }
        ensures unchanged { OnErr result (self.new ≡ self.old) }
    {
        self.ends.reserve(1)?;
        self.bytes.extend_from_slice(key)?;
        self.ends.push_reserved(self.bytes.len());
        Ok(())
    }

    /// Keeps the first `n` keys. No memory.
    pub fn truncate(&mut self, n: usize)
        requires { n ≤ length self.old }
        ensures { self.new ≡ take n self.old }
    {
        let end = end_of(self.ends.as_slice(), n);
        self.ends.truncate(n);
        self.bytes.truncate(end);
    }

    /// The key number `i`, from 0.
    pub fn get(&self, i: usize) -> &[u8]
        requires { i < length self.now }
        ensures { result.now ≡ slice_index_or self.now i [] }
    {
        let bytes = self.bytes.as_slice();
        let from = end_of(self.ends.as_slice(), i);
        &bytes[from..self.ends[i]]
    }

    /// How many keys the list has.
    pub fn len(&self) -> usize
        ensures { result ≡ length self.now }
    {
        self.ends.len()
    }

    /// Whether the list has no key.
    pub fn is_empty(&self) -> bool
        ensures { result ≡ (length self.now == 0) }
    {
        self.ends.is_empty()
    }
}

// Where the first `n` keys end.
fn end_of(ends: &[usize], n: usize) -> usize
    requires { n ≤ length ends.now }
    ensures { result ≡ slice_index_or (0 ∷ ends.now) n 0 }
{
    if n == 0 { 0 } else { ends[n - 1] }
}
