//! A map that is built pair by pair.
ghost use Rattle.std.specs.Prelude.{◌≡◌, ◌≤◌, ◌++◌, ◌∷◌, [], length, IfErr, None, OnErr, OnOk};
ghost use Rattle.fst_map.specs.Adding.{add_fault, fault_said, is_above};
ghost use Rattle.fst_map.specs.Writing.{IsReadAgain};
ghost use Rattle.map_writer.specs.Bodies.{IsBodyBy, IsCause, body_by, max_body_bytes};

use crate::error::AddError;
use key_base::{KeyList, MAX_KEY_BYTES, compare};
use map_writer::{FinishError, write_body};
use std::alloc::Global;
use std::marker::Model;

/// The bytes of the longest value that a builder takes.
const MAX_VALUE_BYTES: usize = 65_536;

/// The most pairs of a map.
const MAX_PAIRS: usize = 1_000_000;

/// The pairs of a map to be, in the order of their keys.
#[derive(Drop)]
pub struct FstBuilder {
    alloc: Global,
    keys: KeyList,
    values: KeyList,
}

impl Model for FstBuilder {
    ghost use Rattle.std.specs.Prelude.{zip};
    ghost use Rattle.map_model.specs.SortedMap.{Map};
    ghost use Rattle.map_writer.specs.Bodies.{ArePairs};

    ghost Value = { Map };

    ghost view = { λ b. zip b.keys b.values };

    ghost invariant = { λ b. ArePairs b.keys b.values };
}

impl FstBuilder {
    /// Of no pair. Takes no memory.
    pub fn new(alloc: Global) -> Self
        ensures { result ≡ [] }
    {
        FstBuilder {
            alloc,
            keys: KeyList::new(alloc),
            values: KeyList::new(alloc),
        }
    }

    /// Adds a pair behind all others. Where it fails the pairs stay as they were.
    ///
    /// It is refused, by the first of these that is so, where the key has no byte or more than 1,024, where the value has more
    /// than 65,536, where the key is not above the last one, and where there are 1,000,000 pairs; then it may fail for want of
    /// memory.
    pub fn add(&mut self, key: &[u8], value: &[u8]) -> Result<(), AddError>
        ensures added { OnOk result (self.new ≡ self.old ++ (key.now, value.now) ∷ []) }
        ensures unchanged { OnErr result (self.new ≡ self.old) }
        ensures refused { fault_said result ≡ add_fault self.old key.now value.now }
    {
        if let Some(error) = self.refusal(key, value) {
            return Err(error);
        }
        self.push(key, value)
    }

    /// Appends the bytes of the map of all pairs, with as many levels of its trie dense as the rule allows by `ratio`; 64 is
    /// usual, and 0 makes all of them dense. [`crate::FstMap::read`] takes these bytes as the map of these pairs, and fails only
    /// for want of memory.
    ///
    /// Fails where there is no pair, where the bytes would be more than 2^31, or for want of memory; `out` stays as it was then.
    /// The pairs stay, so that it may be called again. Goes over the letters of all keys twice, and over the bytes once.
    pub fn finish(&self, ratio: u16, out: &mut Vec<u8>) -> Result<(), FinishError>
        ensures some { OnOk result (1 ≤ length self.now) }
        ensures added { OnOk result (out.new.items ≡ out.old.items ++ body_by ratio self.now) }
        ensures body { OnOk result (IsBodyBy ratio self.now) }
        ensures read_again { OnOk result (IsReadAgain ratio self.now) }
        ensures not_large { OnOk result (length (body_by ratio self.now) ≤ max_body_bytes) }
        ensures unchanged { OnErr result (out.new.items ≡ out.old.items) }
        ensures cause { IfErr result (IsCause ratio self.now) }
    {
        write_body(self.alloc, &self.keys, &self.values, ratio, out)
    }

    /// How many pairs there are.
    pub fn len(&self) -> usize
        ensures { result ≡ length self.now }
    {
        self.keys.len()
    }

    // Why the pair is refused, memory apart.
    fn refusal(&self, key: &[u8], value: &[u8]) -> Option<AddError>
        ensures { result ≡ add_fault self.now key.now value.now }
    {
        if key.is_empty() || key.len() > MAX_KEY_BYTES {
            return Some(AddError::Key(key.len()));
        }
        if value.len() > MAX_VALUE_BYTES {
            return Some(AddError::Value(value.len()));
        }
        if !self.is_above(key) {
            return Some(AddError::Order);
        }
        if self.len() >= MAX_PAIRS {
            return Some(AddError::Many);
        }
        None
    }

    // Whether a key is above the last one, if there is one.
    fn is_above(&self, key: &[u8]) -> bool
        ensures { result ≡ is_above self.now key.now }
    {
        let count = self.keys.len();
        count == 0 || compare(self.keys.get(count - 1), key).is_lt()
    }

    // Adds a pair that is not refused behind all others, if there is memory.
    fn push(&mut self, key: &[u8], value: &[u8]) -> Result<(), AddError>
        requires { add_fault self.old key.now value.now ≡ None }
        ensures added { OnOk result (self.new ≡ self.old ++ (key.now, value.now) ∷ []) }
        ensures unchanged { OnErr result (self.new ≡ self.old) }
        ensures refused { fault_said result ≡ None }
    {
        self.keys.push(key)?;
        match self.values.push(value) {
            Ok(()) => Ok(()),
            Err(_) => {
                self.keys.truncate(self.values.len());
                Err(AddError::Memory)
            }
        }
    }
}
