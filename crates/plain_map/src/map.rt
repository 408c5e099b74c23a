//! The sorted vector of pairs.
ghost use Rattle.std.specs.Prelude.{◌≡◌, ◌<◌, ◌≤◌, ◌↔◌, [], length, insert, slice_set, IfOk, IfErr, OnOk, OnErr, IsTrue};
ghost use Rattle.std.specs.Option.{option_map};
ghost use Rattle.map_model.specs.SortedMap.{Bytes, get, put, del, Rises};
ghost use Rattle.map_model.specs.Slices.{slice, seek, count};
ghost use Rattle.range_model.specs.Clearing.{clear};

use super::pair::Pair;
use std::alloc::{AllocError, Global};
use std::cmp::Ordering;
use std::marker::Model;

/// Pairs of byte strings with strictly rising keys.
#[derive(Drop)]
pub struct PlainMap {
    pairs: Vec<Pair>,
}

impl Model for PlainMap {
    ghost use Rattle.map_model.specs.SortedMap.{Map, Rises};

    ghost Value = { Map };

    ghost view = { λ m. m.pairs.items };

    ghost invariant = { λ m. Rises m.pairs.items };
}

impl PlainMap {
    /// A map of no pair. Takes no memory.
    pub fn new(alloc: Global) -> PlainMap
        ensures { result ≡ [] }
    {
        PlainMap {
            pairs: Vec::new(alloc),
        }
    }

    /// Gives the key this value, in the place of an older one. After an `Err` the map is as it was.
    pub fn put(&mut self, key: &[u8], value: &[u8]) -> Result<(), AllocError>
        ensures put { OnOk result (self.new ≡ put self.old key.now value.now) }
        ensures unchanged { OnErr result (self.new ≡ self.old) }
    {
        let pair = Pair::new(*self.pairs.allocator(), key, value)?;
        match self.place_of(key) {
            Ok(at) => self.pairs[at] = pair,
            Err(at) => self.pairs.insert(at, pair)?,
        }
        Ok(())
    }

    /// Takes the key away, where it is there.
    pub fn del(&mut self, key: &[u8])
        ensures { self.new ≡ del self.old key.now }
    {
        self.pairs.retain(|pair| !pair.has_key(key));
    }

    /// Takes all keys away from `lo` on and up to `hi` without it. Where `lo` is not below `hi` there are none.
    pub fn clear(&mut self, lo: &[u8], hi: &[u8])
        ensures { self.new ≡ clear self.old lo.now hi.now }
    {
        self.pairs.retain(|pair| !pair.lies_within(lo, hi));
    }

    /// The value of the key, or `None` where the map has none.
    pub fn get(&self, key: &[u8]) -> Option<&[u8]>
        ensures { option_map (λ value. value.now) result ≡ get self.now key.now }
    {
        for pair in &self.pairs {
            if pair.has_key(key) {
                return Some(pair.value());
            }
        }
        None
    }

    /// The first `n` pairs whose keys are not below `lo` and not above `hi`, as copies. Without `hi` there is no upper
    /// end.
    pub fn slice(&self, lo: &[u8], hi: Option<&[u8]>, n: usize) -> Result<PlainMap, AllocError>
        ensures { IfOk result (λ map. map ≡ slice self.now lo.now (option_map (λ h. h.now) hi.entry) n) }
    {
        let alloc = *self.pairs.allocator();
        let mut pairs = Vec::new(alloc);
        for pair in &self.pairs {
            if pairs.len() < n && pair.lies_between(lo, hi) {
                pairs.push(pair.copy(alloc)?)?;
            }
        }
        Ok(PlainMap { pairs })
    }

    /// The first pair whose key is not below `lo` and not above `hi`, or `None` where no key lies there.
    pub fn seek(&self, lo: &[u8], hi: Option<&[u8]>) -> Option<&Pair>
        ensures { option_map (λ pair. pair.now) result ≡ seek self.now lo.now (option_map (λ h. h.now) hi.entry) }
    {
        for pair in &self.pairs {
            if pair.lies_between(lo, hi) {
                return Some(pair);
            }
        }
        None
    }

    /// How many pairs have keys not below `lo` and not above `hi`.
    pub fn count(&self, lo: &[u8], hi: Option<&[u8]>) -> usize
        ensures { result ≡ count self.now lo.now (option_map (λ h. h.now) hi.entry) }
    {
        let mut count = 0;
        for pair in &self.pairs {
            if pair.lies_between(lo, hi) {
                count += 1;
            }
        }
        count
    }

    /// The number of pairs. Their keys rise.
    pub fn len(&self) -> usize
        ensures len { result ≡ length self.now }
        ensures rises { Rises self.now }
    {
        self.pairs.len()
    }

    /// Whether there is no pair.
    pub fn is_empty(&self) -> bool
        ensures { IsTrue result ↔ (self.now ≡ []) }
    {
        self.pairs.is_empty()
    }

    /// The pairs, by rising keys.
    pub fn pairs(&self) -> &[Pair]
        ensures { result.now ≡ self.now }
    {
        self.pairs.as_slice()
    }

    // The place of the key's pair, or the place where it would stand.
    fn place_of(&self, key: &[u8]) -> Result<usize, usize>
        ensures found { IfOk result (λ at. (at < length self.now) × ((value : Bytes) → put self.now key.now value ≡ slice_set self.now at (key.now, value))) }
        ensures missing { IfErr result (λ at. (at ≤ length self.now) × ((value : Bytes) → put self.now key.now value ≡ insert self.now at (key.now, value))) }
    {
        for at in 0..self.pairs.len() {
            match self.pairs[at].order_of(key) {
                Ordering::Less => return Err(at),
                Ordering::Equal => return Ok(at),
                Ordering::Greater => {}
            }
        }
        Err(self.pairs.len())
    }
}
