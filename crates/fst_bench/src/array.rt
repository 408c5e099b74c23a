//! A sorted array of pairs.
use crate::pairs::Pairs;
use anyhow::Result;
use bench_keys::Texts;
use bench_kit::boxed;
use key_base::{KeyList, compare};
use std::alloc::Global;

/// Keys in one array with ends of four bytes, values in another with ends of eight.
#[derive(Drop)]
pub struct SortedArray {
    keys: Box<Texts>,
    values: Vec<u8>,
    ends: Vec<u64>,
}

impl SortedArray {
    /// Of keys that rise and as many values.
    pub fn new(alloc: Global, keys: &KeyList, values: &KeyList) -> Result<Box<SortedArray>> {
        let mut array = SortedArray {
            keys: Texts::in_box(alloc)?,
            values: Vec::new(alloc),
            ends: Vec::new(alloc),
        };
        array.ends.push(0)?;
        array.push_all(keys, values)?;
        Ok(boxed(alloc, array)?)
    }

    fn push_all(&mut self, keys: &KeyList, values: &KeyList) -> Result<()> {
        for i in 0..keys.len() {
            if i < values.len() {
                self.keys.push(keys.get(i))?;
                self.values.extend_from_slice(values.get(i))?;
                self.ends.push(self.values.len() as u64)?;
            }
        }
        Ok(())
    }

    /// How many pairs there are.
    pub fn len(&self) -> usize {
        self.keys.len()
    }

    /// The bytes that it keeps.
    pub fn bytes(&self) -> usize {
        let ends = self.ends.len().saturating_mul(8);
        (self.keys.bits() / 8)
            .saturating_add(self.values.len())
            .saturating_add(ends)
    }

    /// The key number `i`.
    #[inline]
    pub fn key(&self, i: usize) -> &[u8] {
        self.keys.get(i)
    }

    /// The value of the key number `i`.
    #[inline]
    pub fn value_of(&self, i: usize) -> &[u8] {
        match self.values.get(self.end(i)..self.end(i.saturating_add(1))) {
            Some(value) => value,
            None => &[],
        }
    }

    /// The number of the first key that is not below a string.
    #[inline]
    pub fn first_from(&self, key: &[u8]) -> usize {
        let above = self.keys.first_above(key);
        if above > 0 && compare(self.keys.get(above - 1), key).is_eq() {
            above - 1
        } else {
            above
        }
    }

    /// How many keys lie from one string to another, in either order.
    #[inline]
    pub fn count_between(&self, one: &[u8], other: &[u8]) -> u64 {
        if compare(other, one).is_lt() {
            let above = self.keys.first_above(one);
            above.saturating_sub(self.first_from(other)) as u64
        } else {
            let above = self.keys.first_above(other);
            above.saturating_sub(self.first_from(one)) as u64
        }
    }

    // Where the values before the one of this number end.
    #[inline]
    fn end(&self, i: usize) -> usize {
        self.ends.get(i).copied().unwrap_or(0) as usize
    }
}

impl Pairs for SortedArray {
    #[inline]
    fn value(&self, key: &[u8]) -> Option<&[u8]> {
        let above = self.keys.first_above(key);
        if above > 0 && self.keys.get(above - 1) == key {
            Some(self.value_of(above - 1))
        } else {
            None
        }
    }
}
