//! What is asked for values.
use bench_keys::Texts;
use fst_map::FstMap;
use key_base::compare;
use std::alloc::Global;

/// Pairs of keys and values.
pub trait Pairs {
    /// The value under a key.
    fn value(&self, key: &[u8]) -> Option<&[u8]>;
}

impl Pairs for FstMap<'_, Global> {
    #[inline]
    fn value(&self, key: &[u8]) -> Option<&[u8]> {
        self.get(key)
    }
}

/// How many keys had a value, and the sum of the first bytes of these.
#[derive(Clone, Copy)]
pub struct Got {
    pub count: u64,
    pub sum: u64,
}

impl Got {
    /// None yet.
    pub fn new() -> Got {
        Got { count: 0, sum: 0 }
    }

    /// One value more.
    #[inline]
    pub fn add(&mut self, value: &[u8]) {
        self.count = self.count.wrapping_add(1);
        self.sum = self
            .sum
            .wrapping_add(u64::from(value.first().copied().unwrap_or(0)));
    }

    /// Whether another has as many, with the same sum.
    pub fn is(self, other: Got) -> bool {
        self.count == other.count && self.sum == other.sum
    }
}

/// Asks for the value under each of these keys.
#[inline(never)]
pub fn get_all<P: Pairs>(pairs: &P, queries: &Texts) -> Got {
    let mut got = Got::new();
    for i in 0..queries.len() {
        if let Some(value) = pairs.value(queries.get(i)) {
            got.add(value);
        }
    }
    got
}

/// How many keys lie from one string to another, in either order.
#[inline]
pub fn count_between(map: &FstMap<'_, Global>, one: &[u8], other: &[u8]) -> u64 {
    if !compare(other, one).is_lt() {
        u64::from(map.count(one, other))
    } else if !compare(one, other).is_lt() {
        u64::from(map.count(other, one))
    } else {
        0
    }
}
