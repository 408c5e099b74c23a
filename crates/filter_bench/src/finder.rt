//! What is asked for keys.
use crate::bloom::Bloom;
use crate::stubs::StubSearch;
use bench_keys::Texts;
use filter_trie::{Trie, Walk};
use std::alloc::Global;

/// What finds keys.
pub trait Finder {
    /// The number of what a key leads to.
    fn find(&self, key: &[u8]) -> Option<u64>;
}

impl Finder for Trie<Global> {
    #[inline]
    fn find(&self, key: &[u8]) -> Option<u64> {
        match self.walk(key) {
            Walk::Leaf(slot) => Some(slot),
            Walk::Miss => None,
        }
    }
}

impl Finder for Bloom {
    #[inline]
    fn find(&self, key: &[u8]) -> Option<u64> {
        if self.may_hold(key) { Some(0) } else { None }
    }
}

impl Finder for StubSearch {
    #[inline]
    fn find(&self, key: &[u8]) -> Option<u64> {
        match self.leaf_of(key) {
            Some(leaf) => Some(leaf as u64),
            None => None,
        }
    }
}

/// How many keys led to something, and the sum of the numbers of that.
#[derive(Clone, Copy)]
pub struct Found {
    pub count: u64,
    pub sum: u64,
}

/// Asks for each of these keys.
#[inline(never)]
pub fn ask<F: Finder>(finder: &F, queries: &Texts) -> Found {
    let mut found = Found { count: 0, sum: 0 };
    for i in 0..queries.len() {
        if let Some(number) = finder.find(queries.get(i)) {
            found.count = found.count.wrapping_add(1);
            found.sum = found.sum.wrapping_add(number);
        }
    }
    found
}
