//! A binary search over stubs.
ghost use Rattle.filter_model.specs.Keys.{IsKeyList};

use anyhow::Result;
use bench_keys::Texts;
use bench_kit::boxed;
use key_base::KeyList;
use key_truncate::{Stub, truncate};
use std::alloc::{AllocError, Global};

/// The stubs of keys in one array, in rising order, and which of them end.
#[derive(Drop)]
pub struct StubSearch {
    stubs: Texts,
    ends: Vec<bool>,
}

impl StubSearch {
    /// Those of sorted keys.
    pub fn new(alloc: Global, keys: &KeyList) -> Result<Box<StubSearch>>
        requires { IsKeyList keys.now }
    {
        let cuts = truncate(alloc, keys)?;
        let mut search = StubSearch::with_room(alloc, keys.len())?;
        search.push_all(keys, &cuts)?;
        Ok(search)
    }

    // No stub yet.
    fn with_room(alloc: Global, count: usize) -> Result<Box<StubSearch>, AllocError> {
        let stubs = Texts::new(alloc)?;
        let ends = Vec::with_capacity(alloc, count)?;
        boxed(alloc, StubSearch { stubs, ends })
    }

    fn push_all(&mut self, keys: &KeyList, cuts: &[Stub]) -> Result<()> {
        for (i, cut) in cuts.iter().enumerate() {
            if i < keys.len() {
                self.stubs.push(stub_of(keys.get(i), *cut))?;
                self.ends.push(cut.ends)?;
            }
        }
        Ok(())
    }

    /// The number of the leaf that the key reaches: its stub is the key where it ends, and else a prefix of it.
    #[inline]
    pub fn leaf_of(&self, key: &[u8]) -> Option<usize> {
        let behind = self.stubs.first_above(key);
        if behind == 0 {
            return None;
        }
        let leaf = behind - 1;
        let stub = self.stubs.get(leaf);
        let ends = self.ends.get(leaf).copied().unwrap_or(false);
        if key.starts_with(stub) && (!ends || key.len() == stub.len()) {
            Some(leaf)
        } else {
            None
        }
    }

    /// The bits that it keeps, without those that say which stubs end.
    pub fn bits(&self) -> usize {
        self.stubs.bits()
    }
}

// The first bytes of a key.
fn stub_of(key: &[u8], cut: Stub) -> &[u8] {
    match key.get(..usize::from(cut.len)) {
        Some(stub) => stub,
        None => key,
    }
}
