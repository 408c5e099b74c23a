//! The map of std.
use crate::pairs::Pairs;
use anyhow::Result;
use bench_kit::boxed;
use key_base::KeyList;
use std::alloc::{AllocError, AllocFailed, Global};
use std::boxed::BoxedSlice;
use std::collections::BTreeMap;

type Bytes = BoxedSlice<u8>;

/// A tree of pairs, each key and each value in a piece of memory of its own.
#[derive(Drop)]
pub struct Tree {
    map: BTreeMap<Bytes, Bytes>,
}

impl Tree {
    /// Of keys and as many values.
    pub fn new(alloc: Global, keys: &KeyList, values: &KeyList) -> Result<Box<Tree>> {
        let mut tree = Tree {
            map: BTreeMap::new(alloc),
        };
        for i in 0..keys.len() {
            if i < values.len() {
                let key = BoxedSlice::from_slice(alloc, keys.get(i))?;
                let value = BoxedSlice::from_slice(alloc, values.get(i))?;
                tree.insert(key, value)?;
            }
        }
        Ok(boxed(alloc, tree)?)
    }

    fn insert(&mut self, key: Bytes, value: Bytes) -> Result<(), AllocError> {
        match self.map.insert(key, value) {
            Ok(_) => Ok(()),
            Err(AllocFailed { value: _ }) => Err(AllocError),
        }
    }
}

impl Pairs for Tree {
    #[inline]
    fn value(&self, key: &[u8]) -> Option<&[u8]> {
        match self.map.get(key) {
            Some(value) => Some(&**value),
            None => None,
        }
    }
}
