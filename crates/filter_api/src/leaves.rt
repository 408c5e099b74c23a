//! Leaves, and lists of them.
ghost use Rattle.std.specs.Prelude.{◌≡◌, ◌<◌, ◌==◌, [], ◌∷◌, ◌++◌, length, slice_get, IfOk, OnOk, OnErr};

use std::alloc::{AllocError, Global};
use std::marker::Model;

/// What stands for a key: its stub, whether the key ends there, its hash bits and its real bits.
#[derive(Drop)]
pub struct Leaf {
    pub stub: Vec<u8>,
    pub ends: bool,
    pub hash: u32,
    pub real: u32,
}

/// A list of leaves, in the order in which they were pushed.
#[derive(Drop)]
pub struct LeafList {
    leaves: Vec<Leaf>,
}

impl Model for LeafList {
    ghost use Rattle.std.specs.Prelude.{List, map};
    ghost use Rattle.filter_model.specs.Leaves.{Leaf as PlainLeaf};

    ghost Value = { List PlainLeaf };

    ghost use Rattle.filter_api.specs.Seen.{seen};

    ghost view = { λ list. map seen list.leaves.items };
}

impl LeafList {
    ghost use Rattle.filter_api.specs.Seen.{seen};

    /// The empty list, which takes no memory.
    pub fn new(alloc: Global) -> Self
        ensures { result ≡ [] }
    {
        LeafList {
            leaves: Vec::new(alloc),
        }
    }

    /// The empty list with room for `count` leaves.
    pub fn with_capacity(alloc: Global, count: usize) -> Result<Self, AllocError>
        ensures { IfOk result (λ list. list ≡ []) }
    {
        let leaves = Vec::with_capacity(alloc, count)?;
        Ok(LeafList { leaves })
    }

    /// Adds `leaf` at the end. Without memory the list stays as it was.
    pub fn push(&mut self, leaf: Leaf) -> Result<(), AllocError>
        ensures added { OnOk result (self.new ≡ self.old ++ seen leaf ∷ []) }
        ensures unchanged { OnErr result (self.new ≡ self.old) }
    {
        self.leaves.push(leaf)?;
        Ok(())
    }

    /// The leaf number `i`, from 0.
    pub fn get(&self, i: usize) -> &Leaf
        requires { i < length self.now }
        ensures { slice_get self.now i ≡ Some (seen result.now) }
    {
        &self.leaves[i]
    }

    /// How many leaves the list has.
    pub fn len(&self) -> usize
        ensures { result ≡ length self.now }
    {
        self.leaves.len()
    }

    /// Whether the list has no leaf.
    pub fn is_empty(&self) -> bool
        ensures { result ≡ (length self.now == 0) }
    {
        self.leaves.is_empty()
    }
}
