//! The nodes and labels of each level.
ghost use Rattle.std.specs.Prelude.{◌≡◌, ◌<◌, [], ◌∷◌, ◌++◌, length, slice_index, OnOk, OnErr};

use std::alloc::{AllocError, Global};
use std::marker::Model;

/// How many nodes and how many labels each level of a trie has, from the root down.
#[derive(Drop)]
pub struct Levels {
    counts: Vec<(u64, u64)>,
}

impl Model for Levels {
    ghost use Rattle.std.specs.Prelude.{ℕ, ◌<◌, map, length};
    ghost use Rattle.trie_levels.specs.Counts.{Counts};

    ghost Value = { Counts };

    ghost view = { λ levels. record { nodes = map (λ c. c.0) levels.counts.items; labels = map (λ c. c.1) levels.counts.items } };

    // The height is a u16.
    ghost invariant = { λ levels. length levels.counts.items < 65536 };
}

impl Levels {
    /// No level, which takes no memory.
    pub fn new(alloc: Global) -> Self
        ensures { result ≡ record { nodes = []; labels = [] } }
    {
        Levels {
            counts: Vec::new(alloc),
        }
    }

    /// Adds a level at the end, of 65,535 at most: the height is a u16. Without memory the levels stay as they were.
    pub fn push(&mut self, nodes: u64, labels: u64) -> Result<(), AllocError>
        requires { length self.old.nodes < 65535 }
        ensures added { OnOk result (self.new ≡ record { nodes = self.old.nodes ++ nodes ∷ []; labels = self.old.labels ++ labels ∷ [] }) }
        ensures unchanged { OnErr result (self.new ≡ self.old) }
    {
        self.counts.push((nodes, labels))?;
        Ok(())
    }

    /// How many levels there are.
    pub fn height(&self) -> u16
        ensures nodes { result ≡ length self.now.nodes }
        ensures labels { result ≡ length self.now.labels }
    {
        self.counts.len() as u16
    }

    /// How many nodes the level has.
    pub fn nodes(&self, level: u16) -> u64
        requires { level < length self.now.nodes }
        ensures { result ≡ slice_index self.now.nodes level }
    {
        self.counts[level as usize].0
    }

    /// How many branches the nodes of the level have, END among them.
    pub fn labels(&self, level: u16) -> u64
        requires { level < length self.now.labels }
        ensures { result ≡ slice_index self.now.labels level }
    {
        self.counts[level as usize].1
    }
}
