//! A step of a walk: a look at a node.
ghost use Rattle.std.specs.Prelude.{◌≡◌, ◌<◌, ◌≤◌, ◌+◌, length, IsTrue, ◌↔◌};
ghost use Rattle.filter_model.specs.Trie.{nodes};
ghost use Rattle.filter_trie.specs.Parts.{upper};
ghost use Rattle.filter_trie.specs.Walks.{IsStep};

use super::steps::Steps;
use super::trie::Trie;
use super::walk::Step;
use louds_sparse::Lead;
use std::alloc::Allocator;
use std::sync::ledger::Ledger;

impl<A: Allocator> Trie<A> {
    /// Where a byte leads from a node, of which `is_dense` says whether it is in the dense half. It is a step.
    pub(crate) fn step<L: Ledger>(
        &self,
        node: u64,
        is_dense: bool,
        byte: u8,
        steps: &mut Steps<L>,
    ) -> Step
        requires node { node < length (nodes self.now.leaves) }
        requires half { IsTrue is_dense ↔ (node < length (upper self.now.cutoff self.now.leaves)) }
        ensures step { steps.new ≡ steps.old + 1 }
        ensures leads { IsStep self.now.leaves node byte result }
    {
        steps.tick();
        self.look(node, is_dense, byte)
    }

    /// The same, uncounted.
    pub(crate) fn look(&self, node: u64, is_dense: bool, byte: u8) -> Step
        requires node { node < length (nodes self.now.leaves) }
        requires half { IsTrue is_dense ↔ (node < length (upper self.now.cutoff self.now.leaves)) }
        ensures { IsStep self.now.leaves node byte result }
    {
        if is_dense {
            self.dense_step(node, byte)
        } else {
            self.sparse_step(node, byte)
        }
    }

    // Where a byte leads from a node of the dense half.
    fn dense_step(&self, node: u64, byte: u8) -> Step
        requires { node < length (upper self.now.cutoff self.now.leaves) }
        ensures { IsStep self.now.leaves node byte result }
    {
        let dense = &self.dense;
        match dense.branch(node, byte) {
            None => Step::Miss,
            Some(place) => match dense.child(place) {
                Some(child) => Step::Child(child),
                None => Step::Leaf(dense.leaf_slot(place)),
            },
        }
    }

    // Where a byte leads from a node of the sparse half.
    fn sparse_step(&self, node: u64, byte: u8) -> Step
        requires behind { length (upper self.now.cutoff self.now.leaves) ≤ node }
        requires there { node < length (nodes self.now.leaves) }
        ensures { IsStep self.now.leaves node byte result }
    {
        let sparse = &self.sparse;
        match sparse.lead(node, byte) {
            None => Step::Miss,
            Some((_, lead)) => match lead {
                Lead::Child(child) => Step::Child(child),
                Lead::Leaf(slot) => Step::Leaf(slot),
            },
        }
    }
}
