//! A half while it grows, dense or sparse.
ghost use Rattle.std.specs.Prelude.{◌≡◌, ◌≤◌, [], ◌∷◌, ◌++◌, ℕ, length, sum_by};
ghost use Rattle.filter_model.specs.Nodes.{Node};
ghost use Rattle.trie_build.specs.Building.{half_with};
ghost use Rattle.trie_model.specs.Given.{AreRising, node_given};
ghost use Rattle.trie_model.specs.Halves.{Half, whole};

use louds_dense::DenseBuilder;
use louds_sparse::SparseBuilder;
use std::alloc::Allocator;
use trie_model::Branch;

/// What nodes are added to in level order, within room that was made before.
pub(crate) trait GrowingHalf {
    ghost half: { Self → Half };

    ghost limit: { Self → ℕ };

    ghost size: { Node → ℕ };

    /// Adds a node: END where `end` holds, and the branches by bytes, some and rising. Takes no memory.
    fn add(&mut self, end: bool, branches: &[Branch])
        requires branches { AreRising branches.now }
        requires room { sum_by size ((half self.old).nodes ++ node_given end branches.now ∷ []) ≤ limit self.old }
        ensures node { half self.new ≡ half_with (node_given end branches.now) (half self.old) }
        ensures limit { limit self.new ≡ limit self.old };
}

impl<A: Allocator + Clone> GrowingHalf for DenseBuilder<A> {
    ghost half = { λ b. whole b.nodes };

    ghost limit = { λ b. b.limit };

    ghost size = { λ _. 1 };

    fn add(&mut self, end: bool, branches: &[Branch]) {
        self.node(end, branches);
    }
}

impl<A: Allocator + Clone> GrowingHalf for SparseBuilder<A> {
    ghost half = { λ b. b.half };

    ghost limit = { λ b. b.limit };

    ghost size = { λ n. length n };

    fn add(&mut self, end: bool, branches: &[Branch]) {
        self.node(end, branches);
    }
}
