//! The half while it grows.
ghost use Rattle.std.specs.Prelude.{◌≡◌, ◌<◌, ◌-◌, [], length, IfOk};
ghost use Rattle.louds_dense.specs.Building.{with_node};
ghost use Rattle.trie_model.specs.Given.{AreRising, node_given};

use super::dense::Dense;
use super::sections::Sections;
use bit_rank::Ranked;
use std::alloc::{AllocError, Allocator};
use std::marker::Model;
use trie_model::Branch;

// The most nodes that a half can have: so few that all its numbers are below 2^62.
const MAX_NODES: usize = 1 << 53;

/// Makes a half of nodes that are given in level order.
#[derive(Drop)]
pub struct DenseBuilder<A: Allocator> {
    alloc: A,
    sections: Sections<A>,
}

impl<A: Allocator> Model for DenseBuilder<A> {
    ghost use Rattle.std.specs.Prelude.{◌≤◌, ◌^◌, length};
    ghost use Rattle.louds_dense.specs.Building.{NodesInRoom};
    ghost use Rattle.louds_dense.specs.Spelling.{IsSpelled, nodes_in};

    ghost Value = { NodesInRoom };

    ghost view = { λ b. record { nodes = nodes_in b.sections.labels b.sections.children b.sections.ends; limit = b.sections.limit } };

    ghost invariant = { λ b. IsSpelled b.sections.labels b.sections.children b.sections.ends (nodes_in b.sections.labels b.sections.children b.sections.ends) × (length b.sections.ends ≤ b.sections.limit) × (b.sections.limit ≤ 2 ^ 53) };
}

impl<A: Allocator + Clone> DenseBuilder<A> {
    /// Makes room for `nodes` nodes, in three blocks of memory. Fails where memory is refused or `nodes` is above 2^53.
    pub fn new(alloc: A, nodes: usize) -> Result<DenseBuilder<A>, AllocError>
        ensures { IfOk result (λ builder. builder ≡ record { nodes = []; limit = nodes }) }
    {
        if nodes > MAX_NODES {
            return Err(AllocError);
        }
        let sections = Sections::with_room(alloc.clone()?, nodes)?;
        Ok(DenseBuilder { alloc, sections })
    }

    /// How many nodes there is still room for.
    pub fn room_left(&self) -> usize
        ensures { result ≡ self.now.limit - length self.now.nodes }
    {
        self.sections.room_left()
    }

    /// Adds a node: END where `end` holds, and the branches by bytes, some and rising. There is room for it
    /// (`room_left`). Takes no memory.
    pub fn node(&mut self, end: bool, branches: &[Branch])
        requires branches { AreRising branches.now }
        requires room { length self.old.nodes < self.old.limit }
        ensures { self.new ≡ with_node (node_given end branches.now) self.old }
    {
        self.sections.push_node(end, branches);
    }

    /// The half of the nodes given, in their order. Takes three blocks of memory, for counts of its bits, and fails where
    /// that is refused or there are 2^24 nodes or more.
    pub fn finish(self) -> Result<Dense<A>, AllocError>
        ensures { IfOk result (λ dense. dense ≡ self.nodes) }
    {
        let DenseBuilder { alloc, sections } = self;
        let Sections {
            labels,
            has_child,
            prefix,
        } = sections;
        let labels = Ranked::new(alloc.clone()?, labels.finish())?;
        let has_child = Ranked::new(alloc.clone()?, has_child.finish())?;
        let prefix = Ranked::new(alloc, prefix.finish())?;
        Ok(Dense {
            labels,
            has_child,
            prefix,
        })
    }
}
