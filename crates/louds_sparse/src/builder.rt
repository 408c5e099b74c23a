//! The half while it grows.
ghost use Rattle.std.specs.Prelude.{◌≡◌, ◌≤◌, ◌<◌, ◌+◌, ◌-◌, ◌^◌, [], length, IfOk};
ghost use Rattle.louds_sparse.specs.Building.{with_node};
ghost use Rattle.trie_model.specs.Given.{AreRising, node_given};
ghost use Rattle.louds_sparse.specs.Spelling.{AreFew};
ghost use Rattle.trie_model.specs.Halves.{places_in};

use super::sections::Sections;
use super::sparse::Sparse;
use bit_rank::Ranked;
use bit_select::Selected;
use std::alloc::{AllocError, Allocator};
use std::marker::Model;
use trie_model::{Before, Branch};

// The most labels that a half can have: fewer than 2^62, so that its numbers and those before it fit a word.
const MAX_LABELS: usize = (1 << 62) - 1;

/// Makes a half of nodes that are given in level order.
#[derive(Drop)]
pub struct SparseBuilder<A: Allocator> {
    alloc: A,
    before: Before,
    sections: Sections<A>,
}

impl<A: Allocator> Model for SparseBuilder<A> {
    ghost use Rattle.std.specs.Prelude.{◌<◌, ◌^◌};
    ghost use Rattle.louds_sparse.specs.Building.{HalfInRoom};
    ghost use Rattle.louds_sparse.specs.Spelling.{IsSpelled, half_in};

    ghost Value = { HalfInRoom };

    ghost view = { λ b. record { half = half_in b.before b.sections.labels b.sections.children b.sections.louds; limit = b.sections.limit } };

    ghost invariant = { λ b. IsSpelled b.before b.sections.labels b.sections.children b.sections.louds (half_in b.before b.sections.labels b.sections.children b.sections.louds) × (b.sections.limit < 2 ^ 62) };
}

impl<A: Allocator + Clone> SparseBuilder<A> {
    /// Makes room for `labels` labels, in three blocks of memory. Each number of `before` is below 2^62. Fails where memory
    /// is refused or `labels` is 2^62 or more.
    pub fn new(alloc: A, before: Before, labels: usize) -> Result<SparseBuilder<A>, AllocError>
        requires { AreFew before }
        ensures { IfOk result (λ builder. builder ≡ record { half = record { before = before; nodes = [] }; limit = labels }) }
    {
        if labels > MAX_LABELS {
            return Err(AllocError);
        }
        let sections = Sections::with_room(alloc.clone()?, labels)?;
        Ok(SparseBuilder {
            alloc,
            before,
            sections,
        })
    }

    /// How many labels there is still room for.
    pub fn room_left(&self) -> usize
        ensures { result ≡ self.now.limit - places_in self.now.half }
    {
        self.sections.room_left()
    }

    /// Adds a node: END where `end` holds, and the branches by bytes, some and rising, for which there is room
    /// (`room_left`). Takes no memory.
    pub fn node(&mut self, end: bool, branches: &[Branch])
        requires branches { AreRising branches.now }
        requires room { places_in self.old.half + length (node_given end branches.now) ≤ self.old.limit }
        ensures { self.new ≡ with_node (node_given end branches.now) self.old }
    {
        self.sections.push_node(end, branches);
    }

    /// The half of the nodes given, in their order. Takes two blocks of memory, for counts of its bits, and fails where
    /// that is refused or where there are 2^32 labels or more.
    pub fn finish(self) -> Result<Sparse<A>, AllocError>
        ensures { IfOk result (λ sparse. sparse ≡ self.half) }
    {
        let SparseBuilder {
            alloc,
            before,
            sections,
        } = self;
        let Sections {
            labels,
            has_child,
            louds,
        } = sections;
        let has_child = Ranked::new(alloc.clone()?, has_child.finish())?;
        let louds = Selected::new(alloc, louds.finish())?;
        Ok(Sparse {
            before,
            labels,
            has_child,
            louds,
        })
    }
}
