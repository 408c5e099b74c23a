//! The three sections while they grow.
ghost use Rattle.std.specs.Prelude.{◌≡◌, ◌≤◌, ◌<◌, ◌+◌, ◌-◌, [], length, cond, IfOk};
ghost use Rattle.std.specs.List.{All};
ghost use Rattle.louds_sparse.specs.Building.{with_branch, with_branches};
ghost use Rattle.trie_model.specs.Given.{node_given};
ghost use Rattle.trie_model.specs.declared.parts.Branch.{Branch as ByteBranch};

use bit_words::BitsBuilder;
use std::alloc::{AllocError, Allocator};
use std::marker::Model;
use trie_model::Branch;

/// How END is written, in a node of two labels or more.
pub(crate) const END_LABEL: u8 = 0xFF;

/// Labels and bits in room that was made before: for each branch its label, whether it leads to a node, and whether it is
/// the first of its node.
#[derive(Drop)]
pub(crate) struct Sections<A: Allocator> {
    pub(crate) labels: Vec<u8, A>,
    pub(crate) has_child: BitsBuilder<A>,
    pub(crate) louds: BitsBuilder<A>,
}

impl<A: Allocator> Model for Sections<A> {
    ghost use Rattle.std.specs.Prelude.{◌≡◌, ◌≤◌, length};
    ghost use Rattle.std.specs.Vec.{vec_capacity};
    ghost use Rattle.louds_sparse.specs.Building.{SectionsInRoom};

    ghost Value = { SectionsInRoom };

    ghost view = { λ s. record { labels = s.labels.items; children = s.has_child.bits; louds = s.louds.bits; limit = s.has_child.limit } };

    ghost invariant = { λ s. (length s.has_child.bits ≡ length s.labels.items) × (length s.louds.bits ≡ length s.labels.items) × (s.louds.limit ≡ s.has_child.limit) × (length s.labels.items ≤ s.has_child.limit) × (s.has_child.limit ≤ vec_capacity s.labels) };
}

impl<A: Allocator> Sections<A> {
    /// Makes room for `limit` labels.
    pub(crate) fn with_room(alloc: A, limit: usize) -> Result<Sections<A>, AllocError>
    where
        A: Clone,
        ensures { IfOk result (λ sections. sections ≡ record { labels = []; children = []; louds = []; limit = limit }) }
    {
        let labels = Vec::with_capacity(alloc.clone()?, limit)?;
        let has_child = BitsBuilder::with_room(alloc.clone()?, limit)?;
        let louds = BitsBuilder::with_room(alloc, limit)?;
        Ok(Sections {
            labels,
            has_child,
            louds,
        })
    }

    /// How many labels there is still room for.
    pub(crate) fn room_left(&self) -> usize
        ensures { result ≡ self.now.limit - length self.now.labels }
    {
        self.has_child.limit() - self.labels.len()
    }

    // Adds a branch.
    fn push(&mut self, label: u8, child: bool, first: bool)
        requires { length self.old.labels < self.old.limit }
        ensures added { self.new ≡ with_branch label child first self.old }
        ensures byte { label < 256 }
    {
        self.labels.push_reserved(label);
        self.has_child.push(child);
        self.louds.push(first);
    }

    /// Adds the branches of a node: END where `end` holds, and then those by bytes.
    pub(crate) fn push_node(&mut self, end: bool, branches: &[Branch])
        requires { length self.old.labels + length (node_given end branches.now) ≤ self.old.limit }
        ensures added { self.new ≡ with_branches (node_given end branches.now) self.old }
        ensures bytes { All (λ (b : ByteBranch). b.byte < 256) branches.now }
    {
        if end {
            self.push(END_LABEL, false, true);
        }
        let mut first = !end;
        for i in 0..branches.len() {
            let branch = branches[i];
            self.push(branch.byte, branch.child, first);
            first = false;
        }
    }
}
