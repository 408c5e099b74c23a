//! The three sections while they grow.
ghost use Rattle.std.specs.Prelude.{◌≡◌, ◌≤◌, ◌<◌, ◌+◌, ◌*◌, ◌-◌, ◌^◌, [], false, true, length, IfOk};
ghost use Rattle.std.specs.List.{All};
ghost use Rattle.louds_dense.specs.Building.{with_byte, with_byte_bits, with_end, with_gap};
ghost use Rattle.trie_model.specs.Given.{AreRising, node_given};
ghost use Rattle.trie_model.specs.declared.parts.Branch.{Branch as ByteBranch};

use bit_words::BitsBuilder;
use std::alloc::{AllocError, Allocator};
use std::marker::Model;
use trie_model::Branch;

/// How many places a node has, one for each byte.
pub(crate) const ROW_BITS: usize = 256;

/// Bits in room that was made before: for each byte of a node whether it is a branch and whether that leads to a node, and
/// for each node whether END is a branch.
#[derive(Drop)]
pub(crate) struct Sections<A: Allocator> {
    pub(crate) labels: BitsBuilder<A>,
    pub(crate) has_child: BitsBuilder<A>,
    pub(crate) prefix: BitsBuilder<A>,
}

impl<A: Allocator> Model for Sections<A> {
    ghost use Rattle.std.specs.Prelude.{◌≡◌, ◌*◌, length};
    ghost use Rattle.louds_dense.specs.Building.{SectionsInRoom};

    ghost Value = { SectionsInRoom };

    ghost view = { λ s. record { labels = s.labels.bits; children = s.has_child.bits; ends = s.prefix.bits; limit = s.prefix.limit } };

    ghost invariant = { λ s. (length s.has_child.bits ≡ length s.labels.bits) × (s.labels.limit ≡ 256 * s.prefix.limit) × (s.has_child.limit ≡ 256 * s.prefix.limit) };
}

impl<A: Allocator> Sections<A> {
    /// Makes room for `limit` nodes.
    pub(crate) fn with_room(alloc: A, limit: usize) -> Result<Sections<A>, AllocError>
    where
        A: Clone,
        requires { limit ≤ 2 ^ 53 }
        ensures { IfOk result (λ sections. sections ≡ record { labels = []; children = []; ends = []; limit = limit }) }
    {
        let labels = BitsBuilder::with_room(alloc.clone()?, ROW_BITS * limit)?;
        let has_child = BitsBuilder::with_room(alloc.clone()?, ROW_BITS * limit)?;
        let prefix = BitsBuilder::with_room(alloc, limit)?;
        Ok(Sections {
            labels,
            has_child,
            prefix,
        })
    }

    /// How many nodes there is still room for, by their bits for END.
    pub(crate) fn room_left(&self) -> usize
        requires { length self.now.ends ≤ self.now.limit }
        ensures { result ≡ self.now.limit - length self.now.ends }
    {
        self.prefix.limit() - self.prefix.len()
    }

    // Adds the bits of a byte.
    fn push(&mut self, label: bool, child: bool)
        requires { length self.old.labels < 256 * self.old.limit }
        ensures { self.new ≡ with_byte label child self.old }
    {
        self.labels.push(label);
        self.has_child.push(child);
    }

    // Adds the bits of `count` bytes that are no branches.
    fn push_gap(&mut self, count: usize)
        requires { length self.old.labels + count ≤ 256 * self.old.limit }
        ensures { self.new ≡ with_gap count self.old }
    {
        for _ in 0..count {
            self.push(false, false);
        }
    }

    // Adds the bits of a branch, and of the bytes from `next` on that stand before it. There is room for all bytes from
    // `next` on.
    fn push_branch(&mut self, next: usize, byte: u8, child: bool)
        requires order { next ≤ byte }
        requires room { length self.old.labels + 256 ≤ 256 * self.old.limit + next }
        ensures added { self.new ≡ with_byte true child (with_gap (byte - next) self.old) }
        ensures byte { byte < 256 }
    {
        self.push_gap(usize::from(byte) - next);
        self.push(true, child);
    }

    // Adds the bits of the bytes of a node with these branches.
    fn push_bytes(&mut self, branches: &[Branch])
        requires branches { AreRising branches.now }
        requires room { length self.old.labels + 256 ≤ 256 * self.old.limit }
        ensures added { self.new ≡ with_byte_bits 256 (node_given false branches.now) self.old }
        ensures bytes { All (λ (b : ByteBranch). b.byte < 256) branches.now }
    {
        let mut next = 0;
        for i in 0..branches.len() {
            let branch = branches[i];
            self.push_branch(next, branch.byte, branch.child);
            next = usize::from(branch.byte) + 1;
        }
        self.push_gap(ROW_BITS - next);
    }

    /// Adds the bits of a node.
    pub(crate) fn push_node(&mut self, end: bool, branches: &[Branch])
        requires branches { AreRising branches.now }
        requires bytes { length self.old.labels + 256 ≤ 256 * self.old.limit }
        requires end { length self.old.ends < self.old.limit }
        ensures added { self.new ≡ with_end end (with_byte_bits 256 (node_given false branches.now) self.old) }
        ensures bytes { All (λ (b : ByteBranch). b.byte < 256) branches.now }
    {
        self.push_bytes(branches);
        self.prefix.push(end);
    }
}
