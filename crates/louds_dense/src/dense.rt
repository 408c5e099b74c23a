//! The half and its calls.
ghost use Rattle.std.specs.Prelude.{◌≡◌, ◌≤◌, ◌<◌, ◌+◌, ◌*◌, ◌%◌, ◌^◌, length, is_some, IsTrue, ◌↔◌};
ghost use Rattle.bit_words.specs.Counts.{rank_of};
ghost use Rattle.bit_model.specs.Packed.{packed};
ghost use Rattle.filter_model.specs.Image.{dense_children, dense_ends, dense_labels};
ghost use Rattle.louds_dense.specs.Places.{branch_place, child_at, counts_of, end_slot, first_below, next_place, node_slot, places_in, prev_place, slot_at};
ghost use Rattle.louds_dense.specs.Spelling.{IsSpelled, nodes_in};

use super::sections::ROW_BITS;
use bit_rank::Ranked;
use bit_words::Bits;
use std::alloc::Allocator;
use std::marker::Model;
use trie_model::Before;

/// The nodes of the upper levels of a trie: two bits for each byte, and one for END.
#[derive(Drop)]
pub struct Dense<A: Allocator> {
    pub(crate) labels: Ranked<A>,
    pub(crate) has_child: Ranked<A>,
    pub(crate) prefix: Ranked<A>,
}

impl<A: Allocator> Model for Dense<A> {
    ghost use Rattle.std.specs.Prelude.{List};
    ghost use Rattle.filter_model.specs.Nodes.{Node};
    ghost use Rattle.louds_dense.specs.Spelling.{IsSpelled, nodes_in};

    ghost Value = { List Node };

    ghost view = { λ d. nodes_in d.labels d.has_child d.prefix };

    ghost invariant = { λ d. IsSpelled d.labels d.has_child d.prefix (nodes_in d.labels d.has_child d.prefix) };
}

impl<A: Allocator> Dense<A> {
    /// The half that these sections spell. Takes no memory.
    pub fn of(labels: Ranked<A>, has_child: Ranked<A>, prefix: Ranked<A>) -> Dense<A>
        requires { IsSpelled labels has_child prefix (nodes_in labels has_child prefix) }
        ensures { result ≡ nodes_in labels has_child prefix }
    {
        Dense {
            labels,
            has_child,
            prefix,
        }
    }

    /// How many nodes it has.
    pub fn node_count(&self) -> u64
        ensures count { result ≡ length self.now }
        ensures few { result ≤ 2 ^ 53 }
    {
        self.prefix.bits().len() as u64
    }

    /// Whether a node is one of this half.
    pub fn has_node(&self, node: u64) -> bool
        ensures has { IsTrue result ↔ (node < length self.now) }
        ensures few { IsTrue result → node < 2 ^ 53 }
    {
        node < self.node_count()
    }

    /// How many places it has, 256 for each node.
    pub fn place_count(&self) -> u64
        ensures { result ≡ places_in self.now }
    {
        ROW_BITS as u64 * self.node_count()
    }

    /// What stands before the half that follows: the nodes of this one, its branches that lead to a node, and its leaves.
    pub fn counts(&self) -> Before
        ensures counts { result ≡ counts_of self.now }
        ensures few_nodes { result.nodes < 2 ^ 62 }
        ensures few_children { result.children < 2 ^ 62 }
        ensures few_slots { result.slots < 2 ^ 62 }
    {
        let nodes = self.prefix.bits().len();
        let places = ROW_BITS * nodes;
        let children = self.has_child.rank(places);
        Before {
            nodes: nodes as u64,
            children: children as u64,
            slots: self.leaves_to(places, self.prefix.rank(nodes), children),
        }
    }

    /// The first of a node's 256 places. Of the number of these nodes it is the place after the last.
    pub fn first_place(&self, node: u64) -> u64
        requires { node ≤ 2 ^ 53 }
        ensures { result ≡ 256 * node }
    {
        ROW_BITS as u64 * node
    }

    /// The place of the node's branch by this byte, `None` where it has none.
    pub fn branch(&self, node: u64, byte: u8) -> Option<u64>
        requires { node < length self.now }
        ensures { result ≡ branch_place self.now node byte }
    {
        let labels = self.labels.bits();
        let place = ROW_BITS * node as usize + usize::from(byte);
        if labels.get(place) {
            Some(place as u64)
        } else {
            None
        }
    }

    /// The place of the node's first branch by this byte or a greater one, `None` where it has none. `byte` is at most 256.
    pub fn next_branch(&self, node: u64, byte: u16) -> Option<u64>
        requires node { node < length self.now }
        requires byte { byte ≤ 256 }
        ensures { result ≡ next_place self.now node byte }
    {
        let labels = self.labels.bits();
        let start = ROW_BITS * node as usize;
        match labels.first_one_from(start + usize::from(byte)) {
            Some(place) if place < start + ROW_BITS => Some(place as u64),
            _ => None,
        }
    }

    /// The place of the node's last branch by a lesser byte, `None` where it has none. `byte` is at most 256.
    pub fn prev_branch(&self, node: u64, byte: u16) -> Option<u64>
        requires node { node < length self.now }
        requires byte { byte ≤ 256 }
        ensures { result ≡ prev_place self.now node byte }
    {
        let labels = self.labels.bits();
        let start = ROW_BITS * node as usize;
        match labels.last_one_before(start + usize::from(byte)) {
            Some(place) if place >= start => Some(place as u64),
            _ => None,
        }
    }

    /// The byte of a place.
    pub fn byte_at(&self, place: u64) -> u8
        requires { place < places_in self.now }
        ensures { result ≡ place % 256 }
    {
        (place % ROW_BITS as u64) as u8
    }

    /// The node that the branch at a place leads to, or `None` where it is a leaf or there is none.
    pub fn child(&self, place: u64) -> Option<u64>
        requires { place < places_in self.now }
        ensures { result ≡ child_at self.now place }
    {
        if self.leads_on(place) {
            let (_, before) = self.has_child.bit_and_rank(place as usize);
            Some(before as u64 + 1)
        } else {
            None
        }
    }

    /// Whether a branch stands at a place that leads to a node: whether `child` finds one there. It counts nothing.
    pub fn leads_on(&self, place: u64) -> bool
        requires { place < places_in self.now }
        ensures { result ≡ is_some (child_at self.now place) }
    {
        self.has_child.bits().get(place as usize)
    }

    /// How many leaves stand before a place, whether or not it is a branch: the slot of a leaf there.
    pub fn leaf_slot(&self, place: u64) -> u64
        requires { place ≤ places_in self.now }
        ensures { result ≡ slot_at self.now place }
    {
        self.before_place(place).0
    }

    /// The first node whose branch stands at a place or later, or the number of these nodes and their children where there
    /// is none; 1 of a half that has no node.
    pub fn first_below(&self, place: u64) -> u64
        requires { place ≤ places_in self.now }
        ensures { result ≡ first_below self.now place }
    {
        self.has_child.rank(place as usize) as u64 + 1
    }

    /// How many leaves stand before a place, and the first node whose branch stands there or later: what `leaf_slot` and
    /// `first_below` say, by three counts in place of four.
    pub fn before_place(&self, place: u64) -> (u64, u64)
        requires { place ≤ places_in self.now }
        ensures slots { result.0 ≡ slot_at self.now place }
        ensures below { result.1 ≡ first_below self.now place }
    {
        let nodes = (place as usize / ROW_BITS + 1).min(self.prefix.bits().len());
        let children = self.has_child.rank(place as usize);
        (
            self.leaves_to(place as usize, self.prefix.rank(nodes), children),
            children as u64 + 1,
        )
    }

    /// How many leaves stand before a node: those of the nodes before it. Of the number of these nodes it is all leaves.
    ///
    /// `leaf_slot` at the node's first place counts the node's END too.
    pub fn node_slot(&self, node: u64) -> u64
        requires { node ≤ length self.now }
        ensures { result ≡ node_slot self.now node }
    {
        let node = node as usize;
        let ends = self.prefix.rank(node);
        self.leaves_to(ROW_BITS * node, ends, self.has_child.rank(ROW_BITS * node))
    }

    /// The slot of the node's END, or `None` where END is no branch of it.
    pub fn prefix_slot(&self, node: u64) -> Option<u64>
        requires { node < length self.now }
        ensures { result ≡ end_slot self.now node }
    {
        if self.prefix.bits().get(node as usize) {
            Some(self.node_slot(node))
        } else {
            None
        }
    }

    /// The words that hold a bit for each byte of each node, set where it is a branch: bit `i` is bit `i mod 64` of word
    /// `i / 64`.
    pub fn labels(&self) -> &[u64]
        ensures { result.now ≡ packed 64 (dense_labels self.now) }
    {
        self.labels.words()
    }

    /// The words that hold a bit for each byte of each node, set where it is a branch that leads to a node.
    pub fn has_child(&self) -> &[u64]
        ensures { result.now ≡ packed 64 (dense_children self.now) }
    {
        self.has_child.words()
    }

    /// The words that hold a bit for each node, set where END is a branch.
    pub fn prefix(&self) -> &[u64]
        ensures { result.now ≡ packed 64 (dense_ends self.now) }
    {
        self.prefix.words()
    }

    /// The bits of `labels`, 256 for each node.
    pub fn label_bits(&self) -> &Bits<A>
        ensures { result.now ≡ dense_labels self.now }
    {
        self.labels.bits()
    }

    /// The bits of `has_child`, 256 for each node.
    pub fn child_bits(&self) -> &Bits<A>
        ensures { result.now ≡ dense_children self.now }
    {
        self.has_child.bits()
    }

    /// The bits of `prefix`, one for each node.
    pub fn end_bits(&self) -> &Bits<A>
        ensures { result.now ≡ dense_ends self.now }
    {
        self.prefix.bits()
    }

    // How many leaves stand before a place, where `ends` nodes of those before it have END, and `children` branches before it
    // lead to a node.
    fn leaves_to(&self, place: usize, ends: usize, children: usize) -> u64
        requires place { place ≤ places_in self.now }
        requires ends { ends ≤ length self.now }
        requires children { children ≡ rank_of (dense_children self.now) place }
        requires covered { rank_of (dense_children self.now) place ≤ rank_of (dense_labels self.now) place + ends }
        ensures sum { result + rank_of (dense_children self.now) place ≡ rank_of (dense_labels self.now) place + ends }
        ensures few { result < 2 ^ 62 }
    {
        let branches = self.labels.rank(place) + ends;
        (branches - children) as u64
    }
}
