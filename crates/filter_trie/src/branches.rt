//! The branches of a trie's nodes, over both halves.
ghost use Rattle.std.specs.Prelude.{◌≡◌, ◌<◌, ◌≤◌, length, is_some, IfSome};
ghost use Rattle.std.specs.Option.{option_map};
ghost use Rattle.filter_model.specs.Trie.{nodes};
ghost use Rattle.filter_trie.specs.Parts.{upper};
ghost use Rattle.filter_trie.specs.Places.{BeginsAt, IsTaken, IsWithin, StandsAt, branch_number, trie};
ghost use Rattle.filter_trie.specs.declared.place.Place.TheVariants as in_half;
ghost use Rattle.trie_model.specs.Halves.{begin_of, branch_place, byte_at, child_at, end_slot, first_below, next_place, prev_place, slot_at};

use super::place::Place;
use super::trie::Trie;
use louds_sparse::Placed;
use std::alloc::Allocator;

impl<A: Allocator> Trie<A> {
    /// The place of the node's branch by this byte, `None` where it has none; END is no byte.
    pub fn branch(&self, node: u64, byte: u8) -> Option<Place>
        requires { node < length (nodes self.now.leaves) }
        ensures place { option_map (branch_number self.now) result ≡ branch_place (trie self.now) node byte }
        ensures taken { IfSome result (IsTaken self.now) }
    {
        if self.dense.has_node(node) {
            match self.dense.branch(node, byte) {
                Some(bit) => Some(Place::Dense(bit)),
                None => None,
            }
        } else {
            match self.sparse.branch(node, byte) {
                Some(place) => Some(Place::Sparse(place)),
                None => None,
            }
        }
    }

    /// The branch by this byte of a node of the sparse half, with what stands before it, by one count; `None` where the node
    /// has none, and END is no byte.
    pub fn placed(&self, node: u64, byte: u8) -> Option<Placed>
        requires behind { length (upper self.now.cutoff self.now.leaves) ≤ node }
        requires there { node < length (nodes self.now.leaves) }
        ensures place { option_map (λ at. branch_number self.now (in_half.Sparse at.place)) result ≡ branch_place (trie self.now) node byte }
        ensures stands { IfSome result (StandsAt self.now) }
    {
        self.sparse.placed(node, byte)
    }

    /// The place of the node's first branch by this byte or a greater one, `None` where it has none. `byte` is at most 256.
    pub fn next_branch(&self, node: u64, byte: u16) -> Option<Place>
        requires node { node < length (nodes self.now.leaves) }
        requires byte { byte ≤ 256 }
        ensures place { option_map (branch_number self.now) result ≡ next_place (trie self.now) node byte }
        ensures taken { IfSome result (IsTaken self.now) }
    {
        if self.dense.has_node(node) {
            match self.dense.next_branch(node, byte) {
                Some(bit) => Some(Place::Dense(bit)),
                None => None,
            }
        } else {
            match self.sparse.next_branch(node, byte) {
                Some(place) => Some(Place::Sparse(place)),
                None => None,
            }
        }
    }

    /// The place of the node's last branch by a lesser byte, `None` where it has none. `byte` is at most 256.
    pub fn prev_branch(&self, node: u64, byte: u16) -> Option<Place>
        requires node { node < length (nodes self.now.leaves) }
        requires byte { byte ≤ 256 }
        ensures place { option_map (branch_number self.now) result ≡ prev_place (trie self.now) node byte }
        ensures taken { IfSome result (IsTaken self.now) }
    {
        if self.dense.has_node(node) {
            match self.dense.prev_branch(node, byte) {
                Some(bit) => Some(Place::Dense(bit)),
                None => None,
            }
        } else {
            match self.sparse.prev_branch(node, byte) {
                Some(place) => Some(Place::Sparse(place)),
                None => None,
            }
        }
    }

    /// The byte of the branch at a place, FF for END.
    pub fn byte_at(&self, place: Place) -> u8
        requires { IsTaken self.now place }
        ensures { result ≡ byte_at (trie self.now) (branch_number self.now place) }
    {
        match place {
            Place::Dense(bit) => self.dense.byte_at(bit),
            Place::Sparse(place) => self.sparse.byte_at(place),
        }
    }

    /// The node that the branch at a place leads to, or `None` where the branch is a leaf.
    pub fn child(&self, place: Place) -> Option<u64>
        requires { IsTaken self.now place }
        ensures { result ≡ child_at (trie self.now) (branch_number self.now place) }
    {
        match place {
            Place::Dense(bit) => self.dense.child(bit),
            Place::Sparse(place) => self.sparse.child(place),
        }
    }

    /// Whether the branch at a place leads to a node: whether `child` finds one. It counts nothing.
    pub fn leads_on(&self, place: Place) -> bool
        requires { IsTaken self.now place }
        ensures { result ≡ is_some (child_at (trie self.now) (branch_number self.now place)) }
    {
        match place {
            Place::Dense(bit) => self.dense.leads_on(bit),
            Place::Sparse(place) => self.sparse.leads_on(place),
        }
    }

    /// How many leaves stand before a place: the slot of the leaf there.
    pub fn leaf_slot(&self, place: Place) -> u64
        requires { IsWithin self.now place }
        ensures { result ≡ slot_at (trie self.now) (branch_number self.now place) }
    {
        match place {
            Place::Dense(bit) => self.dense.leaf_slot(bit),
            Place::Sparse(place) => self.sparse.leaf_slot(place),
        }
    }

    /// The first node whose branch stands at a place or later, or the number of all nodes where there is none.
    pub fn first_below(&self, place: Place) -> u64
        requires { IsWithin self.now place }
        ensures { result ≡ first_below (trie self.now) (branch_number self.now place) }
    {
        match place {
            Place::Dense(bit) => self.dense.first_below(bit),
            Place::Sparse(place) => self.sparse.first_below(place),
        }
    }

    /// The slot of the node's END, or `None` where END is no branch of it.
    pub fn prefix_slot(&self, node: u64) -> Option<u64>
        requires { node < length (nodes self.now.leaves) }
        ensures { result ≡ end_slot (trie self.now) node }
    {
        if self.dense.has_node(node) {
            self.dense.prefix_slot(node)
        } else {
            self.sparse.prefix_slot(node)
        }
    }

    /// The place at which a node begins, behind its END where END has no place, and behind the last place of all for the
    /// number of all nodes. How many leaves stand before the node, `slots_before` says.
    pub fn first_place(&self, node: u64) -> Place
        requires { node ≤ length (nodes self.now.leaves) }
        ensures begins { BeginsAt (trie self.now) node (branch_number self.now result) }
        ensures within { IsWithin self.now result }
    {
        if self.dense.has_node(node) {
            Place::Dense(self.dense.first_place(node))
        } else {
            Place::Sparse(self.sparse.first_place(node))
        }
    }

    /// How many leaves stand before a node, none of its own among them.
    pub fn slots_before(&self, node: u64) -> u64
        requires { node ≤ length (nodes self.now.leaves) }
        ensures { result ≡ slot_at (trie self.now) (begin_of (trie self.now) node) }
    {
        if self.dense.has_node(node) {
            self.dense.node_slot(node)
        } else {
            let sparse = &self.sparse;
            sparse.leaf_slot(sparse.first_place(node))
        }
    }
}
