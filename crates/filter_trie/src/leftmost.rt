//! The least leaf behind a branch.
ghost use Rattle.std.specs.Prelude.{◌≡◌, ◌<◌, ◌≤◌, length, Some};
ghost use Rattle.filter_api.specs.Spellings.{MayBeTrie};
ghost use Rattle.filter_model.specs.Trie.{nodes, places};
ghost use Rattle.filter_trie.specs.Parts.{upper};
ghost use Rattle.filter_trie.specs.Places.{IsTaken, branch_number, string_at, trie};
ghost use Rattle.louds_sparse.specs.Leads.{IsLead};
ghost use Rattle.trie_model.specs.Halves.{begin_of};
ghost use Rattle.trie_model.specs.Walks.{leftmost_slot};

use super::place::Place;
use super::trie::Trie;
use louds_sparse::Lead;
use std::alloc::Allocator;

impl<A: Allocator> Trie<A> {
    /// The slot of the least leaf, in key order, that the branch at a place reaches.
    pub fn leftmost(&self, place: Place) -> u64
        requires { IsTaken self.now place }
        ensures { Some result ≡ leftmost_slot self.now.leaves (string_at self.now place) }
    {
        let mut lead = self.lead(place);
        loop {
            match lead {
                Lead::Leaf(slot) => return slot,
                Lead::Child(node) => lead = self.first_lead(node),
            }
        }
    }

    // Where the branch at a place leads.
    fn lead(&self, place: Place) -> Lead
        requires { IsTaken self.now place }
        ensures lead { IsLead (trie self.now) (branch_number self.now place) result }
        ensures number { branch_number self.now place < length (places self.now.leaves) }
        ensures stands { MayBeTrie self.now.hash_bits self.now.real_bits self.now.cutoff self.now.leaves }
    {
        match place {
            Place::Dense(bit) => match self.dense.child(bit) {
                Some(node) => Lead::Child(node),
                None => Lead::Leaf(self.dense.leaf_slot(bit)),
            },
            Place::Sparse(place) => match self.sparse.child(place) {
                Some(node) => Lead::Child(node),
                None => Lead::Leaf(self.sparse.leaf_slot(place)),
            },
        }
    }

    // Where a node's first branch leads.
    fn first_lead(&self, node: u64) -> Lead
        requires { node < length (nodes self.now.leaves) }
        ensures { IsLead (trie self.now) (begin_of (trie self.now) node) result }
    {
        if self.dense.has_node(node) {
            self.first_dense_lead(node)
        } else {
            let place = self.sparse.first_place(node);
            self.lead(Place::Sparse(place))
        }
    }

    // The same in the dense half, where END has no place.
    fn first_dense_lead(&self, node: u64) -> Lead
        requires { node < length (upper self.now.cutoff self.now.leaves) }
        ensures { IsLead (trie self.now) (begin_of (trie self.now) node) result }
    {
        let dense = &self.dense;
        if let Some(slot) = dense.prefix_slot(node) {
            return Lead::Leaf(slot);
        }
        match dense.next_branch(node, 0) {
            Some(bit) => self.lead(Place::Dense(bit)),
            None => unreachable!(),
        }
    }
}
