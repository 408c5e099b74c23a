//! What stands before a node or a place and leads on below it, by one count; and before the first node of each level.
ghost use Rattle.std.specs.Prelude.{◌≡◌, ◌≤◌, length};
ghost use Rattle.filter_model.specs.Trie.{nodes};
ghost use Rattle.filter_trie.specs.LevelStarts.{slots_before_levels};
ghost use Rattle.filter_trie.specs.Parts.{lower, upper};
ghost use Rattle.filter_trie.specs.Places.{IsWithin, branch_number, trie};
ghost use Rattle.trie_laws.specs.Halves.{second_half};
ghost use Rattle.trie_model.specs.Halves.{begin_of, first_below, places_in, slot_at};

use super::place::Place;
use super::trie::Trie;
use std::alloc::Allocator;

impl<A: Allocator> Trie<A> {
    /// How many leaves stand before a node, none of its own among them, and the first node below its first branch or a later
    /// one: what `slots_before` and `first_below` of its `first_place` say, by one search, that counts too, where it is sparse.
    pub fn before_node(&self, node: u64) -> (u64, u64)
        requires { node ≤ length (nodes self.now.leaves) }
        ensures slots { result.0 ≡ slot_at (trie self.now) (begin_of (trie self.now) node) }
        ensures below { result.1 ≡ first_below (trie self.now) (begin_of (trie self.now) node) }
    {
        let dense = &self.dense;
        if dense.has_node(node) {
            (
                dense.node_slot(node),
                dense.first_below(dense.first_place(node)),
            )
        } else {
            self.sparse.before_node(node)
        }
    }

    /// How many leaves stand before a place, and the first node whose branch stands there or later: what `leaf_slot` and
    /// `first_below` say, by one count less, and by one alone where the place is sparse.
    pub fn before_place(&self, place: Place) -> (u64, u64)
        requires { IsWithin self.now place }
        ensures slots { result.0 ≡ slot_at (trie self.now) (branch_number self.now place) }
        ensures below { result.1 ≡ first_below (trie self.now) (branch_number self.now place) }
    {
        match place {
            Place::Dense(bit) => self.dense.before_place(bit),
            Place::Sparse(place) => self.before_sparse(place),
        }
    }

    // The same of a place of the sparse half. A branch is a leaf or leads to a node, so one count says both.
    fn before_sparse(&self, place: u64) -> (u64, u64)
        requires { place ≤ places_in (second_half (upper self.now.cutoff self.now.leaves) (lower self.now.cutoff self.now.leaves)) }
        ensures slots { result.0 ≡ slot_at (second_half (upper self.now.cutoff self.now.leaves) (lower self.now.cutoff self.now.leaves)) place }
        ensures below { result.1 ≡ first_below (second_half (upper self.now.cutoff self.now.leaves) (lower self.now.cutoff self.now.leaves)) place }
    {
        let before = self.sparse.before();
        let below = self.sparse.first_below(place);
        let leading = below - before.children - 1;
        (before.slots + (place - leading), below)
    }

    // How many leaves stand before the first node of each level, all levels together.
    pub(crate) fn count_level_starts(&self) -> u64
        ensures { result ≡ slots_before_levels self.now }
    {
        self.count_down(0, 0)
    }
}
