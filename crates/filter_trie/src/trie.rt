//! The trie and its walks.
ghost use Rattle.std.specs.Prelude.{◌≡◌, ◌<◌, ◌≤◌, ◌+◌, ◌++◌, [], ◌∷◌, false, length, get_or, map, IfSome, MatchOption};
ghost use Rattle.std.specs.Option.{option_map};
ghost use Rattle.filter_api.specs.Spellings.{MayBeTrie};
ghost use Rattle.filter_model.specs.Leaves.{Filter};
ghost use Rattle.filter_model.specs.Image.{in_slots, suffixes as suffix_section};
ghost use Rattle.filter_model.specs.Trie.{END, height as height_of, is_reached, nodes};
ghost use Rattle.filter_trie.specs.LevelStarts.{slots_before_levels};
ghost use Rattle.filter_trie.specs.Parts.{AreParts, lower, upper};
ghost use Rattle.filter_trie.specs.Walks.{IsSlotAt, IsStep, ReachesLeaf, slot_in};
ghost use Rattle.suffix_bits.specs.Slots.{array_bits, leaf_suffix};
ghost use Rattle.trie_laws.specs.Halves.{second_half};
ghost use Rattle.trie_model.specs.Walks.{slot_of_key, steps as steps_of};

use super::level_sums::LevelSums;
use super::steps::Steps;
use super::walk::{Step, Walk};
use louds_dense::Dense;
use louds_sparse::Sparse;
use std::alloc::Allocator;
use std::marker::{Brand, Model};
use std::sync::ledger::{Blank, Ledger};
use suffix_bits::Suffixes;

/// The trie of a filter's leaves, and their suffixes by slot.
#[derive(Drop)]
pub struct Trie<A: Allocator> {
    pub(crate) cutoff: u16,
    pub(crate) height: u16,
    pub(crate) dense: Dense<A>,
    pub(crate) sparse: Sparse<A>,
    pub(crate) suffixes: Suffixes<A>,
    // Of the finished trie; `of` has none while it counts them.
    level_starts: Option<u64>,
    // Of one level, where they are kept.
    pub(crate) sums: Option<LevelSums<A>>,
}

impl<A: Allocator> Model for Trie<A> {
    ghost use Rattle.std.specs.Prelude.{◌≡◌, IfSome};
    ghost use Rattle.filter_model.specs.Leaves.{Filter};
    ghost use Rattle.filter_trie.specs.LevelStarts.{AreSums, slots_before_levels};
    ghost use Rattle.filter_trie.specs.Parts.{AreParts, image_by};

    ghost Value = { Filter };

    ghost view = { λ t. image_by t.cutoff t.height t.dense t.sparse.nodes t.suffixes };

    ghost invariant = { λ t. AreParts (image_by t.cutoff t.height t.dense t.sparse.nodes t.suffixes) t.cutoff t.height t.dense t.sparse t.suffixes × IfSome t.level_starts (λ n. n ≡ slots_before_levels (image_by t.cutoff t.height t.dense t.sparse.nodes t.suffixes)) × IfSome t.sums (λ s. AreSums (image_by t.cutoff t.height t.dense t.sparse.nodes t.suffixes) s.level s.first s.base s.places) };
}

impl<A: Allocator> Trie<A> {
    /// The trie with these parts, which are those of one leaf list with its widths and a cutoff. Goes down its
    /// levels once, and takes no memory.
    pub fn of(
        cutoff: u16,
        height: u16,
        dense: Dense<A>,
        sparse: Sparse<A>,
        suffixes: Suffixes<A>,
    ) -> Trie<A>
        ghost image: { Filter }
        requires { AreParts image cutoff height dense sparse suffixes }
        ensures { result ≡ image }
    {
        let mut trie = Trie {
            cutoff,
            height,
            dense,
            sparse,
            suffixes,
            level_starts: None,
            sums: None,
        };
        trie.level_starts = Some(trie.count_level_starts());
        trie
    }

    /// How many levels are dense.
    pub fn cutoff(&self) -> u16
        ensures { result ≡ self.now.cutoff }
    {
        self.cutoff
    }

    /// How many levels of nodes there are: at least as many as are dense. The leaves are always a list that has a trie; whether
    /// a filter may stand for it, a trie does not say.
    pub fn height(&self) -> u16
        ensures height { result ≡ height_of self.now.leaves }
        ensures stands { MayBeTrie self.now.hash_bits self.now.real_bits self.now.cutoff self.now.leaves }
        ensures cutoff { self.now.cutoff ≤ result }
    {
        self.height
    }

    /// How many leaves stand before the first node of each level, all levels together. Counted once, when the trie is made.
    pub fn level_starts(&self) -> u64
        ensures { result ≡ slots_before_levels self.now }
    {
        match self.level_starts {
            Some(starts) => starts,
            None => self.count_level_starts(),
        }
    }

    /// How many leaves there are.
    pub fn leaves(&self) -> u32
        ensures { result ≡ length self.now.leaves }
    {
        self.suffixes.len() as u32
    }

    /// The nodes of the levels above the cutoff.
    pub fn dense(&self) -> &Dense<A>
        ensures { result.now ≡ upper self.now.cutoff self.now.leaves }
    {
        &self.dense
    }

    /// The nodes of the other levels.
    pub fn sparse(&self) -> &Sparse<A>
        ensures { result.now ≡ second_half (upper self.now.cutoff self.now.leaves) (lower self.now.cutoff self.now.leaves) }
    {
        &self.sparse
    }

    /// The hash bits and real bits of the leaves, by slot.
    pub fn suffixes(&self) -> &Suffixes<A>
        ensures hash_bits { result.now.hash_bits ≡ self.now.hash_bits }
        ensures real_bits { result.now.real_bits ≡ self.now.real_bits }
        ensures count { length result.now.slots ≡ length self.now.leaves }
        ensures bits { array_bits result.now ≡ suffix_section self.now.hash_bits self.now.real_bits self.now.leaves }
    {
        &self.suffixes
    }

    /// The hash bits and the real bits of the leaf of a slot.
    pub fn suffix(&self, slot: u64) -> (u32, u32)
        requires { slot < length self.now.leaves }
        ensures { result ≡ get_or (map leaf_suffix (in_slots self.now.leaves)) slot (0, 0) }
    {
        self.suffixes.get(slot)
    }

    /// The slot of the one leaf that the key reaches: its stub is the key where it ends, and else a prefix of it.
    pub fn walk(&self, key: &[u8]) -> Walk
        ensures { slot_in result ≡ slot_of_key self.now.leaves key.now }
    {
        self.walk_from::<Brand>(key, Blank::new(1))
    }

    /// The slot of the leaf that the key reaches, and how many bytes its stub has: of a leaf that ends, all of the key's.
    pub fn walk_to(&self, key: &[u8]) -> Option<(u64, usize)>
        ensures slot { option_map (λ leaf. leaf.0) result ≡ slot_of_key self.now.leaves key.now }
        ensures within { IfSome result (λ leaf. leaf.1 ≤ length key.now) }
        ensures stub { IfSome result (λ leaf. ReachesLeaf self.now.leaves key.now leaf.0 leaf.1) }
    {
        let dense_nodes = self.dense.node_count();
        let mut node = 0;
        for i in 0..key.len() {
            match self.look(node, node < dense_nodes, key[i]) {
                Step::Miss => return None,
                Step::Leaf(slot) => return Some((slot, i + 1)),
                Step::Child(child) => node = child,
            }
        }
        match self.prefix_slot(node) {
            Some(slot) => Some((slot, key.len())),
            None => None,
        }
    }

    /// The slot alone, with a step for each node that the walk visits: those that are prefixes of the key.
    ///
    /// What is counted is steps, each of which looks at its node once. That it looks once is read in the code and said by no
    /// clause; and no program can read the count, which only the clauses speak of.
    pub fn walk_counted<L: Ledger>(&self, key: &[u8], steps: &mut Steps<L>) -> Walk
        ensures slot { slot_in result ≡ slot_of_key self.now.leaves key.now }
        ensures steps { steps.new ≡ steps.old + steps_of self.now.leaves key.now }
        ensures most { steps.new ≤ steps.old + length key.now + 1 }
    {
        let dense_nodes = self.dense.node_count();
        let mut node = 0;
        for byte in key {
            match self.step(node, node < dense_nodes, *byte, steps) {
                Step::Miss => return Walk::Miss,
                Step::Leaf(slot) => return Walk::Leaf(slot),
                Step::Child(child) => node = child,
            }
        }
        match self.end_slot(node, steps) {
            Some(slot) => Walk::Leaf(slot),
            None => Walk::Miss,
        }
    }

    // A walk whose count of steps nobody asks for.
    fn walk_from<L: Ledger>(&self, key: &[u8], blank: Blank) -> Walk
        requires name { blank.name ≡ L.name }
        requires parts { blank.parts ≡ L.parts }
        requires some { 0 < blank.parts }
        ensures { slot_in result ≡ slot_of_key self.now.leaves key.now }
    {
        self.walk_counted(key, &mut Steps::<L>::new(blank))
    }

    // The slot of the leaf that ends at a node, if one does. It is a step.
    fn end_slot<L: Ledger>(&self, node: u64, steps: &mut Steps<L>) -> Option<u64>
        requires { node < length (nodes self.now.leaves) }
        ensures step { steps.new ≡ steps.old + 1 }
        ensures slot { MatchOption result (is_reached self.now.leaves (get_or (nodes self.now.leaves) node [] ++ END ∷ []) ≡ false) (λ slot. IsSlotAt self.now.leaves slot (get_or (nodes self.now.leaves) node [] ++ END ∷ [])) }
    {
        steps.tick();
        if self.dense.has_node(node) {
            self.dense.prefix_slot(node)
        } else {
            self.sparse.prefix_slot(node)
        }
    }
}
