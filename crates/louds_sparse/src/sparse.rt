//! The half and its calls.
ghost use Rattle.std.specs.Prelude.{◌≡◌, ◌≤◌, ◌<◌, ◌+◌, ◌-◌, ◌==◌, ◌&&◌, nat_lt, length, slice_index, is_some, IfSome, IsTrue, ◌↔◌};
ghost use Rattle.std.specs.Option.{option_map};
ghost use Rattle.bit_rank.specs.Words.{IsWordOf};
ghost use Rattle.bit_model.specs.Packed.{packed};
ghost use Rattle.filter_model.specs.Image.{sparse_children, sparse_labels, sparse_louds};
ghost use Rattle.filter_model.specs.Nodes.{children_before, first_place};
ghost use Rattle.filter_model.specs.Trie.{END};
ghost use Rattle.louds_sparse.specs.Cuts.{AreSearched, IsCut, StandBytes};
ghost use Rattle.louds_sparse.specs.Leads.{IsLead, StandsAt};
ghost use Rattle.louds_sparse.specs.Spelling.{IsSpelled, half_in};
ghost use Rattle.trie_model.specs.Halves.{HasNode, begin_of, branch_place, byte_at, child_at, end_slot, first_below, next_place, places_in, prev_place, slot_at};

use super::lead::{Lead, Placed};
use super::sections::END_LABEL;
use bit_rank::{Ranked, RankedWord};
use bit_select::Selected;
use bit_words::Bits;
use lane_scan::{find_label_between, first_at_least_between, ones};
use std::alloc::Allocator;
use std::marker::Model;
use trie_model::Before;

/// The nodes of the lower levels of a trie: a label, a bit for a child and a bit for a first label for each branch.
#[derive(Drop)]
pub struct Sparse<A: Allocator> {
    pub(crate) before: Before,
    pub(crate) labels: Vec<u8, A>,
    pub(crate) has_child: Ranked<A>,
    pub(crate) louds: Selected<A>,
}

impl<A: Allocator> Model for Sparse<A> {
    ghost use Rattle.trie_model.specs.Halves.{Half};
    ghost use Rattle.louds_sparse.specs.Spelling.{IsSpelled, half_in};

    ghost Value = { Half };

    ghost view = { λ s. half_in s.before s.labels.items s.has_child s.louds };

    ghost invariant = { λ s. IsSpelled s.before s.labels.items s.has_child s.louds (half_in s.before s.labels.items s.has_child s.louds) };
}

impl<A: Allocator> Sparse<A> {
    /// The half that these sections spell, with what stands before it. Takes no memory.
    pub fn of(
        before: Before,
        labels: Vec<u8, A>,
        has_child: Ranked<A>,
        louds: Selected<A>,
    ) -> Sparse<A>
        requires { IsSpelled before labels.items has_child louds (half_in before labels.items has_child louds) }
        ensures { result ≡ half_in before labels.items has_child louds }
    {
        Sparse {
            before,
            labels,
            has_child,
            louds,
        }
    }

    /// What stands before this half.
    pub fn before(&self) -> Before
        ensures { result ≡ self.now.before }
    {
        self.before
    }

    /// How many nodes it has. Counts the words of `louds`.
    pub fn node_count(&self) -> u64
        ensures { result ≡ length self.now.nodes }
    {
        ones(self.louds.bits().words())
    }

    /// How many places it has, one for each branch.
    pub fn place_count(&self) -> u64
        ensures { result ≡ places_in self.now }
    {
        self.labels.len() as u64
    }

    /// Whether a node is one of this half. Counts its nodes.
    pub fn has_node(&self, node: u64) -> bool
        ensures { IsTrue result ↔ HasNode self.now node }
    {
        node >= self.before.nodes && node - self.before.nodes < self.node_count()
    }

    /// The place at which a node begins. Of the number of all nodes it is the place after the last.
    pub fn first_place(&self, node: u64) -> u64
        requires behind { self.now.before.nodes ≤ node }
        requires there { node ≤ self.now.before.nodes + length self.now.nodes }
        ensures { result ≡ begin_of self.now node }
    {
        self.begin((node - self.before.nodes) as usize) as u64
    }

    /// How many leaves stand before a node, those before this half counted in, and the first node whose branch is one of the
    /// node's or stands later: what `leaf_slot` and `first_below` of its `first_place` say, mostly by counting both at once.
    pub fn before_node(&self, node: u64) -> (u64, u64)
        requires behind { self.now.before.nodes ≤ node }
        requires there { node ≤ self.now.before.nodes + length self.now.nodes }
        ensures slots { result.0 ≡ slot_at self.now (begin_of self.now node) }
        ensures below { result.1 ≡ first_below self.now (begin_of self.now node) }
    {
        let (place, leading) = self.begin_counted((node - self.before.nodes) as usize);
        (
            self.before.slots + (place - leading) as u64,
            self.before.children + leading as u64 + 1,
        )
    }

    /// The places of a node's labels: the first, and the one after the last.
    pub fn node_range(&self, node: u64) -> (u64, u64)
        requires { HasNode self.now node }
        ensures from { result.0 ≡ begin_of self.now node }
        ensures to { result.1 ≡ begin_of self.now (node + 1) }
    {
        let (from, to) = self.labels_of(node);
        (from as u64, to as u64)
    }

    /// The place of the node's branch by this byte, `None` where it has none; END is no byte.
    pub fn branch(&self, node: u64, byte: u8) -> Option<u64>
        requires { HasNode self.now node }
        ensures { result ≡ branch_place self.now node byte }
    {
        let (start, end) = self.searched(node, byte);
        match find_label_between(&self.labels, start, end, byte) {
            Some(place) => Some(place as u64),
            None => None,
        }
    }

    /// The place of the node's branch by this byte, and where it leads: what `branch` says, and `child` or `leaf_slot`, by one
    /// count. `None` where the node has none; END is no byte.
    pub fn lead(&self, node: u64, byte: u8) -> Option<(u64, Lead)>
        requires { HasNode self.now node }
        ensures place { option_map (λ lead. lead.0) result ≡ branch_place self.now node byte }
        ensures leads { IfSome result (λ lead. IsLead self.now lead.0 lead.1) }
    {
        let (start, end) = self.searched(node, byte);
        // Read before the labels, so that the processor waits for both at once.
        let word = self.has_child.word_of(start);
        match find_label_between(&self.labels, start, end, byte) {
            Some(place) => Some((place as u64, self.lead_by(word, place))),
            None => None,
        }
    }

    /// The node's branch by this byte, with what stands before it: what `branch` says, and `leaf_slot`, `first_below` and
    /// `leads_on` of its place, by one count. `None` where the node has none; END is no byte.
    pub fn placed(&self, node: u64, byte: u8) -> Option<Placed>
        requires { HasNode self.now node }
        ensures place { option_map (λ at. at.place) result ≡ branch_place self.now node byte }
        ensures stands { IfSome result (StandsAt self.now) }
    {
        let (start, end) = self.searched(node, byte);
        // Read before the labels, so that the processor waits for both at once.
        let word = self.has_child.word_of(start);
        match find_label_between(&self.labels, start, end, byte) {
            Some(place) => Some(self.placed_by(word, place)),
            None => None,
        }
    }

    /// The place of the node's first branch by this byte or a greater one, `None` where it has none. `byte` is at most 256.
    pub fn next_branch(&self, node: u64, byte: u16) -> Option<u64>
        requires node { HasNode self.now node }
        requires byte { byte ≤ 256 }
        ensures { result ≡ next_place self.now node byte }
    {
        let (start, end) = self.bytes_of(node);
        let place = cut(&self.labels, start, end, byte);
        if place < end {
            Some(place as u64)
        } else {
            None
        }
    }

    /// The place of the node's last branch by a lesser byte, `None` where it has none. `byte` is at most 256.
    pub fn prev_branch(&self, node: u64, byte: u16) -> Option<u64>
        requires node { HasNode self.now node }
        requires byte { byte ≤ 256 }
        ensures { result ≡ prev_place self.now node byte }
    {
        let (start, end) = self.bytes_of(node);
        let behind = cut(&self.labels, start, end, byte);
        if behind > start {
            Some(behind as u64 - 1)
        } else {
            None
        }
    }

    /// The byte of the branch at a place, FF for END.
    pub fn byte_at(&self, place: u64) -> u8
        requires { place < places_in self.now }
        ensures { result ≡ byte_at self.now place }
    {
        self.labels[place as usize]
    }

    /// The node that the branch at a place leads to, or `None` where the branch is a leaf.
    pub fn child(&self, place: u64) -> Option<u64>
        requires { place < places_in self.now }
        ensures { result ≡ child_at self.now place }
    {
        let place = place as usize;
        match self.lead_by(self.has_child.word_of(place), place) {
            Lead::Child(node) => Some(node),
            Lead::Leaf(_) => None,
        }
    }

    /// Whether the branch at a place leads to a node: whether `child` finds one. It counts nothing.
    pub fn leads_on(&self, place: u64) -> bool
        requires { place < places_in self.now }
        ensures { result ≡ is_some (child_at self.now place) }
    {
        self.has_child.bits().get(place as usize)
    }

    /// How many leaves stand before a place, those before this half counted in: the slot of the leaf there.
    pub fn leaf_slot(&self, place: u64) -> u64
        requires { place ≤ places_in self.now }
        ensures { result ≡ slot_at self.now place }
    {
        self.before.slots + (place - self.has_child.rank(place as usize) as u64)
    }

    /// The first node whose branch stands at a place or later, or the number of all nodes where there is none.
    pub fn first_below(&self, place: u64) -> u64
        requires { place ≤ places_in self.now }
        ensures { result ≡ first_below self.now place }
    {
        self.before.children + self.has_child.rank(place as usize) as u64 + 1
    }

    /// The slot of the node's END, or `None` where END is no branch of it.
    pub fn prefix_slot(&self, node: u64) -> Option<u64>
        requires { HasNode self.now node }
        ensures { result ≡ end_slot self.now node }
    {
        let (from, to) = self.labels_of(node);
        if opens_with_end(&self.labels, from, to) {
            Some(self.leaf_slot(from as u64))
        } else {
            None
        }
    }

    /// The labels, one for each branch: its byte, or FF for END.
    pub fn labels(&self) -> &[u8]
        ensures { result.now ≡ sparse_labels self.now.nodes }
    {
        self.labels.as_slice()
    }

    /// The words that hold a bit for each branch, set where it leads to a node: bit `i` is bit `i mod 64` of word `i / 64`.
    pub fn has_child(&self) -> &[u64]
        ensures { result.now ≡ packed 64 (sparse_children self.now.nodes) }
    {
        self.has_child.words()
    }

    /// The words that hold a bit for each branch, set where it is the first of its node.
    pub fn louds(&self) -> &[u64]
        ensures { result.now ≡ packed 64 (sparse_louds self.now.nodes) }
    {
        self.louds.words()
    }

    /// The bits of `has_child`, one for each branch.
    pub fn child_bits(&self) -> &Bits<A>
        ensures { result.now ≡ sparse_children self.now.nodes }
    {
        self.has_child.bits()
    }

    /// The bits of `louds`, one for each branch.
    pub fn louds_bits(&self) -> &Bits<A>
        ensures { result.now ≡ sparse_louds self.now.nodes }
    {
        self.louds.bits()
    }

    // Where the branch at a place leads, by a word of `has_child` that was read. One count says both.
    fn lead_by(&self, word: RankedWord, place: usize) -> Lead
        requires place { place < places_in self.now }
        requires word { IsWordOf (sparse_children self.now.nodes) word }
        ensures { IsLead self.now place result }
    {
        let (leads, before) = self.has_child.bit_and_rank_by(word, place);
        if leads {
            Lead::Child(self.before.children + before as u64 + 1)
        } else {
            Lead::Leaf(self.before.slots + (place - before) as u64)
        }
    }

    // The branch at a place, by a word of `has_child` that was read. One count says what stands before it.
    fn placed_by(&self, word: RankedWord, place: usize) -> Placed
        requires place { place < places_in self.now }
        requires word { IsWordOf (sparse_children self.now.nodes) word }
        ensures place { result.place ≡ place }
        ensures stands { StandsAt self.now result }
    {
        let (leads, before) = self.has_child.bit_and_rank_by(word, place);
        Placed {
            place: place as u64,
            slots: self.before.slots + (place - before) as u64,
            below: self.before.children + before as u64 + 1,
            leads,
        }
    }

    // The place at which a node begins, by its number in this half, or the one after the last.
    fn begin(&self, number: usize) -> usize
        requires { number ≤ length self.now.nodes }
        ensures { result ≡ first_place self.now.nodes number }
    {
        match self.louds.select(number) {
            Some(place) => place,
            None => self.labels.len(),
        }
    }

    // The same place, and how many branches before it lead to a node, where it is near a place that `louds` keeps: both are
    // counted from there on, so that no count waits for the place.
    fn near_begin(&self, number: usize) -> Option<(usize, usize)>
        requires { number ≤ length self.now.nodes }
        ensures place { IfSome result (λ found. found.0 ≡ first_place self.now.nodes number) }
        ensures leading { IfSome result (λ found. found.1 ≡ children_before self.now.nodes found.0) }
    {
        let start = self.louds.start(number)?;
        let before = self.has_child.rank(64 * start.word);
        let (place, behind) = self.louds.near(start, self.has_child.words())?;
        Some((place, before + behind as usize))
    }

    // The place at which a node begins, or the one after the last, and how many branches before it lead to a node.
    fn begin_counted(&self, number: usize) -> (usize, usize)
        requires { number ≤ length self.now.nodes }
        ensures place { result.0 ≡ first_place self.now.nodes number }
        ensures leading { result.1 ≡ children_before self.now.nodes result.0 }
    {
        match self.near_begin(number) {
            Some(found) => found,
            None => {
                let place = self.begin(number);
                (place, self.has_child.rank(place))
            }
        }
    }

    // The places of a node's labels: the first, and the one after the last.
    fn labels_of(&self, node: u64) -> (usize, usize)
        requires { HasNode self.now node }
        ensures from { result.0 ≡ begin_of self.now node }
        ensures to { result.1 ≡ begin_of self.now (node + 1) }
        ensures order { result.0 < result.1 }
        ensures within { result.1 ≤ places_in self.now }
    {
        let from = self.begin((node - self.before.nodes) as usize);
        match self.louds.bits().first_one_from(from + 1) {
            Some(to) => (from, to),
            None => (from, self.labels.len()),
        }
    }

    // The places at which a node's label may be this byte. END is written as the byte FF, so it is passed over for that alone.
    fn searched(&self, node: u64, byte: u8) -> (usize, usize)
        requires { HasNode self.now node }
        ensures { AreSearched self.now node byte result.0 result.1 }
    {
        if byte == END_LABEL {
            self.bytes_of(node)
        } else {
            self.labels_of(node)
        }
    }

    // The places of a node's bytes: the first, which is behind END, and the one after the last.
    fn bytes_of(&self, node: u64) -> (usize, usize)
        requires { HasNode self.now node }
        ensures { StandBytes self.now node result.0 result.1 }
    {
        let (from, to) = self.labels_of(node);
        (
            from + usize::from(opens_with_end(&self.labels, from, to)),
            to,
        )
    }
}

// Whether the labels of a node, from `from` on and before `to`, begin with END: they are two or more, and the first is FF.
fn opens_with_end(labels: &[u8], from: usize, to: usize) -> bool
    requires order { from < to }
    requires there { to ≤ length labels.now }
    ensures { result ≡ (nat_lt 1 (to - from) && (slice_index labels.now from == 255)) }
{
    to - from > 1 && labels[from] == END_LABEL
}

// The first place from `start` on and before `end` whose label is `byte` or more, or `end` where none is.
fn cut(labels: &[u8], start: usize, end: usize, byte: u16) -> usize
    requires order { start ≤ end }
    requires there { end ≤ length labels.now }
    requires byte { byte ≤ 256 }
    ensures { IsCut labels.now start end byte result }
{
    if byte > 255 {
        return end;
    }
    match first_at_least_between(labels, start, end, byte as u8) {
        Some(place) => place,
        None => end,
    }
}
