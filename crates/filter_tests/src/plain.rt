//! The nodes of a trie as plain lists, and what its calls answer by loops over them.

use super::keys::Keys;
use louds_sparse::Branch;
use std::alloc::{AllocError, Global};

/// END as a letter.
pub(crate) const END: u16 = 256;

/// The branches of all nodes, in level order: the letter of each, whether it leads to a node, and where each node begins.
#[derive(Drop)]
pub(crate) struct Plain {
    letters: Vec<u16>,
    children: Vec<bool>,
    firsts: Vec<usize>,
}

// Keys that share `depth` letters, by their numbers from `from` on and before `to`.
#[derive(Clone, Copy)]
struct Shared {
    from: usize,
    to: usize,
    depth: usize,
}

// The letter of key `number` behind `depth` others, or END behind its last one.
fn letter_at(keys: &Keys, number: usize, depth: usize) -> u16 {
    match keys.items.get(number) {
        Some(key) => match key.get(depth) {
            Some(letter) => u16::from(*letter),
            None => END,
        },
        None => END,
    }
}

// The first number behind `from` and before `to` whose key has another letter there than key `from`, or `to`.
fn other_letter(keys: &Keys, from: usize, to: usize, depth: usize) -> usize {
    for number in from..to {
        if letter_at(keys, number, depth) != letter_at(keys, from, depth) {
            return number;
        }
    }
    to
}

impl Plain {
    /// The trie of rising keys: a branch for each letter behind the letters that some share, which leads to a node where
    /// two keys or more have it.
    pub(crate) fn of(alloc: Global, keys: &Keys) -> Result<Plain, AllocError> {
        let mut plain = Plain {
            letters: Vec::new(alloc),
            children: Vec::new(alloc),
            firsts: Vec::new(alloc),
        };
        plain.add_nodes(alloc, keys)?;
        Ok(plain)
    }

    fn add_nodes(&mut self, alloc: Global, keys: &Keys) -> Result<(), AllocError> {
        let mut queue = Vec::new(alloc);
        queue.push(Shared {
            from: 0,
            to: keys.items.len(),
            depth: 0,
        })?;
        for next in 0..1_000 {
            match queue.get(next) {
                Some(shared) => {
                    let shared = *shared;
                    self.add_node(keys, shared, &mut queue)?;
                }
                None => return Ok(()),
            }
        }
        Ok(())
    }

    fn add_node(
        &mut self,
        keys: &Keys,
        shared: Shared,
        queue: &mut Vec<Shared>,
    ) -> Result<(), AllocError> {
        self.firsts.push(self.letters.len())?;
        let mut from = shared.from;
        for _ in 0..=END {
            if from >= shared.to {
                return Ok(());
            }
            let to = other_letter(keys, from, shared.to, shared.depth);
            let is_child = to.saturating_sub(from) > 1;
            self.letters.push(letter_at(keys, from, shared.depth))?;
            self.children.push(is_child)?;
            if is_child {
                queue.push(Shared {
                    from,
                    to,
                    depth: shared.depth.saturating_add(1),
                })?;
            }
            from = to;
        }
        Ok(())
    }

    pub(crate) fn node_count(&self) -> usize {
        self.firsts.len()
    }

    pub(crate) fn place_count(&self) -> usize {
        self.letters.len()
    }

    pub(crate) fn letter(&self, place: usize) -> u16 {
        match self.letters.get(place) {
            Some(letter) => *letter,
            None => END,
        }
    }

    /// The places of a node's branches: the first, and the one after the last.
    pub(crate) fn range(&self, node: usize) -> (usize, usize) {
        (self.begin(node), self.begin(node.saturating_add(1)))
    }

    fn begin(&self, node: usize) -> usize {
        match self.firsts.get(node) {
            Some(first) => *first,
            None => self.letters.len(),
        }
    }

    pub(crate) fn ends(&self, node: usize) -> bool {
        self.branch(node, END).is_some()
    }

    /// A node's branches by bytes.
    pub(crate) fn bytes(&self, alloc: Global, node: usize) -> Result<Vec<Branch>, AllocError> {
        let mut branches = Vec::new(alloc);
        let (from, to) = self.range(node);
        for place in from..to {
            if let Ok(byte) = u8::try_from(self.letter(place)) {
                branches.push(Branch {
                    byte,
                    child: self.child(place).is_some(),
                })?;
            }
        }
        Ok(branches)
    }

    pub(crate) fn branch(&self, node: usize, letter: u16) -> Option<u64> {
        let (from, to) = self.range(node);
        for place in from..to {
            if self.letter(place) == letter {
                return Some(place as u64);
            }
        }
        None
    }

    pub(crate) fn next_branch(&self, node: usize, byte: u16) -> Option<u64> {
        let (from, to) = self.range(node);
        for place in from..to {
            if self.letter(place) >= byte && self.letter(place) != END {
                return Some(place as u64);
            }
        }
        None
    }

    pub(crate) fn prev_branch(&self, node: usize, byte: u16) -> Option<u64> {
        let (from, to) = self.range(node);
        let mut last = None;
        for place in from..to {
            if self.letter(place) < byte {
                last = Some(place as u64);
            }
        }
        last
    }

    // How many branches before a place lead to a node, if `wanted` holds, or are leaves.
    fn count_before(&self, place: usize, wanted: bool) -> u64 {
        let mut count = 0u64;
        for before in 0..place {
            if self.children.get(before) == Some(&wanted) {
                count = count.saturating_add(1);
            }
        }
        count
    }

    pub(crate) fn child(&self, place: usize) -> Option<u64> {
        if self.children.get(place) == Some(&true) {
            Some(self.first_below(place))
        } else {
            None
        }
    }

    pub(crate) fn first_below(&self, place: usize) -> u64 {
        self.count_before(place, true).saturating_add(1)
    }

    pub(crate) fn leaf_slot(&self, place: usize) -> u64 {
        self.count_before(place, false)
    }

    /// The leaves before the first node of each level, together. No key of the sets has ten letters.
    pub(crate) fn level_starts(&self) -> u64 {
        let mut node = 0;
        let mut starts = 0u64;
        for _ in 0..10 {
            if node >= self.node_count() {
                return starts;
            }
            let first = self.range(node).0;
            starts = starts.saturating_add(self.leaf_slot(first));
            node = self.first_below(first) as usize;
        }
        u64::MAX
    }

    /// The leaves before a node, before the first node below its first branch or a later one, and so on, on so many levels.
    pub(crate) fn slots_down(&self, levels: usize, node: u64) -> u64 {
        let mut node = node;
        let mut sum = 0u64;
        for _ in 0..levels {
            let first = self.range(node as usize).0;
            sum = sum.saturating_add(self.leaf_slot(first));
            node = self.first_below(first);
        }
        sum
    }

    /// The slot of a place's least leaf, by first branches. No key of the sets has ten letters.
    pub(crate) fn leftmost(&self, place: usize) -> u64 {
        let mut place = place;
        for _ in 0..10 {
            match self.child(place) {
                Some(node) => place = self.range(node as usize).0,
                None => return self.leaf_slot(place),
            }
        }
        u64::MAX
    }

    /// The slot of the leaf that a key leads to, and how many bytes its stub has.
    pub(crate) fn walk(&self, key: &[u8]) -> Option<(u64, usize)> {
        let mut node = 0;
        for i in 0..key.len() {
            let place = self.branch(node, u16::from(key[i]))? as usize;
            match self.child(place) {
                Some(child) => node = child as usize,
                None => return Some((self.leaf_slot(place), i + 1)),
            }
        }
        Some((self.end_slot(node)?, key.len()))
    }

    /// The slot of a node's END.
    pub(crate) fn end_slot(&self, node: usize) -> Option<u64> {
        match self.branch(node, END) {
            Some(place) => Some(self.leaf_slot(place as usize)),
            None => None,
        }
    }
}
