//! Rule 10: leaves that end.
ghost use Rattle.std.specs.Prelude.{◌≡◌, ◌==◌, ◌≤◌, ◌<◌, ◌^◌, ◌+◌, ◌*◌, ◌/◌, ◌++◌, length, take};
ghost use Rattle.std.specs.Option.{option_map};
ghost use Rattle.filter_codec.specs.Ends.{is_mark, leaf_letters, wrong_end};
ghost use Rattle.filter_codec.specs.Judging.{seen};
ghost use Rattle.filter_codec.specs.Rules.{ends_rule};
ghost use Rattle.filter_codec.specs.Tree.{Tree};
ghost use Rattle.filter_image_model.specs.Levels.{leaf_count_of};
ghost use Rattle.filter_image_model.specs.Reading.{slot_letters};
ghost use Rattle.filter_model.specs.Nodes.{all, at};
ghost use Rattle.filter_model.specs.Trie.{END};
ghost use Rattle.suffix_bits.specs.Slots.{SuffixArray};

use super::tree::Packed;
use bit_words::Bits;
use filter_api::FilterFault;
use std::alloc::Allocator;
use suffix_bits::Suffixes;

/// The first leaf that ends and has real bits, in suffixes that begin at a place.
pub(crate) fn ends_fault<A: Allocator>(
    place: usize,
    packed: &Packed<A>,
    suffixes: &Suffixes<A>,
) -> Option<FilterFault>
    requires count { length suffixes.now.slots ≡ leaf_count_of (packed.now.dense ++ packed.now.sparse) }
    requires place { place + length suffixes.now.slots * (suffixes.now.hash_bits + suffixes.now.real_bits) / 8 < 2 ^ 64 }
    requires wide { length suffixes.now.slots * (suffixes.now.hash_bits + suffixes.now.real_bits) < 2 ^ 64 }
    ensures { option_map seen result ≡ ends_rule place suffixes.now 0 (slot_letters (packed.now.dense ++ packed.now.sparse)) }
{
    let slot = wrong_slot(packed, suffixes)?;
    let (hash_bits, real_bits) = suffixes.widths();
    let width = u64::from(hash_bits) + u64::from(real_bits);
    Some(FilterFault {
        place: place as u64 + slot * width / 8,
        rule: 10,
    })
}

// The slot of the first END that has real bits.
fn wrong_slot<A: Allocator>(packed: &Packed<A>, suffixes: &Suffixes<A>) -> Option<u64>
    requires { length suffixes.now.slots ≡ leaf_count_of (packed.now.dense ++ packed.now.sparse) }
    ensures { result ≡ wrong_end suffixes.now 0 (slot_letters (packed.now.dense ++ packed.now.sparse)) }
{
    match packed.wrong_dense_slot(suffixes) {
        Some(slot) => Some(slot),
        None => packed.wrong_sparse_slot(suffixes),
    }
}

impl<A: Allocator> Packed<A> {
    // The slot of the first dense END that has real bits.
    fn wrong_dense_slot(&self, suffixes: &Suffixes<A>) -> Option<u64>
        requires { leaf_count_of self.now.dense ≤ length suffixes.now.slots }
        ensures { result ≡ wrong_end suffixes.now 0 (slot_letters self.now.dense) }
    {
        let ends = self.dense_ends.bits();
        for node in 0..ends.len() {
            if ends.get(node) {
                let slot = self.leaves_before(node);
                if suffixes.get(slot).1 != 0 {
                    return Some(slot);
                }
            }
        }
        None
    }

    // The slot of the first sparse END that has real bits.
    fn wrong_sparse_slot(&self, suffixes: &Suffixes<A>) -> Option<u64>
        requires { length suffixes.now.slots ≡ leaf_count_of (self.now.dense ++ self.now.sparse) }
        ensures { result ≡ wrong_end suffixes.now (leaf_count_of self.now.dense) (slot_letters self.now.sparse) }
    {
        for place in 0..self.labels.len() {
            if self.is_end(place) && !self.children.bits().get(place) {
                let slot = self.slot_at(place);
                if suffixes.get(slot).1 != 0 {
                    return Some(slot);
                }
            }
        }
        None
    }

    // The slot of the first leaf at a place of the labels or behind it.
    fn slot_at(&self, place: usize) -> u64
        requires { place < length (all self.now.sparse) }
        ensures { result ≡ leaf_count_of self.now.dense + length (leaf_letters (take place (all self.now.sparse))) }
    {
        let before = self.leaves_before(self.dense_ends.bits().len());
        before + (place - self.children.rank(place)) as u64
    }

    // How many leaves stand before a dense node, or before the sparse ones.
    fn leaves_before(&self, node: usize) -> u64
        requires { node ≤ length self.now.dense }
        ensures count { result ≡ leaf_count_of (take node self.now.dense) }
        ensures few { result < 2 ^ 63 }
    {
        let branches = self.dense_labels.rank(256 * node) + self.dense_ends.rank(node);
        (branches - self.dense_children.rank(256 * node)) as u64
    }

    // Whether END stands at a place of the labels.
    fn is_end(&self, place: usize) -> bool
        requires { place < length (all self.now.sparse) }
        ensures { result ≡ ((at self.now.sparse place).0 == END) }
    {
        has_mark(self.labels.as_slice(), self.louds.bits(), place)
    }
}

fn has_mark<A: Allocator>(labels: &[u8], louds: &Bits<A>, place: usize) -> bool
    requires label { place < length labels.now }
    requires opening { place < length louds.now }
    ensures { result ≡ is_mark labels.now louds.now place }
{
    labels[place] == 0xFF && louds.get(place) && place + 1 < louds.len() && !louds.get(place + 1)
}
