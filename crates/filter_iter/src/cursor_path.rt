//! From a way to the way of the next leaf, or of the one before.
ghost use Rattle.std.specs.Prelude.{◌≡◌, ◌<◌, ◌≤◌, length};
ghost use Rattle.std.specs.List.{All};
ghost use Rattle.filter_api.specs.Spellings.{MayBeTrie};
ghost use Rattle.filter_iter.specs.LeafPlace.{HasSpot, IsMark};
ghost use Rattle.filter_iter.specs.CursorPath.{IsWay, LeadGoesTo, letters_of, leaves_to};
ghost use Rattle.filter_model.specs.Trie.{height};
ghost use Rattle.filter_trie.specs.Walks.{IsSlotAt};
ghost use Rattle.trie_model.specs.Rests.{first_leaf};

use super::branches::{branch_after, branch_before, last_branch};
use super::next_nodes::{first_marked, leave};
use super::parts::{Lead, Marks, Pass, Way};
use filter_trie::Trie;
use std::alloc::Allocator;

/// Goes up to the last node on a way that has a branch behind it, and turns to that branch. Of the nodes that it leaves it
/// marks where the next ones begin.
pub(crate) fn turn_behind<A: Allocator, B: Allocator>(
    trie: &Trie<A>,
    way: &mut Way<'_, B>,
    marks: &mut Marks<'_, B>,
) -> Lead
    requires stands { MayBeTrie trie.now.hash_bits trie.now.real_bits trie.now.cutoff trie.now.leaves }
    requires way { IsWay trie.now.leaves way.old.items }
    requires spots { All (HasSpot trie.now) way.old.items }
    requires marks { All (IsMark trie.now) marks.old.items }
    requires more { leaves_to trie.now.leaves (letters_of way.old.items) < length trie.now.leaves }
    requires room { height trie.now.leaves ≤ way.old.capacity }
    ensures way { IsWay trie.now.leaves way.new.items }
    ensures leads { LeadGoesTo trie.now.leaves (letters_of way.new.items) result }
    ensures first { first_leaf trie.now.leaves (letters_of way.new.items) ≡ leaves_to trie.now.leaves (letters_of way.old.items) }
    ensures spots { All (HasSpot trie.now) way.new.items }
    ensures marks { All (IsMark trie.now) marks.new.items }
    ensures capacity { way.new.capacity ≡ way.old.capacity }
{
    while let Some(pass) = way.pop() {
        if let Some((branch, spot)) = branch_after(trie, pass) {
            way.push_reserved(Pass {
                node: pass.node,
                letter: branch.letter,
                spot,
            });
            return branch.lead;
        }
        leave(trie, pass, marks);
    }
    unreachable!()
}

/// Goes up to the last node on a way that has a branch before it, and turns to that branch.
pub(crate) fn turn_before<A: Allocator, B: Allocator>(trie: &Trie<A>, way: &mut Way<'_, B>) -> Lead
    requires stands { MayBeTrie trie.now.hash_bits trie.now.real_bits trie.now.cutoff trie.now.leaves }
    requires way { IsWay trie.now.leaves way.old.items }
    requires spots { All (HasSpot trie.now) way.old.items }
    requires more { 0 < first_leaf trie.now.leaves (letters_of way.old.items) }
    requires room { height trie.now.leaves ≤ way.old.capacity }
    ensures way { IsWay trie.now.leaves way.new.items }
    ensures leads { LeadGoesTo trie.now.leaves (letters_of way.new.items) result }
    ensures last { leaves_to trie.now.leaves (letters_of way.new.items) ≡ first_leaf trie.now.leaves (letters_of way.old.items) }
    ensures spots { All (HasSpot trie.now) way.new.items }
    ensures capacity { way.new.capacity ≡ way.old.capacity }
{
    while let Some(pass) = way.pop() {
        if let Some(branch) = branch_before(trie, pass.node, pass.letter) {
            way.push_reserved(Pass {
                node: pass.node,
                letter: branch.letter,
                spot: None,
            });
            return branch.lead;
        }
    }
    unreachable!()
}

/// Goes on down to the first leaf below, and gives its slot.
pub(crate) fn go_first<A: Allocator, B: Allocator>(
    trie: &Trie<A>,
    lead: Lead,
    way: &mut Way<'_, B>,
    marks: &mut Marks<'_, B>,
) -> u64
    requires stands { MayBeTrie trie.now.hash_bits trie.now.real_bits trie.now.cutoff trie.now.leaves }
    requires way { IsWay trie.now.leaves way.old.items }
    requires spots { All (HasSpot trie.now) way.old.items }
    requires leads { LeadGoesTo trie.now.leaves (letters_of way.old.items) lead }
    requires marks { All (IsMark trie.now) marks.old.items }
    requires room { height trie.now.leaves ≤ way.old.capacity }
    ensures way { IsWay trie.now.leaves way.new.items }
    ensures slot { IsSlotAt trie.now.leaves result (letters_of way.new.items) }
    ensures first { first_leaf trie.now.leaves (letters_of way.new.items) ≡ first_leaf trie.now.leaves (letters_of way.old.items) }
    ensures spots { All (HasSpot trie.now) way.new.items }
    ensures marks { All (IsMark trie.now) marks.new.items }
    ensures capacity { way.new.capacity ≡ way.old.capacity }
{
    let mut lead = lead;
    loop {
        match lead {
            Lead::Leaf(slot) => return slot,
            Lead::Node(node) => {
                let (branch, spot) = first_marked(trie, node, marks);
                way.push_reserved(Pass {
                    node,
                    letter: branch.letter,
                    spot,
                });
                lead = branch.lead;
            }
        }
    }
}

/// Goes on down to the last leaf below, and gives its slot.
pub(crate) fn go_last<A: Allocator, B: Allocator>(
    trie: &Trie<A>,
    lead: Lead,
    way: &mut Way<'_, B>,
) -> u64
    requires stands { MayBeTrie trie.now.hash_bits trie.now.real_bits trie.now.cutoff trie.now.leaves }
    requires way { IsWay trie.now.leaves way.old.items }
    requires spots { All (HasSpot trie.now) way.old.items }
    requires leads { LeadGoesTo trie.now.leaves (letters_of way.old.items) lead }
    requires room { height trie.now.leaves ≤ way.old.capacity }
    ensures way { IsWay trie.now.leaves way.new.items }
    ensures slot { IsSlotAt trie.now.leaves result (letters_of way.new.items) }
    ensures last { leaves_to trie.now.leaves (letters_of way.new.items) ≡ leaves_to trie.now.leaves (letters_of way.old.items) }
    ensures spots { All (HasSpot trie.now) way.new.items }
    ensures capacity { way.new.capacity ≡ way.old.capacity }
{
    let mut lead = lead;
    loop {
        match lead {
            Lead::Leaf(slot) => return slot,
            Lead::Node(node) => {
                let branch = last_branch(trie, node);
                way.push_reserved(Pass {
                    node,
                    letter: branch.letter,
                    spot: None,
                });
                lead = branch.lead;
            }
        }
    }
}
