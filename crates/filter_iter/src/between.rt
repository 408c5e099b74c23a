//! Whether some leaf may stand for a key of a range, by one way down: by the bytes with which both bounds begin, and from
//! the node where they part by those of each.
ghost use Rattle.std.specs.Prelude.{◌≡◌, ◌≢◌, ◌+◌, ◌++◌, ◌∷◌, [], ◌<◌, ◌≤◌, false, get_or, length, nat_lt, slice_index, take};
ghost use Rattle.filter_api.specs.Spellings.{MayBeTrie};
ghost use Rattle.filter_iter.specs.Between.{LeadsAlong, LeadsIf, TellsFrom, TellsTo};
ghost use Rattle.filter_iter.specs.CursorPath.{leaves_to};
ghost use Rattle.filter_model.specs.Answers.{ranged};
ghost use Rattle.filter_model.specs.Trie.{nodes};
ghost use Rattle.filter_trie.specs.Walks.{IsNodeAt};
ghost use Rattle.trie_model.specs.Rests.{first_leaf};

use super::answers::{is_reached_begun, is_reached_past};
use super::branches::{branch_behind, first_branch, lead_at};
use super::parts::{END_LETTER, Lead, Reached};
use filter_trie::Trie;
use std::alloc::Allocator;

// The root of the trie.
fn root<A: Allocator>(trie: &Trie<A>) -> u64
    ensures stands { MayBeTrie trie.now.hash_bits trie.now.real_bits trie.now.cutoff trie.now.leaves }
    ensures node { IsNodeAt trie.now.leaves result [] }
{
    // The clause of the height says that the leaves are a leaf list.
    let _ = trie.height();
    0
}

// Where a node's branch by a byte leads, if it has one.
fn lead_by<A: Allocator>(trie: &Trie<A>, node: u64, byte: u8) -> Option<Lead>
    requires stands { MayBeTrie trie.now.hash_bits trie.now.real_bits trie.now.cutoff trie.now.leaves }
    requires node { node < length (nodes trie.now.leaves) }
    ensures { LeadsIf trie.now.leaves (get_or (nodes trie.now.leaves) node [] ++ byte ∷ []) result }
{
    match trie.branch(node, byte) {
        Some(place) => Some(lead_at(trie, place)),
        None => None,
    }
}

// The leaf of a slot, whose stub is the first `stub` bytes of a bound.
fn met(slot: u64, stub: usize) -> Reached
    ensures { result ≡ record { slot = slot; stub = stub; ends = false } }
{
    Reached {
        slot,
        stub,
        ends: false,
    }
}

// Whether a node has a branch behind that of a byte.
fn has_behind<A: Allocator>(trie: &Trie<A>, node: u64, byte: u8) -> bool
    requires stands { MayBeTrie trie.now.hash_bits trie.now.real_bits trie.now.cutoff trie.now.leaves }
    requires node { node < length (nodes trie.now.leaves) }
    ensures order { leaves_to trie.now.leaves (get_or (nodes trie.now.leaves) node [] ++ byte ∷ []) ≤ leaves_to trie.now.leaves (get_or (nodes trie.now.leaves) node []) }
    ensures behind { result ≡ nat_lt (leaves_to trie.now.leaves (get_or (nodes trie.now.leaves) node [] ++ byte ∷ [])) (leaves_to trie.now.leaves (get_or (nodes trie.now.leaves) node [])) }
{
    branch_behind(trie, node, u16::from(byte)).is_some()
}

// Whether some leaf behind the first `read` bytes of `lo` is not past it. They lead to `lead`.
fn some_from<A: Allocator>(trie: &Trie<A>, lead: Option<Lead>, lo: &[u8], read: usize) -> bool
    requires stands { MayBeTrie trie.now.hash_bits trie.now.real_bits trie.now.cutoff trie.now.leaves }
    requires read { read ≤ length lo.now }
    requires leads { LeadsAlong trie.now.leaves lo.now read lead }
    ensures { TellsFrom trie.now.real_bits trie.now.leaves lo.now (take read lo.now) result }
{
    let mut lead = lead;
    let mut read = read;
    loop {
        match lead {
            None => return false,
            Some(Lead::Leaf(slot)) => return !is_reached_past(trie, lo, met(slot, read)),
            Some(Lead::Node(node)) => {
                if read >= lo.len() {
                    return true;
                }
                let byte = lo[read];
                if has_behind(trie, node, byte) {
                    return true;
                }
                lead = lead_by(trie, node, byte);
                read += 1;
            }
        }
    }
}

// Whether some leaf behind the first `read` bytes of `hi` begins at or below it. They lead to `lead`.
fn some_to<A: Allocator>(trie: &Trie<A>, lead: Option<Lead>, hi: &[u8], read: usize) -> bool
    requires stands { MayBeTrie trie.now.hash_bits trie.now.real_bits trie.now.cutoff trie.now.leaves }
    requires read { read ≤ length hi.now }
    requires leads { LeadsAlong trie.now.leaves hi.now read lead }
    ensures { TellsTo trie.now.real_bits trie.now.leaves hi.now (take read hi.now) result }
{
    let mut lead = lead;
    let mut read = read;
    loop {
        match lead {
            None => return false,
            Some(Lead::Leaf(slot)) => return is_reached_begun(trie, hi, met(slot, read)),
            Some(Lead::Node(node)) => {
                if read >= hi.len() {
                    return trie.prefix_slot(node).is_some();
                }
                let (branch, _) = first_branch(trie, node);
                let letter = u16::from(hi[read]);
                if branch.letter != letter {
                    return branch.letter == END_LETTER || branch.letter < letter;
                }
                lead = Some(branch.lead);
                read += 1;
            }
        }
    }
}

// Whether a node has a branch between two bytes, of which the first is the lesser.
fn has_between<A: Allocator>(trie: &Trie<A>, node: u64, from: u8, to: u8) -> bool
    requires stands { MayBeTrie trie.now.hash_bits trie.now.real_bits trie.now.cutoff trie.now.leaves }
    requires node { node < length (nodes trie.now.leaves) }
    requires order { from < to }
    ensures order { leaves_to trie.now.leaves (get_or (nodes trie.now.leaves) node [] ++ from ∷ []) ≤ first_leaf trie.now.leaves (get_or (nodes trie.now.leaves) node [] ++ to ∷ []) }
    ensures between { result ≡ nat_lt (leaves_to trie.now.leaves (get_or (nodes trie.now.leaves) node [] ++ from ∷ [])) (first_leaf trie.now.leaves (get_or (nodes trie.now.leaves) node [] ++ to ∷ [])) }
{
    match branch_behind(trie, node, u16::from(from)) {
        Some(branch) => branch.letter < u16::from(to),
        None => false,
    }
}

// The answer from the node to which the first `read` bytes of both bounds lead, where their next bytes differ.
fn parted<A: Allocator>(trie: &Trie<A>, node: u64, lo: &[u8], hi: &[u8], read: usize) -> bool
    requires stands { MayBeTrie trie.now.hash_bits trie.now.real_bits trie.now.cutoff trie.now.leaves }
    requires node { IsNodeAt trie.now.leaves node (take read lo.now) }
    requires alike { take read lo.now ≡ take read hi.now }
    requires lo_on { read < length lo.now }
    requires hi_on { read < length hi.now }
    requires apart { slice_index lo.now read ≢ slice_index hi.now read }
    ensures { result ≡ ranged trie.now.real_bits trie.now.leaves lo.now hi.now }
{
    let from = lo[read];
    let to = hi[read];
    if to < from {
        return false;
    }
    if has_between(trie, node, from, to) {
        return true;
    }
    if some_from(trie, lead_by(trie, node, from), lo, read + 1) {
        return true;
    }
    some_to(trie, lead_by(trie, node, to), hi, read + 1)
}

/// Whether some leaf may stand for a key from `lo` to `hi`.
///
/// Looks at no more nodes than `lo` has bytes, and at those of one way down: the way by `hi` below the node where the two
/// part, or below the node to which all of `lo` leads. Takes no memory.
pub fn range<A: Allocator>(trie: &Trie<A>, lo: &[u8], hi: &[u8]) -> bool
    ensures { result ≡ ranged trie.now.real_bits trie.now.leaves lo.now hi.now }
{
    let mut node = root(trie);
    for i in 0..lo.len() {
        if i >= hi.len() {
            return false;
        }
        if lo[i] != hi[i] {
            return parted(trie, node, lo, hi, i);
        }
        match lead_by(trie, node, lo[i]) {
            None => return false,
            Some(Lead::Leaf(slot)) => {
                let leaf = met(slot, i + 1);
                return !is_reached_past(trie, lo, leaf) && is_reached_begun(trie, hi, leaf);
            }
            Some(Lead::Node(child)) => node = child,
        }
    }
    some_to(trie, Some(Lead::Node(node)), hi, lo.len())
}
