//! The branches of a node in key order: END comes before every byte.
ghost use Rattle.std.specs.Prelude.{◌≡◌, ◌+◌, ◌++◌, ◌∷◌, [], ◌<◌, ◌≤◌, IfSome, get_or, length};
ghost use Rattle.std.specs.Option.{option_map};
ghost use Rattle.filter_api.specs.Spellings.{MayBeTrie};
ghost use Rattle.filter_iter.specs.LeafPlace.{HasSpot, IsFirstBranch, IsSpotIfKnown};
ghost use Rattle.filter_iter.specs.CursorPath.{HasBranch, IsBranchAt, IsEndBranch, IsLeadAt, IsNextAt, IsPrevAt, leaves_before_byte, leaves_to};
ghost use Rattle.filter_model.specs.Trie.{END, nodes};
ghost use Rattle.filter_trie.specs.Places.{IsTaken, branch_number, trie as trie_in};
ghost use Rattle.trie_model.specs.Letters.{order_of};
ghost use Rattle.trie_model.specs.Rests.{first_leaf};

use super::leaf_place::{branch_at_spot, branch_behind_spot, node_spot, spot_of};
use super::parts::{Branch, END_LETTER, Lead, Pass, Spot};
use filter_trie::{Place, Trie};
use std::alloc::Allocator;

// Behind the last byte.
const NO_BYTE: u16 = 256;

/// Where a letter stands in key order: END first, and then the bytes. It is the byte from which on its followers are.
pub(crate) fn order(letter: u16) -> u16
    requires { letter ≤ END }
    ensures { result ≡ order_of letter }
{
    if letter == END_LETTER { 0 } else { letter + 1 }
}

/// Where the branch at a place leads.
pub(crate) fn lead_at<A: Allocator>(trie: &Trie<A>, place: Place) -> Lead
    requires { IsTaken trie.now place }
    ensures { IsLeadAt (trie_in trie.now) (branch_number trie.now place) result }
{
    match trie.child(place) {
        Some(node) => Lead::Node(node),
        None => Lead::Leaf(trie.leaf_slot(place)),
    }
}

// The branch at a place.
fn branch_at<A: Allocator>(trie: &Trie<A>, place: Place) -> Branch
    requires { IsTaken trie.now place }
    ensures { IsBranchAt (trie_in trie.now) (branch_number trie.now place) result }
{
    Branch {
        letter: u16::from(trie.byte_at(place)),
        lead: lead_at(trie, place),
    }
}

// The branch of a node by END, if it has one.
fn end_branch<A: Allocator>(trie: &Trie<A>, node: u64) -> Option<Branch>
    requires { node < length (nodes trie.now.leaves) }
    ensures { IsEndBranch (trie_in trie.now) node result }
{
    match trie.prefix_slot(node) {
        Some(slot) => Some(Branch {
            letter: END_LETTER,
            lead: Lead::Leaf(slot),
        }),
        None => None,
    }
}

// The first branch of a node by a byte from one on; `from` is at most 256.
fn branch_from<A: Allocator>(trie: &Trie<A>, node: u64, from: u16) -> Option<Branch>
    requires stands { MayBeTrie trie.now.hash_bits trie.now.real_bits trie.now.cutoff trie.now.leaves }
    requires node { node < length (nodes trie.now.leaves) }
    requires from { from ≤ 256 }
    ensures { IsNextAt trie.now.leaves (get_or (nodes trie.now.leaves) node []) (leaves_before_byte trie.now.leaves (get_or (nodes trie.now.leaves) node []) from) result }
{
    match trie.next_branch(node, from) {
        Some(place) => Some(branch_at(trie, place)),
        None => None,
    }
}

/// The branch of a node that comes next behind a letter.
pub(crate) fn branch_behind<A: Allocator>(trie: &Trie<A>, node: u64, letter: u16) -> Option<Branch>
    requires stands { MayBeTrie trie.now.hash_bits trie.now.real_bits trie.now.cutoff trie.now.leaves }
    requires node { node < length (nodes trie.now.leaves) }
    requires letter { letter ≤ END }
    ensures { IsNextAt trie.now.leaves (get_or (nodes trie.now.leaves) node []) (leaves_to trie.now.leaves (get_or (nodes trie.now.leaves) node [] ++ letter ∷ [])) result }
{
    branch_from(trie, node, order(letter))
}

// The last branch of a node by END or a byte below one; `below` is at most 256.
fn branch_below<A: Allocator>(trie: &Trie<A>, node: u64, below: u16) -> Option<Branch>
    requires stands { MayBeTrie trie.now.hash_bits trie.now.real_bits trie.now.cutoff trie.now.leaves }
    requires node { node < length (nodes trie.now.leaves) }
    requires below { below ≤ 256 }
    ensures { IsPrevAt trie.now.leaves (get_or (nodes trie.now.leaves) node []) (leaves_before_byte trie.now.leaves (get_or (nodes trie.now.leaves) node []) below) result }
{
    match trie.prev_branch(node, below) {
        Some(place) => Some(branch_at(trie, place)),
        None => end_branch(trie, node),
    }
}

/// The branch of a node that comes next before a letter.
pub(crate) fn branch_before<A: Allocator>(trie: &Trie<A>, node: u64, letter: u16) -> Option<Branch>
    requires stands { MayBeTrie trie.now.hash_bits trie.now.real_bits trie.now.cutoff trie.now.leaves }
    requires node { node < length (nodes trie.now.leaves) }
    requires letter { letter ≤ END }
    ensures { IsPrevAt trie.now.leaves (get_or (nodes trie.now.leaves) node []) (first_leaf trie.now.leaves (get_or (nodes trie.now.leaves) node [] ++ letter ∷ [])) result }
{
    if letter == END_LETTER {
        None
    } else {
        branch_below(trie, node, letter)
    }
}

/// The branch of a pass's node that comes next behind the pass's letter, and its spot where that is known.
pub(crate) fn branch_after<A: Allocator>(
    trie: &Trie<A>,
    pass: Pass,
) -> Option<(Branch, Option<Spot>)>
    requires stands { MayBeTrie trie.now.hash_bits trie.now.real_bits trie.now.cutoff trie.now.leaves }
    requires node { pass.node < length (nodes trie.now.leaves) }
    requires letter { pass.letter ≤ END }
    requires spot { HasSpot trie.now pass }
    ensures next { IsNextAt trie.now.leaves (get_or (nodes trie.now.leaves) pass.node []) (leaves_to trie.now.leaves (get_or (nodes trie.now.leaves) pass.node [] ++ pass.letter ∷ [])) (option_map (λ found. found.0) result) }
    ensures spot { IfSome result (λ found. IsSpotIfKnown trie.now pass.node found.0.letter found.1) }
{
    match spot_of(trie, pass) {
        Some(spot) => {
            let (branch, spot) = branch_behind_spot(trie, pass, spot)?;
            Some((branch, Some(spot)))
        }
        None => {
            let branch = branch_behind(trie, pass.node, pass.letter)?;
            Some((branch, None))
        }
    }
}

/// The first branch of a node, and its spot where the node is in the sparse half.
pub(crate) fn first_branch<A: Allocator>(trie: &Trie<A>, node: u64) -> (Branch, Option<Spot>)
    requires stands { MayBeTrie trie.now.hash_bits trie.now.real_bits trie.now.cutoff trie.now.leaves }
    requires node { node < length (nodes trie.now.leaves) }
    ensures branch { IsFirstBranch trie.now.leaves node result.0 }
    ensures spot { IsSpotIfKnown trie.now node result.0.letter result.1 }
{
    match node_spot(trie, node) {
        Some(spot) => (branch_at_spot(trie, node, spot), Some(spot)),
        None => (first_by_search(trie, node), None),
    }
}

// The first branch of a node, searched for.
fn first_by_search<A: Allocator>(trie: &Trie<A>, node: u64) -> Branch
    requires stands { MayBeTrie trie.now.hash_bits trie.now.real_bits trie.now.cutoff trie.now.leaves }
    requires node { node < length (nodes trie.now.leaves) }
    ensures { IsFirstBranch trie.now.leaves node result }
{
    if let Some(branch) = end_branch(trie, node) {
        return branch;
    }
    match branch_from(trie, node, 0) {
        Some(branch) => branch,
        None => unreachable!(),
    }
}

/// The last branch of a node.
pub(crate) fn last_branch<A: Allocator>(trie: &Trie<A>, node: u64) -> Branch
    requires stands { MayBeTrie trie.now.hash_bits trie.now.real_bits trie.now.cutoff trie.now.leaves }
    requires node { node < length (nodes trie.now.leaves) }
    ensures branch { HasBranch trie.now.leaves (get_or (nodes trie.now.leaves) node []) result }
    ensures last { leaves_to trie.now.leaves (get_or (nodes trie.now.leaves) node [] ++ result.letter ∷ []) ≡ leaves_to trie.now.leaves (get_or (nodes trie.now.leaves) node []) }
{
    match branch_below(trie, node, NO_BYTE) {
        Some(branch) => branch,
        None => unreachable!(),
    }
}
