//! The branches of a node of the sparse half by their spots: the next one stands right behind, so that it is not searched for,
//! and where it leads follows from where the one before leads, so that nothing is counted.
ghost use Rattle.std.specs.Prelude.{◌≡◌, ◌+◌, ◌++◌, ◌∷◌, [], ◌<◌, ◌≤◌, ◌==◌, ◌&&◌, not, cond, IfSome, get_or, length};
ghost use Rattle.std.specs.Option.{option_map};
ghost use Rattle.filter_api.specs.Spellings.{MayBeTrie};
ghost use Rattle.filter_iter.specs.LeafPlace.{BeginsNode, HasSpot, IsFirstBranch, IsSpotOf, IsSpotIfKnown, IsTakenSpot, below_place};
ghost use Rattle.filter_iter.specs.CursorPath.{IsLeadAt, IsNextAt, leaves_to};
ghost use Rattle.filter_model.specs.Trie.{END, nodes};
ghost use Rattle.filter_trie.specs.Places.{branch_number, trie as trie_in};
ghost use Rattle.filter_trie.specs.declared.place.Place.TheVariants as in_half;

use super::parts::{Branch, END_LETTER, Lead, Pass, Spot};
use filter_trie::{Place, Trie};
use std::alloc::Allocator;

// How END is written, in a node of two labels or more.
const END_LABEL: u8 = 255;

/// The spot of a node's first branch, `None` where the node is in the dense half.
pub(crate) fn node_spot<A: Allocator>(trie: &Trie<A>, node: u64) -> Option<Spot>
    requires stands { MayBeTrie trie.now.hash_bits trie.now.real_bits trie.now.cutoff trie.now.leaves }
    requires node { node < length (nodes trie.now.leaves) }
    ensures { IfSome result (BeginsNode trie.now node) }
{
    if trie.dense().has_node(node) {
        return None;
    }
    let (place, end) = trie.sparse().node_range(node);
    let below = trie.first_below(Place::Sparse(place));
    Some(Spot { place, end, below })
}

/// The spot of a pass's branch: the pass has it, or it is searched for. `None` in the dense half, and of END.
pub(crate) fn spot_of<A: Allocator>(trie: &Trie<A>, pass: Pass) -> Option<Spot>
    requires stands { MayBeTrie trie.now.hash_bits trie.now.real_bits trie.now.cutoff trie.now.leaves }
    requires node { pass.node < length (nodes trie.now.leaves) }
    requires letter { pass.letter ≤ END }
    requires spot { HasSpot trie.now pass }
    ensures { IsSpotIfKnown trie.now pass.node pass.letter result }
{
    if pass.spot.is_some() || pass.letter == END_LETTER {
        return pass.spot;
    }
    search(trie, pass.node, pass.letter as u8)
}

// The spot of a node's branch by a byte.
fn search<A: Allocator>(trie: &Trie<A>, node: u64, byte: u8) -> Option<Spot>
    requires stands { MayBeTrie trie.now.hash_bits trie.now.real_bits trie.now.cutoff trie.now.leaves }
    requires node { node < length (nodes trie.now.leaves) }
    ensures { IsSpotIfKnown trie.now node byte result }
{
    let Spot { end, .. } = node_spot(trie, node)?;
    match trie.branch(node, byte) {
        Some(Place::Sparse(place)) => {
            let below = trie.first_below(Place::Sparse(place));
            Some(Spot { place, end, below })
        }
        _ => None,
    }
}

// Where the branch at a spot leads. What stands before it are nodes' branches and leaves, so that the count of the nodes says
// how many leaves there are.
fn lead_at_spot<A: Allocator>(trie: &Trie<A>, spot: Spot) -> Lead
    requires stands { MayBeTrie trie.now.hash_bits trie.now.real_bits trie.now.cutoff trie.now.leaves }
    requires spot { IsTakenSpot trie.now spot }
    ensures { IsLeadAt (trie_in trie.now) (branch_number trie.now (in_half.Sparse spot.place)) result }
{
    if trie.leads_on(Place::Sparse(spot.place)) {
        return Lead::Node(spot.below);
    }
    let before = trie.sparse().before();
    let leading = spot.below - before.children - 1;
    Lead::Leaf(before.slots + (spot.place - leading))
}

/// One place further. Behind the last branch of a node the next node begins.
pub(crate) fn spot_behind<A: Allocator>(trie: &Trie<A>, spot: Spot) -> Spot
    requires stands { MayBeTrie trie.now.hash_bits trie.now.real_bits trie.now.cutoff trie.now.leaves }
    requires spot { IsTakenSpot trie.now spot }
    ensures place { result.place ≡ spot.place + 1 }
    ensures end { result.end ≡ spot.end }
    ensures below { result.below ≡ below_place trie.now result.place }
{
    let leads = trie.leads_on(Place::Sparse(spot.place));
    Spot {
        place: spot.place + 1,
        end: spot.end,
        below: spot.below + u64::from(leads),
    }
}

/// The branch that stands behind that of a pass, in the same node.
pub(crate) fn branch_behind_spot<A: Allocator>(
    trie: &Trie<A>,
    pass: Pass,
    spot: Spot,
) -> Option<(Branch, Spot)>
    requires stands { MayBeTrie trie.now.hash_bits trie.now.real_bits trie.now.cutoff trie.now.leaves }
    requires node { pass.node < length (nodes trie.now.leaves) }
    requires spot { IsSpotOf trie.now pass.node pass.letter spot }
    ensures next { IsNextAt trie.now.leaves (get_or (nodes trie.now.leaves) pass.node []) (leaves_to trie.now.leaves (get_or (nodes trie.now.leaves) pass.node [] ++ pass.letter ∷ [])) (option_map (λ found. found.0) result) }
    ensures spot { IfSome result (λ found. IsSpotOf trie.now pass.node found.0.letter found.1) }
{
    let next = spot_behind(trie, spot);
    if next.place >= next.end {
        return None;
    }
    let branch = Branch {
        letter: u16::from(trie.byte_at(Place::Sparse(next.place))),
        lead: lead_at_spot(trie, next),
    };
    Some((branch, next))
}

/// The first branch of a node, which stands at the node's spot.
pub(crate) fn branch_at_spot<A: Allocator>(trie: &Trie<A>, node: u64, spot: Spot) -> Branch
    requires stands { MayBeTrie trie.now.hash_bits trie.now.real_bits trie.now.cutoff trie.now.leaves }
    requires node { node < length (nodes trie.now.leaves) }
    requires spot { BeginsNode trie.now node spot }
    ensures branch { IsFirstBranch trie.now.leaves node result }
    ensures spot { IsSpotOf trie.now node result.letter spot }
{
    let label = trie.byte_at(Place::Sparse(spot.place));
    Branch {
        letter: first_letter(label, spot.place + 1 == spot.end),
        lead: lead_at_spot(trie, spot),
    }
}

// The letter of a node's first label. END is written FF, and never alone.
fn first_letter(label: u8, alone: bool) -> u16
    ensures { result ≡ cond (label == 255 && not alone) END label }
{
    if label == END_LABEL && !alone {
        END_LETTER
    } else {
        u16::from(label)
    }
}
