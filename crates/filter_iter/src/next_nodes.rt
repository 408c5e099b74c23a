//! Marks of where nodes begin: on each level the next node begins where the one that was left ends, so that it is not
//! searched for.
ghost use Rattle.std.specs.Prelude.{◌≡◌, ◌<◌, IfSome, length};
ghost use Rattle.std.specs.List.{All};
ghost use Rattle.filter_api.specs.Spellings.{MayBeTrie};
ghost use Rattle.filter_iter.specs.LeafPlace.{BeginsNode, HasSpot, IsFirstBranch, IsMark, IsSpotIfKnown};
ghost use Rattle.filter_model.specs.Trie.{nodes};

use super::branches::first_branch;
use super::leaf_place::{branch_at_spot, spot_behind};
use super::parts::{Branch, Mark, Marks, Pass, Spot};
use filter_trie::Trie;
use std::alloc::Allocator;

/// Keeps where the node behind a pass's begins, if the pass is by its node's last branch, whose spot is known, and there is room.
pub(crate) fn leave<A: Allocator, B: Allocator>(
    trie: &Trie<A>,
    pass: Pass,
    marks: &mut Marks<'_, B>,
)
    requires stands { MayBeTrie trie.now.hash_bits trie.now.real_bits trie.now.cutoff trie.now.leaves }
    requires spot { HasSpot trie.now pass }
    requires node { pass.node < length (nodes trie.now.leaves) }
    requires marks { All (IsMark trie.now) marks.old.items }
    ensures { All (IsMark trie.now) marks.new.items }
{
    if let Some(spot) = pass.spot {
        let behind = spot_behind(trie, spot);
        if behind.place == behind.end && marks.len() < marks.capacity() {
            marks.push_reserved(Mark {
                node: pass.node + 1,
                place: behind.place,
                below: behind.below,
            });
        }
    }
}

// Takes the last mark, if it is a node's.
fn take_mark<A: Allocator, B: Allocator>(
    _trie: &Trie<A>,
    node: u64,
    marks: &mut Marks<'_, B>,
) -> Option<Mark>
    requires { All (IsMark _trie.now) marks.old.items }
    ensures mark { IfSome result (λ mark. IsMark _trie.now mark × (mark.node ≡ node)) }
    ensures marks { All (IsMark _trie.now) marks.new.items }
{
    let mark = marks.pop()?;
    if mark.node == node {
        return Some(mark);
    }
    if marks.len() < marks.capacity() {
        marks.push_reserved(mark);
    }
    None
}

// The spot of the first branch of a node that begins at a mark.
fn marked_spot<A: Allocator>(trie: &Trie<A>, mark: Mark) -> Spot
    requires stands { MayBeTrie trie.now.hash_bits trie.now.real_bits trie.now.cutoff trie.now.leaves }
    requires node { mark.node < length (nodes trie.now.leaves) }
    requires mark { IsMark trie.now mark }
    ensures { BeginsNode trie.now mark.node result }
{
    let Mark { place, below, .. } = mark;
    let places = trie.sparse().place_count();
    match trie
        .sparse()
        .louds_bits()
        .first_one_from(place as usize + 1)
    {
        Some(end) => Spot {
            place,
            end: end as u64,
            below,
        },
        None => Spot {
            place,
            end: places,
            below,
        },
    }
}

/// The first branch of a node, and its spot where the node is in the sparse half. The node's mark is used up, if it is the
/// last one.
pub(crate) fn first_marked<A: Allocator, B: Allocator>(
    trie: &Trie<A>,
    node: u64,
    marks: &mut Marks<'_, B>,
) -> (Branch, Option<Spot>)
    requires stands { MayBeTrie trie.now.hash_bits trie.now.real_bits trie.now.cutoff trie.now.leaves }
    requires node { node < length (nodes trie.now.leaves) }
    requires marks { All (IsMark trie.now) marks.old.items }
    ensures branch { IsFirstBranch trie.now.leaves node result.0 }
    ensures spot { IsSpotIfKnown trie.now node result.0.letter result.1 }
    ensures marks { All (IsMark trie.now) marks.new.items }
{
    match take_mark(trie, node, marks) {
        Some(mark) => {
            let spot = marked_spot(trie, mark);
            (branch_at_spot(trie, node, spot), Some(spot))
        }
        None => first_branch(trie, node),
    }
}
