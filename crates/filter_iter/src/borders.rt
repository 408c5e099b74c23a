//! Borders: what of a level comes before a bound.
//!
//! On each level the leaves before the border are counted, those before the level among them. What stands before the levels
//! is the same for every bound, so that it is taken off once and at the end.
ghost use Rattle.std.specs.Prelude.{◌≡◌, ◌+◌, ◌<◌, ◌≤◌, ◌^◌, length};
ghost use Rattle.filter_api.specs.Spellings.{MayBeTrie};
ghost use Rattle.filter_iter.specs.Borders.{IsBorder, leaves_at};
ghost use Rattle.filter_model.specs.Trie.{height as height_of, nodes};
ghost use Rattle.filter_trie.specs.Places.{IsWithin, branch_number, trie as trie_in};
ghost use Rattle.trie_model.specs.Halves.{begin_of, first_below, slot_at};

use super::parts::Border;
use filter_trie::{Place, Trie};
use std::alloc::Allocator;

/// The border on the level of the root.
pub(crate) fn root_border() -> Border
    ensures node { result.node ≡ 0 }
    ensures sum { result.sum ≡ 0 }
{
    Border { node: 0, sum: 0 }
}

/// How many leaves stand before a place, and the first node whose branch stands there or later. Where the dense half has no
/// leaf, none stands before its places, and the nodes alone are counted.
pub(crate) fn before<A: Allocator>(trie: &Trie<A>, place: Place) -> (u64, u64)
    requires stands { MayBeTrie trie.now.hash_bits trie.now.real_bits trie.now.cutoff trie.now.leaves }
    requires place { IsWithin trie.now place }
    ensures slots { result.0 ≡ slot_at (trie_in trie.now) (branch_number trie.now place) }
    ensures below { result.1 ≡ first_below (trie_in trie.now) (branch_number trie.now place) }
{
    if let Place::Dense(_) = place {
        if trie.sparse().before().slots == 0 {
            return (0, trie.first_below(place));
        }
    }
    trie.before_place(place)
}

/// The border one level down, where it stands before a node with all its branches.
pub(crate) fn below<A: Allocator>(trie: &Trie<A>, border: Border) -> Border
    requires node { border.node ≤ length (nodes trie.now.leaves) }
    requires room { border.sum + slot_at (trie_in trie.now) (begin_of (trie_in trie.now) border.node) < 2 ^ 64 }
    ensures node { result.node ≡ first_below (trie_in trie.now) (begin_of (trie_in trie.now) border.node) }
    ensures sum { result.sum ≡ border.sum + slot_at (trie_in trie.now) (begin_of (trie_in trie.now) border.node) }
{
    let (slots, node) = trie.before_node(border.node);
    Border {
        node,
        sum: border.sum + slots,
    }
}

/// How many leaves come before a border on a level of this number. `height` is that of the trie.
pub(crate) fn leaves_before<A: Allocator>(
    trie: &Trie<A>,
    border: Border,
    level: usize,
    height: usize,
) -> u64
    requires stands { MayBeTrie trie.now.hash_bits trie.now.real_bits trie.now.cutoff trie.now.leaves }
    requires height { height ≡ height_of trie.now.leaves }
    requires border { IsBorder trie.now.leaves level border }
    requires few { leaves_at trie.now.leaves level border ≤ length trie.now.leaves }
    ensures { result ≡ leaves_at trie.now.leaves level border }
{
    let mut border = border;
    for at in level..height {
        // Mostly the way ends here: the trie keeps what is still to be counted from one level on.
        if let Some(rest) = trie.kept_sum(at, border.node) {
            return border.sum + rest - trie.level_starts();
        }
        border = below(trie, border);
    }
    border.sum - trie.level_starts()
}
