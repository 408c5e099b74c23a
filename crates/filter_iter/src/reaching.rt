//! Where a bound leads in a trie, and how many leaves come before it.

ghost use Rattle.std.specs.Prelude.{◌≡◌, ◌<◌, ◌≤◌, ◌+◌, ◌++◌, ◌∷◌, [], cond, false, true, length, get_or, take};
ghost use Rattle.filter_api.specs.Spellings.{MayBeTrie};
ghost use Rattle.filter_iter.specs.Borders.{HasLeft, HaveMet, IsBorder, IsDescent, IsStepBy, IsTurn, IsTurnAt, LeadsOn, leaves_at};
ghost use Rattle.filter_iter.specs.declared.parts.Turn.TheVariants as turn;
ghost use Rattle.filter_model.specs.Trie.{END, height as height_of, nodes};
ghost use Rattle.filter_trie.specs.Places.{IsTaken, branch_number, trie as trie_in};
ghost use Rattle.trie_model.specs.Halves.{slot_at};
ghost use Rattle.trie_model.specs.Rests.{first_leaf};

use super::borders::{before, below, root_border};
use super::parts::{Border, Descent, Reached, Turn};
use filter_trie::{Place, Trie};
use std::alloc::Allocator;

// Where the branch at a place leads, if it is by this byte. So many leaves stand before it.
fn turn_at<A: Allocator>(trie: &Trie<A>, place: Place, byte: u8, slots: u64) -> Turn
    requires place { IsTaken trie.now place }
    requires slots { slots ≡ slot_at (trie_in trie.now) (branch_number trie.now place) }
    ensures { IsTurnAt (trie_in trie.now) (branch_number trie.now place) byte result }
{
    if trie.byte_at(place) != byte {
        Turn::Nowhere
    } else if trie.leads_on(place) {
        Turn::Node
    } else {
        Turn::Leaf(slots)
    }
}

/// Goes down by a byte of the bound from the node at the border, which the letters so far lead to.
///
/// In the sparse half the byte's own branch is found as a walk finds it, and the one behind is searched for where there is
/// none, which ends the bound's way.
pub(crate) fn turn<A: Allocator>(trie: &Trie<A>, border: Border, byte: u8) -> (Border, Turn)
    requires stands { MayBeTrie trie.now.hash_bits trie.now.real_bits trie.now.cutoff trie.now.leaves }
    requires node { border.node < length (nodes trie.now.leaves) }
    requires border { IsBorder trie.now.leaves (length (get_or (nodes trie.now.leaves) border.node [])) border }
    requires before { leaves_at trie.now.leaves (length (get_or (nodes trie.now.leaves) border.node [])) border ≡ first_leaf trie.now.leaves (get_or (nodes trie.now.leaves) border.node []) }
    ensures border { IsBorder trie.now.leaves (length (get_or (nodes trie.now.leaves) border.node []) + 1) result.0 }
    ensures before { leaves_at trie.now.leaves (length (get_or (nodes trie.now.leaves) border.node []) + 1) result.0 ≡ first_leaf trie.now.leaves (get_or (nodes trie.now.leaves) border.node [] ++ byte ∷ []) }
    ensures turn { IsTurn trie.now.leaves (get_or (nodes trie.now.leaves) border.node [] ++ byte ∷ []) result.0 result.1 }
{
    if trie.dense().has_node(border.node) {
        return turn_beside(trie, border, byte);
    }
    match trie.placed(border.node, byte) {
        None => turn_beside(trie, border, byte),
        Some(at) => {
            let next = Border {
                node: at.below,
                sum: border.sum + at.slots,
            };
            (next, own_turn(at.leads, at.slots))
        }
    }
}

// Where a branch by the bound's byte leads, before which so many leaves stand.
fn own_turn(leads: bool, slots: u64) -> Turn
    ensures { result ≡ cond leads turn.Node (turn.Leaf slots) }
{
    if leads { Turn::Node } else { Turn::Leaf(slots) }
}

/// The same by the node's first branch from the byte on, whether or not it is the byte's own.
pub(crate) fn turn_beside<A: Allocator>(trie: &Trie<A>, border: Border, byte: u8) -> (Border, Turn)
    requires stands { MayBeTrie trie.now.hash_bits trie.now.real_bits trie.now.cutoff trie.now.leaves }
    requires node { border.node < length (nodes trie.now.leaves) }
    requires border { IsBorder trie.now.leaves (length (get_or (nodes trie.now.leaves) border.node [])) border }
    requires before { leaves_at trie.now.leaves (length (get_or (nodes trie.now.leaves) border.node [])) border ≡ first_leaf trie.now.leaves (get_or (nodes trie.now.leaves) border.node []) }
    ensures border { IsBorder trie.now.leaves (length (get_or (nodes trie.now.leaves) border.node []) + 1) result.0 }
    ensures before { leaves_at trie.now.leaves (length (get_or (nodes trie.now.leaves) border.node []) + 1) result.0 ≡ first_leaf trie.now.leaves (get_or (nodes trie.now.leaves) border.node [] ++ byte ∷ []) }
    ensures turn { IsTurn trie.now.leaves (get_or (nodes trie.now.leaves) border.node [] ++ byte ∷ []) result.0 result.1 }
{
    match trie.next_branch(border.node, u16::from(byte)) {
        None => {
            let behind = Border {
                node: border.node + 1,
                ..border
            };
            (below(trie, behind), Turn::Nowhere)
        }
        Some(place) => {
            let (slots, node) = before(trie, place);
            let next = Border {
                node,
                sum: border.sum + slots,
            };
            (next, turn_at(trie, place, byte, slots))
        }
    }
}

/// A bound at the root.
pub(crate) fn root_descent() -> Descent
    ensures node { result.border.node ≡ 0 }
    ensures sum { result.border.sum ≡ 0 }
    ensures leads { result.leads ≡ true }
{
    Descent {
        border: root_border(),
        leads: true,
        leaf: None,
    }
}

// A bound that has left the trie.
fn left(border: Border, leaf: Option<Reached>) -> Descent
    ensures { result ≡ record { border = border; leads = false; leaf = leaf } }
{
    Descent {
        border,
        leads: false,
        leaf,
    }
}

// One level down by the bound's byte there.
fn step_by<A: Allocator>(trie: &Trie<A>, bound: &[u8], level: usize, border: Border) -> Descent
    requires stands { MayBeTrie trie.now.hash_bits trie.now.real_bits trie.now.cutoff trie.now.leaves }
    requires border { IsBorder trie.now.leaves level border }
    requires leads { LeadsOn trie.now.leaves bound.now level border }
    requires more { level < length bound.now }
    ensures descent { IsDescent trie.now.leaves bound.now (level + 1) result }
    ensures step { IsStepBy trie.now.leaves (take (level + 1) bound.now) (level + 1) result }
{
    let (border, turn) = turn(trie, border, bound[level]);
    match turn {
        Turn::Node => Descent {
            border,
            leads: true,
            leaf: None,
        },
        Turn::Nowhere => left(border, None),
        Turn::Leaf(slot) => {
            let leaf = Reached {
                slot,
                stub: level + 1,
                ends: false,
            };
            left(border, Some(leaf))
        }
    }
}

// One level down where the bound ends.
fn step_behind<A: Allocator>(trie: &Trie<A>, bound: &[u8], level: usize, border: Border) -> Descent
    requires stands { MayBeTrie trie.now.hash_bits trie.now.real_bits trie.now.cutoff trie.now.leaves }
    requires border { IsBorder trie.now.leaves level border }
    requires leads { LeadsOn trie.now.leaves bound.now level border }
    requires end { level ≡ length bound.now }
    ensures descent { IsDescent trie.now.leaves bound.now (level + 1) result }
    ensures step { IsStepBy trie.now.leaves (bound.now ++ END ∷ []) (level + 1) result }
{
    let next = below(trie, border);
    match trie.prefix_slot(border.node) {
        None => left(next, None),
        Some(slot) => {
            let leaf = Reached {
                slot,
                stub: level,
                ends: true,
            };
            left(next, Some(leaf))
        }
    }
}

/// One level down from the node to which a bound leads: by the bound's byte, or by END where it has none.
pub(crate) fn step_on<A: Allocator>(
    trie: &Trie<A>,
    bound: &[u8],
    level: usize,
    border: Border,
) -> Descent
    requires stands { MayBeTrie trie.now.hash_bits trie.now.real_bits trie.now.cutoff trie.now.leaves }
    requires border { IsBorder trie.now.leaves level border }
    requires leads { LeadsOn trie.now.leaves bound.now level border }
    ensures descent { IsDescent trie.now.leaves bound.now (level + 1) result }
    ensures step { IsStepBy trie.now.leaves (take (level + 1) (bound.now ++ END ∷ [])) (level + 1) result }
{
    if level < bound.len() {
        step_by(trie, bound, level, border)
    } else {
        step_behind(trie, bound, level, border)
    }
}

// One level down.
fn step<A: Allocator>(trie: &Trie<A>, bound: &[u8], level: usize, descent: Descent) -> Descent
    requires stands { MayBeTrie trie.now.hash_bits trie.now.real_bits trie.now.cutoff trie.now.leaves }
    requires level { level < height_of trie.now.leaves }
    requires descent { IsDescent trie.now.leaves bound.now level descent }
    ensures { IsDescent trie.now.leaves bound.now (level + 1) result }
{
    if !descent.leads {
        return left(below(trie, descent.border), descent.leaf);
    }
    step_on(trie, bound, level, descent.border)
}

/// Goes down by a bound to where it has left the trie, and gives the level there.
pub(crate) fn follow<A: Allocator>(trie: &Trie<A>, bound: &[u8]) -> (Descent, usize)
    ensures stands { MayBeTrie trie.now.hash_bits trie.now.real_bits trie.now.cutoff trie.now.leaves }
    ensures border { IsBorder trie.now.leaves result.1 result.0.border }
    ensures left { HasLeft trie.now.leaves bound.now result.1 result.0 }
{
    let height = usize::from(trie.height());
    let mut descent = root_descent();
    for level in 0..height {
        if !descent.leads {
            return (descent, level);
        }
        descent = step(trie, bound, level, descent);
    }
    (descent, height)
}

/// Goes down by two bounds together, to where they have left the trie at one node. From there on as many leaves stand before
/// the one as before the other, on each level.
pub(crate) fn meet<A: Allocator>(trie: &Trie<A>, lo: &[u8], hi: &[u8]) -> (Descent, Descent)
    ensures stands { MayBeTrie trie.now.hash_bits trie.now.real_bits trie.now.cutoff trie.now.leaves }
    ensures met { HaveMet trie.now.leaves lo.now hi.now result.0 result.1 }
{
    let height = usize::from(trie.height());
    let mut low = root_descent();
    let mut high = root_descent();
    for level in 0..height {
        if low.border.node == high.border.node && !low.leads && !high.leads {
            return (low, high);
        }
        low = step(trie, lo, level, low);
        high = step(trie, hi, level, high);
    }
    (low, high)
}
