//! The leaf of a number.
ghost use Rattle.std.specs.Prelude.{◌≡◌, ◌+◌, ◌++◌, ◌∷◌, [], ◌<◌, ◌≤◌, get_or, length};
ghost use Rattle.std.specs.List.{All};
ghost use Rattle.filter_api.specs.Spellings.{MayBeTrie};
ghost use Rattle.filter_iter.specs.Numbers.{IsLastByte, IsLeafBelow, IsStepTo, StandsAtNode};
ghost use Rattle.filter_iter.specs.LeafPlace.{HasSpot};
ghost use Rattle.filter_iter.specs.CursorPath.{IsWayTo};
ghost use Rattle.filter_model.specs.Trie.{height as height_of, nodes};
ghost use Rattle.trie_model.specs.Rests.{first_leaf};

use super::borders::{leaves_before, root_border};
use super::branches::{first_branch, last_branch, order};
use super::parts::{Border, END_LETTER, Pass, Step, Turn, Way};
use super::reaching::{turn, turn_beside};
use filter_trie::Trie;
use std::alloc::Allocator;

// How many leaves come before the letters to a node at a border and this byte behind them.
fn count_to<A: Allocator>(
    trie: &Trie<A>,
    border: Border,
    level: usize,
    height: usize,
    byte: u8,
) -> u64
    requires { StandsAtNode trie.now border level height }
    ensures { result ≡ first_leaf trie.now.leaves (get_or (nodes trie.now.leaves) border.node [] ++ byte ∷ []) }
{
    // Mostly no branch of the node is by this byte.
    let (next, _) = turn_beside(trie, border, byte);
    leaves_before(trie, next, level + 1, height)
}

// The last byte, if any, before which not more than `n` leaves come: leaf `n` goes on by it, or ends where there is none.
// It is sought from the node's first branch to its last one, so that a node of one branch is counted no further.
fn last_byte<A: Allocator>(
    trie: &Trie<A>,
    border: Border,
    level: usize,
    height: usize,
    n: u64,
) -> Option<u8>
    requires at { StandsAtNode trie.now border level height }
    requires below { IsLeafBelow trie.now.leaves (get_or (nodes trie.now.leaves) border.node []) n }
    ensures { IsLastByte trie.now.leaves (get_or (nodes trie.now.leaves) border.node []) n result }
{
    let (first, _) = first_branch(trie, border.node);
    let last = last_branch(trie, border.node);
    let mut low = order(first.letter);
    let mut high = order(last.letter);
    while low < high {
        let middle = low + (high - low) / 2;
        if count_to(trie, border, level, height, middle as u8) <= n {
            low = middle + 1;
        } else {
            high = middle;
        }
    }
    if low == 0 {
        None
    } else {
        Some((low - 1) as u8)
    }
}

// The next step on the way to leaf `n`, which is below the node at a border.
fn step_to<A: Allocator>(
    trie: &Trie<A>,
    border: Border,
    level: usize,
    height: usize,
    n: u64,
) -> Step
    requires at { StandsAtNode trie.now border level height }
    requires below { IsLeafBelow trie.now.leaves (get_or (nodes trie.now.leaves) border.node []) n }
    ensures { IsStepTo trie.now.leaves (get_or (nodes trie.now.leaves) border.node []) n result }
{
    let Some(byte) = last_byte(trie, border, level, height, n) else {
        return match trie.prefix_slot(border.node) {
            Some(slot) => Step::Ends(slot),
            None => unreachable!(),
        };
    };
    let (next, turn) = turn(trie, border, byte);
    match turn {
        Turn::Nowhere => unreachable!(),
        Turn::Leaf(slot) => Step::Leaf(byte, slot),
        Turn::Node => Step::Node(byte, next),
    }
}

/// Goes down to the leaf of a number in key order. Its slot; `way` becomes the way to it.
///
/// On each level it halves the bytes from the node's first branch to its last one, and each of these counts, nine at most,
/// goes down to the last level or to the one whose sums the trie keeps: the cost goes as the height times the number of levels
/// at which the way's node has branches beside the way.
///
/// `way` is empty, and has room for as many passes as the trie is high.
pub(crate) fn find<A: Allocator, B: Allocator>(trie: &Trie<A>, n: u32, way: &mut Way<'_, B>) -> u64
    requires number { n < length trie.now.leaves }
    requires empty { way.old.items ≡ [] }
    requires room { height_of trie.now.leaves ≤ way.old.capacity }
    ensures stands { MayBeTrie trie.now.hash_bits trie.now.real_bits trie.now.cutoff trie.now.leaves }
    ensures way { IsWayTo trie.now.leaves n result way.new.items }
    ensures spots { All (HasSpot trie.now) way.new.items }
    ensures capacity { way.new.capacity ≡ way.old.capacity }
{
    let height = usize::from(trie.height());
    let mut border = root_border();
    for level in 0..height {
        let node = border.node;
        match step_to(trie, border, level, height, u64::from(n)) {
            Step::Ends(slot) => {
                way.push_reserved(Pass {
                    node,
                    letter: END_LETTER,
                    spot: None,
                });
                return slot;
            }
            Step::Leaf(byte, slot) => {
                way.push_reserved(Pass {
                    node,
                    letter: u16::from(byte),
                    spot: None,
                });
                return slot;
            }
            Step::Node(byte, next) => {
                way.push_reserved(Pass {
                    node,
                    letter: u16::from(byte),
                    spot: None,
                });
                border = next;
            }
        }
    }
    unreachable!()
}
