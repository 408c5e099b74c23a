//! Down by a bound, keeping the way, to the first leaf that is not past it.
ghost use Rattle.std.specs.Prelude.{◌≡◌, ◌+◌, ◌<◌, ◌≤◌, ◌++◌, ◌∷◌, [], IfNone, IfSome, get_or, length};
ghost use Rattle.std.specs.List.{All};
ghost use Rattle.std.specs.Option.{option_map};
ghost use Rattle.filter_api.specs.Spellings.{MayBeTrie};
ghost use Rattle.filter_iter.specs.Borders.{HasLeft, IsBorder, LeadsToReached};
ghost use Rattle.filter_iter.specs.LeafPlace.{HasSpot, IsMark};
ghost use Rattle.filter_iter.specs.CursorPath.{IsWay, IsWayTo, LeadGoesTo, letters_of};
ghost use Rattle.filter_model.specs.Answers.{first};
ghost use Rattle.filter_model.specs.Trie.{END, height as height_of};
ghost use Rattle.trie_model.specs.Rests.{first_leaf};

use super::answers::past_at;
use super::borders::leaves_before;
use super::cursor_path::{go_first, turn_behind};
use super::parts::{Descent, END_LETTER, Lead, Marks, Pass, Reached, Way};
use super::reaching::{root_descent, step_on};
use filter_trie::Trie;
use std::alloc::Allocator;

// The letter by which a bound goes on from a level: its byte, or END behind the last one.
fn letter_at(bound: &[u8], level: usize) -> u16
    requires { level ≤ length bound.now }
    ensures letter { result ≡ get_or (bound.now ++ END ∷ []) level 0 }
    ensures within { result ≤ END }
{
    if level < bound.len() {
        u16::from(bound[level])
    } else {
        END_LETTER
    }
}

// Goes down by a bound to where it has left the trie, and gives the level there. `way`, which is empty, becomes the bound's:
// a pass for each node to which it leads, by the letter that follows, be there a branch by it or none.
fn follow_along<A: Allocator, B: Allocator>(
    trie: &Trie<A>,
    bound: &[u8],
    way: &mut Way<'_, B>,
) -> (Descent, usize)
    requires empty { way.old.items ≡ [] }
    requires room { height_of trie.now.leaves ≤ way.old.capacity }
    ensures stands { MayBeTrie trie.now.hash_bits trie.now.real_bits trie.now.cutoff trie.now.leaves }
    ensures border { IsBorder trie.now.leaves result.1 result.0.border }
    ensures left { HasLeft trie.now.leaves bound.now result.1 result.0 }
    ensures way { IsWay trie.now.leaves way.new.items }
    ensures before { first_leaf trie.now.leaves (letters_of way.new.items) ≡ first_leaf trie.now.leaves bound.now }
    ensures leaf { LeadsToReached trie.now.leaves (letters_of way.new.items) result.0.leaf }
    ensures spots { All (HasSpot trie.now) way.new.items }
    ensures capacity { way.new.capacity ≡ way.old.capacity }
{
    let height = usize::from(trie.height());
    let mut descent = root_descent();
    for level in 0..height {
        if !descent.leads {
            return (descent, level);
        }
        way.push_reserved(Pass {
            node: descent.border.node,
            letter: letter_at(bound, level),
            spot: None,
        });
        descent = step_on(trie, bound, level, descent.border);
    }
    (descent, height)
}

// Where the first leaf stands that is not past a bound, whose way this is: it is the leaf that the bound reaches, if that is
// not past it, or the way turns to the next one behind the bound's letters.
fn turn_from<A: Allocator, B: Allocator>(
    trie: &Trie<A>,
    leaf: Option<Reached>,
    past: u64,
    way: &mut Way<'_, B>,
    marks: &mut Marks<'_, B>,
) -> Lead
    requires stands { MayBeTrie trie.now.hash_bits trie.now.real_bits trie.now.cutoff trie.now.leaves }
    requires leaf { LeadsToReached trie.now.leaves (letters_of way.old.items) leaf }
    requires one { past ≤ 1 }
    requires none { IfNone leaf (past ≡ 0) }
    requires more { first_leaf trie.now.leaves (letters_of way.old.items) + past < length trie.now.leaves }
    requires way { IsWay trie.now.leaves way.old.items }
    requires spots { All (HasSpot trie.now) way.old.items }
    requires marks { All (IsMark trie.now) marks.old.items }
    requires room { height_of trie.now.leaves ≤ way.old.capacity }
    ensures way { IsWay trie.now.leaves way.new.items }
    ensures leads { LeadGoesTo trie.now.leaves (letters_of way.new.items) result }
    ensures first { first_leaf trie.now.leaves (letters_of way.new.items) ≡ first_leaf trie.now.leaves (letters_of way.old.items) + past }
    ensures spots { All (HasSpot trie.now) way.new.items }
    ensures marks { All (IsMark trie.now) marks.new.items }
    ensures capacity { way.new.capacity ≡ way.old.capacity }
{
    match leaf {
        None => turn_behind(trie, way, marks),
        Some(reached) => {
            if past == 0 {
                Lead::Leaf(reached.slot)
            } else {
                turn_behind(trie, way, marks)
            }
        }
    }
}

/// Goes to the first leaf that is not past `lo`: its number and its slot, `None` where all are past it. `way`, which is empty
/// and has room for as many passes as the trie is high, becomes the way to the leaf.
///
/// The bound is followed once, and counted as `seek` counts. Where it reaches no leaf, or one that is past it, the leaf is the
/// next one behind its letters.
pub(crate) fn go_to<A: Allocator, B: Allocator>(
    trie: &Trie<A>,
    lo: &[u8],
    way: &mut Way<'_, B>,
    marks: &mut Marks<'_, B>,
) -> Option<(u32, u64)>
    requires empty { way.old.items ≡ [] }
    requires room { height_of trie.now.leaves ≤ way.old.capacity }
    requires marks { All (IsMark trie.now) marks.old.items }
    ensures stands { MayBeTrie trie.now.hash_bits trie.now.real_bits trie.now.cutoff trie.now.leaves }
    ensures number { option_map (λ found. found.0) result ≡ first trie.now.real_bits trie.now.leaves lo.now }
    ensures way { IfSome result (λ found. IsWayTo trie.now.leaves found.0 found.1 way.new.items) }
    ensures spots { All (HasSpot trie.now) way.new.items }
    ensures marks { All (IsMark trie.now) marks.new.items }
    ensures capacity { way.new.capacity ≡ way.old.capacity }
{
    let height = usize::from(trie.height());
    let (descent, level) = follow_along(trie, lo, way);
    let Descent { border, leaf, .. } = descent;
    // Asked before the other levels are counted, so that the processor waits for both at once.
    let past = past_at(trie, lo, leaf);
    let number = (leaves_before(trie, border, level, height) + past) as u32;
    if number >= trie.leaves() {
        return None;
    }
    let lead = turn_from(trie, leaf, past, way, marks);
    Some((number, go_first(trie, lead, way, marks)))
}
