//! What a trie answers of bounds and ranges.
ghost use Rattle.std.specs.Prelude.{◌≡◌, ◌+◌, ◌<◌, ◌≤◌, IfNone, drop, length};
ghost use Rattle.filter_api.specs.Spellings.{MayBeTrie};
ghost use Rattle.filter_iter.specs.Borders.{IsReached, reached_begun, reached_past};
ghost use Rattle.filter_iter.specs.Cuts.{FirstPass, has_begun};
ghost use Rattle.filter_model.specs.Answers.{first, is_past, tally as tally_of};
ghost use Rattle.filter_model.specs.Strings.{bits};
ghost use Rattle.trie_model.specs.Rests.{first_leaf};

use super::borders::leaves_before;
use super::parts::{Descent, Reached};
use super::reaching::{follow, meet};
use filter_trie::Trie;
use std::alloc::Allocator;
use suffix_bits::real_bits_of;

// The bits of a bound that follow the stub of the leaf which it reaches, as many as a leaf has real bits.
fn real_after<A: Allocator>(trie: &Trie<A>, bound: &[u8], leaf: Reached) -> u32
    ensures { result ≡ bits trie.now.real_bits (drop leaf.stub bound.now) }
{
    real_bits_of(bound, leaf.stub, trie.suffixes().widths().1)
}

/// Whether the leaf that `lo` reaches is past it: every string that fits the leaf is below `lo`.
pub(crate) fn is_reached_past<A: Allocator>(trie: &Trie<A>, lo: &[u8], leaf: Reached) -> bool
    requires { leaf.slot < length trie.now.leaves }
    ensures { result ≡ reached_past trie.now.real_bits trie.now.leaves lo.now leaf }
{
    !leaf.ends && trie.suffix(leaf.slot).1 < real_after(trie, lo, leaf)
}

/// Whether the leaf that `hi` reaches begins at or below it: so does the least string that fits the leaf.
pub(crate) fn is_reached_begun<A: Allocator>(trie: &Trie<A>, hi: &[u8], leaf: Reached) -> bool
    requires { leaf.slot < length trie.now.leaves }
    ensures { result ≡ reached_begun trie.now.real_bits trie.now.leaves hi.now leaf }
{
    leaf.ends || trie.suffix(leaf.slot).1 <= real_after(trie, hi, leaf)
}

/// How many leaves are past `lo` beside those that come before it: the one that it reaches, or none.
pub(crate) fn past_at<A: Allocator>(trie: &Trie<A>, lo: &[u8], leaf: Option<Reached>) -> u64
    requires stands { MayBeTrie trie.now.hash_bits trie.now.real_bits trie.now.cutoff trie.now.leaves }
    requires reached { IsReached trie.now.leaves lo.now leaf }
    ensures past { FirstPass (is_past trie.now.real_bits lo.now) trie.now.leaves (first_leaf trie.now.leaves lo.now + result) }
    ensures most { result ≤ 1 }
    ensures none { IfNone leaf (result ≡ 0) }
{
    match leaf {
        None => 0,
        Some(leaf) => u64::from(is_reached_past(trie, lo, leaf)),
    }
}

// How many leaves begin at or below `hi` beside those that come before it.
fn begun_at<A: Allocator>(trie: &Trie<A>, hi: &[u8], leaf: Option<Reached>) -> u64
    requires stands { MayBeTrie trie.now.hash_bits trie.now.real_bits trie.now.cutoff trie.now.leaves }
    requires reached { IsReached trie.now.leaves hi.now leaf }
    ensures begun { FirstPass (has_begun trie.now.real_bits hi.now) trie.now.leaves (first_leaf trie.now.leaves hi.now + result) }
    ensures most { result ≤ 1 }
{
    match leaf {
        None => 0,
        Some(leaf) => u64::from(is_reached_begun(trie, hi, leaf)),
    }
}

// How many leaves are past `lo`. They are the first ones in key order.
fn count_past<A: Allocator>(trie: &Trie<A>, lo: &[u8]) -> u64
    ensures stands { MayBeTrie trie.now.hash_bits trie.now.real_bits trie.now.cutoff trie.now.leaves }
    ensures past { FirstPass (is_past trie.now.real_bits lo.now) trie.now.leaves result }
{
    let height = usize::from(trie.height());
    let (descent, level) = follow(trie, lo);
    let Descent { border, leaf, .. } = descent;
    // Asked before the other levels are counted, so that the processor waits for both at once.
    let past = past_at(trie, lo, leaf);
    leaves_before(trie, border, level, height) + past
}

/// The number, in key order from 0, of the first leaf that is not past `lo`, `None` where all are.
///
/// Looks at a node for each byte of `lo` that leads on, and counts at one place a level, down to the last one or to the one
/// whose sums the trie keeps. Takes no memory.
pub fn seek<A: Allocator>(trie: &Trie<A>, lo: &[u8]) -> Option<u32>
    ensures { result ≡ first trie.now.real_bits trie.now.leaves lo.now }
{
    let past = count_past(trie, lo) as u32;
    if past < trie.leaves() {
        Some(past)
    } else {
        None
    }
}

/// How many leaves may stand for a key from `lo` to `hi`.
///
/// Goes down by both bounds together, and no further than to where both have left the trie at one node: a range that no key
/// parts costs about two walks. Takes no memory.
pub fn tally<A: Allocator>(trie: &Trie<A>, lo: &[u8], hi: &[u8]) -> u32
    ensures { result ≡ tally_of trie.now.real_bits trie.now.leaves lo.now hi.now }
{
    let (low, high) = meet(trie, lo, hi);
    let past = low.border.sum + past_at(trie, lo, low.leaf);
    let begun = high.border.sum + begun_at(trie, hi, high.leaf);
    begun.saturating_sub(past) as u32
}
