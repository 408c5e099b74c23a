//! The levels of a trie by the spans of its leaves, without any leaf.
ghost use Rattle.std.specs.Prelude.{◌≡◌, ◌==◌, ◌+◌, ◌<◌, ◌≤◌, ◌^◌, List, length, map, count_by, IfOk};
ghost use Rattle.std.specs.List.{All, range_with_len};
ghost use Rattle.filter_model.specs.Leaves.{Leaf};
ghost use Rattle.filter_model.specs.Trie.{level_labels, level_nodes};
ghost use Rattle.trie_levels.specs.Spans.{AreSpans, ends_within, most_letters};

use crate::levels::Levels;
use crate::planning::levels_of;
use crate::spans::Span;
use std::alloc::{AllocError, Global};

/// How many nodes and labels each level of the trie has whose leaves have these spans. The trie itself is not made.
///
/// One pass over the spans for each of three numbers, and memory for four numbers a level; the only error is that there
/// is none.
pub fn plan_spans(alloc: Global, spans: &[Span]) -> Result<Levels, AllocError>
    requires { (leaves : List Leaf) × AreSpans leaves spans.now }
    ensures nodes { IfOk result (λ levels. (leaves : List Leaf) → AreSpans leaves spans.now → levels.nodes ≡ level_nodes leaves) }
    ensures labels { IfOk result (λ levels. (leaves : List Leaf) → AreSpans leaves spans.now → levels.labels ≡ level_labels leaves) }
{
    let count = longest(spans);
    let parted = count_closings(alloc, spans, count)?;
    let ended = count_lengths(alloc, spans, count)?;
    levels_of(alloc, parted.as_slice(), ended.as_slice())
}

// The letters of the longest path, which are the levels of the trie.
fn longest(spans: &[Span]) -> usize
    ensures { result ≡ most_letters spans.now }
{
    let mut longest = 0;
    for i in 0..spans.len() {
        longest = usize::from(spans[i].len).max(longest);
    }
    longest
}

// How many leaves share each number of bytes, below `levels`, with the next one.
fn count_closings(alloc: Global, spans: &[Span], levels: usize) -> Result<Vec<u64>, AllocError>
    requires { All (ends_within levels) spans.now }
    ensures { IfOk result (λ counts. counts.items ≡ map (λ n. count_by (λ s. s.closes == n + 1) spans.now) (range_with_len 0 levels)) }
{
    let mut counts = vec![in alloc; 0u64; levels]?;
    for i in 0..spans.len() {
        let closes = usize::from(spans[i].closes);
        if closes > 0 {
            counts[closes - 1] += 1;
        }
    }
    Ok(counts)
}

// How many leaves are branches of the nodes of each level.
fn count_lengths(alloc: Global, spans: &[Span], levels: usize) -> Result<Vec<u64>, AllocError>
    requires { All (ends_within levels) spans.now }
    ensures { IfOk result (λ counts. counts.items ≡ map (λ n. count_by (λ s. s.len == n + 1) spans.now) (range_with_len 0 levels)) }
{
    let mut counts = vec![in alloc; 0u64; levels]?;
    for i in 0..spans.len() {
        counts[usize::from(spans[i].len) - 1] += 1;
    }
    Ok(counts)
}
