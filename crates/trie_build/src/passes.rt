//! The levels of a trie, one after the other.
ghost use Rattle.std.specs.Prelude.{◌≡◌, ◌+◌, ◌<◌, List, OnOk};
ghost use Rattle.filter_model.specs.Leaves.{Leaf};
ghost use Rattle.trie_build.specs.Building.{MayGrow, half_to, spans_longer};
ghost use Rattle.trie_levels.specs.Gathering.{longer};

use super::growing::GrowingHalf;
use super::open_node::OpenNode;
use key_base::KeyList;
use std::alloc::AllocError;
use trie_levels::Span;

/// Adds the nodes of the levels from one on and before another, all of which the half has room for. What `node` has is let
/// go. `spans` are those of the paths that are longer, first than the level from which on, and then than the other.
pub(crate) fn add_levels<H: GrowingHalf>(
    half: &mut H,
    keys: &KeyList,
    node: &mut OpenNode,
    spans: &mut Vec<Span>,
    from: u16,
    to: u16,
) -> Result<(), AllocError>
    requires { (leaves : List Leaf) × MayGrow keys.now leaves from to (H.half half.old) H.size (H.limit half.old) spans.old.items }
    ensures half { OnOk result ((leaves : List Leaf) → MayGrow keys.now leaves from to (H.half half.old) H.size (H.limit half.old) spans.old.items → H.half half.new ≡ half_to leaves to (H.half half.old).before) }
    ensures spans { OnOk result ((leaves : List Leaf) → MayGrow keys.now leaves from to (H.half half.old) H.size (H.limit half.old) spans.old.items → spans.new.items ≡ spans_longer leaves to) }
{
    for level in from..to {
        add_level(half, keys, node, spans.as_slice(), level)?;
        pass(spans, level);
    }
    Ok(())
}

// Adds the nodes of a level, of which `spans` are the paths that are longer.
fn add_level<H: GrowingHalf>(
    half: &mut H,
    keys: &KeyList,
    node: &mut OpenNode,
    spans: &[Span],
    level: u16,
) -> Result<(), AllocError>
    requires { (leaves : List Leaf) × MayGrow keys.now leaves level (level + 1) (H.half half.old) H.size (H.limit half.old) spans.now }
    ensures half { OnOk result ((leaves : List Leaf) → MayGrow keys.now leaves level (level + 1) (H.half half.old) H.size (H.limit half.old) spans.now → H.half half.new ≡ half_to leaves (level + 1) (H.half half.old).before) }
    ensures limit { OnOk result (H.limit half.new ≡ H.limit half.old) }
{
    node.clear();
    for i in 0..spans.len() {
        let span = spans[i];
        node.add_span(keys.get(span.leaf as usize), span, level)?;
        if span.closes <= level {
            node.give(half);
        }
    }
    Ok(())
}

// Lets go the paths that end on a level.
fn pass(spans: &mut Vec<Span>, level: u16)
    requires short { level < 65535 }
    ensures { spans.new.items ≡ longer (level + 1) spans.old.items }
{
    let last = level + 1;
    spans.retain(|span| span.len > last);
}
