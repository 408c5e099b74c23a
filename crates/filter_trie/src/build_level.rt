//! The levels of a trie, one after the other.
ghost use Rattle.std.specs.Prelude.{◌≡◌, ◌+◌, ◌<◌, ◌≤◌, ℕ, [], length, sum_by, OnOk};
ghost use Rattle.filter_model.specs.Keys.{IsKeyList};
ghost use Rattle.filter_model.specs.Trie.{height, nodes_to};
ghost use Rattle.filter_model.specs.Leaves.{base_leaves};
ghost use Rattle.filter_trie.specs.Building.{half_to, nodes_behind, spans_longer};
ghost use Rattle.filter_trie.specs.Pending.{ArePending};

use super::build_half::GrowingHalf;
use super::build_node::OpenNode;
use super::build_pending::Pending;
use key_base::KeyList;
use std::alloc::AllocError;
use trie_levels::Span;

/// Adds the nodes of the levels from one on and before another, all of which the half has room for. What `node` has is let
/// go.
pub(crate) fn add_levels<H: GrowingHalf>(
    half: &mut H,
    keys: &KeyList,
    node: &mut OpenNode,
    pending: &mut Pending,
    from: u16,
    to: u16,
) -> Result<(), AllocError>
    requires keys { IsKeyList keys.now }
    requires order { from ≤ to }
    requires within { to ≤ height (base_leaves keys.now) }
    requires before { (H.half half.old).before.nodes ≤ length (nodes_to (base_leaves keys.now) from) }
    requires nodes { (H.half half.old).nodes ≡ nodes_behind keys.now from (H.half half.old).before }
    requires room { sum_by H.size (nodes_behind keys.now to (H.half half.old).before) ≤ H.limit half.old }
    requires pending { ArePending keys.now from pending.old }
    ensures half { OnOk result (H.half half.new ≡ half_to keys.now to (H.half half.old).before) }
    ensures pending { OnOk result (ArePending keys.now to pending.new) }
    ensures hash_bits { OnOk result (pending.new.hash_bits ≡ pending.old.hash_bits) }
    ensures real_bits { OnOk result (pending.new.real_bits ≡ pending.old.real_bits) }
{
    for level in from..to {
        add_level(half, keys, node, pending.spans(), level)?;
        pending.pass(keys, level);
    }
    Ok(())
}

// Adds the nodes of a level, of which `spans` are the paths that are longer.
fn add_level<H: GrowingHalf>(
    half: &mut H,
    keys: &KeyList,
    node: &mut OpenNode,
    spans: &[Span],
    level: u16,
) -> Result<(), AllocError>
    requires keys { IsKeyList keys.now }
    requires below { level < height (base_leaves keys.now) }
    requires spans { spans.now ≡ spans_longer keys.now level }
    requires before { (H.half half.old).before.nodes ≤ length (nodes_to (base_leaves keys.now) level) }
    requires nodes { (H.half half.old).nodes ≡ nodes_behind keys.now level (H.half half.old).before }
    requires room { sum_by H.size (nodes_behind keys.now (level + 1) (H.half half.old).before) ≤ H.limit half.old }
    ensures half { OnOk result (H.half half.new ≡ half_to keys.now (level + 1) (H.half half.old).before) }
    ensures limit { OnOk result (H.limit half.new ≡ H.limit half.old) }
{
    node.clear();
    for i in 0..spans.len() {
        let span = spans[i];
        node.add_span(keys.get(span.leaf as usize), span, level)?;
        if span.closes <= level {
            node.give(half);
        }
    }
    Ok(())
}
