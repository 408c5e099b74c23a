//! How many levels walks visit.
ghost use Rattle.std.specs.Prelude.{◌≤◌, ◌<◌, length};
ghost use Rattle.filter_model.specs.Trie.{nodes};

use bench_keys::Texts;
use filter_trie::Trie;
use std::alloc::Global;

/// How many nodes the walks of these keys look at in all.
///
/// The trie's own count of a walk's steps is there for proofs alone, so the walks are done again, a call for each branch.
pub fn levels(trie: &Trie<Global>, queries: &Texts) -> u64 {
    let count = node_count(trie);
    let mut levels = 0u64;
    for i in 0..queries.len() {
        levels = levels.saturating_add(levels_of(trie, count, queries.get(i)));
    }
    levels
}

// How many nodes the trie has.
fn node_count(trie: &Trie<Global>) -> u64
    ensures { result ≤ length (nodes trie.now.leaves) }
{
    let dense = trie.dense().node_count();
    dense.saturating_add(trie.sparse().node_count())
}

// How many nodes the walk of a key looks at, in a trie of `count` nodes.
fn levels_of(trie: &Trie<Global>, count: u64, key: &[u8]) -> u64
    requires { count ≤ length (nodes trie.now.leaves) }
{
    let mut node = 0;
    let mut levels = 0u64;
    for byte in key {
        if node >= count {
            return levels;
        }
        levels = levels.saturating_add(1);
        match child_by(trie, node, *byte) {
            Some(child) => node = child,
            None => return levels,
        }
    }
    levels.saturating_add(1)
}

// The node to which a byte leads from a node.
fn child_by(trie: &Trie<Global>, node: u64, byte: u8) -> Option<u64>
    requires { node < length (nodes trie.now.leaves) }
{
    match trie.branch(node, byte) {
        Some(place) => trie.child(place),
        None => None,
    }
}
