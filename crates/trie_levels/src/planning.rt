//! The levels of a leaf list's trie.
ghost use Rattle.std.specs.Prelude.{◌≡◌, ◌+◌, ◌≤◌, List, length, map, IfOk};
ghost use Rattle.key_base.specs.Limits.{max_key_bytes};
ghost use Rattle.std.specs.List.{All, range_with_len};
ghost use Rattle.filter_api.specs.Seen.{seen};
ghost use Rattle.filter_model.specs.Leaves.{Leaf as PlainLeaf};
ghost use Rattle.filter_model.specs.Trie.{height, level_labels, level_nodes, path};
ghost use Rattle.trie_levels.specs.Neighbours.{AreCounts, endings, partings};
ghost use Rattle.filter_model.specs.Valid.{IsStub};
ghost use Rattle.trie_levels.specs.Tries.{HasTrie};

use crate::levels::Levels;
use filter_api::{Leaf, LeafList};
use key_base::shared;
use std::alloc::{AllocError, Global};

/// How many nodes and labels each level of the trie of `leaves` has. The trie itself is not made.
///
/// `leaves` has one leaf or more; their stubs rise strictly, have 1 to 1,024 bytes each, and one is a proper prefix of
/// another exactly where it ends. Compares each two neighbours once, and takes memory for four numbers a level; the
/// only error is that there is none.
pub fn plan(alloc: Global, leaves: &LeafList) -> Result<Levels, AllocError>
    requires { HasTrie leaves.now }
    ensures nodes { IfOk result (λ levels. levels.nodes ≡ level_nodes leaves.now) }
    ensures labels { IfOk result (λ levels. levels.labels ≡ level_labels leaves.now) }
{
    let count = longest_path(leaves);
    let parted = count_partings(alloc, leaves, count)?;
    let ended = count_endings(alloc, leaves, count)?;
    levels_of(alloc, parted.as_slice(), ended.as_slice())
}

/// The levels of a trie in whose nodes so many neighbours part and so many leaves end, by level.
pub(crate) fn levels_of(alloc: Global, parted: &[u64], ended: &[u64]) -> Result<Levels, AllocError>
    requires { (leaves : List PlainLeaf) × AreCounts leaves parted.now ended.now }
    ensures nodes { IfOk result (λ levels. (leaves : List PlainLeaf) → AreCounts leaves parted.now ended.now → levels.nodes ≡ level_nodes leaves) }
    ensures labels { IfOk result (λ levels. (leaves : List PlainLeaf) → AreCounts leaves parted.now ended.now → levels.labels ≡ level_labels leaves) }
{
    let mut levels = Levels::new(alloc);
    let mut nodes = 1;
    for level in 0..parted.len() {
        let labels = nodes + parted[level];
        levels.push(nodes, labels)?;
        nodes = labels - ended[level];
    }
    Ok(levels)
}

// How many leaves share each number of bytes, below `levels`, with the next one.
fn count_partings(alloc: Global, leaves: &LeafList, levels: usize) -> Result<Vec<u64>, AllocError>
    requires trie { HasTrie leaves.now }
    requires levels { levels ≡ height leaves.now }
    ensures { IfOk result (λ counts. counts.items ≡ map (partings leaves.now) (range_with_len 0 levels)) }
{
    let mut counts = vec![in alloc; 0u64; levels]?;
    for i in 1..leaves.len() {
        let stub = leaves.get(i).stub.as_slice();
        counts[shared(leaves.get(i - 1).stub.as_slice(), stub)] += 1;
    }
    Ok(counts)
}

// How many leaves are branches of the nodes of each level.
fn count_endings(alloc: Global, leaves: &LeafList, levels: usize) -> Result<Vec<u64>, AllocError>
    requires stubs { All IsStub leaves.now }
    requires levels { levels ≡ height leaves.now }
    ensures { IfOk result (λ counts. counts.items ≡ map (endings leaves.now) (range_with_len 0 levels)) }
{
    let mut counts = vec![in alloc; 0u64; levels]?;
    for i in 0..leaves.len() {
        counts[path_len(leaves.get(i)) - 1] += 1;
    }
    Ok(counts)
}

// The letters of the longest path, which are the levels of the trie.
fn longest_path(leaves: &LeafList) -> usize
    requires { All IsStub leaves.now }
    ensures height { result ≡ height leaves.now }
    ensures short { result ≤ max_key_bytes + 1 }
{
    let mut longest = 0;
    for i in 0..leaves.len() {
        longest = path_len(leaves.get(i)).max(longest);
    }
    longest
}

// The letters of a leaf's path: the bytes of its stub, and END where it ends.
fn path_len(leaf: &Leaf) -> usize
    requires { length leaf.now.stub.items ≤ max_key_bytes }
    ensures { result ≡ length (path (seen leaf.now)) }
{
    leaf.stub.len() + usize::from(leaf.ends)
}
