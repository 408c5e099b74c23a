//! The halves of a trie.
ghost use Rattle.std.specs.Prelude.{◌≡◌, ◌≤◌, List, length, take, drop, sum, IfOk};
ghost use Rattle.filter_model.specs.Leaves.{Leaf};
ghost use Rattle.trie_build.specs.Building.{AreFewCounts, IsPlanned, first_levels, other_levels};
ghost use Rattle.trie_laws.specs.Halves.{second_half};

use super::open_node::OpenNode;
use super::passes::add_levels;
use key_base::KeyList;
use louds_dense::{Dense, DenseBuilder};
use louds_sparse::{Sparse, SparseBuilder};
use std::alloc::{AllocError, Global};
use trie_levels::{Levels, Span};

/// The halves of the trie of leaves that are cut from `keys`: the nodes of its first `cutoff` levels, and those of the others.
///
/// `spans` are those of the leaves and `levels` their plan, by which all room is made at once; the cutoff is at most the
/// height. Goes over the paths that are left once a level, so that the work is at most in the letters of all paths; beside the
/// sections it takes the spans and one open node of 512 bytes. The only error is that memory runs out: a sparse half with 2^32
/// labels or more is that too, and a dense half with 2^24 nodes or more, as sections do not grow past that.
pub fn build_halves(
    alloc: Global,
    keys: &KeyList,
    spans: Vec<Span>,
    levels: &Levels,
    cutoff: u16,
) -> Result<(Dense<Global>, Sparse<Global>), AllocError>
    ghost leaves: { List Leaf }
    requires { IsPlanned keys.now leaves spans.items levels.now cutoff }
    ensures dense { IfOk result (λ halves. halves.0 ≡ first_levels cutoff leaves) }
    ensures sparse { IfOk result (λ halves. halves.1 ≡ second_half (first_levels cutoff leaves) (other_levels cutoff leaves)) }
{
    let height = levels.height();
    let mut spans = spans;
    let mut node = OpenNode::new(alloc)?;
    let mut dense = DenseBuilder::new(alloc, dense_nodes(levels, cutoff))?;
    add_levels(&mut dense, keys, &mut node, &mut spans, 0, cutoff)?;
    let dense = dense.finish()?;
    let mut sparse = SparseBuilder::new(alloc, dense.counts(), sparse_labels(levels, cutoff))?;
    add_levels(&mut sparse, keys, &mut node, &mut spans, cutoff, height)?;
    let sparse = sparse.finish()?;
    Ok((dense, sparse))
}

/// How many nodes the levels above a cutoff have: the room of the dense half.
pub fn dense_nodes(levels: &Levels, cutoff: u16) -> usize
    requires within { cutoff ≤ length levels.now.nodes }
    requires few { AreFewCounts levels.now.nodes }
    ensures { result ≡ sum (take cutoff levels.now.nodes) }
{
    let mut nodes = 0;
    for level in 0..cutoff {
        nodes += levels.nodes(level) as usize;
    }
    nodes
}

/// How many labels the other levels have: the room of the sparse half.
pub fn sparse_labels(levels: &Levels, cutoff: u16) -> usize
    requires within { cutoff ≤ length levels.now.labels }
    requires few { AreFewCounts levels.now.labels }
    ensures { result ≡ sum (drop cutoff levels.now.labels) }
{
    let mut labels = 0;
    for level in cutoff..levels.height() {
        labels += levels.labels(level) as usize;
    }
    labels
}
