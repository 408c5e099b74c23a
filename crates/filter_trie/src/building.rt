//! The trie of a key list.
ghost use Rattle.std.specs.Prelude.{◌≡◌, ◌≤◌, ℕ, length, take, drop, sum, IfOk};
ghost use Rattle.filter_model.specs.Keys.{IsKeyList};
ghost use Rattle.filter_model.specs.Leaves.{leaves_of};
ghost use Rattle.filter_model.specs.Trie.{height as height_of, level_labels, level_nodes};
ghost use Rattle.filter_trie.specs.Building.{AreFewCounts};
ghost use Rattle.filter_trie.specs.Parts.{AreParts, image_by};
ghost use Rattle.key_base.specs.Limits.{max_hash_bits, max_real_bits};
ghost use Rattle.trie_levels.specs.Spans.{spans_of};

use super::build_level::add_levels;
use super::build_node::OpenNode;
use super::build_pending::Pending;
use super::trie::Trie;
use key_base::KeyList;
use louds_dense::{Dense, DenseBuilder};
use louds_sparse::{Sparse, SparseBuilder};
use std::alloc::{AllocError, Global};
use suffix_bits::Suffixes;
use trie_levels::{Levels, Span};

/// The trie of the leaves of `keys`, with suffixes of these widths and its first `cutoff` levels dense.
///
/// `spans` are those of the keys and `levels` their plan, by which all room is made at once; each width is at most 32 and
/// the cutoff at most the height. Goes over the leaves that are left once a level, so that the work is at most in the
/// letters of all paths; no leaf is made, and beside the sections it takes the spans and one open node of 512 bytes. In the
/// end the sums of one level are kept; `keep_sums` says what that costs. The only error is that memory runs out: a sparse half
/// with 2^32 labels or more is that too, and a dense half with 2^24 nodes or more, as sections do not grow past that.
pub fn build(
    alloc: Global,
    keys: &KeyList,
    spans: Vec<Span>,
    levels: &Levels,
    hash_bits: u8,
    real_bits: u8,
    cutoff: u16,
) -> Result<Trie<Global>, AllocError>
    requires keys { IsKeyList keys.now }
    requires spans { spans.items ≡ spans_of (leaves_of hash_bits real_bits keys.now) }
    requires nodes { levels.now.nodes ≡ level_nodes (leaves_of hash_bits real_bits keys.now) }
    requires labels { levels.now.labels ≡ level_labels (leaves_of hash_bits real_bits keys.now) }
    requires hash_width { hash_bits ≤ max_hash_bits }
    requires real_width { real_bits ≤ max_real_bits }
    requires cutoff { cutoff ≤ height_of (leaves_of hash_bits real_bits keys.now) }
    ensures { IfOk result (λ trie. trie ≡ record { hash_bits = hash_bits; real_bits = real_bits; cutoff = cutoff; leaves = leaves_of hash_bits real_bits keys.now }) }
{
    let height = levels.height();
    let mut pending = Pending::new(alloc, spans, hash_bits, real_bits)?;
    let mut node = OpenNode::new(alloc)?;
    let mut dense = DenseBuilder::new(alloc, nodes_above(levels, cutoff))?;
    add_levels(&mut dense, keys, &mut node, &mut pending, 0, cutoff)?;
    let dense = dense.finish()?;
    let mut sparse = SparseBuilder::new(alloc, dense.counts(), labels_below(levels, cutoff))?;
    add_levels(&mut sparse, keys, &mut node, &mut pending, cutoff, height)?;
    let sparse = sparse.finish()?;
    drop(node);
    joined(alloc, cutoff, height, dense, sparse, pending.finish())
}

// The trie with these parts, and the sums of one of its levels.
fn joined(
    alloc: Global,
    cutoff: u16,
    height: u16,
    dense: Dense<Global>,
    sparse: Sparse<Global>,
    suffixes: Suffixes<Global>,
) -> Result<Trie<Global>, AllocError>
    requires { AreParts (image_by cutoff height dense sparse.nodes suffixes) cutoff height dense sparse suffixes }
    ensures { IfOk result (λ trie. trie ≡ image_by cutoff height dense sparse.nodes suffixes) }
{
    let mut trie = Trie::of(cutoff, height, dense, sparse, suffixes);
    trie.keep_sums(alloc)?;
    Ok(trie)
}

// The nodes of the first levels.
fn nodes_above(levels: &Levels, cutoff: u16) -> usize
    requires within { cutoff ≤ length levels.now.nodes }
    requires few { AreFewCounts levels.now.nodes }
    ensures { result ≡ sum (take cutoff levels.now.nodes) }
{
    let mut nodes = 0;
    for level in 0..cutoff {
        nodes += levels.nodes(level) as usize;
    }
    nodes
}

// The labels of the other levels.
fn labels_below(levels: &Levels, cutoff: u16) -> usize
    requires within { cutoff ≤ length levels.now.labels }
    requires few { AreFewCounts levels.now.labels }
    ensures { result ≡ sum (drop cutoff levels.now.labels) }
{
    let mut labels = 0;
    for level in cutoff..levels.height() {
        labels += levels.labels(level) as usize;
    }
    labels
}
