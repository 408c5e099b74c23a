//! The trie of whole keys.
ghost use Rattle.std.specs.Prelude.{◌≡◌, IfOk};
ghost use Rattle.filter_image_model.specs.Laws.{whole_list};
ghost use Rattle.filter_trie.specs.Parts.{AreParts, image_by};
ghost use Rattle.map_writer.specs.Plans.{IsPlanOf};
ghost use Rattle.whole_keys.specs.Whole.{whole_leaves};

use super::plan::Plan;
use bit_words::Bits;
use filter_trie::Trie;
use key_base::KeyList;
use louds_dense::Dense;
use louds_sparse::Sparse;
use std::alloc::{AllocError, Global};
use suffix_bits::Suffixes;
use trie_build::build_halves;

/// The trie of the keys with this plan, which have no bits beside them.
pub(crate) fn whole_trie(
    alloc: Global,
    keys: &KeyList,
    plan: Plan,
) -> Result<Trie<Global>, AllocError>
    requires { IsPlanOf keys.now plan }
    ensures { IfOk result (λ trie. trie ≡ whole_list plan.cutoff (whole_leaves keys.now)) }
{
    let Plan {
        spans,
        levels,
        cutoff,
    } = plan;
    let (dense, sparse) = build_halves(alloc, keys, spans, &levels, cutoff)?;
    let suffixes = Suffixes::of(Bits::new(alloc), 0, 0, keys.len() as u64);
    Ok(joined(cutoff, levels.height(), dense, sparse, suffixes))
}

// The trie with these parts.
fn joined(
    cutoff: u16,
    height: u16,
    dense: Dense<Global>,
    sparse: Sparse<Global>,
    suffixes: Suffixes<Global>,
) -> Trie<Global>
    requires { AreParts (image_by cutoff height dense sparse.nodes suffixes) cutoff height dense sparse suffixes }
    ensures { result ≡ image_by cutoff height dense sparse.nodes suffixes }
{
    Trie::of(cutoff, height, dense, sparse, suffixes)
}
