//! The trie of sorted keys, with as many levels dense as the rule allows.
ghost use Rattle.std.specs.Prelude.{◌≡◌, ℕ, IfOk};
ghost use Rattle.filter_api.specs.Ranges.{InRange};
ghost use Rattle.filter_api.specs.Spellings.{MayStand};
ghost use Rattle.filter_model.specs.Keys.{IsKeyList};
ghost use Rattle.filter_model.specs.Leaves.{leaves_of};
ghost use Rattle.surf_filter.specs.Cutoffs.{rule_cutoff};
ghost use Rattle.trie_levels.specs.Spans.{spans_of as spans_in};

use filter_api::Settings;
use filter_trie::{Trie, build};
use key_base::KeyList;
use key_truncate::truncate;
use std::alloc::{AllocError, Global};
use trie_levels::{Span, cutoff, plan_spans, spans_of};

/// The trie of the leaves of `keys`, its upper levels dense by the rule. No leaf is made.
pub(crate) fn trie_of_keys(
    alloc: Global,
    keys: &KeyList,
    settings: Settings,
) -> Result<Trie<Global>, AllocError>
    requires keys { IsKeyList keys.now }
    requires settings { InRange settings }
    ensures trie { IfOk result (λ trie. trie ≡ record {
      hash_bits = settings.hash_bits;
      real_bits = settings.real_bits;
      cutoff = rule_cutoff settings.ratio (leaves_of settings.hash_bits settings.real_bits keys.now);
      leaves = leaves_of settings.hash_bits settings.real_bits keys.now;
    }) }
    ensures stands { IfOk result (λ trie. MayStand trie.hash_bits trie.real_bits trie.cutoff trie.leaves) }
{
    let (hash_bits, real_bits) = (settings.hash_bits, settings.real_bits);
    let spans = key_spans(alloc, keys)?;
    let levels = plan_spans(alloc, spans.as_slice())?;
    let dense = cutoff(&levels, settings.ratio);
    build(alloc, keys, spans, &levels, hash_bits, real_bits, dense)
}

// The spans of the keys' leaves. The memory of their stubs is given back before the trie takes its own.
fn key_spans(alloc: Global, keys: &KeyList) -> Result<Vec<Span>, AllocError>
    requires { IsKeyList keys.now }
    ensures { IfOk result (λ spans. (hash_bits real_bits : ℕ) → spans.items ≡ spans_in (leaves_of hash_bits real_bits keys.now)) }
{
    let stubs = truncate(alloc, keys)?;
    spans_of(alloc, keys, stubs.as_slice())
}
