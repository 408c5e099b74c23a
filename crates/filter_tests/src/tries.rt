//! Tries of keys, by stubs, spans and plan, and a plain filter of the same keys.
//!
//! They are handed out in boxes: a function that has a trie for a local costs the check ten times what one does that has a
//! box of it, since each of its parts that owns memory is gone into at each step.
ghost use Rattle.std.specs.Prelude.{◌<◌, ◌≤◌, length, IsTrue};
ghost use Rattle.filter_model.specs.Keys.{IsKeyList};
ghost use Rattle.filter_model.specs.Trie.{nodes};
ghost use Rattle.key_base.specs.Limits.{max_hash_bits, max_real_bits};

use filter_api::{RangeFilter, Settings};
use filter_model::are_keys;
use filter_trie::{Trie, build};
use key_base::{KeyList, MAX_HASH_BITS, MAX_REAL_BITS};
use key_truncate::{Stub, truncate};
use plain_filter::PlainFilter;
use std::alloc::{AllocError, Global};
use std::test::Fail;
pub(crate) use test_kit::boxed;
use trie_levels::{plan_spans, spans_of};

/// So many that two of the keys hardly share them.
pub(crate) const HASH_BITS: u8 = 32;

/// How many real bits a leaf has.
pub(crate) const REAL_BITS: u8 = 8;

// The trie of keys with its first `cutoff` levels dense, `None` where it has not so many.
fn planned(
    alloc: Global,
    keys: &KeyList,
    hash_bits: u8,
    real_bits: u8,
    cutoff: u16,
) -> Result<Option<Box<Trie<Global>>>, AllocError>
    requires keys { IsKeyList keys.now }
    requires hash_width { hash_bits ≤ max_hash_bits }
    requires real_width { real_bits ≤ max_real_bits }
{
    let stubs = truncate(alloc, keys)?;
    let spans = spans_of(alloc, keys, stubs.as_slice())?;
    let levels = plan_spans(alloc, spans.as_slice())?;
    if cutoff > levels.height() {
        return Ok(None);
    }
    let trie = build(alloc, keys, spans, &levels, hash_bits, real_bits, cutoff)?;
    Ok(Some(boxed(alloc, trie)?))
}

/// The same, of a list whose keys may not rise and of any widths, at most 32 of which are used.
pub(crate) fn trie_with(
    alloc: Global,
    keys: &KeyList,
    hash_bits: u8,
    real_bits: u8,
    cutoff: u16,
) -> Result<Option<Box<Trie<Global>>>, Fail> {
    if !are_keys(keys) {
        return Err(Fail::from("no key list"));
    }
    let hash_bits = hash_bits.min(MAX_HASH_BITS);
    let real_bits = real_bits.min(MAX_REAL_BITS);
    let trie = planned(alloc, keys, hash_bits, real_bits, cutoff)?;
    Ok(trie)
}

/// A trie that is there.
pub(crate) fn some_trie(trie: Option<Box<Trie<Global>>>) -> Result<Box<Trie<Global>>, Fail> {
    match trie {
        Some(trie) => Ok(trie),
        None => Err(Fail::from("a cutoff above the height")),
    }
}

/// The trie of keys with suffixes of 40 bits, of which so many levels are dense.
pub(crate) fn trie_of(
    alloc: Global,
    keys: &KeyList,
    cutoff: u16,
) -> Result<Box<Trie<Global>>, Fail> {
    some_trie(trie_with(alloc, keys, HASH_BITS, REAL_BITS, cutoff)?)
}

/// The same with no suffixes.
pub(crate) fn base_trie(
    alloc: Global,
    keys: &KeyList,
    cutoff: u16,
) -> Result<Box<Trie<Global>>, Fail> {
    some_trie(trie_with(alloc, keys, 0, 0, cutoff)?)
}

/// The trie of keys with widths that a seed draws, `None` where it has not so many levels.
pub(crate) fn drawn_trie(
    alloc: Global,
    keys: &KeyList,
    seed: u64,
    cutoff: u16,
) -> Result<Option<Box<Trie<Global>>>, Fail> {
    let hash_bits = (seed >> 16) % 33;
    let real_bits = (seed >> 24) % 33;
    trie_with(alloc, keys, hash_bits as u8, real_bits as u8, cutoff)
}

/// The stubs of a list whose keys may not rise.
pub(crate) fn stubs_of(alloc: Global, keys: &KeyList) -> Result<Vec<Stub>, Fail> {
    if !are_keys(keys) {
        return Err(Fail::from("no key list"));
    }
    let stubs = truncate(alloc, keys)?;
    Ok(stubs)
}

/// The plain filter of keys with such widths.
pub(crate) fn plain_of(
    alloc: Global,
    keys: &KeyList,
    hash_bits: u8,
    real_bits: u8,
) -> Result<Box<PlainFilter>, Fail> {
    if !are_keys(keys) {
        return Err(Fail::from("no key list"));
    }
    let settings = Settings {
        hash_bits: hash_bits.min(MAX_HASH_BITS),
        real_bits: real_bits.min(MAX_REAL_BITS),
        ratio: 64,
    };
    let plain = PlainFilter::build(alloc, keys, settings)?;
    Ok(boxed(alloc, plain)?)
}

/// Whether a trie has a node of this number.
pub(crate) fn has_node(trie: &Trie<Global>, node: u64) -> bool
    ensures { IsTrue result → node < length (nodes trie.now.leaves) }
{
    trie.dense().has_node(node) || trie.sparse().has_node(node)
}
