//! How the paths of a key list's leaves stand among each other.
ghost use Rattle.std.specs.Prelude.{◌≡◌, ◌==◌, ◌+◌, ◌<◌, ◌≤◌, ℕ, cond, length, min, slice_index_or, IfOk};
ghost use Rattle.filter_model.specs.Keys.{IsKeyList};
ghost use Rattle.filter_model.specs.Leaves.{leaves_of};
ghost use Rattle.key_base.specs.Limits.{max_key_bytes};
ghost use Rattle.key_truncate.specs.Stubs.{shared_next, stubs_in};
ghost use Rattle.trie_levels.specs.Spans.{closes_at, spans_of};

use key_base::{KeyList, shared};
use key_truncate::Stub;
use std::alloc::{AllocError, Global};

/// A leaf's path: how long it is, and where it parts from the next one.
#[derive(Clone, Copy, Debug, PartialEq, Eq)]
pub struct Span {
    /// The number of the leaf.
    pub leaf: u32,
    /// The first level on which no later leaf stands below the same node.
    pub closes: u16,
    /// How many letters the path has.
    pub len: u16,
}

/// The spans of the leaves of `keys`, whose stubs these are.
///
/// Compares each two neighbours once, and takes one block of memory, of 8 bytes a key.
pub fn spans_of(alloc: Global, keys: &KeyList, stubs: &[Stub]) -> Result<Vec<Span>, AllocError>
    requires keys { IsKeyList keys.now }
    requires stubs { stubs.now ≡ stubs_in keys.now }
    ensures { IfOk result (λ spans. (hash_bits real_bits : ℕ) → spans.items ≡ spans_of (leaves_of hash_bits real_bits keys.now)) }
{
    let mut spans = Vec::with_capacity(alloc, keys.len())?;
    for i in 0..keys.len() {
        let stub = stubs[i];
        spans.push(Span {
            leaf: i as u32,
            closes: closes(keys, i),
            len: stub.len + u16::from(stub.ends),
        })?;
    }
    Ok(spans)
}

// The first level on which no later leaf stands below the same node as leaf `i`.
fn closes(keys: &KeyList, i: usize) -> u16
    requires keys { IsKeyList keys.now }
    requires within { i < length keys.now }
    ensures value { result ≡ closes_at keys.now i }
    ensures short { result ≤ max_key_bytes + 1 }
{
    if i + 1 < keys.len() {
        shared(keys.get(i), keys.get(i + 1)) as u16 + 1
    } else {
        0
    }
}
