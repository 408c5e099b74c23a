//! Where a key leads in a trie of whole keys.
ghost use Rattle.std.specs.Prelude.{◌≡◌, cond, count_by, MatchOption};
ghost use Rattle.std.specs.List.{Contains};
ghost use Rattle.filter_model.specs.Valid.{IsLeafList};
ghost use Rattle.fst_map.specs.Slots.{IsSlotOfKey};
ghost use Rattle.whole_keys.specs.Whole.{runs_past as is_run_past, stubs};

use filter_trie::Trie;
use std::alloc::Allocator;

/// The slot of a key of the trie, `None` where it is none of them.
///
/// A walk comes to a leaf that does not end also by what goes on from its key, so the number of its bytes is compared.
pub(crate) fn key_slot<A: Allocator>(trie: &Trie<A>, key: &[u8]) -> Option<u64>
    requires { IsLeafList 0 0 trie.now.leaves }
    ensures { MatchOption result (Contains (stubs trie.now.leaves) key.now → ⊥) (IsSlotOfKey (stubs trie.now.leaves) key.now) }
{
    let Some((slot, stub)) = trie.walk_to(key) else {
        return None;
    };
    if stub == key.len() { Some(slot) } else { None }
}

/// Whether a bound runs past a key of the trie: it goes on from that key, from which no key does. It runs past one at most.
pub(crate) fn runs_past<A: Allocator>(trie: &Trie<A>, bound: &[u8]) -> bool
    requires { IsLeafList 0 0 trie.now.leaves }
    ensures { cond result 1 0 ≡ count_by (is_run_past (stubs trie.now.leaves) bound.now) (stubs trie.now.leaves) }
{
    match trie.walk_to(bound) {
        Some((_, stub)) => stub < bound.len(),
        None => false,
    }
}
