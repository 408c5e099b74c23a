//! What a trie answers of one key.
ghost use Rattle.std.specs.Prelude.{◌≡◌, ◌<◌, length, None, MatchOption};
ghost use Rattle.filter_api.specs.Spellings.{MayBeTrie};
ghost use Rattle.filter_model.specs.Answers.{point};
ghost use Rattle.filter_trie.specs.Walks.{ReachesLeaf};
ghost use Rattle.surf_filter.specs.Reaching.{has_suffix};
ghost use Rattle.trie_model.specs.Walks.{slot_of_key};

use filter_trie::Trie;
use std::alloc::Allocator;
use suffix_bits::{hash_bits_of, real_bits_of};

// The leaf that a key reaches.
#[derive(Clone, Copy)]
struct LeafReached {
    slot: u64,
    // How many bytes its stub has.
    stub: usize,
}

/// Whether some leaf fits `key` with its hash bits: the one that the key reaches, by its suffix.
pub(crate) fn holds<A: Allocator>(trie: &Trie<A>, key: &[u8]) -> bool
    ensures { result ≡ point trie.now.hash_bits trie.now.real_bits trie.now.leaves key.now }
{
    match reached_leaf(trie, key) {
        None => false,
        Some(leaf) => has_suffix(trie, leaf, key),
    }
}

// The leaf that a key reaches, in a trie of a leaf list.
fn reached_leaf<A: Allocator>(trie: &Trie<A>, key: &[u8]) -> Option<LeafReached>
    ensures stands { MayBeTrie trie.now.hash_bits trie.now.real_bits trie.now.cutoff trie.now.leaves }
    ensures leaf { MatchOption result (None ≡ slot_of_key trie.now.leaves key.now) (λ r. ReachesLeaf trie.now.leaves key.now r.slot r.stub) }
{
    // The clause of the height says that the leaves are a leaf list.
    let _ = trie.height();
    match trie.walk_to(key) {
        None => None,
        Some((slot, stub)) => Some(LeafReached { slot, stub }),
    }
}

// Whether the suffix of the leaf is the key's. A leaf that ends has no real bits, and the key none behind it.
fn has_suffix<A: Allocator>(trie: &Trie<A>, leaf: LeafReached, key: &[u8]) -> bool
    requires { leaf.slot < length trie.now.leaves }
    ensures { result ≡ has_suffix trie.now.hash_bits trie.now.real_bits trie.now.leaves key.now leaf.slot leaf.stub }
{
    let (hash_bits, real_bits) = trie.suffixes().widths();
    let (hash, real) = trie.suffix(leaf.slot);
    real_bits_of(key, leaf.stub, real_bits) == real && hash_bits_of(key, hash_bits) == hash
}
