//! The test whether a leaf list is valid, by each leaf's neighbours.
ghost use Rattle.std.specs.Prelude.{◌≡◌, ◌<◌, ◌≤◌, ◌^◌, ◌↔◌, length, IsTrue};
ghost use Rattle.key_base.specs.Limits.{max_hash_bits, max_real_bits};
ghost use Rattle.filter_model.specs.Trie.{parent};
ghost use Rattle.filter_model.specs.Valid.{IsLeaf, IsValid, joins};
ghost use Rattle.filter_model.specs.Strings.{extends};
ghost use Rattle.filter_api.specs.Seen.{seen};
ghost use Rattle.plain_filter_model.specs.Neighbours.{StandsRightly, has_company, joins_before, joins_next, next_extends, rises_at};

use crate::leaf::{are_same, begins_with};
use filter_api::{Leaf, LeafList};
use key_base::{MAX_KEY_BYTES, compare};

pub(crate) fn is_valid(leaves: &LeafList, hash_bits: u8, real_bits: u8) -> bool
    requires hash { hash_bits ≤ max_hash_bits }
    requires real { real_bits ≤ max_real_bits }
    ensures { IsTrue result ↔ IsValid hash_bits real_bits leaves.now }
{
    if leaves.is_empty() || leaves.len() >= 1 << 32 {
        return false;
    }
    for i in 0..leaves.len() {
        if !stands(leaves, i, hash_bits, real_bits) {
            return false;
        }
    }
    true
}

fn stands(leaves: &LeafList, i: usize, hash_bits: u8, real_bits: u8) -> bool
    requires within { i < length leaves.now }
    requires hash { hash_bits ≤ max_hash_bits }
    requires real { real_bits ≤ max_real_bits }
    ensures { IsTrue result ↔ StandsRightly hash_bits real_bits leaves.now i }
{
    let leaf = leaves.get(i);
    if !is_leaf(leaf, hash_bits, real_bits) {
        return false;
    }
    if !rises_at(leaves, i) || leaf.ends != goes_on(leaves, i) {
        return false;
    }
    has_other_branch(leaves, i)
}

fn is_leaf(leaf: &Leaf, hash_bits: u8, real_bits: u8) -> bool
    requires hash { hash_bits ≤ max_hash_bits }
    requires real { real_bits ≤ max_real_bits }
    ensures { IsTrue result ↔ IsLeaf hash_bits real_bits (seen leaf.now) }
{
    let stub = leaf.stub.as_slice();
    if stub.is_empty() || stub.len() > MAX_KEY_BYTES {
        return false;
    }
    if !fits_width(leaf.hash, hash_bits) || !fits_width(leaf.real, real_bits) {
        return false;
    }
    if leaf.ends && leaf.real != 0 {
        return false;
    }
    true
}

fn fits_width(number: u32, width: u8) -> bool
    requires { width ≤ 32 }
    ensures { IsTrue result ↔ (number < 2 ^ width) }
{
    u64::from(number) < 2u64.pow(u32::from(width))
}

fn rises_at(leaves: &LeafList, i: usize) -> bool
    requires { i < length leaves.now }
    ensures { result ≡ rises_at leaves.now i }
{
    i == 0
        || compare(
            leaves.get(i - 1).stub.as_slice(),
            leaves.get(i).stub.as_slice(),
        )
        .is_lt()
}

fn goes_on(leaves: &LeafList, i: usize) -> bool
    requires { i < length leaves.now }
    ensures { result ≡ next_extends leaves.now i }
{
    let count = leaves.len();
    i + 1 < count && stub_extends(leaves.get(i), leaves.get(i + 1))
}

// Whether the stub of `other` goes on from that of `leaf`.
fn stub_extends(leaf: &Leaf, other: &Leaf) -> bool
    ensures { result ≡ extends (seen leaf.now).stub (seen other.now).stub }
{
    let stub = leaf.stub.as_slice();
    let longer = other.stub.as_slice();
    if stub.len() >= longer.len() {
        return false;
    }
    begins_with(longer, stub)
}

fn has_other_branch(leaves: &LeafList, i: usize) -> bool
    requires { i < length leaves.now }
    ensures { result ≡ has_company leaves.now i }
{
    if leaves.len() == 1 {
        return leaves.get(i).stub.len() == 1;
    }
    branches_before(leaves, i) || branches_next(leaves, i)
}

fn branches_before(leaves: &LeafList, i: usize) -> bool
    requires { i < length leaves.now }
    ensures { result ≡ joins_before leaves.now i }
{
    i > 0 && leaves_join(leaves.get(i), leaves.get(i - 1))
}

fn branches_next(leaves: &LeafList, i: usize) -> bool
    requires { i < length leaves.now }
    ensures { result ≡ joins_next leaves.now i }
{
    let count = leaves.len();
    i + 1 < count && leaves_join(leaves.get(i), leaves.get(i + 1))
}

// Whether the stub of `other` goes on from the node of `leaf`.
fn leaves_join(leaf: &Leaf, other: &Leaf) -> bool
    ensures { result ≡ joins (seen leaf.now) (seen other.now) }
{
    begins_with(other.stub.as_slice(), node_of(leaf))
        && !are_same(other.stub.as_slice(), leaf.stub.as_slice())
}

fn node_of(leaf: &Leaf) -> &[u8]
    ensures { result.now ≡ parent (seen leaf.now) }
{
    let stub = leaf.stub.as_slice();
    if leaf.ends {
        stub
    } else {
        &stub[..stub.len().saturating_sub(1)]
    }
}
