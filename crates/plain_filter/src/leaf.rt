//! What one leaf answers.
ghost use Rattle.std.specs.Prelude.{◌≡◌, ◌==◌, ◌&&◌, ◌*◌, ◌-◌, ◌<◌, ◌≤◌, ◌^◌, length, IsTrue};
ghost use Rattle.std.specs.Ordering.{nat_cmp};
ghost use Rattle.key_base.specs.Limits.{max_real_bits};
ghost use Rattle.filter_model.specs.Answers.{begins, fits, is_past, is_same, meets};
ghost use Rattle.filter_model.specs.Strings.{prefix_number, is_before, is_prefix, bytes_eq};
ghost use Rattle.filter_api.specs.Seen.{seen};

use filter_api::Leaf;
use key_base::compare;
use std::cmp::Ordering;
use suffix_bits::{byte_at, filled, real_bits_of, shortest_bytes};

// Whether `key` fits the leaf, hash apart.
fn leaf_fits(leaf: &Leaf, key: &[u8], real_bits: u8) -> bool
    requires { real_bits ≤ max_real_bits }
    ensures { result ≡ fits real_bits key.now (seen leaf.now) }
{
    let stub = leaf.stub.as_slice();
    if leaf.ends {
        are_same(stub, key)
    } else {
        begins_with(key, stub) && real_bits_of(key, stub.len(), real_bits) == leaf.real
    }
}

/// Whether `key`, whose hash bits are `hash`, fits the leaf as a point.
pub(crate) fn leaf_fits_point(leaf: &Leaf, key: &[u8], hash: u32, real_bits: u8) -> bool
    requires { real_bits ≤ max_real_bits }
    ensures { result ≡ (fits real_bits key.now (seen leaf.now) && (hash == leaf.now.hash)) }
{
    leaf_fits(leaf, key, real_bits) && hash == leaf.hash
}

/// Whether the leaf may stand for a key from `lo` to `hi`.
pub(crate) fn leaf_meets(leaf: &Leaf, lo: &[u8], hi: &[u8], real_bits: u8) -> bool
    requires width { real_bits ≤ max_real_bits }
    requires real { leaf.now.real < 2 ^ real_bits }
    ensures { result ≡ meets real_bits lo.now hi.now (seen leaf.now) }
{
    !below_least(hi, leaf, real_bits) && !leaf_is_past(leaf, lo, real_bits)
}

/// Whether every string that fits the leaf is below `lo`.
pub(crate) fn leaf_is_past(leaf: &Leaf, lo: &[u8], real_bits: u8) -> bool
    requires { real_bits ≤ max_real_bits }
    ensures { result ≡ is_past real_bits lo.now (seen leaf.now) }
{
    let stub = leaf.stub.as_slice();
    if leaf.ends {
        return compare(stub, lo).is_lt();
    }
    match compare_padded(stub, lo) {
        Ordering::Less => true,
        Ordering::Equal => leaf.real < real_bits_of(lo, stub.len(), real_bits),
        Ordering::Greater => false,
    }
}

// Whether `hi` is below the least string that fits the leaf.
fn below_least(hi: &[u8], leaf: &Leaf, real_bits: u8) -> bool
    requires width { real_bits ≤ max_real_bits }
    requires real { leaf.now.real < 2 ^ real_bits }
    ensures { result ≡ is_before hi.now (begins real_bits (seen leaf.now)) }
{
    let stub = leaf.stub.as_slice();
    if leaf.ends {
        return compare(hi, stub).is_lt();
    }
    if !begins_with(hi, stub) {
        return compare(hi, stub).is_lt();
    }
    let (tail, len) = shortest_bytes(filled(leaf.real, real_bits));
    compare(&hi[stub.len()..], &tail[..len]).is_lt()
}

// How the stub compares with as many first bytes of `lo`, zero bytes where `lo` has no more.
fn compare_padded(stub: &[u8], lo: &[u8]) -> Ordering
    ensures { result ≡ nat_cmp (prefix_number (length stub.now) stub.now) (prefix_number (length stub.now) lo.now) }
{
    for i in 0..stub.len() {
        let other = byte_at(lo, i);
        if stub[i] != other {
            return stub[i].cmp(&other);
        }
    }
    Ordering::Equal
}

/// Whether the two are one byte string.
pub(crate) fn are_same(a: &[u8], b: &[u8]) -> bool
    ensures { result ≡ bytes_eq a.now b.now }
{
    a == b
}

/// Whether `bytes` begin with `stub`.
pub(crate) fn begins_with(bytes: &[u8], stub: &[u8]) -> bool
    ensures value { result ≡ is_prefix stub.now bytes.now }
    ensures bound { IsTrue result → length stub.now ≤ length bytes.now }
{
    bytes.starts_with(stub)
}

/// Whether the two are one leaf, hash bits and real bits too.
pub(crate) fn are_one_leaf(leaf: &Leaf, other: &Leaf) -> bool
    ensures { result ≡ is_same (seen leaf.now) (seen other.now) }
{
    are_same(leaf.stub.as_slice(), other.stub.as_slice())
        && leaf.ends == other.ends
        && leaf.hash == other.hash
        && leaf.real == other.real
}
