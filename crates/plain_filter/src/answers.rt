//! What a list of leaves answers.
ghost use Rattle.std.specs.Prelude.{◌≡◌, ◌<◌, ◌≤◌, ◌^◌, length};
ghost use Rattle.std.specs.List.{All};
ghost use Rattle.key_base.specs.Limits.{max_hash_bits, max_real_bits};
ghost use Rattle.filter_model.specs.Answers.{first, point, ranged, tally};
ghost use Rattle.filter_model.specs.Valid.{IsLeaf};

use crate::leaf::{leaf_fits_point, leaf_is_past, leaf_meets};
use filter_api::LeafList;
use suffix_bits::hash_bits_of;

pub(crate) fn any_fits(leaves: &LeafList, key: &[u8], hash_bits: u8, real_bits: u8) -> bool
    requires hash { hash_bits ≤ max_hash_bits }
    requires real { real_bits ≤ max_real_bits }
    ensures { result ≡ point hash_bits real_bits leaves.now key.now }
{
    let hash = hash_bits_of(key, hash_bits);
    for i in 0..leaves.len() {
        if leaf_fits_point(leaves.get(i), key, hash, real_bits) {
            return true;
        }
    }
    false
}

pub(crate) fn any_meets(
    leaves: &LeafList,
    lo: &[u8],
    hi: &[u8],
    hash_bits: u8,
    real_bits: u8,
) -> bool
    requires real { real_bits ≤ max_real_bits }
    requires leaves { All (IsLeaf hash_bits real_bits) leaves.now }
    ensures { result ≡ ranged real_bits leaves.now lo.now hi.now }
{
    for i in 0..leaves.len() {
        if leaf_meets(leaves.get(i), lo, hi, real_bits) {
            return true;
        }
    }
    false
}

pub(crate) fn first_from(leaves: &LeafList, lo: &[u8], real_bits: u8) -> Option<u32>
    requires real { real_bits ≤ max_real_bits }
    requires few { length leaves.now < 2 ^ 32 }
    ensures { result ≡ first real_bits leaves.now lo.now }
{
    for i in 0..leaves.len() {
        if !leaf_is_past(leaves.get(i), lo, real_bits) {
            return Some(i as u32);
        }
    }
    None
}

pub(crate) fn count_meeting(
    leaves: &LeafList,
    lo: &[u8],
    hi: &[u8],
    hash_bits: u8,
    real_bits: u8,
) -> u32
    requires real { real_bits ≤ max_real_bits }
    requires few { length leaves.now < 2 ^ 32 }
    requires leaves { All (IsLeaf hash_bits real_bits) leaves.now }
    ensures { result ≡ tally real_bits leaves.now lo.now hi.now }
{
    let mut count = 0;
    for i in 0..leaves.len() {
        if leaf_meets(leaves.get(i), lo, hi, real_bits) {
            count += 1;
        }
    }
    count
}
