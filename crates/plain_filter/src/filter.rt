//! The plain filter.
ghost use Rattle.std.specs.Prelude.{◌≡◌, ◌+◌, ◌<◌, ◌≤◌, ◌^◌, ◌==◌, ◌∷◌, [], ◌++◌, length, take, drop, cond, min, IfOk, IfSome, IfNone};
ghost use Rattle.std.specs.List.{All};
ghost use Rattle.key_base.specs.Limits.{max_hash_bits, max_real_bits};
ghost use Rattle.filter_model.specs.Answers.{begins};
ghost use Rattle.filter_model.specs.Keys.{IsKeyList};
ghost use Rattle.filter_model.specs.Leaves.{hash_bits_of as hash_of, leaves_of};
ghost use Rattle.filter_model.specs.Strings.{bits};
ghost use Rattle.filter_model.specs.Valid.{IsLeaf};
ghost use Rattle.filter_api.specs.Ranges.{InRange};
ghost use Rattle.filter_api.specs.Seen.{seen};
ghost use Rattle.filter_api.specs.Spellings.{IsNoSpelling, IsSpelling};
ghost use Rattle.plain_filter_model.specs.Spelling.{plain_spelling};

use crate::answers::{any_fits, any_meets, count_meeting, first_from};
use crate::decode::read_leaves;
use crate::difference::first_difference;
use crate::encode::{MAGIC, spelled};
use crate::leaf::begins_with;
use crate::valid::is_valid;
use byte_fields::get_u32;
use filter_api::{DecodeError, FilterFault, Leaf, LeafList, RangeFilter, Settings};
use key_base::{KeyList, MAX_HASH_BITS, MAX_REAL_BITS};
use key_truncate::{Stub, truncate};
use std::alloc::{AllocError, Global};
use suffix_bits::{filled, hash_bits_of, real_bits_of, shortest_bytes};

/// A filter that is its leaf list.
#[derive(Drop)]
pub struct PlainFilter {
    leaves: LeafList,
    hash_bits: u8,
    real_bits: u8,
    ghost hash_width: { hash_bits ≤ max_hash_bits },
    ghost real_width: { real_bits ≤ max_real_bits },
    ghost few: { length leaves < 2 ^ 32 },
    ghost each: { All (IsLeaf hash_bits real_bits) leaves },
}

impl RangeFilter for PlainFilter {
    ghost use Rattle.plain_filter_model.specs.Spelling.{plain_spelling};
    ghost use Rattle.plain_filter.specs.SpellingLaws.{one_list, told_of_any};

    ghost hash_bits = { λ f. f.hash_bits };

    ghost real_bits = { λ f. f.real_bits };

    ghost leaf_list = { λ f. f.leaves };

    ghost spelling = { plain_spelling };

    ghost first_fault = { λ _. record { place = 0; rule = 1 } };

    ghost built_cutoff = { λ _ _. 0 };

    ghost cutoff = { λ _. 0 };

    fn build(alloc: Global, keys: &KeyList, settings: Settings) -> Result<Self, AllocError> {
        let leaves = leaves_of_keys(alloc, keys, settings)?;
        Ok(PlainFilter {
            leaves,
            hash_bits: settings.hash_bits,
            real_bits: settings.real_bits,
        })
    }

    fn may_hold(&self, key: &[u8]) -> bool {
        any_fits(&self.leaves, key, self.hash_bits, self.real_bits)
    }

    fn may_hold_range(&self, lo: &[u8], hi: &[u8]) -> bool {
        any_meets(&self.leaves, lo, hi, self.hash_bits, self.real_bits)
    }

    fn seek(&self, lo: &[u8]) -> Option<u32> {
        first_from(&self.leaves, lo, self.real_bits)
    }

    fn tally(&self, lo: &[u8], hi: &[u8]) -> u32 {
        count_meeting(&self.leaves, lo, hi, self.hash_bits, self.real_bits)
    }

    fn leaves(&self) -> u32 {
        self.leaves.len() as u32
    }

    fn widths(&self) -> (u8, u8) {
        (self.hash_bits, self.real_bits)
    }

    fn least_of(&self, n: u32, out: &mut Vec<u8>) -> Result<(), AllocError> {
        let least = least_string(
            *out.allocator(),
            self.leaves.get(n as usize),
            self.real_bits,
        )?;
        out.extend_from_slice(&least)
    }

    fn first_difference(&self, _alloc: Global, other: &Self) -> Result<Option<u32>, AllocError> {
        Ok(first_difference(&self.leaves, &other.leaves))
    }

    fn encode(&self, out: &mut Vec<u8>) -> Result<(), AllocError> {
        let bytes = spelled(
            *out.allocator(),
            &self.leaves,
            self.hash_bits,
            self.real_bits,
        )?;
        out.extend_from_slice(&bytes)
    }

    fn decode(alloc: Global, bytes: &[u8]) -> Result<Self, DecodeError> {
        match read(alloc, bytes)? {
            Some(filter) => Ok(filter),
            None => Err(DecodeError::Fault(FilterFault { place: 0, rule: 1 })),
        }
    }

    ghost spells_one = { one_list };

    ghost decided = { told_of_any };
}

// The leaves of a list of keys.
fn leaves_of_keys(alloc: Global, keys: &KeyList, settings: Settings) -> Result<LeafList, AllocError>
    requires keys { IsKeyList keys.now }
    requires settings { InRange settings }
    ensures { IfOk result (λ leaves. leaves ≡ leaves_of settings.hash_bits settings.real_bits keys.now) }
{
    let stubs = truncate(alloc, keys)?;
    let mut leaves = LeafList::with_capacity(alloc, keys.len())?;
    for i in 0..keys.len() {
        leaves.push(leaf_after(alloc, keys.get(i), stubs[i], settings)?)?;
    }
    Ok(leaves)
}

// The least string that fits the leaf.
fn least_string(alloc: Global, leaf: &Leaf, real_bits: u8) -> Result<Vec<u8>, AllocError>
    requires width { real_bits ≤ max_real_bits }
    requires real { leaf.now.real < 2 ^ real_bits }
    ensures { IfOk result (λ least. least.items ≡ begins real_bits (seen leaf.now)) }
{
    let mut least = Vec::from_slice(alloc, leaf.stub.as_slice())?;
    if !leaf.ends {
        let (tail, len) = shortest_bytes(filled(leaf.real, real_bits));
        least.extend_from_slice(&tail[..len])?;
    }
    Ok(least)
}

// The filter that the bytes spell, or none where they spell none.
fn read(alloc: Global, bytes: &[u8]) -> Result<Option<PlainFilter>, AllocError>
    ensures some { IfOk result (λ read. IfSome read (λ f. IsSpelling plain_spelling f.hash_bits f.real_bits 0 f.leaves bytes.now)) }
    ensures none { IfOk result (λ read. IfNone read (IsNoSpelling plain_spelling bytes.now)) }
{
    if bytes.len() < 10
        || !begins_with(bytes, &MAGIC)
        || bytes[4] > MAX_HASH_BITS
        || bytes[5] > MAX_REAL_BITS
    {
        return Ok(None);
    }
    let (hash_bits, real_bits) = (bytes[4], bytes[5]);
    let count = get_u32(bytes, 6);
    let Some(leaves) = read_leaves(alloc, &bytes[10..], count)? else {
        return Ok(None);
    };
    if !is_valid(&leaves, hash_bits, real_bits) {
        return Ok(None);
    }
    Ok(Some(PlainFilter {
        leaves,
        hash_bits,
        real_bits,
    }))
}

// The leaf of a key with this stub.
fn leaf_after(alloc: Global, key: &[u8], stub: Stub, settings: Settings) -> Result<Leaf, AllocError>
    requires len { stub.len ≤ length key.now }
    requires settings { InRange settings }
    ensures { IfOk result (λ leaf. seen leaf ≡ record {
      stub = take stub.len key.now;
      ends = stub.ends;
      hash = hash_of settings.hash_bits key.now;
      real = cond stub.ends 0 (bits settings.real_bits (drop stub.len key.now));
    }) }
{
    let len = usize::from(stub.len);
    let bytes = Vec::from_slice(alloc, &key[..len])?;
    Ok(Leaf {
        stub: bytes,
        ends: stub.ends,
        hash: hash_bits_of(key, settings.hash_bits),
        real: if stub.ends {
            0
        } else {
            real_bits_of(key, len, settings.real_bits)
        },
    })
}
