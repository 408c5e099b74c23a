//! Keys, the levels of their trie, and how many of these are dense.
ghost use Rattle.std.specs.Prelude.{◌≡◌, ◌≤◌, cond, length, take, drop, IfOk};
ghost use Rattle.filter_api.specs.Seen.{seen};
ghost use Rattle.filter_model.specs.Keys.{IsKeyList};
ghost use Rattle.filter_model.specs.Leaves.{hash_bits_of as hash_of, leaves_of};
ghost use Rattle.filter_model.specs.Strings.{bits};

use filter_api::{Leaf, LeafList};
use filter_model::are_keys;
use key_base::KeyList;
use key_truncate::{Stub, truncate};
use std::alloc::{AllocError, Global};
use std::process::Abort;
use std::test::Fail;
use suffix_bits::{hash_bits_of, real_bits_of};
use trie_levels::{Levels, cutoff, plan};

fn leaf_after(alloc: Global, key: &[u8], stub: Stub) -> Result<Leaf, AllocError>
    requires { stub.len ≤ length key.now }
    ensures { IfOk result (λ leaf. seen leaf ≡ record {
      stub = take stub.len key.now;
      ends = stub.ends;
      hash = hash_of 0 key.now;
      real = cond stub.ends 0 (bits 0 (drop stub.len key.now));
    }) }
{
    let len = usize::from(stub.len);
    let bytes = Vec::from_slice(alloc, &key[..len])?;
    Ok(Leaf {
        stub: bytes,
        ends: stub.ends,
        hash: hash_bits_of(key, 0),
        real: if stub.ends {
            0
        } else {
            real_bits_of(key, len, 0)
        },
    })
}

fn leaves_of_keys(alloc: Global, keys: &KeyList) -> Result<LeafList, AllocError>
    requires { IsKeyList keys.now }
    ensures { IfOk result (λ leaves. leaves ≡ leaves_of 0 0 keys.now) }
{
    let stubs = truncate(alloc, keys)?;
    let mut leaves = LeafList::with_capacity(alloc, keys.len())?;
    for i in 0..keys.len() {
        leaves.push(leaf_after(alloc, keys.get(i), stubs[i])?)?;
    }
    Ok(leaves)
}

fn plan_of_keys(alloc: Global, keys: &KeyList) -> Result<Levels, AllocError>
    requires { IsKeyList keys.now }
{
    let leaves = leaves_of_keys(alloc, keys)?;
    plan(alloc, &leaves)
}

fn levels_of(rt: &impl Abort, alloc: Global, keys: &KeyList) -> Result<Levels, AllocError> {
    assert!(rt; are_keys(keys));
    plan_of_keys(alloc, keys)
}

fn are_counts(levels: &Levels, counts: &[(u64, u64)]) -> bool {
    let height = levels.height();
    usize::from(height) == counts.len()
        && (0..height).all(|level| {
            (levels.nodes(level), levels.labels(level)) == counts[usize::from(level)]
        })
}

#[test]
fn levels_of_keys(rt: HostRuntime) -> Result<(), Fail> {
    let examples: [(&[&[u8]], &[(u64, u64)]); 5] = [
        (
            &[b"far", b"fast", b"s", b"top", b"toy"],
            &[(1, 3), (2, 2), (2, 4)],
        ),
        (&[b"a", b"ab"], &[(1, 1), (1, 2)]),
        (
            &[b"\x62\xff\xff\x78", b"\x62\xff\xff\x79"],
            &[(1, 1), (1, 1), (1, 1), (1, 2)],
        ),
        (&[b"\x61", b"\x61\xff"], &[(1, 1), (1, 2)]),
        (&[b"zebra"], &[(1, 1)]),
    ];
    for (words, counts) in examples {
        let mut keys = KeyList::new(rt.alloc());
        for word in words {
            keys.push(word)?;
        }
        let levels = levels_of(&rt, rt.alloc(), &keys)?;
        assert!(rt; are_counts(&levels, counts));
    }
    Ok(())
}

/// The keys of one byte below `count`.
pub(crate) fn byte_keys(alloc: Global, count: u16) -> Result<KeyList, AllocError>
    requires { count ≤ 256 }
{
    let mut keys = KeyList::new(alloc);
    for byte in 0..count {
        keys.push(&[byte as u8])?;
    }
    Ok(keys)
}

/// The keys of two bytes below `count`.
pub(crate) fn pair_keys(alloc: Global, count: u16) -> Result<KeyList, AllocError>
    requires { count ≤ 256 }
{
    let mut keys = KeyList::new(alloc);
    for first in 0..count {
        for second in 0..count {
            keys.push(&[first as u8, second as u8])?;
        }
    }
    Ok(keys)
}

#[test]
fn all_keys_of_one_byte(rt: HostRuntime) -> Result<(), Fail> {
    let levels = levels_of(&rt, rt.alloc(), &byte_keys(rt.alloc(), 256)?)?;
    assert!(rt; are_counts(&levels, &[(1, 256)]));
    assert!(rt; cutoff(&levels, 64) == 0);
    assert!(rt; cutoff(&levels, 0) == 1);
    Ok(())
}

#[test]
fn all_keys_of_two_bytes(rt: HostRuntime) -> Result<(), Fail> {
    let levels = levels_of(&rt, rt.alloc(), &pair_keys(rt.alloc(), 256)?)?;
    assert!(rt; are_counts(&levels, &[(1, 256), (256, 65_536)]));
    assert!(rt; cutoff(&levels, 64) == 1);
    Ok(())
}
