//! The least string that fits a leaf.
ghost use Rattle.std.specs.Prelude.{◌≡◌, ◌+◌, ◌++◌, ◌<◌, ◌≤◌, length, slice_get, take, IfOk, IfSome, OnErr, OnOk};
ghost use Rattle.std.specs.List.{splice};
ghost use Rattle.filter_api.specs.Spellings.{MayBeTrie};
ghost use Rattle.filter_iter.specs.CursorPath.{IsWayTo};
ghost use Rattle.filter_model.specs.Answers.{begins};
ghost use Rattle.key_base.specs.Limits.{max_key_bytes};

use super::numbers::find;
use super::parts::Pass;
use super::stubs::{new_way, write_stub};
use filter_trie::Trie;
use key_base::MAX_KEY_BYTES;
use std::alloc::{AllocError, Allocator};
use suffix_bits::{filled, shortest_bytes};

// The most bytes: those of a key, and four of real bits.
const MOST_BYTES: usize = MAX_KEY_BYTES + 4;

// Puts bytes behind the first `count` ones.
fn put_behind(bytes: &mut [u8], count: usize, tail: &[u8])
    requires { count + length tail.now ≤ length bytes.old }
    ensures { bytes.new ≡ splice bytes.old count (count + length tail.now) tail.now }
{
    bytes[count..count + tail.len()].copy_from_slice(tail);
}

// Writes the least string that fits leaf `_n`, whose slot and way these are, at the start of `least`, and gives how many bytes
// it has.
fn write_least<A: Allocator>(
    trie: &Trie<A>,
    _n: u32,
    slot: u64,
    way: &[Pass],
    least: &mut [u8],
) -> usize
    requires stands { MayBeTrie trie.now.hash_bits trie.now.real_bits trie.now.cutoff trie.now.leaves }
    requires way { IsWayTo trie.now.leaves _n slot way.now }
    requires room { max_key_bytes + 4 ≤ length least.old }
    ensures least { IfSome (slice_get trie.now.leaves _n) (λ l. take result least.new ≡ begins trie.now.real_bits l) }
    ensures within { result ≤ max_key_bytes + 4 }
{
    let count = write_stub(way, least);
    // Where the leaf ends, it has no real bits, and nothing follows its stub.
    let real = trie.suffix(slot).1;
    let (tail, len) = shortest_bytes(filled(real, trie.suffixes().widths().1));
    put_behind(least, count, &tail[..len]);
    count + len
}

/// Appends the least string that fits leaf `n`, whose slot and way these are. Without memory `out` stays as it was.
pub(crate) fn push_least<A: Allocator, B: Allocator>(
    trie: &Trie<A>,
    n: u32,
    slot: u64,
    way: &[Pass],
    out: &mut Vec<u8, B>,
) -> Result<(), AllocError>
    requires stands { MayBeTrie trie.now.hash_bits trie.now.real_bits trie.now.cutoff trie.now.leaves }
    requires way { IsWayTo trie.now.leaves n slot way.now }
    ensures added { OnOk result (IfSome (slice_get trie.now.leaves n) (λ l. out.new.items ≡ out.old.items ++ begins trie.now.real_bits l)) }
    ensures unchanged { OnErr result (out.new.items ≡ out.old.items) }
{
    let mut least = [0; MOST_BYTES];
    let count = write_least(trie, n, slot, way, &mut least);
    out.extend_from_slice(&least[..count])
}

// Writes the least string that fits leaf `n` at the start of `least`, and gives how many bytes it has. Takes the memory of the
// way, which it gives back.
fn find_least<A: Allocator, B: Allocator>(
    trie: &Trie<A>,
    n: u32,
    alloc: &B,
    least: &mut [u8],
) -> Result<usize, AllocError>
    requires within { n < length trie.now.leaves }
    requires room { max_key_bytes + 4 ≤ length least.old }
    ensures least { IfOk result (λ count. IfSome (slice_get trie.now.leaves n) (λ l. take count least.new ≡ begins trie.now.real_bits l)) }
    ensures within { IfOk result (λ count. count ≤ max_key_bytes + 4) }
{
    let mut way = new_way(alloc, usize::from(trie.height()))?;
    let slot = find(trie, n, &mut way);
    Ok(write_least(trie, n, slot, way.as_slice(), least))
}

/// Appends the least string that fits leaf `n`, in key order from 0: its stub, and its real bits in bytes without the
/// zero bytes at the end.
///
/// Goes down from the root by counts, nine at most at a node of several branches, each of which goes down to the last level
/// or to the one whose sums the trie keeps. Takes memory of the allocator of `out`, for the way where the trie is high, and
/// gives it back. Without memory `out` stays as it was.
pub fn least_of<A: Allocator, B: Allocator>(
    trie: &Trie<A>,
    n: u32,
    out: &mut Vec<u8, B>,
) -> Result<(), AllocError>
    requires { n < length trie.now.leaves }
    ensures added { OnOk result (IfSome (slice_get trie.now.leaves n) (λ l. out.new.items ≡ out.old.items ++ begins trie.now.real_bits l)) }
    ensures unchanged { OnErr result (out.new.items ≡ out.old.items) }
{
    let mut least = [0; MOST_BYTES];
    let count = find_least(trie, n, out.allocator(), &mut least)?;
    out.extend_from_slice(&least[..count])
}
