//! The filter and what it answers, in memory of any allocator.
ghost use Rattle.std.specs.Prelude.{◌≡◌, ◌<◌, ◌≤◌, ◌+◌, ◌*◌, ◌++◌, length, slice_get, IfOk, IfSome, OnErr, OnOk};
ghost use Rattle.byte_fields.specs.Faults.{fault as fault_at};
ghost use Rattle.filter_api.specs.Spellings.{IsNoSpelling, IsSpelling, MayStand};
ghost use Rattle.filter_api.specs.declared.errors.FilterFault.{FilterFault};
ghost use Rattle.filter_model.specs.Answers.{begins, first, point, ranged, tally as tally_of};
ghost use Rattle.filter_model.specs.Image.{image};
ghost use Rattle.surf_filter.specs.Faults.{first_image_fault};

use crate::point::holds;
use filter_api::DecodeError;
use filter_codec::{decode, encode};
use filter_iter::{least_of, range, seek, tally};
use filter_trie::Trie;
use std::alloc::{AllocError, Allocator};
use std::marker::Model;

/// A filter that is a trie of its leaves.
#[derive(Drop)]
pub struct SurfFilter<A: Allocator> {
    trie: Trie<A>,
}

impl<A: Allocator> Model for SurfFilter<A> {
    ghost use Rattle.filter_api.specs.Spellings.{MayStand};
    ghost use Rattle.filter_model.specs.Leaves.{Filter};

    ghost Value = { Filter };

    ghost view = { λ f. f.trie };

    // a trie may be of leaves that stand alone; a filter's may not
    ghost invariant = { λ f. MayStand f.trie.hash_bits f.trie.real_bits f.trie.cutoff f.trie.leaves };
}

impl<A: Allocator> SurfFilter<A> {
    /// The filter that stands for the leaves of a trie, which are a list that may: none of their stubs is longer than needed.
    /// Takes no memory.
    pub fn of(trie: Trie<A>) -> SurfFilter<A>
        requires { MayStand trie.hash_bits trie.real_bits trie.cutoff trie.leaves }
        ensures { result ≡ trie }
    {
        SurfFilter { trie }
    }

    /// The trie, whose sections are those of the filter's image. Its leaves are a list for which a filter may stand.
    pub fn trie(&self) -> &Trie<A>
        ensures same { result.now ≡ self.now }
        ensures stands { MayStand self.now.hash_bits self.now.real_bits self.now.cutoff self.now.leaves }
    {
        &self.trie
    }

    /// Whether some leaf fits `key` with its hash bits.
    ///
    /// Looks at a node for each byte of the key that leads on, and at one suffix. Takes no memory.
    pub fn may_hold(&self, key: &[u8]) -> bool
        ensures { result ≡ point self.now.hash_bits self.now.real_bits self.now.leaves key.now }
    {
        holds(&self.trie, key)
    }

    /// Whether some leaf may stand for a key from `lo` to `hi`.
    pub fn may_hold_range(&self, lo: &[u8], hi: &[u8]) -> bool
        ensures { result ≡ ranged self.now.real_bits self.now.leaves lo.now hi.now }
    {
        range(&self.trie, lo, hi)
    }

    /// The number, in key order from 0, of the first leaf that is not past `lo`, `None` where all are.
    pub fn seek(&self, lo: &[u8]) -> Option<u32>
        ensures { result ≡ first self.now.real_bits self.now.leaves lo.now }
    {
        seek(&self.trie, lo)
    }

    /// How many leaves may stand for a key from `lo` to `hi`.
    pub fn tally(&self, lo: &[u8], hi: &[u8]) -> u32
        ensures { result ≡ tally_of self.now.real_bits self.now.leaves lo.now hi.now }
    {
        tally(&self.trie, lo, hi)
    }

    /// How many leaves there are.
    pub fn leaves(&self) -> u32
        ensures { result ≡ length self.now.leaves }
    {
        self.trie.leaves()
    }

    /// How many hash bits and how many real bits each leaf has.
    pub fn widths(&self) -> (u8, u8)
        ensures hash { result.0 ≡ self.now.hash_bits }
        ensures real { result.1 ≡ self.now.real_bits }
    {
        self.trie.suffixes().widths()
    }

    /// How many bytes the filter's image has: what [`encode`](SurfFilter::encode) appends. Takes no memory.
    pub fn image_bytes(&self) -> u64
        ensures { result ≡ length (image self.now.hash_bits self.now.real_bits self.now.cutoff self.now.leaves) }
    {
        self.trie.image_bytes()
    }

    /// The bits of memory that the filter takes: those of its sections in whole words, and what stands beside them
    /// ([`Trie::memory_bits`]).
    pub fn memory_bits(&self) -> u64
        ensures { 8 * length (image self.now.hash_bits self.now.real_bits self.now.cutoff self.now.leaves) ≤ result + 8 * 40 }
    {
        self.trie.memory_bits()
    }

    /// Appends the least string that fits leaf `n`. Takes the memory of its way of the allocator of `out`, where the trie is
    /// high, and gives it back. Without memory `out` stays as it was.
    pub fn least_of<B: Allocator>(&self, n: u32, out: &mut Vec<u8, B>) -> Result<(), AllocError>
        requires { n < length self.now.leaves }
        ensures added { OnOk result (IfSome (slice_get self.now.leaves n)
            (λ l. out.new.items ≡ out.old.items ++ begins self.now.real_bits l)) }
        ensures unchanged { OnErr result (out.new.items ≡ out.old.items) }
    {
        least_of(&self.trie, n, out)
    }

    /// Appends the filter's image. Without memory `out` stays as it was.
    pub fn encode<B: Allocator>(&self, out: &mut Vec<u8, B>) -> Result<(), AllocError>
        ensures added { OnOk result (out.new.items
            ≡ out.old.items ++ image self.now.hash_bits self.now.real_bits self.now.cutoff self.now.leaves) }
        ensures unchanged { OnErr result (out.new.items ≡ out.old.items) }
    {
        encode(&self.trie, out)
    }
}

impl<A: Allocator + Clone> SurfFilter<A> {
    /// The filter that `bytes` are the image of, in memory of `alloc`. It fails exactly where they are no image, with their
    /// first fault, or where there is no memory. A fault's place is one of the bytes, or just behind the last where there are
    /// too few.
    pub fn decode_in(alloc: A, bytes: &[u8]) -> Result<SurfFilter<A>, DecodeError>
        ensures spelled { IfOk result (λ f. IsSpelling image f.hash_bits f.real_bits f.cutoff f.leaves bytes.now) }
        ensures fault { (f : FilterFault) → result ≡ Err (DecodeError.Fault f) → IsNoSpelling image bytes.now × (fault_at f.place f.rule ≡ first_image_fault bytes.now) }
        ensures place { (f : FilterFault) → result ≡ Err (DecodeError.Fault f) → f.place ≤ length bytes.now }
    {
        match decode(alloc, bytes) {
            Ok(trie) => Ok(SurfFilter { trie }),
            Err(error) => Err(error),
        }
    }
}
