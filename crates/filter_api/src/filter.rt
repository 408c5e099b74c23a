//! The interface of a filter.
ghost use Rattle.std.specs.Prelude.{◌≡◌, ◌<◌, ◌≤◌, false, ℕ, List, ◌++◌, length, slice_get, IfSome, IfOk, IfErr, OnOk, OnErr};
ghost use Rattle.byte_fields.specs.Faults.{Fault, fault as fault_at};
ghost use Rattle.filter_model.specs.Answers.{begins, first, first_difference as first_difference_of, point, ranged, tally as tally_of};
ghost use Rattle.filter_model.specs.Keys.{IsKeyList};
ghost use Rattle.filter_model.specs.Leaves.{Leaf as PlainLeaf, leaves_of};
ghost use Rattle.filter_model.specs.Strings.{is_before};
ghost use Rattle.filter_api.specs.Ranges.{InRange};
ghost use Rattle.filter_api.specs.Spellings.{IsDecided, IsNoSpelling, IsSpelling, MayStand, Spelling, SpellsOne};
ghost use Rattle.filter_api.specs.declared.errors.FilterFault.{FilterFault};

use crate::errors::DecodeError;
use crate::settings::Settings;
use key_base::KeyList;
use std::alloc::{AllocError, Global};

/// A filter: what stands for a leaf list and its two widths, and answers by them.
pub trait RangeFilter: Sized + Drop {
    // What a filter stands for.
    ghost hash_bits: { Self → ℕ };

    ghost real_bits: { Self → ℕ };

    ghost leaf_list: { Self → List PlainLeaf };

    // How this kind of filter is spelled, and the first fault of bytes that are no spelling.
    ghost spelling: { Spelling };

    ghost first_fault: { List ℕ → Fault };

    // The cutoff that `build` leaves for a ratio, and that of a filter's own spelling.
    ghost built_cutoff: { ℕ → List PlainLeaf → ℕ };

    ghost cutoff: { Self → ℕ };

    /// The filter of `keys`: one key or more, strictly rising, each of 1 to 1,024 bytes. Its leaves are a valid leaf list
    /// and its cutoff is at most their height, so its spelling is decoded again.
    fn build(alloc: Global, keys: &KeyList, settings: Settings) -> Result<Self, AllocError>
        requires keys { IsKeyList keys.now }
        requires settings { InRange settings }
        ensures leaves { IfOk result (λ f. leaf_list f ≡ leaves_of settings.hash_bits settings.real_bits keys.now) }
        ensures hash_width { IfOk result (λ f. hash_bits f ≡ settings.hash_bits) }
        ensures real_width { IfOk result (λ f. real_bits f ≡ settings.real_bits) }
        ensures cutoff { IfOk result (λ f. cutoff f ≡ built_cutoff settings.ratio (leaves_of settings.hash_bits settings.real_bits keys.now)) }
        ensures may_stand { IfOk result (λ f. MayStand (hash_bits f) (real_bits f) (cutoff f) (leaf_list f)) };

    /// Whether some leaf fits `key` with its hash bits. No stored key is denied; a key that is not stored may be admitted.
    fn may_hold(&self, key: &[u8]) -> bool
        ensures { result ≡ point (hash_bits self.now) (real_bits self.now) (leaf_list self.now) key.now };

    /// Whether some leaf may stand for a key from `lo` to `hi`. No range that holds a stored key is denied.
    fn may_hold_range(&self, lo: &[u8], hi: &[u8]) -> bool
        requires { is_before hi.now lo.now ≡ false }
        ensures { result ≡ ranged (real_bits self.now) (leaf_list self.now) lo.now hi.now };

    /// The number, in key order from 0, of the first leaf that is not past `lo`. `None` says that all leaves are past it:
    /// no stored key is `lo` or above it.
    fn seek(&self, lo: &[u8]) -> Option<u32>
        ensures { result ≡ first (real_bits self.now) (leaf_list self.now) lo.now };

    /// How many leaves may stand for a key from `lo` to `hi`: never below the true count, and at most two above it.
    fn tally(&self, lo: &[u8], hi: &[u8]) -> u32
        requires { is_before hi.now lo.now ≡ false }
        ensures { result ≡ tally_of (real_bits self.now) (leaf_list self.now) lo.now hi.now };

    /// How many leaves there are.
    fn leaves(&self) -> u32
        ensures { result ≡ length (leaf_list self.now) };

    /// How many hash bits and how many real bits each leaf has.
    fn widths(&self) -> (u8, u8)
        ensures hash { result.0 ≡ hash_bits self.now }
        ensures real { result.1 ≡ real_bits self.now };

    /// Appends the least string that fits leaf `n`. Without memory `out` stays as it was.
    fn least_of(&self, n: u32, out: &mut Vec<u8>) -> Result<(), AllocError>
        requires { n < length (leaf_list self.now) }
        ensures added { OnOk result (IfSome (slice_get (leaf_list self.now) n)
            (λ l. out.new.items ≡ out.old.items ++ begins (real_bits self.now) l)) }
        ensures unchanged { OnErr result (out.new.items ≡ out.old.items) };

    /// The least number, in key order from 0, at which the leaves of the two differ: by stub, end, hash bits or real bits,
    /// or because one has no leaf more. `None` exactly where their leaves are the same; widths and cutoffs are not
    /// looked at.
    fn first_difference(&self, alloc: Global, other: &Self) -> Result<Option<u32>, AllocError>
        ensures { IfOk result (λ n. n ≡ first_difference_of (leaf_list self.now) (leaf_list other.now)) };

    /// Appends the filter's spelling. Without memory `out` stays as it was.
    fn encode(&self, out: &mut Vec<u8>) -> Result<(), AllocError>
        ensures added { OnOk result (out.new.items
            ≡ out.old.items ++ spelling (hash_bits self.now) (real_bits self.now) (cutoff self.now) (leaf_list self.now)) }
        ensures unchanged { OnErr result (out.new.items ≡ out.old.items) };

    /// The filter that `bytes` spell. It fails exactly where they spell none, with their first fault, or where there is
    /// no memory. A fault's place is one of the bytes, or just behind the last where there are too few.
    fn decode(alloc: Global, bytes: &[u8]) -> Result<Self, DecodeError>
        ensures spelled { IfOk result (λ f. IsSpelling spelling (hash_bits f) (real_bits f) (cutoff f) (leaf_list f) bytes.now) }
        ensures fault { (f : FilterFault) → result ≡ Err (DecodeError.Fault f) → IsNoSpelling spelling bytes.now × (fault_at f.place f.rule ≡ first_fault bytes.now) }
        ensures place { (f : FilterFault) → result ≡ Err (DecodeError.Fault f) → f.place ≤ length bytes.now };

    // Bytes spell one list with its widths.
    ghost spells_one: { SpellsOne spelling };

    // Of any bytes it can be told whether they spell anything.
    ghost decided: { IsDecided spelling };
}
