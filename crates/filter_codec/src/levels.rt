//! Rule 8: the counts.
ghost use Rattle.std.specs.Prelude.{◌≡◌, ◌≤◌, ◌<◌, ◌+◌, ◌++◌, ◌==◌, ◌&&◌, false, length, MatchOption, None, Some, ℕ};
ghost use Rattle.std.specs.Option.{option_map};
ghost use Rattle.byte_fields.specs.Faults.{fault as fault_at};
ghost use Rattle.filter_codec.specs.Judging.{seen};
ghost use Rattle.filter_codec.specs.Tree.{IsNextLevel, Tree, counts_rule, louds_rule};
ghost use Rattle.filter_image_model.specs.Levels.{are_levels, nodes_above};
ghost use Rattle.filter_image_model.specs.Reading.{begins_clear as is_begun_clear};

use super::header::Header;
use super::tree::{Packed, set_bits};
use bit_words::Bits;
use filter_api::FilterFault;
use std::alloc::Allocator;

// The rule has one place.
fn fault() -> Option<FilterFault>
    ensures { option_map seen result ≡ Some (fault_at 8 8) }
{
    Some(FilterFault { place: 8, rule: 8 })
}

/// The opening bits: as many as there are nodes, and the first label has one.
pub(crate) fn louds_fault<A: Allocator>(louds: &Bits<A>, sparse: u64) -> Option<FilterFault>
    ensures { option_map seen result ≡ louds_rule louds.now sparse }
{
    if set_bits(louds) != sparse || begins_clear(louds) {
        return fault();
    }
    None
}

// Whether the first bit is 0.
fn begins_clear<A: Allocator>(louds: &Bits<A>) -> bool
    ensures { result ≡ is_begun_clear louds.now }
{
    if louds.len() == 0 {
        return false;
    }
    !louds.get(0)
}

/// The levels, what of them is dense, and the leaves.
pub(crate) fn counts_fault<A: Allocator>(header: &Header, packed: &Packed<A>) -> Option<FilterFault>
    requires { header.now.cutoff ≤ header.now.height }
    ensures { option_map seen result ≡ counts_rule header.now.height header.now.cutoff (length packed.now.dense) header.now.leaves (packed.now.dense ++ packed.now.sparse) }
{
    if has_levels(header, packed) && packed.leaf_count() == u64::from(header.leaves) {
        None
    } else {
        fault()
    }
}

// Whether the nodes are so many levels, those below the cutoff the dense ones.
fn has_levels<A: Allocator>(header: &Header, packed: &Packed<A>) -> bool
    requires { header.now.cutoff ≤ header.now.height }
    ensures { result ≡ (are_levels header.now.height 1 (packed.now.dense ++ packed.now.sparse) && (nodes_above header.now.cutoff 1 (packed.now.dense ++ packed.now.sparse) == length packed.now.dense)) }
{
    if !is_levels(packed, header.height) {
        return false;
    }
    match next_level(packed, header.cutoff) {
        Some((above, _)) => above == packed.dense_count(),
        None => false,
    }
}

// Whether the nodes are so many levels.
fn is_levels<A: Allocator>(packed: &Packed<A>, height: u16) -> bool
    ensures { result ≡ are_levels height 1 (packed.now.dense ++ packed.now.sparse) }
{
    match next_level(packed, height) {
        Some((start, end)) => is_past(start, end, packed.node_count()),
        None => false,
    }
}

// Whether a level has no node, and none stands behind it.
fn is_past(start: u64, end: u64, count: u64) -> bool
    ensures { result ≡ ((end == start) && (start == count)) }
{
    end == start && start == count
}

// The nodes of the level behind the first so many, from the first one to the one behind the last, where none of the
// levels before it is empty or has more nodes than there are.
fn next_level<A: Allocator>(packed: &Packed<A>, levels: u16) -> Option<(u64, u64)>
    ensures { MatchOption result ((k : ℕ) → are_levels (levels + k) 1 (packed.now.dense ++ packed.now.sparse) ≡ false) (λ r. IsNextLevel (packed.now.dense ++ packed.now.sparse) levels r.0 r.1) }
{
    let count = packed.node_count();
    let mut start = 0;
    let mut end = 1;
    for i in 0..levels {
        if end == start {
            return None;
        }
        if end > count {
            return None;
        }
        start = end;
        end = packed.children_before(start) + 1;
    }
    Some((start, end))
}
