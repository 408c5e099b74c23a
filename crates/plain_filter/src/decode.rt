//! The leaf list that bytes spell.
ghost use Rattle.std.specs.Prelude.{◌≡◌, ◌+◌, ◌≤◌, length, drop, slice_index, IfOk};
ghost use Rattle.std.specs.Option.{option_map};
ghost use Rattle.filter_api.specs.Seen.{seen};
ghost use Rattle.plain_filter_model.specs.Reading.{after_leaf, leaf_in, leaf_list_in};

use byte_fields::{get_u16, get_u32};
use filter_api::{Leaf, LeafList};
use std::alloc::{AllocError, Global};

/// The `count` leaves that `bytes` spell, or none where they do not spell as many and nothing more.
pub(crate) fn read_leaves(
    alloc: Global,
    bytes: &[u8],
    count: u32,
) -> Result<Option<LeafList>, AllocError>
    ensures { IfOk result (λ leaves. leaves ≡ leaf_list_in count bytes.now) }
{
    let mut leaves = LeafList::new(alloc);
    let mut rest = bytes;
    for i in 0..count {
        match read_leaf(alloc, rest)? {
            None => return Ok(None),
            Some(leaf) => {
                rest = after(&leaf, rest);
                leaves.push(leaf)?;
            }
        }
    }
    Ok(if rest.is_empty() { Some(leaves) } else { None })
}

fn after<'a>(leaf: &Leaf, bytes: &'a [u8]) -> &'a [u8]
    requires { 11 + length (seen leaf.now).stub ≤ length bytes.now }
    ensures { result.now ≡ after_leaf (seen leaf.now) bytes.now }
{
    &bytes[11 + leaf.stub.len()..]
}

// The leaf with which `bytes` begin, or none where they begin with none.
fn read_leaf(alloc: Global, bytes: &[u8]) -> Result<Option<Leaf>, AllocError>
    ensures leaf { IfOk result (λ leaf. option_map seen leaf ≡ leaf_in bytes.now) }
{
    if bytes.len() < 11 {
        return Ok(None);
    }
    let len = usize::from(get_u16(bytes, 0));
    if bytes.len() < 11 + len || bytes[2 + len] > 1 {
        return Ok(None);
    }
    let stub = Vec::from_slice(alloc, &bytes[2..2 + len])?;
    Ok(Some(Leaf {
        stub,
        ends: bytes[2 + len] == 1,
        hash: get_u32(bytes, 3 + len),
        real: get_u32(bytes, 7 + len),
    }))
}
