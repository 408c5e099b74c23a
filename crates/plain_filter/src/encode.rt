//! The spelling of a leaf list.
ghost use Rattle.std.specs.Prelude.{◌≡◌, ◌<◌, ◌≤◌, ◌^◌, ◌++◌, length, IfOk, OnOk};
ghost use Rattle.key_base.specs.Limits.{max_key_bytes};
ghost use Rattle.std.specs.List.{All};
ghost use Rattle.filter_model.specs.Valid.{IsLeaf};
ghost use Rattle.filter_api.specs.Seen.{seen};
ghost use Rattle.plain_filter_model.specs.Spelling.{leaf_bytes, plain_spelling};

use filter_api::{Leaf, LeafList};
use std::alloc::{AllocError, Global};

/// The first four bytes of a spelling.
pub(crate) const MAGIC: [u8; 4] = *b"SURP";

pub(crate) fn spelled(
    alloc: Global,
    leaves: &LeafList,
    hash_bits: u8,
    real_bits: u8,
) -> Result<Vec<u8>, AllocError>
    requires few { length leaves.now < 2 ^ 32 }
    requires leaves { All (IsLeaf hash_bits real_bits) leaves.now }
    ensures { IfOk result (λ bytes. bytes.items ≡ plain_spelling hash_bits real_bits 0 leaves.now) }
{
    let mut bytes = Vec::new(alloc);
    bytes.extend_from_slice(&MAGIC)?;
    bytes.push(hash_bits)?;
    bytes.push(real_bits)?;
    bytes.extend_from_slice(&(leaves.len() as u32).to_le_bytes())?;
    for i in 0..leaves.len() {
        push_leaf(&mut bytes, leaves.get(i))?;
    }
    Ok(bytes)
}

fn push_leaf(bytes: &mut Vec<u8>, leaf: &Leaf) -> Result<(), AllocError>
    requires { length (seen leaf.now).stub ≤ max_key_bytes }
    ensures { OnOk result (bytes.new.items ≡ bytes.old.items ++ leaf_bytes (seen leaf.now)) }
{
    let stub = leaf.stub.as_slice();
    bytes.extend_from_slice(&(stub.len() as u16).to_le_bytes())?;
    bytes.extend_from_slice(stub)?;
    bytes.push(u8::from(leaf.ends))?;
    bytes.extend_from_slice(&leaf.hash.to_le_bytes())?;
    bytes.extend_from_slice(&leaf.real.to_le_bytes())
}
