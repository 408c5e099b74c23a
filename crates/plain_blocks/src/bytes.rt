//! The bytes of a table's blocks and of its index.
ghost use Rattle.std.specs.Prelude.{◌≡◌, ◌-◌, ◌*◌, ◌^◌, ◌<◌, ◌≤◌, ◌++◌, [], ◌∷◌, IfOk, OnOk, length, map, replicate, vec_items};
ghost use Rattle.std.specs.List.{AllByRecursion};
ghost use Rattle.block_model.specs.Block.{AreEntries, data_bytes};
ghost use Rattle.block_model.specs.Index.{index_bytes, index_of, index_row_bytes, index_row_of};
ghost use Rattle.block_model.specs.Pages.{first_key, last_key, page_bytes, pages_for};

use crate::pages::cut;
use crate::spelled::{block_bytes, block_length, push_block};
use block_model::pages_for;
use byte_fields::{fnv1a, push_fields};
use entry_list::Entry;
use key_base::PAGE_BYTES;
use std::alloc::{AllocError, Global};

const INDEX_HEAD_WIDTHS: [usize; 3] = [4, 4, 2];

const INDEX_ROW_WIDTHS: [usize; 3] = [4, 8, 2];

// `SRFI`.
const INDEX_MAGIC: u64 = 0x49465253;

/// The bytes of a table's blocks, one after the other.
pub fn data_bytes(alloc: Global, entries: &[Entry]) -> Result<Vec<u8>, AllocError>
    requires { AreEntries entries.now }
    ensures { IfOk result (λ bytes. bytes.items ≡ data_bytes entries.now) }
{
    let blocks = cut(alloc, entries)?;
    let mut out = Vec::new(alloc);
    for block in blocks.as_slice() {
        push_block(block.as_slice(), &mut out)?;
    }
    Ok(out)
}

// How many bytes are left of the last page.
#[tactic(auto, unfolding(block_model::specs::Pages::pages_for))]
pub(crate) fn left_in_page(used: u64) -> u64
    requires { used < 2 ^ 53 }
    ensures { result ≡ page_bytes * pages_for used - used }
{
    PAGE_BYTES as u64 * pages_for(used) - used
}

pub(crate) fn push_zeros(count: u64, out: &mut Vec<u8>) -> Result<(), AllocError>
    ensures { OnOk result (out.new.items ≡ out.old.items ++ replicate count 0) }
{
    for _ in 0..count {
        out.push(0)?;
    }
    Ok(())
}

/// The bytes of a table's index.
pub fn index_bytes(alloc: Global, entries: &[Entry]) -> Result<Vec<u8>, AllocError>
    requires { AreEntries entries.now }
    ensures { IfOk result (λ bytes. bytes.items ≡ index_bytes (index_of entries.now)) }
{
    let blocks = cut(alloc, entries)?;
    let least = first_key(entries);
    let mut out = Vec::new(alloc);
    push_fields(
        &INDEX_HEAD_WIDTHS,
        &[INDEX_MAGIC, blocks.len() as u64, least.len() as u64],
        &mut out,
    )?;
    out.extend_from_slice(least)?;
    for block in blocks.as_slice() {
        push_index_row(alloc, block.as_slice(), &mut out)?;
    }
    Ok(out)
}

#[tactic(auto, unfolding(block_model::specs::Index::index_row_bytes, block_model::specs::Index::index_row_of, block_model::specs::Pages::block_pages))]
fn push_index_row(alloc: Global, block: &[Entry], out: &mut Vec<u8>) -> Result<(), AllocError>
    requires { AreEntries block.now }
    ensures { OnOk result (out.new.items ≡ out.old.items ++ index_row_bytes (index_row_of block.now)) }
{
    let sum = fnv1a(block_bytes(alloc, block)?.as_slice());
    let last = last_key(block);
    push_fields(
        &INDEX_ROW_WIDTHS,
        &[pages_for(block_length(block)), sum, last.len() as u64],
        out,
    )?;
    out.extend_from_slice(last)
}

/// The key of the first entry, no byte where there is none.
pub fn first_key(entries: &[Entry]) -> &[u8]
    ensures { result.now ≡ first_key entries.now }
{
    match entries.first() {
        Some(entry) => entry.key(),
        None => b"",
    }
}

/// The key of the last entry, no byte where there is none.
pub fn last_key(entries: &[Entry]) -> &[u8]
    ensures { result.now ≡ last_key entries.now }
{
    if entries.is_empty() {
        return b"";
    }
    entries[entries.len() - 1].key()
}
