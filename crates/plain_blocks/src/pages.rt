//! Entries cut into blocks.
ghost use Rattle.std.specs.Prelude.{◌≡◌, ◌<◌, IfOk, OnOk, IsTrue, ◌↔◌, length, map, vec_items, ◌^◌};
ghost use Rattle.std.specs.List.{AllByRecursion};
ghost use Rattle.entry_model.specs.Entries.{IsEntry};
ghost use Rattle.block_model.specs.Block.{AreEntries};
ghost use Rattle.block_model.specs.Pages.{blocks_of, blocks_with, has_room, last_has_room};

use crate::spelled::block_length;
use entry_list::{Entry, copied, push_copy};
use key_base::{MAX_BLOCK_ENTRIES, PAGE_BYTES};
use std::alloc::{AllocError, Global};

/// Whether a table takes these entries: fewer than 2^32, each with a key and a value within the limits of an entry.
pub fn are_entries(entries: &[Entry]) -> bool
    ensures { IsTrue result ↔ AreEntries entries.now }
{
    for entry in entries {
        if !entry.is_sound() {
            return false;
        }
    }
    entries.len() < 1 << 32
}

/// The entries cut into blocks.
pub fn cut(alloc: Global, entries: &[Entry]) -> Result<Vec<Vec<Entry>>, AllocError>
    requires { AreEntries entries.now }
    ensures { IfOk result (λ blocks. map vec_items blocks.items ≡ blocks_of entries.now) }
{
    let mut blocks = Vec::new(alloc);
    for entry in entries {
        add(alloc, entry, &mut blocks)?;
    }
    Ok(blocks)
}

// Adds an entry to the last block where that has room, else begins a block with it.
fn add(alloc: Global, entry: &Entry, blocks: &mut Vec<Vec<Entry>>) -> Result<(), AllocError>
    requires entry { IsEntry entry.now }
    requires blocks { AllByRecursion AreEntries (map vec_items blocks.old.items) }
    ensures { OnOk result (map vec_items blocks.new.items ≡ blocks_with (map vec_items blocks.old.items) entry.now) }
{
    let has_room = last_has_room(alloc, blocks.as_slice(), entry)?;
    if has_room {
        let last = blocks.len() - 1;
        return push_copy(entry, &mut blocks[last]);
    }
    let mut block = Vec::new(alloc);
    push_copy(entry, &mut block)?;
    blocks.push(block)?;
    Ok(())
}

fn last_has_room(alloc: Global, blocks: &[Vec<Entry>], entry: &Entry) -> Result<bool, AllocError>
    requires entry { IsEntry entry.now }
    requires blocks { AllByRecursion AreEntries (map vec_items blocks.now) }
    ensures { IfOk result (λ room. room ≡ last_has_room (map vec_items blocks.now) entry.now) }
{
    if blocks.is_empty() {
        return Ok(false);
    }
    has_room(alloc, blocks[blocks.len() - 1].as_slice(), entry)
}

// Whether a block with one entry more is one of a page and of no more entries than a block may have.
#[tactic(auto, using(crate::proofs::Loops::with_one_more))]
fn has_room(alloc: Global, block: &[Entry], entry: &Entry) -> Result<bool, AllocError>
    requires block { AreEntries block.now }
    requires entry { IsEntry entry.now }
    ensures { IfOk result (λ room. room ≡ has_room block.now entry.now) }
{
    if block.len() >= MAX_BLOCK_ENTRIES {
        return Ok(false);
    }
    let mut more = copied(alloc, block)?;
    push_copy(entry, &mut more)?;
    Ok(block_length(more.as_slice()) <= PAGE_BYTES as u64)
}
