//! How many pages the blocks of a table take, and how many bytes its index.
ghost use Rattle.std.specs.Prelude.{◌≡◌, ◌<◌, ◌^◌, IfOk};
ghost use Rattle.block_model.specs.Block.{AreEntries};
ghost use Rattle.block_model.specs.Pages.{data_pages, index_length};

use crate::bytes::{first_key, last_key};
use crate::pages::cut;
use crate::spelled::block_length;
use block_model::pages_for;
use entry_list::Entry;
use std::alloc::{AllocError, Global};

/// The pages that the blocks of a table take.
pub fn data_pages(alloc: Global, entries: &[Entry]) -> Result<u64, AllocError>
    requires { AreEntries entries.now }
    ensures pages { IfOk result (λ pages. pages ≡ data_pages entries.now) }
    ensures small { IfOk result (λ pages. pages < 2 ^ 60) }
{
    let blocks = cut(alloc, entries)?;
    let mut pages = 0;
    for block in blocks.as_slice() {
        pages += pages_for(block_length(block.as_slice()));
    }
    Ok(pages)
}

/// The bytes that the index of a table takes, without padding.
pub fn index_length(alloc: Global, entries: &[Entry]) -> Result<u64, AllocError>
    requires { AreEntries entries.now }
    ensures length { IfOk result (λ bytes. bytes ≡ index_length entries.now) }
    ensures small { IfOk result (λ bytes. bytes < 2 ^ 60) }
{
    let blocks = cut(alloc, entries)?;
    let mut bytes = 10 + first_key(entries).len() as u64;
    for block in blocks.as_slice() {
        bytes += 14 + last_key(block.as_slice()).len() as u64;
    }
    Ok(bytes)
}
