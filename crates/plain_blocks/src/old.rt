//! The bytes of a block of the first format, whose keys are whole. No store writes it any more.
ghost use Rattle.std.specs.Prelude.{◌≡◌, ◌<◌, ◌++◌, ◌^◌, IfOk, OnOk};
ghost use Rattle.entry_model.specs.Entries.{body};
ghost use Rattle.block_model.specs.Block.{AreEntries};
ghost use Rattle.block_model.specs.OldBlock.{old_block_bytes, old_block_length};

use crate::bytes::{left_in_page, push_zeros};
use byte_fields::push_fields;
use entry_list::{Entry, body_length};
use std::alloc::{AllocError, Global};

const ENTRY_WIDTHS: [usize; 3] = [1, 2, 4];

const HEADER_WIDTHS: [usize; 3] = [4, 1, 3];

/// The bytes of such a block, in whole pages.
pub fn old_block_bytes(alloc: Global, block: &[Entry]) -> Result<Vec<u8>, AllocError>
    requires { AreEntries block.now }
    ensures { IfOk result (λ bytes. bytes.items ≡ old_block_bytes block.now) }
{
    let mut out = Vec::new(alloc);
    push_old_block(block, &mut out)?;
    Ok(out)
}

#[tactic(auto, unfolding(block_model::specs::OldBlock::old_block_bytes, block_model::specs::OldBlock::old_header_bytes, block_model::specs::Pages::padding))]
fn push_old_block(block: &[Entry], out: &mut Vec<u8>) -> Result<(), AllocError>
    requires { AreEntries block.now }
    ensures { OnOk result (out.new.items ≡ out.old.items ++ old_block_bytes block.now) }
{
    let used = old_block_length(block);
    push_fields(&HEADER_WIDTHS, &[used, block.len() as u64, 0], out)?;
    for entry in block {
        push_body(entry, out)?;
    }
    push_zeros(left_in_page(used), out)
}

// The bytes of such a block that are used: its header and its entries.
#[tactic(auto, using(block_model::proofs::Sizes::entry_at, crate::proofs::OldLoops::bodies_from, crate::proofs::OldLoops::block_bound), unfolding(block_model::specs::OldBlock::old_block_length))]
fn old_block_length(block: &[Entry]) -> u64
    requires { AreEntries block.now }
    ensures length { result ≡ old_block_length block.now }
    ensures small { result < 2 ^ 53 }
{
    let mut bytes = 8;
    for entry in block {
        let value = match entry.value() {
            Some(value) => value.len(),
            None => 0,
        };
        bytes += body_length(entry.key().len(), value) as u64;
    }
    bytes
}

/// Appends what such a block and a log have of an entry: its kind, the lengths of key and value, the key and the value.
pub fn push_body(entry: &Entry, out: &mut Vec<u8>) -> Result<(), AllocError>
    ensures { OnOk result (out.new.items ≡ out.old.items ++ body entry.now) }
{
    let key = entry.key();
    match entry.value() {
        Some(value) => {
            push_fields(
                &ENTRY_WIDTHS,
                &[1, key.len() as u64, value.len() as u64],
                out,
            )?;
            out.extend_from_slice(key)?;
            out.extend_from_slice(value)
        }
        None => {
            push_fields(&ENTRY_WIDTHS, &[2, key.len() as u64, 0], out)?;
            out.extend_from_slice(key)
        }
    }
}
