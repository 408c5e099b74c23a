//! The bytes of a block as it is written: its entries share the beginnings of keys.
ghost use Rattle.std.specs.Prelude.{◌≡◌, ◌≤◌, ◌<◌, ◌+◌, ◌^◌, ◌++◌, [], IfOk, OnOk, length, if◌then◌else◌};
ghost use Rattle.byte_fields.specs.Endian.{little_bytes};
ghost use Rattle.entry_model.specs.Entries.{IsEntry};
ghost use Rattle.block_model.specs.Block.{AreEntries, block_bytes, list_bytes};
ghost use Rattle.block_model.specs.Bodies.{entries_bytes, entry_bytes};
ghost use Rattle.block_model.specs.Formats.{begins_anew, places_length, wants_shared};
ghost use Rattle.block_model.specs.Pages.{block_length};

use crate::bytes::{left_in_page, push_zeros};
use byte_fields::{push_fields, push_number};
use entry_list::Entry;
use key_base::{RESTART_ENTRIES, shared};
use std::alloc::{AllocError, Global};

const HEADER_WIDTHS: [usize; 3] = [4, 1, 3];

const ENTRY_WIDTHS: [usize; 4] = [1, 2, 2, 4];

// The bytes of an entry before its key: its kind, how much it shares, and the lengths of its rest and of its value.
const HEAD_BYTES: u64 = 9;

// The number of the format.
const FORMAT: u64 = 2;

/// The bytes of a block, in whole pages.
pub fn block_bytes(alloc: Global, block: &[Entry]) -> Result<Vec<u8>, AllocError>
    requires { AreEntries block.now }
    ensures { IfOk result (λ bytes. bytes.items ≡ block_bytes block.now) }
{
    let mut out = Vec::new(alloc);
    push_block(block, &mut out)?;
    Ok(out)
}

/// Appends the bytes of a block.
#[tactic(auto, unfolding(block_model::specs::Block::block_bytes, block_model::specs::Block::header_bytes, block_model::specs::Pages::padding))]
pub(crate) fn push_block(block: &[Entry], out: &mut Vec<u8>) -> Result<(), AllocError>
    requires { AreEntries block.now }
    ensures { OnOk result (out.new.items ≡ out.old.items ++ block_bytes block.now) }
{
    let used = block_length(block);
    push_fields(&HEADER_WIDTHS, &[used, block.len() as u64, FORMAT], out)?;
    push_list(block, out)?;
    push_entries(block, out)?;
    push_zeros(left_in_page(used), out)
}

/// The bytes of a block that are used: its header, its list and its entries.
#[tactic(auto, using(crate::proofs::Loops::next_bytes, crate::proofs::Loops::none_left, block_model::proofs::Sizes::entry_at), unfolding(block_model::specs::Pages::block_length))]
pub fn block_length(block: &[Entry]) -> u64
    requires { AreEntries block.now }
    ensures length { result ≡ block_length block.now }
    ensures small { result < 2 ^ 53 }
{
    let mut bytes = entries_place(block.len());
    let mut before: &[u8] = b"";
    for i in 0..block.len() {
        let key = block[i].key();
        bytes += body_length(wants_shared(i, before, key), &block[i]);
        before = key;
    }
    bytes
}

// Where the first entry stands: after the header and the list.
fn entries_place(count: usize) -> u64
    requires { count < 2 ^ 32 }
    ensures { result ≡ 8 + places_length count }
{
    8 + 2 * ((count as u64 + 15) / RESTART_ENTRIES as u64)
}

// How many bytes the key of entry `i` shares with the one before.
#[tactic(auto, using(crate::proofs::Loops::shared_own))]
fn wants_shared(i: usize, before: &[u8], key: &[u8]) -> usize
    ensures shared { result ≡ wants_shared i before.now key.now }
    ensures own { result ≤ length key.now }
{
    if i % RESTART_ENTRIES == 0 {
        0
    } else {
        shared(before, key)
    }
}

// The bytes of an entry that shares so many.
fn body_length(shared: usize, entry: &Entry) -> u64
    requires entry { IsEntry entry.now }
    requires own { shared ≤ length entry.now.key }
    ensures length { result ≡ length (entry_bytes shared entry.now) }
    ensures small { result ≤ 1049609 }
{
    let value = match entry.value() {
        Some(bytes) => bytes.len() as u64,
        None => 0,
    };
    HEAD_BYTES + (entry.key().len() - shared) as u64 + value
}

// Two bytes for the place of entry `i` where it is listed.
#[tactic(auto, using(crate::proofs::Loops::no_more))]
fn push_place(i: usize, place: u64, out: &mut Vec<u8>) -> Result<(), AllocError>
    ensures { OnOk result (out.new.items ≡ out.old.items ++ (if begins_anew i then little_bytes 2 place else [])) }
{
    if i % RESTART_ENTRIES == 0 {
        push_number(place, 2, out)
    } else {
        Ok(())
    }
}

// Two bytes for the place of each listed entry.
#[tactic(auto, using(block_model::proofs::Sizes::entry_at))]
fn push_list(block: &[Entry], out: &mut Vec<u8>) -> Result<(), AllocError>
    requires { AreEntries block.now }
    ensures { OnOk result (out.new.items ≡ out.old.items ++ list_bytes block.now) }
{
    let mut place = entries_place(block.len());
    let mut before: &[u8] = b"";
    for i in 0..block.len() {
        push_place(i, place, out)?;
        let key = block[i].key();
        place += body_length(wants_shared(i, before, key), &block[i]);
        before = key;
    }
    Ok(())
}

fn push_entries(block: &[Entry], out: &mut Vec<u8>) -> Result<(), AllocError>
    ensures { OnOk result (out.new.items ≡ out.old.items ++ entries_bytes 0 [] block.now) }
{
    let mut before: &[u8] = b"";
    for i in 0..block.len() {
        let key = block[i].key();
        push_entry(wants_shared(i, before, key), &block[i], out)?;
        before = key;
    }
    Ok(())
}

fn push_entry(shared: usize, entry: &Entry, out: &mut Vec<u8>) -> Result<(), AllocError>
    requires { shared ≤ length entry.now.key }
    ensures { OnOk result (out.new.items ≡ out.old.items ++ entry_bytes shared entry.now) }
{
    let rest = &entry.key()[shared..];
    let (kind, value): (u64, &[u8]) = match entry.value() {
        Some(value) => (1, value),
        None => (2, b""),
    };
    push_fields(
        &ENTRY_WIDTHS,
        &[kind, shared as u64, rest.len() as u64, value.len() as u64],
        out,
    )?;
    out.extend_from_slice(rest)?;
    out.extend_from_slice(value)
}
