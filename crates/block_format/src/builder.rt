//! A block that is written entry by entry.
ghost use Rattle.std.specs.Prelude.{◌≡◌, ◌==◌, ◌||◌, ◌&&◌, nat_le, nat_lt, ◌≤◌, ◌<◌, ◌+◌, ◌*◌, ◌%◌, ◌/◌, ◌^◌, ◌++◌, [], ◌∷◌, length, take, vec_len, vec_capacity, IfOk, OnOk, OnErr, if◌then◌else◌};
ghost use Rattle.std.specs.Option.{option_map};
ghost use Rattle.key_base.specs.Limits.{max_key_bytes};
ghost use Rattle.entry_model.specs.Entries.{IsEntry, entry_of};
ghost use Rattle.block_model.specs.Formats.{begins_anew, places_length, Prefixed, wants_shared};
ghost use Rattle.block_model.specs.Pages.{max_block_entries, page_bytes};
ghost use Rattle.block_model.specs.Block.{block_bytes};
ghost use Rattle.block_model.specs.Bodies.{entry_bytes};
ghost use Rattle.block_model.specs.Pages.{block_pages};
ghost use Rattle.block_format.specs.Building.{listed_among, places_bytes, laid, takes};

use crate::appending::{append, append_zeros, kind, value_bytes};
use crate::head::PREFIXED_HEAD_BYTES;
use crate::old_block::HEADER_BYTES;
use block_model::pages_for;
use byte_fields::{put_u16, put_u32};
use key_base::{MAX_BLOCK_ENTRIES, PAGE_BYTES, RESTART_ENTRIES, shared};
use std::alloc::{AllocError, Global};
use std::marker::Model;

// The most listed entries of a block.
const MAX_LISTED: usize = 16;

// The bytes of the place of a listed entry.
const PLACE_BYTES: usize = 2;

// The byte of the format.
const FORMAT: u8 = 2;

/// The entries of the next block, whose keys will be spelled by what they have beyond the key before, seen as their list.
#[derive(Drop)]
pub struct BlockBuilder {
    bytes: Vec<u8>,
    count: u8,
    // the last key
    last: Vec<u8>,
    places: [u16; MAX_LISTED],
}

impl Model for BlockBuilder {
    ghost use Rattle.std.specs.Prelude.{◌≤◌, [], List, length};
    ghost use Rattle.key_base.specs.Limits.{max_key_bytes};
    ghost use Rattle.entry_model.specs.Entries.{Entry};
    ghost use Rattle.block_model.specs.Formats.{entries_by, Prefixed};
    ghost use Rattle.block_format.specs.Building.{SpellsEntries};

    ghost Value = { List Entry };

    ghost view = { λ b. entries_by Prefixed b.count [] b.bytes.items };

    ghost invariant = { λ b. (length b.last.items ≤ max_key_bytes) × SpellsEntries b.count b.bytes.items b.last.items b.places };
}

impl BlockBuilder {
    /// No entry, and no memory taken.
    pub fn new(alloc: Global) -> Self
        ensures { result ≡ [] }
    {
        BlockBuilder {
            bytes: Vec::new(alloc),
            count: 0,
            last: Vec::new(alloc),
            places: [0; MAX_LISTED],
        }
    }

    /// Whether it has no entry.
    pub fn is_empty(&self) -> bool
        ensures { result ≡ (length self.now == 0) }
    {
        self.count == 0
    }

    /// How many pages the block takes as it is, one where it has no entry.
    pub fn pages(&self) -> u64
        ensures { result ≡ block_pages self.now }
    {
        pages_for((entries_place(usize::from(self.count)) + self.bytes.len()) as u64)
    }

    /// Adds an entry after the others, or answers `false` where the block has no room for it. Without memory nothing is added.
    ///
    /// Its key is compared with the one before, unless the entry is to be listed, and is then copied.
    pub fn add(&mut self, key: &[u8], value: Option<&[u8]>) -> Result<bool, AllocError>
        requires { IsEntry (entry_of key.now (option_map (λ v. v.now) value)) }
        ensures room { IfOk result (λ added. added ≡ takes self.old (entry_of key.now (option_map (λ v. v.now) value.entry))) }
        ensures added { IfOk result (λ added. self.new ≡ (if added then self.old ++ entry_of key.now (option_map (λ v. v.now) value.entry) ∷ [] else self.old)) }
        ensures unchanged { OnErr result (self.new ≡ self.old) }
    {
        let at = self.bytes.len();
        let shared = wants_shared(self.count, self.last.as_slice(), key);
        let width = body_length(shared, key, value);
        if !fits(self.count, at, width) {
            return Ok(false);
        }
        self.last.reserve(key.len())?;
        push_entry(shared, key, value, &mut self.bytes)?;
        note_place(self.count, at, &mut self.places);
        keep_key(key, &mut self.last);
        self.count += 1;
        Ok(true)
    }

    /// Gives its entries up.
    pub fn clear(&mut self)
        ensures { self.new ≡ [] }
    {
        self.bytes.clear();
        self.count = 0;
        self.last.clear();
    }

    /// Appends the block in whole pages, its list before its entries, and begins the next one. Without memory all stays as it was.
    pub fn close(&mut self, out: &mut Vec<u8>) -> Result<(), AllocError>
        requires { 1 ≤ length self.old }
        ensures written { OnOk result (out.new.items ≡ out.old.items ++ block_bytes self.old) }
        ensures emptied { OnOk result (self.new ≡ []) }
        ensures unchanged { OnErr result (self.new ≡ self.old) }
        ensures out_unchanged { OnErr result (out.new.items ≡ out.old.items) }
    {
        let listed = listed_among(usize::from(self.count));
        push_block(
            self.count,
            &self.places[..listed],
            self.bytes.as_slice(),
            out,
        )?;
        self.clear();
        Ok(())
    }
}

// How many of so many entries are listed.
fn listed_among(count: usize) -> usize
    requires { count ≤ 256 }
    ensures is { result ≡ listed_among count }
    ensures few { result ≤ 16 }
{
    (count + (RESTART_ENTRIES - 1)) / RESTART_ENTRIES
}

// Where the first entry stands: after the header and the list.
fn entries_place(count: usize) -> usize
    requires { count ≤ 256 }
    ensures is { result ≡ 8 + places_length count }
    ensures few { result ≤ 40 }
{
    HEADER_BYTES + PLACE_BYTES * listed_among(count)
}

// How many bytes the key of entry `i` shares with the one before.
#[tactic(auto, using(crate::proofs::Builders::shared_own))]
fn wants_shared(i: u8, before: &[u8], key: &[u8]) -> usize
    ensures shared { result ≡ wants_shared i before.now key.now }
    ensures own { result ≤ length key.now }
{
    if usize::from(i) % RESTART_ENTRIES == 0 {
        0
    } else {
        shared(before, key)
    }
}

// The bytes of an entry that shares so many.
fn body_length(shared: usize, key: &[u8], value: Option<&[u8]>) -> usize
    requires entry { IsEntry (entry_of key.now (option_map (λ v. v.now) value)) }
    requires own { shared ≤ length key.now }
    ensures is { result ≡ length (entry_bytes shared (entry_of key.now (option_map (λ v. v.now) value.entry))) }
    ensures most { result ≤ 1049609 }
{
    PREFIXED_HEAD_BYTES + (key.len() - shared) + value_bytes(value).len()
}

// Whether an entry of so many bytes goes into a block with so many entries, which take so many bytes.
fn fits(count: u8, bytes: usize, width: usize) -> bool
    requires few { count ≤ max_block_entries }
    requires small { bytes + width < 2 ^ 32 }
    ensures { result ≡ (count == 0 || (nat_le (8 + places_length (count + 1) + bytes + width) page_bytes && nat_lt count max_block_entries)) }
{
    let count = usize::from(count);
    count == 0
        || (entries_place(count + 1) + bytes + width <= PAGE_BYTES && count < MAX_BLOCK_ENTRIES)
}

// Notes the place of entry `i`, counted from the first, where it is listed.
#[tactic(auto, using(crate::proofs::Builders::noted, crate::proofs::Builders::not_noted))]
fn note_place(i: u8, at: usize, places: &mut [u16])
    requires many { length places.old ≡ 16 }
    requires few { i < 255 }
    requires near { i % 16 ≡ 0 → at < 65536 }
    ensures listed { take (listed_among (i + 1)) places.new ≡ take (listed_among i) places.old ++ (if begins_anew i then at ∷ [] else []) }
    ensures many { length places.new ≡ 16 }
{
    let number = usize::from(i);
    if number % RESTART_ENTRIES == 0 {
        places[number / RESTART_ENTRIES] = at as u16;
    }
}

// Keeps a key in place of the one before, where there is room.
fn keep_key(key: &[u8], last: &mut Vec<u8>)
    requires room { length key.now ≤ vec_capacity last.old }
    ensures kept { last.new.items ≡ key.now }
{
    last.clear();
    append(key, last);
}

fn push_entry(
    shared: usize,
    key: &[u8],
    value: Option<&[u8]>,
    out: &mut Vec<u8>,
) -> Result<(), AllocError>
    requires entry { IsEntry (entry_of key.now (option_map (λ v. v.now) value)) }
    requires own { shared ≤ length key.now }
    ensures added { OnOk result (out.new.items ≡ out.old.items ++ entry_bytes shared (entry_of key.now (option_map (λ v. v.now) value.entry))) }
    ensures unchanged { OnErr result (out.new.items ≡ out.old.items) }
{
    let rest = &key[shared..];
    let mut head = [kind(value); PREFIXED_HEAD_BYTES];
    let value = value_bytes(value);
    put_u16(&mut head, 1, shared as u16);
    put_u16(&mut head, 3, rest.len() as u16);
    put_u32(&mut head, 5, value.len() as u32);
    out.reserve(PREFIXED_HEAD_BYTES + rest.len() + value.len())?;
    append(&head, out);
    append(rest, out);
    append(value, out);
    Ok(())
}

// Appends two bytes for each place, counted from another one, where there is room.
fn append_places(from: usize, places: &[u16], out: &mut Vec<u8>)
    requires near { from < 2 ^ 32 }
    requires room { vec_len out.old + 2 * length places.now ≤ vec_capacity out.old }
    ensures items { out.new.items ≡ out.old.items ++ places_bytes from places.now }
    ensures len { vec_len out.new ≡ vec_len out.old + 2 * length places.now }
    ensures capacity { vec_capacity out.old ≤ vec_capacity out.new }
{
    for i in 0..places.len() {
        let place = from + usize::from(places[i]);
        append(&[(place % 256) as u8, (place / 256 % 256) as u8], out);
    }
}

#[tactic(auto, unfolding(crate::specs::Building::laid, block_model::specs::Pages::pages_for))]
fn push_block(
    count: u8,
    places: &[u16],
    entries: &[u8],
    out: &mut Vec<u8>,
) -> Result<(), AllocError>
    requires small { length entries.now < 2 ^ 31 }
    requires listed { length places.now ≡ listed_among count }
    ensures added { OnOk result (out.new.items ≡ out.old.items ++ laid count entries.now places.now) }
    ensures unchanged { OnErr result (out.new.items ≡ out.old.items) }
{
    let from = entries_place(usize::from(count));
    let used = from + entries.len();
    let whole = PAGE_BYTES * pages_for(used as u64) as usize;
    let mut head = [0; HEADER_BYTES];
    put_u32(&mut head, 0, used as u32);
    head[4] = count;
    head[5] = FORMAT;
    out.reserve(whole)?;
    append(&head, out);
    append_places(from, places, out);
    append(entries, out);
    append_zeros(whole - used, out);
    Ok(())
}
