//! Places that go out of the order, since a range covers the keys of their entries.
ghost use Rattle.std.specs.Prelude.{◌≡◌, ◌≤◌, vec_len, vec_capacity};
ghost use Rattle.mem_table.specs.Chunks.{flat, NoneEmpty, entry_at, places_outside};
ghost use Rattle.range_model.specs.Ranges.{is_covered, range_of};

use crate::chunks::Chunk;
use crate::search::compare_at;
use entry_list::Entry;
use std::cmp::Ordering;

// Whether the key of the entry at a place lies from a key on, and below another one.
fn is_within(entries: &[Entry], place: u32, lo: &[u8], hi: &[u8]) -> bool
    ensures { result ≡ is_covered (range_of lo.now hi.now) (entry_at entries.now place).key }
{
    compare_at(entries, place, lo) != Ordering::Less
        && compare_at(entries, place, hi) == Ordering::Less
}

// The places of a chunk whose keys lie outside.
fn outside(entries: &[Entry], chunk: &Chunk, lo: &[u8], hi: &[u8]) -> Chunk
    ensures { result.items ≡ places_outside entries.now (range_of lo.now hi.now) chunk.now.items }
{
    let mut left = Chunk::new();
    for place in chunk.as_slice() {
        if !is_within(entries, *place, lo, hi) {
            left.push(*place);
        }
    }
    left
}

/// Takes out the places whose keys lie from a key on, and below another one; in one pass, and with no memory.
pub(crate) fn take_out(entries: &[Entry], chunks: &mut Vec<Chunk>, lo: &[u8], hi: &[u8])
    ensures places { flat chunks.new.items ≡ places_outside entries.now (range_of lo.now hi.now) (flat chunks.old.items) }
    ensures some { NoneEmpty chunks.new.items }
    ensures len { vec_len chunks.new ≤ vec_len chunks.old }
    ensures capacity { vec_capacity chunks.new ≡ vec_capacity chunks.old }
{
    let mut kept = 0;
    for i in 0..chunks.len() {
        let left = outside(entries, &chunks[i], lo, hi);
        if !left.is_empty() {
            chunks[kept] = left;
            kept += 1;
        }
    }
    chunks.truncate(kept);
}
