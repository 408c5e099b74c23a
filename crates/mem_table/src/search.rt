//! Where a key's place is in the order.
ghost use Rattle.std.specs.Prelude.{◌≡◌, IfOk, IfErr, length, drop};
ghost use Rattle.std.specs.List.Sorted.{IsBinarySearchResult, IsSearchInRange};
ghost use Rattle.map_model.specs.SortedMap.{byte_order};
ghost use Rattle.mem_table.specs.Chunks.{flat, flat_at, IsPlace, IsGap, Orders, entry_at, first_in, in_order};
ghost use Rattle.mem_table.specs.Table.{KeyStandsAt, BelongsAt};
ghost use Rattle.entry_model.specs.Newest.{entries_from};

use crate::chunks::{Chunk, Spot};
use entry_list::Entry;
use std::cmp::Ordering;

/// How the key of the entry at a place stands to this one.
pub(crate) fn compare_at(entries: &[Entry], place: u32, key: &[u8]) -> Ordering
    ensures { result ≡ byte_order (entry_at entries.now place).key key.now }
{
    match entries.get(place as usize) {
        Some(entry) => entry.compare(key),
        None => [].as_slice().cmp(key),
    }
}

// How the first key of a chunk stands to this one.
fn compare_first(entries: &[Entry], chunk: &Chunk, key: &[u8]) -> Ordering
    ensures { result ≡ byte_order (first_in entries.now chunk.now).key key.now }
{
    match chunk.as_slice().first() {
        Some(place) => compare_at(entries, *place, key),
        None => compare_at(entries, 0, key),
    }
}

// The chunk whose first key is this one, or behind which chunks with lesser first keys the others are greater.
fn chunk_of(entries: &[Entry], chunks: &[Chunk], key: &[u8]) -> Result<usize, usize>
    ensures range { IsSearchInRange result (length chunks.now) }
    ensures result { IsBinarySearchResult (λ chunk. byte_order (first_in entries.now chunk).key key.now) chunks.now result }
{
    chunks.binary_search_by(|chunk| compare_first(entries, chunk, key))
}

// The same of the places of one chunk.
fn within_of(entries: &[Entry], chunk: &Chunk, key: &[u8]) -> Result<usize, usize>
    ensures range { IsSearchInRange result (length chunk.now.items) }
    ensures result { IsBinarySearchResult (λ place. byte_order (entry_at entries.now place).key key.now) chunk.now.items result }
{
    chunk
        .as_slice()
        .binary_search_by(|place| compare_at(entries, *place, key))
}

/// The spot of the key's place, or the spot where it would stand.
pub(crate) fn spot_of(entries: &[Entry], chunks: &[Chunk], key: &[u8]) -> Result<Spot, Spot>
    requires { Orders chunks.now entries.now }
    ensures place { IfOk result (λ spot. IsPlace chunks.now spot.chunk spot.within) }
    ensures found { IfOk result (λ spot. KeyStandsAt (flat_at chunks.now spot.chunk spot.within) key.now (in_order entries.now (flat chunks.now))) }
    ensures gap { IfErr result (λ spot. IsGap chunks.now spot.chunk spot.within) }
    ensures missing { IfErr result (λ spot. BelongsAt (flat_at chunks.now spot.chunk spot.within) key.now (in_order entries.now (flat chunks.now))) }
{
    let behind = match chunk_of(entries, chunks, key) {
        Ok(chunk) => return Ok(Spot { chunk, within: 0 }),
        Err(behind) => behind,
    };
    if behind == 0 {
        return Err(Spot {
            chunk: 0,
            within: 0,
        });
    }
    let chunk = behind - 1;
    match within_of(entries, &chunks[chunk], key) {
        Ok(within) => Ok(Spot { chunk, within }),
        Err(within) => Err(Spot { chunk, within }),
    }
}

/// The spot from which on the keys are this one or more.
pub(crate) fn first_from(entries: &[Entry], chunks: &[Chunk], key: &[u8]) -> Spot
    requires { Orders chunks.now entries.now }
    ensures gap { IsGap chunks.now result.chunk result.within }
    ensures from { in_order entries.now (drop (flat_at chunks.now result.chunk result.within) (flat chunks.now)) ≡ entries_from (in_order entries.now (flat chunks.now)) key.now }
{
    match spot_of(entries, chunks, key) {
        Ok(spot) => spot,
        Err(spot) => spot,
    }
}
