//! The order of places, in chunks: a place goes between two others by moving those of one chunk.
ghost use Rattle.std.specs.Prelude.{◌≡◌, ◌+◌, ◌<◌, ◌≤◌, ◌^◌, [], ◌∷◌, ◌++◌, length, drop, vec_len, vec_capacity, slice_index};
ghost use Rattle.std.specs.List.{insert};
ghost use Rattle.arrayvec.specs.ArrayVec.{array_vec_len};
ghost use Rattle.mem_table.specs.Chunks.{flat, flat_at, IsPlace, IsGap, NoneEmpty};

use arrayvec::ArrayVec;

/// How many places a chunk has room for.
pub(crate) const CHUNK_PLACES: usize = 256;

const HALF: usize = CHUNK_PLACES / 2;

/// Some places of the order.
pub(crate) type Chunk = ArrayVec<u32, CHUNK_PLACES>;

/// Where a place stands or can go: in this chunk, behind so many of its places.
#[derive(Clone, Copy)]
pub(crate) struct Spot {
    pub(crate) chunk: usize,
    pub(crate) within: usize,
}

/// The place that stands at a spot.
pub(crate) fn place_at(chunks: &[Chunk], spot: Spot) -> u32
    requires { IsPlace chunks.now spot.chunk spot.within }
    ensures { result ≡ slice_index (flat chunks.now) (flat_at chunks.now spot.chunk spot.within) }
{
    chunks[spot.chunk].as_slice()[spot.within]
}

/// How many places there are.
pub(crate) fn count_of(chunks: &[Chunk]) -> usize
    requires { length (flat chunks.now) < 2 ^ 64 }
    ensures { result ≡ length (flat chunks.now) }
{
    let mut count = 0;
    for chunk in chunks {
        count += chunk.len();
    }
    count
}

/// The spot behind all places.
pub(crate) fn end_of(chunks: &[Chunk]) -> Spot
    ensures gap { IsGap chunks.now result.chunk result.within }
    ensures end { flat_at chunks.now result.chunk result.within ≡ length (flat chunks.now) }
{
    match chunks.last() {
        Some(chunk) => Spot {
            chunk: chunks.len() - 1,
            within: chunk.len(),
        },
        None => Spot {
            chunk: 0,
            within: 0,
        },
    }
}

/// The places from a spot on: those of its chunk, and the chunks behind it.
pub(crate) fn rest_from(chunks: &[Chunk], spot: Spot) -> (&[u32], &[Chunk])
    requires { IsGap chunks.now spot.chunk spot.within }
    ensures rest { result.0.now ++ flat result.1.now ≡ drop (flat_at chunks.now spot.chunk spot.within) (flat chunks.now) }
    ensures some { NoneEmpty chunks.now → NoneEmpty result.1.now }
{
    let Spot { chunk, within } = spot;
    if chunk >= chunks.len() {
        return (&[], &[]);
    }
    let here = chunks[chunk].as_slice();
    (&here[within..], &chunks[chunk + 1..])
}

// A chunk of one place.
fn alone(place: u32) -> Chunk
    ensures { result.items ≡ place ∷ [] }
{
    let mut chunk = Chunk::new();
    chunk.push(place);
    chunk
}

// Puts a place into a full chunk, and hands out the part that it has no room for.
fn split(chunk: &mut Chunk, within: usize, place: u32) -> Chunk
    requires full { array_vec_len chunk.old ≡ 256 }
    requires gap { within ≤ 256 }
    ensures parts { chunk.new.items ++ result.items ≡ insert chunk.old.items within place }
    ensures first { 0 < length chunk.new.items }
    ensures second { 0 < length result.items }
{
    if within == CHUNK_PLACES {
        return alone(place);
    }
    let mut upper = Chunk::new();
    match upper.try_extend_from_slice(&chunk.as_slice()[HALF..]) {
        Ok(()) => {}
        Err(_) => unreachable!(),
    }
    chunk.truncate(HALF);
    if within <= HALF {
        chunk.insert(within, place);
    } else {
        upper.insert(within - HALF, place);
    }
    upper
}

/// Puts a place at a spot. Takes no memory where there is room for one chunk more.
pub(crate) fn put(chunks: &mut Vec<Chunk>, spot: Spot, place: u32)
    requires room { vec_len chunks.old < vec_capacity chunks.old }
    requires gap { IsGap chunks.old.items spot.chunk spot.within }
    ensures placed { flat chunks.new.items ≡ insert (flat chunks.old.items) (flat_at chunks.old.items spot.chunk spot.within) place }
    ensures some { NoneEmpty chunks.old.items → NoneEmpty chunks.new.items }
    ensures len { vec_len chunks.new ≤ vec_len chunks.old + 1 }
    ensures within { vec_len chunks.new ≤ vec_capacity chunks.new }
    ensures capacity { vec_capacity chunks.old ≤ vec_capacity chunks.new }
{
    let Spot { chunk, within } = spot;
    if chunk >= chunks.len() {
        chunks.push_reserved(alone(place));
        return;
    }
    if chunks[chunk].len() < CHUNK_PLACES {
        chunks[chunk].insert(within, place);
        return;
    }
    let upper = split(&mut chunks[chunk], within, place);
    match chunks.insert(chunk + 1, upper) {
        Ok(()) => {}
        Err(_) => unreachable!(),
    }
}
