//! A walk over a map's pairs, in the order of its keys.
ghost use Rattle.std.specs.Prelude.{◌≡◌, ◌+◌, ◌-◌, ◌<◌, ◌≤◌, ◌↔◌, [], Some, None, IfOk, IfSome, IsTrue, MatchOption, cond, length, slice_get, slice_index_or, take};
ghost use Rattle.std.specs.Option.{option_and_then, option_map};
ghost use Rattle.filter_model.specs.Answers.{first};
ghost use Rattle.filter_model.specs.Valid.{IsLeafList};
ghost use Rattle.fst_map.specs.Opened.{IsOpened};
ghost use Rattle.fst_map.specs.Places.{IsWritten, first_key};
ghost use Rattle.key_base.specs.Limits.{max_key_bytes};
ghost use Rattle.map_file_model.specs.Maps.{keys_of};
ghost use Rattle.map_file_model.specs.Reading.{map_in};
ghost use Rattle.whole_keys.specs.Whole.{stubs};

use filter_iter::FilterCursor;
use filter_trie::Trie;
use key_base::{MAX_KEY_BYTES, compare};
use map_parts::{Parts, value_in};
use std::alloc::{AllocError, Allocator};
use std::marker::Model;

/// A pair of a map, from which one may go on to the next one and to the one before, in the order of the keys.
///
/// Keeps its key, and the way to it in memory that it took when it started; takes none after that.
#[derive(Drop)]
pub struct FstCursor<'a, A: Allocator, B: Allocator> {
    bytes: &'a [u8],
    parts: Parts,
    leaf: FilterCursor<'a, A, B>,
    // the key is at its front
    buffer: [u8; MAX_KEY_BYTES],
    len: usize,
}

impl<'a, A: Allocator, B: Allocator> Model for FstCursor<'a, A, B> {
    ghost use Rattle.fst_map.specs.Places.{IsAt, Place};
    ghost use Rattle.map_file_model.specs.Reading.{map_in};

    ghost Value = { Place };

    ghost view = { λ c. record { map = map_in c.bytes.now; number = c.leaf.leaf } };

    ghost invariant = { λ c. IsAt c.bytes.now c.parts c.leaf c.buffer c.len };
}

impl<'a, A: Allocator, B: Allocator> FstCursor<'a, A, B> {
    ghost use Rattle.fst_map.specs.Places.{moved};

    // At the first pair of opened bytes whose key is not below `lo`.
    pub(crate) fn start(
        alloc: &'a B,
        bytes: &'a [u8],
        parts: Parts,
        trie: &'a Trie<A>,
        lo: &[u8],
    ) -> Result<Option<FstCursor<'a, A, B>>, AllocError>
        requires { IsOpened bytes.now parts trie.now }
        ensures number { IfOk result (λ found. option_map (λ c. c.number) found ≡ first_key (keys_of (map_in bytes.now)) lo.now) }
        ensures map { IfOk result (λ found. IfSome found (λ c. c.map ≡ map_in bytes.now)) }
    {
        let Some(mut leaf) = FilterCursor::start(alloc, trie, lo)? else {
            return Ok(None);
        };
        let mut buffer = [0; MAX_KEY_BYTES];
        match settle(&mut leaf, lo, &mut buffer) {
            Some(len) => Ok(Some(FstCursor {
                bytes,
                parts,
                leaf,
                buffer,
                len,
            })),
            None => Ok(None),
        }
    }

    /// Goes on to the next pair. False at the last one, where it stays.
    pub fn next(&mut self) -> bool
        ensures moved { self.new ≡ moved self.old (self.old.number + cond result 1 0) }
        ensures end { IsTrue result ↔ (self.old.number + 1 < length self.old.map) }
    {
        if !self.leaf.next() {
            return false;
        }
        self.len = self.leaf.stub(&mut self.buffer);
        true
    }

    /// Goes back to the pair before. False at the first one, where it stays.
    pub fn prev(&mut self) -> bool
        ensures moved { self.new ≡ moved self.old (self.old.number - cond result 1 0) }
        ensures end { IsTrue result ↔ (0 < self.old.number) }
    {
        if !self.leaf.prev() {
            return false;
        }
        self.len = self.leaf.stub(&mut self.buffer);
        true
    }

    /// The key.
    pub fn key(&self) -> &[u8]
        ensures { option_map (λ pair. pair.0) (slice_get self.now.map self.now.number) ≡ Some result.now }
    {
        &self.buffer[..self.len]
    }

    /// The value, a part of the map's bytes. Looks at two offsets.
    pub fn value(&self) -> &'a [u8]
        ensures { option_map (λ pair. pair.1) (slice_get self.now.map self.now.number) ≡ Some result.now }
    {
        value_in(self.bytes, self.parts, self.leaf.slot() as u32)
    }
}

// From the first leaf that is not past `lo` to that of the first key that is not below `lo`, and how many bytes its key has,
// which are written at the start of `buffer`. A leaf is not past a bound that goes on from its key, and the key is below it.
fn settle<A: Allocator, B: Allocator>(
    leaf: &mut FilterCursor<'_, A, B>,
    lo: &[u8],
    buffer: &mut [u8; MAX_KEY_BYTES],
) -> Option<usize>
    requires list { IsLeafList 0 0 leaf.old.image.leaves }
    requires first { Some leaf.old.leaf ≡ first 0 leaf.old.image.leaves lo.now }
    ensures image { leaf.new.image ≡ leaf.old.image }
    ensures found { option_map (λ _. leaf.new.leaf) result ≡ first_key (stubs leaf.old.image.leaves) lo.now }
    ensures written { IfSome result (IsWritten (stubs leaf.old.image.leaves) leaf.new.leaf buffer.new) }
{
    let len = leaf.stub(buffer);
    if !compare(&buffer[..len], lo).is_lt() {
        return Some(len);
    }
    if leaf.next() {
        Some(leaf.stub(buffer))
    } else {
        None
    }
}
