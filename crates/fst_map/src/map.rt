//! The map and what it answers.
ghost use Rattle.std.specs.Prelude.{◌≡◌, false, length, IfErr, IfOk, IfSome, Some};
ghost use Rattle.std.specs.Option.{option_map};
ghost use Rattle.fst_map.specs.Opened.{IsCause};
ghost use Rattle.fst_map.specs.Places.{first_key};
ghost use Rattle.map_file_model.specs.Laws.{IsBody, cutoff_read};
ghost use Rattle.map_file_model.specs.Maps.{keys_of};
ghost use Rattle.map_file_model.specs.Reading.{map_in};
ghost use Rattle.map_model.specs.Slices.{count as count_of, is_before};
ghost use Rattle.map_model.specs.SortedMap.{get as get_of};

use crate::cursor::FstCursor;
use crate::error::FstError;
use crate::reading::read_trie;
use crate::walking::{key_slot, runs_past};
use filter_iter::tally;
use filter_trie::Trie;
use map_parts::{Parts, front_fault, parts_of, rest_fault, value_in};
use std::alloc::{AllocError, Allocator};
use std::marker::Model;

/// A sorted map in bytes, and the trie of its keys.
#[derive(Drop)]
pub struct FstMap<'a, A: Allocator> {
    bytes: &'a [u8],
    parts: Parts,
    trie: Trie<A>,
}

impl<'a, A: Allocator> Model for FstMap<'a, A> {
    ghost use Rattle.fst_map.specs.Opened.{IsOpened};
    ghost use Rattle.map_file_model.specs.Maps.{Map};
    ghost use Rattle.map_file_model.specs.Reading.{map_in};

    ghost Value = { Map };

    ghost view = { λ m. map_in m.bytes.now };

    ghost invariant = { λ m. IsOpened m.bytes.now m.parts m.trie };
}

impl<'a, A: Allocator> FstMap<'a, A> {
    /// The value under `key`, a part of the bytes.
    ///
    /// Looks at a node for each byte of the key that leads on, and at two offsets. Takes no memory.
    pub fn get(&self, key: &[u8]) -> Option<&'a [u8]>
        ensures { option_map (λ value. value.now) result ≡ get_of self.now key.now }
    {
        match key_slot(&self.trie, key) {
            Some(slot) => Some(value_in(self.bytes, self.parts, slot as u32)),
            None => None,
        }
    }

    /// How many pairs have a key from `lo` to `hi`, which is not below `lo`.
    ///
    /// Goes down by both bounds as `filter_iter::tally` does, and once more by `lo`. Takes no memory.
    pub fn count(&self, lo: &[u8], hi: &[u8]) -> u32
        requires { is_before hi.now lo.now ≡ false }
        ensures { result ≡ count_of self.now lo.now (Some hi.now) }
    {
        let met = tally(&self.trie, lo, hi);
        if runs_past(&self.trie, lo) {
            met - 1
        } else {
            met
        }
    }

    /// At the first pair whose key is not below `lo`, `None` where each is. Takes memory of `alloc` for the way to it, and none
    /// where the trie is low.
    ///
    /// Goes down by `lo` once, and on to the next leaf where the one that it comes to has a key below `lo`.
    pub fn start<'m, B: Allocator>(
        &'m self,
        alloc: &'m B,
        lo: &[u8],
    ) -> Result<Option<FstCursor<'m, A, B>>, AllocError>
        ensures number { IfOk result (λ found. option_map (λ c. c.number) found ≡ first_key (keys_of self.now) lo.now) }
        ensures map { IfOk result (λ found. IfSome found (λ c. c.map ≡ self.now)) }
    {
        FstCursor::start(alloc, self.bytes, self.parts, &self.trie, lo)
    }

    /// How many pairs there are: 1 to 1,000,000.
    pub fn len(&self) -> u32
        ensures { result ≡ length self.now }
    {
        self.trie.leaves()
    }
}

impl<'a, A: Allocator + Clone> FstMap<'a, A> {
    /// The map that the bytes spell, whatever decided how many levels of its trie are dense.
    ///
    /// Fails exactly where they spell none, with the first rule that they break and the place where they do, or for want of
    /// memory, which says nothing of the bytes. Looks at each byte and each offset once, and at the trie as
    /// `filter_codec::decode_whole` does, whose memory it takes.
    pub fn read(alloc: A, bytes: &'a [u8]) -> Result<FstMap<'a, A>, FstError>
        ensures map { IfOk result (λ map. map ≡ map_in bytes.now) }
        ensures spelled { IfOk result (λ map. IsBody (cutoff_read bytes.now) map bytes.now) }
        ensures refused { IfErr result (IsCause bytes.now) }
    {
        if let Some(fault) = front_fault(bytes) {
            return Err(FstError::Fault(fault));
        }
        let parts = parts_of(bytes);
        match read_trie(alloc, bytes, parts) {
            Err(error) => Err(error),
            Ok(trie) => {
                if let Some(fault) = rest_fault(bytes, parts) {
                    return Err(FstError::Fault(fault));
                }
                Ok(FstMap { bytes, parts, trie })
            }
        }
    }
}
