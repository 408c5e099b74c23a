//! The trie of a body, judged.
ghost use Rattle.std.specs.Prelude.{◌≡◌, IfErr, IfOk};
ghost use Rattle.fst_map.specs.Opened.{IsFaultOf, IsTrieOf};
ghost use Rattle.map_file_model.specs.Reading.{trie_fault};
ghost use Rattle.map_parts.specs.Parts.{HasParts, parts_in};

use crate::error::FstError;
use filter_api::DecodeError;
use filter_codec::decode_whole;
use filter_trie::Trie;
use map_parts::{MapFault, Parts, image_in};
use std::alloc::Allocator;

/// Where the image begins.
const HEAD_BYTES: u64 = 24;

/// The trie of the image of bytes that have these parts. Fails where the image breaks a rule of whole keys, which is rule 5 at
/// the image's own place behind the head, or has another number of leaves than the head says, which is rule 6; or for want of
/// memory.
pub(crate) fn read_trie<A: Allocator + Clone>(
    alloc: A,
    bytes: &[u8],
    parts: Parts,
) -> Result<Trie<A>, FstError>
    requires has { HasParts bytes.now }
    requires parts { parts ≡ parts_in bytes.now }
    ensures read { IfOk result (IsTrieOf bytes.now) }
    ensures refused { IfErr result (IsFaultOf (trie_fault bytes.now)) }
{
    match decode_whole(alloc, image_in(bytes, parts)) {
        Err(DecodeError::Memory) => Err(FstError::Memory),
        Err(DecodeError::Fault(fault)) => Err(FstError::Fault(MapFault {
            place: HEAD_BYTES + fault.place,
            rule: 5,
        })),
        Ok(trie) => {
            if trie.leaves() != parts.pairs {
                return Err(FstError::Fault(MapFault { place: 8, rule: 6 }));
            }
            Ok(trie)
        }
    }
}
