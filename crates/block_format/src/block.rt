//! A block of either format: the entries that its bytes spell.
ghost use Rattle.std.specs.Prelude.{◌≡◌, ◌≤◌, length, Some, None, IfOk, IfErr};
ghost use Rattle.std.specs.Option.{option_map};
ghost use Rattle.byte_fields.specs.Sums.{fnv_of};
ghost use Rattle.entry_model.specs.Newest.{lookup};
ghost use Rattle.block_model.specs.BlockReading.{block_fault, block_in};
ghost use Rattle.block_format.specs.Finding.{IsHeadOf};
ghost use Rattle.block_format.specs.Reading.{seen};
ghost use Rattle.block_format.specs.Walking.{kept_from};

use crate::cursor::BlockCursor;
use crate::fault::BlockFault;
use crate::finding::find_prefixed;
use crate::format::BlockFormat;
use crate::header::{BlockHead, any_header};
use crate::judged::judge_any;
use crate::old_block::find_old;
use crate::walking::walk_from;
use key_base::MAX_KEY_BYTES;
use std::marker::Model;

/// A block of either format whose bytes keep each rule of the one that they name, seen as its entries.
#[derive(Drop)]
pub struct Block<'a> {
    bytes: &'a [u8],
    head: BlockHead,
}

impl<'a> Model for Block<'a> {
    ghost use Rattle.std.specs.Prelude.{List};
    ghost use Rattle.entry_model.specs.Entries.{Entry};
    ghost use Rattle.block_model.specs.BlockReading.{block_in};
    ghost use Rattle.block_format.specs.Finding.{IsHeadOf};

    ghost Value = { List Entry };

    ghost view = { λ b. block_in b.bytes.now };

    ghost invariant = { λ b. IsHeadOf b.head b.bytes.now };
}

impl<'a> Block<'a> {
    /// The block that these bytes spell, or the first rule of its format that they break, and where.
    ///
    /// One pass over the bytes, and no memory; the key before an entry is kept in 1,024 bytes of the stack.
    pub fn read(bytes: &'a [u8]) -> Result<Block<'a>, BlockFault>
        ensures broken { IfErr result (λ found. block_fault bytes.now ≡ Some (seen found)) }
        ensures place { IfErr result (λ found. found.place ≤ length bytes.now) }
        ensures whole { IfOk result (λ _. block_fault bytes.now ≡ None) }
        ensures entries { IfOk result (λ b. b ≡ block_in bytes.now) }
    {
        let head = judge_any(bytes, false).1?;
        Ok(Block { bytes, head })
    }

    /// What the block that these bytes spell says of a key, as [`Block::find`] does, or the first rule that they break, and
    /// where.
    ///
    /// One pass in which the bytes are judged, then the search. No memory. Where they were read just now,
    /// [`Block::read_sum_and_find`] sums them in the same pass.
    pub fn read_and_find(
        bytes: &'a [u8],
        key: &[u8],
    ) -> Result<Option<Option<&'a [u8]>>, BlockFault>
        ensures broken { IfErr result (λ found. block_fault bytes.now ≡ Some (seen found)) }
        ensures place { IfErr result (λ found. found.place ≤ length bytes.now) }
        ensures whole { IfOk result (λ _. block_fault bytes.now ≡ None) }
        ensures said { IfOk result (λ found. option_map (λ f. option_map (λ v. v.now) f) found ≡ lookup (block_in bytes.now) key.now) }
    {
        let head = judge_any(bytes, false).1?;
        Ok(find_any(bytes, head, key))
    }

    /// The sum of all these bytes, and what the block that they spell says of a key, as [`Block::find`] does, or the first
    /// rule that they break, and where.
    ///
    /// One pass in which the bytes are summed and judged, then the search. No memory.
    pub fn read_sum_and_find(
        bytes: &'a [u8],
        key: &[u8],
    ) -> (u64, Result<Option<Option<&'a [u8]>>, BlockFault>)
        ensures sum { result.0 ≡ fnv_of bytes.now }
        ensures broken { IfErr result.1 (λ found. block_fault bytes.now ≡ Some (seen found)) }
        ensures place { IfErr result.1 (λ found. found.place ≤ length bytes.now) }
        ensures whole { IfOk result.1 (λ _. block_fault bytes.now ≡ None) }
        ensures said { IfOk result.1 (λ found. option_map (λ f. option_map (λ v. v.now) f) found ≡ lookup (block_in bytes.now) key.now) }
    {
        let (sum, judged) = judge_any(bytes, true);
        match judged {
            Ok(head) => (sum, Ok(find_any(bytes, head, key))),
            Err(fault) => (sum, Err(fault)),
        }
    }

    /// What the block says of a key: its value, or `Some(None)` for a tombstone. `None` where it has no such entry.
    ///
    /// A block with shared prefixes is searched by halves, then goes from entry to entry over sixteen at most; an old one goes from
    /// entry to entry. No memory.
    pub fn find(&self, key: &[u8]) -> Option<Option<&'a [u8]>>
        ensures { option_map (λ found. option_map (λ v. v.now) found) result ≡ lookup self.now key.now }
    {
        find_any(self.bytes, self.head, key)
    }

    /// The entries from a key on where there is a bound, none of them at hand.
    ///
    /// With a bound it goes by halves over the listed entries, then from entry to entry. The key of an entry is built in the
    /// cursor, which has 1,024 bytes for it. No memory.
    pub fn from(&self, low: Option<&[u8]>) -> BlockCursor<'a>
        ensures { result ≡ record { now = None; later = kept_from (option_map (λ k. k.now) low.entry) self.now } }
    {
        let mut buffer = [0; MAX_KEY_BYTES];
        let walk = walk_from(self.bytes, self.head, low, &mut buffer);
        BlockCursor::new(self.bytes, walk, buffer)
    }

    /// What the block that these bytes spell says of a key, as [`Block::find`] does, where they are known to break no rule:
    /// they were judged before.
    pub fn find_in_sound(bytes: &'a [u8], key: &[u8]) -> Option<Option<&'a [u8]>>
        requires { block_fault bytes.now ≡ None }
        ensures { option_map (λ found. option_map (λ v. v.now) found) result ≡ lookup (block_in bytes.now) key.now }
    {
        match any_header(bytes) {
            Ok(head) => find_any(bytes, head, key),
            Err(_) => None,
        }
    }
}

// What a block of either format says of a key.
fn find_any<'a>(bytes: &'a [u8], head: BlockHead, key: &[u8]) -> Option<Option<&'a [u8]>>
    requires { IsHeadOf head bytes.now }
    ensures { option_map (λ found. option_map (λ v. v.now) found) result ≡ lookup (block_in bytes.now) key.now }
{
    match head.format {
        BlockFormat::Old => find_old(bytes, key),
        BlockFormat::Prefixed => find_prefixed(bytes, head, key),
    }
}
