//! Where a walk over the entries of a block of either format begins.
ghost use Rattle.std.specs.Prelude.{◌≡◌, ◌≤◌, ◌<◌, ◌-◌, ◌*◌, ◌++◌, length, Some, None, IfOk, IfErr};
ghost use Rattle.std.specs.List.{AllByRecursion};
ghost use Rattle.std.specs.Option.{option_map};
ghost use Rattle.byte_fields.specs.Sums.{fnv_of};
ghost use Rattle.key_base.specs.ByteOrder.{is_before};
ghost use Rattle.key_base.specs.Limits.{max_key_bytes};
ghost use Rattle.map_model.specs.SortedMap.{Bytes};
ghost use Rattle.entry_model.specs.Entries.{IsEntry};
ghost use Rattle.entry_model.specs.Newest.{entries_from};
ghost use Rattle.block_model.specs.BlockReading.{count_in};
ghost use Rattle.block_model.specs.BlockReading.{block_fault, block_in};
ghost use Rattle.block_model.specs.Formats.{format_in, key_by, listed_in, Prefixed};
ghost use Rattle.block_format.specs.Finding.{IsHeadOf};
ghost use Rattle.block_format.specs.Reading.{seen};
ghost use Rattle.block_format.specs.Walking.{kept_from};
ghost use Rattle.block_format.specs.Walking.{BeginsFor, StandsAfter, format_of, key_held, part_walked, walked};

use crate::entry::is_below;
use crate::fault::BlockFault;
use crate::finding::{from_place, group_of, own_part};
use crate::format::BlockFormat;
use crate::head::head_of;
use crate::header::BlockHead;
use crate::judged::judge_any;
use crate::old_block::HEADER_BYTES;
use crate::walk::EntryWalk;
use byte_fields::get_u16;
use key_base::{RESTART_ENTRIES, shared};

/// The sum of all these bytes, and a walk over the entries of the block that they spell, from a key on where there is a bound, or
/// the first rule of its format that the bytes break, and where.
///
/// One pass over the bytes. With a bound another one: by halves over the listed entries of a block whose entries share prefixes,
/// then from entry to entry, and the key before the first that is walked is left in the buffer. No memory.
pub fn read_sum_and_walk(
    bytes: &[u8],
    low: Option<&[u8]>,
    buffer: &mut [u8],
) -> (u64, Result<EntryWalk, BlockFault>)
    requires { max_key_bytes ≤ length buffer.old }
    ensures sum { result.0 ≡ fnv_of bytes.now }
    ensures broken { IfErr result.1 (λ found. block_fault bytes.now ≡ Some (seen found)) }
    ensures place { IfErr result.1 (λ found. found.place ≤ length bytes.now) }
    ensures whole { IfOk result.1 (λ _. block_fault bytes.now ≡ None) }
    ensures room { length buffer.new ≡ length buffer.old }
    ensures stands { IfOk result.1 (λ walk. StandsAfter walk buffer.new bytes.now) }
    ensures entries { IfOk result.1 (λ walk. walked walk buffer.new bytes.now ≡ kept_from (option_map (λ k. k.now) low.entry) (block_in bytes.now)) }
    ensures some { low.entry ≡ None → IfOk result.1 (λ walk. 1 ≤ walk.left) }
    ensures sound { IfOk result.1 (λ walk. AllByRecursion IsEntry (walked walk buffer.new bytes.now)) }
{
    let (sum, judged) = judge_any(bytes, true);
    match judged {
        Ok(head) => (sum, Ok(walk_from(bytes, head, low, buffer))),
        Err(fault) => (sum, Err(fault)),
    }
}

/// A walk over the entries of a block that breaks no rule, from a key on where there is a bound.
pub(crate) fn walk_from(
    bytes: &[u8],
    head: BlockHead,
    low: Option<&[u8]>,
    buffer: &mut [u8],
) -> EntryWalk
    requires head { IsHeadOf head bytes.now }
    requires large { max_key_bytes ≤ length buffer.old }
    ensures room { length buffer.new ≡ length buffer.old }
    ensures stands { StandsAfter result buffer.new bytes.now }
    ensures entries { walked result buffer.new bytes.now ≡ kept_from (option_map (λ k. k.now) low.entry) (block_in bytes.now) }
    ensures some { low.entry ≡ None → 1 ≤ result.left }
    ensures sound { AllByRecursion IsEntry (walked result buffer.new bytes.now) }
{
    match low {
        Some(low) => {
            let walk = begun(bytes, head, low);
            seek(walk, bytes, low, buffer)
        }
        None => walk_of(head),
    }
}

// A walk over all entries of a block.
fn walk_of(head: BlockHead) -> EntryWalk
    ensures { result ≡ record { format = head.format; at = head.from; end = head.used; left = head.count; key_length = 0 } }
{
    EntryWalk {
        format: head.format,
        at: head.from,
        end: head.used,
        left: head.count,
        key_length: 0,
    }
}

// A walk with no key before it that begins at the first entry not below a bound, or before that one.
fn begun(bytes: &[u8], head: BlockHead, low: &[u8]) -> EntryWalk
    requires { IsHeadOf head bytes.now }
    ensures { BeginsFor low.now result bytes.now }
{
    match head.format {
        BlockFormat::Old => walk_of(head),
        BlockFormat::Prefixed => {
            let group = group_of(bytes, head, low);
            EntryWalk {
                format: BlockFormat::Prefixed,
                at: place_listed(bytes, head, group),
                end: head.used,
                left: entries_after(head.count, group),
                key_length: 0,
            }
        }
    }
}

// The place of a listed entry.
fn place_listed(bytes: &[u8], head: BlockHead, group: usize) -> usize
    requires head { IsHeadOf head bytes.now }
    requires format { format_in bytes.now ≡ Prefixed }
    requires inside { 16 * group < count_in bytes.now }
    ensures { result ≡ listed_in bytes.now group }
{
    usize::from(get_u16(bytes, HEADER_BYTES + 2 * group))
}

// How many entries are left where so many groups are passed over.
fn entries_after(count: u8, groups: usize) -> u8
    requires { 16 * groups < count }
    ensures { result ≡ count - 16 * groups }
{
    count - (RESTART_ENTRIES * groups) as u8
}

// The walk from the first entry on whose key is not below a bound.
fn seek(walk: EntryWalk, bytes: &[u8], low: &[u8], buffer: &mut [u8]) -> EntryWalk
    requires stands { StandsAfter walk buffer.old bytes.now }
    requires large { max_key_bytes ≤ length buffer.old }
    ensures room { length buffer.new ≡ length buffer.old }
    ensures stands { StandsAfter result buffer.new bytes.now }
    ensures entries { walked result buffer.new bytes.now ≡ entries_from (walked walk buffer.old bytes.now) low.now }
{
    let mut on = walk;
    for _ in 0..walk.left {
        if !is_next_below(on, bytes, buffer, low) {
            return on;
        }
        on.advance(bytes, buffer);
    }
    on
}

// Whether the key of the next entry of a walk is below another one.
fn is_next_below(walk: EntryWalk, bytes: &[u8], buffer: &[u8], low: &[u8]) -> bool
    requires stands { StandsAfter walk buffer.now bytes.now }
    requires some { 0 < walk.left }
    ensures { result ≡ is_before (key_by (format_of walk.format) (key_held walk buffer.now) (part_walked walk bytes.now)) low.now }
{
    let rest = &bytes[walk.at..walk.end];
    let head = head_of(walk.format, rest);
    let front = &buffer[..head.shared];
    let own = own_part(head, rest);
    is_joined_below(front, own, low)
}

// Whether a key in two parts is below another one.
#[tactic(auto, using(crate::proofs::Seeks::front_decides, crate::proofs::Seeks::rest_decides))]
fn is_joined_below(front: &[u8], rest: &[u8], key: &[u8]) -> bool
    ensures { result ≡ is_before (front.now ++ rest.now) key.now }
{
    let common = shared(front, key);
    if common < front.len() {
        return is_below(front, key);
    }
    is_below(rest, from_place(key, common))
}
