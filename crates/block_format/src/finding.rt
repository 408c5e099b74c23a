//! What a block with shared prefixes says of a key: by halves over the listed entries, then from entry to entry up to the next
//! of them.
ghost use Rattle.std.specs.Prelude.{◌≡◌, ◌≤◌, ◌<◌, ◌+◌, ◌-◌, ◌*◌, ◌==◌, [], length, take, drop, Some, None, if◌then◌else◌};
ghost use Rattle.std.specs.Option.{option_map};
ghost use Rattle.entry_model.specs.Newest.{lookup};
ghost use Rattle.key_base.specs.ByteOrder.{is_before};
ghost use Rattle.key_base.specs.Prefixes.{alike};
ghost use Rattle.block_model.specs.BlockReading.{count_in, used_in};
ghost use Rattle.block_model.specs.BlockReading.{block_in};
ghost use Rattle.block_model.specs.FormatLaws.{listed_key};
ghost use Rattle.block_model.specs.Formats.{entries_by, format_in, listed_in, Prefixed};
ghost use Rattle.block_format.specs.Finding.{IsGroupOf, IsGroupSize, IsHeadOf, StandClose, alike_after};

use crate::entry::{VALUE, is_below};
use crate::format::BlockFormat;
use crate::head::{EntryHead, head_of};
use crate::header::BlockHead;
use crate::judging::first_is_below;
use crate::old_block::{HEADER_BYTES, is_same};
use byte_fields::get_u16;
use key_base::{RESTART_ENTRIES, shared};

/// What a block with shared prefixes says of a key: its value, or `Some(None)` for a tombstone.
pub(crate) fn find_prefixed<'a>(
    bytes: &'a [u8],
    head: BlockHead,
    key: &[u8],
) -> Option<Option<&'a [u8]>>
    requires head { IsHeadOf head bytes.now }
    requires format { format_in bytes.now ≡ Prefixed }
    ensures { option_map (λ found. option_map (λ v. v.now) found) result ≡ lookup (block_in bytes.now) key.now }
{
    let group = group_of(bytes, head, key);
    let entries = entries_in_group(head, group);
    find_in_group(listed(bytes, head, group), entries, key)
}

/// The group of entries in which a key is, where the block has it.
pub(crate) fn group_of(bytes: &[u8], head: BlockHead, key: &[u8]) -> usize
    requires head { IsHeadOf head bytes.now }
    requires format { format_in bytes.now ≡ Prefixed }
    ensures { IsGroupOf bytes.now key.now result }
{
    let mut low = 0;
    let mut high = (usize::from(head.count) + 15) / RESTART_ENTRIES;
    while high - low > 1 {
        let middle = (low + high) / 2;
        if is_below(key, key_listed(bytes, head, middle)) {
            high = middle;
        } else {
            low = middle;
        }
    }
    low
}

// How many entries a group has.
fn entries_in_group(head: BlockHead, group: usize) -> usize
    requires { 16 * group < head.count }
    ensures { IsGroupSize head.count group result }
{
    let left = usize::from(head.count) - RESTART_ENTRIES * group;
    if left < RESTART_ENTRIES {
        return left;
    }
    RESTART_ENTRIES
}

// The key of a listed entry, which is its rest, since it shares nothing.
fn key_listed(bytes: &[u8], head: BlockHead, group: usize) -> &[u8]
    requires head { IsHeadOf head bytes.now }
    requires format { format_in bytes.now ≡ Prefixed }
    requires inside { 16 * group < count_in bytes.now }
    ensures { result.now ≡ listed_key bytes.now group }
{
    let rest = listed(bytes, head, group);
    let entry = head_of(BlockFormat::Prefixed, rest);
    own_part(entry, rest)
}

// The bytes from a listed entry up to the length that is used.
fn listed(bytes: &[u8], head: BlockHead, group: usize) -> &[u8]
    requires head { IsHeadOf head bytes.now }
    requires format { format_in bytes.now ≡ Prefixed }
    requires inside { 16 * group < count_in bytes.now }
    ensures { result.now ≡ drop (listed_in bytes.now group) (take (used_in bytes.now) bytes.now) }
{
    let at = usize::from(get_u16(bytes, HEADER_BYTES + 2 * group));
    between(bytes, at, head.used)
}

fn between(bytes: &[u8], from: usize, to: usize) -> &[u8]
    requires { (from ≤ to) × (to ≤ length bytes.now) }
    ensures { result.now ≡ take (to - from) (drop from bytes.now) }
{
    &bytes[from..to]
}

/// The bytes from a place on.
pub(crate) fn from_place(bytes: &[u8], at: usize) -> &[u8]
    requires { at ≤ length bytes.now }
    ensures is { result.now ≡ drop at bytes.now }
    ensures left { length result.now ≡ length bytes.now - at }
{
    &bytes[at..]
}

/// The rest of an entry's key.
pub(crate) fn own_part(head: EntryHead, here: &[u8]) -> &[u8]
    requires { head.bytes + head.rest ≤ length here.now }
    ensures { result.now ≡ take head.rest (drop head.bytes here.now) }
{
    &here[head.bytes..head.bytes + head.rest]
}

// The bytes that an entry takes.
fn width_of(head: EntryHead, here: &[u8]) -> usize
    requires { head.bytes + head.rest + head.value ≤ length here.now }
    ensures is { result ≡ head.bytes + head.rest + head.value }
    ensures within { result ≤ length here.now }
{
    head.bytes + head.rest + head.value
}

// What so many entries of a group say of a key.
//
// The key before an entry is below the one sought, and has so many bytes alike with it. An entry that shares more with the key
// before is below the one sought too, one that shares less is above it, and where it shares as many their rests decide.
fn find_in_group<'a>(rest: &'a [u8], count: usize, key: &[u8]) -> Option<Option<&'a [u8]>>
    requires { StandClose count [] rest.now }
    ensures { option_map (λ found. option_map (λ v. v.now) found) result ≡ lookup (entries_by Prefixed count [] rest.now) key.now }
{
    let mut at = 0;
    let mut common = 0;
    for i in 0..count {
        let here = from_place(rest, at);
        let head = head_of(BlockFormat::Prefixed, here);
        if head.shared < common {
            return None;
        }
        let own = own_part(head, here);
        match alike_after(head.shared, own, key, common) {
            Some(alike) => common = alike,
            None => {
                let is_it = is_same(own, from_place(key, common));
                return said_here(head, here, is_it);
            }
        }
        at += width_of(head, here);
    }
    None
}

// How many bytes the key sought has alike with that of an entry which shares as many with the one before as that has alike with
// it, or more; none where the entry's key is not below it.
fn alike_after(shared_bytes: usize, own: &[u8], key: &[u8], common: usize) -> Option<usize>
    requires { common ≤ length key.now }
    ensures { result ≡ alike_after shared_bytes own.now key.now common }
{
    if shared_bytes != common {
        return Some(common);
    }
    let sought = from_place(key, common);
    let alike = shared(own, sought);
    if !differs_below(own, sought, alike) {
        return None;
    }
    Some(common + alike)
}

// Whether a byte string is below another one with which it has so many bytes alike: the byte after them decides.
#[tactic(auto, using(crate::proofs::OneByte::alike_fit, crate::proofs::OneByte::apart_there, crate::proofs::OneByte::below_there))]
fn differs_below(low: &[u8], high: &[u8], common: usize) -> bool
    requires { common ≡ alike low.now high.now }
    ensures { result ≡ is_before low.now high.now }
{
    first_is_below(from_place(low, common), from_place(high, common))
}

// The value of an entry where it has the key sought.
fn said_here<'a>(head: EntryHead, here: &'a [u8], is_it: bool) -> Option<Option<&'a [u8]>>
    requires { head.bytes + head.rest + head.value ≤ length here.now }
    ensures { option_map (λ found. option_map (λ v. v.now) found) result ≡ (if is_it then Some (if head.kind == 1 then Some (take head.value (drop (head.bytes + head.rest) here.now)) else None) else None) }
{
    if !is_it {
        return None;
    }
    let from = head.bytes + head.rest;
    if head.kind == VALUE {
        Some(Some(&here[from..from + head.value]))
    } else {
        Some(None)
    }
}
