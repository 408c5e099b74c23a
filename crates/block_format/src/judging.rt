//! The rules that one entry of either format has to keep.
ghost use Rattle.std.specs.Prelude.{◌≡◌, ◌≤◌, ◌<◌, ◌+◌, ◌++◌, ◌==◌, ◌&&◌, ◌||◌, not, nat_lt, length, take, drop, Some, None, IfOk, IfErr};
ghost use Rattle.key_base.specs.ByteOrder.{is_before};
ghost use Rattle.key_base.specs.Limits.{is_no_key_length, max_key_bytes};
ghost use Rattle.key_base.specs.Prefixes.{alike};
ghost use Rattle.block_model.specs.BlockReading.{entry_fault_by};
ghost use Rattle.block_model.specs.Formats.{entry_head_by, most_value, rest_length_in, shared_in, value_length_by, wants_shared};
ghost use Rattle.block_format.specs.Judging.{shares_wrongly};
ghost use Rattle.block_format.specs.Reading.{seen};
ghost use Rattle.block_format.specs.Walking.{format_of};

use crate::entry::{
    NO_KIND, NOT_ABOVE, OUT_OF_LIMITS, PAST_THE_LENGTH, TOMBSTONE, VALUE, is_below,
};
use crate::fault::BlockFault;
use crate::format::BlockFormat;
use crate::head::{EntryHead, PREFIXED_HEAD_BYTES, head_of};
use key_base::{
    ENTRY_HEAD_BYTES, MAX_KEY_BYTES, MAX_LOGGED_VALUE_BYTES, MAX_VALUE_BYTES, RESTART_ENTRIES,
};

// An entry shares another number of bytes with the key before than it has to.
const SHARES_OTHERWISE: u8 = 10;

/// What entry `i`, which these bytes begin with at a place, says before its key, or the first rule that it breaks. `before` is
/// the key before it, empty for the first one.
///
/// Of an entry that shares bytes with the key before, one byte is compared.
pub(crate) fn judged_entry(
    format: BlockFormat,
    i: usize,
    place: usize,
    rest: &[u8],
    before: &[u8],
) -> Result<EntryHead, BlockFault>
    ensures broken { IfErr result (λ found. entry_fault_by (format_of format) i place before.now rest.now ≡ Some (seen found)) }
    ensures place { IfErr result (λ found. found.place ≡ place) }
    ensures kept { IfOk result (λ _. entry_fault_by (format_of format) i place before.now rest.now ≡ None) }
    ensures shared { IfOk result (λ h. h.shared ≡ shared_in (format_of format) rest.now) }
    ensures rest { IfOk result (λ h. h.rest ≡ rest_length_in (format_of format) rest.now) }
    ensures value { IfOk result (λ h. h.value ≡ value_length_by (format_of format) rest.now) }
    ensures bytes { IfOk result (λ h. h.bytes ≡ entry_head_by (format_of format)) }
    ensures within { IfOk result (λ h. h.bytes + h.rest + h.value ≤ length rest.now) }
    ensures few { IfOk result (λ h. h.shared ≤ length before.now) }
    ensures short { IfOk result (λ h. h.shared + h.rest ≤ max_key_bytes) }
{
    if rest.len() < head_bytes(format) {
        return Err(fault_at(place, PAST_THE_LENGTH));
    }
    let head = head_of(format, rest);
    if has_wrong_kind(head) {
        return Err(fault_at(place, NO_KIND));
    }
    if is_out_of_limits(format, head) {
        return Err(fault_at(place, OUT_OF_LIMITS));
    }
    if rest.len() < head.bytes + head.rest + head.value {
        return Err(fault_at(place, PAST_THE_LENGTH));
    }
    let key_rest = &rest[head.bytes..head.bytes + head.rest];
    if shares_wrongly(format, i, head.shared, before, key_rest) {
        return Err(fault_at(place, SHARES_OTHERWISE));
    }
    if !is_above(head.shared, before, key_rest) {
        return Err(fault_at(place, NOT_ABOVE));
    }
    Ok(head)
}

fn fault_at(place: usize, rule: u8) -> BlockFault
    ensures { result ≡ record { place = place; rule = rule } }
{
    BlockFault { place, rule }
}

// The bytes of an entry before its key.
fn head_bytes(format: BlockFormat) -> usize
    ensures { result ≡ entry_head_by (format_of format) }
{
    match format {
        BlockFormat::Old => ENTRY_HEAD_BYTES,
        BlockFormat::Prefixed => PREFIXED_HEAD_BYTES,
    }
}

// Whether it is neither a value nor a tombstone, or a tombstone with a value.
fn has_wrong_kind(head: EntryHead) -> bool
    ensures { result ≡ (not (head.kind == 1) && (not (head.kind == 2) || nat_lt 0 head.value)) }
{
    head.kind != VALUE && (head.kind != TOMBSTONE || head.value > 0)
}

// Whether its key or its value has too few or too many bytes.
fn is_out_of_limits(format: BlockFormat, head: EntryHead) -> bool
    requires { (head.shared < 65536) × (head.rest < 65536) }
    ensures { result ≡ (is_no_key_length (head.shared + head.rest) || nat_lt (most_value (format_of format)) head.value) }
{
    let key = head.shared + head.rest;
    let most = match format {
        BlockFormat::Old => MAX_LOGGED_VALUE_BYTES,
        BlockFormat::Prefixed => MAX_VALUE_BYTES,
    };
    key == 0 || key > MAX_KEY_BYTES || head.value > most
}

// Whether the key that is so many bytes of the one before and a rest shares another number of bytes with it than it has to.
fn shares_wrongly(format: BlockFormat, i: usize, shared: usize, before: &[u8], rest: &[u8]) -> bool
    ensures { result ≡ shares_wrongly (format_of format) i shared before.now rest.now }
{
    match format {
        BlockFormat::Old => false,
        BlockFormat::Prefixed => shares_another(i, shared, before, rest),
    }
}

#[tactic(auto, using(crate::proofs::OneByte::anew_is, crate::proofs::OneByte::past_it))]
fn shares_another(i: usize, shared: usize, before: &[u8], rest: &[u8]) -> bool
    ensures { result ≡ not (shared == wants_shared i before.now (take shared before.now ++ rest.now)) }
{
    if i % RESTART_ENTRIES == 0 {
        return shared != 0;
    }
    if shared > before.len() {
        return true;
    }
    begins_alike(&before[shared..], rest)
}

// Whether two byte strings have their first byte alike.
#[tactic(auto, using(crate::proofs::OneByte::none_alike, crate::proofs::OneByte::none_alike_after, crate::proofs::OneByte::first_alike))]
fn begins_alike(one: &[u8], other: &[u8]) -> bool
    ensures { result ≡ not (alike one.now other.now == 0) }
{
    if one.is_empty() {
        return false;
    }
    if other.is_empty() {
        return false;
    }
    one[0] == other[0]
}

// Whether the key that is so many bytes of the one before and a rest is above it.
#[tactic(auto, using(crate::proofs::OneByte::whole_above))]
fn is_above(shared: usize, before: &[u8], rest: &[u8]) -> bool
    requires few { shared ≤ length before.now }
    requires apart { 0 < shared → alike (drop shared before.now) rest.now ≡ 0 }
    ensures { result ≡ is_before before.now (take shared before.now ++ rest.now) }
{
    if shared == 0 {
        is_below(before, rest)
    } else {
        first_is_below(&before[shared..], rest)
    }
}

/// Whether a byte string is below another one that begins with another byte.
#[tactic(auto, using(crate::proofs::OneByte::none_below, crate::proofs::OneByte::shorter_below, crate::proofs::OneByte::first_below))]
pub(crate) fn first_is_below(low: &[u8], high: &[u8]) -> bool
    requires { alike low.now high.now ≡ 0 }
    ensures { result ≡ is_before low.now high.now }
{
    if high.is_empty() {
        return false;
    }
    if low.is_empty() {
        return true;
    }
    low[0] < high[0]
}
