//! The ranges of an index, after its rows.
ghost use Rattle.std.specs.Prelude.{◌≡◌, ◌≤◌, ◌<◌, ◌+◌, ◌^◌, ◌++◌, [], length, None, IfOk, IfErr, IfSome, IfNone, OnOk};
ghost use Rattle.block_model.specs.Index.{bound_bytes, ranges_bytes};
ghost use Rattle.block_model.specs.IndexReading.{all_ranges_fault, all_ranges_in, bound_in, bound_length_in, bound_width_in, range_fault, range_in, range_width_in, ranges_fault, ranges_in};
ghost use Rattle.range_model.specs.Ranges.{range_of};
ghost use Rattle.table_file.specs.Faults.{IsIndexFault, IsPlaceWithin, IsShape};

use crate::index_row::{BYTES_LEFT, PAST_THE_END, shape};
use byte_fields::{PartFault, get_u16, get_u32, push_number};
use key_base::{MAX_KEY_BYTES, compare};
use range_tombs::Ranges;
use std::alloc::{AllocError, Global};

// The bytes of the number of ranges, and of a bound's length.
const COUNT_BYTES: usize = 4;

const LENGTH_BYTES: usize = 2;

// There are no ranges, where the magic says that there are some.
const NO_RANGES: u8 = 9;

// A bound's length is out of its limits, or the bounds do not rise.
const WRONG_BOUNDS: u8 = 10;

// A range as it is in its index, and how many bytes it takes.
#[derive(Clone, Copy)]
struct RangeHere<'a> {
    lo: &'a [u8],
    hi: &'a [u8],
    width: usize,
}

/// The ranges that come after the rows of an index and fill these bytes, none where `has` is false; or the first rule that is
/// broken. The bytes begin at a place of their index.
#[tactic(auto, unfolding(block_model::specs::IndexReading::all_ranges_fault, block_model::specs::IndexReading::all_ranges_in))]
pub(crate) fn read_ranges(
    alloc: Global,
    bytes: &[u8],
    place: usize,
    has: bool,
) -> Result<Ranges, PartFault>
    requires { place + length bytes.now < 2 ^ 64 }
    ensures broken { IfErr result (IsIndexFault (all_ranges_fault has place bytes.now)) }
    ensures place { IfErr result (IsPlaceWithin (place + length bytes.now)) }
    ensures whole { IfOk result (λ _. all_ranges_fault has place bytes.now ≡ None) }
    ensures ranges { IfOk result (λ found. found.ranges ≡ all_ranges_in has bytes.now) }
{
    if !has {
        return read_all(alloc, bytes, place, 0);
    }
    if bytes.len() < COUNT_BYTES {
        return Err(shape(place + bytes.len(), PAST_THE_END));
    }
    let count = get_u32(bytes, 0);
    if count == 0 {
        return Err(shape(place, NO_RANGES));
    }
    read_all(alloc, &bytes[COUNT_BYTES..], place + COUNT_BYTES, count)
}

// A given number of ranges that fill these bytes. The bytes begin at a place of their index.
fn read_all(alloc: Global, bytes: &[u8], place: usize, count: u32) -> Result<Ranges, PartFault>
    requires { place + length bytes.now < 2 ^ 64 }
    ensures broken { IfErr result (IsIndexFault (ranges_fault count place [] bytes.now)) }
    ensures place { IfErr result (IsPlaceWithin (place + length bytes.now)) }
    ensures whole { IfOk result (λ _. ranges_fault count place [] bytes.now ≡ None) }
    ensures ranges { IfOk result (λ found. found.ranges ≡ ranges_in count bytes.now) }
{
    let mut ranges = Ranges::new(alloc);
    let mut at = 0;
    let mut before: &[u8] = b"";
    for i in 0..count {
        let range = read_range(&bytes[at..], place + at, before)?;
        ranges.push(range.lo, range.hi)?;
        before = range.hi;
        at += range.width;
    }
    if at < bytes.len() {
        return Err(shape(place + at, BYTES_LEFT));
    }
    Ok(ranges)
}

// The range that the bytes begin with, after the end of the one before, or the first rule that it breaks. Its place is `place`.
#[tactic(auto, unfolding(block_model::specs::IndexReading::range_fault, block_model::specs::IndexReading::range_in, block_model::specs::IndexReading::range_width_in))]
fn read_range<'a>(bytes: &'a [u8], place: usize, before: &[u8]) -> Result<RangeHere<'a>, PartFault>
    requires { place + length bytes.now < 2 ^ 64 }
    ensures broken { IfErr result (IsShape (range_fault place before.now bytes.now)) }
    ensures place { IfErr result (IsPlaceWithin (place + length bytes.now)) }
    ensures whole { IfOk result (λ _. range_fault place before.now bytes.now ≡ None) }
    ensures range { IfOk result (λ r. range_of r.lo.now r.hi.now ≡ range_in bytes.now) }
    ensures width { IfOk result (λ r. r.width ≡ range_width_in bytes.now) }
    ensures within { IfOk result (λ r. r.width ≤ length bytes.now) }
{
    let Some(lo) = bound_of(bytes) else {
        return Err(shape(place + bytes.len(), PAST_THE_END));
    };
    let hi_at = LENGTH_BYTES + lo.len();
    let Some(hi) = bound_of(&bytes[hi_at..]) else {
        return Err(shape(place + bytes.len(), PAST_THE_END));
    };
    if lo.is_empty() || lo.len() > MAX_KEY_BYTES {
        return Err(shape(place, WRONG_BOUNDS));
    }
    if hi.is_empty() || hi.len() > MAX_KEY_BYTES {
        return Err(shape(place + hi_at, WRONG_BOUNDS));
    }
    if !compare(before, lo).is_lt() || !compare(lo, hi).is_lt() {
        return Err(shape(place + LENGTH_BYTES, WRONG_BOUNDS));
    }
    Ok(RangeHere {
        lo,
        hi,
        width: hi_at + LENGTH_BYTES + hi.len(),
    })
}

// The bound that the bytes begin with, after its length: `None` where it runs past the end.
#[tactic(auto, unfolding(block_model::specs::IndexReading::bound_in))]
fn bound_of(bytes: &[u8]) -> Option<&[u8]>
    ensures bound { IfSome result (λ key. key.now ≡ bound_in bytes.now) }
    ensures size { IfSome result (λ key. length key.now ≡ bound_length_in bytes.now) }
    ensures within { IfSome result (λ _. bound_width_in bytes.now ≤ length bytes.now) }
    ensures past { IfNone result (length bytes.now < bound_width_in bytes.now) }
{
    if bytes.len() < LENGTH_BYTES {
        return None;
    }
    let end = LENGTH_BYTES + usize::from(get_u16(bytes, 0));
    if bytes.len() < end {
        return None;
    }
    Some(&bytes[LENGTH_BYTES..end])
}

/// Appends the ranges of an index: their number, and each one's bounds after their lengths; nothing where there are none.
#[tactic(auto, unfolding(block_model::specs::Index::ranges_bytes))]
pub(crate) fn push_ranges(ranges: &Ranges, out: &mut Vec<u8>) -> Result<(), AllocError>
    ensures { OnOk result (out.new.items ≡ out.old.items ++ ranges_bytes ranges.now.ranges) }
{
    if ranges.is_empty() {
        return Ok(());
    }
    push_number(ranges.len() as u64, COUNT_BYTES, out)?;
    for i in 0..ranges.len() {
        let (lo, hi) = ranges.get(i);
        push_bound(lo, out)?;
        push_bound(hi, out)?;
    }
    Ok(())
}

// Appends a bound after its length.
fn push_bound(key: &[u8], out: &mut Vec<u8>) -> Result<(), AllocError>
    ensures { OnOk result (out.new.items ≡ out.old.items ++ bound_bytes key.now) }
{
    push_number(key.len() as u64, LENGTH_BYTES, out)?;
    out.extend_from_slice(key)
}
