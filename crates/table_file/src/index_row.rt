//! One row of an index, in the bytes that begin with it, and the head before the rows.
ghost use Rattle.std.specs.Prelude.{◌≡◌, ◌≤◌, ◌<◌, ◌+◌, ◌^◌, length, None, IfOk, IfErr};
ghost use Rattle.key_base.specs.Limits.{max_block_pages};
ghost use Rattle.block_model.specs.IndexReading.{has_ranges_in, head_width_in, index_head_fault, last_in, least_in, pages_in, row_fault, row_width_in, rows_count_in, sum_in};
ghost use Rattle.table_file.specs.Faults.{IsShape, IsPlaceWithin};
ghost use Rattle.table_file.specs.BeforeLast.{passes};

use crate::index_order::BeforeLast;
use byte_fields::{PartFault, get_u16, get_u32, get_u64};
use key_base::{MAX_BLOCK_PAGES, MAX_KEY_BYTES};

/// `SRFI`.
pub(crate) const MAGIC: u32 = 0x49465253;

/// `SRFJ`, of an index that has ranges.
pub(crate) const RANGES_MAGIC: u32 = 0x4A465253;

// The bytes of the head before the least key.
const HEAD_BYTES: usize = 10;

// The bytes of a row before the last key.
const ROW_BYTES: usize = 14;

/// A field runs past the end.
pub(crate) const PAST_THE_END: u8 = 1;

const NO_MAGIC: u8 = 2;

// There are no blocks.
const NO_BLOCKS: u8 = 3;

// A key's length is out of its limits.
const OUT_OF_LIMITS: u8 = 4;

// The key is not above the one before, or the first one is below the least key.
const NOT_ABOVE: u8 = 5;

// No pages, or more than a block takes.
const NO_PAGES: u8 = 6;

/// Bytes are left at the end.
pub(crate) const BYTES_LEFT: u8 = 7;

/// The head of an index: whether ranges come after the rows, how many rows follow, the least key, and how many bytes it takes.
#[derive(Clone, Copy)]
pub(crate) struct Head<'a> {
    pub has_ranges: bool,
    pub count: u32,
    pub least: &'a [u8],
    pub width: usize,
}

/// A row as it is in its index, and how many bytes it takes.
#[derive(Clone, Copy)]
pub(crate) struct RowHere<'a> {
    pub pages: u32,
    pub sum: u64,
    pub last: &'a [u8],
    pub width: usize,
}

/// The head that the bytes begin with, or the first rule that it breaks.
#[tactic(auto, unfolding(block_model::specs::IndexReading::index_head_fault, block_model::specs::IndexReading::head_width_in, block_model::specs::IndexReading::least_in))]
pub(crate) fn read_head(bytes: &[u8]) -> Result<Head<'_>, PartFault>
    ensures broken { IfErr result (IsShape (index_head_fault bytes.now)) }
    ensures place { IfErr result (IsPlaceWithin (length bytes.now)) }
    ensures whole { IfOk result (λ _. index_head_fault bytes.now ≡ None) }
    ensures has { IfOk result (λ h. h.has_ranges ≡ has_ranges_in bytes.now) }
    ensures count { IfOk result (λ h. h.count ≡ rows_count_in bytes.now) }
    ensures least { IfOk result (λ h. h.least.now ≡ least_in bytes.now) }
    ensures width { IfOk result (λ h. h.width ≡ head_width_in bytes.now) }
    ensures within { IfOk result (λ h. h.width ≤ length bytes.now) }
{
    if bytes.len() < HEAD_BYTES {
        return Err(shape(bytes.len(), PAST_THE_END));
    }
    let count = get_u32(bytes, 4);
    let key_bytes = usize::from(get_u16(bytes, 8));
    let width = HEAD_BYTES + key_bytes;
    if bytes.len() < width {
        return Err(shape(bytes.len(), PAST_THE_END));
    }
    let magic = get_u32(bytes, 0);
    if magic != MAGIC && magic != RANGES_MAGIC {
        return Err(shape(0, NO_MAGIC));
    }
    if count == 0 {
        return Err(shape(4, NO_BLOCKS));
    }
    if key_bytes == 0 || key_bytes > MAX_KEY_BYTES {
        return Err(shape(8, OUT_OF_LIMITS));
    }
    Ok(Head {
        has_ranges: magic == RANGES_MAGIC,
        count,
        least: &bytes[HEAD_BYTES..width],
        width,
    })
}

/// The row that the bytes begin with, or the first rule that it breaks. Its place is `place`.
#[tactic(auto, unfolding(block_model::specs::IndexReading::row_fault, block_model::specs::IndexReading::row_width_in, block_model::specs::IndexReading::last_in))]
pub(crate) fn read_row<'a>(
    bytes: &'a [u8],
    place: usize,
    before: BeforeLast<'_>,
) -> Result<RowHere<'a>, PartFault>
    requires { place + length bytes.now < 2 ^ 64 }
    ensures broken { IfErr result (IsShape (row_fault place (passes before.entry) bytes.now)) }
    ensures place { IfErr result (IsPlaceWithin (place + length bytes.now)) }
    ensures whole { IfOk result (λ _. row_fault place (passes before.entry) bytes.now ≡ None) }
    ensures pages { IfOk result (λ r. r.pages ≡ pages_in bytes.now) }
    ensures sum { IfOk result (λ r. r.sum ≡ sum_in bytes.now) }
    ensures last { IfOk result (λ r. r.last.now ≡ last_in bytes.now) }
    ensures width { IfOk result (λ r. r.width ≡ row_width_in bytes.now) }
    ensures within { IfOk result (λ r. r.width ≤ length bytes.now) }
    ensures few { IfOk result (λ r. r.pages ≤ max_block_pages) }
{
    if bytes.len() < ROW_BYTES {
        return Err(shape(place + bytes.len(), PAST_THE_END));
    }
    let pages = get_u32(bytes, 0);
    let key_bytes = usize::from(get_u16(bytes, 12));
    let width = ROW_BYTES + key_bytes;
    if bytes.len() < width {
        return Err(shape(place + bytes.len(), PAST_THE_END));
    }
    if key_bytes == 0 || key_bytes > MAX_KEY_BYTES {
        return Err(shape(place + 12, OUT_OF_LIMITS));
    }
    let last = &bytes[ROW_BYTES..width];
    if !before.allows(last) {
        return Err(shape(place + 14, NOT_ABOVE));
    }
    if pages == 0 || pages > MAX_BLOCK_PAGES {
        return Err(shape(place, NO_PAGES));
    }
    Ok(RowHere {
        pages,
        sum: get_u64(bytes, 4),
        last,
        width,
    })
}

/// A rule that is broken at a place.
pub(crate) fn shape(place: usize, rule: u8) -> PartFault
    ensures { result ≡ PartFault.Shape place rule }
{
    PartFault::Shape { place, rule }
}
