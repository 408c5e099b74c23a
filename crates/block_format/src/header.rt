//! The header of a block of either format.
ghost use Rattle.std.specs.Prelude.{◌≡◌, ◌≤◌, ◌+◌, ◌*◌, length, Some, None, IfOk, IfErr};
ghost use Rattle.key_base.specs.Limits.{page_bytes};
ghost use Rattle.block_model.specs.BlockReading.{count_in, used_in};
ghost use Rattle.block_model.specs.BlockReading.{entries_place, header_fault_by, least_used, list_runs_past};
ghost use Rattle.block_model.specs.Formats.{format_byte, format_in, list_length};
ghost use Rattle.block_format.specs.Reading.{seen};
ghost use Rattle.block_format.specs.Walking.{format_of};

use crate::fault::BlockFault;
use crate::format::BlockFormat;
use crate::old_block::{HEADER_BYTES, NO_HEADER, NO_LENGTH, zero_at};
use block_model::pages_for;
use byte_fields::get_u32;
use key_base::{PAGE_BYTES, RESTART_ENTRIES};

/// A listed place is not that of its entry, or the list runs past the length.
pub(crate) const LISTED_ELSEWHERE: u8 = 9;

/// What the header of a block says.
#[derive(Clone, Copy)]
pub(crate) struct BlockHead {
    pub format: BlockFormat,
    /// The length that is used.
    pub used: usize,
    /// How many entries.
    pub count: u8,
    /// Where they begin.
    pub from: usize,
}

/// What the header says of a block of the format that it names, or the first rule that it breaks.
#[tactic(auto, unfolding(block_model::specs::BlockReading::header_fault_by, block_model::specs::Pages::pages_for))]
pub(crate) fn any_header(bytes: &[u8]) -> Result<BlockHead, BlockFault>
    ensures broken { IfErr result (λ found. header_fault_by (format_in bytes.now) bytes.now ≡ Some (seen found)) }
    ensures place { IfErr result (λ found. found.place ≤ length bytes.now) }
    ensures kept { IfOk result (λ _. header_fault_by (format_in bytes.now) bytes.now ≡ None) }
    ensures format { IfOk result (λ h. format_of h.format ≡ format_in bytes.now) }
    ensures used { IfOk result (λ h. h.used ≡ used_in bytes.now) }
    ensures count { IfOk result (λ h. h.count ≡ count_in bytes.now) }
    ensures from { IfOk result (λ h. h.from ≡ entries_place (format_in bytes.now) bytes.now) }
    ensures many { IfOk result (λ h. 1 ≤ h.count) }
    ensures page { IfOk result (λ _. page_bytes ≤ length bytes.now) }
    ensures within { IfOk result (λ h. (h.from ≤ h.used) × (h.used ≤ length bytes.now)) }
{
    let format = named_format(bytes);
    if bytes.len() < HEADER_BYTES {
        return Err(BlockFault {
            place: 0,
            rule: NO_LENGTH,
        });
    }
    let used = get_u32(bytes, 0) as usize;
    if used < least_used(format) || bytes.len() != PAGE_BYTES * pages_for(used as u64) as usize {
        return Err(BlockFault {
            place: 0,
            rule: NO_LENGTH,
        });
    }
    let count = bytes[4];
    if count == 0 || (used > PAGE_BYTES && count > 1) {
        return Err(BlockFault {
            place: 4,
            rule: NO_HEADER,
        });
    }
    if bytes[5] != format_byte(format) {
        return Err(BlockFault {
            place: 5,
            rule: NO_HEADER,
        });
    }
    zero_at(bytes, 6)?;
    zero_at(bytes, 7)?;
    let from = HEADER_BYTES + list_bytes(format, count);
    if used < from {
        return Err(BlockFault {
            place: 8,
            rule: LISTED_ELSEWHERE,
        });
    }
    Ok(BlockHead {
        format,
        used,
        count,
        from,
    })
}

// The format that byte 5 names, the old one where there is no such byte.
fn named_format(bytes: &[u8]) -> BlockFormat
    ensures { format_of result ≡ format_in bytes.now }
{
    if bytes.len() > 5 && bytes[5] == 2 {
        BlockFormat::Prefixed
    } else {
        BlockFormat::Old
    }
}

// The fewest bytes that a block uses: its header, an entry with a key of one byte, and the list.
fn least_used(format: BlockFormat) -> usize
    ensures { result ≡ least_used (format_of format) }
{
    match format {
        BlockFormat::Old => 16,
        BlockFormat::Prefixed => 20,
    }
}

fn format_byte(format: BlockFormat) -> u8
    ensures { result ≡ format_byte (format_of format) }
{
    match format {
        BlockFormat::Old => 0,
        BlockFormat::Prefixed => 2,
    }
}

// The bytes of the list.
fn list_bytes(format: BlockFormat, count: u8) -> usize
    ensures { result ≡ list_length (format_of format) count }
{
    match format {
        BlockFormat::Old => 0,
        BlockFormat::Prefixed => 2 * ((usize::from(count) + 15) / RESTART_ENTRIES),
    }
}
