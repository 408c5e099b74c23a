//! A block of either format: the entries that its bytes spell.
ghost use Rattle.std.specs.Prelude.{◌≡◌, ◌≤◌, ◌<◌, ◌+◌, ◌-◌, ℕ, [], length, Some, None, IfOk, IfErr};
ghost use Rattle.key_base.specs.Limits.{max_key_bytes, page_bytes};
ghost use Rattle.block_model.specs.BlockReading.{block_fault, entries_fault_by, is_listed_elsewhere};
ghost use Rattle.block_format.specs.Finding.{IsHeadOf};
ghost use Rattle.block_format.specs.Judging.{key_after, left_from};
ghost use Rattle.block_format.specs.Reading.{seen, sum_where};
ghost use Rattle.block_format.specs.Walking.{format_of};

use crate::fault::BlockFault;
use crate::format::BlockFormat;
use crate::head::EntryHead;
use crate::header::{BlockHead, LISTED_ELSEWHERE, any_header};
use crate::judging::judged_entry;
use crate::old_block::{BYTES_LEFT, HEADER_BYTES, check_padding, feed, judge_old, sum_of};
use crate::walk::build_key;
use byte_fields::{Summer, get_u16};
use key_base::{MAX_KEY_BYTES, RESTART_ENTRIES};

/// The sum of some bytes where it is wanted, and in the same pass what the header of the block says that they spell, or the first
/// rule that they break, and where.
///
/// The key before an entry is kept in 1,024 bytes of the stack, of which an entry that shares bytes with it looks at one. Of an old
/// block no key is copied.
pub(crate) fn judge_any(bytes: &[u8], summed: bool) -> (u64, Result<BlockHead, BlockFault>)
    ensures sum { result.0 ≡ sum_where summed bytes.now }
    ensures broken { IfErr result.1 (λ found. block_fault bytes.now ≡ Some (seen found)) }
    ensures place { IfErr result.1 (λ found. found.place ≤ length bytes.now) }
    ensures sound { IfOk result.1 (λ h. IsHeadOf h bytes.now) }
{
    match any_header(bytes) {
        Ok(head) => match head.format {
            BlockFormat::Old => {
                let (sum, old) = judge_old(bytes, summed);
                match old {
                    Ok(_) => (sum, Ok(head)),
                    Err(fault) => (sum, Err(fault)),
                }
            }
            BlockFormat::Prefixed => {
                let (sum, judged) = judge_entries(bytes, head, summed);
                match judged {
                    Ok(()) => match check_padding(bytes, head.used) {
                        Ok(()) => (sum, Ok(head)),
                        Err(fault) => (sum, Err(fault)),
                    },
                    Err(fault) => (sum, Err(fault)),
                }
            }
        },
        Err(fault) => (sum_of(bytes, summed), Err(fault)),
    }
}

// The sum of a block's bytes where it is wanted, and the first rule that its entries break.
//
// Each entry's bytes go into the sum where the entry is judged, as long as a processor looks ahead from the one to the other.
fn judge_entries(whole: &[u8], head: BlockHead, summed: bool) -> (u64, Result<(), BlockFault>)
    requires page { page_bytes ≤ length whole.now }
    requires within { (head.from ≤ head.used) × (head.used ≤ length whole.now) }
    ensures sum { result.0 ≡ sum_where summed whole.now }
    ensures broken { IfErr result.1 (λ found. entries_fault_by (format_of head.format) whole.now 0 head.count head.from [] (left_from head.used head.from whole.now) ≡ Some (seen found)) }
    ensures place { IfErr result.1 (λ found. found.place ≤ length whole.now) }
    ensures kept { IfOk result.1 (λ _. entries_fault_by (format_of head.format) whole.now 0 head.count head.from [] (left_from head.used head.from whole.now) ≡ None) }
{
    let mut key = [0; MAX_KEY_BYTES];
    let mut key_length = 0;
    let mut summer = Summer::new();
    feed(&mut summer, &whole[..head.from], summed);
    let mut at = head.from;
    for i in 0..head.count {
        let entry = match next_judged(whole, head, usize::from(i), at, &key[..key_length]) {
            Ok(entry) => entry,
            Err(fault) => {
                feed(&mut summer, &whole[at..], summed);
                return (summer.value(), Err(fault));
            }
        };
        let width = entry.bytes + entry.rest + entry.value;
        feed(&mut summer, &whole[at..at + width], summed);
        build_key(entry, &whole[at..head.used], &mut key);
        key_length = entry.shared + entry.rest;
        at += width;
    }
    feed(&mut summer, &whole[at..], summed);
    if at < head.used {
        let fault = BlockFault {
            place: at,
            rule: BYTES_LEFT,
        };
        return (summer.value(), Err(fault));
    }
    (summer.value(), Ok(()))
}

// What entry `i` of a block, at a place, says before its key, or the first rule that it breaks: that of the list first.
fn next_judged(
    whole: &[u8],
    head: BlockHead,
    i: usize,
    at: usize,
    before: &[u8],
) -> Result<EntryHead, BlockFault>
    requires page { page_bytes ≤ length whole.now }
    requires few { i < 256 }
    requires within { (at ≤ head.used) × (head.used ≤ length whole.now) }
    ensures broken { IfErr result (λ found. (n : ℕ) → 0 < n → entries_fault_by (format_of head.format) whole.now i n at before.now (left_from head.used at whole.now) ≡ Some (seen found)) }
    ensures place { IfErr result (λ found. found.place ≤ length whole.now) }
    ensures kept { IfOk result (λ e. (n : ℕ) → 0 < n → entries_fault_by (format_of head.format) whole.now i n at before.now (left_from head.used at whole.now) ≡ entries_fault_by (format_of head.format) whole.now (i + 1) (n - 1) (at + (e.bytes + e.rest + e.value)) (key_after e.shared e.rest e.bytes before.now (left_from head.used at whole.now)) (left_from head.used (at + (e.bytes + e.rest + e.value)) whole.now)) }
    ensures inside { IfOk result (λ e. at + (e.bytes + e.rest + e.value) ≤ head.used) }
    ensures few { IfOk result (λ e. e.shared ≤ length before.now) }
    ensures short { IfOk result (λ e. e.shared + e.rest ≤ max_key_bytes) }
{
    if is_listed_elsewhere(whole, head.format, i, at) {
        let place = HEADER_BYTES + 2 * (i / RESTART_ENTRIES);
        return Err(BlockFault {
            place,
            rule: LISTED_ELSEWHERE,
        });
    }
    judged_entry(head.format, i, at, &whole[at..head.used], before)
}

// Whether entry `i` is listed, with another number than its place.
fn is_listed_elsewhere(whole: &[u8], format: BlockFormat, i: usize, at: usize) -> bool
    requires page { page_bytes ≤ length whole.now }
    requires few { i < 256 }
    ensures { result ≡ is_listed_elsewhere (format_of format) whole.now i at }
{
    match format {
        BlockFormat::Old => false,
        BlockFormat::Prefixed => {
            i % RESTART_ENTRIES == 0
                && usize::from(get_u16(whole, HEADER_BYTES + 2 * (i / RESTART_ENTRIES))) != at
        }
    }
}
