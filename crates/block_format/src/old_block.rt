//! Whether bytes spell a block of the first format, whose keys are whole. Such blocks are read, and no longer written.
ghost use Rattle.std.specs.Prelude.{◌≡◌, ◌≤◌, ◌<◌, ◌+◌, ◌++◌, ◌-◌, ◌==◌, true, false, not, slice_index, length, take, drop, Some, None, IfOk, IfErr, bytes_eq, if◌then◌else◌};
ghost use Rattle.std.specs.List.{position_or_len};
ghost use Rattle.std.specs.Option.{option_map};
ghost use Rattle.entry_model.specs.Newest.{lookup};
ghost use Rattle.block_model.specs.BlockReading.{count_in, tail_fault, used_in};
ghost use Rattle.block_model.specs.OldReading.{old_block_fault, old_block_in, old_entries_fault, old_entries_in, old_header_fault};
ghost use Rattle.block_model.specs.Order.{is_any};
ghost use Rattle.byte_fields.specs.Faults.{fault};
ghost use Rattle.map_model.specs.SortedMap.{Bytes};
ghost use Rattle.block_format.specs.Reading.{Stand, seen, sum_where};

use crate::entry::{EntryHere, WORD_BYTES, entry_here, first_entry, is_below};
use crate::fault::BlockFault;
use block_model::pages_for;
use byte_fields::{Summer, get_u32};
use byteorder::{BigEndian, ByteOrder};
use key_base::PAGE_BYTES;

/// The bytes before the first entry.
pub(crate) const HEADER_BYTES: usize = 8;

// The length that is used, or the number of pages, is out of its limits.
pub(crate) const NO_LENGTH: u8 = 1;

// The count is none, or a byte that must be 0 is not.
pub(crate) const NO_HEADER: u8 = 2;

// Bytes are left behind the last entry.
pub(crate) const BYTES_LEFT: u8 = 7;

// A byte behind the length that is used is not 0.
const NO_PADDING: u8 = 8;

/// The sum of the bytes where it is wanted, and in the same pass whether they spell a block of the first format, or the first
/// rule that they break. Of its keys none is copied.
#[tactic(auto, unfolding(block_model::specs::OldReading::old_block_fault, block_model::specs::OldReading::old_entries_part))]
pub(crate) fn judge_old(bytes: &[u8], summed: bool) -> (u64, Result<(), BlockFault>)
    ensures sum { result.0 ≡ sum_where summed bytes.now }
    ensures broken { IfErr result.1 (λ found. old_block_fault bytes.now ≡ Some (seen found)) }
    ensures place { IfErr result.1 (λ found. found.place ≤ length bytes.now) }
    ensures whole { IfOk result.1 (λ _. old_block_fault bytes.now ≡ None) }
{
    match old_header(bytes) {
        Ok((used, count)) => {
            let (sum, judged) = old_entries(bytes, used, count, summed);
            match judged {
                Ok(()) => match check_padding(bytes, used) {
                    Ok(()) => (sum, Ok(())),
                    Err(fault) => (sum, Err(fault)),
                },
                Err(fault) => (sum, Err(fault)),
            }
        }
        Err(fault) => (sum_of(bytes, summed), Err(fault)),
    }
}

// The length that is used and the count of entries.
#[tactic(auto, unfolding(block_model::specs::OldReading::old_header_fault, block_model::specs::Pages::pages_for))]
fn old_header(bytes: &[u8]) -> Result<(usize, u8), BlockFault>
    ensures broken { IfErr result (λ found. old_header_fault bytes.now ≡ Some (seen found)) }
    ensures place { IfErr result (λ found. found.place ≤ length bytes.now) }
    ensures whole { IfOk result (λ _. old_header_fault bytes.now ≡ None) }
    ensures used { IfOk result (λ h. h.0 ≡ used_in bytes.now) }
    ensures count { IfOk result (λ h. h.1 ≡ count_in bytes.now) }
    ensures some { IfOk result (λ h. 16 ≤ h.0) }
    ensures many { IfOk result (λ h. 1 ≤ h.1) }
    ensures within { IfOk result (λ h. h.0 ≤ length bytes.now) }
{
    if bytes.len() < HEADER_BYTES {
        return Err(BlockFault {
            place: 0,
            rule: NO_LENGTH,
        });
    }
    let used = get_u32(bytes, 0) as usize;
    if used < 16 || bytes.len() != PAGE_BYTES * pages_for(used as u64) as usize {
        return Err(BlockFault {
            place: 0,
            rule: NO_LENGTH,
        });
    }
    let count = bytes[4];
    if count == 0 || (used > PAGE_BYTES && count > 1) {
        return Err(BlockFault {
            place: 4,
            rule: NO_HEADER,
        });
    }
    zero_at(bytes, 5)?;
    zero_at(bytes, 6)?;
    zero_at(bytes, 7)?;
    Ok((used, count))
}

// Whether the byte of the header at a place is 0, as it must be.
pub(crate) fn zero_at(bytes: &[u8], place: usize) -> Result<(), BlockFault>
    requires { place < length bytes.now }
    ensures broken { IfErr result (λ found. ((slice_index bytes.now place == 0) ≡ false) × (seen found ≡ fault place 2)) }
    ensures place { IfErr result (λ found. found.place ≡ place) }
    ensures whole { IfOk result (λ _. (slice_index bytes.now place == 0) ≡ true) }
{
    if bytes[place] != 0 {
        return Err(BlockFault {
            place,
            rule: NO_HEADER,
        });
    }
    Ok(())
}

// The sum of a block's bytes where it is wanted, and whether so many entries keep each rule and fill the bytes after the header
// up to the length that is used.
//
// Each entry's bytes go into the sum where the entry is judged, as long as a processor looks ahead from the one to the other.
fn old_entries(whole: &[u8], used: usize, count: u8, summed: bool) -> (u64, Result<(), BlockFault>)
    requires large { 8 ≤ used }
    requires within { used ≤ length whole.now }
    ensures sum { result.0 ≡ sum_where summed whole.now }
    ensures broken { IfErr result.1 (λ found. old_entries_fault count 8 is_any (take (used - 8) (drop 8 whole.now)) ≡ Some (seen found)) }
    ensures place { IfErr result.1 (λ found. found.place ≤ length whole.now) }
    ensures whole { IfOk result.1 (λ _. old_entries_fault count 8 is_any (take (used - 8) (drop 8 whole.now)) ≡ None) }
{
    let bytes = &whole[HEADER_BYTES..used];
    let mut summer = Summer::new();
    feed(&mut summer, &whole[..HEADER_BYTES], summed);
    let mut at = 0;
    let mut before = None;
    for i in 0..count {
        let row = match first_entry(&bytes[at..], HEADER_BYTES + at, before) {
            Ok(row) => row,
            Err(fault) => {
                feed(&mut summer, &whole[HEADER_BYTES + at..], summed);
                return (summer.value(), Err(fault));
            }
        };
        let from = HEADER_BYTES + at;
        feed(&mut summer, &whole[from..from + row.width], summed);
        before = Some(row.key);
        at += row.width;
    }
    feed(&mut summer, &whole[HEADER_BYTES + at..], summed);
    if at < bytes.len() {
        let fault = BlockFault {
            place: HEADER_BYTES + at,
            rule: BYTES_LEFT,
        };
        return (summer.value(), Err(fault));
    }
    (summer.value(), Ok(()))
}

// Goes on with a sum, where it is wanted.
pub(crate) fn feed(summer: &mut Summer, bytes: &[u8], summed: bool)
    ensures { (fed : Bytes) → summer.old ≡ sum_where summed fed → summer.new ≡ sum_where summed (fed ++ bytes.now) }
{
    if summed {
        summer.feed(bytes);
    }
}

// The sum of some bytes, where it is wanted.
pub(crate) fn sum_of(bytes: &[u8], summed: bool) -> u64
    ensures { result ≡ sum_where summed bytes.now }
{
    let mut summer = Summer::new();
    feed(&mut summer, bytes, summed);
    summer.value()
}

/// What the block of the first format that these bytes spell says of a key, where they are known to break no rule.
///
/// Goes from entry to entry, up to the first that is not below the key. No memory.
pub(crate) fn find_old<'a>(bytes: &'a [u8], key: &[u8]) -> Option<Option<&'a [u8]>>
    requires { old_block_fault bytes.now ≡ None }
    ensures { option_map (λ found. option_map (λ v. v.now) found) result ≡ lookup (old_block_in bytes.now) key.now }
{
    match old_header(bytes) {
        Ok((used, count)) => find_in(&bytes[HEADER_BYTES..used], count, key),
        Err(_) => None,
    }
}

// What so many entries say of a key. Those whose keys are below it are passed by; the next one has it, or none has.
fn find_in<'a>(bytes: &'a [u8], count: u8, key: &[u8]) -> Option<Option<&'a [u8]>>
    requires { Stand count is_any bytes.now }
    ensures { option_map (λ found. option_map (λ v. v.now) found) result ≡ lookup (old_entries_in count bytes.now) key.now }
{
    let mut at = 0;
    for i in 0..count {
        let row = entry_here(&bytes[at..]);
        if !is_below(row.key, key) {
            return said(row, key);
        }
        at += row.width;
    }
    None
}

// What an entry says of a key.
fn said<'a>(row: EntryHere<'a>, key: &[u8]) -> Option<Option<&'a [u8]>>
    ensures { option_map (λ f. option_map (λ v. v.now) f) result ≡ (if bytes_eq row.entry.key.now key.now then Some (option_map (λ v. v.now) row.entry.value) else None) }
{
    if is_same(row.key, key) {
        return Some(row.value);
    }
    None
}

// Whether two keys are the same. The last bytes are looked at first, since neighbours in a block begin alike.
#[tactic(auto, using(crate::proofs::Keys::other_length, crate::proofs::Keys::other_byte))]
pub(crate) fn is_same(one: &[u8], other: &[u8]) -> bool
    ensures { result ≡ bytes_eq one.now other.now }
{
    let len = one.len();
    if len != other.len() {
        return false;
    }
    if len > 0 && one[len - 1] != other[len - 1] {
        return false;
    }
    one == other
}

// Whether all bytes behind the length that is used are 0.
#[tactic(auto, unfolding(block_model::specs::BlockReading::tail_fault))]
pub(crate) fn check_padding(bytes: &[u8], used: usize) -> Result<(), BlockFault>
    requires used { used ≡ used_in bytes.now }
    requires within { used ≤ length bytes.now }
    ensures broken { IfErr result (λ found. tail_fault bytes.now ≡ Some (seen found)) }
    ensures place { IfErr result (λ found. found.place ≤ length bytes.now) }
    ensures whole { IfOk result (λ _. tail_fault bytes.now ≡ None) }
{
    let from = behind_zeros(bytes, used);
    for place in from..bytes.len() {
        if bytes[place] != 0 {
            return Err(BlockFault {
                place,
                rule: NO_PADDING,
            });
        }
    }
    Ok(())
}

// A place from this one on with nothing but zero bytes before it. Eight bytes are looked at as one number.
fn behind_zeros(bytes: &[u8], from: usize) -> usize
    requires { from ≤ length bytes.now }
    ensures from { from ≤ result }
    ensures within { result ≤ length bytes.now }
    ensures zeros { position_or_len (λ b. not (b == 0)) (drop from bytes.now) ≡ (result - from) + position_or_len (λ b. not (b == 0)) (drop result bytes.now) }
{
    let words = (bytes.len() - from) / WORD_BYTES;
    for word in 0..words {
        let at = from + WORD_BYTES * word;
        if BigEndian::read_u64(&bytes[at..]) != 0 {
            return at;
        }
    }
    from + WORD_BYTES * words
}
