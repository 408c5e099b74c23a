//! The pairs of a store, each as the line that puts it.
ghost use Rattle.std.specs.Prelude.{◌≡◌, ◌⊎◌, ◌≤◌, ◌<◌, ◌++◌, [], ◌^◌, length, take, false, None, IfOk, IsTrue, OnErr};
ghost use Rattle.key_base.specs.Limits.{max_key_bytes, max_value_bytes};
ghost use Rattle.lines_in.specs.Causes.{SayFailed};
ghost use Rattle.lines_in.specs.Statuses.{damaged_status, done_status, memory_status, output_status};
ghost use Rattle.lines_in.specs.Unserved.{LastLine};
ghost use Rattle.map_model.specs.SortedMap.{Map};
ghost use Rattle.outside.specs.Streams.{SayMoves, SaysPrefix};
ghost use Rattle.state_model.specs.State.{State};
ghost use Rattle.store_commands.specs.Puts.{put_text};
ghost use Rattle.store_core.specs.Represents.{ReadsAs};
ghost use Rattle.store_core.specs.Scans.{AreAllSound, StillComes};
ghost use Rattle.surf_run.specs.Causes.{ShowsSomeDamage};
ghost use Rattle.surf_run.specs.Checks.{ChangesNothing};
ghost use Rattle.surf_run.specs.Open.{IsOpening, opening_status, opening_text};
ghost use Rattle.surf_run.specs.Readings.{DumpEnds, EndsPairs, IsDumpText, IsPairsText, SaidAllNumbers, WentAlong};
ghost use Rattle.table_model.specs.Tables.{filter_bytes_of};

use crate::opening::say_why;
use crate::reading::read_or_say;
use filter_api::RangeFilter;
use key_base::PIECE_BYTES;
use lines_in::{Status, last_line, say_last};
use outside::{Outside, SayFault, say_all};
use std::alloc::Global;
use store_commands::{Reply, put_piece};
use store_core::{Scan, Store, StoreError};

// Lays the line that puts a pair out after the `used` bytes of the buffer that wait to be said, says the buffer whenever it is
// full, and answers how many bytes wait now.
#[inline(always)]
fn add_put<W: Outside>(
    out: &mut W,
    buffer: &mut [u8],
    used: usize,
    key: &[u8],
    value: &[u8],
) -> Result<usize, SayFault>
    requires room { used < length buffer.old }
    requires key { length key.now ≤ max_key_bytes }
    requires value { length value.now ≤ max_value_bytes }
    ensures said { IsTrue W.tells_output → IfOk result (λ waits. (W.world out.new).beside.said ++ take waits buffer.new ≡ (W.world out.old).beside.said ++ (take used buffer.old ++ put_text key.now value.now)) }
    ensures prefix { IsTrue W.tells_output → SaysPrefix (take used buffer.old ++ put_text key.now value.now) (W.world out.old).beside.said (W.world out.new).beside.said }
    ensures room { IfOk result (λ waits. waits < length buffer.new) }
    ensures moves { SayMoves (W.world out.old) (W.world out.new) }
    ensures cause { OnErr result (SayFailed (W.world out.old) (W.world out.new)) }
{
    let mut used = used;
    let mut from = 0;
    loop {
        let n = put_piece(key, value, from, &mut buffer[used..]);
        used += n;
        if used < buffer.len() {
            return Ok(used);
        }
        say_all(out, buffer)?;
        from += n;
        used = 0;
    }
}

// Says what waits, and then why no more pairs are said.
fn say_why_after<W: Outside>(out: &mut W, waits: &[u8], why: StoreError) -> u8
    requires { IsOpening why }
    ensures said { IsTrue W.tells_output → result ≡ opening_status why → (W.world out.new).beside.said ≡ (W.world out.old).beside.said ++ (waits.now ++ opening_text why) }
    ensures prefix { IsTrue W.tells_output → SaysPrefix (waits.now ++ opening_text why) (W.world out.old).beside.said (W.world out.new).beside.said }
    ensures ends { (result ≡ opening_status why) ⊎ ((result ≡ output_status) × SayFailed (W.world out.old) (W.world out.new)) }
    ensures moves { SayMoves (W.world out.old) (W.world out.new) }
{
    if say_all(out, waits).is_err() {
        return Status::Output as u8;
    }
    say_why(out, why)
}

// Says all pairs that a scan brings. They wait in the buffer until it is full.
fn say_pairs<F: RangeFilter, W: Outside>(scan: Scan<'_, F>, buffer: &mut [u8], out: &mut W) -> u8
    requires room { 0 < length buffer.old }
    ensures lines { (m : Map) → IsTrue W.tells → IsTrue W.tells_output → length m < 2 ^ 64 → StillComes F.spelling scan.entry m (W.world out.old).seen.held → LastLine (IsPairsText m) result (W.world out.old) (W.world out.new) }
    ensures sound { (m : Map) → IsTrue W.tells → StillComes F.spelling scan.entry m (W.world out.old).seen.held → result ≡ damaged_status → ⊥ }
    ensures shown { IsTrue W.tells → IsTrue W.tells_output → result ≡ damaged_status → ShowsSomeDamage (W.world out.new) }
    ensures whole { IsTrue W.tells → IsTrue W.tells_output → result ≡ done_status → scan.entry.left ≡ None → WentAlong scan.entry (W.world out.old).seen.held ⊎ SaidAllNumbers (W.world out.old) (W.world out.new) }
    ensures ends { EndsPairs result (W.world out.old) (W.world out.new) }
    ensures changes { ChangesNothing (W.world out.old) (W.world out.new) }
{
    let mut scan = scan;
    let mut used = 0;
    // No store has more pairs.
    for _ in 0..u64::MAX {
        match scan.advance(out) {
            Ok(true) => {}
            Ok(false) => return say_last(out, &buffer[..used], Status::Done as u8),
            Err(why) => return say_why_after(out, &buffer[..used], why),
        }
        let Some((key, value)) = scan.pair() else {
            unreachable!()
        };
        match add_put(out, buffer, used, key, value) {
            Ok(waits) => used = waits,
            Err(_) => return Status::Output as u8,
        }
    }
    say_last(out, &buffer[..used], Status::Done as u8)
}

// Says each pair of an opened store, laid out in a buffer. The memory of the scan is taken before anything is said.
fn say_store<F: RangeFilter, W: Outside>(store: &Store<F>, buffer: &mut [u8], out: &mut W) -> u8
    requires running { store.now.stopped ≡ false }
    requires room { 0 < length buffer.old }
    ensures lines { (s : State) → IsTrue W.tells → IsTrue W.tells_output → ReadsAs F.spelling (filter_bytes_of F.spelling F.built_cutoff) store.now s (W.world out.old).seen.held
        → LastLine (IsDumpText s) result (W.world out.old) (W.world out.new) }
    ensures sound { (s : State) → IsTrue W.tells → ReadsAs F.spelling (filter_bytes_of F.spelling F.built_cutoff) store.now s (W.world out.old).seen.held → result ≡ damaged_status → ⊥ }
    ensures shown { IsTrue W.tells → IsTrue W.tells_output → result ≡ damaged_status → ShowsSomeDamage (W.world out.new) }
    ensures whole { IsTrue W.tells → IsTrue W.tells_output → result ≡ done_status → AreAllSound store.now.tables (W.world out.old).seen.held ⊎ SaidAllNumbers (W.world out.old) (W.world out.new) }
    ensures ends { EndsPairs result (W.world out.old) (W.world out.new) ⊎ (result ≡ memory_status) }
    ensures changes { ChangesNothing (W.world out.old) (W.world out.new) }
{
    match store.seek(&[], None) {
        Ok(scan) => say_pairs(scan, buffer, out),
        Err(why) => say_why(out, why),
    }
}

// Says each pair of an opened store. All memory is taken before anything is said.
fn dump_store<F: RangeFilter, W: Outside>(alloc: Global, store: &Store<F>, out: &mut W) -> u8
    requires running { store.now.stopped ≡ false }
    ensures lines { (s : State) → IsTrue W.tells → IsTrue W.tells_output → ReadsAs F.spelling (filter_bytes_of F.spelling F.built_cutoff) store.now s (W.world out.old).seen.held
        → LastLine (IsDumpText s) result (W.world out.old) (W.world out.new) }
    ensures sound { (s : State) → IsTrue W.tells → ReadsAs F.spelling (filter_bytes_of F.spelling F.built_cutoff) store.now s (W.world out.old).seen.held → result ≡ damaged_status → ⊥ }
    ensures shown { IsTrue W.tells → IsTrue W.tells_output → result ≡ damaged_status → ShowsSomeDamage (W.world out.new) }
    ensures whole { IsTrue W.tells → IsTrue W.tells_output → result ≡ done_status → AreAllSound store.now.tables (W.world out.old).seen.held ⊎ SaidAllNumbers (W.world out.old) (W.world out.new) }
    ensures ends { EndsPairs result (W.world out.old) (W.world out.new) ⊎ (result ≡ memory_status) }
    ensures changes { ChangesNothing (W.world out.old) (W.world out.new) }
{
    match vec![in alloc; 0; PIECE_BYTES] {
        Ok(buffer) => {
            let mut buffer = buffer;
            say_store(store, &mut buffer, out)
        }
        Err(_) => last_line(out, &Reply::Memory, Status::Memory as u8),
    }
}

/// Opens the store only to read it, says each pair as the line that puts it, by rising keys, and answers the exit status. It
/// writes and syncs nothing.
///
/// | status | comes | said |
/// |---|---|---|
/// | 0 | all pairs were said | a line `put K V` for each |
/// | 4 | the device failed | the lines of some first pairs, `device` |
/// | 5 | damage was found | the lines of some first pairs, `damaged PART AT ..` |
/// | 6 | the output failed | a prefix of the lines |
/// | 7 | there was no memory | `memory` |
/// | 8 | no store is there | `not a store` |
pub(crate) fn run_dump<F: RangeFilter, W: Outside>(alloc: Global, out: &mut W) -> u8
    ensures { DumpEnds F.spelling F.first_fault W.tells W.tells_output result (W.world out.old) (W.world out.new) }
{
    match read_or_say::<F, W>(alloc, out) {
        Ok(store) => dump_store(alloc, &store, out),
        Err(status) => status,
    }
}
