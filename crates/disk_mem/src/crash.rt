//! What a crash leaves, by a choice for each write that no sync made to last.
ghost use Rattle.std.specs.Prelude.{◌≡◌, ◌+◌, ◌^◌, ◌≤◌, length, map, IfOk, OnOk};
ghost use Rattle.disk_mem.specs.Bytes.{with_write};
ghost use Rattle.disk_mem.specs.Calls.{bytes_after, calls_by};
ghost use Rattle.disk_mem.specs.Choices.{pick_of, pick_at, picked, crash_bytes};

use crate::call_log::CallLog;
use crate::choice::Choice;
use crate::device::put;
use std::alloc::{AllocError, Global};

/// The bytes that a crash after all these calls leaves of a disk that was made with the first ones.
pub fn crashed(
    alloc: Global,
    first: &[u8],
    log: &CallLog,
    choice: &[Choice],
) -> Result<Vec<u8>, AllocError>
    ensures { IfOk result (λ v. v.items ≡ crash_bytes first.now log.now.calls (map pick_of choice.now)) }
{
    let from = log.last_sync();
    let mut bytes = replayed(alloc, first, log, from)?;
    let mut next = 0;
    for number in from..log.len() {
        if log.is_write(number) {
            make(
                &mut bytes,
                log.place(number) as usize,
                log.bytes(number),
                choice,
                next,
            )?;
            next += 1;
        }
    }
    Ok(bytes)
}

// The bytes that are read after so many calls.
fn replayed(alloc: Global, first: &[u8], log: &CallLog, end: usize) -> Result<Vec<u8>, AllocError>
    requires { end ≤ length log.now.calls }
    ensures { IfOk result (λ v. v.items ≡ bytes_after first.now (calls_by end log.now.calls)) }
{
    let mut bytes = Vec::from_slice(alloc, first)?;
    for number in 0..end {
        if log.is_write(number) && log.is_done(number) {
            grow_and_put(&mut bytes, log.place(number) as usize, log.bytes(number))?;
        }
    }
    Ok(bytes)
}

// Makes of one write what the choice of this number says: without one it is lost.
fn make(
    bytes: &mut Vec<u8>,
    at: usize,
    from: &[u8],
    choice: &[Choice],
    number: usize,
) -> Result<(), AllocError>
    requires { at + length from.now ≤ 2 ^ 48 }
    ensures { OnOk result (bytes.new.items ≡ picked (pick_at (map pick_of choice.now) number) at from.now bytes.old.items) }
{
    if number >= choice.len() {
        return Ok(());
    }
    match &choice[number] {
        Choice::Whole => grow_and_put(bytes, at, from),
        Choice::Lost => Ok(()),
        Choice::Bytes(other) => {
            if other.len() == from.len() {
                grow_and_put(bytes, at, other)
            } else {
                Ok(())
            }
        }
    }
}

fn grow_and_put(bytes: &mut Vec<u8>, at: usize, from: &[u8]) -> Result<(), AllocError>
    requires { at + length from.now ≤ 2 ^ 48 }
    ensures { OnOk result (bytes.new.items ≡ with_write bytes.old.items at from.now) }
{
    let end = at + from.len();
    bytes.reserve(end.saturating_sub(bytes.len()))?;
    put(bytes, at, from);
    Ok(())
}
