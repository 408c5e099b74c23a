//! A disk in memory, which keeps its calls.
ghost use Rattle.std.specs.Prelude.{◌≡◌, ◌+◌, ◌^◌, ◌≤◌, ◌↔◌, length, map, IsTrue, IsOk, OnOk, IfOk, IfErr, Contains, vec_len, vec_capacity};
ghost use Rattle.disk_trait.specs.World.{window};
ghost use Rattle.disk_trait.specs.Fault.{IsFaultOf};
ghost use Rattle.disk_trait.specs.declared.fault.Op.TheVariants.{Read, Write, Sync};
ghost use Rattle.disk_mem.specs.Bytes.{image_of};
ghost use Rattle.disk_mem.specs.Calls.{bytes_after, reads_in};
ghost use Rattle.disk_mem.specs.Choices.{crash_bytes, pick_of};
ghost use Rattle.disk_mem.specs.History.{IsNew, ReadEnds, WriteEnds, SyncEnds, Lasts, moved_by, counted_on, starved_in};

use crate::call_log::CallLog;
use crate::choice::Choice;
use crate::crash::crashed;
use crate::device::{fill, put};
use disk_trait::{DiskFault, Op};
use std::alloc::{AllocError, Global};
use std::marker::Model;

/// A disk in memory, which contracts see as its bytes at the start and its calls since.
#[derive(Drop)]
pub struct MemDisk {
    first: Vec<u8>,
    bytes: Vec<u8>,
    log: CallLog,
    faults: Vec<u64>,
    starved_reads: u64,
    starved_writes: u64,
}

impl Model for MemDisk {
    ghost use Rattle.std.specs.Prelude.{◌≡◌, ◌-◌, min, vec_len, vec_capacity};
    ghost use Rattle.disk_mem.specs.Calls.{bytes_after};
    ghost use Rattle.disk_mem.specs.History.{History};

    ghost Value = { History };

    ghost view = { λ m. record {
      first = m.first.items;
      calls = m.log.calls;
      faults = m.faults.items;
      starved_reads = m.starved_reads;
      starved_writes = m.starved_writes;
      room_calls = m.log.room_calls;
      room_bytes = min m.log.room_bytes (vec_capacity m.bytes - vec_len m.bytes);
    } };

    ghost invariant = { λ m. m.bytes.items ≡ bytes_after m.first.items m.log.calls };
}

impl MemDisk {
    /// A disk that holds these bytes, with no call made and none to fail.
    pub fn new(alloc: Global, bytes: &[u8]) -> Result<Self, AllocError>
        ensures { IfOk result (IsNew bytes.now) }
    {
        Ok(MemDisk {
            first: Vec::from_slice(alloc, bytes)?,
            bytes: Vec::from_slice(alloc, bytes)?,
            log: CallLog::new(alloc),
            faults: Vec::new(alloc),
            starved_reads: 0,
            starved_writes: 0,
        })
    }

    /// The same disk, whose calls of these numbers fail. Its first call since it was made has number 0.
    pub fn with_faults(mut self, faults: Vec<u64>) -> Self
        ensures { result ≡ record self { faults = faults.items } }
    {
        self.faults = faults;
        self
    }

    /// Takes room for so many calls that move so many bytes in all. While it lasts no call is without memory.
    ///
    /// A read moves the bytes that it gives; a write its own, and the zeros between the device's end and its place.
    /// At `Err` the disk has the room that it had, or more.
    pub fn reserve(&mut self, calls: usize, bytes: usize) -> Result<(), AllocError>
        ensures same { record self.new { room_calls = self.old.room_calls; room_bytes = self.old.room_bytes } ≡ self.old }
        ensures calls { OnOk result (calls ≤ self.new.room_calls) }
        ensures bytes { OnOk result (bytes ≤ self.new.room_bytes) }
        ensures no_less { self.old.room_calls ≤ self.new.room_calls }
        ensures no_less_bytes { self.old.room_bytes ≤ self.new.room_bytes }
    {
        self.log.reserve(calls, bytes)?;
        self.bytes.reserve(bytes)
    }

    /// How many calls found no memory: each of them did nothing, has no number, and failed.
    pub fn starved(&self) -> u64
        ensures { result ≡ starved_in self.now }
    {
        self.starved_reads.saturating_add(self.starved_writes)
    }

    /// A new disk with what a crash now leaves: each write, done or failed, since the last sync that succeeded is what
    /// the choices say, the first choice for the first of them. A write without a choice is lost; choices past the last
    /// write are not read.
    pub fn crash(&self, choice: &[Choice]) -> Result<MemDisk, AllocError>
        ensures { IfOk result (IsNew (crash_bytes self.now.first self.now.calls (map pick_of choice.now))) }
    {
        let alloc = *self.first.allocator();
        let bytes = crashed(alloc, &self.first, &self.log, choice)?;
        MemDisk::new(alloc, &bytes)
    }

    /// How many calls have a number: that of the next one.
    pub fn calls(&self) -> usize
        ensures { result ≡ length self.now.calls }
    {
        self.log.len()
    }

    /// How many reads had a number.
    pub fn reads(&self) -> u64
        ensures { result ≡ reads_in self.now.calls }
    {
        let mut reads = 0;
        for number in 0..self.log.len() {
            if self.log.op(number) == Op::Read {
                reads += 1;
            }
        }
        reads
    }

    /// What a read of all would give: its bytes up to the end of the furthest write.
    pub fn bytes(&self) -> &[u8]
        ensures { result.now ≡ bytes_after self.now.first self.now.calls }
    {
        &self.bytes
    }

    /// A read, with its number where there is memory for its record.
    pub fn number_read(&mut self, at: u64, into: &mut [u8]) -> Result<(), DiskFault>
        requires { at + length into.old ≤ 2 ^ 48 }
        ensures bytes { OnOk result (into.new ≡ window (image_of (bytes_after self.old.first self.old.calls)) at (length into.old)) }
        ensures ends { ReadEnds at into.new result self.old self.new }
        ensures lasts { Lasts (length into.old) self.old self.new }
        ensures fault { IfErr result (IsFaultOf Read at) }
    {
        let fault = DiskFault { op: Op::Read, at };
        if self.log.reserve(1, into.len()).is_err() {
            self.starved_reads = raise(self.starved_reads);
            return Err(fault);
        }
        if is_listed(&self.faults, self.log.len()) {
            self.log.add(Op::Read, at, &[], false);
            return Err(fault);
        }
        fill(&self.bytes, at as usize, into);
        self.log.add(Op::Read, at, into, true);
        Ok(())
    }

    /// A write, with its number where there is memory for its record and for its bytes.
    pub fn number_write(&mut self, at: u64, from: &[u8]) -> Result<(), DiskFault>
        requires { at + length from.now ≤ 2 ^ 48 }
        ensures ends { WriteEnds at from.now result self.old self.new }
        ensures lasts { Lasts (moved_by at (length from.now) self.old) self.old self.new }
        ensures fault { IfErr result (IsFaultOf Write at) }
    {
        let fault = DiskFault { op: Op::Write, at };
        let end = at as usize + from.len();
        if make_room(&mut self.log, &mut self.bytes, from.len(), end).is_err() {
            self.starved_writes = raise(self.starved_writes);
            return Err(fault);
        }
        if is_listed(&self.faults, self.log.len()) {
            self.log.add(Op::Write, at, from, false);
            return Err(fault);
        }
        self.log.add(Op::Write, at, from, true);
        put(&mut self.bytes, at as usize, from);
        Ok(())
    }

    /// A sync, with its number where there is memory for its record.
    pub fn number_sync(&mut self) -> Result<(), DiskFault>
        ensures ends { SyncEnds result self.old self.new }
        ensures lasts { Lasts 0 self.old self.new }
        ensures fault { IfErr result (IsFaultOf Sync 0) }
    {
        let fault = DiskFault {
            op: Op::Sync,
            at: 0,
        };
        if self.log.reserve(1, 0).is_err() {
            self.starved_writes = raise(self.starved_writes);
            return Err(fault);
        }
        let done = !is_listed(&self.faults, self.log.len());
        self.log.add(Op::Sync, 0, &[], done);
        if done { Ok(()) } else { Err(fault) }
    }
}

// Room for a write of n bytes that ends at this place.
fn make_room(log: &mut CallLog, bytes: &mut Vec<u8>, n: usize, end: usize) -> Result<(), AllocError>
    ensures calls { log.new.calls ≡ log.old.calls }
    ensures items { bytes.new.items ≡ bytes.old.items }
    ensures room { OnOk result (1 ≤ log.new.room_calls) }
    ensures room_bytes { OnOk result (n ≤ log.new.room_bytes) }
    ensures capacity { OnOk result (end ≤ vec_capacity bytes.new) }
    ensures no_less { log.old.room_calls ≤ log.new.room_calls }
    ensures no_less_bytes { log.old.room_bytes ≤ log.new.room_bytes }
    ensures no_less_capacity { vec_capacity bytes.old ≤ vec_capacity bytes.new }
    ensures succeeds { 1 ≤ log.old.room_calls → n ≤ log.old.room_bytes → end ≤ vec_capacity bytes.old → IsOk result }
{
    log.reserve(1, n)?;
    bytes.reserve(end.saturating_sub(bytes.len()))
}

fn is_listed(faults: &Vec<u64>, number: usize) -> bool
    ensures { IsTrue result ↔ Contains faults.now.items number }
{
    faults.contains(&(number as u64))
}

// One higher, or the same at the last value.
fn raise(count: u64) -> u64
    ensures { result ≡ counted_on count }
{
    count.saturating_add(1)
}
