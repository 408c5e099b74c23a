//! The calls of a disk, with the bytes that they moved: one list of entries, and one row of bytes for all of them, so
//! that room for many calls is asked for at once.
ghost use Rattle.std.specs.Prelude.{◌≡◌, ◌+◌, ◌^◌, ◌≤◌, ◌<◌, ◌↔◌, [], ◌∷◌, length, IsTrue, OnOk, IsOk};
ghost use Rattle.disk_mem.specs.Calls.{call_at, last_sync};

use disk_trait::Op;
use std::alloc::{AllocError, Global};
use std::marker::Model;

/// A call: its bytes stand in the row, `len` of them from place `from` on.
#[derive(Clone, Copy)]
pub struct CallRow {
    pub op: Op,
    pub at: u64,
    pub from: usize,
    pub len: usize,
    pub done: bool,
}

/// The calls of a disk, the first call first.
#[derive(Drop)]
pub struct CallLog {
    entries: Vec<CallRow>,
    moved: Vec<u8>,
}

impl Model for CallLog {
    ghost use Rattle.std.specs.Prelude.{◌-◌, vec_len, vec_capacity};
    ghost use Rattle.disk_mem.specs.Kept.{Log, calls_of, AreKept};

    ghost Value = { Log };

    ghost view = { λ c. record { calls = calls_of c.moved.items c.entries.items; room_calls = vec_capacity c.entries - vec_len c.entries; room_bytes = vec_capacity c.moved - vec_len c.moved } };

    ghost invariant = { λ c. AreKept c.moved.items c.entries.items };
}

impl CallLog {
    /// No call yet, and no room.
    pub fn new(alloc: Global) -> Self
        ensures { result.calls ≡ [] }
    {
        CallLog {
            entries: Vec::new(alloc),
            moved: Vec::new(alloc),
        }
    }

    /// How many calls there are.
    pub fn len(&self) -> usize
        ensures { result ≡ length self.now.calls }
    {
        self.entries.len()
    }

    /// Takes room for so many calls that move so many bytes in all. It fails only where that room was missing.
    pub fn reserve(&mut self, calls: usize, bytes: usize) -> Result<(), AllocError>
        ensures same { self.new.calls ≡ self.old.calls }
        ensures room { OnOk result (calls ≤ self.new.room_calls) }
        ensures room_bytes { OnOk result (bytes ≤ self.new.room_bytes) }
        ensures no_less { self.old.room_calls ≤ self.new.room_calls }
        ensures no_less_bytes { self.old.room_bytes ≤ self.new.room_bytes }
        ensures succeeds { calls ≤ self.old.room_calls → bytes ≤ self.old.room_bytes → IsOk result }
    {
        self.entries.reserve(calls)?;
        self.moved.reserve(bytes)
    }

    /// Adds a call, for which there is room.
    pub fn add(&mut self, op: Op, at: u64, bytes: &[u8], done: bool)
        requires room { 1 ≤ self.old.room_calls }
        requires room_bytes { length bytes.now ≤ self.old.room_bytes }
        requires in_range { at + length bytes.now ≤ 2 ^ 48 }
        ensures calls { self.new.calls ≡ record { op = op; at = at; bytes = bytes.now; done = done } ∷ self.old.calls }
        ensures room { self.old.room_calls ≤ self.new.room_calls + 1 }
        ensures room_bytes { self.old.room_bytes ≤ self.new.room_bytes + length bytes.now }
    {
        let from = self.moved.len();
        match self.moved.extend_from_slice(bytes) {
            Ok(()) => {}
            Err(_) => unreachable!(),
        }
        self.entries.push_reserved(CallRow {
            op,
            at,
            from,
            len: bytes.len(),
            done,
        });
    }

    /// How many calls there are up to the last sync that succeeded, that sync among them.
    pub fn last_sync(&self) -> usize
        ensures { result ≡ last_sync self.now.calls }
    {
        let mut last = 0;
        for number in 0..self.len() {
            if self.op(number) == Op::Sync && self.is_done(number) {
                last = number + 1;
            }
        }
        last
    }

    /// What the call of this number was asked for.
    pub fn op(&self, number: usize) -> Op
        requires { number < length self.now.calls }
        ensures { result ≡ (call_at self.now.calls number).op }
    {
        self.entries[number].op
    }

    /// Whether the call of this number was a write.
    pub fn is_write(&self, number: usize) -> bool
        requires { number < length self.now.calls }
        ensures { IsTrue result ↔ ((call_at self.now.calls number).op ≡ Op.Write) }
    {
        match self.op(number) {
            Op::Write => true,
            Op::Read | Op::Sync => false,
        }
    }

    /// The place of the call of this number.
    pub fn place(&self, number: usize) -> u64
        requires { number < length self.now.calls }
        ensures { result ≡ (call_at self.now.calls number).at }
    {
        self.entries[number].at
    }

    /// The bytes that the call of this number moved.
    pub fn bytes(&self, number: usize) -> &[u8]
        requires { number < length self.now.calls }
        ensures bytes { result.now ≡ (call_at self.now.calls number).bytes }
        ensures in_range { (call_at self.now.calls number).at + length result.now ≤ 2 ^ 48 }
    {
        let entry = self.entries[number];
        &self.moved[entry.from..entry.from + entry.len]
    }

    /// Whether the call of this number was done.
    pub fn is_done(&self, number: usize) -> bool
        requires { number < length self.now.calls }
        ensures { result ≡ (call_at self.now.calls number).done }
    {
        self.entries[number].done
    }
}
