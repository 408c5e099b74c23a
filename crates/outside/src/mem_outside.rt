//! A disk in memory with an input and an output beside it.
ghost use Rattle.std.specs.Prelude.{◌≡◌, ◌+◌, ◌-◌, ◌^◌, ◌≤◌, ◌<◌, ◌↔◌, ◌++◌, length, IsTrue, IsOk, IfOk, OnOk, Contains, drop, take, vec_len, vec_capacity};
ghost use Rattle.disk_mem.specs.History.{counted_on};
ghost use Rattle.outside.specs.Session.{Session, IsClock, fresh, TakeEnds, SayEnds};

use crate::mark::Mark;
use crate::stream::{SayFault, TakeFault};
use disk_mem::MemDisk;
use std::alloc::AllocError;
use std::marker::Model;

/// A disk in memory with an input and an output beside it, which tell all.
///
/// It is handed from run to run by [`MemOutside::into_disk`], or through a crash of that disk.
#[derive(Drop)]
pub struct MemOutside {
    pub(crate) disk: MemDisk,
    input: Vec<u8>,
    taken: usize,
    said: Vec<u8>,
    marks: Vec<Mark>,
    failing_takes: Vec<u64>,
    failing_says: Vec<u64>,
    takes: u64,
    says: u64,
    take_faults: u64,
    say_faults: u64,
    pace: usize,
}

impl Model for MemOutside {
    ghost use Rattle.std.specs.Prelude.{◌≡◌, ◌≤◌, drop, reverse, length};
    ghost use Rattle.outside.specs.Session.{Session, IsClock};

    ghost Value = { Session };

    ghost view = { λ o. record {
      disk = o.disk;
      to_take = drop o.taken o.input.items;
      said = o.said.items;
      marks = reverse o.marks.items;
      failing_takes = o.failing_takes.items;
      failing_says = o.failing_says.items;
      takes = o.takes;
      says = o.says;
      take_faults = o.take_faults;
      say_faults = o.say_faults;
      pace = o.pace;
    } };

    ghost invariant = { λ o. record {
      clock : IsClock (length o.disk.calls) (length o.said.items) (reverse o.marks.items);
      taken : o.taken ≤ length o.input.items;
      pace : 1 ≤ o.pace;
    } };
}

impl MemOutside {
    /// An outside over this disk, with these bytes to take; the takes and the says of these numbers fail, the first
    /// since it was made being number 0.
    pub fn new(disk: MemDisk, input: Vec<u8>, takes: Vec<u64>, says: Vec<u64>) -> Self
        ensures { result ≡ fresh disk input.items takes.items says.items (2 ^ 64 - 1) }
    {
        let alloc = *input.allocator();
        MemOutside {
            disk,
            input,
            taken: 0,
            said: Vec::new(alloc),
            marks: Vec::new(alloc),
            failing_takes: takes,
            failing_says: says,
            takes: 0,
            says: 0,
            take_faults: 0,
            say_faults: 0,
            pace: usize::MAX,
        }
    }

    /// The same outside, which takes and says at most so many bytes in one call.
    pub fn with_pace(mut self, bytes: usize) -> Self
        requires { 1 ≤ bytes }
        ensures { result ≡ record self { pace = bytes } }
    {
        self.pace = bytes;
        self
    }

    /// All that was said.
    pub fn said(&self) -> &[u8]
        ensures { result.now ≡ self.now.said }
    {
        &self.said
    }

    /// The disk, with its calls.
    pub fn into_disk(self) -> MemDisk
        ensures { result ≡ self.disk }
    {
        self.disk
    }

    /// A take, with its number.
    pub(crate) fn number_take(&mut self, into: &mut [u8]) -> Result<usize, TakeFault>
        ensures ends { TakeEnds (length into.old) result self.old self.new }
        ensures bytes { IfOk result (λ n. take n into.new ≡ take n self.old.to_take) }
        ensures pace { 1 ≤ self.old.pace }
    {
        let listed = is_listed(&self.failing_takes, self.takes);
        self.takes = raise(self.takes);
        if listed {
            self.take_faults = raise(self.take_faults);
            return Err(TakeFault);
        }
        let count = self.pace.min(into.len().min(self.input.len() - self.taken));
        into[..count].copy_from_slice(&self.input[self.taken..self.taken + count]);
        self.taken += count;
        Ok(count)
    }

    /// A say, with its number where there is memory for its bytes and its mark.
    pub(crate) fn number_say(&mut self, from: &[u8]) -> Result<usize, SayFault>
        ensures ends { SayEnds from.now result self.old self.new }
        ensures pace { 1 ≤ self.old.pace }
        ensures clock { IsClock (length self.old.disk.calls) (length self.old.said) self.old.marks }
    {
        let count = self.pace.min(from.len());
        if make_room(&mut self.said, &mut self.marks, count).is_err() {
            self.say_faults = raise(self.say_faults);
            return Err(SayFault);
        }
        let listed = is_listed(&self.failing_says, self.says);
        self.says = raise(self.says);
        if listed {
            self.say_faults = raise(self.say_faults);
            return Err(SayFault);
        }
        match self.said.extend_from_slice(&from[..count]) {
            Ok(()) => {}
            Err(_) => unreachable!(),
        }
        let calls = self.disk.calls();
        self.marks.push_reserved(Mark {
            calls,
            said: self.said.len(),
        });
        Ok(count)
    }
}

// Room for so many bytes more, and for a mark.
fn make_room(said: &mut Vec<u8>, marks: &mut Vec<Mark>, bytes: usize) -> Result<(), AllocError>
    ensures said { said.new.items ≡ said.old.items }
    ensures marks { marks.new.items ≡ marks.old.items }
    ensures room { OnOk result (vec_len said.new + bytes ≤ vec_capacity said.new) }
    ensures room_marks { OnOk result (vec_len marks.new < vec_capacity marks.new) }
{
    said.reserve(bytes)?;
    marks.reserve(1)
}

fn is_listed(list: &Vec<u64>, number: u64) -> bool
    ensures { IsTrue result ↔ Contains list.now.items number }
{
    list.contains(&number)
}

// One higher, or the same at the last value.
fn raise(count: u64) -> u64
    ensures { result ≡ counted_on count }
{
    count.saturating_add(1)
}
