//! The log over its device.
ghost use Rattle.std.specs.Prelude.{◌≡◌, ◌+◌, ◌*◌, ◌≤◌, ◌<◌, ◌++◌, ◌^◌, ◌↔◌, [], ◌∷◌, List, ℕ, length, vec_len, IsTrue, IfOk, IfErr, OnOk, OnErr, MatchResult};
ghost use Rattle.disk_trait.specs.Fault.{IsWriteThroughFault};
ghost use Rattle.disk_trait.specs.Image.{overwritten};
ghost use Rattle.disk_trait.specs.World.{Now, Leads, ReadMoves, WriteMoves, Rose};
ghost use Rattle.key_base.specs.Limits.{log_bytes, max_key_bytes, max_logged_value_bytes};
ghost use Rattle.entry_model.specs.Entries.{need, body_length, record_bytes, entry_of, IsLogged};
ghost use Rattle.log_model.specs.Changes.{change_record, filled_by, need_of, IsLoggedChange};
ghost use Rattle.range_model.specs.Ranges.{IsBound, range_of};
ghost use Rattle.range_model.specs.Sources.{ClearsKeys, Sets, Clears};
ghost use Rattle.range_model.specs.Sources as model;
ghost use Rattle.key_base.specs.ByteOrder.{IsBefore};
ghost use Rattle.log_model.specs.Area.{Position, LogIs, WithOrWithout, IsNextRecord, start_of, area_in};
ghost use Rattle.gate_log.specs.Faults.{IsAppendFault, IsShapeIn, HasReadCause, IsNoShape};
ghost use Rattle.std.specs.List.{AllByRecursion};
ghost use Rattle.gate_log.specs.Values.{value_of};

use crate::fault::LogFault;
use crate::reading::changes_in;
use crate::writing::{CLOSED, OPEN, put_range, put_record};
use byte_fields::PartFault;
use disk_trait::{Disk, DiskFault, write_through};
use entry_list::{Change, ChangeKind};
use key_base::LOG_BYTES;
use std::alloc::Global;
use std::marker::Model;

/// A log in one of the two areas of a device: where its next record goes.
#[derive(Drop)]
pub struct Log {
    area: u8,
    filled: usize,
}

impl Model for Log {
    ghost use Rattle.std.specs.Prelude.{◌<◌, ◌≤◌};
    ghost use Rattle.key_base.specs.Limits.{log_bytes};
    ghost use Rattle.log_model.specs.Area.{Position};

    ghost Value = { Position };

    ghost view = { λ l. record { area = l.area; filled = l.filled } };

    ghost invariant = { λ l. (l.area ≤ 1) × (l.filled < log_bytes) };
}

/// The first byte of a log area on its device.
pub(crate) fn area_start(area: u8) -> u64
    requires { area ≤ 1 }
    ensures { result ≡ start_of area }
{
    LOG_BYTES as u64 * (u64::from(area) + 1)
}

impl Log {
    /// Begins an empty log in an area, 0 or 1: one write and one sync. Takes no memory.
    ///
    /// At `Ok` each image that a crash may leave has an empty log there, whatever stood there before: the device holds a
    /// closed gate at the area's first byte, and what it held elsewhere.
    pub fn start<D: Disk>(disk: &mut D, area: u8) -> Result<Log, DiskFault>
        requires { area ≤ 1 }
        ensures log { IfOk result (λ log. log ≡ record { area = area; filled = 0 }) }
        ensures stands { IsTrue D.tells → OnOk result (Now (LogIs area []) (D.world disk.new)) }
        ensures held { IsTrue D.tells → OnOk result ((D.world disk.new).seen.held ≡ overwritten (D.world disk.old).seen.held (start_of area) (0 ∷ [])) }
        ensures moves { WriteMoves (start_of area) 1 (D.world disk.old) (D.world disk.new) }
        ensures fault { IfErr result (IsWriteThroughFault (start_of area)) }
        ensures cause { OnErr result (Rose (D.world disk.old).seen.write_faults (D.world disk.new).seen.write_faults) }
    {
        write_through(disk, area_start(area), &[CLOSED])?;
        Ok(Log { area, filled: 0 })
    }

    /// Begins a log in an area, 0 or 1, and adds these changes in order: a start and an append each.
    ///
    /// At `Ok` each image that a crash may leave has these changes in the area, so that replaying it gives them again. At
    /// `Err` some of them may stand, from the first on. `buf` has room for each body and one byte more.
    pub fn rewrite<D: Disk>(
        disk: &mut D,
        area: u8,
        buf: &mut [u8],
        changes: &[Change],
    ) -> Result<Log, DiskFault>
        requires area { area ≤ 1 }
        requires sound { AllByRecursion IsLoggedChange changes.now }
        requires fits { filled_by changes.now < log_bytes }
        requires room { body_length max_key_bytes max_logged_value_bytes + 1 ≤ length buf.old }
        ensures log { IfOk result (λ log. log ≡ record { area = area; filled = filled_by changes.now }) }
        ensures stands { IsTrue D.tells → OnOk result (Now (LogIs area changes.now) (D.world disk.new)) }
        ensures moves { WriteMoves (start_of area) log_bytes (D.world disk.old) (D.world disk.new) }
        ensures cause { OnErr result (Rose (D.world disk.old).seen.write_faults (D.world disk.new).seen.write_faults) }
    {
        let mut log = Log::start(disk, area)?;
        for change in changes {
            log.add(disk, buf, change)?;
        }
        Ok(log)
    }

    /// Reads the log of an area, 0 or 1: the changes of its records, in the order of writing, up to the first gate that
    /// is not open. One read of the whole area, whose memory is taken first.
    ///
    /// `Ok` exactly where the area keeps the rules of the format, but for want of memory and faults of the device, else
    /// the first rule that is broken and the device byte of its record's gate.
    pub fn replay<D: Disk>(
        alloc: Global,
        disk: &mut D,
        area: u8,
    ) -> Result<(Log, Vec<Change>), LogFault>
        requires { area ≤ 1 }
        ensures log { IfOk result (λ found. found.0 ≡ record { area = area; filled = filled_by found.1.items }) }
        ensures changes { IsTrue D.tells → IfOk result (λ found. LogIs area found.1.items (D.world disk.old).seen.held) }
        ensures sound { IfOk result (λ found. AllByRecursion IsLoggedChange found.1.items) }
        ensures bounds { IfOk result (λ found. AllByRecursion ClearsKeys found.1.items) }
        ensures within { IfOk result (λ found. filled_by found.1.items < log_bytes) }
        ensures exact { (changes : List model.Change) → IsTrue D.tells → LogIs area changes (D.world disk.old).seen.held → MatchResult result (λ found. found.1.items ≡ changes) IsNoShape }
        ensures shape { IsTrue D.tells → IfErr result (IsShapeIn area (D.world disk.old).seen.held) }
        ensures cause { IfErr result (HasReadCause area (D.world disk.old) (D.world disk.new)) }
        ensures moves { ReadMoves 1 (D.world disk.old) (D.world disk.new) }
    {
        let bytes = read_area(alloc, disk, area)?;
        match changes_in(alloc, &bytes) {
            Ok((changes, filled)) => Ok((Log { area, filled }, changes)),
            Err(PartFault::Memory) => Err(LogFault::Memory),
            Err(PartFault::Shape { place, rule }) => Err(LogFault::Shape {
                at: area_start(area) + place as u64,
                rule,
            }),
        }
    }

    /// The bytes that are left in the area.
    pub fn gap(&self) -> usize
        ensures { result + self.now.filled ≡ log_bytes }
    {
        LOG_BYTES - self.filled
    }

    /// Whether a record fits that needs so many bytes, its gate and the one behind it among them.
    pub fn fits(&self, need: usize) -> bool
        ensures { IsTrue result ↔ (self.now.filled + need ≤ log_bytes) }
    {
        need <= self.gap()
    }

    /// Adds the record of a key with its value, or without, which deletes it: its body with the closed gate behind it, and,
    /// once these are synced, the open gate.
    ///
    /// At `Ok` each image that a crash may leave has the record, and the device holds its bytes and a closed gate behind
    /// them; meanwhile, and after an `Err`, it is there or not, never in part. Two writes and two syncs, no read and no
    /// memory: `buf` has room for the body and one byte more, as [`crate::BUFFER_BYTES`] are for each entry.
    pub fn append<D: Disk>(
        &mut self,
        disk: &mut D,
        buf: &mut [u8],
        key: &[u8],
        value: Option<&[u8]>,
    ) -> Result<(), DiskFault>
        requires sound { IsLogged (entry_of key.now (value_of value)) }
        requires fits { self.old.filled + need (entry_of key.now (value_of value)) ≤ log_bytes }
        requires room { need (entry_of key.now (value_of value)) ≤ length buf.old + 1 }
        ensures crash { (changes : List model.Change) → IsTrue D.tells → self.old.filled ≡ filled_by changes
            → Leads (LogIs self.old.area changes) (WithOrWithout self.old.area changes (Sets (entry_of key.now (value_of value.entry)))) (LogIs self.old.area (changes ++ Sets (entry_of key.now (value_of value.entry)) ∷ []))
            result (D.world disk.old) (D.world disk.new) }
        ensures held { IsTrue D.tells → OnOk result ((D.world disk.new).seen.held
            ≡ overwritten (D.world disk.old).seen.held (start_of self.old.area + self.old.filled) (record_bytes (entry_of key.now (value_of value.entry)) ++ 0 ∷ [])) }
        ensures area { self.new.area ≡ self.old.area }
        ensures filled { OnOk result (self.new.filled + 1 ≡ self.old.filled + need (entry_of key.now (value_of value.entry))) }
        ensures unchanged { OnErr result (self.new ≡ self.old) }
        ensures moves { WriteMoves (start_of self.old.area + self.old.filled) (need (entry_of key.now (value_of value.entry))) (D.world disk.old) (D.world disk.new) }
        ensures fault { IfErr result (IsAppendFault (start_of self.old.area + self.old.filled)) }
        ensures cause { OnErr result (Rose (D.world disk.old).seen.write_faults (D.world disk.new).seen.write_faults) }
    {
        let gate = area_start(self.area) + self.filled as u64;
        let length = put_record(buf, key, value);
        write_record(disk, gate, &buf[..length])?;
        self.filled += length;
        Ok(())
    }

    /// Adds the record of a range of keys that is deleted, as [`Log::append`] of an entry: from `lo` on, and up to `hi`
    /// without it.
    pub fn append_range<D: Disk>(
        &mut self,
        disk: &mut D,
        buf: &mut [u8],
        lo: &[u8],
        hi: &[u8],
    ) -> Result<(), DiskFault>
        requires range { IsBefore lo.now hi.now }
        requires lo { IsBound lo.now }
        requires hi { IsBound hi.now }
        requires fits { self.old.filled + need_of (Clears (range_of lo.now hi.now)) ≤ log_bytes }
        requires room { need_of (Clears (range_of lo.now hi.now)) ≤ length buf.old + 1 }
        ensures crash { (changes : List model.Change) → IsTrue D.tells → self.old.filled ≡ filled_by changes
            → Leads (LogIs self.old.area changes) (WithOrWithout self.old.area changes (Clears (range_of lo.now hi.now))) (LogIs self.old.area (changes ++ Clears (range_of lo.now hi.now) ∷ []))
            result (D.world disk.old) (D.world disk.new) }
        ensures held { IsTrue D.tells → OnOk result ((D.world disk.new).seen.held
            ≡ overwritten (D.world disk.old).seen.held (start_of self.old.area + self.old.filled) (change_record (Clears (range_of lo.now hi.now)) ++ 0 ∷ [])) }
        ensures area { self.new.area ≡ self.old.area }
        ensures filled { OnOk result (self.new.filled + 1 ≡ self.old.filled + need_of (Clears (range_of lo.now hi.now))) }
        ensures unchanged { OnErr result (self.new ≡ self.old) }
        ensures moves { WriteMoves (start_of self.old.area + self.old.filled) (need_of (Clears (range_of lo.now hi.now))) (D.world disk.old) (D.world disk.new) }
        ensures fault { IfErr result (IsAppendFault (start_of self.old.area + self.old.filled)) }
        ensures cause { OnErr result (Rose (D.world disk.old).seen.write_faults (D.world disk.new).seen.write_faults) }
    {
        let gate = area_start(self.area) + self.filled as u64;
        let length = put_range(buf, lo, hi);
        write_record(disk, gate, &buf[..length])?;
        self.filled += length;
        Ok(())
    }

    // Adds a change that was read from a log.
    fn add<D: Disk>(
        &mut self,
        disk: &mut D,
        buf: &mut [u8],
        change: &Change,
    ) -> Result<(), DiskFault>
        requires sound { IsLoggedChange change.now }
        requires fits { self.old.filled + need_of change.now ≤ log_bytes }
        requires room { body_length max_key_bytes max_logged_value_bytes + 1 ≤ length buf.old }
        ensures crash { (changes : List model.Change) → IsTrue D.tells → self.old.filled ≡ filled_by changes
            → Leads (LogIs self.old.area changes) (WithOrWithout self.old.area changes change.now) (LogIs self.old.area (changes ++ change.now ∷ []))
            result (D.world disk.old) (D.world disk.new) }
        ensures area { self.new.area ≡ self.old.area }
        ensures filled { OnOk result (self.new.filled + 1 ≡ self.old.filled + need_of change.now) }
        ensures moves { WriteMoves (start_of self.old.area + self.old.filled) (need_of change.now) (D.world disk.old) (D.world disk.new) }
        ensures cause { OnErr result (Rose (D.world disk.old).seen.write_faults (D.world disk.new).seen.write_faults) }
    {
        match change.kind() {
            ChangeKind::Sets(entry) => self.append(disk, buf, entry.key(), entry.value()),
            ChangeKind::Clears(range) => self.append_range(disk, buf, range.lo(), range.hi()),
        }
    }
}

// All bytes of an area.
fn read_area<D: Disk>(alloc: Global, disk: &mut D, area: u8) -> Result<Vec<u8>, LogFault>
    requires { area ≤ 1 }
    ensures bytes { IsTrue D.tells → IfOk result (λ bytes. bytes.items ≡ area_in area (D.world disk.old).seen.held) }
    ensures size { IfOk result (λ bytes. vec_len bytes ≡ log_bytes) }
    ensures exact { IfErr result IsNoShape }
    ensures shape { IfErr result (IsShapeIn area (D.world disk.old).seen.held) }
    ensures cause { IfErr result (HasReadCause area (D.world disk.old) (D.world disk.new)) }
    ensures moves { ReadMoves 1 (D.world disk.old) (D.world disk.new) }
{
    let mut bytes = vec![in alloc; 0; LOG_BYTES]?;
    disk.read(area_start(area), &mut bytes)?;
    Ok(bytes)
}

// Writes a body with the closed gate behind it and makes them last, and then opens the gate before them.
fn write_record<D: Disk>(disk: &mut D, gate: u64, bytes: &[u8]) -> Result<(), DiskFault>
    requires { gate + 1 + length bytes.now ≤ 2 ^ 48 }
    ensures crash { (area : ℕ) (changes : List model.Change) (change : model.Change) → IsTrue D.tells → IsNextRecord area changes change gate bytes.now
        → Leads (LogIs area changes) (WithOrWithout area changes change) (LogIs area (changes ++ change ∷ [])) result (D.world disk.old) (D.world disk.new) }
    ensures held { IsTrue D.tells → OnOk result ((D.world disk.new).seen.held ≡ overwritten (D.world disk.old).seen.held gate (1 ∷ bytes.now)) }
    ensures moves { WriteMoves gate (length bytes.now + 1) (D.world disk.old) (D.world disk.new) }
    ensures fault { IfErr result (IsAppendFault gate) }
    ensures cause { OnErr result (Rose (D.world disk.old).seen.write_faults (D.world disk.new).seen.write_faults) }
{
    write_through(disk, gate + 1, bytes)?;
    write_through(disk, gate, &[OPEN])
}
