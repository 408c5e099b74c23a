//! Entries that are written.
ghost use Rattle.std.specs.Prelude.{◌≡◌, ◌≤◌, ◌+◌, ◌*◌, ◌||◌, Bool, length, vec_capacity, true, false, Some, None, IsTrue, IfErr, OnOk, MatchResult};
ghost use Rattle.block_model.specs.Pages.{page_bytes};
ghost use Rattle.disk_trait.specs.World.{ReadMoves, WriteMoves};
ghost use Rattle.entry_model.specs.Entries.{IsLogged, del_entry, entry_of, need, put_entry};
ghost use Rattle.gate_log.specs.Values.{value_of};
ghost use Rattle.key_base.specs.Limits.{log_bytes};
ghost use Rattle.line_model.specs.Limits.{limit_of};
ghost use Rattle.log_model.specs.Area.{start_of};
ghost use Rattle.line_model.specs.Requests.{Del, Put};
ghost use Rattle.range_model.specs.Sources.{Sets};
ghost use Rattle.state_model.specs.Changes.{is_long, logged, written};
ghost use Rattle.state_model.specs.State.{State};
ghost use Rattle.store_core.specs.Answers.{AnswersRequest, IsTried, IsWriteFailure, IsWriteRefusal, MovesTo, WroteEntry, stopped_by, told_change};
ghost use Rattle.store_core.specs.Framing.{IsBesideRecord, IsInUse, LeavesPlaces};
ghost use Rattle.store_core.specs.Refusing.{IsEntryAllowed, IsWriteDue};
ghost use Rattle.store_core.specs.Represents.{Represents};
ghost use Rattle.store_core.specs.Staying.{Stays};
ghost use Rattle.table_file.specs.Search.{largest_block};
ghost use Rattle.table_model.specs.Tables.{filter_bytes_of};

use crate::error::StoreError;
use crate::limits::{check_key, check_value};
use crate::store::Store;
use byte_fields::lengthen;
use disk_trait::Disk;
use entry_list::Entry;
use filter_api::RangeFilter;
use gate_log::record_need;
use key_base::MAX_LOGGED_VALUE_BYTES;

// Gives a buffer the bytes in which the record of an entry is built.
fn lengthen_for(buffer: &mut Vec<u8>, entry: &Entry)
    requires sound { IsLogged entry.now }
    requires fits { need entry.now ≤ log_bytes }
    requires room { largest_block ≤ vec_capacity buffer.old }
    ensures many { need entry.now ≤ length buffer.new.items }
    ensures room { largest_block ≤ vec_capacity buffer.new }
{
    lengthen(buffer, record_need(entry.key(), entry.value()));
}

impl<F: RangeFilter> Store<F> {
    /// Sets the value of a key.
    ///
    /// The memory of the entry is taken first; then, where its record does not fit the log area, the memory table is
    /// flushed; then the record is written and made to last. A value of over 65,536 bytes is not logged: the entries in
    /// memory with this one over them are flushed, as one table, and the memory and the log are empty after it. At `Ok` no
    /// crash takes it back. No read.
    pub fn put<D: Disk>(&mut self, disk: &mut D, key: &[u8], value: &[u8]) -> Result<(), StoreError>
        ensures answered { (s : State) → IsTrue D.tells → self.old.stopped ≡ false → Represents F.spelling (filter_bytes_of F.spelling F.built_cutoff) self.old s (D.world disk.old)
            → AnswersRequest F.spelling (filter_bytes_of F.spelling F.built_cutoff) s (Put key.now value.now) (told_change result) self.new (D.world disk.old) (D.world disk.new) }
        ensures refused { MatchResult result (λ _. IsTried self.old.stopped (limit_of (Put key.now value.now))) (IsWriteRefusal self.old.stopped (limit_of (Put key.now value.now)) (D.world disk.old) (D.world disk.new)) }
        ensures due { IfErr result (IsWriteDue (filter_bytes_of F.spelling F.built_cutoff) self.old (put_entry key.now value.now) (D.world disk.old) (D.world disk.new)) }
        ensures allowed { OnOk result (IsEntryAllowed (filter_bytes_of F.spelling F.built_cutoff) self.old (put_entry key.now value.now)) }
        ensures stays { Stays result self.old self.new }
        ensures own { LeavesPlaces (IsBesideRecord self.old.manifest self.old.log.filled (need (put_entry key.now value.now))) (D.world disk.old) (D.world disk.new) }
        ensures frame { LeavesPlaces (IsInUse self.old.manifest self.old.log.filled) (D.world disk.old) (D.world disk.new) }
        // a value that is not logged leaves all of the log area in use as it was
        ensures unlogged { is_long (put_entry key.now value.now) ≡ true → LeavesPlaces (IsInUse self.old.manifest log_bytes) (D.world disk.old) (D.world disk.new) }
        ensures pages { self.new.manifest.version.pages ≡ self.old.manifest.version.pages }
        ensures stopped { self.new.stopped ≡ (self.old.stopped || stopped_by result) }
        ensures no_call { self.old.stopped ≡ true → ReadMoves 0 (D.world disk.old) (D.world disk.new) }
        ensures moves { WriteMoves 0 (page_bytes * self.old.manifest.version.pages) (D.world disk.old) (D.world disk.new) }
    {
        if self.stopped {
            return Err(StoreError::Stopped);
        }
        check_key(key)?;
        check_value(value)?;
        if value.len() > MAX_LOGGED_VALUE_BYTES {
            return self.flush_with(disk, Some((key, value)), None);
        }
        self.write(disk, key, Some(value))
    }

    /// Takes the value of a key away: a tombstone is written, in the way of [`Store::put`].
    pub fn delete<D: Disk>(&mut self, disk: &mut D, key: &[u8]) -> Result<(), StoreError>
        ensures answered { (s : State) → IsTrue D.tells → self.old.stopped ≡ false → Represents F.spelling (filter_bytes_of F.spelling F.built_cutoff) self.old s (D.world disk.old)
            → AnswersRequest F.spelling (filter_bytes_of F.spelling F.built_cutoff) s (Del key.now) (told_change result) self.new (D.world disk.old) (D.world disk.new) }
        ensures refused { MatchResult result (λ _. IsTried self.old.stopped (limit_of (Del key.now))) (IsWriteRefusal self.old.stopped (limit_of (Del key.now)) (D.world disk.old) (D.world disk.new)) }
        ensures due { IfErr result (IsWriteDue (filter_bytes_of F.spelling F.built_cutoff) self.old (del_entry key.now) (D.world disk.old) (D.world disk.new)) }
        ensures allowed { OnOk result (IsEntryAllowed (filter_bytes_of F.spelling F.built_cutoff) self.old (del_entry key.now)) }
        ensures stays { Stays result self.old self.new }
        ensures own { LeavesPlaces (IsBesideRecord self.old.manifest self.old.log.filled (need (del_entry key.now))) (D.world disk.old) (D.world disk.new) }
        ensures frame { LeavesPlaces (IsInUse self.old.manifest self.old.log.filled) (D.world disk.old) (D.world disk.new) }
        ensures pages { self.new.manifest.version.pages ≡ self.old.manifest.version.pages }
        ensures stopped { self.new.stopped ≡ (self.old.stopped || stopped_by result) }
        ensures no_call { self.old.stopped ≡ true → ReadMoves 0 (D.world disk.old) (D.world disk.new) }
        ensures moves { WriteMoves 0 (page_bytes * self.old.manifest.version.pages) (D.world disk.old) (D.world disk.new) }
    {
        if self.stopped {
            return Err(StoreError::Stopped);
        }
        check_key(key)?;
        self.write(disk, key, None)
    }

    // Writes an entry that keeps the limits.
    fn write<D: Disk>(
        &mut self,
        disk: &mut D,
        key: &[u8],
        value: Option<&[u8]>,
    ) -> Result<(), StoreError>
        requires sound { IsLogged (entry_of key.now (value_of value)) }
        requires running { self.old.stopped ≡ false }
        ensures wrote { (s : State) → IsTrue D.tells → Represents F.spelling (filter_bytes_of F.spelling F.built_cutoff) self.old s (D.world disk.old)
            → WroteEntry F.spelling (filter_bytes_of F.spelling F.built_cutoff) s (written (filter_bytes_of F.spelling F.built_cutoff) s (Sets (entry_of key.now (value_of value.entry)))) result self.new (D.world disk.old) (D.world disk.new) }
        ensures refused { IfErr result (IsWriteRefusal false None (D.world disk.old) (D.world disk.new)) }
        ensures due { IfErr result (IsWriteDue (filter_bytes_of F.spelling F.built_cutoff) self.old (entry_of key.now (value_of value.entry)) (D.world disk.old) (D.world disk.new)) }
        ensures allowed { OnOk result (IsEntryAllowed (filter_bytes_of F.spelling F.built_cutoff) self.old (entry_of key.now (value_of value.entry))) }
        ensures stays { Stays result self.old self.new }
        ensures own { LeavesPlaces (IsBesideRecord self.old.manifest self.old.log.filled (need (entry_of key.now (value_of value.entry)))) (D.world disk.old) (D.world disk.new) }
        ensures frame { LeavesPlaces (IsInUse self.old.manifest self.old.log.filled) (D.world disk.old) (D.world disk.new) }
        ensures pages { self.new.manifest.version.pages ≡ self.old.manifest.version.pages }
        ensures stopped { self.new.stopped ≡ stopped_by result }
        ensures moves { WriteMoves 0 (page_bytes * self.old.manifest.version.pages) (D.world disk.old) (D.world disk.new) }
    {
        let entry = self.memory.reserve_for(key, value)?;
        if self.log.fits(record_need(key, value)) {
            return self.append(disk, entry);
        }
        self.flush_memory(disk)?;
        self.append(disk, entry)
    }

    // Writes an entry whose record fits the log area. It is in memory once it lasts.
    fn append<D: Disk>(&mut self, disk: &mut D, entry: Entry) -> Result<(), StoreError>
        requires sound { IsLogged entry }
        requires running { self.old.stopped ≡ false }
        requires fits { self.old.log.filled + need entry ≤ log_bytes }
        requires spare { 1 ≤ self.old.memory.spare }
        ensures turns { (s : State) → IsTrue D.tells → Represents F.spelling (filter_bytes_of F.spelling F.built_cutoff) self.old s (D.world disk.old)
            → MovesTo F.spelling (filter_bytes_of F.spelling F.built_cutoff) s (logged s (Sets entry)) result self.new (D.world disk.old) (D.world disk.new) }
        ensures stopped { self.new.stopped ≡ stopped_by result }
        ensures failure { IfErr result (IsWriteFailure (D.world disk.old) (D.world disk.new)) }
        ensures own { WriteMoves (start_of self.old.log.area + self.old.log.filled) (need entry) (D.world disk.old) (D.world disk.new) }
        ensures pages { self.new.manifest.version.pages ≡ self.old.manifest.version.pages }
        ensures moves { WriteMoves 0 (page_bytes * self.old.manifest.version.pages) (D.world disk.old) (D.world disk.new) }
    {
        // the law of merges: what is written elsewhere leaves the one that runs as it is
        level_merge::laws::jobs_are_followed();
        lengthen_for(&mut self.buffer, &entry);
        match self
            .log
            .append(disk, &mut self.buffer, entry.key(), entry.value())
        {
            Ok(()) => {
                self.memory.set(entry);
                self.need = None;
                Ok(())
            }
            Err(fault) => {
                self.stopped = true;
                Err(StoreError::Device(fault))
            }
        }
    }
}
