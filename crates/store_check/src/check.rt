//! A check of a whole store, part by part.
ghost use Rattle.std.specs.Prelude.{◌≡◌, ◌≢◌, ◌⊎◌, ◌≤◌, ◌<◌, ◌+◌, ◌-◌, ◌^◌, ◌∷◌, [], List, length, IsTrue, IfOk, IfErr, IfSome, OnOk, Some, None, MatchOption, MatchResult, true, false, vec_len};
ghost use Rattle.std.specs.Option.{ForSome};
ghost use Rattle.block_model.specs.Places.{FitsDevice};
ghost use Rattle.disk_trait.specs.Image.{Image};
ghost use Rattle.disk_trait.specs.World.{ReadMoves};
ghost use Rattle.filter_api.specs.Spellings.{Spelling};
ghost use Rattle.image_model.specs.Findings.{AreFindings, Finding as Found, found_by as findings_by};
ghost use Rattle.image_model.specs.Stands.{IsStateOf};
ghost use Rattle.manifest_model.specs.Slots.{IsNoStore};
ghost use Rattle.map_model.specs.SortedMap.{Bytes};
ghost use Rattle.byte_fields.specs.Faults.{Fault};
ghost use Rattle.table_file.specs.Faults.{filter_fault_of};
ghost use Rattle.store_check.specs.Causes.{HasCause, IsFree, OnlyReads};
ghost use Rattle.state_model.specs.State.{State};
ghost use Rattle.store_check.specs.Orders.{IsSoundAt, no_tables};
ghost use Rattle.store_check.specs.Summaries.{HasSummaryCause, IsSummaryOf, IsUndamaged};
ghost use Rattle.store_check.specs.declared.stage.Stage.TheVariants.{End, Log as Replay, Ranges, Rows};

use crate::error::CheckError;
use crate::finding::{Finding, add, broken_log, found_by};
use crate::order::TableOrder;
use crate::stage::Stage;
use crate::summary::{Summary, SummaryError, summarize};
use crate::table::table_findings;
use byte_fields::{Damage, Row};
use disk_trait::Disk;
use filter_api::RangeFilter;
use gate_log::{Log, LogFault};
use manifest::{ManifestFault, Version, load};
use std::alloc::{AllocError, Global};

/// A check of the store on a device. It is asked for one finding after the other, reads what it has not read yet, and writes
/// nothing.
///
/// It keeps the version, what is wrong with the part that was looked at last, and the greatest key of one table; and while a
/// table is looked at, its keys, a block, its filter and another one.
#[derive(Drop)]
pub struct Check {
    alloc: Global,
    // none where a slot is damaged
    version: Option<Version>,
    stage: Stage,
    // what is wrong with the part that was looked at last, and how many of these were given
    found: Vec<Finding>,
    place: usize,
    order: TableOrder,

    ghost placed: { place ≤ vec_len found },
    ghost sound: { ForSome version (λ m. IsSoundAt m order) },
}

impl Check {
    ghost use Rattle.store_check.specs.Checks.{AreLeft, IsCheckOf, parts_left, row_at_hand, steps_left, waiting};

    /// Begins a check: the slots are read, at most six reads. Where one is damaged that is the one finding.
    pub fn start<D: Disk>(alloc: Global, disk: &mut D) -> Result<Check, CheckError>
        ensures of { IsTrue D.tells → IfOk result (IsCheckOf (D.world disk.old).seen.held) }
        ensures all { (spelling : Spelling) (first_fault : Bytes → Fault) (findings : List Found) → IsTrue D.tells
            → IfOk result (λ c. AreLeft spelling first_fault (D.world disk.old).seen.held c findings → AreFindings spelling (filter_fault_of first_fault) (D.world disk.old).seen.held findings) }
        ensures no_store { IsTrue D.tells → IsNoStore (D.world disk.old).seen.held → MatchResult result (λ _. ⊥) (λ why. (why ≡ CheckError.NotAStore) ⊎ IsFree why) }
        ensures only_at_no_store { IsTrue D.tells → IfErr result (λ why. why ≡ CheckError.NotAStore → IsNoStore (D.world disk.old).seen.held) }
        ensures cause { IfErr result (HasCause (D.world disk.old) (D.world disk.new)) }
        ensures moves { ReadMoves 6 (D.world disk.old) (D.world disk.new) }
    {
        match load(alloc, disk) {
            Ok(version) => Ok(Check::at(alloc, Some(version), Stage::Rows, Vec::new(alloc))),
            Err(ManifestFault::Damaged(damage)) => {
                let found = one_finding(alloc, damage)?;
                Ok(Check::at(alloc, None, Stage::End, found))
            }
            Err(ManifestFault::Memory) => Err(CheckError::Memory),
            Err(ManifestFault::Device(cause)) => Err(CheckError::Device(cause)),
            Err(ManifestFault::NotAStore) => Err(CheckError::NotAStore),
            Err(_) => unreachable!(),
        }
    }

    // A check that looked at no row.
    fn at(alloc: Global, version: Option<Version>, stage: Stage, found: Vec<Finding>) -> Check
        requires sound { ForSome version (λ m. IsSoundAt m no_tables) }
        ensures version { result.version ≡ version }
        ensures stage { result.stage ≡ stage }
        ensures waiting { waiting result ≡ found.items }
        ensures order { result.order ≡ no_tables }
    {
        Check {
            alloc,
            version,
            stage,
            found,
            place: 0,
            order: TableOrder::new(),
        }
    }

    /// The next finding, or `None` where there is no other. Parts are read until one has a finding. Each call names the same kind
    /// of filter.
    ///
    /// At `Err` memory ran out or the device failed, and what was given is the beginning of what there is to find; the check is not
    /// asked again.
    pub fn next<F: RangeFilter, D: Disk>(
        &mut self,
        disk: &mut D,
    ) -> Result<Option<Finding>, CheckError>
        ensures of { IsTrue D.tells → IsCheckOf (D.world disk.old).seen.held self.old → OnOk result (IsCheckOf (D.world disk.old).seen.held self.new) }
        ensures gives { (later : List Found) → IsTrue D.tells → IsCheckOf (D.world disk.old).seen.held self.old
            → IfOk result (λ found. MatchOption found
            (AreLeft F.spelling F.first_fault (D.world disk.old).seen.held self.old [])
            (λ f. AreLeft F.spelling F.first_fault (D.world disk.old).seen.held self.new later → AreLeft F.spelling F.first_fault (D.world disk.old).seen.held self.old (f ∷ later))) }
        ensures steps { IfOk result (λ found. IfSome found (λ _. steps_left self.new < steps_left self.old)) }
        ensures ended { IfOk result (λ found. found ≡ None → (waiting self.new ≡ []) × (self.new.stage ≡ End)) }
        ensures cause { IfErr result (HasCause (D.world disk.old) (D.world disk.new)) }
        ensures not_a_store { IfErr result IsFree }
        ensures moves { OnlyReads (D.world disk.old) (D.world disk.new) }
    {
        'parts: while self.looks_on() {
            self.look::<F, D>(disk)?;
        }
        Ok(self.give())
    }

    /// What the store has, once [`next`](Check::next) gave nothing at all. All of it is read again: the pairs are counted by one
    /// merge of the tables and the log. It takes the memory of an opened store, and of a block and a key for each table. Where the
    /// log is empty and all tables are on one level deeper than 0, their entries with a value are counted in place of a merge, and
    /// it takes that of an index and a block.
    ///
    /// At `Err` memory ran out or the device failed; or it does not hold any more what it held when it was read before.
    pub fn summary<F: RangeFilter, D: Disk>(&self, disk: &mut D) -> Result<Summary, SummaryError>
        ensures summary { (s : State) → IsTrue D.tells → IsStateOf F.spelling s (D.world disk.old).seen.held → MatchResult result (IsSummaryOf s) IsUndamaged }
        ensures cause { IfErr result (HasSummaryCause (D.world disk.old) (D.world disk.new)) }
        ensures moves { OnlyReads (D.world disk.old) (D.world disk.new) }
    {
        summarize::<F, D>(self.alloc, disk)
    }

    // Whether nothing waits, and a part is left to look at.
    fn looks_on(&self) -> bool
        ensures on { result ≡ true → (waiting self.now ≡ []) × (self.now.stage ≢ End) }
        ensures over { result ≡ false → waiting self.now ≡ [] → self.now.stage ≡ End }
    {
        self.place == self.found.len() && self.stage != Stage::End
    }

    // The next of what waits.
    fn give(&mut self) -> Option<Finding>
        ensures given { MatchOption result ((waiting self.old ≡ []) × (waiting self.new ≡ [])) (λ f. waiting self.old ≡ f ∷ waiting self.new) }
        ensures version { self.new.version ≡ self.old.version }
        ensures stage { self.new.stage ≡ self.old.stage }
        ensures order { self.new.order ≡ self.old.order }
    {
        if self.place == self.found.len() {
            return None;
        }
        let found = &self.found[self.place];
        let finding = Finding {
            part: found.part,
            at: found.at,
            what: found.what,
        };
        self.place += 1;
        Some(finding)
    }

    // Looks at the next part. What is wrong with it waits then.
    fn look<F: RangeFilter, D: Disk>(&mut self, disk: &mut D) -> Result<(), CheckError>
        requires some { self.old.stage ≢ End }
        requires none { waiting self.old ≡ [] }
        ensures of { IsTrue D.tells → IsCheckOf (D.world disk.old).seen.held self.old → OnOk result (IsCheckOf (D.world disk.old).seen.held self.new) }
        ensures same { (later : List Found) → IsTrue D.tells → IsCheckOf (D.world disk.old).seen.held self.old
            → OnOk result (AreLeft F.spelling F.first_fault (D.world disk.old).seen.held self.new later → AreLeft F.spelling F.first_fault (D.world disk.old).seen.held self.old later) }
        ensures parts { OnOk result (parts_left self.new < parts_left self.old) }
        ensures few { length (waiting self.new) < 2 ^ 64 }
        ensures cause { IfErr result (HasCause (D.world disk.old) (D.world disk.new)) }
        ensures not_a_store { IfErr result IsFree }
        ensures moves { OnlyReads (D.world disk.old) (D.world disk.new) }
    {
        match self.stage {
            Stage::Rows => self.look_at_row::<F, D>(disk),
            Stage::Ranges => Ok(self.look_at_ranges()?),
            Stage::Log => self.look_at_log(disk),
            Stage::End => Ok(()),
        }
    }

    // The row that is looked at next, none after the last.
    fn row_at_hand(&self) -> Option<Row>
        ensures row { result ≡ row_at_hand self.now }
        ensures fits { IfSome result FitsDevice }
    {
        match &self.version {
            Some(version) if self.order.rows() < version.rows.len() => {
                Some(version.rows[self.order.rows()])
            }
            _ => None,
        }
    }

    // Looks at a row, or after the last row goes on to the next part.
    fn look_at_row<F: RangeFilter, D: Disk>(&mut self, disk: &mut D) -> Result<(), CheckError>
        requires stage { self.old.stage ≡ Rows }
        requires none { waiting self.old ≡ [] }
        ensures of { IsTrue D.tells → IsCheckOf (D.world disk.old).seen.held self.old → OnOk result (IsCheckOf (D.world disk.old).seen.held self.new) }
        ensures same { (later : List Found) → IsTrue D.tells → IsCheckOf (D.world disk.old).seen.held self.old
            → OnOk result (AreLeft F.spelling F.first_fault (D.world disk.old).seen.held self.new later → AreLeft F.spelling F.first_fault (D.world disk.old).seen.held self.old later) }
        ensures parts { OnOk result (parts_left self.new < parts_left self.old) }
        ensures cause { IfErr result (HasCause (D.world disk.old) (D.world disk.new)) }
        ensures not_a_store { IfErr result IsFree }
        ensures moves { OnlyReads (D.world disk.old) (D.world disk.new) }
    {
        let Some(row) = self.row_at_hand() else {
            self.stage = Stage::Ranges;
            return Ok(());
        };
        self.place = 0;
        self.found.clear();
        let index = table_findings::<F, D>(self.alloc, disk, &row, &mut self.found)?;
        self.order.add(self.alloc, &index)?;
        Ok(())
    }

    // Looks at how the tables follow each other.
    fn look_at_ranges(&mut self) -> Result<(), AllocError>
        requires stage { self.old.stage ≡ Ranges }
        requires none { waiting self.old ≡ [] }
        ensures of { (image : Image) → IsCheckOf image self.old → OnOk result (IsCheckOf image self.new) }
        ensures same { (spelling : Spelling) (first_fault : Bytes → Fault) (image : Image) (later : List Found)
            → OnOk result (AreLeft spelling first_fault image self.new later → AreLeft spelling first_fault image self.old later) }
        ensures parts { OnOk result (parts_left self.new < parts_left self.old) }
    {
        self.stage = Stage::Log;
        self.place = 0;
        self.found.clear();
        if let Some(version) = &self.version {
            add(&mut self.found, self.order.finding(version.slot))?;
        }
        Ok(())
    }

    // Replays the log.
    fn look_at_log<D: Disk>(&mut self, disk: &mut D) -> Result<(), CheckError>
        requires stage { self.old.stage ≡ Replay }
        requires none { waiting self.old ≡ [] }
        ensures of { (image : Image) → IsCheckOf image self.old → OnOk result (IsCheckOf image self.new) }
        ensures same { (spelling : Spelling) (first_fault : Bytes → Fault) (later : List Found) → IsTrue D.tells
            → OnOk result (AreLeft spelling first_fault (D.world disk.old).seen.held self.new later → AreLeft spelling first_fault (D.world disk.old).seen.held self.old later) }
        ensures parts { OnOk result (parts_left self.new < parts_left self.old) }
        ensures cause { IfErr result (HasCause (D.world disk.old) (D.world disk.new)) }
        ensures not_a_store { IfErr result IsFree }
        ensures moves { ReadMoves 1 (D.world disk.old) (D.world disk.new) }
    {
        self.stage = Stage::End;
        self.place = 0;
        self.found.clear();
        let Some(version) = &self.version else {
            return Ok(());
        };
        match Log::replay(self.alloc, disk, version.log_area) {
            Ok(_) => Ok(()),
            Err(LogFault::Memory) => Err(CheckError::Memory),
            Err(LogFault::Device(cause)) => Err(CheckError::Device(cause)),
            Err(LogFault::Shape { at, rule }) => {
                Ok(add(&mut self.found, Some(broken_log(at, rule)))?)
            }
        }
    }
}

// The one finding of a damaged slot.
fn one_finding(alloc: Global, damage: Damage) -> Result<Vec<Finding>, AllocError>
    ensures { IfOk result (λ found. found.items ≡ findings_by (Some damage)) }
{
    let mut found = Vec::new(alloc);
    add(&mut found, Some(found_by(damage)))?;
    Ok(found)
}
