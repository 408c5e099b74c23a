//! The merge of tables, in merge slices.
ghost use Rattle.std.specs.Prelude.{◌≡◌, ◌<◌, ◌≤◌, ◌+◌, ◌*◌, ◌||◌, true, false, Some, None, IsTrue, IfOk, IfErr, OnErr, OnOk, MatchResult, length};
ghost use Rattle.block_model.specs.Pages.{page_bytes};
ghost use Rattle.disk_trait.specs.Image.{Image};
ghost use Rattle.disk_trait.specs.World.{ReadMoves};
ghost use Rattle.image_model.specs.Stands.{settings_of};
ghost use Rattle.key_base.specs.Limits.{log_bytes, max_tables};
ghost use Rattle.level_merge.specs.JobValue.{work_left};
ghost use Rattle.level_merge.specs.SliceSteps.{FailsBeforeWrite, HasNoRoom, IsSliceFault, ReadyAtEnd};
ghost use Rattle.manifest_model.specs.Laws.{IsVersion};
ghost use Rattle.merge_rows.specs.Reads.{PassSound};
ghost use Rattle.merge_rows.specs.Steps.{numbers};
ghost use Rattle.state_model.specs.State as model;
ghost use Rattle.state_model.specs.Tends.{Runs, with_job};
ghost use Rattle.store_core.specs.Answers.{stopped_by};
ghost use Rattle.store_core.specs.StoreValue.{IsConsistent};
ghost use Rattle.store_core.specs.Framing.{IsInUse, LeavesPlaces};
ghost use Rattle.store_core.specs.Running.{HasMoreToMake, IsRun, MayRunIn, extents_with};
ghost use Rattle.store_core.specs.Scans.{IsScanShown};
ghost use Rattle.store_core.specs.Tending.{IsBegunAmong, IsNext, IsMergeTakenOut, IsSameMerge, IsSoundWork, IsSoundWorkOf, IsTended, IsTendRefusal, IsWithoutRoom, IsWithoutRoomOf, IsWork, IsWorkOf, NoneIsChosen, SliceStays, SlicesJob, SomeMoves, Tends, answer_to, told_slice};
ghost use Rattle.store_core.specs.Represents.{Represents, RepresentsOn};
ghost use Rattle.table_model.specs.Tables.{filter_bytes_of};

use crate::error::StoreError;
use crate::flushing::extents_of;
use crate::store::Store;
use disk_trait::{Disk, Op};
use filter_api::RangeFilter;
use level_merge::{Job, JobFault, Sliced, choose};
use manifest::Version;
use std::alloc::Global;
use table_file::Tables;

/// How far the merges of a store came with a merge slice.
#[derive(Clone, Copy, Debug, PartialEq, Eq)]
pub enum Tended {
    /// Blocks were read, an output was written, or the outputs of a merge took the place of what it read.
    Worked,
    /// No merge runs, and nothing is to be merged.
    Idle,
    /// An output needs `need` pages, and the largest gap has fewer. The merge was dropped.
    Full { need: u64, gap: u64 },
}

// A merge that begins, where some of the tables are to be merged.
fn next_job<F: RangeFilter>(
    alloc: Global,
    version: &Version,
    tables: &Tables<F>,
) -> Result<Option<Job<'static, F>>, StoreError>
    requires sound { IsVersion version.now.version }
    requires few { length tables.now.tables ≤ max_tables }
    ensures begun { IfOk result (IsBegunAmong tables.now.tables (settings_of version.now.version)) }
    ensures memory { IfErr result (λ why. why ≡ StoreError.Memory) }
{
    match choose(alloc, tables)? {
        Some(plan) => Ok(Some(Job::start(plan, version.settings, tables)?)),
        None => Ok(None),
    }
}

impl<F: RangeFilter> Store<F> {
    /// One merge slice of the merge that runs, or of a new one where some tables are to be merged: it reads at most a given number of blocks,
    /// one or more, and on any device at most twice as many, and writes at most one output and the version in which the outputs are there.
    ///
    /// The map stays as it is. At `Full` and at each error the merge is dropped, and its outputs give their pages back.
    pub fn tend<D: Disk>(&mut self, disk: &mut D, blocks: u32) -> Result<Tended, StoreError>
        requires some { 1 ≤ blocks }
        ensures answered { (s : model.State) → IsTrue D.tells → self.old.stopped ≡ false → Represents F.spelling (filter_bytes_of F.spelling F.built_cutoff) self.old s (D.world disk.old)
            → Tends F.spelling (filter_bytes_of F.spelling F.built_cutoff) s (told_slice result) self.new (D.world disk.old) (D.world disk.new) }
        ensures reads { (s : model.State) → IsTrue D.tells → Represents F.spelling (filter_bytes_of F.spelling F.built_cutoff) self.old s (D.world disk.old)
            → (D.world disk.new).seen.reads ≤ (D.world disk.old).seen.reads + blocks }
        ensures twice { (D.world disk.new).seen.reads ≤ (D.world disk.old).seen.reads + 2 * blocks }
        ensures running { IfOk result (λ _. self.old.stopped ≡ false) }
        ensures refused { MatchResult result (IsTended self.old self.new (D.world disk.old) (D.world disk.new)) (IsTendRefusal self.old.stopped self.old.manifest.version.epoch (D.world disk.old) (D.world disk.new)) }
        ensures shown { IsTrue D.tells → IfErr result (IsScanShown self.new.tables (D.world disk.new).seen.held) }
        ensures dropped { self.old.stopped ≡ false → OnErr result (self.new.job ≡ None) }
        ensures worked { IfOk result (IsWork self.old self.new) }
        ensures sound { IsTrue D.tells → IfOk result (IsSoundWork self.old (D.world disk.old).seen.held self.new) }
        ensures no_room { IfOk result (IsWithoutRoom (filter_bytes_of F.spelling F.built_cutoff) self.old) }
        ensures stays { SliceStays result (record self.old { job = self.new.job }) self.new }
        ensures frame { LeavesPlaces (IsInUse self.old.manifest log_bytes) (D.world disk.old) (D.world disk.new) }
        ensures pages { self.new.manifest.version.pages ≡ self.old.manifest.version.pages }
        ensures stopped { self.new.stopped ≡ (self.old.stopped || stopped_by result) }
        ensures no_call { self.old.stopped ≡ true → ReadMoves 0 (D.world disk.old) (D.world disk.new) }
        ensures moves { SomeMoves (page_bytes * self.old.manifest.version.pages) (D.world disk.old) (D.world disk.new) }
    {
        if self.stopped {
            return Err(StoreError::Stopped);
        }
        match self.take_job()? {
            Some(job) => self.work(disk, job, blocks),
            None => Ok(Tended::Idle),
        }
    }

    // The merge that runs, taken out of the store, or a new one where some tables are to be merged.
    fn take_job(&mut self) -> Result<Option<Job<'static, F>>, StoreError>
        ensures rest { self.new ≡ record self.old { job = None } }
        ensures whole { IfOk result (MayRunIn self.old.manifest.version self.old.tables) }
        ensures next { (s : model.State) (image : Image) → RepresentsOn F.spelling self.old.manifest self.old.tables self.old.job s image → IfOk result (IsNext F.spelling self.old s) }
        ensures taken_up { IfOk result (IsMergeTakenOut self.old) }
        ensures none { IfOk result (λ found. found ≡ None → (self.old.job ≡ None) × NoneIsChosen self.old.tables) }
        ensures memory { IfErr result (λ why. why ≡ StoreError.Memory) }
    {
        let running = self.take_running();
        if running.is_some() {
            return Ok(running);
        }
        // the laws of merges: tables in memory are those of the state, and a merge begins as its job does
        level_merge::laws::standing_tables_agree();
        level_merge::laws::merges_begin();
        next_job(*self.buffer.allocator(), &self.version, &self.tables)
    }

    // The merge that runs, taken out of the store.
    fn take_running(&mut self) -> Option<Job<'static, F>>
        ensures taken { result ≡ self.old.job }
        ensures whole { MayRunIn self.old.manifest.version self.old.tables result }
        ensures rest { self.new ≡ record self.old { job = None } }
    {
        self.job.take()
    }

    // A merge slice, its merge taken out of the store. It is put back where something is left of it.
    fn work<D: Disk>(
        &mut self,
        disk: &mut D,
        mut job: Job<'static, F>,
        blocks: u32,
    ) -> Result<Tended, StoreError>
        requires some { 1 ≤ blocks }
        requires running { self.old.stopped ≡ false }
        requires taken_out { self.old.job ≡ None }
        requires run { IsRun self.old.manifest.version self.old.tables job }
        requires more { HasMoreToMake job }
        ensures works { (s : model.State) (running : model.Job) → IsTrue D.tells → Runs s running
            → Represents F.spelling (filter_bytes_of F.spelling F.built_cutoff) (record self.old { job = Some job.entry }) (with_job s running) (D.world disk.old)
            → Tends F.spelling (filter_bytes_of F.spelling F.built_cutoff) s (told_slice result) self.new (D.world disk.old) (D.world disk.new) }
        ensures reads { (s : model.State) (running : model.Job) → IsTrue D.tells → s.job ≡ Some running
            → Represents F.spelling (filter_bytes_of F.spelling F.built_cutoff) (record self.old { job = Some job.entry }) s (D.world disk.old)
            → (D.world disk.new).seen.reads ≤ (D.world disk.old).seen.reads + blocks }
        ensures twice { (D.world disk.new).seen.reads ≤ (D.world disk.old).seen.reads + 2 * blocks }
        ensures refused { MatchResult result (IsTended (record self.old { job = Some job.entry }) self.new (D.world disk.old) (D.world disk.new)) (IsTendRefusal false self.old.manifest.version.epoch (D.world disk.old) (D.world disk.new)) }
        ensures shown { IsTrue D.tells → IfErr result (IsScanShown self.new.tables (D.world disk.new).seen.held) }
        ensures dropped { OnErr result (self.new.job ≡ None) }
        ensures worked { IfOk result (IsWorkOf self.old job.entry self.new) }
        ensures sound { IsTrue D.tells → IfOk result (IsSoundWorkOf self.old (D.world disk.old).seen.held job.entry self.new) }
        ensures no_room { IfOk result (IsWithoutRoomOf (filter_bytes_of F.spelling F.built_cutoff) self.old.manifest.version job.entry) }
        ensures stays { SliceStays result (record self.old { job = self.new.job }) self.new }
        ensures frame { LeavesPlaces (IsInUse self.old.manifest log_bytes) (D.world disk.old) (D.world disk.new) }
        ensures pages { self.new.manifest.version.pages ≡ self.old.manifest.version.pages }
        ensures stopped { self.new.stopped ≡ stopped_by result }
        ensures moves { SomeMoves (page_bytes * self.old.manifest.version.pages) (D.world disk.old) (D.world disk.new) }
    {
        match self.slice_job(disk, &mut job, blocks) {
            Ok(Sliced::Working) => {
                self.job = Some(job);
                Ok(Tended::Worked)
            }
            Ok(Sliced::Ready) => {
                self.install_merge(disk, job)?;
                Ok(Tended::Worked)
            }
            Err(why) => self.refuse(why),
        }
    }

    // A merge slice, its merge taken out of the store: its outputs lie apart from all that the version names.
    fn slice_job<D: Disk>(
        &self,
        disk: &mut D,
        job: &mut Job<'static, F>,
        blocks: u32,
    ) -> Result<Sliced, JobFault>
        requires some { 1 ≤ blocks }
        requires run { IsRun self.now.manifest.version self.now.tables job.old }
        requires more { HasMoreToMake job.old }
        ensures run { OnOk result (IsRun self.now.manifest.version self.now.tables job.new) }
        ensures more { IfOk result (λ sliced. sliced ≡ Sliced.Working → HasMoreToMake job.new) }
        ensures slices { (s : model.State) (running : model.Job) → IsTrue D.tells → s.job ≡ Some running
            → Represents F.spelling (filter_bytes_of F.spelling F.built_cutoff) (record self.now { job = Some job.old }) s (D.world disk.old)
            → SlicesJob F.spelling (filter_bytes_of F.spelling F.built_cutoff) self.now s running job.new result (D.world disk.old) (D.world disk.new) }
        ensures reads { (s : model.State) (running : model.Job) → IsTrue D.tells → s.job ≡ Some running
            → Represents F.spelling (filter_bytes_of F.spelling F.built_cutoff) (record self.now { job = Some job.old }) s (D.world disk.old)
            → (D.world disk.new).seen.reads ≤ (D.world disk.old).seen.reads + blocks }
        ensures twice { (D.world disk.new).seen.reads ≤ (D.world disk.old).seen.reads + 2 * blocks }
        ensures fault { IfErr result (IsSliceFault D.tells self.now.tables (numbers job.old.merge.walks) (D.world disk.old) (D.world disk.new)) }
        ensures unwritten { IfErr result (FailsBeforeWrite (D.world disk.old) (D.world disk.new)) }
        ensures no_room { IfErr result (HasNoRoom (filter_bytes_of F.spelling F.built_cutoff) job.old.settings self.now.manifest.version.pages (extents_with self.now.manifest.version job.old.outputs)) }
        ensures frame { LeavesPlaces (IsInUse self.now.manifest log_bytes) (D.world disk.old) (D.world disk.new) }
        ensures passes { IsTrue D.tells → PassSound self.now.tables (D.world disk.old).seen.held job.old.merge.walks job.new.merge.walks }
        ensures done { IfOk result (ReadyAtEnd self.now.tables job.new) }
        ensures ends { IfOk result (λ sliced. sliced ≡ Sliced.Working → work_left self.now.tables job.new < work_left self.now.tables job.old) }
        ensures same { IsSameMerge job.old job.new }
        ensures moves { SomeMoves (page_bytes * self.now.manifest.version.pages) (D.world disk.old) (D.world disk.new) }
    {
        // the law of merges: what there is of the one that runs is on each image
        level_merge::laws::jobs_are_followed();
        let alloc = *self.buffer.allocator();
        let mut extents = extents_of(alloc, &self.version, job.outputs())?;
        job.slice(disk, &self.tables, &mut extents, blocks)
    }

    // What a refused merge slice is answered. A write or a sync that failed stops the store.
    fn refuse(&mut self, why: JobFault) -> Result<Tended, StoreError>
        requires running { self.old.stopped ≡ false }
        ensures answer { result ≡ answer_to why }
        ensures rest { self.new ≡ record self.old { stopped = stopped_by result } }
    {
        match why {
            JobFault::Memory => Err(StoreError::Memory),
            JobFault::Device(cause) => {
                self.stopped = cause.op != Op::Read;
                Err(StoreError::Device(cause))
            }
            JobFault::Damaged(damage) => Err(StoreError::Damaged(damage)),
            JobFault::Full { need, gap } => Ok(Tended::Full { need, gap }),
        }
    }
}
