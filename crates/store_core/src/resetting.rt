//! Other settings for new tables, and more pages.
ghost use Rattle.std.specs.Prelude.{◌≡◌, ◌≤◌, ◌+◌, ◌||◌, if◌then◌else◌, true, false, None, IsTrue, IfOk, MatchResult};
ghost use Rattle.disk_trait.specs.World.{ReadMoves, WriteMoves};
ghost use Rattle.filter_api.specs.Ranges.{InRange};
ghost use Rattle.image_model.specs.Installs.{with_numbers};
ghost use Rattle.image_model.specs.Stands.{settings_of};
ghost use Rattle.key_base.specs.Limits.{max_device_pages, max_ratio, slot_bytes};
ghost use Rattle.manifest.specs.Manifest.{other_place};
ghost use Rattle.manifest_model.specs.Laws.{IsVersion};
ghost use Rattle.state_model.specs.Resets as model;
ghost use Rattle.state_model.specs.State.{State};
ghost use Rattle.store_core.specs.Answers.{stopped_by, stops};
ghost use Rattle.store_core.specs.Formatting.{first_bad_setting};
ghost use Rattle.store_core.specs.Represents.{Represents};
ghost use Rattle.store_core.specs.Resetting.{IsResetRefusal, MayReset, Resets, bad_pages, reset_by};
ghost use Rattle.table_model.specs.Tables.{filter_bytes_of};

use crate::error::{StoreError, stops_store};
use crate::formatting::check_settings;
use crate::store::Store;
use byte_fields::Row;
use disk_trait::Disk;
use filter_api::{Field, RangeFilter, Settings};
use key_base::MAX_DEVICE_PAGES;
use manifest::{Version, install};
use std::alloc::{AllocError, Global};

// The same rows again.
fn copied_rows(alloc: Global, rows: &[Row]) -> Result<Vec<Row>, AllocError>
    ensures { IfOk result (λ copy. copy.items ≡ rows.now) }
{
    Vec::from_slice(alloc, rows)
}

// The version with these numbers, which are in range, and all else as it is, the log area too.
fn numbered_version(
    alloc: Global,
    version: &Version,
    settings: Settings,
    pages: u32,
) -> Result<Version, AllocError>
    requires sound { IsVersion version.now.version }
    requires settings { InRange settings }
    requires ratio { settings.ratio ≤ max_ratio }
    requires more { version.now.version.pages ≤ pages }
    requires most { pages ≤ max_device_pages }
    ensures next { IfOk result (λ next. next ≡ record version.now { version = with_numbers settings pages version.now.version.epoch version.now.version }) }
    ensures sound { IfOk result (λ next. IsVersion next.version) }
{
    Ok(Version {
        settings,
        pages,
        epoch: version.epoch,
        log_area: version.log_area,
        slot: version.slot,
        other_open: version.other_open,
        rows: copied_rows(alloc, &version.rows)?,
    })
}

impl<F: RangeFilter> Store<F> {
    /// New tables get these settings. Tables that are there keep those that they were built with until they are merged.
    ///
    /// A version with the new settings is installed, also where they are the present ones. A merge that runs is dropped where it
    /// comes to that install; refused before, by settings out of range, at the last epoch or out of memory, it goes on. No
    /// read, and memory for one version and its body, which is taken before anything is written.
    pub fn set_settings<D: Disk>(
        &mut self,
        disk: &mut D,
        settings: Settings,
    ) -> Result<(), StoreError>
        ensures resets { (s : State) → IsTrue D.tells → self.old.stopped ≡ false → Represents F.spelling (filter_bytes_of F.spelling F.built_cutoff) self.old s (D.world disk.old)
            → Resets F.spelling (filter_bytes_of F.spelling F.built_cutoff) s (model.with_settings settings s) result self.new (D.world disk.old) (D.world disk.new) }
        ensures refused { MatchResult result (λ _. MayReset self.old.stopped (first_bad_setting settings) self.old.manifest.version.epoch) (IsResetRefusal self.old.stopped (first_bad_setting settings) self.old.manifest.version.epoch (D.world disk.old) (D.world disk.new)) }
        ensures store { self.new ≡ reset_by result (with_numbers settings self.old.manifest.version.pages (self.old.manifest.version.epoch + 1) self.old.manifest.version) self.old }
        ensures stopped { self.new.stopped ≡ (self.old.stopped || stopped_by result) }
        ensures no_call { self.old.stopped ≡ true → ReadMoves 0 (D.world disk.old) (D.world disk.new) }
        ensures moves { WriteMoves (other_place self.old.manifest.slot) slot_bytes (D.world disk.old) (D.world disk.new) }
    {
        if self.stopped {
            return Err(StoreError::Stopped);
        }
        check_settings(settings)?;
        let pages = self.version.pages;
        self.install_numbers(disk, settings, pages)
    }

    /// The store has a given number of pages: as many as now or more, and at most 16,777,216. It cannot be taken back.
    ///
    /// A version with that number is installed, also where it is the present one; the length of the device is not looked at. A
    /// merge that runs is dropped where it comes to that install; refused before, by a number out of range, at the last epoch or
    /// out of memory, it goes on. No read, and memory for one version and its body, which is taken before anything is written.
    pub fn grow<D: Disk>(&mut self, disk: &mut D, pages: u64) -> Result<(), StoreError>
        ensures resets { (s : State) → IsTrue D.tells → self.old.stopped ≡ false → Represents F.spelling (filter_bytes_of F.spelling F.built_cutoff) self.old s (D.world disk.old)
            → Resets F.spelling (filter_bytes_of F.spelling F.built_cutoff) s (model.with_pages pages s) result self.new (D.world disk.old) (D.world disk.new) }
        ensures refused { MatchResult result (λ _. MayReset self.old.stopped (bad_pages self.old.manifest.version.pages pages) self.old.manifest.version.epoch) (IsResetRefusal self.old.stopped (bad_pages self.old.manifest.version.pages pages) self.old.manifest.version.epoch (D.world disk.old) (D.world disk.new)) }
        ensures store { self.new ≡ reset_by result (with_numbers (settings_of self.old.manifest.version) pages (self.old.manifest.version.epoch + 1) self.old.manifest.version) self.old }
        ensures stopped { self.new.stopped ≡ (self.old.stopped || stopped_by result) }
        ensures no_call { self.old.stopped ≡ true → ReadMoves 0 (D.world disk.old) (D.world disk.new) }
        ensures moves { WriteMoves (other_place self.old.manifest.slot) slot_bytes (D.world disk.old) (D.world disk.new) }
    {
        if self.stopped {
            return Err(StoreError::Stopped);
        }
        if pages < u64::from(self.version.pages) || pages > u64::from(MAX_DEVICE_PAGES) {
            return Err(StoreError::BadSettings(Field::Pages));
        }
        let settings = self.version.settings;
        self.install_numbers(disk, settings, pages as u32)
    }

    // Installs the version with these numbers, in range, of a store that is not stopped.
    fn install_numbers<D: Disk>(
        &mut self,
        disk: &mut D,
        settings: Settings,
        pages: u32,
    ) -> Result<(), StoreError>
        requires running { self.old.stopped ≡ false }
        requires settings { InRange settings }
        requires ratio { settings.ratio ≤ max_ratio }
        requires more { self.old.manifest.version.pages ≤ pages }
        requires most { pages ≤ max_device_pages }
        ensures resets { (s : State) → IsTrue D.tells → Represents F.spelling (filter_bytes_of F.spelling F.built_cutoff) self.old s (D.world disk.old)
            → Resets F.spelling (filter_bytes_of F.spelling F.built_cutoff) s (model.with_settings settings (record s { pages = pages })) result self.new (D.world disk.old) (D.world disk.new) }
        ensures refused { MatchResult result (λ _. MayReset false None self.old.manifest.version.epoch) (IsResetRefusal false None self.old.manifest.version.epoch (D.world disk.old) (D.world disk.new)) }
        ensures store { self.new ≡ reset_by result (with_numbers settings pages (self.old.manifest.version.epoch + 1) self.old.manifest.version) self.old }
        ensures moves { WriteMoves (other_place self.old.manifest.slot) slot_bytes (D.world disk.old) (D.world disk.new) }
    {
        let alloc = *self.buffer.allocator();
        let next = numbered_version(alloc, &self.version, settings, pages)?;
        match install(alloc, disk, &next) {
            Ok(()) => {
                self.version = next.installed();
                self.need = None;
                self.job = None;
                Ok(())
            }
            Err(fault) => {
                let why = StoreError::from(fault);
                self.stop_by(&why);
                Err(why)
            }
        }
    }

    // Stops the store where a write or a sync failed: then no merge runs.
    fn stop_by(&mut self, why: &StoreError)
        ensures { self.new ≡ (if stops why.now then record self.old { stopped = true; job = None } else self.old) }
    {
        if stops_store(why) {
            self.stopped = true;
            self.job = None;
        }
    }
}
