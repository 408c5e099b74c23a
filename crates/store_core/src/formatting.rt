//! A new store.
ghost use Rattle.std.specs.Prelude.{◌≡◌, ◌≤◌, ◌+◌, Some, None, true, false, IsTrue, IfErr, MatchResult};
ghost use Rattle.disk_trait.specs.World.{Leads, Moves};
ghost use Rattle.filter_api.specs.Ranges.{InRange};
ghost use Rattle.filter_api.specs.Spellings.{Spelling};
ghost use Rattle.image_model.specs.Stands.{IsStateOf};
ghost use Rattle.key_base.specs.Limits.{max_device_pages, min_device_pages};
ghost use Rattle.log_model.specs.Area.{start_of};
ghost use Rattle.manifest.specs.NewManifest.{has_open};
ghost use Rattle.manifest_model.specs.Slots.{IsNoStore};
ghost use Rattle.state_model.specs.State.{new_state};
ghost use Rattle.store_core.specs.Formatting.{IsFormatRefusal, IsMakeFault, IsNoneOrNew, IsNotThere, IsThereAnswer, first_bad, first_bad_setting};

use crate::error::StoreError;
use crate::store::Store;
use disk_trait::Disk;
use filter_api::{BadSettings, Field, RangeFilter, Settings};
use gate_log::Log;
use key_base::{MAX_DEVICE_PAGES, MIN_DEVICE_PAGES};
use manifest::{ManifestFault, is_store};
use std::alloc::Global;

// Whether settings are in range.
pub(crate) fn check_settings(settings: Settings) -> Result<(), BadSettings>
    ensures first { MatchResult result (λ _. first_bad_setting settings ≡ None) (λ bad. first_bad_setting settings ≡ Some bad.0) }
    ensures in_range { MatchResult result (λ _. InRange settings) (λ _. Unit {0}) }
{
    settings.check()
}

// Whether pages and settings are in range.
fn check_numbers(settings: Settings, pages: u64) -> Result<(), BadSettings>
    ensures numbers { MatchResult result (λ _. first_bad settings pages ≡ None) (λ bad. first_bad settings pages ≡ Some bad.0) }
    ensures settings { MatchResult result (λ _. InRange settings) (λ _. Unit {0}) }
    ensures from { MatchResult result (λ _. min_device_pages ≤ pages) (λ _. Unit {0}) }
    ensures to { MatchResult result (λ _. pages ≤ max_device_pages) (λ _. Unit {0}) }
{
    if pages < u64::from(MIN_DEVICE_PAGES) || pages > u64::from(MAX_DEVICE_PAGES) {
        return Err(BadSettings(Field::Pages));
    }
    check_settings(settings)
}

impl<F: RangeFilter> Store<F> {
    /// Makes the device an empty store of a given number of pages, 512 to 16,777,216, with filters by these settings.
    ///
    /// Whether a store is there already is looked at before anything is written, and one that does stays as it is. Where
    /// no image had an open slot at the start, each image that a crash may leave meanwhile is no store or the new one, and at
    /// `Ok` the new one alone.
    pub fn format<D: Disk>(
        alloc: Global,
        disk: &mut D,
        settings: Settings,
        pages: u64,
    ) -> Result<(), StoreError>
        ensures crash { IsTrue D.tells → Leads IsNoStore (IsNoneOrNew F.spelling settings pages) (IsStateOf F.spelling (new_state settings pages)) result (D.world disk.old) (D.world disk.new) }
        ensures refused { MatchResult result (λ _. first_bad settings pages ≡ None) (IsFormatRefusal (first_bad settings pages) (D.world disk.old) (D.world disk.new)) }
        ensures there { IsTrue D.tells → MatchResult result (λ _. has_open (D.world disk.old).seen.held ≡ false) (IsThereAnswer (has_open (D.world disk.old).seen.held)) }
        ensures stays { IsTrue D.tells → has_open (D.world disk.old).seen.held ≡ true → Moves 0 0 2 (D.world disk.old) (D.world disk.new) }
        ensures moves { Moves 0 (start_of 0 + 1) 4 (D.world disk.old) (D.world disk.new) }
    {
        check_numbers(settings, pages)?;
        if is_store(disk)? {
            return Err(StoreError::AlreadyAStore);
        }
        make_store(alloc, disk, settings, pages as u32)?;
        Ok(())
    }
}

// Begins the log and writes the manifest, of a device without a store.
fn make_store<D: Disk>(
    alloc: Global,
    disk: &mut D,
    settings: Settings,
    pages: u32,
) -> Result<(), ManifestFault>
    requires settings { InRange settings }
    requires from { min_device_pages ≤ pages }
    requires to { pages ≤ max_device_pages }
    ensures crash { (spelling : Spelling) → IsTrue D.tells → Leads IsNoStore (IsNoneOrNew spelling settings pages) (IsStateOf spelling (new_state settings pages)) result (D.world disk.old) (D.world disk.new) }
    ensures cause { IfErr result (IsMakeFault (D.world disk.old) (D.world disk.new)) }
    ensures there { IsTrue D.tells → has_open (D.world disk.old).seen.held ≡ false → IfErr result IsNotThere }
    ensures moves { Moves 0 (start_of 0 + 1) 2 (D.world disk.old) (D.world disk.new) }
{
    Log::start(disk, 0)?;
    manifest::format(alloc, disk, settings, pages)
}
