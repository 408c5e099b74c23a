//! The first version of a store.
ghost use Rattle.std.specs.Prelude.{◌≡◌, ◌<◌, ◌≤◌, ◌+◌, length, true, false, IfOk, IfErr, OnOk, OnErr, IsTrue, MatchResult};
ghost use Rattle.disk_trait.specs.World.{IsDurable, Leads, Moves, Rose, WriteMoves};
ghost use Rattle.filter_api.specs.Ranges.{InRange};
ghost use Rattle.key_base.specs.Limits.{max_device_pages, max_ratio, min_device_pages, slot_bytes};
ghost use Rattle.manifest_model.specs.Laws.{IsVersion};
ghost use Rattle.manifest_model.specs.NewVersion.{new_version};
ghost use Rattle.manifest_model.specs.Slots.{IsNoStore, body_room};
ghost use Rattle.manifest_model.specs.Version.{body_bytes};
ghost use Rattle.manifest_model.specs.Version as model;
ghost use Rattle.manifest.specs.Causes.{HasFormatCause, IsFormatAnswer, HasLookCause, IsSlotFault};
ghost use Rattle.manifest.specs.NewManifest.{IsNew, IsNewOrNone, has_open};

use crate::fault::ManifestFault;
use crate::slots::{A, B, BODY_AT, OPEN, is_open, slot_place};
use crate::version::Version;
use crate::writing::body_of;
use disk_trait::{Disk, DiskFault, write_through};
use filter_api::Settings;
use std::alloc::{AllocError, Global};

/// Whether the device holds a store: whether the gate of a slot reads 1. One sync and two reads of one byte.
///
/// At `Ok` all that was written before lasts.
pub fn is_store<D: Disk>(disk: &mut D) -> Result<bool, DiskFault>
    ensures answer { IsTrue D.tells → IfOk result (λ is. is ≡ has_open (D.world disk.old).seen.held) }
    ensures durable { IsTrue D.tells → OnOk result (IsDurable (D.world disk.new)) }
    ensures moves { Moves 0 0 2 (D.world disk.old) (D.world disk.new) }
    ensures cause { IfErr result (HasLookCause (D.world disk.old) (D.world disk.new)) }
{
    disk.sync()?;
    let a_open = is_open(disk, A)?;
    let b_open = is_open(disk, B)?;
    Ok(a_open || b_open)
}

/// Makes the device a new store of so many pages, 512 to 16,777,216, whose version is written into slot A, in format 2.
///
/// Where no image had an open slot at the start, each image that a crash may leave meanwhile has no version or that one, and
/// at `Ok` that one alone. [`ManifestFault::AlreadyAStore`] exactly where a gate reads 1, and then nothing is written; nor is
/// it where memory is wanted. Three syncs, two reads, two writes.
pub fn format<D: Disk>(
    alloc: Global,
    disk: &mut D,
    settings: Settings,
    pages: u32,
) -> Result<(), ManifestFault>
    requires settings { InRange settings }
    requires from { min_device_pages ≤ pages }
    requires to { pages ≤ max_device_pages }
    ensures crash { IsTrue D.tells → Leads IsNoStore (IsNewOrNone (new_version settings pages)) (IsNew (new_version settings pages)) result (D.world disk.old) (D.world disk.new) }
    ensures answer { IsTrue D.tells → MatchResult result (λ _. has_open (D.world disk.old).seen.held ≡ false) (IsFormatAnswer (has_open (D.world disk.old).seen.held)) }
    ensures moves { Moves 0 slot_bytes 2 (D.world disk.old) (D.world disk.new) }
    ensures cause { IfErr result (HasFormatCause (D.world disk.old) (D.world disk.new)) }
    ensures unwritten { (result ≡ Err ManifestFault.AlreadyAStore) → Moves 0 0 2 (D.world disk.old) (D.world disk.new) }
    ensures over_a_store { IsTrue D.tells → has_open (D.world disk.old).seen.held ≡ true → Moves 0 0 2 (D.world disk.old) (D.world disk.new) }
{
    if is_store(disk)? {
        return Err(ManifestFault::AlreadyAStore);
    }
    let body = first_body(alloc, settings, pages)?;
    write_first(disk, &body)?;
    Ok(())
}

// The body of a new store's version.
fn first_body(alloc: Global, settings: Settings, pages: u32) -> Result<Vec<u8>, AllocError>
    ensures bytes { IfOk result (λ bytes. bytes.items ≡ body_bytes 2 (new_version settings pages)) }
    ensures ratio { settings.ratio ≤ max_ratio }
{
    let version = Version {
        settings,
        pages,
        epoch: 1,
        log_area: 0,
        slot: A,
        other_open: false,
        rows: Vec::new(alloc),
    };
    body_of(alloc, &version, version.epoch)
}

// Writes a body into slot A and makes it last, and then opens the gate before it.
#[tactic(auto, unfolding(manifest_model::specs::Slots::body_room))]
fn write_first<D: Disk>(disk: &mut D, body: &[u8]) -> Result<(), DiskFault>
    requires { length body.now ≤ body_room }
    ensures crash { (v : model.Version) → IsTrue D.tells → IsVersion v → body.now ≡ body_bytes 2 v
        → Leads IsNoStore (IsNewOrNone v) (IsNew v) result (D.world disk.old) (D.world disk.new) }
    ensures moves { WriteMoves 0 slot_bytes (D.world disk.old) (D.world disk.new) }
    ensures fault { IfErr result (IsSlotFault 0) }
    ensures cause { OnErr result (Rose (D.world disk.old).seen.write_faults (D.world disk.new).seen.write_faults) }
{
    write_through(disk, slot_place(A) + BODY_AT, body)?;
    write_through(disk, slot_place(A), &[OPEN])
}
