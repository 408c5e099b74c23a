//! A new version in the place of the old one.
ghost use Rattle.std.specs.Prelude.{◌≡◌, ◌≤◌, ◌+◌, ◌-◌, ◌==◌, ◌↔◌, true, length, OnOk, OnErr, IfErr, IsTrue};
ghost use Rattle.disk_trait.specs.World.{Leads, Now, ReadMoves, WriteMoves, Rose};
ghost use Rattle.disk_trait.specs.Fault.{IsWriteThroughFault};
ghost use Rattle.key_base.specs.Limits.{last_epoch, slot_bytes};
ghost use Rattle.manifest_model.specs.Installs.{Install, IsClosed, IsInstalled, IsOldOrNew, IsWritten, MayInstall};
ghost use Rattle.manifest_model.specs.Laws.{IsVersion};
ghost use Rattle.manifest_model.specs.Slots.{IsVersionOf, body_room};
ghost use Rattle.manifest_model.specs.Version.{body_bytes, body_place};
ghost use Rattle.manifest_model.specs.Version as model;
ghost use Rattle.manifest.specs.Causes.{HasInstallCause, IsSlotFault};
ghost use Rattle.manifest.specs.Manifest.{StandsInSlot, install_of, other_place, raised};
ghost use Rattle.manifest.specs.Steps.{MayClose};

use crate::fault::ManifestFault;
use crate::slots::{B, BODY_AT, CLOSED, OPEN, slot_place};
use crate::version::Version;
use crate::writing::body_of;
use disk_trait::{Disk, DiskFault, write_through};
use key_base::LAST_EPOCH;
use std::alloc::Global;

/// Puts a version in the place of the one that the device holds, with its epoch raised. Its slot is the one in use, its epoch
/// the one that stands there, and it says whether the gate of the other slot reads 1: [`Version::installed`] is what it is
/// then.
///
/// It is written in format 2, whatever the format of the one before. Each image that a crash may leave meanwhile has the
/// old version or the new one, and at `Ok` the new one alone, with both gates open; outside the other slot nothing changes.
/// Three writes, each with a sync, of which the first is left out where the other slot is closed; no read, and memory for
/// one body, which is taken first. [`ManifestFault::Epoch`] exactly where no epoch is left; no write comes before this
/// answer or before out of memory.
#[tactic(auto, unfolding(key_base::specs::Limits::last_epoch))]
pub fn install<D: Disk>(alloc: Global, disk: &mut D, version: &Version) -> Result<(), ManifestFault>
    requires slot { version.now.slot ≤ 1 }
    requires sound { IsVersion version.now.version }
    ensures crash { (from : model.Version) → IsTrue D.tells → from.epoch ≡ version.now.version.epoch
        → Leads (StandsInSlot version.now.slot version.now.other_open from) (IsOldOrNew (install_of version.now from)) (IsInstalled (install_of version.now from))
        result (D.world disk.old) (D.world disk.new) }
    ensures lasting { (from : model.Version) → IsTrue D.tells → from.epoch ≡ version.now.version.epoch → Now (StandsInSlot version.now.slot version.now.other_open from) (D.world disk.old)
        → OnOk result (Now (StandsInSlot (1 - version.now.slot) true (raised version.now.version)) (D.world disk.new)) }
    ensures limit { (result ≡ Err ManifestFault.Epoch) ↔ (version.now.version.epoch ≡ last_epoch) }
    ensures unwritten { (version.now.version.epoch ≡ last_epoch) → ReadMoves 0 (D.world disk.old) (D.world disk.new) }
    ensures moves { WriteMoves (other_place version.now.slot) slot_bytes (D.world disk.old) (D.world disk.new) }
    ensures cause { IfErr result (HasInstallCause (other_place version.now.slot) (D.world disk.old) (D.world disk.new)) }
{
    if version.epoch == LAST_EPOCH {
        return Err(ManifestFault::Epoch);
    }
    let body = body_of(alloc, version, version.epoch + 1)?;
    let other = slot_place(B - version.slot);
    replace(disk, other, version.other_open, &body)?;
    Ok(())
}

// The three parts of an install.
#[tactic(auto, unfolding(manifest_model::specs::Slots::body_room))]
fn replace<D: Disk>(
    disk: &mut D,
    other: u64,
    other_open: bool,
    body: &[u8],
) -> Result<(), DiskFault>
    requires place { other ≤ slot_bytes }
    requires fits { length body.now ≤ body_room }
    ensures crash { (i : Install) → IsTrue D.tells → MayInstall i → i.other ≡ other → body.now ≡ body_bytes 2 i.to
        → Leads (MayClose i other_open) (IsOldOrNew i) (IsInstalled i) result (D.world disk.old) (D.world disk.new) }
    ensures moves { WriteMoves other slot_bytes (D.world disk.old) (D.world disk.new) }
    ensures fault { IfErr result (IsSlotFault other) }
    ensures cause { OnErr result (Rose (D.world disk.old).seen.write_faults (D.world disk.new).seen.write_faults) }
{
    close_gate(disk, other, other_open)?;
    put_body(disk, other, body)?;
    open_gate(disk, other)
}

// Closes the gate of the slot that is not in use, where it is open. Each image meanwhile has the old version.
//
// Where it is closed this is left out: a crash might leave a 1 before a body that is not sound.
fn close_gate<D: Disk>(disk: &mut D, other: u64, is_open: bool) -> Result<(), DiskFault>
    requires { other ≤ slot_bytes }
    ensures crash { (i : Install) → IsTrue D.tells → MayInstall i → i.other ≡ other
        → Leads (MayClose i is_open) (IsVersionOf i.from) (IsClosed i) result (D.world disk.old) (D.world disk.new) }
    ensures moves { WriteMoves other 1 (D.world disk.old) (D.world disk.new) }
    ensures fault { IfErr result (IsWriteThroughFault other) }
    ensures cause { OnErr result (Rose (D.world disk.old).seen.write_faults (D.world disk.new).seen.write_faults) }
{
    if !is_open {
        return Ok(());
    }
    write_through(disk, other, &[CLOSED])
}

// Writes a body behind the closed gate. Each image meanwhile has the old version.
#[tactic(auto, unfolding(manifest_model::specs::Slots::body_room))]
pub(crate) fn put_body<D: Disk>(disk: &mut D, slot: u64, body: &[u8]) -> Result<(), DiskFault>
    requires place { slot ≤ slot_bytes }
    requires fits { length body.now ≤ body_room }
    ensures crash { (i : Install) → IsTrue D.tells → MayInstall i → i.other ≡ slot → body.now ≡ body_bytes 2 i.to
        → Leads (IsClosed i) (IsVersionOf i.from) (IsWritten i) result (D.world disk.old) (D.world disk.new) }
    ensures moves { WriteMoves (body_place slot) (length body.now) (D.world disk.old) (D.world disk.new) }
    ensures fault { IfErr result (IsWriteThroughFault (body_place slot)) }
    ensures cause { OnErr result (Rose (D.world disk.old).seen.write_faults (D.world disk.new).seen.write_faults) }
{
    write_through(disk, slot + BODY_AT, body)
}

// Opens the gate before a body that stands. Each image meanwhile has the old version or the new one, and at Ok the new one.
pub(crate) fn open_gate<D: Disk>(disk: &mut D, slot: u64) -> Result<(), DiskFault>
    requires { slot ≤ slot_bytes }
    ensures crash { (i : Install) → IsTrue D.tells → MayInstall i → i.other ≡ slot
        → Leads (IsWritten i) (IsOldOrNew i) (IsInstalled i) result (D.world disk.old) (D.world disk.new) }
    ensures moves { WriteMoves slot 1 (D.world disk.old) (D.world disk.new) }
    ensures fault { IfErr result (IsWriteThroughFault slot) }
    ensures cause { OnErr result (Rose (D.world disk.old).seen.write_faults (D.world disk.new).seen.write_faults) }
{
    write_through(disk, slot, &[OPEN])
}
