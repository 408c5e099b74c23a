//! The version that a device holds.
ghost use Rattle.std.specs.Prelude.{◌≡◌, ◌≤◌, ◌<◌, ◌+◌, ◌-◌, ◌*◌, ◌⊎◌, length, take, drop, true, false, Some, IfOk, IfErr, IfSome, OnOk, OnErr, IsTrue, MatchResult};
ghost use Rattle.byte_fields.specs.declared.parts.Damage.{Damage as Found};
ghost use Rattle.disk_trait.specs.Fault.{IsFaultOf};
ghost use Rattle.disk_trait.specs.Image.{Image, window};
ghost use Rattle.disk_trait.specs.World.{ReadMoves, Rose};
ghost use Rattle.manifest_model.specs.Laws.{IsVersion};
ghost use Rattle.manifest_model.specs.Reading.{body_damage};
ghost use Rattle.manifest_model.specs.Slots.{IsNoStore, IsVersionOf, body_in, body_room, slot_damage, slots_damage};
ghost use Rattle.manifest_model.specs.Version.{body_place, slot_a, slot_b};
ghost use Rattle.manifest_model.specs.Version as model;
ghost use Rattle.manifest.specs.Causes.{HasBodyCause, HasLoadCause, HasSlotCause};
ghost use Rattle.manifest.specs.Loading.{IsFree, IsLoadAnswer, IsLoaded, IsNoStoreAnswer, IsOfSlot, IsSlotAnswer, IsVersionAt, one_epoch};
ghost use Rattle.manifest.specs.Manifest.{place_of};
ghost use Rattle.manifest.specs.Reading.{IsDamage};

use crate::fault::ManifestFault;
use crate::reading::{read_body, shape};
use crate::rules::{Broken, head_rules};
use crate::slots::{A, B, BODY_AT, is_open, slot_place};
use crate::version::Version;
use crate::writing::{HEAD_BYTES, ROW_BYTES, SUM_BYTES};
use byte_fields::get_u16;
use disk_trait::{Disk, DiskFault, Op};
use std::alloc::Global;
use std::cmp::Ordering;

/// The version that the device holds: that of the open slot, or of two open ones that of the greater epoch.
///
/// Every open slot must be sound: else the first damage, of slot A, of slot B, of both together. Where no slot is open the
/// device is [`ManifestFault::NotAStore`]. At most six reads, whatever the bytes say: of slot A and then of slot B those of
/// [`read_slot`].
pub fn load<D: Disk>(alloc: Global, disk: &mut D) -> Result<Version, ManifestFault>
    ensures answer { IsTrue D.tells → MatchResult result (IsLoaded (D.world disk.old).seen.held) (IsLoadAnswer (D.world disk.old).seen.held) }
    ensures exact { (v : model.Version) → IsTrue D.tells → IsVersionOf v (D.world disk.old).seen.held → MatchResult result (λ found. found.version ≡ v) IsFree }
    ensures none { IsTrue D.tells → IsNoStore (D.world disk.old).seen.held → MatchResult result (λ _. ⊥) IsNoStoreAnswer }
    ensures damaged { (found : Found) → IsTrue D.tells → slots_damage (D.world disk.old).seen.held ≡ Some found → MatchResult result (λ _. ⊥) (IsDamage (Some found)) }
    ensures sound { IfOk result (λ found. IsVersion found.version) }
    ensures slot { IfOk result (λ found. found.slot ≤ 1) }
    ensures moves { ReadMoves 6 (D.world disk.old) (D.world disk.new) }
    ensures cause { IfErr result (HasLoadCause (D.world disk.old) (D.world disk.new)) }
{
    let a = read_slot(alloc, disk, A)?;
    let b = read_slot(alloc, disk, B)?;
    current(a, b)
}

// Of what the two slots hold the version in use: of two that of the greater epoch.
fn current(a: Option<Version>, b: Option<Version>) -> Result<Version, ManifestFault>
    requires at_a { IfSome a (IsOfSlot 0) }
    requires at_b { IfSome b (IsOfSlot 1) }
    requires sound_a { IfSome a (λ v. IsVersion v.version) }
    requires sound_b { IfSome b (λ v. IsVersion v.version) }
    ensures answer { (image : Image) → IsSlotAnswer slot_a image a → IsSlotAnswer slot_b image b → MatchResult result (IsLoaded image) (IsLoadAnswer image) }
    ensures sound { IfOk result (λ v. IsVersion v.version) }
    ensures slot { IfOk result (λ v. v.slot ≤ 1) }
    ensures fault { IfErr result (λ fault. (fault ≡ ManifestFault.NotAStore) ⊎ (fault ≡ ManifestFault.Damaged one_epoch)) }
{
    match (a, b) {
        (Some(a), Some(b)) => newer(a, b),
        (Some(a), None) => Ok(a),
        (None, Some(b)) => Ok(b),
        (None, None) => Err(ManifestFault::NotAStore),
    }
}

// The version of the greater epoch, beside the other one. Two of one epoch are damage.
fn newer(a: Version, b: Version) -> Result<Version, ManifestFault>
    ensures version { IfOk result (λ v. ((v ≡ record a { other_open = true }) × (b.version.epoch < a.version.epoch)) ⊎ ((v ≡ record b { other_open = true }) × (a.version.epoch < b.version.epoch))) }
    ensures one_epoch { OnErr result (a.version.epoch ≡ b.version.epoch) }
    ensures damage { IfErr result (λ fault. fault ≡ ManifestFault.Damaged one_epoch) }
{
    let newer = match a.epoch.cmp(&b.epoch) {
        Ordering::Greater => a,
        Ordering::Less => b,
        Ordering::Equal => return Err(shape(B, Broken { place: 8, rule: 11 })),
    };
    Ok(Version {
        other_open: true,
        ..newer
    })
}

/// The version of one slot, 0 for slot A and 1 for slot B: `None` exactly where its gate reads other than 1.
///
/// An open slot must be sound by itself: else its first damage. The other slot is not looked at, so
/// [`other_open`](Version::other_open) says false. At most three reads, whatever the bytes say: the gate, and of an open slot
/// the head of its body and the rest.
pub fn read_slot<D: Disk>(
    alloc: Global,
    disk: &mut D,
    slot: u8,
) -> Result<Option<Version>, ManifestFault>
    requires { slot ≤ 1 }
    ensures answer { IsTrue D.tells → MatchResult result (IsSlotAnswer (place_of slot) (D.world disk.old).seen.held) (IsDamage (slot_damage (place_of slot) (D.world disk.old).seen.held)) }
    ensures place { IfOk result (λ found. IfSome found (IsOfSlot slot)) }
    ensures sound { IfOk result (λ found. IfSome found (λ v. IsVersion v.version)) }
    ensures moves { ReadMoves 3 (D.world disk.old) (D.world disk.new) }
    ensures cause { IfErr result (HasSlotCause (place_of slot) (D.world disk.old) (D.world disk.new)) }
{
    if !is_open(disk, slot)? {
        return Ok(None);
    }
    let version = read_version(alloc, disk, slot)?;
    Ok(Some(version))
}

// The version of a slot that is open. Its body is read in two parts: the head, and once it is known how long it is, the rest.
fn read_version<D: Disk>(alloc: Global, disk: &mut D, slot: u8) -> Result<Version, ManifestFault>
    requires { slot ≤ 1 }
    ensures held { IsTrue D.tells → IfOk result (λ found. IsVersionAt (place_of slot) found.version (D.world disk.old).seen.held) }
    ensures place { IfOk result (IsOfSlot slot) }
    ensures sound { IfOk result (λ found. IsVersion found.version) }
    ensures damage { IsTrue D.tells → IfErr result (IsDamage (body_damage (place_of slot) (body_in (place_of slot) (D.world disk.old).seen.held))) }
    ensures moves { ReadMoves 2 (D.world disk.old) (D.world disk.new) }
    ensures cause { IfErr result (HasBodyCause (place_of slot) (D.world disk.old) (D.world disk.new)) }
{
    let at = slot_place(slot) + BODY_AT;
    let mut head = [0; HEAD_BYTES];
    disk.read(at, &mut head)?;
    if let Some(broken) = head_rules(&head) {
        return Err(shape(slot, broken));
    }
    let count = usize::from(get_u16(&head, 6));
    let mut body = vec![in alloc; 0; HEAD_BYTES + ROW_BYTES * count + SUM_BYTES]?;
    fill(disk, at, &head, &mut body)?;
    read_body(alloc, slot, &body)
}

// Fills a body with its head, which was read already, and with the bytes that follow it on the device.
#[tactic(auto, unfolding(manifest_model::specs::Slots::body_room))]
fn fill<D: Disk>(disk: &mut D, at: u64, head: &[u8], body: &mut [u8]) -> Result<(), DiskFault>
    requires place { at ≤ body_place slot_b }
    requires head { length head.now ≡ 64 }
    requires long { 64 ≤ length body.old }
    requires short { length body.old ≤ body_room }
    ensures size { length body.new ≡ length body.old }
    ensures head { take 64 body.new ≡ head.now }
    ensures rest { IsTrue D.tells → OnOk result (drop 64 body.new ≡ window (D.world disk.old).seen.held (at + 64) (length body.old - 64)) }
    ensures moves { ReadMoves 1 (D.world disk.old) (D.world disk.new) }
    ensures fault { IfErr result (IsFaultOf Op.Read (at + 64)) }
    ensures cause { OnErr result (Rose (D.world disk.old).seen.read_faults (D.world disk.new).seen.read_faults) }
{
    body[..HEAD_BYTES].copy_from_slice(head);
    disk.read(at + HEAD_BYTES as u64, &mut body[HEAD_BYTES..])
}
