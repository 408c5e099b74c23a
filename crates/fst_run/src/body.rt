//! The bytes of a body, off a device.
ghost use Rattle.std.specs.Prelude.{◌≡◌, ◌≢◌, ◌≤◌, ◌+◌, ◌-◌, ◌^◌, ◌==◌, bytes_eq, codes, drop, length, take, vec_len, IfErr, IfOk, IsTrue, OnErr};
ghost use Rattle.byteorder.specs.Endian.{little_number};
ghost use Rattle.disk_trait.specs.Image.{window};
ghost use Rattle.disk_trait.specs.World.{ReadMoves};
ghost use Rattle.fst_run.specs.Fetching.{IsFetched, IsNoMapThere, IsUnread, ReadFailed};
ghost use Rattle.fst_run.specs.declared.body.Unread.TheVariants.{NoMap};
ghost use Rattle.map_file_model.specs.Reading.{values_place};
ghost use Rattle.map_run_model.specs.Files.{bytes_read};

use byte_fields::{get_u32, get_u64};
use disk_trait::{Disk, DiskFault};
use std::alloc::{AllocError, Global};

// Where the body begins.
const BODY_AT: u64 = 8;

// The bytes of its head.
const HEAD_BYTES: usize = 24;

// The most bytes of a body.
const MAX_BODY_BYTES: u128 = 1 << 31;

/// Why no body was read.
#[derive(Clone, Copy, Debug, PartialEq, Eq)]
pub(crate) enum Unread {
    /// There was no memory.
    Memory,
    /// The device failed.
    Device,
    /// No map is there.
    NoMap,
}

impl From<AllocError> for Unread {
    ghost use Rattle.std.specs.Prelude.{◌≡◌};
    ghost use Rattle.fst_run.specs.declared.body.Unread.{Unread};
    ghost use Rattle.fst_run.specs.declared.body.Unread.TheVariants.{Memory};

    ghost from_gives = { λ _ e. e ≡ Memory };

    fn from(_error: AllocError) -> Self {
        Unread::Memory
    }
}

impl From<DiskFault> for Unread {
    ghost use Rattle.std.specs.Prelude.{◌≡◌};
    ghost use Rattle.fst_run.specs.declared.body.Unread.{Unread};
    ghost use Rattle.fst_run.specs.declared.body.Unread.TheVariants.{Device};

    ghost from_gives = { λ _ e. e ≡ Device };

    fn from(_fault: DiskFault) -> Self {
        Unread::Device
    }
}

// Where a head says that the values begin, whatever its numbers are.
fn values_begin(head: &[u8]) -> u128
    requires { 24 ≤ length head.now }
    ensures { result ≡ values_place head.now }
{
    24 + u128::from(get_u64(head, 16)) + 8 * (u128::from(get_u32(head, 8)) + 1)
}

// Where the last offset says that the body ends, whatever it is: it is at the end of these bytes, behind which the values begin.
fn body_ends(front: &[u8]) -> u128
    requires { 8 ≤ length front.now }
    ensures { result ≡ length front.now + little_number 8 (drop (length front.now - 8) front.now) + 8 }
{
    front.len() as u128 + u128::from(get_u64(front, front.len() - 8)) + 8
}

// So many first bytes of the body.
fn read_first<D: Disk>(alloc: Global, disk: &mut D, bytes: usize) -> Result<Vec<u8>, Unread>
    requires { bytes ≤ 2 ^ 31 }
    ensures bytes { IsTrue D.tells → IfOk result (λ body. body.items ≡ window (D.world disk.old).seen.held 8 bytes) }
    ensures size { IfOk result (λ body. vec_len body ≡ bytes) }
    ensures cause { IfErr result (λ why. IsUnread why (D.world disk.old) (D.world disk.new)) }
    ensures not_there { IfErr result (λ why. why ≢ NoMap) }
    ensures moves { ReadMoves 1 (D.world disk.old) (D.world disk.new) }
{
    let mut body = vec![in alloc; 0; bytes]?;
    disk.read(BODY_AT, &mut body)?;
    Ok(body)
}

// Whether byte 0 of the device is 1.
fn is_open<D: Disk>(disk: &mut D) -> Result<bool, DiskFault>
    ensures open { IsTrue D.tells → IfOk result (λ yes. yes ≡ ((D.world disk.old).seen.held 0 == 1)) }
    ensures cause { OnErr result (ReadFailed (D.world disk.old) (D.world disk.new)) }
    ensures moves { ReadMoves 1 (D.world disk.old) (D.world disk.new) }
{
    let mut gate = [0];
    disk.read(0, &mut gate)?;
    Ok(gate[0] == 1)
}

// The bytes of a body whose head is this.
fn read_rest<D: Disk>(alloc: Global, disk: &mut D, head: Vec<u8>) -> Result<Vec<u8>, Unread>
    requires { length head.items ≡ 24 }
    ensures bytes { IsTrue D.tells → head.items ≡ window (D.world disk.old).seen.held 8 24 → IfOk result (λ body. body.items ≡ bytes_read (D.world disk.old).seen.held) }
    ensures cause { IfErr result (λ why. IsUnread why (D.world disk.old) (D.world disk.new)) }
    ensures size { IfOk result (λ body. vec_len body ≤ 2 ^ 31) }
    ensures not_there { IfErr result (λ why. why ≢ NoMap) }
    ensures moves { ReadMoves 2 (D.world disk.old) (D.world disk.new) }
{
    let values = values_begin(&head);
    if values > MAX_BODY_BYTES {
        return Ok(head);
    }
    let front = read_first(alloc, disk, values as usize)?;
    let end = body_ends(&front);
    if end > MAX_BODY_BYTES {
        return Ok(front);
    }
    read_first(alloc, disk, end as usize)
}

// Whether a head begins as a map's does.
fn has_magic(head: &[u8]) -> bool
    requires { 4 ≤ length head.now }
    ensures { result ≡ bytes_eq (take 4 head.now) (codes "SURM") }
{
    &head[..4] == b"SURM".as_slice()
}

/// The bytes of the body on a device that has a map: the head, then as many as it asks for up to the last offset, then as many as
/// that asks for. Where more than 2^31 are asked for, those that were read before.
///
/// At most four reads. Takes memory for the bytes.
pub(crate) fn read_body<D: Disk>(alloc: Global, disk: &mut D) -> Result<Vec<u8>, Unread>
    ensures fetched { IsTrue D.tells → IfOk result (λ body. IsFetched (D.world disk.old).seen.held body.items) }
    ensures size { IfOk result (λ body. vec_len body ≤ 2 ^ 31) }
    ensures cause { IfErr result (λ why. IsUnread why (D.world disk.old) (D.world disk.new)) }
    ensures no_map { IsTrue D.tells → IfErr result (λ why. IsNoMapThere why (D.world disk.old).seen.held) }
    ensures moves { ReadMoves 4 (D.world disk.old) (D.world disk.new) }
{
    let is_open = is_open(disk)?;
    let head = read_first(alloc, disk, HEAD_BYTES)?;
    if !is_open || !has_magic(&head) {
        return Err(Unread::NoMap);
    }
    read_rest(alloc, disk, head)
}
