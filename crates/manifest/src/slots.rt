//! The two slots of a device.
ghost use Rattle.std.specs.Prelude.{◌≡◌, ◌≤◌, ◌==◌, IfOk, IfErr, OnErr, IsTrue};
ghost use Rattle.disk_trait.specs.Fault.{IsFaultOf};
ghost use Rattle.disk_trait.specs.World.{ReadMoves, Rose};
ghost use Rattle.manifest.specs.Manifest.{place_of};

use disk_trait::{Disk, DiskFault, Op};
use key_base::SLOT_BYTES;

/// What the gate of an open slot reads. Every other byte is a closed one.
pub(crate) const OPEN: u8 = 1;

pub(crate) const CLOSED: u8 = 0;

/// Slot A and slot B.
pub(crate) const A: u8 = 0;

pub(crate) const B: u8 = 1;

/// How many bytes behind the first of its slot a body begins.
pub const BODY_AT: u64 = 8;

/// The first byte of a slot, which is its gate.
pub(crate) fn slot_place(slot: u8) -> u64
    requires { slot ≤ 1 }
    ensures { result ≡ place_of slot }
{
    SLOT_BYTES * u64::from(slot)
}

/// Whether a slot is open. One read of one byte.
pub(crate) fn is_open<D: Disk>(disk: &mut D, slot: u8) -> Result<bool, DiskFault>
    requires { slot ≤ 1 }
    ensures gate { IsTrue D.tells → IfOk result (λ opened. opened ≡ ((D.world disk.old).seen.held (place_of slot) == 1)) }
    ensures moves { ReadMoves 1 (D.world disk.old) (D.world disk.new) }
    ensures fault { IfErr result (IsFaultOf Op.Read (place_of slot)) }
    ensures cause { OnErr result (Rose (D.world disk.old).seen.read_faults (D.world disk.new).seen.read_faults) }
{
    let mut gate = [CLOSED];
    disk.read(slot_place(slot), &mut gate)?;
    Ok(gate[0] == OPEN)
}
