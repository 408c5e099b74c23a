//! The trait of a disk, and writes that last.
ghost use Rattle.std.specs.Prelude.{◌≡◌, ◌+◌, ◌^◌, ◌≤◌, Bool, List, ℕ, length, IsTrue, OnOk, OnErr, IfErr};
ghost use Rattle.disk_trait.specs.Image.{overwritten, window};
ghost use Rattle.disk_trait.specs.World.{World, IsDurable, ReadMoves, WriteMoves, SyncMoves, Rose};
ghost use Rattle.disk_trait.specs.Fault.{IsFaultOf, IsWriteThroughFault};
ghost use Rattle.disk_trait.specs.declared.fault.Op.TheVariants.{Read, Write, Sync};

use crate::fault::DiskFault;

/// A device of bytes at places below 2^48, any of whose calls may fail.
///
/// Between two syncs each written range may hold any bytes after a crash, and bytes outside written ranges stay. A
/// write that fails counts as a write of its range. After a sync that succeeds, a crash leaves what a read gives. A
/// fault comes only where the count of faults of its kind rose in that call, and no call changes what stands beside
/// the disk.
pub trait Disk {
    /// Whether it tells what it holds, how often it was read, and what a crash may leave. No call changes that.
    ghost tells: { Bool };

    /// What it is, and what stands beside it.
    ghost world: { Self → World };

    /// Fills the whole slice with the bytes from place `at` on; bytes past the end of the device read as zero.
    ///
    /// At `Err` the slice holds any bytes, and the disk is as it was.
    fn read(&mut self, at: u64, into: &mut [u8]) -> Result<(), DiskFault>
        requires { at + length into.old ≤ 2 ^ 48 }
        ensures bytes { IsTrue tells → OnOk result (into.new ≡ window (world self.old).seen.held at (length into.old)) }
        ensures counted { IsTrue tells → OnOk result ((world self.new).seen.reads ≡ (world self.old).seen.reads + 1) }
        ensures moves { ReadMoves 1 (world self.old) (world self.new) }
        ensures fault { IfErr result (IsFaultOf Read at) }
        ensures cause { OnErr result (Rose (world self.old).seen.read_faults (world self.new).seen.read_faults) };

    /// Writes the slice's bytes from place `at` on. They last only once a sync has succeeded.
    ///
    /// At `Err` any bytes may stand in its range, and nothing else has changed.
    fn write(&mut self, at: u64, from: &[u8]) -> Result<(), DiskFault>
        requires { at + length from.now ≤ 2 ^ 48 }
        ensures written { IsTrue tells → OnOk result ((world self.new).seen.held ≡ overwritten (world self.old).seen.held at from.now) }
        ensures moves { WriteMoves at (length from.now) (world self.old) (world self.new) }
        ensures fault { IfErr result (IsFaultOf Write at) }
        ensures cause { OnErr result (Rose (world self.old).seen.write_faults (world self.new).seen.write_faults) };

    /// Makes all that was written last: at `Ok` a crash leaves what a read gives.
    fn sync(&mut self) -> Result<(), DiskFault>
        ensures durable { OnOk result (IsDurable (world self.new)) }
        ensures moves { SyncMoves (world self.old) (world self.new) }
        ensures fault { IfErr result (IsFaultOf Sync 0) }
        ensures cause { OnErr result (Rose (world self.old).seen.write_faults (world self.new).seen.write_faults) };

    /// What it reads as is one of what a crash may leave now.
    ghost current: { (disk : Self) → IsTrue tells → (world disk).leaves (world disk).moment (world disk).seen.held };
}

/// Writes the slice's bytes from place `at` on and makes them last: one write and one sync.
///
/// At `Ok` no crash takes them back. At `Err`, the fault of whichever of the two failed, any bytes may stand in the
/// range.
pub fn write_through<D: Disk>(disk: &mut D, at: u64, from: &[u8]) -> Result<(), DiskFault>
    requires { at + length from.now ≤ 2 ^ 48 }
    ensures written { IsTrue D.tells → OnOk result ((D.world disk.new).seen.held ≡ overwritten (D.world disk.old).seen.held at from.now) }
    ensures durable { OnOk result (IsDurable (D.world disk.new)) }
    ensures moves { WriteMoves at (length from.now) (D.world disk.old) (D.world disk.new) }
    ensures fault { IfErr result (IsWriteThroughFault at) }
    ensures cause { OnErr result (Rose (D.world disk.old).seen.write_faults (D.world disk.new).seen.write_faults) }
{
    disk.write(at, from)?;
    disk.sync()
}
