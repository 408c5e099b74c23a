//! What each call promises of any disk, and beside it exactly how it ends.
ghost use Rattle.std.specs.Prelude.{◌≡◌, ◌⊎◌, ◌+◌, ◌^◌, ◌≤◌, ◌↔◌, length, IsTrue, IsErr, OnOk, OnErr, IfErr, true};
ghost use Rattle.disk_trait.specs.World.{window, overwritten, ReadMoves, WriteMoves, SyncMoves, IsDurable, Rose};
ghost use Rattle.disk_trait.specs.Fault.{IsFaultOf};
ghost use Rattle.disk_trait.specs.declared.fault.Op.TheVariants.{Read, Write, Sync};
ghost use Rattle.disk_mem.specs.History.{disk_world, IsListed, ReadEnds, WriteEnds, SyncEnds, StarvesRead, StarvesWrite, Lasts, moved_by};

use crate::mem_disk::MemDisk;
use disk_trait::{Disk, DiskFault};

impl Disk for MemDisk {
    ghost use Rattle.std.specs.Prelude.{true};
    ghost use Rattle.disk_mem.specs.History.{disk_world};
    ghost use Rattle.disk_mem.specs.CurrentLaws.{current_is_left};

    ghost tells = { true };

    ghost world = { disk_world };

    ghost current = { λ h tells. current_is_left h };

    fn read(&mut self, at: u64, into: &mut [u8]) -> Result<(), DiskFault>
        requires { at + length into.old ≤ 2 ^ 48 }
        ensures bytes { OnOk result (into.new ≡ window (disk_world self.old).seen.held at (length into.old)) }
        ensures counted { OnOk result ((disk_world self.new).seen.reads ≡ (disk_world self.old).seen.reads + 1) }
        ensures moves { ReadMoves 1 (disk_world self.old) (disk_world self.new) }
        ensures fault { IfErr result (IsFaultOf Read at) }
        ensures cause { OnErr result (Rose (disk_world self.old).seen.read_faults (disk_world self.new).seen.read_faults) }

        // Beside what any disk promises: its record, and when it fails.
        ensures ends { ReadEnds at into.new result self.old self.new }
        ensures fails { IsErr result ↔ (IsListed self.old ⊎ StarvesRead self.old self.new) }
        ensures lasts { Lasts (length into.old) self.old self.new }
    {
        self.number_read(at, into)
    }

    fn write(&mut self, at: u64, from: &[u8]) -> Result<(), DiskFault>
        requires { at + length from.now ≤ 2 ^ 48 }
        ensures written { OnOk result ((disk_world self.new).seen.held ≡ overwritten (disk_world self.old).seen.held at from.now) }
        ensures moves { WriteMoves at (length from.now) (disk_world self.old) (disk_world self.new) }
        ensures fault { IfErr result (IsFaultOf Write at) }
        ensures cause { OnErr result (Rose (disk_world self.old).seen.write_faults (disk_world self.new).seen.write_faults) }

        ensures ends { WriteEnds at from.now result self.old self.new }
        ensures fails { IsErr result ↔ (IsListed self.old ⊎ StarvesWrite self.old self.new) }
        ensures lasts { Lasts (moved_by at (length from.now) self.old) self.old self.new }
    {
        self.number_write(at, from)
    }

    fn sync(&mut self) -> Result<(), DiskFault>
        ensures durable { OnOk result (IsDurable (disk_world self.new)) }
        ensures moves { SyncMoves (disk_world self.old) (disk_world self.new) }
        ensures fault { IfErr result (IsFaultOf Sync 0) }
        ensures cause { OnErr result (Rose (disk_world self.old).seen.write_faults (disk_world self.new).seen.write_faults) }

        ensures ends { SyncEnds result self.old self.new }
        ensures fails { IsErr result ↔ (IsListed self.old ⊎ StarvesWrite self.old self.new) }
        ensures lasts { Lasts 0 self.old self.new }
    {
        self.number_sync()
    }
}
