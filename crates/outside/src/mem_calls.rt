//! What the calls of an outside in memory promise of any outside, and beside it exactly how they end.
ghost use Rattle.std.specs.Prelude.{◌≡◌, ◌⊎◌, ◌+◌, ◌^◌, ◌≤◌, ◌<◌, ◌↔◌, ◌++◌, length, take, IsErr, IfOk, OnOk, OnErr, IfErr, Contains};
ghost use Rattle.disk_trait.specs.World.{window, overwritten, ReadMoves, WriteMoves, SyncMoves, IsDurable, Rose};
ghost use Rattle.disk_trait.specs.Fault.{IsFaultOf};
ghost use Rattle.disk_trait.specs.declared.fault.Op.TheVariants.{Read, Write, Sync};
ghost use Rattle.disk_mem.specs.History.{ReadEnds, WriteEnds, SyncEnds};
ghost use Rattle.outside.specs.Session.{session_world, TakeEnds, SayEnds, StarvesSay};
ghost use Rattle.outside.specs.Streams.{Takes, TakeMoves, SayMoves};

use crate::mem_outside::MemOutside;
use crate::stream::{Outside, SayFault, TakeFault};
use disk_trait::{Disk, DiskFault};

impl Disk for MemOutside {
    ghost use Rattle.std.specs.Prelude.{true};
    ghost use Rattle.outside.specs.Session.{session_world};
    ghost use Rattle.outside.specs.PresentLaws.{session_is_left};

    ghost tells = { true };

    ghost world = { session_world };

    ghost current = { λ s tells. session_is_left s };

    fn read(&mut self, at: u64, into: &mut [u8]) -> Result<(), DiskFault>
        requires { at + length into.old ≤ 2 ^ 48 }
        ensures bytes { OnOk result (into.new ≡ window (session_world self.old).seen.held at (length into.old)) }
        ensures counted { OnOk result ((session_world self.new).seen.reads ≡ (session_world self.old).seen.reads + 1) }
        ensures moves { ReadMoves 1 (session_world self.old) (session_world self.new) }
        ensures fault { IfErr result (IsFaultOf Read at) }
        ensures cause { OnErr result (Rose (session_world self.old).seen.read_faults (session_world self.new).seen.read_faults) }

        // Beside what any disk promises: it is that disk's call, and nothing else changed.
        ensures ends { ReadEnds at into.new result self.old.disk self.new.disk }
        ensures others { record self.new { disk = self.old.disk } ≡ self.old }
    {
        self.disk.read(at, into)
    }

    fn write(&mut self, at: u64, from: &[u8]) -> Result<(), DiskFault>
        requires { at + length from.now ≤ 2 ^ 48 }
        ensures written { OnOk result ((session_world self.new).seen.held ≡ overwritten (session_world self.old).seen.held at from.now) }
        ensures moves { WriteMoves at (length from.now) (session_world self.old) (session_world self.new) }
        ensures fault { IfErr result (IsFaultOf Write at) }
        ensures cause { OnErr result (Rose (session_world self.old).seen.write_faults (session_world self.new).seen.write_faults) }

        ensures ends { WriteEnds at from.now result self.old.disk self.new.disk }
        ensures others { record self.new { disk = self.old.disk } ≡ self.old }
    {
        self.disk.write(at, from)
    }

    fn sync(&mut self) -> Result<(), DiskFault>
        ensures durable { OnOk result (IsDurable (session_world self.new)) }
        ensures moves { SyncMoves (session_world self.old) (session_world self.new) }
        ensures fault { IfErr result (IsFaultOf Sync 0) }
        ensures cause { OnErr result (Rose (session_world self.old).seen.write_faults (session_world self.new).seen.write_faults) }

        ensures ends { SyncEnds result self.old.disk self.new.disk }
        ensures others { record self.new { disk = self.old.disk } ≡ self.old }
    {
        self.disk.sync()
    }
}

impl Outside for MemOutside {
    ghost use Rattle.std.specs.Prelude.{true};
    ghost use Rattle.outside.specs.PresentLaws.{said_by_now};

    ghost tells_input = { true };

    ghost tells_output = { true };

    ghost said_now = { said_by_now };

    fn take(&mut self, into: &mut [u8]) -> Result<usize, TakeFault>
        requires { 0 < length into.old }
        ensures count { IfOk result (λ n. n ≤ length into.old) }
        ensures taken { IfOk result (λ n. Takes n into.new (session_world self.old).beside (session_world self.new).beside) }
        ensures unchanged { OnErr result (self.new.to_take ≡ self.old.to_take) }
        ensures moves { TakeMoves (session_world self.old) (session_world self.new) }
        ensures cause { OnErr result (Rose self.old.take_faults self.new.take_faults) }

        ensures ends { TakeEnds (length into.old) result self.old self.new }
        ensures fails { IsErr result ↔ Contains self.old.failing_takes self.old.takes }
    {
        self.number_take(into)
    }

    fn say(&mut self, from: &[u8]) -> Result<usize, SayFault>
        requires { 0 < length from.now }
        ensures some { IfOk result (λ n. 1 ≤ n) }
        ensures count { IfOk result (λ n. n ≤ length from.now) }
        ensures said { IfOk result (λ n. self.new.said ≡ self.old.said ++ take n from.now) }
        ensures unchanged { OnErr result (self.new.said ≡ self.old.said) }
        ensures moves { SayMoves (session_world self.old) (session_world self.new) }
        ensures cause { OnErr result (Rose self.old.say_faults self.new.say_faults) }

        ensures ends { SayEnds from.now result self.old self.new }
        ensures fails { IsErr result ↔ (Contains self.old.failing_says self.old.says ⊎ StarvesSay self.old self.new) }
    {
        self.number_say(from)
    }
}
