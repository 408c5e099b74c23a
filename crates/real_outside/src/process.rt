//! The process's file and streams.
ghost use Rattle.std.specs.Prelude.{◌≡◌, ◌≤◌, ◌<◌, ◌+◌, ◌^◌, length, IfOk, IfErr, OnOk, OnErr};
ghost use Rattle.std.specs.Option.{ForSome};
ghost use Rattle.disk_trait.specs.World.{ReadMoves, WriteMoves, SyncMoves, Rose};
ghost use Rattle.disk_trait.specs.Fault.{IsFaultOf};
ghost use Rattle.disk_trait.specs.declared.fault.Op.TheVariants.{Read, Write, Sync};
ghost use Rattle.outside.specs.Streams.{TakeMoves, SayMoves};
ghost use Rattle.real_outside.specs.Numbers.{IsNoStream};
ghost use Rattle.real_outside.specs.Untold.{CountsStay};

use crate::file::{TRIES, is_interrupted, open_file, open_to_read, read_all, write_all};
use disk_trait::{Disk, DiskFault, Op};
use outside::{Outside, SayFault, TakeFault};
use std::fs::File;
use std::io::{self, ErrorKind, Read, Write};

/// The file at a path as the disk, which is opened, locked, and made if it is not there, at the first disk call; and the
/// process's standard input and output.
///
/// It tells no content. It counts its faults, of reads, of writes and syncs, of input and of output. A file that cannot
/// be opened, that another opening has locked, or that would get the number of a standard stream is a fault of the call
/// that needed it, and the next call tries again. A file that is made has its directory synced before that call is done.
///
/// Made by [`reading`](FileOutside::reading) it makes no file and writes none: each write and each sync is a fault.
#[derive(Drop)]
pub struct FileOutside {
    rt: HostRuntime,
    path: String,
    read_only: bool,
    file: Option<File>,
    read_faults: u64,
    write_faults: u64,
    take_faults: u64,
    say_faults: u64,
    ghost no_stream: { ForSome file IsNoStream },
}

impl FileOutside {
    ghost use Rattle.std.specs.Prelude.{true};
    ghost use Rattle.real_outside.specs.Untold.{IsUntouched};

    /// The outside over the file at this path. Nothing is opened or made yet, and no call has failed.
    pub fn at(rt: HostRuntime, path: String) -> Self
        ensures { IsUntouched (⟦<FileOutside as Disk>⟧.world result) }
    {
        FileOutside {
            rt,
            path,
            read_only: false,
            file: None,
            read_faults: 0,
            write_faults: 0,
            take_faults: 0,
            say_faults: 0,
        }
    }

    /// The outside over a file that is only read: it is not made where it is not there, it may be one that nobody may
    /// write, others may read it meanwhile, and each write and each sync fails.
    pub fn reading(rt: HostRuntime, path: String) -> Self
        ensures untouched { IsUntouched (⟦<FileOutside as Disk>⟧.world result) }
        ensures read_only { result.read_only ≡ true }
    {
        FileOutside {
            rt,
            path,
            read_only: true,
            file: None,
            read_faults: 0,
            write_faults: 0,
            take_faults: 0,
            say_faults: 0,
        }
    }
}

// Opens the file, only to be read or to be written too.
fn open_for(rt: &HostRuntime, path: &str, read_only: bool) -> io::Result<File>
    ensures { IfOk result IsNoStream }
{
    if read_only {
        open_to_read(rt, path)
    } else {
        open_file(rt, path)
    }
}

// Opens the file where it is not open yet.
fn open_once(
    rt: &HostRuntime,
    path: &String,
    read_only: bool,
    file: &mut Option<File>,
) -> io::Result<()>
    requires { ForSome file.old IsNoStream }
    ensures { ForSome file.new IsNoStream }
{
    if file.is_none() {
        *file = Some(open_for(rt, path.as_str(), read_only)?);
    }
    Ok(())
}

impl Disk for FileOutside {
    ghost use Rattle.std.specs.Prelude.{false};
    ghost use Rattle.real_outside.specs.Shown.{shown};

    ghost tells = { false };

    ghost world = { shown };

    ghost current = { λ o told. absurd (Prim.cc told) };

    fn read(&mut self, at: u64, into: &mut [u8]) -> Result<(), DiskFault>
        requires { at + length into.old ≤ 2 ^ 48 }
        ensures moves { ReadMoves 1 (shown self.old) (shown self.new) }
        ensures fault { IfErr result (IsFaultOf Read at) }
        ensures cause { OnErr result (Rose self.old.read_faults self.new.read_faults) }
        // Beside what any disk promises: a call that is done moves no count, here and in each call below.
        ensures still { OnOk result (CountsStay (shown self.old) (shown self.new)) }
        ensures keeps { self.new.read_only ≡ self.old.read_only }
    {
        let opening = open_once(&self.rt, &self.path, self.read_only, &mut self.file);
        let done = match (opening, &self.file) {
            (Ok(()), Some(file)) => read_all(file, at, into).is_ok(),
            _ => false,
        };
        if done {
            return Ok(());
        }
        self.read_faults = self.read_faults.saturating_add(1);
        Err(DiskFault { op: Op::Read, at })
    }

    fn write(&mut self, at: u64, from: &[u8]) -> Result<(), DiskFault>
        requires { at + length from.now ≤ 2 ^ 48 }
        ensures moves { WriteMoves at (length from.now) (shown self.old) (shown self.new) }
        ensures may_write { OnOk result (self.old.read_only ≡ false) }
        ensures fault { IfErr result (IsFaultOf Write at) }
        ensures cause { OnErr result (Rose self.old.write_faults self.new.write_faults) }
        ensures still { OnOk result (CountsStay (shown self.old) (shown self.new)) }
        ensures keeps { self.new.read_only ≡ self.old.read_only }
    {
        let opening = open_once(&self.rt, &self.path, self.read_only, &mut self.file);
        let done = match (opening, &self.file) {
            (Ok(()), Some(file)) if !self.read_only => write_all(file, at, from).is_ok(),
            _ => false,
        };
        if done {
            return Ok(());
        }
        self.write_faults = self.write_faults.saturating_add(1);
        Err(DiskFault { op: Op::Write, at })
    }

    // The file grows as it is written, so its length must last too: all of it is synced, not its data alone.
    fn sync(&mut self) -> Result<(), DiskFault>
        ensures moves { SyncMoves (shown self.old) (shown self.new) }
        ensures may_write { OnOk result (self.old.read_only ≡ false) }
        ensures fault { IfErr result (IsFaultOf Sync 0) }
        ensures cause { OnErr result (Rose self.old.write_faults self.new.write_faults) }
        ensures still { OnOk result (CountsStay (shown self.old) (shown self.new)) }
        ensures keeps { self.new.read_only ≡ self.old.read_only }
    {
        let opening = open_once(&self.rt, &self.path, self.read_only, &mut self.file);
        let done = match (opening, &self.file) {
            (Ok(()), Some(file)) if !self.read_only => file.sync_all().is_ok(),
            _ => false,
        };
        if done {
            return Ok(());
        }
        self.write_faults = self.write_faults.saturating_add(1);
        Err(DiskFault {
            op: Op::Sync,
            at: 0,
        })
    }
}

fn take_some(rt: &HostRuntime, into: &mut [u8]) -> io::Result<usize>
    ensures { IfOk result (λ n. n ≤ length into.old) }
{
    for _ in 0..TRIES {
        let answer = rt.stdin().read(into);
        if !is_interrupted(&answer) {
            return answer;
        }
    }
    Err(io::Error::from(ErrorKind::Interrupted))
}

fn say_some(rt: &HostRuntime, from: &[u8]) -> io::Result<usize>
    ensures { IfOk result (λ n. n ≤ length from.now) }
{
    for _ in 0..TRIES {
        let answer = rt.stdout().write(from);
        if !is_interrupted(&answer) {
            return answer;
        }
    }
    Err(io::Error::from(ErrorKind::Interrupted))
}

impl Outside for FileOutside {
    ghost use Rattle.std.specs.Prelude.{false, refl};
    ghost use Rattle.real_outside.specs.Shown.{shown};

    ghost tells_input = { false };

    ghost tells_output = { false };

    ghost said_now = { λ o m now. refl };

    fn take(&mut self, into: &mut [u8]) -> Result<usize, TakeFault>
        requires { 0 < length into.old }
        ensures count { IfOk result (λ n. n ≤ length into.old) }
        ensures moves { TakeMoves (shown self.old) (shown self.new) }
        ensures cause { OnErr result (Rose self.old.take_faults self.new.take_faults) }
        ensures still { OnOk result (CountsStay (shown self.old) (shown self.new)) }
        ensures keeps { self.new.read_only ≡ self.old.read_only }
    {
        match take_some(&self.rt, into) {
            Ok(count) => Ok(count),
            Err(_) => {
                self.take_faults = self.take_faults.saturating_add(1);
                Err(TakeFault)
            }
        }
    }

    fn say(&mut self, from: &[u8]) -> Result<usize, SayFault>
        requires { 0 < length from.now }
        ensures some { IfOk result (λ n. 1 ≤ n) }
        ensures count { IfOk result (λ n. n ≤ length from.now) }
        ensures moves { SayMoves (shown self.old) (shown self.new) }
        ensures cause { OnErr result (Rose self.old.say_faults self.new.say_faults) }
        ensures still { OnOk result (CountsStay (shown self.old) (shown self.new)) }
        ensures keeps { self.new.read_only ≡ self.old.read_only }
    {
        match say_some(&self.rt, from) {
            Ok(count) if count > 0 => Ok(count),
            _ => {
                self.say_faults = self.say_faults.saturating_add(1);
                Err(SayFault)
            }
        }
    }
}
