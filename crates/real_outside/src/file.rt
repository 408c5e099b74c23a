//! The file at a path, and whole reads and writes of its ranges, over system calls that may be cut short or interrupted.
ghost use Rattle.std.specs.Prelude.{◌+◌, ◌^◌, ◌≤◌, ◌<◌, length, IfOk};
ghost use Rattle.real_outside.specs.Numbers.{IsNoStream};

use std::fs::{self, File, OpenOptions, TryLockError};
use std::io::{self, ErrorKind};
use std::os::fd::AsRawFd;
use std::os::unix::fs::{FileExt, FileTypeExt};

/// How often a read or a write that a signal interrupts is tried, until it counts as failed.
pub const TRIES: u32 = 1000;

// Numbers below this one are those of standard input, output and errors.
const AFTER_STANDARD_STREAMS: i32 = 3;

/// The file at the path, opened to read and write, made if it is not there, and locked until it is closed.
///
/// It fails where another opening has the file locked, and where the file would be a standard stream. An empty file may
/// be new, so its directory is synced.
pub fn open_file(rt: &HostRuntime, path: &str) -> io::Result<File>
    ensures { IfOk result IsNoStream }
{
    let file = beside_streams(
        OpenOptions::new()
            .read(true)
            .write(true)
            .create(true)
            .open(rt, path)?,
    )?;
    locked(file.try_lock())?;
    if file.metadata()?.len() == 0 {
        sync_directory_of(rt, path)?;
    }
    Ok(file)
}

/// The file at the path, opened only to be read, and locked against writers until it is closed. None is made.
///
/// It fails where no file is there, where it is a pipe, where another opening has it to write, and where it would be a
/// standard stream.
pub fn open_to_read(rt: &HostRuntime, path: &str) -> io::Result<File>
    ensures { IfOk result IsNoStream }
{
    // To open a pipe would wait until another process writes to it.
    if fs::metadata(rt, path)?.file_type().is_fifo() {
        return Err(io::Error::from(ErrorKind::InvalidInput));
    }
    let file = beside_streams(OpenOptions::new().read(true).open(rt, path)?)?;
    locked(file.try_lock_shared())?;
    Ok(file)
}

// The file, unless it has the number of a standard stream that was closed: replies would be written over the device.
fn beside_streams(file: File) -> io::Result<File>
    ensures { IfOk result IsNoStream }
{
    if file.as_raw_fd() < AFTER_STANDARD_STREAMS {
        return Err(io::Error::from(ErrorKind::Other));
    }
    Ok(file)
}

// Whether no other opening is in the way. A file system without locks keeps off none, which is no fault.
fn locked(answer: Result<(), TryLockError>) -> io::Result<()> {
    match answer {
        Err(TryLockError::WouldBlock) => Err(io::Error::from(ErrorKind::WouldBlock)),
        _ => Ok(()),
    }
}

// Makes the file's name last. A file system that syncs no directory says that the call is invalid, which is no fault.
fn sync_directory_of(rt: &HostRuntime, path: &str) -> io::Result<()> {
    // A link's own directory may be another one than that of the file.
    let file = fs::canonicalize(rt, path)?;
    let Some(directory) = file.parent() else {
        return Ok(());
    };
    match File::open(rt, directory)?.sync_all() {
        Err(error) if error.kind() == ErrorKind::InvalidInput => Ok(()),
        answer => answer,
    }
}

/// Whether a signal interrupted a call, which is then tried again.
pub fn is_interrupted(answer: &io::Result<usize>) -> bool {
    matches!(answer, Err(error) if error.kind() == ErrorKind::Interrupted)
}

/// Fills the whole slice from a place on, with zeros past the end of the file.
pub fn read_all(file: &File, at: u64, into: &mut [u8]) -> io::Result<()>
    requires { at + length into.old ≤ 2 ^ 48 }
{
    let mut done = 0;
    for _ in 0..into.len() {
        if done >= into.len() {
            return Ok(());
        }
        let count = read_some(file, at + done as u64, &mut into[done..])?;
        if count == 0 {
            into[done..].fill(0);
            return Ok(());
        }
        done += count;
    }
    Ok(())
}

fn read_some(file: &File, at: u64, into: &mut [u8]) -> io::Result<usize>
    ensures { IfOk result (λ n. n ≤ length into.old) }
{
    for _ in 0..TRIES {
        let answer = file.read_at(into, at);
        if !is_interrupted(&answer) {
            return answer;
        }
    }
    Err(io::Error::from(ErrorKind::Interrupted))
}

/// Writes the whole slice from a place on.
pub fn write_all(file: &File, at: u64, from: &[u8]) -> io::Result<()>
    requires { at + length from.now ≤ 2 ^ 48 }
{
    let mut done = 0;
    for _ in 0..from.len() {
        if done >= from.len() {
            return Ok(());
        }
        done = write_on(file, at, from, done)?;
    }
    Ok(())
}

// Goes on with the slice, of which so many bytes are written already: a call may write fewer than it was given. Answers how many are
// written then.
fn write_on(file: &File, at: u64, from: &[u8], done: usize) -> io::Result<usize>
    requires room { at + length from.now ≤ 2 ^ 48 }
    requires left { done < length from.now }
    ensures { IfOk result (λ next. (done < next) × (next ≤ length from.now)) }
{
    let count = write_some(file, at + done as u64, &from[done..])?;
    if count == 0 {
        return Err(io::Error::from(ErrorKind::WriteZero));
    }
    Ok(done + count)
}

fn write_some(file: &File, at: u64, from: &[u8]) -> io::Result<usize>
    ensures { IfOk result (λ n. n ≤ length from.now) }
{
    for _ in 0..TRIES {
        let answer = file.write_at(from, at);
        if !is_interrupted(&answer) {
            return answer;
        }
    }
    Err(io::Error::from(ErrorKind::Interrupted))
}
