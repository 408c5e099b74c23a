//! A disk in memory that keeps every call, fails on command, and crashes on command.
//!
//! A [`MemDisk`] tells all: what it holds, its reads, and what a crash at each moment may leave, which is a function of
//! its calls. [`MemDisk::with_faults`] names the calls that fail, and [`MemDisk::crash`] makes of each write that no
//! sync made to last what it is told to: whole, lost, or any bytes.
//!
//! For tests. It keeps the bytes of each call, reads too, so its memory grows with all that was moved; each call asks
//! for its memory before it does anything, and [`MemDisk::reserve`] asks for that of many calls at once.
//!
//! ```text
//! let mut disk = MemDisk::new(alloc, b"old")?.with_faults(faults);
//! write_through(&mut disk, 0, b"new")?;
//! let after = disk.crash(&[Choice::Lost])?;       // choices for the writes since the last sync: here there is none
//! ```
#![tactic(auto)]

mod as_disk;
mod call_log;
mod choice;
mod crash;
mod device;
mod laws;
mod mem_disk;

pub use choice::Choice;
pub use laws::crash_laws;
pub use mem_disk::MemDisk;
