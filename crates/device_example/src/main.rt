//! A disk of your own: one that counts the calls and hands them on to another disk, under a store.
//!
//! Whatever has a read, a write and a sync may be a disk: a file, memory, or one that checks, slows or copies what another
//! one does. The three ghost lines are all that a proof needs of one that hands calls on: it is what the disk under it is.
#![tactic(auto)]

ghost use Rattle.std.specs.Prelude.{◌≡◌, ◌≤◌, ◌+◌, ◌^◌, length};

use anyhow::{Result, bail};
use disk_mem::MemDisk;
use disk_trait::{Disk, DiskFault};
use filter_api::Settings;
use plain_filter::PlainFilter;
use std::alloc::Global;
use store_core::Store;

const SETTINGS: Settings = Settings {
    hash_bits: 0,
    real_bits: 0,
    ratio: 64,
};

/// A disk, and how many calls it got.
#[derive(Drop)]
pub struct Counted<D: Disk + Drop> {
    disk: D,
    reads: u64,
    writes: u64,
    syncs: u64,
}

impl<D: Disk + Drop> Counted<D> {
    /// A disk that got no call yet.
    pub fn new(disk: D) -> Counted<D> {
        Counted {
            disk,
            reads: 0,
            writes: 0,
            syncs: 0,
        }
    }
}

impl<D: Disk + Drop> Disk for Counted<D> {
    ghost tells = { D.tells };

    ghost world = { λ c. D.world c.disk };

    ghost current = { λ c told. D.current c.disk told };

    fn read(&mut self, at: u64, into: &mut [u8]) -> Result<(), DiskFault> {
        self.reads = self.reads.saturating_add(1);
        self.disk.read(at, into)
    }

    fn write(&mut self, at: u64, from: &[u8]) -> Result<(), DiskFault> {
        self.writes = self.writes.saturating_add(1);
        self.disk.write(at, from)
    }

    fn sync(&mut self) -> Result<(), DiskFault> {
        self.syncs = self.syncs.saturating_add(1);
        self.disk.sync()
    }
}

fn main(rt: HostRuntime) -> Result<()> {
    let alloc = rt.alloc();
    let memory = MemDisk::new(alloc, b"")?;
    let mut disk = Box::new(alloc, Counted::new(memory))?;
    use_store(alloc, &mut *disk)?;
    println!(rt;
        "{} reads, {} writes, {} syncs",
        disk.reads, disk.writes, disk.syncs
    )?;
    Ok(())
}

// Makes a store, puts a pair and flushes it. Any disk does: the store is generic in each call.
fn use_store<D: Disk>(alloc: Global, disk: &mut D) -> Result<()> {
    if Store::<PlainFilter>::format(alloc, disk, SETTINGS, 512).is_err() {
        bail!("no store can be made");
    }
    let Ok(store) = Store::<PlainFilter>::open_store(alloc, disk) else {
        bail!("the store cannot be opened");
    };
    let mut store = Box::new(alloc, store)?;
    if store.put(disk, b"fig", b"7").is_err() || store.flush(disk).is_err() {
        bail!("a call failed");
    }
    Ok(())
}
