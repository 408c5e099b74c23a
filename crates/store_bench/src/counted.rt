//! A disk that counts what goes through it.
ghost use Rattle.std.specs.Prelude.{◌≡◌, ◌≤◌, ◌+◌, ◌^◌, length};

use disk_trait::{Disk, DiskFault};
use key_base::{FIRST_TABLE_PAGE, PAGE_BYTES, SLOT_BYTES};
use real_outside::FileOutside;

/// The file of a store, with what went through it.
pub type Device = Counted<FileOutside>;

/// What went through a disk: reads, and bytes by where they stand.
#[derive(Clone, Copy)]
pub struct Traffic {
    pub reads: u64,
    pub read_bytes: u64,
    pub manifest_bytes: u64,
    pub log_bytes: u64,
    pub table_bytes: u64,
}

impl Traffic {
    /// What went through since an earlier moment.
    pub fn since(&self, earlier: &Traffic) -> Traffic {
        Traffic {
            reads: self.reads.saturating_sub(earlier.reads),
            read_bytes: self.read_bytes.saturating_sub(earlier.read_bytes),
            manifest_bytes: self.manifest_bytes.saturating_sub(earlier.manifest_bytes),
            log_bytes: self.log_bytes.saturating_sub(earlier.log_bytes),
            table_bytes: self.table_bytes.saturating_sub(earlier.table_bytes),
        }
    }

    /// All bytes that were written.
    pub fn written(&self) -> u64 {
        self.manifest_bytes
            .saturating_add(self.log_bytes)
            .saturating_add(self.table_bytes)
    }

    fn add_read(&mut self, bytes: usize) {
        self.reads = self.reads.saturating_add(1);
        self.read_bytes = self.read_bytes.saturating_add(bytes as u64);
    }

    fn add_write(&mut self, at: u64, bytes: usize) {
        let place = if at < 2 * SLOT_BYTES {
            &mut self.manifest_bytes
        } else if at < PAGE_BYTES as u64 * u64::from(FIRST_TABLE_PAGE) {
            &mut self.log_bytes
        } else {
            &mut self.table_bytes
        };
        *place = place.saturating_add(bytes as u64);
    }
}

/// A disk, and what went through it.
#[derive(Drop)]
pub struct Counted<D: Disk + Drop> {
    disk: D,
    traffic: Traffic,
}

impl<D: Disk + Drop> Counted<D> {
    /// A disk through which nothing went yet.
    pub fn new(disk: D) -> Counted<D> {
        Counted {
            disk,
            traffic: Traffic {
                reads: 0,
                read_bytes: 0,
                manifest_bytes: 0,
                log_bytes: 0,
                table_bytes: 0,
            },
        }
    }

    /// What went through it so far.
    pub fn traffic(&self) -> Traffic {
        self.traffic
    }
}

impl<D: Disk + Drop> Disk for Counted<D> {
    ghost tells = { D.tells };

    ghost world = { λ c. D.world c.disk };

    ghost current = { λ c told. D.current c.disk told };

    fn read(&mut self, at: u64, into: &mut [u8]) -> Result<(), DiskFault> {
        self.traffic.add_read(into.len());
        self.disk.read(at, into)
    }

    fn write(&mut self, at: u64, from: &[u8]) -> Result<(), DiskFault> {
        self.traffic.add_write(at, from.len());
        self.disk.write(at, from)
    }

    fn sync(&mut self) -> Result<(), DiskFault> {
        self.disk.sync()
    }
}
