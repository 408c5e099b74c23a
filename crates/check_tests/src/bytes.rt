//! Bytes of a disk that are changed, with their sums made right or not.
use byte_fields::fnv1a;
use disk_mem::MemDisk;
use disk_trait::{Disk, DiskFault};

/// The first table of a store, where it has a page for each part.
pub const BLOCK: u64 = 786_432;

pub const INDEX: u64 = 790_528;

pub const FILTER: u64 = 794_624;

/// Sums the bytes at a place, at most 256, and puts the sum at another one.
pub fn sum_into(disk: &mut MemDisk, from: u32, length: usize, to: u32) -> Result<(), DiskFault> {
    let mut bytes = [0; 256];
    let part = &mut bytes[..length.min(256)];
    disk.read(u64::from(from), part)?;
    disk.write(u64::from(to), &fnv1a(part).to_le_bytes())
}

/// Puts these bytes at some places.
pub fn write_each(disk: &mut MemDisk, changes: &[(u32, u8)]) -> Result<(), DiskFault> {
    for (place, value) in changes {
        disk.write(u64::from(*place), &[*value])?;
    }
    Ok(())
}

/// Copies bytes of one disk, at most a page, to their place on another.
pub fn copy(
    from: &mut MemDisk,
    to: &mut MemDisk,
    place: u32,
    length: usize,
) -> Result<(), DiskFault> {
    let mut bytes = [0; 4_096];
    let part = &mut bytes[..length.min(4_096)];
    from.read(u64::from(place), part)?;
    to.write(u64::from(place), part)
}

/// Two parts of one length, at most a page, change places.
pub fn change_over(
    disk: &mut MemDisk,
    one: u32,
    other: u32,
    length: usize,
) -> Result<(), DiskFault> {
    let mut bytes = [0; 4_096];
    let mut others = [0; 4_096];
    let first = &mut bytes[..length.min(4_096)];
    let second = &mut others[..length.min(4_096)];
    disk.read(u64::from(one), first)?;
    disk.read(u64::from(other), second)?;
    disk.write(u64::from(one), second)?;
    disk.write(u64::from(other), first)
}
