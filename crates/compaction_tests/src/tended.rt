//! Stores that are tended until nothing is to be merged.
use disk_mem::MemDisk;
use store_core::{StoreError, Tended};
use test_stores::{Change, PlainStore};

/// Four tables of level 0, of a key each.
pub const FOUR: [Change<'static>; 8] = [
    Change::Put(b"a", b"\x01"),
    Change::Flush,
    Change::Put(b"b", b"\x01"),
    Change::Flush,
    Change::Put(b"c", b"\x01"),
    Change::Flush,
    Change::Put(b"d", b"\x01"),
    Change::Flush,
];

/// Four tables of level 0, of a tombstone each.
pub const FOUR_TOMBSTONES: [Change<'static>; 8] = [
    Change::Del(b"a"),
    Change::Flush,
    Change::Del(b"b"),
    Change::Flush,
    Change::Del(b"c"),
    Change::Flush,
    Change::Del(b"d"),
    Change::Flush,
];

/// Merge slices of so many blocks each, until nothing is to be merged: how many worked, and how many blocks one of them
/// read at most.
pub fn tended(
    store: &mut PlainStore,
    disk: &mut MemDisk,
    blocks: u32,
) -> Result<(u64, u64), StoreError> {
    let mut worked = 0u64;
    let mut most = 0;
    for _ in 0..100 {
        let before = disk.reads();
        match store.tend(disk, blocks.max(1))? {
            Tended::Worked => worked = worked.saturating_add(1),
            Tended::Idle => return Ok((worked, most)),
            Tended::Full { need, gap } => return Err(StoreError::Full { need, gap }),
        }
        most = disk.reads().saturating_sub(before).max(most);
    }
    Ok((worked, most))
}

/// Whether a store has these keys, each with the value of the four tables.
pub fn has_keys(store: &mut PlainStore, disk: &mut MemDisk, keys: &[u8]) -> bool {
    for key in keys {
        match store.get(disk, &[*key]) {
            Ok(Some([1])) => {}
            _ => return false,
        }
    }
    true
}
