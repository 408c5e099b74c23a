//! What is wrong with slots, and where.
use crate::asserts::check_same;
use crate::disks::{formatted, new_disk, store, table, version_of};
use byte_fields::{Damage, Part, Row, fnv1a};
use disk_mem::MemDisk;
use disk_trait::{Disk, DiskFault};
use manifest::{ManifestFault, load};
use std::alloc::Global;
use std::test::Fail;

// The fault of loading a disk.
fn fault_of(alloc: Global, disk: &mut MemDisk) -> Option<ManifestFault> {
    match load(alloc, disk) {
        Ok(_) => None,
        Err(fault) => Some(fault),
    }
}

fn shape(at: u64, rule: u8) -> Option<ManifestFault> {
    let part = Part::Manifest;
    Some(ManifestFault::Damaged(Damage::Shape { part, at, rule }))
}

// Sets the byte at a place, if there is one.
fn set_byte(bytes: &mut [u8], place: usize, value: u8) {
    if let Some(byte) = bytes.get_mut(place) {
        *byte = value;
    }
}

// Sets bytes from a place on.
fn overwrite(bytes: &mut [u8], place: usize, others: &[u8]) {
    for i in 0..others.len() {
        set_byte(bytes, place.saturating_add(i), others[i]);
    }
}

// Sets the bytes at some places.
fn change(bytes: &mut [u8], changes: &[(usize, u8)]) {
    for (place, value) in changes {
        set_byte(bytes, *place, *value);
    }
}

// The fault of a new store whose body has other bytes from a place on, with the sum of these or with that of the old ones.
fn changed(
    alloc: Global,
    place: usize,
    bytes: &[u8],
    mend: bool,
) -> Result<Option<ManifestFault>, Fail> {
    let mut disk = formatted(alloc)?;
    let mut head = [0; 64];
    let mut done = disk.read(8, &mut head).is_ok();
    overwrite(&mut head, place, bytes);
    done = done && disk.write(8, &head).is_ok();
    if mend {
        done = done && disk.write(72, &fnv1a(&head).to_le_bytes()).is_ok();
    }
    if !done {
        return Err(Fail::from("the disk failed"));
    }
    Ok(fault_of(alloc, &mut disk))
}

#[test]
fn each_rule_of_a_head_at_its_place(rt: HostRuntime) -> Result<(), Fail> {
    let alloc = rt.alloc();
    let rows: [(usize, &[u8], bool, u64, u8); 12] = [
        (0, &[0x54], false, 8, 1),
        (4, &[3], false, 12, 2),
        (4, &[3], true, 12, 2),
        (6, &[1, 4], false, 14, 3),
        (6, &[1, 4], true, 14, 3),
        (8, &[0], true, 16, 4),
        (16, &[0xFF, 1], true, 24, 5),
        (20, &[33], true, 28, 5),
        (21, &[33], true, 29, 5),
        (24, &[0x41], true, 32, 6),
        (28, &[0x41], true, 36, 6),
        (32, &[1], true, 40, 7),
    ];
    for (place, bytes, mend, at, rule) in rows {
        check_same(&rt, &changed(alloc, place, bytes, mend)?, &shape(at, rule));
    }
    Ok(())
}

#[test]
fn another_sum_comes_before_the_later_rules(rt: HostRuntime) -> Result<(), Fail> {
    let alloc = rt.alloc();
    let rows: [(usize, &[u8], u64); 4] = [
        (8, &[0], 0xF7A349085B184045),
        (16, &[0xFF, 1], 0xE9C5F63B22404696),
        (24, &[0x41], 0xA4A6D94592784019),
        (32, &[1], 0x9B51024C89BE6E79),
    ];
    for (place, bytes, seen) in rows {
        let kept = 0x95F84F65E6C82DF8;
        let (part, at) = (Part::Manifest, 8);
        let sums = Damage::Sum {
            part,
            at,
            kept,
            seen,
        };
        check_same(
            &rt,
            &changed(alloc, place, bytes, false)?,
            &Some(ManifestFault::Damaged(sums)),
        );
    }
    Ok(())
}

// The fault of a store with these tables.
fn with_tables(alloc: Global, rows: &[Row]) -> Result<Option<ManifestFault>, Fail> {
    let mut disk = new_disk(alloc)?;
    store(alloc, &mut disk, 0, &version_of(alloc, 512, 6, rows)?)?;
    Ok(fault_of(alloc, &mut disk))
}

// Changes bytes of a body that has so many before its sum, and mends that.
fn change_body(
    disk: &mut MemDisk,
    length: usize,
    changes: &[(usize, u8)],
) -> Result<(), DiskFault> {
    let mut bytes = [0; 192];
    let front = &mut bytes[..length.min(192)];
    disk.read(8, front)?;
    change(front, changes);
    let sum = fnv1a(front).to_le_bytes();
    disk.write(8, front)?;
    disk.write(8 + front.len() as u64, &sum)
}

// The fault of a store with one table or two whose body has other bytes at some places, with the sum of that.
fn changed_rows(
    alloc: Global,
    rows: &[Row],
    changes: &[(usize, u8)],
) -> Result<Option<ManifestFault>, Fail> {
    let mut disk = new_disk(alloc)?;
    store(alloc, &mut disk, 0, &version_of(alloc, 512, 6, rows)?)?;
    let length = if rows.len() == 1 { 128 } else { 192 };
    match change_body(&mut disk, length, changes) {
        Ok(()) => Ok(fault_of(alloc, &mut disk)),
        Err(_) => Err(Fail::from("the disk failed")),
    }
}

// The same of a store with one table.
fn changed_body(alloc: Global, changes: &[(usize, u8)]) -> Result<Option<ManifestFault>, Fail> {
    changed_rows(alloc, &[table(1, 192)], changes)
}

#[test]
fn bytes_of_a_row_that_must_be_0(rt: HostRuntime) -> Result<(), Fail> {
    let alloc = rt.alloc();
    for (place, at) in [(65, 73), (66, 74), (67, 75), (124, 132), (127, 135)] {
        check_same(&rt, &changed_body(alloc, &[(place, 1)])?, &shape(at, 7));
    }
    check_same(
        &rt,
        &changed_body(alloc, &[(65, 1), (124, 1)])?,
        &shape(73, 7),
    );
    check_same(&rt, &changed_body(alloc, &[(64, 1)])?, &None);
    Ok(())
}

#[test]
fn the_settings_of_a_row(rt: HostRuntime) -> Result<(), Fail> {
    let alloc = rt.alloc();
    let rows: [(&[(usize, u8)], u64); 6] = [
        (&[(120, 33)], 128),
        (&[(121, 33)], 129),
        (&[(120, 33), (121, 33)], 128),
        (&[(121, 33), (21, 33)], 29),
        (&[(120, 33), (24, 0x41)], 128),
        (&[(120, 33), (65, 1)], 128),
    ];
    for (changes, at) in rows {
        check_same(&rt, &changed_body(alloc, changes)?, &shape(at, 5));
    }
    check_same(&rt, &changed_body(alloc, &[(122, 0xFF)])?, &None);
    Ok(())
}

// The second row's hash bits are told before the first row's byte that must be 0.
#[test]
fn the_settings_of_each_row_come_first(rt: HostRuntime) -> Result<(), Fail> {
    let alloc = rt.alloc();
    let rows = [table(0, 195), table(0, 192)];
    let told = changed_rows(alloc, &rows, &[(184, 33), (65, 1)])?;
    check_same(&rt, &told, &shape(192, 5));
    check_same(&rt, &changed_rows(alloc, &rows, &[(65, 1)])?, &shape(73, 7));
    Ok(())
}

#[test]
fn a_body_has_one_of_two_formats(rt: HostRuntime) -> Result<(), Fail> {
    let alloc = rt.alloc();
    for (place, value) in [(4, 3), (4, 0), (5, 1)] {
        check_same(&rt, &changed_body(alloc, &[(place, value)])?, &shape(12, 2));
    }
    check_same(&rt, &changed_body(alloc, &[(4, 1)])?, &shape(130, 7));
    check_same(&rt, &changed_body(alloc, &[(4, 1), (122, 0)])?, &None);
    Ok(())
}

#[test]
fn each_field_of_blocks_and_index(rt: HostRuntime) -> Result<(), Fail> {
    let alloc = rt.alloc();
    let sound = table(1, 192);
    let rows = [
        (Row { level: 7, ..sound }, 72),
        (
            Row {
                data_pages: 0,
                ..sound
            },
            80,
        ),
        (
            Row {
                index_pages: 2,
                ..sound
            },
            84,
        ),
        (
            Row {
                index_len: 4_097,
                ..sound
            },
            84,
        ),
    ];
    for (row, at) in rows {
        check_same(&rt, &with_tables(alloc, &[row])?, &shape(at, 8));
    }
    Ok(())
}

#[test]
fn each_field_of_filter_and_entries(rt: HostRuntime) -> Result<(), Fail> {
    let alloc = rt.alloc();
    let sound = table(1, 192);
    let rows = [
        (
            Row {
                filter_pages: 0,
                ..sound
            },
            88,
        ),
        (
            Row {
                filter_len: u64::MAX,
                ..sound
            },
            88,
        ),
        (
            Row {
                entries: 0,
                ..sound
            },
            92,
        ),
    ];
    for (row, at) in rows {
        check_same(&rt, &with_tables(alloc, &[row])?, &shape(at, 8));
    }
    Ok(())
}

#[test]
fn where_tables_stand(rt: HostRuntime) -> Result<(), Fail> {
    let alloc = rt.alloc();
    let rows: [(&[Row], Option<ManifestFault>); 8] = [
        (
            &[table(0, 195), table(0, 192), table(1, 198), table(1, 509)],
            None,
        ),
        (&[table(1, 192), table(0, 195)], shape(136, 9)),
        (&[table(1, 191)], shape(76, 10)),
        (&[table(0, 192), table(1, 510)], shape(140, 10)),
        (&[table(0, 192), table(1, u32::MAX)], shape(140, 10)),
        (&[table(0, 192), table(0, 194)], shape(140, 10)),
        (&[table(0, 194), table(0, 192)], shape(140, 10)),
        (
            &[table(0, 300), table(0, 200), table(1, 298)],
            shape(204, 10),
        ),
    ];
    for (tables, fault) in rows {
        check_same(&rt, &with_tables(alloc, tables)?, &fault);
    }
    Ok(())
}

#[test]
fn more_tables_than_a_version_may_have(rt: HostRuntime) -> Result<(), Fail> {
    let alloc = rt.alloc();
    let mut version = version_of(alloc, 512, 6, &[])?;
    for _ in 0..1_025 {
        version.rows.push(table(0, 192))?;
    }
    let mut disk = new_disk(alloc)?;
    store(alloc, &mut disk, 131_072, &version)?;
    check_same(&rt, &fault_of(alloc, &mut disk), &shape(131_086, 3));
    Ok(())
}

// The fault of two open slots with these epochs, and the epoch that is loaded where there is none.
fn both(alloc: Global, a: u64, b: u64) -> Result<Result<u64, ManifestFault>, Fail> {
    let mut disk = new_disk(alloc)?;
    store(alloc, &mut disk, 0, &version_of(alloc, 512, a, &[])?)?;
    store(alloc, &mut disk, 131_072, &version_of(alloc, 512, b, &[])?)?;
    match load(alloc, &mut *disk) {
        Ok(version) => Ok(Ok(version.epoch)),
        Err(fault) => Ok(Err(fault)),
    }
}

#[test]
fn two_open_slots(rt: HostRuntime) -> Result<(), Fail> {
    let alloc = rt.alloc();
    check_same(&rt, &both(alloc, 1, 2)?, &Ok(2));
    check_same(&rt, &both(alloc, 3, 2)?, &Ok(3));
    check_same(&rt, &both(alloc, 7, 7)?.err(), &shape(131_088, 11));
    check_same(&rt, &both(alloc, 0, 7)?.err(), &shape(16, 4));
    check_same(&rt, &both(alloc, 7, 0)?.err(), &shape(131_088, 4));
    check_same(&rt, &both(alloc, 0, 0)?.err(), &shape(16, 4));
    Ok(())
}
