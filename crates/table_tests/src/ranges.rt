//! The deleted ranges of a table: their bytes in its index, and the rules that other bytes break.
ghost use Rattle.std.specs.Prelude.{◌≡◌, true, length};
ghost use Rattle.byte_fields.specs.Spelling.{IsBytes};
ghost use Rattle.key_base.specs.ByteOrder.{IsBefore};
ghost use Rattle.range_model.specs.Ranges.{IsBound};

use crate::asserts::{check_same, check_that};
use crate::made::{BASE, add, new_disk, opened, row_on};
use byte_fields::{Damage, Part, Row, fnv1a};
use disk_mem::MemDisk;
use disk_trait::Disk;
use key_base::MAX_KEY_BYTES;
use range_tombs::Ranges;
use std::alloc::Global;
use std::test::Fail;
use table_file::{TableBuilder, TableFault};

// Where the index begins of a table of one block.
const INDEX: u64 = 790_528;

// The bytes of an index of one block with two ranges.
const MOST: usize = 42;

fn shape(at: u64, rule: u8) -> Option<TableFault> {
    Some(TableFault::Damaged(Damage::Shape {
        part: Part::Index,
        at: INDEX.saturating_add(at),
        rule,
    }))
}

// Whether it may be a bound of a range.
fn is_bound(key: &[u8]) -> bool
    ensures { result ≡ true → IsBound key.now }
{
    !key.is_empty() && key.len() <= MAX_KEY_BYTES
}

// Adds a range of two keys.
fn add_range(ranges: &mut Ranges, lo: &[u8], hi: &[u8]) -> Result<(), Fail> {
    if !is_bound(lo) || !is_bound(hi) || !lo.cmp(hi).is_lt() {
        return Err(Fail::from("no range"));
    }
    let range = ranges.reserve_for(lo, hi)?;
    ranges.add(range);
    Ok(())
}

// A disk with the table of tombstones of a and d, and its row: it deletes the keys from a up to c, and with two ranges those from
// d up to e.
fn with_ranges(alloc: Global, two: bool) -> Result<(Box<MemDisk>, Row), Fail> {
    let mut disk = new_disk(alloc)?;
    let mut builder = TableBuilder::new(alloc, BASE);
    let mut ranges = Ranges::new(alloc);
    add(&mut builder, b"a", None)?;
    add_range(&mut ranges, b"a", b"c")?;
    if two {
        add(&mut builder, b"d", None)?;
        add_range(&mut ranges, b"d", b"e")?;
    }
    builder.set_ranges(&ranges)?;
    let row = row_on(builder, &mut disk)?;
    Ok((disk, row))
}

// The fault of opening the table of a row.
fn fault_of(alloc: Global, disk: &mut MemDisk, row: &Row) -> Result<Option<TableFault>, Fail> {
    match opened(alloc, disk, row)? {
        Ok(_) => Ok(None),
        Err(fault) => Ok(Some(fault)),
    }
}

// The fault where the index has another byte at a place, and is cut or longer than it was.
fn changed(
    alloc: Global,
    two: bool,
    place: usize,
    byte: u8,
    length: usize,
) -> Result<Option<TableFault>, Fail> {
    let (mut disk, mut row) = with_ranges(alloc, two)?;
    let mut bytes = [0; MOST];
    let mut done = disk.read(INDEX, &mut bytes).is_ok();
    if place >= MOST || length > MOST {
        return Err(Fail::from("no byte of the index"));
    }
    bytes[place] = byte;
    row.index_len = length as u64;
    row.index_sum = fnv1a(&bytes[..length]);
    done = done && disk.write(INDEX, &bytes).is_ok();
    if !done {
        return Err(Fail::from("the disk failed"));
    }
    fault_of(alloc, &mut disk, &row)
}

#[test]
fn an_index_with_a_range(rt: HostRuntime) -> Result<(), Fail> {
    let alloc = rt.alloc();
    let (mut disk, row) = with_ranges(alloc, false)?;
    let mut bytes = [0; 36];
    check_that(&rt, disk.read(INDEX, &mut bytes).is_ok());
    check_same(&rt, &row.index_len, &36);
    check_same(&rt, &&bytes[..4], &b"SRFJ".as_slice());
    let range = [1, 0, 0, 0, 1, 0, 0x61, 1, 0, 0x63];
    check_same(&rt, &&bytes[26..], &range.as_slice());
    Ok(())
}

#[test]
fn ranges_are_read_and_kept_in_memory(rt: HostRuntime) -> Result<(), Fail> {
    let alloc = rt.alloc();
    let (mut disk, row) = with_ranges(alloc, true)?;
    check_same(&rt, &row.index_len, &42);
    let table = opened(alloc, &mut disk, &row)??;
    let ranges = table.ranges();
    check_same(&rt, &ranges.len(), &2);
    for (key, covered) in [
        (b"a", true),
        (b"b", true),
        (b"c", false),
        (b"d", true),
        (b"e", false),
    ] {
        check_same(&rt, &ranges.covers(key), &covered);
    }
    Ok(())
}

#[test]
fn each_rule_of_a_range_at_its_byte(rt: HostRuntime) -> Result<(), Fail> {
    let rows = [
        (26, 0x00, 36, 26, 9),
        (26, 0x02, 36, 36, 1),
        (30, 0x00, 36, 36, 1),
        (33, 0x00, 36, 33, 10),
        (35, 0x61, 36, 32, 10),
        (32, 0x64, 36, 32, 10),
        (3, 0x49, 36, 26, 7),
        (35, 0x63, 35, 35, 1),
        (35, 0x63, 29, 29, 1),
        (35, 0x63, 26, 26, 1),
        (36, 0x00, 37, 36, 7),
        (11, 0x02, 36, 4, 8),
    ];
    for (place, byte, length, at, rule) in rows {
        let fault = changed(rt.alloc(), false, place, byte, length)?;
        check_same(&rt, &fault, &shape(at, rule));
    }
    Ok(())
}

#[test]
fn ranges_rise_with_room_between_them(rt: HostRuntime) -> Result<(), Fail> {
    for byte in [0x62, 0x63] {
        let fault = changed(rt.alloc(), true, 38, byte, 42)?;
        check_same(&rt, &fault, &shape(38, 10));
    }
    Ok(())
}
