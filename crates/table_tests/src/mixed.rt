//! A table whose first block is of format 1 and whose second is of format 2: it is asked, walked from each key, and merged.
ghost use Rattle.std.specs.Prelude.{◌≡◌};
ghost use Rattle.merge_rows.specs.Steps.{AreWalksIn, stands};

use crate::asserts::{check_same, check_that};
use crate::made::{
    BASE, FIRST_PAGE, Made, Walk, add, key_of, new_disk, numbered, opened, room, row_at, row_on,
    value_of,
};
use crate::merges::rows_of;
use byte_fields::{Row, fnv1a};
use disk_mem::MemDisk;
use disk_trait::Disk;
use entry_list::{Entry, push_copy};
use merge_rows::MergeRows;
use plain_blocks::{are_entries, old_block_bytes};
use plain_filter::PlainFilter;
use std::alloc::Global;
use std::test::Fail;
use table_file::{Table, TableBuilder, Tables};

// How many entries it has.
const ENTRIES: u16 = 300;

// The first 255 of them as a block of format 1, in one page as in format 2.
fn old_block(alloc: Global) -> Result<Vec<u8>, Fail> {
    let mut list = Vec::new(alloc);
    for i in 0..255 {
        push_copy(&Entry::new(alloc, &key_of(i), value_of(i))?, &mut list)?;
    }
    if !are_entries(list.as_slice()) {
        return Err(Fail::from("no entries"));
    }
    Ok(old_block_bytes(alloc, list.as_slice())?)
}

// Writes it over the first of two blocks, keeps its sum in the index behind them, and answers the sum of that.
fn write_old_block(alloc: Global, disk: &mut MemDisk) -> Result<u64, Fail> {
    let block = old_block(alloc)?;
    if block.len() != 4_096 {
        return Err(Fail::from("not a page"));
    }
    let mut index = [0; 44];
    let done = disk.write(786_432, &block).is_ok() && disk.read(794_624, &mut index).is_ok();
    index[16..24].copy_from_slice(&fnv1a(&block).to_le_bytes());
    if !done || disk.write(794_624, &index).is_err() {
        return Err(Fail::from("the disk failed"));
    }
    Ok(fnv1a(&index))
}

// The table, on a disk.
fn mixed(alloc: Global, disk: &mut MemDisk) -> Result<Box<Table<PlainFilter>>, Fail> {
    let mut row = row_on(numbered(alloc, ENTRIES)?, disk)?;
    if (row.data_pages, row.index_len) != (2, 44) {
        return Err(Fail::from("other blocks"));
    }
    row.index_sum = write_old_block(alloc, disk)?;
    table_of(alloc, disk, &row)
}

// The table of a row.
fn table_of(alloc: Global, disk: &mut MemDisk, row: &Row) -> Result<Box<Table<PlainFilter>>, Fail> {
    match opened(alloc, disk, row)? {
        Ok(table) => Ok(table),
        Err(_) => Err(Fail::from("not opened")),
    }
}

// Its two blocks begin so, with the length and the count and the format.
fn has_both_formats(disk: &MemDisk) -> bool {
    let begins = |place: usize, head: &[u8]| {
        disk.bytes().get(place..).unwrap_or(b"").starts_with(head)
    };
    begins(786_436, b"\xff\x00\x00\x00") && begins(790_532, b"\x2d\x02\x00\x00")
}

#[test]
fn a_table_of_both_formats_is_asked(rt: HostRuntime) -> Result<(), Fail> {
    let alloc = rt.alloc();
    let mut disk = new_disk(alloc)?;
    let table = mixed(alloc, &mut disk)?;
    let buf = room(alloc, &table)?;
    let mut made = Made { disk, table, buf };
    check_that(&rt, has_both_formats(&made.disk));
    for i in 0..ENTRIES {
        check_that(&rt, made.gives(&key_of(i), Some(value_of(i)), 1));
    }
    Ok(())
}

// Whether a walk from a key on says its entries.
fn is_walked(alloc: Global, walk: &mut Walk, low: u16) -> Result<bool, Fail> {
    walk.begin(alloc, &key_of(low))?;
    for i in low..ENTRIES {
        if !walk.steps_to(Some((&key_of(i), value_of(i)))) {
            return Ok(false);
        }
    }
    Ok(walk.steps_to(None))
}

#[test]
fn a_table_of_both_formats_is_walked(rt: HostRuntime) -> Result<(), Fail> {
    let alloc = rt.alloc();
    let mut disk = new_disk(alloc)?;
    let table = mixed(alloc, &mut disk)?;
    let buf = room(alloc, &table)?;
    let mut walk = Walk::new(alloc, Made { disk, table, buf }, b"")?;
    for low in 0..ENTRIES {
        check_that(&rt, is_walked(alloc, &mut walk, low)?);
    }
    Ok(())
}

// The value of three of the entries in newer tables.
const NEW: Option<&[u8]> = Some(b"new");

// The table of a newer value of the entry number i, which is not the first.
fn newer(alloc: Global, disk: &mut MemDisk, i: u8) -> Result<Box<Table<PlainFilter>>, Fail> {
    let mut builder = TableBuilder::new(alloc, BASE);
    add(&mut builder, &key_of(u16::from(i)), NEW)?;
    if builder.is_empty() || !builder.begins_at_keys() {
        return Err(Fail::from("no entries"));
    }
    let row = row_at(builder.finish()?, disk, FIRST_PAGE + 64 * u32::from(i))?;
    table_of(alloc, disk, &row)
}

// Four tables, the one of both formats the oldest.
fn tables_of(alloc: Global, disk: &mut MemDisk) -> Result<Tables<PlainFilter>, Fail> {
    let mut tables = Tables::new(alloc);
    let oldest = mixed(alloc, disk)?;
    tables.reserve(1)?;
    tables.insert(0, Box::into_inner(oldest));
    for i in 1..4 {
        let table = newer(alloc, disk, i)?;
        tables.reserve(1)?;
        tables.insert(0, Box::into_inner(table));
    }
    Ok(tables)
}

// Adds the next row to a table, if there is one.
fn add_row(
    rows: &mut MergeRows<'_>,
    disk: &mut MemDisk,
    tables: &Tables<PlainFilter>,
    builder: &mut TableBuilder,
) -> Result<(), Fail>
    requires { AreWalksIn tables.now.tables (stands rows.old.walks) }
    ensures { stands rows.new.walks ≡ stands rows.old.walks }
{
    if rows.advance(disk, tables).is_err() {
        return Err(Fail::from("the disk failed"));
    }
    if let Some((key, value)) = rows.entry() {
        add(builder, key, value)?;
    }
    Ok(())
}

// A table of as many rows as the table of both formats has, and of each row more.
fn built(
    alloc: Global,
    rows: &mut MergeRows<'_>,
    disk: &mut MemDisk,
    tables: &Tables<PlainFilter>,
) -> Result<TableBuilder, Fail>
    requires { AreWalksIn tables.now.tables (stands rows.old.walks) }
{
    let mut builder = TableBuilder::new(alloc, BASE);
    for _ in 0..ENTRIES + 1 {
        add_row(rows, disk, tables, &mut builder)?;
    }
    Ok(builder)
}

// The page and the byte at which the merged table begins.
const MERGED_PAGE: u32 = 448;

const MERGED: usize = 1_835_008;

// The merge of the four tables, written behind them.
fn merged(alloc: Global, disk: &mut MemDisk) -> Result<Box<Table<PlainFilter>>, Fail> {
    let tables = tables_of(alloc, disk)?;
    let mut rows = rows_of(alloc, &tables, None, b"", false)?;
    let builder = built(alloc, &mut rows, disk, &tables)?;
    if builder.is_empty() || !builder.begins_at_keys() {
        return Err(Fail::from("no entries"));
    }
    let row = row_at(builder.finish()?, disk, MERGED_PAGE)?;
    table_of(alloc, disk, &row)
}

// Each block of the merged table has one page, and byte 5 of each is 2.
#[test]
fn a_table_of_both_formats_is_merged(rt: HostRuntime) -> Result<(), Fail> {
    let alloc = rt.alloc();
    let mut disk = new_disk(alloc)?;
    let table = merged(alloc, &mut disk)?;
    let buf = room(alloc, &table)?;
    let mut made = Made { disk, table, buf };
    check_same(&rt, &made.size(), &(2, 2));
    for block in [MERGED, MERGED + 4_096] {
        check_same(&rt, &made.disk.bytes().get(block + 5).copied(), &Some(2));
    }
    check_same(&rt, &made.table.row().entries, &300);
    for i in 0..ENTRIES {
        let value = if i > 0 && i < 4 { NEW } else { value_of(i) };
        check_that(&rt, made.gives(&key_of(i), Some(value), 1));
    }
    Ok(())
}
