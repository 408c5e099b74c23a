//! Tables that are built, written and opened.
ghost use Rattle.std.specs.Prelude.{◌≡◌, length};
ghost use Rattle.byte_fields.specs.Spelling.{IsBytes};

use disk_mem::MemDisk;
use key_base::{MAX_KEY_BYTES, MAX_LOGGED_VALUE_BYTES};
use plain_filter::PlainFilter;
use std::alloc::Global;
use std::test::Fail;
use table_file::{
    Parts, Table, TableBuilder, Tables, fits_device, open_table, pages_of, write_parts,
};
use test_stores::BASE;

/// A table as a test names it: its level, its first key, its last key, and how many bytes the value of its first key has.
pub type Named = (u8, &'static [u8], &'static [u8], usize);

// How many bytes they are.
fn bytes_in(bytes: &[u8]) -> usize
    ensures size { result ≡ length bytes.now }
    ensures bytes { IsBytes bytes.now }
{
    bytes.len()
}

/// Adds an entry that a table takes behind the others.
pub fn add(builder: &mut TableBuilder, key: &[u8], value: &[u8]) -> Result<(), Fail> {
    let length = bytes_in(key);
    if length == 0 || length > MAX_KEY_BYTES || bytes_in(value) > MAX_LOGGED_VALUE_BYTES {
        return Err(Fail::from("no entry"));
    }
    if !builder.is_above_all(key) {
        return Err(Fail::from("no order"));
    }
    builder.add(key, Some(value))?;
    Ok(())
}

/// The table of the entries on a level, written from a page on and opened, and the page behind it.
pub fn placed(
    alloc: Global,
    disk: &mut MemDisk,
    builder: TableBuilder,
    level: u8,
    page: u32,
) -> Result<(Table<PlainFilter>, u32), Fail> {
    if builder.is_empty() || !builder.begins_at_keys() || page > 1_000_000 {
        return Err(Fail::from("no entries"));
    }
    let parts: Parts<PlainFilter> = builder.finish()?;
    let pages = pages_of(&parts);
    if pages > 1_000_000 || write_parts(disk, page, &parts).is_err() {
        return Err(Fail::from("not written"));
    }
    let row = parts.row(level, page);
    if !fits_device(&row) {
        return Err(Fail::from("no row"));
    }
    match open_table(alloc, disk, &row) {
        Ok(table) => Ok((table, page + pages as u32)),
        Err(_) => Err(Fail::from("not opened")),
    }
}

// A value of so many bytes.
fn value_of(alloc: Global, size: usize) -> Result<Vec<u8>, Fail> {
    if size > MAX_LOGGED_VALUE_BYTES {
        return Err(Fail::from("no value"));
    }
    Ok(vec![in alloc; 7; size]?)
}

// The entries of a table.
fn built(alloc: Global, named: Named) -> Result<TableBuilder, Fail> {
    let (_, first, last, size) = named;
    let mut builder = TableBuilder::new(alloc, BASE);
    add(&mut builder, first, &value_of(alloc, size)?)?;
    if first != last {
        add(&mut builder, last, b"")?;
    }
    Ok(builder)
}

/// The tables that are named, in their order, on a disk.
pub fn tables_of(
    alloc: Global,
    disk: &mut MemDisk,
    all: &[Named],
) -> Result<Tables<PlainFilter>, Fail> {
    let mut tables = Tables::new(alloc);
    let mut page = 192;
    for named in all {
        let builder = built(alloc, *named)?;
        let (table, next) = placed(alloc, disk, builder, named.0, page)?;
        tables.reserve(1)?;
        tables.insert(tables.len(), table);
        page = next;
    }
    Ok(tables)
}
