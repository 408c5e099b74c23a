//! Tables that are built and written.
//!
//! Disks and tables are handed out in boxes: a function that has one for a local costs the check ten times what one does
//! that has a box of it, since each of its parts that owns memory is gone into at each step.
ghost use Rattle.std.specs.Prelude.{◌≡◌, ◌≤◌, ◌*◌, length, IfOk};
ghost use Rattle.std.specs.Option.{option_map};
ghost use Rattle.byte_fields.specs.Spelling.{IsBytes};
ghost use Rattle.entry_model.specs.Entries.{bytes_of};
ghost use Rattle.block_model.specs.Places.{FitsDevice};
ghost use Rattle.table_file.specs.Walks.{most_block_pages};

use byte_fields::Row;
use disk_mem::MemDisk;
use filter_api::Settings;
use key_base::{MAX_KEY_BYTES, MAX_VALUE_BYTES, PAGE_BYTES};
use plain_filter::PlainFilter;
use std::alloc::{AllocError, Global};
use std::test::Fail;
use table_file::{
    Parts, Table, TableBuilder, TableCursor, TableFault, fits_device, open_table, pages_of,
    write_parts,
};
pub use test_kit::{boxed, new_disk};

/// Filters with no suffix bits.
pub const BASE: Settings = Settings {
    hash_bits: 0,
    real_bits: 0,
    ratio: 64,
};

/// How many bytes they are.
pub fn bytes_in(bytes: &[u8]) -> usize
    ensures size { result ≡ length bytes.now }
    ensures bytes { IsBytes bytes.now }
{
    bytes.len()
}

/// The bytes of a value, none of a tombstone.
pub fn size_of(value: Option<&[u8]>) -> usize
    ensures size { result ≡ length (bytes_of (option_map (λ v. v.now) value.entry)) }
    ensures bytes { IsBytes (bytes_of (option_map (λ v. v.now) value.entry)) }
{
    match value {
        Some(bytes) => bytes_in(bytes),
        None => 0,
    }
}

/// Adds an entry that a table takes behind the others, if there is memory.
pub fn try_add(
    builder: &mut TableBuilder,
    key: &[u8],
    value: Option<&[u8]>,
) -> Result<Result<(), AllocError>, Fail> {
    if key.is_empty() || key.len() > MAX_KEY_BYTES {
        return Err(Fail::from("no key"));
    }
    if size_of(value) > MAX_VALUE_BYTES {
        return Err(Fail::from("no value"));
    }
    if !builder.is_above_all(key) {
        return Err(Fail::from("no order"));
    }
    Ok(builder.add(key, value))
}

/// Adds an entry that a table takes behind the others.
pub fn add(builder: &mut TableBuilder, key: &[u8], value: Option<&[u8]>) -> Result<(), Fail> {
    try_add(builder, key, value)??;
    Ok(())
}

/// The page at which tables begin.
pub const FIRST_PAGE: u32 = 192;

/// The parts of the entries, written to a disk, and their row.
pub fn written(builder: TableBuilder, disk: &mut MemDisk) -> Result<(Parts<PlainFilter>, Row), Fail>
    ensures { IfOk result (λ w. FitsDevice w.1) }
{
    if builder.is_empty() || !builder.begins_at_keys() {
        return Err(Fail::from("no entries"));
    }
    placed(builder.finish()?, disk, FIRST_PAGE)
}

/// Parts, written to a disk from a page on, and their row.
pub fn placed(
    parts: Parts<PlainFilter>,
    disk: &mut MemDisk,
    page: u32,
) -> Result<(Parts<PlainFilter>, Row), Fail>
    ensures { IfOk result (λ w. FitsDevice w.1) }
{
    if page > 1_000_000 || pages_of(&parts) > 1_000_000 {
        return Err(Fail::from("too long"));
    }
    if write_parts(disk, page, &parts).is_err() {
        return Err(Fail::from("not written"));
    }
    let row = parts.row(0, page);
    if !fits_device(&row) {
        return Err(Fail::from("no row"));
    }
    Ok((parts, row))
}

/// The row of parts that are written to a disk from a page on.
pub fn row_at(parts: Parts<PlainFilter>, disk: &mut MemDisk, page: u32) -> Result<Row, Fail> {
    let (_, row) = placed(parts, disk, page)?;
    Ok(row)
}

/// The row of the entries' table, written to a disk.
pub fn row_on(builder: TableBuilder, disk: &mut MemDisk) -> Result<Row, Fail> {
    let (_, row) = written(builder, disk)?;
    Ok(row)
}

// A builder with the entry of a to b.
fn a_to_b(alloc: Global) -> Result<TableBuilder, Fail> {
    let mut builder = TableBuilder::new(alloc, BASE);
    add(&mut builder, b"a", Some(b"b"))?;
    Ok(builder)
}

/// A disk with the table of a to b, and its row.
pub fn one_entry(alloc: Global) -> Result<(Box<MemDisk>, Row), Fail> {
    let mut disk = new_disk(alloc)?;
    let row = row_on(a_to_b(alloc)?, &mut disk)?;
    Ok((disk, row))
}

/// The table of a row.
pub fn opened(
    alloc: Global,
    disk: &mut MemDisk,
    row: &Row,
) -> Result<Result<Box<Table<PlainFilter>>, TableFault>, Fail> {
    if !fits_device(row) {
        return Err(Fail::from("no row"));
    }
    match open_table(alloc, disk, row) {
        Ok(table) => Ok(in_a_box(alloc, table)),
        Err(fault) => Ok(Err(fault)),
    }
}

fn in_a_box(
    alloc: Global,
    table: Table<PlainFilter>,
) -> Result<Box<Table<PlainFilter>>, TableFault> {
    match boxed(alloc, table) {
        Ok(table) => Ok(table),
        Err(_) => Err(TableFault::Memory),
    }
}

/// The value of the entry number i: none for a seventh of them.
pub fn value_of(i: u16) -> Option<&'static [u8]> {
    if i % 7 == 0 { None } else { Some(b"value") }
}

/// Its key: the even numbers from 0 on are keys.
pub fn key_of(i: u16) -> [u8; 2] {
    i.wrapping_mul(2).to_be_bytes()
}

/// A builder with so many entries.
pub fn numbered(alloc: Global, entries: u16) -> Result<TableBuilder, Fail> {
    let mut builder = TableBuilder::new(alloc, BASE);
    for i in 0..entries {
        add(&mut builder, &key_of(i), value_of(i))?;
    }
    Ok(builder)
}

// The bytes of the largest block of a table.
fn room_bytes(table: &Table<PlainFilter>) -> usize
    ensures { result ≡ 4096 * most_block_pages table.now.index.rows }
{
    PAGE_BYTES * table.most_block_pages() as usize
}

/// Room for each block of a table.
pub fn room(alloc: Global, table: &Table<PlainFilter>) -> Result<Vec<u8>, AllocError>
    ensures { IfOk result (λ buf. 4096 * most_block_pages table.now.index.rows ≤ length buf.items) }
{
    vec![in alloc; 0; room_bytes(table)]
}

/// A table that was written and opened, its disk, and room for a block.
#[derive(Drop)]
pub struct Made {
    pub disk: Box<MemDisk>,
    pub table: Box<Table<PlainFilter>>,
    pub buf: Vec<u8>,
}

impl Made {
    /// The table of the entries, on a new disk.
    pub fn new(alloc: Global, builder: TableBuilder) -> Result<Made, Fail> {
        Made::on(new_disk(alloc)?, alloc, builder)
    }

    /// The table of the entries, on a disk.
    pub fn on(mut disk: Box<MemDisk>, alloc: Global, builder: TableBuilder) -> Result<Made, Fail> {
        let row = row_on(builder, &mut disk)?;
        let Ok(table) = opened(alloc, &mut disk, &row)? else {
            return Err(Fail::from("not opened"));
        };
        let buf = room(alloc, &table)?;
        Ok(Made { disk, table, buf })
    }

    /// How many blocks it has, and how many pages of them.
    pub fn size(&self) -> (u32, u32) {
        (self.table.blocks(), self.table.row().data_pages)
    }

    /// Whether a get of a key says this, with so many calls of the disk.
    pub fn gives(&mut self, key: &[u8], want: Option<Option<&[u8]>>, calls: usize) -> bool {
        let before = self.disk.calls();
        let said = says(&self.table, &mut self.disk, key, want, &mut self.buf);
        said && self.disk.calls() == before.saturating_add(calls)
    }
}

/// A walk over a table that was made, with room for each of its blocks.
#[derive(Drop)]
pub struct Walk {
    pub made: Made,
    pub cursor: TableCursor,
    ghost roomy: { most_block_pages made.table.value.index.rows ≤ cursor.room },
}

impl Walk {
    /// The walk from a key on.
    pub fn new(alloc: Global, made: Made, low: &[u8]) -> Result<Walk, AllocError> {
        let cursor = made.table.cursor(alloc, low)?;
        Ok(Walk { made, cursor })
    }

    /// Begins it anew, from a key on.
    pub fn begin(&mut self, alloc: Global, low: &[u8]) -> Result<(), AllocError> {
        self.cursor = self.made.table.cursor(alloc, low)?;
        Ok(())
    }

    /// Whether its next step says this, and calls the disk once where a block is due, else not at all.
    pub fn steps_to(&mut self, want: Option<(&[u8], Option<&[u8]>)>) -> bool {
        let calls = usize::from(self.cursor.due(&self.made.table));
        let before = self.made.disk.calls();
        let moved = self.cursor.advance(&mut *self.made.disk, &self.made.table);
        let said = moved.is_ok() && self.cursor.entry() == want;
        said && self.made.disk.calls() == before.saturating_add(calls)
    }
}

// Whether a get of a key says this.
fn says(
    table: &Table<PlainFilter>,
    disk: &mut MemDisk,
    key: &[u8],
    want: Option<Option<&[u8]>>,
    buf: &mut [u8],
) -> bool {
    buf.len() >= room_bytes(table) && table.get(disk, key, buf) == Ok(want)
}
