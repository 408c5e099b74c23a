//! Tables that are built and written, and merges of them.
ghost use Rattle.std.specs.Prelude.{◌≡◌, ◌<◌, length, IfOk};
ghost use Rattle.std.specs.Option.{option_map};
ghost use Rattle.byte_fields.specs.Spelling.{IsBytes};
ghost use Rattle.entry_model.specs.Entries.{bytes_of};
ghost use Rattle.merge_rows.specs.Steps.{AreWalksIn, stands};

use disk_mem::MemDisk;
use filter_api::Settings;
use key_base::{MAX_KEY_BYTES, MAX_VALUE_BYTES};
use late_rows::LateRows;
use merge_rows::MergeRows;
use plain_filter::PlainFilter;
use std::alloc::Global;
use std::test::Fail;
use table_file::{
    Parts, Table, TableBuilder, Tables, fits_device, open_table, pages_of, write_parts,
};
use test_kit::boxed;
use waking_keys::waking_key;

// Filters with so many real bits.
fn settings(real_bits: u8) -> Settings {
    Settings {
        hash_bits: 0,
        real_bits,
        ratio: 64,
    }
}

fn bytes_in(bytes: &[u8]) -> usize
    ensures size { result ≡ length bytes.now }
    ensures bytes { IsBytes bytes.now }
{
    bytes.len()
}

fn size_of(value: Option<&[u8]>) -> usize
    ensures size { result ≡ length (bytes_of (option_map (λ v. v.now) value.entry)) }
    ensures bytes { IsBytes (bytes_of (option_map (λ v. v.now) value.entry)) }
{
    match value {
        Some(bytes) => bytes_in(bytes),
        None => 0,
    }
}

// Adds an entry behind the others.
fn add(builder: &mut TableBuilder, key: &[u8], value: Option<&[u8]>) -> Result<(), Fail> {
    if key.is_empty() || key.len() > MAX_KEY_BYTES || size_of(value) > MAX_VALUE_BYTES {
        return Err(Fail::from("no entry"));
    }
    if !builder.is_above_all(key) {
        return Err(Fail::from("no order"));
    }
    builder.add(key, value)?;
    Ok(())
}

/// The table of some keys with a value, written to a disk from a page on; a key whose second byte is 1 is deleted.
pub fn table_of(
    alloc: Global,
    disk: &mut MemDisk,
    page: u32,
    keys: &[[u8; 2]],
    real_bits: u8,
) -> Result<Box<Table<PlainFilter>>, Fail> {
    let settings = settings(real_bits);
    if settings.check().is_err() {
        return Err(Fail::from("no settings"));
    }
    let mut builder = TableBuilder::new(alloc, settings);
    for key in keys {
        let value: Option<&[u8]> = if key[1] == 1 { None } else { Some(b"value") };
        add(&mut builder, key, value)?;
    }
    if builder.is_empty() || !builder.begins_at_keys() || page > 1_000_000 {
        return Err(Fail::from("no entries"));
    }
    let parts: Parts<PlainFilter> = builder.finish()?;
    if pages_of(&parts) > 1_000_000 || write_parts(disk, page, &parts).is_err() {
        return Err(Fail::from("not written"));
    }
    let row = parts.row(0, page);
    if !fits_device(&row) {
        return Err(Fail::from("no row"));
    }
    let Ok(table) = open_table(alloc, disk, &row) else {
        return Err(Fail::from("not opened"));
    };
    Ok(boxed(alloc, table)?)
}

/// Puts a table before the others.
pub fn put_first(
    tables: &mut Tables<PlainFilter>,
    table: Box<Table<PlainFilter>>,
) -> Result<(), Fail> {
    tables.reserve(1)?;
    tables.insert(0, Box::into_inner(table));
    Ok(())
}

// The waking key of the table of a place.
fn waking_at(
    alloc: Global,
    tables: &Tables<PlainFilter>,
    place: usize,
    low: &[u8],
) -> Result<Option<Vec<u8>>, Fail>
    requires { place < length tables.now.tables }
{
    let table = tables.get(place);
    Ok(waking_key(alloc, table.filter(), table.least(), table.greatest(), low)?)
}

/// A merge from a bound on of four tables, each asleep until its waking key.
#[tactic(auto, using(crate::proofs::Walks::late_walks))]
pub fn late_of(
    alloc: Global,
    tables: &Tables<PlainFilter>,
    low: &[u8],
) -> Result<LateRows<'static>, Fail>
    ensures { IfOk result (λ l. AreWalksIn tables.now.tables (stands l.merge.walks)) }
{
    if tables.len() != 4 {
        return Err(Fail::from("not four tables"));
    }
    let which = vec![in alloc; 3, 2, 1, 0]?;
    let waking = vec![in alloc;
        waking_at(alloc, tables, 0, low)?,
        waking_at(alloc, tables, 1, low)?,
        waking_at(alloc, tables, 2, low)?,
        waking_at(alloc, tables, 3, low)?,
    ]?;
    Ok(LateRows::new(which, waking, tables, None, low)?)
}

/// A merge from a bound on of four tables, each open from the start.
#[tactic(auto, using(crate::proofs::Walks::all_walks))]
pub fn merge_of(
    alloc: Global,
    tables: &Tables<PlainFilter>,
    low: &[u8],
) -> Result<MergeRows<'static>, Fail>
    ensures { IfOk result (λ m. AreWalksIn tables.now.tables (stands m.walks)) }
{
    if tables.len() != 4 {
        return Err(Fail::from("not four tables"));
    }
    let which = vec![in alloc; 3, 2, 1, 0]?;
    Ok(MergeRows::new(which, tables, None, low, false)?)
}
