//! A table that is built, written and opened.
use crate::keys::{Load, write_key};
use anyhow::{Result, bail};
use byte_fields::Row;
use filter_api::Settings;
use key_base::{MAX_KEY_BYTES, MAX_LOGGED_VALUE_BYTES};
use plain_filter::PlainFilter;
use real_outside::FileOutside;
use std::alloc::Global;
use table_file::{Parts, Table, TableBuilder, fits_device, open_table, pages_of, write_parts};

/// The first page of the table.
pub const FIRST_PAGE: u32 = 192;

// Filters with no suffix bits.
const BASE: Settings = Settings {
    hash_bits: 0,
    real_bits: 0,
    ratio: 64,
};

/// A table, opened, and its row.
#[derive(Drop)]
pub struct Made {
    pub table: Table<PlainFilter>,
    pub row: Row,
}

impl Made {
    /// Builds the table of a load, writes it to the device and opens it. Each of its blocks has one page.
    pub fn new(alloc: Global, disk: &mut FileOutside, load: &Load) -> Result<Made> {
        load.check()?;
        let parts = build(alloc, load)?;
        if pages_of(&parts) > 1_000_000 {
            bail!("too many pages");
        }
        if write_parts(disk, FIRST_PAGE, &parts).is_err() {
            bail!("the device failed");
        }
        let row = parts.row(0, FIRST_PAGE);
        if !fits_device(&row) {
            bail!("no row");
        }
        let Ok(table) = open_table(alloc, disk, &row) else {
            bail!("the table cannot be opened");
        };
        if table.blocks() != row.data_pages {
            bail!("a pair that takes more than a page");
        }
        Ok(Made { table, row })
    }
}

/// The parts of the table of a load.
pub fn build(alloc: Global, load: &Load) -> Result<Parts<PlainFilter>> {
    let value = vec![in alloc; 7; load.value]?;
    let mut key = Vec::with_capacity(alloc, load.key)?;
    let mut builder = TableBuilder::new(alloc, BASE);
    for i in 0..load.pairs {
        write_key(2 * u64::from(i), &mut key, load.key)?;
        add(&mut builder, &key, &value)?;
    }
    if builder.is_empty() || !builder.begins_at_keys() {
        bail!("no pairs");
    }
    Ok(builder.finish()?)
}

// Adds a pair that a table takes behind the others.
fn add(builder: &mut TableBuilder, key: &[u8], value: &[u8]) -> Result<()> {
    let sound = !key.is_empty()
        && key.len() <= MAX_KEY_BYTES
        && value.len() <= MAX_LOGGED_VALUE_BYTES;
    if !sound || !builder.is_above_all(key) {
        bail!("a pair that a table does not take");
    }
    builder.add(key, Some(value))?;
    Ok(())
}
