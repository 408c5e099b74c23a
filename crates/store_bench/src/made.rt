//! A store that is made, and what its floors need.
use crate::counted::Device;
use crate::load::Load;
use crate::stores::{flush, new_store, put, tables_of, value_of};
use anyhow::{Result, bail};
use byte_fields::Row;
use filter_api::{RangeFilter, Settings};
use filter_model::are_keys;
use key_base::KeyList;
use manifest::load as load_version;
use std::alloc::Global;
use store_core::Store;

/// A store, the filters of its tables, the newest first, and the pages of all their blocks.
#[derive(Drop)]
pub struct Made<F: RangeFilter> {
    pub store: Box<Store<F>>,
    pub filters: Vec<F>,
    pub pages: Vec<u32>,
}

impl<F: RangeFilter> Made<F> {
    /// A new store of the keys of a load.
    pub fn new(alloc: Global, disk: &mut Device, load: &Load, keys: &[u64]) -> Result<Made<F>> {
        let store = filled(alloc, disk, load, keys)?;
        let mut filters = Vec::new(alloc);
        for table in 0..load.tables {
            filters.push(filter_of(alloc, load.settings, load.tables, table, keys)?)?;
        }
        let pages = block_pages(alloc, rows_of(alloc, disk)?.as_slice())?;
        Ok(Made {
            store,
            filters,
            pages,
        })
    }
}

/// A new store of the keys of a load, in tables of level 0. The one at place 0 is the newest.
pub fn filled<F: RangeFilter>(
    alloc: Global,
    disk: &mut Device,
    load: &Load,
    keys: &[u64],
) -> Result<Box<Store<F>>> {
    let mut store = new_store(alloc, disk, load)?;
    let value = value_of(alloc, load)?;
    for table in 0..load.tables {
        for (i, key) in keys.iter().enumerate() {
            if i % load.tables.max(1) == table {
                put(disk, &mut store, *key, &value)?;
            }
        }
        flush(disk, &mut store)?;
    }
    if tables_of(&store)? != load.tables as u64 {
        // a log area was too small for one of them
        bail!("other tables than were asked for");
    }
    Ok(store)
}

// The filter that a table has: the newest has number 0.
fn filter_of<F: RangeFilter>(
    alloc: Global,
    settings: Settings,
    tables: usize,
    table: usize,
    keys: &[u64],
) -> Result<F> {
    let oldest_first = tables.saturating_sub(1).saturating_sub(table);
    let mut list = KeyList::new(alloc);
    for (i, key) in keys.iter().enumerate() {
        if i % tables.max(1) == oldest_first {
            list.push(&key.to_be_bytes())?;
        }
    }
    if !are_keys(&list) || settings.check().is_err() {
        bail!("a table without keys, or settings out of range");
    }
    Ok(F::build(alloc, &list, settings)?)
}

/// The rows of the tables of the store that stands on a device.
pub fn rows_of(alloc: Global, disk: &mut Device) -> Result<Vec<Row>> {
    match load_version(alloc, disk) {
        Ok(version) => Ok(version.rows),
        Err(_) => bail!("no manifest"),
    }
}

/// The pages of the blocks of these tables, each of which has one.
pub fn block_pages(alloc: Global, rows: &[Row]) -> Result<Vec<u32>> {
    let mut pages = Vec::new(alloc);
    for row in rows {
        for page in 0..row.data_pages {
            pages.push(row.first_page.saturating_add(page))?;
        }
    }
    Ok(pages)
}
