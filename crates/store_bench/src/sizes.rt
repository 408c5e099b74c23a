//! How many bytes the pairs of a compacted store take.
use crate::counted::Device;
use crate::kinds::Kind;
use crate::load::Load;
use crate::made::rows_of;
use crate::stores::{compact, new_store, put_key, tend, value_of};
use anyhow::{Result, bail};
use bench_kit::{Figure, Numbers, print_measure, share};
use byte_fields::Row;
use filter_api::RangeFilter;
use key_base::PAGE_BYTES;
use std::alloc::Global;
use store_core::Store;

/// What tables come to.
#[derive(Clone, Copy)]
struct Sizes {
    pairs: u64,
    data_pages: u64,
    index_pages: u64,
    filter_pages: u64,
}

/// Puts the pairs of a load, with keys of its kind, merges all of them, and prints the pages of their tables, and the bytes of
/// data and index for each pair. Where a key was drawn twice there are fewer pairs than puts.
pub fn measure_sizes<F: RangeFilter>(
    rt: &impl Print,
    alloc: Global,
    disk: &mut Device,
    load: &Load,
) -> Result<()> {
    let Some(kind) = load.kind else {
        bail!("no such kind of keys: see --help");
    };
    let mut store = new_store::<F>(alloc, disk, load)?;
    fill(alloc, disk, load, kind, &mut store)?;
    compact(disk, &mut store)?;
    let rows = rows_of(alloc, disk)?;
    print_sizes(rt, kind, rows.len() as u64, sizes_of(&rows))
}

// Puts the pairs, each with its merge slice behind it.
fn fill<F: RangeFilter>(
    alloc: Global,
    disk: &mut Device,
    load: &Load,
    kind: Kind,
    store: &mut Store<F>,
) -> Result<()> {
    let value = value_of(alloc, load)?;
    let mut numbers = Numbers::new(load.seed);
    let mut key = Vec::new(alloc);
    for place in 0..load.pairs {
        kind.write_key(place, &mut numbers, &mut key)?;
        put_key(disk, store, &key, &value)?;
        tend(disk, store)?;
    }
    Ok(())
}

fn sizes_of(rows: &[Row]) -> Sizes {
    let mut sizes = Sizes {
        pairs: 0,
        data_pages: 0,
        index_pages: 0,
        filter_pages: 0,
    };
    for row in rows {
        sizes.pairs = sizes.pairs.saturating_add(u64::from(row.entries));
        sizes.data_pages = sizes.data_pages.saturating_add(u64::from(row.data_pages));
        sizes.index_pages = sizes.index_pages.saturating_add(u64::from(row.index_pages));
        sizes.filter_pages = sizes
            .filter_pages
            .saturating_add(u64::from(row.filter_pages));
    }
    sizes
}

fn print_sizes(rt: &impl Print, kind: Kind, tables: u64, sizes: Sizes) -> Result<()> {
    let pages = sizes.data_pages.saturating_add(sizes.index_pages);
    let bytes = (PAGE_BYTES as u64).saturating_mul(pages);
    let figures = [
        ("keys", Figure::Word(kind.name())),
        ("pairs", Figure::Count(sizes.pairs)),
        ("tables", Figure::Count(tables)),
        ("data_pages", Figure::Count(sizes.data_pages)),
        ("index_pages", Figure::Count(sizes.index_pages)),
        ("filter_pages", Figure::Count(sizes.filter_pages)),
        ("bytes_a_pair", Figure::Real(share(bytes, sizes.pairs))),
    ];
    print_measure(rt, "store_bench", "sizes", &figures)?;
    Ok(())
}
