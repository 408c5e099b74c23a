//! How many blocks a compacted store reads for keys and ranges that it does not have.
use crate::calls::{Call, ask};
use crate::counted::Device;
use crate::keys::Query;
use crate::stores::{compact, tables_of};
use anyhow::{Result, bail};
use bench_kit::{Figure, print_measure, share};
use filter_api::RangeFilter;
use store_core::Store;

/// Compacts a store, and prints how many blocks it reads for queries whose range has no key.
pub fn print_missing<F: RangeFilter>(
    rt: &impl Print,
    disk: &mut Device,
    store: &mut Store<F>,
    queries: &[Query],
) -> Result<()> {
    compact(disk, store)?;
    let sought = reads(Call::Seek, disk, store, queries)?;
    let got = reads(Call::Get, disk, store, queries)?;
    let count = queries.len() as u64;
    let figures = [
        ("tables", Figure::Count(tables_of(store)?)),
        ("keys", Figure::Count(count)),
        ("blocks_an_empty_seek", Figure::Real(share(sought, count))),
        ("blocks_an_absent_get", Figure::Real(share(got, count))),
    ];
    print_measure(rt, "store_bench", "compacted", &figures)?;
    Ok(())
}

// How many reads the calls take, none of which finds anything.
fn reads<F: RangeFilter>(
    call: Call,
    disk: &mut Device,
    store: &mut Store<F>,
    queries: &[Query],
) -> Result<u64> {
    let before = disk.traffic();
    if ask(call, disk, store, queries)? != 0 {
        bail!("a key was found that is not there");
    }
    Ok(disk.traffic().since(&before).reads)
}
