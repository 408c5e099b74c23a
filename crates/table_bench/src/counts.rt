//! The calls of a load, once, and what they find.
use crate::calls::{Query, filtered, gets, queries, walk};
use crate::keys::{Load, random_keys};
use crate::made::Made;
use anyhow::Result;
use bench_kit::{Figure, print_measure};
use byte_fields::Row;
use real_outside::FileOutside;
use std::alloc::Global;
use std::io;
use table_file::LARGEST_BLOCK_BYTES;

/// Prints what the calls of a load find.
pub fn counts(
    rt: &impl Print,
    alloc: Global,
    disk: &mut FileOutside,
    load: &Load,
    made: &Made,
) -> Result<()> {
    print_size(rt, load.pairs, &made.row)?;
    let mut buf = vec![in alloc; 0; LARGEST_BLOCK_BYTES]?;
    let there = queries(alloc, made, random_keys(alloc, load, 0)?)?;
    let found = gets(disk, made, &there, &mut buf)?;
    print_found(rt, "get_present", made, &there, found)?;
    let others = queries(alloc, made, random_keys(alloc, load, 1)?)?;
    let found = gets(disk, made, &others, &mut buf)?;
    print_found(rt, "get_absent", made, &others, found)?;
    let walked = walk(alloc, disk, made, load.pairs)?;
    let pairs = [("pairs", Figure::Count(walked as u64))];
    print_measure(rt, "table_bench", "walk", &pairs)?;
    Ok(())
}

fn print_size(rt: &impl Print, pairs: u32, row: &Row) -> io::Result<()> {
    let figures = [
        ("pairs", Figure::Count(u64::from(pairs))),
        ("data_pages", Figure::Count(u64::from(row.data_pages))),
        ("index_pages", Figure::Count(u64::from(row.index_pages))),
        ("filter_pages", Figure::Count(u64::from(row.filter_pages))),
    ];
    print_measure(rt, "table_bench", "table", &figures)
}

fn print_found(
    rt: &impl Print,
    name: &str,
    made: &Made,
    queries: &[Query],
    found: usize,
) -> io::Result<()> {
    let admitted = filtered(made, queries);
    let figures = [
        ("keys", Figure::Count(queries.len() as u64)),
        ("found", Figure::Count(found as u64)),
        ("admitted", Figure::Count(admitted as u64)),
    ];
    print_measure(rt, "table_bench", name, &figures)
}
