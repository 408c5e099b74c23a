//! Rows and reads of merges that open tables late.
ghost use Rattle.std.specs.Prelude.{◌≡◌};
ghost use Rattle.merge_rows.specs.Steps.{AreWalksIn, stands};

use crate::asserts::{check_same, check_that_at};
use crate::made::{late_of, merge_of, put_first, table_of};
use disk_mem::MemDisk;
use late_rows::LateRows;
use merge_rows::MergeRows;
use plain_filter::PlainFilter;
use std::alloc::Global;
use std::test::Fail;
use table_file::Tables;
use test_kit::{boxed, new_disk};

// Four tables, the oldest first: 01 to 04; 05 to 08; 09 and 0a, and 01 and 02 deleted; f0.
fn four_tables(alloc: Global, disk: &mut MemDisk) -> Result<Tables<PlainFilter>, Fail> {
    let mut tables = Tables::new(alloc);
    let first = table_of(alloc, disk, 192, &[[1, 0], [2, 0], [3, 0], [4, 0]], 0)?;
    put_first(&mut tables, first)?;
    let second = table_of(alloc, disk, 256, &[[5, 0], [6, 0], [7, 0], [8, 0]], 0)?;
    put_first(&mut tables, second)?;
    let third = table_of(alloc, disk, 320, &[[1, 1], [2, 1], [9, 0], [10, 0]], 0)?;
    put_first(&mut tables, third)?;
    let fourth = table_of(alloc, disk, 384, &[[240, 0]], 0)?;
    put_first(&mut tables, fourth)?;
    Ok(tables)
}

// Whether so many steps fail nowhere.
fn late_steps(
    rows: &mut LateRows<'_>,
    disk: &mut MemDisk,
    tables: &Tables<PlainFilter>,
    count: u16,
) -> bool
    requires { AreWalksIn tables.now.tables (stands rows.old.merge.walks) }
    ensures { stands rows.new.merge.walks ≡ stands rows.old.merge.walks }
{
    for step in 0..count {
        if rows.advance(disk, tables).is_err() {
            return step == count;
        }
    }
    true
}

// So with a merge that opens all tables at once.
fn steps(
    rows: &mut MergeRows<'_>,
    disk: &mut MemDisk,
    tables: &Tables<PlainFilter>,
    count: u16,
) -> bool
    requires { AreWalksIn tables.now.tables (stands rows.old.walks) }
    ensures { stands rows.new.walks ≡ stands rows.old.walks }
{
    for step in 0..count {
        if rows.advance(disk, tables).is_err() {
            return step == count;
        }
    }
    true
}

// How many blocks the first so many rows from a key on are read with, late and at once.
fn reads(
    alloc: Global,
    tables: &Tables<PlainFilter>,
    disk: &mut MemDisk,
    low: &[u8],
    rows: u16,
) -> Result<(u64, u64), Fail> {
    let mut late = late_of(alloc, tables, low)?;
    let mut all = merge_of(alloc, tables, low)?;
    let before = disk.reads();
    if !late_steps(&mut late, disk, tables, rows) {
        return Err(Fail::from("no row"));
    }
    let between = disk.reads();
    if !steps(&mut all, disk, tables, rows) {
        return Err(Fail::from("no row"));
    }
    Ok((
        between.saturating_sub(before),
        disk.reads().saturating_sub(between),
    ))
}

#[test]
fn a_table_is_read_once_its_keys_come(rt: HostRuntime) -> Result<(), Fail> {
    let alloc = rt.alloc();
    let mut disk = new_disk(alloc)?;
    let tables = four_tables(alloc, &mut disk)?;
    // 01 with nothing behind, 01 and 02 deleted, 02, and 03
    check_same(&rt, &reads(alloc, &tables, &mut disk, &[1], 5)?, &(2, 4));
    check_same(&rt, &reads(alloc, &tables, &mut disk, &[5], 1)?, &(1, 3));
    check_same(&rt, &reads(alloc, &tables, &mut disk, &[5], 4)?, &(1, 3));
    check_same(&rt, &reads(alloc, &tables, &mut disk, &[5], 5)?, &(2, 3));
    check_same(&rt, &reads(alloc, &tables, &mut disk, &[11], 1)?, &(1, 1));
    Ok(())
}

// The keys of the table of a number: each whose first byte leaves it as rest, but for sixteen that follow one another.
fn keys_of(alloc: Global, table: u8) -> Result<Vec<[u8; 2]>, Fail> {
    let mut keys = Vec::new(alloc);
    for first in 0..128u8 {
        if first % 4 == table % 4 || first / 16 == table.wrapping_mul(5) {
            keys.push([first, u8::from(first % 5 == table % 5)])?;
        }
    }
    Ok(keys)
}

// Four tables that overlap, the last of which begins in the midst of the others.
fn many_tables(
    alloc: Global,
    disk: &mut MemDisk,
    real_bits: u8,
) -> Result<Tables<PlainFilter>, Fail> {
    let mut tables = Tables::new(alloc);
    for table in 0..4u8 {
        let keys = keys_of(alloc, table)?;
        let from = if table == 3 { keys.len() / 2 } else { 0 };
        let page = 192 + 64 * u32::from(table);
        let made = table_of(alloc, disk, page, &keys[from..], real_bits)?;
        put_first(&mut tables, made)?;
    }
    Ok(tables)
}

// Whether the next rows are the same. A fault of the merge that opens tables late is counted, and its row is asked for again.
fn next_is_same(
    late: &mut LateRows<'_>,
    late_disk: &mut MemDisk,
    all: &mut MergeRows<'_>,
    disk: &mut MemDisk,
    tables: &Tables<PlainFilter>,
    faults: &mut u8,
) -> bool
    requires late { AreWalksIn tables.now.tables (stands late.old.merge.walks) }
    requires all { AreWalksIn tables.now.tables (stands all.old.walks) }
    ensures late { stands late.new.merge.walks ≡ stands late.old.merge.walks }
    ensures all { stands all.new.walks ≡ stands all.old.walks }
{
    if late.advance(late_disk, tables).is_err() {
        *faults = faults.saturating_add(1);
        if late.entry().is_some() || late.advance(late_disk, tables).is_err() {
            return false;
        }
    }
    all.advance(disk, tables).is_ok() && late.entry() == all.entry()
}

// Whether both give the same rows, more than there are; and how many faults came.
fn are_same(
    late: &mut LateRows<'_>,
    late_disk: &mut MemDisk,
    all: &mut MergeRows<'_>,
    disk: &mut MemDisk,
    tables: &Tables<PlainFilter>,
) -> (bool, u8)
    requires late { AreWalksIn tables.now.tables (stands late.old.merge.walks) }
    requires all { AreWalksIn tables.now.tables (stands all.old.walks) }
{
    let mut faults = 0;
    for step in 0..160 {
        if !next_is_same(late, late_disk, all, disk, tables, &mut faults) {
            return (step == 160, faults);
        }
    }
    (late.entry().is_none(), faults)
}

// Whether the rows from a key on are the same. After so many calls one fails; then the rows go on.
fn gives_the_same(
    alloc: Global,
    low: &[u8],
    real_bits: u8,
    fault: Option<u64>,
) -> Result<bool, Fail> {
    let mut disk = new_disk(alloc)?;
    let mut other = new_disk(alloc)?;
    let tables = many_tables(alloc, &mut disk, real_bits)?;
    let _ = many_tables(alloc, &mut other, real_bits)?;
    if let Some(calls) = fault {
        let at = (other.calls() as u64).saturating_add(calls);
        let faults = vec![in alloc; at]?;
        other = boxed(alloc, Box::into_inner(other).with_faults(faults))?;
    }
    let mut late = late_of(alloc, &tables, low)?;
    let mut all = merge_of(alloc, &tables, low)?;
    let (same, faults) = are_same(&mut late, &mut other, &mut all, &mut disk, &tables);
    Ok(same && faults == u8::from(fault.is_some()))
}

#[test]
fn rows_are_those_of_all_tables(rt: HostRuntime) -> Result<(), Fail> {
    for low in 0..4u8 {
        let bound = [low.wrapping_mul(33), low % 3];
        check_that_at(
            &rt,
            &low,
            gives_the_same(rt.alloc(), &bound, 8 * (low % 2), None)?,
        );
    }
    Ok(())
}

#[test]
fn no_row_is_lost_at_a_fault(rt: HostRuntime) -> Result<(), Fail> {
    for call in 0..3u64 {
        check_that_at(&rt, &call, gives_the_same(rt.alloc(), &[7], 0, Some(call))?);
    }
    Ok(())
}
