//! Merges of a memory table and tables, beside a plain body that looks each key up.
ghost use Rattle.std.specs.Prelude.{◌≡◌, IfOk, IfSome};
ghost use Rattle.std.specs.List.{AllByRecursion};
ghost use Rattle.entry_model.specs.Entries.{IsEntry};
ghost use Rattle.merge_rows.specs.Steps.{AreWalksIn, stands};

use crate::asserts::{check_same, check_that, check_that_at};
use crate::made::{
    BASE, FIRST_PAGE, add, boxed, bytes_in, key_of, new_disk, opened, row_at, size_of,
};
use disk_mem::MemDisk;
use key_base::{MAX_KEY_BYTES, MAX_LOGGED_VALUE_BYTES};
use mem_table::MemTable;
use merge_rows::MergeRows;
use plain_filter::PlainFilter;
use std::alloc::Global;
use std::test::Fail;
use table_file::{Parts, Table, TableBuilder, Tables};

// How many keys there are, and the tables, numbered from the newest.
const KEYS: u16 = 700;

const TABLES: u8 = 4;

// The pages from the first of a table to that of the next one.
const STEP: u32 = 64;

// What a source says of a key: the tables are 0 to 3, the memory is 4.
fn said(source: u8, key: u16) -> Option<Option<[u8; 1]>> {
    let turn = key.wrapping_mul(u16::from(source).wrapping_add(3)) % 7;
    if turn > 2 {
        return None;
    }
    if key.wrapping_add(u16::from(source)) % 5 == 0 {
        return Some(None);
    }
    Some(Some([source]))
}

// Adds what a source says.
fn add_said(builder: &mut TableBuilder, source: u8) -> Result<(), Fail> {
    for key in 0..KEYS {
        match said(source, key) {
            Some(Some(value)) => add(builder, &key_of(key), Some(&value))?,
            Some(None) => add(builder, &key_of(key), None)?,
            None => {}
        }
    }
    Ok(())
}

// The parts of a source's table.
fn parts_of(alloc: Global, source: u8) -> Result<Parts<PlainFilter>, Fail> {
    let mut builder = TableBuilder::new(alloc, BASE);
    add_said(&mut builder, source)?;
    if builder.is_empty() || !builder.begins_at_keys() {
        return Err(Fail::from("no entries"));
    }
    Ok(builder.finish()?)
}

// The table of a source.
fn table_of(
    alloc: Global,
    disk: &mut MemDisk,
    source: u8,
) -> Result<Box<Table<PlainFilter>>, Fail> {
    let page = FIRST_PAGE + STEP * u32::from(source);
    let row = row_at(parts_of(alloc, source)?, disk, page)?;
    let Ok(table) = opened(alloc, disk, &row)? else {
        return Err(Fail::from("not opened"));
    };
    Ok(table)
}

// The tables, the newest first.
fn tables_of(alloc: Global, disk: &mut MemDisk) -> Result<Tables<PlainFilter>, Fail> {
    let mut tables = Tables::new(alloc);
    for source in 0..TABLES {
        let table = table_of(alloc, disk, TABLES - 1 - source)?;
        tables.reserve(1)?;
        tables.insert(0, Box::into_inner(table));
    }
    Ok(tables)
}

// Sets an entry that a log may hold.
#[tactic(auto, using(crate::proofs::Memories::all_with))]
fn set(memory: &mut MemTable, key: &[u8], value: Option<&[u8]>) -> Result<(), Fail>
    requires { AllByRecursion IsEntry memory.old.entries }
    ensures { AllByRecursion IsEntry memory.new.entries }
{
    let length = bytes_in(key);
    if length == 0 || length > MAX_KEY_BYTES || size_of(value) > MAX_LOGGED_VALUE_BYTES {
        return Err(Fail::from("no entry"));
    }
    let entry = memory.reserve_for(key, value)?;
    memory.set(entry);
    Ok(())
}

// The memory table.
fn memory_of(alloc: Global) -> Result<MemTable, Fail>
    ensures { IfOk result (λ memory. AllByRecursion IsEntry memory.entries) }
{
    let mut memory = MemTable::new(alloc);
    for key in 0..KEYS {
        match said(TABLES, key) {
            Some(Some(value)) => set(&mut memory, &key_of(key), Some(&value))?,
            Some(None) => set(&mut memory, &key_of(key), None)?,
            None => {}
        }
    }
    Ok(memory)
}

// The newest of what the sources say of a key.
fn newest(key: u16, with_memory: bool) -> Option<Option<[u8; 1]>> {
    if with_memory && said(TABLES, key).is_some() {
        return said(TABLES, key);
    }
    for source in 0..TABLES {
        if said(source, key).is_some() {
            return said(source, key);
        }
    }
    None
}

// The memory table, where it is one of the sources.
fn shown(memory: &MemTable, with_memory: bool) -> Option<&MemTable>
    requires { AllByRecursion IsEntry memory.now.entries }
    ensures { IfSome result (λ m. AllByRecursion IsEntry m.now.entries) }
{
    if with_memory { Some(memory) } else { None }
}

/// The rows of the memory table, if any, and of four tables.
#[tactic(auto, using(crate::proofs::Memories::four_walks))]
pub fn rows_of<'m>(
    alloc: Global,
    tables: &Tables<PlainFilter>,
    memory: Option<&'m MemTable>,
    low: &[u8],
    drop_tombstones: bool,
) -> Result<MergeRows<'m>, Fail>
    requires { IfSome memory (λ m. AllByRecursion IsEntry m.now.entries) }
    ensures { IfOk result (λ rows. AreWalksIn tables.now.tables (stands rows.walks)) }
{
    if tables.len() != 4 {
        return Err(Fail::from("no tables"));
    }
    let which = vec![in alloc; 3, 2, 1, 0]?;
    Ok(MergeRows::new(which, tables, memory, low, drop_tombstones)?)
}

// Whether the next row is this one. A fault is counted, and the row is asked for again.
fn next_is(
    rows: &mut MergeRows<'_>,
    disk: &mut MemDisk,
    tables: &Tables<PlainFilter>,
    row: Option<(&[u8], Option<&[u8]>)>,
    faults: &mut u8,
) -> bool
    requires { AreWalksIn tables.now.tables (stands rows.old.walks) }
    ensures { stands rows.new.walks ≡ stands rows.old.walks }
{
    if rows.advance(disk, tables).is_err() {
        *faults = faults.saturating_add(1);
        if rows.advance(disk, tables).is_err() {
            return false;
        }
    }
    rows.entry() == row
}

// Whether the rows from a key on are the plain body's, and how many faults came.
fn are_rows(
    rows: &mut MergeRows<'_>,
    disk: &mut MemDisk,
    tables: &Tables<PlainFilter>,
    keys: (u16, bool, bool),
) -> (bool, u8)
    requires { AreWalksIn tables.now.tables (stands rows.old.walks) }
{
    let (low, with_memory, drop_tombstones) = keys;
    let mut faults = 0;
    for key in low..KEYS {
        let Some(value) = newest(key, with_memory) else {
            continue;
        };
        if drop_tombstones && value.is_none() {
            continue;
        }
        let said = match &value {
            Some(bytes) => Some(bytes.as_slice()),
            None => None,
        };
        let key = key_of(key);
        if !next_is(rows, disk, tables, Some((&key, said)), &mut faults) {
            return (false, faults);
        }
    }
    (next_is(rows, disk, tables, None, &mut faults), faults)
}

// Whether the rows from a key on are the plain body's. After so many calls one fails; then the rows go on.
fn merges(
    alloc: Global,
    low: u16,
    with_memory: bool,
    drop_tombstones: bool,
    fault: Option<u64>,
) -> Result<bool, Fail> {
    let mut disk = new_disk(alloc)?;
    let tables = tables_of(alloc, &mut disk)?;
    let memory = memory_of(alloc)?;
    let memory = shown(&memory, with_memory);
    let mut rows = rows_of(alloc, &tables, memory, &key_of(low), drop_tombstones)?;
    if let Some(calls) = fault {
        let at = (disk.calls() as u64).saturating_add(calls);
        let faults = vec![in alloc; at]?;
        disk = boxed(alloc, Box::into_inner(disk).with_faults(faults))?;
    }
    let (same, faults) = are_rows(
        &mut rows,
        &mut disk,
        &tables,
        (low, with_memory, drop_tombstones),
    );
    Ok(same && faults == u8::from(fault.is_some()))
}

#[test]
fn rows_are_those_of_a_plain_body(rt: HostRuntime) -> Result<(), Fail> {
    check_that(&rt, merges(rt.alloc(), 0, true, false, None)?);
    check_that(&rt, merges(rt.alloc(), 333, true, true, None)?);
    check_that(&rt, merges(rt.alloc(), 0, false, true, None)?);
    Ok(())
}

// The first four reads are those of the tables' first blocks; each of the four tables has more.
#[test]
fn no_row_is_lost_at_a_fault(rt: HostRuntime) -> Result<(), Fail> {
    for call in 0..6 {
        check_that_at(
            &rt,
            &call,
            merges(rt.alloc(), 0, true, call % 2 == 0, Some(call))?,
        );
    }
    Ok(())
}

// Whether so many steps fail nowhere.
fn steps(
    rows: &mut MergeRows<'_>,
    disk: &mut MemDisk,
    tables: &Tables<PlainFilter>,
    count: u16,
) -> bool
    requires { AreWalksIn tables.now.tables (stands rows.old.walks) }
    ensures { stands rows.new.walks ≡ stands rows.old.walks }
{
    for step in 0..count {
        if rows.advance(disk, tables).is_err() {
            return step == count;
        }
    }
    true
}

// No block is read by `new`, one of each table for the first row, and each block once for all rows.
#[test]
fn blocks_are_read_as_rows_want_them(rt: HostRuntime) -> Result<(), Fail> {
    let alloc = rt.alloc();
    let mut disk = new_disk(alloc)?;
    let tables = tables_of(alloc, &mut disk)?;
    let before = disk.reads();
    let mut rows = rows_of(alloc, &tables, None, b"", false)?;
    check_same(&rt, &disk.reads(), &before);
    check_that(&rt, steps(&mut rows, &mut disk, &tables, 1));
    check_same(&rt, &disk.reads(), &before.saturating_add(4));
    check_that(&rt, steps(&mut rows, &mut disk, &tables, KEYS));
    check_same(&rt, &rows.fill(&mut *disk, &tables), &Ok(false));
    let mut blocks = 0u64;
    for table in tables.as_slice() {
        blocks = blocks.saturating_add(u64::from(table.blocks()));
    }
    check_same(&rt, &disk.reads(), &before.saturating_add(blocks));
    Ok(())
}
