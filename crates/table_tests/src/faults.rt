//! Tables on a device whose calls fail in turn.
use crate::asserts::{check_same, check_same_at};
use crate::made::{
    BASE, FIRST_PAGE, Made, Walk, add, boxed, key_of, new_disk, numbered, room, value_of,
};
use disk_mem::MemDisk;
use disk_trait::{DiskFault, Op};
use plain_filter::PlainFilter;
use std::alloc::{AllocError, Global};
use std::test::Fail;
use table_file::{
    Parts, Table, TableBuilder, TableFault, fits_device, open_table, pages_of, write_parts,
};
use test_kit::failing_disk;

// The parts of two entries in one block.
fn parts(alloc: Global) -> Result<Parts<PlainFilter>, Fail> {
    let mut builder = TableBuilder::new(alloc, BASE);
    add(&mut builder, b"a", Some(b"b"))?;
    add(&mut builder, b"c", None)?;
    if builder.is_empty() || !builder.begins_at_keys() {
        return Err(Fail::from("no entries"));
    }
    Ok(builder.finish()?)
}

// A table that is written, opened, asked for a key and walked, up to the first call that fails.
fn run(alloc: Global, disk: &mut MemDisk) -> Result<Option<TableFault>, Fail> {
    let parts = boxed(alloc, parts(alloc)?)?;
    if pages_of(&parts) > 1_000_000 {
        return Err(Fail::from("too long"));
    }
    if let Err(fault) = write_parts(disk, FIRST_PAGE, &parts) {
        return Ok(Some(TableFault::Device(fault)));
    }
    let row = parts.row(0, FIRST_PAGE);
    if !fits_device(&row) {
        return Err(Fail::from("no row"));
    }
    let table: Box<Table<PlainFilter>> = match open_table(alloc, disk, &row) {
        Ok(table) => boxed(alloc, table)?,
        Err(fault) => return Ok(Some(fault)),
    };
    let fault = get_twice(alloc, disk, &table)?;
    if fault.is_some() {
        return Ok(fault);
    }
    walk_twice(alloc, disk, &table)
}

// The fault of a get, if any: then the next one answers.
fn get_twice(
    alloc: Global,
    disk: &mut MemDisk,
    table: &Table<PlainFilter>,
) -> Result<Option<TableFault>, Fail> {
    let mut buf = room(alloc, table)?;
    let fault = match table.get(disk, b"c", &mut buf) {
        Ok(_) => return Ok(None),
        Err(fault) => fault,
    };
    if table.get(disk, b"c", &mut buf) != Ok(Some(None)) {
        return Err(Fail::from("no answer"));
    }
    Ok(Some(fault))
}

// The fault of a walk, if any: then it goes on with the same entry.
fn walk_twice(
    alloc: Global,
    disk: &mut MemDisk,
    table: &Table<PlainFilter>,
) -> Result<Option<TableFault>, Fail> {
    let mut cursor = table.cursor(alloc, b"b")?;
    let fault = match cursor.next(disk, table) {
        Ok(_) => return Ok(None),
        Err(fault) => fault,
    };
    if cursor.entry().is_some() || cursor.next(disk, table) != Ok(Some((b"c".as_slice(), None))) {
        return Err(Fail::from("another entry"));
    }
    if cursor.next(disk, table) != Ok(None) {
        return Err(Fail::from("an entry too many"));
    }
    Ok(Some(fault))
}

// The calls of a run.
const CALLS: [(Op, u64); 8] = [
    (Op::Write, 786_432),
    (Op::Write, 790_528),
    (Op::Write, 794_624),
    (Op::Sync, 0),
    (Op::Read, 790_528),
    (Op::Read, 794_624),
    (Op::Read, 786_432),
    (Op::Read, 786_432),
];

#[test]
fn every_call_fails_in_turn(rt: HostRuntime) -> Result<(), Fail> {
    let alloc = rt.alloc();
    for (call, (op, at)) in CALLS.iter().copied().enumerate() {
        let mut disk = failing_disk(alloc, call as u64)?;
        check_same_at(
            &rt,
            &call,
            &run(alloc, &mut disk)?,
            &Some(TableFault::Device(DiskFault { op, at })),
        );
    }
    let mut disk = new_disk(alloc)?;
    check_same(&rt, &run(alloc, &mut disk)?, &None);
    check_same(&rt, &disk.calls(), &CALLS.len());
    Ok(())
}

// How many steps of a walk over a table of 300 entries fail where this call does. Behind each the next step goes on
// with the entry that was due.
fn failed_steps(alloc: Global, call: u64) -> Result<usize, Fail> {
    let made = Made::on(failing_disk(alloc, call)?, alloc, numbered(alloc, 300)?)?;
    let mut walk = Walk::new(alloc, made, b"")?;
    let mut failed = 0usize;
    for i in 0..300 {
        let key = key_of(i);
        let want = Some((key.as_slice(), value_of(i)));
        if walk.steps_to(want) {
            continue;
        }
        failed = failed.saturating_add(1);
        if !walk.steps_to(want) {
            return Err(Fail::from("an entry was lost"));
        }
    }
    Ok(failed)
}

// The reads of its two blocks are the calls number 6 and 7.
#[test]
fn a_walk_loses_no_entry_at_a_fault(rt: HostRuntime) -> Result<(), Fail> {
    for (call, failed) in [(6, 1), (7, 1), (8, 0)] {
        check_same(&rt, &failed_steps(rt.alloc(), call)?, &failed);
    }
    Ok(())
}
