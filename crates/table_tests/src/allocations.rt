//! A table whose allocations fail in turn. One is made to fail from outside, by its number, and then the call that wanted
//! it leaves all as it was and succeeds when it is made again. Where none fails, each call succeeds at once.
use crate::asserts::check_that;
use crate::made::{BASE, FIRST_PAGE, Made, Walk, add, new_disk, opened, room, row_at, try_add};
use byte_fields::Row;
use disk_mem::MemDisk;
use plain_filter::PlainFilter;
use std::alloc::{AllocError, Global};
use std::test::Fail;
use table_file::{Parts, Table, TableBuilder, TableFault};

// Two of these are too long for one page.
const VALUE: [u8; 3_000] = [b'v'; 3_000];

// Adds an entry, once more where nothing was added.
fn add_again(builder: &mut TableBuilder, key: &[u8], value: Option<&[u8]>) -> Result<(), Fail> {
    let pages = builder.data_pages();
    if try_add(builder, key, value)?.is_ok() {
        return Ok(());
    }
    if builder.data_pages() != pages {
        return Err(Fail::from("an entry is there"));
    }
    add(builder, key, value)
}

// A builder with three entries in two blocks.
fn built(alloc: Global) -> Result<TableBuilder, Fail> {
    let mut builder = TableBuilder::new(alloc, BASE);
    add_again(&mut builder, b"a", Some(&VALUE))?;
    add_again(&mut builder, b"c", Some(&VALUE))?;
    add_again(&mut builder, b"e", None)?;
    Ok(builder)
}

// Its parts.
fn parts_of(alloc: Global) -> Result<Result<Parts<PlainFilter>, AllocError>, Fail> {
    let builder = built(alloc)?;
    if builder.is_empty() || !builder.begins_at_keys() {
        return Err(Fail::from("no entries"));
    }
    Ok(builder.finish())
}

// The same, made once more where memory was wanted.
fn parts(alloc: Global) -> Result<Parts<PlainFilter>, Fail> {
    match parts_of(alloc)? {
        Ok(parts) => Ok(parts),
        Err(_) => Ok(parts_of(alloc)??),
    }
}

// The bytes that the calls of a run move: pages that are written, the device before them, and what is read.
const MOVED: usize = 1_048_576;

// A disk with room for all calls of a run.
fn disk_of(alloc: Global) -> Result<Box<MemDisk>, AllocError> {
    let mut disk = new_disk(alloc)?;
    disk.reserve(16, MOVED)?;
    Ok(disk)
}

// Opens the table, once more where memory was wanted.
fn opened_again(
    alloc: Global,
    disk: &mut MemDisk,
    row: &Row,
) -> Result<Box<Table<PlainFilter>>, Fail> {
    match opened(alloc, disk, row)? {
        Ok(table) => return Ok(table),
        Err(TableFault::Memory) => {}
        Err(_) => return Err(Fail::from("damage")),
    }
    let Ok(table) = opened(alloc, disk, row)? else {
        return Err(Fail::from("not opened"));
    };
    Ok(table)
}

// The table, written and opened.
fn made(alloc: Global) -> Result<Made, Fail> {
    let mut disk = match disk_of(alloc) {
        Ok(disk) => disk,
        Err(_) => disk_of(alloc)?,
    };
    let row = row_at(parts(alloc)?, &mut disk, FIRST_PAGE)?;
    let table = opened_again(alloc, &mut disk, &row)?;
    let buf = match room(alloc, &table) {
        Ok(buf) => buf,
        Err(_) => room(alloc, &table)?,
    };
    Ok(Made { disk, table, buf })
}

// A walk over a table.
fn walk_of(alloc: Global, made: Made) -> Result<Walk, Fail> {
    let cursor = match made.table.cursor(alloc, b"b") {
        Ok(cursor) => cursor,
        Err(_) => made.table.cursor(alloc, b"b")?,
    };
    Ok(Walk { made, cursor })
}

// Whether gets say what was added.
fn is_asked(made: &mut Made) -> bool {
    made.gives(b"a", Some(Some(&VALUE)), 1)
        && made.gives(b"e", Some(None), 1)
        && made.gives(b"d", None, 0)
}

// Whether a walk from b on does.
fn is_walked(walk: &mut Walk) -> bool {
    walk.steps_to(Some((b"c", Some(&VALUE))))
        && walk.steps_to(Some((b"e", None)))
        && walk.steps_to(None)
}

// `gives` and `steps_to` count the disk's calls, and one that found no memory has no number.
#[test]
fn each_allocation_may_fail(rt: HostRuntime) -> Result<(), Fail> {
    let mut made = made(rt.alloc())?;
    let asked = is_asked(&mut made);
    let mut walk = walk_of(rt.alloc(), made)?;
    let said = asked && is_walked(&mut walk);
    check_that(&rt, said && walk.made.disk.starved() == 0);
    Ok(())
}
