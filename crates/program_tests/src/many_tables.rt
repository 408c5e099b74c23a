//! A version of as many tables as there may be.
use crate::asserts::check_same;
use crate::damage::sum_of;
use crate::runs::{Succinct, check, formatted, opened, served};
use disk_mem::MemDisk;
use disk_trait::{Disk, DiskFault};
use std::alloc::{AllocError, Global};
use std::test::Fail;
use store_core::{Limit, Store, StoreError};

// The tables of a version at most, and the bytes of its body before the sum: 64, and 64 for each table.
const TABLES: u16 = 1_024;

const BODY_BYTES: usize = 65_600;

// Makes a put and a flush for each table, with keys that fall: so the rows, the newest first, have keys that rise. No
// merge slice comes between them.
fn fill(alloc: Global, disk: &mut MemDisk) -> Result<(), Fail> {
    let mut store = opened(alloc, disk)?;
    for number in 0..TABLES {
        let key = (0x7fff - number).to_be_bytes();
        store.put(disk, &key, b"b")?;
        store.flush(disk)?;
    }
    Ok(())
}

fn sevens(alloc: Global, count: usize) -> Result<Vec<u8>, AllocError> {
    vec![in alloc; 7; count]
}

// Puts of the longest value that is logged, with keys of one byte, until one is refused: why, and how many calls it made.
fn refusal(
    alloc: Global,
    store: &mut Store<Succinct>,
    disk: &mut MemDisk,
) -> Result<Option<(StoreError, usize)>, Fail> {
    let value = sevens(alloc, 65_536)?;
    for key in 0..8u8 {
        let calls = disk.calls();
        if let Err(why) = store.put(disk, &[key], &value) {
            return Ok(Some((why, disk.calls().saturating_sub(calls))));
        }
    }
    Ok(None)
}

// Each row of a body with level 6, and the sum behind it.
fn deepened(body: Vec<u8>) -> Result<Vec<u8>, AllocError> {
    let mut body = body;
    for row in 1..=usize::from(TABLES) {
        if let Some(level) = body.get_mut(64 * row) {
            *level = 6;
        }
    }
    let sum = sum_of(&body);
    body.extend_from_slice(&sum)?;
    Ok(body)
}

// Reads as many bytes of slot A's body, which is at byte 8.
fn read_body(disk: &mut MemDisk, body: &mut [u8]) -> Result<(), DiskFault> {
    let length = body.len().min(BODY_BYTES);
    disk.read(8, &mut body[..length])
}

fn write_body(disk: &mut MemDisk, body: &[u8]) -> Result<(), DiskFault> {
    let length = body.len().min(BODY_BYTES + 8);
    disk.write(8, &body[..length])
}

// Writes level 6 into each row of slot A.
fn deepen(alloc: Global, disk: &mut MemDisk) -> Result<(), Fail> {
    let mut body = vec![in alloc; 0; BODY_BYTES]?;
    read_body(disk, &mut body)?;
    let body = deepened(body)?;
    Ok(write_body(disk, &body)?)
}

#[test]
fn no_flush_behind_1024_tables(rt: HostRuntime) -> Result<(), Fail> {
    let alloc = rt.alloc();
    let mut disk = formatted(alloc, "format --pages 4096 --variant base")?;
    fill(alloc, &mut disk)?;
    deepen(alloc, &mut disk)?;
    let lines = b"put 61 62\nflush\nget 61\nget 7fff\ncompact\nget 7c00\nexplain 61\n";
    let end = served(alloc, disk, lines)?;
    let replies = b"ok\nlimit tables\nval 62\nval 62\nok\nval 62\ntables 1 admitted 1 blocks 1\n";
    check(&rt, &end, 0, replies, 0);
    Ok(())
}

#[test]
fn a_put_refused_by_1024_tables_makes_no_call(rt: HostRuntime) -> Result<(), Fail> {
    let alloc = rt.alloc();
    let mut disk = formatted(alloc, "format --pages 4096 --variant base")?;
    fill(alloc, &mut disk)?;
    let mut store = opened(alloc, &mut disk)?;
    let refused = refusal(alloc, &mut store, &mut disk)?;
    check_same(&rt, &refused, &Some((StoreError::Limit(Limit::Tables), 0)));
    Ok(())
}

// Nothing is in memory: a long value asks for a table, and a short one does not.
#[test]
fn a_long_put_is_refused_by_1024_tables(rt: HostRuntime) -> Result<(), Fail> {
    let alloc = rt.alloc();
    let mut disk = formatted(alloc, "format --pages 4096 --variant base")?;
    fill(alloc, &mut disk)?;
    let mut store = opened(alloc, &mut disk)?;
    let value = sevens(alloc, 65_537)?;
    let calls = disk.calls();
    check_same(
        &rt,
        &store.put(&mut *disk, b"a", &value),
        &Err(StoreError::Limit(Limit::Tables)),
    );
    check_same(&rt, &disk.calls(), &calls);
    check_same(&rt, &store.put(&mut *disk, b"a", b"b"), &Ok(()));
    Ok(())
}
