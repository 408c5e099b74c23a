//! The calls that are measured. Each answers a count or a sum, so that none is left out.
ghost use Rattle.std.specs.Prelude.{◌≡◌, ◌≤◌};
ghost use Rattle.table_file.specs.Walks.{most_block_pages};

use crate::made::{FIRST_PAGE, Made};
use anyhow::{Result, bail};
use byte_fields::fnv1a;
use disk_trait::Disk;
use filter_api::RangeFilter;
use key_base::PAGE_BYTES;
use real_outside::FileOutside;
use std::alloc::{AllocError, Global};
use table_file::{LARGEST_BLOCK_BYTES, TableCursor};

/// A key, and the block that is read for it.
#[derive(Drop)]
pub struct Query {
    pub key: Vec<u8>,
    pub block: u32,
}

/// The keys with their blocks. One that the table denies has the first block.
pub fn queries(alloc: Global, made: &Made, keys: Vec<Vec<u8>>) -> Result<Vec<Query>, AllocError> {
    let mut queries = Vec::with_capacity(alloc, keys.len())?;
    for key in keys {
        let block = made.table.block_for(&key).unwrap_or(0);
        queries.push(Query { key, block })?;
    }
    Ok(queries)
}

/// A whole get of each key: how many have a value.
pub fn gets(
    disk: &mut FileOutside,
    made: &Made,
    queries: &[Query],
    buf: &mut [u8],
) -> Result<usize> {
    let mut found = 0usize;
    for query in queries {
        found = found.saturating_add(get(disk, made, query, buf)?);
    }
    Ok(found)
}

// 1 where a get gives a value.
fn get(disk: &mut FileOutside, made: &Made, query: &Query, buf: &mut [u8]) -> Result<usize> {
    if buf.len() < PAGE_BYTES * made.table.most_block_pages() as usize {
        bail!("no room for a block");
    }
    match made.table.get(disk, &query.key, buf) {
        Ok(found) => Ok(usize::from(matches!(found, Some(Some(_))))),
        Err(_) => bail!("a get failed"),
    }
}

/// What a get does behind its look-up in index and filter: how many keys have a value.
pub fn reads_and_finds(
    disk: &mut FileOutside,
    made: &Made,
    queries: &[Query],
    buf: &mut [u8],
) -> Result<usize> {
    let mut found = 0usize;
    for query in queries {
        found = found.saturating_add(read_and_find(disk, made, query, buf)?);
    }
    Ok(found)
}

// 1 where the key has a value in its block.
fn read_and_find(
    disk: &mut FileOutside,
    made: &Made,
    query: &Query,
    buf: &mut [u8],
) -> Result<usize> {
    let n = query.block;
    if n >= made.table.blocks() || buf.len() < made.table.block_bytes(n) {
        bail!("no block, or no room for it");
    }
    match made.table.read_block(disk, n, buf) {
        Ok(size) => find(made, n, &buf[..size], &query.key),
        Err(_) => bail!("a read failed"),
    }
}

// 1 where the key has a value among the bytes of a block.
fn find(made: &Made, n: u32, bytes: &[u8], key: &[u8]) -> Result<usize> {
    if bytes.len() > LARGEST_BLOCK_BYTES || n >= made.table.blocks() {
        bail!("no block");
    }
    match made.table.find_in(n, bytes, key) {
        Ok(found) => Ok(usize::from(matches!(found, Some(Some(_))))),
        Err(_) => bail!("a block is broken"),
    }
}

/// The look-up in index and filter: for how many keys a block would be read.
pub fn blocks_for(made: &Made, queries: &[Query]) -> usize {
    let mut some = 0usize;
    for query in queries {
        some = some.saturating_add(usize::from(made.table.block_for(&query.key).is_some()));
    }
    some
}

/// The filter alone: how many keys it admits.
pub fn filtered(made: &Made, queries: &[Query]) -> usize {
    let mut some = 0usize;
    for query in queries {
        some = some.saturating_add(usize::from(made.table.filter().may_hold(&query.key)));
    }
    some
}

/// Reads each key's block and sums it: the floor of [`reads_and_finds`].
pub fn reads_and_sums(disk: &mut FileOutside, queries: &[Query], buf: &mut [u8]) -> Result<u64> {
    let mut sum = 0u64;
    for query in queries {
        sum = sum.wrapping_add(page_sum(disk, query.block, buf)?);
    }
    Ok(sum)
}

/// Reads so many pages of the table one after the other and sums each: the floor of a walk, and of a build.
pub fn pages_summed(disk: &mut FileOutside, pages: u32, buf: &mut [u8]) -> Result<u64> {
    let mut sum = 0u64;
    for page in 0..pages {
        sum = sum.wrapping_add(page_sum(disk, page, buf)?);
    }
    Ok(sum)
}

// The sum of a page of the table.
fn page_sum(disk: &mut FileOutside, page: u32, buf: &mut [u8]) -> Result<u64> {
    if buf.len() < PAGE_BYTES {
        bail!("no room for a page");
    }
    let at = PAGE_BYTES as u64 * (u64::from(FIRST_PAGE) + u64::from(page));
    let bytes = &mut buf[..PAGE_BYTES];
    if disk.read(at, bytes).is_err() {
        bail!("a read failed");
    }
    Ok(fnv1a(bytes))
}

/// Walks over the whole table: how many entries there are.
pub fn walk(alloc: Global, disk: &mut FileOutside, made: &Made, pairs: u32) -> Result<usize> {
    let mut cursor = made.table.cursor(alloc, b"")?;
    let mut walked = 0usize;
    for _ in 0..pairs {
        walked = walked.saturating_add(step(disk, made, &mut cursor)?);
    }
    Ok(walked)
}

// 1 where a walk has another entry.
fn step(disk: &mut FileOutside, made: &Made, cursor: &mut TableCursor) -> Result<usize>
    requires { most_block_pages made.now.table.index.rows ≤ cursor.old.room }
    ensures { cursor.new.room ≡ cursor.old.room }
{
    match cursor.advance(disk, &made.table) {
        Ok(some) => Ok(usize::from(some && cursor.entry().is_some())),
        Err(_) => bail!("a walk failed"),
    }
}
