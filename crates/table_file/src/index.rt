//! The index of a table in memory.
ghost use Rattle.std.specs.Prelude.{◌≡◌, ◌+◌, ◌-◌, ◌≤◌, ◌<◌, ◌^◌, ◌++◌, length, take, flat_map, Some, None, IfOk, IfErr, OnOk};
ghost use Rattle.key_base.specs.Limits.{max_block_pages};
ghost use Rattle.table_file.specs.Walks.{most_block_pages};
ghost use Rattle.block_model.specs.Index.{IsIndex, index_bytes, index_row_bytes, magic_for, row_pages};
ghost use Rattle.block_model.specs.IndexReading.{index_fault, index_in, rows_fault, rows_in, rows_width_in};
ghost use Rattle.block_model.specs.Order.{Follow, is_any, is_from};
ghost use Rattle.std.specs.List.{position_or_len};
ghost use Rattle.table_file.specs.Search.{block_of_key, row_at};
ghost use Rattle.table_file.specs.BlockRows.{StandFrom, lasts, row_seen, rows_seen};
ghost use Rattle.table_file.specs.Faults.{IsIndexFault, IsPlaceWithin};

use crate::block_row::BlockRow;
use crate::index_order::BeforeLast;
use crate::index_ranges::{push_ranges, read_ranges};
use crate::index_row::{MAGIC, RANGES_MAGIC, read_head, read_row};
use byte_fields::{PartFault, push_fields};
use key_base::compare;
use range_tombs::Ranges;
use std::alloc::{AllocError, Global};
use std::marker::Model;

// The magic, the count of rows, and the length of the least key.
const HEAD_WIDTHS: [usize; 3] = [4, 4, 2];

// The pages and the sum of a block, and the length of its last key.
const ROW_WIDTHS: [usize; 3] = [4, 8, 2];

// The blocks have other pages than the table.
const OTHER_PAGES: u8 = 8;

/// The least key of a table, what is kept of each of its blocks, and its deleted ranges.
#[derive(Drop)]
pub(crate) struct BlockIndex {
    least: Vec<u8>,
    rows: Vec<BlockRow>,
    // the most pages of one of them
    most: u32,
    ranges: Ranges,
}

impl Model for BlockIndex {
    ghost use Rattle.std.specs.Prelude.{◌≡◌};
    ghost use Rattle.block_model.specs.Index.{Index, IsIndex, row_pages};
    ghost use Rattle.table_file.specs.BlockRows.{StandFrom, rows_seen};
    ghost use Rattle.table_file.specs.Walks.{most_block_pages};

    ghost Value = { Index };

    ghost view = { λ x. record { least = x.least.items; rows = rows_seen x.rows.items; ranges = x.ranges.ranges } };

    ghost invariant = { λ x. IsIndex (row_pages (rows_seen x.rows.items)) (record { least = x.least.items; rows = rows_seen x.rows.items; ranges = x.ranges.ranges }) × StandFrom 0 x.rows.items
        × (x.most ≡ most_block_pages (rows_seen x.rows.items)) };
}

impl BlockIndex {
    /// The index that these bytes spell for a table of a given number of pages of blocks, or the first rule of the format that
    /// they break, and where.
    ///
    /// One pass over the bytes. Memory is taken for the rows that are there, whatever their count says.
    #[tactic(auto, unfolding(block_model::specs::IndexReading::index_fault, block_model::specs::IndexReading::index_in, block_model::specs::IndexReading::pages_fault))]
    pub(crate) fn read(alloc: Global, bytes: &[u8], pages: u32) -> Result<BlockIndex, PartFault>
        requires { length bytes.now < 2 ^ 63 }
        ensures broken { IfErr result (IsIndexFault (index_fault pages bytes.now)) }
        ensures place { IfErr result (IsPlaceWithin (length bytes.now)) }
        ensures whole { IfOk result (λ _. index_fault pages bytes.now ≡ None) }
        ensures index { IfOk result (λ x. x ≡ index_in bytes.now) }
    {
        let head = read_head(bytes)?;
        let (rows, all, width) = read_rows(
            alloc,
            &bytes[head.width..],
            head.width,
            head.count,
            head.least,
        )?;
        let end = head.width + width;
        let ranges = read_ranges(alloc, &bytes[end..], end, head.has_ranges)?;
        if all != u64::from(pages) {
            return Err(PartFault::Shape {
                place: 4,
                rule: OTHER_PAGES,
            });
        }
        let least = Vec::from_slice(alloc, head.least)?;
        let most = most_pages(rows.as_slice());
        Ok(BlockIndex {
            least,
            rows,
            most,
            ranges,
        })
    }

    /// The index with this least key, these rows, whose blocks are one after the other, and these ranges.
    pub(crate) fn new(least: Vec<u8>, rows: Vec<BlockRow>, ranges: Ranges) -> BlockIndex
        requires sound { IsIndex (row_pages (rows_seen rows.items)) (record { least = least.items; rows = rows_seen rows.items; ranges = ranges.ranges }) }
        requires stand { StandFrom 0 rows.items }
        ensures { result ≡ record { least = least.items; rows = rows_seen rows.items; ranges = ranges.ranges } }
    {
        let most = most_pages(rows.as_slice());
        BlockIndex {
            least,
            rows,
            most,
            ranges,
        }
    }

    /// The ranges of keys that the table deletes.
    pub(crate) fn ranges(&self) -> &Ranges
        ensures { result.now.ranges ≡ self.now.ranges }
    {
        &self.ranges
    }

    /// The block that may have a key: the first whose last key is not below it, and none below the least key.
    pub(crate) fn block_of(&self, key: &[u8]) -> Option<u32>
        ensures { result ≡ block_of_key self.now key.now }
    {
        if compare(key, self.least.as_slice()).is_lt() {
            return None;
        }
        let n = self.first_from(key);
        if n < self.len() { Some(n) } else { None }
    }

    /// How many blocks have last keys below this one.
    pub(crate) fn first_from(&self, key: &[u8]) -> u32
        ensures bound { result ≤ length self.now.rows }
        ensures first { result ≡ position_or_len (λ row. is_from key.now row.last) self.now.rows }
    {
        first_from(self.rows.as_slice(), key) as u32
    }

    /// The least key.
    pub(crate) fn least(&self) -> &[u8]
        ensures { result.now ≡ self.now.least }
    {
        self.least.as_slice()
    }

    /// The greatest key.
    pub(crate) fn greatest(&self) -> &[u8]
        ensures { result.now ≡ (row_at self.now.rows (length self.now.rows - 1)).last }
    {
        self.row(self.rows.len() - 1).last.as_slice()
    }

    /// What is kept of the block number `n`.
    pub(crate) fn row(&self, n: usize) -> &BlockRow
        requires { n < length self.now.rows }
        ensures row { row_seen result.now ≡ row_at self.now.rows n }
        ensures first { result.now.first ≡ row_pages (take n self.now.rows) }
        ensures within { result.now.first + result.now.pages ≤ row_pages self.now.rows }
        ensures few { result.now.pages ≤ max_block_pages }
    {
        let rows = self.rows.as_slice();
        &rows[n]
    }

    /// The most pages of one of the blocks.
    pub(crate) fn most_pages(&self) -> u32
        ensures is { result ≡ most_block_pages self.now.rows }
        ensures few { result ≤ max_block_pages }
    {
        self.most
    }

    /// How many blocks there are.
    pub(crate) fn len(&self) -> u32
        ensures { result ≡ length self.now.rows }
    {
        self.rows.len() as u32
    }

    /// Its bytes.
    #[tactic(auto, unfolding(block_model::specs::Index::index_bytes, block_model::specs::Index::index_head_bytes))]
    pub(crate) fn bytes(&self, alloc: Global) -> Result<Vec<u8>, AllocError>
        ensures { IfOk result (λ bytes. bytes.items ≡ index_bytes self.now) }
    {
        let mut out = Vec::new(alloc);
        push_fields(
            &HEAD_WIDTHS,
            &[
                u64::from(self.magic()),
                self.rows.len() as u64,
                self.least.len() as u64,
            ],
            &mut out,
        )?;
        out.extend_from_slice(self.least.as_slice())?;
        push_rows(self.rows.as_slice(), &mut out)?;
        push_ranges(&self.ranges, &mut out)?;
        Ok(out)
    }

    // The magic that its bytes begin with.
    fn magic(&self) -> u32
        ensures { result ≡ magic_for self.now.ranges }
    {
        if self.ranges.is_empty() {
            MAGIC
        } else {
            RANGES_MAGIC
        }
    }
}

// The most pages that one of these blocks has.
fn most_pages(rows: &[BlockRow]) -> u32
    ensures { result ≡ most_block_pages (rows_seen rows.now) }
{
    let mut most = 0;
    for row in rows {
        most = most.max(row.pages);
    }
    most
}

// How many rows have last keys below this one.
fn first_from(rows: &[BlockRow], key: &[u8]) -> usize
    requires { Follow is_any (lasts rows.now) }
    ensures bound { result ≤ length rows.now }
    ensures first { result ≡ position_or_len (λ row. is_from key.now row.last) (rows_seen rows.now) }
{
    rows.partition_point(|row| compare(row.last.as_slice(), key).is_lt())
}

// Appends the rows of an index.
#[tactic(auto, unfolding(block_model::specs::Index::index_row_bytes))]
fn push_rows(rows: &[BlockRow], out: &mut Vec<u8>) -> Result<(), AllocError>
    ensures { OnOk result (out.new.items ≡ out.old.items ++ flat_map index_row_bytes (rows_seen rows.now)) }
{
    for row in rows {
        push_fields(
            &ROW_WIDTHS,
            &[u64::from(row.pages), row.sum, row.last.len() as u64],
            out,
        )?;
        out.extend_from_slice(row.last.as_slice())?;
    }
    Ok(())
}

// A given number of rows that these bytes begin with, after the least key of their table, the pages of all blocks, and how many
// bytes the rows take. The bytes begin at a place of their index.
fn read_rows(
    alloc: Global,
    bytes: &[u8],
    place: usize,
    count: u32,
    least: &[u8],
) -> Result<(Vec<BlockRow>, u64, usize), PartFault>
    requires { place + length bytes.now < 2 ^ 64 }
    ensures broken { IfErr result (IsIndexFault (rows_fault count place (is_from least.now) bytes.now)) }
    ensures place { IfErr result (IsPlaceWithin (place + length bytes.now)) }
    ensures whole { IfOk result (λ _. rows_fault count place (is_from least.now) bytes.now ≡ None) }
    ensures rows { IfOk result (λ found. rows_seen found.0.items ≡ rows_in count bytes.now) }
    ensures pages { IfOk result (λ found. found.1 ≡ row_pages (rows_seen found.0.items)) }
    ensures stand { IfOk result (λ found. StandFrom 0 found.0.items) }
    ensures width { IfOk result (λ found. found.2 ≡ rows_width_in count bytes.now) }
    ensures within { IfOk result (λ found. found.2 ≤ length bytes.now) }
{
    let mut rows = Vec::new(alloc);
    let mut at = 0;
    let mut first = 0;
    let mut before = BeforeLast::Least(least);
    for i in 0..count {
        let row = read_row(&bytes[at..], place + at, before)?;
        let last = Vec::from_slice(alloc, row.last)?;
        rows.push(BlockRow {
            first,
            pages: row.pages,
            sum: row.sum,
            last,
        })?;
        before = BeforeLast::Last(row.last);
        first += u64::from(row.pages);
        at += row.width;
    }
    Ok((rows, first, at))
}
