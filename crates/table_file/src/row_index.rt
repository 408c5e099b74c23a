//! The index of a table whose filter is not read yet.
ghost use Rattle.block_model.specs.Index.{row_pages};
ghost use Rattle.block_model.specs.Pages.{page_bytes};
ghost use Rattle.filter_api.specs.Ranges.{IsRowInRange};
ghost use Rattle.std.specs.Prelude.{◌≡◌, ◌+◌, ◌*◌, ◌<◌, ◌≤◌, length, take};
ghost use Rattle.table_file.specs.Search.{largest_block, row_at};

use crate::index::BlockIndex;
use crate::table::Table;
use byte_fields::Row;
use filter_api::RangeFilter;
use key_base::PAGE_BYTES;
use range_tombs::Ranges;
use std::marker::Model;

/// The index of a table in memory, with the table's row.
#[derive(Drop)]
pub struct Index {
    row: Row,
    blocks: BlockIndex,
}

impl Model for Index {
    ghost use Rattle.table_file.specs.Opened.{IsIndexOfRow, RowIndex};

    ghost Value = { RowIndex };

    ghost view = { λ x. record { row = x.row; index = x.blocks } };

    ghost invariant = { λ x. IsIndexOfRow (record { row = x.row; index = x.blocks }) };
}

impl Index {
    ghost use Rattle.table_file.specs.Opened.{IsIndexOfRow};

    /// The index of a row with these blocks.
    pub(crate) fn new(row: Row, blocks: BlockIndex) -> Index
        requires { IsIndexOfRow (record { row = row; index = blocks }) }
        ensures { result ≡ record { row = row; index = blocks } }
    {
        Index { row, blocks }
    }

    /// The row that names it.
    pub fn row(&self) -> &Row
        ensures { result.now ≡ self.now.row }
    {
        &self.row
    }

    /// How many blocks the table has, numbered from 0.
    pub fn blocks(&self) -> u32
        ensures { result ≡ length self.now.index.rows }
    {
        self.blocks.len()
    }

    /// The least key of the table.
    pub fn least(&self) -> &[u8]
        ensures { result.now ≡ self.now.index.least }
    {
        self.blocks.least()
    }

    /// The ranges of keys that the table deletes in older ones.
    pub fn ranges(&self) -> &Ranges
        ensures { result.now.ranges ≡ self.now.index.ranges }
    {
        self.blocks.ranges()
    }

    /// The last key of the block number `n`.
    pub fn last(&self, n: u32) -> &[u8]
        requires { n < length self.now.index.rows }
        ensures { result.now ≡ (row_at self.now.index.rows n).last }
    {
        self.blocks.row(n as usize).last.as_slice()
    }

    /// The page of the device at which the block number `n` begins. The blocks lie within the largest device.
    pub fn first_page(&self, n: u32) -> u64
        requires { n < length self.now.index.rows }
        ensures page { result ≡ self.now.row.first_page + row_pages (take n self.now.index.rows) }
        ensures inside { IsIndexOfRow self.now }
    {
        u64::from(self.row.first_page) + self.blocks.row(n as usize).first
    }

    /// How many bytes the block number `n` has, 1,052,672 at most.
    #[tactic(auto, using(crate::proofs::Rooms::row_within))]
    pub fn block_bytes(&self, n: u32) -> usize
        requires { n < length self.now.index.rows }
        ensures size { result ≡ page_bytes * (row_at self.now.index.rows n).pages }
        ensures large { result ≤ largest_block }
    {
        PAGE_BYTES * self.blocks.row(n as usize).pages as usize
    }

    /// The sum of the bytes of the block number `n` (FNV-1a, 64 bits), as the index keeps it.
    pub fn block_sum(&self, n: u32) -> u64
        requires { n < length self.now.index.rows }
        ensures { result ≡ (row_at self.now.index.rows n).sum }
    {
        self.blocks.row(n as usize).sum
    }

    /// The table with this filter, which is one of the row's settings.
    pub fn into_table<F: RangeFilter>(self, filter: F) -> Table<F>
        requires { IsRowInRange self.row }
        ensures { result ≡ record {
          row = self.row;
          index = self.index;
          filter = record { hash_bits = F.hash_bits filter; real_bits = F.real_bits filter; cutoff = F.cutoff filter; leaves = F.leaf_list filter };
        } }
    {
        let Index { row, blocks } = self;
        Table::new(row, blocks, filter)
    }
}
