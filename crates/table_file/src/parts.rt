//! The parts of a table in memory, before they are written.
ghost use Rattle.std.specs.Prelude.{◌≡◌, ◌+◌, ◌≤◌, List, IfOk};
ghost use Rattle.entry_model.specs.Entries.{keys_of};
ghost use Rattle.block_model.specs.Block.{IsTable, data_bytes};
ghost use Rattle.block_model.specs.Index.{AreIndexRanges, index_with};
ghost use Rattle.block_model.specs.Laws.{joined};
ghost use Rattle.filter_api.specs.Ranges.{InRange};
ghost use Rattle.table_model.specs.Tables.{filter_bytes_of, source_pages};
ghost use Rattle.table_model.specs.Written.{ArePartsShown};
ghost use Rattle.disk_trait.specs.Image.{Image};
ghost use Rattle.key_base.specs.Limits.{max_device_pages};
ghost use Rattle.block_model.specs.Places.{end_page};
ghost use Rattle.table_file.specs.Writing.{made_filter, made_row};
ghost use Rattle.table_file.specs.Building.{closed_in, source_in};

use crate::index::BlockIndex;
use crate::padded::Padded;
use crate::table::Table;
use byte_fields::Row;
use filter_api::{RangeFilter, Settings};
use key_base::{KeyList, PAGE_BYTES};
use std::alloc::{AllocError, Global};
use std::marker::Model;

/// The blocks, the index and the filter of a table, seen as its entries, its ranges and the settings of its filter.
#[derive(Drop)]
pub struct Parts<F: RangeFilter> {
    pub(crate) settings: Settings,
    pub(crate) entries: u32,
    pub(crate) blocks: Vec<u8>,
    pub(crate) index: BlockIndex,
    pub(crate) index_part: Padded,
    pub(crate) filter: F,
    pub(crate) filter_part: Padded,
}

impl<F: RangeFilter> Model for Parts<F> {
    ghost use Rattle.block_model.specs.Laws.{joined};
    ghost use Rattle.table_file.specs.Building.{Built, closed_in};
    ghost use Rattle.table_file.specs.Parts.{ArePartsOf};

    ghost Value = { Built };

    ghost view = { λ p. record { settings = p.settings; entries = joined (closed_in p.index.rows p.blocks.items); ranges = p.index.ranges } };

    ghost invariant = { λ p. ArePartsOf F.spelling F.built_cutoff p.settings (record { entries = joined (closed_in p.index.rows p.blocks.items); ranges = p.index.ranges })
        p.entries p.blocks.items p.index p.index_part
        (record { hash_bits = F.hash_bits p.filter; real_bits = F.real_bits p.filter; cutoff = F.cutoff p.filter; leaves = F.leaf_list p.filter }) p.filter_part };
}

impl<F: RangeFilter> Parts<F> {
    /// The parts of entries whose blocks, index and keys are there.
    pub(crate) fn new(
        alloc: Global,
        settings: Settings,
        blocks: Vec<u8>,
        index: BlockIndex,
        keys: &KeyList,
    ) -> Result<Parts<F>, AllocError>
        requires range { InRange settings }
        requires table { IsTable (joined (closed_in index.rows blocks.items)) }
        requires blocks { blocks.items ≡ data_bytes (joined (closed_in index.rows blocks.items)) }
        requires index { index ≡ index_with (joined (closed_in index.rows blocks.items)) index.ranges }
        requires ranges { AreIndexRanges index.ranges }
        requires keys { keys.now ≡ keys_of (joined (closed_in index.rows blocks.items)) }
        ensures { IfOk result (λ p. p ≡ record { settings = settings; entries = joined (closed_in index.rows blocks.items); ranges = index.ranges }) }
    {
        let filter = F::build(alloc, keys, settings)?;
        let index_part = Padded::new(index.bytes(alloc)?)?;
        let mut bytes = Vec::new(alloc);
        filter.encode(&mut bytes)?;
        let filter_part = Padded::new(bytes)?;
        Ok(Parts {
            settings,
            entries: keys.len() as u32,
            blocks,
            index,
            index_part,
            filter,
            filter_part,
        })
    }

    /// The row of the table that these parts make on a level, from a page on. Its [pages](pages_of) end within the 2^24 of
    /// the largest device.
    ///
    /// It sums the bytes of index and filter.
    #[tactic(auto, unfolding(table_model::specs::Written::row_from))]
    pub fn row(&self, level: u8, first_page: u32) -> Row
        requires { first_page + source_pages (filter_bytes_of F.spelling F.built_cutoff) self.now.settings (source_in self.now) ≤ max_device_pages }
        ensures { result ≡ made_row F.spelling F.built_cutoff self.now level first_page }
    {
        Row {
            level,
            first_page,
            data_pages: (self.blocks.len() / PAGE_BYTES) as u32,
            index_pages: self.index_part.pages() as u32,
            filter_pages: self.filter_part.pages() as u32,
            entries: self.entries,
            index_len: self.index_part.len(),
            filter_len: self.filter_part.len(),
            index_sum: self.index_part.sum(),
            filter_sum: self.filter_part.sum(),
            hash_bits: self.settings.hash_bits,
            real_bits: self.settings.real_bits,
            ratio: self.settings.ratio,
        }
    }
}

impl<F: RangeFilter> Parts<F> {
    ghost use Rattle.table_file.specs.Opened.{IsOpen};
    ghost use Rattle.table_file.specs.Writing.{StandsWith, opened_of};

    /// The table that [`open_table`](crate::open_table) would give for a row of these parts, where they are written. No
    /// read and no memory.
    pub fn into_table(self, row: Row) -> Table<F>
        requires row { row ≡ made_row F.spelling F.built_cutoff self row.level row.first_page }
        requires within { end_page row ≤ max_device_pages }
        ensures table { result ≡ opened_of F.built_cutoff self row }
        ensures opened { (image : Image) → ArePartsShown row (source_in self) (made_filter F.spelling F.built_cutoff self) image → IsOpen F.spelling result image }
        ensures stands { (image : Image) → ArePartsShown row (source_in self) (made_filter F.spelling F.built_cutoff self) image
            → StandsWith F.spelling result self.entries image }
    {
        let Parts { index, filter, .. } = self;
        Table::new(row, index, filter)
    }
}

/// How many pages a table of these parts takes.
pub fn pages_of<F: RangeFilter>(parts: &Parts<F>) -> u64
    ensures { result ≡ source_pages (filter_bytes_of F.spelling F.built_cutoff) parts.now.settings (source_in parts.now) }
{
    (parts.blocks.len() / PAGE_BYTES) as u64 + parts.index_part.pages() + parts.filter_part.pages()
}
