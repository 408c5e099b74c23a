//! What a store has, in numbers, and the tables that are open.
ghost use Rattle.std.specs.Prelude.{◌≡◌, [], IfErr, IfOk, map};
ghost use Rattle.disk_trait.specs.Image.{Image};
ghost use Rattle.state_model.specs.Logs.{filled_by};
ghost use Rattle.extent_model.specs.Extents.{AreLaid};
ghost use Rattle.extent_model.specs.Gaps.{largest_gap};
ghost use Rattle.manifest_model.specs.Laws.{IsVersion};
ghost use Rattle.manifest_model.specs.Rows.{extent_of};
ghost use Rattle.state_model.specs.State.{State};
ghost use Rattle.store_core.specs.Numbering.{AreNumbersOf, HasNumbers, pages_left};
ghost use Rattle.store_core.specs.Represents.{ReadsAs};
ghost use Rattle.store_core.specs.Running.{extents_with};
ghost use Rattle.store_core.specs.StoreValue.{rows_of};
ghost use Rattle.table_model.specs.Tables.{filter_bytes_of};

use crate::error::StoreError;
use crate::flushing::{extents_of, outputs_of};
use crate::store::Store;
use byte_fields::Row;
use extent_map::NoGap;
use filter_api::{RangeFilter, Settings};
use key_base::{FIRST_TABLE_PAGE, LOG_BYTES};
use manifest::Version;
use std::alloc::{AllocError, Global};
use table_file::Table;

/// What a store has. A page has 4,096 bytes.
#[derive(Clone, Copy, Debug, PartialEq, Eq)]
pub struct Numbers {
    /// The pages of its device, those of the manifest and of the logs among them.
    pub pages: u64,
    /// The pages that are free for tables.
    pub free: u64,
    /// The most of these in one piece.
    pub gap: u64,
    /// The epoch of its version.
    pub epoch: u64,
    /// The bytes of the records in the log area in use.
    pub log_bytes: u64,
    /// The settings of new tables.
    pub settings: Settings,
}

// How many of a given number of pages are left once these tables have taken theirs.
fn left_beside(pages: u64, rows: &[Row]) -> u64
    ensures { result ≡ pages_left pages (map extent_of rows.now) }
{
    rows.iter().fold(pages, |left, row| {
        let taken = u64::from(row.data_pages)
            + u64::from(row.index_pages)
            + u64::from(row.filter_pages);
        left.saturating_sub(taken)
    })
}

// The pages of the largest gap beside the tables of a version and the outputs of a merge.
fn gap_beside(alloc: Global, version: &Version, outputs: &[Row]) -> Result<u64, AllocError>
    requires sound { IsVersion version.now.version }
    requires laid { AreLaid version.now.version.pages (extents_with version.now.version outputs.now) }
    ensures { IfOk result (λ gap. gap ≡ largest_gap version.now.version.pages (extents_with version.now.version outputs.now)) }
{
    let extents = extents_of(alloc, version, outputs)?;
    match extents.gap(u64::MAX) {
        Err(NoGap { largest, .. }) => Ok(largest),
        // no device has that many pages
        Ok(_) => unreachable!(),
    }
}

impl<F: RangeFilter> Store<F> {
    /// Its tables: those of level 0, the newest first, then those of each deeper level by rising keys.
    pub fn tables(&self) -> &[Table<F>]
        ensures tables { result.now ≡ self.now.tables }
        ensures rows { rows_of result.now ≡ self.now.manifest.version.rows }
    {
        self.tables.as_slice()
    }

    /// What it has, in numbers. No read; memory for the extents of all tables.
    pub fn numbers(&self) -> Result<Numbers, StoreError>
        ensures has { IfOk result (HasNumbers self.now) }
        ensures of { (s : State) (image : Image) → ReadsAs F.spelling (filter_bytes_of F.spelling F.built_cutoff) self.now s image → s.kept ≡ [] → self.now.log.filled ≡ filled_by s.log
            → IfOk result (AreNumbersOf s) }
        ensures memory { IfErr result (λ why. why ≡ StoreError.Memory) }
    {
        let alloc = *self.buffer.allocator();
        let version = &self.version;
        let outputs = outputs_of(&self.job);
        let gap = gap_beside(alloc, version, outputs)?;
        let tables_may_take = u64::from(version.pages) - u64::from(FIRST_TABLE_PAGE);
        Ok(Numbers {
            pages: u64::from(version.pages),
            free: left_beside(left_beside(tables_may_take, &version.rows), outputs),
            gap,
            epoch: version.epoch,
            log_bytes: (LOG_BYTES - self.log.gap()) as u64,
            settings: version.settings,
        })
    }
}
