//! A table.
ghost use Rattle.std.specs.Prelude.{◌≡◌, IfOk};
ghost use Rattle.range_model.specs.Reach.{reach};
ghost use Rattle.state_model.specs.Taken.{extent_of};
ghost use Rattle.state_model.specs.Merges as model;

use crate::gaps::Extent;
use crate::ranges::{DeletedRange, copied_ranges, reach};
use entry_list::{Entry, copied};
use filter_api::Settings;
use plain_blocks::{first_key, last_key};
use std::alloc::{AllocError, Global};
use std::marker::Model;

/// A table: its level, its first page, how many pages it takes, of how many data blocks it is made, the settings that its
/// filter was built with, its entries, and the ranges that it deletes in older tables.
#[derive(Drop)]
pub struct Table {
    pub level: u8,
    pub first_page: u64,
    pub pages: u64,
    pub blocks: u64,
    pub settings: Settings,
    pub entries: Vec<Entry>,
    pub ranges: Vec<DeletedRange>,
}

impl Model for Table {
    ghost use Rattle.table_model.specs.Tables as model;

    ghost Value = { model.Table };

    ghost view = { λ t. record { level = t.level; first_page = t.first_page; pages = t.pages; blocks = t.blocks; settings = t.settings; entries = t.entries.items; ranges = t.ranges.items } };
}

impl Table {
    /// The same table again.
    pub fn copy(&self, alloc: Global) -> Result<Table, AllocError>
        ensures { IfOk result (λ t. t ≡ self.now) }
    {
        let entries = copied(alloc, self.entries.as_slice())?;
        let ranges = copied_ranges(alloc, self.ranges.as_slice())?;
        Ok(Table {
            level: self.level,
            first_page: self.first_page,
            pages: self.pages,
            blocks: self.blocks,
            settings: self.settings,
            entries,
            ranges,
        })
    }

    /// Where it is.
    pub fn extent(&self) -> Extent
        ensures { result ≡ extent_of self.now }
    {
        (self.first_page, self.pages)
    }

    /// The key of its first entry, no bytes where it has none.
    pub fn least_key(&self) -> &[u8]
        ensures { result.now ≡ model.least_key self.now }
    {
        first_key(self.entries.as_slice())
    }

    /// The key of its last entry, no bytes where it has none.
    pub fn greatest_key(&self) -> &[u8]
        ensures { result.now ≡ model.greatest_key self.now }
    {
        last_key(self.entries.as_slice())
    }

    /// The end of its last range, no bytes where it has none.
    pub fn reach(&self) -> &[u8]
        ensures { result.now ≡ reach self.now.ranges }
    {
        reach(self.ranges.as_slice())
    }
}
