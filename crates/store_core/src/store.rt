//! The store in memory.
ghost use Rattle.std.specs.Prelude.{◌≡◌};

use disk_trait::Disk;
use filter_api::RangeFilter;
use gate_log::Log;
use level_merge::Job;
use manifest::Version;
use mem_table::MemTable;
use std::marker::Model;
use store_search::CachedBlocks;
use table_file::Tables;

/// A store over a device: its version, its tables, the merge that runs, its log, and the newest entry of each key in the log.
#[derive(Drop)]
pub struct Store<F: RangeFilter> {
    pub(crate) stopped: bool,
    pub(crate) version: Version,
    // one for each row of the version, in their order
    pub(crate) tables: Tables<F>,
    // the merge that runs, if one does
    pub(crate) job: Option<Job<'static, F>>,
    pub(crate) log: Log,
    pub(crate) memory: MemTable,
    // room for the largest block, in which records are built too; a given number of bytes as the largest one had that stood there
    pub(crate) buffer: Vec<u8>,
    // those that were read last by gets
    pub(crate) blocks: CachedBlocks,
    // where a flush of the memory found no room since an entry was set: the pages that its table needs
    pub(crate) need: Option<u64>,
}

impl<F: RangeFilter> Model for Store<F> {
    ghost use Rattle.std.specs.Prelude.{◌≡◌, ◌≤◌, IfSome, vec_capacity};
    ghost use Rattle.store_core.specs.Flushing.{need_under};
    ghost use Rattle.store_core.specs.StoreValue.{IsConsistent, StoreValue};
    ghost use Rattle.table_file.specs.Search.{largest_block};
    ghost use Rattle.table_model.specs.Tables.{filter_bytes_of};

    ghost Value = { StoreValue };

    ghost view = { λ s. record { stopped = s.stopped; manifest = s.version; tables = s.tables.tables; job = s.job; log = s.log; memory = s.memory; buffer = s.buffer.items; blocks = s.blocks } };

    ghost invariant = { λ s. IsConsistent (record { stopped = s.stopped; manifest = s.version; tables = s.tables.tables; job = s.job; log = s.log; memory = s.memory; buffer = s.buffer.items; blocks = s.blocks })
        × (largest_block ≤ vec_capacity s.buffer)
        × IfSome s.need (λ pages. pages ≡ need_under (filter_bytes_of F.spelling F.built_cutoff) s.version.version s.memory.entries) };
}

impl<F: RangeFilter> Store<F> {
    ghost use Rattle.store_core.specs.AsBefore.{RepresentsAsBefore};
    ghost use Rattle.store_core.specs.Staying.{IsAsItWas};
    ghost use Rattle.store_core.specs.StoreValue.{IsConsistent, StoreValue};
    ghost use Rattle.table_model.specs.Tables.{filter_bytes_of};

    /// Law: what is so of each store, whatever its device holds. It does nothing.
    pub fn consistency_law(&self)
        ensures { IsConsistent self.now }
    {
        // so that the struct's invariant is known
        let _ = &self.stopped;
    }

    /// Law: a store that is as it was represents on a device as it is, whichever that is, and on each image, what it
    /// represented there. It does nothing.
    pub fn refusals_law<D: Disk>(&self, disk: &D)
        ensures { (before : StoreValue) → IsAsItWas before self.now → RepresentsAsBefore F.spelling (filter_bytes_of F.spelling F.built_cutoff) before self.now (D.world disk.now) }
    {
        let _ = &self.stopped;
        let _ = disk;
    }

    /// Whether a write or a sync has failed. Then every other call answers `Stopped`, until the store is opened again.
    pub fn is_stopped(&self) -> bool
        ensures { result ≡ self.now.stopped }
    {
        self.stopped
    }
}
