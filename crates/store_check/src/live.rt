//! How many pairs tables and a memory table have.
ghost use Rattle.std.specs.Prelude.{◌≡◌, ◌<◌, ◌≤◌, ◌^◌, [], List, true, length, Some, IsTrue, IfOk, IfErr};
ghost use Rattle.std.specs.List.{AllByRecursion};
ghost use Rattle.entry_model.specs.Entries.{IsEntry};
ghost use Rattle.merge_rows.specs.Merges.{merge_from, rows_left};
ghost use Rattle.merge_rows.specs.Steps.{IsSoundMerge};
ghost use Rattle.state_model.specs.State.{State};
ghost use Rattle.table_file.specs.Faults.{IsNoDamage};
ghost use Rattle.table_model.specs.Tables.{Table};
ghost use Rattle.store_check.specs.Causes.{HasFaultCause, OnlyReads};
ghost use Rattle.store_check.specs.Summaries.{AreTablesThere, numbers_below};

use disk_trait::Disk;
use filter_api::RangeFilter;
use mem_table::MemTable;
use merge_rows::MergeRows;
use std::alloc::{AllocError, Global};
use table_file::{TableFault, Tables};

// The numbers of a given number of tables, which are counted from the last one: the newest first.
fn all_numbers(alloc: Global, many: u32) -> Result<Vec<u32>, AllocError>
    ensures { IfOk result (λ which. which.items ≡ numbers_below many) }
{
    let mut which = Vec::with_capacity(alloc, many as usize)?;
    let mut left = many;
    while left > 0 {
        left -= 1;
        which.push(left)?;
    }
    Ok(which)
}

/// How many keys have a value by their newest entry, of a memory table and of tables; `most` is no less.
///
/// Each block is read once, and summed. It takes for each table a block and a key.
pub(crate) fn live_pairs<F: RangeFilter, D: Disk>(
    alloc: Global,
    disk: &mut D,
    tables: &Tables<F>,
    memory: &MemTable,
    most: u64,
) -> Result<u64, TableFault>
    requires few { length tables.now.tables < 2 ^ 32 }
    requires sound { AllByRecursion IsEntry memory.now.entries }
    ensures live { IsTrue D.tells → IsSoundMerge (merge_from (numbers_below (length tables.now.tables)) tables.now.tables (Some memory.now.entries) [] true) tables.now.tables (D.world disk.old).seen.held
        → length (rows_left (merge_from (numbers_below (length tables.now.tables)) tables.now.tables (Some memory.now.entries) [] true) tables.now.tables (D.world disk.old).seen.held) ≤ most
        → IfOk result (λ live. live ≡ length (rows_left (merge_from (numbers_below (length tables.now.tables)) tables.now.tables (Some memory.now.entries) [] true) tables.now.tables (D.world disk.old).seen.held)) }
    ensures undamaged { (states : List Table) → IsTrue D.tells → AreTablesThere F.spelling tables.now.tables states (D.world disk.old).seen.held → IfErr result IsNoDamage }
    ensures cause { IfErr result (HasFaultCause (D.world disk.old) (D.world disk.new)) }
    ensures moves { OnlyReads (D.world disk.old) (D.world disk.new) }
{
    // the law of the layer below: no read of a block of a table that is there is damage
    table_file::laws::standing_tables_are_read();
    let which = all_numbers(alloc, tables.len() as u32)?;
    let mut rows = MergeRows::new(which, tables, Some(memory), b"", true)?;
    for live in 0..most {
        if !rows.advance(disk, tables)? {
            return Ok(live);
        }
    }
    Ok(most)
}
