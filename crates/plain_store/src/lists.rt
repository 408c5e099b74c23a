//! Lists of tables.
ghost use Rattle.std.specs.Prelude.{◌≡◌, [], ◌∷◌, ◌++◌, filter, map, IfOk, OnOk};
ghost use Rattle.state_model.specs.Taken.{extent_of};
ghost use Rattle.state_model.specs.Merges.{on_level};
ghost use Rattle.state_model.specs.View.{oldest_first};
ghost use Rattle.plain_store.specs.ChangeKinds.{change_of};

use crate::change::{Change, push_source};
use crate::gaps::Extent;
use crate::table::Table;
use entry_list::{Entry, push_copy};
use std::alloc::{AllocError, Global};

/// Appends a copy of a table.
pub(crate) fn push_table(table: &Table, list: &mut Vec<Table>) -> Result<(), AllocError>
    ensures { OnOk result (list.new.items ≡ list.old.items ++ table.now ∷ []) }
{
    let copy = table.copy(*list.allocator())?;
    list.push(copy)?;
    Ok(())
}

/// Appends copies of some tables.
pub(crate) fn push_tables(tables: &[Table], list: &mut Vec<Table>) -> Result<(), AllocError>
    ensures { OnOk result (list.new.items ≡ list.old.items ++ tables.now) }
{
    for table in tables {
        push_table(table, list)?;
    }
    Ok(())
}

/// Copies of the tables of a level.
pub(crate) fn on_level(alloc: Global, level: u8, tables: &[Table]) -> Result<Vec<Table>, AllocError>
    ensures { IfOk result (λ list. list.items ≡ on_level level tables.now) }
{
    let mut list = Vec::new(alloc);
    for table in tables {
        if table.level == level {
            push_table(table, &mut list)?;
        }
    }
    Ok(list)
}

/// Where tables are.
pub(crate) fn extents(alloc: Global, tables: &[Table]) -> Result<Vec<Extent>, AllocError>
    ensures { IfOk result (λ list. list.items ≡ map extent_of tables.now) }
{
    let mut list = Vec::new(alloc);
    for table in tables {
        list.push(table.extent())?;
    }
    Ok(list)
}

/// Appends copies of some entries.
pub(crate) fn push_entries(entries: &[Entry], list: &mut Vec<Entry>) -> Result<(), AllocError>
    ensures { OnOk result (list.new.items ≡ list.old.items ++ entries.now) }
{
    for entry in entries {
        push_copy(entry, list)?;
    }
    Ok(())
}

/// The changes of tables, the oldest first.
pub(crate) fn oldest_first(alloc: Global, tables: &[Table]) -> Result<Vec<Change>, AllocError>
    ensures { IfOk result (λ list. map change_of list.items ≡ oldest_first tables.now) }
{
    let Some((table, older)) = tables.split_first() else {
        return Ok(Vec::new(alloc));
    };
    let mut list = oldest_first(alloc, older)?;
    push_source(table.entries.as_slice(), table.ranges.as_slice(), &mut list)?;
    Ok(list)
}
