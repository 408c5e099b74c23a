//! Changes in the order of writing.
ghost use Rattle.std.specs.Prelude.{◌≡◌, ◌++◌, map, IfOk, OnOk};
ghost use Rattle.range_model.specs.Sources.{changes_in};
ghost use Rattle.range_model.specs.Sources as model;
ghost use Rattle.plain_store.specs.ChangeKinds.{change_of};

use crate::ranges::DeletedRange;
use entry_list::Entry;
use std::alloc::{AllocError, Global};

/// A change: an entry is set, or a range of keys is deleted.
#[derive(Drop)]
pub enum Change {
    Sets(Entry),
    Clears(DeletedRange),
}

impl Change {
    /// The same change again.
    pub fn copy(&self, alloc: Global) -> Result<Change, AllocError>
        ensures { IfOk result (λ change. change ≡ self.now) }
    {
        match self {
            Change::Sets(entry) => {
                let copy = entry.copy(alloc)?;
                Ok(Change::Sets(copy))
            }
            Change::Clears(range) => {
                let copy = range.copy(alloc)?;
                Ok(Change::Clears(copy))
            }
        }
    }
}

/// Appends copies of some changes.
pub(crate) fn push_changes(changes: &[Change], list: &mut Vec<Change>) -> Result<(), AllocError>
    ensures { OnOk result (list.new.items ≡ list.old.items ++ changes.now) }
{
    for change in changes {
        let copy = change.copy(*list.allocator())?;
        list.push(copy)?;
    }
    Ok(())
}

// Appends the change that deletes each of some ranges.
fn push_clears(ranges: &[DeletedRange], list: &mut Vec<Change>) -> Result<(), AllocError>
    ensures { OnOk result (map change_of list.new.items ≡ map change_of list.old.items ++ map model.Clears ranges.now) }
{
    for range in ranges {
        let copy = range.copy(*list.allocator())?;
        list.push(Change::Clears(copy))?;
    }
    Ok(())
}

// Appends the change that sets each of some entries.
fn push_sets(entries: &[Entry], list: &mut Vec<Change>) -> Result<(), AllocError>
    ensures { OnOk result (map change_of list.new.items ≡ map change_of list.old.items ++ map model.Sets entries.now) }
{
    for entry in entries {
        let copy = entry.copy(*list.allocator())?;
        list.push(Change::Sets(copy))?;
    }
    Ok(())
}

/// Appends the changes that make a source of these: its ranges, and then its entries.
pub(crate) fn push_source(
    entries: &[Entry],
    ranges: &[DeletedRange],
    list: &mut Vec<Change>,
) -> Result<(), AllocError>
    ensures { OnOk result (map change_of list.new.items ≡ map change_of list.old.items ++ changes_in (record { entries = entries.now; ranges = ranges.now })) }
{
    push_clears(ranges, list)?;
    push_sets(entries, list)
}
