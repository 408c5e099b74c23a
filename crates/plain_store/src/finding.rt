//! What a state says of a key, by looking at its newest entries and ranges first.
ghost use Rattle.std.specs.Prelude.{◌≡◌, None, vec_items, IfOk};
ghost use Rattle.std.specs.Option.{option_map};
ghost use Rattle.range_model.specs.Sources as model;
ghost use Rattle.state_model.specs.View.{sources_of, view};

use crate::ranges::{DeletedRange, covers};
use crate::state::State;
use crate::table::Table;
use entry_list::{Entry, lookup};
use std::alloc::{AllocError, Global};

/// What is said of a key: a value, or that it has none any more.
pub type Found = Option<Vec<u8>>;

fn copied(alloc: Global, value: Option<&[u8]>) -> Result<Found, AllocError>
    ensures { IfOk result (λ found. option_map vec_items found ≡ option_map (λ v. v.now) value.entry) }
{
    match value {
        Some(bytes) => {
            let copy = Vec::from_slice(alloc, bytes)?;
            Ok(Some(copy))
        }
        None => Ok(None),
    }
}

// What entries with ranges say of the key: an entry wins over the ranges beside it.
fn said(
    alloc: Global,
    entries: &[Entry],
    ranges: &[DeletedRange],
    key: &[u8],
) -> Result<Option<Found>, AllocError>
    ensures { IfOk result (λ found. option_map (option_map vec_items) found ≡ model.says (record { entries = entries.now; ranges = ranges.now }) key.now) }
{
    match lookup(entries, key) {
        Some(value) => {
            let found = copied(alloc, value)?;
            Ok(Some(found))
        }
        None => {
            if covers(ranges, key) {
                Ok(Some(None))
            } else {
                Ok(None)
            }
        }
    }
}

// What the first of some tables that says something of the key says of it.
fn first_said(alloc: Global, tables: &[Table], key: &[u8]) -> Result<Option<Found>, AllocError>
    ensures { IfOk result (λ found. option_map (option_map vec_items) found ≡ model.first_said (sources_of tables.now) key.now) }
{
    let Some((table, older)) = tables.split_first() else {
        return Ok(None);
    };
    match said(
        alloc,
        table.entries.as_slice(),
        table.ranges.as_slice(),
        key,
    )? {
        Some(found) => Ok(Some(found)),
        None => first_said(alloc, older, key),
    }
}

impl State {
    /// What the state says of the key: what is in memory says, else what the first table says that says something.
    pub fn view(&self, alloc: Global, key: &[u8]) -> Result<Option<Found>, AllocError>
        ensures { IfOk result (λ found. option_map (option_map vec_items) found ≡ view self.now key.now) }
    {
        let source = self.in_memory(alloc)?;
        match said(
            alloc,
            source.entries.as_slice(),
            source.ranges.as_slice(),
            key,
        )? {
            Some(found) => Ok(Some(found)),
            None => first_said(alloc, self.tables.as_slice(), key),
        }
    }
}
