//! The entries and ranges that changes make.
ghost use Rattle.std.specs.Prelude.{◌≡◌, map, IfOk};
ghost use Rattle.entry_model.specs.Newest.{newest_entries, with_entry};
ghost use Rattle.range_model.specs.Sources as model;
ghost use Rattle.plain_store.specs.ChangeKinds.{change_of};

use crate::change::Change;
use crate::keys::is_before;
use crate::lists::push_entries;
use crate::ranges::{DeletedRange, with_range};
use entry_list::{Entry, push_copy};
use std::alloc::{AllocError, Global};
use std::cmp::Ordering;
use std::marker::Model;

/// Entries by rising keys, and ranges.
#[derive(Drop)]
pub struct Source {
    pub entries: Vec<Entry>,
    pub ranges: Vec<DeletedRange>,
}

impl Model for Source {
    ghost use Rattle.range_model.specs.Sources as model;

    ghost Value = { model.Source };

    ghost view = { λ s. record { entries = s.entries.items; ranges = s.ranges.items } };
}

/// Entries and no range.
pub(crate) fn alone(alloc: Global, entries: Vec<Entry>) -> Source
    ensures { result ≡ model.alone entries.items }
{
    Source {
        entries,
        ranges: Vec::new(alloc),
    }
}

// The entries with a new one at its key's place, where an older one of that key goes.
fn with_entry(alloc: Global, entries: &[Entry], new: &Entry) -> Result<Vec<Entry>, AllocError>
    ensures { IfOk result (λ list. list.items ≡ with_entry entries.now new.now) }
{
    let mut list = Vec::with_capacity(alloc, entries.len() + 1)?;
    for i in 0..entries.len() {
        match new.key().cmp(entries[i].key()) {
            Ordering::Less => {
                push_copy(new, &mut list)?;
                push_entries(&entries[i..], &mut list)?;
                return Ok(list);
            }
            Ordering::Equal => {
                push_copy(new, &mut list)?;
                push_entries(&entries[i + 1..], &mut list)?;
                return Ok(list);
            }
            Ordering::Greater => push_copy(&entries[i], &mut list)?,
        }
    }
    push_copy(new, &mut list)?;
    Ok(list)
}

/// The newest entry of each key, by rising keys, of entries in the order of writing.
pub fn newest_entries(alloc: Global, entries: &[Entry]) -> Result<Vec<Entry>, AllocError>
    ensures { IfOk result (λ list. list.items ≡ newest_entries entries.now) }
{
    let mut list = Vec::new(alloc);
    for entry in entries {
        list = with_entry(alloc, list.as_slice(), entry)?;
    }
    Ok(list)
}

// The entries outside of a range.
fn entries_outside(
    alloc: Global,
    entries: &[Entry],
    range: &DeletedRange,
) -> Result<Vec<Entry>, AllocError>
    ensures { IfOk result (λ list. list.items ≡ model.entries_outside entries.now range.now) }
{
    let mut list = Vec::new(alloc);
    for entry in entries {
        if !range.covers(entry.key()) {
            push_copy(entry, &mut list)?;
        }
    }
    Ok(list)
}

// The source with a range more: the entries that it covers go, and its first key has a tombstone.
fn with_cleared(alloc: Global, source: &Source, range: &DeletedRange) -> Result<Source, AllocError>
    ensures { IfOk result (λ s. s ≡ model.with_cleared source.now range.now) }
{
    let outside = entries_outside(alloc, source.entries.as_slice(), range)?;
    let tombstone = Entry::new(alloc, range.lo(), None)?;
    let entries = with_entry(alloc, outside.as_slice(), &tombstone)?;
    let ranges = with_range(alloc, source.ranges.as_slice(), range)?;
    Ok(Source { entries, ranges })
}

// The source with a change more. A range whose bounds are crossed is passed over.
fn with_change(alloc: Global, source: Source, change: &Change) -> Result<Source, AllocError>
    ensures { IfOk result (λ s. s ≡ model.with_change source (change_of change.now)) }
{
    match change {
        Change::Sets(entry) => {
            let entries = with_entry(alloc, source.entries.as_slice(), entry)?;
            Ok(Source {
                entries,
                ranges: source.ranges,
            })
        }
        Change::Clears(range) => {
            if is_before(range.lo(), range.hi()) {
                with_cleared(alloc, &source, range)
            } else {
                Ok(source)
            }
        }
    }
}

/// What changes make, in the order of writing.
pub fn source_of(alloc: Global, changes: &[Change]) -> Result<Source, AllocError>
    ensures { IfOk result (λ s. s ≡ model.source_of (map change_of changes.now)) }
{
    let mut source = alone(alloc, Vec::new(alloc));
    for change in changes {
        source = with_change(alloc, source, change)?;
    }
    Ok(source)
}
