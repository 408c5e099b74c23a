//! What a log held: the newest of its entries, by rising keys.
ghost use Rattle.std.specs.Prelude.{◌≡◌, ◌≢◌, ◌≤◌, ◌<◌, ◌-◌, length, slice_index_or, true, false, OnOk, IfOk};
ghost use Rattle.entry_model.specs.Entries as model;
ghost use Rattle.std.specs.List.{range_with_len};
ghost use Rattle.mem_table.specs.Chunks.{flat, NoneEmpty};
ghost use Rattle.entry_model.specs.Newest.{newest_entries};
ghost use Rattle.mem_table.specs.Filling.{DoNotFall};
ghost use Rattle.mem_table.specs.Changes.{clears_one, entries_set};

use crate::chunks::{Chunk, end_of, put};
use entry_list::{Change, ChangeKind, Entry};
use std::alloc::{AllocError, Global};

/// Whether one of some changes clears a range.
pub(crate) fn clears_one(changes: &[Change]) -> bool
    ensures { result ≡ clears_one changes.now }
{
    for change in changes {
        if let ChangeKind::Clears(_) = change.kind() {
            return true;
        }
    }
    false
}

/// The entries that some changes set, in their order and moved.
pub(crate) fn entries_set(alloc: Global, changes: Vec<Change>) -> Result<Vec<Entry>, AllocError>
    ensures { IfOk result (λ entries. entries.items ≡ entries_set changes.items) }
{
    let mut entries = Vec::new(alloc);
    for change in changes {
        if let ChangeKind::Sets(entry) = change.into_kind() {
            entries.push(entry)?;
        }
    }
    Ok(entries)
}

/// Sorts entries by their keys, and leaves those of one key in the order in which they were.
///
/// It takes memory for as many entries, but where they are in order already.
pub(crate) fn sort(entries: &mut Vec<Entry>) -> Result<(), AllocError>
    ensures sorted { OnOk result (DoNotFall entries.new.items) }
    ensures newest { OnOk result (newest_entries entries.new.items ≡ newest_entries entries.old.items) }
{
    entries.sort_by(|one, other| one.compare(other.key()))?;
    Ok(())
}

// Whether an entry has the key of the last one that is kept.
fn repeats(entries: &[Entry], kept: usize, i: usize) -> bool
    requires kept { kept ≤ i }
    requires within { i < length entries.now }
    ensures some { result ≡ true → 0 < kept }
    ensures same { (d : model.Entry) → result ≡ true → (slice_index_or entries.now (kept - 1) d).key ≡ (slice_index_or entries.now i d).key }
    ensures other { (d : model.Entry) → result ≡ false → 0 < kept → (slice_index_or entries.now (kept - 1) d).key ≢ (slice_index_or entries.now i d).key }
{
    kept > 0 && entries[kept - 1].key() == entries[i].key()
}

/// Keeps the last of each key, of entries whose keys do not fall.
pub(crate) fn keep_last(entries: &mut Vec<Entry>)
    requires { DoNotFall entries.old.items }
    ensures { entries.new.items ≡ newest_entries entries.old.items }
{
    let mut kept = 0;
    for i in 0..entries.len() {
        if repeats(entries, kept, i) {
            entries.swap(kept - 1, i);
        } else {
            entries.swap(kept, i);
            kept += 1;
        }
    }
    entries.truncate(kept);
}

/// The places of so many entries, in order.
pub(crate) fn in_a_row(alloc: Global, count: usize) -> Result<Vec<Chunk>, AllocError>
    requires { count ≤ 4294967296 }
    ensures places { IfOk result (λ chunks. flat chunks.items ≡ range_with_len 0 count) }
    ensures some { IfOk result (λ chunks. NoneEmpty chunks.items) }
{
    let mut chunks = Vec::new(alloc);
    for place in 0..count {
        chunks.reserve(1)?;
        let end = end_of(&chunks);
        put(&mut chunks, end, place as u32);
    }
    Ok(chunks)
}
