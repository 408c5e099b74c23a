//! Lists of entries.
ghost use Rattle.std.specs.Prelude.{◌≡◌, [], ◌∷◌, ◌++◌, IfOk, OnOk, OnErr};
ghost use Rattle.std.specs.Option.{option_map};
ghost use Rattle.entry_model.specs.Newest.{lookup};
ghost use Rattle.entry_model.specs.Entries.{newest};

use crate::entry::Entry;
use std::alloc::{AllocError, Global};

/// Appends a copy of an entry. Where memory is refused, the list is as it was.
pub fn push_copy(entry: &Entry, list: &mut Vec<Entry>) -> Result<(), AllocError>
    ensures added { OnOk result (list.new.items ≡ list.old.items ++ entry.now ∷ []) }
    ensures unchanged { OnErr result (list.new.items ≡ list.old.items) }
{
    let copy = entry.copy(*list.allocator())?;
    list.push(copy)?;
    Ok(())
}

/// A copy of all entries, in their order.
pub fn copied(alloc: Global, entries: &[Entry]) -> Result<Vec<Entry>, AllocError>
    ensures { IfOk result (λ list. list.items ≡ entries.now) }
{
    let mut list = Vec::new(alloc);
    for entry in entries {
        push_copy(entry, &mut list)?;
    }
    Ok(list)
}

/// What the first entry of the key says: its value, or `Some(None)` for a tombstone. `None` where the key has none.
pub fn lookup<'a>(entries: &'a [Entry], key: &[u8]) -> Option<Option<&'a [u8]>>
    ensures { option_map (λ found. option_map (λ v. v.now) found) result ≡ lookup entries.now key.now }
{
    for entry in entries {
        if entry.key() == key {
            return Some(entry.value());
        }
    }
    None
}

/// What the last entry of the key says, as [`lookup`] of the first.
pub fn newest_of<'a>(entries: &'a [Entry], key: &[u8]) -> Option<Option<&'a [u8]>>
    ensures { option_map (λ found. option_map (λ v. v.now) found) result ≡ newest entries.now key.now }
{
    let mut newest = None;
    for entry in entries {
        if entry.key() == key {
            newest = Some(entry.value());
        }
    }
    newest
}
