//! What a change does.
use crate::entry::Entry;
use crate::range::DeletedRange;

/// What a change does: it sets an entry, or deletes the keys of a range.
#[derive(Drop)]
pub enum ChangeKind {
    Sets(Entry),
    Clears(DeletedRange),
}
