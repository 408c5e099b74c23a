//! A range that a table is about to delete.
ghost use Rattle.std.specs.Prelude.{◌≡◌};
ghost use Rattle.entry_model.specs.Entries.{del_entry};
ghost use Rattle.range_model.specs.Ranges.{IsDeletedRange};

use entry_list::Entry;
use range_tombs::PreparedRange;
use std::marker::Model;

/// A range that [`MemTable::set_range`](crate::MemTable::set_range) takes, with the tombstone of its first key.
#[derive(Drop)]
pub struct PreparedClear {
    tombstone: Entry,
    range: PreparedRange,
}

impl Model for PreparedClear {
    ghost use Rattle.std.specs.Prelude.{◌≡◌};
    ghost use Rattle.entry_model.specs.Entries.{del_entry};
    ghost use Rattle.range_model.specs.Ranges as model;

    ghost Value = { model.DeletedRange };

    ghost view = { λ p. p.range };

    ghost invariant = { λ p. (p.tombstone ≡ del_entry p.range.lo) × model.IsDeletedRange p.range };
}

impl PreparedClear {
    pub(crate) fn new(tombstone: Entry, range: PreparedRange) -> PreparedClear
        requires tombstone { tombstone ≡ del_entry range.lo }
        requires range { IsDeletedRange range }
        ensures { result ≡ range }
    {
        PreparedClear { tombstone, range }
    }

    // The tombstone and the range, apart.
    pub(crate) fn into_parts(self) -> (Entry, PreparedRange)
        ensures tombstone { result.0 ≡ del_entry self.lo }
        ensures range { result.1 ≡ self }
        ensures rises { IsDeletedRange self }
    {
        (self.tombstone, self.range)
    }
}
