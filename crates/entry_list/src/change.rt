//! A change of a store, as its log keeps it.
ghost use Rattle.std.specs.Prelude.{◌≡◌};
ghost use Rattle.range_model.specs.Sources as model;
ghost use Rattle.entry_list.specs.ChangeKinds.{change_of};

use crate::entry::Entry;
use crate::kind::ChangeKind;
use crate::range::DeletedRange;
use std::marker::Model;

/// An entry is set, or the keys of a range are deleted.
#[derive(Drop)]
pub struct Change {
    kind: ChangeKind,
}

impl Model for Change {
    ghost use Rattle.range_model.specs.Sources as model;
    ghost use Rattle.entry_list.specs.ChangeKinds.{change_of};

    ghost Value = { model.Change };

    ghost view = { λ c. change_of c.kind };
}

impl Change {
    /// The change that sets an entry.
    pub fn sets(entry: Entry) -> Change
        ensures { result ≡ model.Sets entry }
    {
        Change {
            kind: ChangeKind::Sets(entry),
        }
    }

    /// The change that deletes the keys of a range.
    pub fn clears(range: DeletedRange) -> Change
        ensures { result ≡ model.Clears range }
    {
        Change {
            kind: ChangeKind::Clears(range),
        }
    }

    /// What it does.
    pub fn kind(&self) -> &ChangeKind
        ensures { change_of result.now ≡ self.now }
    {
        &self.kind
    }

    /// What it does, moved.
    pub fn into_kind(self) -> ChangeKind
        ensures { change_of result ≡ self }
    {
        self.kind
    }
}
