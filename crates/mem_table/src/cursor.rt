//! A way through the entries of a table.
ghost use Rattle.std.specs.Prelude.{◌≡◌, [], ◌∷◌, ◌++◌, ◌<◌, MatchOption, length};
ghost use Rattle.std.specs.List.{AllByRecursion};
ghost use Rattle.std.specs.Option.{option_map};
ghost use Rattle.entry_model.specs.Entries.{entry_of};
ghost use Rattle.mem_table.specs.Chunks.{flat, in_order, NoneEmpty};

use crate::chunks::Chunk;
use entry_list::Entry;
use std::marker::Model;

/// The entries of a table from a key on, in order. Lent by the table, which stays as it is meanwhile.
#[derive(Drop)]
pub struct MemCursor<'a> {
    entries: &'a [Entry],
    // the places of the next ones in this chunk, and the chunks behind it
    here: &'a [u32],
    behind: &'a [Chunk],
}

impl<'a> Model for MemCursor<'a> {
    ghost use Rattle.std.specs.Prelude.{List, ◌<◌, ◌++◌, length};
    ghost use Rattle.std.specs.List.{AllByRecursion};
    ghost use Rattle.entry_model.specs.Entries as model;
    ghost use Rattle.mem_table.specs.Chunks.{flat, in_order, NoneEmpty};

    ghost Value = { List model.Entry };

    ghost view = { λ c. in_order c.entries.now (c.here.now ++ flat c.behind.now) };

    ghost invariant = { λ c. AllByRecursion (λ place. place < length c.entries.now) (c.here.now ++ flat c.behind.now) × NoneEmpty c.behind.now };
}

impl<'a> MemCursor<'a> {
    pub(crate) fn new(entries: &'a [Entry], here: &'a [u32], behind: &'a [Chunk]) -> MemCursor<'a>
        requires within { AllByRecursion (λ place. place < length entries.now) (here.now ++ flat behind.now) }
        requires some { NoneEmpty behind.now }
        ensures { result ≡ in_order entries.now (here.now ++ flat behind.now) }
    {
        MemCursor {
            entries,
            here,
            behind,
        }
    }

    /// The next entry's key and value, `None` for a tombstone's value, or `None` where none is left.
    pub fn next(&mut self) -> Option<(&'a [u8], Option<&'a [u8]>)>
        ensures { MatchOption result ((self.old ≡ []) × (self.new ≡ [])) (λ found. self.old ≡ entry_of found.0.now (option_map (λ v. v.now) found.1) ∷ self.new) }
    {
        if self.here.is_empty() {
            let (chunk, behind) = self.behind.split_first()?;
            self.here = chunk.as_slice();
            self.behind = behind;
        }
        let (place, here) = self.here.split_first()?;
        self.here = here;
        let entry = &self.entries[*place as usize];
        Some((entry.key(), entry.value()))
    }
}
