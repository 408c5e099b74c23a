//! The entries of a memory table as a source.
ghost use Rattle.std.specs.Prelude.{◌≡◌, List, [], ◌∷◌, true, IfSome};
ghost use Rattle.std.specs.List.{AllByRecursion};
ghost use Rattle.std.specs.Option.{option_map};
ghost use Rattle.entry_model.specs.Entries.{IsEntry, entry_of};
ghost use Rattle.entry_model.specs.Newest.{KeysRise};
ghost use Rattle.merge_rows.specs.Merges.{memory_from};
ghost use Rattle.merge_rows.specs.Rows.{above_floor};
ghost use Rattle.merge_rows.specs.Steps.{IsCaughtUp};
ghost use Rattle.table_file.specs.Walks.{first_of, others_of};

use crate::floor::Floor;
use mem_table::{MemCursor, MemTable};
use std::marker::Model;

/// The entries of a memory table that are left, the first of them at hand; none where there is no table.
#[derive(Drop)]
pub(crate) struct MemorySource<'m> {
    head: Option<(&'m [u8], Option<&'m [u8]>)>,
    behind: Option<MemCursor<'m>>,
}

impl<'m> Model for MemorySource<'m> {
    ghost use Rattle.std.specs.Prelude.{List, Option, None, ◌≡◌, []};
    ghost use Rattle.std.specs.List.{AllByRecursion};
    ghost use Rattle.std.specs.Option.{option_map, option_map_or};
    ghost use Rattle.entry_model.specs.Entries.{Entry, IsEntry, entry_of};
    ghost use Rattle.merge_rows.specs.Merges.{with_hand};

    ghost Value = { List Entry };

    ghost view = { λ s. with_hand (option_map (λ h. entry_of h.0.now (option_map (λ v. v.now) h.1)) s.head) (option_map_or (λ c. c) s.behind []) };

    ghost invariant = { λ s. (s.head ≡ None → option_map_or (λ c. c) s.behind [] ≡ [])
        × AllByRecursion IsEntry (with_hand (option_map (λ h. entry_of h.0.now (option_map (λ v. v.now) h.1)) s.head) (option_map_or (λ c. c) s.behind [])) };
}

impl<'m> MemorySource<'m> {
    /// Those from a bound on. No memory.
    pub(crate) fn new(memory: Option<&'m MemTable>, low: &[u8]) -> MemorySource<'m>
        requires { IfSome memory (λ m. AllByRecursion IsEntry m.now.entries) }
        ensures { result ≡ memory_from (option_map (λ m. m.now.entries) memory.entry) low.now }
    {
        let Some(table) = memory else {
            return MemorySource {
                head: None,
                behind: None,
            };
        };
        let mut cursor = table.cursor(low);
        let head = cursor.next();
        MemorySource {
            head,
            behind: Some(cursor),
        }
    }

    /// The key and the value of the entry at hand, `None` for a tombstone's value, or `None` where none is left.
    pub(crate) fn entry(&self) -> Option<(&'m [u8], Option<&'m [u8]>)>
        ensures now { option_map (λ found. entry_of found.0.now (option_map (λ v. v.now) found.1)) result ≡ first_of self.now }
        ensures sound { IfSome result (λ found. IsEntry (entry_of found.0.now (option_map (λ v. v.now) found.1))) }
    {
        self.head
    }

    // Goes on to the next entry.
    fn advance(&mut self)
        ensures { self.new ≡ others_of self.old }
    {
        self.head = match &mut self.behind {
            Some(cursor) => cursor.next(),
            None => None,
        };
    }

    /// Passes over the entries below a floor. No memory.
    #[inline(always)]
    pub(crate) fn catch_up(&mut self, floor: &Floor)
        ensures same { above_floor floor.now self.new ≡ above_floor floor.now self.old }
        ensures caught_up { IsCaughtUp floor.now (first_of self.new) self.new }
        ensures rises { KeysRise self.old → KeysRise self.new }
    {
        while let Some((key, _)) = self.entry() {
            if floor.clears(key) {
                return;
            }
            self.advance();
        }
    }
}
