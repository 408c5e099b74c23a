//! Which source has the next row.
ghost use Rattle.std.specs.Prelude.{◌≡◌, ◌<◌, length, map, Some, IfSome, MatchOption, if◌then◌else◌};
ghost use Rattle.std.specs.List.{AllByRecursion};
ghost use Rattle.std.specs.Option.{option_map};
ghost use Rattle.entry_model.specs.Entries.{Entry, IsEntry, entry_of};
ghost use Rattle.merge_rows.specs.Choosing.{IsLeastAt, IsNone, head_in, heads_of, least_from, with_head};
ghost use Rattle.merge_rows.specs.Leads.{key_at_hand};
ghost use Rattle.merge_rows.specs.Merges.{TableWalk};

use crate::memory_source::MemorySource;
use crate::table_source::TableSource;

/// One of the sources of a merge: the memory table, or a walk over a table.
#[derive(Clone, Copy)]
pub(crate) enum Source {
    Memory,
    Table(usize),
}

impl Source {
    ghost use Rattle.merge_rows.specs.SourcePlaces.{IsSourceIn, head_at, place_in};

    /// The first of the sources whose entry at hand has the least key: the memory is before the walks.
    ///
    /// A comparison with each. No memory.
    #[inline(always)]
    pub(crate) fn first(memory: &MemorySource<'_>, walks: &[TableSource]) -> Option<Source>
        ensures least { MatchOption result (AllByRecursion IsNone (heads_of memory.now walks.now)) (λ source. (e : Entry) × (head_at source memory.now walks.now ≡ Some e) × IsLeastAt (heads_of memory.now walks.now) (place_in source) e) }
        ensures there { IfSome result (λ source. IsSourceIn source walks.now) }
    {
        match (memory.entry(), least_walk(walks)) {
            (Some((key, _)), Some(at)) => {
                if walks[at].is_before_key(key) {
                    Some(Source::Table(at))
                } else {
                    Some(Source::Memory)
                }
            }
            (Some(_), None) => Some(Source::Memory),
            (None, Some(at)) => Some(Source::Table(at)),
            (None, None) => None,
        }
    }

    /// The key and the value of the entry at hand there, `None` for a tombstone's value.
    pub(crate) fn entry<'m, 'r>(
        self,
        memory: &'r MemorySource<'m>,
        walks: &'r [TableSource],
    ) -> Option<(&'r [u8], Option<&'r [u8]>)>
        requires { IsSourceIn self walks.now }
        ensures now { option_map (λ found. entry_of found.0.now (option_map (λ v. v.now) found.1)) result ≡ head_at self memory.now walks.now }
        ensures sound { IfSome result (λ found. IsEntry (entry_of found.0.now (option_map (λ v. v.now) found.1))) }
    {
        match self {
            Source::Memory => memory.entry(),
            Source::Table(at) => walks[at].entry(),
        }
    }
}

// The first of the walks whose entry at hand has the least key.
fn least_walk(walks: &[TableSource]) -> Option<usize>
    ensures least { option_map (λ at. (at, key_at_hand (head_in walks.now at))) result ≡ least_from 0 (map (λ (w : TableWalk). w.walk.now) walks.now) }
    ensures there { IfSome result (λ at. at < length walks.now) }
{
    let mut least = None;
    for i in (0..walks.len()).rev() {
        least = nearer(walks, i, least);
    }
    least
}

// The one of two walks whose key is less, the first where both have it; and the other where the first has no entry at hand.
fn nearer(walks: &[TableSource], newer: usize, older: Option<usize>) -> Option<usize>
    requires newer { newer < length walks.now }
    requires older { IfSome older (λ at. at < length walks.now) }
    ensures nearer { option_map (λ at. (at, key_at_hand (head_in walks.now at))) result ≡ with_head newer (head_in walks.now newer) (option_map (λ at. (at, key_at_hand (head_in walks.now at))) older) }
    ensures there { IfSome result (λ at. at < length walks.now) }
{
    if !walks[newer].has_entry() {
        return older;
    }
    match older {
        Some(at) => Some(one_of(walks[at].is_before(&walks[newer]), at, newer)),
        None => Some(newer),
    }
}

// One of two places. Each is as likely as the other: who picks one without a jump guesses none.
fn one_of(first: bool, one: usize, other: usize) -> usize
    ensures { result ≡ (if first then one else other) }
{
    if first { one } else { other }
}
