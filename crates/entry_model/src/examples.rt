//! The definitions, shown by examples. Each computes.
ghost use Rattle.std.specs.Prelude.{◌≡◌, [], ◌∷◌, Some, None, codes, flat_map};
ghost use Rattle.entry_model.specs.Entries.{entry_of, record_bytes};
ghost use Rattle.entry_model.specs.Examples.{newest_of_each, in_writing};
ghost use Rattle.entry_model.specs.Newest.{newest_entries, lookup, entries_from};
ghost use Rattle.entry_model.specs.Reading.{entry_in};

/// Five entries in the order of writing, and the newest of them.
#[tactic(auto)]
pub fn newest()
    ensures the_last_of_a_key { newest_entries in_writing ≡ newest_of_each }
    ensures a_tombstone_is_an_entry { lookup newest_of_each (codes "ab") ≡ Some None }
    ensures a_key_without_one { lookup newest_of_each (codes "aa") ≡ None }
    ensures from_a_key_that_is_not_there { entries_from newest_of_each (codes "aa") ≡ entry_of (codes "ab") None ∷ entry_of (codes "b") (Some (codes "3")) ∷ [] }
    ensures from_a_key_that_is_there { entries_from newest_of_each (codes "b") ≡ entry_of (codes "b") (Some (codes "3")) ∷ [] }
    ensures from_a_tombstone { entries_from newest_of_each (codes "ab") ≡ entry_of (codes "ab") None ∷ entry_of (codes "b") (Some (codes "3")) ∷ [] }
{}

/// The bytes of records, and what is read of a body.
#[tactic(auto, unfolding(crate::specs::Reading::entry_in, crate::specs::Reading::key_in))]
pub fn bytes()
    ensures a_put_and_a_delete { flat_map record_bytes (entry_of (codes "k") (Some (codes "xyz")) ∷ entry_of (codes "k") None ∷ [])
        ≡ 1 ∷ 1 ∷ 1 ∷ 0 ∷ 3 ∷ 0 ∷ 0 ∷ 0 ∷ 107 ∷ 120 ∷ 121 ∷ 122 ∷ 1 ∷ 2 ∷ 1 ∷ 0 ∷ 0 ∷ 0 ∷ 0 ∷ 0 ∷ 107 ∷ [] }
    ensures a_put_is_read { entry_in (1 ∷ 1 ∷ 0 ∷ 1 ∷ 0 ∷ 0 ∷ 0 ∷ 107 ∷ 120 ∷ 0 ∷ []) ≡ entry_of (codes "k") (Some (codes "x")) }
{}
