//! The definitions, shown by examples. Each computes.
ghost use Rattle.std.specs.Prelude.{◌≡◌, [], ◌∷◌, true, false, codes};
ghost use Rattle.entry_model.specs.Entries.{del_entry, put_entry};
ghost use Rattle.merge_rows.specs.Examples.{deleted_since, put_again};
ghost use Rattle.merge_rows.specs.Rows.{above_floor, clears, merged_rows, rows_shown};

/// A key that was put, flushed and deleted, beside another one.
#[tactic(auto)]
pub fn a_key_is_deleted()
    ensures rows { merged_rows deleted_since ≡ del_entry (codes "a") ∷ put_entry (codes "c") (codes "3") ∷ [] }
    ensures without_tombstones { rows_shown true (merged_rows deleted_since) ≡ put_entry (codes "c") (codes "3") ∷ [] }
{}

/// A key of three sources, and others of one each.
#[tactic(auto)]
pub fn a_key_is_put_again()
    ensures the_newest_of_a_key { merged_rows put_again
        ≡ put_entry (codes "a") (codes "1") ∷ put_entry (codes "ab") (codes "2") ∷ put_entry (codes "b") (codes "3") ∷ put_entry (codes "c") (codes "1") ∷ [] }
    ensures from_a_key { above_floor (record { key = codes "b"; passed = false }) (merged_rows put_again) ≡ put_entry (codes "b") (codes "3") ∷ put_entry (codes "c") (codes "1") ∷ [] }
    ensures above_a_key { above_floor (record { key = codes "b"; passed = true }) (merged_rows put_again) ≡ put_entry (codes "c") (codes "1") ∷ [] }
{}
