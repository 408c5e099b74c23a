//! The definitions, shown by examples. Each computes.
ghost use Rattle.std.specs.Prelude.{◌≡◌, [], ◌∷◌, None, Some, codes};
ghost use Rattle.late_rows.specs.Examples.{three_walks, until_c, walk_of};
ghost use Rattle.late_rows.specs.Late.{awake_of, waking_at, walk_in};

/// Three walks, of which the second sleeps.
#[tactic(auto)]
pub fn one_of_three_sleeps()
    ensures awake { awake_of until_c three_walks ≡ walk_of 2 ∷ walk_of 0 ∷ [] }
    ensures its_key { waking_at until_c 1 ≡ Some (codes "c") }
    ensures others_have_none { waking_at until_c 2 ≡ None }
    ensures its_walk { walk_in three_walks 1 ≡ walk_of 1 }
    ensures all_awake { awake_of (None ∷ None ∷ None ∷ []) three_walks ≡ three_walks }
{}
