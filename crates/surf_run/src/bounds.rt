//! What a merge slice and an opening may read, shown by examples. Each computes.
ghost use Rattle.std.specs.Prelude.{◌≡◌, [], ◌∷◌};
ghost use Rattle.line_model.specs.Requests.{Del, Get, Put};
ghost use Rattle.state_model.specs.Examples.{key, small_store, store_with, table_at};
ghost use Rattle.surf_run.specs.Dialogue.{slice_bound};
ghost use Rattle.surf_run.specs.ServedOrNot.{opening_bound};

/// The merge slice after a put or a delete reads at most eight blocks; an opening makes at most two reads a table, and
/// seven more.
#[tactic(auto)]
pub fn most_reads()
    ensures after_a_put { slice_bound (Put [] []) ≡ 8 }
    ensures after_a_delete { slice_bound (Del []) ≡ 8 }
    ensures none_after_a_get { slice_bound (Get []) ≡ 0 }
    ensures opening_of_no_table { opening_bound small_store ≡ 7 }
    ensures opening_of_two_tables { opening_bound (store_with (table_at 1 192 3 (key 3) ∷ table_at 1 195 3 (key 5) ∷ [])) ≡ 11 }
{}
