//! A map that was built is served.
ghost use Rattle.fst_run.specs.Laws.{BuiltMapsAreServed};

use map_file_model::a_body_is_read_again;

/// A device on which a build left a map with 0 is served, by the same pairs.
pub fn built_maps_are_served()
    ensures { BuiltMapsAreServed }
{
    a_body_is_read_again();
}
