//! The laws of the entries; the functions do nothing.
ghost use Rattle.entry_model.specs.Laws.{MapLaws, NewestLaws, BodyHasItsLength};

/// Law: the map of some entries has, at each key, what the newest entry of it says, and its keys rise.
pub fn map_laws()
    ensures { MapLaws }
{}

/// Law: the newest entries of some, in the order of writing, are the one list with rising keys that says of each key what
/// its last entry says, and one entry more is set in its place.
pub fn newest_laws()
    ensures { NewestLaws }
{}

/// Law: a body is seven bytes and the key and the value.
pub fn body_has_its_length()
    ensures { BodyHasItsLength }
{}
