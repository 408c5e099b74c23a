//! Laws of the reading. They are proved and never called.
ghost use Rattle.map_file_model.specs.Laws.{BodiesAreDecided, BodyHasOneMap, BodyIsReadAgain, BodyWasWrittenSo, ValuesStandBySlots};

/// Where no rule is broken, what is read is a map, and the bytes are its body.
pub fn a_body_was_written_so()
    ensures { BodyWasWrittenSo }
{}

/// The body of a map, with any cutoff from 0 to the height of its trie, breaks no rule and is read as that map. So of any bytes
/// it can be told whether they are a body.
pub fn a_body_is_read_again()
    ensures law { BodyIsReadAgain }
    ensures decided { BodiesAreDecided }
{}

/// No two maps have one body, and one map has it by one cutoff.
pub fn a_body_has_one_map()
    ensures { BodyHasOneMap }
{}

/// Of a body that breaks no rule the trie is that of the map's keys, and the key of each slot has the value that stands there.
/// A walk down the trie comes to a slot; so this is how a key is looked up.
pub fn values_stand_by_slots()
    ensures { ValuesStandBySlots }
{}
