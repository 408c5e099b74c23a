//! The laws of maps; the functions do nothing.
ghost use Rattle.map_model.specs.Laws.{PutLaws, DelLaws, SliceLaws, SeekLaws, CountLaws};

/// Law: `get` after `put` gives the value at its key and what was there at every other, and keys keep rising.
pub fn put_laws()
    ensures { PutLaws }
{}

/// Law: `get` after `del` gives nothing at its key and what was there at every other, and keys keep rising.
pub fn del_laws()
    ensures { DelLaws }
{}

/// Law: what lies between two keys is the map cut to them, in its order, and nothing where the two are crossed.
pub fn slice_laws()
    ensures { SliceLaws }
{}

/// Law: a seek gives the least key between, and nothing exactly where there is none.
pub fn seek_laws()
    ensures { SeekLaws }
{}

/// Law: a count counts what lies between.
pub fn count_laws()
    ensures { CountLaws }
{}
