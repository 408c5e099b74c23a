//! The laws of logs; the functions do nothing.
ghost use Rattle.log_model.specs.Laws.{OneReading, SpellsOrBreaks, IsKeptElsewhere};

/// Law: an area stands for one list of changes, or breaks one rule first, one of the two and never both; and what is
/// written apart from the area changes nothing in it.
pub fn log_laws()
    ensures reading { OneReading }
    ensures one_of_two { SpellsOrBreaks }
    ensures elsewhere { IsKeptElsewhere }
{}
