//! Laws of the steps of a load, and of its summary.
ghost use Rattle.load_gen.specs.Laws.{StepLaws, SummaryLaws};

/// Law: as many steps as are asked for, fewer are the first of more, and each is an entry that a store may have.
pub fn step_laws()
    ensures { StepLaws }
{}

/// Law: a summary tells the number of pairs, and the sum of their values' numbers modulo 2^64.
pub fn summary_laws()
    ensures { SummaryLaws }
{}
