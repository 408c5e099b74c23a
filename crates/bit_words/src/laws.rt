//! What holds of packings at every width.
ghost use Rattle.bit_words.specs.Laws.{BitsReadBack, IsOnly, KeepsCounts, KeepsPlaces, NumberReadsBack, NumbersJoin, PackedReadsBack};

/// Packed bits read back as they were, stand at their places with zero bits behind them, are packed in one way alone,
/// and keep their counts.
pub fn packing_laws()
    ensures read_back { PackedReadsBack }
    ensures places { KeepsPlaces }
    ensures only { IsOnly }
    ensures counts { KeepsCounts }
{}

/// Bits and the number that they spell say the same, and two numbers one after the other are one number.
pub fn number_laws()
    ensures number { NumberReadsBack }
    ensures bits { BitsReadBack }
    ensures join { NumbersJoin }
{}
