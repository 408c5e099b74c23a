//! What packed suffixes keep.
ghost use Rattle.suffix_bits.specs.Laws.{SlotBitsReadBack, SuffixesReadBack};

/// Suffixes and their bits read back from each other.
pub fn suffix_laws()
    ensures suffixes { SuffixesReadBack }
    ensures bits { SlotBitsReadBack }
{}
