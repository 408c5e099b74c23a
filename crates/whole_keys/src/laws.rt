//! Laws of whole keys. They are proved and never called.
ghost use Rattle.whole_keys.specs.Laws.{ListsAreWhole, OneIsRunPast, WholeFits, WholeKeysAreListed, WholeMeets, WholePast, WholeTally};

/// The leaves of a list of keys are a leaf list without bits, whose stubs are the keys.
pub fn whole_keys_are_listed()
    ensures { WholeKeysAreListed }
{}

/// A leaf list without bits has the leaves of its stubs, which are a list of keys. So lists of keys and such leaf lists are
/// one and the same.
pub fn lists_are_whole()
    ensures { ListsAreWhole }
{}

/// What leaves answer is what the keys are, but for a string that runs past a key: it fits that key's leaf, and the leaf
/// meets a range that begins there. At most one key is run past, so that a tally is the number of keys or one more.
pub fn whole_meets()
    ensures point { WholeFits }
    ensures past { WholePast }
    ensures range { WholeMeets }
    ensures one { OneIsRunPast }
    ensures count { WholeTally }
{}
