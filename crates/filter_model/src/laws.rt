//! Laws of the definitions. They are proved and never called.
ghost use Rattle.filter_model.specs.Laws.{FirstDifferenceIsExact, LeastStringsFit, LeavesAreValid, NodesAreThePrefixes, NodesBranch, NodesStandInOrder, NoHeldRangeIsDenied, NoKeyBeforeLeast, NoKeyIsDenied, NothingBeforeFirst, PastIsBelow, RangedByFirst, RangeIsExact, SeeksAreNear, TallyIsNear, ValidListsAreLeafLists, ValidListsComeOfKeys};

/// A range answers yes exactly where some byte string in it fits a leaf, hash bits apart.
pub fn range_is_exact()
    ensures { RangeIsExact }
{}

/// Neither a stored key nor a range that holds one is denied.
pub fn nothing_held_is_denied()
    ensures keys { NoKeyIsDenied }
    ensures ranges { NoHeldRangeIsDenied }
{}

/// A tally is never below the true count, and at most two above it.
pub fn tally_is_near()
    ensures { TallyIsNear }
{}

/// Where a seek of `lo` answers the leaf of number n, n keys are below `lo`, or n + 1; where it answers none, all are. No
/// key from `lo` on comes before the least string of the answered leaf, and a range from `lo` to `hi` holds a leaf exactly
/// where that string is not above `hi`.
pub fn seeks_are_near()
    ensures keys { SeeksAreNear }
    ensures before { NothingBeforeFirst }
    ensures ranges { RangedByFirst }
{}

/// A leaf of a valid list begins with the least byte string that fits it, and no key comes before that of its leaf.
pub fn least_strings_fit()
    ensures leaves { LeastStringsFit }
    ensures keys { NoKeyBeforeLeast }
{}

/// A leaf is past a string exactly where each byte string that fits it is below that string.
pub fn past_is_below()
    ensures { PastIsBelow }
{}

/// The leaves of a list of keys are a valid leaf list, and each is a branch of a node of two branches or more.
pub fn leaves_are_valid()
    ensures valid { LeavesAreValid }
    ensures branches { NodesBranch }
{}

/// A valid leaf list is a leaf list: what a trie has is known of it.
pub fn valid_lists_are_leaf_lists()
    ensures { ValidListsAreLeafLists }
{}

/// The nodes are the prefixes that some stub properly extends or some leaf ends with, by length and then in byte order.
pub fn nodes_are_the_prefixes()
    ensures prefixes { NodesAreThePrefixes }
    ensures order { NodesStandInOrder }
{}

/// Each valid leaf list without hash bits, whose least strings are no longer than a key may be, is the leaves of some keys:
/// of these least strings.
pub fn valid_lists_come_of_keys()
    ensures { ValidListsComeOfKeys }
{}

/// Two lists of leaves are one where they have no first difference. Else its number is at most both lengths, the lists
/// agree before it, and there they differ, or one of them ends.
pub fn first_difference_is_exact()
    ensures { FirstDifferenceIsExact }
{}
