//! The laws of gaps; the functions do nothing.
ghost use Rattle.extent_model.specs.Laws.{FirstGapIsFree, GapsAreAll, NoGapLaws, OrderLaws};

/// Law: the first gap is on the device, behind manifest and logs, and apart from all extents.
pub fn first_gap_is_free()
    ensures { FirstGapIsFree }
{}

/// Law: there is no gap for so many pages exactly where the largest has fewer.
pub fn no_gap_laws()
    ensures { NoGapLaws }
{}

/// Law: the first and the largest gap do not hang on the order of the extents.
pub fn order_laws()
    ensures { OrderLaws }
{}

/// Law: free pages are no more than the largest gap has, and the first gap that holds as many begins no later than they.
pub fn gaps_are_all()
    ensures { GapsAreAll }
{}
