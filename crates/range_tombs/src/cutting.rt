//! Ranges as copies: all of them, or those below a key and from it on.
ghost use Rattle.std.specs.Prelude.{◌≡◌, [], ◌∷◌, ◌++◌, IfOk, OnOk};
ghost use Rattle.range_model.specs.Ranges.{ranges_below, ranges_from};

use crate::range::{DeletedRange, comes_before};
use std::alloc::{AllocError, Global};

// Copies of all of them.
pub(crate) fn copied(
    alloc: Global,
    ranges: &[DeletedRange],
) -> Result<Vec<DeletedRange>, AllocError>
    ensures { IfOk result (λ list. list.items ≡ ranges.now) }
{
    let mut list = Vec::new(alloc);
    for range in ranges {
        let copy = DeletedRange::new(alloc, range.lo(), range.hi())?;
        list.push(copy)?;
    }
    Ok(list)
}

// What of them lies below a key.
pub(crate) fn below(
    alloc: Global,
    ranges: &[DeletedRange],
    at: &[u8],
) -> Result<Vec<DeletedRange>, AllocError>
    ensures { IfOk result (λ list. list.items ≡ ranges_below ranges.now at.now) }
{
    let mut list = Vec::new(alloc);
    for range in ranges {
        push_below(alloc, &mut list, range, at)?;
    }
    Ok(list)
}

// Appends what of a range lies below a key.
fn push_below(
    alloc: Global,
    list: &mut Vec<DeletedRange>,
    range: &DeletedRange,
    at: &[u8],
) -> Result<(), AllocError>
    ensures { OnOk result (list.new.items ≡ list.old.items ++ ranges_below (range.now ∷ []) at.now) }
{
    if comes_before(range.lo(), at) {
        let hi = if comes_before(at, range.hi()) {
            at
        } else {
            range.hi()
        };
        let part = DeletedRange::new(alloc, range.lo(), hi)?;
        list.push(part)?;
    }
    Ok(())
}

// What of them lies from a key on.
pub(crate) fn from(
    alloc: Global,
    ranges: &[DeletedRange],
    at: &[u8],
) -> Result<Vec<DeletedRange>, AllocError>
    ensures { IfOk result (λ list. list.items ≡ ranges_from ranges.now at.now) }
{
    let mut list = Vec::new(alloc);
    for range in ranges {
        push_from(alloc, &mut list, range, at)?;
    }
    Ok(list)
}

// Appends what of a range lies from a key on.
fn push_from(
    alloc: Global,
    list: &mut Vec<DeletedRange>,
    range: &DeletedRange,
    at: &[u8],
) -> Result<(), AllocError>
    ensures { OnOk result (list.new.items ≡ list.old.items ++ ranges_from (range.now ∷ []) at.now) }
{
    if comes_before(at, range.hi()) {
        let lo = if comes_before(range.lo(), at) {
            at
        } else {
            range.lo()
        };
        let part = DeletedRange::new(alloc, lo, range.hi())?;
        list.push(part)?;
    }
    Ok(())
}
