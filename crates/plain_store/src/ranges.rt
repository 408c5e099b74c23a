//! Deleted ranges: lists of pairs of keys that rise.
ghost use Rattle.std.specs.Prelude.{◌≡◌, ◌∷◌, ◌++◌, IfOk, OnOk};
ghost use Rattle.key_base.specs.ByteOrder.{is_before};
ghost use Rattle.range_model.specs.Ranges as model;
ghost use Rattle.range_model.specs.Reach.{reach};

use crate::keys::{greater, is_before, lesser};
use std::alloc::{AllocError, Global};
use std::marker::Model;

/// The keys from `lo` on, and up to `hi` without it.
#[derive(Drop)]
pub struct DeletedRange {
    pub lo: Vec<u8>,
    pub hi: Vec<u8>,
}

impl Model for DeletedRange {
    ghost use Rattle.range_model.specs.Ranges as model;

    ghost Value = { model.DeletedRange };

    ghost view = { λ r. record { lo = r.lo.items; hi = r.hi.items } };
}

impl DeletedRange {
    /// The range of these bounds, as copies.
    pub fn new(alloc: Global, lo: &[u8], hi: &[u8]) -> Result<DeletedRange, AllocError>
        ensures { IfOk result (λ range. range ≡ model.range_of lo.now hi.now) }
    {
        let lo = Vec::from_slice(alloc, lo)?;
        let hi = Vec::from_slice(alloc, hi)?;
        Ok(DeletedRange { lo, hi })
    }

    /// The first key that lies within it.
    pub fn lo(&self) -> &[u8]
        ensures { result.now ≡ self.now.lo }
    {
        self.lo.as_slice()
    }

    /// The key up to which it goes, without it.
    pub fn hi(&self) -> &[u8]
        ensures { result.now ≡ self.now.hi }
    {
        self.hi.as_slice()
    }

    /// The same range again.
    pub fn copy(&self, alloc: Global) -> Result<DeletedRange, AllocError>
        ensures { IfOk result (λ range. range ≡ self.now) }
    {
        DeletedRange::new(alloc, self.lo(), self.hi())
    }

    /// Whether the key lies within it.
    pub(crate) fn covers(&self, key: &[u8]) -> bool
        ensures { result ≡ model.is_covered self.now key.now }
    {
        !is_before(key, self.lo()) && is_before(key, self.hi())
    }

    // One range over both, and over what lies between them.
    fn joined(&self, alloc: Global, other: &DeletedRange) -> Result<DeletedRange, AllocError>
        ensures { IfOk result (λ range. range ≡ model.joined_range self.now other.now) }
    {
        DeletedRange::new(
            alloc,
            lesser(self.lo(), other.lo()),
            greater(self.hi(), other.hi()),
        )
    }
}

/// Appends copies of some ranges.
pub(crate) fn push_ranges(
    ranges: &[DeletedRange],
    list: &mut Vec<DeletedRange>,
) -> Result<(), AllocError>
    ensures { OnOk result (list.new.items ≡ list.old.items ++ ranges.now) }
{
    for range in ranges {
        let copy = range.copy(*list.allocator())?;
        list.push(copy)?;
    }
    Ok(())
}

/// Copies of some ranges.
pub(crate) fn copied_ranges(
    alloc: Global,
    ranges: &[DeletedRange],
) -> Result<Vec<DeletedRange>, AllocError>
    ensures { IfOk result (λ list. list.items ≡ ranges.now) }
{
    let mut list = Vec::new(alloc);
    push_ranges(ranges, &mut list)?;
    Ok(list)
}

// A range before some others.
fn with_first(
    range: DeletedRange,
    later: Vec<DeletedRange>,
) -> Result<Vec<DeletedRange>, AllocError>
    ensures { IfOk result (λ list. list.items ≡ range ∷ later.items) }
{
    let mut list = later;
    list.insert(0, range)?;
    Ok(list)
}

/// Whether the key lies within one of them.
pub(crate) fn covers(ranges: &[DeletedRange], key: &[u8]) -> bool
    ensures { result ≡ model.covers ranges.now key.now }
{
    let Some((range, later)) = ranges.split_first() else {
        return false;
    };
    range.covers(key) || covers(later, key)
}

/// Ranges that rise, with one more: it is joined with those that it meets or touches.
pub(crate) fn with_range(
    alloc: Global,
    ranges: &[DeletedRange],
    new: &DeletedRange,
) -> Result<Vec<DeletedRange>, AllocError>
    ensures { IfOk result (λ list. list.items ≡ model.with_range ranges.now new.now) }
{
    let Some((range, later)) = ranges.split_first() else {
        let copy = new.copy(alloc)?;
        return with_first(copy, Vec::new(alloc));
    };
    if is_before(range.hi(), new.lo()) {
        let rest = with_range(alloc, later, new)?;
        let copy = range.copy(alloc)?;
        return with_first(copy, rest);
    }
    if is_before(new.hi(), range.lo()) {
        let rest = copied_ranges(alloc, ranges)?;
        let copy = new.copy(alloc)?;
        return with_first(copy, rest);
    }
    let joined = range.joined(alloc, new)?;
    with_range(alloc, later, &joined)
}

/// What of them lies below a key.
pub(crate) fn ranges_below(
    alloc: Global,
    ranges: &[DeletedRange],
    at: &[u8],
) -> Result<Vec<DeletedRange>, AllocError>
    ensures { IfOk result (λ list. list.items ≡ model.ranges_below ranges.now at.now) }
{
    let Some((range, later)) = ranges.split_first() else {
        return Ok(Vec::new(alloc));
    };
    let rest = ranges_below(alloc, later, at)?;
    if !is_before(range.lo(), at) {
        return Ok(rest);
    }
    let part = DeletedRange::new(alloc, range.lo(), lesser(range.hi(), at))?;
    with_first(part, rest)
}

/// What of them lies from a key on.
pub(crate) fn ranges_from(
    alloc: Global,
    ranges: &[DeletedRange],
    at: &[u8],
) -> Result<Vec<DeletedRange>, AllocError>
    ensures { IfOk result (λ list. list.items ≡ model.ranges_from ranges.now at.now) }
{
    let Some((range, later)) = ranges.split_first() else {
        return Ok(Vec::new(alloc));
    };
    let rest = ranges_from(alloc, later, at)?;
    if !is_before(at, range.hi()) {
        return Ok(rest);
    }
    let part = DeletedRange::new(alloc, greater(range.lo(), at), range.hi())?;
    with_first(part, rest)
}

/// The end of the last range, no bytes where there is none.
pub(crate) fn reach(ranges: &[DeletedRange]) -> &[u8]
    ensures { result.now ≡ reach ranges.now }
{
    let Some((range, later)) = ranges.split_first() else {
        return &[];
    };
    let Some(_) = later.split_first() else {
        return range.hi();
    };
    reach(later)
}
