//! One deleted range, in a list or about to be added to one.
ghost use Rattle.std.specs.Prelude.{◌≡◌, IfOk};
ghost use Rattle.std.specs.Box.{boxed_slice_items};
ghost use Rattle.key_base.specs.ByteOrder.{IsBefore, is_before};
ghost use Rattle.range_model.specs.Ranges.{HasBounds, IsBound, IsDeletedRange, joined_range, range_of, lesser_key, greater_key};

use std::alloc::{AllocError, Global};
use std::boxed::BoxedSlice;
use std::cmp::Ordering;
use std::marker::Model;

// The keys from one bound on, and up to another without it; the bounds are copies.
#[derive(Drop)]
pub(crate) struct DeletedRange {
    lo: BoxedSlice<u8>,
    hi: BoxedSlice<u8>,
}

impl Model for DeletedRange {
    ghost use Rattle.std.specs.Box.{boxed_slice_items};
    ghost use Rattle.range_model.specs.Ranges as model;

    ghost Value = { model.DeletedRange };

    ghost view = { λ r. record { lo = boxed_slice_items r.lo; hi = boxed_slice_items r.hi } };
}

impl DeletedRange {
    // A range of these bounds. Takes two blocks of memory.
    pub(crate) fn new(alloc: Global, lo: &[u8], hi: &[u8]) -> Result<DeletedRange, AllocError>
        ensures { IfOk result (λ range. range ≡ range_of lo.now hi.now) }
    {
        let lo = BoxedSlice::from_slice(alloc, lo)?;
        let hi = BoxedSlice::from_slice(alloc, hi)?;
        Ok(DeletedRange { lo, hi })
    }

    // The first key that lies within it.
    pub(crate) fn lo(&self) -> &[u8]
        ensures { result.now ≡ self.now.lo }
    {
        self.lo.as_slice()
    }

    // The key up to which it goes, without it.
    pub(crate) fn hi(&self) -> &[u8]
        ensures { result.now ≡ self.now.hi }
    {
        self.hi.as_slice()
    }

    // Whether it ends below another one, with room between them.
    pub(crate) fn ends_below(&self, other: &DeletedRange) -> bool
        ensures { result ≡ is_before self.now.hi other.now.lo }
    {
        comes_before(self.hi(), other.lo())
    }

    // One range over both, and over what lies between them.
    pub(crate) fn joined(self, other: DeletedRange) -> DeletedRange
        ensures { result ≡ joined_range self other }
    {
        let DeletedRange { lo, hi } = self;
        let DeletedRange {
            lo: other_lo,
            hi: other_hi,
        } = other;
        DeletedRange {
            lo: lesser(lo, other_lo),
            hi: greater(hi, other_hi),
        }
    }
}

/// A range that [`Ranges::add`](crate::Ranges::add) takes: its lower bound comes before its upper one, and both are keys.
#[derive(Drop)]
pub struct PreparedRange {
    range: DeletedRange,
}

impl Model for PreparedRange {
    ghost use Rattle.range_model.specs.Ranges as model;

    ghost Value = { model.DeletedRange };

    ghost view = { λ p. p.range };

    ghost invariant = { λ p. model.IsDeletedRange p.range × model.HasBounds p.range };
}

impl PreparedRange {
    // A range of these bounds. Takes two blocks of memory.
    pub(crate) fn new(alloc: Global, lo: &[u8], hi: &[u8]) -> Result<PreparedRange, AllocError>
        requires range { IsBefore lo.now hi.now }
        requires lo { IsBound lo.now }
        requires hi { IsBound hi.now }
        ensures { IfOk result (λ range. range ≡ range_of lo.now hi.now) }
    {
        let range = DeletedRange::new(alloc, lo, hi)?;
        Ok(PreparedRange { range })
    }

    /// The first key that lies within it.
    pub fn lo(&self) -> &[u8]
        ensures bound { result.now ≡ self.now.lo }
        ensures range { IsDeletedRange self.now }
    {
        self.range.lo()
    }

    /// The key up to which it goes, without it.
    pub fn hi(&self) -> &[u8]
        ensures { result.now ≡ self.now.hi }
    {
        self.range.hi()
    }

    // The range alone.
    pub(crate) fn into_range(self) -> DeletedRange
        ensures same { result ≡ self }
        ensures range { IsDeletedRange result }
        ensures bounds { HasBounds result }
    {
        self.range
    }
}

// Whether a key comes before another.
pub(crate) fn comes_before(key: &[u8], other: &[u8]) -> bool
    ensures { result ≡ is_before key.now other.now }
{
    key.cmp(other) == Ordering::Less
}

// The lesser of two bounds.
fn lesser(one: BoxedSlice<u8>, other: BoxedSlice<u8>) -> BoxedSlice<u8>
    ensures { boxed_slice_items result ≡ lesser_key (boxed_slice_items one) (boxed_slice_items other) }
{
    if comes_before(other.as_slice(), one.as_slice()) {
        other
    } else {
        one
    }
}

// The greater of two bounds.
fn greater(one: BoxedSlice<u8>, other: BoxedSlice<u8>) -> BoxedSlice<u8>
    ensures { boxed_slice_items result ≡ greater_key (boxed_slice_items one) (boxed_slice_items other) }
{
    if comes_before(one.as_slice(), other.as_slice()) {
        other
    } else {
        one
    }
}
