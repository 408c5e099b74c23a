//! A range of keys that is deleted, as a log keeps it.
ghost use Rattle.std.specs.Prelude.{◌≡◌, IfOk};
ghost use Rattle.range_model.specs.Ranges as model;

use std::alloc::{AllocError, Global};
use std::boxed::BoxedSlice;
use std::marker::Model;

/// The keys from `lo` on, and up to `hi` without it.
#[derive(Drop)]
pub struct DeletedRange {
    lo: BoxedSlice<u8>,
    hi: BoxedSlice<u8>,
}

impl Model for DeletedRange {
    ghost use Rattle.std.specs.Box.{boxed_slice_items};
    ghost use Rattle.range_model.specs.Ranges as model;

    ghost Value = { model.DeletedRange };

    ghost view = { λ r. record { lo = boxed_slice_items r.lo; hi = boxed_slice_items r.hi } };
}

impl DeletedRange {
    /// A copy of the bounds. It takes their bytes of memory.
    pub fn new(alloc: Global, lo: &[u8], hi: &[u8]) -> Result<DeletedRange, AllocError>
        ensures { IfOk result (λ range. range ≡ model.range_of lo.now hi.now) }
    {
        let lo = BoxedSlice::from_slice(alloc, lo)?;
        let hi = BoxedSlice::from_slice(alloc, hi)?;
        Ok(DeletedRange { lo, hi })
    }

    /// The first key that lies within it.
    pub fn lo(&self) -> &[u8]
        ensures { result.now ≡ self.now.lo }
    {
        self.lo.as_slice()
    }

    /// The key up to which it goes, without it.
    pub fn hi(&self) -> &[u8]
        ensures { result.now ≡ self.now.hi }
    {
        self.hi.as_slice()
    }
}
