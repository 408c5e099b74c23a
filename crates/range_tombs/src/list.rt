//! The list of ranges.
ghost use Rattle.std.specs.Prelude.{◌≡◌, ◌≤◌, ◌<◌, ◌+◌, ◌==◌, ◌++◌, ◌∷◌, true, false, not, [], length, fold, slice_index_or, IfOk, OnOk, OnErr};
ghost use Rattle.std.specs.List.Sorted.{IsPartitionPoint};
ghost use Rattle.key_base.specs.ByteOrder.{IsBefore, is_before};
ghost use Rattle.range_model.specs.Ranges.{AreRanges, IsBound, covers, range_of, with_range, ranges_below, ranges_from};

use crate::adding::{add_all, add_to};
use crate::cutting::{below, copied, from};
use crate::range::{DeletedRange, PreparedRange, comes_before};
use std::alloc::{AllocError, Global};
use std::marker::Model;

/// Ranges that rise and do not touch, each with bounds of 1 to 1,024 bytes.
#[derive(Drop)]
pub struct Ranges {
    list: Vec<DeletedRange>,
}

impl Model for Ranges {
    ghost use Rattle.std.specs.Prelude.{◌≤◌, ◌-◌, vec_capacity, vec_len};
    ghost use Rattle.range_model.specs.Ranges.{AreRanges};
    ghost use Rattle.range_tombs.specs.Lists.{RangeList};

    ghost Value = { RangeList };

    ghost view = { λ r. record { ranges = r.list.items; spare = vec_capacity r.list - vec_len r.list } };

    ghost invariant = { λ r. AreRanges r.list.items × (vec_len r.list ≤ vec_capacity r.list) };
}

impl Ranges {
    /// No range. It takes no memory.
    pub fn new(alloc: Global) -> Ranges
        ensures { result.ranges ≡ [] }
    {
        Ranges {
            list: Vec::new(alloc),
        }
    }

    /// How many ranges there are.
    pub fn len(&self) -> usize
        ensures len { result ≡ length self.now.ranges }
        ensures valid { AreRanges self.now.ranges }
    {
        self.list.len()
    }

    /// Whether there is none.
    pub fn is_empty(&self) -> bool
        ensures { result ≡ (length self.now.ranges == 0) }
    {
        self.list.is_empty()
    }

    /// The bounds of the range number `i`, from 0.
    pub fn get(&self, i: usize) -> (&[u8], &[u8])
        requires { i < length self.now.ranges }
        ensures { range_of result.0.now result.1.now ≡ slice_index_or self.now.ranges i (range_of [] []) }
    {
        let range = &self.list[i];
        (range.lo(), range.hi())
    }

    /// Whether the key lies within one of them. Looks at few of them, by halves, and takes no memory.
    pub fn covers(&self, key: &[u8]) -> bool
        ensures { result ≡ covers self.now.ranges key.now }
    {
        let at = self.first_after(key);
        at < self.list.len() && !comes_before(key, self.list[at].lo())
    }

    // The place of the first range that ends after a key, which alone may cover it.
    fn first_after(&self, key: &[u8]) -> usize
        ensures valid { AreRanges self.now.ranges }
        ensures place { IsPartitionPoint (λ range. is_before key.now range.hi ≡ false) (λ range. is_before key.now range.hi ≡ true) self.now.ranges result }
    {
        self.list.partition_point(
            |range: &DeletedRange| -> bool
                ensures { result ≡ not (is_before key.entry.now range.now.hi) }
            { !comes_before(key, range.hi()) },
        )
    }

    /// Takes all the memory that [`Ranges::add`] needs for a range: copies of its bounds, and a spare place.
    ///
    /// Where that is refused, the ranges are as they were.
    pub fn reserve_for(&mut self, lo: &[u8], hi: &[u8]) -> Result<PreparedRange, AllocError>
        requires range { IsBefore lo.now hi.now }
        requires lo { IsBound lo.now }
        requires hi { IsBound hi.now }
        ensures prepared { IfOk result (λ range. range ≡ range_of lo.now hi.now) }
        ensures spare { OnOk result (1 ≤ self.new.spare) }
        ensures more { self.old.spare ≤ self.new.spare }
        ensures kept { self.new.ranges ≡ self.old.ranges }
        ensures unchanged { OnErr result (self.new ≡ self.old) }
    {
        let range = PreparedRange::new(*self.list.allocator(), lo, hi)?;
        self.list.reserve(1)?;
        Ok(range)
    }

    /// Adds a range, joined with those that it meets or touches. It cannot fail and takes no memory.
    pub fn add(&mut self, range: PreparedRange)
        requires { 1 ≤ self.old.spare }
        ensures added { self.new.ranges ≡ with_range self.old.ranges range }
        ensures room { self.old.spare ≤ self.new.spare + 1 }
    {
        add_to(&mut self.list, range.into_range());
    }

    /// Adds a range that lies above all others, with room between them. Takes memory for copies of its bounds and for its
    /// place; where that is refused, the ranges are as they were.
    pub fn push(&mut self, lo: &[u8], hi: &[u8]) -> Result<(), AllocError>
        requires { AreRanges (self.old.ranges ++ range_of lo.now hi.now ∷ []) }
        ensures added { OnOk result (self.new.ranges ≡ self.old.ranges ++ range_of lo.now hi.now ∷ []) }
        ensures unchanged { OnErr result (self.new.ranges ≡ self.old.ranges) }
    {
        let range = DeletedRange::new(*self.list.allocator(), lo, hi)?;
        self.list.push(range)?;
        Ok(())
    }

    /// All of them, as copies.
    pub fn copied(&self) -> Result<Ranges, AllocError>
        ensures { IfOk result (λ ranges. ranges.ranges ≡ self.now.ranges) }
    {
        let list = copied(*self.list.allocator(), &self.list)?;
        Ok(Ranges { list })
    }

    /// What of them lies below a key, and what lies from it on, as copies.
    pub fn cut(&self, at: &[u8]) -> Result<(Ranges, Ranges), AllocError>
        requires { IsBound at.now }
        ensures below { IfOk result (λ parts. parts.0.ranges ≡ ranges_below self.now.ranges at.now) }
        ensures from { IfOk result (λ parts. parts.1.ranges ≡ ranges_from self.now.ranges at.now) }
    {
        let alloc = *self.list.allocator();
        let below = below(alloc, &self.list, at)?;
        let from = from(alloc, &self.list, at)?;
        Ok((Ranges { list: below }, Ranges { list: from }))
    }

    /// Adds all ranges of another list. Where memory is refused, the ranges are as they were.
    pub fn join(&mut self, other: &Ranges) -> Result<(), AllocError>
        ensures joined { OnOk result (self.new.ranges ≡ fold with_range self.old.ranges other.now.ranges) }
        ensures unchanged { OnErr result (self.new ≡ self.old) }
    {
        let copies = copied(*self.list.allocator(), &other.list)?;
        self.list.reserve(copies.len())?;
        add_all(&mut self.list, copies);
        Ok(())
    }

    /// Takes all ranges away, and keeps the spare places. Takes no memory.
    pub fn clear(&mut self)
        ensures empty { self.new.ranges ≡ [] }
        ensures room { self.old.spare ≤ self.new.spare }
    {
        self.list.clear();
    }
}
