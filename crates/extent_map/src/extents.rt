//! The extents that are taken, in the order of their pages.
ghost use Rattle.std.specs.Prelude.{◌≡◌, ◌<◌, ◌≤◌, ◌+◌, ◌↔◌, [], ◌∷◌, length, nat_lt, Some, IfOk, IfErr, OnOk, OnErr, IsErr, IsTrue};
ghost use Rattle.std.specs.List.{AllByRecursion, Contains};
ghost use Rattle.std.specs.List.Sorted.{IsPartitionPoint, IsPermutation};
ghost use Rattle.extent_model.specs.Extents.{AreApart, AreLaid, IsOnDevice};
ghost use Rattle.extent_model.specs.Gaps.{first_gap, largest_gap};
ghost use Rattle.key_base.specs.Limits.{first_table_page, max_device_pages, min_device_pages};
ghost use Rattle.extent_map.specs.Taken.{RiseFrom, end_before, first_at};

use key_base::FIRST_TABLE_PAGE;
use std::alloc::{AllocError, Global};
use std::marker::Model;

/// No gap holds so many pages.
#[derive(Clone, Copy, Debug, PartialEq, Eq)]
pub struct NoGap {
    /// The pages that were asked for.
    pub need: u64,
    /// The pages of the largest gap.
    pub largest: u64,
}

// The first page, and how many pages.
type Extent = (u32, u32);

/// The extents that are taken of a device. No two of them meet.
#[derive(Drop)]
pub struct Extents {
    pages: u32,
    items: Vec<Extent>,
}

impl Model for Extents {
    ghost use Rattle.std.specs.Prelude.{◌≤◌};
    ghost use Rattle.key_base.specs.Limits.{first_table_page, max_device_pages};
    ghost use Rattle.extent_map.specs.Taken.{RiseFrom, Taken};

    ghost Value = { Taken };

    ghost view = { λ e. record { pages = e.pages; extents = e.items.items } };

    ghost invariant = { λ e. (e.pages ≤ max_device_pages) × RiseFrom e.pages first_table_page e.items.items };
}

impl Extents {
    /// No extent, on a device of so many pages. Takes no memory.
    pub fn new(alloc: Global, pages: u32) -> Self
        requires from { min_device_pages ≤ pages }
        requires to { pages ≤ max_device_pages }
        ensures { result ≡ record { pages = pages; extents = [] } }
    {
        Extents {
            pages,
            items: Vec::new(alloc),
        }
    }

    /// Whether these pages, one or more, are free: behind manifest and logs, on the device, and apart from all extents.
    ///
    /// Looks at the extents before and behind them alone, which are found by their order.
    pub fn is_free(&self, first: u32, pages: u32) -> bool
        requires { 0 < pages }
        ensures { IsTrue result ↔ (IsOnDevice self.now.pages (first, pages) × AllByRecursion (AreApart (first, pages)) self.now.extents) }
    {
        let place = self.place_of(first);
        let end = u64::from(first) + u64::from(pages);
        self.free_from(place) <= first && end <= u64::from(self.free_to(place))
    }

    /// Takes these pages: they are free, behind manifest and logs, and on the device. After an `Err` nothing has changed.
    pub fn add(&mut self, first: u32, pages: u32) -> Result<(), AllocError>
        requires on_device { IsOnDevice self.old.pages (first, pages) }
        requires free { AllByRecursion (AreApart (first, pages)) self.old.extents }
        ensures added { OnOk result (IsPermutation ((first, pages) ∷ self.old.extents) self.new.extents) }
        ensures pages { self.new.pages ≡ self.old.pages }
        ensures unchanged { OnErr result (self.new ≡ self.old) }
    {
        let place = self.place_of(first);
        self.items.insert(place, (first, pages))?;
        Ok(())
    }

    /// Gives these pages back, which are an extent of the list. Takes no memory.
    pub fn remove(&mut self, first: u32, pages: u32)
        requires { Contains self.old.extents (first, pages) }
        ensures removed { IsPermutation self.old.extents ((first, pages) ∷ self.new.extents) }
        ensures pages { self.new.pages ≡ self.old.pages }
    {
        let place = self.place_of(first);
        self.items.remove(place);
    }

    /// The first page of the first gap that holds so many pages; else how many the largest gap has. One pass, and no memory.
    ///
    /// Where one or more are asked for, they are free: they may be [added](Extents::add).
    pub fn gap(&self, need: u64) -> Result<u32, NoGap>
        ensures gap { IfOk result (λ page. first_gap self.now.pages self.now.extents need ≡ Some page) }
        ensures within { IfOk result (λ page. 0 < need → page + need ≤ max_device_pages) }
        ensures free { IfOk result (λ page. 0 < need → IsOnDevice self.now.pages (page, need) × AllByRecursion (AreApart (page, need)) self.now.extents) }
        ensures no_gap { IfErr result (λ fault. fault ≡ record { need = need; largest = largest_gap self.now.pages self.now.extents }) }
        ensures exact { IsErr result ↔ (largest_gap self.now.pages self.now.extents < need) }
    {
        let mut free = FIRST_TABLE_PAGE;
        let mut largest = 0;
        for &(first, pages) in &self.items {
            let room = u64::from(first - free);
            if room >= need {
                return Ok(free);
            }
            largest = room.max(largest);
            free = first + pages;
        }
        let room = u64::from(self.pages - free);
        if room < need {
            let largest = room.max(largest);
            return Err(NoGap { need, largest });
        }
        Ok(free)
    }

    /// The extents, each a first page and how many pages, in the order of the pages.
    pub fn as_slice(&self) -> &[(u32, u32)]
        ensures extents { result.now ≡ self.now.extents }
        ensures laid { AreLaid self.now.pages self.now.extents }
    {
        self.items.as_slice()
    }

    // The page behind the extents before a place.
    fn free_from(&self, place: usize) -> u32
        requires { place ≤ length self.now.extents }
        ensures { result ≡ end_before first_table_page self.now.extents place }
    {
        if place == 0 {
            return FIRST_TABLE_PAGE;
        }
        let (first, pages) = self.items[place - 1];
        first + pages
    }

    // The first page of the extent at a place, or the device's end.
    fn free_to(&self, place: usize) -> u32
        ensures { result ≡ first_at self.now.pages self.now.extents place }
    {
        match self.items.as_slice().get(place) {
            Some(extent) => extent.0,
            None => self.pages,
        }
    }

    // How many extents begin before a page.
    fn place_of(&self, first: u32) -> usize
        ensures within { result ≤ length self.now.extents }
        ensures rise { RiseFrom self.now.pages first_table_page self.now.extents }
        ensures place { IsPartitionPoint (λ e. e.0 < first) (λ e. first ≤ e.0) self.now.extents result }
    {
        self.items.as_slice().partition_point(
            |extent: &Extent| -> bool
                ensures { result ≡ nat_lt extent.now.0 first }
            { extent.0 < first },
        )
    }
}
