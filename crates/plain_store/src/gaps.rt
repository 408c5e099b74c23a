//! Where there is room for a table.
ghost use Rattle.std.specs.Prelude.{◌≡◌, ◌+◌, ◌<◌, ◌^◌, All, map, IfOk};
ghost use Rattle.std.specs.List.{list_any};
ghost use Rattle.extent_model.specs.Gaps as model;

use key_base::FIRST_TABLE_PAGE;
use std::alloc::{AllocError, Global};

/// An extent: its first page, and how many pages it has.
pub type Extent = (u64, u64);

fn has_page(extent: &Extent, page: u64) -> bool
    ensures { result ≡ model.has_page page extent.now }
{
    extent.0 <= page && page - extent.0 < extent.1
}

fn is_taken(extents: &[Extent], page: u64) -> bool
    ensures { result ≡ list_any (model.has_page page) extents.now }
{
    extents.iter().any(|extent| has_page(extent, page))
}

// The first page of the next extent, or the end of the device.
fn next_taken(pages: u64, extents: &[Extent], page: u64) -> u64
    ensures { result ≡ model.next_taken pages extents.now page }
{
    extents
        .iter()
        .filter(|extent| page <= extent.0)
        .map(|extent| extent.0)
        .fold(pages, |least, first| least.min(first))
}

// How many pages are free from this page on.
fn room_at(pages: u64, extents: &[Extent], page: u64) -> u64
    ensures { result ≡ model.room_at pages extents.now page }
{
    if is_taken(extents, page) {
        0
    } else {
        next_taken(pages, extents, page).saturating_sub(page)
    }
}

// The pages at which a gap may begin: the first one that a table may have, and those after extents.
fn gap_starts(alloc: Global, extents: &[Extent]) -> Result<Vec<u64>, AllocError>
    ensures { IfOk result (λ starts. starts.items ≡ model.gap_starts extents.now) }
{
    let mut starts = Vec::with_capacity(alloc, extents.len() + 1)?;
    starts.push(u64::from(FIRST_TABLE_PAGE))?;
    for extent in extents {
        starts.push(extent.0.checked_add(extent.1).ok_or(AllocError)?)?;
    }
    Ok(starts)
}

/// The pages of the largest gap.
pub fn largest_gap(alloc: Global, pages: u64, extents: &[Extent]) -> Result<u64, AllocError>
    ensures { IfOk result (λ gap. gap ≡ model.largest_gap pages extents.now) }
{
    let starts = gap_starts(alloc, extents)?;
    Ok(
        starts
            .iter()
            .map(|start| room_at(pages, extents, *start))
            .fold(0, |largest, room| largest.max(room)),
    )
}

fn least(numbers: &[u64]) -> Option<u64>
    ensures { result ≡ model.least numbers.now }
{
    let (first, rest) = numbers.split_first()?;
    Some(rest.iter().fold(*first, |least, n| least.min(*n)))
}

/// The first page of the first gap that holds a given number of pages.
pub fn first_gap(
    alloc: Global,
    pages: u64,
    extents: &[Extent],
    need: u64,
) -> Result<Option<u64>, AllocError>
    ensures { IfOk result (λ gap. gap ≡ model.first_gap pages extents.now need) }
{
    let starts = gap_starts(alloc, extents)?;
    let mut holding = Vec::new(alloc);
    for start in starts.as_slice() {
        if need <= room_at(pages, extents, *start) {
            holding.push(*start)?;
        }
    }
    Ok(least(holding.as_slice()))
}
