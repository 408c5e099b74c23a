//! Pages that are taken and given back.
use crate::asserts::check_same;
use extent_map::{Extents, NoGap};
use std::alloc::Global;
use std::test::Fail;

// Takes some pages, where they are free.
fn take(extents: &mut Extents, first: u32, pages: u32) -> Result<(), Fail> {
    if pages == 0 || !extents.is_free(first, pages) {
        return Err(Fail::from("pages that are taken"));
    }
    extents.add(first, pages)?;
    Ok(())
}

fn taken(alloc: Global, rows: &[(u32, u32)]) -> Result<Extents, Fail> {
    let mut extents = Extents::new(alloc, 512);
    for &(first, pages) in rows {
        take(&mut extents, first, pages)?;
    }
    Ok(extents)
}

#[test]
fn the_first_gap_that_holds_so_many(rt: HostRuntime) -> Result<(), Fail> {
    let extents = taken(rt.alloc(), &[(200, 5), (192, 3)])?;
    let rows = [(0, 192), (1, 195), (5, 195), (6, 205), (307, 205)];
    for (need, page) in rows {
        check_same(&rt, &extents.gap(need), &Ok(page));
    }
    let largest = 307;
    check_same(&rt, &extents.gap(308), &Err(NoGap { need: 308, largest }));
    Ok(())
}

#[test]
fn pages_that_are_given_back_are_free(rt: HostRuntime) -> Result<(), Fail> {
    let mut extents = taken(rt.alloc(), &[(192, 300), (500, 12)])?;
    let largest = 8;
    check_same(&rt, &extents.gap(9), &Err(NoGap { need: 9, largest }));
    if extents.as_slice().contains(&(500, 12)) {
        extents.remove(500, 12);
    }
    check_same(&rt, &extents.gap(20), &Ok(492));
    check_same(&rt, &extents.as_slice(), &[(192, 300)].as_slice());
    Ok(())
}
