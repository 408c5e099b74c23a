//! A cache of blocks against the order in which they were kept.
use crate::asserts::{check_same, check_that};
use crate::made::boxed;
use block_cache::{BlockCache, MOST_BLOCKS};
use std::alloc::Global;
use std::boxed::BoxedSlice;
use std::test::Fail;

fn first_byte(cache: &mut BlockCache, table: u64, block: u32) -> Option<u8> {
    match cache.get(table, block) {
        Some(bytes) => bytes.first().copied(),
        None => None,
    }
}

fn keep(
    alloc: Global,
    cache: &mut BlockCache,
    table: u64,
    block: u32,
    byte: u8,
) -> Result<(), Fail> {
    let bytes = BoxedSlice::from_slice(alloc, &[byte; 8])?;
    match cache.keep(table, block, bytes) {
        Ok(()) => Ok(()),
        Err(_) => Err(Fail::from("a keep was refused")),
    }
}

#[test]
fn a_block_is_given_to_its_own_numbers_alone(rt: HostRuntime) -> Result<(), Fail> {
    let mut cache = boxed(rt.alloc(), BlockCache::new(rt.alloc())?)?;
    check_that(&rt, cache.is_empty() && cache.newest().is_none());
    let rows = [
        (1, 2, 12),
        (2, 1, 21),
        (u64::MAX - 1, u32::MAX, 99),
        (1, 2, 4),
    ];
    for (table, block, byte) in rows {
        keep(rt.alloc(), &mut cache, table, block, byte)?;
    }
    check_same(&rt, &cache.len(), &3);
    let wanted = [
        (1, 2, Some(4)),
        (2, 1, Some(21)),
        (u64::MAX - 1, u32::MAX, Some(99)),
        (1, 1, None),
        (3, 2, None),
    ];
    for (table, block, byte) in wanted {
        check_same(&rt, &first_byte(&mut cache, table, block), &byte);
    }
    check_that(&rt, cache.bring_first(2, 1));
    check_that(&rt, matches!(cache.newest(), Some([21, ..])));
    Ok(())
}

#[test]
fn the_block_that_was_asked_for_longest_ago_goes(rt: HostRuntime) -> Result<(), Fail> {
    let mut cache = boxed(rt.alloc(), BlockCache::new(rt.alloc())?)?;
    for number in 0..64u8 {
        keep(rt.alloc(), &mut cache, 7, u32::from(number), number)?;
    }
    check_same(&rt, &first_byte(&mut cache, 7, 0), &Some(0));
    keep(rt.alloc(), &mut cache, 8, 0, 64)?;
    check_same(&rt, &cache.len(), &MOST_BLOCKS);
    for (table, block, byte) in [
        (7, 1, None),
        (7, 0, Some(0)),
        (7, 2, Some(2)),
        (8, 0, Some(64)),
    ] {
        check_same(&rt, &first_byte(&mut cache, table, block), &byte);
    }
    Ok(())
}
