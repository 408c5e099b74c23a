//! Which tables are merged next.
ghost use Rattle.std.specs.Prelude.{◌≤◌, length};

use crate::asserts::check_that;
use crate::made::{Named, tables_of};
use disk_mem::MemDisk;
use key_base::MAX_TABLES;
use level_merge::choose;
use std::alloc::Global;
use std::test::Fail;

// Whether this is chosen of the tables that are named: the numbers of some, and the level of what they become.
fn chooses(alloc: Global, all: &[Named], want: Option<(&[u32], u8)>) -> Result<bool, Fail> {
    let mut disk = MemDisk::new(alloc, b"")?;
    let tables = tables_of(alloc, &mut disk, all)?;
    if tables.len() > MAX_TABLES {
        return Err(Fail::from("too many"));
    }
    let found = choose(alloc, &tables)?;
    let said = match &found {
        Some(plan) => Some((plan.inputs.as_slice(), plan.output)),
        None => None,
    };
    Ok(said == want)
}

const NEWEST: [Named; 4] = [
    (0, b"d", b"m", 1),
    (0, b"c", b"c", 1),
    (0, b"b", b"b", 1),
    (0, b"a", b"b", 1),
];

#[test]
fn four_tables_of_level_0_are_merged_and_three_are_not(rt: HostRuntime) -> Result<(), Fail> {
    let alloc = rt.alloc();
    check_that(&rt, chooses(alloc, &[], None)?);
    check_that(&rt, chooses(alloc, &NEWEST[..3], None)?);
    check_that(&rt, chooses(alloc, &NEWEST, Some((&[3, 2, 1, 0], 1)))?);
    Ok(())
}

#[test]
fn those_of_level_1_that_they_meet_are_merged_with_them(rt: HostRuntime) -> Result<(), Fail> {
    let alloc = rt.alloc();
    let mut all: [Named; 8] = [(2, b"a", b"z", 1); 8];
    for i in 0..4 {
        all[i] = NEWEST[i];
    }
    all[4] = (1, b"A", b"Z", 1);
    all[5] = (1, b"`", b"a", 1);
    all[6] = (1, b"m", b"m", 1);
    check_that(&rt, chooses(alloc, &all, Some((&[7, 6, 5, 4, 2, 1], 1)))?);
    all[6] = (1, b"n", b"z", 1);
    check_that(&rt, chooses(alloc, &all, Some((&[7, 6, 5, 4, 2], 1)))?);
    Ok(())
}

// Tables of level 1, each of a value of 65,536 bytes: 17 pages of blocks, and one each of index and filter.
const FULL: [Named; 16] = [
    (1, b"a", b"az", 65_536),
    (1, b"b", b"b", 65_536),
    (1, b"c", b"c", 65_536),
    (1, b"d", b"d", 65_536),
    (1, b"e", b"e", 65_536),
    (1, b"f", b"f", 65_536),
    (1, b"g", b"g", 65_536),
    (1, b"h", b"h", 65_536),
    (1, b"i", b"i", 65_536),
    (1, b"j", b"j", 65_536),
    (1, b"k", b"k", 65_536),
    (1, b"l", b"l", 65_536),
    (1, b"m", b"m", 65_536),
    (2, b"a", b"aa", 65_536),
    (2, b"az", b"b", 65_536),
    (2, b"c", b"z", 65_536),
];

#[test]
fn the_first_table_of_a_level_over_its_limit_is_merged(rt: HostRuntime) -> Result<(), Fail> {
    let alloc = rt.alloc();
    // 13 tables of 19 pages or 20 are 247 or 248 pages, and 256 are not too many
    check_that(&rt, chooses(alloc, &FULL, None)?);
    let mut over = FULL;
    over[13] = (1, b"n", b"n", 65_536);
    check_that(&rt, chooses(alloc, &over, Some((&[15, 1], 2)))?);
    over[13] = (1, b"n", b"n", 1);
    check_that(&rt, chooses(alloc, &over, None)?);
    Ok(())
}

#[test]
fn a_level_of_exactly_256_pages_is_left(rt: HostRuntime) -> Result<(), Fail> {
    let alloc = rt.alloc();
    // 248 pages, and one table more: of 6 pages of blocks, one of index and one of filter; and then of one page more
    let mut all = FULL;
    all[13] = (1, b"n", b"n", 20_480);
    check_that(&rt, chooses(alloc, &all, None)?);
    all[13] = (1, b"n", b"n", 24_576);
    check_that(&rt, chooses(alloc, &all, Some((&[15, 1], 2)))?);
    Ok(())
}
