//! Parts that are changed with their sums made right, so that opening meets no fault of them.
use crate::asserts::check_same;
use crate::bytes::{BLOCK, FILTER, INDEX, change_over, copy, sum_into, write_each};
use crate::checking::{Said, check_finds};
use crate::damage::{places, rule};
use crate::stores::{BASE, Change, ONE, made, made_with};
use byte_fields::Part;
use disk_mem::MemDisk;
use disk_trait::{Disk, DiskFault};
use filter_api::Settings;
use std::alloc::Global;
use std::test::Fail;
use store_check::What;

// Where the bodies of the slots begin.
const BODY_A: u32 = 8;

const BODY_B: u32 = 131_080;

// The first row of slot B: its entries, the length of its filter, and the sums of its index and filter.
const ENTRIES: u64 = 131_164;

const FILTER_LENGTH: u32 = 131_176;

const INDEX_SUM: u32 = 131_184;

const FILTER_SUM: u32 = 131_192;

// Sums the body of slot B with one table anew.
fn sum_one(disk: &mut MemDisk) -> Result<(), DiskFault> {
    sum_into(disk, BODY_B, 128, 131_208)
}

// The filter of another store with one table, with its length and sum in the row, takes the place of this one's, and the row
// has so many entries.
fn graft(to: &mut MemDisk, from: &mut MemDisk, entries: u8) -> Result<(), DiskFault> {
    copy(from, to, 794_624, 4_096)?;
    copy(from, to, FILTER_LENGTH, 8)?;
    copy(from, to, FILTER_SUM, 8)?;
    to.write(ENTRIES, &[entries])?;
    sum_one(to)
}

// The store of one pair with the filter of these keys, and so many entries in its row.
fn grafted(alloc: Global, changes: &[Change<'static>], entries: u8) -> Result<Box<MemDisk>, Fail> {
    let mut disk = made(alloc, &ONE)?;
    let mut other = made(alloc, changes)?;
    graft(&mut disk, &mut other, entries)?;
    Ok(disk)
}

const COUNT: Said = (Part::Index, INDEX, What::WrongCount);

fn leaf(number: u32) -> Said {
    (Part::Filter, FILTER, What::WrongLeaf { number })
}

const BOTH: [Change<'static>; 3] = [
    Change::Put(b"a", b"b"),
    Change::Put(b"b", b"b"),
    Change::Flush,
];

#[test]
fn a_filter_of_another_key(rt: HostRuntime) -> Result<(), Fail> {
    let alloc = rt.alloc();
    let other = [Change::Put(b"b", b"b"), Change::Flush];
    let mut disk = grafted(alloc, &other, 1)?;
    check_finds(&rt, alloc, &mut disk, &[leaf(0)])
}

#[test]
fn a_filter_of_one_key_more(rt: HostRuntime) -> Result<(), Fail> {
    let alloc = rt.alloc();
    let mut disk = grafted(alloc, &BOTH, 1)?;
    check_finds(&rt, alloc, &mut disk, &[rule(Part::Filter, 794_636, 11)])
}

// The second time the filter has as many leaves as the row has entries, and opening meets no fault.
#[test]
fn a_row_of_one_entry_more(rt: HostRuntime) -> Result<(), Fail> {
    let alloc = rt.alloc();
    let mut disk = grafted(alloc, &ONE, 2)?;
    check_finds(
        &rt,
        alloc,
        &mut disk,
        &[COUNT, rule(Part::Filter, 794_636, 11)],
    )?;
    let mut again = grafted(alloc, &BOTH, 2)?;
    check_finds(&rt, alloc, &mut again, &[COUNT, leaf(1)])
}

// The index of a table of two blocks: the sums of its rows, and the bytes of their last keys.
const SECOND_INDEX: u32 = 794_624;

const SUMS: [u32; 2] = [794_639, 794_654];

const LAST_KEYS: [u32; 2] = [794_649, 794_664];

// Sums the index of two blocks anew, and then the body with its row.
fn sum_index(disk: &mut MemDisk) -> Result<(), DiskFault> {
    sum_into(disk, SECOND_INDEX, 41, INDEX_SUM)?;
    sum_one(disk)
}

// Two blocks change places, with their sums in the index.
fn change_blocks_over(disk: &mut MemDisk) -> Result<(), DiskFault> {
    change_over(disk, 786_432, 790_528, 4_096)?;
    change_over(disk, SUMS[0], SUMS[1], 8)?;
    sum_index(disk)
}

// A table of two blocks with two pairs each.
fn two_blocks(alloc: Global) -> Result<Box<MemDisk>, Fail> {
    let value = [7; 2_000];
    let changes = [
        Change::Put(b"a", &value),
        Change::Put(b"b", &value),
        Change::Put(b"c", &value),
        Change::Put(b"d", &value),
        Change::Flush,
    ];
    made(alloc, &changes)
}

fn wrong_keys() -> [Said; 2] {
    [
        (Part::Block, BLOCK, What::WrongKeys),
        (Part::Block, 790_528, What::WrongKeys),
    ]
}

#[test]
fn blocks_in_each_others_place(rt: HostRuntime) -> Result<(), Fail> {
    let alloc = rt.alloc();
    let mut disk = two_blocks(alloc)?;
    check_finds(&rt, alloc, &mut disk, &[])?;
    change_blocks_over(&mut disk)?;
    check_finds(&rt, alloc, &mut disk, &wrong_keys())
}

// Here the second block has the last key that the index says, and is wrong by the block before alone. Where that is damaged,
// nothing is compared with it.
#[test]
fn a_block_after_a_damaged_one(rt: HostRuntime) -> Result<(), Fail> {
    let alloc = rt.alloc();
    let mut disk = two_blocks(alloc)?;
    write_each(&mut disk, &[(LAST_KEYS[0], b'a'), (LAST_KEYS[1], b'b')])?;
    change_blocks_over(&mut disk)?;
    check_finds(&rt, alloc, &mut disk, &wrong_keys())?;
    disk.write(786_440, &[7])?;
    let found = places(alloc, &mut disk)?;
    check_same(&rt, &found.as_slice(), &[(Part::Block, BLOCK)].as_slice());
    Ok(())
}

// The tables of a, of b and of c, the newest first.
const RISING: [Change<'static>; 6] = [
    Change::Put(b"a", b"1"),
    Change::Flush,
    Change::Put(b"b", b"2"),
    Change::Flush,
    Change::Put(b"c", b"3"),
    Change::Flush,
];

#[test]
fn two_tables_of_a_level_that_fall(rt: HostRuntime) -> Result<(), Fail> {
    let alloc = rt.alloc();
    let mut disk = made(alloc, &RISING[..4])?;
    write_each(&mut disk, &[(72, 1), (136, 1)])?;
    sum_into(&mut disk, BODY_A, 192, 200)?;
    check_finds(&rt, alloc, &mut disk, &[rule(Part::Manifest, 136, 12)])
}

// The log is replayed all the same.
#[test]
fn tables_that_fall_and_a_record_of_no_kind(rt: HostRuntime) -> Result<(), Fail> {
    let alloc = rt.alloc();
    let mut disk = made(alloc, &RISING[..5])?;
    write_each(&mut disk, &[(72, 1), (136, 1), (262_145, 7)])?;
    sum_into(&mut disk, BODY_A, 192, 200)?;
    check_finds(
        &rt,
        alloc,
        &mut disk,
        &[rule(Part::Manifest, 136, 12), rule(Part::Log, 262_144, 2)],
    )
}

// Keys of some lengths that share what they begin with, and a table of them.
const WORDS: [Change<'static>; 7] = [
    Change::Put(b"a", b"1"),
    Change::Put(b"abandon", b"2"),
    Change::Put(b"abbey", b"3"),
    Change::Put(b"able", b"4"),
    Change::Put(b"bee", b"5"),
    Change::Put(b"beetle", b"6"),
    Change::Flush,
];

// A filter with another cutoff than the one that is built has the same leaves.
#[test]
fn a_filter_built_for_another_ratio(rt: HostRuntime) -> Result<(), Fail> {
    let alloc = rt.alloc();
    for ratio in [0, 1, 2, 4, 8, 16, 32, 64, 65_535] {
        let mut other = made_with(alloc, Settings { ratio, ..BASE }, &WORDS)?;
        let mut disk = made(alloc, &WORDS)?;
        graft(&mut disk, &mut other, 6)?;
        check_finds(&rt, alloc, &mut disk, &[])?;
    }
    Ok(())
}

// It is said once, of the second.
#[test]
fn three_tables_of_a_level_that_fall(rt: HostRuntime) -> Result<(), Fail> {
    let alloc = rt.alloc();
    let mut disk = made(alloc, &RISING)?;
    write_each(&mut disk, &[(131_144, 1), (131_208, 1), (131_272, 1)])?;
    sum_into(&mut disk, BODY_B, 256, 131_336)?;
    check_finds(&rt, alloc, &mut disk, &[rule(Part::Manifest, 131_208, 12)])
}
