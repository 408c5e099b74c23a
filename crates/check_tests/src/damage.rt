//! Bytes that are changed, with no sum made right: what is found, and in which order.
use crate::asserts::check_same;
use crate::bytes::{BLOCK, FILTER, INDEX, write_each};
use crate::checking::{Said, check_finds, checked};
use crate::stores::{Change, ONE, Succinct, THREE, made};
use byte_fields::Part;
use disk_mem::MemDisk;
use disk_trait::{Disk, DiskFault};
use std::alloc::Global;
use std::test::Fail;
use store_check::What;

// The sums of the block of a with the value b, and of that with its count as 7.
const BLOCK_SUM: Said = (
    Part::Block,
    BLOCK,
    What::OtherSum {
        kept: 0x587B62AD428B4221,
        seen: 0x46E2A5CD0A5D7708,
    },
);

// The sums of the filter of a, and of that with 07 in the place of its fourth byte.
const FILTER_SUM: Said = (
    Part::Filter,
    FILTER,
    What::OtherSum {
        kept: 0x51C8BC2637F11E58,
        seen: 0x365FF461533CEE4D,
    },
);

/// A broken rule.
pub fn rule(part: Part, at: u64, rule: u8) -> Said {
    (part, at, What::BrokenRule { rule })
}

#[test]
fn a_block_and_a_filter_with_another_byte(rt: HostRuntime) -> Result<(), Fail> {
    let alloc = rt.alloc();
    let mut disk = made(alloc, &ONE)?;
    disk.write(786_440, &[7])?;
    check_finds(&rt, alloc, &mut disk, &[BLOCK_SUM])?;
    disk.write(794_627, &[7])?;
    check_finds(&rt, alloc, &mut disk, &[BLOCK_SUM, FILTER_SUM])
}

// Whatever is wrong with the table.
#[test]
fn a_slot_of_another_version_is_the_one_finding(rt: HostRuntime) -> Result<(), Fail> {
    let alloc = rt.alloc();
    let mut disk = made(alloc, &ONE)?;
    disk.write(786_440, &[7])?;
    disk.write(12, &[9])?;
    check_finds(&rt, alloc, &mut disk, &[rule(Part::Manifest, 12, 2)])
}

#[test]
fn both_slots_of_one_epoch(rt: HostRuntime) -> Result<(), Fail> {
    let alloc = rt.alloc();
    let mut disk = made(alloc, &[])?;
    let mut slot = [0; 80];
    disk.read(0, &mut slot)?;
    disk.write(131_072, &slot)?;
    check_finds(&rt, alloc, &mut disk, &[rule(Part::Manifest, 131_088, 11)])
}

#[test]
fn a_record_of_no_kind(rt: HostRuntime) -> Result<(), Fail> {
    let alloc = rt.alloc();
    let mut disk = made(alloc, &[Change::Put(b"a", b"b")])?;
    disk.write(262_145, &[7])?;
    check_finds(&rt, alloc, &mut disk, &[rule(Part::Log, 262_144, 2)])
}

/// The parts and places of what is found.
pub fn places(alloc: Global, disk: &mut MemDisk) -> Result<Vec<(Part, u64)>, Fail> {
    let seen = checked::<Succinct>(alloc, disk)?;
    let mut places = Vec::new(alloc);
    for (part, at, _) in seen.found.iter() {
        places.push((*part, *at))?;
    }
    Ok(places)
}

/// Changes the index of the third table, the block of the second, the filter of the first, and the log.
pub fn damage_each_part(disk: &mut MemDisk) -> Result<(), DiskFault> {
    let places = [(815_104, 7), (798_728, 7), (794_627, 7), (524_289, 7)];
    write_each(disk, &places)
}

// The newest table comes first.
#[test]
fn parts_of_three_tables_in_their_order(rt: HostRuntime) -> Result<(), Fail> {
    let alloc = rt.alloc();
    let mut disk = made(alloc, &THREE)?;
    damage_each_part(&mut disk)?;
    let found = places(alloc, &mut disk)?;
    let wanted = [
        (Part::Index, 815_104),
        (Part::Block, 798_720),
        (Part::Filter, 794_624),
        (Part::Log, 524_288),
    ];
    check_same(&rt, &found.as_slice(), &wanted.as_slice());
    Ok(())
}

// None of its blocks is read; its filter is.
#[test]
fn a_damaged_index_hides_its_blocks(rt: HostRuntime) -> Result<(), Fail> {
    let alloc = rt.alloc();
    let mut disk = made(alloc, &ONE)?;
    write_each(&mut disk, &[(786_440, 7), (790_528, 7), (794_627, 7)])?;
    let found = places(alloc, &mut disk)?;
    let wanted = [(Part::Index, INDEX), (Part::Filter, FILTER)];
    check_same(&rt, &found.as_slice(), &wanted.as_slice());
    Ok(())
}
