//! Checks of whole stores, clean and damaged.
use crate::asserts::{check_same_at, check_that, check_that_at};
use crate::damage::sum_of;
use crate::runs::{base_disk, check, commanded, disk_of, failing, left_behind, served};
use disk_mem::MemDisk;
use disk_trait::{Disk, DiskFault};
use std::alloc::Global;
use std::test::Fail;
use test_runs::stopped;

// Lines over a new store of 512 pages, and what a check says of it then.
const CLEAN: [(&[u8], &[u8]); 4] = [
    (b"", b"clean tables 0 entries 0 live 0 log 0\n"),
    (
        b"put 61 62\nflush\n",
        b"clean tables 1 entries 1 live 1 log 0\n",
    ),
    (
        b"put 61 31\nput 62 31\nput 63 31\nflush\nput 64 31\nput 65 31\nflush\nput 66 31\n",
        b"clean tables 2 entries 5 live 6 log 1\n",
    ),
    (
        b"put 61 62\nflush\ndel 61\nflush\n",
        b"clean tables 2 entries 2 live 0 log 0\n",
    ),
];

// Nothing is wrong, and the device holds what it held.
#[test]
fn a_sound_store_is_clean(rt: HostRuntime) -> Result<(), Fail> {
    let alloc = rt.alloc();
    for (number, (lines, said)) in CLEAN.iter().copied().enumerate() {
        let before = served(alloc, base_disk(alloc)?, lines)?;
        let disk = disk_of(alloc, before.disk.bytes())?;
        let end = commanded(alloc, "check", disk)?;
        check(&rt, &end, 0, said, number as u64);
        check_that_at(&rt, &number, end.disk.bytes() == before.disk.bytes());
    }
    Ok(())
}

// Lines, bytes of the device that are then changed, and what a check says. The table of the first lines has its block at byte
// 786,432, its index at 790,528 and its filter at 794,624.
const DAMAGED: [(&[u8], &[(u64, u8)], &[u8]); 6] = [
    (
        b"put 61 62\nflush\n",
        &[(786_440, 7)],
        b"finding block 786432 sum 587b62ad428b4221 46e2a5cd0a5d7708\nfindings 1\n",
    ),
    (
        b"put 61 62\nflush\n",
        &[(786_440, 7), (794_627, 7)],
        b"finding block 786432 sum 587b62ad428b4221 46e2a5cd0a5d7708\n\
          finding filter 794624 sum 51c8bc2637f11e58 365ff461533cee4d\nfindings 2\n",
    ),
    // a damaged index passes over its blocks, and its filter's fault is said
    (
        b"put 61 62\nflush\n",
        &[(786_440, 7), (790_530, 7), (794_627, 7)],
        b"finding index 790528 sum 719879d8b45a6d0d e35496cdc8f44dfc\n\
          finding filter 794624 sum 51c8bc2637f11e58 365ff461533cee4d\nfindings 2\n",
    ),
    // slot A ends the check, whatever is wrong behind it
    (
        b"put 61 62\nflush\n",
        &[(12, 9), (786_440, 7)],
        b"finding manifest 12 rule 2\nfindings 1\n",
    ),
    (
        b"put 61 62\n",
        &[(262_145, 7)],
        b"finding log 262144 rule 2\nfindings 1\n",
    ),
    (
        b"put 61 62\nflush\nput 62 62\n",
        &[(786_440, 7), (524_289, 7)],
        b"finding block 786432 sum 587b62ad428b4221 46e2a5cd0a5d7708\n\
          finding log 524288 rule 2\nfindings 2\n",
    ),
];

#[test]
fn each_damage_is_said_in_order(rt: HostRuntime) -> Result<(), Fail> {
    let alloc = rt.alloc();
    for (number, (lines, bytes, said)) in DAMAGED.iter().copied().enumerate() {
        let mut before = served(alloc, base_disk(alloc)?, lines)?;
        for (at, byte) in bytes {
            before.disk.write((*at).min(1 << 20), &[*byte])?;
        }
        let end = commanded(alloc, "check", disk_of(alloc, before.disk.bytes())?)?;
        check(&rt, &end, 12, said, number as u64);
    }
    Ok(())
}

// Changes some bytes of a slot's body, which has so many before its sum, and makes the sum right.
fn change(
    disk: &mut MemDisk,
    body: u64,
    changes: &[(usize, &[u8])],
    length: usize,
) -> Result<(), DiskFault> {
    let mut bytes = [0; 256];
    let length = length.min(248);
    let body = body.min(1 << 20);
    disk.read(body, &mut bytes[..length])?;
    for (place, with) in changes {
        let place = (*place).min(240);
        let count = with.len().min(8);
        bytes[place..place + count].copy_from_slice(&with[..count]);
    }
    let sum = sum_of(&bytes[..length]);
    bytes[length..length + 8].copy_from_slice(&sum);
    disk.write(body, &bytes[..length + 8])
}

// Lines, changes of the body at a byte, which has so many bytes before its sum, and what a check says: other entries in the row
// of the first table; its filter's widths; the epoch of the other slot; two tables with one key, named as tables of level 1 in
// slot A.
type Renamed = (
    &'static [u8],
    u64,
    &'static [(usize, &'static [u8])],
    usize,
    &'static [u8],
);

const RENAMED: [Renamed; 4] = [
    (
        b"put 61 62\nflush\n",
        131_080,
        &[(84, &[2])],
        128,
        b"finding index 790528 count\nfinding filter 794636 rule 11\nfindings 2\n",
    ),
    (
        b"put 61 62\nflush\n",
        131_080,
        &[(120, &[8])],
        128,
        b"finding filter 794629 rule 12\nfindings 1\n",
    ),
    (
        b"put 61 62\nflush\n",
        131_080,
        &[(8, &[1])],
        128,
        b"finding manifest 131088 rule 11\nfindings 1\n",
    ),
    (
        b"put 61 62\nflush\nput 61 63\nflush\n",
        8,
        &[(64, &[1]), (128, &[1])],
        192,
        b"finding manifest 136 rule 12\nfindings 1\n",
    ),
];

#[test]
fn rows_that_do_not_fit_are_said(rt: HostRuntime) -> Result<(), Fail> {
    let alloc = rt.alloc();
    for (number, (lines, body, changes, length, said)) in RENAMED.iter().copied().enumerate() {
        let mut before = served(alloc, base_disk(alloc)?, lines)?;
        change(&mut before.disk, body, changes, length)?;
        let end = commanded(alloc, "check", disk_of(alloc, before.disk.bytes())?)?;
        check(&rt, &end, 12, said, number as u64);
    }
    Ok(())
}

// The disk of a table of 61 whose filter is that of the table which other lines make, with so many entries in its row, and the
// sums made right.
fn with_filter_of(alloc: Global, lines: &[u8], entries: u8) -> Result<Box<MemDisk>, Fail> {
    let mut end = served(alloc, base_disk(alloc)?, b"put 61 62\nflush\n")?;
    let mut other = served(alloc, base_disk(alloc)?, lines)?;
    let mut page = [0; 4096];
    let (mut length, mut sum) = ([0; 8], [0; 8]);
    other.disk.read(794_624, &mut page)?;
    other.disk.read(131_080 + 64 + 32, &mut length)?;
    other.disk.read(131_080 + 64 + 48, &mut sum)?;
    end.disk.write(794_624, &page)?;
    let changes: [(usize, &[u8]); 3] = [(84, &[entries]), (96, &length), (112, &sum)];
    change(&mut end.disk, 131_080, &changes, 128)?;
    Ok(disk_of(alloc, end.disk.bytes())?)
}

// Lines that make a table with another filter, the entries that the row of 61 then has, lines that are served without a word of
// it, their replies, and what a check says. The filter of 62 denies the key that is there, and bounds a range no worse; of that of
// both keys nothing is seen.
type Mended = (
    &'static [u8],
    u8,
    &'static [u8],
    &'static [u8],
    &'static [u8],
);

const MENDED: [Mended; 2] = [
    (
        b"put 62 62\nflush\n",
        1,
        b"get 61\nrange - 7a 9\n",
        b"none\nat 61 62\nend 1\n",
        b"finding filter 794624 leaf 0\nfindings 1\n",
    ),
    (
        b"put 61 62\nput 62 62\nflush\n",
        2,
        b"get 61\nget 62\nrange - 7a 9\n",
        b"val 62\nnone\nat 61 62\nend 1\n",
        b"finding index 790528 count\nfinding filter 794624 leaf 1\nfindings 2\n",
    ),
];

// It opens and is served; a check says what is wrong.
#[test]
fn a_filter_of_other_keys_is_found(rt: HostRuntime) -> Result<(), Fail> {
    let alloc = rt.alloc();
    for (number, (other, entries, lines, replies, said)) in MENDED.iter().copied().enumerate() {
        let disk = with_filter_of(alloc, other, entries)?;
        let end = served(alloc, disk_of(alloc, disk.bytes())?, lines)?;
        check(&rt, &end, 0, replies, number as u64);
        let end = commanded(alloc, "check", disk)?;
        check(&rt, &end, 12, said, number as u64);
    }
    Ok(())
}

// Adds the line that puts 2,000 bytes under a key.
fn push_half_page(lines: &mut Vec<u8>, key: &[u8]) -> Result<(), Fail> {
    lines.extend_from_slice(b"put ")?;
    lines.extend_from_slice(key)?;
    lines.push(b' ')?;
    for _ in 0..2_000 {
        lines.extend_from_slice(b"78")?;
    }
    lines.push(b'\n')?;
    Ok(())
}

// The disk of a table of two blocks with two pairs each, a and b, c and d.
fn two_blocks(alloc: Global) -> Result<Box<MemDisk>, Fail> {
    let mut lines = Vec::new(alloc);
    for key in [b"61", b"62", b"63", b"64"] {
        push_half_page(&mut lines, key)?;
    }
    lines.extend_from_slice(b"flush\n")?;
    left_behind(alloc, base_disk(alloc)?, &lines)
}

// Two parts of a page change places.
fn change_over(disk: &mut MemDisk, one: u32, other: u32, length: usize) -> Result<(), DiskFault> {
    let (mut first, mut second) = ([0; 4096], [0; 4096]);
    let length = length.min(4096);
    disk.read(u64::from(one), &mut first[..length])?;
    disk.read(u64::from(other), &mut second[..length])?;
    disk.write(u64::from(one), &second[..length])?;
    disk.write(u64::from(other), &first[..length])
}

// The blocks change places, and their sums in the index, which has 41 bytes; then its sum and the body's are made right.
fn change_blocks_over(disk: &mut MemDisk) -> Result<(), DiskFault> {
    change_over(disk, 786_432, 790_528, 4096)?;
    change_over(disk, 794_639, 794_654, 8)?;
    let mut index = [0; 41];
    disk.read(794_624, &mut index)?;
    let changes: [(usize, &[u8]); 1] = [(104, &sum_of(&index))];
    change(disk, 131_080, &changes, 128)
}

const FOUR_GETS: &[u8] = b"get 61\nget 62\nget 63\nget 64\n";

// It opens, and a get looks for its key in the other block.
#[test]
fn blocks_in_each_others_place_are_found(rt: HostRuntime) -> Result<(), Fail> {
    let alloc = rt.alloc();
    let mut disk = two_blocks(alloc)?;
    change_blocks_over(&mut disk)?;
    let end = served(alloc, disk_of(alloc, disk.bytes())?, FOUR_GETS)?;
    check(&rt, &end, 0, b"none\nnone\nnone\nnone\n", 0);
    let end = commanded(alloc, "check", disk)?;
    let said = b"finding block 786432 keys\nfinding block 790528 keys\nfindings 2\n";
    check(&rt, &end, 12, said, 1);
    Ok(())
}

#[test]
fn an_empty_file_is_no_store(rt: HostRuntime) -> Result<(), Fail> {
    let alloc = rt.alloc();
    let end = commanded(alloc, "check", disk_of(alloc, b"")?)?;
    check(&rt, &end, 8, b"not a store\n", 0);
    Ok(())
}

// A store with two tables, of which the first one's block is damaged.
fn one_damaged(alloc: Global) -> Result<Box<MemDisk>, Fail> {
    let lines = b"put 61 62\nflush\nput 62 62\nflush\nput 63 62\n";
    let mut disk = left_behind(alloc, base_disk(alloc)?, lines)?;
    disk.write(786_440, &[7])?;
    Ok(disk_of(alloc, disk.bytes())?)
}

const FOUND: &[u8] = b"finding block 786432 sum 587b62ad428b4221 46e2a5cd0a5d7708\nfindings 1\n";

// Whether a run said the first bytes of that, and then that the device failed.
fn is_cut_off(said: &[u8]) -> bool {
    match said.strip_suffix(b"device\n") {
        Some(before) => FOUND.starts_with(before),
        None => false,
    }
}

// A read that fails is not tried again, and nothing is written.
#[test]
fn each_call_of_a_check_failing_in_turn(rt: HostRuntime) -> Result<(), Fail> {
    let alloc = rt.alloc();
    let first = one_damaged(alloc)?;
    for call in 0..60 {
        let end = commanded(alloc, "check", failing(alloc, &first, call)?)?;
        check_that_at(&rt, &call, end.disk.bytes() == first.bytes());
        if end.status == 12 {
            check(&rt, &end, 12, FOUND, call);
            check_that(&rt, call > 9);
            return Ok(());
        }
        check_same_at(&rt, &call, &end.status, &4);
        check_that_at(&rt, &call, is_cut_off(end.said.as_slice()));
        check_same_at(&rt, &call, &(end.disk.calls() as u64), &(call + 1));
    }
    check_that_at(&rt, &"a call failed each time", false);
    Ok(())
}

#[test]
fn each_say_of_a_check_failing_in_turn(rt: HostRuntime) -> Result<(), Fail> {
    let alloc = rt.alloc();
    let first = one_damaged(alloc)?;
    for say in 0..FOUND.len() {
        let end = stopped(alloc, "check", &first, &[], &[say as u64])?;
        check(&rt, &end, 6, &FOUND[..say], say as u64);
        check_that_at(&rt, &say, end.disk.bytes() == first.bytes());
    }
    Ok(())
}
