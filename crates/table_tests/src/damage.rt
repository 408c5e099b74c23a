//! Changed bytes, and what is said of them.
ghost use Rattle.block_model.specs.Places.{FitsDevice};

use crate::asserts::{check_same, check_that};
use crate::made::{one_entry, opened, room};
use byte_fields::{Damage, Part, Row, fnv1a};
use disk_mem::MemDisk;
use disk_trait::Disk;
use plain_filter::PlainFilter;
use std::alloc::Global;
use std::test::Fail;
use table_file::{TableFault, fits_device, read_filter, read_index};

// Where the parts of the table of one entry begin.
const BLOCK: u64 = 786_432;

const INDEX: u64 = 790_528;

const FILTER: u64 = 794_624;

// The sums of its block, its index and its filter.
const SUMS: [u64; 3] = [0x587B62AD428B4221, 0x719879D8B45A6D0D, 0x945C728291C39EAE];

fn shape(part: Part, at: u64, rule: u8) -> Option<TableFault> {
    Some(TableFault::Damaged(Damage::Shape { part, at, rule }))
}

fn sums(part: Part, at: u64, kept: u64, seen: u64) -> Option<TableFault> {
    Some(TableFault::Damaged(Damage::Sum {
        part,
        at,
        kept,
        seen,
    }))
}

// The fault of opening a row's table.
fn fault_of(alloc: Global, disk: &mut MemDisk, row: &Row) -> Result<Option<TableFault>, Fail> {
    match opened(alloc, disk, row)? {
        Ok(_) => Ok(None),
        Err(fault) => Ok(Some(fault)),
    }
}

// The bytes with others from a place on.
fn change(bytes: &mut [u8], place: usize, others: &[u8]) {
    for (byte, other) in bytes.iter_mut().skip(place).zip(others) {
        *byte = *other;
    }
}

// Changes bytes of the index, and answers its new sum.
fn change_index(disk: &mut MemDisk, place: usize, others: &[u8]) -> Result<u64, Fail> {
    let mut bytes = [0; 26];
    let mut done = disk.read(INDEX, &mut bytes).is_ok();
    change(&mut bytes, place, others);
    done = done && disk.write(INDEX, &bytes).is_ok();
    if !done {
        return Err(Fail::from("the disk failed"));
    }
    Ok(fnv1a(&bytes))
}

#[test]
fn each_rule_of_an_index_at_its_byte(rt: HostRuntime) -> Result<(), Fail> {
    let alloc = rt.alloc();
    let rows = [
        (0, 0x00, 0, 2),
        (4, 0x00, 4, 3),
        (8, 0x00, 8, 4),
        (23, 0x00, 23, 4),
        (10, 0x62, 25, 5),
        (11, 0x00, 11, 6),
        (12, 0x02, 11, 6),
        (11, 0x02, 4, 8),
    ];
    for (place, byte, at, rule) in rows {
        let (mut disk, mut row) = one_entry(alloc)?;
        row.index_sum = change_index(&mut disk, place, &[byte])?;
        check_same(
            &rt,
            &fault_of(alloc, &mut disk, &row)?,
            &shape(Part::Index, INDEX + at, rule),
        );
    }
    Ok(())
}

// The index of 26 bytes, a byte shorter and a byte longer.
#[test]
fn an_index_of_another_length(rt: HostRuntime) -> Result<(), Fail> {
    let alloc = rt.alloc();
    let (mut disk, mut row) = one_entry(alloc)?;
    let mut bytes = [0; 27];
    check_that(&rt, disk.read(INDEX, &mut bytes).is_ok());
    let rows: [(&[u8], u64, u8); 2] = [(&bytes[..25], 25, 1), (&bytes, 26, 7)];
    for (index, at, rule) in rows {
        row.index_len = index.len() as u64;
        row.index_sum = fnv1a(index);
        check_same(
            &rt,
            &fault_of(alloc, &mut disk, &row)?,
            &shape(Part::Index, INDEX + at, rule),
        );
    }
    Ok(())
}

// The sums are those of FNV-1a over the 26 and the 22 bytes, worked out by a loop of three lines apart from this
// program.
#[test]
fn another_sum_comes_before_the_rules(rt: HostRuntime) -> Result<(), Fail> {
    let alloc = rt.alloc();
    let [_, index, filter] = SUMS;
    let (mut disk, row) = one_entry(alloc)?;
    check_same(&rt, &(row.index_sum, row.filter_sum), &(index, filter));
    check_same(&rt, &fault_of(alloc, &mut disk, &row)?, &None);
    change_index(&mut disk, 11, &[2])?;
    check_same(
        &rt,
        &fault_of(alloc, &mut disk, &row)?,
        &sums(Part::Index, INDEX, index, 0x79A39C0ACC55B4A8),
    );
    let (mut disk, row) = one_entry(alloc)?;
    check_that(&rt, disk.write(FILTER + 13, &[1]).is_ok());
    check_same(
        &rt,
        &fault_of(alloc, &mut disk, &row)?,
        &sums(Part::Filter, FILTER, filter, 0x27C6C7E0265E94C1),
    );
    Ok(())
}

// The fault of the index of the one entry with so many pages in its row, behind as many pages of the device.
fn fault_of_pages(alloc: Global, pages: u16) -> Result<Option<TableFault>, Fail> {
    let (mut disk, mut row) = one_entry(alloc)?;
    let mut bytes = [0; 26];
    let mut done = disk.read(INDEX, &mut bytes).is_ok();
    row.data_pages = u32::from(pages);
    change(&mut bytes, 11, &row.data_pages.to_le_bytes());
    row.index_sum = fnv1a(&bytes);
    done = done && disk.write(BLOCK + 4_096 * u64::from(pages), &bytes).is_ok();
    if !done || !fits_device(&row) {
        return Err(Fail::from("no index"));
    }
    Ok(read_index(alloc, &mut *disk, &row).err())
}

// The pages of the first are 01 01 00 00, those of the second 02 01 00 00.
#[test]
fn a_row_of_an_index_has_257_pages_at_most(rt: HostRuntime) -> Result<(), Fail> {
    check_same(&rt, &fault_of_pages(rt.alloc(), 257)?, &None);
    let second = BLOCK + 258 * 4_096;
    check_same(
        &rt,
        &fault_of_pages(rt.alloc(), 258)?,
        &shape(Part::Index, second + 11, 6),
    );
    Ok(())
}

// What the index of a row says of its blocks: how many there are, the least key, and of the first the last key and the page.
fn read_alone(alloc: Global, disk: &mut MemDisk, row: &Row) -> Result<(u32, bool, bool, u64), Fail>
    requires { FitsDevice row.now }
{
    let Ok(index) = read_index(alloc, disk, row) else {
        return Err(Fail::from("no index"));
    };
    let blocks = index.blocks();
    if blocks == 0 {
        return Err(Fail::from("no blocks"));
    }
    let least = index.least() == b"a".as_slice();
    let last = index.last(0) == b"a".as_slice();
    Ok((blocks, least, last, index.first_page(0)))
}

#[test]
fn index_and_filter_are_read_by_themselves(rt: HostRuntime) -> Result<(), Fail> {
    let alloc = rt.alloc();
    let [_, index, filter] = SUMS;
    let (mut disk, row) = one_entry(alloc)?;
    if !fits_device(&row) {
        return Err(Fail::from("no row"));
    }
    check_same(
        &rt,
        &read_alone(alloc, &mut disk, &row)?,
        &(1, true, true, 192),
    );
    let found: Result<PlainFilter, TableFault> = read_filter(alloc, &mut *disk, &row);
    check_same(&rt, &found.err(), &None);
    change_index(&mut disk, 11, &[2])?;
    check_that(&rt, disk.write(FILTER + 13, &[1]).is_ok());
    check_same(
        &rt,
        &read_index(alloc, &mut *disk, &row).err(),
        &sums(Part::Index, INDEX, index, 0x79A39C0ACC55B4A8),
    );
    let found: Result<PlainFilter, TableFault> = read_filter(alloc, &mut *disk, &row);
    check_same(
        &rt,
        &found.err(),
        &sums(Part::Filter, FILTER, filter, 0x27C6C7E0265E94C1),
    );
    Ok(())
}

#[test]
fn a_filter_of_other_leaves(rt: HostRuntime) -> Result<(), Fail> {
    let alloc = rt.alloc();
    for entries in [0, 2] {
        let (mut disk, mut row) = one_entry(alloc)?;
        row.entries = entries;
        check_same(
            &rt,
            &fault_of(alloc, &mut disk, &row)?,
            &shape(Part::Filter, FILTER + 12, 11),
        );
    }
    Ok(())
}

// Other leaves are told before other widths; and no filter shows the ratio that it was built with.
#[test]
fn a_filter_of_other_widths(rt: HostRuntime) -> Result<(), Fail> {
    let alloc = rt.alloc();
    for (hash_bits, real_bits) in [(8, 0), (0, 3), (4, 4)] {
        let (mut disk, mut row) = one_entry(alloc)?;
        row.hash_bits = hash_bits;
        row.real_bits = real_bits;
        check_same(
            &rt,
            &fault_of(alloc, &mut disk, &row)?,
            &shape(Part::Filter, FILTER + 5, 12),
        );
        row.entries = 2;
        check_same(
            &rt,
            &fault_of(alloc, &mut disk, &row)?,
            &shape(Part::Filter, FILTER + 12, 11),
        );
    }
    let (mut disk, mut row) = one_entry(alloc)?;
    row.ratio = 65_535;
    check_same(&rt, &fault_of(alloc, &mut disk, &row)?, &None);
    Ok(())
}

// What a get of a says, and how many blocks were read for it.
fn get_a(alloc: Global, disk: &mut MemDisk, row: &Row) -> Result<(Option<TableFault>, u64), Fail> {
    let Ok(table) = opened(alloc, disk, row)? else {
        return Err(Fail::from("not opened"));
    };
    let mut buf = room(alloc, &table)?;
    let before = disk.reads();
    let fault = match table.get(disk, b"a", &mut buf) {
        Ok(_) => None,
        Err(fault) => Some(fault),
    };
    Ok((fault, disk.reads().saturating_sub(before)))
}

// The block's sums are those of FNV-1a over its 4,096 bytes, worked out apart like those above.
#[test]
fn a_changed_byte_of_a_block(rt: HostRuntime) -> Result<(), Fail> {
    let alloc = rt.alloc();
    let [block, _, _] = SUMS;
    let (mut disk, row) = one_entry(alloc)?;
    check_same(&rt, &get_a(alloc, &mut disk, &row)?, &(None, 1));
    check_that(&rt, disk.write(BLOCK + 24, &[1]).is_ok());
    check_same(
        &rt,
        &get_a(alloc, &mut disk, &row)?,
        &(sums(Part::Block, BLOCK, block, 0xFC0D5768375EC880), 1),
    );
    Ok(())
}

// Changes bytes of the block, and makes the sums that are kept of it and of the index right again.
fn change_block(disk: &mut MemDisk, place: usize, others: &[u8]) -> Result<u64, Fail> {
    let mut bytes = [0; 4_096];
    let mut done = disk.read(BLOCK, &mut bytes).is_ok();
    change(&mut bytes, place, others);
    done = done && disk.write(BLOCK, &bytes).is_ok();
    if !done {
        return Err(Fail::from("the disk failed"));
    }
    change_index(disk, 15, &fnv1a(&bytes).to_le_bytes())
}

#[test]
fn each_rule_of_a_block_at_its_byte(rt: HostRuntime) -> Result<(), Fail> {
    let alloc = rt.alloc();
    let rows = [
        (0, 0x13, 0, 1),
        (4, 0x00, 4, 2),
        (5, 0x01, 5, 2),
        (8, 0x0B, 8, 9),
        (4, 0x02, 21, 3),
        (10, 0x03, 10, 4),
        (10, 0x02, 10, 4),
        (13, 0x00, 10, 5),
        (11, 0x01, 10, 10),
        (0, 0x16, 21, 7),
        (24, 0x01, 24, 8),
        (4_095, 0x01, 4_095, 8),
    ];
    for (place, byte, at, rule) in rows {
        let (mut disk, mut row) = one_entry(alloc)?;
        row.index_sum = change_block(&mut disk, place, &[byte])?;
        check_same(
            &rt,
            &get_a(alloc, &mut disk, &row)?,
            &(shape(Part::Block, BLOCK.saturating_add(at), rule), 1),
        );
    }
    Ok(())
}

// The entry twice, in a block of 31 bytes: the second shares its whole key.
#[test]
fn a_block_of_equal_keys(rt: HostRuntime) -> Result<(), Fail> {
    let alloc = rt.alloc();
    let (mut disk, mut row) = one_entry(alloc)?;
    let entry = [1, 1, 0, 0, 0, 1, 0, 0, 0, 0x62];
    change_block(&mut disk, 21, &entry)?;
    row.index_sum = change_block(&mut disk, 0, &[31, 0, 0, 0, 2])?;
    check_same(
        &rt,
        &get_a(alloc, &mut disk, &row)?,
        &(shape(Part::Block, BLOCK + 21, 6), 1),
    );
    Ok(())
}

// Its length is that of the largest block, 1,049,619 bytes in 257 pages, where the index says one page: one page is read.
#[test]
fn a_block_that_claims_257_pages(rt: HostRuntime) -> Result<(), Fail> {
    let alloc = rt.alloc();
    let (mut disk, mut row) = one_entry(alloc)?;
    row.index_sum = change_block(&mut disk, 0, &1_049_619u32.to_le_bytes())?;
    check_same(
        &rt,
        &get_a(alloc, &mut disk, &row)?,
        &(shape(Part::Block, BLOCK, 1), 1),
    );
    Ok(())
}
