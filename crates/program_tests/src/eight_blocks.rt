//! Merge slices that read eight blocks and no more.
use crate::asserts::check_same_at;
use crate::runs::{base_disk, check, commanded, disk_of, left_behind, served};
use disk_mem::MemDisk;
use std::alloc::Global;
use std::test::Fail;
use test_runs::push_large;

// Four tables, of which each has a block for each of its keys: these digits behind a 6.
fn four_tables(alloc: Global, tables: [&[u8]; 4]) -> Result<Box<MemDisk>, Fail> {
    let mut lines = Vec::new(alloc);
    for keys in tables {
        for key in keys {
            push_large(&mut lines, &[b'6', *key])?;
        }
        lines.extend_from_slice(b"flush\n")?;
    }
    left_behind(alloc, base_disk(alloc)?, &lines)
}

// Four tables of 15, 16 and 17 blocks in all, and what is told of them behind a second put. A merge slice that reads the last
// block installs, so that 16 blocks are two.
const SLICES: [([&[u8]; 4], &[u8]); 3] = [
    (
        [b"159d", b"26ae", b"37bf", b"48c"],
        b"tables 1 admitted 0 blocks 0\n",
    ),
    (
        [b"159d", b"26ae", b"37bf", b"048c"],
        b"tables 1 admitted 0 blocks 0\n",
    ),
    (
        [b"159d", b"26ae", b"37bf", b"0248c"],
        b"tables 4 admitted 0 blocks 0\n",
    ),
];

#[test]
fn sixteen_blocks_are_two_slices(rt: HostRuntime) -> Result<(), Fail> {
    let alloc = rt.alloc();
    for (number, (tables, told)) in SLICES.iter().copied().enumerate() {
        let disk = four_tables(alloc, tables)?;
        let end = served(
            alloc,
            disk,
            b"put 01 02\nexplain 00\nput 01 02\nexplain 00\n",
        )?;
        let mut said = Vec::from_slice(alloc, b"ok\ntables 4 admitted 0 blocks 0\nok\n")?;
        said.extend_from_slice(told)?;
        check(&rt, &end, 0, &said, number as u64);
    }
    Ok(())
}

#[test]
fn a_load_merges_eight_blocks_a_step(rt: HostRuntime) -> Result<(), Fail> {
    let alloc = rt.alloc();
    let first = four_tables(alloc, [b"147", b"258", b"369", b"abc"])?;
    let rows: [(&str, &[u8]); 2] = [
        ("load --seed 1 --count 1", b"tables 4 admitted 0 blocks 0\n"),
        ("load --seed 1 --count 2", b"tables 1 admitted 0 blocks 0\n"),
    ];
    for (words, told) in rows {
        let end = commanded(alloc, words, disk_of(alloc, first.bytes())?)?;
        check_same_at(&rt, &words, &end.status, &0);
        let again = served(alloc, end.disk, b"explain 00\n")?;
        check(&rt, &again, 0, told, 0);
    }
    Ok(())
}
