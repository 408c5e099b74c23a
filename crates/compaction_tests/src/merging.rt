//! Merges of tables, in merge slices.
ghost use Rattle.std.specs.Prelude.{IfOk};
ghost use Rattle.merge_rows.specs.Steps.{AreWalksIn, stands};

use crate::asserts::{check_same, check_that};
use crate::made::{Named, add, placed, tables_of};
use disk_mem::MemDisk;
use disk_trait::{DiskFault, Op};
use extent_map::Extents;
use key_base::{MAX_TABLES, PAGE_BYTES};
use level_merge::{Job, JobFault, Sliced, choose};
use plain_filter::PlainFilter;
use std::alloc::Global;
use std::test::Fail;
use table_file::{Table, TableBuilder, Tables};
use test_stores::{BASE, disk_of, failing};

type Merge<'m> = Job<'m, PlainFilter>;

type Answer = Result<Sliced, JobFault>;

// The extents that some tables take of a device of 8,192 pages.
fn extents_of(alloc: Global, tables: &Tables<PlainFilter>) -> Result<Extents, Fail> {
    let mut extents = Extents::new(alloc, 8_192);
    for table in tables.as_slice() {
        let row = table.row();
        let parts = row.index_pages.saturating_add(row.filter_pages);
        let pages = row.data_pages.saturating_add(parts);
        if pages == 0 || !extents.is_free(row.first_page, pages) {
            return Err(Fail::from("no extent"));
        }
        extents.add(row.first_page, pages)?;
    }
    Ok(extents)
}

// The merge of what is chosen of some tables.
fn chosen(alloc: Global, tables: &Tables<PlainFilter>) -> Result<Merge<'static>, Fail>
    ensures { IfOk result (λ job. AreWalksIn tables.now.tables (stands job.merge.walks)) }
{
    if tables.len() > MAX_TABLES {
        return Err(Fail::from("too many"));
    }
    match choose(alloc, tables)? {
        Some(plan) => Ok(Job::start(plan, BASE, tables)?),
        None => Err(Fail::from("nothing is chosen")),
    }
}

// The same in a box.
fn begun(alloc: Global, tables: &Tables<PlainFilter>) -> Result<Box<Merge<'static>>, Fail>
    ensures { IfOk result (λ job. AreWalksIn tables.now.tables (stands job.value.merge.walks)) }
{
    let job = chosen(alloc, tables)?;
    Ok(Box::new(alloc, job)?)
}

// How many merge slices of so many blocks each answer that something is left, and what the next one answers.
fn slices(
    job: &mut Merge<'_>,
    disk: &mut MemDisk,
    tables: &Tables<PlainFilter>,
    extents: &mut Extents,
    blocks: u32,
) -> (u64, Answer)
    requires { AreWalksIn tables.now.tables (stands job.old.merge.walks) }
{
    for count in 0..10_000 {
        let answer = job.slice(disk, tables, extents, blocks.max(1));
        if answer != Ok(Sliced::Working) {
            return (count, answer);
        }
    }
    (10_000, Ok(Sliced::Working))
}

// Four tables of level 0, of a block each. Two of them have the key `b`, the newer one with a value.
const SMALL: [Named; 4] = [
    (0, b"d", b"m", 1),
    (0, b"c", b"c", 1),
    (0, b"b", b"b", 1),
    (0, b"a", b"b", 1),
];

// What a merge of the small tables is answered at last where a call of the device fails, and how many outputs it then
// names, and how many are written.
fn with_fault(alloc: Global, call: u64, blocks: u32) -> Result<(Answer, usize, usize), Fail> {
    let mut first = disk_of(alloc, b"")?;
    tables_of(alloc, &mut first, &SMALL)?;
    let fault = (first.calls() as u64).saturating_add(call);
    let mut disk = failing(alloc, b"", fault)?;
    let tables = tables_of(alloc, &mut disk, &SMALL)?;
    let mut extents = extents_of(alloc, &tables)?;
    let mut job = begun(alloc, &tables)?;
    let (_, answer) = slices(&mut job, &mut disk, &tables, &mut extents, blocks);
    Ok((answer, job.outputs().len(), job.tables().len()))
}

// The calls of a merge of the small tables: the page of each, and how many outputs are named where it fails.
const CALLS: [(Op, u64, usize); 8] = [
    (Op::Read, 192, 0),
    (Op::Read, 195, 0),
    (Op::Read, 198, 0),
    (Op::Read, 201, 0),
    (Op::Write, 204, 1),
    (Op::Write, 205, 1),
    (Op::Write, 206, 1),
    (Op::Sync, 0, 1),
];

#[test]
fn each_call_of_a_slice_failing_in_turn(rt: HostRuntime) -> Result<(), Fail> {
    for blocks in [1, 9] {
        let mut call = 0u64;
        for (op, page, named) in CALLS {
            let fault = JobFault::Device(DiskFault {
                op,
                at: page.saturating_mul(4_096),
            });
            check_same(
                &rt,
                &with_fault(rt.alloc(), call, blocks)?,
                &(Err(fault), named, 0),
            );
            call = call.saturating_add(1);
        }
        check_same(
            &rt,
            &with_fault(rt.alloc(), 8, blocks)?,
            &(Ok(Sliced::Ready), 1, 1),
        );
    }
    Ok(())
}

// The tables of its outputs.
fn made_of(job: Box<Merge<'_>>) -> Vec<Table<PlainFilter>> {
    Box::into_inner(job).into_tables()
}

// Whether a table of four small ones stands behind them on level 1.
fn is_output(table: &Table<PlainFilter>) -> bool {
    let row = table.row();
    row.level == 1
        && row.first_page == 204
        && row.data_pages == 1
        && row.index_pages == 1
        && row.filter_pages == 1
        && row.entries == 5
}

// Whether a table on a disk has this value of a key.
fn has(
    alloc: Global,
    table: &Table<PlainFilter>,
    disk: &mut MemDisk,
    key: &[u8],
    value: &[u8],
) -> Result<bool, Fail> {
    let bytes = PAGE_BYTES * table.most_block_pages() as usize;
    let mut room = vec![in alloc; 0; bytes]?;
    Ok(table.get(disk, key, &mut room)? == Some(Some(value)))
}

#[test]
fn slices_leave_the_newest_entries(rt: HostRuntime) -> Result<(), Fail> {
    let alloc = rt.alloc();
    let mut disk = disk_of(alloc, b"")?;
    let tables = tables_of(alloc, &mut disk, &SMALL)?;
    let mut extents = extents_of(alloc, &tables)?;
    let mut job = begun(alloc, &tables)?;
    let (working, answer) = slices(&mut job, &mut disk, &tables, &mut extents, 1);
    check_same(&rt, &answer, &Ok(Sliced::Ready));
    check_that(&rt, working <= 6);
    let made = made_of(job);
    assert_eq!(rt; made.len(), 1);
    check_that(&rt, is_output(&made[0]));
    check_that(&rt, has(alloc, &made[0], &mut disk, b"b", b"\x07")?);
    Ok(())
}

// A table of 1,050 entries, of every fourth key from one on. No page has three of them.
fn large_table(alloc: Global, first: u32) -> Result<TableBuilder, Fail> {
    let value = vec![in alloc; 7; 2_000]?;
    let mut builder = TableBuilder::new(alloc, BASE);
    for i in 0..1_050u32 {
        let [a, b, c, d] = (4 * i).saturating_add(first).to_be_bytes();
        add(&mut builder, &[b'k', a, b, c, d], &value)?;
    }
    Ok(builder)
}

// Four such tables of level 0.
fn large_tables(alloc: Global, disk: &mut MemDisk) -> Result<Tables<PlainFilter>, Fail> {
    let mut tables = Tables::new(alloc);
    let mut page = 192;
    for first in 0..4 {
        let builder = large_table(alloc, first)?;
        let (table, next) = placed(alloc, disk, builder, 0, page)?;
        tables.reserve(1)?;
        tables.insert(tables.len(), table);
        page = next;
    }
    Ok(tables)
}

fn blocks_of(tables: &Tables<PlainFilter>) -> u64 {
    let mut blocks = 0u64;
    for table in tables.as_slice() {
        blocks = blocks.saturating_add(u64::from(table.blocks()));
    }
    blocks
}

// How many entries each output has, if it is of level 1.
fn entries_of(alloc: Global, job: &Merge<'_>) -> Result<Vec<u32>, Fail> {
    let mut entries = Vec::new(alloc);
    for row in job.outputs() {
        if row.level != 1 {
            return Err(Fail::from("another level"));
        }
        entries.push(row.entries)?;
    }
    Ok(entries)
}

// An output has at most 1,024 pages of blocks before the entry that closes it.
#[test]
fn full_outputs_are_closed(rt: HostRuntime) -> Result<(), Fail> {
    let alloc = rt.alloc();
    let mut disk = disk_of(alloc, b"")?;
    let tables = large_tables(alloc, &mut disk)?;
    let mut extents = extents_of(alloc, &tables)?;
    let mut job = begun(alloc, &tables)?;
    let (working, answer) = slices(&mut job, &mut disk, &tables, &mut extents, 1);
    check_same(&rt, &answer, &Ok(Sliced::Ready));
    check_that(&rt, working <= blocks_of(&tables).saturating_add(3 + 1));
    let entries = entries_of(alloc, &job)?;
    check_same(&rt, &entries.as_slice(), &[2_047, 2_047, 106].as_slice());
    Ok(())
}
