//! Tables that are built, written, opened, asked and walked.
use crate::asserts::{check_same, check_that};
use crate::made::{
    BASE, FIRST_PAGE, Made, Walk, add, boxed, key_of, new_disk, numbered, one_entry, opened,
    value_of, written,
};
use byte_fields::Row;
use disk_trait::Disk;
use plain_filter::PlainFilter;
use std::process::Abort;
use std::test::Fail;
use table_file::{Parts, Table, TableBuilder, fits_device, pages_of};

#[test]
fn a_table_of_one_entry(rt: HostRuntime) -> Result<(), Fail> {
    let (mut disk, row) = one_entry(rt.alloc())?;
    check_same(
        &rt,
        &(row.data_pages, row.index_pages, row.filter_pages),
        &(1, 1, 1),
    );
    check_same(&rt, &(row.index_len, row.filter_len), &(26, 22));
    let mut begin = [0; 21];
    let block = [
        0x15, 0, 0, 0, 1, 2, 0, 0, 0x0A, 0, 1, 0, 0, 1, 0, 1, 0, 0, 0, 0x61, 0x62,
    ];
    check_that(&rt, disk.read(786_432, &mut begin).is_ok());
    check_same(&rt, &begin, &block);
    Ok(())
}

// A key that the filter denies is asked for without its block, whatever stands there.
#[test]
fn an_absent_key_beside_a_changed_byte(rt: HostRuntime) -> Result<(), Fail> {
    let mut builder = TableBuilder::new(rt.alloc(), BASE);
    add(&mut builder, b"a", Some(b"b"))?;
    let mut made = Made::new(rt.alloc(), builder)?;
    check_that(&rt, made.gives(b"a", Some(Some(b"b")), 1));
    check_that(&rt, made.gives(b"z", None, 0));
    check_that(&rt, made.disk.write(786_456, &[1]).is_ok());
    check_that(&rt, made.gives(b"z", None, 0));
    check_that(&rt, !made.gives(b"a", Some(Some(b"b")), 1));
    Ok(())
}

#[test]
fn each_key_of_four_thousand_by_one_read(rt: HostRuntime) -> Result<(), Fail> {
    let mut made = Made::new(rt.alloc(), numbered(rt.alloc(), 4_000)?)?;
    for i in 0..4_000 {
        check_that(&rt, made.gives(&key_of(i), Some(value_of(i)), 1));
    }
    Ok(())
}

// The filter keeps both bytes of a key. It admits one that is a byte longer than those, for which a block is read; and
// it denies the other absent ones.
#[test]
fn four_thousand_absent_keys(rt: HostRuntime) -> Result<(), Fail> {
    let mut made = Made::new(rt.alloc(), numbered(rt.alloc(), 4_000)?)?;
    for i in 0..4_000 {
        let [high, low] = key_of(i);
        let is_longer = i % 2 == 0;
        let longer = [high, low, 0];
        let other = [high, low | 1];
        let key: &[u8] = if is_longer { &longer } else { &other };
        check_that(&rt, made.gives(key, None, usize::from(is_longer)));
    }
    Ok(())
}

#[test]
fn pages_of_four_thousand_entries(rt: HostRuntime) -> Result<(), Fail> {
    let mut disk = new_disk(rt.alloc())?;
    let builder = numbered(rt.alloc(), 4_000)?;
    let pages = builder.data_pages();
    let (parts, row) = written(builder, &mut disk)?;
    check_pages(&rt, &parts, &row, pages);
    Ok(())
}

fn check_pages(rt: &impl Abort, parts: &Parts<PlainFilter>, row: &Row, pages: u64) {
    check_same(rt, &u64::from(row.data_pages), &pages);
    let others = u64::from(row.index_pages) + u64::from(row.filter_pages);
    check_same(rt, &pages_of(parts), &pages.saturating_add(others));
}

// The table of the parts, with no call of the disk.
#[tactic(auto, using(crate::proofs::Rows::row_again, crate::proofs::Rows::row_within))]
fn table_of(parts: Parts<PlainFilter>) -> Result<Table<PlainFilter>, Fail> {
    if pages_of(&parts) > 1_000_000 {
        return Err(Fail::from("too long"));
    }
    let row = parts.row(0, FIRST_PAGE);
    if !fits_device(&row) {
        return Err(Fail::from("no row"));
    }
    Ok(parts.into_table(row))
}

// Whether two tables have the same row and ends, and the same blocks for keys.
fn is_same(one: &Table<PlainFilter>, other: &Table<PlainFilter>) -> bool {
    let mut same = one.row() == other.row() && one.blocks() == other.blocks();
    for i in 0..130u16 {
        let key = i.wrapping_mul(63).to_be_bytes();
        same = same && one.block_for(&key) == other.block_for(&key);
    }
    same && one.least() == other.least() && one.greatest() == other.greatest()
}

#[test]
fn the_table_of_parts_is_the_one_that_is_opened(rt: HostRuntime) -> Result<(), Fail> {
    let mut disk = new_disk(rt.alloc())?;
    let (parts, row) = written(numbered(rt.alloc(), 4_000)?, &mut disk)?;
    let made = boxed(rt.alloc(), table_of(parts)?)?;
    let Ok(read) = opened(rt.alloc(), &mut disk, &row)? else {
        return Err(Fail::from("not opened"));
    };
    check_that(&rt, is_same(&made, &read));
    check_same(&rt, &made.least(), &key_of(0).as_slice());
    check_same(&rt, &made.greatest(), &key_of(3_999).as_slice());
    Ok(())
}

// From the key of the entry 151 on, which is in the first of four blocks.
#[test]
fn a_walk_reads_each_block_once(rt: HostRuntime) -> Result<(), Fail> {
    let made = Made::new(rt.alloc(), numbered(rt.alloc(), 1_000)?)?;
    let mut walk = Walk::new(rt.alloc(), made, &301u16.to_be_bytes())?;
    let before = walk.made.disk.calls();
    for i in 151..1_000 {
        check_that(&rt, walk.steps_to(Some((&key_of(i), value_of(i)))));
    }
    check_that(&rt, walk.steps_to(None));
    check_same(&rt, &walk.made.table.blocks(), &4);
    check_same(&rt, &walk.made.disk.calls(), &before.saturating_add(4));
    Ok(())
}
