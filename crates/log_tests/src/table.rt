//! Tests of the memory table.
ghost use Rattle.std.specs.Prelude.{◌≡◌, length, IfOk, OnOk};
ghost use Rattle.std.specs.List.{AllByRecursion};
ghost use Rattle.range_model.specs.Sources.{ClearsKeys};

use crate::boxes::{boxed, new_table};
use entry_list::{Change, DeletedRange, Entry};
use key_base::compare;
use mem_table::MemTable;
use std::alloc::{AllocError, Global};
use std::cmp::Ordering;
use std::test::Fail;

fn write(table: &mut MemTable, key: &[u8], value: Option<&[u8]>) -> Result<(), AllocError> {
    let entry = table.reserve_for(key, value)?;
    table.set(entry);
    Ok(())
}

// Deletes the keys of a range, whose bounds are keys of one byte and rise.
fn clear_range(table: &mut MemTable, lo: &[u8], hi: &[u8]) -> Result<(), AllocError> {
    if lo.len() == 1 && hi.len() == 1 && compare(lo, hi) == Ordering::Less {
        let range = table.reserve_range(lo, hi)?;
        table.set_range(range);
    }
    Ok(())
}

fn set_change(alloc: Global, key: &[u8], value: Option<&[u8]>) -> Result<Change, AllocError>
    ensures { IfOk result ClearsKeys }
{
    let entry = Entry::new(alloc, key, value)?;
    Ok(Change::sets(entry))
}

// A range whose bounds are keys of one byte.
fn clear_change(alloc: Global, lo: &[u8], hi: &[u8]) -> Result<Change, AllocError>
    requires lo { length lo.now ≡ 1 }
    requires hi { length hi.now ≡ 1 }
    ensures { IfOk result ClearsKeys }
{
    let range = DeletedRange::new(alloc, lo, hi)?;
    Ok(Change::clears(range))
}

fn push_change(log: &mut Vec<Change>, change: Change) -> Result<(), AllocError>
    requires all { AllByRecursion ClearsKeys log.old.items }
    requires keys { ClearsKeys change }
    ensures { OnOk result (AllByRecursion ClearsKeys log.new.items) }
{
    log.push(change)?;
    Ok(())
}

// Two puts of one key, and a put and a delete of another.
fn log_of_puts(alloc: Global) -> Result<Vec<Change>, AllocError>
    ensures { IfOk result (λ log. AllByRecursion ClearsKeys log.items) }
{
    let mut log = Vec::new(alloc);
    push_change(&mut log, set_change(alloc, b"b", Some(b"1"))?)?;
    push_change(&mut log, set_change(alloc, b"a", Some(b"2"))?)?;
    push_change(&mut log, set_change(alloc, b"b", Some(b"3"))?)?;
    push_change(&mut log, set_change(alloc, b"a", None)?)?;
    Ok(log)
}

// A put, a range over it, one whose bounds are crossed, a put within the first, and a range that touches that.
fn log_with_ranges(alloc: Global) -> Result<Vec<Change>, AllocError>
    ensures { IfOk result (λ log. AllByRecursion ClearsKeys log.items) }
{
    let mut log = Vec::new(alloc);
    push_change(&mut log, set_change(alloc, b"b", Some(b"1"))?)?;
    push_change(&mut log, clear_change(alloc, b"a", b"c")?)?;
    push_change(&mut log, clear_change(alloc, b"c", b"a")?)?;
    push_change(&mut log, set_change(alloc, b"ab", Some(b"2"))?)?;
    push_change(&mut log, clear_change(alloc, b"c", b"e")?)?;
    Ok(log)
}

#[test]
fn the_newest_of_each_key_in_byte_order(rt: HostRuntime) -> Result<(), Fail> {
    let mut table = new_table(rt.alloc())?;
    assert!(rt; table.is_empty());
    write(&mut table, b"b", Some(b"1"))?;
    write(&mut table, b"ab", Some(b""))?;
    write(&mut table, b"a", Some(b"2"))?;
    write(&mut table, b"ab", None)?;
    write(&mut table, b"b", Some(b"3"))?;
    assert_eq!(rt; table.len(), 3);
    assert!(rt; matches!(table.get(b"b"), Some(Some(b"3"))));
    assert!(rt; matches!(table.get(b"ab"), Some(None)));
    assert!(rt; table.get(b"aa").is_none());
    let mut cursor = table.cursor(b"aa");
    assert!(rt; matches!(cursor.next(), Some((b"ab", None))));
    assert!(rt; matches!(cursor.next(), Some((b"b", Some(b"3")))));
    assert!(rt; cursor.next().is_none());
    table.clear();
    assert_eq!(rt; table.len(), 0);
    Ok(())
}

#[test]
fn a_cursor_begins_with_its_bound(rt: HostRuntime) -> Result<(), Fail> {
    let mut table = new_table(rt.alloc())?;
    write(&mut table, b"a", Some(b"1"))?;
    write(&mut table, b"b", None)?;
    write(&mut table, b"c", Some(b"3"))?;
    let mut cursor = table.cursor(b"a");
    assert!(rt; matches!(cursor.next(), Some((b"a", Some(b"1")))));
    let mut behind = table.cursor(b"b");
    assert!(rt; matches!(behind.next(), Some((b"b", None))));
    assert!(rt; matches!(behind.next(), Some((b"c", Some(b"3")))));
    assert!(rt; behind.next().is_none());
    Ok(())
}

#[test]
fn filled_with_the_last_of_each_key(rt: HostRuntime) -> Result<(), Fail> {
    let log = log_of_puts(rt.alloc())?;
    let mut table = boxed(rt.alloc(), MemTable::fill(log)?)?;
    assert_eq!(rt; table.len(), 2);
    assert!(rt; matches!(table.get(b"a"), Some(None)));
    assert!(rt; matches!(table.get(b"b"), Some(Some(b"3"))));
    write(&mut table, b"ab", Some(b"4"))?;
    let mut cursor = table.cursor(b"");
    assert!(rt; matches!(cursor.next(), Some((b"a", None))));
    assert!(rt; matches!(cursor.next(), Some((b"ab", Some(b"4")))));
    assert!(rt; matches!(cursor.next(), Some((b"b", Some(b"3")))));
    Ok(())
}

#[test]
fn more_keys_than_a_chunk_has_places(rt: HostRuntime) -> Result<(), Fail> {
    let mut table = new_table(rt.alloc())?;
    for i in 0..600u16 {
        let key = (i * 7 % 600).to_be_bytes();
        write(&mut table, &key, Some(b"v"))?;
    }
    assert_eq!(rt; table.len(), 600);
    let mut cursor = table.cursor(b"");
    for i in 0..600u16 {
        let Some((key, _)) = cursor.next() else {
            return Err(Fail::from("too few keys"));
        };
        assert_eq!(rt; key, i.to_be_bytes().as_slice());
    }
    assert!(rt; cursor.next().is_none());
    Ok(())
}

#[test]
fn a_range_takes_out_what_it_covers(rt: HostRuntime) -> Result<(), Fail> {
    let mut table = new_table(rt.alloc())?;
    write(&mut table, b"a", Some(b"1"))?;
    write(&mut table, b"b", Some(b"2"))?;
    write(&mut table, b"c", Some(b"3"))?;
    clear_range(&mut table, b"a", b"c")?;
    assert_eq!(rt; table.len(), 2);
    assert!(rt; matches!(table.get(b"a"), Some(None)));
    assert!(rt; table.get(b"b").is_none() && table.ranges().covers(b"b"));
    assert!(rt; matches!(table.get(b"c"), Some(Some(b"3"))));
    write(&mut table, b"b", Some(b"4"))?;
    assert!(rt; matches!(table.get(b"b"), Some(Some(b"4"))));
    let mut cursor = table.cursor(b"");
    assert!(rt; matches!(cursor.next(), Some((b"a", None))));
    assert!(rt; matches!(cursor.next(), Some((b"b", Some(b"4")))));
    assert!(rt; matches!(cursor.next(), Some((b"c", Some(b"3")))));
    assert!(rt; cursor.next().is_none());
    table.clear();
    assert!(rt; table.is_empty() && table.ranges().is_empty());
    Ok(())
}

// Puts 600 keys of two bytes, and deletes those from one byte on and below another.
fn cleared_of_many(table: &mut MemTable, lo: u8, hi: u8) -> Result<(), AllocError> {
    for i in 0..600u16 {
        let key = (i * 7 % 600).to_be_bytes();
        write(table, &key, Some(b"v"))?;
    }
    clear_range(table, &[lo], &[hi])
}

#[test]
fn a_range_takes_out_whole_chunks(rt: HostRuntime) -> Result<(), Fail> {
    let rows = [
        (0, 1, 345),
        (0, 2, 89),
        (0, 3, 1),
        (1, 2, 345),
        (2, 9, 513),
        (1, 9, 257),
        (3, 9, 601),
    ];
    for (lo, hi, left) in rows {
        let mut table = new_table(rt.alloc())?;
        cleared_of_many(&mut table, lo, hi)?;
        assert_eq!(rt; table.len(), left);
        assert_eq!(rt; table.ranges().len(), 1);
    }
    Ok(())
}

#[test]
fn filled_with_ranges_in_turn(rt: HostRuntime) -> Result<(), Fail> {
    let log = log_with_ranges(rt.alloc())?;
    let table = boxed(rt.alloc(), MemTable::fill(log)?)?;
    assert_eq!(rt; table.len(), 3);
    assert!(rt; matches!(table.get(b"a"), Some(None)));
    assert!(rt; matches!(table.get(b"ab"), Some(Some(b"2"))));
    assert!(rt; table.get(b"b").is_none() && table.ranges().covers(b"b"));
    assert!(rt; matches!(table.get(b"c"), Some(None)));
    assert_eq!(rt; table.ranges().len(), 1);
    Ok(())
}
