//! The log over a disk that crashes, replayed and put into a table.
use crate::boxes::{boxed, failing_disk, new_disk};
use disk_mem::{Choice, MemDisk};
use disk_trait::{Disk, DiskFault, Op};
use gate_log::{BUFFER_BYTES, Log, LogFault, range_need, record_need};
use key_base::{LOG_BYTES, MAX_KEY_BYTES, MAX_LOGGED_VALUE_BYTES, compare};
use mem_table::MemTable;
use std::alloc::{AllocError, Global};
use std::cmp::Ordering;
use std::test::Fail;

// Puts a value, where key and value keep their limits and the record fits. Answers whether the record is there.
fn put<D: Disk>(log: &mut Log, disk: &mut D, buf: &mut [u8], key: &[u8], value: &[u8]) -> bool {
    let short = !key.is_empty()
        && key.len() <= MAX_KEY_BYTES
        && value.len() <= MAX_LOGGED_VALUE_BYTES;
    if !short || buf.len() < BUFFER_BYTES || !log.fits(record_need(key, Some(value))) {
        return false;
    }
    log.append(disk, buf, key, Some(value)).is_ok()
}

fn delete<D: Disk>(log: &mut Log, disk: &mut D, buf: &mut [u8], key: &[u8]) -> bool {
    let short = !key.is_empty() && key.len() <= MAX_KEY_BYTES;
    if !short || buf.len() < BUFFER_BYTES || !log.fits(record_need(key, None)) {
        return false;
    }
    log.append(disk, buf, key, None).is_ok()
}

// Deletes the keys of a range, whose bounds are keys of one byte and rise.
fn clear<D: Disk>(log: &mut Log, disk: &mut D, buf: &mut [u8], lo: &[u8], hi: &[u8]) -> bool {
    let rise = lo.len() == 1 && hi.len() == 1 && compare(lo, hi) == Ordering::Less;
    if !rise || buf.len() < BUFFER_BYTES || !log.fits(range_need(lo, hi)) {
        return false;
    }
    log.append_range(disk, buf, lo, hi).is_ok()
}

// Five appends, a put or a delete each, up to the first that fails. Answers how many were done.
fn five_appends(disk: &mut MemDisk, buf: &mut [u8]) -> usize {
    let Ok(mut log) = Log::start(disk, 0) else {
        return 0;
    };
    if !put(&mut log, disk, buf, b"b", b"1") {
        return 0;
    }
    if !put(&mut log, disk, buf, b"a", b"") {
        return 1;
    }
    if !delete(&mut log, disk, buf, b"b") {
        return 2;
    }
    if !put(&mut log, disk, buf, b"b", b"22") {
        return 3;
    }
    if !delete(&mut log, disk, buf, b"a") {
        return 4;
    }
    5
}

// What a crash makes of one write: all of it, none of it, or bytes 07.
fn choice_of(alloc: Global, number: usize, length: usize) -> Result<Choice, AllocError> {
    match number {
        0 => Ok(Choice::Whole),
        1 => Ok(Choice::Lost),
        _ => {
            let bytes = vec![in alloc; 7; length]?;
            Ok(Choice::Bytes(bytes))
        }
    }
}

// No entry is 0, a tombstone 1, and a value its length and 2.
fn seen(found: Option<Option<&[u8]>>) -> usize {
    match found {
        None => 0,
        Some(None) => 1,
        Some(Some(value)) => 2usize.saturating_add(value.len()),
    }
}

// What is read of a disk: how many changes, and what the table of them says of two keys.
fn read_of(
    alloc: Global,
    disk: &mut MemDisk,
    one: &[u8],
    other: &[u8],
) -> Result<(usize, usize, usize), Fail> {
    match Log::replay(alloc, disk, 0) {
        Ok((_, changes)) => {
            let count = changes.len();
            let table = boxed(alloc, MemTable::fill(changes)?)?;
            Ok((count, seen(table.get(one)), seen(table.get(other))))
        }
        Err(_) => Err(Fail::from("no log")),
    }
}

// What a crash leaves of a disk.
fn crashed(alloc: Global, disk: &MemDisk, choice: Choice) -> Result<Box<MemDisk>, AllocError> {
    boxed(alloc, disk.crash(&[choice])?)
}

// Five appends, of which the sync after the write of this number fails, and then a crash, which makes this of that write.
fn after_a_stop(
    alloc: Global,
    buf: &mut [u8],
    stop: usize,
    length: usize,
    choice: usize,
) -> Result<(usize, usize, usize), Fail> {
    // The calls are those of the start, 0 and 1, and for each append a write, a sync, a write and a sync.
    let call = 2u64.saturating_mul(stop as u64).saturating_add(3);
    let mut disk = failing_disk(alloc, call)?;
    five_appends(&mut disk, buf);
    let mut left = crashed(alloc, &disk, choice_of(alloc, choice, length)?)?;
    read_of(alloc, &mut left, b"b", b"a")
}

#[test]
fn every_crash_choice_at_every_write_of_five_appends(rt: HostRuntime) -> Result<(), Fail> {
    let alloc = rt.alloc();
    let mut buf = vec![in alloc; 0; BUFFER_BYTES]?;
    // The bytes of each write, and what is read where it is lost or left as 07, and where it is whole.
    let rows = [
        (10, (0, 0, 0), (0, 0, 0)),
        (1, (0, 0, 0), (1, 3, 0)),
        (9, (1, 3, 0), (1, 3, 0)),
        (1, (1, 3, 0), (2, 3, 2)),
        (9, (2, 3, 2), (2, 3, 2)),
        (1, (2, 3, 2), (3, 1, 2)),
        (11, (3, 1, 2), (3, 1, 2)),
        (1, (3, 1, 2), (4, 4, 2)),
        (9, (4, 4, 2), (4, 4, 2)),
        (1, (4, 4, 2), (5, 4, 1)),
    ];
    for (stop, (length, without, with)) in rows.iter().copied().enumerate() {
        assert_eq!(rt;
            after_a_stop(alloc, &mut buf, stop, length, 0)?,
            with,
            "whole, stopped at write {stop}"
        );
        assert_eq!(rt;
            after_a_stop(alloc, &mut buf, stop, length, 1)?,
            without,
            "lost, stopped at write {stop}"
        );
        assert_eq!(rt;
            after_a_stop(alloc, &mut buf, stop, length, 2)?,
            without,
            "07, stopped at write {stop}"
        );
    }
    Ok(())
}

// Two puts, and a third whose gate was being opened when the device stopped, its byte left as 07.
fn stopped_at_the_third_gate(alloc: Global, buf: &mut [u8]) -> Result<Box<MemDisk>, Fail> {
    let mut disk = failing_disk(alloc, 13)?;
    three_puts(&mut disk, buf);
    Ok(crashed(alloc, &disk, choice_of(alloc, 2, 1)?)?)
}

fn three_puts(disk: &mut MemDisk, buf: &mut [u8]) {
    if let Ok(mut log) = Log::start(disk, 0) {
        put(&mut log, disk, buf, b"far", b"1");
        put(&mut log, disk, buf, b"fast", b"2");
        put(&mut log, disk, buf, b"top", b"3");
    }
}

// Another put, after the log was read again.
fn put_again(alloc: Global, disk: &mut MemDisk, buf: &mut [u8]) -> bool {
    let Ok((mut log, _changes)) = Log::replay(alloc, disk, 0) else {
        return false;
    };
    put(&mut log, disk, buf, b"top", b"44")
}

#[test]
fn a_gate_left_as_07_is_closed(rt: HostRuntime) -> Result<(), Fail> {
    let alloc = rt.alloc();
    let mut buf = vec![in alloc; 0; BUFFER_BYTES]?;
    let mut disk = stopped_at_the_third_gate(alloc, &mut buf)?;
    assert_eq!(rt; read_of(alloc, &mut disk, b"far", b"top")?, (2, 3, 0));
    assert_eq!(rt; read_of(alloc, &mut disk, b"fast", b"top")?, (2, 3, 0));
    assert!(rt; put_again(alloc, &mut disk, &mut buf));
    let mut again = boxed(alloc, disk.crash(&[])?)?;
    assert_eq!(rt; read_of(alloc, &mut again, b"fast", b"top")?, (3, 3, 4));
    Ok(())
}

// The changes of the log of area 0, written into area 1 and read there: how many.
fn moved(alloc: Global, disk: &mut MemDisk, buf: &mut [u8]) -> Result<usize, Fail> {
    let Ok((_log, changes)) = Log::replay(alloc, disk, 0) else {
        return Err(Fail::from("no log"));
    };
    if buf.len() < BUFFER_BYTES || Log::rewrite(disk, 1, buf, &changes).is_err() {
        return Err(Fail::from("no copy"));
    }
    match Log::replay(alloc, disk, 1) {
        Ok((_, again)) => Ok(again.len()),
        Err(_) => Err(Fail::from("no log there")),
    }
}

#[test]
fn changes_move_to_the_other_area(rt: HostRuntime) -> Result<(), Fail> {
    let alloc = rt.alloc();
    let mut buf = vec![in alloc; 0; BUFFER_BYTES]?;
    let mut disk = new_disk(alloc)?;
    assert_eq!(rt; five_appends(&mut disk, &mut buf), 5);
    assert_eq!(rt; moved(alloc, &mut disk, &mut buf)?, 5);
    Ok(())
}

// So many of a byte. No test knows more of them than it reads.
fn repeated(alloc: Global, byte: u8, count: usize) -> Result<Vec<u8>, AllocError> {
    vec![in alloc; byte; count]
}

// A log of three records of the longest key and value, and one of a short key that leaves so many bytes.
fn filled_to(alloc: Global, disk: &mut MemDisk, buf: &mut [u8], left: usize) -> Result<bool, Fail> {
    let key = repeated(alloc, b'k', MAX_KEY_BYTES)?;
    let value = repeated(alloc, b'x', MAX_LOGGED_VALUE_BYTES)?;
    let Ok(mut log) = Log::start(disk, 0) else {
        return Ok(false);
    };
    for _ in 0..3 {
        put(&mut log, disk, buf, &key, &value);
    }
    // A record whose key has one byte, but for the gate behind it, which stays in the gap.
    let rest = log
        .gap()
        .saturating_sub(record_need(b"k", None) - 1)
        .saturating_sub(left);
    Ok(rest <= value.len() && put(&mut log, disk, buf, b"k", &value[..rest]) && log.gap() == left)
}

#[test]
fn a_log_filled_to_its_last_byte(rt: HostRuntime) -> Result<(), Fail> {
    let alloc = rt.alloc();
    let mut buf = vec![in alloc; 0; BUFFER_BYTES]?;
    let mut disk = new_disk(alloc)?;
    assert!(rt; filled_to(alloc, &mut disk, &mut buf, 1)?);
    let (entries, of_k, _) = read_of(alloc, &mut disk, b"k", b"j")?;
    assert_eq!(rt; entries, 4);
    assert_eq!(rt; of_k, 62_432);
    assert!(rt; !filled_to(alloc, &mut disk, &mut buf, 0)?);
    Ok(())
}

#[test]
fn a_fault_names_the_byte_of_the_device(rt: HostRuntime) -> Result<(), Fail> {
    let alloc = rt.alloc();
    let mut disk = new_disk(alloc)?;
    assert!(rt;
        disk.write(LOG_BYTES as u64, &[1, 4, 1, 0, 0, 0, 0, 0, 107])
            .is_ok()
    );
    assert!(rt;
        disk.write(524_288, &[1, 2, 1, 0, 0, 0, 0, 0, 107, 1, 1, 0, 0])
            .is_ok()
    );
    assert_eq!(rt;
        fault_of(alloc, &mut disk, 0),
        Some(LogFault::Shape {
            at: LOG_BYTES as u64,
            rule: 2
        })
    );
    assert_eq!(rt;
        fault_of(alloc, &mut disk, 1),
        Some(LogFault::Shape {
            at: 524_297,
            rule: 3
        })
    );
    assert_eq!(rt; disk.reads(), 2);
    Ok(())
}

fn fault_of(alloc: Global, disk: &mut MemDisk, area: u8) -> Option<LogFault> {
    if area > 1 {
        return None;
    }
    Log::replay(alloc, disk, area).err()
}

#[test]
fn a_read_that_fails_is_named(rt: HostRuntime) -> Result<(), Fail> {
    let alloc = rt.alloc();
    let mut disk = failing_disk(alloc, 0)?;
    let fault = DiskFault {
        op: Op::Read,
        at: 524_288,
    };
    assert_eq!(rt;
        fault_of(alloc, &mut disk, 1),
        Some(LogFault::Device(fault))
    );
    Ok(())
}

// A put of the value 62 at the key 61, a range from 61 to 63, and a delete of 61.
fn put_range_and_delete(disk: &mut MemDisk, buf: &mut [u8]) {
    if let Ok(mut log) = Log::start(disk, 0) {
        put(&mut log, disk, buf, b"a", b"b");
        clear(&mut log, disk, buf, b"a", b"c");
        delete(&mut log, disk, buf, b"a");
    }
}

// All three, and then the first bytes of area 0.
fn bytes_of_three_records(alloc: Global) -> Result<[u8; 30], Fail> {
    let mut buf = vec![in alloc; 0; BUFFER_BYTES]?;
    let mut disk = new_disk(alloc)?;
    put_range_and_delete(&mut disk, &mut buf);
    let mut bytes = [9; 30];
    match disk.read(LOG_BYTES as u64, &mut bytes) {
        Ok(()) => Ok(bytes),
        Err(_) => Err(Fail::from("no bytes")),
    }
}

#[test]
fn the_bytes_of_a_put_a_range_and_a_delete(rt: HostRuntime) -> Result<(), Fail> {
    assert_eq!(rt;
        bytes_of_three_records(rt.alloc())?,
        [
            1, 1, 1, 0, 1, 0, 0, 0, 0x61, 0x62, //
            1, 3, 1, 0, 1, 0, 0, 0, 0x61, 0x63, //
            1, 2, 1, 0, 0, 0, 0, 0, 0x61, 0
        ]
    );
    Ok(())
}
