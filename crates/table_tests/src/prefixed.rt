//! Blocks with shared prefixes: what is read of changed bytes, and what is found in them.
use crate::asserts::{check_same, check_that};
use crate::drawn_blocks::{drawn_keys, entries_of};
use block_format::{Block, BlockBuilder};
use byte_fields::fnv1a;
use entry_list::{Entry, push_copy};
use plain_blocks::{are_entries, block_bytes, block_length, old_block_bytes};
use std::alloc::{AllocError, Global};
use std::test::Fail;
use test_kit::Numbers;

// The block of a with the value b.
fn a_b() -> [u8; 4096] {
    let mut page = [0; 4096];
    let used = [
        0x15, 0, 0, 0, 1, 2, 0, 0, 0x0A, 0, 1, 0, 0, 1, 0, 1, 0, 0, 0, 0x61, 0x62,
    ];
    page[..21].copy_from_slice(&used);
    page
}

// The rule that the bytes break first, and where.
fn fault_of(bytes: &[u8]) -> Option<(usize, u8)> {
    match Block::read(bytes) {
        Ok(_) => None,
        Err(fault) => Some((fault.place, fault.rule)),
    }
}

#[test]
fn a_block_of_one_entry(rt: HostRuntime) -> Result<(), Fail> {
    let mut list = Vec::new(rt.alloc());
    push_copy(&Entry::new(rt.alloc(), b"a", Some(b"b"))?, &mut list)?;
    assert!(rt; are_entries(list.as_slice()));
    let bytes = block_bytes(rt.alloc(), list.as_slice())?;
    check_same(&rt, &bytes.as_slice(), &a_b().as_slice());
    check_same(&rt, &fnv1a(bytes.as_slice()), &0x587B62AD428B4221);
    check_same(&rt, &fault_of(bytes.as_slice()), &None);
    Ok(())
}

// Puts a byte at a place, if there is one.
fn put(bytes: &mut [u8], place: usize, value: u8) {
    if let Some(byte) = bytes.get_mut(place) {
        *byte = value;
    }
}

#[test]
fn one_changed_byte(rt: HostRuntime) -> Result<(), Fail> {
    let rows = [
        (0, 0x13, 0, 1),
        (4, 0x00, 4, 2),
        (5, 0x01, 5, 2),
        (6, 0x01, 6, 2),
        (8, 0x0B, 8, 9),
        (9, 0x01, 8, 9),
        (4, 0xFF, 8, 9),
        (4, 0x02, 21, 3),
        (10, 0x03, 10, 4),
        (10, 0x02, 10, 4),
        (11, 0x01, 10, 10),
        (13, 0x00, 10, 5),
        (12, 0x04, 10, 5),
        (12, 0x05, 10, 5),
        (17, 0x10, 10, 5),
        (13, 0x03, 10, 3),
        (0, 0x16, 21, 7),
        (30, 0x01, 30, 8),
    ];
    for (place, byte, at, rule) in rows {
        let mut page = a_b();
        put(&mut page, place, byte);
        check_same(&rt, &fault_of(&page), &Some((at, rule)));
    }
    Ok(())
}

#[test]
fn two_changed_bytes(rt: HostRuntime) -> Result<(), Fail> {
    let rows = [
        (0, 0x13, 5, 0x01, 5, 2),
        (0, 0x0F, 5, 0x01, 0, 1),
        (11, 0x01, 13, 0x00, 10, 10),
        (11, 0x01, 10, 0x03, 10, 4),
        (17, 0x10, 15, 0x00, 10, 3),
        (8, 0x0B, 10, 0x03, 8, 9),
        (6, 0x01, 8, 0x0B, 6, 2),
    ];
    for (place, byte, other, change, at, rule) in rows {
        let mut page = a_b();
        page[place] = byte;
        page[other] = change;
        check_same(&rt, &fault_of(&page), &Some((at, rule)));
    }
    Ok(())
}

// The old block of a with the value b.
fn old_a_b() -> [u8; 4096] {
    let mut page = [0; 4096];
    let used = [0x11, 0, 0, 0, 1, 0, 0, 0, 1, 1, 0, 1, 0, 0, 0, 0x61, 0x62];
    page[..17].copy_from_slice(&used);
    page
}

// The same entry twice.
fn old_a_b_twice() -> [u8; 4096] {
    let mut page = [0; 4096];
    let used = [
        0x1A, 0, 0, 0, 2, 0, 0, 0, 1, 1, 0, 1, 0, 0, 0, 0x61, 0x62, 1, 1, 0, 1, 0, 0, 0, 0x61, 0x62,
    ];
    page[..26].copy_from_slice(&used);
    page
}

#[test]
fn changed_bytes_of_an_old_block(rt: HostRuntime) -> Result<(), Fail> {
    check_same(&rt, &fault_of(&old_a_b()), &None);
    let rows = [
        (0, 0x0F, 0, 1),
        (4, 0x00, 4, 2),
        (5, 0x01, 5, 2),
        (5, 0x02, 0, 1),
        (4, 0x02, 17, 3),
        (8, 0x03, 8, 4),
        (8, 0x02, 8, 4),
        (9, 0x00, 8, 5),
        (0, 0x12, 17, 7),
        (20, 0x01, 20, 8),
        (4_095, 0x01, 4_095, 8),
    ];
    for (place, byte, at, rule) in rows {
        let mut page = old_a_b();
        put(&mut page, place, byte);
        check_same(&rt, &fault_of(&page), &Some((at, rule)));
    }
    check_same(&rt, &fault_of(&old_a_b_twice()), &Some((17, 6)));
    Ok(())
}

// The block of a with the value b and of a tombstone of ab.
fn a_b_and_ab() -> [u8; 4096] {
    let mut page = [0; 4096];
    let used = [
        0x1F, 0, 0, 0, 2, 2, 0, 0, 0x0A, 0, 1, 0, 0, 1, 0, 1, 0, 0, 0, 0x61, 0x62, 2, 1, 0, 1, 0,
        0, 0, 0, 0, 0x62,
    ];
    page[..31].copy_from_slice(&used);
    page
}

#[test]
fn what_a_builder_of_prefixes_wrote_is_read(rt: HostRuntime) -> Result<(), Fail> {
    let mut builder = BlockBuilder::new(rt.alloc());
    let mut out = Vec::new(rt.alloc());
    check_that(&rt, builder.add(b"a", Some(b"b"))?);
    builder.close(&mut out)?;
    check_same(&rt, &out.as_slice(), &a_b().as_slice());
    check_that(&rt, builder.add(b"a", Some(b"b"))?);
    check_that(&rt, builder.add(b"ab", None)?);
    out.clear();
    builder.close(&mut out)?;
    check_same(&rt, &out.as_slice(), &a_b_and_ab().as_slice());
    let Ok(block) = Block::read(out.as_slice()) else {
        return Err(Fail::from("no block"));
    };
    check_same(&rt, &block.find(b"a"), &Some(Some(b"b".as_slice())));
    check_same(&rt, &block.find(b"ab"), &Some(None));
    check_same(&rt, &block.find(b"aa"), &None);
    Ok(())
}

// Adds an entry of one byte, once more where there was no memory, and then nothing may have changed.
fn add_again(builder: &mut BlockBuilder, key: &[u8], value: Option<&[u8]>) -> Result<bool, Fail> {
    if key.is_empty() || key.len() > 2 || value.is_some_and(|value| value.len() > 1) {
        return Err(Fail::from("out of the limits"));
    }
    let (pages, is_empty) = (builder.pages(), builder.is_empty());
    if let Ok(added) = builder.add(key, value) {
        return Ok(added);
    }
    if (builder.pages(), builder.is_empty()) != (pages, is_empty) {
        return Err(Fail::from("an entry is there"));
    }
    Ok(builder.add(key, value)?)
}

// One is made to fail from outside, by its number.
#[test]
fn each_allocation_of_a_builder_may_fail(rt: HostRuntime) -> Result<(), Fail> {
    let mut builder = BlockBuilder::new(rt.alloc());
    let mut out = Vec::new(rt.alloc());
    check_that(&rt, add_again(&mut builder, b"a", Some(b"b"))?);
    check_that(&rt, add_again(&mut builder, b"ab", None)?);
    if builder.is_empty() {
        return Err(Fail::from("no entry"));
    }
    if builder.close(&mut out).is_err() {
        check_that(&rt, out.is_empty() && !builder.is_empty());
        builder.close(&mut out)?;
    }
    check_that(&rt, builder.is_empty());
    check_same(&rt, &out.as_slice(), &a_b_and_ab().as_slice());
    Ok(())
}

// Adds an entry whose key and value keep the limits.
fn add(builder: &mut BlockBuilder, key: &[u8], value: &[u8]) -> Result<bool, Fail> {
    if key.is_empty() || key.len() > 1_024 || value.len() > 1_048_576 {
        return Err(Fail::from("out of the limits"));
    }
    Ok(builder.add(key, Some(value))?)
}

// The bytes of a key and of a value. The key is that many of a letter, and so is the value.
type Lengths = (usize, usize);

const FIRST_LETTER: u8 = b'a';

#[test]
fn prefixed_blocks_that_are_full_to_the_byte(rt: HostRuntime) -> Result<(), Fail> {
    let alloc = rt.alloc();
    // The entries, how many of them one block takes, and its pages. A block has 10 bytes before its entries, an entry 9 before
    // its key.
    let rows: [(&[Lengths], usize, u64); 5] = [
        (&[(1, 2_033), (1, 2_033)], 2, 1),
        (&[(1, 2_033), (1, 2_034)], 1, 1),
        (&[(1, 4_076)], 1, 1),
        (&[(1, 4_077)], 1, 2),
        (&[(1_024, 1_048_576)], 1, 257),
    ];
    for (entries, taken, pages) in rows {
        let mut builder = BlockBuilder::new(alloc);
        let mut count = 0_usize;
        for ((key, value), letter) in entries.iter().copied().zip(FIRST_LETTER..) {
            let key = vec![in alloc; letter; key]?;
            let value = vec![in alloc; letter; value]?;
            if add(&mut builder, &key, &value)? {
                count = count.saturating_add(1);
            }
        }
        check_same(&rt, &(count, builder.pages()), &(taken, pages));
    }
    Ok(())
}

#[test]
fn the_largest_block(rt: HostRuntime) -> Result<(), Fail> {
    let alloc = rt.alloc();
    let mut builder = BlockBuilder::new(alloc);
    let mut out = Vec::new(alloc);
    let key = vec![in alloc; b'k'; 1_024]?;
    let value = vec![in alloc; b'v'; 1_048_576]?;
    check_that(&rt, add(&mut builder, &key, &value)?);
    if !builder.is_empty() {
        builder.close(&mut out)?;
    }
    check_that(&rt, out.len() == 1_052_672);
    let head = [
        0x13, 4, 0x10, 0, 1, 2, 0, 0, 0x0A, 0, 1, 0, 0, 0, 4, 0, 0, 0x10, 0,
    ];
    check_that(&rt, alike(out.as_slice(), &head) == 19);
    check_same(&rt, &fault_of(out.as_slice()), &None);
    Ok(())
}

#[test]
fn a_prefixed_block_takes_255_entries(rt: HostRuntime) -> Result<(), Fail> {
    let mut builder = BlockBuilder::new(rt.alloc());
    let mut first = 0_u32;
    let mut second = 0_u32;
    for i in 0..300_u32 {
        let key = [(i / 256) as u8, (i % 256) as u8];
        if builder.add(&key, None)? {
            second = second.saturating_add(1);
        } else {
            builder.clear();
            first = second;
            second = 1;
            check_that(&rt, builder.add(&key, None)?);
        }
    }
    check_same(&rt, &(first, second), &(255, 45));
    Ok(())
}

// k000 without a value, and after it an entry without one, which shares so many bytes and has such a rest.
fn after_k000(shared: u8, rest: &[u8]) -> [u8; 4096] {
    let mut page = [0; 4096];
    let used = [
        0, 0, 0, 0, 2, 2, 0, 0, 0x0A, 0, 2, 0, 0, 4, 0, 0, 0, 0, 0, 0x6B, 0x30, 0x30, 0x30, 2,
        shared, 0, 0, 0, 0, 0, 0, 0,
    ];
    page[..32].copy_from_slice(&used);
    for (byte, other) in page.iter_mut().skip(32).zip(rest) {
        *byte = *other;
    }
    let own = rest.len().min(255) as u8;
    page[26] = own;
    page[0] = 32_u8.wrapping_add(own);
    page
}

#[test]
fn an_entry_after_k000(rt: HostRuntime) -> Result<(), Fail> {
    let read: [(u8, &[u8]); 3] = [(3, b"1"), (4, b"1"), (0, b"l")];
    for (shared, rest) in read {
        check_same(&rt, &fault_of(&after_k000(shared, rest)), &None);
    }
    let refused: [(u8, &[u8], u8); 9] = [
        (2, b"01", 10),
        (5, b"1", 10),
        (3, b"0", 10),
        (2, b"//", 6),
        (3, b"", 6),
        (4, b"", 6),
        (5, b"", 10),
        (0, b"k001", 10),
        (0, b"", 5),
    ];
    for (shared, rest, rule) in refused {
        check_same(&rt, &fault_of(&after_k000(shared, rest)), &Some((23, rule)));
    }
    Ok(())
}

// Entries without a value, k000 and so on.
fn tombstones(alloc: Global, count: u8) -> Result<Vec<Entry>, AllocError> {
    let mut list = Vec::new(alloc);
    for i in 0..count {
        let key = [0x6B, 0x30, 0x30 + i / 10, 0x30 + i % 10];
        push_copy(&Entry::new(alloc, &key, None)?, &mut list)?;
    }
    Ok(list)
}

#[test]
fn seventeen_entries(rt: HostRuntime) -> Result<(), Fail> {
    let list = tombstones(rt.alloc(), 17)?;
    assert!(rt; are_entries(list.as_slice()));
    check_same(&rt, &block_length(list.as_slice()), &189);
    let mut bytes = block_bytes(rt.alloc(), list.as_slice())?;
    assert!(rt; bytes.len() == 4096);
    check_same(&rt, &&bytes[8..12], &[0x0C, 0, 0xB0, 0].as_slice());
    check_same(&rt, &fault_of(bytes.as_slice()), &None);
    bytes[177] = 3;
    bytes[179] = 1;
    check_same(&rt, &fault_of(bytes.as_slice()), &Some((176, 10)));
    Ok(())
}

// ---- changed bytes, beside the rules one by one

// The number in so many bytes from a place on, the lowest byte first. Bytes that are not there count as 0.
fn number(bytes: &[u8], at: usize, width: usize) -> usize {
    let mut sum = 0_usize;
    let mut unit = 1_usize;
    for byte in bytes.iter().skip(at).take(width) {
        sum = sum.wrapping_add(usize::from(*byte).wrapping_mul(unit));
        unit = unit.wrapping_mul(256);
    }
    sum
}

// The bytes of a block's list, in the format with shared prefixes.
fn list_length(count: usize) -> usize {
    count.saturating_add(15) / 16 * 2
}

// The rule of the header that bytes break first, and where.
fn header_fault(bytes: &[u8], prefixed: bool) -> Option<(usize, u8)> {
    let used = number(bytes, 0, 4);
    let count = number(bytes, 4, 1);
    let least = if prefixed { 20 } else { 16 };
    let pages = used.saturating_add(4_095) / 4_096;
    let list = if prefixed { list_length(count) } else { 0 };
    let rules = [
        (used < least || bytes.len() / 4_096 != pages, 0, 1),
        (count == 0 || used > 4_096 && count > 1, 4, 2),
        (!prefixed && number(bytes, 5, 1) != 0, 5, 2),
        (number(bytes, 6, 1) != 0, 6, 2),
        (number(bytes, 7, 1) != 0, 7, 2),
        (used < list.saturating_add(8), 8, 9),
    ];
    for (is_broken, place, rule) in rules {
        if is_broken {
            return Some((place, rule));
        }
    }
    None
}

// What an entry says before its key: the bytes of that, its kind, and how many bytes are shared, its own, and its value's.
type Head = (usize, usize, usize, usize, usize);

fn head_in(rest: &[u8], prefixed: bool) -> Head {
    let kind = number(rest, 0, 1);
    if prefixed {
        let own = number(rest, 3, 2);
        return (9, kind, number(rest, 1, 2), own, number(rest, 5, 4));
    }
    (7, kind, 0, number(rest, 1, 2), number(rest, 3, 4))
}

// How many bytes two keys have alike from their first on.
fn alike(one: &[u8], other: &[u8]) -> usize {
    let mut count = 0_usize;
    for (a, b) in one.iter().zip(other) {
        if a != b {
            return count;
        }
        count = count.saturating_add(1);
    }
    count
}

// The rule that entry i breaks first, by its key and the one before.
fn entry_fault(prefixed: bool, i: usize, rest: &[u8], before: &[u8], key: &[u8]) -> Option<u8> {
    let (head, kind, shared, own, value) = head_in(rest, prefixed);
    let most = if prefixed { 1_048_576 } else { 65_536 };
    let length = shared.saturating_add(own);
    let wanted = if i % 16 == 0 { 0 } else { alike(before, key) };
    let width = head.saturating_add(own).saturating_add(value);
    let rules = [
        (rest.len() < head, 3),
        (kind != 1 && (kind != 2 || value > 0), 4),
        (length == 0 || length > 1_024 || value > most, 5),
        (rest.len() < width, 3),
        (prefixed && shared != wanted, 10),
        (key <= before, 6),
    ];
    for (is_broken, rule) in rules {
        if is_broken {
            return Some(rule);
        }
    }
    None
}

// The key of an entry: as many bytes as it shares of the one before, and its own.
fn key_of(
    alloc: Global,
    rest: &[u8],
    prefixed: bool,
    before: &[u8],
) -> Result<Vec<u8>, AllocError> {
    let (head, _, shared, own, _) = head_in(rest, prefixed);
    let mut key = Vec::new(alloc);
    for byte in before.iter().take(shared) {
        key.push(*byte).map_err(AllocError::from)?;
    }
    for byte in rest.iter().skip(head).take(own) {
        key.push(*byte).map_err(AllocError::from)?;
    }
    Ok(key)
}

// The rule of the entries or of what comes after them that bytes break first, and where.
fn entries_fault(
    alloc: Global,
    bytes: &[u8],
    prefixed: bool,
) -> Result<Option<(usize, u8)>, AllocError> {
    let count = number(bytes, 4, 1);
    let used = number(bytes, 0, 4).min(bytes.len());
    let list = if prefixed { list_length(count) } else { 0 };
    let mut at = list.saturating_add(8);
    let mut before = Vec::new(alloc);
    for i in 0..count {
        let listed = (i / 16).saturating_mul(2).saturating_add(8);
        if prefixed && i % 16 == 0 && number(bytes, listed, 2) != at {
            return Ok(Some((listed, 9)));
        }
        let rest = if at < used { &bytes[at..used] } else { b"" };
        let key = key_of(alloc, rest, prefixed, before.as_slice())?;
        if let Some(rule) = entry_fault(prefixed, i, rest, before.as_slice(), key.as_slice()) {
            return Ok(Some((at, rule)));
        }
        let (head, _, _, own, value) = head_in(rest, prefixed);
        at = at
            .saturating_add(head)
            .saturating_add(own)
            .saturating_add(value);
        before = key;
    }
    if at < used {
        return Ok(Some((at, 7)));
    }
    Ok(tail_fault(bytes, used))
}

// The first byte after the length that is not 0.
fn tail_fault(bytes: &[u8], used: usize) -> Option<(usize, u8)> {
    let place = bytes.iter().skip(used).position(|byte| *byte != 0)?;
    Some((used.saturating_add(place), 8))
}

// The rule that the bytes of a block of either format break first, and where.
fn plain_fault(alloc: Global, bytes: &[u8]) -> Result<Option<(usize, u8)>, AllocError> {
    let prefixed = number(bytes, 5, 1) == 2;
    match header_fault(bytes, prefixed) {
        Some(fault) => Ok(Some(fault)),
        None => entries_fault(alloc, bytes, prefixed),
    }
}

// Puts other bytes at some drawn places, most of them low.
fn damage(numbers: &mut Numbers, bytes: &mut [u8]) {
    for _ in 0..2 {
        let most = [12, 40, 600, 4_096][numbers.draw_below(4) % 4];
        let place = numbers.draw_below(most);
        let value = [0, 1, 2, 0xFF, numbers.draw_to(255) as u8][numbers.draw_below(5) % 5];
        if let Some(byte) = bytes.get_mut(place) {
            *byte = value;
        }
    }
}

#[test]
fn changed_bytes_of_drawn_blocks(rt: HostRuntime) -> Result<(), Fail> {
    let mut numbers = Numbers::new(45);
    for round in 0..120_u32 {
        let count = [1, 3, 17, 40, 255][numbers.draw_below(5) % 5];
        let keys = drawn_keys(rt.alloc(), &mut numbers, count)?;
        let list = entries_of(rt.alloc(), &mut numbers, keys.as_slice())?;
        let list = list.as_slice();
        assert!(rt; are_entries(list));
        let mut bytes = if round % 3 == 0 {
            old_block_bytes(rt.alloc(), list)?
        } else {
            block_bytes(rt.alloc(), list)?
        };
        check_same(
            &rt,
            &fault_of(bytes.as_slice()),
            &plain_fault(rt.alloc(), bytes.as_slice())?,
        );
        damage(&mut numbers, bytes.as_mut_slice());
        check_same(
            &rt,
            &fault_of(bytes.as_slice()),
            &plain_fault(rt.alloc(), bytes.as_slice())?,
        );
    }
    Ok(())
}
