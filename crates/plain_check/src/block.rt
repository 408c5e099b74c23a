//! A block of a table.
use crate::bytes::{alike, byte, comes_before, first_filled, four, pages_for, part, two};
use crate::finding::{Stop, refuse, refuse_sum};
use byte_fields::fnv1a;
use std::alloc::{AllocError, Global};

/// An entry of a table or of the log: its key, and whether it has a value.
#[derive(Drop)]
pub(crate) struct Entry {
    pub key: Vec<u8>,
    pub lives: bool,
}

/// Appends an entry.
pub(crate) fn push(entries: &mut Vec<Entry>, entry: Entry) -> Result<(), AllocError> {
    entries.push(entry)?;
    Ok(())
}

// What the head of a block says: its length, its entries, and whether they share the beginnings of keys.
#[derive(Clone, Copy)]
struct Head {
    used: u64,
    count: u8,
    shares: bool,
}

impl Head {
    fn of(bytes: &[u8]) -> Head {
        Head {
            used: u64::from(four(bytes, 0)),
            count: byte(bytes, 4),
            shares: byte(bytes, 5) == 2,
        }
    }

    // The bytes of the list of places.
    fn list(&self) -> u64 {
        if self.shares {
            2 * ((u64::from(self.count) + 15) / 16)
        } else {
            0
        }
    }
}

// Rules 1 and 2, and rule 9 of the list's end.
fn judge_head(bytes: &[u8], head: Head) -> Result<(), Stop> {
    let least = if head.shares { 20 } else { 16 };
    let pages = pages_for(head.used);
    let length = bytes.len() as u64;
    let small = length < 8 || head.used < least;
    refuse(small || length != pages.saturating_mul(4_096), 0, 1)?;
    refuse(head.count == 0, 4, 2)?;
    refuse(head.used > 4_096 && head.count > 1, 4, 2)?;
    refuse(!head.shares && byte(bytes, 5) != 0, 5, 2)?;
    refuse(byte(bytes, 6) != 0, 6, 2)?;
    refuse(byte(bytes, 7) != 0, 7, 2)?;
    refuse(head.list().saturating_add(8) > head.used, 8, 9)
}

// The numbers of an entry.
#[derive(Clone, Copy)]
struct Numbers {
    kind: u8,
    head: u64,
    shared: u64,
    rest: u64,
    value: u64,
}

impl Numbers {
    fn at(bytes: &[u8], place: u64, shares: bool) -> Numbers {
        let lengths = place.saturating_add(if shares { 3 } else { 1 });
        Numbers {
            kind: byte(bytes, place),
            head: if shares { 9 } else { 7 },
            shared: if shares {
                u64::from(two(bytes, place.saturating_add(1)))
            } else {
                0
            },
            rest: u64::from(two(bytes, lengths)),
            value: u64::from(four(bytes, lengths.saturating_add(2))),
        }
    }

    // The place after the entry at this one.
    fn end(&self, place: u64) -> u64 {
        let width = self
            .head
            .saturating_add(self.rest)
            .saturating_add(self.value);
        place.saturating_add(width)
    }
}

// Rules 3, 4, 5 and 3 again, of an entry at a place.
fn judge_numbers(head: Head, place: u64, numbers: Numbers) -> Result<(), Stop> {
    let most = if head.shares { 1_048_576 } else { 65_536 };
    let key = numbers.shared.saturating_add(numbers.rest);
    refuse(place.saturating_add(numbers.head) > head.used, place, 3)?;
    refuse(numbers.kind != 1 && numbers.kind != 2, place, 4)?;
    refuse(numbers.kind == 2 && numbers.value != 0, place, 4)?;
    refuse(key == 0 || key > 1_024 || numbers.value > most, place, 5)?;
    refuse(numbers.end(place) > head.used, place, 3)
}

// The key of an entry: so many bytes of the key before, and the rest.
fn key_at(
    alloc: Global,
    bytes: &[u8],
    place: u64,
    numbers: Numbers,
    before: &[u8],
) -> Result<Vec<u8>, AllocError> {
    let shared = numbers.shared.min(before.len() as u64);
    let mut key = part(alloc, before, 0, shared)?;
    let rest = part(
        alloc,
        bytes,
        place.saturating_add(numbers.head),
        numbers.rest,
    )?;
    key.extend_from_slice(rest.as_slice())?;
    Ok(key)
}

// How many bytes the key of entry `i` has to share.
fn wants_shared(i: u64, before: &[u8], key: &[u8]) -> u64 {
    if i % 16 == 0 {
        0
    } else {
        alike(before, key) as u64
    }
}

// The key of the last entry so far, no byte before the first.
fn last_key(entries: &[Entry]) -> &[u8] {
    match entries.last() {
        Some(entry) => entry.key.as_slice(),
        None => b"",
    }
}

// Adds entry `i` at a place, and answers the place after it.
fn add_entry(
    alloc: Global,
    bytes: &[u8],
    head: Head,
    place: u64,
    entries: &mut Vec<Entry>,
) -> Result<u64, Stop> {
    let i = entries.len() as u64;
    let listed = 8u64.saturating_add((i / 16).saturating_mul(2));
    let wrong = head.shares && i % 16 == 0 && u64::from(two(bytes, listed)) != place;
    refuse(wrong, listed, 9)?;
    let numbers = Numbers::at(bytes, place, head.shares);
    judge_numbers(head, place, numbers)?;
    let before = last_key(entries.as_slice());
    let key = key_at(alloc, bytes, place, numbers, before)?;
    let wants = wants_shared(i, before, key.as_slice());
    refuse(head.shares && numbers.shared != wants, place, 10)?;
    refuse(!comes_before(before, key.as_slice()), place, 6)?;
    let lives = numbers.kind == 1;
    push(entries, Entry { key, lives })?;
    Ok(numbers.end(place))
}

// The entries of a block, whose bytes these are.
fn entries_in(alloc: Global, bytes: &[u8]) -> Result<Vec<Entry>, Stop> {
    let head = Head::of(bytes);
    judge_head(bytes, head)?;
    let mut entries = Vec::new(alloc);
    let mut place = 8u64.saturating_add(head.list());
    for _ in 0..head.count {
        place = add_entry(alloc, bytes, head, place, &mut entries)?;
    }
    refuse(place < head.used, place, 7)?;
    match first_filled(bytes, head.used, bytes.len() as u64) {
        Some(at) => Err(Stop::Rule { place: at, rule: 8 }),
        None => Ok(entries),
    }
}

/// The entries of a block with this sum, whose bytes these are.
pub(crate) fn block_of(alloc: Global, sum: u64, bytes: &[u8]) -> Result<Vec<Entry>, Stop> {
    refuse_sum(sum, fnv1a(bytes))?;
    entries_in(alloc, bytes)
}
