//! The log.
use crate::block::{Entry, push};
use crate::bytes::{byte, comes_before, four, part, two};
use crate::finding::{Stop, refuse};
use std::alloc::Global;

// The bytes of an area.
const AREA: u64 = 262_144;

// The kinds of records.
const PUT: u8 = 1;

const DELETE: u8 = 2;

const RANGE: u8 = 3;

/// What a log has: how many records, and their entries. A range takes away the older ones that it covers, and leaves a
/// tombstone of its first key; of tables it hides nothing yet.
#[derive(Drop)]
pub(crate) struct Log {
    pub records: u64,
    pub entries: Vec<Entry>,
}

// How long a record is whose gate is open at this place of the area, the gate of the next one apart.
fn record_length(area: &[u8], place: u64) -> Result<u64, Stop> {
    let kind = byte(area, place.saturating_add(1));
    let key = u64::from(two(area, place.saturating_add(2)));
    let value = u64::from(four(area, place.saturating_add(4)));
    refuse(place.saturating_add(8) > AREA, place, 1)?;
    refuse(kind != PUT && kind != DELETE && kind != RANGE, place, 2)?;
    refuse(key == 0 || key > 1_024 || value > 65_536, place, 3)?;
    refuse(kind == DELETE && value != 0, place, 3)?;
    refuse(kind == RANGE && (value == 0 || value > 1_024), place, 3)?;
    let length = 8 + key + value;
    refuse(place.saturating_add(length) >= AREA, place, 1)?;
    Ok(length)
}

// Takes away the entries whose keys lie from a key on and before another one.
fn clear(entries: &mut Vec<Entry>, from: &[u8], to: &[u8]) {
    entries.retain(|entry| {
        comes_before(entry.key.as_slice(), from) || !comes_before(entry.key.as_slice(), to)
    });
}

// Adds the record whose gate is open at a place, and answers the place of the next gate.
fn add_record(alloc: Global, area: &[u8], place: u64, log: &mut Log) -> Result<u64, Stop> {
    let length = record_length(area, place)?;
    let kind = byte(area, place.saturating_add(1));
    let many = u64::from(two(area, place.saturating_add(2)));
    let key_at = place.saturating_add(8);
    let key = part(alloc, area, key_at, many)?;
    if kind == RANGE {
        let more = u64::from(four(area, place.saturating_add(4)));
        let end = part(alloc, area, key_at.saturating_add(many), more)?;
        refuse(!comes_before(key.as_slice(), end.as_slice()), place, 3)?;
        clear(&mut log.entries, key.as_slice(), end.as_slice());
    }
    let lives = kind == PUT;
    push(&mut log.entries, Entry { key, lives })?;
    log.records = log.records.saturating_add(1);
    Ok(place.saturating_add(length))
}

/// What the log in an area has, whose bytes these are.
pub(crate) fn log_in(alloc: Global, area: &[u8]) -> Result<Log, Stop> {
    let entries = Vec::new(alloc);
    let mut log = Log {
        records: 0,
        entries,
    };
    let mut place = 0u64;
    for _ in 0..AREA {
        if byte(area, place) != 1 {
            return Ok(log);
        }
        place = add_record(alloc, area, place, &mut log)?;
    }
    Ok(log)
}
