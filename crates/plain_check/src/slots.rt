//! The two slots of the manifest, and the version that is in use.
use crate::bytes::{byte, eight, first_filled, four, two};
use crate::finding::{Finding, Stop, found, refuse, refuse_sum};
use crate::part::sum_of;
use crate::rows::{judge_rows, rows_in};
use byte_fields::{Part, Row};
use std::alloc::{AllocError, Global};

/// Where the slots begin.
pub(crate) const SLOT_A: u64 = 0;

pub(crate) const SLOT_B: u64 = 131_072;

// `SRFM`.
const MAGIC: u32 = 0x4D46_5253;

/// What an open slot names.
#[derive(Drop)]
pub(crate) struct Version {
    /// The first byte of the body.
    pub body: u64,
    pub epoch: u64,
    pub log_page: u32,
    pub rows: Vec<Row>,
}

/// What the slots hold.
#[derive(Drop)]
pub(crate) enum Slots {
    /// None is open.
    Closed,
    /// This is wrong.
    Wrong(Finding),
    /// The version in use.
    Open(Version),
}

// Rules 1 to 3 of a body that begins at this byte.
fn judge_head(bytes: &[u8], body: u64) -> Result<(), Stop> {
    let version = two(bytes, body.saturating_add(4));
    refuse(four(bytes, body) != MAGIC, 0, 1)?;
    refuse(version != 1 && version != 2, 4, 2)?;
    refuse(two(bytes, body.saturating_add(6)) > 1_024, 6, 3)
}

// The sum of a body that keeps rules 1 to 3.
fn judge_sum(alloc: Global, bytes: &[u8], body: u64) -> Result<(), Stop> {
    let tables = two(bytes, body.saturating_add(6));
    let length = 64 + 64 * u64::from(tables);
    let kept = eight(bytes, body.saturating_add(length));
    refuse_sum(kept, sum_of(alloc, bytes, body, length)?)
}

// Rule 4, and rule 5 of the head.
fn judge_numbers(bytes: &[u8], body: u64) -> Result<(), Stop> {
    let pages = four(bytes, body.saturating_add(16));
    let bits = two(bytes, body.saturating_add(20)).to_le_bytes();
    refuse(eight(bytes, body.saturating_add(8)) == 0, 8, 4)?;
    refuse(pages < 512 || pages > 16_777_216, 16, 5)?;
    refuse(bits[0] > 32, 20, 5)?;
    refuse(bits[1] > 32, 21, 5)
}

// Rule 6, and rule 7 of the head.
fn judge_area(bytes: &[u8], body: u64) -> Result<(), Stop> {
    let page = four(bytes, body.saturating_add(24));
    refuse(page != 64 && page != 128, 24, 6)?;
    refuse(four(bytes, body.saturating_add(28)) != 64, 28, 6)?;
    match first_filled(bytes, body.saturating_add(32), body.saturating_add(64)) {
        Some(at) => refuse(true, at.saturating_sub(body), 7),
        None => Ok(()),
    }
}

// Rule 5 of the rows, which is tried before rule 6.
fn judge_settings(rows: &[Row]) -> Result<(), Stop> {
    let mut place = 64u64;
    for row in rows {
        refuse(row.hash_bits > 32, place.saturating_add(56), 5)?;
        refuse(row.real_bits > 32, place.saturating_add(57), 5)?;
        place = place.saturating_add(64);
    }
    Ok(())
}

// The version that a body has, which begins at this byte.
fn version_at(alloc: Global, bytes: &[u8], body: u64) -> Result<Version, Stop> {
    judge_head(bytes, body)?;
    judge_sum(alloc, bytes, body)?;
    judge_numbers(bytes, body)?;
    let rows = rows_in(alloc, bytes, body)?;
    judge_settings(rows.as_slice())?;
    judge_area(bytes, body)?;
    judge_rows(bytes, body, rows.as_slice())?;
    Ok(Version {
        body,
        epoch: eight(bytes, body.saturating_add(8)),
        log_page: four(bytes, body.saturating_add(24)),
        rows,
    })
}

// What a slot holds.
fn slot_at(alloc: Global, bytes: &[u8], slot: u64) -> Result<Slots, AllocError> {
    if byte(bytes, slot) != 1 {
        return Ok(Slots::Closed);
    }
    let body = slot.saturating_add(8);
    match version_at(alloc, bytes, body) {
        Ok(version) => Ok(Slots::Open(version)),
        Err(why) => Ok(Slots::Wrong(found(Part::Manifest, body, why)?)),
    }
}

// Of two versions the one with the greater epoch; rule 11 where they have one.
fn newer(a: Version, b: Version) -> Result<Slots, AllocError> {
    if a.epoch == b.epoch {
        let why = Stop::Rule { place: 8, rule: 11 };
        return Ok(Slots::Wrong(found(Part::Manifest, b.body, why)?));
    }
    Ok(Slots::Open(if a.epoch > b.epoch { a } else { b }))
}

// What the slots hold where slot A has this version.
fn beside(a: Version, slot_b: Slots) -> Result<Slots, AllocError> {
    match slot_b {
        Slots::Wrong(finding) => Ok(Slots::Wrong(finding)),
        Slots::Closed => Ok(Slots::Open(a)),
        Slots::Open(b) => newer(a, b),
    }
}

/// What the slots hold: what is wrong with slot A, with slot B, or with both together, and else the version in use.
pub(crate) fn slots_of(alloc: Global, bytes: &[u8]) -> Result<Slots, AllocError> {
    match slot_at(alloc, bytes, SLOT_A)? {
        Slots::Wrong(finding) => Ok(Slots::Wrong(finding)),
        Slots::Closed => slot_at(alloc, bytes, SLOT_B),
        Slots::Open(a) => beside(a, slot_at(alloc, bytes, SLOT_B)?),
    }
}
