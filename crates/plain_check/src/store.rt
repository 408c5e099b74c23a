//! What is wrong with a device, and what is on it where nothing is.
use crate::bytes::{byte_of_page, comes_before, part};
use crate::finding::{Finding, What, found};
use crate::live::live_pairs;
use crate::log::{Log, log_in};
use crate::slots::{Slots, Version, slots_of};
use crate::table::{Table, add, look_at};
use byte_fields::Part;
use std::alloc::{AllocError, Global};

/// What a store has of which nothing is wrong.
#[derive(Clone, Copy, Debug, PartialEq, Eq)]
pub struct Sizes {
    /// The tables.
    pub tables: u64,
    /// The entries of all tables, tombstones among them.
    pub entries: u64,
    /// The pairs: the keys whose newest entry has a value.
    pub live: u64,
    /// The records of the log.
    pub log: u64,
}

/// What is said of a device.
#[derive(Debug, Drop, PartialEq, Eq)]
pub enum Checked {
    /// No slot is open: the device holds no store.
    NoStore,
    /// These are wrong, one or more, in the order in which they are looked for.
    Wrong(Vec<Finding>),
    /// Nothing is wrong.
    Sound(Sizes),
}

// Whether a table may come after another: below level 0 its keys come after.
fn may_follow(before: &Table, table: &Table) -> bool {
    let (Some(first), Some(second)) = (&before.index, &table.index) else {
        return true;
    };
    before.level != table.level
        || table.level == 0
        || comes_before(first.greatest(), second.least.as_slice())
}

// The number of the first table that may not follow the one before it.
fn first_out_of_order(tables: &[Table]) -> Option<u64> {
    for (number, table) in tables.iter().enumerate() {
        let before = number.checked_sub(1).and_then(|before| tables.get(before));
        if let Some(before) = before {
            if !may_follow(before, table) {
                return Some(number as u64);
            }
        }
    }
    None
}

// Adds rule 12 where tables are out of order.
fn judge_order(
    version: &Version,
    tables: &[Table],
    findings: &mut Vec<Finding>,
) -> Result<(), AllocError> {
    if let Some(number) = first_out_of_order(tables) {
        let place = 64u64.saturating_add(number.saturating_mul(64));
        let at = version.body.saturating_add(place);
        add(findings, Part::Manifest, at, What::BrokenRule { rule: 12 })?;
    }
    Ok(())
}

// What the log has, or what is wrong with it.
fn look_at_log(
    alloc: Global,
    bytes: &[u8],
    version: &Version,
    findings: &mut Vec<Finding>,
) -> Result<Log, AllocError> {
    let at = byte_of_page(u64::from(version.log_page));
    let area = part(alloc, bytes, at, 262_144)?;
    match log_in(alloc, area.as_slice()) {
        Ok(log) => Ok(log),
        Err(why) => {
            findings.push(found(Part::Log, at, why)?)?;
            let entries = Vec::new(alloc);
            Ok(Log {
                records: 0,
                entries,
            })
        }
    }
}

// The tables of a version, looked at in the order of their rows.
fn look_at_tables(
    alloc: Global,
    bytes: &[u8],
    version: &Version,
    findings: &mut Vec<Finding>,
) -> Result<Vec<Table>, AllocError> {
    let mut tables = Vec::new(alloc);
    for row in version.rows.iter() {
        tables.push(look_at(alloc, bytes, row, findings)?)?;
    }
    Ok(tables)
}

fn sizes_of(alloc: Global, tables: &[Table], log: &Log) -> Result<Sizes, AllocError> {
    let mut entries = 0u64;
    for table in tables {
        entries = entries.saturating_add(table.entries.len() as u64);
    }
    Ok(Sizes {
        tables: tables.len() as u64,
        entries,
        live: live_pairs(alloc, log.entries.as_slice(), tables)?,
        log: log.records,
    })
}

// What is said of what a version names.
fn check_version(alloc: Global, bytes: &[u8], version: &Version) -> Result<Checked, AllocError> {
    let mut findings = Vec::new(alloc);
    let tables = look_at_tables(alloc, bytes, version, &mut findings)?;
    judge_order(version, tables.as_slice(), &mut findings)?;
    let log = look_at_log(alloc, bytes, version, &mut findings)?;
    if !findings.is_empty() {
        return Ok(Checked::Wrong(findings));
    }
    let sizes = sizes_of(alloc, tables.as_slice(), &log)?;
    Ok(Checked::Sound(sizes))
}

/// What is wrong with a device that holds these bytes, and zero bytes after them: first with its slots, and then nothing else is
/// looked at; else with what its version names. Where nothing is, what the store has.
pub fn plain_check(alloc: Global, bytes: &[u8]) -> Result<Checked, AllocError> {
    match slots_of(alloc, bytes)? {
        Slots::Closed => Ok(Checked::NoStore),
        Slots::Wrong(finding) => Ok(Checked::Wrong(Vec::from_slice(alloc, &[finding])?)),
        Slots::Open(version) => check_version(alloc, bytes, &version),
    }
}
