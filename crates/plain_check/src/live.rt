//! How many keys have a value by their newest entry.
use crate::block::Entry;
use crate::table::Table;
use std::alloc::{AllocError, Global};

// Adds some entries, each before those that are older.
fn add_log<'a>(log: &'a [Entry], all: &mut Vec<&'a Entry>) -> Result<(), AllocError> {
    for entry in log.iter().rev() {
        all.push(entry)?;
    }
    Ok(())
}

fn add_table<'a>(table: &'a Table, all: &mut Vec<&'a Entry>) -> Result<(), AllocError> {
    for entry in table.entries.iter() {
        all.push(entry)?;
    }
    Ok(())
}

// Whether entry `i` has a value, and no entry before it has its key.
fn is_live(all: &[&Entry], i: usize, entry: &Entry) -> bool {
    for newer in all.iter().take(i) {
        if newer.key.as_slice() == entry.key.as_slice() {
            return false;
        }
    }
    entry.lives
}

/// How many pairs a log has with tables below it, of which the newest comes first.
pub(crate) fn live_pairs(
    alloc: Global,
    log: &[Entry],
    tables: &[Table],
) -> Result<u64, AllocError> {
    let mut all = Vec::new(alloc);
    add_log(log, &mut all)?;
    for table in tables {
        add_table(table, &mut all)?;
    }
    let mut live = 0u64;
    for (i, entry) in all.iter().enumerate() {
        live = live.saturating_add(u64::from(is_live(all.as_slice(), i, entry)));
    }
    Ok(live)
}
