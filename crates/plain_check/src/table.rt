//! What is wrong with a table.
use crate::block::{Entry, block_of, push};
use crate::bytes::{byte_of_page, comes_before, part};
use crate::finding::{Finding, What, found};
use crate::index::{Index, IndexRow, index_of};
use crate::leaves::{Leaf, first_difference};
use crate::stubs::leaves_of;
use crate::trie::filter_of;
use byte_fields::{Part, Row};
use std::alloc::{AllocError, Global};

/// A table that was looked at: its index, none where that is damaged, and the entries of its blocks.
#[derive(Drop)]
pub(crate) struct Table {
    pub level: u8,
    pub index: Option<Index>,
    pub entries: Vec<Entry>,
}

// The entries of some blocks.
#[derive(Drop)]
struct Blocks {
    entries: Vec<Entry>,
    // the last block is not damaged
    known: bool,
    // no block is damaged
    sound: bool,
    // how many blocks there were
    many: u64,
}

/// Adds a finding.
pub(crate) fn add(
    findings: &mut Vec<Finding>,
    part: Part,
    at: u64,
    what: What,
) -> Result<(), AllocError> {
    findings.push(Finding { part, at, what })?;
    Ok(())
}

/// The first byte of the index of a row.
pub(crate) fn index_byte(row: &Row) -> u64 {
    byte_of_page(u64::from(row.first_page) + u64::from(row.data_pages))
}

/// The first byte of the filter of a row.
pub(crate) fn filter_byte(row: &Row) -> u64 {
    let pages = u64::from(row.data_pages) + u64::from(row.index_pages);
    byte_of_page(u64::from(row.first_page) + pages)
}

// The key of an entry, no byte where there is none.
fn key_of(entry: Option<&Entry>) -> &[u8] {
    match entry {
        Some(entry) => entry.key.as_slice(),
        None => b"",
    }
}

// Whether the next block may begin with this key.
fn may_begin(blocks: &Blocks, least: &[u8], key: &[u8]) -> bool {
    if blocks.many == 0 {
        return least == key;
    }
    !blocks.known || comes_before(key_of(blocks.entries.last()), key)
}

// Adds the entries of a block.
fn take(blocks: &mut Blocks, block: Vec<Entry>) -> Result<(), AllocError> {
    for entry in block {
        push(&mut blocks.entries, entry)?;
    }
    Ok(())
}

// Looks at the block of an index row, whose first byte this is.
fn look_at_block(
    alloc: Global,
    bytes: &[u8],
    at: u64,
    least: &[u8],
    row: &IndexRow,
    blocks: &mut Blocks,
    findings: &mut Vec<Finding>,
) -> Result<(), AllocError> {
    let block = part(alloc, bytes, at, byte_of_page(u64::from(row.pages)))?;
    match block_of(alloc, row.sum, block.as_slice()) {
        Ok(entries) => {
            let begins = may_begin(blocks, least, key_of(entries.first()));
            if !begins || key_of(entries.last()) != row.last.as_slice() {
                add(findings, Part::Block, at, What::WrongKeys)?;
            }
            take(blocks, entries)?;
            blocks.known = true;
        }
        Err(why) => {
            findings.push(found(Part::Block, at, why)?)?;
            blocks.known = false;
            blocks.sound = false;
        }
    }
    blocks.many = blocks.many.saturating_add(1);
    Ok(())
}

// Looks at the blocks of a table.
fn look_at_blocks(
    alloc: Global,
    bytes: &[u8],
    row: &Row,
    index: &Index,
    findings: &mut Vec<Finding>,
) -> Result<Blocks, AllocError> {
    let mut blocks = Blocks {
        entries: Vec::new(alloc),
        known: false,
        sound: true,
        many: 0,
    };
    let mut page = u64::from(row.first_page);
    for of_block in index.rows.iter() {
        let at = byte_of_page(page);
        let least = index.least.as_slice();
        look_at_block(alloc, bytes, at, least, of_block, &mut blocks, findings)?;
        page = page.saturating_add(u64::from(of_block.pages));
    }
    Ok(blocks)
}

// Compares the leaves of a filter with those of the keys.
fn compare(
    alloc: Global,
    row: &Row,
    leaves: &[Leaf],
    keys: &[Entry],
    findings: &mut Vec<Finding>,
) -> Result<(), AllocError> {
    let wanted = leaves_of(alloc, keys, row.hash_bits, row.real_bits)?;
    if let Some(number) = first_difference(leaves, wanted.as_slice()) {
        add(
            findings,
            Part::Filter,
            filter_byte(row),
            What::WrongLeaf { number },
        )?;
    }
    Ok(())
}

// Looks at the filter of a row, and at its leaves where the keys are known.
fn look_at_filter(
    alloc: Global,
    bytes: &[u8],
    row: &Row,
    keys: Option<&[Entry]>,
    findings: &mut Vec<Finding>,
) -> Result<(), AllocError> {
    let at = filter_byte(row);
    let filter = part(alloc, bytes, at, row.filter_len)?;
    match (filter_of(alloc, row, filter.as_slice()), keys) {
        (Ok(leaves), Some(keys)) => compare(alloc, row, leaves.as_slice(), keys, findings),
        (Ok(_), None) => Ok(()),
        (Err(why), _) => {
            findings.push(found(Part::Filter, at, why)?)?;
            Ok(())
        }
    }
}

// The entries of blocks by whose keys a filter is judged: where these are right.
fn known(blocks: &Blocks, right: bool) -> Option<&[Entry]> {
    if right {
        Some(blocks.entries.as_slice())
    } else {
        None
    }
}

// Looks at the blocks, the count and the filter of a table whose index is not damaged.
fn look_behind(
    alloc: Global,
    bytes: &[u8],
    row: &Row,
    index: &Index,
    findings: &mut Vec<Finding>,
) -> Result<Vec<Entry>, AllocError> {
    let before = findings.len();
    let blocks = look_at_blocks(alloc, bytes, row, index, findings)?;
    let right = findings.len() == before;
    if blocks.sound && blocks.entries.len() as u64 != u64::from(row.entries) {
        add(findings, Part::Index, index_byte(row), What::WrongCount)?;
    }
    let keys = known(&blocks, right);
    look_at_filter(alloc, bytes, row, keys, findings)?;
    Ok(blocks.entries)
}

/// Looks at the table of a row: its index, its blocks, how many entries these have, and its filter.
pub(crate) fn look_at(
    alloc: Global,
    bytes: &[u8],
    row: &Row,
    findings: &mut Vec<Finding>,
) -> Result<Table, AllocError> {
    let at = index_byte(row);
    let level = row.level;
    let read = part(alloc, bytes, at, row.index_len)?;
    match index_of(alloc, row, read.as_slice()) {
        Ok(index) => {
            let entries = look_behind(alloc, bytes, row, &index, findings)?;
            let index = Some(index);
            Ok(Table {
                level,
                index,
                entries,
            })
        }
        Err(why) => {
            findings.push(found(Part::Index, at, why)?)?;
            look_at_filter(alloc, bytes, row, None, findings)?;
            let entries = Vec::new(alloc);
            Ok(Table {
                level,
                index: None,
                entries,
            })
        }
    }
}
