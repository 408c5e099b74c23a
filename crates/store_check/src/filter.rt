//! The filter of a table, compared with the table's keys.
ghost use Rattle.std.specs.Prelude.{◌≡◌, IsTrue, IfOk, IfErr, IfSome, OnOk, OnErr};
ghost use Rattle.disk_trait.specs.World.{ReadMoves};
ghost use Rattle.filter_api.specs.Ranges.{IsRowInRange};
ghost use Rattle.filter_model.specs.Answers.{first_difference};
ghost use Rattle.filter_model.specs.Keys.{IsKeyList};
ghost use Rattle.filter_model.specs.Leaves.{leaves_of};
ghost use Rattle.block_model.specs.Places.{FitsDevice};
ghost use Rattle.image_model.specs.Findings.{leaf_findings};
ghost use Rattle.store_check.specs.Causes.{HasCause, IsFree};
ghost use Rattle.store_check.specs.Lists.{listed};
ghost use Rattle.store_check.specs.Tables.{AddsOfFilter, leaves_compared};

use crate::error::{CheckError, damage_in};
use crate::finding::{Finding, What, add, found_by};
use byte_fields::{Part, Row};
use disk_trait::Disk;
use filter_api::{RangeFilter, Settings};
use key_base::{KeyList, PAGE_BYTES};
use std::alloc::{AllocError, Global};
use table_file::read_filter;

/// Reads the filter of a row, and adds what is wrong with it: its damage, or where the keys of the table are known, the first leaf
/// that is not theirs. One read.
pub(crate) fn filter_findings<F: RangeFilter, D: Disk>(
    alloc: Global,
    disk: &mut D,
    row: &Row,
    keys: Option<KeyList>,
    found: &mut Vec<Finding>,
) -> Result<(), CheckError>
    requires fits { FitsDevice row.now }
    requires keys { IfSome keys IsKeyList }
    ensures found { IsTrue D.tells → OnOk result (AddsOfFilter F.spelling F.first_fault row.now keys (D.world disk.old).seen.held found.old.items found.new.items) }
    ensures same { OnErr result (found.new.items ≡ found.old.items) }
    ensures cause { IfErr result (HasCause (D.world disk.old) (D.world disk.new)) }
    ensures free { IfErr result IsFree }
    ensures moves { ReadMoves 1 (D.world disk.old) (D.world disk.new) }
{
    let filter: F = match read_filter(alloc, disk, row) {
        Ok(filter) => filter,
        Err(fault) => {
            let damage = damage_in(fault)?;
            add(found, Some(found_by(damage)))?;
            return Ok(());
        }
    };
    let finding = leaf_finding(alloc, row, &filter, keys)?;
    add(found, finding)?;
    Ok(())
}

// The first leaf of a filter that is not that of the keys, where these are known.
fn leaf_finding<F: RangeFilter>(
    alloc: Global,
    row: &Row,
    filter: &F,
    keys: Option<KeyList>,
) -> Result<Option<Finding>, AllocError>
    requires fits { FitsDevice row.now }
    requires range { IsRowInRange row.now }
    requires keys { IfSome keys IsKeyList }
    ensures { IfOk result (λ finding. listed finding ≡ leaves_compared row.now (F.leaf_list filter.now) keys) }
{
    match keys {
        Some(keys) => other_leaf(alloc, row, filter, &keys),
        None => Ok(None),
    }
}

// The first leaf of a filter that is not that of the filter of some keys.
fn other_leaf<F: RangeFilter>(
    alloc: Global,
    row: &Row,
    filter: &F,
    keys: &KeyList,
) -> Result<Option<Finding>, AllocError>
    requires fits { FitsDevice row.now }
    requires range { IsRowInRange row.now }
    requires keys { IsKeyList keys.now }
    ensures { IfOk result (λ finding. listed finding
        ≡ leaf_findings row.now (first_difference (F.leaf_list filter.now) (leaves_of row.now.hash_bits row.now.real_bits keys.now))) }
{
    let built: F = F::build(alloc, keys, Settings::of_row(row))?;
    match filter.first_difference(alloc, &built)? {
        Some(number) => Ok(Some(Finding {
            part: Part::Filter,
            at: PAGE_BYTES as u64
                * (u64::from(row.first_page)
                    + u64::from(row.data_pages)
                    + u64::from(row.index_pages)),
            what: What::WrongLeaf { number },
        })),
        None => Ok(None),
    }
}
