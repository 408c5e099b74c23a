//! How the tables of a version follow each other.
ghost use Rattle.std.specs.Prelude.{◌≡◌, ◌≤◌, ◌<◌, IfOk, OnOk, OnErr};
ghost use Rattle.std.specs.Option.{ForSome, option_map};
ghost use Rattle.image_model.specs.Findings.{ranges_findings};
ghost use Rattle.key_base.specs.Limits.{max_tables};
ghost use Rattle.manifest.specs.Manifest.{place_of};
ghost use Rattle.manifest_model.specs.Tables.{follows};
ghost use Rattle.store_check.specs.Lists.{listed};
ghost use Rattle.store_check.specs.Orders.{broken_fault, is_out_of_order, no_tables, range_of_index, with_row};

use crate::finding::{Finding, What};
use byte_fields::Part;
use key_base::{SLOT_BYTES, compare};
use manifest::{BODY_AT, HEAD_BYTES, ROW_BYTES};
use std::alloc::{AllocError, Global};
use std::marker::Model;
use table_file::Index;

// The rule of tables that do not rise.
const NOT_RISING: u8 = 12;

// Where the keys of a table lie.
#[derive(Drop)]
struct Range {
    level: u8,
    least: Vec<u8>,
    greatest: Vec<u8>,
    // the end of its last deleted range: no index has one yet
    reach: Vec<u8>,
}

impl Model for Range {
    ghost use Rattle.manifest_model.specs.Tables.{KeyRange};

    ghost Value = { KeyRange };

    ghost view = { λ r. record { level = r.level; least = r.least.items; greatest = r.greatest.items; reach = r.reach.items } };
}

impl Range {
    // Of an index that was read.
    fn of(alloc: Global, index: &Index) -> Result<Range, AllocError>
        ensures { IfOk result (λ range. range ≡ range_of_index index.now) }
    {
        let greatest = match index.blocks().checked_sub(1) {
            Some(last) => index.last(last),
            None => b"",
        };
        Ok(Range {
            level: index.row().level,
            least: Vec::from_slice(alloc, index.least())?,
            greatest: Vec::from_slice(alloc, greatest)?,
            reach: Vec::new(alloc),
        })
    }

    // Whether a table may be after one whose keys lie here: below level 0 its keys come after the other's, and none lies below the end of the other's ranges.
    fn lets(&self, range: &Range) -> bool
        ensures { result ≡ follows self.now range.now }
    {
        self.level != range.level
            || range.level == 0
            || (compare(self.greatest.as_slice(), range.least.as_slice()).is_lt()
                && !compare(range.least.as_slice(), self.reach.as_slice()).is_lt())
    }
}

/// The tables of the rows so far: where the keys of the last one lie, and which was the first that does not follow the one
/// before it.
#[derive(Drop)]
pub(crate) struct TableOrder {
    rows: usize,
    // none where its index is damaged, and before the first row
    before: Option<Range>,
    broken: Option<usize>,
}

impl Model for TableOrder {
    ghost use Rattle.store_check.specs.Orders as model;

    ghost Value = { model.TableOrder };

    ghost view = { λ o. record { rows = o.rows; before = o.before; broken = o.broken } };
}

impl TableOrder {
    /// Of no row.
    pub(crate) fn new() -> TableOrder
        ensures { result ≡ no_tables }
    {
        TableOrder {
            rows: 0,
            before: None,
            broken: None,
        }
    }

    /// How many rows were looked at.
    pub(crate) fn rows(&self) -> usize
        ensures { result ≡ self.now.rows }
    {
        self.rows
    }

    /// One row more, whose index is this, none where it is damaged. Without memory all stays as it was.
    pub(crate) fn add(&mut self, alloc: Global, index: &Option<Index>) -> Result<(), AllocError>
        requires { self.old.rows < max_tables }
        ensures added { OnOk result (self.new ≡ with_row (option_map range_of_index index.now) self.old) }
        ensures same { OnErr result (self.new ≡ self.old) }
    {
        let range = match index {
            Some(index) => Some(Range::of(alloc, index)?),
            None => None,
        };
        if self.broken.is_none() && is_out_of_order(&self.before, &range) {
            self.broken = Some(self.rows);
        }
        self.before = range;
        self.rows += 1;
        Ok(())
    }

    /// Rule 12 of the manifest in this slot, where the tables break it: once, at the first of them.
    pub(crate) fn finding(&self, slot: u8) -> Option<Finding>
        requires slot { slot ≤ 1 }
        requires few { ForSome self.now.broken (λ number. number < max_tables) }
        ensures { listed result ≡ ranges_findings (place_of slot) (broken_fault self.now.broken) }
    {
        match self.broken {
            Some(number) => Some(Finding {
                part: Part::Manifest,
                at: SLOT_BYTES * u64::from(slot)
                    + BODY_AT
                    + (HEAD_BYTES + ROW_BYTES * number) as u64,
                what: What::BrokenRule { rule: NOT_RISING },
            }),
            None => None,
        }
    }
}

// Whether a row does not follow the one before it, where the keys of both are known.
fn is_out_of_order(before: &Option<Range>, range: &Option<Range>) -> bool
    ensures { result ≡ is_out_of_order before.now range.now }
{
    match (before, range) {
        (Some(before), Some(range)) => !before.lets(range),
        _ => false,
    }
}
