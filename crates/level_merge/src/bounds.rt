//! The keys of some tables, and the tables that they meet.
ghost use Rattle.std.specs.Prelude.{◌≡◌, ◌<◌, ◌≤◌, ◌-◌, length, map, nat_lt, IfOk};
ghost use Rattle.std.specs.List.{AllByRecursion, list_any};
ghost use Rattle.key_base.specs.ByteOrder.{is_before};
ghost use Rattle.key_base.specs.Limits.{max_tables};
ghost use Rattle.level_merge.specs.JobValue.{all_numbers};
ghost use Rattle.level_merge.specs.Outlines.{outline, outline_of, outlines, overlaps, table_number};
ghost use Rattle.state_model.specs.Merges as model;

use filter_api::RangeFilter;
use key_base::compare;
use std::alloc::{AllocError, Global};
use table_file::Table;

fn is_before(x: &[u8], y: &[u8]) -> bool
    ensures { result ≡ is_before x.now y.now }
{
    compare(x, y).is_lt()
}

fn lesser<'a>(x: &'a [u8], y: &'a [u8]) -> &'a [u8]
    ensures { result.now ≡ model.lesser_key x.now y.now }
{
    if is_before(y, x) { y } else { x }
}

fn greater<'a>(x: &'a [u8], y: &'a [u8]) -> &'a [u8]
    ensures { result.now ≡ model.greater_key x.now y.now }
{
    if is_before(x, y) { y } else { x }
}

/// The number of the table at a place: how many tables are after it.
pub(crate) fn number_at(place: usize, many: usize) -> u32
    requires there { place < many }
    requires few { many ≤ max_tables }
    ensures { result ≡ many - 1 - place }
{
    (many - 1 - place) as u32
}

// The table of a number.
fn table_of<F: RangeFilter>(tables: &[Table<F>], number: u32) -> &Table<F>
    requires { number < length tables.now }
    ensures { outline number result.now ≡ outline_of tables.now number }
{
    &tables[tables.len() - 1 - number as usize]
}

/// The least key of the tables of some numbers.
pub(crate) fn least_of<'a, F: RangeFilter>(tables: &'a [Table<F>], which: &[u32]) -> &'a [u8]
    requires { AllByRecursion (λ number. number < length tables.now) which.now }
    ensures { result.now ≡ model.least_of (map (outline_of tables.now) which.now) }
{
    let Some((first, rest)) = which.split_first() else {
        return &[];
    };
    let mut least = table_of(tables, *first).least();
    for number in rest {
        least = lesser(least, table_of(tables, *number).least());
    }
    least
}

/// The greatest key of the tables of some numbers.
pub(crate) fn greatest_of<'a, F: RangeFilter>(tables: &'a [Table<F>], which: &[u32]) -> &'a [u8]
    requires { AllByRecursion (λ number. number < length tables.now) which.now }
    ensures { result.now ≡ model.greatest_of (map (outline_of tables.now) which.now) }
{
    let Some((first, rest)) = which.split_first() else {
        return &[];
    };
    let mut greatest = table_of(tables, *first).greatest();
    for number in rest {
        greatest = greater(greatest, table_of(tables, *number).greatest());
    }
    greatest
}

/// Whether the table's keys reach into those from `lo` to `hi`.
pub(crate) fn overlaps<F: RangeFilter>(lo: &[u8], hi: &[u8], table: &Table<F>) -> bool
    ensures { result ≡ overlaps lo.now hi.now (outline 0 table.now) }
{
    !is_before(table.greatest(), lo) && !is_before(hi, table.least())
}

/// Whether a table lies deeper than a level.
pub(crate) fn lies_deeper<F: RangeFilter>(level: u8, tables: &[Table<F>]) -> bool
    ensures { result ≡ list_any (λ t. nat_lt level t.row.level) tables.now }
{
    for table in tables {
        if level < table.row().level {
            return true;
        }
    }
    false
}

/// The numbers of a given number of tables, the newest first.
pub(crate) fn numbers_of_all(alloc: Global, many: u32) -> Result<Vec<u32>, AllocError>
    ensures { IfOk result (λ which. which.items ≡ all_numbers many) }
{
    let mut which = Vec::with_capacity(alloc, many as usize)?;
    let mut left = many;
    while left > 0 {
        left -= 1;
        which.push(left)?;
    }
    Ok(which)
}
