//! Which tables are merged next.
ghost use Rattle.std.specs.Prelude.{◌≡◌, ◌<◌, ◌≤◌, ◌+◌, ◌++◌, ℕ, List, [], ◌∷◌, ◌^◌, length, map, filter, take, nat_lt, IfOk, IfSome, OnOk};
ghost use Rattle.std.specs.List.{AllByRecursion, sum_by};
ghost use Rattle.std.specs.Option.{option_map};
ghost use Rattle.block_model.specs.Places.{pages_of};
ghost use Rattle.key_base.specs.Limits.{max_tables};
ghost use Rattle.level_merge.specs.Outlines.{by_numbers, table_number, outline_of, outlines, overlaps, plan_by_keys, plan_from};
ghost use Rattle.level_merge.specs.Plans.{Agree, IsPlanOf, MayStart};
ghost use Rattle.state_model.specs.Merges as model;
ghost use Rattle.table_model.specs.Tables as state;

use crate::bounds::{greatest_of, least_of, number_at, overlaps};
use crate::plan::Plan;
use byte_fields::Row;
use filter_api::RangeFilter;
use std::alloc::{AllocError, Global};
use table_file::{Table, Tables};

// A given number of tables of level 0 are merged at once.
const NEWEST_TABLES: usize = 4;

// How many tables a level has.
fn count_on<F: RangeFilter>(level: u8, tables: &[Table<F>]) -> usize
    ensures { result ≡ length (model.on_level level (outlines tables.now)) }
{
    let mut count = 0;
    for table in tables {
        if table.row().level == level {
            count += 1;
        }
    }
    count
}

// The pages of a table.
fn pages_in(row: &Row) -> u64
    ensures pages { result ≡ pages_of row.now }
    ensures small { result < 2 ^ 34 }
{
    u64::from(row.data_pages) + u64::from(row.index_pages) + u64::from(row.filter_pages)
}

// Whether the tables of a level have more pages than these.
fn is_over<F: RangeFilter>(level: u8, limit: u64, tables: &[Table<F>]) -> bool
    requires { limit < 2 ^ 32 }
    ensures { result ≡ nat_lt limit (sum_by (λ t. t.pages) (model.on_level level (outlines tables.now))) }
{
    let mut pages = 0;
    for table in tables {
        if table.row().level == level {
            pages += pages_in(table.row());
            if pages > limit {
                return true;
            }
        }
    }
    false
}

// The pages that a level may have: eight times as many as the one above it.
fn level_limit(level: u8) -> u64
    requires { (1 ≤ level) × (level ≤ 5) }
    ensures limit { result ≡ model.level_limit level }
    ensures small { result < 2 ^ 32 }
{
    match level {
        1 => 256,
        2 => 2_048,
        3 => 16_384,
        4 => 131_072,
        _ => 1_048_576,
    }
}

// The first level that has too many pages; the last one never has.
fn level_over<F: RangeFilter>(tables: &[Table<F>]) -> Option<u8>
    ensures first { plan_from (outlines tables.now) result ≡ model.first_over (outlines tables.now) (1 ∷ 2 ∷ 3 ∷ 4 ∷ 5 ∷ []) }
    ensures within { IfSome result (λ level. (1 ≤ level) × (level ≤ 5)) }
{
    for level in 1..6u8 {
        if is_over(level, level_limit(level), tables) {
            return Some(level);
        }
    }
    None
}

// The numbers of the tables of a level.
fn numbers_on<F: RangeFilter>(
    alloc: Global,
    level: u8,
    tables: &[Table<F>],
) -> Result<Vec<u32>, AllocError>
    requires few { length tables.now ≤ max_tables }
    ensures { IfOk result (λ which. which.items ≡ map table_number (model.on_level level (outlines tables.now))) }
{
    let mut which = Vec::new(alloc);
    for place in 0..tables.len() {
        if tables[place].row().level == level {
            which.push(number_at(place, tables.len()))?;
        }
    }
    Ok(which)
}

// Appends the numbers of the tables of a level that reach into the keys from `lo` to `hi`.
fn push_met<F: RangeFilter>(
    level: u8,
    lo: &[u8],
    hi: &[u8],
    tables: &[Table<F>],
    which: &mut Vec<u32>,
) -> Result<(), AllocError>
    requires few { length tables.now ≤ max_tables }
    ensures { OnOk result (which.new.items ≡ which.old.items ++ map table_number (filter (overlaps lo.now hi.now) (model.on_level level (outlines tables.now)))) }
{
    for place in 0..tables.len() {
        let table = &tables[place];
        if table.row().level == level && overlaps(lo, hi, table) {
            which.push(number_at(place, tables.len()))?;
        }
    }
    Ok(())
}

// Some tables with those of the output's level that they meet.
fn plan_of<F: RangeFilter>(
    tables: &[Table<F>],
    which: Vec<u32>,
    output: u8,
) -> Result<Plan, AllocError>
    requires few { length tables.now ≤ max_tables }
    requires there { AllByRecursion (λ number. number < length tables.now) which.items }
    ensures { (chosen : List state.Table) → map (outline_of tables.now) which.items ≡ chosen → which.items ≡ map table_number chosen
        → IfOk result (λ plan. plan ≡ by_numbers (plan_by_keys (outlines tables.now) chosen output)) }
{
    let mut inputs = Vec::new(*which.allocator());
    inputs.extend_from_slice(&which)?;
    push_met(
        output,
        least_of(tables, &which),
        greatest_of(tables, &which),
        tables,
        &mut inputs,
    )?;
    Ok(Plan { inputs, output })
}

// The merge of all tables of level 0.
fn newest_plan<F: RangeFilter>(alloc: Global, tables: &[Table<F>]) -> Result<Plan, AllocError>
    requires few { length tables.now ≤ max_tables }
    ensures { IfOk result (λ plan. plan ≡ by_numbers (model.plan_of (outlines tables.now) (model.on_level 0 (outlines tables.now)) 1)) }
{
    plan_of(tables, numbers_on(alloc, 0, tables)?, 1)
}

// The merge of the table of a level that has the least keys.
fn first_plan<F: RangeFilter>(
    alloc: Global,
    level: u8,
    tables: &[Table<F>],
) -> Result<Plan, AllocError>
    requires few { length tables.now ≤ max_tables }
    requires level { level ≤ 5 }
    ensures { IfOk result (λ plan. plan ≡ by_numbers (model.plan_of (outlines tables.now) (take 1 (model.on_level level (outlines tables.now))) (level + 1))) }
{
    let mut which = numbers_on(alloc, level, tables)?;
    which.truncate(1);
    plan_of(tables, which, level + 1)
}

// The choice among the outlines of the tables.
fn chosen<F: RangeFilter>(alloc: Global, tables: &[Table<F>]) -> Result<Option<Plan>, AllocError>
    requires few { length tables.now ≤ max_tables }
    ensures { IfOk result (λ plan. plan ≡ option_map by_numbers (model.choose (outlines tables.now))) }
{
    if count_on(0, tables) >= NEWEST_TABLES {
        return Ok(Some(newest_plan(alloc, tables)?));
    }
    match level_over(tables) {
        Some(level) => Ok(Some(first_plan(alloc, level, tables)?)),
        None => Ok(None),
    }
}

/// What is to be merged of the tables of a version, at most 1,024: level 0 where it has four tables or more, else the first
/// table of the first level that has too many pages, each with the tables of the level below that they meet.
///
/// Too many pages are more than 256 on level 1 and eight times as many on each deeper level; the last one takes any.
/// No read. It takes memory for the numbers, and none where nothing is to be merged.
pub fn choose<F: RangeFilter>(alloc: Global, tables: &Tables<F>) -> Result<Option<Plan>, AllocError>
    requires few { length tables.now.tables ≤ max_tables }
    ensures chosen { (of_state : List state.Table) → Agree tables.now.tables of_state → IfOk result (λ plan. IsPlanOf of_state plan (model.choose of_state)) }
    ensures starts { IfOk result (λ plan. IfSome plan (λ p. MayStart tables.now.tables p)) }
{
    chosen(alloc, tables.as_slice())
}
