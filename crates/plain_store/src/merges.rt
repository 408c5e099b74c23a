//! Which tables are merged, and into what.
ghost use Rattle.std.specs.Prelude.{◌≡◌, ◌+◌, ◌≤◌, [], ◌∷◌, ◌++◌, filter, take, length, sum_by, IfOk, OnOk};
ghost use Rattle.std.specs.List.{list_any};
ghost use Rattle.std.specs.Option.{option_map};
ghost use Rattle.range_model.specs.Reach.{lies_below};
ghost use Rattle.table_model.specs.Tables.{as_source};
ghost use Rattle.state_model.specs.Merges as model;

use crate::keys::{greater, is_before, lesser};
use crate::lists::{on_level, push_table, push_tables};
use crate::state::State;
use crate::table::Table;
use std::alloc::{AllocError, Global};
use std::marker::Model;

/// Tables that are merged, the newest first, and the level of what they become.
#[derive(Drop)]
pub struct Plan {
    pub inputs: Vec<Table>,
    pub output: u8,
}

impl Model for Plan {
    ghost use Rattle.state_model.specs.Merges as model;

    ghost Value = { model.Plan };

    ghost view = { λ p. record { inputs = p.inputs.items; output = p.output } };
}

// The least key of all tables.
fn least_of(tables: &[Table]) -> &[u8]
    ensures { result.now ≡ model.least_of tables.now }
{
    let Some((first, rest)) = tables.split_first() else {
        return &[];
    };
    let mut least = first.least_key();
    for table in rest {
        least = lesser(least, table.least_key());
    }
    least
}

// The greatest key of all tables.
fn greatest_of(tables: &[Table]) -> &[u8]
    ensures { result.now ≡ model.greatest_of tables.now }
{
    let Some((first, rest)) = tables.split_first() else {
        return &[];
    };
    let mut greatest = first.greatest_key();
    for table in rest {
        greatest = greater(greatest, table.greatest_key());
    }
    greatest
}

// The greatest end of their ranges, no bytes where there is none.
fn reach_of(tables: &[Table]) -> &[u8]
    ensures { result.now ≡ model.reach_of tables.now }
{
    let mut end: &[u8] = &[];
    for table in tables {
        end = greater(end, table.reach());
    }
    end
}

// Whether all that a table speaks of comes before the key.
fn lies_below(table: &Table, key: &[u8]) -> bool
    ensures { result ≡ lies_below (as_source table.now) key.now }
{
    is_before(table.greatest_key(), key) && !is_before(key, table.reach())
}

// Whether all that some tables speak of comes before the key.
fn all_below(tables: &[Table], key: &[u8]) -> bool
    ensures { result ≡ model.all_below tables.now key.now }
{
    is_before(greatest_of(tables), key) && !is_before(key, reach_of(tables))
}

// Whether the table reaches into what some tables speak of.
fn reaches_into(tables: &[Table], table: &Table) -> bool
    ensures { result ≡ model.reaches_into tables.now table.now }
{
    !lies_below(table, least_of(tables)) && !all_below(tables, table.least_key())
}

// Appends copies of those of some tables that reach into what the chosen ones speak of.
fn push_met(chosen: &[Table], tables: &[Table], list: &mut Vec<Table>) -> Result<(), AllocError>
    ensures { OnOk result (list.new.items ≡ list.old.items ++ filter (model.reaches_into chosen.now) tables.now) }
{
    for table in tables {
        if reaches_into(chosen, table) {
            push_table(table, list)?;
        }
    }
    Ok(())
}

// Some tables with those of the output's level that they meet.
fn plan_of(alloc: Global, state: &State, tables: &[Table], output: u8) -> Result<Plan, AllocError>
    ensures { IfOk result (λ plan. plan ≡ model.plan_of state.now.tables tables.now output) }
{
    let below = on_level(alloc, output, state.tables.as_slice())?;
    let mut inputs = Vec::new(alloc);
    push_tables(tables, &mut inputs)?;
    push_met(tables, below.as_slice(), &mut inputs)?;
    Ok(Plan { inputs, output })
}

// The pages that a level may have.
fn level_limit(level: u8) -> Result<u64, AllocError>
    ensures { IfOk result (λ pages. pages ≡ model.level_limit level) }
{
    let times = 8u64
        .checked_pow(u32::from(level.saturating_sub(1)))
        .ok_or(AllocError)?;
    times.checked_mul(256).ok_or(AllocError)
}

// The pages of some tables.
fn pages_of(tables: &[Table]) -> Result<u64, AllocError>
    ensures { IfOk result (λ pages. pages ≡ sum_by (λ t. t.pages) tables.now) }
{
    let mut pages = 0u64;
    for table in tables {
        pages = pages.checked_add(table.pages).ok_or(AllocError)?;
    }
    Ok(pages)
}

/// What is to be merged: level 0 where it has four tables or more, else the first table of the first level that has too
/// many pages, with the tables below that they meet.
pub fn choose(alloc: Global, state: &State) -> Result<Option<Plan>, AllocError>
    ensures { IfOk result (λ plan. plan ≡ model.choose state.now.tables) }
{
    let newest = on_level(alloc, 0, state.tables.as_slice())?;
    if newest.len() >= 4 {
        return Ok(Some(plan_of(alloc, state, newest.as_slice(), 1)?));
    }
    first_over(alloc, state, &[1, 2, 3, 4, 5])
}

// The merge of the first of these levels that has too many pages.
fn first_over(alloc: Global, state: &State, levels: &[u8]) -> Result<Option<Plan>, AllocError>
    ensures { IfOk result (λ plan. plan ≡ model.first_over state.now.tables levels.now) }
{
    let Some((level, deeper)) = levels.split_first() else {
        return Ok(None);
    };
    let tables = on_level(alloc, *level, state.tables.as_slice())?;
    if pages_of(tables.as_slice())? <= level_limit(*level)? {
        return first_over(alloc, state, deeper);
    }
    let first = &tables.as_slice()[..tables.len().min(1)];
    let output = level.checked_add(1).ok_or(AllocError)?;
    Ok(Some(plan_of(alloc, state, first, output)?))
}
