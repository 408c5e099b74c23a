//! Outputs that become tables.
ghost use Rattle.std.specs.Prelude.{◌≡◌, [], ◌∷◌, ◌++◌, map, vec_items, None, Some, IfOk};
ghost use Rattle.std.specs.Result.{result_map_both};
ghost use Rattle.table_model.specs.Tables.{filter_bytes_of};
ghost use Rattle.state_model.specs.State.{without_job};
ghost use Rattle.state_model.specs.Taken.{extent_of, taken};
ghost use Rattle.state_model.specs.Tends.{with_job};
ghost use Rattle.state_model.specs.Merges as model;

use crate::gaps::{Extent, first_gap, largest_gap};
use crate::job::Job;
use crate::lists::extents;
use crate::pages::{source_pages, table_from};
use crate::source::Source;
use crate::state::State;
use crate::table::Table;
use filter_api::RangeFilter;
use std::alloc::{AllocError, Global};
use std::marker::Model;

/// A table that needs more pages than the largest gap has.
#[derive(Drop)]
pub struct NoRoom {
    pub need: u64,
    pub gap: u64,
}

impl Model for NoRoom {
    ghost use Rattle.state_model.specs.Merges as model;

    ghost Value = { model.NoRoom };

    ghost view = { λ r. record { need = r.need; gap = r.gap } };
}

// The extents that the tables take, and those that a job has written beside them.
#[tactic(auto, using(crate::proofs::Whole::taken_beside))]
fn taken_beside(alloc: Global, state: &State, written: &[Table]) -> Result<Vec<Extent>, AllocError>
    ensures { IfOk result (λ list. list.items ≡ map extent_of (state.now.tables ++ (written.now ++ state.now.kept))) }
{
    let mut list = extents(alloc, state.tables.as_slice())?;
    for table in written {
        list.push(table.extent())?;
    }
    Ok(list)
}

/// The extents that a state takes.
pub(crate) fn taken(alloc: Global, state: &State) -> Result<Vec<Extent>, AllocError>
    ensures { IfOk result (λ list. list.items ≡ taken state.now) }
{
    match &state.job {
        None => taken_beside(alloc, state, &[]),
        Some(job) => taken_beside(alloc, state, job.written.as_slice()),
    }
}

/// Those that it takes with another job, and with none.
pub(crate) fn taken_with(alloc: Global, state: &State, job: &Job) -> Result<Vec<Extent>, AllocError>
    ensures { IfOk result (λ list. list.items ≡ taken (with_job state.now job.now)) }
{
    taken_beside(alloc, state, job.written.as_slice())
}

pub(crate) fn taken_without(alloc: Global, state: &State) -> Result<Vec<Extent>, AllocError>
    ensures { IfOk result (λ list. list.items ≡ taken (without_job state.now)) }
{
    taken_beside(alloc, state, &[])
}

fn with_extent(alloc: Global, extent: Extent, taken: &[Extent]) -> Result<Vec<Extent>, AllocError>
    ensures { IfOk result (λ list. list.items ≡ extent ∷ taken.now) }
{
    let mut list = Vec::with_capacity(alloc, taken.len() + 1)?;
    list.push(extent)?;
    list.extend_from_slice(taken)?;
    Ok(list)
}

fn with_table(table: Table, tables: Vec<Table>) -> Result<Vec<Table>, AllocError>
    ensures { IfOk result (λ list. list.items ≡ table ∷ tables.items) }
{
    let mut list = tables;
    list.insert(0, table)?;
    Ok(list)
}

/// Some outputs become tables of a level, each in the first gap that holds it beside what is taken and those before it.
pub(crate) fn placed<F: RangeFilter>(
    alloc: Global,
    state: &State,
    taken: &[Extent],
    level: u8,
    outputs: &[Source],
) -> Result<Result<Vec<Table>, NoRoom>, AllocError>
    ensures { IfOk result (λ made. result_map_both vec_items (λ r. r) made
        ≡ model.placed (filter_bytes_of F.spelling F.built_cutoff) state.now.settings state.now.pages taken.now level outputs.now) }
{
    let Some((output, more)) = outputs.split_first() else {
        return Ok(Ok(Vec::new(alloc)));
    };
    let need = source_pages::<F>(alloc, state.settings, output)?;
    let Some(page) = first_gap(alloc, state.pages, taken, need)? else {
        let gap = largest_gap(alloc, state.pages, taken)?;
        return Ok(Err(NoRoom { need, gap }));
    };
    let table = table_from::<F>(alloc, state.settings, level, page, output)?;
    let taken = with_extent(alloc, (page, need), taken)?;
    match placed::<F>(alloc, state, taken.as_slice(), level, more)? {
        Ok(later) => {
            let tables = with_table(table, later)?;
            Ok(Ok(tables))
        }
        Err(refusal) => Ok(Err(refusal)),
    }
}
