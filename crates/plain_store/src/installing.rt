//! A merge that is done whole, or merge slice by merge slice.
ghost use Rattle.std.specs.Prelude.{◌≡◌, ◌==◌, ◌++◌, not, if◌then◌else◌, fold, drop, length, Some, IfOk, OnOk};
ghost use Rattle.std.specs.List.{list_any};
ghost use Rattle.key_base.specs.Limits.{last_epoch};
ghost use Rattle.table_model.specs.Tables.{filter_bytes_of};
ghost use Rattle.state_model.specs.Play as model;
ghost use Rattle.state_model.specs.State.{without_job};
ghost use Rattle.state_model.specs.Merges.{choose};
ghost use Rattle.state_model.specs.Tends.{goes_before, inserted, without, outstanding, installed};

use crate::change::push_changes;
use crate::job::{Job, started};
use crate::keys::is_before;
use crate::lists::{push_table, push_tables};
use crate::merges::choose;
use crate::outputs::outputs_of_job;
use crate::placing::{placed, taken_with};
use crate::source::Source;
use crate::state::State;
use crate::table::Table;
use filter_api::RangeFilter;
use std::alloc::{AllocError, Global};

// Whether the first is of a lesser level, or of the same one with lesser keys.
fn goes_before(table: &Table, other: &Table) -> bool
    ensures { result ≡ goes_before table.now other.now }
{
    table.level < other.level
        || (table.level == other.level && is_before(table.least_key(), other.least_key()))
}

// The tables with one more, before the first that it goes before.
fn inserted(alloc: Global, tables: &[Table], new: &Table) -> Result<Vec<Table>, AllocError>
    ensures { IfOk result (λ list. list.items ≡ inserted tables.now new.now) }
{
    let mut list = Vec::with_capacity(alloc, tables.len() + 1)?;
    for i in 0..tables.len() {
        if goes_before(new, &tables[i]) {
            push_table(new, &mut list)?;
            push_tables(&tables[i..], &mut list)?;
            return Ok(list);
        }
        push_table(&tables[i], &mut list)?;
    }
    push_table(new, &mut list)?;
    Ok(list)
}

fn begins_there(page: u64, tables: &[Table]) -> bool
    ensures { result ≡ list_any (λ i. i.first_page == page) tables.now }
{
    for table in tables {
        if table.first_page == page {
            return true;
        }
    }
    false
}

fn is_left(table: &Table, inputs: &[Table]) -> bool
    ensures { result ≡ not (list_any (λ i. i.first_page == table.now.first_page) inputs.now) }
{
    !begins_there(table.first_page, inputs)
}

// The tables without some of them.
fn without(alloc: Global, inputs: &[Table], tables: &[Table]) -> Result<Vec<Table>, AllocError>
    ensures { IfOk result (λ list. list.items ≡ without inputs.now tables.now) }
{
    let mut list = Vec::new(alloc);
    push_left(inputs, tables, &mut list)?;
    Ok(list)
}

fn push_left(inputs: &[Table], tables: &[Table], list: &mut Vec<Table>) -> Result<(), AllocError>
    ensures { OnOk result (list.new.items ≡ list.old.items ++ without inputs.now tables.now) }
{
    let Some((table, later)) = tables.split_first() else {
        return Ok(());
    };
    if is_left(table, inputs) {
        push_table(table, list)?;
    }
    push_left(inputs, later, list)
}

// The tables with some more, each in its place.
fn with_all(alloc: Global, tables: Vec<Table>, made: &[Table]) -> Result<Vec<Table>, AllocError>
    ensures { IfOk result (λ list. list.items ≡ fold inserted tables.items made.now) }
{
    let mut list = tables;
    for table in made {
        list = inserted(alloc, list.as_slice(), table)?;
    }
    Ok(list)
}

// The job that runs, or a new one where one is to be chosen.
fn job_of(alloc: Global, state: &State) -> Result<Option<Job>, AllocError>
    ensures { IfOk result (λ job. job ≡ model.job_of state.now.job (choose state.now.tables)) }
{
    match &state.job {
        Some(job) => {
            let job = job.copy(alloc)?;
            Ok(Some(job))
        }
        None => match choose(alloc, state)? {
            Some(plan) => {
                let job = started(alloc, plan)?;
                Ok(Some(job))
            }
            None => Ok(None),
        },
    }
}

// The outputs take the place of the inputs, unless the epoch is the last one: then the job is dropped.
#[tactic(auto, unfolding(key_base::specs::Limits::last_epoch))]
fn installed(alloc: Global, state: &State, job: &Job) -> Result<State, AllocError>
    ensures { IfOk result (λ s. s ≡ (if state.now.epoch == last_epoch then without_job state.now else installed state.now job.now)) }
{
    let Some(epoch) = state.epoch.checked_add(1) else {
        return state.without_job(alloc);
    };
    let left = without(alloc, job.inputs.as_slice(), state.tables.as_slice())?;
    let tables = with_all(alloc, left, job.written.as_slice())?;
    let mut log = Vec::new(alloc);
    push_changes(state.log.as_slice(), &mut log)?;
    Ok(State {
        settings: state.settings,
        pages: state.pages,
        epoch,
        log,
        tables,
        job: None,
    })
}

// The job once nothing is to read and these tables are written too.
fn finished(job: Job, made: &[Table]) -> Result<Job, AllocError>
    ensures { IfOk result (λ later. later ≡ model.finished job made.now) }
{
    let mut job = job;
    job.to_read = 0;
    push_tables(made, &mut job.written)?;
    Ok(job)
}

// The outputs of these that are not written yet.
#[tactic(auto, using(crate::proofs::Whole::nothing_left, crate::proofs::Whole::left_from))]
fn left_of<'a>(job: &Job, outputs: &'a [Source]) -> &'a [Source]
    ensures { result.now ≡ drop (length job.now.written) outputs.now }
{
    if job.written.len() > outputs.len() {
        return &outputs[..0];
    }
    &outputs[job.written.len()..]
}

// The whole of a job is done: all that is left is written and installed, or the job is dropped.
fn merged_by<F: RangeFilter>(alloc: Global, state: &State, job: Job) -> Result<State, AllocError>
    ensures { IfOk result (λ s. s ≡ model.merged_by (filter_bytes_of F.spelling F.built_cutoff) state.now (Some job)) }
{
    let outputs = outputs_of_job(alloc, state, &job)?;
    let left = left_of(&job, outputs.as_slice());
    let taken = taken_with(alloc, state, &job)?;
    match placed::<F>(alloc, state, taken.as_slice(), job.output, left)? {
        Ok(made) => {
            let job = finished(job, made.as_slice())?;
            installed(alloc, state, &job)
        }
        Err(_) => state.without_job(alloc),
    }
}

/// The state after a whole merge, where one runs or is to be chosen and there is room for it.
pub fn merged<F: RangeFilter>(alloc: Global, state: &State) -> Result<State, AllocError>
    ensures { IfOk result (λ s. s ≡ model.merged (filter_bytes_of F.spelling F.built_cutoff) state.now) }
{
    match job_of(alloc, state)? {
        Some(job) => merged_by::<F>(alloc, state, job),
        None => state.copy(alloc),
    }
}

// The job goes on; where none of these outputs is left of it, it is installed, or dropped.
fn went_on_by(alloc: Global, state: &State, job: Job, left: &[Source]) -> Result<State, AllocError>
    ensures { IfOk result (λ s. s ≡ model.went_on_by state.now job left.now) }
{
    if left.is_empty() {
        return installed(alloc, state, &job);
    }
    state.with_job(alloc, job)
}

// The job goes on; where nothing is left of it, it is installed, or dropped.
fn went_on(alloc: Global, state: &State, job: Job) -> Result<State, AllocError>
    ensures { IfOk result (λ s. s ≡ model.went_on state.now job) }
{
    if job.to_read > 0 {
        return state.with_job(alloc, job);
    }
    let outputs = outputs_of_job(alloc, state, &job)?;
    let left = left_of(&job, outputs.as_slice());
    went_on_by(alloc, state, job, left)
}

// The first of these outputs is written; where none is left the job is installed, or dropped.
fn with_next<F: RangeFilter>(
    alloc: Global,
    state: &State,
    job: Job,
    left: &[Source],
) -> Result<State, AllocError>
    requires { left.now ≡ outstanding state.now.tables job }
    ensures { IfOk result (λ s. s ≡ model.with_next (filter_bytes_of F.spelling F.built_cutoff) state.now job left.now) }
{
    if left.is_empty() {
        return installed(alloc, state, &job);
    }
    let taken = taken_with(alloc, state, &job)?;
    match placed::<F>(alloc, state, taken.as_slice(), job.output, &left[..1])? {
        Ok(made) => {
            let job = finished(job, made.as_slice())?;
            went_on(alloc, state, job)
        }
        Err(_) => state.without_job(alloc),
    }
}

// A merge slice of a job: it reads a given number of blocks, or where none is left writes the next output; and installs where then nothing is
// left.
fn sliced_by<F: RangeFilter>(
    alloc: Global,
    blocks: u64,
    state: &State,
    job: Job,
) -> Result<State, AllocError>
    ensures { IfOk result (λ s. s ≡ model.sliced_by (filter_bytes_of F.spelling F.built_cutoff) blocks state.now (Some job)) }
{
    if job.to_read > 0 {
        let mut job = job;
        job.to_read = job.to_read.saturating_sub(blocks);
        return went_on(alloc, state, job);
    }
    let outputs = outputs_of_job(alloc, state, &job)?;
    let left = left_of(&job, outputs.as_slice());
    with_next::<F>(alloc, state, job, left)
}

/// The state after one merge slice of a given number of blocks, where a job runs or is to be chosen.
pub fn sliced<F: RangeFilter>(
    alloc: Global,
    blocks: u64,
    state: &State,
) -> Result<State, AllocError>
    ensures { IfOk result (λ s. s ≡ model.sliced (filter_bytes_of F.spelling F.built_cutoff) blocks state.now) }
{
    match job_of(alloc, state)? {
        Some(job) => sliced_by::<F>(alloc, blocks, state, job),
        None => state.copy(alloc),
    }
}
