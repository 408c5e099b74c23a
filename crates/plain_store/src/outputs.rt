//! What a merge makes of its inputs.
ghost use Rattle.std.specs.Prelude.{◌≡◌, [], ◌∷◌, ◌++◌, filter, map, length, vec_items, take, drop, nat_lt, ◌≤◌, IfOk, OnOk};
ghost use Rattle.std.specs.List.{list_any};
ghost use Rattle.range_model.specs.Outputs.{with_ranges};
ghost use Rattle.state_model.specs.Merges as model;
ghost use Rattle.state_model.specs.Sound.{plan_of_job};

use crate::job::Job;
use crate::lists::{oldest_first, push_entries};
use crate::pages::data_pages;
use crate::ranges::{DeletedRange, copied_ranges, ranges_below, ranges_from};
use crate::source::{Source, alone, source_of};
use crate::state::State;
use crate::table::Table;
use entry_list::{Entry, copied, push_copy};
use key_base::MERGE_DATA_PAGES;
use plain_blocks::first_key;
use std::alloc::{AllocError, Global};

// Whether no table lies deeper than the level.
fn is_deepest(state: &State, level: u8) -> bool
    ensures { result ≡ model.is_deepest state.now.tables level }
{
    !lies_deeper(level, state.tables.as_slice())
}

fn lies_deeper(level: u8, tables: &[Table]) -> bool
    ensures { result ≡ list_any (λ t. nat_lt level t.level) tables.now }
{
    for table in tables {
        if level < table.level {
            return true;
        }
    }
    false
}

fn has_value(entry: &Entry) -> bool
    ensures { result ≡ model.has_value entry.now.value }
{
    entry.value().is_some()
}

/// Copies of the entries that are no tombstones.
pub(crate) fn live_entries(alloc: Global, entries: &[Entry]) -> Result<Vec<Entry>, AllocError>
    ensures { IfOk result (λ list. list.items ≡ filter (λ e. model.has_value e.value) entries.now) }
{
    let mut list = Vec::new(alloc);
    for entry in entries {
        if has_value(entry) {
            push_copy(entry, &mut list)?;
        }
    }
    Ok(list)
}

// What a merge keeps: no tombstones and no ranges where nothing older can lie below them.
fn lasting_of(alloc: Global, is_last: bool, source: Source) -> Result<Source, AllocError>
    ensures { IfOk result (λ s. s ≡ model.lasting_of is_last source) }
{
    if is_last {
        let entries = live_entries(alloc, source.entries.as_slice())?;
        Ok(alone(alloc, entries))
    } else {
        Ok(source)
    }
}

// What some tables make, the newest table first.
fn merged_of(alloc: Global, tables: &[Table]) -> Result<Source, AllocError>
    ensures { IfOk result (λ s. s ≡ model.merged_of tables.now) }
{
    let changes = oldest_first(alloc, tables)?;
    source_of(alloc, changes.as_slice())
}

// How many of the entries make the first output: those up to the one with which it is full, or all.
#[tactic(auto, using(crate::proofs::Cuts::split_step))]
fn first_output(alloc: Global, entries: &[Entry]) -> Result<usize, AllocError>
    ensures split { IfOk result (λ n. model.split_output [] entries.now ≡ (take n entries.now, drop n entries.now)) }
    ensures within { IfOk result (λ n. n ≤ length entries.now) }
{
    for n in 0..entries.len() {
        if data_pages(alloc, &entries[..n + 1])? >= u64::from(MERGE_DATA_PAGES) {
            return Ok(n + 1);
        }
    }
    Ok(entries.len())
}

// The outputs: each but the last is closed as soon as it is full, and at most that many come beside one. None is empty.
fn outputs_of(
    alloc: Global,
    beside: usize,
    entries: &[Entry],
) -> Result<Vec<Vec<Entry>>, AllocError>
    ensures { IfOk result (λ outputs. map vec_items outputs.items ≡ model.outputs_of beside entries.now) }
{
    let mut outputs = Vec::new(alloc);
    push_outputs(beside, entries, &mut outputs)?;
    Ok(outputs)
}

fn push_outputs(
    beside: usize,
    entries: &[Entry],
    outputs: &mut Vec<Vec<Entry>>,
) -> Result<(), AllocError>
    ensures { OnOk result (map vec_items outputs.new.items ≡ map vec_items outputs.old.items ++ model.outputs_of beside entries.now) }
{
    if entries.is_empty() {
        return Ok(());
    }
    if beside == 0 {
        return push_output(entries, outputs);
    }
    let n = first_output(*outputs.allocator(), entries)?;
    push_output(&entries[..n], outputs)?;
    push_outputs(beside - 1, &entries[n..], outputs)
}

fn push_output(entries: &[Entry], outputs: &mut Vec<Vec<Entry>>) -> Result<(), AllocError>
    ensures { OnOk result (map vec_items outputs.new.items ≡ map vec_items outputs.old.items ++ entries.now ∷ []) }
{
    let mut output = Vec::new(*outputs.allocator());
    push_entries(entries, &mut output)?;
    outputs.push(output)?;
    Ok(())
}

// An output before some others.
fn with_first(output: Source, later: Vec<Source>) -> Result<Vec<Source>, AllocError>
    ensures { IfOk result (λ list. list.items ≡ output ∷ later.items) }
{
    let mut list = later;
    list.insert(0, output)?;
    Ok(list)
}

// The outputs as sources: each has the ranges up to the first key of the next one.
fn with_ranges(
    alloc: Global,
    outputs: &[Vec<Entry>],
    ranges: &[DeletedRange],
) -> Result<Vec<Source>, AllocError>
    ensures { IfOk result (λ list. list.items ≡ with_ranges (map vec_items outputs.now) ranges.now) }
{
    let Some((output, more)) = outputs.split_first() else {
        return Ok(Vec::new(alloc));
    };
    let entries = copied(alloc, output.as_slice())?;
    let Some((next, _)) = more.split_first() else {
        let ranges = copied_ranges(alloc, ranges)?;
        return with_first(Source { entries, ranges }, Vec::new(alloc));
    };
    let at = first_key(next.as_slice());
    let below = ranges_below(alloc, ranges, at)?;
    let rest = ranges_from(alloc, ranges, at)?;
    let later = with_ranges(alloc, more, rest.as_slice())?;
    with_first(
        Source {
            entries,
            ranges: below,
        },
        later,
    )
}

/// The entries of a source, cut into outputs, each with its part of the ranges.
pub(crate) fn cut_for(
    alloc: Global,
    inputs: &[Table],
    source: &Source,
) -> Result<Vec<Source>, AllocError>
    ensures { IfOk result (λ outputs. outputs.items ≡ model.cut_for inputs.now source.now) }
{
    let outputs = outputs_of(
        alloc,
        inputs.len().saturating_sub(1),
        source.entries.as_slice(),
    )?;
    with_ranges(alloc, outputs.as_slice(), source.ranges.as_slice())
}

/// The outputs of a job.
pub(crate) fn outputs_of_job(
    alloc: Global,
    state: &State,
    job: &Job,
) -> Result<Vec<Source>, AllocError>
    ensures { IfOk result (λ outputs. outputs.items ≡ model.planned state.now.tables (plan_of_job job.now)) }
{
    let merged = merged_of(alloc, job.inputs.as_slice())?;
    let source = lasting_of(alloc, is_deepest(state, job.output), merged)?;
    cut_for(alloc, job.inputs.as_slice(), &source)
}
