//! What a put, a flush and a compaction make of a state.
ghost use Rattle.std.specs.Prelude.{◌≡◌, ◌+◌, [], ◌∷◌, map, IfOk};
ghost use Rattle.key_base.specs.Limits.{max_level};
ghost use Rattle.entry_model.specs.Entries.{need, body};
ghost use Rattle.table_model.specs.Tables.{filter_bytes_of};
ghost use Rattle.state_model.specs.Changes as model;
ghost use Rattle.state_model.specs.Logs.{filled_by, gap_after, need_of, recorded};
ghost use Rattle.state_model.specs.State.{without_job};
ghost use Rattle.range_model.specs.Sources.{Clears};
ghost use Rattle.state_model.specs.Taken.{taken};
ghost use Rattle.state_model.specs.Merges.{placed};
ghost use Rattle.plain_store.specs.ChangeKinds.{change_of};
ghost use Rattle.plain_store.specs.Refusals.{as_replied};

use crate::change::Change;
use crate::job::copied_job;
use crate::lists::push_tables;
use crate::outputs::{cut_for, live_entries};
use crate::placing::{placed, taken, taken_without};
use crate::ranges::DeletedRange;
use crate::source::{Source, alone, source_of};
use crate::state::State;
use crate::table::Table;
use entry_list::{Entry, body_length};
use filter_api::RangeFilter;
use key_base::{LOG_BYTES, MAX_KEY_BYTES, MAX_LEVEL, MAX_LOGGED_VALUE_BYTES, MAX_TABLES};
use std::alloc::{AllocError, Global};

/// Why a change is refused.
#[derive(Clone, Copy, Debug, PartialEq, Eq)]
pub enum Refusal {
    /// The version has as many tables as it may.
    ManyTables,
    /// The epoch is the last one.
    LastEpoch,
    /// A table needs more pages than the largest gap has.
    Full { need: u64, gap: u64 },
}

// The state with one epoch more, an empty log and other tables.
#[tactic(auto, unfolding(key_base::specs::Limits::last_epoch))]
fn with_tables(
    alloc: Global,
    state: &State,
    tables: Vec<Table>,
) -> Result<Result<State, Refusal>, AllocError>
    ensures { IfOk result (λ changed. as_replied changed ≡ model.with_tables state.now tables.items) }
{
    let Some(epoch) = state.epoch.checked_add(1) else {
        return Ok(Err(Refusal::LastEpoch));
    };
    let job = copied_job(alloc, &state.job)?;
    Ok(Ok(State {
        settings: state.settings,
        pages: state.pages,
        epoch,
        log: Vec::new(alloc),
        tables,
        job,
    }))
}

/// What is in memory becomes one table, the first of level 0, in the first gap that holds it, and the log is empty. Where
/// there are no entries nothing changes.
pub fn flushed<F: RangeFilter>(
    alloc: Global,
    state: &State,
) -> Result<Result<State, Refusal>, AllocError>
    ensures { IfOk result (λ changed. as_replied changed ≡ model.flushed (filter_bytes_of F.spelling F.built_cutoff) state.now) }
{
    let memory = state.in_memory(alloc)?;
    if memory.entries.is_empty() {
        let same = state.copy(alloc)?;
        return Ok(Ok(same));
    }
    if state.tables.len() >= MAX_TABLES {
        return Ok(Err(Refusal::ManyTables));
    }
    flushed_source::<F>(alloc, state, memory)
}

// A source becomes the first table, in the state of the next epoch.
fn flushed_source<F: RangeFilter>(
    alloc: Global,
    state: &State,
    source: Source,
) -> Result<Result<State, Refusal>, AllocError>
    ensures { IfOk result (λ changed. as_replied changed ≡ model.flush_placed state.now
        (placed (filter_bytes_of F.spelling F.built_cutoff) state.now.settings state.now.pages (taken state.now) 0 (source ∷ []))) }
{
    let mut outputs = Vec::new(alloc);
    outputs.push(source)?;
    let taken = taken(alloc, state)?;
    match placed::<F>(alloc, state, taken.as_slice(), 0, outputs.as_slice())? {
        Ok(made) => {
            let mut tables = made;
            push_tables(state.tables.as_slice(), &mut tables)?;
            with_tables(alloc, state, tables)
        }
        Err(refusal) => Ok(Err(Refusal::Full {
            need: refusal.need,
            gap: refusal.gap,
        })),
    }
}

// The state with a change more in its log.
fn logged(alloc: Global, state: State, change: &Change) -> Result<State, AllocError>
    ensures { IfOk result (λ s. s ≡ model.logged state (change_of change.now)) }
{
    let mut state = state;
    let copy = change.copy(alloc)?;
    state.log.push(copy)?;
    Ok(state)
}

/// The change is logged, after a flush exactly where its record does not fit the log area. An entry whose value is longer
/// than any that the log takes is flushed, over what is in memory.
pub fn written<F: RangeFilter>(
    alloc: Global,
    state: &State,
    change: &Change,
) -> Result<Result<State, Refusal>, AllocError>
    ensures { IfOk result (λ changed. as_replied changed ≡ model.written (filter_bytes_of F.spelling F.built_cutoff) state.now (change_of change.now)) }
{
    if is_long(change) {
        let same = state.copy(alloc)?;
        let with_it = logged(alloc, same, change)?;
        return flushed::<F>(alloc, &with_it);
    }
    if record_length(change)?.checked_add(1).ok_or(AllocError)? <= log_gap(state)? {
        let same = state.copy(alloc)?;
        let state = logged(alloc, same, change)?;
        return Ok(Ok(state));
    }
    match flushed::<F>(alloc, state)? {
        Ok(state) => {
            let state = logged(alloc, state, change)?;
            Ok(Ok(state))
        }
        Err(refusal) => Ok(Err(refusal)),
    }
}

// Whether its record would have a longer value than any that the log takes.
fn is_long(change: &Change) -> bool
    ensures { result ≡ model.is_long (recorded (change_of change.now)) }
{
    match change {
        Change::Sets(entry) => has_long_value(entry),
        Change::Clears(range) => range.hi().len() > MAX_LOGGED_VALUE_BYTES,
    }
}

fn has_long_value(entry: &Entry) -> bool
    ensures { result ≡ model.is_long entry.now }
{
    match entry.value() {
        Some(bytes) => bytes.len() > MAX_LOGGED_VALUE_BYTES,
        None => false,
    }
}

// The bytes of a change's record, with its gate. It gives up where a key or a value is out of range.
fn record_length(change: &Change) -> Result<u64, AllocError>
    ensures { IfOk result (λ n. n + 1 ≡ need_of (change_of change.now)) }
{
    match change {
        Change::Sets(entry) => entry_length(entry),
        Change::Clears(range) => range_record_length(range),
    }
}

fn range_record_length(range: &DeletedRange) -> Result<u64, AllocError>
    ensures { IfOk result (λ n. n + 1 ≡ need_of (Clears range.now)) }
{
    if range.lo().len() > MAX_KEY_BYTES || range.hi().len() > MAX_KEY_BYTES {
        return Err(AllocError);
    }
    Ok(1 + body_length(range.lo().len(), range.hi().len()) as u64)
}

fn entry_length(entry: &Entry) -> Result<u64, AllocError>
    ensures { IfOk result (λ n. n + 1 ≡ need entry.now) }
{
    if !entry.is_sound() {
        return Err(AllocError);
    }
    let value = match entry.value() {
        Some(bytes) => bytes.len(),
        None => 0,
    };
    Ok(1 + body_length(entry.key().len(), value) as u64)
}

// The bytes that the log's records take.
#[tactic(auto, unfolding(entry_model::specs::Entries::filled))]
fn log_bytes(changes: &[Change]) -> Result<u64, AllocError>
    ensures { IfOk result (λ n. n ≡ filled_by (map change_of changes.now)) }
{
    let mut bytes = 0u64;
    for change in changes {
        bytes = bytes.checked_add(record_length(change)?).ok_or(AllocError)?;
    }
    Ok(bytes)
}

// The bytes that are left in the log area.
#[tactic(auto, unfolding(entry_model::specs::Entries::gap))]
fn log_gap(state: &State) -> Result<u64, AllocError>
    ensures { IfOk result (λ n. n ≡ gap_after state.now.log) }
{
    let filled = log_bytes(state.log.as_slice())?;
    Ok((LOG_BYTES as u64).saturating_sub(filled))
}

/// The live pairs alone are in tables of the last level, and the log is empty. An empty store stays as it is.
#[tactic(auto, unfolding(key_base::specs::Limits::last_epoch))]
pub fn compacted<F: RangeFilter>(
    alloc: Global,
    state: &State,
) -> Result<Result<State, Refusal>, AllocError>
    ensures { IfOk result (λ changed. as_replied changed ≡ model.compacted (filter_bytes_of F.spelling F.built_cutoff) state.now) }
{
    let changes = state.changes(alloc)?;
    if changes.is_empty() {
        let same = state.copy(alloc)?;
        return Ok(Ok(same));
    }
    let Some(epoch) = state.epoch.checked_add(1) else {
        return Ok(Err(Refusal::LastEpoch));
    };
    compacted_at::<F>(alloc, state, epoch)
}

// The live pairs of a store that is not empty, cut into outputs.
fn live_outputs(alloc: Global, state: &State) -> Result<Vec<Source>, AllocError>
    ensures { IfOk result (λ outputs. outputs.items ≡ model.compacted_outputs state.now) }
{
    let changes = state.changes(alloc)?;
    let newest = source_of(alloc, changes.as_slice())?;
    let live = live_entries(alloc, newest.entries.as_slice())?;
    let source = alone(alloc, live);
    cut_for(alloc, state.tables.as_slice(), &source)
}

// They are placed, and are alone in the state of the next epoch.
fn compacted_at<F: RangeFilter>(
    alloc: Global,
    state: &State,
    epoch: u64,
) -> Result<Result<State, Refusal>, AllocError>
    requires { epoch ≡ state.now.epoch + 1 }
    ensures { IfOk result (λ changed. as_replied changed ≡ model.compact_placed state.now
        (placed (filter_bytes_of F.spelling F.built_cutoff) state.now.settings state.now.pages (taken (without_job state.now)) max_level (model.compacted_outputs state.now))) }
{
    let outputs = live_outputs(alloc, state)?;
    let taken = taken_without(alloc, state)?;
    match placed::<F>(
        alloc,
        state,
        taken.as_slice(),
        MAX_LEVEL,
        outputs.as_slice(),
    )? {
        Ok(tables) => Ok(Ok(State {
            settings: state.settings,
            pages: state.pages,
            epoch,
            log: Vec::new(alloc),
            tables,
            job: None,
        })),
        Err(refusal) => Ok(Err(Refusal::Full {
            need: refusal.need,
            gap: refusal.gap,
        })),
    }
}
