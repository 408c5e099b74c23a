//! A store that is played in memory.
ghost use Rattle.std.specs.Prelude.{◌≡◌, ◌∷◌, [], map, IfOk};
ghost use Rattle.std.specs.Option.{option_map};
ghost use Rattle.table_model.specs.Tables.{filter_bytes_of};
ghost use Rattle.range_model.specs.Sources.{Sets};
ghost use Rattle.state_model.specs.Changes.{written};
ghost use Rattle.state_model.specs.Play.{tended_by, played_by, played, played_in_slices};
ghost use Rattle.line_model.specs.Replies.{Bye};
ghost use Rattle.line_model.specs.Requests.{Estimate, Flush, Compact};
ghost use Rattle.state_model.specs.Steps as model;
ghost use Rattle.plain_store.specs.Refusals.{as_replied, refusal_reply};
ghost use Rattle.plain_store.specs.Slices.{merge_as};
ghost use Rattle.store_commands.specs.Asks.{asked};
ghost use Rattle.plain_store.specs.Replies.{says, answered, played_as};

use crate::change::Change;
use crate::changes::{Refusal, compacted, flushed, written};
use crate::installing::{merged, sliced};
use crate::limits::limit_of;
use crate::reads::{
    reply_to_count, reply_to_estimate, reply_to_explain, reply_to_get, reply_to_range,
    reply_to_seek,
};
use crate::reply::Reply;
use crate::state::State;
use entry_list::Entry;
use filter_api::RangeFilter;
use std::alloc::{AllocError, Global};
use store_commands::Request;

/// A reply, and the state after it.
#[derive(Drop)]
pub struct Answer {
    pub reply: Reply,
    pub state: State,
}

/// The replies to some requests, and the state that they leave.
#[derive(Drop)]
pub struct Played {
    pub replies: Vec<Reply>,
    pub state: State,
}

fn refusal_reply(refusal: Refusal) -> Reply
    ensures { says result ≡ refusal_reply refusal }
{
    match refusal {
        Refusal::ManyTables => Reply::ManyTables,
        Refusal::LastEpoch => Reply::LastEpoch,
        Refusal::Full { need, gap } => Reply::Full { need, gap },
    }
}

// The answer to a change that was done or refused.
fn changed(alloc: Global, old: &State, new: Result<State, Refusal>) -> Result<Answer, AllocError>
    ensures { IfOk result (λ a. answered a ≡ model.done_or_refused old.now (as_replied new)) }
{
    match new {
        Ok(state) => Ok(Answer {
            reply: Reply::Done,
            state,
        }),
        Err(refusal) => {
            let state = old.copy(alloc)?;
            Ok(Answer {
                reply: refusal_reply(refusal),
                state,
            })
        }
    }
}

// The answer that leaves the state as it is.
fn unchanged(alloc: Global, state: &State, reply: Reply) -> Result<Answer, AllocError>
    ensures { IfOk result (λ a. answered a ≡ (says reply, state.now)) }
{
    let state = state.copy(alloc)?;
    Ok(Answer { reply, state })
}

fn write<F: RangeFilter>(
    alloc: Global,
    state: &State,
    key: &[u8],
    value: Option<&[u8]>,
) -> Result<Answer, AllocError>
    ensures { IfOk result (λ a. answered a ≡ model.done_or_refused state.now (written (filter_bytes_of F.spelling F.built_cutoff) state.now (Sets (record { key = key.now; value = option_map (λ v. v.now) value.entry })))) }
{
    let entry = Entry::new(alloc, key, value)?;
    let change = Change::Sets(entry);
    changed(alloc, state, written::<F>(alloc, state, &change)?)
}

fn flush<F: RangeFilter>(alloc: Global, state: &State) -> Result<Answer, AllocError>
    ensures { IfOk result (λ a. answered a ≡ model.answer_within (filter_bytes_of F.spelling F.built_cutoff) state.now Flush) }
{
    changed(alloc, state, flushed::<F>(alloc, state)?)
}

fn compact<F: RangeFilter>(alloc: Global, state: &State) -> Result<Answer, AllocError>
    ensures { IfOk result (λ a. answered a ≡ model.answer_within (filter_bytes_of F.spelling F.built_cutoff) state.now Compact) }
{
    let old = state.without_job(alloc)?;
    changed(alloc, &old, compacted::<F>(alloc, state)?)
}

fn estimated<F: RangeFilter>(
    alloc: Global,
    state: &State,
    lo: &[u8],
    hi: &[u8],
) -> Result<Answer, AllocError>
    ensures { IfOk result (λ a. answered a ≡ model.answer_within (filter_bytes_of F.spelling F.built_cutoff) state.now (Estimate lo.now hi.now)) }
{
    let reply = reply_to_estimate::<F>(alloc, state, lo, hi)?;
    let state = state.copy(alloc)?;
    Ok(Answer { reply, state })
}

// The answer to a request that breaks no limit.
fn answer_within<F: RangeFilter>(
    alloc: Global,
    state: &State,
    request: Request<'_>,
) -> Result<Answer, AllocError>
    ensures { IfOk result (λ a. answered a ≡ model.answer_within (filter_bytes_of F.spelling F.built_cutoff) state.now (asked request.entry)) }
{
    match request {
        Request::Put { key, value } => write::<F>(alloc, state, key, Some(value)),
        Request::Del { key } => write::<F>(alloc, state, key, None),
        Request::Flush => flush::<F>(alloc, state),
        Request::Compact => compact::<F>(alloc, state),
        Request::Get { key } => unchanged(alloc, state, reply_to_get(alloc, state, key)?),
        Request::Seek { lo, hi } => unchanged(alloc, state, reply_to_seek(alloc, state, lo, hi)?),
        Request::Range { lo, hi, n } => unchanged(
            alloc,
            state,
            reply_to_range(alloc, state, lo, hi, n)?,
        ),
        Request::Count { lo, hi } => unchanged(alloc, state, reply_to_count(alloc, state, lo, hi)?),
        Request::Estimate { lo, hi } => estimated::<F>(alloc, state, lo, hi),
        Request::Explain { key } => unchanged(
            alloc,
            state,
            reply_to_explain::<F>(alloc, state, key)?,
        ),
        Request::Quit => unchanged(alloc, state, Reply::Bye),
    }
}

/// The answer to a request.
pub fn ask<F: RangeFilter>(
    alloc: Global,
    state: &State,
    request: Request<'_>,
) -> Result<Answer, AllocError>
    ensures { IfOk result (λ a. answered a ≡ model.answer (filter_bytes_of F.spelling F.built_cutoff) state.now (asked request.entry)) }
{
    match limit_of(request) {
        Some(reply) => unchanged(alloc, state, reply),
        None => answer_within::<F>(alloc, state, request),
    }
}

/// How a merge is done after a put and a del.
#[derive(Clone, Copy)]
pub enum Merge {
    /// Whole, in one merge slice.
    Whole,
    /// In merge slices that read a given number of blocks each.
    Slices(u64),
}

// The state after a whole merge, or after a merge slice.
fn merge_by<F: RangeFilter>(alloc: Global, merge: Merge, state: &State) -> Result<State, AllocError>
    ensures { IfOk result (λ s. s ≡ merge_as (filter_bytes_of F.spelling F.built_cutoff) merge state.now) }
{
    match merge {
        Merge::Whole => merged::<F>(alloc, state),
        Merge::Slices(blocks) => sliced::<F>(alloc, blocks, state),
    }
}

/// The state after the merge that comes after a put or a del.
pub fn tend<F: RangeFilter>(
    alloc: Global,
    merge: Merge,
    request: Request<'_>,
    state: State,
) -> Result<State, AllocError>
    ensures { IfOk result (λ s. s ≡ tended_by (merge_as (filter_bytes_of F.spelling F.built_cutoff) merge) (asked request.entry) state) }
{
    match request {
        Request::Put { .. } => merge_by::<F>(alloc, merge, &state),
        Request::Del { .. } => merge_by::<F>(alloc, merge, &state),
        Request::Get { .. } => Ok(state),
        Request::Seek { .. } => Ok(state),
        Request::Range { .. } => Ok(state),
        Request::Count { .. } => Ok(state),
        Request::Estimate { .. } => Ok(state),
        Request::Explain { .. } => Ok(state),
        Request::Flush => Ok(state),
        Request::Compact => Ok(state),
        Request::Quit => Ok(state),
    }
}

// A reply before those to what comes after it.
fn with_first(reply: Reply, later: Vec<Reply>) -> Result<Vec<Reply>, AllocError>
    ensures { IfOk result (λ list. map says list.items ≡ says reply ∷ map says later.items) }
{
    let mut list = later;
    list.insert(0, reply)?;
    Ok(list)
}

/// The replies to some requests, a merge after each put and del, and the state that they leave. Nothing comes after
/// `quit`.
pub fn play_by<F: RangeFilter>(
    alloc: Global,
    merge: Merge,
    state: &State,
    requests: &[Request<'_>],
) -> Result<Played, AllocError>
    ensures { IfOk result (λ p. played_as p ≡ played_by (filter_bytes_of F.spelling F.built_cutoff) (merge_as (filter_bytes_of F.spelling F.built_cutoff) merge) state.now (map asked requests.now)) }
{
    let Some((request, more)) = requests.split_first() else {
        return nothing(alloc, state);
    };
    let answer = ask::<F>(alloc, state, *request)?;
    match answer.reply {
        Reply::Bye => last(alloc, answer.state),
        reply => {
            let state = tend::<F>(alloc, merge, *request, answer.state)?;
            let later = play_by::<F>(alloc, merge, &state, more)?;
            let replies = with_first(reply, later.replies)?;
            Ok(Played {
                replies,
                state: later.state,
            })
        }
    }
}

/// The same with a whole merge after each put and del.
pub fn play<F: RangeFilter>(
    alloc: Global,
    state: &State,
    requests: &[Request<'_>],
) -> Result<Played, AllocError>
    ensures { IfOk result (λ p. played_as p ≡ played (filter_bytes_of F.spelling F.built_cutoff) state.now (map asked requests.now)) }
{
    play_by::<F>(alloc, Merge::Whole, state, requests)
}

/// The same with one merge slice of a given number of blocks after each put and del.
pub fn play_in_slices<F: RangeFilter>(
    alloc: Global,
    blocks: u64,
    state: &State,
    requests: &[Request<'_>],
) -> Result<Played, AllocError>
    ensures { IfOk result (λ p. played_as p ≡ played_in_slices (filter_bytes_of F.spelling F.built_cutoff) blocks state.now (map asked requests.now)) }
{
    play_by::<F>(alloc, Merge::Slices(blocks), state, requests)
}

fn nothing(alloc: Global, state: &State) -> Result<Played, AllocError>
    ensures { IfOk result (λ p. played_as p ≡ ([], state.now)) }
{
    let state = state.copy(alloc)?;
    Ok(Played {
        replies: Vec::new(alloc),
        state,
    })
}

fn last(alloc: Global, state: State) -> Result<Played, AllocError>
    ensures { IfOk result (λ p. played_as p ≡ (Bye ∷ [], state)) }
{
    let mut replies = Vec::new(alloc);
    replies.push(Reply::Bye)?;
    Ok(Played { replies, state })
}
