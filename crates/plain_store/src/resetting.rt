//! What other settings, and more pages, make of a state.
ghost use Rattle.std.specs.Prelude.{◌≡◌, IfOk};
ghost use Rattle.state_model.specs.Resets as model;
ghost use Rattle.plain_store.specs.Refusals.{as_replied};

use crate::changes::Refusal;
use crate::state::State;
use filter_api::Settings;
use std::alloc::{AllocError, Global};

// The state of the next epoch, with these numbers and without a job; or there is no epoch left.
#[tactic(auto, unfolding(key_base::specs::Limits::last_epoch))]
fn with_numbers(
    alloc: Global,
    state: &State,
    settings: Settings,
    pages: u64,
) -> Result<Result<State, Refusal>, AllocError>
    ensures { IfOk result (λ changed. as_replied changed ≡ model.with_settings settings (record state.now { pages = pages })) }
{
    let Some(epoch) = state.epoch.checked_add(1) else {
        return Ok(Err(Refusal::LastEpoch));
    };
    let mut next = state.without_job(alloc)?;
    next.settings = settings;
    next.pages = pages;
    next.epoch = epoch;
    Ok(Ok(next))
}

/// New tables get these settings; those that are there keep theirs. The epoch is raised, and no job runs.
pub fn with_settings(
    alloc: Global,
    state: &State,
    settings: Settings,
) -> Result<Result<State, Refusal>, AllocError>
    ensures { IfOk result (λ changed. as_replied changed ≡ model.with_settings settings state.now) }
{
    with_numbers(alloc, state, settings, state.pages)
}

/// The device has a given number of pages. The epoch is raised, and no job runs.
pub fn with_pages(
    alloc: Global,
    state: &State,
    pages: u64,
) -> Result<Result<State, Refusal>, AllocError>
    ensures { IfOk result (λ changed. as_replied changed ≡ model.with_pages pages state.now) }
{
    with_numbers(alloc, state, state.settings, pages)
}
