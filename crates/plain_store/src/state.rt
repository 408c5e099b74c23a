//! The state of a store that is played in memory.
ghost use Rattle.std.specs.Prelude.{◌≡◌, ◌≤◌, IfOk};
ghost use Rattle.state_model.specs.State.{new_state, without_job};
ghost use Rattle.state_model.specs.Tends.{with_job};

use crate::change::{Change, push_changes};
use crate::job::{Job, copied_job};
use crate::lists::push_tables;
use crate::table::Table;
use filter_api::Settings;
use std::alloc::{AllocError, Global};
use std::marker::Model;

/// What a store holds: its log's changes in the order of writing, and its tables, those of level 0 first and the newest
/// of them first, then the deeper levels, each by rising keys, and the merge that runs.
#[derive(Drop)]
pub struct State {
    pub settings: Settings,
    pub pages: u64,
    pub epoch: u64,
    pub log: Vec<Change>,
    pub tables: Vec<Table>,
    pub job: Option<Job>,
}

impl Model for State {
    ghost use Rattle.std.specs.Prelude.{[], map};
    ghost use Rattle.state_model.specs.State as model;
    ghost use Rattle.plain_store.specs.ChangeKinds.{change_of};

    ghost Value = { model.State };

    ghost view = { λ s. record { settings = s.settings; pages = s.pages; epoch = s.epoch; log = map change_of s.log.items; tables = s.tables.items; job = s.job; kept = [] } };
}

impl State {
    /// A store as it is made, on a device of a given number of pages: epoch 1, and nothing in it.
    pub fn new(alloc: Global, settings: Settings, pages: u64) -> State
        ensures { result ≡ new_state settings pages }
    {
        State {
            settings,
            pages,
            epoch: 1,
            log: Vec::new(alloc),
            tables: Vec::new(alloc),
            job: None,
        }
    }

    /// The same state again.
    pub fn copy(&self, alloc: Global) -> Result<State, AllocError>
        ensures { IfOk result (λ s. s ≡ self.now) }
    {
        let mut log = Vec::new(alloc);
        push_changes(self.log.as_slice(), &mut log)?;
        let mut tables = Vec::new(alloc);
        push_tables(self.tables.as_slice(), &mut tables)?;
        let job = copied_job(alloc, &self.job)?;
        Ok(State {
            settings: self.settings,
            pages: self.pages,
            epoch: self.epoch,
            log,
            tables,
            job,
        })
    }

    /// The same state with this job.
    pub(crate) fn with_job(&self, alloc: Global, job: Job) -> Result<State, AllocError>
        ensures { IfOk result (λ s. s ≡ with_job self.now job) }
    {
        let mut state = self.copy(alloc)?;
        state.job = Some(job);
        Ok(state)
    }

    /// The same state without its job.
    pub(crate) fn without_job(&self, alloc: Global) -> Result<State, AllocError>
        ensures { IfOk result (λ s. s ≡ without_job self.now) }
    {
        let mut state = self.copy(alloc)?;
        state.job = None;
        Ok(state)
    }
}
