//! A merge that runs.
ghost use Rattle.std.specs.Prelude.{◌≡◌, sum_by, Some, None, IfOk};
ghost use Rattle.std.specs.Option.{option_map};
ghost use Rattle.state_model.specs.Tends as model;

use crate::lists::push_tables;
use crate::merges::Plan;
use crate::table::Table;
use std::alloc::{AllocError, Global};
use std::marker::Model;

/// A merge that runs: the tables that it merges, the level of the tables that it makes, how many blocks are still to read,
/// and those of its tables that are written.
#[derive(Drop)]
pub struct Job {
    pub inputs: Vec<Table>,
    pub output: u8,
    pub to_read: u64,
    pub written: Vec<Table>,
}

impl Model for Job {
    ghost use Rattle.state_model.specs.State as model;

    ghost Value = { model.Job };

    ghost view = { λ j. record { inputs = j.inputs.items; output = j.output; to_read = j.to_read; written = j.written.items } };
}

impl Job {
    /// The same job again.
    pub fn copy(&self, alloc: Global) -> Result<Job, AllocError>
        ensures { IfOk result (λ job. job ≡ self.now) }
    {
        let mut inputs = Vec::new(alloc);
        push_tables(self.inputs.as_slice(), &mut inputs)?;
        let mut written = Vec::new(alloc);
        push_tables(self.written.as_slice(), &mut written)?;
        Ok(Job {
            inputs,
            output: self.output,
            to_read: self.to_read,
            written,
        })
    }
}

/// The same job again, where there is one.
pub(crate) fn copied_job(alloc: Global, job: &Option<Job>) -> Result<Option<Job>, AllocError>
    ensures { IfOk result (λ copy. copy ≡ job.now) }
{
    match job {
        None => Ok(None),
        Some(job) => {
            let copy = job.copy(alloc)?;
            Ok(Some(copy))
        }
    }
}

// The data blocks of some tables.
fn blocks_of(tables: &[Table]) -> Result<u64, AllocError>
    ensures { IfOk result (λ blocks. blocks ≡ sum_by (λ t. t.blocks) tables.now) }
{
    let mut blocks = 0u64;
    for table in tables {
        blocks = blocks.checked_add(table.blocks).ok_or(AllocError)?;
    }
    Ok(blocks)
}

/// The job of a plan, with nothing done.
pub(crate) fn started(alloc: Global, plan: Plan) -> Result<Job, AllocError>
    ensures { IfOk result (λ job. job ≡ model.started plan) }
{
    let to_read = blocks_of(plan.inputs.as_slice())?;
    Ok(Job {
        inputs: plan.inputs,
        output: plan.output,
        to_read,
        written: Vec::new(alloc),
    })
}
