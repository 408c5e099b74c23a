//! Merges of tables: which tables are merged next, and the merge itself, in merge slices.
//!
//! [`choose`] looks at the tables of a version, in memory alone, and answers the next [`Plan`]: all tables of level 0 once
//! they are four, else the first table of the first level that has too many pages, in each case with the tables of the level
//! below that they meet. It costs a look at each table for each level. It is asked after each change. Do not ask it while a
//! merge runs: its plan stays, whatever was put before its tables meanwhile.
//!
//! A [`Job`] does the merge of a plan, or of a memory table and all tables, in merge slices of a given number of blocks: it walks its tables
//! side by side, builds one output at a time, and writes it once it has the pages of an output, or no row is left. It borrows
//! no table and knows nothing of the version: whoever holds the tables hands them in, takes the outputs into a next version
//! once it is [`Sliced::Ready`], and gives the pages of its [`outputs`](Job::outputs) back where a slice was refused.
//!
//! ```text
//! if let Some(plan) = choose(alloc, &tables)? { .. }      // plan.inputs: numbers of tables; plan.output: a level
//! let mut job = Job::start(plan, settings, &tables)?;
//! while job.slice(&mut disk, &tables, &mut extents, 8)? == Sliced::Working {}
//! let made = job.into_tables();
//! ```
#![tactic(auto)]

mod bounds;
mod choosing;
mod closing;
mod fault;
mod job;
pub mod laws;
mod plan;
mod taking;

pub use choosing::choose;
pub use fault::{JobFault, Sliced};
pub use job::Job;
pub use plan::Plan;
