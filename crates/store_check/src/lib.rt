//! A check of the store on a device: all of it is read, and all that is wrong is said in order.
//!
//! Opening a store reads no block, and compares no filter with keys. A [`Check`] does both: of the manifest's slots, then of each
//! table its index, its blocks and its filter, then of how the tables follow each other, then of the log. It changes and
//! syncs nothing. What may be wrong, and in which order it is said, is defined by `image_model`.
//!
//! A check reads each part once, and each block in a read of its own. It takes the memory of the version, of one table's keys
//! and two filters of them, of a block, and of the log while that is read. Not for an answer to a key, and not while another one
//! writes.
//!
//! ```text
//! let mut check = Check::start(alloc, &mut disk)?;
//! while let Some(finding) = check.next::<F, D>(&mut disk)? { .. }
//! // none was given: the device holds a store, if it holds bytes
//! ```
#![tactic(auto)]

mod before;
mod blocks;
mod check;
mod error;
mod filter;
mod finding;
mod keys;
mod live;
mod order;
mod stage;
mod summary;
mod table;
mod values;

pub use check::Check;
pub use error::CheckError;
pub use finding::{Finding, What};
pub use summary::{Summary, SummaryError};
