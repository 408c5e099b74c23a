//! A disk of bytes, what its calls do, and what a crash may leave of it.
//!
//! A [`Disk`] reads, writes and syncs ranges of bytes, each call may fail, and a crash may come at any moment. What a
//! disk holds, how often it was read and failed, and what a crash at each moment of its clock may leave of it are
//! meanings for contracts alone (`World`): they cost nothing when a program runs. The layers above state their crash
//! clauses in the words beside it (`Now`, `Meanwhile`, `Leads`), over any disk at all.
//!
//! Not for streams: what is taken and said in turn belongs to an outside, and stands here only as what no disk call
//! changes.
//!
//! ```text
//! fn keep<D: Disk>(disk: &mut D, page: u64, bytes: &[u8]) -> Result<(), DiskFault> {
//!     write_through(disk, 4096 * page, bytes)     // at Ok no crash can take it back
//! }
//! ```
#![tactic(auto)]

mod disk;
mod fault;
mod laws;

pub use disk::{Disk, write_through};
pub use fault::{DiskFault, Op};
pub use laws::image_laws;
