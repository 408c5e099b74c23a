//! What tests of the program begin with: runs over a disk, an input and an output in memory, what a crash leaves of their
//! disks, and devices of earlier formats. (`test_kit` has none of them, so that tests of the layers below wait for no program.)
//!
//! Disks, outsides and stores come in boxes: a function that holds one is then proved soon. No clause is stated; a test says
//! what it finds, and asserts it in its own crate.
//!
//! ```text
//! let end = served(alloc, base_disk(alloc)?, b"put 61 62\nget 61\n")?;    // end.status, end.said, end.disk
//! let again = served(alloc, lost(alloc, &end.disk)?, b"get 61\n")?;        // the next run, after a crash
//! ```
#![tactic(auto)]

mod first_format;
mod left;
mod made;
mod no_maps;
mod runs;
mod torn;

pub use first_format::format_1;
pub use left::{Left, left_by};
pub use made::{LAST_EPOCH_SUM, four_tables, push_large, stands};
pub use no_maps::NoMaps;
pub use runs::{
    Ended, Succinct, base_disk, calls_of, commanded, failing, formatted, left_behind, lost, opened,
    outside, paced, ran, ran_by, served, served_by, stopped, written,
};
pub use test_kit::{boxed, disk_of};
pub use torn::torn_disks;
