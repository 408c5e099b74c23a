//! What tests of every layer begin with: values in boxes, disks in memory that fail and crash, and random numbers.
//!
//! Disks come in boxes: a function that holds a box is proved soon, whatever the value in it owns, since no part of it is
//! gone into at each step.
//!
//! ```text
//! let mut disk = failing_disk(alloc, 2)?;      // a new disk whose third call fails
//! let mut numbers = Numbers::new(1);
//! numbers.draw_below(6)                        // 0 to 5, the same at each run
//! ```
#![tactic(auto)]

mod allocations;
mod boxes;
mod disks;
mod draws;

pub use allocations::is_not_the_last;
pub use boxes::boxed;
pub use disks::{Left, crashed, disk_of, failing, failing_disk, left_by, new_disk};
pub use draws::Numbers;
