//! Stores over disks in memory, and states that are played: what tests of a store begin with, and the disks of `test_kit`
//! beside them. (`test_kit` has none of them, so that tests of the layers below wait for no store.)
//!
//! Each comes in a box: a function that holds one is then proved soon, whatever it owns. No clause is stated; a test says
//! what it finds.
#![tactic(auto)]

mod crashes;
mod plays;
mod scans;
mod stores;

pub use crashes::failing_behind;
pub use plays::{new_state, played};
pub use scans::{PlainScan, range_of, seek_of};
pub use stores::{BASE, Change, PlainStore, apply, changed, opened};
pub use test_kit::{Left, crashed, disk_of, failing, is_not_the_last, left_by};
