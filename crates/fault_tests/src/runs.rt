//! Runs of the program in memory, as `test_runs` makes them, and how they ended.
use crate::asserts::check_same_at;
use std::process::Abort;
pub use test_runs::{
    Ended, Succinct, base_disk, boxed, calls_of, commanded, disk_of, failing, formatted,
    left_behind, lost, opened, paced, served, served_by, stopped, written,
};

/// Checks how a run ended. Where runs are numbered, a failing one is told by its number.
pub fn check(rt: &impl Abort, end: &Ended, status: u8, said: &[u8], number: u64) {
    check_same_at(rt, &number, &end.said.as_slice(), &said);
    check_same_at(rt, &number, &end.status, &status);
}
