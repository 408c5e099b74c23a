//! Tests of merges that open tables late, over a disk in memory and the plain filter.
//!
//! Nothing is exported. What the tests show at some tables the crates prove at all; here waking keys, which the filters say,
//! and the merge come together: rows beside those of a merge that opens all tables, and the blocks that are read.
#![tactic(auto)]

#[cfg(test)]
mod asserts;
#[cfg(test)]
mod made;
#[cfg(test)]
mod rows;
