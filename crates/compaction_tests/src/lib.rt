//! Tests of merges: which tables are merged next, a merge slice by slice, stores that are tended and compacted, and
//! random scripts beside the plain program.
//!
//! Nothing is exported. What the tests show at some values `level_merge`, `store_core` and `plain_store` prove at all;
//! here the bytes that a merge leaves, changes between merge slices, faults, crashes and reopenings come together.
#![tactic(auto)]

#[cfg(test)]
mod asserts;
#[cfg(test)]
mod choices;
#[cfg(test)]
mod compactions;
#[cfg(test)]
mod long_values;
#[cfg(test)]
mod made;
#[cfg(test)]
mod merging;
#[cfg(test)]
mod random;
#[cfg(test)]
mod slices;
#[cfg(test)]
mod stops;
#[cfg(test)]
mod tended;
#[cfg(test)]
mod tending;
#[cfg(test)]
mod variants;
