//! Tests of the log and the memory table over a disk in memory that crashes on command.
//!
//! Nothing is exported. What the tests show at some values their crates prove at all; here the log's bytes, its crashes
//! and the table come together.
#![tactic(auto)]

#[cfg(test)]
mod boxes;
#[cfg(test)]
mod crashes;
#[cfg(test)]
mod fields;
#[cfg(test)]
mod records;
#[cfg(test)]
mod table;
