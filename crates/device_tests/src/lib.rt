//! Tests of the devices in memory: a disk that fails and crashes on command, and the input and output beside it.
//!
//! Nothing is exported. What the tests show at some values `disk_mem` and `outside` prove at all.
#![tactic(auto)]

#[cfg(test)]
mod crashes;
#[cfg(test)]
mod files;
#[cfg(test)]
mod streams;
