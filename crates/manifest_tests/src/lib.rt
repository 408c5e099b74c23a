//! Tests of the manifest over a disk in memory that fails and crashes on command.
//!
//! Nothing is exported. What the tests show at some values the crates prove at all; here formats, installs, crashes and
//! damaged bytes come together.
#![tactic(auto)]

#[cfg(test)]
mod asserts;
#[cfg(test)]
mod bodies;
#[cfg(test)]
mod crashes;
#[cfg(test)]
mod damage;
#[cfg(test)]
mod disks;
#[cfg(test)]
mod formats;
#[cfg(test)]
mod pages;
#[cfg(test)]
mod versions;
