//! Tests of the store over a disk in memory, and of scripts that the plain program plays, both with the plain filter.
//!
//! Nothing is exported. What the tests show at some values `store_core` and `plain_store` prove at all;
//! here changes, scans, faults, crashes and reopenings come together, and the lines of a script and their replies.
#![tactic(auto)]

#[cfg(test)]
mod asserts;
#[cfg(test)]
mod bounds;
#[cfg(test)]
mod caching;
#[cfg(test)]
mod changes;
#[cfg(test)]
mod deleted_ranges;
#[cfg(test)]
mod late;
#[cfg(test)]
mod limits;
#[cfg(test)]
mod scans;
#[cfg(test)]
mod scripts;
#[cfg(test)]
mod telling;
