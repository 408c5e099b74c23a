//! Tests of tables over a disk in memory and the plain filter.
//!
//! Nothing is exported. What the tests show at some values the crates prove at all; here building, writing, opening,
//! getting, walking and merging come together: blocks that are full to the byte, tables of 4,000 entries, changed bytes, and
//! a device whose calls fail.
#![tactic(auto)]

#[cfg(test)]
mod allocations;
#[cfg(test)]
mod asserts;
#[cfg(test)]
mod blocks;
#[cfg(test)]
mod caches;
#[cfg(test)]
mod damage;
#[cfg(test)]
mod drawn_blocks;
#[cfg(test)]
mod faults;
#[cfg(test)]
mod long_beginnings;
#[cfg(test)]
mod made;
#[cfg(test)]
mod merges;
#[cfg(test)]
mod mixed;
#[cfg(test)]
mod prefixed;
#[cfg(test)]
mod ranges;
#[cfg(test)]
mod sizes;
#[cfg(test)]
mod spellings;
#[cfg(test)]
mod tables;
