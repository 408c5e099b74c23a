//! Tests of whole runs over a disk, an input and an output in memory: words, lines, replies, damage, formats, merges.
//!
//! Nothing is exported. What the tests show at some values `surf_run` proves of any; here the layers come together.
#![tactic(auto)]

#[cfg(test)]
mod asserts;
#[cfg(test)]
mod checks;
#[cfg(test)]
mod damage;
#[cfg(test)]
mod dumps;
#[cfg(test)]
mod eight_blocks;
#[cfg(test)]
mod formats;
#[cfg(test)]
mod many_tables;
#[cfg(test)]
mod new_stores;
#[cfg(test)]
mod old_blocks;
#[cfg(test)]
mod refused;
#[cfg(test)]
mod replies;
#[cfg(test)]
mod runs;
#[cfg(test)]
mod slices;
#[cfg(test)]
mod tables;
#[cfg(test)]
mod words;
