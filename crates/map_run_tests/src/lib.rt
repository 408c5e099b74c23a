//! Tests of whole runs of the programs of a static map, over a disk, an input and an output in memory.
//!
//! Nothing is exported. What the tests show at some values `fst_run` proves of any; here both programs come together.
#![tactic(auto)]

#[cfg(test)]
mod asserts;
#[cfg(test)]
mod bodies;
#[cfg(test)]
mod built;
#[cfg(test)]
mod faults;
#[cfg(test)]
mod memory;
#[cfg(test)]
mod refused;
#[cfg(test)]
mod runs;
#[cfg(test)]
mod served;
