//! Tests of a static map: over bodies that are written out, over random maps, and of what its builder refuses and writes.
//!
//! Nothing is exported. What a reader answers is proved of all bytes, and what a builder writes of all pairs; here bodies are
//! written out, byte by byte, so that the format of the definitions is the one that a hand writes.
#![tactic(auto)]

#[cfg(test)]
mod answers;
#[cfg(test)]
mod bodies;
#[cfg(test)]
mod borders;
#[cfg(test)]
mod builders;
#[cfg(test)]
mod building;
#[cfg(test)]
mod cursors;
#[cfg(test)]
mod faults;
#[cfg(test)]
mod finishes;
#[cfg(test)]
mod heaps;
#[cfg(test)]
mod sets;
