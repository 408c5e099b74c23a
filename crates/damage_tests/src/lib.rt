//! Tests of a check beside a plain program that reads the same bytes.
//!
//! Nothing is exported. Stores of random scripts, with random bytes changed: `store_check` and `plain_check`, which share no
//! reader, find the same things, and nothing in the same places.
#![tactic(auto)]

#[cfg(test)]
mod asserts;
#[cfg(test)]
mod both;
#[cfg(test)]
mod changes;
#[cfg(test)]
mod cutoffs;
#[cfg(test)]
mod random;
#[cfg(test)]
mod ranges;
#[cfg(test)]
mod scripts;
