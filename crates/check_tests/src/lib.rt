//! Tests of a check of a store over a disk in memory.
//!
//! Nothing is exported. What the tests show at some values `store_check` and `image_model` prove at all; here the definition of
//! what is wrong meets bytes, sums and places that were worked out apart.
#![tactic(auto)]

#[cfg(test)]
mod asserts;
#[cfg(test)]
mod bytes;
#[cfg(test)]
mod checking;
#[cfg(test)]
mod clean;
#[cfg(test)]
mod damage;
#[cfg(test)]
mod mended;
#[cfg(test)]
mod stopped;
#[cfg(test)]
mod stores;
