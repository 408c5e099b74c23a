//! Tests of the bit kernels against plain loops over single bits and labels.
//!
//! Nothing is exported. What the tests show at some lengths the crates prove at all; here bits, ranks and selects come
//! together.
#![tactic(auto)]

#[cfg(test)]
mod examples;
#[cfg(test)]
mod labels;
#[cfg(test)]
mod lengths;
#[cfg(test)]
mod patterns;
