//! Tests of a store whose settings and pages change, of devices of the manifest's first format, and of calls that are refused.
//!
//! Nothing is exported. What the tests show at some values `store_core` proves at all; here the layers come together.
#![tactic(auto)]

#[cfg(test)]
mod asserts;
#[cfg(test)]
mod formats;
#[cfg(test)]
mod refused;
#[cfg(test)]
mod resetting;
