//! Tests of loads, of settings and pages that change, and of values that no log holds, as whole runs.
//!
//! Nothing is exported. What the tests show at some values `surf_run` proves of any; here the layers come together.
#![tactic(auto)]

#[cfg(test)]
mod asserts;
#[cfg(test)]
mod loads;
#[cfg(test)]
mod long_values;
#[cfg(test)]
mod reset_faults;
#[cfg(test)]
mod resets;
#[cfg(test)]
mod runs;
