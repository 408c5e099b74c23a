//! Tests of what lasts of whole runs that are stopped, torn, out of memory or random.
//!
//! Nothing is exported. What the tests show at some values `surf_run` proves of any; here the layers come together.
#![tactic(auto)]

#[cfg(test)]
mod asserts;
#[cfg(test)]
mod faults;
#[cfg(test)]
mod memory;
#[cfg(test)]
mod moments;
#[cfg(test)]
mod played;
#[cfg(test)]
mod runs;
#[cfg(test)]
mod torn;
