//! The bytes of a log: what an area of a device says, and which rule other bytes break.
//!
//! A log is a row of records, each behind an open gate, up to the first gate that is not open. Definitions stand in
//! `specs/`; the functions here carry their laws, and examples, and do nothing. A program that keeps a log takes
//! `gate_log`. Not for bytes that no log wrote: it says which rule they break, and no more.
//!
//! ```text
//! 01 record 01 record 00        two changes
//! 00                            none
//! ```
#![tactic(auto)]

pub mod examples;
mod laws;

pub use laws::log_laws;
