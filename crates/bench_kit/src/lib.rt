//! What each bench begins with: its options, read by clap, its watch, and one line of JSON for each measure.
//!
//! All benches take the same options in the same order, and tell them by `--help`. A bench is a program with arguments,
//! never a test with a time limit: it prints what it measured, and judges nothing.
//!
//! ```text
//! let Some(options) = read_options(&rt, alloc, "bits_bench", ABOUT, &words)? else { return Ok(()) };
//! let watch = Watch::start(rt)?;
//! let nanoseconds = watch.stop_each(rt, options.calls)?;
//! print_measure(rt, "bits_bench", "rank", &[("ns", Figure::Real(nanoseconds))])?;
//! // {"bench":"bits_bench","measure":"rank","ns":12.345678}
//! ```
#![tactic(auto)]

mod figures;
mod options;
mod watch;

pub use figures::{Figure, print_measure, share};
pub use options::{Options, read_options};
pub use test_kit::{Numbers, boxed};
pub use watch::{Least, Measured, ROUNDS, Watch};
