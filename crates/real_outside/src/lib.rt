//! The outside of a real process: a file as the disk, and standard input and output beside it.
//!
//! This is the trusted edge: no proof can say what a file or a terminal gives or takes, so a [`FileOutside`] tells no
//! content. Proved is the rest of what an outside promises: each fault comes with its call's op and place and raises
//! the count of its kind, which nothing else moves. That the file keeps what was written and synced is trusted.
//!
//! A call costs one system call, or as many as the system cuts it into. Not for a file that another process writes, and
//! not for a terminal's lines: a piece of input is what one read gives.
//!
//! ```text
//! let mut outside = FileOutside::at(process, path);      // the file is made at the first disk call
//! surf_run::run(alloc, words, &mut outside)              // serves standard input
//! let mut copy = FileOutside::reading(process, path);    // no file is made, and none is written
//! ```
#![tactic(auto)]

pub mod examples;
mod file;
mod process;

pub use process::FileOutside;
