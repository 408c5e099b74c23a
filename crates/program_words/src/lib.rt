//! The words of the program, parsed by clap.
//!
//! [`read_words`] answers what the words behind the device's path ask for: a new store with its settings, lines to be served,
//! a load of steps, other settings or more pages, a text to be shown, or nothing, where clap refuses them. The one command line is defined in `command_line`, and
//! `specs/CommandLine` is that definition as clap's specification reads it, so which words it takes, and with which numbers, is
//! a function of the words. Ranges are checked here and not by clap: a number that is out of range is no mistake in the words.
//!
//! Takes memory for the parse alone, and calls no device. Not for a command line that grows while the program runs.
//!
//! ```text
//! match read_words(alloc, words) {                  // format --pages 512 --variant base
//!     Asked::Format(store) => ..                    // 512 pages, both widths 0, ratio 64
//!     Asked::BadSettings(field) => ..
//! ```
#![tactic(auto)]

mod asked;
mod command_line;
pub mod examples;
mod load;
mod new_store;
mod wanted_settings;

pub use asked::{Asked, read_words};
pub use load::{Load, MAX_LOAD_STEPS};
pub use new_store::NewStore;
pub use wanted_settings::Variant;
