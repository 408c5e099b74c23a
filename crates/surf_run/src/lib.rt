//! The top call of a key-value store over a device, an input and an output.
//!
//! [`run`] reads the words by `program_words`. `format` makes the device an empty store. `serve` opens the store on it, answers
//! the lines of the input until its end or `quit`, and answers the exit status. `load` opens it too, makes steps that follow from
//! a seed, and tells the summary of the map that is then there. `settings` opens it and changes what new tables get, and `grow`
//! gives it more pages. `check` reads all of it, says what is wrong, and changes nothing; `tables` says what each table has, and
//! `dump` each pair, as the line that puts it.
//! A put or a delete is written to the log and made to last before its `ok` is said. Its contract is the
//! promise of the whole program: what was said is what one sorted map answers, at each moment a crash leaves the map after some
//! first lines that have all that was acknowledged and none that was refused, and no more blocks are read than the filters of the
//! tables admit. [`serve_line`] answers one line over an opened store, with the merge
//! slice after it.
//!
//! A put makes two writes and two syncs, and where it does not fit the log a flush before; a get reads at most one block of
//! each table that admits its key, and a closed seek one of each table that admits its range up to its answer and one more for
//! each entry of a deleted key that it passes. A range says its pairs as they are found, in pieces of the reply buffer. After each put and
//! delete comes a merge slice, where tables are to be merged: it reads at most eight blocks and writes at most one table, and
//! nothing is said of it. All memory but the store's is taken before the first line. Not for more than one input.
//!
//! ```text
//! let status = run(alloc, words, &mut outside);   // words: `format --pages 512 --variant base`, `serve`, or `load --seed=1 --count=1`
//! ```
#![tactic(auto)]

mod answers;
mod bounds;
mod check_lines;
mod checking;
mod crash_examples;
mod dumping;
mod format_lines;
mod formatting;
mod laws;
mod lines;
mod loading;
mod new_numbers;
mod one_line;
mod opened;
mod opening;
mod reading;
mod reset_lines;
mod resetting;
mod tables;
mod top;

pub use laws::{dumps_are_copies, replies_are_of_the_map, runs_chain};
pub use lines_in::LineEnd;
pub use new_numbers::NewNumbers;
pub use one_line::serve_line;
pub use top::run;
