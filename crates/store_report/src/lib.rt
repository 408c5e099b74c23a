//! The lines that tell what each table of a store has, and what the store has.
//!
//! [`say_table`] says the line of a table, its keys in hex, a part at a time, so that no buffer need be as long as the line;
//! [`store_line`] lays that of the store out.
//!
//! ```text
//! say_table(out, table.row(), table.least(), table.greatest())?;   // table 0 192 3 1 0 0 64 61 61
//! say_all(out, store_line(pages, free, gap, epoch, log_bytes, settings).as_slice())?;
//! ```
#![tactic(auto)]

pub mod examples;
mod layout;
mod saying;

pub use layout::store_line;
pub use saying::say_table;
