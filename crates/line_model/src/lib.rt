//! The lines of the store: what each asks, which limits it may break, and the texts of the replies.
//!
//! Definitions that the reader of lines, the state and the program share stand in `specs/`. The functions here do nothing:
//! they carry examples of the definitions. A program that reads lines takes `store_commands`.
//!
//! ```text
//! put 61 62                     Put [61] [62]
//! put 61                        bad 3
//! ```
#![tactic(auto)]

pub mod examples;
pub mod spelled;
