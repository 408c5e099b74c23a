//! What the manifest of a store is: the definitions of its bytes and of their rules, of the two slots that hold it, examples
//! and laws, and a plain program that writes a body.
//!
//! `specs/Version` says what a version is and how it is spelled, `specs/Reading` what is read from a body and which rule it
//! breaks first, and where; the sum is looked at after the first three rules. A body has one of two formats, which its head
//! names: in format 1 every table has the settings of the head, in format 2 each has its own. `specs/Tables` has the rules
//! that need more than one body: two slots of one epoch, and the key ranges of tables. `specs/Rows` says what the rules of
//! rows come to, for whoever makes a version, and `specs/NewVersion` which version a new store has.
//!
//! `specs/Slots` says which version an image holds, that of the open slot, or of two open ones that of the greater epoch, and
//! what is wrong with the slots. `specs/Installs` has the change of versions: three writes into the slot that is not in use,
//! each of which leaves the old version, but for the last, which leaves the old one or the new one.
//!
//! [`body_bytes`] is the obvious loop over the rows, and want of memory is its only error. Do not use it to keep a manifest:
//! a store reads and writes its slots on a device, and is compared with this. The functions with no parameter have no body:
//! each has examples or laws as its contract, and none needs to be called.
//!
//! ```text
//! a body        64 bytes of numbers, 64 bytes for each table, 8 bytes of their sum
//! after a format on 512 pages      53 52 46 4D 02 00 00 00  01 00 00 00 00 00 00 00  00 02 00 00 00 00 40 00 ..
//! ```
#![tactic(auto)]

pub mod examples;
mod laws;
mod version;

pub use laws::{
    a_row_fits, a_version_is_installed, an_image_has_one_version, rows_keep_the_rules,
    slots_are_kept, versions_have_one_spelling,
};
pub use version::{Version, body_bytes, push_row};
