//! The manifest of a store on its device: one version at a time, and after a crash the old one or the new one.
//!
//! A version says which settings, pages, log area and tables a store has. It stands in one of two slots, each a gate byte
//! and a body with a sum behind it; of two open slots that of the greater epoch holds. [`install`] puts a new version in the
//! place of the old one by three writes into the slot that is not in use, each made to last: its gate is closed, its body is
//! written, its gate is opened. So every image that a crash may leave has the old version or the new one, and nothing
//! outside that slot has changed. [`format`] writes the first version into slot A, and [`is_store`] looks whether there is
//! one. [`load`] reads what stands: it answers a version exactly where every open slot keeps the rules, else the first rule
//! that is broken and the byte of the device, and trusts no length before its rule was tried. [`read_slot`] does so of one slot
//! alone. A body has one of two formats, in each slot its own: in format 1 a table has the settings of the head, in format 2
//! its own. Both are read, and format 2 is written.
//!
//! An install takes memory for one body, writes it in one write, and reads nothing. A load makes at most six reads; rows are
//! judged in one pass, and whether two tables meet is found by the order of their pages. What stands in the pages of tables,
//! and the log, are not looked at here: whoever names them keeps them apart from the slots, and what is apart stays. Do not
//! use it for what changes with each entry: an install writes the rows of all tables. That is what a log is for.
//!
//! ```text
//! format(alloc, &mut disk, settings, 512)?;
//! let mut version = load(alloc, &mut disk)?;      // epoch 1, in slot A
//! version.rows.push(row)?;
//! install(alloc, &mut disk, &version)?;           // no crash takes it back
//! let version = version.installed();              // epoch 2, in slot B
//! ```
#![tactic(auto)]

mod fault;
mod formatting;
mod installing;
mod loading;
mod reading;
mod rules;
mod slots;
mod version;
mod writing;

pub use fault::ManifestFault;
pub use formatting::{format, is_store};
pub use installing::install;
pub use loading::{load, read_slot};
pub use slots::BODY_AT;
pub use version::Version;
pub use writing::{HEAD_BYTES, ROW_BYTES};
