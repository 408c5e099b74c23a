//! A store that is played in memory: each definition of `state_model` that computes, as a plain loop over lists.
//!
//! A [`State`] is seen as the state of the definitions, and a kind of filter is named by the type that implements
//! `RangeFilter`. [`play`] answers requests one after the other, with a whole merge after each put and del, and
//! [`play_in_slices`] with a merge slice of a given number of blocks; the replies and the state that they leave are the definitions'
//! own. Beside them are the parts: [`flushed`], [`written`], [`compacted`], [`with_settings`], [`with_pages`],
//! [`choose`], [`merged`], [`sliced`], the gaps, the bounds and the numbers.
//!
//! A line that breaks the grammar is no request, and its reply needs no store. What is played here has no pages, no
//! cache and no device, it copies whatever it changes, and it builds a table's filter anew for each question: it is what
//! the store is compared with, and no store. Each call gives up with `AllocError` for lack of memory, at a number past
//! 64 bits, and where entries or settings are out of range.
//!
//! ```text
//! let state = State::new(alloc, settings, 512);
//! let script = [Request::Put { key: b"a", value: b"b" }, Request::Flush, Request::Get { key: b"a" }];
//! let end = play::<PlainFilter>(alloc, &state, &script)?;     // ok, ok, val 62
//! ```
#![tactic(auto)]

mod answering;
mod bounds;
mod change;
mod changes;
mod filters;
mod finding;
mod gaps;
mod installing;
mod job;
mod keys;
mod limits;
mod lists;
mod merges;
mod outputs;
mod pages;
mod placing;
mod ranges;
mod reads;
mod reply;
mod resetting;
mod source;
mod state;
mod table;
mod view;

pub use answering::{Answer, Merge, Played, ask, play, play_by, play_in_slices, tend};
pub use bounds::{admitted, blocks_read, estimate, get_bound, seek_bound};
pub use change::Change;
pub use changes::{Refusal, compacted, flushed, written};
pub use finding::Found;
pub use gaps::{Extent, first_gap, largest_gap};
pub use installing::{merged, sliced};
pub use job::Job;
pub use merges::{Plan, choose};
pub use pages::table_pages;
pub use placing::NoRoom;
pub use ranges::DeletedRange;
pub use reply::Reply;
pub use resetting::{with_pages, with_settings};
pub use source::{Source, newest_entries, source_of};
pub use state::State;
pub use store_commands::Request;
pub use table::Table;
