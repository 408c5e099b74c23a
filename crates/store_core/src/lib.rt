//! A key-value store over a device: its log, its tables, and the newest entry of each key in memory.
//!
//! A [`Store`] is generic in the kind of filter that its tables have, and each call takes any device. [`Store::format`] makes
//! a device an empty store, and [`Store::open_store`] opens the one that is there. [`Store::put`] and [`Store::delete`]
//! write a record to the log before the entry is in memory; where it does not fit, [`Store::flush`] makes the memory a
//! table of level 0. A value of over 65,536 bytes goes with the memory into such a
//! table at once. [`Store::get`] looks for a key in memory and then in the tables, newest first, and reads at most one
//! block of each, and none that it keeps. [`Store::seek`] and [`Store::range`] give the pairs between two bounds, by rising
//! keys: they open those tables alone whose filter admits the bounds. [`Store::tend`] merges tables, a merge slice at each call;
//! [`Store::compact`] merges all that the store holds, in one call. [`Store::set_settings`] changes the settings of new tables,
//! [`Store::grow`] gives the store more pages. [`Store::read_store`] opens one that is only looked at, and [`Store::numbers`]
//! says what it has.
//!
//! `specs/Represents` has what a caller may rest on: a store value, the device under it and a state of `state_model` are one,
//! where each image that a crash may leave stands for that state, the tables in memory are those of its pages, and the
//! merge that runs is the state's job. Then a get answers what the map of the state has.
//!
//! Not for several processes on one device, and not for a device that others write.
//!
//! ```text
//! Store::<PlainFilter>::format(alloc, &mut disk, settings, 512)?;     // an empty store of 512 pages
//! let mut store = Store::<PlainFilter>::open_store(alloc, &mut disk)?;
//! store.put(&mut disk, b"k", b"v")?;                                  // no crash takes it back
//! store.get(&mut disk, b"k")?                                         // Some(b"v"), or None
//! let mut scan = store.range(b"a", b"z", 10)?;                        // all the memory of the scan
//! while scan.advance(&mut disk)? { .. scan.pair() .. }
//! ```
#![tactic(auto)]

mod compacting;
mod counting;
mod error;
mod explaining;
mod flushing;
mod formatting;
mod getting;
mod install;
mod limits;
mod long_values;
mod numbers;
mod opening;
mod putting;
mod resetting;
mod scanning;
mod store;
mod tending;

pub use error::{Limit, StoreError};
pub use explaining::Explained;
pub use numbers::Numbers;
pub use scanning::Scan;
pub use store::Store;
pub use tending::Tended;
