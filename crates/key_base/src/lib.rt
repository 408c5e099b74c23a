//! Byte strings and their order, the longest common prefix, lists of keys, and the limits of the store.
//!
//! Byte strings compare byte by byte, a proper prefix first. The definitions of the order and of the limits stand in
//! `specs/`. [`compare`] and [`shared`] read as many bytes as the two have alike. A [`KeyList`] keeps all its keys
//! in one piece of memory, and where each ends; it is a list to build from. Do not use it as an index: finding a key in
//! it is the caller's loop.
//!
//! ```text
//! let mut keys = KeyList::new(alloc);
//! keys.push(b"far")?;
//! keys.push(b"fast")?;
//! shared(keys.get(0), keys.get(1)) == 2
//! ```
#![tactic(auto)]

mod key_list;
mod laws;
mod limits;
mod order;

pub use key_list::KeyList;
pub use laws::{constants_are_limits, first_table, log_area, shared_prefixes};
pub use limits::{
    ENTRY_HEAD_BYTES, FIRST_TABLE_PAGE, LAST_EPOCH, LOG_BYTES, LOG_PAGES, MAX_BLOCK_ENTRIES,
    MAX_BLOCK_PAGES, MAX_BOUND_BYTES, MAX_DEVICE_PAGES, MAX_HASH_BITS, MAX_INPUT_BYTES,
    MAX_KEY_BYTES, MAX_LEVEL, MAX_LINE_BYTES, MAX_LOGGED_VALUE_BYTES, MAX_RANGE_PAIRS, MAX_RATIO,
    MAX_REAL_BITS, MAX_TABLES, MAX_VALUE_BYTES, MERGE_DATA_PAGES, MIN_DEVICE_PAGES, PAGE_BYTES,
    PIECE_BYTES, RESTART_ENTRIES, SLOT_BYTES,
};
pub use order::{compare, shared};
