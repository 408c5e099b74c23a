//! The log: changes that a crash leaves whole or not at all.
//!
//! A log lies in one of two areas of a device and is a row of records: a gate (one byte), the kind (one byte: 1 a put, 2
//! a delete, 3 a range of keys that is deleted), the length of the key (two bytes), that of the value (four), the key and
//! the value; a range has its bounds in their places. A gate is open where
//! its byte is 1, and the records end at the first gate that is not. A record is written behind its closed gate,
//! together with a closed gate behind it, and is made to last before its own gate is opened: so no sum is needed, and a
//! crash shows each record or none of it. Over any disk that tells what it holds, each image that a crash may leave in
//! an append spells the changes before it, with the new one or without; at `Ok` with it alone.
//!
//! An append is two writes and two syncs. Replaying is one read of the whole area. Nothing is taken away from a log: it
//! is full at 262,144 bytes, and [`Log::start`] begins it anew. Not for records over a buffer's length, and not for a
//! device that orders no writes by its sync.
//!
//! ```text
//! let mut log = Log::start(&mut disk, 0)?;
//! if log.fits(record_need(key, Some(value))) {
//!     log.append(&mut disk, &mut buf, key, Some(value))?;
//! }
//! let (log, changes) = Log::replay(alloc, &mut disk, 0)?;     // what was appended, in order
//! ```
#![tactic(auto)]

mod fault;
mod kind;
mod log;
mod reading;
mod writing;

pub use fault::LogFault;
pub use log::Log;
pub use reading::changes_in;
pub use writing::{BUFFER_BYTES, range_need, record_need};
