//! The lines that a store reads, and the replies that it gives.
//!
//! [`parse_line`] reads one line, exactly as the grammar says, and [`piece`] writes a reply into a buffer of any size, as
//! many bytes of it as fit. Each costs the length of what it reads or writes, and none takes memory: the key and the value
//! of a line are laid out in a [`Scratch`] that is made once, with room for a value of 1,048,576 bytes. Not for lines of
//! other shapes, and not for streams: cutting an input into lines is the caller's ([`next_line`] finds the first one).
//!
//! ```text
//! let mut scratch = Scratch::new(alloc)?;
//! match parse_line(b"put 61 62", &mut scratch) {
//!     Ok(Request::Put { key, value }) => ..        // b"a", b"b"
//!     Ok(other) => ..
//!     Err(BadLine(code)) => ..
//! }
//! let n = piece(&Reply::Value(b"b"), 0, &mut buffer);   // buffer[..n] is b"val 62\n"
//! ```
#![tactic(auto)]

mod parse;
mod put_line;
mod reply;
mod request;
mod verb;
mod whole;
mod window;
mod words;

pub use parse::{Scratch, parse_line};
pub use put_line::{put_piece, puts_that_are_read};
pub use reply::{Reply, piece};
pub use request::{BadLine, Request};
pub use words::next_line;
