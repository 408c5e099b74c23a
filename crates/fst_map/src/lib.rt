//! A static map: a sorted map in one piece of bytes, read only and asked where it lies.
//!
//! [`FstMap::read`] judges the bytes whole, once: it takes exactly those that spell a map (`map_file_model`), and of others it
//! gives the first rule that they break. After that `get` and `count` trust them. The keys are a trie (`filter_trie`), of which
//! the sections are copied into memory of any allocator; offsets and values stay where they are, and a value is a part of the
//! bytes.
//!
//! A walk down the trie ends at a leaf also where the key goes on behind it. So `get` compares how many bytes the leaf has, and
//! `count` takes one off where its lower bound runs past a key.
//!
//! Do not use it for keys that come and go, nor where each get has to be as fast as may be: a walk looks at one node for each
//! byte of a key, and a binary search in a sorted array waits for memory less often. Its use is size, order and counts.
//!
//! ```text
//! the body of 61 01, 6162 02
//! let map = FstMap::read(alloc, bytes)?;
//! map.get(b"ab")               // Some: 02
//! map.get(b"abc")              // None
//! map.count(b"ab", b"b")       // 1
//!
//! let mut builder = FstBuilder::new(alloc);
//! builder.add(b"a", &[1])?;
//! builder.add(b"ab", &[2])?;
//! builder.finish(64, &mut out)?;     // those bytes
//! ```
#![tactic(auto)]

mod builder;
mod cursor;
mod error;
mod map;
mod reading;
mod walking;

pub use builder::FstBuilder;
pub use cursor::FstCursor;
pub use error::{AddError, FstError};
pub use map::FstMap;
pub use map_writer::FinishError;
