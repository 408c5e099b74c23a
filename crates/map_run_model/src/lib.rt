//! What the programs of a static map promise: the one that builds a map from lines, and the one that answers lines by a map.
//!
//! A device has a gate at byte 0, which is 1 where there is a map, and the map's body from byte 8 on. `fstbuild` reads lines of a
//! key and a value, whose keys rise, writes the body, and opens the gate only when the body lasts: so each image that a crash may
//! leave has no map or all of it (`BuildContract`). `fstserve` reads a map and answers lines by it; each reply is what the map says
//! (`ServeContract`). No store is known here, and no trie: whoever runs the programs takes them as [`MapPrograms`].
//!
//! `specs/` has one file a noun: `PairLines` and `MapLines` the lines of both, `Files` where a map lies, `LastLines` the texts,
//! `Building` and `Serving` how a run ends. The functions of [`examples`] have no body and need not be called.
//!
//! ```text
//! 61 01, 6162 02           built 2
//! 62 01, 61 01             bad line 2 code 6
//! get 6162, count 61 61    val 02, count 1
//! ```
#![tactic(auto)]

pub mod examples;
mod programs;

pub use programs::MapPrograms;
