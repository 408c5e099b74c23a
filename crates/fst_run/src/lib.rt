//! The programs of a static map: `fstbuild` writes the map of its lines to a device, and `fstserve` answers lines by the map that is
//! there.
//!
//! [`fst_build`] looks at byte 0 of the device first: where it is 1 a map is there, and nothing is written. Else it reads lines, a
//! key and a value in each, the keys rising; writes the body from byte 8 on and syncs it; and only then writes byte 0 as 1. So a
//! crash leaves no map or all of it. [`fst_serve`] reads the body, judges it whole, and answers `get`, `seek`, `range`, `count` and
//! `quit`; it writes nothing. What both promise is in `map_run_model` (`BuildContract`, `ServeContract`); [`FstPrograms`] is both
//! in one type.
//!
//! Never build over a device on which a store may be: of it byte 0 alone is looked at, and a store may have that byte closed.
//!
//! ```text
//! fst_build(alloc, &mut out)     // 61 01, 6162 02: built 2, status 0
//! fst_serve(alloc, &mut out)     // get 6162: val 02
//! ```
#![tactic(auto)]

mod answers;
mod body;
mod build;
mod last_lines;
mod laws;
mod limits;
mod map_line;
mod map_lines;
mod pair_line;
mod pair_lines;
mod programs;
mod ranges;
mod serve;

pub use build::fst_build;
pub use laws::built_maps_are_served;
pub use programs::FstPrograms;
pub use serve::fst_serve;
