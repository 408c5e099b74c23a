//! Extents and gaps: where on a device of so many pages there is room.
//!
//! An extent is a first page and how many pages it has; `Extents` says which stand on a device, and apart, and `Gaps` which
//! gap is the first that holds so many pages. The functions here do nothing: they carry the laws of these definitions, and
//! examples. What a store takes is said by `state_model`; a map of free pages that runs is not here.
//!
//! ```text
//! first_gap 512 ((192, 3) ∷ (200, 5) ∷ []) 6   -- Some 205
//! ```
#![tactic(auto)]

pub mod examples;
mod laws;

pub use laws::{first_gap_is_free, gaps_are_all, no_gap_laws, order_laws};
