//! The interface of a range filter, and the plain types that it speaks of.
//!
//! A filter stands for a leaf list and its two widths; what it answers is a function of these alone, by the
//! definitions of `filter_model`. The store knows filters by [`RangeFilter`] only, so code that is proved over the
//! trait is proved for every filter. An answer `true` may be wrong, an answer `false` never is.
//!
//! Each call costs what its filter says. Do not use a filter for keys that come and go, since it is built once of all
//! of them, nor where `true` must be right.
//!
//! ```text
//! let filter = F::build(alloc, &keys, settings)?;      // keys strictly rising
//! if filter.may_hold(key) { .. }                       // else the key is not there
//! filter.encode(&mut bytes)?;
//! let again = F::decode(alloc, bytes.as_slice())?;     // stands for the same leaves
//! ```
#![tactic(auto)]

mod errors;
mod filter;
mod leaves;
mod settings;

pub use errors::{DecodeError, FilterFault};
pub use filter::RangeFilter;
pub use leaves::{Leaf, LeafList};
pub use settings::{BadSettings, Field, Settings};
