//! Numbers in bytes, lowest byte first, with one spelling each; the sum that parts are kept with; and the plain
//! types in which several crates name a part, what is wrong with it and why it is not read.
//!
//! A field is read and written where it lies, at no cost but its bytes. A buffer of fixed room is lengthened by
//! [`lengthen`], so that no byte of it is set before it is wanted. The sum is FNV-1a of 64 bits: it tells a damaged part
//! from a whole one. Do not use it against someone who writes both the part and its sum, nor the fields for numbers whose
//! highest byte stands first.
//!
//! ```text
//! let mut page = [0; 8];
//! put_u32(&mut page, 4, 0x01020304);
//! page == [0, 0, 0, 0, 4, 3, 2, 1]
//! get_u32(&page, 4) == 0x01020304
//! ```
#![tactic(auto)]

mod buffer;
mod fields;
mod laws;
mod part_fault;
mod parts;
mod pushes;
mod sums;

pub use buffer::lengthen;
pub use fields::{get_u16, get_u32, get_u64, put_u16, put_u32, put_u64};
pub use laws::{fields_have_one_spelling, numbers_have_one_spelling};
pub use part_fault::PartFault;
pub use parts::{Damage, Part, Row};
pub use pushes::{push_fields, push_number};
pub use sums::{Summer, fnv1a};
