//! The parts of a static map's body, and the rules on them: all but those on its image.
//!
//! A body's numbers come from bytes that anybody may have written. [`front_fault`] looks at the head and at whether there are
//! as many bytes as its numbers ask for, however great they are; where it finds nothing, [`parts_of`] says where the parts
//! lie. [`rest_fault`] looks at each offset once and at each byte once, for the sum. Then [`value_in`] cuts the value of a
//! slot out of the bytes. No call takes memory. The image in between is a trie's, and is judged by who reads the trie
//! (`filter_codec::decode_whole`).
//!
//! ```text
//! front_fault(bytes)            // None: rules 1 to 4 are kept
//! let parts = parts_of(bytes);
//! image_in(bytes, parts)        // bytes 24 to 69
//! rest_fault(bytes, parts)      // None: rules 7 to 9 are kept
//! value_in(bytes, parts, 1)     // the value in slot 1
//! ```
#![tactic(auto)]

mod fault;
mod front;
mod parts;
mod rest;
mod value;

pub use fault::MapFault;
pub use front::front_fault;
pub use parts::{Parts, image_in, parts_of};
pub use rest::rest_fault;
pub use value::value_in;
