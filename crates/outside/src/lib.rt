//! What a program stands in: a disk, an input to take bytes from, and an output to say bytes to.
//!
//! An [`Outside`] is a [`Disk`](disk_trait::Disk) with both streams beside it, so one value is handed down and the
//! layers that know a disk alone take it as it is. On the disk's clock it has how many bytes had been said by each
//! moment: a promise such as "what was acknowledged outlasts a crash" is a fact of these bytes and of each image that
//! a crash at that moment may leave (`During`).
//!
//! Each call takes or says one piece, of any size; [`say_all`] says a whole text. Not for random access, and not for
//! more than one input or output.
//!
//! ```text
//! fn greet<W: Outside>(out: &mut W) -> Result<(), SayFault> {
//!     say_all(out, b"hello\n")
//! }
//! ```
#![tactic(auto)]

mod laws;
mod mark;
mod mem_calls;
mod mem_outside;
mod saying;
mod stream;

pub use laws::outsides_follow;
pub use mem_outside::MemOutside;
pub use saying::say_all;
pub use stream::{Outside, SayFault, TakeFault};
