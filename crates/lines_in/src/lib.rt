//! What programs that read lines share: an input that is cut into lines, replies and last lines that are said whole, and the exit
//! statuses with what each of them tells.
//!
//! [`read_lines`] takes an input piece by piece and hands its lines to a [`LineReader`], one after the other; only a line that
//! pieces share is copied, into a [`Pending`]. [`say_reply`] says a reply in as many pieces as a buffer takes, and [`say_last`] a
//! text; both answer status 6 where that cannot be done. The definitions are of a run over any device, input and output: which
//! status tells of which fault (`StatusCause`), that nothing was written (`Untouched`), and which lines were taken (`TakenTo`). No
//! store is known here. Nothing takes memory but [`Pending::new`].
//!
//! ```text
//! match say_reply(out, &mut buffer, &Reply::Done, LineEnd::Next) {
//!     LineEnd::Next => {}
//!     end => return end,
//! }
//! ```
#![tactic(auto)]

mod line_end;
mod line_reader;
mod pending;
mod reading;
mod saying;
mod status;

pub use line_end::LineEnd;
pub use line_reader::LineReader;
pub use pending::Pending;
pub use reading::read_lines;
pub use saying::{add_reply, last_line, say_behind, say_last, say_pieces, say_reply};
pub use status::Status;
