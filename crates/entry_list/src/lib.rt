//! An entry of a store as a value, and lists of entries as plain programs keep them.
//!
//! An [`Entry`] is a key with its value, or a tombstone. The log hands entries out, the memory table keeps them, and the
//! plain programs beside the definitions are made of them: what passes from one to another is moved, and copied only by
//! [`Entry::copy`]. An entry owns its bytes, two pieces of memory, which it never grows.
//!
//! A [`Change`] is what a log keeps: it sets an entry, or deletes the keys of a [`DeletedRange`].
//!
//! A slice of entries is seen as the list of entries that the definitions speak of. Beside it stand a few loops over such
//! lists, as slow as they are plain: each look-up goes through the whole list. A store looks its entries up in `mem_table`
//! and in its tables, and not here.
//!
//! ```text
//! let mut list = Vec::new(alloc);
//! push_copy(&Entry::new(alloc, b"a", Some(b"1"))?, &mut list)?;
//! push_copy(&Entry::new(alloc, b"a", None)?, &mut list)?;
//! lookup(&list, b"a") == Some(Some(b"1"))
//! newest_of(&list, b"a") == Some(None)
//! ```
#![tactic(auto)]

mod body;
mod change;
mod entry;
mod kind;
mod list;
mod range;

pub use body::body_length;
pub use change::Change;
pub use entry::Entry;
pub use kind::ChangeKind;
pub use list::{copied, lookup, newest_of, push_copy};
pub use range::DeletedRange;
