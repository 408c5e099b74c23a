//! The levels of a trie, without the trie: how many nodes and labels each has, and how many levels are dense.
//!
//! [`plan`] counts them from the leaves alone. Each node has one branch, and one more for each two neighbours whose
//! paths part in it; each branch leads to a node of the next level or is a leaf. So it is enough to know how many bytes
//! each leaf shares with the next one and how long its path is ([`levels_follow`] is that law). END, behind a stub that
//! others go on from, is a letter of its path and a label. Level 0 is the root.
//!
//! [`cutoff`] reads a plan: a dense node takes 513 bits and a sparse label 10, and the levels below the cutoff are
//! dense, as many as can be while their bits, times a ratio, are at most those of the other levels (SuRF: Zhang et al.,
//! SIGMOD 2018).
//!
//! A plan costs one comparison for each two neighbours, which reads what they share, and memory for four numbers a
//! level. It asks that the stubs rise and end rightly, as those of every leaf list do
//! ([`valid_lists_have_tries`]); of another list the counts would be wrong. Of a key list no leaf need be made:
//! [`spans_of`] takes 8 bytes a key, by which [`plan_spans`] counts, and a builder goes over the same spans level by level
//! ([`gathered_are_nodes`]).
//!
//! ```text
//! keys            far   fast   s   top   toy
//! nodes           1, 2, 2           labels  3, 2, 4
//! cutoff          0 with ratio 64, 3 with ratio 0
//!
//! let levels = plan(alloc, &leaves)?;
//! let dense = cutoff(&levels, 64);
//!
//! let spans = spans_of(alloc, &keys, &truncate(alloc, &keys)?)?;
//! let levels = plan_spans(alloc, &spans)?;
//! ```
#![tactic(auto)]

pub mod examples;
mod laws;
mod levels;
mod planning;
mod rule;
mod span_planning;
mod spans;

pub use laws::{
    gathered_are_nodes, levels_are_last_below, levels_follow, slots_go_by_length,
    valid_lists_have_tries,
};
pub use levels::Levels;
pub use planning::plan;
pub use rule::cutoff;
pub use span_planning::plan_spans;
pub use spans::{Span, spans_of};
