//! Ranges over a trie: may any key lie between two bounds, which leaf is the first that is not past a bound, how many leaves
//! may stand for keys between two, what is the least string of a leaf; and a cursor that goes from leaf to leaf.
//!
//! Where a bound or a leaf stands is told by counts. A [`Trie`](filter_trie::Trie) has its leaves level by level and not in
//! key order, so what comes before a bound is counted on each level: the leaves that stand before the bound's *border*
//! there. The border goes down by the bound's letters as a walk does, and below the point where the bound leaves the trie by
//! one count a level, until it comes to the level of which the trie keeps what all those below add. What stands before the
//! levels themselves is counted too, but is the same for every bound: the trie keeps it as one number, which is taken off at
//! the end. No path is kept and no memory is taken, and the cost of `seek` and `tally` goes as the height, whatever the
//! number of leaves.
//!
//! `tally` follows both bounds together and stops where both have left the trie at one node, as all further levels count the
//! same for both.
//!
//! A [`FilterCursor`] alone keeps a path, that to its leaf: the next leaf is mostly a branch of the same node. In the sparse
//! half it knows where that branch stands, and where the next node of a level begins, so that `next` searches for neither.
//! `start` takes memory for the path, of any allocator, and no later call takes any for it. It goes down by its bound once and
//! counts as `seek` does, which is the leaf's number; the leaf is the one that the bound reaches, or the next one behind its
//! path. `least` appends the least string of the leaf where the cursor stands, by its path alone; [`least_of`] finds its leaf
//! by number, by counts at each node of several branches, each of which goes down to the last level or to the one whose sums
//! are kept.
//!
//! The answers are those of the leaf list (`filter_model`): leaves are numbered in key order, and that number is not the
//! slot, which goes by levels.
//!
//! Do not use `seek` or `tally` where the question is whether a range may hold a key: they count on each level, and `range`
//! counts nothing. Nor `least_of` for leaf after leaf: a cursor goes on from where it stands, and says `least`.
//!
//! ```text
//! keys               far   fast   s   top   toy
//! seek(&trie, b"fat")            // Some(2), the leaf s
//! seek(&trie, b"u")              // None
//! range(&trie, b"fat", b"r")     // false
//! range(&trie, b"fat", b"s")     // true
//! tally(&trie, b"fas", b"tor")   // 3: fas, s and top
//! FilterCursor::start(&alloc, &trie, b"fat")?   // at leaf 2, the leaf s
//! ```
#![tactic(auto)]

mod answers;
mod between;
mod borders;
mod branches;
mod cursor;
mod cursor_path;
mod following;
mod laws;
mod leaf_place;
mod least;
mod next_nodes;
mod numbers;
mod parts;
mod reaching;
mod stubs;

pub use answers::{seek, tally};
pub use between::range;
pub use cursor::FilterCursor;
pub use laws::leaves_are_counted_by_levels;
pub use least::least_of;
