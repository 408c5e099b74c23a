//! A cursor over the leaves of a trie in key order.
ghost use Rattle.std.specs.Prelude.{◌≡◌, ◌+◌, ◌-◌, ◌++◌, ◌<◌, ◌≤◌, ◌↔◌, IsTrue, IfOk, IfSome, IsSome, OnErr, OnOk, cond, drop, length, slice_get};
ghost use Rattle.std.specs.Option.{option_map};
ghost use Rattle.filter_model.specs.Answers.{begins, first};
ghost use Rattle.key_base.specs.Limits.{max_key_bytes};
ghost use Rattle.suffix_bits.specs.Slots.{leaf_suffix};

use super::answers::seek;
use super::cursor_path::{go_first, go_last, turn_before, turn_behind};
use super::following::go_to;
use super::least::push_least;
use super::parts::{Marks, Way};
use super::stubs::{new_way, way_ends, write_stub};
use filter_trie::Trie;
use smallvec::SmallVec;
use std::alloc::{AllocError, Allocator};
use std::marker::Model;

/// A leaf of a trie, from which one may go on to the next one and to the one before, in key order.
///
/// Keeps the way from the root to its leaf, in memory taken when it starts, of any allocator, and takes none after that.
#[derive(Drop)]
pub struct FilterCursor<'a, A: Allocator, B: Allocator> {
    trie: &'a Trie<A>,
    way: Way<'a, B>,
    marks: Marks<'a, B>,
    leaf: u32,
    slot: u64,
}

impl<'a, A: Allocator, B: Allocator> Model for FilterCursor<'a, A, B> {
    ghost use Rattle.std.specs.Prelude.{◌≤◌};
    ghost use Rattle.filter_iter.specs.Cursors.{IsStanding, Standing};

    ghost Value = { Standing };

    ghost view = { λ c. record { image = c.trie.now; leaf = c.leaf } };

    ghost invariant = { λ c. IsStanding c.trie.now c.leaf c.slot c.way c.marks };
}

impl<'a, A: Allocator, B: Allocator> FilterCursor<'a, A, B> {
    ghost use Rattle.filter_iter.specs.Cursors.{IsSlotOf, moved};

    /// At the first leaf that is not past `lo`, `None` where all are. Takes memory of `alloc` once, and none where the trie is low.
    ///
    /// Goes down by `lo` once and counts as [`seek`](super::seek) does. Where `lo` leads to no leaf, or to one that is past it,
    /// it then goes on to the next leaf, as `next` does. It fails only where there is a leaf: without memory it asks `seek`.
    pub fn start(
        alloc: &'a B,
        trie: &'a Trie<A>,
        lo: &[u8],
    ) -> Result<Option<FilterCursor<'a, A, B>>, AllocError>
        ensures leaf { IfOk result (λ found. option_map (λ c. c.leaf) found ≡ first trie.now.real_bits trie.now.leaves lo.now) }
        ensures trie { IfOk result (λ found. IfSome found (λ c. c.image ≡ trie.now)) }
        ensures failed { OnErr result (IsSome (first trie.now.real_bits trie.now.leaves lo.now)) }
    {
        let Ok(mut way) = new_way(alloc, usize::from(trie.height())) else {
            return match seek(trie, lo) {
                None => Ok(None),
                Some(_) => Err(AllocError),
            };
        };
        let mut marks = SmallVec::new(alloc);
        let Some((leaf, slot)) = go_to(trie, lo, &mut way, &mut marks) else {
            return Ok(None);
        };
        Ok(Some(FilterCursor {
            trie,
            way,
            marks,
            leaf,
            slot,
        }))
    }

    /// Goes on to the next leaf. False at the last one, where it stays.
    pub fn next(&mut self) -> bool
        ensures moved { self.new ≡ moved self.old (self.old.leaf + cond result 1 0) }
        ensures end { IsTrue result ↔ (self.old.leaf + 1 < length self.old.image.leaves) }
    {
        let trie = self.trie;
        if self.leaf + 1 == trie.leaves() {
            return false;
        }
        let lead = turn_behind(trie, &mut self.way, &mut self.marks);
        self.slot = go_first(trie, lead, &mut self.way, &mut self.marks);
        self.leaf += 1;
        true
    }

    /// Goes back to the leaf before. False at the first one, where it stays.
    pub fn prev(&mut self) -> bool
        ensures moved { self.new ≡ moved self.old (self.old.leaf - cond result 1 0) }
        ensures end { IsTrue result ↔ (0 < self.old.leaf) }
    {
        let trie = self.trie;
        if self.leaf == 0 {
            return false;
        }
        self.marks.clear();
        let lead = turn_before(trie, &mut self.way);
        self.slot = go_last(trie, lead, &mut self.way);
        self.leaf -= 1;
        true
    }

    /// The leaf's number in key order, from 0.
    pub fn leaf(&self) -> u32
        ensures leaf { result ≡ self.now.leaf }
        ensures within { self.now.leaf < length self.now.image.leaves }
    {
        self.leaf
    }

    /// The leaf's slot, which goes by levels.
    pub fn slot(&self) -> u64
        ensures { IsSlotOf self.now.image.leaves self.now.leaf result }
    {
        self.slot
    }

    /// Writes the leaf's stub at the start of `out`, and gives how many bytes it has.
    pub fn stub(&self, out: &mut [u8]) -> usize
        requires room { max_key_bytes ≤ length out.old }
        ensures stub { IfSome (slice_get self.now.image.leaves self.now.leaf) (λ l. out.new ≡ l.stub ++ drop result out.old) }
        ensures count { IfSome (slice_get self.now.image.leaves self.now.leaf) (λ l. result ≡ length l.stub) }
    {
        write_stub(self.way.as_slice(), out)
    }

    /// Whether the leaf ends: its key is its stub, from which other keys go on.
    pub fn ends(&self) -> bool
        ensures { IfSome (slice_get self.now.image.leaves self.now.leaf) (λ l. result ≡ l.ends) }
    {
        way_ends(self.way.as_slice())
    }

    /// The leaf's hash bits and its real bits.
    pub fn suffix(&self) -> (u32, u32)
        ensures { IfSome (slice_get self.now.image.leaves self.now.leaf) (λ l. result ≡ leaf_suffix l) }
    {
        self.trie.suffix(self.slot)
    }

    /// Appends the least string that fits the leaf: what [`least_of`](super::least_of) says of its number, with no count, since
    /// the way is there. Without memory `out` stays as it was.
    pub fn least<C: Allocator>(&self, out: &mut Vec<u8, C>) -> Result<(), AllocError>
        ensures added { OnOk result (IfSome (slice_get self.now.image.leaves self.now.leaf) (λ l. out.new.items ≡ out.old.items ++ begins self.now.image.real_bits l)) }
        ensures unchanged { OnErr result (out.new.items ≡ out.old.items) }
    {
        push_least(self.trie, self.leaf, self.slot, self.way.as_slice(), out)
    }
}
