//! How many leaves stand before the nodes of one level and before what they lead to, kept for whoever counts down a trie.
//!
//! A count of all leaves before a node goes down to the last level, a search on each. For the nodes of one level the sum over
//! this level and those behind it is kept, so that a count goes down to that level alone. The sums grow from node to node,
//! below which few leaves stand: so they stand in bits, of which each node has a set one, and each leaf a clear one. Where
//! many leaves stand below one node they are those of a deeper level, so that a set bit is never far from the one before.
ghost use Rattle.std.specs.Prelude.{◌≡◌, ◌≤◌, ◌<◌, ◌+◌, ◌-◌, ◌^◌, ℕ, true, length, IfOk, IfSome};
ghost use Rattle.bit_words.specs.Counts.{is_set_at, rank_of};
ghost use Rattle.filter_model.specs.Trie.{height as height_of, nodes};
ghost use Rattle.filter_trie.specs.LevelStarts.{AreSums, slots_down};
ghost use Rattle.filter_trie.specs.Places.{trie};

use super::trie::Trie;
use bit_select::Selected;
use bit_words::BitsBuilder;
use std::alloc::{AllocError, Allocator};

// How many places the sparse half has at least for each bit that the sums take.
const PLACES_PER_BIT: u64 = 4;

// The most leaves below a node of the level. So a set bit stands within 257 places of the one before, as the first labels of
// sparse nodes do, and to find one few words are looked at, whoever has made the image.
const MOST_BELOW: u64 = 256;

// How many levels are tried: each stands more than twice as deep as the one before, so that no level is left in the end.
const TRIES: u16 = 11;

/// The sums of a level: of node `first + i` the sum is `base` more than the clear bits before set bit `i`.
#[derive(Drop)]
pub(crate) struct LevelSums<A: Allocator> {
    pub(crate) level: u16,
    pub(crate) first: u64,
    pub(crate) base: u64,
    pub(crate) places: Selected<A>,
}

// A level of this number: its first node, and the one behind the first that is not of it, as that has a sum too; and how many
// bits the sums take.
#[derive(Clone, Copy)]
struct SummedLevel {
    number: u16,
    first: u64,
    end: u64,
    room: usize,
}

impl<A: Allocator> Trie<A> {
    /// Keeps the sums of one level: of the first sparse one at which they take a bit for four places of the sparse half or
    /// less. Where a node of it has more than 256 leaves below, a level more than twice as deep is tried, and so on; there may
    /// be none. At most eleven levels are tried, and for each of them a node is looked at twice at most: 22 times in all, and
    /// the first node of each level once more a try, and once at the end. One block of memory is taken for each level that is
    /// tried, and one in the end. The trie stands for the same list, and what is counted is the same; without the sums it is
    /// counted level by level. That any are kept is said here and shown by tests, by no clause.
    pub fn keep_sums(&mut self, alloc: A) -> Result<(), AllocError>
    where
        A: Clone,
        ensures { self.new ≡ self.old }
    {
        let sums = self.first_sums(alloc)?;
        self.sums = sums;
        Ok(())
    }

    /// How many leaves stand before a node of a level, before the first node below its first branch or a later one, and so on
    /// to the last level: what `before_node` says level by level. `None` where it is not kept for this level. Its clause is met
    /// by `None` too.
    pub fn kept_sum(&self, level: usize, node: u64) -> Option<u64>
        ensures { IfSome result (λ sum. sum ≡ slots_down (trie self.now) (height_of self.now.leaves - level) node) }
    {
        match &self.sums {
            None => None,
            Some(sums) => {
                if level != usize::from(sums.level) || node < sums.first {
                    return None;
                }
                let number = node - sums.first;
                let place = sums.places.select(number as usize)?;
                Some(place as u64 - number + sums.base)
            }
        }
    }

    /// What `kept_sum` says, counted, of any level and node.
    pub(crate) fn count_down(&self, level: u16, node: u64) -> u64
        requires level { level ≤ height_of self.now.leaves }
        requires node { node ≤ length (nodes self.now.leaves) }
        ensures sum { result ≡ slots_down (trie self.now) (height_of self.now.leaves - level) node }
        ensures few { result < 2 ^ 62 }
    {
        let mut at = node;
        let mut sum: u64 = 0;
        for _ in level..self.height {
            let (slots, below) = self.before_node(at);
            sum += slots;
            at = below;
        }
        sum
    }

    // The sums that are kept, if any are.
    fn first_sums(&self, alloc: A) -> Result<Option<LevelSums<A>>, AllocError>
    where
        A: Clone,
        ensures { IfOk result (λ sums. IfSome sums (λ s. AreSums self.now s.level s.first s.base s.places)) }
    {
        let mut from = self.cutoff;
        for _ in 0..TRIES {
            let Some(level) = self.summed_level(from) else {
                return Ok(None);
            };
            if let Some(sums) = self.sums_of(alloc.clone()?, level)? {
                return Ok(Some(sums));
            }
            from = level.number.saturating_mul(2).saturating_add(1);
        }
        Ok(None)
    }

    // The first level from this one on whose sums take few bits.
    fn summed_level(&self, from: u16) -> Option<SummedLevel>
        ensures number { IfSome result (λ l. l.number ≤ height_of self.now.leaves) }
        ensures first { IfSome result (λ l. l.first ≤ length (nodes self.now.leaves)) }
        ensures end { IfSome result (λ l. l.end ≤ length (nodes self.now.leaves) + 1) }
        ensures room { IfSome result (λ l. l.room < 2 ^ 62) }
    {
        let most = self.sparse.place_count() / PLACES_PER_BIT;
        let leaves = u64::from(self.leaves());
        let mut node: u64 = 0;
        for level in 0..self.height {
            let (slots, next) = self.before_node(node);
            let nodes = next.saturating_sub(node);
            let bits = nodes.saturating_add(leaves.saturating_sub(slots));
            // A kept place of four bytes for each 64 nodes is half a bit for each.
            let taken = bits.saturating_add(nodes / 2);
            if level >= from && taken < most {
                return Some(SummedLevel {
                    number: level,
                    first: node,
                    end: next.saturating_add(1),
                    room: bits as usize + 1,
                });
            }
            node = next;
        }
        None
    }

    // How many leaves stand below a node of this level up to a later one, on the level and those behind it. Goes down from both
    // at once, and only to where they meet (`keep_sums` says what all these calls cost together). `None` where one would be
    // before the other, which is never so.
    fn leaves_between(&self, level: u16, node: u64, later: u64) -> Option<u64>
        requires level { level ≤ height_of self.now.leaves }
        requires node { node ≤ length (nodes self.now.leaves) }
        requires later { later ≤ length (nodes self.now.leaves) }
        ensures { IfSome result (λ gap. slots_down (trie self.now) (height_of self.now.leaves - level) later ≡ slots_down (trie self.now) (height_of self.now.leaves - level) node + gap) }
    {
        let mut low = node;
        let mut high = later;
        let mut gap: u64 = 0;
        for _ in level..self.height {
            if low == high {
                return Some(gap);
            }
            let (passed, low_below) = self.before_node(low);
            let (slots, high_below) = self.before_node(high);
            if slots < passed {
                return None;
            }
            gap += slots - passed;
            low = low_below;
            high = high_below;
        }
        Some(gap)
    }

    // The sums of a level, if they are to be kept. They have the room that was reckoned; without that there would be none.
    fn sums_of(&self, alloc: A, level: SummedLevel) -> Result<Option<LevelSums<A>>, AllocError>
    where
        A: Clone,
        requires number { level.number ≤ height_of self.now.leaves }
        requires first { level.first ≤ length (nodes self.now.leaves) }
        requires end { level.end ≤ length (nodes self.now.leaves) + 1 }
        requires room { level.room < 2 ^ 62 }
        ensures { IfOk result (λ sums. IfSome sums (λ s. AreSums self.now s.level s.first s.base s.places)) }
    {
        let mut bits = BitsBuilder::with_room(alloc.clone()?, level.room)?;
        let mut before = level.first;
        for node in level.first..level.end {
            let Some(gap) = self.leaves_between(level.number, before, node) else {
                return Ok(None);
            };
            if gap > MOST_BELOW || gap >= (bits.limit() - bits.len()) as u64 {
                return Ok(None);
            }
            push_gap(&mut bits, gap);
            bits.push(true);
            before = node;
        }
        let places = Selected::new(alloc, bits.finish())?;
        Ok(Some(LevelSums {
            level: level.number,
            first: level.first,
            base: self.count_down(level.number, level.first),
            places,
        }))
    }
}

// Adds so many clear bits.
fn push_gap<A: Allocator>(bits: &mut BitsBuilder<A>, count: u64)
    requires { length bits.old.bits + count ≤ bits.old.limit }
    ensures length { length bits.new.bits ≡ length bits.old.bits + count }
    ensures limit { bits.new.limit ≡ bits.old.limit }
    ensures ones { rank_of bits.new.bits (length bits.new.bits) ≡ rank_of bits.old.bits (length bits.old.bits) }
    ensures places { (p : ℕ) → is_set_at bits.new.bits p ≡ true → (is_set_at bits.old.bits p ≡ true) × (rank_of bits.new.bits p ≡ rank_of bits.old.bits p) }
{
    for _ in 0..count {
        bits.push(false);
    }
}
