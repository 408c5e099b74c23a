//! How many bytes the image of a trie has, and how many bits of memory the trie takes.
ghost use Rattle.std.specs.Prelude.{◌≡◌, ◌≤◌, ◌<◌, ◌+◌, ◌*◌, ◌^◌, length};
ghost use Rattle.std.specs.Int.{div_ceil};
ghost use Rattle.filter_api.specs.Spellings.{MayBeTrie};
ghost use Rattle.filter_model.specs.Image.{image};
ghost use Rattle.filter_model.specs.Nodes.{all};
ghost use Rattle.filter_trie.specs.Parts.{lower, upper};

use super::trie::Trie;
use bit_words::Bits;
use std::alloc::Allocator;

// How many bytes stand before the sections of an image.
const HEADER_BYTES: u64 = 40;

// How many bytes the two rows of a dense node have: a bit for each byte in each.
const ROW_BYTES: u64 = 64;

// How many bits a count or a place takes that is kept beside bits.
const KEPT_BITS: u64 = 32;

// A count is kept before so many bits, and one after the last (`bit_rank`).
const BLOCK: u64 = 128;

// A place is kept for so many set bits (`bit_select`).
const STEP: u64 = 64;

// How many dense nodes a trie has, how many branches of sparse ones, and how many bits of suffixes.
#[derive(Clone, Copy)]
struct SectionCounts {
    dense: u64,
    labels: u64,
    suffixes: u64,
}

impl<A: Allocator> Trie<A> {
    /// How many bytes the image of the trie has. Asks for its counts alone, and takes no memory.
    pub fn image_bytes(&self) -> u64
        ensures { result ≡ length (image self.now.hash_bits self.now.real_bits self.now.cutoff self.now.leaves) }
    {
        let counts = self.section_counts();
        HEADER_BYTES
            + ROW_BYTES * counts.dense
            + counts.dense.div_ceil(8)
            + counts.labels
            + 2 * counts.labels.div_ceil(8)
            + counts.suffixes.div_ceil(8)
    }

    /// The bits of memory that the trie takes: its sections in whole words, a count of four bytes before each 128 bits of
    /// those that are counted and after the last, a place of four bytes for each 64 nodes of the sparse half, and the sums
    /// that it keeps (`keep_sums`) with such places. What an allocator adds to a block, or takes for room, is left out.
    ///
    /// The clause says that the image is part of it, but for the 40 bytes of its head, which any greater number meets; the
    /// rest is said here and shown by tests. Looks at each word of the sums.
    pub fn memory_bits(&self) -> u64
        ensures { 8 * length (image self.now.hash_bits self.now.real_bits self.now.cutoff self.now.leaves) ≤ result + 8 * 40 }
    {
        let sums = match &self.sums {
            None => 0,
            Some(sums) => summed_bits(sums.places.bits()),
        };
        self.section_words()
            .saturating_add(self.kept_bits())
            .saturating_add(sums)
    }

    // The counts of the sections. The leaves are a leaf list, as the clause of the height says, so that they are few.
    fn section_counts(&self) -> SectionCounts
        ensures stands { MayBeTrie self.now.hash_bits self.now.real_bits self.now.cutoff self.now.leaves }
        ensures dense { result.dense ≡ length (upper self.now.cutoff self.now.leaves) }
        ensures labels { result.labels ≡ length (all (lower self.now.cutoff self.now.leaves)) }
        ensures suffixes { result.suffixes ≡ length self.now.leaves * (self.now.hash_bits + self.now.real_bits) }
        ensures few_dense { result.dense ≤ 2 ^ 42 }
        ensures few_labels { result.labels ≤ 2 ^ 42 }
        ensures few_suffixes { result.suffixes ≤ 2 ^ 38 }
    {
        let _ = self.height();
        SectionCounts {
            dense: self.dense().node_count(),
            labels: self.sparse().place_count(),
            suffixes: self.suffixes().bits().len() as u64,
        }
    }

    // The bits of the words that hold the sections, and of the labels. A row of a dense node is four words.
    fn section_words(&self) -> u64
        ensures { 8 * length (image self.now.hash_bits self.now.real_bits self.now.cutoff self.now.leaves) ≤ result + 8 * 40 }
    {
        let counts = self.section_counts();
        512 * counts.dense
            + word_bits(counts.dense)
            + 8 * counts.labels
            + 2 * word_bits(counts.labels)
            + word_bits(counts.suffixes)
    }

    // The bits of the counts beside the dense sections and the sparse children, and of the places of the sparse nodes.
    fn kept_bits(&self) -> u64 {
        let dense = self.dense();
        let sparse = self.sparse();
        counts_for(dense.label_bits())
            .saturating_add(counts_for(dense.child_bits()))
            .saturating_add(counts_for(dense.end_bits()))
            .saturating_add(counts_for(sparse.child_bits()))
            .saturating_add(KEPT_BITS.saturating_mul(sparse.node_count().div_ceil(STEP)))
    }
}

// The bits of the words that hold so many.
fn word_bits(bits: u64) -> u64
    requires { bits < 2 ^ 60 }
    ensures held { 8 * div_ceil bits 8 ≤ result }
    ensures few { result ≤ bits + 63 }
{
    64 * bits.div_ceil(64)
}

// The bits of the counts before each block of these and after the last.
fn counts_for<A: Allocator>(bits: &Bits<A>) -> u64 {
    KEPT_BITS.saturating_mul((bits.len() as u64 / BLOCK).saturating_add(1))
}

// The bits of the words that hold these, and of the places of each 64th set one.
fn summed_bits<A: Allocator>(bits: &Bits<A>) -> u64 {
    let mut ones: u64 = 0;
    for word in bits.words() {
        ones = ones.saturating_add(u64::from(word.count_ones()));
    }
    (bits.words().len() as u64)
        .saturating_mul(64)
        .saturating_add(KEPT_BITS.saturating_mul(ones.div_ceil(STEP)))
}
