//! How many bits a trie takes.
use filter_trie::Trie;
use std::alloc::Global;

/// Bits of the sections, as an image has them, and of what is in memory, where words are whole and counts and places stand
/// beside them.
#[derive(Clone, Copy)]
pub struct Sizes {
    pub sections: u64,
    pub memory: u64,
}

impl Sizes {
    /// The sections and the memory of a trie.
    pub fn of(trie: &Trie<Global>) -> Sizes {
        let dense = trie.dense().node_count();
        let labels = trie.sparse().place_count();
        let suffixes = trie.suffixes().bits().len() as u64;
        Sizes {
            sections: dense
                .saturating_mul(513)
                .saturating_add(labels.saturating_mul(10))
                .saturating_add(suffixes),
            memory: trie.memory_bits(),
        }
    }
}
