//! The leaves that are still to come while a trie is built.
ghost use Rattle.std.specs.Prelude.{◌≡◌, ◌+◌, ◌<◌, ◌≤◌, length, IfOk};
ghost use Rattle.filter_model.specs.Keys.{IsKeyList};
ghost use Rattle.filter_model.specs.Trie.{height};
ghost use Rattle.filter_model.specs.Leaves.{base_leaves};
ghost use Rattle.filter_trie.specs.Building.{spans_longer};
ghost use Rattle.filter_trie.specs.Pending.{ArePending, IsNew, suffixes_passed};
ghost use Rattle.key_base.specs.Limits.{max_hash_bits, max_real_bits};

use key_base::KeyList;
use std::alloc::{AllocError, Global};
use suffix_bits::{Suffixes, SuffixesBuilder, hash_bits_of, real_bits_of};
use trie_levels::Span;

/// The spans of the leaves whose slot has not come yet, and the suffixes of the others.
#[derive(Drop)]
pub(crate) struct Pending {
    spans: Vec<Span>,
    suffixes: SuffixesBuilder<Global>,
    hash_bits: u8,
    real_bits: u8,
}

impl Pending {
    /// All leaves, and room for their suffixes, in one block of memory.
    pub(crate) fn new(
        alloc: Global,
        spans: Vec<Span>,
        hash_bits: u8,
        real_bits: u8,
    ) -> Result<Pending, AllocError>
        requires hash_width { hash_bits ≤ max_hash_bits }
        requires real_width { real_bits ≤ max_real_bits }
        ensures { IfOk result (λ p. IsNew hash_bits real_bits spans.items p) }
    {
        let suffixes = SuffixesBuilder::with_room(alloc, hash_bits, real_bits, spans.len() as u64)?;
        Ok(Pending {
            spans,
            suffixes,
            hash_bits,
            real_bits,
        })
    }

    /// The spans of the leaves that are still to come.
    pub(crate) fn spans(&self) -> &[Span]
        ensures { result.now ≡ self.now.spans.items }
    {
        self.spans.as_slice()
    }

    /// Passes a level: the leaves that are branches of its nodes have their slots now. Takes no memory.
    pub(crate) fn pass(&mut self, keys: &KeyList, level: u16)
        requires keys { IsKeyList keys.now }
        requires below { level < height (base_leaves keys.now) }
        requires pending { ArePending keys.now level self.old }
        ensures pending { ArePending keys.now (level + 1) self.new }
        ensures hash_bits { self.new.hash_bits ≡ self.old.hash_bits }
        ensures real_bits { self.new.real_bits ≡ self.old.real_bits }
    {
        let last = level + 1;
        add_suffixes(
            &mut self.suffixes,
            self.spans.as_slice(),
            keys,
            level,
            self.hash_bits,
            self.real_bits,
        );
        self.spans.retain(|span| span.len > last);
    }

    /// The suffixes of all leaves by slot, once all levels are passed.
    pub(crate) fn finish(self) -> Suffixes<Global>
        ensures { result ≡ self.suffixes.array }
    {
        self.suffixes.finish()
    }
}

// Adds the suffixes of the leaves that are branches of a level's nodes.
fn add_suffixes(
    suffixes: &mut SuffixesBuilder<Global>,
    spans: &[Span],
    keys: &KeyList,
    level: u16,
    hash_bits: u8,
    real_bits: u8,
)
    requires keys { IsKeyList keys.now }
    requires below { level < height (base_leaves keys.now) }
    requires spans { spans.now ≡ spans_longer keys.now level }
    requires hash_width { hash_bits ≤ max_hash_bits }
    requires real_width { real_bits ≤ max_real_bits }
    requires suffixes { suffixes.old ≡ suffixes_passed keys.now hash_bits real_bits level }
    ensures { suffixes.new ≡ suffixes_passed keys.now hash_bits real_bits (level + 1) }
{
    for i in 0..spans.len() {
        let span = spans[i];
        if span.len == level + 1 {
            let key = keys.get(span.leaf as usize);
            let hash = hash_bits_of(key, hash_bits);
            let real = real_bits_of(key, span.len as usize, real_bits);
            suffixes.push(hash, real);
        }
    }
}
