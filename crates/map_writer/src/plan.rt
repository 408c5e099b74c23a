//! What is known before a byte is written.
ghost use Rattle.std.specs.Prelude.{◌≡◌, ◌≤◌, ◌^◌, List, length, IfOk};
ghost use Rattle.filter_model.specs.Image.{image};
ghost use Rattle.filter_model.specs.Keys.{IsKeyList};
ghost use Rattle.map_file_model.specs.Maps.{Bytes};
ghost use Rattle.whole_keys.specs.Whole.{whole_leaves};

use key_base::KeyList;
use key_spans::whole_spans;
use std::alloc::{AllocError, Global};
use trie_build::{dense_nodes, sparse_labels};
use trie_levels::{Levels, Span, cutoff, plan_spans};

/// How many bytes stand before the sections of an image.
const IMAGE_HEAD_BYTES: u64 = 40;

/// How many bytes the two rows of a dense node have: a bit for each byte in each.
const ROW_BYTES: u64 = 64;

/// The trie to be: the spans of the keys, the sizes of its levels and how many of them are dense.
#[derive(Drop)]
pub(crate) struct Plan {
    pub spans: Vec<Span>,
    pub levels: Levels,
    pub cutoff: u16,
}

impl Plan {
    ghost use Rattle.map_writer.specs.Plans.{IsPlanOf, bytes_by, whole_cutoff};

    /// The plan of the trie of whole keys, by the rule's cutoff.
    pub(crate) fn of(alloc: Global, keys: &KeyList, ratio: u16) -> Result<Plan, AllocError>
        requires { IsKeyList keys.now }
        ensures plan { IfOk result (IsPlanOf keys.now) }
        ensures cutoff { IfOk result (λ plan. plan.cutoff ≡ whole_cutoff ratio keys.now) }
    {
        let spans = whole_spans(alloc, keys)?;
        let levels = plan_spans(alloc, spans.as_slice())?;
        let cutoff = cutoff(&levels, ratio);
        Ok(Plan {
            spans,
            levels,
            cutoff,
        })
    }

    /// How many bytes the image of the trie will have.
    pub(crate) fn image_bytes(&self) -> u64
        requires { (keys : List Bytes) × IsPlanOf keys self.now }
        ensures exact { (keys : List Bytes) → IsPlanOf keys self.now → result ≡ length (image 0 0 self.now.cutoff (whole_leaves keys)) }
        ensures few { result ≤ 2 ^ 50 }
    {
        let (dense, labels) = self.section_sizes();
        IMAGE_HEAD_BYTES + ROW_BYTES * dense + dense.div_ceil(8) + labels + 2 * labels.div_ceil(8)
    }

    // How many dense nodes and sparse labels the trie will have.
    fn section_sizes(&self) -> (u64, u64)
        requires { (keys : List Bytes) × IsPlanOf keys self.now }
        ensures image { (keys : List Bytes) → IsPlanOf keys self.now → length (image 0 0 self.now.cutoff (whole_leaves keys)) ≡ bytes_by result.0 result.1 }
        ensures few_dense { result.0 ≤ 2 ^ 42 }
        ensures few_labels { result.1 ≤ 2 ^ 42 }
    {
        let dense = dense_nodes(&self.levels, self.cutoff);
        let labels = sparse_labels(&self.levels, self.cutoff);
        (dense as u64, labels as u64)
    }
}
