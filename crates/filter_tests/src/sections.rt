//! The sections that halves lend, against those that an image has, made by plain loops.
use super::plain::{END, Plain};
use louds_dense::Dense;
use louds_sparse::Sparse;
use std::alloc::Global;
use std::process::Abort;

// Bit `i` of words, or `None` behind them.
fn bit_of(words: &[u64], i: usize) -> Option<bool> {
    match words.get(i / 64) {
        Some(word) => Some(word >> (i % 64) & 1 == 1),
        None => None,
    }
}

// How many words hold so many bits.
fn has_words_for(words: &[u64], bits: usize) -> bool {
    words.len() == bits.div_ceil(64)
}

// The bits of a node's bytes and of its END.
fn check_dense_row(rt: &impl Abort, dense: &Dense<Global>, plain: &Plain, node: usize) {
    assert!(rt; bit_of(dense.prefix(), node) == Some(plain.ends(node)));
    for byte in 0..END {
        let at = node.saturating_mul(256).saturating_add(usize::from(byte));
        let branch = plain.branch(node, byte);
        let is_child = match branch {
            Some(place) => plain.child(place as usize).is_some(),
            None => false,
        };
        assert!(rt; bit_of(dense.labels(), at) == Some(branch.is_some()));
        assert!(rt; bit_of(dense.has_child(), at) == Some(is_child));
    }
}

/// The sections of the first `cut` nodes.
pub(crate) fn check_dense_sections(
    rt: &impl Abort,
    dense: &Dense<Global>,
    plain: &Plain,
    cut: usize,
) {
    let bits = cut.saturating_mul(256);
    assert!(rt; has_words_for(dense.labels(), bits));
    assert!(rt; has_words_for(dense.has_child(), bits));
    assert!(rt; has_words_for(dense.prefix(), cut));
    for node in 0..cut {
        check_dense_row(rt, dense, plain, node);
    }
}

// The sections at the places of a node, of which the half has those from `first` on.
fn check_sparse_row(
    rt: &impl Abort,
    sparse: &Sparse<Global>,
    plain: &Plain,
    first: usize,
    node: usize,
) {
    let (from, to) = plain.range(node);
    for place in from..to {
        let at = place.saturating_sub(first);
        let label = plain.letter(place).min(0xFF) as u8;
        assert!(rt; sparse.labels().get(at) == Some(&label));
        assert!(rt; bit_of(sparse.has_child(), at) == Some(plain.child(place).is_some()));
        assert!(rt; bit_of(sparse.louds(), at) == Some(place == from));
    }
}

/// The sections of the nodes from `cut` on.
pub(crate) fn check_sparse_sections(
    rt: &impl Abort,
    sparse: &Sparse<Global>,
    plain: &Plain,
    cut: usize,
) {
    let first = plain.range(cut).0;
    let places = plain.place_count().saturating_sub(first);
    assert!(rt; sparse.labels().len() == places);
    assert!(rt; has_words_for(sparse.has_child(), places));
    assert!(rt; has_words_for(sparse.louds(), places));
    for node in cut..plain.node_count() {
        check_sparse_row(rt, sparse, plain, first, node);
    }
}
