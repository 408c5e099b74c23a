//! The kinds of lists that an image may be of.
use key_base::{MAX_HASH_BITS, MAX_REAL_BITS};

/// The most hash bits and real bits of a leaf, and whether a leaf may be alone in its node.
#[derive(Clone, Copy)]
pub(crate) struct Kind {
    pub(crate) hash_bits: u8,
    pub(crate) real_bits: u8,
    pub(crate) alone: bool,
}

/// A filter's, whose stubs are no longer than needed.
pub(crate) const STUBS: Kind = Kind {
    hash_bits: MAX_HASH_BITS,
    real_bits: MAX_REAL_BITS,
    alone: false,
};

/// Whole keys, which have no bits.
pub(crate) const WHOLE_KEYS: Kind = Kind {
    hash_bits: 0,
    real_bits: 0,
    alone: true,
};
